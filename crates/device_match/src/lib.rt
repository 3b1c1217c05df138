//! What selectors of devices evaluate to, exactly: one, several one after another, and lists of them on each of some
//! devices. The last remembers from one search to the next what was found before, which contracts don't see.
#![tactic(auto)]

mod device;
mod fingerprint;
mod known;
mod matching;
mod places;
mod same;
mod selection;
mod verdict;
mod verdicts;

pub use device::device_env;
pub use matching::match_both;
pub use selection::Selection;
pub use verdict::{evaluate, matches};
pub use verdicts::Verdicts;

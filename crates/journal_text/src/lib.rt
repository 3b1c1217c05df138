//! The text of a history: a line for each entry, lines of the kubelet, and a summary at the end.
#![tactic(auto)]

mod clean;
mod event;
mod failure;
mod journal;
mod kubelet;
mod laws;
mod totals;
mod worded;

pub use journal::{line, lines, push_line, push_lines};
pub use kubelet::kubelet_line;
pub use laws::{line_is_one_line, lines_of_more};
pub use totals::summary;

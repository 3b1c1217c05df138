//! A lock whose holders come in turn, over a state that has a history.
//!
//! Each thread enters with a pass of its own. A pass knows which history it saw last, and which
//! entries were made with it, and this knowledge survives the threads: when all passes are joined
//! again, each entry that was made under the lock belongs to exactly one of them. So what several
//! threads did can be attributed to them afterwards, though their turns came in any order.
//!
//! The lock hands out numbered tickets and serves them in order. A pass stores nothing but a count,
//! and entering, leaving, joining and closing allocate nothing. No clause states that a thread gets
//! its turn, only what holds once it has it.
#![tactic(auto)]

mod lock;
mod recorded;
mod steps;
mod turn;
mod view;

pub use lock::{Pass, Refused, TurnLock};
pub use recorded::Recorded;
pub use turn::Turn;

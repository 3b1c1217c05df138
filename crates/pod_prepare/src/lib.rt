//! The commands of a node's kubelet: the claims of a pod are prepared or given up one after another, as a state of the
//! cluster has them, and what became of each is a line.
#![tactic(auto)]

mod claim;
mod lazy;
mod line;
mod opening;
mod prepare;
mod unprepare;

pub use lazy::LazyKubelet;

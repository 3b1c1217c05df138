//! A script for measuring: a small cluster, and as many pods as asked for, each with a claim of its
//! own, some of which are released again. A number determines which claims ask for two devices, and
//! which pods are released.
#![tactic(auto)]

mod documents;
mod generator;
mod laid;
mod laws;
mod writing;

pub use laid::documents_are_laid;
pub use laws::documents_are_counted;
pub use writing::script;

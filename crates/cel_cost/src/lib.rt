//! How many steps the evaluation of a selector takes at most, before there is a device to evaluate it
//! on. The tables of this bound are this project's own.
#![tactic(auto)]

mod bounds;
mod laws;
mod parts;
mod trees;

pub use laws::bounds_have_the_type;
pub use trees::estimate;

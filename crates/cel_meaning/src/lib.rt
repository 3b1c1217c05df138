//! What selectors mean on a device and how many steps that takes: the definitions of the evaluation of
//! the selector language, this project's profile of the CEL language definition, and laws above them.
#![tactic(auto)]

mod connective;
mod laws;

pub use connective::{Connective, connective_of};
pub use laws::{cost_within_estimate, no_overload_without_dyn, values_have_their_types};

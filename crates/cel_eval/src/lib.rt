//! What selectors mean on a device: the evaluation of the selector language, this project's profile of
//! the CEL language definition, and the count of its steps.
#![tactic(auto)]

mod evaluate;
mod making;
mod parts;
mod scope;
mod selectors;
mod steps;

pub use cel_value::{DeviceEnv, EvalError, Single, Value};
pub use selectors::eval;
pub use steps::Steps;

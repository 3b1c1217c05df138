//! Selectors of devices: texts that were compiled, with a bound on the steps of their evaluation
//! (CELDeviceSelector of the Kubernetes API reference).
#![tactic(auto)]

mod compiled;
mod selector;

pub use compiled::{CompileError, Compiled, MOST_STEPS};
pub use selector::DeviceSelector;

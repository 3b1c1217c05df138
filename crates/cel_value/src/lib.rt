//! The values of the selector language, this project's profile of the CEL language definition: the
//! device that a selector is about, and what each operator and function means on values.
#![tactic(auto)]

mod amounts;
mod device;
mod error;
mod functions;
mod lookups;
mod operators;
mod scalars;
mod texts;
mod value;
mod version;

pub use device::DeviceEnv;
pub use error::EvalError;
pub use functions::{call, method};
pub use lookups::{device_member, elements, has, index, member};
pub use operators::{binary, unary};
pub use scalars::{constant, truth, weight};
pub use value::{Key, Single, Value};
pub use version::Version;

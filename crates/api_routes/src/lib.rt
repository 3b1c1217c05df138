//! What a request asks for, by its method and its path: the paths of the Kubernetes API for the five
//! kinds of objects, and those of this project's own commands.
#![tactic(auto)]

mod asked;
mod find;
mod kind;
mod method;
mod segment;
mod unserved;

pub use asked::{Asked, Route};
pub use find::route_of;
pub use kind::Kind;
pub use method::asked_of;
pub use unserved::Unserved;

//! The trees of the selector language, a profile of the CEL language definition, with the types and
//! the tables of its operators and functions, and what contracts see of them.
#![tactic(auto)]

mod calls;
mod checked;
mod fault;
mod laws;
mod make;
mod names;
mod scope;
mod tables;
mod tree;
mod types;

pub use calls::{Arguments, Called, Comprehension, Function, call_type, called_of, method_type};
pub use checked::Checked;
pub use fault::{
    Fault, called_type, comprehension_type, item_type, joined, method_called_type, row,
};
pub use laws::{has_one_type, nodes_have_their_lists, types_are_found};
pub use names::{is_bind, is_ident, variable_of};
pub use scope::Scope;
pub use tables::{
    binary_type, conditional_type, element_type, index_type, member_type, unary_type,
};
pub use tree::{BinaryOp, Entry, Kind, Literal, Span, Tree, UnaryOp};
pub use types::{CelType, Facet, KeyType, Scalar};

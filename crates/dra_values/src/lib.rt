//! Values that contracts see whole: texts as their bytes, lists as their items, tables as their
//! entries. Everything above them is ordinary structs and enums, and clauses compare these by `≡`.
#![tactic(auto)]

mod duplicate;
mod seq;
mod shared;
mod table;
mod text;

pub use duplicate::Duplicate;
pub use seq::Seq;
pub use shared::Shared;
pub use table::Table;
pub use text::Text;

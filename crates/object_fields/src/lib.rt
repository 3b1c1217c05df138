//! Readers of the fields of JSON objects. Each returns the value that is there, or the first error
//! with its path; names and keys are defined here too.
#![tactic(auto)]

mod by_name;
mod error;
mod fields;
mod items;
mod key;
mod kind;
mod laws;
mod limits;
mod meta;
mod names;
mod naming;
mod optional;
mod path;
mod qualified;
mod selectors;

pub use by_name::{ByName, HasName};
pub use error::{FieldError, or_memory};
pub use fields::{borrowed, field, list, member, object, table, text, truth, whole};
pub use items::{ReadItem, optional_items, read_items};
pub use key::{DeviceId, Key};
pub use kind::{FieldErrorKind, Stage};
pub use laws::{
    labels_are_names, lists_keep_limits, longer_lists_are_too_many, metadata_keeps_limits,
    names_are_new,
};
pub use limits::{natural, short_list, signed, value_object, value_table, value_text};
pub use meta::{ObjectMeta, Scope};
pub use names::{dns_label, dns_name, dns_subdomain, pool_name};
pub use naming::{label_of, named, read_dns_label, read_dns_subdomain, read_pool_name};
pub use optional::{
    optional_dns_label, optional_list, optional_natural, optional_object, optional_short_list,
    optional_signed, optional_table, optional_text, optional_truth, unset,
};
pub use path::{FieldPath, Path, Step};
pub use qualified::QualName;
pub use selectors::read_selectors;

//! A map whose copies share what is equal in them.
//!
//! `SharedMap` is seen in contracts as its entries, in strictly increasing order of their keys, as
//! `dra_values`' `Table` is. Its entries lie in chunks of a few, the chunks in groups, and a copy shares
//! the list of groups. A change while copies are alive copies that list, one group's list of chunks and one
//! chunk, and all else stays shared; a change while none are is made in place.
#![tactic(auto)]

mod chunk;
mod entries;
mod error;
mod group;
mod groups;
mod place;
mod sharing;

pub use entries::Entries;
pub use error::NoValue;
pub use place::Place;
pub use sharing::SharedMap;

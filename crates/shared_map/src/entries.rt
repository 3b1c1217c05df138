ghost use Rattle.std.specs.Prelude.{◌≡◌};
ghost use Rattle.std.specs.Iterator.{YieldsFirstBy, item_count};
ghost use Rattle.shared_map.specs.Chunks.{joined};

use crate::chunk::Chunk;
use crate::group::Group;
use dra_values::Shared;
use std::marker::Model;

/// The entries of a map that are left to go over, in the order of their keys. Contracts see the list
/// of these entries.
#[derive(Drop)]
pub struct Entries<'a, K: Ord, V> {
    first: EntriesInGroup<'a, K, V>,
    later: &'a [Shared<Group<K, V>>],
}

impl<'a, K: Ord, V> Model for Entries<'a, K, V> {
    ghost use Rattle.std.specs.Prelude.{List, ◌++◌};
    ghost use Rattle.shared_map.specs.Chunks.{joined};

    ghost Value = { List (K × V) };

    ghost view = { λ e. e.first ++ joined e.later.now };
}

impl<'a, K: Ord, V> Entries<'a, K, V> {
    /// The entries of groups, one group after another.
    pub(crate) fn new(groups: &'a [Shared<Group<K, V>>]) -> Entries<'a, K, V>
        ensures { result ≡ joined groups.now }
    {
        Entries {
            first: EntriesInGroup::new(&[]),
            later: groups,
        }
    }
}

impl<'a, K: Ord, V> Iterator for Entries<'a, K, V> {
    type Item = (&'a K, &'a V);

    ghost next_gives = { YieldsFirstBy (λ e. (e.0.now, e.1.now)) (λ s. s) };

    ghost remaining = { item_count (λ s. s) };

    fn next(&mut self) -> Option<(&'a K, &'a V)> {
        loop {
            if let Some(entry) = self.first.next_entry() {
                return Some(entry);
            }
            let (group, later) = self.later.split_first()?;
            self.first = EntriesInGroup::new(group.chunks());
            self.later = later;
        }
    }
}

/// The entries of a group that are left to go over.
#[derive(Drop)]
struct EntriesInGroup<'a, K: Ord, V> {
    first: &'a [(K, V)],
    later: &'a [Shared<Chunk<K, V>>],
}

impl<'a, K: Ord, V> Model for EntriesInGroup<'a, K, V> {
    ghost use Rattle.std.specs.Prelude.{List, ◌++◌};
    ghost use Rattle.shared_map.specs.Chunks.{joined};

    ghost Value = { List (K × V) };

    ghost view = { λ e. e.first.now ++ joined e.later.now };
}

impl<'a, K: Ord, V> EntriesInGroup<'a, K, V> {
    /// The entries of chunks, one chunk after another.
    fn new(chunks: &'a [Shared<Chunk<K, V>>]) -> EntriesInGroup<'a, K, V>
        ensures { result ≡ joined chunks.now }
    {
        EntriesInGroup {
            first: &[],
            later: chunks,
        }
    }

    /// The next entry, or `None` if none are left.
    fn next_entry(&mut self) -> Option<(&'a K, &'a V)>
        ensures { YieldsFirstBy (λ e. (e.0.now, e.1.now)) (λ s. s) self.old result self.new }
    {
        while self.first.is_empty() {
            let (chunk, later) = self.later.split_first()?;
            self.first = chunk.entries();
            self.later = later;
        }
        let (entry, others) = self.first.split_first()?;
        self.first = others;
        Some((&entry.0, &entry.1))
    }
}

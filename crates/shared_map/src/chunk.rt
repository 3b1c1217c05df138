ghost use Rattle.std.specs.Prelude.{◌≡◌, ◌+◌, ◌<◌, ◌≤◌, ◌++◌, ◌==◌, [], length, slice_index_or, IfOk, IfErr, IfSome, IsErrOf, OnOk, OnErr, Some, None, option_map, if◌then◌else◌};
ghost use Rattle.std.specs.BTreeMap.{insert_entry, is_at};
ghost use Rattle.std.specs.List.Sorted.{IsStrictlySortedBy};
ghost use Rattle.std.specs.Map.{keys_of, lookup, lookup_entry, remove_entry};
ghost use Rattle.shared_map.specs.Chunks.{IsEntry, IsGap, IsHit, begins_above};
ghost use Rattle.shared_map.specs.declared.error.NoValue.TheVariants.{Missing};

use crate::NoValue;
use dra_values::Duplicate;
use std::alloc::{AllocError, Global};
use std::cmp::Ordering;
use std::marker::Model;

/// Entries of a map that lie together, in strictly increasing order of their keys.
#[derive(Drop)]
pub(crate) struct Chunk<K: Ord, V> {
    entries: Vec<(K, V)>,
}

impl<K: Ord, V> Model for Chunk<K, V> {
    ghost use Rattle.std.specs.Prelude.{List};
    ghost use Rattle.std.specs.List.Sorted.{IsStrictlySortedBy};
    ghost use Rattle.std.specs.Map.{keys_of};

    ghost Value = { List (K × V) };

    ghost view = { λ c. c.entries.items };

    ghost invariant = { λ c. IsStrictlySortedBy K.cmp (keys_of c.entries.items) };
}

impl<K: Ord, V> Chunk<K, V> {
    ghost use Rattle.std.specs.Borrow.{sem};
    ghost use Rattle.shared_map.specs.Lent.{LendsAt, LendsInChunk};

    /// The entries, first to last.
    pub(crate) fn entries(&self) -> &[(K, V)]
        ensures { result.now ≡ self.now }
    {
        &self.entries
    }

    /// Whether there are no entries.
    pub(crate) fn is_empty(&self) -> bool
        ensures { result ≡ (length self.now == 0) }
    {
        self.entries.is_empty()
    }

    /// Whether the first entry has a key above a key.
    pub(crate) fn begins_above(&self, key: &K) -> bool
        ensures { result ≡ begins_above K.cmp key.now self.now }
    {
        match self.entries.first() {
            Some(entry) => key.cmp(&entry.0).is_lt(),
            None => false,
        }
    }

    /// The chunk of no entries. Allocates nothing until the first entry.
    pub(crate) fn new(alloc: Global) -> Chunk<K, V>
        ensures { result ≡ [] }
    {
        Chunk {
            entries: Vec::new(alloc),
        }
    }

    /// The index of a key's entry, or, if it has none, the index at which it would be.
    fn find(&self, key: &K) -> Result<usize, usize>
        ensures hit { IfOk result (λ at. IsHit K.cmp key.now self.now at) }
        ensures gap { IfErr result (λ at. IsGap K.cmp key.now self.now at) }
    {
        find_entry(&self.entries, key)
    }

    /// The entry of a key, or `None` if it has none.
    pub(crate) fn get_key_value(&self, key: &K) -> Option<(&K, &V)>
        ensures { option_map (λ e. (e.0.now, e.1.now)) result ≡ lookup_entry (is_at (K.cmp key.now)) self.now }
    {
        match self.find(key) {
            Ok(at) => {
                let entry = &self.entries[at];
                Some((&entry.0, &entry.1))
            }
            Err(_) => None,
        }
    }

    /// The entry at an index, or `None` if there is none.
    pub(crate) fn at(&self, entry: usize) -> Option<(&K, &V)>
        ensures { IfSome result (λ e. IsEntry self.now e.0.now e.1.now) }
    {
        let entry = self.entries.get(entry)?;
        Some((&entry.0, &entry.1))
    }

    /// The index of a key's entry, or, if it has none, the index at which it would be.
    pub(crate) fn place(&self, key: &K) -> usize {
        match self.find(key) {
            Ok(at) => at,
            Err(at) => at,
        }
    }

    /// The value of the entry at an index, to be changed.
    fn value_mut(&mut self, at: usize) -> &mut V
        requires { at < length self.old }
        ensures* writes_back { sem 𝓛 (LendsAt K.row V.row K.Ord self.entry at result) }
        ensures value { (d : K × V) → (slice_index_or self.old at d).1 ≡ result.now }
    {
        let entry = &mut self.entries[at];
        &mut entry.1
    }

    /// The value at a key, to be changed. Returns `Missing` only if the key has no entry, and then the
    /// entries are unchanged.
    pub(crate) fn get_mut(&mut self, key: &K) -> Result<&mut V, NoValue>
        ensures* writes_back { sem 𝓛 (LendsInChunk K.row V.row K.Ord self.entry key.now result) }
        ensures value { IfOk result (λ lent. lookup (is_at (K.cmp key.now)) self.old ≡ Some lent.now) }
        ensures missing { IsErrOf result Missing → (lookup (is_at (K.cmp key.now)) self.old ≡ None) }
    {
        match self.find(key) {
            Ok(at) => Ok(self.value_mut(at)),
            Err(_) => Err(NoValue::Missing),
        }
    }

    /// Cuts off the upper half of the entries, as a chunk of their own. Returns `AllocError` only if out
    /// of memory, and then the entries are unchanged.
    pub(crate) fn split_off(&mut self) -> Result<Chunk<K, V>, AllocError>
        requires { 2 ≤ length self.old }
        ensures same { IfOk result (λ upper. self.new ++ upper ≡ self.old) }
        ensures lower { OnOk result (0 < length self.new) }
        ensures upper { IfOk result (λ upper. 0 < length upper) }
        ensures err { OnErr result (self.new ≡ self.old) }
    {
        let half = self.entries.len() / 2;
        Ok(Chunk {
            entries: self.entries.split_off(half)?,
        })
    }
}

impl<K: Ord + Drop, V: Drop> Chunk<K, V> {
    /// Puts a value at a key, and returns whether the key is new. Returns `AllocError` only if out of
    /// memory, and then the entries are unchanged.
    pub(crate) fn insert(&mut self, key: K, value: V) -> Result<bool, AllocError>
        ensures ok { OnOk result (self.new ≡ insert_entry K.cmp self.old key value) }
        ensures count { IfOk result (λ is_new. length self.new ≡ (if is_new then length self.old + 1 else length self.old)) }
        ensures err { OnErr result (self.new ≡ self.old) }
    {
        match self.find(&key) {
            Ok(at) => {
                *self.value_mut(at) = value;
                Ok(false)
            }
            Err(at) => {
                self.entries.insert(at, (key, value))?;
                Ok(true)
            }
        }
    }

    /// Removes the entry of a key, and returns its value, or `None` if the key has no entry.
    pub(crate) fn remove(&mut self, key: &K) -> Option<V>
        ensures value { result ≡ lookup (is_at (K.cmp key.now)) self.old }
        ensures rest { self.new ≡ remove_entry (is_at (K.cmp key.now)) self.old }
    {
        match self.find(key) {
            Ok(at) => {
                let (_key, value) = self.entries.remove(at);
                Some(value)
            }
            Err(_) => None,
        }
    }
}

/// An equal chunk of its own.
impl<K: Ord + Duplicate + Drop, V: Duplicate + Drop> Duplicate for Chunk<K, V> {
    fn duplicate(&self, alloc: Global) -> Result<Chunk<K, V>, AllocError> {
        Ok(Chunk {
            entries: copy_entries(&self.entries, alloc)?,
        })
    }
}

/// Equal entries, with room for one more.
fn copy_entries<K: Duplicate + Drop, V: Duplicate + Drop>(
    entries: &[(K, V)],
    alloc: Global,
) -> Result<Vec<(K, V)>, AllocError>
    ensures { IfOk result (λ copy. copy.items ≡ entries.now) }
{
    let mut copy = Vec::with_capacity(alloc, entries.len().saturating_add(1))?;
    for entry in entries {
        copy.push(entry.duplicate(alloc)?)?;
    }
    Ok(copy)
}

/// The index of a key's entry, or, if it has none, the index at which it would be.
fn find_entry<K: Ord, V>(entries: &[(K, V)], key: &K) -> Result<usize, usize>
    requires { IsStrictlySortedBy K.cmp (keys_of entries.now) }
    ensures hit { IfOk result (λ at. IsHit K.cmp key.now entries.now at) }
    ensures gap { IfErr result (λ at. IsGap K.cmp key.now entries.now at) }
{
    let mut from = 0;
    let mut to = entries.len();
    while from < to {
        let middle = from + (to - from) / 2;
        match key.cmp(&entries[middle].0) {
            Ordering::Less => to = middle,
            Ordering::Greater => from = middle + 1,
            Ordering::Equal => return Ok(middle),
        }
    }
    Err(from)
}

ghost use Rattle.std.specs.Prelude.{◌≡◌, ◌↔◌, [], length, IfOk, IfSome, IsErrOf, OnOk, OnErr, Some, None, is_some, option_copied, option_map};
ghost use Rattle.std.specs.Bool.{IsTrue};
ghost use Rattle.std.specs.BTreeMap.{insert_entry, is_at};
ghost use Rattle.std.specs.List.Sorted.{IsStrictlySortedBy};
ghost use Rattle.std.specs.Map.{keys_of, lookup, lookup_key, remove_entry};
ghost use Rattle.std.specs.declared.cmp.Ordering.TheVariants.{Equal};
ghost use Rattle.shared_map.specs.Chunks.{IsEntry};
ghost use Rattle.shared_map.specs.declared.error.NoValue.TheVariants.{Missing};

use crate::groups::Groups;
use crate::{Entries, NoValue, Place};
use dra_values::{Duplicate, Shared};
use std::alloc::{AllocError, Global};
use std::marker::Model;

/// A map that contracts see as its entries, in strictly increasing order of their keys, and whose
/// copies share what is equal in them.
///
/// `share` makes a copy without allocating anything. The entries lie in chunks of less than 16, and the
/// chunks in groups of less than 128. A call that changes a map while copies of it are alive first copies
/// the list of groups, the list of one group's chunks, and the one chunk that it changes, and the copies
/// keep the old entries.
///
/// Contracts don't count copies. That a map with none is changed in place is how the calls are
/// written, and no clause says it.
#[derive(Drop)]
pub struct SharedMap<K: Ord, V> {
    groups: Shared<Groups<K, V>>,
    count: usize,
}

impl<K: Ord, V> Model for SharedMap<K, V> {
    ghost use Rattle.std.specs.Prelude.{◌≡◌, List, length};

    ghost Value = { List (K × V) };

    ghost view = { λ m. m.groups };

    ghost invariant = { λ m. m.count ≡ length m.groups };
}

impl<K: Ord, V> SharedMap<K, V> {
    /// To go over the entries in the order of their keys: `for (key, value) in map.iter()`.
    pub fn iter(&self) -> Entries<'_, K, V>
        ensures { result ≡ self.now }
    {
        Entries::new(self.groups.value().groups())
    }

    /// How many entries.
    pub fn len(&self) -> usize
        ensures { result ≡ length self.now }
    {
        self.count
    }

    /// Whether there are no entries.
    pub fn is_empty(&self) -> bool
        ensures { IsTrue result ↔ (self.now ≡ []) }
    {
        self.len() == 0
    }

    /// States that the keys strictly increase from each entry to the next, so that no key appears
    /// twice.
    pub fn in_order(&self)
        ensures { IsStrictlySortedBy K.cmp (keys_of self.now) }
    {
        self.groups.value().in_order()
    }

    /// The entry of a key, or `None` if it has none: the key as the map has it, and the value.
    pub fn get_key_value(&self, key: &K) -> Option<(&K, &V)>
        ensures key { option_map (λ e. e.0.now) result ≡ lookup_key (is_at (K.cmp key.now)) self.now }
        ensures same_key { IfSome result (λ e. K.cmp key.now e.0.now ≡ Equal) }
        ensures value { option_map (λ e. e.1.now) result ≡ lookup (is_at (K.cmp key.now)) self.now }
    {
        self.groups.value().get_key_value(key)
    }

    /// The entry at a place (`place`), or `None` if there is none: a few steps and no comparison of keys.
    pub fn at(&self, place: Place) -> Option<(&K, &V)>
        ensures { IfSome result (λ e. IsEntry self.now e.0.now e.1.now) }
    {
        self.groups.value().at(place)
    }

    /// Where the entry of a key lies, if it has one. No clause says so: what is found at any place is an entry, and
    /// whether it is the key's is seen by its key.
    pub fn place(&self, key: &K) -> Place {
        self.groups.value().place(key)
    }

    /// An equal map, which shares all entries. Allocates nothing; returns `AllocError` only if the
    /// count of copies is full, at 2^63 - 1.
    pub fn share(&self) -> Result<SharedMap<K, V>, AllocError>
        ensures { IfOk result (λ other. other ≡ self.now) }
    {
        Ok(SharedMap {
            groups: self.groups.share()?,
            count: self.count,
        })
    }
}

impl<K: Ord + Drop, V: Drop> SharedMap<K, V> {
    /// The map of no entries. Returns `AllocError` only if out of memory.
    pub fn new(alloc: Global) -> Result<SharedMap<K, V>, AllocError>
        ensures { IfOk result (λ map. map ≡ []) }
    {
        Ok(SharedMap {
            groups: Shared::new(alloc, Groups::new(alloc))?,
            count: 0,
        })
    }

    /// The value at a key, or `None` if the key has no entry.
    pub fn get(&self, key: &K) -> Option<&V>
        ensures { option_copied result ≡ lookup (is_at (K.cmp key.now)) self.now }
    {
        match self.get_key_value(key) {
            Some((_, value)) => Some(value),
            None => None,
        }
    }

    /// Whether a key has an entry.
    pub fn contains_key(&self, key: &K) -> bool
        ensures { result ≡ is_some (lookup (is_at (K.cmp key.now)) self.now) }
    {
        self.get(key).is_some()
    }
}

impl<K: Ord + Duplicate + Drop, V: Duplicate + Drop> SharedMap<K, V> {
    ghost use Rattle.std.specs.Borrow.{sem};
    ghost use Rattle.shared_map.specs.Lent.{LendsEntry};

    /// The value at a key, to be changed in place. Returns `Missing` only if the key has no entry, and
    /// `Memory` only if out of memory; then the entries are unchanged.
    pub fn get_mut(&mut self, alloc: Global, key: &K) -> Result<&mut V, NoValue>
        ensures* writes_back { sem 𝓛 (LendsEntry K.row V.row K.Ord self.entry key.now result) }
        ensures value { IfOk result (λ lent. lookup (is_at (K.cmp key.now)) self.old ≡ Some lent.now) }
        ensures missing { IsErrOf result Missing → (lookup (is_at (K.cmp key.now)) self.old ≡ None) }
    {
        let groups = self.groups.change(alloc)?;
        groups.get_mut(alloc, key)
    }

    /// Puts a value at a key. If the key has an entry, the entry gets the value; else a new entry is
    /// inserted in the order of the keys. Returns `AllocError` only if out of memory, and then the
    /// entries are unchanged.
    pub fn insert(&mut self, alloc: Global, key: K, value: V) -> Result<(), AllocError>
        ensures ok { OnOk result (self.new ≡ insert_entry K.cmp self.old key value) }
        ensures err { OnErr result (self.new ≡ self.old) }
    {
        let Some(count) = self.count.checked_add(1) else {
            return Err(AllocError);
        };
        if self.groups.change(alloc)?.insert(alloc, key, value)? {
            self.count = count;
        }
        Ok(())
    }

    /// Removes the entry of a key, and returns its value, or `None` if the key has no entry. Returns
    /// `AllocError` only if out of memory, and then the entries are unchanged.
    pub fn remove(&mut self, alloc: Global, key: &K) -> Result<Option<V>, AllocError>
        ensures value { IfOk result (λ value. value ≡ lookup (is_at (K.cmp key.now)) self.old) }
        ensures rest { OnOk result (self.new ≡ remove_entry (is_at (K.cmp key.now)) self.old) }
        ensures err { OnErr result (self.new ≡ self.old) }
    {
        let value = self.groups.change(alloc)?.remove(alloc, key)?;
        if value.is_some() {
            self.count -= 1;
        }
        Ok(value)
    }
}

/// A duplicate is a copy that shares all entries.
impl<K: Ord, V> Duplicate for SharedMap<K, V> {
    fn duplicate(&self, _alloc: Global) -> Result<SharedMap<K, V>, AllocError> {
        self.share()
    }
}

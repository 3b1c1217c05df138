ghost use Rattle.std.specs.Prelude.{◌≡◌, ◌↔◌, [], length, IfOk, OnOk, OnErr, Some, ◌&&◌, is_some, option_copied};
ghost use Rattle.std.specs.Option.{option_copied_mut};
ghost use Rattle.std.specs.Bool.{IsTrue};
ghost use Rattle.std.specs.Fmt.{DisplaysOnOk, ◌++?◌, debug_items};
ghost use Rattle.dra_values.specs.Shown.{debug_entry};
ghost use Rattle.std.specs.Cmp.{and_equiv, and_per, on_equiv, on_per};
ghost use Rattle.std.specs.Cmp.Lexicographic.{lists_equiv, lists_per, pointwise};
ghost use Rattle.std.specs.BTreeMap.{insert_entry, is_at};
ghost use Rattle.std.specs.List.Sorted.{IsStrictlySortedBy};
ghost use Rattle.std.specs.Map.{keys_of, lookup, remove_entry};

use crate::Duplicate;
use std::alloc::{AllocError, Global};
use std::collections::BTreeMap;
use std::fmt;
use std::marker::Model;

/// A map that contracts see as its entries, in strictly increasing order of their keys: each key
/// appears at most once. `in_order` states this for every table.
#[derive(Drop)]
pub struct Table<K: Ord, V> {
    map: BTreeMap<K, V>,
}

impl<K: Ord, V> Model for Table<K, V> {
    ghost use Rattle.std.specs.Prelude.{List};

    ghost Value = { List (K × V) };

    ghost view = { λ t. t.map.entries };
}

impl<K: Ord, V> Table<K, V> {
    /// The table of a map's entries. Allocates nothing.
    pub fn from_map(map: BTreeMap<K, V>) -> Table<K, V>
        ensures { result ≡ map.entries }
    {
        Table { map }
    }

    /// The entries back, as a map. Allocates nothing.
    pub fn into_map(self) -> BTreeMap<K, V>
        ensures { result.entries ≡ self }
    {
        self.map
    }

    /// The entries as a map, to go over them in the order of their keys.
    pub fn as_map(&self) -> &BTreeMap<K, V>
        ensures { result.now.entries ≡ self.now }
    {
        &self.map
    }

    /// How many entries.
    pub fn len(&self) -> usize
        ensures { result ≡ length self.now }
    {
        self.map.len()
    }

    /// Whether there are no entries.
    pub fn is_empty(&self) -> bool
        ensures { IsTrue result ↔ (self.now ≡ []) }
    {
        self.map.is_empty()
    }

    /// States that the keys strictly increase from each entry to the next, so that no key appears
    /// twice.
    pub fn in_order(&self)
        ensures { IsStrictlySortedBy K.cmp (keys_of self.now) }
    {
        let _entries = self.map.len();
    }
}

impl<K: Ord + Drop, V: Drop> Table<K, V> {
    ghost use Rattle.std.specs.Borrow.{sem};
    ghost use Rattle.dra_values.specs.Lent.{LendsValue};

    /// The table of no entries. Allocates nothing until the first entry.
    pub fn new(alloc: Global) -> Table<K, V>
        ensures { result ≡ [] }
    {
        Table {
            map: BTreeMap::new(alloc),
        }
    }

    /// The value at a key, or `None` if the key has no entry.
    pub fn get(&self, key: &K) -> Option<&V>
        ensures { option_copied result ≡ lookup (is_at (K.cmp key.now)) self.now }
    {
        self.map.get(key)
    }

    /// Whether a key has an entry.
    pub fn contains_key(&self, key: &K) -> bool
        ensures { result ≡ is_some (lookup (is_at (K.cmp key.now)) self.now) }
    {
        self.map.contains_key(key)
    }

    /// The value at a key, to be changed, or `None` if the key has no entry.
    pub fn get_mut(&mut self, key: &K) -> Option<&mut V>
        ensures* writes_back { sem 𝓛 (LendsValue K.row V.row K.Ord self.entry key.now result) }
        ensures value { option_copied_mut result ≡ lookup (is_at (K.cmp key.now)) self.old }
    {
        self.map.get_mut(key)
    }

    /// Puts a value at a key. If the key has an entry, the entry gets the value; else a new entry is
    /// inserted in the order of the keys. Returns `AllocError` only if out of memory, and then the
    /// entries are unchanged.
    pub fn insert(&mut self, key: K, value: V) -> Result<(), AllocError>
        ensures ok { OnOk result (self.new ≡ insert_entry K.cmp self.old key value) }
        ensures err { OnErr result (self.new ≡ self.old) }
    {
        self.map.insert(key, value)?;
        Ok(())
    }

    /// Removes the entry of a key, and returns its value, or `None` if the key has no entry.
    pub fn remove(&mut self, key: &K) -> Option<V>
        ensures value { result ≡ lookup (is_at (K.cmp key.now)) self.old }
        ensures rest { self.new ≡ remove_entry (is_at (K.cmp key.now)) self.old }
    {
        self.map.remove(key)
    }
}

impl<K: Ord + Duplicate + Drop, V: Duplicate + Drop> Table<K, V> {
    /// An equal table. Returns `AllocError` only if out of memory.
    pub fn copy(&self, alloc: Global) -> Result<Table<K, V>, AllocError>
        ensures { IfOk result (λ copy. copy ≡ self.now) }
    {
        let mut copy = Table::new(alloc);
        for (key, value) in self.as_map() {
            let key = key.duplicate(alloc)?;
            copy.insert(key, value.duplicate(alloc)?)?;
        }
        Ok(copy)
    }
}

/// Tables are equal if and only if their entries are, in order.
impl<K: Ord, V: PartialEq> PartialEq for Table<K, V> {
    ghost eq = { pointwise (λ p q. K.eq p.0 q.0 && V.eq p.1 q.1) };

    ghost laws = { lists_per (and_per (on_per (λ p. p.0) K.PartialEq.laws) (on_per (λ p. p.1) V.laws)) };

    fn eq(&self, other: &Table<K, V>) -> bool {
        self.as_map() == other.as_map()
    }
}

impl<K: Ord, V: Eq> Eq for Table<K, V> {
    ghost laws = { lists_equiv (and_equiv (on_equiv (λ p. p.0) K.Eq.laws) (on_equiv (λ p. p.1) V.Eq.laws)) };
}

/// In braces, as Rust shows a map. The clause (`debug_output`) states this for `{:?}` without options.
impl<K: Ord + fmt::Debug, V: fmt::Debug> fmt::Debug for Table<K, V> {
    ghost use Rattle.dra_values.specs.Shown.{debug_table};

    ghost debug_output = { debug_table K.debug_output V.debug_output };

    fn fmt<W: fmt::Write>(&self, f: &mut fmt::Formatter<W>) -> fmt::Result {
        if f.alternate() {
            return fmt::Debug::fmt(&self.map, f);
        }
        f.write_str("{")?;
        show_entries(&self.map, f)?;
        f.write_str("}")
    }
}

/// Writes the entries of a map, separated by commas. std's own `debug_map` writes the same, but none
/// of its clauses states what it writes.
fn show_entries<K: Ord + fmt::Debug, V: fmt::Debug, W: fmt::Write>(
    map: &BTreeMap<K, V>,
    f: &mut fmt::Formatter<W>,
) -> fmt::Result
    ensures { DisplaysOnOk W.write_str_gives f.old result (debug_items (debug_entry K.debug_output V.debug_output) [] map.now.entries) f.new }
{
    let mut first = true;
    for (key, value) in map {
        let lead = if first { "" } else { ", " };
        show_entry(lead, key, value, f)?;
        first = false;
    }
    Ok(())
}

/// Writes what precedes an entry, and then its key, a colon and a space, and its value.
fn show_entry<K: fmt::Debug, V: fmt::Debug, W: fmt::Write>(
    lead: &str,
    key: &K,
    value: &V,
    f: &mut fmt::Formatter<W>,
) -> fmt::Result
    ensures { DisplaysOnOk W.write_str_gives f.old result (Some lead.now ++? debug_entry K.debug_output V.debug_output (key.now, value.now)) f.new }
{
    f.write_str(lead)?;
    key.fmt(f)?;
    f.write_str(": ")?;
    value.fmt(f)
}

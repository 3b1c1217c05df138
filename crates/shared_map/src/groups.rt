ghost use Rattle.std.specs.Prelude.{◌≡◌, ◌+◌, ◌<◌, ◌≤◌, ◌++◌, [], ◌∷◌, length, IfOk, IfSome, IsErrOf, OnOk, OnErr, Some, None, option_map, if◌then◌else◌};
ghost use Rattle.std.specs.BTreeMap.{insert_entry, is_at};
ghost use Rattle.std.specs.List.{AllByRecursion, remove};
ghost use Rattle.std.specs.List.Sorted.{IsStrictlySortedBy};
ghost use Rattle.std.specs.Map.{keys_of, lookup, lookup_entry, remove_entry};
ghost use Rattle.shared_map.specs.Chunks.{joined, AreChunks, IsChunkOf, IsEntry, begins_above};
ghost use Rattle.shared_map.specs.declared.error.NoValue.TheVariants.{Missing};

use crate::group::{Group, share_each};
use crate::{NoValue, Place};
use dra_values::{Duplicate, Shared};
use std::alloc::{AllocError, Global};
use std::marker::Model;

/// A group that has as many chunks is split in halves. A change while a copy is alive counts one more owner
/// of each chunk of one group and of each group; with so many chunks to a group both are some 200 at 100,000
/// entries.
const GROUP_MOST: usize = 128;

/// The groups of a map, in the order of their keys, which copies of the list share.
#[derive(Drop)]
pub(crate) struct Groups<K: Ord, V> {
    groups: Vec<Shared<Group<K, V>>>,
}

impl<K: Ord, V> Model for Groups<K, V> {
    ghost use Rattle.std.specs.Prelude.{List};
    ghost use Rattle.shared_map.specs.Chunks.{joined, AreChunks};

    ghost Value = { List (K × V) };

    ghost view = { λ g. joined g.groups.items };

    ghost invariant = { λ g. AreChunks K.cmp g.groups.items };
}

impl<K: Ord, V> Groups<K, V> {
    /// The groups, first to last.
    pub(crate) fn groups(&self) -> &[Shared<Group<K, V>>]
        ensures { joined result.now ≡ self.now }
    {
        &self.groups
    }

    /// States that the keys strictly increase from each entry to the next.
    pub(crate) fn in_order(&self)
        ensures { IsStrictlySortedBy K.cmp (keys_of self.now) }
    {
        let _groups = &self.groups;
    }

    /// No groups. Allocates nothing until the first entry.
    pub(crate) fn new(alloc: Global) -> Groups<K, V>
        ensures { result ≡ [] }
    {
        Groups {
            groups: Vec::new(alloc),
        }
    }

    /// The entry of a key, or `None` if it has none.
    pub(crate) fn get_key_value(&self, key: &K) -> Option<(&K, &V)>
        ensures { option_map (λ e. (e.0.now, e.1.now)) result ≡ lookup_entry (is_at (K.cmp key.now)) self.now }
    {
        if self.groups.is_empty() {
            return None;
        }
        let at = group_of(&self.groups, key);
        self.groups[at].get_key_value(key)
    }

    /// The entry at a place, or `None` if there is none.
    pub(crate) fn at(&self, place: Place) -> Option<(&K, &V)>
        ensures { IfSome result (λ e. IsEntry self.now e.0.now e.1.now) }
    {
        let group = self.groups.get(place.group)?;
        group.at(place.chunk, place.entry)
    }

    /// Where the entry of a key is, if it has one.
    pub(crate) fn place(&self, key: &K) -> Place {
        if self.groups.is_empty() {
            return Place::first();
        }
        let group = group_of(&self.groups, key);
        let (chunk, entry) = self.groups[group].place(key);
        Place {
            group,
            chunk,
            entry,
        }
    }
}

impl<K: Ord + Duplicate + Drop, V: Duplicate + Drop> Groups<K, V> {
    ghost use Rattle.std.specs.Borrow.{sem};
    ghost use Rattle.shared_map.specs.Lent.{LendsInGroups};

    /// The value at a key, to be changed. Returns `Missing` only if the key has no entry, and `Memory`
    /// only if out of memory; then the entries are unchanged.
    pub(crate) fn get_mut(&mut self, alloc: Global, key: &K) -> Result<&mut V, NoValue>
        ensures* writes_back { sem 𝓛 (LendsInGroups K.row V.row K.Ord self.entry key.now result) }
        ensures value { IfOk result (λ lent. lookup (is_at (K.cmp key.now)) self.old ≡ Some lent.now) }
        ensures missing { IsErrOf result Missing → (lookup (is_at (K.cmp key.now)) self.old ≡ None) }
    {
        if self.groups.is_empty() {
            return Err(NoValue::Missing);
        }
        let at = group_of(&self.groups, key);
        let group = &mut self.groups[at];
        let group = group.change(alloc)?;
        match group.get_mut(alloc, key) {
            Ok(value) => Ok(value),
            Err(reason) => Err(reason),
        }
    }

    /// Puts a value at a key, and returns whether the key is new. Returns `AllocError` only if out of
    /// memory, and then the entries are unchanged.
    pub(crate) fn insert(&mut self, alloc: Global, key: K, value: V) -> Result<bool, AllocError>
        ensures ok { OnOk result (self.new ≡ insert_entry K.cmp self.old key value) }
        ensures count { IfOk result (λ is_new. length self.new ≡ (if is_new then length self.old + 1 else length self.old)) }
        ensures err { OnErr result (self.new ≡ self.old) }
    {
        if self.groups.is_empty() {
            put_first(&mut self.groups, alloc, key, value)?;
            return Ok(true);
        }
        let at = group_of(&self.groups, &key);
        let is_new = put_in(&mut self.groups[at], alloc, key, value)?;
        let _ = split(&mut self.groups, alloc, at);
        Ok(is_new)
    }

    /// Removes the entry of a key, and returns its value, or `None` if the key has no entry. Returns
    /// `AllocError` only if out of memory, and then the entries are unchanged.
    pub(crate) fn remove(&mut self, alloc: Global, key: &K) -> Result<Option<V>, AllocError>
        ensures value { IfOk result (λ value. value ≡ lookup (is_at (K.cmp key.now)) self.old) }
        ensures rest { OnOk result (self.new ≡ remove_entry (is_at (K.cmp key.now)) self.old) }
        ensures err { OnErr result (self.new ≡ self.old) }
    {
        if self.groups.is_empty() {
            return Ok(None);
        }
        let at = group_of(&self.groups, key);
        let value = take_from(&mut self.groups[at], alloc, key)?;
        drop_empty(&mut self.groups, at);
        Ok(value)
    }
}

/// The same groups, each with one more owner.
impl<K: Ord + Drop, V: Drop> Duplicate for Groups<K, V> {
    fn duplicate(&self, alloc: Global) -> Result<Groups<K, V>, AllocError> {
        Ok(Groups {
            groups: share_each(&self.groups, alloc)?,
        })
    }
}

/// The index of the group in which a key is, if it has an entry.
fn group_of<K: Ord, V>(groups: &[Shared<Group<K, V>>], key: &K) -> usize
    requires some { 0 < length groups.now }
    requires groups { AreChunks K.cmp groups.now }
    ensures { IsChunkOf K.cmp key.now groups.now result }
{
    let mut from = 0;
    let mut to = groups.len();
    while to - from > 1 {
        let middle = from + (to - from) / 2;
        if groups[middle].begins_above(key) {
            to = middle;
        } else {
            from = middle;
        }
    }
    from
}

/// Makes the group of a first entry. Returns `AllocError` only if out of memory, and then there are still
/// no groups.
fn put_first<K: Ord + Duplicate + Drop, V: Duplicate + Drop>(
    groups: &mut Vec<Shared<Group<K, V>>>,
    alloc: Global,
    key: K,
    value: V,
) -> Result<(), AllocError>
    requires { groups.old.items ≡ [] }
    ensures ok { OnOk result (groups.new.items ≡ ((key, value) ∷ []) ∷ []) }
    ensures err { OnErr result (groups.new.items ≡ []) }
{
    let mut group = Group::new(alloc);
    group.insert(alloc, key, value)?;
    groups.push(Shared::new(alloc, group)?)?;
    Ok(())
}

/// Puts a value at a key of a group, and returns whether the key is new.
fn put_in<K: Ord + Duplicate + Drop, V: Duplicate + Drop>(
    group: &mut Shared<Group<K, V>>,
    alloc: Global,
    key: K,
    value: V,
) -> Result<bool, AllocError>
    ensures ok { OnOk result (group.new ≡ insert_entry K.cmp group.old key value) }
    ensures count { IfOk result (λ is_new. length group.new ≡ (if is_new then length group.old + 1 else length group.old)) }
    ensures err { OnErr result (group.new ≡ group.old) }
{
    group.change(alloc)?.insert(alloc, key, value)
}

/// Removes the entry of a key from a group, and returns its value.
fn take_from<K: Ord + Duplicate + Drop, V: Duplicate + Drop>(
    group: &mut Shared<Group<K, V>>,
    alloc: Global,
    key: &K,
) -> Result<Option<V>, AllocError>
    ensures value { IfOk result (λ value. value ≡ lookup (is_at (K.cmp key.now)) group.old) }
    ensures rest { OnOk result (group.new ≡ remove_entry (is_at (K.cmp key.now)) group.old) }
    ensures err { OnErr result (group.new ≡ group.old) }
{
    group.change(alloc)?.remove(alloc, key)
}

/// Splits the group at an index in halves, if it is full. If out of memory, it stays as it is.
fn split<K: Ord + Duplicate + Drop, V: Duplicate + Drop>(
    groups: &mut Vec<Shared<Group<K, V>>>,
    alloc: Global,
    at: usize,
) -> Result<(), AllocError>
    requires within { at < length groups.old.items }
    requires none_empty { AllByRecursion (λ c. 0 < length c) groups.old.items }
    ensures same { joined groups.new.items ≡ joined groups.old.items }
    ensures none_empty { AllByRecursion (λ c. 0 < length c) groups.new.items }
{
    if groups[at].chunks().len() < GROUP_MOST {
        return Ok(());
    }
    groups.reserve(1)?;
    let mut upper = Shared::new(alloc, Group::new(alloc))?;
    move_upper(&mut groups[at], &mut upper, alloc)?;
    match groups.insert(at + 1, upper) {
        Ok(()) => Ok(()),
        Err(_) => unreachable!(),
    }
}

/// Moves the upper half of a group to another one, in place of what that has. Returns `AllocError` if
/// out of memory or if there are too few chunks, and then both are unchanged.
fn move_upper<K: Ord + Duplicate + Drop, V: Duplicate + Drop>(
    lower: &mut Shared<Group<K, V>>,
    upper: &mut Shared<Group<K, V>>,
    alloc: Global,
) -> Result<(), AllocError>
    ensures same { OnOk result (lower.new ++ upper.new ≡ lower.old) }
    ensures lower { OnOk result (0 < length lower.new) }
    ensures upper { OnOk result (0 < length upper.new) }
    ensures err { OnErr result (lower.new ≡ lower.old) }
{
    let room = upper.change(alloc)?;
    *room = lower.change(alloc)?.split_off()?;
    Ok(())
}

/// Drops the group at an index, if it has no entries.
fn drop_empty<K: Ord + Drop, V: Drop>(groups: &mut Vec<Shared<Group<K, V>>>, at: usize)
    requires within { at < length groups.old.items }
    requires others { AllByRecursion (λ c. 0 < length c) (remove groups.old.items at) }
    ensures same { joined groups.new.items ≡ joined groups.old.items }
    ensures none_empty { AllByRecursion (λ c. 0 < length c) groups.new.items }
{
    if !groups[at].is_empty() {
        return;
    }
    let _empty = groups.remove(at);
}

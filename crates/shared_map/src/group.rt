ghost use Rattle.std.specs.Prelude.{◌≡◌, ◌+◌, ◌<◌, ◌≤◌, ◌++◌, ◌==◌, [], ◌∷◌, length, IfOk, IfSome, IsErrOf, OnOk, OnErr, Some, None, option_map, if◌then◌else◌};
ghost use Rattle.std.specs.BTreeMap.{insert_entry, is_at};
ghost use Rattle.std.specs.List.{AllByRecursion, remove};
ghost use Rattle.std.specs.Map.{lookup, lookup_entry, remove_entry};
ghost use Rattle.shared_map.specs.Chunks.{joined, AreChunks, IsChunkOf, IsEntry, begins_above};
ghost use Rattle.shared_map.specs.declared.error.NoValue.TheVariants.{Missing};

use crate::NoValue;
use crate::chunk::Chunk;
use dra_values::{Duplicate, Shared};
use std::alloc::{AllocError, Global};
use std::marker::Model;

/// A chunk that has as many entries is split in halves. A change while a copy is alive duplicates up to as
/// many entries, keys and values, so they are few.
const CHUNK_MOST: usize = 16;

/// Chunks of a map that lie together, in the order of their keys, which copies of the group share.
#[derive(Drop)]
pub(crate) struct Group<K: Ord, V> {
    chunks: Vec<Shared<Chunk<K, V>>>,
}

impl<K: Ord, V> Model for Group<K, V> {
    ghost use Rattle.std.specs.Prelude.{List};
    ghost use Rattle.shared_map.specs.Chunks.{joined, AreChunks};

    ghost Value = { List (K × V) };

    ghost view = { λ g. joined g.chunks.items };

    ghost invariant = { λ g. AreChunks K.cmp g.chunks.items };
}

impl<K: Ord, V> Group<K, V> {
    /// The chunks, first to last.
    pub(crate) fn chunks(&self) -> &[Shared<Chunk<K, V>>]
        ensures { joined result.now ≡ self.now }
    {
        &self.chunks
    }

    /// Whether there are no entries.
    pub(crate) fn is_empty(&self) -> bool
        ensures { result ≡ (length self.now == 0) }
    {
        self.chunks.is_empty()
    }

    /// Whether the first entry has a key above a key.
    pub(crate) fn begins_above(&self, key: &K) -> bool
        ensures { result ≡ begins_above K.cmp key.now self.now }
    {
        match self.chunks.first() {
            Some(chunk) => chunk.begins_above(key),
            None => false,
        }
    }

    /// The group of no entries. Allocates nothing until the first entry.
    pub(crate) fn new(alloc: Global) -> Group<K, V>
        ensures { result ≡ [] }
    {
        Group {
            chunks: Vec::new(alloc),
        }
    }

    /// The entry of a key, or `None` if it has none.
    pub(crate) fn get_key_value(&self, key: &K) -> Option<(&K, &V)>
        ensures { option_map (λ e. (e.0.now, e.1.now)) result ≡ lookup_entry (is_at (K.cmp key.now)) self.now }
    {
        if self.chunks.is_empty() {
            return None;
        }
        let at = chunk_of(&self.chunks, key);
        self.chunks[at].get_key_value(key)
    }

    /// The entry of a chunk at an index, or `None` if there is none.
    pub(crate) fn at(&self, chunk: usize, entry: usize) -> Option<(&K, &V)>
        ensures { IfSome result (λ e. IsEntry self.now e.0.now e.1.now) }
    {
        let chunk = self.chunks.get(chunk)?;
        chunk.at(entry)
    }

    /// The chunk and the index in it of a key's entry, if it has one.
    pub(crate) fn place(&self, key: &K) -> (usize, usize) {
        if self.chunks.is_empty() {
            return (0, 0);
        }
        let at = chunk_of(&self.chunks, key);
        (at, self.chunks[at].place(key))
    }

    /// Cuts off the upper half of the chunks, as a group of their own. Returns `AllocError` if out of
    /// memory or if there are fewer than two chunks, and then the entries are unchanged.
    pub(crate) fn split_off(&mut self) -> Result<Group<K, V>, AllocError>
        ensures same { IfOk result (λ upper. self.new ++ upper ≡ self.old) }
        ensures lower { OnOk result (0 < length self.new) }
        ensures upper { IfOk result (λ upper. 0 < length upper) }
        ensures err { OnErr result (self.new ≡ self.old) }
    {
        if self.chunks.len() < 2 {
            return Err(AllocError);
        }
        let half = self.chunks.len() / 2;
        Ok(Group {
            chunks: self.chunks.split_off(half)?,
        })
    }
}

impl<K: Ord + Duplicate + Drop, V: Duplicate + Drop> Group<K, V> {
    ghost use Rattle.std.specs.Borrow.{sem};
    ghost use Rattle.shared_map.specs.Lent.{LendsInGroup};

    /// The value at a key, to be changed. Returns `Missing` only if the key has no entry, and `Memory`
    /// only if out of memory; then the entries are unchanged.
    pub(crate) fn get_mut(&mut self, alloc: Global, key: &K) -> Result<&mut V, NoValue>
        ensures* writes_back { sem 𝓛 (LendsInGroup K.row V.row K.Ord self.entry key.now result) }
        ensures value { IfOk result (λ lent. lookup (is_at (K.cmp key.now)) self.old ≡ Some lent.now) }
        ensures missing { IsErrOf result Missing → (lookup (is_at (K.cmp key.now)) self.old ≡ None) }
    {
        if self.chunks.is_empty() {
            return Err(NoValue::Missing);
        }
        let at = chunk_of(&self.chunks, key);
        let chunk = &mut self.chunks[at];
        let chunk = chunk.change(alloc)?;
        match chunk.get_mut(key) {
            Ok(value) => Ok(value),
            Err(reason) => Err(reason),
        }
    }

    /// Puts a value at a key, and returns whether the key is new. Returns `AllocError` only if out of
    /// memory, and then the entries are unchanged.
    pub(crate) fn insert(&mut self, alloc: Global, key: K, value: V) -> Result<bool, AllocError>
        ensures ok { OnOk result (self.new ≡ insert_entry K.cmp self.old key value) }
        ensures count { IfOk result (λ is_new. length self.new ≡ (if is_new then length self.old + 1 else length self.old)) }
        ensures err { OnErr result (self.new ≡ self.old) }
    {
        if self.chunks.is_empty() {
            put_first(&mut self.chunks, alloc, key, value)?;
            return Ok(true);
        }
        let at = chunk_of(&self.chunks, &key);
        let is_new = put_in(&mut self.chunks[at], alloc, key, value)?;
        let _ = split(&mut self.chunks, alloc, at);
        Ok(is_new)
    }

    /// Removes the entry of a key, and returns its value, or `None` if the key has no entry. Returns
    /// `AllocError` only if out of memory, and then the entries are unchanged.
    pub(crate) fn remove(&mut self, alloc: Global, key: &K) -> Result<Option<V>, AllocError>
        ensures value { IfOk result (λ value. value ≡ lookup (is_at (K.cmp key.now)) self.old) }
        ensures rest { OnOk result (self.new ≡ remove_entry (is_at (K.cmp key.now)) self.old) }
        ensures err { OnErr result (self.new ≡ self.old) }
    {
        if self.chunks.is_empty() {
            return Ok(None);
        }
        let at = chunk_of(&self.chunks, key);
        let value = take_from(&mut self.chunks[at], alloc, key)?;
        drop_empty(&mut self.chunks, at);
        Ok(value)
    }
}

/// The same chunks, each with one more owner.
impl<K: Ord + Drop, V: Drop> Duplicate for Group<K, V> {
    fn duplicate(&self, alloc: Global) -> Result<Group<K, V>, AllocError> {
        Ok(Group {
            chunks: share_each(&self.chunks, alloc)?,
        })
    }
}

/// One more owner of each value.
pub(crate) fn share_each<T: Drop>(
    values: &[Shared<T>],
    alloc: Global,
) -> Result<Vec<Shared<T>>, AllocError>
    ensures { IfOk result (λ copy. copy.items ≡ values.now) }
{
    let mut copy = Vec::with_capacity(alloc, values.len())?;
    for value in values {
        copy.push(value.share()?)?;
    }
    Ok(copy)
}

/// The index of the chunk in which a key is, if it has an entry.
fn chunk_of<K: Ord, V>(chunks: &[Shared<Chunk<K, V>>], key: &K) -> usize
    requires some { 0 < length chunks.now }
    requires chunks { AreChunks K.cmp chunks.now }
    ensures { IsChunkOf K.cmp key.now chunks.now result }
{
    let mut from = 0;
    let mut to = chunks.len();
    while to - from > 1 {
        let middle = from + (to - from) / 2;
        if chunks[middle].begins_above(key) {
            to = middle;
        } else {
            from = middle;
        }
    }
    from
}

/// Makes the chunk of a first entry. Returns `AllocError` only if out of memory, and then there are still
/// no chunks.
fn put_first<K: Ord + Duplicate + Drop, V: Duplicate + Drop>(
    chunks: &mut Vec<Shared<Chunk<K, V>>>,
    alloc: Global,
    key: K,
    value: V,
) -> Result<(), AllocError>
    requires { chunks.old.items ≡ [] }
    ensures ok { OnOk result (chunks.new.items ≡ ((key, value) ∷ []) ∷ []) }
    ensures err { OnErr result (chunks.new.items ≡ []) }
{
    let mut chunk = Chunk::new(alloc);
    chunk.insert(key, value)?;
    chunks.push(Shared::new(alloc, chunk)?)?;
    Ok(())
}

/// Puts a value at a key of a chunk, and returns whether the key is new.
fn put_in<K: Ord + Duplicate + Drop, V: Duplicate + Drop>(
    chunk: &mut Shared<Chunk<K, V>>,
    alloc: Global,
    key: K,
    value: V,
) -> Result<bool, AllocError>
    ensures ok { OnOk result (chunk.new ≡ insert_entry K.cmp chunk.old key value) }
    ensures count { IfOk result (λ is_new. length chunk.new ≡ (if is_new then length chunk.old + 1 else length chunk.old)) }
    ensures err { OnErr result (chunk.new ≡ chunk.old) }
{
    chunk.change(alloc)?.insert(key, value)
}

/// Removes the entry of a key from a chunk, and returns its value.
fn take_from<K: Ord + Duplicate + Drop, V: Duplicate + Drop>(
    chunk: &mut Shared<Chunk<K, V>>,
    alloc: Global,
    key: &K,
) -> Result<Option<V>, AllocError>
    ensures value { IfOk result (λ value. value ≡ lookup (is_at (K.cmp key.now)) chunk.old) }
    ensures rest { OnOk result (chunk.new ≡ remove_entry (is_at (K.cmp key.now)) chunk.old) }
    ensures err { OnErr result (chunk.new ≡ chunk.old) }
{
    Ok(chunk.change(alloc)?.remove(key))
}

/// Splits the chunk at an index in halves, if it is full. If out of memory, it stays as it is.
fn split<K: Ord + Duplicate + Drop, V: Duplicate + Drop>(
    chunks: &mut Vec<Shared<Chunk<K, V>>>,
    alloc: Global,
    at: usize,
) -> Result<(), AllocError>
    requires within { at < length chunks.old.items }
    requires none_empty { AllByRecursion (λ c. 0 < length c) chunks.old.items }
    ensures same { joined chunks.new.items ≡ joined chunks.old.items }
    ensures none_empty { AllByRecursion (λ c. 0 < length c) chunks.new.items }
{
    if chunks[at].entries().len() < CHUNK_MOST {
        return Ok(());
    }
    chunks.reserve(1)?;
    let mut upper = Shared::new(alloc, Chunk::new(alloc))?;
    move_upper(&mut chunks[at], &mut upper, alloc)?;
    match chunks.insert(at + 1, upper) {
        Ok(()) => Ok(()),
        Err(_) => unreachable!(),
    }
}

/// Moves the upper half of a chunk to another one, in place of what that has. Returns `AllocError` only if
/// out of memory, and then both are unchanged.
fn move_upper<K: Ord + Duplicate + Drop, V: Duplicate + Drop>(
    lower: &mut Shared<Chunk<K, V>>,
    upper: &mut Shared<Chunk<K, V>>,
    alloc: Global,
) -> Result<(), AllocError>
    requires { 2 ≤ length lower.old }
    ensures same { OnOk result (lower.new ++ upper.new ≡ lower.old) }
    ensures lower { OnOk result (0 < length lower.new) }
    ensures upper { OnOk result (0 < length upper.new) }
    ensures err { OnErr result (lower.new ≡ lower.old) }
{
    let room = upper.change(alloc)?;
    *room = lower.change(alloc)?.split_off()?;
    Ok(())
}

/// Drops the chunk at an index, if it has no entries.
fn drop_empty<K: Ord + Drop, V: Drop>(chunks: &mut Vec<Shared<Chunk<K, V>>>, at: usize)
    requires within { at < length chunks.old.items }
    requires others { AllByRecursion (λ c. 0 < length c) (remove chunks.old.items at) }
    ensures same { joined chunks.new.items ≡ joined chunks.old.items }
    ensures none_empty { AllByRecursion (λ c. 0 < length c) chunks.new.items }
{
    if !chunks[at].is_empty() {
        return;
    }
    let _empty = chunks.remove(at);
}

ghost use Rattle.std.specs.Prelude.{◌≡◌, ◌++◌, [], ◌∷◌, IfOk, IfSome, true};
ghost use Rattle.std.specs.BTreeMap.{insert_entry};
ghost use Rattle.pool_view.specs.Known.{AddsList, AddsOnly, IsListOf};
ghost use Rattle.pool_view.specs.Names.{text_cmp};

use crate::known::{KnownList, MAX_KNOWN_LISTS};
use device_selector::DeviceSelector;
use dra_values::{Seq, Shared, Table, Text};
use std::alloc::{AllocError, Global};

/// Whether texts are those of these selectors.
fn are_texts(texts: &[Text], selectors: &[DeviceSelector]) -> bool
    ensures { result ≡ true → texts.now ≡ selectors.now }
{
    if texts.len() != selectors.len() {
        return false;
    }
    for i in 0..texts.len() {
        if texts[i] != *selectors[i].text() {
            return false;
        }
    }
    true
}

/// Whether texts are those of a class's selectors and then of a request's.
fn are_both(texts: &[Text], class: &[DeviceSelector], own: &[DeviceSelector]) -> bool
    ensures { result ≡ true → texts.now ≡ class.now ++ own.now }
{
    if texts.len() < class.len() {
        return false;
    }
    let (first, rest) = texts.split_at(class.len());
    are_texts(first, class) && are_texts(rest, own)
}

/// The index of what is kept of a class's selectors and then a request's; `None` if nothing is. Allocates
/// nothing.
pub fn position(
    known: &[Shared<KnownList>],
    class: &[DeviceSelector],
    own: &[DeviceSelector],
) -> Option<usize>
    ensures { IfSome result (λ at. IsListOf known.now (class.now ++ own.now) at) }
{
    for at in 0..known.len() {
        if are_both(known[at].value().texts.as_slice(), class, own) {
            return Some(at);
        }
    }
    None
}

fn push_texts(
    texts: &mut Seq<Text>,
    alloc: Global,
    selectors: &[DeviceSelector],
) -> Result<(), AllocError>
    ensures { IfOk result (λ _. texts.new ≡ texts.old ++ selectors.now) }
{
    for selector in selectors {
        texts.push(selector.text().copy(alloc)?)?;
    }
    Ok(())
}

fn both_texts(
    alloc: Global,
    class: &[DeviceSelector],
    own: &[DeviceSelector],
) -> Result<Seq<Text>, AllocError>
    ensures { IfOk result (λ texts. texts ≡ class.now ++ own.now) }
{
    let mut texts = Seq::empty(alloc);
    push_texts(&mut texts, alloc, class)?;
    push_texts(&mut texts, alloc, own)?;
    Ok(texts)
}

/// The list of these selectors with what was found on the slice of a name.
fn new_list(
    alloc: Global,
    class: &[DeviceSelector],
    own: &[DeviceSelector],
    name: Text,
    sure: bool,
) -> Result<Shared<KnownList>, AllocError>
    ensures { IfOk result (λ list. list ≡ record { texts = class.now ++ own.now; slices = (name, sure) ∷ [] }) }
{
    let texts = both_texts(alloc, class, own)?;
    let mut slices = Table::new(alloc);
    slices.insert(name, sure)?;
    Shared::new(alloc, KnownList { texts, slices })
}

/// Puts what was found on the slice of a name into a list.
fn put_name(
    list: &mut Shared<KnownList>,
    alloc: Global,
    name: Text,
    sure: bool,
) -> Result<(), AllocError>
    ensures { IfOk result (λ _. list.new ≡ record list.old { slices = insert_entry text_cmp list.old.slices name sure }) }
{
    list.change(alloc)?.slices.insert(name, sure)
}

/// What is kept, with a list more; without all others if there are as many as there may be.
fn with_list(
    alloc: Global,
    mut known: Vec<Shared<KnownList>>,
    list: Shared<KnownList>,
) -> Result<Vec<Shared<KnownList>>, AllocError>
    ensures { IfOk result (λ kept. AddsList list known.items kept.items) }
{
    if known.len() >= MAX_KNOWN_LISTS {
        let mut fresh = Vec::new(alloc);
        fresh.push(list)?;
        Ok(fresh)
    } else {
        known.push(list)?;
        Ok(known)
    }
}

/// What is kept, with what was found on the slice of a name of a class's selectors and then a request's.
/// If that makes a new list, and there are as many as there may be, all others are dropped.
pub fn with_found(
    alloc: Global,
    mut known: Vec<Shared<KnownList>>,
    class: &[DeviceSelector],
    own: &[DeviceSelector],
    name: Text,
    sure: bool,
) -> Result<Vec<Shared<KnownList>>, AllocError>
    ensures { IfOk result (λ kept. AddsOnly (class.now ++ own.now) name sure known.items kept.items) }
{
    match position(&known, class, own) {
        Some(at) => {
            put_name(&mut known[at], alloc, name, sure)?;
            Ok(known)
        }
        None => {
            let list = new_list(alloc, class, own, name, sure)?;
            with_list(alloc, known, list)
        }
    }
}

/// The same lists, shared.
pub fn share_lists(
    alloc: Global,
    known: &[Shared<KnownList>],
) -> Result<Vec<Shared<KnownList>>, AllocError>
    ensures { IfOk result (λ shared. shared.items ≡ known.now) }
{
    let mut shared = Vec::with_capacity(alloc, known.len())?;
    for list in known {
        shared.push(list.share()?)?;
    }
    Ok(shared)
}

ghost use Rattle.std.specs.Prelude.{◌≡◌, ◌++◌, ◌∷◌, [], IfOk, option_copied};
ghost use Rattle.std.specs.List.{find, list_any};
ghost use Rattle.std.specs.Str.{bytes_eq};

use dra_values::{Seq, Table, Text};
use std::alloc::{AllocError, Global};
use std::marker::Model;

/// A value with a name, by which it is found.
pub trait HasName {
    ghost use Rattle.std.specs.Prelude.{ℕ, List};

    ghost name_of: { Self → List ℕ };

    /// The name.
    fn name(&self) -> &Text
        ensures { result.now ≡ name_of self.now };
}

/// A text is its own name.
impl HasName for Text {
    ghost name_of = { λ t. t };

    fn name(&self) -> &Text {
        self
    }
}

/// A list whose items are found by their names, which contracts see as the list. If several items
/// have a name, the first of them is found. A look-up takes time logarithmic in the length.
#[derive(Drop)]
pub struct ByName<T: HasName> {
    items: Seq<T>,
    places: Table<Text, usize>,
}

impl<T: HasName> Model for ByName<T> {
    ghost use Rattle.std.specs.Prelude.{List};
    ghost use Rattle.object_fields.specs.Places.{AreFirstPlaces};

    ghost Value = { List T };

    ghost view = { λ b. b.items };

    ghost invariant = { λ b. AreFirstPlaces T.HasName.name_of b.items b.places };
}

impl<T: HasName + Drop> ByName<T> {
    /// The list of no items. Allocates nothing until the first item.
    pub fn empty(alloc: Global) -> ByName<T>
        ensures { result ≡ [] }
    {
        ByName {
            items: Seq::empty(alloc),
            places: Table::new(alloc),
        }
    }

    /// The items in order. Allocates nothing.
    pub fn into_seq(self) -> Seq<T>
        ensures { result ≡ self }
    {
        self.items
    }

    /// The first item of that name, or `None` if no item has it.
    pub fn find(&self, name: &Text) -> Option<&T>
        ensures { option_copied result ≡ find (λ x. bytes_eq (T.HasName.name_of x) name.now) self.now }
    {
        match self.places.get(name) {
            Some(place) => self.items.as_slice().get(*place),
            None => None,
        }
    }

    /// Whether an item has that name.
    pub fn has(&self, name: &Text) -> bool
        ensures { result ≡ list_any (λ x. bytes_eq (T.HasName.name_of x) name.now) self.now }
    {
        self.places.contains_key(name)
    }

    /// The list with an item appended. Returns `AllocError` only if out of memory.
    pub fn with(self, alloc: Global, item: T) -> Result<ByName<T>, AllocError>
        ensures { IfOk result (λ more. more ≡ self ++ item ∷ []) }
    {
        let name = item.name().copy(alloc)?;
        let ByName { mut items, places } = self;
        let places = with_place(places, name, items.as_slice().len())?;
        items.push(item)?;
        Ok(ByName { items, places })
    }
}

ghost use Rattle.object_fields.specs.Places.{with_place};

/// The indices with that of a name added, unless the name has one already.
fn with_place(
    places: Table<Text, usize>,
    name: Text,
    place: usize,
) -> Result<Table<Text, usize>, AllocError>
    ensures { IfOk result (λ more. more ≡ with_place places name place) }
{
    let mut places = places;
    if !places.contains_key(&name) {
        places.insert(name, place)?;
    }
    Ok(places)
}

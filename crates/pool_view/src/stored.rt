ghost use Rattle.std.specs.Prelude.{◌≡◌, OnOk, OnErr};
ghost use Rattle.std.specs.BTreeMap.{is_at};
ghost use Rattle.std.specs.Map.{set_value};
ghost use Rattle.std.specs.Option.{option_map_or};
ghost use Rattle.pool_view.specs.Inventory.{created, updated, with_named};
ghost use Rattle.pool_view.specs.Names.{at_name, text_cmp};

use dra_values::{Duplicate, Text};
use shared_map::{NoValue, SharedMap};
use std::alloc::{AllocError, Global};

/// An object that was applied.
#[derive(Drop)]
pub struct Stored<T> {
    pub object: T,
    /// The index of the entry that created it.
    pub uid: u64,
    /// The index of the entry that changed it last, its revision.
    pub version: u64,
}

impl<T: Drop> Stored<T> {
    /// An object that the entry at this index creates.
    pub fn created(place: u64, object: T) -> Stored<T>
        ensures { result ≡ created place object }
    {
        Stored {
            object,
            uid: place,
            version: place,
        }
    }

    /// Replaces this object, by the entry at this index. The uid is unchanged.
    pub fn update(&mut self, place: u64, object: T)
        ensures { self.new ≡ updated place object self.old }
    {
        self.object = object;
        self.version = place;
    }
}

impl<T: Duplicate> Duplicate for Stored<T> {
    fn duplicate(&self, alloc: Global) -> Result<Stored<T>, AllocError> {
        Ok(Stored {
            object: self.object.duplicate(alloc)?,
            uid: self.uid,
            version: self.version,
        })
    }
}

/// Puts an object at its name, by the entry at this index: it is updated and keeps its uid if it exists,
/// and is created otherwise. `AllocError` is returned only if memory runs out, and then nothing changed.
pub fn put_named<T: Duplicate + Drop>(
    alloc: Global,
    objects: &mut SharedMap<Text, Stored<T>>,
    place: u64,
    name: Text,
    object: T,
) -> Result<(), AllocError>
    ensures ok { OnOk result (objects.new ≡ with_named place name object objects.old) }
    ensures err { OnErr result (objects.new ≡ objects.old) }
{
    if objects.contains_key(&name) {
        update_named(alloc, objects, place, &name, object)
    } else {
        objects.insert(alloc, name, Stored::created(place, object))
    }
}

/// Updates the object of a name, if it exists.
fn update_named<T: Duplicate + Drop>(
    alloc: Global,
    objects: &mut SharedMap<Text, Stored<T>>,
    place: u64,
    name: &Text,
    object: T,
) -> Result<(), AllocError>
    ensures ok { OnOk result (objects.new ≡ option_map_or (λ old. set_value (is_at (text_cmp name.now)) objects.old (updated place object old)) (at_name objects.old name.now) objects.old) }
    ensures err { OnErr result (objects.new ≡ objects.old) }
{
    match objects.get_mut(alloc, name) {
        Ok(stored) => {
            stored.update(place, object);
            Ok(())
        }
        Err(NoValue::Missing) => Ok(()),
        Err(NoValue::Memory) => Err(AllocError),
    }
}

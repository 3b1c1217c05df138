ghost use Rattle.std.specs.Prelude.{◌≡◌};
ghost use Rattle.object_fields.specs.Fields.{Reads};
ghost use Rattle.api_slice.specs.Attributes as fields;

use dra_values::Table;
use object_fields::{FieldError, FieldErrorKind, Path, QualName};
use std::alloc::Global;

/// The full name that a key means in a slice of that driver. TooLong, then BadName, then Doubled
/// where a key before means the same.
pub(crate) fn new_name<V: Drop>(
    alloc: Global,
    key: &str,
    path: &Path,
    driver: &str,
    before: &Table<QualName, V>,
) -> Result<QualName, FieldError>
    ensures { Reads result (fields.new_name path.now driver.now before.now key.now) }
{
    let name = QualName::read(alloc, path, key, driver)?;
    if before.contains_key(&name) {
        Err(FieldError::at(alloc, path, FieldErrorKind::Doubled))
    } else {
        Ok(name)
    }
}

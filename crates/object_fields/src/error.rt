ghost use Rattle.std.specs.Prelude.{◌≡◌, ◌∷◌, [], IfOk, MatchResult, IsErrAnd, Ok};
ghost use Rattle.object_fields.specs.Fields.{IsError, error_at, field_error};

use crate::kind::FieldErrorKind;
use crate::path::{FieldPath, Path};
use dra_values::Duplicate;
use std::alloc::{AllocError, Global};
use thiserror::Error;

/// The first error of a reading: where, and why. One of kind Memory has the path of the top.
#[derive(Debug, Drop, Error)]
#[error("{kind} {path}")]
pub struct FieldError {
    pub path: FieldPath,
    pub kind: FieldErrorKind,
}

impl FieldError {
    /// Out of memory, at the top. Allocates nothing.
    pub fn memory(alloc: Global) -> FieldError
        ensures { result ≡ error_at [] FieldErrorKind.Memory }
    {
        FieldError {
            path: FieldPath::top(alloc),
            kind: FieldErrorKind::Memory,
        }
    }

    /// The error of that kind at the path, or Memory.
    pub fn at(alloc: Global, path: &Path, kind: FieldErrorKind) -> FieldError
        ensures { IsError result (error_at path.now kind) }
    {
        match path.copy(alloc) {
            Ok(path) => FieldError { path, kind },
            Err(_) => FieldError::memory(alloc),
        }
    }

    /// The error of that kind at a member of the value at the path, or Memory.
    pub fn of_field(alloc: Global, path: &Path, name: &str, kind: FieldErrorKind) -> FieldError
        ensures { IsError result (field_error path.now name.now kind) }
    {
        match path.copy_to(alloc, name) {
            Ok(path) => FieldError { path, kind },
            Err(_) => FieldError::memory(alloc),
        }
    }

    /// An equal error.
    pub fn copy(&self, alloc: Global) -> Result<FieldError, AllocError>
        ensures { IfOk result (λ e. e ≡ self.now) }
    {
        Ok(FieldError {
            path: self.path.copy(alloc)?,
            kind: self.kind,
        })
    }
}

impl Duplicate for FieldError {
    fn duplicate(&self, alloc: Global) -> Result<FieldError, AllocError> {
        self.copy(alloc)
    }
}

/// What was made, or the error Memory.
pub fn or_memory<T: Drop>(alloc: Global, made: Result<T, AllocError>) -> Result<T, FieldError>
    ensures { MatchResult made (λ x. result ≡ Ok x)
        (λ _. IsErrAnd result (λ e. e ≡ error_at [] FieldErrorKind.Memory)) }
{
    match made {
        Ok(x) => Ok(x),
        Err(_) => Err(FieldError::memory(alloc)),
    }
}

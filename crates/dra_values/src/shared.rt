ghost use Rattle.std.specs.Prelude.{◌≡◌, IfOk};

use crate::Duplicate;
use std::alloc::{AllocError, Global};
use std::cmp::Ordering;
use std::fmt;
use std::marker::Model;
use std::ops::Deref;
use std::sync::Arc;

/// A value with one owner or more, also in several threads, that contracts see as the value itself.
///
/// `share` makes one more owner without a copy of the value. `change` returns the value to be
/// changed: in place if it has no other owner, and else as a copy of its own, so that the other
/// owners keep the old value.
///
/// To change several shared values, all or none: change an owner that `share` made, and assign it
/// at the end, where nothing can fail any more.
///
/// Contracts don't count owners. That a value with no other owner isn't copied is how `change` is
/// written, and no clause says it.
#[derive(Drop)]
pub struct Shared<T> {
    inner: Arc<T, Global>,
}

impl<T> Model for Shared<T> {
    ghost Value = { T };

    ghost view = { λ s. s.inner.value };
}

impl<T> Shared<T> {
    /// The value. It is also reached by dereferencing, as `*shared` or `shared.field`.
    pub fn value(&self) -> &T
        ensures { result.now ≡ self.now }
    {
        &*self.inner
    }

    /// One more owner of the same value. Allocates nothing; returns `AllocError` only if the count of
    /// owners is full, at 2^63 - 1.
    pub fn share(&self) -> Result<Shared<T>, AllocError>
        ensures { IfOk result (λ other. other ≡ self.now) }
    {
        Ok(Shared {
            inner: Arc::try_clone(&self.inner)?,
        })
    }
}

impl<T: Drop> Shared<T> {
    /// The value, with one owner. Returns `AllocError` only if out of memory.
    pub fn new(alloc: Global, value: T) -> Result<Shared<T>, AllocError>
        ensures { IfOk result (λ shared. shared ≡ value) }
    {
        Ok(Shared {
            inner: Arc::new(alloc, value)?,
        })
    }
}

impl<T: Duplicate + Drop> Shared<T> {
    ghost use Rattle.std.specs.Borrow.{sem};
    ghost use Rattle.dra_values.specs.Lent.{LendsShared};

    /// The value, to be changed. If it has other owners, it is duplicated first, and they keep the
    /// old value. Returns `AllocError` only if out of memory, and then the value is unchanged.
    pub fn change(&mut self, alloc: Global) -> Result<&mut T, AllocError>
        ensures* writes_back { sem 𝓛 (LendsShared T.row self.entry result) }
        ensures value { IfOk result (λ lent. lent.now ≡ self.old) }
    {
        if Arc::strong_count(&self.inner) != 1 {
            let copy = self.inner.duplicate(alloc)?;
            self.inner = Arc::new(alloc, copy)?;
        }
        match Arc::get_mut(&mut self.inner) {
            Some(value) => Ok(value),
            None => Err(AllocError),
        }
    }
}

impl<T> Deref for Shared<T> {
    type Target = T;

    ghost deref_gives = { λ s x. x ≡ s };

    fn deref(&self) -> &T
        ensures { result.now ≡ self.now }
    {
        self.value()
    }
}

/// A duplicate is one more owner of the same value.
impl<T> Duplicate for Shared<T> {
    fn duplicate(&self, _alloc: Global) -> Result<Shared<T>, AllocError> {
        self.share()
    }
}

/// Shared values are equal if and only if the values are.
impl<T: PartialEq> PartialEq for Shared<T> {
    ghost eq = { T.eq };

    ghost laws = { T.laws };

    fn eq(&self, other: &Shared<T>) -> bool {
        self.value() == other.value()
    }
}

impl<T: Eq> Eq for Shared<T> {
    ghost laws = { T.Eq.laws };
}

impl<T: PartialOrd> PartialOrd for Shared<T> {
    ghost partial_cmp = { T.partial_cmp };

    ghost laws = { T.PartialOrd.laws };

    fn partial_cmp(&self, other: &Shared<T>) -> Option<Ordering> {
        self.value().partial_cmp(other.value())
    }
}

impl<T: Ord> Ord for Shared<T> {
    ghost cmp = { T.cmp };

    ghost total = { T.total };

    ghost matches_partial_cmp = { T.matches_partial_cmp };

    ghost matches_eq = { T.matches_eq };

    fn cmp(&self, other: &Shared<T>) -> Ordering {
        self.value().cmp(other.value())
    }
}

/// As the value is shown.
impl<T: fmt::Debug> fmt::Debug for Shared<T> {
    ghost debug_output = { T.debug_output };

    fn fmt<W: fmt::Write>(&self, f: &mut fmt::Formatter<W>) -> fmt::Result {
        self.value().fmt(f)
    }
}

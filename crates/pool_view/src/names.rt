ghost use Rattle.std.specs.Prelude.{◌≡◌, Some, IfOk, nat_eq, refl};
ghost use Rattle.std.specs.Ordering.{nat_cmp};
ghost use Rattle.std.specs.Cmp.{partial_equiv_from_equiv};
ghost use Rattle.std.specs.Cmp.Lexicographic.{pointwise, slice_cmp, nat_list_eq_equiv, nat_list_cmp_total, texts_ties, texts_po};
ghost use Rattle.pool_view.specs.Usable.{pool_named};

use api_slice::ResourceSlice;
use dra_values::Text;
use std::alloc::{AllocError, Global};
use std::cmp::Ordering;
use std::marker::Model;

/// A pool by the name of its driver and its own.
#[derive(Debug, PartialEq, Eq, PartialOrd, Ord, Drop)]
pub struct PoolName {
    pub driver: Text,
    pub pool: Text,
}

impl PoolName {
    /// The pool of a slice.
    pub fn of(alloc: Global, slice: &ResourceSlice) -> Result<PoolName, AllocError>
        ensures { IfOk result (λ name. name ≡ pool_named slice.now) }
    {
        Ok(PoolName {
            driver: slice.driver.as_text().copy(alloc)?,
            pool: slice.pool.name.copy(alloc)?,
        })
    }
}

/// A borrowed text, which contracts see as its bytes.
#[derive(Drop)]
pub struct NameRef<'a> {
    name: &'a Text,
}

impl<'a> Model for NameRef<'a> {
    ghost use Rattle.std.specs.Prelude.{ℕ, List};

    ghost Value = { List ℕ };

    ghost view = { λ n. n.name.now };
}

impl<'a> NameRef<'a> {
    /// A text, borrowed.
    pub fn of(name: &'a Text) -> NameRef<'a>
        ensures { result ≡ name.now }
    {
        NameRef { name }
    }
}

impl<'a> PartialEq for NameRef<'a> {
    ghost eq = { pointwise nat_eq };

    ghost laws = { partial_equiv_from_equiv nat_list_eq_equiv };

    fn eq(&self, other: &NameRef<'a>) -> bool {
        self.name.as_str() == other.name.as_str()
    }
}

impl<'a> Eq for NameRef<'a> {
    ghost laws = { nat_list_eq_equiv };
}

impl<'a> PartialOrd for NameRef<'a> {
    ghost partial_cmp = { λ x y. Some (slice_cmp nat_cmp x y) };

    ghost laws = { texts_po };

    fn partial_cmp(&self, other: &NameRef<'a>) -> Option<Ordering> {
        Some(self.cmp(other))
    }
}

impl<'a> Ord for NameRef<'a> {
    ghost cmp = { slice_cmp nat_cmp };

    ghost total = { nat_list_cmp_total };

    ghost matches_partial_cmp = { λ x y. refl };

    ghost matches_eq = { texts_ties };

    fn cmp(&self, other: &NameRef<'a>) -> Ordering {
        self.name.as_str().cmp(other.name.as_str())
    }
}

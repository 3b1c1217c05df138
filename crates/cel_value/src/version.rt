ghost use Rattle.std.specs.Prelude.{◌≡◌, IfOk};
ghost use Rattle.std.specs.Cmp.{partial_equiv_from_equiv};
ghost use Rattle.std.specs.Ordering.{eq_by_cmp};
ghost use Rattle.semver.specs.Identifiers.{parts_of};
ghost use Rattle.cel_value.specs.Operators.{version_cmp};
ghost use Rattle.cel_value.specs.VersionLaws.{version_equiv};

use std::alloc::{AllocError, Global};
use std::cmp::Ordering;
use std::fmt;
use std::marker::Model;

/// A version of Semantic Versioning 2.0.0, which contracts see as its three numbers, its pre-release
/// and its build metadata.
///
/// Versions are equal by precedence, which doesn't look at build metadata.
#[derive(Drop)]
pub struct Version {
    inner: semver::Version,
}

impl Model for Version {
    ghost use Rattle.std.specs.Prelude.{ℕ, List};
    ghost use Rattle.semver.specs.Identifiers.{parts_of};

    ghost Value = { ℕ × ℕ × ℕ × List ℕ × List ℕ };

    ghost view = { λ v. parts_of v.inner };
}

impl Version {
    /// The version that `semver` read. Allocates nothing.
    pub fn new(inner: semver::Version) -> Version
        ensures { result ≡ parts_of inner }
    {
        Version { inner }
    }

    /// The version as `semver` has it.
    pub fn as_semver(&self) -> &semver::Version
        ensures { parts_of result.now ≡ self.now }
    {
        &self.inner
    }

    /// An equal version. `AllocError` is returned only when out of memory.
    pub fn copy(&self, _alloc: Global) -> Result<Version, AllocError>
        ensures { IfOk result (λ v. v ≡ self.now) }
    {
        Ok(Version {
            inner: self.inner.clone()?,
        })
    }

    /// The order of precedence (Semantic Versioning 2.0.0, section 11): the numbers, and then the
    /// pre-releases.
    pub fn precedence(&self, other: &Version) -> Ordering
        ensures { result ≡ version_cmp self.now other.now }
    {
        self.inner.cmp_precedence(&other.inner)
    }
}

impl PartialEq for Version {
    ghost eq = { eq_by_cmp version_cmp };

    ghost laws = { partial_equiv_from_equiv version_equiv };

    fn eq(&self, other: &Version) -> bool {
        self.precedence(other).is_eq()
    }
}

/// As it is written, in quotes.
impl fmt::Debug for Version {
    fn fmt<W: fmt::Write>(&self, f: &mut fmt::Formatter<W>) -> fmt::Result {
        write!(f, "\"{}\"", self.inner)
    }
}

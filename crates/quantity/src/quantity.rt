//! The quantity and its arithmetic.

ghost use Rattle.std.specs.Prelude.{◌≡◌, ◌≢◌, ◌≤◌, length, IfOk, Ok, ◌*ℤ◌, ◌+ℤ◌, ◌-ℤ◌, ℤ, pos, Some, IfSome, IsNone, refl};
ghost use Rattle.std.specs.Option.{SomeIff, MatchOption};
ghost use Rattle.std.specs.Ordering.{int_cmp, int_eq, as_partial_cmp};
ghost use Rattle.std.specs.Cmp.{partial_equiv_from_equiv, int_eq_equiv, int_cmp_total, signed_po};
ghost use Rattle.quantity.specs.Range.{IsInRange, most};
ghost use Rattle.quantity.specs.Value.{quantity_value, magnitude_value, signed};

use crate::QuantityError;
use crate::magnitude::magnitude;
use crate::text::{digits, fraction, sign, suffix};
use dra_values::Duplicate;
use std::alloc::{AllocError, Global};
use std::cmp::Ordering;
use std::marker::Model;

/// The most bytes that the text of a quantity has.
const LONGEST: usize = 64;

/// The greatest magnitude of a quantity, in 10^-9: 2^63 - 1 times 10^9.
const MOST: i128 = 9_223_372_036_854_775_807_000_000_000;

/// One, in 10^-9.
const ONE: i128 = 1_000_000_000;

/// An amount: a whole number of 10^-9 of magnitude at most 2^63 - 1, which contracts see as that
/// whole number of 10^-9.
///
/// Amounts are compared by value: `1k` and `1000` are equal.
#[derive(Clone, Copy, Debug, Drop)]
pub struct Quantity {
    nanos: i128,
}

impl Model for Quantity {
    ghost use Rattle.std.specs.Prelude.{ℤ};
    ghost use Rattle.quantity.specs.Range.{IsInRange};

    ghost Value = { ℤ };

    ghost view = { λ q. q.nanos };

    ghost inverse = { λ n. record { nanos = n } };

    ghost invariant = { λ q. IsInRange q.nanos };
}

impl Quantity {
    /// Reads the notation of Kubernetes quantities, as `40Gi`, `0.5`, `-100m` or `1e3`.
    ///
    /// The value is the sum of the digits by their positions times the suffix's factor: `Ki` to `Ei`
    /// are 2^10 to 2^60, `n`, `u`, `m` are 10^-9, 10^-6, 10^-3, `k` to `E` are 10^3 to 10^18, and
    /// `e` or `E` with digits is that power of ten. Allocates nothing.
    ///
    /// # Errors
    ///
    /// The first of these: `BadText` if the text isn't in the grammar or has over 64 bytes,
    /// `OutOfRange` if the exponent is outside -9 to 18, `TooPrecise` if the value isn't a
    /// whole number of 10^-9, `OutOfRange` if its magnitude is over 2^63 - 1.
    pub fn parse(text: &[u8]) -> Result<Quantity, QuantityError>
        ensures { result ≡ quantity_value text.now }
    {
        if text.len() > LONGEST {
            return Err(QuantityError::BadText);
        }
        let (negative, rest) = sign(text);
        let magnitude = parse_magnitude(rest)?;
        Ok(Quantity {
            nanos: signed(negative, magnitude),
        })
    }

    /// The number of 10^-9 that it is, of magnitude at most 2^63 - 1 times 10^9.
    pub fn nanos(&self) -> i128
        ensures value { result ≡ self.now }
        ensures in_range { IsInRange result }
    {
        self.nanos
    }

    /// The quantity of that many 10^-9, or None if its magnitude is over 2^63 - 1.
    pub fn from_nanos(nanos: i128) -> Option<Quantity>
        ensures { SomeIff result (IsInRange nanos) nanos }
    {
        if -MOST <= nanos && nanos <= MOST {
            Some(Quantity { nanos })
        } else {
            None
        }
    }

    /// The exact sum, or None if its magnitude is over 2^63 - 1.
    pub fn checked_add(&self, other: &Quantity) -> Option<Quantity>
        ensures { SomeIff result (IsInRange (self.now +ℤ other.now)) (self.now +ℤ other.now) }
    {
        Quantity::from_nanos(self.nanos + other.nanos)
    }

    /// The exact difference, or None if its magnitude is over 2^63 - 1.
    pub fn checked_sub(&self, other: &Quantity) -> Option<Quantity>
        ensures { SomeIff result (IsInRange (self.now -ℤ other.now)) (self.now -ℤ other.now) }
    {
        Quantity::from_nanos(self.nanos - other.nanos)
    }

    /// The whole number that it is, or None if it isn't whole.
    pub fn as_integer(&self) -> Option<i64>
        ensures whole { IfSome result (λ n. self.now ≡ n *ℤ pos 1000000000) }
        ensures fractional { IsNone result → (n : ℤ) → self.now ≢ n *ℤ pos 1000000000 }
    {
        if self.nanos % ONE == 0 {
            Some((self.nanos / ONE) as i64)
        } else {
            None
        }
    }
}

impl Duplicate for Quantity {
    fn duplicate(&self, _alloc: Global) -> Result<Quantity, AllocError> {
        Ok(*self)
    }
}

/// The magnitude of what follows the sign, in 10^-9.
fn parse_magnitude(text: &[u8]) -> Result<u128, QuantityError>
    requires { length text.now ≤ 64 }
    ensures value { result ≡ magnitude_value text.now }
    ensures bounded { IfOk result (λ n. n ≤ most) }
{
    let (whole, rest) = digits(text);
    let (fraction, rest) = fraction(rest);
    if whole.is_empty() && fraction.is_empty() {
        return Err(QuantityError::BadText);
    }
    magnitude(whole, fraction, suffix(rest)?)
}

fn signed(negative: bool, magnitude: u128) -> i128
    requires { magnitude ≤ most }
    ensures { result ≡ signed negative magnitude }
{
    if negative {
        -(magnitude as i128)
    } else {
        magnitude as i128
    }
}

impl PartialEq for Quantity {
    ghost eq = { int_eq };

    ghost laws = { partial_equiv_from_equiv int_eq_equiv };

    fn eq(&self, other: &Quantity) -> bool {
        self.nanos == other.nanos
    }
}

impl Eq for Quantity {
    ghost laws = { int_eq_equiv };
}

impl PartialOrd for Quantity {
    ghost partial_cmp = { as_partial_cmp int_cmp };

    ghost laws = { signed_po };

    fn partial_cmp(&self, other: &Quantity) -> Option<Ordering> {
        Some(self.cmp(other))
    }
}

impl Ord for Quantity {
    ghost cmp = { int_cmp };

    ghost total = { int_cmp_total };

    ghost matches_partial_cmp = { λ x y. refl };

    ghost matches_eq = { λ x y. refl };

    fn cmp(&self, other: &Quantity) -> Ordering {
        self.nanos.cmp(&other.nanos)
    }
}

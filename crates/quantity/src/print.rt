//! How a quantity prints.

ghost use Rattle.std.specs.Prelude.{◌≡◌, ◌+◌, ◌^◌, ◌<◌, [], ◌∷◌, Some};
ghost use Rattle.std.specs.Fmt.{WritesOnOk};
ghost use Rattle.quantity.specs.Printed.{printed, magnitude_text, places_text, fraction_text};

use crate::Quantity;
use std::fmt;

/// One, in 10^-9.
const ONE: u128 = 1_000_000_000;

/// A number of 10^-9 that prints like a quantity. It may be out of a quantity's range, as a sum of
/// quantities may be.
#[derive(Clone, Copy, Debug, Drop, PartialEq, Eq)]
pub struct Nanos(pub i128);

impl fmt::Display for Quantity {
    ghost output = { λ n. Some (printed n) };

    fn fmt<W: fmt::Write>(&self, f: &mut fmt::Formatter<W>) -> fmt::Result {
        write_signed(f, self.nanos())
    }
}

impl fmt::Display for Nanos {
    ghost output = { λ n. Some (printed n.0) };

    fn fmt<W: fmt::Write>(&self, f: &mut fmt::Formatter<W>) -> fmt::Result {
        write_signed(f, self.0)
    }
}

fn write_signed<W: fmt::Write>(f: &mut fmt::Formatter<W>, nanos: i128) -> fmt::Result
    ensures { WritesOnOk W.write_str_gives f.old result (printed nanos) f.new }
{
    if nanos < 0 {
        f.write_str("-")?;
    }
    write_magnitude(f, nanos.unsigned_abs())
}

fn write_magnitude<W: fmt::Write>(f: &mut fmt::Formatter<W>, nanos: u128) -> fmt::Result
    ensures { WritesOnOk W.write_str_gives f.old result (magnitude_text nanos) f.new }
{
    let whole = nanos / ONE;
    write!(f, "{whole}")?;
    write_fraction(f, nanos % ONE)
}

fn write_fraction<W: fmt::Write>(f: &mut fmt::Formatter<W>, nanos: u128) -> fmt::Result
    requires { nanos < 10 ^ 9 }
    ensures { WritesOnOk W.write_str_gives f.old result (fraction_text nanos) f.new }
{
    if nanos == 0 {
        return Ok(());
    }
    f.write_str(".")?;
    write_places(f, nanos)
}

/// The nine decimal places, up to the last that isn't 0.
fn write_places<W: fmt::Write>(f: &mut fmt::Formatter<W>, nanos: u128) -> fmt::Result
    requires some { 0 < nanos }
    requires fraction { nanos < 10 ^ 9 }
    ensures { WritesOnOk W.write_str_gives f.old result (places_text 9 nanos) f.new }
{
    let mut left = nanos;
    let mut place = 100_000_000;
    'places: loop {
        write_digit(f, left / place)?;
        left %= place;
        if left == 0 {
            return Ok(());
        }
        place /= 10;
    }
}

fn write_digit<W: fmt::Write>(f: &mut fmt::Formatter<W>, digit: u128) -> fmt::Result
    requires { digit < 10 }
    ensures { WritesOnOk W.write_str_gives f.old result ((48 + digit) ∷ []) f.new }
{
    f.write_char(char::from(b'0' + digit as u8))
}

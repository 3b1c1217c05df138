//! Why a text isn't a quantity.

ghost use Rattle.std.specs.Prelude.{Some};
ghost use Rattle.quantity.specs.Messages.{message};

use std::error::Error;
use std::fmt;

/// Why a text has no value, in the order in which the causes are checked.
///
/// An exponent outside -9 to 18 is `OutOfRange` and is checked before the value is.
#[derive(Clone, Copy, Debug, Drop, PartialEq, Eq)]
pub enum QuantityError {
    /// The text isn't in the grammar of quantities, or is longer than 64 bytes.
    BadText,
    /// The value isn't a whole number of 10^-9.
    TooPrecise,
    /// The exponent is outside -9 to 18, or the magnitude is over 2^63 - 1.
    OutOfRange,
}

impl fmt::Display for QuantityError {
    ghost output = { λ e. Some (message e) };

    fn fmt<W: fmt::Write>(&self, f: &mut fmt::Formatter<W>) -> fmt::Result {
        f.write_str(match self {
            QuantityError::BadText => "not a quantity",
            QuantityError::TooPrecise => "finer than 10^-9",
            QuantityError::OutOfRange => "out of range",
        })
    }
}

impl Error for QuantityError {}

ghost use Rattle.std.specs.Prelude.{Some};
ghost use Rattle.object_fields.specs.Words.{kind_word, stage_word};

use std::fmt;

/// Why a field couldn't be read.
#[derive(Clone, Copy, Debug, PartialEq, Eq)]
pub enum FieldErrorKind {
    /// A field that must be there is absent or null, or a list is empty where one item is expected.
    Missing,
    /// Another JSON type, or a number that isn't a whole number of 64 bits.
    WrongType,
    /// A text that isn't a name of the expected form.
    BadName,
    /// A text that is over its length.
    TooLong,
    /// A list or a map that is over its length.
    TooMany,
    /// A feature that this project leaves out (this project's own rule).
    NotSupported,
    /// Out of memory. It can be returned at any time, and the path is the document's top.
    Memory,
    /// A name or a key that came before.
    Doubled,
    /// A number out of its range.
    OutOfRange,
    /// Not exactly one of several members is set.
    NotOne,
    /// A text that isn't a quantity.
    BadQuantity,
    /// A text that isn't a version of Semantic Versioning 2.0.0.
    BadVersion,
    /// A name of something that isn't there.
    Unknown,
    /// A selector that was refused, with the stage that refused it.
    Selector(Stage),
}

/// The stages of a selector before it runs.
#[derive(Clone, Copy, Debug, PartialEq, Eq)]
pub enum Stage {
    Parse,
    Check,
    Cost,
}

/// The name of the kind alone, such as `Missing` or `Selector.Parse`.
impl fmt::Display for FieldErrorKind {
    ghost output = { λ k. Some (kind_word k) };

    fn fmt<W: fmt::Write>(&self, f: &mut fmt::Formatter<W>) -> fmt::Result {
        match self {
            FieldErrorKind::Missing => f.write_str("Missing"),
            FieldErrorKind::WrongType => f.write_str("WrongType"),
            FieldErrorKind::BadName => f.write_str("BadName"),
            FieldErrorKind::TooLong => f.write_str("TooLong"),
            FieldErrorKind::TooMany => f.write_str("TooMany"),
            FieldErrorKind::NotSupported => f.write_str("NotSupported"),
            FieldErrorKind::Memory => f.write_str("Memory"),
            FieldErrorKind::Doubled => f.write_str("Doubled"),
            FieldErrorKind::OutOfRange => f.write_str("OutOfRange"),
            FieldErrorKind::NotOne => f.write_str("NotOne"),
            FieldErrorKind::BadQuantity => f.write_str("BadQuantity"),
            FieldErrorKind::BadVersion => f.write_str("BadVersion"),
            FieldErrorKind::Unknown => f.write_str("Unknown"),
            FieldErrorKind::Selector(stage) => write!(f, "Selector.{stage}"),
        }
    }
}

impl fmt::Display for Stage {
    ghost output = { λ s. Some (stage_word s) };

    fn fmt<W: fmt::Write>(&self, f: &mut fmt::Formatter<W>) -> fmt::Result {
        match self {
            Stage::Parse => f.write_str("Parse"),
            Stage::Check => f.write_str("Check"),
            Stage::Cost => f.write_str("Cost"),
        }
    }
}

ghost use Rattle.std.specs.Prelude.{◌≡◌, Some, not};
ghost use Rattle.cel_tree.specs.Types.{scalar_word, type_word, facet_word, scalar_of, same_scalar, same_facet, is_dyn, comparable, takes, accepts};

use std::fmt;

/// The types of values that hold no others. A value of type `Dyn` has one of the other six.
#[derive(Clone, Copy, Debug, PartialEq, Eq)]
pub enum Scalar {
    Int,
    Bool,
    Text,
    Null,
    Quantity,
    Semver,
    Dyn,
}

/// The types of a map's keys.
#[derive(Clone, Copy, Debug, PartialEq, Eq)]
pub enum KeyType {
    Int,
    Bool,
    Text,
}

/// What a device has in each domain.
#[derive(Clone, Copy, Debug, PartialEq, Eq)]
pub enum Facet {
    Attributes,
    Capacities,
}

/// The types of the selector language, this project's profile of the CEL language definition. Lists
/// and maps hold scalars alone.
#[derive(Clone, Copy, Debug, PartialEq, Eq)]
pub enum CelType {
    Scalar(Scalar),
    List(Scalar),
    Map(KeyType, Scalar),
    /// `device.attributes` or `device.capacity`: the domains, with what the device has in each.
    Domains(Facet),
    /// What the device has in one domain, by id.
    Entries(Facet),
}

impl CelType {
    pub const INT: CelType = CelType::Scalar(Scalar::Int);

    pub const BOOL: CelType = CelType::Scalar(Scalar::Bool);

    pub const TEXT: CelType = CelType::Scalar(Scalar::Text);

    pub const NULL: CelType = CelType::Scalar(Scalar::Null);

    pub const QUANTITY: CelType = CelType::Scalar(Scalar::Quantity);

    pub const SEMVER: CelType = CelType::Scalar(Scalar::Semver);

    pub const DYN: CelType = CelType::Scalar(Scalar::Dyn);
}

impl Scalar {
    pub fn is_dyn(self) -> bool
        ensures { result ≡ is_dyn self }
    {
        match self {
            Scalar::Dyn => true,
            _ => false,
        }
    }

    pub fn is(self, other: Scalar) -> bool
        ensures { result ≡ same_scalar self other }
    {
        self as u8 == other as u8
    }

    /// Whether values of the two types may be compared: one type, or one of them is `Dyn`.
    pub fn is_comparable(self, other: Scalar) -> bool
        ensures { result ≡ comparable self other }
    {
        self.is(other) || self.is_dyn() || other.is_dyn()
    }

    /// Whether an overload for this type accepts an operand of the given one: this type, or `Dyn`.
    pub fn takes(self, given: Scalar) -> bool
        ensures { result ≡ takes self given }
    {
        self.is(given) || given.is_dyn()
    }

    /// `takes`, where the operand may also hold values.
    pub fn accepts(self, given: CelType) -> bool
        ensures { result ≡ accepts self given }
    {
        match given {
            CelType::Scalar(given) => self.takes(given),
            _ => false,
        }
    }
}

impl KeyType {
    /// The type of a key as a value.
    pub fn scalar(self) -> Scalar
        ensures { result ≡ scalar_of self }
    {
        match self {
            KeyType::Int => Scalar::Int,
            KeyType::Bool => Scalar::Bool,
            KeyType::Text => Scalar::Text,
        }
    }
}

impl Facet {
    pub fn is(self, other: Facet) -> bool
        ensures { result ≡ same_facet self other }
    {
        self as u8 == other as u8
    }
}

/// The name of the type in the CEL language definition.
impl fmt::Display for Scalar {
    ghost output = { λ s. Some (scalar_word s) };

    fn fmt<W: fmt::Write>(&self, f: &mut fmt::Formatter<W>) -> fmt::Result {
        match self {
            Scalar::Int => f.write_str("int"),
            Scalar::Bool => f.write_str("bool"),
            Scalar::Text => f.write_str("string"),
            Scalar::Null => f.write_str("null"),
            Scalar::Quantity => f.write_str("quantity"),
            Scalar::Semver => f.write_str("semver"),
            Scalar::Dyn => f.write_str("dyn"),
        }
    }
}

impl fmt::Display for Facet {
    ghost output = { λ f. Some (facet_word f) };

    fn fmt<W: fmt::Write>(&self, f: &mut fmt::Formatter<W>) -> fmt::Result {
        match self {
            Facet::Attributes => f.write_str("Attributes"),
            Facet::Capacities => f.write_str("Capacities"),
        }
    }
}

/// Such as `int`, `list(string)`, `map(string, dyn)`, `Domains` and `Attributes`.
impl fmt::Display for CelType {
    ghost output = { λ k. Some (type_word k) };

    fn fmt<W: fmt::Write>(&self, f: &mut fmt::Formatter<W>) -> fmt::Result {
        match self {
            CelType::Scalar(scalar) => write!(f, "{scalar}"),
            CelType::List(scalar) => write!(f, "list({scalar})"),
            CelType::Map(key, scalar) => {
                let key = key.scalar();
                write!(f, "map({key}, {scalar})")
            }
            CelType::Domains(_) => f.write_str("Domains"),
            CelType::Entries(facet) => write!(f, "{facet}"),
        }
    }
}

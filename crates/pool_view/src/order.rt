use dra_values::Text;

/// The sort key of a slice among others: by driver, then by pool, then by its own name.
#[derive(Debug, PartialEq, Eq, PartialOrd, Ord, Drop)]
pub struct SlicePlace {
    pub driver: Text,
    pub pool: Text,
    pub slice: Text,
}

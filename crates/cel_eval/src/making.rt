/// What becomes of an element of a range: it is kept if a test holds, it becomes what a body means, or
/// both, as by `filter(x, test)`, `map(x, body)` and `map(x, test, body)`.
#[derive(Clone, Copy, Debug, PartialEq, Eq)]
pub enum Making {
    Filter,
    Map,
    TestAndMap,
}

use crate::Kind;
use dra_values::Text;
use object_fields::Key;

/// What a path names. A namespace is empty if the kind has none.
#[derive(Drop)]
pub enum Route {
    /// All objects of a kind in a namespace.
    Objects(Kind, Text),
    /// The object of a kind and key.
    Object(Kind, Key),
    /// The status of a claim.
    Status(Key),
    /// The scheduling of a pod.
    Schedule(Key),
    /// The release of a pod's claims.
    Release(Key),
    /// The journal.
    History,
}

/// What a request asks for, by its method and its path.
#[derive(Drop)]
pub enum Asked {
    /// All objects of a kind in a namespace.
    List(Kind, Text),
    /// To create an object of a kind in a namespace.
    Create(Kind, Text),
    /// The object of a kind and key.
    Read(Kind, Key),
    /// To update the object of a kind and key.
    Update(Kind, Key),
    /// To take away the object of a kind and key.
    Delete(Kind, Key),
    /// To grant a claim what a status says.
    Adopt(Key),
    /// To schedule a pod.
    Schedule(Key),
    /// To release a pod's claims.
    Release(Key),
    /// The journal.
    History,
}

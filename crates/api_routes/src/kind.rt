ghost use Rattle.std.specs.Prelude.{◌≡◌};
ghost use Rattle.api_routes.specs.Targets.{target_of};

use cluster::Target;
use object_fields::Key;

/// The kinds of objects that the server has.
#[derive(Clone, Copy, Debug, PartialEq, Eq, Drop)]
pub enum Kind {
    Node,
    ResourceSlice,
    DeviceClass,
    ResourceClaim,
    Pod,
}

impl Kind {
    /// The object of this kind and key. Of a kind without namespaces only the key's name counts.
    pub fn target(self, key: Key) -> Target
        ensures { result ≡ target_of self key }
    {
        match self {
            Kind::Node => Target::Node(key.name),
            Kind::ResourceSlice => Target::Slice(key.name),
            Kind::DeviceClass => Target::Class(key.name),
            Kind::ResourceClaim => Target::Claim(key),
            Kind::Pod => Target::Pod(key),
        }
    }
}

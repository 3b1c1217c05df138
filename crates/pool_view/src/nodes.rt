ghost use Rattle.std.specs.Prelude.{◌≡◌, option_copied};
ghost use Rattle.pool_view.specs.Nodes as spec;

use api_slice::{Nodes, SliceNodes};
use dra_values::Text;

/// The one node on which all devices of a slice are, if the slice names one.
pub fn named_node(nodes: &SliceNodes) -> Option<&Text>
    ensures { option_copied result ≡ spec.named_node nodes.now }
{
    match nodes {
        SliceNodes::Nodes(Nodes::Named(name)) => Some(name),
        SliceNodes::Nodes(Nodes::Selected(_) | Nodes::All) | SliceNodes::PerDevice => None,
    }
}

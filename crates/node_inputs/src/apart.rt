//! How the devices of a node differ.

ghost use Rattle.pool_view.specs.Usable.{node_devices, usable_slices};
ghost use Rattle.request_rules.specs.Apart.{AreApart};
ghost use Rattle.node_inputs.specs.Apart.{AreListed, AreNamed};

use dra_values::Text;
use pool_view::{Inventory, devices_of_a_view_differ, usable_slices_differ};

/// States that no two devices that a node sees have one id, that each is one of a usable slice's, and
/// that its slice is the one that the inventory has at the slice's name. Allocates nothing.
pub fn devices_differ(inventory: &Inventory, node: &Text)
    ensures apart { AreApart (node_devices inventory.now node.now) }
    ensures listed { AreListed (node_devices inventory.now node.now) (usable_slices inventory.now) }
    ensures named { AreNamed inventory.now.slices (node_devices inventory.now node.now) }
{
    inventory.keeps_names();
    inventory.keeps_order();
    devices_of_a_view_differ();
    usable_slices_differ();
}

ghost use Rattle.std.specs.Prelude.{◌≡◌, ◌≤◌, List, ℕ, ℤ, Some, Contains, true, false, filter, length, map, slice_get};
ghost use Rattle.std.specs.List.{sum_by};
ghost use Rattle.std.specs.List.Sorted.{IsStrictlySortedBy};
ghost use Rattle.std.specs.Map.{keys_of};
ghost use Rattle.api_slice.specs.declared.types.CounterConsumption.{CounterConsumption};
ghost use Rattle.api_slice.specs.declared.types.Device.{Device};
ghost use Rattle.api_slice.specs.declared.types.ResourceSlice.{ResourceSlice};
ghost use Rattle.pool_view.specs.declared.inventory.Inventory.{Inventory};
ghost use Rattle.pool_view.specs.Differing.{HasCounter, IsAtItsName, usable_devices};
ghost use Rattle.pool_view.specs.Inventory.{AtOwnNames, devices_most, has_room_for, with_slice, without_slice};
ghost use Rattle.pool_view.specs.Names.{text_cmp};
ghost use Rattle.pool_view.specs.OnePool.{AreInOrder, IsElsewhere, is_in, only_pool};
ghost use Rattle.pool_view.specs.Pools.{Offered, id_in, id_of, place_cmp, place_of};
ghost use Rattle.pool_view.specs.Usable.{node_devices, usable_slices};

use crate::Inventory;

/// No two devices that a node sees have one id, so a device's id determines its position. Each has its
/// slice among the slices of usable pools, and is among the devices of that slice. Slices of one
/// name are one slice, if each slice of the inventory is at its own name
/// (`Inventory::keeps_names`) and the names strictly increase (`Inventory::keeps_order`).
pub fn devices_of_a_view_differ()
    ensures ids { (i : Inventory) (node : List ℕ) (n m : ℕ) (o p : Offered) → slice_get (node_devices i node) n ≡ Some o → slice_get (node_devices i node) m ≡ Some p → id_in o ≡ id_in p → n ≡ m }
    ensures slices { (i : Inventory) (node : List ℕ) (n m : ℕ) (o p : Offered) → AtOwnNames i.slices → IsStrictlySortedBy text_cmp (keys_of i.slices) → slice_get (node_devices i node) n ≡ Some o → slice_get (node_devices i node) m ≡ Some p → o.slice.name ≡ p.slice.name → o.slice ≡ p.slice }
    ensures usable { (i : Inventory) (node : List ℕ) (n : ℕ) (o : Offered) → slice_get (node_devices i node) n ≡ Some o → Contains (usable_slices i) o.slice }
    ensures listed { (i : Inventory) (node : List ℕ) (n : ℕ) (o : Offered) → slice_get (node_devices i node) n ≡ Some o → Contains o.slice.devices o.device }
{}

/// The slices of usable pools strictly increase by driver, then by pool, then by their names, so none
/// appears twice. Each is the one that the inventory has at its name, so two of one name are one
/// slice. This holds if each slice of the inventory is at its own name
/// (`Inventory::keeps_names`) and the names strictly increase (`Inventory::keeps_order`). Always, no
/// two of their devices have one id, whatever nodes see them: by slices and devices, and by the
/// positions in the list of all these devices.
pub fn usable_slices_differ()
    ensures in_order { (i : Inventory) → AtOwnNames i.slices → IsStrictlySortedBy text_cmp (keys_of i.slices) → IsStrictlySortedBy place_cmp (map place_of (usable_slices i)) }
    ensures stored { (i : Inventory) (x : ResourceSlice) → AtOwnNames i.slices → IsStrictlySortedBy text_cmp (keys_of i.slices) → Contains (usable_slices i) x → IsAtItsName i.slices x }
    ensures names { (i : Inventory) (x y : ResourceSlice) → AtOwnNames i.slices → IsStrictlySortedBy text_cmp (keys_of i.slices) → Contains (usable_slices i) x → Contains (usable_slices i) y → x.name ≡ y.name → x ≡ y }
    ensures devices { (i : Inventory) (x y : ResourceSlice) (d e : Device) → Contains (usable_slices i) x → Contains x.devices d → Contains (usable_slices i) y → Contains y.devices e → id_of x d ≡ id_of y e → (x ≡ y) × (d ≡ e) }
    ensures ids { (i : Inventory) (n m : ℕ) (o p : Offered) → slice_get (usable_devices i) n ≡ Some o → slice_get (usable_devices i) m ≡ Some p → id_in o ≡ id_in p → n ≡ m }
{}

/// If a device of a usable pool draws from a counter of a set, a slice of the same pool has a set of that
/// name with that counter.
pub fn usable_counters_are_there()
    ensures { (i : Inventory) (x : ResourceSlice) (d : Device) (c : CounterConsumption) (e : List ℕ × ℤ) → Contains (usable_slices i) x → Contains x.devices d → Contains d.consumes c → Contains c.amounts e → HasCounter i x c.set e.0 }
{}

/// The slices of usable pools have at most 65,536 devices in all.
#[tactic(auto, using(crate::proofs::Few::usable_few))]
pub fn usable_devices_are_few(inventory: &Inventory)
    ensures { sum_by (λ x. length x.devices) (usable_slices inventory.now) ≤ devices_most }
{
    inventory.keeps_limit();
}

/// Which slices of a pool are usable depends on its own slices alone: where a slice is put or removed they are
/// those that they would be if the inventory had only the pool's slices (`Inventory::pool`), for which there is
/// room if there is for all. If neither the slice nor the one that it replaces is of the pool, they are as they
/// were.
pub fn pools_change_alone()
    ensures put { (i : Inventory) (index : ℕ) (x : ResourceSlice) (driver pool : List ℕ) → AreInOrder i → filter (is_in driver pool) (usable_slices (with_slice index x i)) ≡ filter (is_in driver pool) (usable_slices (with_slice index x (only_pool driver pool i))) }
    ensures removed { (i : Inventory) (name driver pool : List ℕ) → AreInOrder i → filter (is_in driver pool) (usable_slices (without_slice name i)) ≡ filter (is_in driver pool) (usable_slices (without_slice name (only_pool driver pool i))) }
    ensures put_elsewhere { (i : Inventory) (index : ℕ) (x : ResourceSlice) (driver pool : List ℕ) → AreInOrder i → is_in driver pool x ≡ false → IsElsewhere driver pool x.name i → filter (is_in driver pool) (usable_slices (with_slice index x i)) ≡ filter (is_in driver pool) (usable_slices i) }
    ensures removed_elsewhere { (i : Inventory) (name driver pool : List ℕ) → AreInOrder i → IsElsewhere driver pool name i → filter (is_in driver pool) (usable_slices (without_slice name i)) ≡ filter (is_in driver pool) (usable_slices i) }
    ensures room { (i : Inventory) (x : ResourceSlice) (driver pool : List ℕ) → has_room_for i.slices x ≡ true → has_room_for (only_pool driver pool i).slices x ≡ true }
{}

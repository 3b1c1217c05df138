ghost use Rattle.std.specs.Prelude.{◌≡◌, None, List, ◌∷◌, ◌++◌, ◌+◌, ◌-◌, ◌<◌, ◌≤◌, [], false, true, OnOk, OnErr, if◌then◌else◌};
ghost use Rattle.request_rules.specs.Draws.{CounterId, counter_value, drawn, drawn_by, drawn_from, is_covered, is_of_pool, or_value};
ghost use Rattle.counter_sets.specs.Totals as spec;
ghost use Rattle.counter_sets.specs.Totals.{drawn_in, keeps, value_of};
ghost use Rattle.counter_sets.specs.Holding.{AreHeld, added_held, offered_held};
ghost use Rattle.object_fields.specs.declared.key.DeviceId.{DeviceId};
ghost use Rattle.object_fields.specs.declared.key.Key.{Key};
ghost use Rattle.api_slice.specs.declared.types.ResourceSlice.{ResourceSlice};

use crate::added::add_slice;
use crate::change::{Change, move_device};
use crate::counter::{DriverCounters, PoolCounters};
use crate::covered::{covers, pool_of};
use crate::held::{Held, draw_devices};
use crate::pools::{empty_pool, put_pool, taken_pool};
use crate::shared::SharedTotals;
use api_slice::ResourceSlice;
use dra_values::{Table, Text};
use pool_view::DeviceRef;
use std::alloc::{AllocError, Global};
use std::marker::Model;

/// The counters of the slices added, by driver, pool, set and name: the value of each and how much is
/// drawn from it, in 10^-9.
///
/// Clauses see the value of each counter (`value_of`), which is `None` if no slice that was added has
/// it, and how much is drawn from it (`drawn_in`). Only `add_slice` and `copy_pool` allocate.
#[derive(Drop)]
pub struct Totals {
    drivers: Table<Text, DriverCounters>,
}

impl Model for Totals {
    ghost use Rattle.counter_sets.specs.Totals.{KeptCounters};

    ghost Value = { KeptCounters };

    ghost view = { λ t. t.drivers };
}

impl Totals {
    /// The totals of no counters. Allocates nothing.
    #[tactic(auto, unfolding(crate::specs::Totals::value_of, crate::specs::Totals::drawn_in))]
    pub fn new(alloc: Global) -> Totals
        ensures none { (c : CounterId) → value_of result c ≡ None }
        ensures zero { (c : CounterId) → drawn_in result c ≡ 0 }
    {
        Totals {
            drivers: Table::new(alloc),
        }
    }

    /// Adds the counters of a slice that weren't added yet, with nothing drawn from them, and allocates
    /// all that later draws need. What is drawn from the others stays. `AllocError` is returned only if
    /// memory runs out, and then nothing changes.
    pub fn add_slice(&mut self, slice: &ResourceSlice, alloc: Global) -> Result<(), AllocError>
        ensures value { OnOk result ((c : CounterId) → value_of self.new c ≡ or_value (value_of self.old c) (counter_value slice.now c)) }
        ensures drawn { OnOk result ((c : CounterId) → drawn_in self.new c ≡ drawn_in self.old c) }
        ensures err { OnErr result (self.new ≡ self.old) }
    {
        self.put_slice(slice, alloc)
    }

    fn put_slice(&mut self, slice: &ResourceSlice, alloc: Global) -> Result<(), AllocError>
        ensures ok { OnOk result (self.new ≡ spec.with_slice slice.now self.old) }
        ensures err { OnErr result (self.new ≡ self.old) }
    {
        add_slice(&mut self.drivers, slice, alloc)
    }

    /// Adds what the held devices of a slice draw, whose counters were added. What is drawn must
    /// stay below 2^128: all devices of an inventory can't draw more. Allocates nothing.
    pub fn add_held(&mut self, slice: &ResourceSlice, held: &Held)
        requires kept { (c : CounterId) → keeps self.old c ≡ false → drawn_by c (offered_held held.now slice.now) ≡ 0 }
        requires fits { (c : CounterId) → 0 < drawn_by c (offered_held held.now slice.now) → drawn_in self.old c + drawn_by c (offered_held held.now slice.now) ≤ spec.sum_most }
        ensures drawn { (c : CounterId) → drawn_in self.new c ≡ drawn_in self.old c + drawn_by c (offered_held held.now slice.now) }
        ensures totals { (slices : List ResourceSlice) (pairs : List (DeviceId × Key)) → AreHeld held.now pairs → ((c : CounterId) → drawn_in self.old c ≡ drawn slices pairs c) → (c : CounterId) → drawn_in self.new c ≡ drawn (slices ++ slice.now ∷ []) pairs c }
        ensures value { (c : CounterId) → value_of self.new c ≡ value_of self.old c }
    {
        self.draw_held(slice, held);
    }

    fn draw_held(&mut self, slice: &ResourceSlice, held: &Held)
        ensures { self.new ≡ added_held held.now slice.now slice.now.devices self.old }
    {
        draw_devices(&mut self.drivers, slice, held);
    }

    /// Whether each counter on which the device draws has at least as much left as the device draws
    /// from it. A counter that wasn't added has nothing. Allocates nothing.
    pub fn covers(&self, device: &DeviceRef<'_>) -> bool
        ensures { result ≡ is_covered (value_of self.now) (drawn_in self.now) device.now }
    {
        covers(pool_of(&self.drivers, device.slice()), device)
    }

    /// Draws what a covered device draws. Allocates nothing.
    #[tactic(auto, using(crate::proofs::Moves::drawn_more))]
    pub fn draw(&mut self, device: &DeviceRef<'_>)
        requires covered { is_covered (value_of self.old) (drawn_in self.old) device.now ≡ true }
        ensures drawn { (c : CounterId) → drawn_in self.new c ≡ drawn_in self.old c + drawn_from c device.now }
        ensures value { (c : CounterId) → value_of self.new c ≡ value_of self.old c }
    {
        self.change(Change::Draw, device);
    }

    /// Subtracts what a device drew. Allocates nothing.
    #[tactic(auto, using(crate::proofs::Moves::given_back))]
    pub fn give_back(&mut self, device: &DeviceRef<'_>)
        ensures drawn { (c : CounterId) → drawn_in self.new c ≡ drawn_in self.old c - drawn_from c device.now }
        ensures value { (c : CounterId) → value_of self.new c ≡ value_of self.old c }
    {
        self.change(Change::Return, device);
    }

    fn change(&mut self, change: Change, device: &DeviceRef<'_>)
        ensures { self.new ≡ spec.moved_by change device.now self.old }
    {
        move_device(
            &mut self.drivers,
            change,
            device.slice(),
            device.device().consumes.as_slice(),
        );
    }

    /// The counters of the slice's pool. Allocates nothing.
    pub(crate) fn into_pool(self, slice: &ResourceSlice, alloc: Global) -> PoolCounters
        ensures { result ≡ spec.pool_in self slice.now.driver slice.now.pool.name }
    {
        let driver = slice.driver.as_text();
        taken_pool(self.drivers, driver, &slice.pool.name, alloc)
    }

    /// Copies the counters that shared totals have of a slice's pool, with what is drawn from them, in place of its own.
    /// `AllocError` is returned only if memory runs out, and then nothing changes.
    pub fn copy_pool(
        &mut self,
        slice: &ResourceSlice,
        from: &SharedTotals,
        alloc: Global,
    ) -> Result<(), AllocError>
        ensures value { OnOk result ((c : CounterId) → value_of self.new c ≡ (if is_of_pool slice.now c then value_of from.now c else value_of self.old c)) }
        ensures drawn { OnOk result ((c : CounterId) → drawn_in self.new c ≡ (if is_of_pool slice.now c then drawn_in from.now c else drawn_in self.old c)) }
        ensures err { OnErr result (self.new ≡ self.old) }
    {
        match from.pool_of(slice) {
            None => {
                self.empty_pool(slice, alloc);
                Ok(())
            }
            Some(sets) => {
                let sets = sets.copy(alloc)?;
                self.put_sets(slice, sets, alloc)
            }
        }
    }

    fn empty_pool(&mut self, slice: &ResourceSlice, alloc: Global)
        ensures { self.new ≡ spec.emptied slice.now self.old }
    {
        empty_pool(&mut self.drivers, slice, alloc);
    }

    fn put_sets(
        &mut self,
        slice: &ResourceSlice,
        sets: PoolCounters,
        alloc: Global,
    ) -> Result<(), AllocError>
        ensures ok { OnOk result (self.new ≡ spec.with_pool slice.now sets self.old) }
        ensures err { OnErr result (self.new ≡ self.old) }
    {
        put_pool(&mut self.drivers, slice, sets, alloc)
    }
}

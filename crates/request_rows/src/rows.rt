ghost use Rattle.std.specs.Prelude.{◌≡◌, ◌<◌, ◌++◌, codes, length, map, option_copied, option_map, IfOk};
ghost use Rattle.request_rules.specs.Names.{name_by};
ghost use Rattle.request_rules.specs.Asked.{is_fault, is_yes, match_at, meets, options, tolerated_at};
ghost use Rattle.request_rows.specs.Columns.{cell, fault_from, match_got, match_in, yes_from};
ghost use Rattle.request_rows.specs.Rows.{row_by, row_for, rows_from};
ghost use Rattle.request_rules.specs.Faults.{fault_of};
ghost use Rattle.request_rules.specs.Lists.{Each};
ghost use Rattle.request_rules.specs.Problem.{open_slots, shape_of};
ghost use Rattle.request_rows.specs.Seen.{fault_seen, shape_seen, slot_seen};
ghost use Rattle.request_rows.specs.Wanted.{input_of};
ghost use Rattle.request_rules.specs.Ways.{all_asked, asked_at};

use crate::choice::{Choice, choice_of, chosen_rows};
use crate::columns::columns_for;
use crate::fault::{FaultPlace, first_place};
use crate::taints::{flag_at, tainted_devices, tolerated_of};
use crate::wants::Wants;
use crate::ways::{RequestRows, Way, options_of, request_rows_of, ways_of, wishes_of};
use api_claim::AllocationMode;
use device_match::Verdicts;
use dra_values::{Seq, Text};
use object_fields::Key;
use pool_view::{DeviceRef, Match};
use std::alloc::{AllocError, Global};
use std::marker::Model;

/// What one way to meet a request asks of the devices of a node.
#[derive(Drop)]
pub struct Row {
    /// The index of its claim.
    pub claim: usize,
    pub key: Key,
    /// The name of its results: `request`, or `request/subrequest`.
    pub name: Text,
    /// `adminAccess`.
    pub admin: bool,
    pub mode: AllocationMode,
    /// The positions of the devices that meet it, in order.
    pub matching: Seq<usize>,
    /// The first position at which a selector is neither true nor false.
    pub fault: Option<usize>,
    /// For each device of the node, whether each of its taints is tolerated; empty if none has a taint.
    pub tolerated: Seq<bool>,
}

/// The match if there is one, else No.
fn match_got(found: Option<&Match>) -> Match
    ensures { result ≡ match_got (option_copied found.entry) }
{
    match found {
        None => Match::No,
        Some(found) => *found,
    }
}

pub fn match_in(column: &Seq<Match>, row: usize) -> Match
    ensures { result ≡ match_in column.now row }
{
    match_got(column.as_slice().get(row))
}

pub fn is_yes(found: Match) -> bool
    ensures { result ≡ is_yes found }
{
    match found {
        Match::Yes => true,
        Match::No | Match::Fault { .. } => false,
    }
}

fn is_fault(found: Match) -> bool
    ensures { result ≡ is_fault found }
{
    match found {
        Match::Fault { .. } => true,
        Match::Yes | Match::No => false,
    }
}

/// What a row evaluates to for the device at a position; No if there is none.
pub fn cell(columns: &[Seq<Match>], row: usize, position: usize) -> Match
    ensures { result ≡ cell columns.now row position }
{
    match columns.get(position) {
        None => Match::No,
        Some(column) => match_in(column, row),
    }
}

/// The positions at which the row evaluates to Yes.
fn matching_in(alloc: Global, columns: &[Seq<Match>], row: usize) -> Result<Seq<usize>, AllocError>
    ensures { IfOk result (λ xs. xs ≡ yes_from 0 row columns.now) }
{
    let mut matching = Seq::empty(alloc);
    for position in 0..columns.len() {
        if is_yes(match_in(&columns[position], row)) {
            matching.push(position)?;
        }
    }
    Ok(matching)
}

/// The first position at which the row evaluates to Fault.
fn fault_in(columns: &[Seq<Match>], row: usize) -> Option<usize>
    ensures { result ≡ fault_from 0 row columns.now }
{
    for position in 0..columns.len() {
        if is_fault(match_in(&columns[position], row)) {
            return Some(position);
        }
    }
    None
}

/// The name of results.
fn result_name(alloc: Global, request: &Text, sub: Option<&Text>) -> Result<Text, AllocError>
    ensures { IfOk result (λ name. name ≡ name_by request.now (option_copied sub.entry)) }
{
    match sub {
        None => request.copy(alloc),
        Some(sub) => joined_name(alloc, request, sub),
    }
}

/// `request/subrequest`.
fn joined_name(alloc: Global, request: &Text, sub: &Text) -> Result<Text, AllocError>
    ensures { IfOk result (λ name. name ≡ request.now ++ codes "/" ++ sub.now) }
{
    let name = format!(in alloc; "{request}/{sub}")?;
    Text::new(alloc, name)
}

fn row_of(
    alloc: Global,
    way: &Way,
    columns: &[Seq<Match>],
    tainted: &[DeviceRef],
    row: usize,
) -> Result<Row, AllocError>
    ensures { IfOk result (λ r. r ≡ row_by columns.now tainted.now row way.now) }
{
    Ok(Row {
        claim: way.claim,
        key: way.key.copy(alloc)?,
        name: result_name(alloc, way.request, way.sub)?,
        admin: way.admin,
        mode: way.ask.mode,
        matching: matching_in(alloc, columns, row)?,
        fault: fault_in(columns, row),
        tolerated: tolerated_of(alloc, way.ask, tainted)?,
    })
}

/// `tainted` are the devices, or none if none of them has a taint.
fn rows_of(
    alloc: Global,
    ways: &[Way],
    columns: &[Seq<Match>],
    tainted: &[DeviceRef],
) -> Result<Seq<Row>, AllocError>
    ensures { IfOk result (λ rows. rows ≡ rows_from columns.now tainted.now 0 ways.now) }
{
    let mut rows = Seq::empty(alloc);
    for row in 0..ways.len() {
        rows.push(row_of(alloc, &ways[row], columns, tainted, row)?)?;
    }
    Ok(rows)
}

/// What claims ask of the devices of a node, computed once: a row for each way to meet each of
/// their requests (`exactly`, or a subrequest), in order.
///
/// Contracts see what they were made of, and by `input_of` the input of the node's search, as if no
/// device were held and no counter existed: what a choice asks for depends on neither
/// (`choices_ask_alike`).
#[derive(Drop)]
pub struct Rows<'a> {
    wants: &'a Wants<'a>,
    devices: &'a [DeviceRef<'a>],
    broken: bool,
    options: Seq<usize>,
    requests: Seq<RequestRows>,
    rows: Seq<Row>,
    /// For each device, what each row evaluates to.
    columns: Seq<Seq<Match>>,
}

impl<'a> Model for Rows<'a> {
    ghost use Rattle.request_rows.specs.Wanted.{RowsFields, asking};
    ghost use Rattle.request_rows.specs.Rows.{AreRows};

    ghost Value = { RowsFields };

    ghost view = { λ r. record { wants = r.wants.now; devices = r.devices.now; broken = r.broken } };

    ghost invariant = { λ r. AreRows (asking r.wants.now r.devices.now r.broken) r.options r.requests r.rows r.columns };
}

impl<'a> Rows<'a> {
    /// What is asked of these devices, the node's in order; `broken` says that an incomplete or invalid
    /// pool is visible to the node. Each selector is tried at most once on each device.
    /// `AllocError` only if memory runs out.
    pub fn of(
        alloc: Global,
        wants: &'a Wants<'a>,
        devices: &'a [DeviceRef<'a>],
        broken: bool,
    ) -> Result<Rows<'a>, AllocError>
        ensures { IfOk result (λ rows. rows ≡ record { wants = wants.now; devices = devices.now; broken = broken }) }
    {
        let mut verdicts = Verdicts::forgetful(alloc);
        Rows::with(alloc, wants, devices, broken, &mut verdicts)
    }

    /// The same, with what is remembered of selectors and devices: a selector that is known on a device isn't tried.
    pub fn with(
        alloc: Global,
        wants: &'a Wants<'a>,
        devices: &'a [DeviceRef<'a>],
        broken: bool,
        verdicts: &mut Verdicts,
    ) -> Result<Rows<'a>, AllocError>
        ensures { IfOk result (λ rows. rows ≡ record { wants = wants.now; devices = devices.now; broken = broken }) }
    {
        let wishes = wishes_of(alloc, &wants.claims)?;
        let options = options_of(alloc, &wishes)?;
        let requests = request_rows_of(alloc, &wishes)?;
        let ways = ways_of(alloc, &wishes)?;
        let columns = columns_for(alloc, wants, &ways, devices, verdicts)?;
        let tainted = tainted_devices(devices);
        let rows = rows_of(alloc, &ways, columns.as_slice(), tainted)?;
        Ok(Rows {
            wants,
            devices,
            broken,
            options,
            requests,
            rows,
            columns,
        })
    }

    /// How many ways there are to meet each request: 1 for `exactly`, and else the number of its
    /// subrequests.
    pub fn options(&self) -> &[usize]
        ensures { result.now ≡ options (input_of self.now) }
    {
        self.options.as_slice()
    }

    /// How many rows there are.
    pub fn len(&self) -> usize
        ensures { result ≡ length (all_asked (input_of self.now)) }
    {
        self.rows.as_slice().len()
    }

    /// What a choice asks for: one number for each request, that of the subrequest that is taken, and 0
    /// for `exactly`. `AllocError` only if memory runs out.
    pub fn begin(&self, alloc: Global, choice: &[usize]) -> Result<Choice, AllocError>
        ensures shape { IfOk result (λ c. shape_seen c.shape ≡ shape_of (input_of self.now) choice.now) }
        ensures slots { IfOk result (λ c. map (slot_seen (input_of self.now)) c.slots.items ≡ open_slots (input_of self.now) choice.now) }
        ensures rows { IfOk result (λ c. Each (λ s. s.row < length (all_asked (input_of self.now))) c.slots.items) }
    {
        let chosen = chosen_rows(alloc, self.requests.as_slice(), choice)?;
        let rows = self.rows.as_slice();
        let begun = choice_of(alloc, self.broken, rows, &chosen)?;
        Ok(begun)
    }

    /// Where a choice has an evaluation error, if a request that it picks has one: that of the first such
    /// request, in order, on the first device. `AllocError` only if memory runs out.
    pub fn fault_of(
        &self,
        alloc: Global,
        choice: &[usize],
    ) -> Result<Option<FaultPlace>, AllocError>
        ensures { IfOk result (λ place. option_map fault_seen place ≡ fault_of (input_of self.now) choice.now) }
    {
        let chosen = chosen_rows(alloc, self.requests.as_slice(), choice)?;
        let rows = self.rows.as_slice();
        let columns = self.columns.as_slice();
        let place = first_place(alloc, self.devices, columns, rows, &chosen)?;
        Ok(place)
    }

    /// The devices, in order.
    pub fn devices(&self) -> &[DeviceRef<'a>]
        ensures { result.now ≡ self.now.devices }
    {
        self.devices
    }

    /// What a row evaluates to for the device at a position; No if there is none.
    pub fn matched(&self, row: usize, position: usize) -> Match
        requires { row < length (all_asked (input_of self.now)) }
        ensures { result ≡ match_at (input_of self.now) (asked_at (input_of self.now) row).ask position }
    {
        cell(self.columns.as_slice(), row, position)
    }

    /// Whether the device at a position meets the request of a row.
    pub fn meets(&self, row: usize, position: usize) -> bool
        requires { row < length (all_asked (input_of self.now)) }
        ensures { result ≡ meets (input_of self.now) (asked_at (input_of self.now) row).ask position }
    {
        is_yes(self.matched(row, position))
    }

    /// Whether each taint of the device at a position is tolerated by what a row asks for.
    pub fn tolerates(&self, row: usize, position: usize) -> bool
        requires { row < length (all_asked (input_of self.now)) }
        ensures { result ≡ tolerated_at (input_of self.now) (asked_at (input_of self.now) row).ask position }
    {
        flag_at(&self.row(row).tolerated, position)
    }

    /// The row, with its claim, its name, its mode and whether it has admin access.
    pub fn row(&self, row: usize) -> &Row
        requires { row < length (all_asked (input_of self.now)) }
        ensures { result.now ≡ row_for (input_of self.now) (asked_at (input_of self.now) row) }
    {
        &self.rows.as_slice()[row]
    }
}

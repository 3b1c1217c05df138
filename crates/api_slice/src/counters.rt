ghost use Rattle.std.specs.Prelude.{◌≡◌, ◌&&◌, ◌++◌, ◌∷◌, [], Ok, codes, not};
ghost use Rattle.serde_json.specs.View.{items_view, members_view, view};
ghost use Rattle.object_fields.specs.Fields as reading;
ghost use Rattle.object_fields.specs.Fields.{Reads, has_no_items, member_of};
ghost use Rattle.object_fields.specs.declared.path.Step.TheVariants.{Place};
ghost use Rattle.api_slice.specs.Counters as fields;
ghost use Rattle.api_slice.specs.Entries.{counter_entry, counters_by};
ghost use Rattle.api_slice.specs.Lists.{is_empty_or_none};

use crate::amount::read_amount;
use crate::lists::{count_on, is_empty_or_none, items_or_none, no_items};
use crate::types::CounterSet;
use dra_values::{Seq, Table, Text};
use object_fields::{
    ByName, FieldError, FieldErrorKind, HasName, Path, label_of, member, optional_list, or_memory,
    read_dns_label, table, value_object,
};
use quantity::Quantity;
use serde_json::{Map, Value};
use std::alloc::Global;

/// The most counters of a slice (API reference of `resource.k8s.io/v1`).
const COUNTERS_MOST: usize = 32;

/// The counter sets of a spec; none where they are missing. It is NotOne at `sharedCounters` where
/// there are devices besides.
pub(crate) fn read_counter_sets(
    alloc: Global,
    spec: &Value,
    path: &Path,
) -> Result<Seq<CounterSet>, FieldError>
    ensures { Reads result (fields.counter_sets_at path.now (view spec.now)) }
{
    let values = items_or_none(optional_list(alloc, spec, path, "sharedCounters")?);
    sets_alone(alloc, spec, path, values)
}

/// The counter sets of a list; where it has any, the slice has no devices.
fn sets_alone(
    alloc: Global,
    spec: &Value,
    path: &Path,
    values: &[Value],
) -> Result<Seq<CounterSet>, FieldError>
    ensures { Reads result (fields.sets_alone path.now (view spec.now) (items_view values.now)) }
{
    check_alone(alloc, spec, path, values)?;
    sets_at(alloc, path, values)
}

fn sets_at(alloc: Global, path: &Path, values: &[Value]) -> Result<Seq<CounterSet>, FieldError>
    ensures { Reads result (fields.sets_at path.now (items_view values.now)) }
{
    let path = path.member("sharedCounters");
    each_set(alloc, values, &path)
}

/// Whether there are counter sets, and devices besides.
fn stand_beside(spec: &Value, sets: &[Value]) -> bool
    ensures { result ≡ (not (has_no_items (items_view sets.now)) && not (is_empty_or_none (member_of (codes "devices") (view spec.now)))) }
{
    !no_items(sets) && !is_empty_or_none(member(spec, "devices"))
}

/// Nothing where there are no counter sets or no devices, else NotOne.
fn check_alone(alloc: Global, spec: &Value, path: &Path, sets: &[Value]) -> Result<(), FieldError>
    ensures { Reads result (fields.alone_at path.now (view spec.now) (items_view sets.now)) }
{
    if stand_beside(spec, sets) {
        Err(FieldError::of_field(alloc, path, "sharedCounters", FieldErrorKind::NotOne))
    } else {
        Ok(())
    }
}

/// A set is found by its name.
impl HasName for CounterSet {
    ghost name_of = { λ s. s.name };

    fn name(&self) -> &Text {
        &self.name
    }
}

fn each_set(alloc: Global, values: &[Value], path: &Path) -> Result<Seq<CounterSet>, FieldError>
    ensures { Reads result (fields.sets_from path.now 0 0 [] (items_view values.now)) }
{
    let mut sets = ByName::empty(alloc);
    let mut met = 0;
    for place in 0..values.len() {
        let (set, more) = read_set(alloc, &values[place], path, place, met, &sets)?;
        sets = or_memory(alloc, sets.with(alloc, set))?;
        met = more;
    }
    Ok(sets.into_seq())
}

/// The set at an index of the list, and how many counters there are so far with its own.
fn read_set(
    alloc: Global,
    value: &Value,
    list: &Path,
    place: usize,
    met: usize,
    sets: &ByName<CounterSet>,
) -> Result<(CounterSet, usize), FieldError>
    ensures { Reads result
        (reading.◌>>=◌ (fields.new_set_name (list.now ++ Place place ∷ []) sets.now (view value.now)) (λ name.
        reading.◌>>=◌ (fields.counters_at list.now (list.now ++ Place place ∷ []) met (view value.now)) (λ counters.
        Ok (record { name = name; counters = counters.0 }, counters.1)))) }
{
    let at = list.place(place);
    let name = new_set_name(alloc, value, &at, sets)?;
    let (counters, more) = read_counters(alloc, value, list, &at, met)?;
    Ok((CounterSet { name, counters }, more))
}

/// The name of a set that none of these has.
fn new_set_name(
    alloc: Global,
    value: &Value,
    path: &Path,
    sets: &ByName<CounterSet>,
) -> Result<Text, FieldError>
    ensures { Reads result (fields.new_set_name path.now sets.now (view value.now)) }
{
    let object = value_object(alloc, value, path)?;
    let name = read_dns_label(alloc, object, path, "name")?;
    if sets.has(&name) {
        Err(FieldError::of_field(alloc, path, "name", FieldErrorKind::Doubled))
    } else {
        Ok(name)
    }
}

/// The counters of a set, and how many there are so far with them. It is TooMany at the list's path where
/// these are too many.
#[tactic(auto, using(crate::proofs::Entries::counters_are))]
fn read_counters(
    alloc: Global,
    object: &Value,
    list: &Path,
    path: &Path,
    met: usize,
) -> Result<(Table<Text, Quantity>, usize), FieldError>
    ensures { Reads result (fields.counters_at list.now path.now met (view object.now)) }
{
    let members = table(alloc, object, path, "counters")?;
    let met = count_on(alloc, list, COUNTERS_MOST, met, members)?;
    let path = path.member("counters");
    let counters = counters_of(alloc, members, &path)?;
    Ok((counters, met))
}

fn counters_of(
    alloc: Global,
    members: &Map<String, Value>,
    path: &Path,
) -> Result<Table<Text, Quantity>, FieldError>
    ensures { Reads result (counters_by path.now [] (members_view members.now.entries)) }
{
    let mut counters = Table::new(alloc);
    for (key, value) in members {
        let (name, amount) = read_entry(alloc, key.as_str(), value, &*path)?;
        or_memory(alloc, counters.insert(name, amount))?;
    }
    Ok(counters)
}

/// The name and the amount of a counter.
fn read_entry<'a>(
    alloc: Global,
    key: &'a str,
    value: &Value,
    path: &'a Path<'a>,
) -> Result<(Text, Quantity), FieldError>
    ensures { Reads result (counter_entry path.now key.now (view value.now)) }
{
    let at = path.key(key);
    let name = counter_name(alloc, key, &at)?;
    let amount = read_amount(alloc, value, &at)?;
    Ok((name, amount))
}

/// A counter's name, a DNS label. TooLong, then BadName.
#[tactic(auto, unfolding(crate::specs::Counters::counter_name))]
fn counter_name(alloc: Global, key: &str, path: &Path) -> Result<Text, FieldError>
    ensures { Reads result (fields.counter_name path.now key.now) }
{
    label_of(alloc, path, key)
}

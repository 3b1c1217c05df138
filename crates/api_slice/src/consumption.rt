ghost use Rattle.std.specs.Prelude.{◌≡◌, []};
ghost use Rattle.serde_json.specs.View.{items_view, members_view, view};
ghost use Rattle.object_fields.specs.Fields.{Reads};
ghost use Rattle.api_slice.specs.Consumption as fields;
ghost use Rattle.api_slice.specs.Entries.{draw_entry, draws_by};

use crate::amount::read_amount;
use crate::lists::{count_on, items_or_none};
use crate::types::CounterConsumption;
use dra_values::{Seq, Table, Text};
use object_fields::{
    ByName, FieldError, FieldErrorKind, HasName, Path, optional_list, or_memory, table, text,
    value_object,
};
use quantity::Quantity;
use serde_json::{Map, Value};
use std::alloc::Global;

/// The most amounts that a device draws (API reference of `resource.k8s.io/v1`).
const AMOUNTS_MOST: usize = 32;

/// What a device draws from counter sets of its pool; nothing where it is missing.
#[tactic(auto, using(crate::proofs::Entries::draws_are))]
pub(crate) fn read_consumption(
    alloc: Global,
    device: &Value,
    path: &Path,
) -> Result<Seq<CounterConsumption>, FieldError>
    ensures { Reads result (fields.consumes_of path.now (view device.now)) }
{
    let values = optional_list(alloc, device, path, "consumesCounters")?;
    let path = path.member("consumesCounters");
    each_draw(alloc, items_or_none(values), &path)
}

/// A draw is found by its set.
impl HasName for CounterConsumption {
    ghost name_of = { λ c. c.set };

    fn name(&self) -> &Text {
        &self.set
    }
}

fn each_draw(
    alloc: Global,
    values: &[Value],
    path: &Path,
) -> Result<Seq<CounterConsumption>, FieldError>
    ensures { Reads result (draws_by path.now 0 0 [] (items_view values.now)) }
{
    let mut draws = ByName::empty(alloc);
    let mut met = 0;
    for place in 0..values.len() {
        let (draw, more) = read_draw(alloc, &values[place], path, place, met, &draws)?;
        draws = or_memory(alloc, draws.with(alloc, draw))?;
        met = more;
    }
    Ok(draws.into_seq())
}

/// What is drawn at an index of the list, and how many amounts there are so far with its own.
fn read_draw(
    alloc: Global,
    value: &Value,
    list: &Path,
    place: usize,
    met: usize,
    draws: &ByName<CounterConsumption>,
) -> Result<(CounterConsumption, usize), FieldError>
    ensures { Reads result (draw_entry list.now place met draws.now (view value.now)) }
{
    let at = list.place(place);
    let set = new_drawn_set(alloc, value, &at, draws)?;
    let (amounts, more) = read_amounts(alloc, value, list, &at, met)?;
    Ok((CounterConsumption { set, amounts }, more))
}

/// The name of the set from which is drawn, and nothing was before. Missing, then WrongType, then
/// Doubled.
fn new_drawn_set(
    alloc: Global,
    value: &Value,
    path: &Path,
    draws: &ByName<CounterConsumption>,
) -> Result<Text, FieldError>
    ensures { Reads result (fields.new_drawn_set path.now draws.now (view value.now)) }
{
    let object = value_object(alloc, value, path)?;
    let name = text(alloc, object, path, "counterSet")?;
    if draws.has(&name) {
        Err(FieldError::of_field(alloc, path, "counterSet", FieldErrorKind::Doubled))
    } else {
        Ok(name)
    }
}

/// The amounts that are drawn from a set, and how many there are so far with them. It is TooMany at
/// the list's path where these are too many.
fn read_amounts(
    alloc: Global,
    object: &Value,
    list: &Path,
    path: &Path,
    met: usize,
) -> Result<(Table<Text, Quantity>, usize), FieldError>
    ensures { Reads result (fields.amounts_at list.now path.now met (view object.now)) }
{
    let members = table(alloc, object, path, "counters")?;
    let met = count_on(alloc, list, AMOUNTS_MOST, met, members)?;
    let path = path.member("counters");
    let amounts = amounts_of(alloc, members, &path)?;
    Ok((amounts, met))
}

fn amounts_of<'a>(
    alloc: Global,
    members: &'a Map<String, Value>,
    path: &'a Path<'a>,
) -> Result<Table<Text, Quantity>, FieldError>
    ensures { Reads result (fields.amounts_with path.now [] (members_view members.now.entries)) }
{
    let mut amounts = Table::new(alloc);
    for (key, value) in members {
        let at = path.key(key.as_str());
        let amount = read_amount(alloc, value, &at)?;
        let name = or_memory(alloc, Text::from_str(alloc, key.as_str()))?;
        or_memory(alloc, amounts.insert(name, amount))?;
    }
    Ok(amounts)
}

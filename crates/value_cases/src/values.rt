use crate::input::{CaseError, item, items, number_at, text, text_at};
use crate::shown::{Out, done};
use dra_values::{Duplicate, Seq, Table, Text};
use serde_json::Value;
use std::alloc::{AllocError, Global};

pub fn answer(alloc: Global, out: &mut Out, word: &str, input: &Value) -> Result<(), CaseError> {
    match word {
        "text" => text_forms(alloc, out, input),
        "order" => order(alloc, out, input),
        "list" => list(alloc, out, input),
        "table" => table(alloc, out, input),
        _ => Err(CaseError::BadCase),
    }
}

/// Appends a text's copy in quotes, the text right-aligned to eight characters, and the text.
fn text_forms(alloc: Global, out: &mut Out, chars: &Value) -> Result<(), CaseError> {
    let text = Text::new(alloc, String::from_str(alloc, text(chars)?)?)?;
    let copy = text.duplicate(alloc)?;
    out.debug(&copy);
    out.say(" [");
    out.wide(&text);
    out.say("] ");
    out.say(text.as_str());
    Ok(())
}

/// Appends whether two texts are equal, and how they compare.
fn order(alloc: Global, out: &mut Out, input: &Value) -> Result<(), CaseError> {
    let (left, right) = (text_at(input, 0)?, text_at(input, 1)?);
    let left = Text::from_str(alloc, left)?;
    let right = Text::from_str(alloc, right)?;
    out.debug(&left.cmp(&right));
    out.show_after(" ", &(left == right));
    Ok(())
}

/// Appends the pairs of a list, each a number and a truth, pushed one after another, copied, and taken out
/// and put in again.
fn list(alloc: Global, out: &mut Out, input: &Value) -> Result<(), CaseError> {
    let items = items(input)?;
    let mut pairs = Seq::empty(alloc);
    for pair in items {
        push_pair(&mut pairs, pair)?;
    }
    let equal = equals_copy(alloc, &pairs)?;
    out.debug(&Seq::new(pairs.into_vec()));
    out.show_after(" ", &equal);
    Ok(())
}

fn push_pair(pairs: &mut Seq<(u64, bool)>, pair: &Value) -> Result<(), CaseError> {
    let number = number_at(pair, 0)?;
    let truth = item(pair, 1)?.as_bool().ok_or(CaseError::BadCase)?;
    done(pairs.push((number, truth)))
}

fn equals_copy(alloc: Global, pairs: &Seq<(u64, bool)>) -> Result<bool, AllocError> {
    let copy = pairs.duplicate(alloc)?;
    Ok(copy == *pairs)
}

/// Appends what each step on a table of numbers returns, one after another: `["insert", key, number]`,
/// `["set", key, number]`, `["get", key]`, `["remove", key]` or `["print"]`.
fn table(alloc: Global, out: &mut Out, input: &Value) -> Result<(), CaseError> {
    let steps = items(input)?;
    let mut numbers = Table::new(alloc);
    for step in steps {
        table_step(alloc, out, &mut numbers, step)?;
    }
    Ok(())
}

fn table_step(
    alloc: Global,
    out: &mut Out,
    numbers: &mut Table<Text, u64>,
    step: &Value,
) -> Result<(), CaseError> {
    let verb = text_at(step, 0)?;
    match verb {
        "print" => done(print(alloc, out, numbers)),
        "get" => get(alloc, out, numbers, step),
        "remove" => remove(alloc, out, numbers, step),
        "insert" => insert(alloc, numbers, step),
        "set" => set(alloc, numbers, step),
        _ => Err(CaseError::BadCase),
    }
}

/// The key of a step.
fn key_of(alloc: Global, step: &Value) -> Result<Text, CaseError> {
    let text = text_at(step, 1)?;
    done(Text::from_str(alloc, text))
}

fn insert(alloc: Global, numbers: &mut Table<Text, u64>, step: &Value) -> Result<(), CaseError> {
    let number = number_at(step, 2)?;
    let key = key_of(alloc, step)?;
    done(numbers.insert(key, number))
}

fn set(alloc: Global, numbers: &mut Table<Text, u64>, step: &Value) -> Result<(), CaseError> {
    let number = number_at(step, 2)?;
    let key = key_of(alloc, step)?;
    match numbers.get_mut(&key) {
        Some(place) => {
            *place = number;
            Ok(())
        }
        None => Err(CaseError::BadCase),
    }
}

fn get(
    alloc: Global,
    out: &mut Out,
    numbers: &Table<Text, u64>,
    step: &Value,
) -> Result<(), CaseError> {
    let key = key_of(alloc, step)?;
    out.show(&numbers.contains_key(&key));
    out.say(" ");
    out.debug(&numbers.get(&key));
    out.say(";");
    Ok(())
}

fn remove(
    alloc: Global,
    out: &mut Out,
    numbers: &mut Table<Text, u64>,
    step: &Value,
) -> Result<(), CaseError> {
    let key = key_of(alloc, step)?;
    let number = numbers.remove(&key);
    out.debug(&number);
    out.say(";");
    Ok(())
}

/// Appends the table by a copy of it, and how many entries it has.
fn print(alloc: Global, out: &mut Out, numbers: &Table<Text, u64>) -> Result<(), AllocError> {
    let copy = Table::from_map(numbers.copy(alloc)?.into_map());
    out.debug(&copy);
    out.show_after(" ", &(copy == *numbers));
    out.show_after(" ", &copy.len());
    out.show_after(" ", &copy.is_empty());
    out.say(";");
    Ok(())
}

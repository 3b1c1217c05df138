use crate::input::{CaseError, item, items, text, text_at};
use crate::shown::{Out, done, put};
use cel_tree::{BinaryOp, Called, Facet, Function, Literal, UnaryOp, called_of};
use cel_value::{
    DeviceEnv, EvalError, Key, Single, Value, Version, binary, call, constant, device_member,
    elements, has, index, member, method, truth, unary, weight,
};
use dra_values::{Seq, Table, Text};
use quantity::Quantity;
use serde_json::Value as Json;
use std::alloc::Global;
use std::fmt::Debug;

/// An operation of the selector language on values, some of which no expression that checks leads to.
pub fn answer(
    alloc: Global,
    out: &mut Out,
    device: &DeviceEnv,
    word: &str,
    input: &Json,
) -> Result<(), CaseError> {
    match word {
        "unary" => of_unary(alloc, out, input),
        "binary" => of_binary(alloc, out, device, input),
        "call" => of_call(alloc, out, device, input),
        "method" => of_method(alloc, out, device, input),
        "index" => of_index(alloc, out, device, input),
        "member" => of_member(alloc, out, device, input),
        "has" => of_has(alloc, out, device, input),
        "device" => of_device(alloc, out, device, input),
        _ => of_one(alloc, out, device, word, input),
    }
}

/// What there is of one value.
fn of_one(
    alloc: Global,
    out: &mut Out,
    device: &DeviceEnv,
    word: &str,
    input: &Json,
) -> Result<(), CaseError> {
    match word {
        "elements" => of_elements(alloc, out, device, input),
        "single" => of_single(alloc, out, input),
        "key" => of_key(alloc, out, input),
        "truth" => of_truth(alloc, out, input),
        "weight" => of_weight(alloc, out, input),
        "literal" => of_literal(alloc, out, input),
        _ => Err(CaseError::BadCase),
    }
}

/// Appends what an operation returns.
fn shown<T: Debug + Drop>(out: &mut Out, answer: Result<T, EvalError>) -> Result<(), CaseError> {
    match answer {
        Ok(value) => out.debug(&value),
        Err(error) => out.debug(&error),
    }
    Ok(())
}

fn unary_op(op: &str) -> Result<UnaryOp, CaseError> {
    match op {
        "!" => Ok(UnaryOp::Not),
        "-" => Ok(UnaryOp::Negate),
        _ => Err(CaseError::BadCase),
    }
}

fn of_unary(alloc: Global, out: &mut Out, input: &Json) -> Result<(), CaseError> {
    let op = unary_op(text_at(input, 0)?)?;
    let operand = value(alloc, item(input, 1)?)?;
    shown(out, unary(op, &operand))
}

/// The operator on a value and each of a list of others, the results one after another.
fn of_binary(
    alloc: Global,
    out: &mut Out,
    device: &DeviceEnv,
    input: &Json,
) -> Result<(), CaseError> {
    let op = operator(text_at(input, 0)?)?;
    let rights = items(item(input, 2)?)?;
    let left = value(alloc, item(input, 1)?)?;
    binaries(alloc, out, device, op, &left, rights)
}

fn binaries(
    alloc: Global,
    out: &mut Out,
    device: &DeviceEnv,
    op: BinaryOp,
    left: &Value,
    rights: &[Json],
) -> Result<(), CaseError> {
    for right in rights {
        push_bar(out);
        push_binary(alloc, out, device, op, left, right)?;
    }
    Ok(())
}

fn push_binary(
    alloc: Global,
    out: &mut Out,
    device: &DeviceEnv,
    op: BinaryOp,
    left: &Value,
    right: &Json,
) -> Result<(), CaseError> {
    let right = value(alloc, right)?;
    shown(out, binary(alloc, device, op, left, &right))
}

/// What comes between two results.
pub fn push_bar(out: &mut Out) {
    if !out.is_empty() {
        out.say(" | ");
    }
}

fn of_call(
    alloc: Global,
    out: &mut Out,
    device: &DeviceEnv,
    input: &Json,
) -> Result<(), CaseError> {
    let function = function(text_at(input, 0)?)?;
    let arguments = values(alloc, item(input, 1)?)?;
    shown(out, call(alloc, device, function, &arguments))
}

fn of_method(
    alloc: Global,
    out: &mut Out,
    device: &DeviceEnv,
    input: &Json,
) -> Result<(), CaseError> {
    let function = function(text_at(input, 0)?)?;
    let object = value(alloc, item(input, 1)?)?;
    method_of(alloc, out, device, function, &object, item(input, 2)?)
}

fn method_of(
    alloc: Global,
    out: &mut Out,
    device: &DeviceEnv,
    function: Function,
    object: &Value,
    arguments: &Json,
) -> Result<(), CaseError> {
    let arguments = values(alloc, arguments)?;
    shown(out, method(alloc, device, function, object, &arguments))
}

/// The index of a value by each of a list of others, the results one after another.
fn of_index(
    alloc: Global,
    out: &mut Out,
    device: &DeviceEnv,
    input: &Json,
) -> Result<(), CaseError> {
    let parts = items(item(input, 1)?)?;
    let object = value(alloc, item(input, 0)?)?;
    indexes(alloc, out, device, &object, parts)
}

fn indexes(
    alloc: Global,
    out: &mut Out,
    device: &DeviceEnv,
    object: &Value,
    parts: &[Json],
) -> Result<(), CaseError> {
    for part in parts {
        push_bar(out);
        push_index(alloc, out, device, object, part)?;
    }
    Ok(())
}

fn push_index(
    alloc: Global,
    out: &mut Out,
    device: &DeviceEnv,
    object: &Value,
    part: &Json,
) -> Result<(), CaseError> {
    let part = value(alloc, part)?;
    shown(out, index(alloc, device, object, &part))
}

fn of_member(
    alloc: Global,
    out: &mut Out,
    device: &DeviceEnv,
    input: &Json,
) -> Result<(), CaseError> {
    let name = text_at(input, 1)?;
    let object = value(alloc, item(input, 0)?)?;
    shown(out, member(alloc, device, &object, name))
}

fn of_has(alloc: Global, out: &mut Out, device: &DeviceEnv, input: &Json) -> Result<(), CaseError> {
    let name = text_at(input, 1)?;
    let object = value(alloc, item(input, 0)?)?;
    shown(out, has(alloc, device, &object, name))
}

fn of_device(
    alloc: Global,
    out: &mut Out,
    device: &DeviceEnv,
    name: &Json,
) -> Result<(), CaseError> {
    let name = text(name)?;
    shown(out, device_member(alloc, device, name))
}

fn of_elements(
    alloc: Global,
    out: &mut Out,
    device: &DeviceEnv,
    range: &Json,
) -> Result<(), CaseError> {
    let range = value(alloc, range)?;
    shown(out, elements(alloc, device, &range))
}

fn of_single(alloc: Global, out: &mut Out, input: &Json) -> Result<(), CaseError> {
    let value = value(alloc, input)?;
    shown(out, value.into_single())
}

fn of_key(alloc: Global, out: &mut Out, input: &Json) -> Result<(), CaseError> {
    let value = value(alloc, input)?;
    shown(out, value.into_key())
}

fn of_truth(alloc: Global, out: &mut Out, input: &Json) -> Result<(), CaseError> {
    let value = value(alloc, input)?;
    out.debug(&truth(&value));
    Ok(())
}

fn of_weight(alloc: Global, out: &mut Out, input: &Json) -> Result<(), CaseError> {
    let value = value(alloc, input)?;
    out.show(&weight(&value));
    Ok(())
}

/// The value of a literal: null, a truth, a whole number or a text.
fn of_literal(alloc: Global, out: &mut Out, input: &Json) -> Result<(), CaseError> {
    let literal = literal(alloc, input)?;
    shown(out, constant(alloc, &literal))
}

fn literal(alloc: Global, input: &Json) -> Result<Literal, CaseError> {
    match input {
        Json::Null => Ok(Literal::Null),
        Json::Bool(truth) => Ok(Literal::Bool(*truth)),
        Json::String(text) => Ok(Literal::Text(Text::from_str(alloc, text)?)),
        _ => Ok(Literal::Int(int(input)?)),
    }
}

// ---- operators and functions

pub fn operator(word: &str) -> Result<BinaryOp, CaseError> {
    match word {
        "||" => Ok(BinaryOp::Or),
        "&&" => Ok(BinaryOp::And),
        "<" => Ok(BinaryOp::Less),
        "<=" => Ok(BinaryOp::LessEq),
        ">=" => Ok(BinaryOp::GreaterEq),
        ">" => Ok(BinaryOp::Greater),
        "==" => Ok(BinaryOp::Equal),
        "!=" => Ok(BinaryOp::NotEqual),
        _ => arithmetic(word),
    }
}

fn arithmetic(word: &str) -> Result<BinaryOp, CaseError> {
    match word {
        "in" => Ok(BinaryOp::In),
        "+" => Ok(BinaryOp::Add),
        "-" => Ok(BinaryOp::Subtract),
        "*" => Ok(BinaryOp::Multiply),
        "/" => Ok(BinaryOp::Divide),
        "%" => Ok(BinaryOp::Remainder),
        _ => Err(CaseError::BadCase),
    }
}

fn function(name: &str) -> Result<Function, CaseError> {
    match called_of(name) {
        Some(Called::Function(function)) => Ok(function),
        _ => Err(CaseError::BadCase),
    }
}

// ---- values

/// The value that a JSON value denotes: one that holds no others, a list of such, or an object
/// with the one member `quantity`, `version`, `map` (a list of keys and values), `domains`
/// (`attributes` or `capacity`) or `entries` (the same with a domain).
fn value(alloc: Global, input: &Json) -> Result<Value, CaseError> {
    match input {
        Json::Array(items) => list(alloc, items.as_slice()),
        Json::Object(_) => object(alloc, input),
        _ => as_value(single(alloc, input)),
    }
}

fn as_value(single: Result<Single, CaseError>) -> Result<Value, CaseError> {
    match single {
        Ok(single) => Ok(Value::Single(single)),
        Err(error) => Err(error),
    }
}

fn values(alloc: Global, input: &Json) -> Result<Vec<Value>, CaseError> {
    let items = items(input)?;
    let mut all = Vec::new(alloc);
    for item in items {
        put(&mut all, value(alloc, item)?)?;
    }
    Ok(all)
}

fn list(alloc: Global, items: &[Json]) -> Result<Value, CaseError> {
    let mut list = Seq::empty(alloc);
    for item in items {
        push_single(alloc, item, &mut list)?;
    }
    Ok(Value::List(list))
}

fn push_single(alloc: Global, item: &Json, list: &mut Seq<Single>) -> Result<(), CaseError> {
    let single = single(alloc, item)?;
    done(list.push(single))
}

fn single(alloc: Global, input: &Json) -> Result<Single, CaseError> {
    match input {
        Json::Null => Ok(Single::Null),
        Json::Bool(truth) => Ok(Single::Bool(*truth)),
        Json::String(text) => Ok(Single::Text(Text::from_str(alloc, text)?)),
        Json::Object(_) => named_single(alloc, input),
        _ => Ok(Single::Int(int(input)?)),
    }
}

fn int(input: &Json) -> Result<i64, CaseError> {
    input.as_i64().ok_or(CaseError::BadCase)
}

/// The one member of an object.
fn member_of(input: &Json) -> Result<(&str, &Json), CaseError> {
    let members = input.as_object().ok_or(CaseError::BadCase)?;
    let (name, value) = members.first_key_value().ok_or(CaseError::BadCase)?;
    Ok((name.as_str(), value))
}

fn named_single(alloc: Global, input: &Json) -> Result<Single, CaseError> {
    let (name, source) = member_of(input)?;
    match name {
        "quantity" => quantity(source),
        "version" => version(alloc, source),
        _ => Err(CaseError::BadCase),
    }
}

fn quantity(source: &Json) -> Result<Single, CaseError> {
    match Quantity::parse(text(source)?.as_bytes()) {
        Ok(quantity) => Ok(Single::Quantity(quantity)),
        Err(_) => Err(CaseError::BadCase),
    }
}

fn version(alloc: Global, source: &Json) -> Result<Single, CaseError> {
    match semver::Version::parse(alloc, text(source)?) {
        Ok(version) => Ok(Single::Version(Version::new(version))),
        Err(_) => Err(CaseError::BadCase),
    }
}

fn object(alloc: Global, input: &Json) -> Result<Value, CaseError> {
    let (name, part) = member_of(input)?;
    match name {
        "map" => map(alloc, part),
        "domains" => domains(part),
        "entries" => entries_of(alloc, part),
        _ => as_value(named_single(alloc, input)),
    }
}

fn domains(facet: &Json) -> Result<Value, CaseError> {
    let facet = facet_of(text(facet)?)?;
    Ok(Value::Domains(facet))
}

fn facet_of(word: &str) -> Result<Facet, CaseError> {
    match word {
        "attributes" => Ok(Facet::Attributes),
        "capacity" => Ok(Facet::Capacities),
        _ => Err(CaseError::BadCase),
    }
}

fn entries_of(alloc: Global, entries: &Json) -> Result<Value, CaseError> {
    let facet = facet_of(text_at(entries, 0)?)?;
    let domain = Text::from_str(alloc, text_at(entries, 1)?)?;
    Ok(Value::Entries(facet, domain))
}

fn map(alloc: Global, entries: &Json) -> Result<Value, CaseError> {
    let entries = items(entries)?;
    let mut table = Table::new(alloc);
    for entry in entries {
        insert(alloc, &mut table, entry)?;
    }
    Ok(Value::Map(table))
}

fn insert(alloc: Global, table: &mut Table<Key, Single>, entry: &Json) -> Result<(), CaseError> {
    let (key, value) = (item(entry, 0)?, item(entry, 1)?);
    let key = key_of(alloc, key)?;
    insert_at(alloc, table, key, value)
}

fn insert_at(
    alloc: Global,
    table: &mut Table<Key, Single>,
    key: Key,
    value: &Json,
) -> Result<(), CaseError> {
    let value = single(alloc, value)?;
    done(table.insert(key, value))
}

fn key_of(alloc: Global, input: &Json) -> Result<Key, CaseError> {
    match input {
        Json::Bool(truth) => Ok(Key::Bool(*truth)),
        Json::String(text) => Ok(Key::Text(Text::from_str(alloc, text)?)),
        _ => Ok(Key::Int(int(input)?)),
    }
}

use crate::input::{CaseError, item, text, text_at};
use crate::shown::{Copied, Out, done, read, show};
use crate::slices::push_selector;
use api_slice::read_selector;
use dra_values::{Duplicate, Seq, Table, Text};
use node_select::{Requirement, Selector, Test, whole};
use object_fields::Path;
use serde_json::{Map, Value};
use std::alloc::{AllocError, Global};

pub fn answer(alloc: Global, out: &mut Out, word: &str, input: &Value) -> Result<(), CaseError> {
    match word {
        "selector" => selector(alloc, out, input),
        "selects" => selects(alloc, out, input),
        "requirement" => requirement(alloc, out, input),
        "number" => number(out, input),
        _ => Err(CaseError::BadCase),
    }
}

fn selector(alloc: Global, out: &mut Out, input: &Value) -> Result<(), CaseError> {
    let answer = read_selector(alloc, input, &Path::top());
    show(alloc, out, answer)
}

/// Appends the whole number of 64 bits that a text writes, or `none`.
fn number(out: &mut Out, input: &Value) -> Result<(), CaseError> {
    out.show_or_none(whole(text(input)?));
    Ok(())
}

impl Copied for Selector {
    fn again(&self, alloc: Global) -> Result<Selector, AllocError> {
        self.copy(alloc)
    }

    fn show(&self, out: &mut Out) {
        push_selector(out, self);
    }
}

/// Appends whether a selector selects the node of a name and labels, or its error.
fn selects(alloc: Global, out: &mut Out, input: &Value) -> Result<(), CaseError> {
    let name = text_at(input, 1)?;
    let labels = labels_of(alloc, item(input, 2)?)?;
    selects_node(alloc, out, item(input, 0)?, name, &labels)
}

fn selects_node(
    alloc: Global,
    out: &mut Out,
    selector: &Value,
    name: &str,
    labels: &Table<Text, Text>,
) -> Result<(), CaseError> {
    let answer = read_selector(alloc, selector, &Path::top());
    let selector = read(alloc, out, answer)?;
    out.show(&selector.matches(name, labels));
    Ok(())
}

/// The labels of an object with texts as members.
fn labels_of(alloc: Global, value: &Value) -> Result<Table<Text, Text>, CaseError> {
    match value {
        Value::Object(members) => labels_in(alloc, members),
        _ => Err(CaseError::BadCase),
    }
}

fn labels_in(alloc: Global, members: &Map<String, Value>) -> Result<Table<Text, Text>, CaseError> {
    let mut labels = Table::new(alloc);
    for (key, value) in members {
        insert_label(alloc, &mut labels, key.as_str(), text(value)?)?;
    }
    Ok(labels)
}

fn insert_label(
    alloc: Global,
    labels: &mut Table<Text, Text>,
    key: &str,
    value: &str,
) -> Result<(), AllocError> {
    let value = Text::from_str(alloc, value)?;
    let key = Text::from_str(alloc, key)?;
    labels.insert(key, value)
}

/// Appends whether a requirement on the label `k`, on a field or on nothing holds of a node whose name and
/// whose label `k` are that value; null is no label. The values are `7` and `b`, or the number 7.
fn requirement(alloc: Global, out: &mut Out, input: &Value) -> Result<(), CaseError> {
    let value = item(input, 2)?.as_str();
    let selector = selector_on(alloc, text_at(input, 0)?, text_at(input, 1)?)?;
    let copy = selector.duplicate(alloc)?;
    Ok(held(alloc, out, &copy, value)?)
}

fn held(
    alloc: Global,
    out: &mut Out,
    selector: &Selector,
    value: Option<&str>,
) -> Result<(), AllocError> {
    let mut labels = Table::new(alloc);
    match value {
        Some(value) => {
            insert_label(alloc, &mut labels, "k", value)?;
            out.show(&selector.matches(value, &labels));
        }
        None => out.show(&selector.matches("absent", &labels)),
    }
    Ok(())
}

fn selector_on(alloc: Global, on: &str, operator: &str) -> Result<Selector, CaseError> {
    match on {
        "label" => Ok(Selector {
            expressions: one(alloc, "k", operator)?,
            fields: Seq::empty(alloc),
        }),
        "nothing" => Ok(Selector {
            expressions: Seq::empty(alloc),
            fields: Seq::empty(alloc),
        }),
        field => Ok(Selector {
            expressions: Seq::empty(alloc),
            fields: one(alloc, field, operator)?,
        }),
    }
}

/// That requirement alone.
fn one(alloc: Global, key: &str, operator: &str) -> Result<Seq<Requirement>, CaseError> {
    let test = test_of(alloc, operator)?;
    done(one_of(alloc, key, test))
}

fn one_of(alloc: Global, key: &str, test: Test) -> Result<Seq<Requirement>, AllocError> {
    let key = Text::from_str(alloc, key)?;
    let mut list = Seq::empty(alloc);
    list.push(Requirement { key, test })?;
    Ok(list)
}

fn test_of(alloc: Global, operator: &str) -> Result<Test, CaseError> {
    match operator {
        "In" => Ok(Test::OneOf(two(alloc)?)),
        "NotIn" => Ok(Test::NoneOf(two(alloc)?)),
        "Exists" => Ok(Test::Present),
        "DoesNotExist" => Ok(Test::Absent),
        "Gt" => Ok(Test::Above(7)),
        "Lt" => Ok(Test::Below(7)),
        _ => Err(CaseError::BadCase),
    }
}

/// The texts `7` and `b`.
fn two(alloc: Global) -> Result<Seq<Text>, AllocError> {
    let mut texts = Seq::empty(alloc);
    texts.push(Text::from_str(alloc, "7")?)?;
    texts.push(Text::from_str(alloc, "b")?)?;
    Ok(texts)
}

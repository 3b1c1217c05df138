use crate::input::{CaseError, text_at};
use crate::shown::Out;
use quantity::{Nanos, Quantity};
use serde_json::Value;

pub fn answer(out: &mut Out, word: &str, input: &Value) -> Result<(), CaseError> {
    match input.as_str() {
        Some(text) => of_text(out, word, text),
        None => pair(out, word, input),
    }
}

fn of_text(out: &mut Out, word: &str, text: &str) -> Result<(), CaseError> {
    match word {
        "value" | "message" => parse(out, word, text),
        "nanos" | "whole" => of_quantity(out, word, parsed(text)?),
        _ => of_count(out, word, count(text)?),
    }
}

/// Appends the value as it prints, or the name of the error, or of a case of messages its message.
fn parse(out: &mut Out, word: &str, text: &str) -> Result<(), CaseError> {
    match Quantity::parse(text.as_bytes()) {
        Ok(quantity) => out.show(&quantity),
        Err(error) if word == "message" => out.show(&error),
        Err(error) => out.debug(&error),
    }
    Ok(())
}

fn parsed(text: &str) -> Result<Quantity, CaseError> {
    match Quantity::parse(text.as_bytes()) {
        Ok(quantity) => Ok(quantity),
        Err(_) => Err(CaseError::BadCase),
    }
}

/// Appends how many 10^-9 a quantity is, or the whole number that it is or `none`.
fn of_quantity(out: &mut Out, word: &str, quantity: Quantity) -> Result<(), CaseError> {
    match word {
        "nanos" => out.show(&quantity.nanos()),
        _ => out.show_or_none(quantity.as_integer()),
    }
    Ok(())
}

fn count(text: &str) -> Result<i128, CaseError> {
    match text.parse::<i128>() {
        Ok(count) => Ok(count),
        Err(_) => Err(CaseError::BadCase),
    }
}

/// Appends the quantity of that many 10^-9 or `none`, or that many 10^-9.
fn of_count(out: &mut Out, word: &str, count: i128) -> Result<(), CaseError> {
    match word {
        "of_nanos" => out.show_or_none(Quantity::from_nanos(count)),
        "wide" => out.show(&Nanos(count)),
        _ => return Err(CaseError::BadCase),
    }
    Ok(())
}

/// Appends how the two compare, whether the first is below the second, their sum and their difference.
fn pair(out: &mut Out, word: &str, input: &Value) -> Result<(), CaseError> {
    let left = parsed(text_at(input, 0)?)?;
    let right = parsed(text_at(input, 1)?)?;
    match word {
        "pair" => push_pair(out, left, right),
        _ => return Err(CaseError::BadCase),
    }
    Ok(())
}

fn push_pair(out: &mut Out, left: Quantity, right: Quantity) {
    out.debug(&left.cmp(&right));
    out.show_after(" ", &(left < right));
    out.say(" ");
    out.show_or_none(left.checked_add(&right));
    out.say(" ");
    out.show_or_none(left.checked_sub(&right));
}

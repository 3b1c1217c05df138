use crate::out::Out;
use object_fields::{FieldError, FieldErrorKind};
use sched_job::LedgerError;
use std::alloc::AllocError;

/// Why a line wasn't done.
#[derive(Clone, Copy, Drop)]
pub enum CaseError {
    /// It isn't of a form that the program knows.
    BadCase,
    /// Memory ran out.
    Memory,
}

impl From<AllocError> for CaseError {
    fn from(_error: AllocError) -> CaseError {
        CaseError::Memory
    }
}

impl From<LedgerError> for CaseError {
    fn from(error: LedgerError) -> CaseError {
        match error {
            LedgerError::Full(_) => CaseError::BadCase,
            LedgerError::Memory => CaseError::Memory,
        }
    }
}

impl From<FieldError> for CaseError {
    fn from(error: FieldError) -> CaseError {
        if error.kind == FieldErrorKind::Memory {
            CaseError::Memory
        } else {
            CaseError::BadCase
        }
    }
}

/// A text up to the first of a letter, and what follows it: all of it, and nothing, if it hasn't the letter.
pub fn cut_at(text: &str, letter: char) -> (&str, &str) {
    text.split_once(letter).unwrap_or((text, ""))
}

/// A number in decimal.
pub fn number(text: &str) -> Result<u64, CaseError> {
    match text.parse::<u64>() {
        Ok(number) => Ok(number),
        Err(_) => Err(CaseError::BadCase),
    }
}

/// The numbers of a text such as `0 9 NAME`, and what follows them.
pub fn range(text: &str) -> Result<(u64, u64, &str), CaseError> {
    let (from, rest) = cut_at(text, ' ');
    let (to, rest) = cut_at(rest, ' ');
    Ok((number(from)?, number(to)?, rest))
}

/// What was made by two calls, or the first error.
pub fn both<A: Drop, B: Drop, E: Drop>(a: Result<A, E>, b: Result<B, E>) -> Result<(A, B), E> {
    let a = a?;
    let b = b?;
    Ok((a, b))
}

/// The result of a call that can only run out of memory.
pub fn done<T>(answer: Result<T, AllocError>) -> Result<T, CaseError> {
    match answer {
        Ok(value) => Ok(value),
        Err(AllocError) => Err(CaseError::Memory),
    }
}

/// Appends an item to a list.
pub fn put<T: Drop>(list: &mut Vec<T>, item: T) -> Result<(), CaseError> {
    list.push(item).map_err(AllocError::from)?;
    Ok(())
}

/// Prints a line that wasn't understood.
pub fn unless_done(out: &mut Out, line: &str, answer: Result<(), CaseError>) {
    match answer {
        Ok(()) => (),
        Err(CaseError::BadCase) => out.line("not understood: ", line),
        Err(CaseError::Memory) => out.fail(),
    }
}

use crate::input::CaseError;
use crate::shown::Out;
use cel_check::CheckError;
use cel_parse::ParseError;
use cel_value::EvalError;
use device_selector::CompileError;
use object_fields::{FieldError, FieldErrorKind, Stage};
use pool_view::Cause;
use std::alloc::Global;

/// Appends a message of an error that no input leads to, or that prints otherwise elsewhere.
pub fn answer(alloc: Global, out: &mut Out, word: &str) -> Result<(), CaseError> {
    match word {
        "parse" => out.show(&ParseError::Memory),
        "check" => out.show(&CheckError::Memory),
        "compile" => out.show(&CompileError::Memory),
        "field" => out.show(&FieldError::memory(alloc)),
        "stage" => out.show(&FieldErrorKind::Selector(Stage::Parse)),
        "evaluation" => push_evaluation(out),
        _ => return Err(CaseError::BadCase),
    }
    Ok(())
}

/// Appends each error of an evaluation, and the one of a value that is no bool.
fn push_evaluation(out: &mut Out) {
    for error in [
        EvalError::NoKey,
        EvalError::NoOverload,
        EvalError::Overflow,
        EvalError::DivByZero,
        EvalError::OutOfRange,
        EvalError::BadConversion,
        EvalError::Memory,
    ] {
        out.show(&Cause::Error(error));
        out.say("; ");
    }
    out.show(&Cause::NotBool);
}

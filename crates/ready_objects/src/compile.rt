ghost use Rattle.std.specs.Prelude.{◌++◌, ◌∷◌, [], codes};
ghost use Rattle.object_fields.specs.Fields.{IsError, Reads, field_error};
ghost use Rattle.object_fields.specs.declared.kind.FieldErrorKind.TheVariants as FieldErrorKind;
ghost use Rattle.object_fields.specs.declared.path.Step.TheVariants as Step;
ghost use Rattle.ready_objects.specs.Ready.{text_at, texts_at};

use device_selector::{CompileError, DeviceSelector};
use dra_values::{Seq, Text};
use object_fields::{FieldError, FieldErrorKind, Path, Stage, or_memory};
use std::alloc::Global;

/// The selectors of these texts, which are at the path. The error is that of the first text that
/// doesn't compile, at its `cel.expression`.
pub fn compile_each(
    alloc: Global,
    texts: &[Text],
    path: &Path,
) -> Result<Seq<DeviceSelector>, FieldError>
    ensures { Reads result (texts_at path.now texts.now) }
{
    let mut selectors = Seq::empty(alloc);
    for place in 0..texts.len() {
        let at = path.place(place);
        let selector = compile_one(alloc, &texts[place], &at)?;
        or_memory(alloc, selectors.push(selector))?;
    }
    Ok(selectors)
}

fn compile_one(alloc: Global, text: &Text, path: &Path) -> Result<DeviceSelector, FieldError>
    ensures { Reads result (text_at path.now text.now) }
{
    match DeviceSelector::compile(alloc, text) {
        Ok(selector) => Ok(selector),
        Err(CompileError::Parse(_)) => Err(refused(alloc, path, Stage::Parse)),
        Err(CompileError::Check(_)) => Err(refused(alloc, path, Stage::Check)),
        Err(CompileError::CostTooHigh(_)) => Err(refused(alloc, path, Stage::Cost)),
        Err(CompileError::Memory) => Err(FieldError::memory(alloc)),
    }
}

/// The error of a selector at the path that a stage refuses, or Memory.
fn refused(alloc: Global, path: &Path, stage: Stage) -> FieldError
    ensures { IsError result (field_error (path.now ++ Step.Member (codes "cel") ∷ []) (codes "expression") (FieldErrorKind.Selector stage)) }
{
    let path = path.member("cel");
    FieldError::of_field(alloc, &path, "expression", FieldErrorKind::Selector(stage))
}

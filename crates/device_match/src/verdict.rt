ghost use Rattle.std.specs.Prelude.{◌≡◌, ◌≢◌, ◌≤◌, [], IfOk, Ok};
ghost use Rattle.cel_meaning.specs.Cost.{cost};
ghost use Rattle.cel_value.specs.declared.error.EvalError.TheVariants.{Memory};
ghost use Rattle.pool_view.specs.declared.verdict.Cause.TheVariants.{Error};
ghost use Rattle.pool_view.specs.declared.verdict.Verdict.TheVariants.{Fault};
ghost use Rattle.pool_view.specs.Match.{text_verdict};
ghost use Rattle.pool_view.specs.Matches as spec;

use cel_eval::{Steps, eval};
use cel_value::{DeviceEnv, EvalError, Single, Value};
use device_selector::{Compiled, DeviceSelector};
use pool_view::{Cause, Verdict};
use std::alloc::{AllocError, Global};

/// What a compiled selector evaluates to on a device: Yes if and only if it is true, No if and only if it is
/// false, and else Fault with the error or with NotBool. The only error is out of memory, and no Fault
/// has it. By the table of steps the selector takes at most 1,000,000 on the device; that is stated
/// of the selector and the device, since the call returns no count of its own.
pub fn evaluate(
    alloc: Global,
    selector: &Compiled,
    device: &DeviceEnv,
) -> Result<Verdict, AllocError>
    ensures verdict { IfOk result (λ v. v ≡ spec.match_of device.now selector.now.tree) }
    ensures no_memory { IfOk result (λ v. v ≢ Fault (Error Memory)) }
    ensures bounded { cost device.now [] selector.now.tree ≤ 1000000 }
{
    let mut steps = Steps { count: 0 };
    match eval(alloc, device, selector.tree(), &mut steps) {
        Ok(value) => Ok(verdict_of(&value)),
        Err(EvalError::Memory) => Err(AllocError),
        Err(error) => Ok(Verdict::Fault(Cause::Error(error))),
    }
}

/// What a selector evaluates to on a device: Yes if and only if it is true, No if and only if it is
/// false, and else Fault. The only error is out of memory, and no Fault has it.
pub fn matches(
    alloc: Global,
    selector: &DeviceSelector,
    device: &DeviceEnv,
) -> Result<Verdict, AllocError>
    ensures verdict { IfOk result (λ v. v ≡ text_verdict device.now selector.now) }
    ensures no_memory { IfOk result (λ v. v ≢ Fault (Error Memory)) }
{
    evaluate(alloc, selector.compiled(), device)
}

/// The verdict by the value of a selector.
fn verdict_of(value: &Value) -> Verdict
    ensures { result ≡ spec.verdict_of (Ok value.now) }
{
    match value {
        Value::Single(Single::Bool(true)) => Verdict::Yes,
        Value::Single(Single::Bool(false)) => Verdict::No,
        _ => Verdict::Fault(Cause::NotBool),
    }
}

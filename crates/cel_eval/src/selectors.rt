ghost use Rattle.std.specs.Prelude.{◌≡◌, ◌≢◌, ◌≤◌, ◌^◌, [], true, IfOk, Err};
ghost use Rattle.cel_tree.specs.Estimate.{Estimate};
ghost use Rattle.cel_value.specs.declared.error.EvalError.TheVariants.{NoOverload};
ghost use Rattle.cel_value.specs.Values.{Gives};
ghost use Rattle.cel_meaning.specs.Meaning.{means};
ghost use Rattle.cel_meaning.specs.Cost.{cost};
ghost use Rattle.cel_meaning.specs.HasKind.{HasKind};
ghost use Rattle.cel_meaning.specs.Plain.{is_without_dyn};
ghost use Rattle.cel_eval.specs.Answers.{Counts};

use crate::evaluate::value_of;
use crate::scope::Scope;
use crate::steps::Steps;
use cel_meaning::{cost_within_estimate, no_overload_without_dyn, values_have_their_types};
use cel_tree::{Checked, types_are_found};
use cel_value::{DeviceEnv, EvalError, Value};
use std::alloc::Global;

/// The value of a checked expression of the selector language on a device, and how many steps that takes.
///
/// The value has the expression's type. The count rises by the steps of what is evaluated, which are at
/// most the estimate. An error is the first that the evaluation comes to from the left, except for those
/// that `&&`, `||`, `all` and `exists` pass over; NoOverload is returned only if a part of the expression
/// is of a type with dyn in it. Memory is returned only when out of memory, and then the count rises by at
/// most the steps.
pub fn eval(
    alloc: Global,
    device: &DeviceEnv,
    tree: &Checked,
    steps: &mut Steps,
) -> Result<Value, EvalError>
    requires bounded { Estimate tree.now.tree ≤ 1000000 }
    requires room { steps.old.count ≤ 2 ^ 63 }
    ensures means { Gives result (means device.now [] tree.now.tree) }
    ensures counts { Counts result steps.old.count steps.new.count (cost device.now [] tree.now.tree) }
    ensures within { cost device.now [] tree.now.tree ≤ Estimate tree.now.tree }
    ensures kind { IfOk result (λ v. HasKind tree.now.kind v) }
    ensures overloads { is_without_dyn [] tree.now.tree ≡ true → result ≢ Err NoOverload }
{
    device.within_limits();
    types_are_found();
    cost_within_estimate();
    values_have_their_types();
    no_overload_without_dyn();
    value_of(alloc, device, tree.tree(), &Scope::Top, steps)
}

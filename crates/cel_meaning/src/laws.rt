//! Laws of meanings and steps. The functions do nothing: each states its law.

ghost use Rattle.std.specs.Prelude.{◌≡◌, ◌≢◌, ◌<◌, ◌≤◌, [], true, Ok, Err};
ghost use Rattle.cel_tree.specs.declared.types.CelType.{CelType};
ghost use Rattle.cel_tree.specs.Ast.{Ast};
ghost use Rattle.cel_tree.specs.Typing.{Names, type_of};
ghost use Rattle.cel_tree.specs.Estimate.{Estimate, most};
ghost use Rattle.cel_value.specs.declared.error.EvalError.TheVariants.{NoOverload};
ghost use Rattle.cel_value.specs.declared.value.Value.{Value};
ghost use Rattle.cel_value.specs.Device.{Device, IsWithinLimits};
ghost use Rattle.cel_meaning.specs.Meaning.{Bindings, means};
ghost use Rattle.cel_meaning.specs.Cost.{cost};
ghost use Rattle.cel_meaning.specs.HasKind.{HasKind, Agree};
ghost use Rattle.cel_meaning.specs.Plain.{is_without_dyn};

use cel_cost::bounds_have_the_type;
use cel_tree::types_are_found;

/// A tree that has a type evaluates only to values of that type, if the names that are bound have values
/// of their types.
pub fn values_have_their_types()
    ensures { (device : Device) (names : Names) (bindings : Bindings) (t : Ast) (k : CelType) (v : Value) →
        Agree names bindings → type_of names t ≡ Ok k → means device bindings t ≡ Ok v → HasKind k v }
{
    types_are_found();
}

/// A tree that has a type never evaluates to `NoOverload`, if no part of it has a type with dyn in it.
pub fn no_overload_without_dyn()
    ensures { (device : Device) (names : Names) (bindings : Bindings) (t : Ast) (k : CelType) →
        Agree names bindings → type_of names t ≡ Ok k → is_without_dyn names t ≡ true → means device bindings t ≢ Err NoOverload }
{
    types_are_found();
}

/// The evaluation of a tree that has a type takes at most the steps of its estimate, on each device
/// within its limits.
pub fn cost_within_estimate()
    ensures { (device : Device) (t : Ast) (k : CelType) →
        IsWithinLimits device → type_of [] t ≡ Ok k → Estimate t < most → cost device [] t ≤ Estimate t }
{
    types_are_found();
    bounds_have_the_type();
}

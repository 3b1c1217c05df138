ghost use Rattle.std.specs.Prelude.{◌≡◌};
ghost use Rattle.cel_tree.specs.Ast.{tree_view};
ghost use Rattle.cel_tree.specs.Scopes.{look_up, is_device};
ghost use Rattle.cel_meaning.specs.Meaning.{named};
ghost use Rattle.cel_value.specs.Values.{Gives};
ghost use Rattle.cel_eval.specs.Answers.{bindings};

use cel_tree::Tree;
use cel_value::{EvalError, Value};
use dra_values::Duplicate;
use std::alloc::Global;

/// The names that are bound with their values, the innermost first.
pub type Scope<'a> = cel_tree::Scope<'a, &'a Value>;

/// What a name means alone, copied. `device` means nothing alone.
#[tactic(auto, using(crate::proofs::Scopes::scopes))]
pub fn named_value(alloc: Global, scope: &Scope, name: &str) -> Result<Value, EvalError>
    ensures { Gives result (named (look_up name.now (bindings scope.now))) }
{
    match scope.find(name) {
        Some(value) => match value.duplicate(alloc) {
            Ok(value) => Ok(value),
            Err(_) => Err(EvalError::Memory),
        },
        None => Err(EvalError::NoOverload),
    }
}

/// Whether the tree is `device`, and no bound name hides it.
#[tactic(auto, using(crate::proofs::Scopes::scopes))]
pub fn is_device(scope: &Scope, tree: &Tree) -> bool
    ensures { result ≡ is_device (bindings scope.now) (tree_view tree.now) }
{
    scope.is_device(tree)
}

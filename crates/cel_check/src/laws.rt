//! The law of first faults. The function does nothing: it states its law.

ghost use Rattle.std.specs.Prelude.{◌≡◌, Err};
ghost use Rattle.cel_tree.specs.declared.fault.Fault.{Fault};
ghost use Rattle.cel_tree.specs.Ast.{Ast};
ghost use Rattle.cel_tree.specs.Typing.{Names, type_of};
ghost use Rattle.cel_check.specs.HasFault.{HasFault};

use cel_tree::types_are_found;

/// A fault is the first of a tree by the rules if and only if it is found instead of a type.
pub fn first_faults_are_found()
    ensures found { (names : Names) (t : Ast) (f : Fault) → HasFault names t f → type_of names t ≡ Err f }
    ensures sound { (names : Names) (t : Ast) (f : Fault) → type_of names t ≡ Err f → HasFault names t f }
{
    types_are_found();
}

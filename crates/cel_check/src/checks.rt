ghost use Rattle.std.specs.Prelude.{◌≡◌, [], Ok, Err, IfOk, IfErr, IsTrue};
ghost use Rattle.cel_tree.specs.Ast.{tree_view};
ghost use Rattle.cel_tree.specs.Types.{accepts};
ghost use Rattle.cel_tree.specs.HasType.{HasType};
ghost use Rattle.cel_tree.specs.declared.types.CelType.{CelType};
ghost use Rattle.cel_tree.specs.declared.types.Scalar.TheVariants as scalar;
ghost use Rattle.cel_tree.specs.declared.fault.Fault.{Fault};
ghost use Rattle.cel_check.specs.Checks.{error_of, checked_of, IsError};
ghost use Rattle.cel_check.specs.HasFault.{HasFault};

use crate::laws::first_faults_are_found;
use crate::typing::type_of;
use cel_tree::{CelType, Checked, Fault, Scalar, Scope, Span, Tree, types_are_found};
use thiserror::Error;

/// Why a tree is no selector. Its spans are byte offsets into the text.
#[derive(Clone, Copy, Debug, PartialEq, Eq, Drop, Error)]
pub enum CheckError {
    /// The span of a variable, a function or a member of `device` that there isn't.
    #[error("no such name at bytes {} to {}", .0.start, .0.end)]
    NoSuchName(Span),
    /// The span of a form or call that has no row for its operands' types.
    #[error("no such overload at bytes {} to {}", .0.start, .0.end)]
    NoOverload(Span),
    /// The type of the whole tree, if it is neither bool nor dyn.
    #[error("a selector is a bool, and this is of type {0}")]
    NotBool(CelType),
    /// The span of a call that the profile leaves out of the language, or of a list or map that
    /// would be inside another.
    #[error("the selector language does not support what is at bytes {} to {}", .0.start, .0.end)]
    NotSupported(Span),
    /// Out of memory. The check allocates nothing, so it never returns this.
    #[error("out of memory")]
    Memory,
}

fn error_of(fault: Fault) -> CheckError
    ensures { result ≡ error_of fault }
{
    match fault {
        Fault::NotSupported(span) => CheckError::NotSupported(span),
        Fault::NoSuchName(span) => CheckError::NoSuchName(span),
        Fault::NoOverload(span) => CheckError::NoOverload(span),
    }
}

/// The tree with its type, which is bool or dyn. Otherwise its first fault from the left, operands
/// before their operation: `NotSupported`, `NoSuchName` or `NoOverload`; if there is none,
/// `NotBool` with the type of the whole tree. Allocates nothing.
pub fn check(tree: Tree) -> Result<Checked, CheckError>
    ensures exact { result ≡ checked_of (tree_view tree) }
    ensures typed { IfOk result (λ c. HasType [] c.tree c.kind) }
    ensures bool { IfOk result (λ c. IsTrue (accepts scalar.Bool c.kind)) }
    ensures every { (k : CelType) → HasType [] (tree_view tree) k → IsTrue (accepts scalar.Bool k)
        → result ≡ Ok (record { tree = tree_view tree; kind = k }) }
    ensures error { IfErr result (IsError (tree_view tree)) }
    ensures fault { (f : Fault) → HasFault [] (tree_view tree) f → result ≡ Err (error_of f) }
{
    types_are_found();
    first_faults_are_found();
    let top = Scope::Top;
    match type_of(&tree, &top) {
        Ok(kind) => {
            if Scalar::Bool.accepts(kind) {
                Ok(Checked::of(tree, kind))
            } else {
                Err(CheckError::NotBool(kind))
            }
        }
        Err(fault) => Err(error_of(fault)),
    }
}

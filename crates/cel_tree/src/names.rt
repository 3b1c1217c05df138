ghost use Rattle.std.specs.Prelude.{◌≡◌, option_map};
ghost use Rattle.cel_tree.specs.Scopes.{is_ident};
ghost use Rattle.cel_tree.specs.Typing.{is_bind, variable_of};
ghost use Rattle.cel_tree.specs.Ast.{tree_view};

use crate::tree::{Kind, Tree};

/// Whether the tree is this identifier.
pub fn is_ident(tree: &Tree, name: &str) -> bool
    ensures { result ≡ is_ident name.now (tree_view tree.now) }
{
    match &tree.kind {
        Kind::Ident(ident) => ident.as_str() == name,
        _ => false,
    }
}

/// Whether a method, called on `object`, is `cel.bind`.
pub fn is_bind(object: &Tree, function: &str) -> bool
    ensures { result ≡ is_bind (tree_view object.now) function.now }
{
    is_ident(object, "cel") && function == "bind"
}

/// The variable of a macro: an identifier.
pub fn variable_of(tree: &Tree) -> Option<&str>
    ensures { option_map (λ x. x.now) result ≡ variable_of (tree_view tree.now) }
{
    match &tree.kind {
        Kind::Ident(name) => Some(name.as_str()),
        _ => None,
    }
}

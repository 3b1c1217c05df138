ghost use Rattle.std.specs.Prelude.{◌≡◌};
ghost use Rattle.cel_tree.specs.Ast.{tree_view};
ghost use Rattle.cel_tree.specs.Scopes.{bound, look_up, is_device};

use crate::names::is_ident;
use crate::tree::Tree;

/// The names in scope with what each stands for, the innermost first: a chain on the stack, which
/// allocates nothing of its own.
#[derive(Clone, Copy)]
pub enum Scope<'a, T> {
    Top,
    Bound(&'a str, T, &'a Scope<'a, T>),
}

impl<'a, T: Copy> Scope<'a, T> {
    /// What the innermost that is bound by the name stands for.
    pub fn find(&self, name: &str) -> Option<T>
        ensures { result ≡ look_up name.now (bound self.now) }
    {
        match self {
            Scope::Top => None,
            Scope::Bound(bound, meant, outer) => {
                if *bound == name {
                    Some(*meant)
                } else {
                    outer.find(name)
                }
            }
        }
    }

    /// Whether the tree is `device`, which no inner name hides.
    pub fn is_device(&self, tree: &Tree) -> bool
        ensures { result ≡ is_device (bound self.now) (tree_view tree.now) }
    {
        is_ident(tree, "device") && self.find("device").is_none()
    }
}

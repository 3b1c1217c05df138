ghost use Rattle.std.specs.Prelude.{◌≡◌, []};
ghost use Rattle.cel_tree.specs.Ast.{tree_view};
ghost use Rattle.cel_tree.specs.HasType.{HasType};

use crate::{CelType, Tree};
use std::marker::Model;

/// A tree with its type.
#[derive(Drop)]
pub struct Checked {
    tree: Tree,
    kind: CelType,
}

impl Model for Checked {
    ghost use Rattle.std.specs.Prelude.{[]};
    ghost use Rattle.cel_tree.specs.Typed.{Typed, coded_typed};

    ghost Value = { Typed };

    ghost coded = { coded_typed };

    ghost use Rattle.cel_tree.specs.Ast.{tree_view};
    ghost use Rattle.cel_tree.specs.HasType.{HasType};

    ghost view = { λ c. record { tree = tree_view c.tree; kind = c.kind } };

    ghost invariant = { λ c. HasType [] (tree_view c.tree) c.kind };
}

impl Checked {
    /// The tree with its type, which it has where no name but `device` is in scope. Allocates nothing.
    pub fn of(tree: Tree, kind: CelType) -> Checked
        requires { HasType [] (tree_view tree) kind }
        ensures { result ≡ record { tree = tree_view tree; kind = kind } }
    {
        Checked { tree, kind }
    }

    pub fn tree(&self) -> &Tree
        ensures tree { tree_view result.now ≡ self.now.tree }
        ensures typed { HasType [] self.now.tree self.now.kind }
    {
        &self.tree
    }

    pub fn kind(&self) -> CelType
        ensures kind { result ≡ self.now.kind }
        ensures typed { HasType [] self.now.tree self.now.kind }
    {
        self.kind
    }
}

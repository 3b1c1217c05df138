ghost use Rattle.std.specs.Prelude.{◌≡◌, ◌++◌, [], ◌∷◌, OnOk, map};
ghost use Rattle.cel_tree.specs.Ast.{tree_view, entry_view, span_of};

use cel_tree::{Entry, Span, Tree};
use std::alloc::{AllocError, Global};
use std::marker::Model;

/// A tree that contracts see without where it lies in memory.
pub struct Shown {
    tree: Tree,
}

impl Model for Shown {
    ghost use Rattle.cel_tree.specs.Ast.{Ast, tree_view};
    ghost use Rattle.cel_tree.specs.Code.{coded_ast};

    ghost Value = { Ast };

    ghost coded = { coded_ast };

    ghost view = { λ s. tree_view s.tree };
}

impl Drop for Shown {
    fn drop(self) {
        let Shown { tree } = self;
        drop(tree);
    }
}

impl Shown {
    pub fn new(tree: Tree) -> Shown
        ensures { result ≡ tree_view tree }
    {
        Shown { tree }
    }

    pub fn span(&self) -> Span
        ensures { result ≡ span_of self.now }
    {
        self.tree.span
    }

    pub fn into_tree(self) -> Tree
        ensures { tree_view result ≡ self }
    {
        let Shown { tree } = self;
        tree
    }
}

/// Trees one after another.
pub struct Trees {
    trees: Vec<Tree>,
}

impl Model for Trees {
    ghost use Rattle.std.specs.Prelude.{List, map};
    ghost use Rattle.cel_tree.specs.Ast.{Ast, tree_view};
    ghost use Rattle.cel_tree.specs.Code.{coded_ast};
    ghost use Rattle.std.specs.Coded.{coded_list};

    ghost Value = { List Ast };

    ghost coded = { coded_list coded_ast };

    ghost view = { λ s. map tree_view s.trees.items };
}

impl Drop for Trees {
    fn drop(self) {
        let Trees { trees } = self;
        drop(trees);
    }
}

impl Trees {
    pub fn new(alloc: Global) -> Trees
        ensures { result ≡ [] }
    {
        Trees {
            trees: Vec::new(alloc),
        }
    }

    pub fn push(&mut self, tree: Shown) -> Result<(), AllocError>
        ensures { OnOk result (self.new ≡ self.old ++ tree ∷ []) }
    {
        Ok(self.trees.push(tree.into_tree())?)
    }

    pub fn into_vec(self) -> Vec<Tree>
        ensures { map tree_view result.items ≡ self }
    {
        let Trees { trees } = self;
        trees
    }
}

/// Keys, each with its value.
pub struct Pairs {
    entries: Vec<Entry>,
}

impl Model for Pairs {
    ghost use Rattle.std.specs.Prelude.{List, map};
    ghost use Rattle.cel_tree.specs.Ast.{Ast, entry_view};
    ghost use Rattle.cel_tree.specs.Code.{coded_ast};
    ghost use Rattle.std.specs.Coded.{coded_list, coded×};

    ghost Value = { List (Ast × Ast) };

    ghost coded = { coded_list (coded× coded_ast coded_ast) };

    ghost view = { λ s. map entry_view s.entries.items };
}

impl Drop for Pairs {
    fn drop(self) {
        let Pairs { entries } = self;
        drop(entries);
    }
}

impl Pairs {
    pub fn new(alloc: Global) -> Pairs
        ensures { result ≡ [] }
    {
        Pairs {
            entries: Vec::new(alloc),
        }
    }

    pub fn push(&mut self, key: Shown, value: Shown) -> Result<(), AllocError>
        ensures { OnOk result (self.new ≡ self.old ++ (key, value) ∷ []) }
    {
        let entry = Entry {
            key: key.into_tree(),
            value: value.into_tree(),
        };
        Ok(self.entries.push(entry)?)
    }

    pub fn into_vec(self) -> Vec<Entry>
        ensures { map entry_view result.items ≡ self }
    {
        let Pairs { entries } = self;
        entries
    }
}

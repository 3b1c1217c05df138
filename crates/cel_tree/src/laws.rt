//! Laws of types. The functions do nothing: each states its law.

ghost use Rattle.std.specs.Prelude.{◌≡◌, ℕ, List, map, Ok, Vec, Box};
ghost use Rattle.std.specs.Global.{Global};
ghost use Rattle.cel_tree.specs.declared.tree.Tree.{Tree};
ghost use Rattle.cel_tree.specs.declared.tree.Entry.{Entry};
ghost use Rattle.cel_tree.specs.declared.tree.Kind as kind;
ghost use Rattle.cel_tree.specs.declared.types.CelType.{CelType};
ghost use Rattle.cel_tree.specs.Ast.{Ast, Call, Method, ListOf, MapOf, tree_view, kind_view, entry_view, asts_of, entries_of};
ghost use Rattle.cel_tree.specs.Typing.{Names, type_of};
ghost use Rattle.cel_tree.specs.HasType.{HasType};

/// A tree has a type by the rules if and only if that type is found.
pub fn types_are_found()
    ensures found { (names : Names) (t : Ast) (k : CelType) → HasType names t k → type_of names t ≡ Ok k }
    ensures sound { (names : Names) (t : Ast) (k : CelType) → type_of names t ≡ Ok k → HasType names t k }
{}

/// A tree has at most one type.
pub fn has_one_type()
    ensures { (names : Names) (t : Ast) (k l : CelType) → HasType names t k → HasType names t l → k ≡ l }
{}

/// What is seen of the nodes that hold a list of trees.
pub fn nodes_have_their_lists()
    ensures call { (f : List ℕ) (v : Vec Tree Global) → kind_view (kind.Call f v) ≡ Call f (asts_of (map tree_view v.items)) }
    ensures method { (b : Box Tree Global) (f : List ℕ) (v : Vec Tree Global) →
        kind_view (kind.Method b f v) ≡ Method (tree_view b.value) f (asts_of (map tree_view v.items)) }
    ensures list { (v : Vec Tree Global) → kind_view (kind.List v) ≡ ListOf (asts_of (map tree_view v.items)) }
    ensures map { (v : Vec Entry Global) → kind_view (kind.Map v) ≡ MapOf (entries_of (map entry_view v.items)) }
{}

ghost use Rattle.std.specs.Prelude.{◌≡◌};
ghost use Rattle.cel_tree.specs.declared.types.CelType.{CelType};
ghost use Rattle.cel_tree.specs.Ast.{Ast};
ghost use Rattle.cel_tree.specs.HasType.{HasType};
ghost use Rattle.cel_tree.specs.Estimate.{Names, kinds, bounds_of};

/// The type in the bounds of a tree is the type that the tree has.
pub fn bounds_have_the_type()
    ensures { (names : Names) (t : Ast) (k : CelType) → HasType (kinds names) t k → (bounds_of names t).kind ≡ k }
{}

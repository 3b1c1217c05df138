ghost use Rattle.std.specs.Prelude.{◌≡◌, List, [], true};
ghost use Rattle.api_claim.specs.declared.types.DeviceConstraint.{DeviceConstraint};
ghost use Rattle.request_rules.specs.Agreeing.{Pick, each_agrees};
ghost use Rattle.constraints.specs.Keeping.{KeepsConstraint};

/// Results keep a constraint if and only if each of them agrees with those before it: there is one
/// value that each result which the constraint names has at the attribute.
pub fn results_keep_constraint()
    ensures kept { (c : DeviceConstraint) (ps : List Pick) → each_agrees c [] ps ≡ true → KeepsConstraint c ps }
    ensures agreed { (c : DeviceConstraint) (ps : List Pick) → KeepsConstraint c ps → each_agrees c [] ps ≡ true }
{}

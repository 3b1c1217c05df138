ghost use Rattle.std.specs.Prelude.{◌≡◌, ℕ, ◌≤◌, Contains, filter, length};
ghost use Rattle.walk.specs.Walk.{Problem, Item, Fault, walk};
ghost use Rattle.walk.specs.Outcome.{Unsat, outcome};
ghost use Rattle.walk.specs.Narrower.{IsNarrower, stays};

/// If fewer lists of positions are good, the walk is the walk as it was without the items whose positions aren't good
/// any more, in the same order. So it isn't longer, its `Fault` items are the same, and where a search
/// within a budget returned Unsat, it still does.
pub fn narrower_walks_are_parts()
    ensures items { (p q : Problem) → IsNarrower p q → walk q ≡ filter (stays q) (walk p) }
    ensures no_longer { (p q : Problem) → IsNarrower p q → length (walk q) ≤ length (walk p) }
    ensures among { (p q : Problem) (x : Item) → IsNarrower p q → Contains (walk q) x → Contains (walk p) x }
    ensures faults { (p q : Problem) (x : Item) → IsNarrower p q → Contains (walk p) x → x.mark ≡ Fault → Contains (walk q) x }
    ensures unsat { (p q : Problem) (b : ℕ) → IsNarrower p q → outcome b (walk p) ≡ Unsat → outcome b (walk q) ≡ Unsat }
{}

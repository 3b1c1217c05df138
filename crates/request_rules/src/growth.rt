ghost use Rattle.std.specs.Prelude.{◌≡◌, ◌≤◌, ℕ, List, true};
ghost use Rattle.object_fields.specs.declared.key.DeviceId.{DeviceId};
ghost use Rattle.object_fields.specs.declared.key.Key.{Key};
ghost use Rattle.api_claim.specs.declared.types.DeviceAsk.{DeviceAsk};
ghost use Rattle.api_slice.specs.declared.types.ResourceSlice.{ResourceSlice};
ghost use Rattle.pool_view.specs.Pools.{Offered};
ghost use Rattle.walk.specs.Narrower.{IsNarrower};
ghost use Rattle.walk.specs.Outcome.{Unsat, outcome};
ghost use Rattle.walk.specs.Walk.{walk};
ghost use Rattle.request_rules.specs.Draws.{CounterId, drawn, draws_of, is_held};
ghost use Rattle.request_rules.specs.Growth.{IsFuller, IsOfPool, class_selectors};
ghost use Rattle.request_rules.specs.Input.{SearchInput};
ghost use Rattle.request_rules.specs.Lists.{Each};
ghost use Rattle.request_rules.specs.Match.{ClassTable, matched_by};
ghost use Rattle.request_rules.specs.Problem.{problem_of};

use walk::narrower_walks_are_parts;

/// If more of the devices are held and more is drawn from their counters, fewer lists of positions are good. So where
/// a search within a budget returned Unsat, it still does, also for other claims that ask for the same.
pub fn fuller_inputs_are_narrower()
    ensures narrower { (v w : SearchInput) → IsFuller v w → IsNarrower (problem_of v) (problem_of w) }
    ensures unsat { (v w : SearchInput) (b : ℕ) → IsFuller v w → outcome b (walk (problem_of v)) ≡ Unsat → outcome b (walk (problem_of w)) ≡ Unsat }
{
    narrower_walks_are_parts();
}

/// What an ask evaluates to for a device depends only on the selectors of its class.
pub fn matches_are_by_selectors()
    ensures { (a b : ClassTable) (ask : DeviceAsk) (o : Offered) → class_selectors a ask.class ≡ class_selectors b ask.class → matched_by a ask o ≡ matched_by b ask o }
{}

/// A device draws only from counters of its own pool, and if each device of a counter's pool that was held is held, at
/// least as much is drawn from the counter.
pub fn more_held_draw_more()
    ensures own { (o : Offered) → Each (IsOfPool o) (draws_of o) }
    ensures more { (slices : List ResourceSlice) (old now : List (DeviceId × Key)) (k : CounterId) →
        ((d : DeviceId) → d.driver ≡ k.driver → d.pool ≡ k.pool → is_held old d ≡ true → is_held now d ≡ true) →
        drawn slices old k ≤ drawn slices now k }
{}

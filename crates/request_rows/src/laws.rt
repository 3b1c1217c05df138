//! What doesn't depend on held devices and counters.

ghost use Rattle.std.specs.Prelude.{◌≡◌, ℕ, List, Option};
ghost use Rattle.object_fields.specs.declared.key.DeviceId.{DeviceId};
ghost use Rattle.object_fields.specs.declared.key.Key.{Key};
ghost use Rattle.api_claim.specs.declared.types.DeviceAsk.{DeviceAsk};
ghost use Rattle.request_rules.specs.Asked.{meets, options, tolerated_at};
ghost use Rattle.request_rules.specs.Draws.{CounterId};
ghost use Rattle.request_rules.specs.Faults.{fault_of};
ghost use Rattle.request_rules.specs.Input.{SearchInput};
ghost use Rattle.request_rules.specs.Problem.{open_slots, shape_of};
ghost use Rattle.request_rows.specs.Wanted.{with_held};
ghost use Rattle.request_rules.specs.Ways.{all_asked};

/// What a choice asks for depends neither on the devices that are held nor on the counters, so rows are
/// right for each input with their claims, their devices and their matches.
pub fn choices_ask_alike()
    ensures options { (w : SearchInput) (held : List (DeviceId × Key)) (value : CounterId → Option ℕ) (drawn : CounterId → ℕ) →
        options (with_held w held value drawn) ≡ options w }
    ensures asked { (w : SearchInput) (held : List (DeviceId × Key)) (value : CounterId → Option ℕ) (drawn : CounterId → ℕ) →
        all_asked (with_held w held value drawn) ≡ all_asked w }
    ensures shape { (w : SearchInput) (held : List (DeviceId × Key)) (value : CounterId → Option ℕ) (drawn : CounterId → ℕ) (c : List ℕ) →
        shape_of (with_held w held value drawn) c ≡ shape_of w c }
    ensures slots { (w : SearchInput) (held : List (DeviceId × Key)) (value : CounterId → Option ℕ) (drawn : CounterId → ℕ) (c : List ℕ) →
        open_slots (with_held w held value drawn) c ≡ open_slots w c }
    ensures fault { (w : SearchInput) (held : List (DeviceId × Key)) (value : CounterId → Option ℕ) (drawn : CounterId → ℕ) (c : List ℕ) →
        fault_of (with_held w held value drawn) c ≡ fault_of w c }
    ensures meets { (w : SearchInput) (held : List (DeviceId × Key)) (value : CounterId → Option ℕ) (drawn : CounterId → ℕ) (a : DeviceAsk) (x : ℕ) →
        meets (with_held w held value drawn) a x ≡ meets w a x }
    ensures tolerated { (w : SearchInput) (held : List (DeviceId × Key)) (value : CounterId → Option ℕ) (drawn : CounterId → ℕ) (a : DeviceAsk) (x : ℕ) →
        tolerated_at (with_held w held value drawn) a x ≡ tolerated_at w a x }
{}

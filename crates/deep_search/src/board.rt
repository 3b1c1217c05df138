ghost use Rattle.std.specs.Prelude.{◌≡◌, ◌≢◌, ◌<◌, ◌≤◌, false, length, ℕ, List, [], ◌∷◌, ◌++◌, true, Bool, IfOk, OnOk, if◌then◌else◌};
ghost use Rattle.walk.specs.Walk.{Problem, IsChoice};
ghost use Rattle.deep_search.specs.Parts.{shape_of};

use std::alloc::{AllocError, Global};

/// What a choice needs.
#[derive(Clone, Copy, Debug, PartialEq, Eq)]
pub enum Begun {
    /// The evaluation of a request of the choice fails.
    Faulty,
    /// The choice can't be satisfied, whatever is placed.
    Hopeless,
    /// So many slots are to be filled.
    Open(usize),
}

/// A choice, and the positions that are placed in its first slots.
///
/// A search moves it by `begin`, `try_push` and `pop`. None of these changes its setting, from which
/// the problem is made. After an error, which means out of memory, only the setting is known.
pub trait Board {
    /// What the board is about, which no move changes.
    ghost Setting: { Type 0 };

    ghost setting: { Self → Setting };

    ghost problem: { Setting → Problem };

    ghost chosen: { Self → List ℕ };

    ghost placed: { Self → List ℕ };

    /// The positions among which the next one is, if it is good: those from the first number on and
    /// below the second.
    fn window(&self) -> (usize, usize)
        ensures order { result.0 ≤ result.1 }
        ensures known { result.1 ≤ (problem (setting self.now)).devices }
        ensures below { (x : ℕ) → x < result.0 →
            (problem (setting self.now)).good (chosen self.now) (placed self.now ++ x ∷ []) ≡ false }
        ensures above { (x : ℕ) → result.1 ≤ x → x < (problem (setting self.now)).devices →
            (problem (setting self.now)).good (chosen self.now) (placed self.now ++ x ∷ []) ≡ false };

    /// Takes up a choice, with nothing placed.
    fn begin(&mut self, alloc: Global, choice: &[usize]) -> Result<Begun, AllocError>
        requires { IsChoice (problem (setting self.old)).options choice.now }
        ensures setting { setting self.new ≡ setting self.old }
        ensures chosen { OnOk result (chosen self.new ≡ choice.now) }
        ensures placed { OnOk result (placed self.new ≡ []) }
        ensures shape { IfOk result (λ begun. shape_of begun ≡ (problem (setting self.old)).shape choice.now) };

    /// Places one more, if that is good.
    fn try_push(&mut self, alloc: Global, position: usize) -> Result<bool, AllocError>
        requires known { position < (problem (setting self.old)).devices }
        requires good { (problem (setting self.old)).good (chosen self.old) (placed self.old) ≡ true }
        ensures setting { setting self.new ≡ setting self.old }
        ensures chosen { OnOk result (chosen self.new ≡ chosen self.old) }
        ensures placed { IfOk result (λ b.
            placed self.new ≡ (if b then placed self.old ++ position ∷ [] else placed self.old)) }
        ensures good { IfOk result (λ b.
            b ≡ (problem (setting self.old)).good (chosen self.old) (placed self.old ++ position ∷ [])) };

    /// Takes the last one back.
    fn pop(&mut self)
        requires { length (placed self.old) ≢ 0 }
        ensures setting { setting self.new ≡ setting self.old }
        ensures chosen { chosen self.new ≡ chosen self.old }
        ensures placed { (l : List ℕ) (x : ℕ) → placed self.old ≡ l ++ x ∷ [] → placed self.new ≡ l };

    /// Nothing placed is good.
    ghost empty: { (g : Setting) (c : List ℕ) → (problem g).good c [] ≡ true };

    /// What is good without its last position is good.
    ghost closed: { (g : Setting) (c l : List ℕ) (x : ℕ) →
        (problem g).good c (l ++ x ∷ []) ≡ true → (problem g).good c l ≡ true };
}

ghost use Rattle.std.specs.Prelude.{◌≡◌, List, Option, ℕ};
ghost use Rattle.std.specs.Option.{option_map};
ghost use Rattle.dra_ports.specs.DiskContent.{Content, Partly, Sure, moved};
ghost use Rattle.dra_ports.specs.DiskImages.{AtEachMoment, Leaves, Where};

/// Something that the bytes which a crash leaves may be, such as a checkpoint with a certain table. A type
/// stands for it so that the laws below can be stated of any of them; no value of the type is needed.
pub trait ImageProperty {
    /// What it depends on besides the bytes, such as the table.
    ghost About: { Type 0 };

    /// Whether bytes have it.
    ghost holds: { About → List ℕ → Type 0 };
}

/// States how what holds of whatever a crash leaves, at each moment, is known from one call of a disk to the
/// next. A moment passes with each write, cut or sync that succeeds, and one may pass with a write or a cut
/// that fails.
pub fn moments_join<P: ImageProperty>()
    ensures rest { (p : P.About) (x : Option Content) → Where (λ c. Leaves (P.holds p) c.sure) x → AtEachMoment (P.holds p) x x }
    ensures call { (p : P.About) (bytes : Content → List ℕ) (sure : Content → Sure) (x y z : Option Content) → AtEachMoment (P.holds p) x y
        → z ≡ option_map (λ c. moved (bytes c) (sure c) c) y → Where (λ c. Leaves (P.holds p) (sure c)) y → AtEachMoment (P.holds p) x z }
    ensures failed { (p : P.About) (change : Sure → Sure) (x y z : Option Content) → AtEachMoment (P.holds p) x y
        → Partly change y z → Where (λ c. Leaves (P.holds p) (change c.sure)) y → AtEachMoment (P.holds p) x z }
    ensures joined { (p : P.About) (x y z : Option Content) → AtEachMoment (P.holds p) x y → AtEachMoment (P.holds p) y z → AtEachMoment (P.holds p) x z }
{}

/// States that what holds at each moment gives whatever follows from it at each moment.
pub fn moments_imply<P: ImageProperty, Q: ImageProperty>()
    ensures { (p : P.About) (q : Q.About) (x y : Option Content) → ((image : List ℕ) → P.holds p image → Q.holds q image)
        → AtEachMoment (P.holds p) x y → AtEachMoment (Q.holds q) x y }
{}

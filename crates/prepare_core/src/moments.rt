ghost use Rattle.std.specs.Prelude.{◌≡◌, ◌∷◌, [], IfSome, List, Option, false, true, ℕ};
ghost use Rattle.dra_ports.specs.DiskContent.{Content};
ghost use Rattle.dra_ports.specs.DiskImages.{AtEachMoment};
ghost use Rattle.ckpt_journal.specs.Standing.{HasTable, IsBeforeOrAfter, Keeps};
ghost use Rattle.ckpt_journal.specs.Table.{row_after};
ghost use Rattle.ckpt_journal.specs.declared.record.Claim.{Claim};
ghost use Rattle.ckpt_journal.specs.declared.record.Record.{Record};
ghost use Rattle.ckpt_journal.specs.declared.record.Record.TheVariants as items;
ghost use Rattle.ckpt_journal.specs.declared.record.Row.{Row};
ghost use Rattle.prepare_core.specs.Held.{IsSet, KeepsHeld, LosesHeld};
ghost use Rattle.prepare_core.specs.Moments.{HasPrefix};
ghost use Rattle.prepare_core.specs.Runs.{called};
ghost use Rattle.prepare_core.specs.declared.claim.ClaimForNode.{ClaimForNode};
ghost use Rattle.prepare_core.specs.declared.driver.CallKind.TheVariants as kinds;
ghost use Rattle.prepare_core.specs.declared.driver.DriverCall.{DriverCall};

use dra_ports::{ImageProperty, moments_imply, moments_join};

/// A checkpoint has a table, or that with one record.
#[derive(Drop)]
struct OneRecord;

impl ImageProperty for OneRecord {
    ghost use Rattle.std.specs.Prelude.{List};
    ghost use Rattle.ckpt_journal.specs.Standing.{IsBeforeOrAfter};
    ghost use Rattle.ckpt_journal.specs.declared.record.Record.{Record};
    ghost use Rattle.ckpt_journal.specs.declared.record.Row.{Row};

    ghost About = { List Row × Record };

    ghost holds = { λ p. IsBeforeOrAfter p.0 p.1 };
}

/// A checkpoint has a table, and some of a call's records.
#[derive(Drop)]
struct SomeRecords;

impl ImageProperty for SomeRecords {
    ghost use Rattle.std.specs.Prelude.{List};
    ghost use Rattle.ckpt_journal.specs.declared.record.Record.{Record};
    ghost use Rattle.ckpt_journal.specs.declared.record.Row.{Row};
    ghost use Rattle.prepare_core.specs.Moments.{HasPrefix};

    ghost About = { List Row × List Record };

    ghost holds = { λ p. HasPrefix p.0 p.1 };
}

/// States how what a crash leaves during a call follows from what it leaves while each of its records is added.
pub fn prefixes_join()
    ensures none { (rows : List Row) (own : List Record) (x : Option Content) → IfSome x (Keeps rows) → AtEachMoment (HasPrefix rows own) x x }
    ensures one { (rows : List Row) (a : Record) (more : List Record) (x y : Option Content) → AtEachMoment (IsBeforeOrAfter rows a) x y → AtEachMoment (HasPrefix rows (a ∷ more)) x y }
    ensures two { (rows : List Row) (a b : Record) (x y z : Option Content) → AtEachMoment (IsBeforeOrAfter rows a) x y
        → AtEachMoment (IsBeforeOrAfter (row_after rows a) b) y z → AtEachMoment (HasPrefix rows (a ∷ b ∷ [])) x z }
{
    moments_join::<SomeRecords>();
    moments_imply::<OneRecord, SomeRecords>();
}

/// A checkpoint has each claim that a driver holds.
#[derive(Drop)]
struct HeldClaims;

impl ImageProperty for HeldClaims {
    ghost use Rattle.std.specs.Prelude.{List};
    ghost use Rattle.prepare_core.specs.Held.{HoldsIn};
    ghost use Rattle.prepare_core.specs.declared.driver.DriverCall.{DriverCall};

    ghost About = { List DriverCall };

    ghost holds = { λ calls. HoldsIn calls };
}

/// States that the claims which a driver has prepared and not taken back keep their rows, whatever a crash leaves, while
/// the records of a call are added.
pub fn held_claims_stay()
    ensures none { (rows : List Row) (calls : List DriverCall) (x : Option Content) → IfSome x (Keeps rows) → KeepsHeld rows calls calls x x }
    ensures set { (rows : List Row) (item : Record) (calls : List DriverCall) (x y : Option Content) → IsSet item → AtEachMoment (IsBeforeOrAfter rows item) x y → KeepsHeld rows calls calls x y }
    ensures failed { (rows : List Row) (k : Claim) (c : ClaimForNode) (calls : List DriverCall) (x y : Option Content) → AtEachMoment (IsBeforeOrAfter rows (items.Begun k)) x y
        → KeepsHeld rows calls (called kinds.Prepare c false calls) x y }
    ensures asked { (rows : List Row) (k : Claim) (c : ClaimForNode) (calls : List DriverCall) (x y z : Option Content) → k.uid ≡ c.uid → AtEachMoment (IsBeforeOrAfter rows (items.Begun k)) x y
        → AtEachMoment (IsBeforeOrAfter (row_after rows (items.Begun k)) (items.Prepared k)) y z → KeepsHeld rows calls (called kinds.Prepare c true calls) x z }
    ensures leaving { (rows : List Row) (gone : List ℕ) (calls : List DriverCall) (x y : Option Content) → AtEachMoment (IsBeforeOrAfter rows (items.Leaving gone)) x y → LosesHeld rows calls calls x y }
    ensures not_left { (rows : List Row) (gone : List ℕ) (c : ClaimForNode) (calls : List DriverCall) (x y : Option Content) → AtEachMoment (IsBeforeOrAfter rows (items.Leaving gone)) x y
        → LosesHeld rows calls (called kinds.Unprepare c false calls) x y }
    ensures left { (rows : List Row) (gone : List ℕ) (c : ClaimForNode) (calls : List DriverCall) (x y z : Option Content) → c.uid ≡ gone → AtEachMoment (IsBeforeOrAfter rows (items.Leaving gone)) x y
        → AtEachMoment (IsBeforeOrAfter (row_after rows (items.Leaving gone)) (items.Gone gone)) y z → LosesHeld rows calls (called kinds.Unprepare c true calls) x z }
{
    moments_join::<HeldClaims>();
    moments_imply::<OneRecord, HeldClaims>();
}

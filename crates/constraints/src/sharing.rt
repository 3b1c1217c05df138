//! Which results may be of one device.

ghost use Rattle.std.specs.Prelude.{◌≡◌, ◌==◌, ◌&&◌, ◌||◌, not};

/// Whether two results may not be of one device: they are of one claim, or both without admin access.
pub fn excludes(claim: usize, admin: bool, other_claim: usize, other_admin: bool) -> bool
    ensures { result ≡ (claim == other_claim) || (not admin && not other_admin) }
{
    claim == other_claim || (!admin && !other_admin)
}

ghost use Rattle.std.specs.Prelude.{◌≡◌, Some, false};
ghost use Rattle.std.proofs.Props.{props};
ghost use Rattle.ckpt_journal.specs.Table.{row};
ghost use Rattle.ckpt_journal.specs.declared.record.RowState.TheVariants as states;
ghost use Rattle.prepare_core.specs.Table.{claim_with, row_of};
ghost use Rattle.prepare_core.specs.Words.{has_ended, rows_in};

use crate::{ClaimForNode, Kubelet};
use dra_ports::Disk;
use dra_values::Seq;
use object_fields::Key;

/// A claim whose preparation has begun: whatever a crash leaves has it as Begun. The driver isn't asked yet.
#[derive(Drop)]
pub struct Begun<D: Disk> {
    pub(crate) kubelet: Kubelet<D>,
    /// The claim handed in.
    pub(crate) claim: ClaimForNode,
    /// The pods that it is begun for.
    pub(crate) pods: Seq<Key>,
    ghost going: { has_ended kubelet ≡ false },
    ghost begun: { row_of claim.uid (rows_in kubelet) ≡ Some (row states.Begun (claim_with claim pods)) } by { Prim.hlevel props },
}

/// A claim that the driver has prepared. It isn't recorded as Prepared yet.
#[derive(Drop)]
pub struct Asked<D: Disk> {
    pub(crate) kubelet: Kubelet<D>,
    /// The claim handed in.
    pub(crate) claim: ClaimForNode,
    /// The pods that it is begun for.
    pub(crate) pods: Seq<Key>,
    ghost going: { has_ended kubelet ≡ false },
    ghost begun: { row_of claim.uid (rows_in kubelet) ≡ Some (row states.Begun (claim_with claim pods)) } by { Prim.hlevel props },
}

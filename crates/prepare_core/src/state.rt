use crate::KubeletError;
use ckpt_journal::Journal;
use dra_ports::Disk;
use dra_values::Text;

/// The kubelet of a node, between two calls. It owns the disk of its checkpoint, so nothing else acts on it.
#[derive(Drop)]
pub struct Kubelet<D: Disk> {
    pub(crate) journal: Journal<D>,
    pub(crate) node: Text,
}

/// A kubelet that did not do as it was asked, and why.
#[derive(Drop)]
pub struct Refused<D: Disk> {
    /// The kubelet, handed back.
    pub kubelet: Kubelet<D>,
    /// Why.
    pub why: KubeletError,
}

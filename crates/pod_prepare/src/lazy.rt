use dra_ports::Disk;
use prepare_core::Kubelet;

/// The kubelet of a node over the disk of its checkpoint, which is opened at its first command. It owns the disk, so
/// nothing else acts on it.
#[derive(Drop)]
pub enum LazyKubelet<D: Disk> {
    /// It isn't opened: it had no command, or failed to open. The disk wasn't touched before the first command.
    Closed(D),
    /// It is open, or an error of the disk has ended it.
    Open(Kubelet<D>),
}

impl<D: Disk> LazyKubelet<D> {
    ghost use Rattle.std.specs.Prelude.{◌≡◌};
    ghost use Rattle.pod_prepare.specs.Words.{disk_of};

    /// Hands the disk back unchanged. Touches nothing and allocates nothing.
    pub fn close(self) -> D
        ensures { result ≡ disk_of self }
    {
        match self {
            LazyKubelet::Closed(disk) => disk,
            LazyKubelet::Open(kubelet) => kubelet.close(),
        }
    }
}

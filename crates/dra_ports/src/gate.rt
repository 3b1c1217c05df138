/// A moment in the run of a job, at which its gate is called.
#[derive(Clone, Copy, Debug, PartialEq, Eq, Drop)]
pub enum Point {
    /// A search ended, and what it found isn't recorded yet.
    Searched,
    /// The devices that the job found are reserved.
    Reserved,
    /// The job has ended.
    Ended,
}

/// What jobs call on their way, so that a test can hold one of them up while another goes on.
///
/// A gate may wait, but it changes nothing that a job sees. So no clause mentions it, and what
/// holds of a job holds under any gate.
pub trait Gate {
    /// The job has come to this point.
    fn reached(&self, job: u64, point: Point);
}

/// A gate that holds nobody up: it does nothing.
#[derive(Drop)]
pub struct OpenGate;

impl Gate for OpenGate {
    fn reached(&self, _job: u64, _point: Point) {}
}

use dra_ports::{Gate, HoldGate, Point};

/// Two gates, each of which may hold two jobs.
#[derive(Drop)]
pub struct Gates {
    pub first: HoldGate,
    pub second: HoldGate,
}

impl Gates {
    /// Whether a job waited in vain.
    pub fn gave_up(&self) -> bool {
        self.first.gave_up() || self.second.gave_up()
    }
}

impl Gate for Gates {
    fn reached(&self, job: u64, point: Point) {
        self.first.reached(job, point);
        self.second.reached(job, point);
    }
}

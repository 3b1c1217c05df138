use crate::fresh::is_new;
use commands::Command;
use default_engine::DefaultEngine;
use sched_job::{Ledger, LedgerError, run_alone};
use std::alloc::{AllocError, Global};

/// No history may have room for this many entries.
const ENTRIES_BOUND: u64 = 281_474_976_710_656;

/// A history, and the number of the last job that was to append to it.
#[derive(Drop)]
pub struct Setup {
    pub ledger: Ledger,
    pub jobs: u64,
}

impl Setup {
    /// A history of no entries, of which it may have so many.
    pub fn new(alloc: Global, entries: u64) -> Result<Setup, AllocError> {
        Ok(Setup {
            ledger: Ledger::new(alloc, entries.min(ENTRIES_BOUND - 1))?,
            jobs: 0,
        })
    }

    /// Runs a command alone as the next job, if that has no entry yet.
    pub fn run_next(
        &mut self,
        alloc: Global,
        order: Command,
        budget: u64,
    ) -> Result<(), LedgerError> {
        let job = self.jobs.saturating_add(1);
        self.jobs = job;
        if !is_new(&self.ledger, job, &order) {
            drop(order);
            return Ok(());
        }
        run_alone::<DefaultEngine>(alloc, &mut self.ledger, job, order, budget)?;
        Ok(())
    }
}

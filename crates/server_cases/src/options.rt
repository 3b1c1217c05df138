ghost use Rattle.std.specs.Prelude.{◌<◌, ◌≤◌, ◌^◌};

use crate::gates::Gates;
use api_server::ServeOptions;
use dra_ports::{HoldGate, Point};

/// No history may have room for this many entries.
const ENTRIES_BOUND: u64 = 281_474_976_710_656;

/// How many turns of its loop a job waits at most.
const TURNS: u64 = 100_000_000;

/// How connections are served.
#[derive(Clone, Copy, Drop)]
pub struct Options {
    /// How many workers serve connections.
    pub workers: u64,
    /// How many connections are served; as many as there are if this is `u64::MAX`.
    pub connections: u64,
    /// The most entries of the history.
    pub entries: u64,
    /// The most bytes that a read returns.
    pub piece: u64,
    /// The number of the doors' call that fails, or 0: 1 is the opening, and 1 + i the acceptance of connection i.
    pub fail_door: u64,
    /// The number of the write of the output that fails, from 1, or 0.
    pub fail_write: u64,
    /// The number of the call of the first connection that fails, from 1, or 0.
    pub fail_call: u64,
    /// How many of the first lines are printed in the order of their texts.
    pub mixed: u64,
    /// The job that waits where it has ended, until the job `settled` has ended; 0 for none.
    pub settling: u64,
    /// The job that waits once it has searched, until the job `settling` has ended; 0 for none.
    pub settled: u64,
    /// The job that waits once it has searched, or reserved, until the job `until` has ended; 0 for none.
    pub held: u64,
    /// The job that waits once it has searched, until the job `held` has come there; 0 for none.
    pub until: u64,
    /// Where the job `held` waits: where it has searched, or where it has reserved if this isn't 0.
    pub reserved: u64,
    /// How many last replies of each connection are printed.
    pub last: u64,
}

impl Options {
    /// One worker that serves all connections, none of which fails.
    fn plain() -> Self {
        Options {
            workers: 1,
            connections: u64::MAX,
            entries: 1_000_000,
            piece: 65_536,
            fail_door: 0,
            fail_write: 0,
            fail_call: 0,
            mixed: 0,
            settling: 0,
            settled: 0,
            held: 0,
            until: 0,
            reserved: 0,
            last: 0,
        }
    }

    /// The options with one changed by an argument such as `workers=2`.
    fn with_word(self, word: &str) -> Option<Self> {
        let (key, number) = word.split_once('=')?;
        let number = number.parse::<u64>().ok()?;
        let mut options = self;
        match key {
            "workers" => options.workers = number,
            "connections" => options.connections = number,
            "entries" => options.entries = number,
            "piece" => options.piece = number,
            "fail-door" => options.fail_door = number,
            "fail-write" => options.fail_write = number,
            "fail-call" => options.fail_call = number,
            "mixed" => options.mixed = number,
            "settling" => options.settling = number,
            "settled" => options.settled = number,
            "held" => options.held = number,
            "until" => options.until = number,
            "reserved" => options.reserved = number,
            "last" => options.last = number,
            _ => return None,
        }
        Some(options)
    }

    /// Reads options, with a space between two.
    pub fn read(words: &str) -> Option<Self> {
        let mut options = Options::plain();
        for word in words.split(' ') {
            if !word.is_empty() {
                options = options.with_word(word)?;
            }
        }
        Some(options)
    }

    /// How the server works that has so many inputs: with 1 to 64 workers.
    pub fn server(self, inputs: usize) -> ServeOptions
        ensures workers { (0 < result.workers) × (result.workers ≤ 64) }
        ensures connections { result.connections ≤ 65535 }
        ensures entries { result.entries < 2 ^ 48 }
        ensures attempts { 0 < result.attempts }
    {
        let connections = if self.connections == u64::MAX {
            inputs as u64
        } else {
            self.connections
        };
        ServeOptions {
            workers: self.workers.clamp(1, 64),
            connections: connections.min(65_535),
            budget: 100_000,
            attempts: 32,
            entries: self.entries.min(ENTRIES_BOUND - 1),
        }
    }

    /// Where the job `held` waits.
    fn held_at(self) -> Point {
        if self.reserved == 0 {
            Point::Searched
        } else {
            Point::Reserved
        }
    }

    /// The gates that hold four jobs.
    pub fn gates(self) -> Gates {
        Gates {
            first: HoldGate::new(self.settling, Point::Ended, self.settled, TURNS),
            second: HoldGate::new(self.held, self.held_at(), self.until, TURNS),
        }
    }
}

/// How a script is run.
#[derive(Clone, Copy, Drop)]
pub struct Options {
    /// How many workers do the commands of a Together.
    pub workers: u64,
    /// The most entries of the history.
    pub entries: u64,
    /// The most items of a node's walk that a search looks at.
    pub budget: u64,
    /// The most attempts to schedule a pod.
    pub attempts: u64,
    /// The most bytes that a read returns.
    pub pieces: u64,
    /// The most bytes that a write takes.
    pub takes: u64,
    /// The number of the read that fails, from 1, or 0.
    pub fail_read: u64,
    /// The number of the write that fails, from 1, or 0.
    pub fail_write: u64,
    /// The kubelet's node is `n` and this number; 0 for none.
    pub node: u64,
    /// The number of the disk's call that fails, from 1, or 0.
    pub fail_disk: u64,
    /// The number of the driver's call that fails, from 1, or 0.
    pub fail_driver: u64,
    /// The checkpoint as it is found: the first so many bytes of one of version 1, which has 113 and begins a claim; one of
    /// version 1 without records if this is 1, and another program's file if it is over 113.
    pub found: u64,
    /// The size in bytes of a half of a checkpoint of version 2 without records, as which it is found instead; 0 for none.
    pub half: u64,
    /// The job that waits where it is held, until the job `until` has ended; 0 for none.
    pub held: u64,
    /// Where it is held: once it has searched, or, if this isn't 0, once it has reserved.
    pub reserved: u64,
    /// The job that waits once it has searched, until the job `held` has come there; 0 for none.
    pub until: u64,
    /// How many turns of its loop each of these waits takes at most.
    pub turns: u64,
}

impl Options {
    /// The options of the program `dra`, whose input and output don't fail.
    fn plain() -> Self {
        Options {
            workers: 1,
            entries: 1_000_000,
            budget: 100_000,
            attempts: 32,
            pieces: 65_536,
            takes: u64::MAX,
            fail_read: 0,
            fail_write: 0,
            node: 0,
            fail_disk: 0,
            fail_driver: 0,
            found: 0,
            half: 0,
            held: 0,
            reserved: 0,
            until: 0,
            turns: 100_000_000,
        }
    }

    /// The options with one changed by an argument such as `pieces=7`.
    fn with_word(self, word: &str) -> Option<Self> {
        let (key, number) = word.split_once('=')?;
        let number = number.parse::<u64>().ok()?;
        match key {
            "workers" => Some(Options {
                workers: number,
                ..self
            }),
            "entries" => Some(Options {
                entries: number,
                ..self
            }),
            "budget" => Some(Options {
                budget: number,
                ..self
            }),
            "attempts" => Some(Options {
                attempts: number,
                ..self
            }),
            "pieces" => Some(Options {
                pieces: number,
                ..self
            }),
            "takes" => Some(Options {
                takes: number,
                ..self
            }),
            "fail-read" => Some(Options {
                fail_read: number,
                ..self
            }),
            "fail-write" => Some(Options {
                fail_write: number,
                ..self
            }),
            "node" => Some(Options {
                node: number,
                ..self
            }),
            "fail-disk" => Some(Options {
                fail_disk: number,
                ..self
            }),
            "fail-driver" => Some(Options {
                fail_driver: number,
                ..self
            }),
            "found" => Some(Options {
                found: number,
                ..self
            }),
            "half" => Some(Options {
                half: number,
                ..self
            }),
            "held" => Some(Options {
                held: number,
                ..self
            }),
            "reserved" => Some(Options {
                reserved: number,
                ..self
            }),
            "until" => Some(Options {
                until: number,
                ..self
            }),
            "turns" => Some(Options {
                turns: number,
                ..self
            }),
            _ => None,
        }
    }

    /// Reads options, with a space between two.
    pub fn read(words: &str) -> Option<Self> {
        let mut options = Options::plain();
        for word in words.split(' ') {
            if !word.is_empty() {
                options = options.with_word(word)?;
            }
        }
        Some(options)
    }
}

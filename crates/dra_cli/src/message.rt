use crate::position::Position;
use crate::tail::Tail;
use replay_core::{Rejection, Status};
use std::fmt;

/// The most bytes of an input; a history never has so many entries.
const MOST_INPUT: u64 = 1_073_741_824;

/// Where something is in the input: the offset from 0, and the line and the column if they are known.
#[derive(Clone, Copy, Drop)]
struct Where {
    offset: u64,
    position: Option<Position>,
}

impl fmt::Display for Where {
    fn fmt<W: fmt::Write>(&self, f: &mut fmt::Formatter<W>) -> fmt::Result {
        match self.position {
            Some(position) => write!(
                f,
                "byte {} (line {}, column {})",
                self.offset, position.line, position.column
            ),
            None => write!(f, "byte {}", self.offset),
        }
    }
}

/// What is in place of a command, and what would be right.
#[derive(Clone, Copy, Drop)]
struct Found {
    why: Rejection,
    byte: Option<u8>,
}

impl fmt::Display for Found {
    fn fmt<W: fmt::Write>(&self, f: &mut fmt::Formatter<W>) -> fmt::Result {
        match self.why {
            Rejection::Unclosed => f.write_str(
                "expected a `}` for each `{`, found an object that the input does not close",
            ),
            Rejection::Stray => stray(self.byte, f),
            Rejection::TooLong => f.write_str(
                "expected at most 2097152 bytes, found a longer object",
            ),
            Rejection::NotJson => f.write_str(
                "expected a JSON object in UTF-8, found bytes between braces that are none",
            ),
            Rejection::NotACommand => f.write_str(
                "expected an object of resource.k8s.io/v1 or v1, or a command of dra.replay/v1, as \
                 docs/FORMATS.md lists them, found another JSON object",
            ),
        }
    }
}

/// A byte between documents that is no blank.
fn stray<W: fmt::Write>(byte: Option<u8>, f: &mut fmt::Formatter<W>) -> fmt::Result {
    f.write_str("expected a JSON object, or blanks alone between objects, found ")?;
    match byte {
        Some(byte) if byte.is_ascii_graphic() => write!(f, "`{}`", char::from(byte)),
        Some(byte) => write!(f, "a byte of value {byte}"),
        None => f.write_str("another byte"),
    }
}

fn limit<W: fmt::Write>(count: u64, f: &mut fmt::Formatter<W>) -> fmt::Result {
    if count == MOST_INPUT {
        write!(
            f,
            "the limit of {count} bytes was reached; a script may not be longer"
        )
    } else {
        write!(
            f,
            "the limit of {count} entries was reached; --entries sets it, to at most 1000000"
        )
    }
}

/// What the program prints on the standard error about how its run ended: what was found, where, and
/// what would be right. No format fixes this text.
#[derive(Drop)]
pub struct Message {
    status: Status,
    position: Option<Position>,
    byte: Option<u8>,
}

/// The offset that a status names.
fn offset_of(status: Status) -> Option<u64> {
    match status {
        Status::Document(offset, _) => Some(offset),
        _ => None,
    }
}

impl Message {
    /// The message for a status, where these are the last bytes of the input.
    pub fn new(status: Status, tail: &Tail) -> Message {
        match offset_of(status) {
            Some(offset) => Message {
                status,
                position: tail.position(offset),
                byte: tail.byte(offset),
            },
            None => Message {
                status,
                position: None,
                byte: None,
            },
        }
    }

    fn at(&self, offset: u64) -> Where {
        Where {
            offset,
            position: self.position,
        }
    }

    fn found(&self, why: Rejection) -> Found {
        Found {
            why,
            byte: self.byte,
        }
    }
}

impl fmt::Display for Message {
    fn fmt<W: fmt::Write>(&self, f: &mut fmt::Formatter<W>) -> fmt::Result {
        match self.status {
            Status::Done => f.write_str("all was done"),
            Status::Usage => f.write_str(
                "these arguments are not supported; the commands are `replay`, `serve` and `exercise`\n\
                 usage: dra replay [--workers 1..64] [--budget 1..10000000] [--attempts 1..64] \
                 [--entries 1..1000000] [--node name] < script\n\
                 usage: dra serve --address host:port --connections 1..65535 [--workers 1..64] \
                 [--budget 1..10000000] [--attempts 1..64] [--entries 1..1000000]\n\
                 usage: dra exercise --from 0..9223372036854775807 --pods 0..100000",
            ),
            Status::Document(offset, why) => write!(
                f,
                "invalid command at {}: {}",
                self.at(offset),
                self.found(why)
            ),
            Status::Memory => f.write_str(
                "memory ran out; expected more memory, or a shorter script or fewer pods",
            ),
            Status::Read => f.write_str(
                "the standard input could not be read; expected a script, as a file or a pipe",
            ),
            Status::Write => f.write_str(
                "the standard output could not be written; expected it to be open and to have room",
            ),
            Status::Limit(count) => limit(count, f),
            Status::Disk => f.write_str(
                "the file checkpoint.dra could not be opened, read, written or synced; expected a folder and a file that \
                 may be written, with room for 9 MB",
            ),
            Status::Door => f.write_str(
                "connections could not be accepted; expected an address as 127.0.0.1:8080 that no other program listens at",
            ),
            Status::Checkpoint(offset) => write!(
                f,
                "the file checkpoint.dra is no checkpoint of a kubelet at byte {offset}; expected one that dra wrote, or \
                 none",
            ),
        }
    }
}

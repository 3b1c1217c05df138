/// A place of an input as an editor counts it.
#[derive(Clone, Copy, Debug, PartialEq, Eq, Drop)]
pub struct Position {
    /// The line, from 1.
    pub line: u64,
    /// The byte of the line, from 1.
    pub column: u64,
}

/// An offset and its position.
#[derive(Clone, Copy, Drop)]
pub struct Mark {
    pub offset: u64,
    pub position: Position,
}

/// The position after a byte that is at this one.
fn after_byte(position: Position, byte: u8) -> Position {
    if byte == b'\n' {
        Position {
            line: position.line.saturating_add(1),
            column: 1,
        }
    } else {
        Position {
            line: position.line,
            column: position.column.saturating_add(1),
        }
    }
}

impl Mark {
    /// The beginning of an input.
    pub fn begin() -> Mark {
        Mark {
            offset: 0,
            position: Position { line: 1, column: 1 },
        }
    }

    /// The mark behind the bytes that are at this one.
    pub fn after(self, bytes: &[u8]) -> Mark {
        let mut position = self.position;
        for byte in bytes {
            position = after_byte(position, *byte);
        }
        Mark {
            offset: self.offset.saturating_add(bytes.len() as u64),
            position,
        }
    }
}

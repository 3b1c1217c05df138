ghost use Rattle.std.specs.Prelude.{◌≡◌};
ghost use Rattle.http_wire.specs.declared.error.WireError.TheVariants.{Memory};

use dra_ports::PortError;
use std::alloc::AllocError;
use thiserror::Error;

/// Why no request was read, or a reply was not written.
#[derive(Clone, Copy, Debug, PartialEq, Eq, Drop, Error)]
pub enum WireError {
    /// The head isn't one of HTTP/1.1 or HTTP/1.0, as `httparse` reads it, or a `Content-Length`
    /// isn't decimal digits, or two of them differ.
    #[error("the head of the request isn't well formed")]
    BadHead,
    /// A POST or a PUT has no `Content-Length`, or a request has a `Transfer-Encoding`.
    #[error("the request doesn't say its length")]
    NoLength,
    /// The head has more than 16,384 bytes with the empty lines before it, or more than 64 lines
    /// between its first line and the empty one, or the body has more than 2,097,152 bytes.
    #[error("the request is too long")]
    TooLong,
    /// The input ends inside a request.
    #[error("the input ends inside a request")]
    EndedEarly,
    /// The source failed, and its error count rose, or is at its last value, 2^64-1.
    #[error("the connection can't be read")]
    ReadFault,
    /// The sink failed, and its error count rose, or is at its last value, 2^64-1.
    #[error("the connection can't be written")]
    WriteFault,
    /// Memory ran out.
    #[error("out of memory")]
    Memory,
}

impl From<AllocError> for WireError {
    ghost from_gives = { λ _ e. e ≡ Memory };

    fn from(_: AllocError) -> Self {
        WireError::Memory
    }
}

impl From<PortError> for WireError {
    ghost use Rattle.http_wire.specs.Reader.{read_error};

    ghost from_gives = { λ e d. d ≡ read_error e };

    fn from(error: PortError) -> Self {
        match error {
            PortError::Failed => WireError::ReadFault,
            PortError::Memory => WireError::Memory,
        }
    }
}

use thiserror::Error;

/// Why a request is refused before it is a command.
#[derive(Clone, Copy, Debug, PartialEq, Eq, Drop, Error)]
pub enum Unserved {
    /// The head of the request isn't well formed, or its body isn't an object of the path's kind, name and
    /// namespace.
    #[error("BadRequest")]
    BadRequest,
    /// The server doesn't have the path.
    #[error("NotFound")]
    NotFound,
    /// The path has no such method.
    #[error("MethodNotAllowed")]
    MethodNotAllowed,
    /// The request doesn't say how long its body is.
    #[error("LengthRequired")]
    LengthRequired,
    /// The head or the body of the request is too long.
    #[error("RequestEntityTooLarge")]
    RequestEntityTooLarge,
}

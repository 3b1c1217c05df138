ghost use Rattle.std.specs.Prelude.{◌≡◌};
ghost use Rattle.api_replies.specs.Reasons as spec;

use api_routes::Unserved;
use cluster::Refusal;
use http::StatusCode;

/// The reason of a Status that is a failure (Status of the Kubernetes API reference).
#[derive(Clone, Copy, Debug, PartialEq, Eq)]
pub enum Reason {
    BadRequest,
    NotFound,
    MethodNotAllowed,
    AlreadyExists,
    Conflict,
    LengthRequired,
    RequestEntityTooLarge,
    Invalid,
}

/// The HTTP status of a reason.
pub fn status_of(reason: Reason) -> StatusCode
    ensures { result ≡ spec.code_of reason }
{
    match reason {
        Reason::BadRequest => StatusCode::BAD_REQUEST,
        Reason::NotFound => StatusCode::NOT_FOUND,
        Reason::MethodNotAllowed => StatusCode::METHOD_NOT_ALLOWED,
        Reason::AlreadyExists => StatusCode::CONFLICT,
        Reason::Conflict => StatusCode::CONFLICT,
        Reason::LengthRequired => StatusCode::LENGTH_REQUIRED,
        Reason::RequestEntityTooLarge => StatusCode::PAYLOAD_TOO_LARGE,
        Reason::Invalid => StatusCode::UNPROCESSABLE_ENTITY,
    }
}

/// The word of a reason.
pub fn word_of(reason: Reason) -> &'static str
    ensures { result.now ≡ spec.word_of reason }
{
    match reason {
        Reason::BadRequest => "BadRequest",
        Reason::NotFound => "NotFound",
        Reason::MethodNotAllowed => "MethodNotAllowed",
        Reason::AlreadyExists => "AlreadyExists",
        Reason::Conflict => "Conflict",
        Reason::LengthRequired => "LengthRequired",
        Reason::RequestEntityTooLarge => "RequestEntityTooLarge",
        Reason::Invalid => "Invalid",
    }
}

/// The reason of a request that is refused before it is a command.
pub fn unserved_reason(why: Unserved) -> Reason
    ensures { result ≡ spec.unserved_reason why }
{
    match why {
        Unserved::BadRequest => Reason::BadRequest,
        Unserved::NotFound => Reason::NotFound,
        Unserved::MethodNotAllowed => Reason::MethodNotAllowed,
        Unserved::LengthRequired => Reason::LengthRequired,
        Unserved::RequestEntityTooLarge => Reason::RequestEntityTooLarge,
    }
}

/// The reason of a command that is refused.
pub fn refusal_reason(refusal: &Refusal) -> Reason
    ensures { result ≡ spec.refusal_reason refusal.now }
{
    match refusal {
        Refusal::Invalid => Reason::Invalid,
        Refusal::NotFound => Reason::NotFound,
        Refusal::Exists => Reason::AlreadyExists,
        Refusal::Conflict { had: _, now: _ } => Reason::Conflict,
        Refusal::Immutable => Reason::Invalid,
        Refusal::InUse => Reason::Conflict,
        Refusal::Devices => Reason::Invalid,
        Refusal::Busy(_) => Reason::Conflict,
        Refusal::Bound(_) => Reason::Conflict,
        Refusal::NotBound => Reason::Conflict,
        Refusal::Failure(_) => Reason::Invalid,
    }
}

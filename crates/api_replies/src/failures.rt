ghost use Rattle.std.specs.Prelude.{◌≡◌, IfOk};
ghost use Rattle.api_replies.specs.Answers as spec;

use crate::message::absent_text;
use crate::quoted::push_quoted;
use crate::reason::{Reason, status_of, unserved_reason, word_of};
use api_routes::Unserved;
use cluster::Target;
use http_wire::Reply;
use std::alloc::{AllocError, Global};

/// The JSON of a Status that is a failure (Status of the Kubernetes API reference).
fn failure_body(alloc: Global, reason: Reason, message: &[u8]) -> Result<Vec<u8>, AllocError>
    ensures { IfOk result (λ v. v.items ≡ spec.failure_body reason message.now) }
{
    let code = status_of(reason).as_u16();
    let head = format!(in alloc;
        "{{\"apiVersion\":\"v1\",\"code\":{code},\"kind\":\"Status\",\"message\":"
    )?;
    let mut body = head.into_bytes();
    push_quoted(&mut body, message)?;
    body.extend_from_slice(b",\"metadata\":{},\"reason\":")?;
    push_quoted(&mut body, word_of(reason).as_bytes())?;
    body.extend_from_slice(b",\"status\":\"Failure\"}")?;
    Ok(body)
}

/// The reply that a request failed for this reason.
pub fn failure(alloc: Global, reason: Reason, message: &[u8]) -> Result<Reply, AllocError>
    ensures { IfOk result (λ r. spec.answer_of r ≡ spec.failure reason message.now) }
{
    Ok(Reply {
        status: status_of(reason),
        json: true,
        body: failure_body(alloc, reason, message)?,
    })
}

/// The reply to a request that is refused before it is a command: its message is the word of the reason.
/// `AllocError` only if memory runs out.
pub fn refused(alloc: Global, why: Unserved) -> Result<Reply, AllocError>
    ensures { IfOk result (λ r. spec.answer_of r ≡ spec.refused why) }
{
    let reason = unserved_reason(why);
    failure(alloc, reason, word_of(reason).as_bytes())
}

/// The reply to a GET of an object that doesn't exist. `AllocError` only if memory runs out.
pub fn absent(alloc: Global, target: &Target) -> Result<Reply, AllocError>
    ensures { IfOk result (λ r. spec.answer_of r ≡ spec.absent target.now) }
{
    let message = absent_text(alloc, target)?;
    failure(alloc, Reason::NotFound, &message)
}

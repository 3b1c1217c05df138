ghost use Rattle.std.specs.Prelude.{◌≡◌, IfOk};
ghost use Rattle.api_replies.specs.Answers as spec;

use crate::quoted::push_quoted;
use http::StatusCode;
use http_wire::Reply;
use std::alloc::{AllocError, Global};

/// A reply of JSON.
pub fn json(status: StatusCode, body: Vec<u8>) -> Reply
    ensures { spec.answer_of result ≡ spec.json status body.items }
{
    Reply {
        status,
        json: true,
        body,
    }
}

/// The JSON of a Status that is a success (Status of the Kubernetes API reference).
#[tactic(auto, using(crate::proofs::Texts::success_is))]
fn success_body(alloc: Global) -> Result<Vec<u8>, AllocError>
    ensures { IfOk result (λ v. v.items ≡ spec.success_body) }
{
    let mut body = Vec::new(alloc);
    body.extend_from_slice(
        b"{\"apiVersion\":\"v1\",\"kind\":\"Status\",\"metadata\":{},\"status\":\"Success\"}",
    )?;
    Ok(body)
}

/// The reply to a DELETE that was done.
pub fn success(alloc: Global) -> Result<Reply, AllocError>
    ensures { IfOk result (λ r. spec.answer_of r ≡ spec.success) }
{
    Ok(json(StatusCode::OK, success_body(alloc)?))
}

/// The JSON of the outcome of a command on a pod, which is this project's own.
fn outcome_body(alloc: Global, line: &[u8]) -> Result<Vec<u8>, AllocError>
    ensures { IfOk result (λ v. v.items ≡ spec.outcome_body line.now) }
{
    let mut body = Vec::new(alloc);
    body.extend_from_slice(b"{\"apiVersion\":\"dra.replay/v1\",\"end\":")?;
    push_quoted(&mut body, line)?;
    body.extend_from_slice(b",\"kind\":\"Outcome\"}")?;
    Ok(body)
}

/// The reply to a command on a pod that has ended with this line.
pub fn outcome(alloc: Global, line: &[u8]) -> Result<Reply, AllocError>
    ensures { IfOk result (λ r. spec.answer_of r ≡ spec.outcome line.now) }
{
    Ok(json(StatusCode::OK, outcome_body(alloc, line)?))
}

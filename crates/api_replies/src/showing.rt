ghost use Rattle.std.specs.Prelude.{◌≡◌, IfOk};
ghost use Rattle.api_print.specs.Parts.{part_json};
ghost use Rattle.api_replies.specs.Answers as spec;

use crate::failures::absent;
use crate::outcomes::json;
use api_print::{Part, print_part};
use cluster::{Entry, Target};
use http::StatusCode;
use http_wire::Reply;
use journal_text::lines;
use std::alloc::{AllocError, Global};

/// The reply with the object of a part, or that the target doesn't exist if there is none.
pub fn object(
    alloc: Global,
    status: StatusCode,
    target: &Target,
    part: &Part,
) -> Result<Reply, AllocError>
    ensures { IfOk result (λ r. spec.answer_of r ≡ spec.object_by status target.now (part_json part.now)) }
{
    match print_part(alloc, part)? {
        Some(body) => Ok(json(status, body)),
        None => absent(alloc, target),
    }
}

/// The reply to a GET of an object, by the part of a state that has it (`api_print`, `part_of`). `AllocError` only if
/// memory runs out.
pub fn shown(alloc: Global, target: &Target, part: &Part) -> Result<Reply, AllocError>
    ensures { IfOk result (λ r. spec.answer_of r ≡ spec.object_by 200 target.now (part_json part.now)) }
{
    object(alloc, StatusCode::OK, target, part)
}

/// The reply to a GET of the journal: the lines of these entries. `AllocError` only if memory runs out.
pub fn journal(alloc: Global, entries: &[Entry]) -> Result<Reply, AllocError>
    ensures { IfOk result (λ r. spec.answer_of r ≡ spec.journal entries.now) }
{
    Ok(Reply {
        status: StatusCode::OK,
        json: false,
        body: lines(alloc, entries, 0)?,
    })
}

ghost use Rattle.std.specs.Prelude.{◌≡◌, true, option_map, IfOk};
ghost use Rattle.serde_json.specs.Data.{no_members, member, object, string};
ghost use Rattle.serde_json.specs.View.{members_view, view};
ghost use Rattle.api_print.specs.Shapes.{comes_before, member_if};

use serde_json::{Map, Value, put};
use std::alloc::{AllocError, Global};

/// The members of an object. They are put in from the last to the first.
pub type Members = Map<String, Value>;

/// No members. Allocates nothing.
pub fn none(alloc: Global) -> Members
    ensures { members_view result.entries ≡ no_members }
{
    Map::new(alloc)
}

/// The members with one before them, whose key is below all of theirs in the order of bytes.
/// `AllocError` only if memory runs out.
#[tactic(auto, using(crate::proofs::Order::put_first))]
pub fn before(
    mut members: Members,
    alloc: Global,
    key: &str,
    value: Value,
) -> Result<Members, AllocError>
    requires { comes_before key.now (members_view members.entries) ≡ true }
    ensures { IfOk result (λ m. members_view m.entries ≡ member key.now (view value) (members_view members.entries)) }
{
    put(&mut members, alloc, key, value)?;
    Ok(members)
}

/// The same with a text.
pub fn before_text(
    members: Members,
    alloc: Global,
    key: &str,
    text: &str,
) -> Result<Members, AllocError>
    requires { comes_before key.now (members_view members.entries) ≡ true }
    ensures { IfOk result (λ m. members_view m.entries ≡ member key.now (string text.now) (members_view members.entries)) }
{
    let value = Value::try_from_str(alloc, text)?;
    before(members, alloc, key, value)
}

/// The same with a member that may be missing.
pub fn before_if(
    members: Members,
    alloc: Global,
    key: &str,
    value: Option<Value>,
) -> Result<Members, AllocError>
    requires { comes_before key.now (members_view members.entries) ≡ true }
    ensures { IfOk result (λ m. members_view m.entries ≡ member_if key.now (option_map view value) (members_view members.entries)) }
{
    match value {
        Some(value) => before(members, alloc, key, value),
        None => Ok(members),
    }
}

/// The object of one member. `AllocError` only if memory runs out.
pub fn only(alloc: Global, key: &str, value: Value) -> Result<Value, AllocError>
    ensures { IfOk result (λ v. view v ≡ object (member key.now (view value) no_members)) }
{
    let members = before(none(alloc), alloc, key, value)?;
    Ok(Value::Object(members))
}

/// The object of one member that may be missing. `AllocError` only if memory runs out.
pub fn only_if(alloc: Global, key: &str, value: Option<Value>) -> Result<Value, AllocError>
    ensures { IfOk result (λ v. view v ≡ object (member_if key.now (option_map view value) no_members)) }
{
    let members = before_if(none(alloc), alloc, key, value)?;
    Ok(Value::Object(members))
}

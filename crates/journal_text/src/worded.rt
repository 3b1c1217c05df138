ghost use Rattle.std.specs.Prelude.{◌≡◌, ◌∷◌, ◌++◌, OnOk, IfSome, List, ℕ, option_copied, codes, decimal};
ghost use Rattle.std.specs.List.{flat_map, join_by};
ghost use Rattle.cluster.specs.PassedOver.{cause_or_unsat, passed_from};
ghost use Rattle.object_fields.specs.Keys.{device_text, key_text};
ghost use Rattle.journal_text.specs.Passing.{unsat_next};
ghost use Rattle.journal_text.specs.Journal.{admin_mark, cause_text, error_word, fault_text, grant_text, listed, passed_text, result_text, status_result_text, why_word};

use api_claim::StatusResult;
use cel_value::EvalError;
use cluster::{
    Cause, DeviceResult, Grant, NodeCause, PassedNodes, SelectorFault, later_causes, next_cause,
};
use dra_values::{Seq, Text};
use object_fields::{DeviceId, Key};
use std::alloc::AllocError;
use std::fmt::Display;
use std::io::Write;

/// The most bytes for which room is made at once.
const MOST_ROOM: usize = 65_536;

/// A part of a line.
pub trait Worded {
    ghost words: { Self → List ℕ };

    /// Writes it at the end of a line. `AllocError` is returned only if memory runs out, and then a
    /// part of it may be written.
    fn push_to(&self, out: &mut Vec<u8>) -> Result<(), AllocError>
        ensures { OnOk result (out.new.items ≡ out.old.items ++ words self.now) };
}

/// Writes a text.
pub fn push_text(out: &mut Vec<u8>, text: &str) -> Result<(), AllocError>
    ensures { OnOk result (out.new.items ≡ out.old.items ++ text.now) }
{
    out.extend_from_slice(text.as_bytes())
}

/// Writes a text, and then a part.
pub fn push_after<T: Worded>(out: &mut Vec<u8>, text: &str, part: &T) -> Result<(), AllocError>
    ensures { OnOk result (out.new.items ≡ out.old.items ++ (text.now ++ T.words part.now)) }
{
    push_text(out, text)?;
    part.push_to(out)
}

/// Writes a value as it is displayed.
pub fn push_shown<D: Display + Drop>(out: &mut Vec<u8>, value: D) -> Result<(), AllocError>
    ensures { OnOk result (IfSome (D.output value) (λ bs. out.new.items ≡ out.old.items ++ bs)) }
{
    match out.write_fmt(value) {
        Ok(()) => Ok(()),
        Err(_) => Err(AllocError),
    }
}

impl Worded for Text {
    ghost words = { λ t. t };

    fn push_to(&self, out: &mut Vec<u8>) -> Result<(), AllocError> {
        push_text(out, self.as_str())
    }
}

impl Worded for u64 {
    ghost words = { decimal };

    fn push_to(&self, out: &mut Vec<u8>) -> Result<(), AllocError> {
        push_shown(out, *self)
    }
}

impl Worded for usize {
    ghost words = { decimal };

    fn push_to(&self, out: &mut Vec<u8>) -> Result<(), AllocError> {
        push_shown(out, *self)
    }
}

/// As `namespace/name`, and the name alone if there is no namespace.
impl Worded for Key {
    ghost words = { key_text };

    fn push_to(&self, out: &mut Vec<u8>) -> Result<(), AllocError> {
        let namespace = self.namespace.as_str();
        if !namespace.is_empty() {
            push_text(out, namespace)?;
            push_text(out, "/")?;
        }
        push_text(out, self.name.as_str())
    }
}

/// As `driver/pool/device`.
impl Worded for DeviceId {
    ghost words = { device_text };

    fn push_to(&self, out: &mut Vec<u8>) -> Result<(), AllocError> {
        self.driver.push_to(out)?;
        push_after(out, "/", &self.pool)?;
        push_after(out, "/", &self.device)
    }
}

fn error_word(error: EvalError) -> &'static str
    ensures { result.now ≡ error_word error }
{
    match error {
        EvalError::NoKey => "NoKey",
        EvalError::NoOverload => "NoOverload",
        EvalError::Overflow => "Overflow",
        EvalError::DivByZero => "DivByZero",
        EvalError::OutOfRange => "OutOfRange",
        EvalError::BadConversion => "BadConversion",
        EvalError::Memory => "Memory",
    }
}

fn why_word(why: pool_view::Cause) -> &'static str
    ensures { result.now ≡ why_word why }
{
    match why {
        pool_view::Cause::Error(error) => error_word(error),
        pool_view::Cause::NotBool => "NotBool",
    }
}

/// As `fault:claim:request:i:device:error`.
impl Worded for SelectorFault {
    ghost words = { fault_text };

    fn push_to(&self, out: &mut Vec<u8>) -> Result<(), AllocError> {
        push_after(out, "fault:", &self.claim)?;
        push_after(out, ":", &self.request)?;
        push_after(out, ":", &self.selector)?;
        push_after(out, ":", &self.device)?;
        push_text(out, ":")?;
        push_text(out, why_word(self.cause))
    }
}

/// As `unsat`, `budget`, `other:claim`, or as the selector's evaluation error.
impl Worded for Cause {
    ghost words = { cause_text };

    fn push_to(&self, out: &mut Vec<u8>) -> Result<(), AllocError> {
        match self {
            Cause::Unsat => push_text(out, "unsat"),
            Cause::Fault(fault) => fault.push_to(out),
            Cause::Budget(_) => push_text(out, "budget"),
            Cause::Other(claim) => push_after(out, "other:", claim),
        }
    }
}

fn admin_mark(admin: bool) -> &'static str
    ensures { result.now ≡ admin_mark admin }
{
    if admin { "!" } else { "" }
}

/// As `name@driver/pool/device`, with `!` at the end for admin access.
impl Worded for DeviceResult {
    ghost words = { result_text };

    fn push_to(&self, out: &mut Vec<u8>) -> Result<(), AllocError> {
        self.name.push_to(out)?;
        push_after(out, "@", &self.device)?;
        push_text(out, admin_mark(self.admin))
    }
}

/// As `name@driver/pool/device`, with `!` at the end for admin access.
impl Worded for StatusResult {
    ghost words = { status_result_text };

    fn push_to(&self, out: &mut Vec<u8>) -> Result<(), AllocError> {
        self.request.push_to(out)?;
        push_after(out, "@", &self.device)?;
        push_text(out, admin_mark(self.admin))
    }
}

/// As the claim, `:` and its results, joined by `+`.
impl Worded for Grant {
    ghost words = { grant_text };

    fn push_to(&self, out: &mut Vec<u8>) -> Result<(), AllocError> {
        self.claim.push_to(out)?;
        push_text(out, ":")?;
        push_joined(out, "+", self.results.as_slice())
    }
}

/// Writes each item after a separator.
fn push_each<T: Worded>(out: &mut Vec<u8>, separator: &str, items: &[T]) -> Result<(), AllocError>
    ensures { OnOk result (out.new.items ≡ out.old.items ++ flat_map (λ x. separator.now ++ T.words x) items.now) }
{
    for item in items {
        push_after(out, separator, item)?;
    }
    Ok(())
}

/// Writes the items with a separator between each two.
pub fn push_joined<T: Worded>(
    out: &mut Vec<u8>,
    separator: &str,
    items: &[T],
) -> Result<(), AllocError>
    ensures { OnOk result (out.new.items ≡ out.old.items ++ join_by T.words separator.now items.now) }
{
    match items.split_first() {
        None => Ok(()),
        Some((first, rest)) => {
            first.push_to(out)?;
            push_each(out, separator, rest)
        }
    }
}

/// The items joined by `,`, and `-` if there are none.
impl<T: Worded> Worded for Seq<T> {
    ghost words = { listed T.words };

    fn push_to(&self, out: &mut Vec<u8>) -> Result<(), AllocError> {
        let items = self.as_slice();
        if items.is_empty() {
            return push_text(out, "-");
        }
        push_joined(out, ",", items)
    }
}

/// As `node:cause`, where no cause is Unsat.
fn push_node(out: &mut Vec<u8>, name: &Text, cause: Option<&Cause>) -> Result<(), AllocError>
    ensures { OnOk result (out.new.items ≡ out.old.items ++ passed_text (record { node = name.now; cause = cause_or_unsat (option_copied cause.entry) })) }
{
    name.push_to(out)?;
    match cause {
        None => push_text(out, ":unsat"),
        Some(cause) => push_after(out, ":", cause),
    }
}

/// Writes nodes, the first of which has the index 1, each after a comma.
fn push_nodes(out: &mut Vec<u8>, names: &[Text], causes: &[NodeCause]) -> Result<(), AllocError>
    ensures { OnOk result (out.new.items ≡ out.old.items ++ flat_map (λ x. codes "," ++ passed_text x) (passed_from 1 names.now causes.now)) }
{
    let mut left = causes;
    for at in 0..names.len() {
        push_text(out, ",")?;
        push_node(out, &names[at], next_cause(left, at + 1))?;
        left = later_causes(left, at + 1);
    }
    Ok(())
}

/// How many bytes to make room for, where so many nodes follow a name: about as many as they take, and not too many.
fn room_after(name: &Text, count: usize) -> usize {
    let each = name.as_str().len().saturating_add(7);
    count.saturating_mul(each).min(MOST_ROOM)
}

/// Writes names, each after the cause of the node before it, which has no allocation.
fn push_unsat(out: &mut Vec<u8>, names: &[Text]) -> Result<(), AllocError>
    ensures { OnOk result (out.new.items ++ codes ":unsat" ≡ out.old.items ++ codes ":unsat" ++ flat_map unsat_next names.now) }
{
    for name in names {
        push_text(out, ":unsat,")?;
        push_text(out, name.as_str())?;
    }
    Ok(())
}

/// Writes nodes without an allocation, of which this is the first.
fn push_all_unsat(out: &mut Vec<u8>, first: &Text, rest: &[Text]) -> Result<(), AllocError>
    ensures { OnOk result (out.new.items ≡ out.old.items ++ (first.now ++ codes ":unsat" ++ flat_map unsat_next rest.now)) }
{
    out.reserve(room_after(first, rest.len()))?;
    push_text(out, first.as_str())?;
    push_unsat(out, rest)?;
    push_text(out, ":unsat")
}

/// Writes nodes, of which this is the first.
fn push_some(
    out: &mut Vec<u8>,
    first: &Text,
    rest: &[Text],
    causes: &[NodeCause],
) -> Result<(), AllocError>
    ensures { OnOk result (out.new.items ≡ out.old.items ++ join_by passed_text (codes ",") (passed_from 0 (first.now ∷ rest.now) causes.now)) }
{
    if causes.is_empty() {
        push_all_unsat(out, first, rest)
    } else {
        push_node(out, first, next_cause(causes, 0))?;
        push_nodes(out, rest, later_causes(causes, 0))
    }
}

/// The nodes joined by `,`, and `-` if there are none.
impl Worded for PassedNodes {
    ghost words = { listed passed_text };

    fn push_to(&self, out: &mut Vec<u8>) -> Result<(), AllocError> {
        match self.names().split_first() {
            None => push_text(out, "-"),
            Some((first, rest)) => push_some(out, first, rest, self.causes()),
        }
    }
}

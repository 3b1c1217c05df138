use crate::cel::push_bar;
use crate::input::{CaseError, item, items, json, text};
use crate::lexis::{parts_of, push_fault};
use crate::shown::{Out, done, put};
use crate::{cel, lexis, messages, parts, trees};
use api_slice::{DriverName, Properties, ResourceSlice};
use cel_check::CheckError;
use cel_cost::estimate;
use cel_eval::{DeviceEnv, EvalError, Single, Steps, Value, eval};
use cel_parse::ParseError;
use cel_tree::{CelType, Span};
use device_match::{device_env, match_both};
use device_selector::{CompileError, Compiled, DeviceSelector};
use dra_values::Text;
use pool_view::{Cause, Match, Verdict};
use serde_json::Value as Json;
use std::alloc::{AllocError, Global};

/// Appends the line of a case of the selector language.
pub fn of_selectors(
    alloc: Global,
    out: &mut Out,
    devices: &[DeviceEnv],
    group: &str,
    word: &str,
    input: &Json,
) -> Result<(), CaseError> {
    match group {
        "selector" => answer(alloc, out, devices, word, input),
        "cel" => of_operation(alloc, out, devices, word, input),
        "token" => lexis::answer(alloc, out, word, input),
        "tree" => trees::answer(alloc, out, word, input),
        "part" => parts::answer(alloc, out, word, input),
        _ => messages::answer(alloc, out, word),
    }
}

/// An operation of the selector language, on the first of the devices.
fn of_operation(
    alloc: Global,
    out: &mut Out,
    devices: &[DeviceEnv],
    word: &str,
    input: &Json,
) -> Result<(), CaseError> {
    match devices.first() {
        Some(device) => cel::answer(alloc, out, device, word, input),
        None => Err(CaseError::BadCase),
    }
}

fn answer(
    alloc: Global,
    out: &mut Out,
    devices: &[DeviceEnv],
    word: &str,
    input: &Json,
) -> Result<(), CaseError> {
    match word {
        "match" => matches(alloc, out, devices, input),
        "verdict" => verdicts(alloc, out, devices, input),
        _ => of_text(alloc, out, devices, word, input),
    }
}

fn of_text(
    alloc: Global,
    out: &mut Out,
    devices: &[DeviceEnv],
    word: &str,
    input: &Json,
) -> Result<(), CaseError> {
    match Compiled::compile(alloc, text(input)?) {
        Ok(selector) => of_compiled(alloc, out, devices, word, &selector),
        Err(error) => {
            refused(out, word, error);
            Ok(())
        }
    }
}

/// What there is of a selector: its estimate, its type, or for each device the value or the error, and the
/// steps counted.
fn of_compiled(
    alloc: Global,
    out: &mut Out,
    devices: &[DeviceEnv],
    word: &str,
    selector: &Compiled,
) -> Result<(), CaseError> {
    match word {
        "run" => done(push_whole_run(alloc, out, devices, selector)),
        "steps" => done(push_runs(alloc, out, devices, selector)),
        _ => of_tree(out, word, selector),
    }
}

fn of_tree(out: &mut Out, word: &str, selector: &Compiled) -> Result<(), CaseError> {
    match word {
        "estimate" => out.show(&estimate(selector.tree())),
        "place" | "message" => out.show(&selector.tree().kind()),
        _ => return Err(CaseError::BadCase),
    }
    Ok(())
}

/// Why a text is no selector: a message, or the stage that refused it and the name of its error, after which
/// comes its span if the case is about places.
fn refused(out: &mut Out, word: &str, error: CompileError) {
    match word {
        "message" => out.show(&error),
        _ => push_refusal(out, error, word == "place"),
    }
}

// ---- devices

/// Sets the devices, which are all devices of slices, as selectors see them. Appends how many there are.
pub fn set_devices(
    alloc: Global,
    out: &mut Out,
    devices: &mut Vec<DeviceEnv>,
    input: &str,
) -> Result<(), CaseError> {
    let value = json(alloc, input)?;
    *devices = read_devices(alloc, items(&value)?)?;
    out.show(&devices.len());
    Ok(())
}

fn read_devices(alloc: Global, documents: &[Json]) -> Result<Vec<DeviceEnv>, CaseError> {
    let mut devices = Vec::new(alloc);
    for document in documents {
        push_devices(alloc, &mut devices, document)?;
    }
    Ok(devices)
}

fn push_devices(
    alloc: Global,
    devices: &mut Vec<DeviceEnv>,
    document: &Json,
) -> Result<(), CaseError> {
    match ResourceSlice::read(alloc, document) {
        Ok(slice) => done(push_each(alloc, devices, &slice)),
        Err(_) => Err(CaseError::BadCase),
    }
}

fn push_each(
    alloc: Global,
    devices: &mut Vec<DeviceEnv>,
    slice: &ResourceSlice,
) -> Result<(), AllocError> {
    for device in slice.devices.as_slice() {
        push_device(alloc, devices, &slice.driver, &device.properties)?;
    }
    Ok(())
}

fn push_device(
    alloc: Global,
    devices: &mut Vec<DeviceEnv>,
    driver: &DriverName,
    properties: &Properties,
) -> Result<(), AllocError> {
    devices.push(device_env(alloc, driver, properties)?)?;
    Ok(())
}

// ---- refusals

/// Appends the name of the error, with its span if `places` is set.
pub fn push_parse_error(out: &mut Out, error: ParseError, places: bool) {
    match error {
        ParseError::Lex(error) if places => push_fault(out, error),
        ParseError::Lex(error) => out.say(parts_of(error).0),
        ParseError::Unexpected(span) => push_at(out, "Unexpected", span, places),
        ParseError::NotSupported(span) => push_at(out, "NotSupported", span, places),
        ParseError::Deep => out.say("Deep"),
        ParseError::Long => out.say("Long"),
        ParseError::Memory => out.say("Memory"),
    }
}

fn push_check_error(out: &mut Out, error: CheckError, places: bool) {
    match error {
        CheckError::NoSuchName(span) => push_at(out, "NoSuchName", span, places),
        CheckError::NoOverload(span) => push_at(out, "NoOverload", span, places),
        CheckError::NotSupported(span) => push_at(out, "NotSupported", span, places),
        CheckError::NotBool(kind) => push_kind(out, kind, places),
        CheckError::Memory => out.say("Memory"),
    }
}

fn push_kind(out: &mut Out, kind: CelType, places: bool) {
    out.say("NotBool");
    if places {
        out.show_after(" ", &kind);
    }
}

fn push_at(out: &mut Out, word: &str, span: Span, places: bool) {
    out.say(word);
    if places {
        out.show_after(" ", &span.start);
        out.show_after(" ", &span.end);
    }
}

/// Appends the stage that refused a text, and the name of its error.
fn push_refusal(out: &mut Out, error: CompileError, places: bool) {
    match error {
        CompileError::Parse(error) => {
            out.say("Parse ");
            push_parse_error(out, error, places);
        }
        CompileError::Check(error) => {
            out.say("Check ");
            push_check_error(out, error, places);
        }
        CompileError::CostTooHigh(steps) => {
            out.show_after("Cost CostTooHigh(", &steps);
            out.say(")");
        }
        CompileError::Memory => out.say("Memory"),
    }
}

// ---- evaluation

/// Appends the estimate, and for each device the value or the error, and the steps counted.
fn push_whole_run(
    alloc: Global,
    out: &mut Out,
    devices: &[DeviceEnv],
    selector: &Compiled,
) -> Result<(), AllocError> {
    out.show_after("ok ", &estimate(selector.tree()));
    push_runs(alloc, out, devices, selector)
}

fn push_runs(
    alloc: Global,
    out: &mut Out,
    devices: &[DeviceEnv],
    selector: &Compiled,
) -> Result<(), AllocError> {
    for device in devices {
        push_bar(out);
        push_run(alloc, out, device, selector)?;
    }
    Ok(())
}

fn push_run(
    alloc: Global,
    out: &mut Out,
    device: &DeviceEnv,
    selector: &Compiled,
) -> Result<(), AllocError> {
    let mut steps = Steps { count: 0 };
    let answer = eval(alloc, device, selector.tree(), &mut steps);
    push_outcome(out, &answer)?;
    out.show_after(" ", &steps.count);
    Ok(())
}

/// Appends the word for what a selector returns.
fn push_outcome(out: &mut Out, answer: &Result<Value, EvalError>) -> Result<(), AllocError> {
    match answer {
        Ok(Value::Single(Single::Bool(truth))) => out.show(truth),
        Ok(_) => out.say("NotBool"),
        Err(error) => return push_eval_error(out, *error),
    }
    Ok(())
}

/// Appends the name of the error, unless memory ran out.
fn push_eval_error(out: &mut Out, error: EvalError) -> Result<(), AllocError> {
    match error {
        EvalError::Memory => Err(AllocError),
        error => {
            out.debug(&error);
            Ok(())
        }
    }
}

// ---- what selectors evaluate to on a device

fn compiled_of(alloc: Global, text: &str) -> Result<DeviceSelector, CompileError> {
    match Text::from_str(alloc, text) {
        Ok(text) => DeviceSelector::compile(alloc, &text),
        Err(AllocError) => Err(CompileError::Memory),
    }
}

/// Appends what a selector evaluates to on each device.
fn verdicts(
    alloc: Global,
    out: &mut Out,
    devices: &[DeviceEnv],
    input: &Json,
) -> Result<(), CaseError> {
    match compiled_of(alloc, text(input)?) {
        Ok(selector) => done(push_verdicts(alloc, out, devices, &selector)),
        Err(error) => {
            push_refusal(out, error, true);
            Ok(())
        }
    }
}

fn push_verdicts(
    alloc: Global,
    out: &mut Out,
    devices: &[DeviceEnv],
    selector: &DeviceSelector,
) -> Result<(), AllocError> {
    for device in devices {
        push_comma(out);
        push_verdict(out, device_match::matches(alloc, selector, device)?)?;
    }
    Ok(())
}

fn push_verdict(out: &mut Out, verdict: Verdict) -> Result<(), AllocError> {
    match verdict {
        Verdict::Yes => out.say("yes"),
        Verdict::No => out.say("no"),
        Verdict::Fault(cause) => return push_cause(out, cause),
    }
    Ok(())
}

fn push_comma(out: &mut Out) {
    if !out.is_empty() {
        out.say(", ");
    }
}

fn push_cause(out: &mut Out, cause: Cause) -> Result<(), AllocError> {
    match cause {
        Cause::Error(error) => return push_eval_error(out, error),
        Cause::NotBool => out.say("NotBool"),
    }
    Ok(())
}

/// The selectors that the texts of a list are.
fn compiled(alloc: Global, texts: &Json) -> Result<Vec<DeviceSelector>, CaseError> {
    let mut selectors = Vec::new(alloc);
    for source in items(texts)? {
        push_compiled(alloc, &mut selectors, source)?;
    }
    Ok(selectors)
}

fn push_compiled(
    alloc: Global,
    selectors: &mut Vec<DeviceSelector>,
    source: &Json,
) -> Result<(), CaseError> {
    match compiled_of(alloc, text(source)?) {
        Ok(selector) => put(selectors, selector),
        Err(_) => Err(CaseError::BadCase),
    }
}

/// Appends what a class's selectors and then a request's evaluate to on each device.
fn matches(
    alloc: Global,
    out: &mut Out,
    devices: &[DeviceEnv],
    lists: &Json,
) -> Result<(), CaseError> {
    let (class, own) = (item(lists, 0)?, item(lists, 1)?);
    let class = compiled(alloc, class)?;
    let own = compiled(alloc, own)?;
    done(push_matches(alloc, out, devices, &class, &own))
}

fn push_matches(
    alloc: Global,
    out: &mut Out,
    devices: &[DeviceEnv],
    class: &[DeviceSelector],
    own: &[DeviceSelector],
) -> Result<(), AllocError> {
    for device in devices {
        push_comma(out);
        push_match(out, match_both(alloc, class, own, device)?)?;
    }
    Ok(())
}

fn push_match(out: &mut Out, found: Match) -> Result<(), AllocError> {
    match found {
        Match::Yes => out.say("yes"),
        Match::No => out.say("no"),
        Match::Fault { place, cause } => {
            out.show_after("fault ", &place);
            out.say(" ");
            return push_cause(out, cause);
        }
    }
    Ok(())
}

use crate::input::CaseError;
use crate::shown::{Copied, Out, read};
use api_claim::{
    AllocationMode, ClaimStatus, DeviceAsk, DeviceConstraint, DeviceRequest, DeviceSubRequest,
    RequestKind, ResourceClaim,
};
use object_fields::FieldError;
use ready_objects::ReadyClaim;
use serde_json::Value;
use std::alloc::{AllocError, Global};

/// Appends a claim that is made ready, with the numbers of the selectors of each way to satisfy each request,
/// or its error.
pub fn ready(alloc: Global, out: &mut Out, value: &Value) -> Result<(), CaseError> {
    let ready = read(alloc, out, read_ready(alloc, value))?;
    push_ready(out, &ready);
    Ok(())
}

/// The claim of a document, made ready.
pub fn read_ready(alloc: Global, value: &Value) -> Result<ReadyClaim, FieldError> {
    ReadyClaim::of(alloc, ResourceClaim::read(alloc, value)?)
}

fn push_ready(out: &mut Out, ready: &ReadyClaim) {
    out.show(&ready.claim().key);
    for ways in ready.selectors() {
        out.say(" of");
        for selectors in ways.as_slice() {
            out.show_after(" ", &selectors.as_slice().len());
        }
    }
}

fn push_ask(out: &mut Out, ask: &DeviceAsk) {
    out.show(&ask.class);
    for selector in ask.selectors.as_slice() {
        out.show_after("?", selector);
    }
    out.say("*");
    match &ask.mode {
        AllocationMode::ExactCount(count) => out.show(count),
        AllocationMode::All => {}
    }
}

/// ` name:` and what is asked for, `!` with admin access; subrequests in parentheses.
fn push_request(out: &mut Out, request: &DeviceRequest) {
    out.show_after(" ", &request.name);
    out.say(":");
    match &request.kind {
        RequestKind::Exactly(exactly) => {
            push_ask(out, &exactly.ask);
            push_admin(out, exactly.admin);
        }
        RequestKind::FirstAvailable(subrequests) => {
            push_subrequests(out, subrequests.as_slice());
        }
    }
}

fn push_subrequests(out: &mut Out, subrequests: &[DeviceSubRequest]) {
    for subrequest in subrequests {
        out.show_after("(", &subrequest.name);
        out.say(":");
        push_ask(out, &subrequest.ask);
        out.say(")");
    }
}

fn push_admin(out: &mut Out, admin: bool) {
    if admin {
        out.say("!");
    }
}

/// ` =domain/id`, and the requests that it is about.
fn push_constraint(out: &mut Out, constraint: &DeviceConstraint) {
    out.show_after(" =", &constraint.attribute.domain);
    out.show_after("/", &constraint.attribute.id);
    for request in constraint.requests.as_slice() {
        out.show_after(",", request);
    }
}

fn push_version(out: &mut Out, version: Option<u64>) {
    match version {
        Some(version) => {
            out.show_after(" ", &version);
        }
        None => {}
    }
}

impl Copied for ResourceClaim {
    fn again(&self, alloc: Global) -> Result<ResourceClaim, AllocError> {
        self.copy(alloc)
    }

    fn show(&self, out: &mut Out) {
        out.show(&self.key);
        push_version(out, self.version);
        for request in self.requests.as_slice() {
            push_request(out, request);
        }
        for constraint in self.constraints.as_slice() {
            push_constraint(out, constraint);
        }
    }
}

impl Copied for ClaimStatus {
    fn again(&self, alloc: Global) -> Result<ClaimStatus, AllocError> {
        self.copy(alloc)
    }

    fn show(&self, out: &mut Out) {
        out.show(&self.node);
        push_version(out, self.version);
        for found in self.results.as_slice() {
            out.show_after(" ", &found.request);
            out.show_after("@", &found.device);
            push_admin(out, found.admin);
        }
    }
}

use crate::input::{CaseError, both, cut_at, done, number};
use crate::spelling::{grant, key, known_claim};
use cluster::{Known, PassedNodes, Plan};
use dra_values::{Seq, Shared, Text};
use object_fields::Key;
use std::alloc::{AllocError, Global};

/// A pod, and a plan for it.
#[derive(Drop)]
pub struct Planned {
    pub pod: Key,
    pub plan: Shared<Plan>,
}

/// A plan for a pod of that uid and node, which has nothing else yet.
fn begun(alloc: Global, pod: u64, node: &str) -> Result<Plan, AllocError> {
    let node = Text::from_str(alloc, node);
    let (node, passed) = both(node, PassedNodes::none(alloc))?;
    Ok(Plan {
        at: 0,
        node,
        passed,
        grants: Seq::empty(alloc),
        joins: Seq::empty(alloc),
        known: Known {
            pod,
            claims: Seq::empty(alloc),
        },
    })
}

/// Appends what was read to a list.
fn add<T: Drop>(list: &mut Seq<T>, read: Result<T, CaseError>) -> Result<(), CaseError> {
    done(list.push(read?))
}

/// Adds to a plan what a part such as `knew=default/c:5` says.
fn add_part(alloc: Global, plan: &mut Plan, part: &str) -> Result<(), CaseError> {
    let (name, text) = cut_at(part, '=');
    match name {
        "knew" => add(&mut plan.known.claims, known_claim(alloc, text)),
        "grant" => add(&mut plan.grants, done(grant(alloc, text))),
        "join" => add(&mut plan.joins, done(key(alloc, text))),
        _ => Err(CaseError::BadCase),
    }
}

/// Adds to a plan what parts with a space between two say.
fn add_parts(alloc: Global, plan: &mut Plan, parts: &str) -> Result<(), CaseError> {
    for part in parts.split(' ') {
        if !part.is_empty() {
            add_part(alloc, plan, part)?;
        }
    }
    Ok(())
}

/// The plan of a node and parts, for a pod of that uid.
fn plan_of(alloc: Global, pod: u64, text: &str) -> Result<Shared<Plan>, CaseError> {
    let (node, parts) = cut_at(text, ' ');
    let mut plan = begun(alloc, pod, node)?;
    match add_parts(alloc, &mut plan, parts) {
        Ok(()) => done(Shared::new(alloc, plan)),
        Err(error) => {
            drop(plan);
            Err(error)
        }
    }
}

/// A plan such as `default/p:6 n1 knew=default/c:5 grant=default/c:gpu@gpu.example.com/n1/gpu-0`.
pub fn read_plan(alloc: Global, text: &str) -> Result<Planned, CaseError> {
    let (first, rest) = cut_at(text, ' ');
    let (pod, uid) = cut_at(first, ':');
    let plan = plan_of(alloc, number(uid)?, rest);
    let (pod, plan) = both(done(key(alloc, pod)), plan)?;
    Ok(Planned { pod, plan })
}

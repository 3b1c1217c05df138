use api_claim::ClaimStatus;
use cluster::{Failure, Plan, State};
use counter_sets::{Held, SharedTotals};
use engine_ports::{Decision, Engine};
use node_memo::{Dates, Memo};
use object_fields::Key;
use std::alloc::{AllocError, Global};

/// The search over the nodes, one after another, and the check of each rule in order. It holds nothing.
#[derive(Drop)]
pub struct DefaultEngine;

impl Engine for DefaultEngine {
    fn decide(
        alloc: Global,
        state: &State,
        holders: &Held,
        totals: &SharedTotals,
        pod: &Key,
        at: u64,
        budget: u64,
    ) -> Result<Decision, AllocError> {
        pod_decision::decide(alloc, state, holders, totals, pod, at, budget)
    }

    fn decide_with(
        alloc: Global,
        state: &State,
        holders: &Held,
        totals: &SharedTotals,
        pod: &Key,
        at: u64,
        budget: u64,
        dates: &Dates,
        memo: &mut Memo,
    ) -> Result<Decision, AllocError> {
        pod_decision::decide_with(alloc, state, holders, totals, pod, at, budget, dates, memo)
    }

    /// Looks at the plan only if entries came since it was made.
    fn check_again(
        alloc: Global,
        state: &State,
        holders: &Held,
        totals: &SharedTotals,
        pod: &Key,
        plan: &Plan,
        at: u64,
    ) -> Result<Option<Failure>, AllocError> {
        if plan.at == at {
            return Ok(None);
        }
        alloc_rules::check(alloc, state, holders, totals, pod, plan)
    }

    fn check_status(
        alloc: Global,
        state: &State,
        holders: &Held,
        totals: &SharedTotals,
        claim: &Key,
        status: &ClaimStatus,
    ) -> Result<Option<Failure>, AllocError> {
        alloc_rules::check_status(alloc, state, holders, totals, claim, status)
    }
}

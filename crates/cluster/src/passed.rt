ghost use Rattle.std.specs.Prelude.{◌≡◌, ◌<◌, [], length, IfOk, IfSome, OnOk, OnErr, slice_get, option_copied};
ghost use Rattle.std.specs.List.{list_any};
ghost use Rattle.cluster.specs.PassedOver.{later_causes, names_of, next_cause, none_passed, one_more, passed_from, with_cause};
ghost use Rattle.cluster.specs.VerdictGiven.{has_budget, has_fault, is_budget, is_fault};

use crate::plan::Cause;
use dra_values::{Duplicate, Seq, Shared, Text};
use std::alloc::{AllocError, Global};
use std::marker::Model;

/// A cause other than Unsat, of the node at an index.
#[derive(Drop)]
pub struct NodeCause {
    pub index: usize,
    pub cause: Cause,
}

impl Duplicate for NodeCause {
    fn duplicate(&self, alloc: Global) -> Result<NodeCause, AllocError> {
        Ok(NodeCause {
            index: self.index,
            cause: self.cause.copy(alloc)?,
        })
    }
}

/// The nodes that weren't taken, which contracts see as a list of `Passed`.
///
/// Most nodes have no allocation, and their names are the first of a list that others have too. So the
/// names are shared, and only the other causes are kept.
#[derive(Drop)]
pub struct PassedNodes {
    /// The nodes' names, and maybe more.
    names: Shared<Seq<Text>>,
    /// How many nodes.
    count: usize,
    /// In increasing order of their indexes.
    causes: Seq<NodeCause>,
}

impl Model for PassedNodes {
    ghost use Rattle.std.specs.Prelude.{List, take};
    ghost use Rattle.cluster.specs.declared.plan.Passed.{Passed};
    ghost use Rattle.cluster.specs.PassedOver.{ArePassed, passed_from};

    ghost Value = { List Passed };

    ghost view = { λ p. passed_from 0 (take p.count p.names) p.causes };

    ghost invariant = { λ p. ArePassed p.names p.count p.causes };
}

/// The first nodes of a list of names, with their causes, while it is being made.
#[derive(Drop)]
pub struct PassedBuilder {
    names: Shared<Seq<Text>>,
    count: usize,
    causes: Seq<NodeCause>,
}

impl Model for PassedBuilder {
    ghost use Rattle.std.specs.Prelude.{take};
    ghost use Rattle.cluster.specs.PassedOver.{ArePassed, PassedFields, passed_from};

    ghost Value = { PassedFields };

    ghost view = { λ p. record { names = p.names; nodes = passed_from 0 (take p.count p.names) p.causes } };

    ghost invariant = { λ p. ArePassed p.names p.count p.causes };
}

impl PassedBuilder {
    /// No node yet of these names. Allocates nothing.
    pub fn new(alloc: Global, names: Shared<Seq<Text>>) -> PassedBuilder
        ensures { result ≡ none_passed names }
    {
        PassedBuilder {
            names,
            count: 0,
            causes: Seq::empty(alloc),
        }
    }

    /// Puts the node of the next name at the end. Allocates nothing if the cause is Unsat.
    /// `AllocError` is returned only if memory runs out, and then nothing changed.
    pub fn push(&mut self, cause: Cause) -> Result<(), AllocError>
        requires { length self.old.nodes < length self.old.names }
        ensures ok { OnOk result (IfSome (slice_get self.old.names (length self.old.nodes)) (λ name. self.new ≡ one_more self.old name cause)) }
        ensures err { OnErr result (self.new ≡ self.old) }
    {
        let _most = self.names.as_slice().len();
        push_cause(&mut self.causes, self.count, cause)?;
        self.count += 1;
        Ok(())
    }

    /// The nodes. Allocates nothing.
    pub fn finish(self) -> PassedNodes
        ensures { result ≡ self.nodes }
    {
        PassedNodes {
            names: self.names,
            count: self.count,
            causes: self.causes,
        }
    }
}

/// Puts the cause of the node at an index at the end, unless it is Unsat.
fn push_cause(causes: &mut Seq<NodeCause>, index: usize, cause: Cause) -> Result<(), AllocError>
    ensures ok { OnOk result (causes.new ≡ with_cause causes.old index cause) }
    ensures err { OnErr result (causes.new ≡ causes.old) }
{
    match cause {
        Cause::Unsat => Ok(()),
        Cause::Fault(fault) => causes.push(NodeCause {
            index,
            cause: Cause::Fault(fault),
        }),
        Cause::Budget(steps) => causes.push(NodeCause {
            index,
            cause: Cause::Budget(steps),
        }),
        Cause::Other(claim) => causes.push(NodeCause {
            index,
            cause: Cause::Other(claim),
        }),
    }
}

impl PassedNodes {
    /// No node. `AllocError` is returned only if memory runs out.
    pub fn none(alloc: Global) -> Result<PassedNodes, AllocError>
        ensures { IfOk result (λ none. none ≡ []) }
    {
        let names = Shared::new(alloc, Seq::empty(alloc))?;
        Ok(PassedBuilder::new(alloc, names).finish())
    }

    /// Equal nodes, which share the names. `AllocError` is returned only if memory runs out.
    pub fn copy(&self, alloc: Global) -> Result<PassedNodes, AllocError>
        ensures { IfOk result (λ copy. copy ≡ self.now) }
    {
        Ok(PassedNodes {
            names: self.names.share()?,
            count: self.count,
            causes: self.causes.copy(alloc)?,
        })
    }

    /// How many nodes.
    pub fn len(&self) -> usize
        ensures { result ≡ length self.now }
    {
        self.count
    }

    /// The names of the nodes.
    pub fn names(&self) -> &[Text]
        ensures { result.now ≡ names_of self.now }
    {
        &self.names.as_slice()[..self.count]
    }

    /// The causes other than Unsat, in increasing order of the nodes' indexes.
    pub fn causes(&self) -> &[NodeCause]
        ensures { passed_from 0 (names_of self.now) result.now ≡ self.now }
    {
        self.causes.as_slice()
    }

    /// Whether a selector has an evaluation error on one of the nodes.
    pub fn has_fault(&self) -> bool
        ensures { result ≡ has_fault self.now }
    {
        is_fault_among(self.causes.as_slice())
    }

    /// Whether the search of one of the nodes ended with its budget.
    pub fn has_budget(&self) -> bool
        ensures { result ≡ has_budget self.now }
    {
        is_budget_among(self.causes.as_slice())
    }
}

/// The cause of the node at an index, if it is that of the first of these; `None` is Unsat.
pub fn next_cause(causes: &[NodeCause], index: usize) -> Option<&Cause>
    ensures { option_copied result ≡ next_cause causes.now index }
{
    match causes.first() {
        Some(first) if first.index == index => Some(&first.cause),
        _ => None,
    }
}

/// The causes of the nodes after an index, of those from it on.
pub fn later_causes(causes: &[NodeCause], index: usize) -> &[NodeCause]
    ensures { result.now ≡ later_causes causes.now index }
{
    match causes.split_first() {
        Some((first, rest)) if first.index == index => rest,
        _ => causes,
    }
}

fn is_fault_among(causes: &[NodeCause]) -> bool
    ensures { result ≡ list_any (λ c. is_fault c.cause) causes.now }
{
    let mut causes = causes.iter();
    causes.any(|of| is_fault(&of.cause))
}

fn is_budget_among(causes: &[NodeCause]) -> bool
    ensures { result ≡ list_any (λ c. is_budget c.cause) causes.now }
{
    let mut causes = causes.iter();
    causes.any(|of| is_budget(&of.cause))
}

fn is_fault(cause: &Cause) -> bool
    ensures { result ≡ is_fault cause.now }
{
    match cause {
        Cause::Unsat | Cause::Budget(_) | Cause::Other(_) => false,
        Cause::Fault(_) => true,
    }
}

fn is_budget(cause: &Cause) -> bool
    ensures { result ≡ is_budget cause.now }
{
    match cause {
        Cause::Unsat | Cause::Fault(_) | Cause::Other(_) => false,
        Cause::Budget(_) => true,
    }
}

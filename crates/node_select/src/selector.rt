ghost use Rattle.std.specs.Prelude.{◌≡◌, IfOk};
ghost use Rattle.std.specs.List.{list_all};
ghost use Rattle.node_select.specs.Terms.{expression_holds, field_holds, term_holds};

use crate::requirement::Requirement;
use dra_values::{Duplicate, Seq, Table, Text};
use std::alloc::{AllocError, Global};

/// A node selector of one term (NodeSelectorTerm of the Kubernetes API reference): requirements on a
/// node's labels and on its fields.
#[derive(Drop)]
pub struct Selector {
    pub expressions: Seq<Requirement>,
    pub fields: Seq<Requirement>,
}

impl Selector {
    /// Whether it selects the node of that name and labels: all requirements hold, and there is at
    /// least one. The one field of a node is `metadata.name`. Allocates nothing.
    pub fn matches(&self, name: &str, labels: &Table<Text, Text>) -> bool
        ensures { result ≡ term_holds self.now name.now labels.now }
    {
        let expressions = self.expressions.as_slice();
        let fields = self.fields.as_slice();
        if expressions.is_empty() && fields.is_empty() {
            return false;
        }
        expressions_hold(expressions, labels) && fields_hold(fields, name)
    }

    /// An equal selector.
    pub fn copy(&self, alloc: Global) -> Result<Selector, AllocError>
        ensures { IfOk result (λ s. s ≡ self.now) }
    {
        Ok(Selector {
            expressions: self.expressions.copy(alloc)?,
            fields: self.fields.copy(alloc)?,
        })
    }
}

impl Duplicate for Selector {
    fn duplicate(&self, alloc: Global) -> Result<Selector, AllocError> {
        self.copy(alloc)
    }
}

fn expressions_hold(requirements: &[Requirement], labels: &Table<Text, Text>) -> bool
    ensures { result ≡ list_all (expression_holds labels.now) requirements.now }
{
    for requirement in requirements {
        if !expression_met(requirement, labels) {
            return false;
        }
    }
    true
}

fn expression_met(requirement: &Requirement, labels: &Table<Text, Text>) -> bool
    ensures { result ≡ expression_holds labels.now requirement.now }
{
    match labels.get(&requirement.key) {
        Some(value) => requirement.test.holds(Some(value.as_str())),
        None => requirement.test.holds(None),
    }
}

fn fields_hold(requirements: &[Requirement], name: &str) -> bool
    ensures { result ≡ list_all (field_holds name.now) requirements.now }
{
    for requirement in requirements {
        if !field_met(requirement, name) {
            return false;
        }
    }
    true
}

fn field_met(requirement: &Requirement, name: &str) -> bool
    ensures { result ≡ field_holds name.now requirement.now }
{
    if requirement.key.as_str() == "metadata.name" {
        requirement.test.holds(Some(name))
    } else {
        requirement.test.holds(None)
    }
}

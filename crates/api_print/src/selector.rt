ghost use Rattle.std.specs.Prelude.{◌≡◌, option_map, IfOk, ℤ, ℕ, List, [], ◌∷◌};
ghost use Rattle.std.specs.Fmt.{signed_decimal};
ghost use Rattle.serde_json.specs.Data.{Data, string};
ghost use Rattle.serde_json.specs.View.{view};
ghost use Rattle.api_print.specs.Selectors.{all_nodes_if, node_name_if, node_selector_if, node_selector_json, operator_text, requirement_json, term_json, values_if};
ghost use Rattle.api_print.specs.Shapes.{list_json};

use crate::fields::{before_if, before_text, none, only};
use crate::listing::{Printed, list, some_list};
use api_slice::Nodes;
use node_select::{Requirement, Selector, Test};
use serde_json::Value;
use std::alloc::{AllocError, Global};

fn operator_text(test: &Test) -> &'static str
    ensures { result.now ≡ operator_text test.now }
{
    match test {
        Test::OneOf(_) => "In",
        Test::NoneOf(_) => "NotIn",
        Test::Present => "Exists",
        Test::Absent => "DoesNotExist",
        Test::Above(_) => "Gt",
        Test::Below(_) => "Lt",
    }
}

/// A list of one value. `AllocError` only if memory runs out.
pub fn list_of_one(alloc: Global, value: Value) -> Result<Value, AllocError>
    ensures { IfOk result (λ v. view v ≡ list_json (λ (d : Data). d) (view value ∷ [])) }
{
    let mut list = Vec::new(alloc);
    list.push(value)?;
    Ok(Value::Array(list))
}

/// A list of one number in decimal digits.
fn number_list(alloc: Global, number: i64) -> Result<Value, AllocError>
    ensures { IfOk result (λ v. view v ≡ list_json string (signed_decimal number ∷ [])) }
{
    let text = format!(in alloc; "{number}")?;
    list_of_one(alloc, Value::String(text))
}

fn some_values(alloc: Global, test: &Test) -> Result<Option<Value>, AllocError>
    ensures { IfOk result (λ o. option_map view o ≡ values_if test.now) }
{
    match test {
        Test::OneOf(texts) => Ok(Some(list(alloc, texts.as_slice())?)),
        Test::NoneOf(texts) => Ok(Some(list(alloc, texts.as_slice())?)),
        Test::Present => Ok(None),
        Test::Absent => Ok(None),
        Test::Above(number) => Ok(Some(number_list(alloc, *number)?)),
        Test::Below(number) => Ok(Some(number_list(alloc, *number)?)),
    }
}

impl Printed for Requirement {
    ghost json = { requirement_json };

    fn value(&self, alloc: Global) -> Result<Value, AllocError> {
        let values = some_values(alloc, &self.test)?;
        requirement(alloc, self.key.as_str(), operator_text(&self.test), values)
    }
}

ghost use Rattle.serde_json.specs.Data.{object, no_members, member};
ghost use Rattle.std.specs.Prelude.{codes};
ghost use Rattle.api_print.specs.Shapes.{member_if};

#[tactic(auto, using(crate::proofs::Order::before_member_if))]
fn requirement(
    alloc: Global,
    key: &str,
    operator: &str,
    values: Option<Value>,
) -> Result<Value, AllocError>
    ensures { IfOk result (λ v. view v ≡ object (member (codes "key") (string key.now) (member (codes "operator") (string operator.now) (member_if (codes "values") (option_map view values) no_members)))) }
{
    let members = before_if(none(alloc), alloc, "values", values)?;
    let members = before_text(members, alloc, "operator", operator)?;
    let members = before_text(members, alloc, "key", key)?;
    Ok(Value::Object(members))
}

#[tactic(auto, using(crate::proofs::Order::before_member_if))]
fn term(alloc: Global, selector: &Selector) -> Result<Value, AllocError>
    ensures { IfOk result (λ v. view v ≡ term_json selector.now) }
{
    let fields = some_list(alloc, selector.fields.as_slice())?;
    let members = before_if(none(alloc), alloc, "matchFields", fields)?;
    let expressions = some_list(alloc, selector.expressions.as_slice())?;
    let members = before_if(members, alloc, "matchExpressions", expressions)?;
    Ok(Value::Object(members))
}

/// A node selector of one term. `AllocError` only if memory runs out.
#[tactic(auto, unfolding(crate::specs::Selectors::node_selector_json))]
pub fn node_selector(alloc: Global, selector: &Selector) -> Result<Value, AllocError>
    ensures { IfOk result (λ v. view v ≡ node_selector_json selector.now) }
{
    let term = term(alloc, selector)?;
    let terms = list_of_one(alloc, term)?;
    only(alloc, "nodeSelectorTerms", terms)
}

/// `allNodes`, if it is set. Allocates nothing.
pub fn all_nodes(nodes: &Nodes) -> Option<Value>
    ensures { option_map view result ≡ all_nodes_if nodes.now }
{
    match nodes {
        Nodes::Named(_) => None,
        Nodes::Selected(_) => None,
        Nodes::All => Some(Value::Bool(true)),
    }
}

/// `nodeName`, if it is set. `AllocError` only if memory runs out.
pub fn node_name(alloc: Global, nodes: &Nodes) -> Result<Option<Value>, AllocError>
    ensures { IfOk result (λ o. option_map view o ≡ node_name_if nodes.now) }
{
    match nodes {
        Nodes::Named(name) => Ok(Some(Value::try_from_str(alloc, name.as_str())?)),
        Nodes::Selected(_) => Ok(None),
        Nodes::All => Ok(None),
    }
}

/// `nodeSelector`, if it is set. `AllocError` only if memory runs out.
pub fn selector_of_nodes(alloc: Global, nodes: &Nodes) -> Result<Option<Value>, AllocError>
    ensures { IfOk result (λ o. option_map view o ≡ node_selector_if nodes.now) }
{
    match nodes {
        Nodes::Named(_) => Ok(None),
        Nodes::Selected(selector) => Ok(Some(node_selector(alloc, selector)?)),
        Nodes::All => Ok(None),
    }
}

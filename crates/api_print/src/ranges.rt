//! What the types of a slice's fields keep beyond its limits, stated for each part.

ghost use Rattle.std.specs.Cmp.Lexicographic.{slice_cmp};
ghost use Rattle.std.specs.List.{AllByRecursion};
ghost use Rattle.std.specs.List.Sorted.{IsStrictlySortedBy};
ghost use Rattle.std.specs.Map.{keys_of, values_of};
ghost use Rattle.std.specs.Ordering.{nat_cmp};
ghost use Rattle.api_slice.specs.Attributes.{qual_cmp};
ghost use Rattle.api_print.specs.Ranges.{AttributeInRange, CountersInRange, DeviceInRange, DrawInRange, IsSigned, NodesInRange, OwnInRange, QuantityInRange, RequirementInRange, SelectorInRange, SetInRange, SliceInRange, SliceNodesInRange, TestInRange};

use api_slice::{
    Attribute, CounterConsumption, CounterSet, Device, Nodes, ResourceSlice, SliceNodes,
};
use dra_values::{Table, Text};
use node_select::{Requirement, Selector, Test};
use object_fields::QualName;
use quantity::{Quantity, quantity_reads_back};

/// What has numbers in the ranges of their types, and tables in order.
pub trait Ranged {
    ghost in_range: { Self → Type 0 };

    /// States it. Allocates nothing.
    fn states_range(&self)
        ensures { in_range self.now };
}

/// The ranges of all items.
fn all_in_range<T: Ranged>(items: &[T])
    ensures { AllByRecursion T.in_range items.now }
{
    for item in items {
        item.states_range();
    }
}

/// The ranges of all values.
fn values_in_range<K: Ord, V: Ranged>(table: &Table<K, V>)
    ensures { AllByRecursion V.in_range (values_of table.now) }
{
    for (_, value) in table.as_map() {
        value.states_range();
    }
}

fn is_signed(number: i64)
    ensures { IsSigned number }
{}

impl Ranged for Quantity {
    ghost in_range = { QuantityInRange };

    fn states_range(&self) {
        quantity_reads_back(self);
    }
}

impl Ranged for Attribute {
    ghost in_range = { AttributeInRange };

    fn states_range(&self) {
        match self {
            Attribute::Int(number) => is_signed(*number),
            Attribute::Bool(_) => {}
            Attribute::Text(_) => {}
            Attribute::Version(_) => {}
        }
    }
}

fn test_in_range(test: &Test)
    ensures { TestInRange test.now }
{
    match test {
        Test::OneOf(_) => {}
        Test::NoneOf(_) => {}
        Test::Present => {}
        Test::Absent => {}
        Test::Above(number) => is_signed(*number),
        Test::Below(number) => is_signed(*number),
    }
}

impl Ranged for Requirement {
    ghost in_range = { RequirementInRange };

    fn states_range(&self) {
        test_in_range(&self.test);
    }
}

fn selector_in_range(selector: &Selector)
    ensures { SelectorInRange selector.now }
{
    all_in_range(selector.expressions.as_slice());
    all_in_range(selector.fields.as_slice());
}

fn nodes_in_range(nodes: &Nodes)
    ensures { NodesInRange nodes.now }
{
    match nodes {
        Nodes::Named(_) => {}
        Nodes::Selected(selector) => selector_in_range(selector),
        Nodes::All => {}
    }
}

fn own_in_range(nodes: &Option<Nodes>)
    ensures { OwnInRange nodes.now }
{
    match nodes {
        Some(nodes) => nodes_in_range(nodes),
        None => {}
    }
}

fn slice_nodes_in_range(nodes: &SliceNodes)
    ensures { SliceNodesInRange nodes.now }
{
    match nodes {
        SliceNodes::Nodes(nodes) => nodes_in_range(nodes),
        SliceNodes::PerDevice => {}
    }
}

fn counters_in_range(counters: &Table<Text, Quantity>)
    ensures { CountersInRange counters.now }
{
    values_in_range(counters);
    counters.in_order();
}

impl Ranged for CounterSet {
    ghost in_range = { SetInRange };

    fn states_range(&self) {
        counters_in_range(&self.counters);
    }
}

impl Ranged for CounterConsumption {
    ghost in_range = { DrawInRange };

    fn states_range(&self) {
        counters_in_range(&self.amounts);
    }
}

fn attributes_in_range(attributes: &Table<QualName, Attribute>)
    ensures order { IsStrictlySortedBy qual_cmp (keys_of attributes.now) }
    ensures values { AllByRecursion AttributeInRange (values_of attributes.now) }
{
    values_in_range(attributes);
    attributes.in_order();
}

fn capacity_in_range(capacity: &Table<QualName, Quantity>)
    ensures order { IsStrictlySortedBy qual_cmp (keys_of capacity.now) }
    ensures values { AllByRecursion QuantityInRange (values_of capacity.now) }
{
    values_in_range(capacity);
    capacity.in_order();
}

impl Ranged for Device {
    ghost in_range = { DeviceInRange };

    fn states_range(&self) {
        let properties = &self.properties;
        attributes_in_range(properties.attributes());
        capacity_in_range(properties.capacity());
        all_in_range(self.consumes.as_slice());
        own_in_range(&self.nodes);
    }
}

/// The ranges and the orders of a slice. Allocates nothing.
pub fn slice_in_range(slice: &ResourceSlice)
    ensures { SliceInRange slice.now }
{
    slice_nodes_in_range(&slice.nodes);
    all_in_range(slice.counters.as_slice());
    all_in_range(slice.devices.as_slice());
}

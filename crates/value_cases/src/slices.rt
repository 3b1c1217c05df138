use crate::shown::{Copied, Out};
use api_slice::{
    Attribute, CounterConsumption, CounterSet, Device, Nodes, ResourceSlice, SliceNodes,
};
use dra_values::{Seq, Table, Text};
use node_select::{Requirement, Selector, Test};
use object_fields::QualName;
use quantity::Quantity;
use std::alloc::{AllocError, Global};

impl Copied for ResourceSlice {
    fn again(&self, alloc: Global) -> Result<ResourceSlice, AllocError> {
        self.copy(alloc)
    }

    fn show(&self, out: &mut Out) {
        out.show(&self.name);
        out.show_after(" ", self.driver.as_text());
        push_pool(out, self);
        push_slice_nodes(out, &self.nodes);
        for set in self.counters.as_slice() {
            push_set(out, set);
        }
        for device in self.devices.as_slice() {
            push_device(out, device);
        }
    }
}

fn push_slice_nodes(out: &mut Out, nodes: &SliceNodes) {
    match nodes {
        SliceNodes::Nodes(nodes) => push_nodes(out, nodes),
        SliceNodes::PerDevice => out.say(" each"),
    }
}

/// Appends the pool, its generation and its slices, and the slice's version if there is one.
fn push_pool(out: &mut Out, slice: &ResourceSlice) {
    out.show_after(" ", &slice.pool.name);
    out.show_after(" ", &slice.pool.generation);
    out.show_after("/", &slice.pool.slices);
    match slice.version {
        Some(version) => out.show_after(" v", &version),
        None => {}
    }
}

fn push_nodes(out: &mut Out, nodes: &Nodes) {
    match nodes {
        Nodes::Named(name) => out.show_after(" @", name),
        Nodes::Selected(selector) => push_selector(out, selector),
        Nodes::All => out.say(" all"),
    }
}

/// Appends the requirements on labels, ` /`, and those on fields.
pub fn push_selector(out: &mut Out, selector: &Selector) {
    push_requirements(out, selector.expressions.as_slice());
    out.say(" /");
    push_requirements(out, selector.fields.as_slice());
}

fn push_requirements(out: &mut Out, requirements: &[Requirement]) {
    for requirement in requirements {
        push_requirement(out, &requirement.key, &requirement.test);
    }
}

fn push_requirement(out: &mut Out, key: &Text, test: &Test) {
    match test {
        Test::OneOf(values) => push_values(out, key, " in ", values),
        Test::NoneOf(values) => push_values(out, key, " not in ", values),
        Test::Present => out.show_after(" ", key),
        Test::Absent => out.show_after(" no ", key),
        Test::Above(number) => push_bound(out, key, ">", *number),
        Test::Below(number) => push_bound(out, key, "<", *number),
    }
}

fn push_values(out: &mut Out, key: &Text, words: &str, values: &Seq<Text>) {
    out.show_after(" ", key);
    out.say(words);
    out.debug(values);
}

fn push_bound(out: &mut Out, key: &Text, sign: &str, number: i64) {
    out.show_after(" ", key);
    out.show_after(sign, &number);
}

fn push_set(out: &mut Out, set: &CounterSet) {
    out.show_after(" ", &set.name);
    out.say(":");
    push_amounts(out, &set.counters);
}

fn push_amounts(out: &mut Out, amounts: &Table<Text, Quantity>) {
    for (name, amount) in amounts.as_map() {
        out.show_after(" ", name);
        out.show_after("=", amount);
    }
}

fn push_device(out: &mut Out, device: &Device) {
    out.show_after(" [", &device.name);
    out.say("]");
    for (name, attribute) in device.properties.attributes().as_map() {
        push_name(out, name);
        push_attribute(out, attribute);
    }
    for (name, amount) in device.properties.capacity().as_map() {
        push_name(out, name);
        out.show_after("=", amount);
    }
    push_draws(out, device.consumes.as_slice());
    match &device.nodes {
        Some(nodes) => push_nodes(out, nodes),
        None => {}
    }
}

fn push_name(out: &mut Out, name: &QualName) {
    out.show_after(" ", &name.domain);
    out.show_after("/", &name.id);
}

fn push_attribute(out: &mut Out, attribute: &Attribute) {
    match attribute {
        Attribute::Int(number) => out.show_after(":", number),
        Attribute::Bool(truth) => out.show_after(":", truth),
        Attribute::Text(string) => push_string(out, string),
        Attribute::Version(version) => out.show_after(":v", version),
    }
}

fn push_string(out: &mut Out, string: &Text) {
    out.say(":");
    out.debug(string);
}

fn push_draws(out: &mut Out, draws: &[CounterConsumption]) {
    for draw in draws {
        out.show_after(" -", &draw.set);
        out.say(":");
        push_amounts(out, &draw.amounts);
    }
}

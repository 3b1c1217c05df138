use crate::input::{CaseError, text};
use crate::lexis::push_span;
use crate::selectors::push_parse_error;
use crate::shown::Out;
use cel_parse::parse;
use cel_tree::{BinaryOp, Entry, Kind, Literal, Span, Tree, UnaryOp};
use serde_json::Value;
use std::alloc::Global;

pub fn answer(alloc: Global, out: &mut Out, word: &str, input: &Value) -> Result<(), CaseError> {
    let text = text(input)?;
    match word {
        "shape" => push_tree(alloc, out, text, false),
        "spans" => push_tree(alloc, out, text, true),
        _ => return Err(CaseError::BadCase),
    }
    Ok(())
}

/// Appends the tree of a text, or why it is no expression. With spans each node is followed by its span,
/// as `@0-3`.
fn push_tree(alloc: Global, out: &mut Out, text: &str, spans: bool) {
    match parse(alloc, text) {
        Ok(tree) => show(alloc, &tree, spans, out),
        Err(error) => push_parse_error(out, error, true),
    }
}

fn operator(op: BinaryOp) -> &'static str {
    match op {
        BinaryOp::Or => " || ",
        BinaryOp::And => " && ",
        BinaryOp::Less => " < ",
        BinaryOp::LessEq => " <= ",
        BinaryOp::GreaterEq => " >= ",
        BinaryOp::Greater => " > ",
        BinaryOp::Equal => " == ",
        BinaryOp::NotEqual => " != ",
        BinaryOp::In => " in ",
        BinaryOp::Add => " + ",
        BinaryOp::Subtract => " - ",
        BinaryOp::Multiply => " * ",
        BinaryOp::Divide => " / ",
        BinaryOp::Remainder => " % ",
    }
}

fn prefix(op: UnaryOp) -> &'static str {
    match op {
        UnaryOp::Not => "(!",
        UnaryOp::Negate => "(-",
    }
}

fn push_literal(alloc: Global, literal: &Literal, out: &mut Out) {
    match literal {
        Literal::Null => out.say("null"),
        Literal::Bool(truth) => out.show(truth),
        Literal::Int(number) => out.show(number),
        Literal::Text(text) => out.quoted(alloc, text.as_str()),
    }
}

fn push_place(spans: bool, span: Span, out: &mut Out) {
    if spans {
        out.say("@");
        push_span(out, span.start, span.end);
    }
}

/// The tree with brackets around each node with operands.
#[cycle(show)]
fn show(alloc: Global, tree: &Tree, spans: bool, out: &mut Out) {
    match &tree.kind {
        Kind::Literal(literal) => push_literal(alloc, literal, out),
        Kind::Ident(name) => out.say(name.as_str()),
        Kind::Unary(op, operand) => {
            out.say(prefix(*op));
            show_before(alloc, operand, ")", spans, out);
        }
        Kind::Binary(op, left, right) => {
            out.say("(");
            show_before(alloc, left, operator(*op), spans, out);
            show_before(alloc, right, ")", spans, out);
        }
        Kind::Conditional(test, then, otherwise) => {
            out.say("(");
            show_before(alloc, test, " ? ", spans, out);
            show_before(alloc, then, " : ", spans, out);
            show_before(alloc, otherwise, ")", spans, out);
        }
        Kind::Member(object, name) => {
            show_before(alloc, object, ".", spans, out);
            out.say(name.as_str());
        }
        Kind::Index(object, index) => {
            show_before(alloc, object, "[", spans, out);
            show_before(alloc, index, "]", spans, out);
        }
        Kind::Call(function, arguments) => {
            out.say(function.as_str());
            show_all(alloc, "(", arguments, ")", spans, out);
        }
        Kind::Method(object, function, arguments) => {
            show_before(alloc, object, ".", spans, out);
            out.say(function.as_str());
            show_all(alloc, "(", arguments, ")", spans, out);
        }
        Kind::List(items) => show_all(alloc, "[", items, "]", spans, out),
        Kind::Map(entries) => show_map(alloc, entries, spans, out),
    }
    push_place(spans, tree.span, out);
}

/// The tree, and the text after it.
#[cycle(show)]
fn show_before(alloc: Global, tree: &Tree, after: &str, spans: bool, out: &mut Out) {
    show(alloc, tree, spans, out);
    out.say(after);
}

/// `{key: value;key: value;}`
#[cycle(show)]
fn show_map(alloc: Global, entries: &[Entry], spans: bool, out: &mut Out) {
    out.say("{");
    for entry in entries {
        show_before(alloc, &entry.key, ": ", spans, out);
        show_before(alloc, &entry.value, ";", spans, out);
    }
    out.say("}");
}

/// Trees with commas between them, between two texts.
#[cycle(show)]
fn show_all(alloc: Global, before: &str, trees: &[Tree], after: &str, spans: bool, out: &mut Out) {
    out.say(before);
    let mut first = true;
    for tree in trees {
        if !first {
            out.say(", ");
        }
        first = false;
        show(alloc, tree, spans, out);
    }
    out.say(after);
}

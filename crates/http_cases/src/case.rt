use crate::reading::{cuts, faults, many, read};
use crate::spelling::from_text;
use crate::talking::talk;
use crate::writing::reply;
use std::alloc::{AllocError, Global};

/// A text up to its first space, and what follows it.
fn cut_word(text: &str) -> (&str, &str) {
    text.split_once(' ').unwrap_or((text, ""))
}

/// A case such as `reply 200 json {}`.
fn of_reply(alloc: Global, text: &str) -> Result<String, AllocError> {
    let (code, rest) = cut_word(text);
    let (kind, body) = cut_word(rest);
    match code.parse::<u16>() {
        Ok(code) => reply(alloc, code, kind == "json", from_text(alloc, body)?),
        Err(_) => String::from_str(alloc, "no case"),
    }
}

/// A case such as `many 3 GET / HTTP/1.1\n\n`.
fn of_many(alloc: Global, text: &str) -> Result<String, AllocError> {
    let (count, bytes) = cut_word(text);
    match count.parse::<usize>() {
        Ok(count) => many(alloc, count, &from_text(alloc, bytes)?),
        Err(_) => String::from_str(alloc, "no case"),
    }
}

/// A case such as `talk 7 2 GET / HTTP/1.1\n\n`.
fn of_talk(alloc: Global, text: &str) -> Result<String, AllocError> {
    let (piece, rest) = cut_word(text);
    let (failing, bytes) = cut_word(rest);
    let (Ok(piece), Ok(failing)) = (piece.parse::<usize>(), failing.parse::<u64>()) else {
        return String::from_str(alloc, "no case");
    };
    talk(alloc, &from_text(alloc, bytes)?, piece, failing)
}

/// The line of a case.
pub fn answer(alloc: Global, line: &str) -> Result<String, AllocError> {
    if line.is_empty() || line.starts_with('#') {
        return String::from_str(alloc, line);
    }
    let (verb, text) = cut_word(line);
    match verb {
        "read" => read(alloc, &from_text(alloc, text)?),
        "cuts" => cuts(alloc, &from_text(alloc, text)?),
        "faults" => faults(alloc, &from_text(alloc, text)?),
        "many" => of_many(alloc, text),
        "talk" => of_talk(alloc, text),
        "reply" => of_reply(alloc, text),
        _ => String::from_str(alloc, "no case"),
    }
}

use crate::crashes::run_crashes;
use crate::options::Options;
use crate::outcome::run_once;
use crate::reader::Reader;
use crate::scripts::{Scripts, copies};
use crate::varied::{Varied, run_each, run_varied};
use std::alloc::{AllocError, Global};
use std::sync::Wait;
use std::thread::Threads;

/// A text up to its first space, and what follows it.
fn cut_word(text: &str) -> (&str, &str) {
    text.split_once(' ').unwrap_or((text, ""))
}

/// Appends the next bytes, of which the text says how many, to the last script.
fn append_bytes(
    count: &str,
    reader: &mut Reader<'_>,
    scripts: &mut Scripts,
) -> Result<bool, AllocError> {
    let Ok(count) = count.parse::<usize>() else {
        return Ok(false);
    };
    let Some(part) = reader.next_bytes(count) else {
        return Ok(false);
    };
    scripts.append(part)
}

/// Appends the next lines, of which the text says how many, to the last script.
fn append_lines(
    count: &str,
    reader: &mut Reader<'_>,
    scripts: &mut Scripts,
) -> Result<bool, AllocError> {
    let Ok(count) = count.parse::<u64>() else {
        return Ok(false);
    };
    for _ in 0..count {
        let Some(line) = reader.next_line() else {
            return Ok(false);
        };
        if !scripts.append(line)? || !scripts.append(b"\n")? {
            return Ok(false);
        }
    }
    Ok(true)
}

/// Appends the bytes of these numbers to the last script.
fn append_octets(numbers: &str, scripts: &mut Scripts) -> Result<bool, AllocError> {
    for number in numbers.split(' ') {
        let Ok(octet) = number.parse::<u8>() else {
            return Ok(false);
        };
        if !scripts.append(&[octet])? {
            return Ok(false);
        }
    }
    Ok(true)
}

/// The copies that a text such as `0 9 NAME` asks for.
fn copies_of(alloc: Global, text: &str, scripts: &Scripts) -> Result<Option<Vec<u8>>, AllocError> {
    let (from, rest) = cut_word(text);
    let (to, name) = cut_word(rest);
    let (Ok(from), Ok(to)) = (from.parse::<u64>(), to.parse::<u64>()) else {
        return Ok(None);
    };
    let Some(pattern) = scripts.get(name) else {
        return Ok(None);
    };
    Ok(Some(copies(alloc, pattern, from, to)?))
}

/// Appends copies of a script to the last one.
fn append_copies(alloc: Global, text: &str, scripts: &mut Scripts) -> Result<bool, AllocError> {
    match copies_of(alloc, text, scripts)? {
        Some(part) => scripts.append(&part),
        None => Ok(false),
    }
}

/// What is varied by a case of that verb.
fn varied_by(verb: &str) -> Option<Varied> {
    match verb {
        "cuts" => Some(Varied::Cut),
        "pieces" => Some(Varied::Pieces),
        "read-faults" => Some(Varied::FailRead),
        "write-faults" => Some(Varied::FailWrite),
        "disk-faults" => Some(Varied::FailDisk),
        "limits" => Some(Varied::Entries),
        _ => None,
    }
}

/// Runs the case of a verb that has a script and options.
fn run_case<R: AllocGlobal + Threads + Wait + Sync>(
    rt: &R,
    alloc: Global,
    verb: &str,
    text: &str,
    scripts: &Scripts,
    out: &mut Vec<u8>,
) -> Result<bool, AllocError> {
    let (name, words) = cut_word(text);
    let Some(options) = Options::read(words) else {
        return Ok(false);
    };
    let Some(script) = scripts.get(name) else {
        return Ok(false);
    };
    if verb == "run" {
        run_once(rt, script, options)?.print_whole(alloc, out)?;
        return Ok(true);
    }
    if verb == "crashes" {
        run_crashes(rt, alloc, script, options, out)?;
        return Ok(true);
    }
    match varied_by(verb) {
        Some(varied) => {
            run_varied(rt, alloc, varied, script, options, out)?;
            Ok(true)
        }
        None => Ok(false),
    }
}

/// Runs each line of a script after another script.
fn run_lines<R: AllocGlobal + Threads + Wait + Sync>(
    rt: &R,
    alloc: Global,
    text: &str,
    scripts: &Scripts,
    out: &mut Vec<u8>,
) -> Result<bool, AllocError> {
    let (prefix, rest) = cut_word(text);
    let (name, words) = cut_word(rest);
    let Some(options) = Options::read(words) else {
        return Ok(false);
    };
    let (Some(prefix), Some(lines)) = (scripts.get(prefix), scripts.get(name)) else {
        return Ok(false);
    };
    run_each(rt, alloc, prefix, lines, options, out)?;
    Ok(true)
}

/// Prints the line of a case, and runs it.
fn do_case<R: AllocGlobal + Threads + Wait + Sync>(
    rt: &R,
    alloc: Global,
    line: &str,
    scripts: &Scripts,
    out: &mut Vec<u8>,
) -> Result<bool, AllocError> {
    out.extend_from_slice(b"== ")?;
    out.extend_from_slice(line.as_bytes())?;
    out.push(b'\n')?;
    let (verb, text) = cut_word(line);
    if verb == "each" {
        run_lines(rt, alloc, text, scripts, out)
    } else {
        run_case(rt, alloc, verb, text, scripts, out)
    }
}

/// Does what a line asks. Returns false if that isn't understood.
fn do_line<R: AllocGlobal + Threads + Wait + Sync>(
    rt: &R,
    alloc: Global,
    line: &[u8],
    reader: &mut Reader<'_>,
    scripts: &mut Scripts,
    out: &mut Vec<u8>,
) -> Result<bool, AllocError> {
    let Ok(line) = str::from_utf8(line) else {
        return Ok(false);
    };
    if line.is_empty() || line.starts_with('#') {
        return Ok(true);
    }
    let (verb, text) = cut_word(line);
    match verb {
        "script" => {
            scripts.begin(alloc, text)?;
            Ok(true)
        }
        "lines" => append_lines(text, reader, scripts),
        "octets" => append_octets(text, scripts),
        "bytes" => append_bytes(text, reader, scripts),
        "copies" => append_copies(alloc, text, scripts),
        _ => do_case(rt, alloc, line, scripts, out),
    }
}

/// Runs the cases of a container up to its end, or to a line that isn't understood.
pub fn run_container<R: AllocGlobal + Threads + Wait + Sync>(
    rt: &R,
    alloc: Global,
    container: &[u8],
    out: &mut Vec<u8>,
) -> Result<(), AllocError> {
    let mut reader = Reader::new(container);
    let mut scripts = Scripts::new(alloc);
    for _ in 0..=container.len() {
        let Some(line) = reader.next_line() else {
            return Ok(());
        };
        if !do_line(rt, alloc, line, &mut reader, &mut scripts, out)? {
            out.extend_from_slice(b"not understood: ")?;
            out.extend_from_slice(line)?;
            out.push(b'\n')?;
            return Ok(());
        }
    }
    Ok(())
}

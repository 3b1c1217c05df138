use crate::options::Options;
use crate::outcome::run_once;
use crate::serving::{Failing, run_failing};
use crate::talks::Talks;
use std::alloc::{AllocError, Global};
use std::sync::Wait;
use std::thread::Threads;

/// Where slices are created.
const SLICES: &str = "/apis/resource.k8s.io/v1/resourceslices";

/// A text up to its first space, and what follows it.
fn cut_word(text: &str) -> (&str, &str) {
    text.split_once(' ').unwrap_or((text, ""))
}

/// Appends a request to the last talk.
fn append_one(
    alloc: Global,
    method: &str,
    path: &str,
    body: &str,
    talks: &mut Talks,
) -> Result<bool, AllocError> {
    let length = body.len();
    let head = format!(in alloc; "{method} {path} HTTP/1.1\r\nContent-Length: {length}\r\n\r\n")?;
    talks.append(head.as_bytes())?;
    talks.append(body.as_bytes())
}

/// Appends a request such as `POST /api/v1/nodes {}` to the last talk.
fn append_request(alloc: Global, text: &str, talks: &mut Talks) -> Result<bool, AllocError> {
    let (method, rest) = cut_word(text);
    let (path, body) = cut_word(rest);
    append_one(alloc, method, path, body, talks)
}

/// The devices of a slice, as JSON, from `d0`.
fn devices_of(alloc: Global, count: u64) -> Result<String, AllocError> {
    let mut devices = String::new(alloc);
    for index in 0..count {
        let comma = if index == 0 { "" } else { "," };
        let device = format!(in alloc; "{comma}{{\"name\":\"d{index}\"}}")?;
        devices.push_str(device.as_str())?;
    }
    Ok(devices)
}

/// A slice with these devices, on the node n1 and in a pool of its own.
fn slice_of(alloc: Global, number: u64, devices: &str) -> Result<String, AllocError> {
    let pool = format!(in alloc;
        "{{\"name\":\"s{number}\",\"generation\":1,\"resourceSliceCount\":1}}"
    )?;
    let spec = format!(in alloc;
        "{{\"driver\":\"gpu.example.com\",\"nodeName\":\"n1\",\"pool\":{pool},\"devices\":[{devices}]}}"
    )?;
    format!(in alloc;
        "{{\"apiVersion\":\"resource.k8s.io/v1\",\"kind\":\"ResourceSlice\",\"metadata\":{{\"name\":\"s{number}\"}},\"spec\":{spec}}}"
    )
}

/// Appends requests such as `1 511 128`, which create the slices of these numbers, each with so many devices.
fn append_slices(alloc: Global, text: &str, talks: &mut Talks) -> Result<bool, AllocError> {
    let (lowest, rest) = cut_word(text);
    let (highest, count) = cut_word(rest);
    let (Ok(lowest), Ok(highest), Ok(count)) = (
        lowest.parse::<u64>(),
        highest.parse::<u64>(),
        count.parse::<u64>(),
    ) else {
        return Ok(false);
    };
    let devices = devices_of(alloc, count)?;
    for number in lowest..=highest {
        let body = slice_of(alloc, number, devices.as_str())?;
        append_one(alloc, "POST", SLICES, body.as_str(), talks)?;
    }
    Ok(true)
}

/// Appends copies of a line, such as `64 A: b`, to the last talk.
fn append_lines(alloc: Global, text: &str, talks: &mut Talks) -> Result<bool, AllocError> {
    let (count, line) = cut_word(text);
    let Ok(count) = count.parse::<u64>() else {
        return Ok(false);
    };
    let line = format!(in alloc; "{line}\r\n")?;
    for _ in 0..count {
        talks.append(line.as_bytes())?;
    }
    Ok(true)
}

/// Appends copies of a text without a line end to the last talk.
fn append_text(text: &str, talks: &mut Talks) -> Result<bool, AllocError> {
    let (count, part) = cut_word(text);
    let Ok(count) = count.parse::<u64>() else {
        return Ok(false);
    };
    for _ in 0..count {
        talks.append(part.as_bytes())?;
    }
    Ok(true)
}

/// What the clients of these names send; `-` alone stands for none. None if a name isn't known.
fn sent_by<'a>(
    alloc: Global,
    names: &str,
    talks: &'a Talks,
) -> Result<Option<Vec<&'a [u8]>>, AllocError> {
    let mut sent = Vec::new(alloc);
    if names == "-" {
        return Ok(Some(sent));
    }
    for name in names.split(',') {
        let Some(bytes) = talks.get(name) else {
            return Ok(None);
        };
        sent.push(bytes)?;
    }
    Ok(Some(sent))
}

/// Serves connections as a verb says. Returns false if there is no such verb.
fn do_verb<R: AllocGlobal + Threads + Wait + Sync>(
    rt: &R,
    alloc: Global,
    verb: &str,
    sent: &[&[u8]],
    options: Options,
    out: &mut Vec<u8>,
) -> Result<bool, AllocError> {
    match verb {
        "serve" => run_once(rt, sent, options)?.print_whole(alloc, out)?,
        "codes" => run_once(rt, sent, options)?.print_codes(alloc, options.mixed, out)?,
        "counts" => run_once(rt, sent, options)?.print_counts(alloc, options.last, out)?,
        "calls" => run_failing(rt, alloc, Failing::Call, sent, options, out)?,
        "doors" => run_failing(rt, alloc, Failing::Door, sent, options, out)?,
        _ => return Ok(false),
    }
    Ok(true)
}

/// Prints the line of a case, and runs it.
fn do_case<R: AllocGlobal + Threads + Wait + Sync>(
    rt: &R,
    alloc: Global,
    line: &str,
    talks: &Talks,
    out: &mut Vec<u8>,
) -> Result<bool, AllocError> {
    out.extend_from_slice(b"== ")?;
    out.extend_from_slice(line.as_bytes())?;
    out.push(b'\n')?;
    let (verb, rest) = cut_word(line);
    let (names, words) = cut_word(rest);
    let Some(options) = Options::read(words) else {
        return Ok(false);
    };
    let Some(sent) = sent_by(alloc, names, talks)? else {
        return Ok(false);
    };
    do_verb(rt, alloc, verb, &sent, options, out)
}

/// Does what a line asks. Returns false if that isn't understood.
fn do_line<R: AllocGlobal + Threads + Wait + Sync>(
    rt: &R,
    alloc: Global,
    line: &str,
    talks: &mut Talks,
    out: &mut Vec<u8>,
) -> Result<bool, AllocError> {
    if line.is_empty() || line.starts_with('#') {
        return Ok(true);
    }
    let (verb, text) = cut_word(line);
    match verb {
        "talk" => {
            talks.begin(alloc, text)?;
            Ok(true)
        }
        "ask" => append_request(alloc, text, talks),
        "slices" => append_slices(alloc, text, talks),
        "lines" => append_lines(alloc, text, talks),
        "text" => append_text(text, talks),
        _ => do_case(rt, alloc, line, talks, out),
    }
}

/// Runs the cases up to the end, or to a line that isn't understood.
pub fn run_cases<R: AllocGlobal + Threads + Wait + Sync>(
    rt: &R,
    alloc: Global,
    cases: &[u8],
    out: &mut Vec<u8>,
) -> Result<(), AllocError> {
    let mut talks = Talks::new(alloc);
    for line in str::from_utf8(cases).unwrap_or("not UTF-8").lines() {
        if !do_line(rt, alloc, line, &mut talks, out)? {
            out.extend_from_slice(b"not understood: ")?;
            out.extend_from_slice(line.as_bytes())?;
            out.push(b'\n')?;
            return Ok(());
        }
    }
    Ok(())
}

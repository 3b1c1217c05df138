use crate::outcome::Outcome;
use std::alloc::{AllocError, Global};

/// Appends a text with `\r` and `\n` spelled.
fn push_spelled(out: &mut Vec<u8>, text: &[u8]) -> Result<(), AllocError> {
    for byte in text {
        match *byte {
            b'\r' => out.extend_from_slice(b"\\r")?,
            b'\n' => out.extend_from_slice(b"\\n")?,
            other => out.push(other)?,
        }
    }
    Ok(())
}

/// The text of bytes, which is empty where they have none.
fn text_of(bytes: &[u8]) -> &str {
    str::from_utf8(bytes).unwrap_or("")
}

/// A text up to its first space.
fn first_word(text: &str) -> &str {
    text.split_once(' ').unwrap_or((text, "")).0
}

/// Appends the codes of replies, a space before each, and returns how many there are.
fn push_codes(out: &mut Vec<u8>, replies: &[u8]) -> Result<u64, AllocError> {
    let mut count: u64 = 0;
    for part in text_of(replies).split("HTTP/1.1 ").skip(1) {
        out.push(b' ')?;
        out.extend_from_slice(first_word(part).as_bytes())?;
        count = count.saturating_add(1);
    }
    Ok(count)
}

/// Appends the codes of the replies of each connection that has ended, and returns how many there are.
fn push_all_codes(alloc: Global, outcome: &Outcome, out: &mut Vec<u8>) -> Result<u64, AllocError> {
    let mut count: u64 = 0;
    for replies in outcome.doors.replies(alloc)? {
        out.extend_from_slice(b" |")?;
        count = count.saturating_add(push_codes(out, replies)?);
    }
    Ok(count)
}

/// Appends the last replies of a connection, at most so many.
fn push_last(
    alloc: Global,
    out: &mut Vec<u8>,
    replies: &[u8],
    count: u64,
) -> Result<(), AllocError> {
    let mut parts = Vec::new(alloc);
    for part in text_of(replies).split("HTTP/1.1 ").skip(1) {
        parts.push(part)?;
    }
    let before = parts.len().saturating_sub(count as usize);
    for part in parts.iter().skip(before) {
        out.extend_from_slice(b"HTTP/1.1 ")?;
        push_spelled(out, part.as_bytes())?;
    }
    Ok(())
}

/// Appends a line with the last replies of each connection that has ended.
fn push_all_last(
    alloc: Global,
    outcome: &Outcome,
    count: u64,
    out: &mut Vec<u8>,
) -> Result<(), AllocError> {
    for replies in outcome.doors.replies(alloc)? {
        out.push(b'>')?;
        push_last(alloc, out, replies, count)?;
        out.push(b'\n')?;
    }
    Ok(())
}

/// The words of a line but the first `skipped` and those that begin with a mark.
fn without(alloc: Global, line: &str, skipped: usize, mark: &str) -> Result<String, AllocError> {
    let mut text = String::new(alloc);
    for word in line.split(' ').skip(skipped) {
        if !word.starts_with(mark) {
            if !text.is_empty() {
                text.push_str(" ")?;
            }
            text.push_str(word)?;
        }
    }
    Ok(text)
}

/// Appends lines in the order of their texts.
fn push_sorted(out: &mut Vec<u8>, lines: &mut Vec<String>) -> Result<(), AllocError> {
    lines.sort_unstable_by(|line, other| line.as_str().cmp(other.as_str()));
    for line in &*lines {
        out.extend_from_slice(line.as_bytes())?;
        out.push(b'\n')?;
    }
    Ok(())
}

/// Appends lines without the versions of claims.
fn push_lines(alloc: Global, lines: &str, out: &mut Vec<u8>) -> Result<(), AllocError> {
    for line in lines.lines() {
        let text = without(alloc, line, 0, "seen=")?;
        out.extend_from_slice(text.as_bytes())?;
        out.push(b'\n')?;
    }
    Ok(())
}

/// Appends the output of workers beside each other: so many first lines in the order of their texts, without the indices of
/// entries and of states, and then the others without the versions of claims.
fn push_mixed(
    alloc: Global,
    output: &str,
    count: u64,
    out: &mut Vec<u8>,
) -> Result<(), AllocError> {
    let mut first = Vec::new(alloc);
    let mut rest = output;
    'lines: for _ in 0..count {
        let Some((line, behind)) = rest.split_once('\n') else {
            break 'lines;
        };
        first.push(without(alloc, line, 1, "at=")?)?;
        rest = behind;
    }
    push_sorted(out, &mut first)?;
    push_lines(alloc, rest, out)
}

impl Outcome {
    fn push_head(&self, alloc: Global, out: &mut Vec<u8>) -> Result<(), AllocError> {
        let head = self.head(alloc)?;
        out.extend_from_slice(head.as_bytes())
    }

    /// Prints the outcome with what each connection that has ended got, and the output.
    pub fn print_whole(&self, alloc: Global, out: &mut Vec<u8>) -> Result<(), AllocError> {
        self.push_head(alloc, out)?;
        out.push(b'\n')?;
        for replies in self.doors.replies(alloc)? {
            out.push(b'>')?;
            push_spelled(out, replies)?;
            out.push(b'\n')?;
        }
        out.extend_from_slice(self.output.bytes())
    }

    /// Prints the outcome with the codes of replies, and the output.
    pub fn print_codes(
        &self,
        alloc: Global,
        mixed: u64,
        out: &mut Vec<u8>,
    ) -> Result<(), AllocError> {
        self.push_head(alloc, out)?;
        push_all_codes(alloc, self, out)?;
        out.push(b'\n')?;
        if mixed > 0 {
            push_mixed(alloc, text_of(self.output.bytes()), mixed, out)
        } else {
            out.extend_from_slice(self.output.bytes())
        }
    }

    /// Prints how many replies and how many lines there are, and the last replies of each connection if any are asked for.
    pub fn print_counts(
        &self,
        alloc: Global,
        last: u64,
        out: &mut Vec<u8>,
    ) -> Result<(), AllocError> {
        self.push_head(alloc, out)?;
        let mut codes = Vec::new(alloc);
        let replies = push_all_codes(alloc, self, &mut codes)?;
        let lines = self
            .output
            .bytes()
            .iter()
            .filter(|byte| **byte == b'\n')
            .count();
        let counts = format!(in alloc; ", replies {replies}, lines {lines}\n")?;
        out.extend_from_slice(counts.as_bytes())?;
        if last > 0 {
            push_all_last(alloc, self, last, out)?;
        }
        Ok(())
    }

    /// The outcome on one line: the codes of replies, and the lines of the output, each behind a `;`.
    pub fn in_short(&self, alloc: Global) -> Result<Vec<u8>, AllocError> {
        let mut said = Vec::new(alloc);
        self.push_head(alloc, &mut said)?;
        push_all_codes(alloc, self, &mut said)?;
        for line in text_of(self.output.bytes()).lines() {
            said.extend_from_slice(b"; ")?;
            said.extend_from_slice(line.as_bytes())?;
        }
        Ok(said)
    }
}

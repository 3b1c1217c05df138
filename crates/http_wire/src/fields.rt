ghost use Rattle.std.specs.Prelude.{◌≡◌, ◌≤◌, ◌==◌, codes, map, length, option_map};
ghost use Rattle.std.specs.List.{list_all, list_any, position_or_len, prefix_len};
ghost use Rattle.std.specs.Str.{str_eq_ignore_ascii_case};
ghost use Rattle.httparse.specs.Borrowed.{header_parts};
ghost use Rattle.http_wire.specs.Fields.{all_are, body_length, has_close, is_blank, is_close, is_last, is_number, is_there, values_of, wants_length};
ghost use Rattle.http_wire.specs.Firsts.{first_of, length_with, length_without, number_within};

use crate::WireError;
use httparse::Header;

/// The most bytes of a body: 2 MiB.
const BODY: usize = 2_097_152;

/// Whether two texts are equal, ignoring ASCII case.
fn is_same_word(left: &[u8], right: &[u8]) -> bool
    ensures { result ≡ str_eq_ignore_ascii_case left.now right.now }
{
    left.eq_ignore_ascii_case(right)
}

/// Whether a header has a name, in upper or lower case.
fn is_named(header: &Header<'_>, name: &str) -> bool
    ensures { result ≡ str_eq_ignore_ascii_case (header_parts header.now).0 name.now }
{
    is_same_word(header.name.as_bytes(), name.as_bytes())
}

/// The value of the first header with a name.
fn first_value<'a>(name: &str, headers: &[Header<'a>]) -> Option<&'a [u8]>
    ensures { option_map (λ v. v.now) result ≡ first_of (values_of name.now (map header_parts headers.now)) }
{
    for header in headers {
        if is_named(header, name) {
            return Some(header.value);
        }
    }
    None
}

/// Whether there is a header with a name.
fn is_there(name: &str, headers: &[Header<'_>]) -> bool
    ensures { result ≡ is_there name.now (map header_parts headers.now) }
{
    for header in headers {
        if is_named(header, name) {
            return true;
        }
    }
    false
}

/// Whether all headers with a name have this value.
fn all_have(name: &str, value: &[u8], headers: &[Header<'_>]) -> bool
    ensures { result ≡ all_are value.now (values_of name.now (map header_parts headers.now)) }
{
    for header in headers {
        if is_named(header, name) && header.value != value {
            return false;
        }
    }
    true
}

/// Whether a value is decimal digits, at least one.
fn is_number(value: &[u8]) -> bool
    ensures { result ≡ is_number value.now }
{
    if value.is_empty() {
        return false;
    }
    for byte in value {
        if !byte.is_ascii_digit() {
            return false;
        }
    }
    true
}

/// The number that decimal digits write, capped at one more than a body may have.
fn number_within(digits: &[u8]) -> usize
    ensures { result ≡ number_within 0 digits.now }
{
    let mut number = 0;
    for digit in digits {
        let value = usize::from(digit.saturating_sub(b'0'));
        number = (number * 10 + value).min(BODY + 1);
    }
    number
}

/// How many bytes the body of a request with this method and these headers has.
pub fn body_length(method: &str, headers: &[Header<'_>]) -> Result<usize, WireError>
    ensures { result ≡ body_length method.now (map header_parts headers.now) }
{
    let encoded = is_there("transfer-encoding", headers);
    match first_value("content-length", headers) {
        None => length_without(encoded, wants_length(method)),
        Some(value) => length_with(value, headers, encoded),
    }
}

/// Whether a request with this method has to state the length of its body.
fn wants_length(method: &str) -> bool
    ensures { result ≡ wants_length method.now }
{
    method == "POST" || method == "PUT"
}

/// The length of a body for which none is stated.
fn length_without(encoded: bool, wanted: bool) -> Result<usize, WireError>
    ensures { result ≡ length_without encoded wanted }
{
    if encoded || wanted {
        return Err(WireError::NoLength);
    }
    Ok(0)
}

/// The length of a body for which this is the first that is stated.
fn length_with(value: &[u8], headers: &[Header<'_>], encoded: bool) -> Result<usize, WireError>
    ensures { result ≡ length_with value.now (values_of (codes "content-length") (map header_parts headers.now)) encoded }
{
    if !is_number(value) || !all_have("content-length", value, headers) {
        return Err(WireError::BadHead);
    }
    if encoded {
        return Err(WireError::NoLength);
    }
    let length = number_within(value);
    if length > BODY {
        return Err(WireError::TooLong);
    }
    Ok(length)
}

/// Whether the connection ends after a request of this minor version with these headers.
pub fn is_last(minor: u8, headers: &[Header<'_>]) -> bool
    ensures { result ≡ is_last minor (map header_parts headers.now) }
{
    minor == 0 || closes(headers)
}

/// Whether a header `Connection` has the option `close`.
fn closes(headers: &[Header<'_>]) -> bool
    ensures { result ≡ list_any has_close (values_of (codes "connection") (map header_parts headers.now)) }
{
    for header in headers {
        if is_named(header, "connection") && has_close(header.value) {
            return true;
        }
    }
    false
}

/// Whether one of the options between commas is `close`.
fn has_close(value: &[u8]) -> bool
    ensures { result ≡ has_close value.now }
{
    let mut start = 0;
    'options: loop {
        let rest = &value[start..];
        let length = count_to_comma(rest);
        if is_close(&rest[..length]) {
            return true;
        }
        if length == rest.len() {
            return false;
        }
        start += length + 1;
    }
}

/// How many bytes come before the first comma; all of them if there is none.
fn count_to_comma(bytes: &[u8]) -> usize
    ensures count { result ≡ position_or_len (λ b. b == 44) bytes.now }
    ensures within { result ≤ length bytes.now }
{
    bytes.iter().take_while(|byte| **byte != b',').count()
}

/// Whether an option is `close`, in upper or lower case, with blanks around it.
fn is_close(option: &[u8]) -> bool
    ensures { result ≡ is_close option.now }
{
    let word = &option[count_blanks(option)..];
    let length = word.len().min(5);
    is_same_word(&word[..length], b"close".as_slice()) && are_blanks(&word[length..])
}

/// How many blanks the bytes begin with.
fn count_blanks(bytes: &[u8]) -> usize
    ensures count { result ≡ prefix_len is_blank bytes.now }
    ensures within { result ≤ length bytes.now }
{
    bytes
        .iter()
        .take_while(|byte| **byte == b' ' || **byte == b'\t')
        .count()
}

/// Whether all bytes are blanks.
fn are_blanks(bytes: &[u8]) -> bool
    ensures { result ≡ list_all is_blank bytes.now }
{
    for byte in bytes {
        if *byte != b' ' && *byte != b'\t' {
            return false;
        }
    }
    true
}

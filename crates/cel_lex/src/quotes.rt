ghost use Rattle.std.specs.Prelude.{◌≡◌, ◌≤◌, ◌+◌, ◌<◌, ◌^◌, length, IfSome};
ghost use Rattle.cel_lex.specs.Strings.{quotes_of, opening_of, count_of};

use crate::bytes::is_quote;

/// How a string begins: its quote, whether there are three of them on either side, and how many bytes
/// come before its content.
#[derive(Clone, Copy)]
pub struct Quotes {
    pub mark: u8,
    pub triple: bool,
    pub bytes: bool,
    pub raw: bool,
    pub len: usize,
}

/// How the string at the start of the text begins.
#[tactic(auto, unfolding(crate::specs::Strings::opening_of))]
pub fn opening(text: &[u8]) -> Option<Quotes>
    ensures exact { result ≡ opening_of text.now }
    ensures ascii { IfSome result (λ q. q.mark < 128) }
    ensures within { IfSome result (λ q. q.len ≤ length text.now) }
{
    match text {
        [b'b' | b'B', b'r' | b'R', rest @ ..] => quotes_after(true, true, 2, rest),
        [b'b' | b'B', rest @ ..] => quotes_after(true, false, 1, rest),
        [b'r' | b'R', rest @ ..] => quotes_after(false, true, 1, rest),
        _ => quotes_after(false, false, 0, text),
    }
}

#[tactic(auto, using(crate::proofs::QuoteLaws::quote_ascii))]
fn quotes_after(bytes: bool, raw: bool, before: usize, text: &[u8]) -> Option<Quotes>
    requires { before ≤ 2 }
    ensures exact { result ≡ quotes_of bytes raw before text.now }
    ensures ascii { IfSome result (λ q. q.mark < 128) }
    ensures within { IfSome result (λ q. q.len ≤ before + length text.now) }
{
    match text {
        [mark, second, third, ..] if is_quote(*mark) && second == mark && third == mark => {
            Some(Quotes {
                mark: *mark,
                triple: true,
                bytes,
                raw,
                len: before + 3,
            })
        }
        [mark, ..] if is_quote(*mark) => Some(Quotes {
            mark: *mark,
            triple: false,
            bytes,
            raw,
            len: before + 1,
        }),
        _ => None,
    }
}

/// How many quotes there are on either side.
pub fn count(quotes: Quotes) -> usize
    ensures { result ≡ count_of quotes }
{
    if quotes.triple { 3 } else { 1 }
}

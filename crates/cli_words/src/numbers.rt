ghost use Rattle.std.specs.Prelude.{◌≡◌, ◌≤◌};
ghost use Rattle.std.specs.List.{list_all};
ghost use Rattle.std.specs.Char.{is_ascii_digit};
ghost use Rattle.cli_words.specs.Words.{in_range, is_number, number_in};

/// Whether each byte of the word is a decimal digit.
fn are_digits(word: &[u8]) -> bool
    ensures { result ≡ list_all is_ascii_digit word.now }
{
    for byte in word {
        if !byte.is_ascii_digit() {
            return false;
        }
    }
    true
}

/// Whether a word is one decimal digit or more, and at most `digits`.
fn is_number(word: &[u8], digits: usize) -> bool
    ensures { result ≡ is_number digits word.now }
{
    1 <= word.len() && word.len() <= digits && are_digits(word)
}

/// The number, if it is from `least` to `most`.
fn in_range(number: u64, least: u64, most: u64) -> Option<u64>
    ensures { result ≡ in_range least most number }
{
    if least <= number && number <= most {
        Some(number)
    } else {
        None
    }
}

/// The number from `least` to `most` that one to `digits` decimal digits write. Leading zeros are accepted, a
/// sign isn't.
pub fn number_in(word: &str, digits: usize, least: u64, most: u64) -> Option<u64>
    ensures { result ≡ number_in digits least most word.now }
{
    if !is_number(word.as_bytes(), digits) {
        return None;
    }
    match word.parse::<u64>() {
        Ok(number) => in_range(number, least, most),
        Err(_) => None,
    }
}

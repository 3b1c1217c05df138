ghost use Rattle.std.specs.Prelude.{◌≡◌, IfOk, map, string_bytes};
ghost use Rattle.std.specs.List.{list_all};
ghost use Rattle.clap.specs.Words.{app_of};
ghost use Rattle.cli_words.specs.Given.{HasRead, options_in};
ghost use Rattle.cli_words.specs.Clap.{is_plain_word, option_app};

use clap::error::ErrorKind;
use clap::{Arg, ArgMatches, Command};
use std::alloc::{AllocError, Global};

/// Whether a word is no hyphen, no `--` and no short option, such as `-v`: a word that begins with a hyphen has a
/// second one and a name.
fn is_plain_word(word: &[u8]) -> bool
    ensures { result ≡ is_plain_word word.now }
{
    word.first() != Some(&b'-') || 2 < word.len() && word[1] == b'-'
}

/// Whether all words are plain.
fn are_plain_words(words: &[String]) -> bool
    ensures { result ≡ list_all is_plain_word (map string_bytes words.now) }
{
    for word in words {
        if !is_plain_word(word.as_bytes()) {
            return false;
        }
    }
    true
}

/// A command with one option of each of these names, which has a value, and without help.
fn option_command<'a>(alloc: Global, names: &[&'a str]) -> Result<Command<'a>, AllocError>
    ensures { IfOk result (λ c. app_of c ≡ option_app (map (λ n. n.now) names.now)) }
{
    let mut command = Command::new(alloc, "dra")
        .no_binary_name(true)
        .disable_help_flag(true);
    for name in names {
        command = command.arg(Arg::new(alloc, *name).long(*name))?;
    }
    Ok(command)
}

/// The options that words give, if each of them has one of these names and is given at most once, as
/// `--name value` or `--name=value`, and there are no other words. `AllocError` is returned only if out of
/// memory.
pub fn given<'a>(
    alloc: Global,
    names: &[&'a str],
    words: &'a [String],
) -> Result<Option<ArgMatches<'a>>, AllocError>
    ensures { IfOk result (HasRead (options_in (map (λ n. n.now) names.now) (map string_bytes words.entry.now))) }
{
    if !are_plain_words(words) {
        return Ok(None);
    }
    let command = option_command(alloc, names)?;
    match command.try_get_matches_from(words) {
        Ok(matches) => Ok(Some(matches)),
        Err(error) => match error.kind() {
            ErrorKind::OutOfMemory => Err(AllocError),
            _ => Ok(None),
        },
    }
}

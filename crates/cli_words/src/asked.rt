ghost use Rattle.std.specs.Prelude.{◌≡◌, IfOk, codes, map, option_map, string_bytes};
ghost use Rattle.std.specs.Option.{option_and_then};
ghost use Rattle.clap.specs.Words.{first_value, found_of};
ghost use Rattle.cli_words.specs.Words.{address_of, command_of, exercise_of, exercise_words, node_of, number_in, number_or, replay_of, replay_words, run_options_of, serve_of, serve_words};

use crate::command::{Command, ExerciseWords, ReplayWords, RunOptions, ServeWords};
use crate::given::given;
use crate::numbers::number_in;
use clap::ArgMatches;
use dra_values::Text;
use object_fields::dns_subdomain;
use std::alloc::{AllocError, Global};

/// The most digits of a number, and of the number `from`.
const DIGITS: usize = 8;

const FROM_DIGITS: usize = 19;

/// The most bytes of a node's name and of an address.
const MOST_NODE: usize = 253;

const MOST_ADDRESS: usize = 255;

/// The number of an option, from `least` to `most`, or the default if it isn't given.
fn number_or(
    matches: &ArgMatches<'_>,
    name: &str,
    default: u64,
    least: u64,
    most: u64,
) -> Option<u64>
    ensures { result ≡ number_or default least most (first_value (found_of matches.now) name.now) }
{
    match matches.get_str(name) {
        Some(word) => number_in(word, DIGITS, least, most),
        None => Some(default),
    }
}

/// The number of an option that has to be given, from `least` to `most`.
fn number_of(
    matches: &ArgMatches<'_>,
    name: &str,
    digits: usize,
    least: u64,
    most: u64,
) -> Option<u64>
    ensures { result ≡ option_and_then (number_in digits least most) (first_value (found_of matches.now) name.now) }
{
    match matches.get_str(name) {
        Some(word) => number_in(word, digits, least, most),
        None => None,
    }
}

/// The options of a run.
fn run_options(matches: &ArgMatches<'_>) -> Option<RunOptions>
    ensures { result ≡ run_options_of (first_value (found_of matches.now)) }
{
    let workers = number_or(matches, "workers", 1, 1, 64)?;
    let budget = number_or(matches, "budget", 100_000, 1, 10_000_000)?;
    let attempts = number_or(matches, "attempts", 32, 1, 64)?;
    let entries = number_or(matches, "entries", 1_000_000, 1, 1_000_000)?;
    Some(RunOptions {
        workers,
        budget,
        attempts,
        entries,
    })
}

/// The name of the node, the empty text if it isn't given.
fn node<'a>(matches: &ArgMatches<'a>) -> Option<&'a str>
    ensures { option_map (λ n. n.now) result ≡ node_of (first_value (found_of matches.now) (codes "node")) }
{
    match matches.get_str("node") {
        Some(word) if dns_subdomain(word, MOST_NODE) => Some(word),
        Some(_) => None,
        None => Some(""),
    }
}

/// The address.
fn address<'a>(matches: &ArgMatches<'a>) -> Option<&'a str>
    ensures { option_map (λ a. a.now) result ≡ option_and_then address_of (first_value (found_of matches.now) (codes "address")) }
{
    match matches.get_str("address") {
        Some(word) if 1 <= word.len() && word.len() <= MOST_ADDRESS => Some(word),
        _ => None,
    }
}

fn replay(alloc: Global, matches: &ArgMatches<'_>) -> Result<Option<ReplayWords>, AllocError>
    ensures { IfOk result (λ words. words ≡ replay_of (first_value (found_of matches.now))) }
{
    let Some(options) = run_options(matches) else {
        return Ok(None);
    };
    let Some(name) = node(matches) else {
        return Ok(None);
    };
    let node = Text::from_str(alloc, name)?;
    Ok(Some(ReplayWords { options, node }))
}

fn serve(alloc: Global, matches: &ArgMatches<'_>) -> Result<Option<ServeWords>, AllocError>
    ensures { IfOk result (λ words. words ≡ serve_of (first_value (found_of matches.now))) }
{
    let Some(options) = run_options(matches) else {
        return Ok(None);
    };
    let Some(name) = address(matches) else {
        return Ok(None);
    };
    let Some(connections) = number_of(matches, "connections", DIGITS, 1, 65_535) else {
        return Ok(None);
    };
    let address = Text::from_str(alloc, name)?;
    Ok(Some(ServeWords {
        options,
        address,
        connections,
    }))
}

fn exercise(matches: &ArgMatches<'_>) -> Option<ExerciseWords>
    ensures { result ≡ exercise_of (first_value (found_of matches.now)) }
{
    let from = number_of(matches, "from", FROM_DIGITS, 0, (1 << 63) - 1)?;
    let pods = number_of(matches, "pods", DIGITS, 0, 100_000)?;
    Some(ExerciseWords { from, pods })
}

/// What `replay` is asked for by the arguments after it.
fn replay_words(alloc: Global, args: &[String]) -> Result<Option<ReplayWords>, AllocError>
    ensures { IfOk result (λ words. words ≡ replay_words (map string_bytes args.now)) }
{
    let names = ["workers", "budget", "attempts", "entries", "node"];
    match given(alloc, names.as_slice(), args)? {
        Some(matches) => replay(alloc, &matches),
        None => Ok(None),
    }
}

/// What `serve` is asked for by the arguments after it.
fn serve_words(alloc: Global, args: &[String]) -> Result<Option<ServeWords>, AllocError>
    ensures { IfOk result (λ words. words ≡ serve_words (map string_bytes args.now)) }
{
    let names = [
        "workers",
        "budget",
        "attempts",
        "entries",
        "address",
        "connections",
    ];
    match given(alloc, names.as_slice(), args)? {
        Some(matches) => serve(alloc, &matches),
        None => Ok(None),
    }
}

/// What `exercise` is asked for by the arguments after it.
fn exercise_words(alloc: Global, args: &[String]) -> Result<Option<ExerciseWords>, AllocError>
    ensures { IfOk result (λ words. words ≡ exercise_words (map string_bytes args.now)) }
{
    let names = ["from", "pods"];
    match given(alloc, names.as_slice(), args)? {
        Some(matches) => Ok(exercise(&matches)),
        None => Ok(None),
    }
}

/// The command that the arguments after the program's name are, or `None` if they are none.
///
/// The first is `replay`, `serve` or `exercise`. Options follow in any order, each at most once, as
/// `--name value` or `--name=value`; a value in an argument of its own doesn't begin with `-`. Numbers are one
/// to eight decimal digits, those of `--from` one to nineteen. `AllocError` is returned only if out of memory.
pub fn words(alloc: Global, args: &[String]) -> Result<Option<Command>, AllocError>
    ensures usage { IfOk result (λ command. command ≡ command_of (map string_bytes args.now)) }
{
    if args.is_empty() {
        return Ok(None);
    }
    let rest = &args[1..];
    match args[0].as_str() {
        "replay" => Ok(replay_words(alloc, rest)?.map(Command::Replay)),
        "serve" => Ok(serve_words(alloc, rest)?.map(Command::Serve)),
        "exercise" => Ok(exercise_words(alloc, rest)?.map(Command::Exercise)),
        _ => Ok(None),
    }
}

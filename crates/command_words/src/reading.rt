//! Reads the words of the command line.

ghost use Rattle.std.specs.Prelude.{◌≡◌, ◌≤◌, ◌++◌, Some, None, option_map, IfSome, MatchResult};
ghost use Rattle.clap.specs.Values.{kind_of};
ghost use Rattle.clap.specs.Matches.{found_of};
ghost use Rattle.clap.specs.Walk.{rows_of};
ghost use Rattle.clap.specs.Simple.{subcommand_rows_of};
ghost use Rattle.clap.specs.declared.error.kind.ErrorKind.TheVariants.{OutOfMemory};
ghost use Rattle.model_commands.specs.Grammar.{api_in, args_of, number_given, number_in, prefix_and_api_in, window_given};
ghost use Rattle.laws_commands.specs.Found.{asked_by, asked_in, is_marked, listed, workers_asked_in};

use crate::args::ArgWords;
use crate::command::program;
use crate::fault::ArgFault;
use clap::error::ErrorKind;
use clap::{ArgMatches, Error};
use key_bytes::Bytes;
use model_commands::{Args, RunArgs};
use model_database::Api;
use std::alloc::Global;

// The longest prefix, in bytes.
const PREFIX_LIMIT: usize = 1_000;

// How many polls a wait has where the words don't say it.
const POLLS: u64 = 10_000;

// How many it may have at most.
const POLLS_LIMIT: u64 = 100_000;

// How many versions a window may have at most.
const WINDOW_LIMIT: u64 = 1_000_000;

// How many workers `gen` may be asked for at most.
const WORKERS_LIMIT: u64 = 30;

/// Reads what the words after the program's name ask for. Usage comes only where they are no command, or a
/// value isn't in its range, and NoMemory where memory ran out; `args` is only read.
pub fn read_args(alloc: Global, args: &ArgWords) -> Result<Args, ArgFault>
    ensures { MatchResult result (λ asked. args_of args.now ≡ Some asked) (λ fault. fault ≡ ArgFault.Usage → args_of args.now ≡ None) }
{
    let words = args.texts()?;
    let command = program(alloc)?;
    match command.try_get_matches_from(words.as_slice()) {
        Ok(matches) => args_found(alloc, &matches),
        Err(error) => Err(fault_of(&error)),
    }
}

// Every error of `clap` but one means that the words are no command.
fn fault_of(error: &Error) -> ArgFault
    ensures { result ≡ ArgFault.Usage → kind_of error.now ≡ OutOfMemory → ⊥ }
{
    match error.kind() {
        ErrorKind::OutOfMemory => ArgFault::NoMemory,
        _ => ArgFault::Usage,
    }
}

// What the subcommand and its arguments ask for.
fn args_found(alloc: Global, matches: &ArgMatches) -> Result<Args, ArgFault>
    ensures { MatchResult result (λ asked. asked_by (subcommand_rows_of matches.now) ≡ Some asked)
        (λ fault. fault ≡ ArgFault.Usage → asked_by (subcommand_rows_of matches.now) ≡ None) }
{
    let Some((name, found)) = matches.subcommand() else {
        return Err(ArgFault::Usage);
    };
    match name {
        "run" => Ok(Args::Run(run_found(alloc, found)?)),
        "replay" => Ok(Args::Replay(run_found(alloc, found)?)),
        "gen" => Ok(Args::Gen(workers_found(found)?)),
        "watch" => Ok(Args::Watch),
        "asm" => Ok(Args::Asm),
        "disasm" => Ok(Args::Disasm),
        _ => Err(ArgFault::Usage),
    }
}

// What the arguments of `run` or `replay` ask for.
fn run_found(alloc: Global, matches: &ArgMatches) -> Result<RunArgs, ArgFault>
    ensures { MatchResult result (λ asked. asked_in (rows_of (found_of matches.now)) ≡ Some asked)
        (λ fault. fault ≡ ArgFault.Usage → asked_in (rows_of (found_of matches.now)) ≡ None) }
{
    let Some((prefix, api)) = prefix_and_api_found(
        matches.get_str("prefix"),
        matches.get_str("api"),
    ) else {
        return Err(ArgFault::Usage);
    };
    let Some(seed) = number_found(matches.get_str("seed"), 0, 0, u64::MAX) else {
        return Err(ArgFault::Usage);
    };
    let Some(polls) = number_found(matches.get_str("polls"), POLLS, 1, POLLS_LIMIT) else {
        return Err(ArgFault::Usage);
    };
    let Some(window) = window_found(matches.get_str("window")) else {
        return Err(ArgFault::Usage);
    };
    Ok(RunArgs {
        prefix: Bytes::from_slice(alloc, prefix.as_bytes())?,
        api,
        seed,
        polls: polls as u32,
        window,
    })
}

// What the argument of `gen` asks for.
fn workers_found(matches: &ArgMatches) -> Result<u32, ArgFault>
    ensures { MatchResult result (λ workers. workers_asked_in (rows_of (found_of matches.now)) ≡ Some workers)
        (λ fault. fault ≡ ArgFault.Usage → workers_asked_in (rows_of (found_of matches.now)) ≡ None) }
{
    match matches.get_str("workers") {
        Some(word) => match number(word, 1, WORKERS_LIMIT) {
            Some(workers) => Ok(workers as u32),
            None => Err(ArgFault::Usage),
        },
        None => Err(ArgFault::Usage),
    }
}

// The prefix and the API version, where the prefix isn't too long and the version is spoken.
fn prefix_and_api_found<'a>(prefix: Option<&'a str>, api: Option<&str>) -> Option<(&'a str, Api)>
    ensures { option_map (λ found. (found.0.now, found.1)) result
        ≡ prefix_and_api_in (listed (option_map (λ word. word.now) prefix.entry) ++ listed (option_map (λ word. word.now) api.entry)) }
{
    match (prefix, api) {
        (Some(prefix), Some(word)) if prefix.len() <= PREFIX_LIMIT => {
            let api = api_found(word)?;
            Some((prefix, api))
        }
        _ => None,
    }
}

// The API version that a word names.
fn api_found(word: &str) -> Option<Api>
    ensures { result ≡ api_in word.now }
{
    match word {
        "630" => Some(Api::V630),
        "500" => Some(Api::V500),
        _ => None,
    }
}

// The number of an option, or what stands for it where it isn't given.
fn number_found(word: Option<&str>, default: u64, least: u64, most: u64) -> Option<u64>
    requires { default ≤ most }
    ensures value { result ≡ number_given default least most (listed (option_map (λ text. text.now) word.entry)) }
    ensures bounded { IfSome result (λ number. number ≤ most) }
{
    match word {
        Some(word) => number(word, least, most),
        None => Some(default),
    }
}

// The window of an option, or that there is none where it isn't given.
fn window_found(word: Option<&str>) -> Option<Option<u32>>
    ensures { result ≡ window_given (listed (option_map (λ text. text.now) word.entry)) }
{
    match word {
        Some(word) => {
            let width = number(word, 1, WINDOW_LIMIT)?;
            Some(Some(width as u32))
        }
        None => Some(None),
    }
}

// The number that a word is, within its bounds.
fn number(word: &str, least: u64, most: u64) -> Option<u64>
    ensures value { result ≡ number_in least most word.now }
    ensures bounded { IfSome result (λ number. number ≤ most) }
{
    if is_marked(word.as_bytes()) {
        return None;
    }
    let Ok(number) = word.parse::<u64>() else {
        return None;
    };
    if least <= number && number <= most {
        Some(number)
    } else {
        None
    }
}

// Whether the word has a sign that `parse` takes, or a leading zero.
fn is_marked(word: &[u8]) -> bool
    ensures { result ≡ is_marked word.now }
{
    word.starts_with(b"+") || (word.starts_with(b"0") && word.len() != 1)
}

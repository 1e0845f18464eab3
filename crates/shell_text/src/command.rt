//! The command that a line is.

ghost use Rattle.std.specs.Prelude.{◌∷◌};
ghost use Rattle.model_shell.specs.Commands.{command_of, command_named, get_of, get_range_of, set_of, clear_of, clear_range_of, limit_of, lone};
ghost use Rattle.shell_text.specs.Reading.{words_left, Gives};

use crate::recipe::recipe_named;
use crate::words::{Unread, Words, first_word, next_token, number_in};
use key_bytes::KeyRange;
use model_shell::Command;
use std::alloc::Global;

// How many pairs `getrange` reads at most where no number says it.
const USUAL_LIMIT: u32 = 25;

// The greatest number that may say it.
const GREATEST_LIMIT: u64 = 2_147_483_647;

/// Returns a command behind which no word is left.
pub(crate) fn lone(words: Words<'_>, command: Command) -> Result<Command, Unread>
    ensures { Gives (λ command. command) result (lone (words_left words.entry) command) }
{
    match words {
        Words::None => Ok(command),
        Words::Of(bytes) => {
            let (_word, _rest) = first_word(bytes);
            Err(Unread::Bad)
        }
    }
}

// Reads the number of the one word that is left.
fn limit_alone(word: &[u8], words: Words<'_>) -> Result<u32, Unread>
    ensures { Gives (λ limit. limit) result (limit_of (word.now ∷ words_left words.entry)) }
{
    match words {
        Words::None => Ok(number_in(1, GREATEST_LIMIT, word)? as u32),
        Words::Of(bytes) => {
            let (_word, _rest) = first_word(bytes);
            Err(Unread::Bad)
        }
    }
}

// Reads how many pairs are wanted at most.
fn limit_of(words: Words<'_>) -> Result<u32, Unread>
    ensures { Gives (λ limit. limit) result (limit_of (words_left words.entry)) }
{
    let Words::Of(bytes) = words else {
        return Ok(USUAL_LIMIT);
    };
    let (word, rest) = first_word(bytes);
    limit_alone(word, rest)
}

#[tactic(auto, unfolding(model_shell::specs::Commands::get_of))]
fn get_of(alloc: Global, words: Words<'_>) -> Result<Command, Unread>
    ensures { Gives (λ command. command) result (get_of (words_left words.entry)) }
{
    let (key, rest) = next_token(alloc, words)?;
    lone(rest, Command::Get { key })
}

#[tactic(auto, unfolding(model_shell::specs::Commands::get_range_of))]
fn get_range_of(alloc: Global, words: Words<'_>) -> Result<Command, Unread>
    ensures { Gives (λ command. command) result (get_range_of (words_left words.entry)) }
{
    let (begin, words) = next_token(alloc, words)?;
    let (end, words) = next_token(alloc, words)?;
    let limit = limit_of(words)?;
    Ok(Command::GetRange {
        range: KeyRange { begin, end },
        limit,
    })
}

#[tactic(auto, unfolding(model_shell::specs::Commands::set_of))]
fn set_of(alloc: Global, words: Words<'_>) -> Result<Command, Unread>
    ensures { Gives (λ command. command) result (set_of (words_left words.entry)) }
{
    let (key, words) = next_token(alloc, words)?;
    let (value, words) = next_token(alloc, words)?;
    lone(words, Command::Set { key, value })
}

#[tactic(auto, unfolding(model_shell::specs::Commands::clear_of))]
fn clear_of(alloc: Global, words: Words<'_>) -> Result<Command, Unread>
    ensures { Gives (λ command. command) result (clear_of (words_left words.entry)) }
{
    let (key, words) = next_token(alloc, words)?;
    lone(words, Command::Clear { key })
}

#[tactic(auto, unfolding(model_shell::specs::Commands::clear_range_of))]
fn clear_range_of(alloc: Global, words: Words<'_>) -> Result<Command, Unread>
    ensures { Gives (λ command. command) result (clear_range_of (words_left words.entry)) }
{
    let (begin, words) = next_token(alloc, words)?;
    let (end, words) = next_token(alloc, words)?;
    lone(
        words,
        Command::ClearRange {
            range: KeyRange { begin, end },
        },
    )
}

// Reads the command of a name from the words behind it.
#[tactic(auto, unfolding(model_shell::specs::Commands::command_named))]
fn command_named(alloc: Global, name: &[u8], words: Words<'_>) -> Result<Command, Unread>
    ensures { Gives (λ command. command) result (command_named name.now (words_left words.entry)) }
{
    if name == b"begin".as_slice() {
        lone(words, Command::Begin)
    } else if name == b"commit".as_slice() {
        lone(words, Command::Commit)
    } else if name == b"reset".as_slice() {
        lone(words, Command::Reset)
    } else if name == b"get".as_slice() {
        get_of(alloc, words)
    } else if name == b"getrange".as_slice() {
        get_range_of(alloc, words)
    } else if name == b"set".as_slice() {
        set_of(alloc, words)
    } else if name == b"clear".as_slice() {
        clear_of(alloc, words)
    } else if name == b"clearrange".as_slice() {
        clear_range_of(alloc, words)
    } else {
        recipe_named(alloc, name, words)
    }
}

/// Reads the command that a line is. It is Bad exactly where the line is none.
#[tactic(auto, unfolding(model_shell::specs::Commands::command_of))]
pub fn command_of(alloc: Global, line: &[u8]) -> Result<Command, Unread>
    ensures { Gives (λ command. command) result (command_of line.now) }
{
    let (name, words) = first_word(line);
    command_named(alloc, name, words)
}

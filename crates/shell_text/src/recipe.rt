//! The calls of layers that a line may be.

ghost use Rattle.std.specs.Prelude.{◌≤◌, IfOk};
ghost use Rattle.model_shell.specs.Commands.{next_number, push_of, pop_of, add_of, subtract_of, values_of, write_of, read_of, size_of, recipe_named};
ghost use Rattle.shell_text.specs.Reading.{words_left, Gives};

use crate::command::lone;
use crate::words::{Unread, Words, first_word, next_token, number_in};
use model_shell::{Command, Recipe};
use std::alloc::Global;

// Reads the next word, which is to be a number up to this one; returns it and the words behind it.
fn next_number<'a>(most: u64, words: Words<'a>) -> Result<(u64, Words<'a>), Unread>
    ensures value { Gives (λ read. (read.0, words_left read.1)) result (next_number most (words_left words.entry)) }
    ensures within { IfOk result (λ read. read.0 ≤ most) }
{
    let Words::Of(left) = words else {
        return Err(Unread::Bad);
    };
    let (word, rest) = first_word(left);
    let number = number_in(0, most, word)?;
    Ok((number, rest))
}

#[tactic(auto, unfolding(model_shell::specs::Commands::push_of))]
fn push_of(alloc: Global, words: Words<'_>) -> Result<Command, Unread>
    ensures { Gives (λ command. command) result (push_of (words_left words.entry)) }
{
    let (queue, words) = next_token(alloc, words)?;
    let (value, words) = next_token(alloc, words)?;
    let recipe = Recipe::Push { queue, value };
    lone(words, Command::Recipe { recipe })
}

#[tactic(auto, unfolding(model_shell::specs::Commands::pop_of))]
fn pop_of(alloc: Global, words: Words<'_>) -> Result<Command, Unread>
    ensures { Gives (λ command. command) result (pop_of (words_left words.entry)) }
{
    let (queue, words) = next_token(alloc, words)?;
    let recipe = Recipe::Pop { queue };
    lone(words, Command::Recipe { recipe })
}

#[tactic(auto, unfolding(model_shell::specs::Commands::add_of))]
fn add_of(alloc: Global, words: Words<'_>) -> Result<Command, Unread>
    ensures { Gives (λ command. command) result (add_of (words_left words.entry)) }
{
    let (multi, words) = next_token(alloc, words)?;
    let (key, words) = next_token(alloc, words)?;
    let (value, words) = next_token(alloc, words)?;
    let recipe = Recipe::Add { multi, key, value };
    lone(words, Command::Recipe { recipe })
}

#[tactic(auto, unfolding(model_shell::specs::Commands::subtract_of))]
fn subtract_of(alloc: Global, words: Words<'_>) -> Result<Command, Unread>
    ensures { Gives (λ command. command) result (subtract_of (words_left words.entry)) }
{
    let (multi, words) = next_token(alloc, words)?;
    let (key, words) = next_token(alloc, words)?;
    let (value, words) = next_token(alloc, words)?;
    let recipe = Recipe::Subtract { multi, key, value };
    lone(words, Command::Recipe { recipe })
}

#[tactic(auto, unfolding(model_shell::specs::Commands::values_of))]
fn values_of(alloc: Global, words: Words<'_>) -> Result<Command, Unread>
    ensures { Gives (λ command. command) result (values_of (words_left words.entry)) }
{
    let (multi, words) = next_token(alloc, words)?;
    let (key, words) = next_token(alloc, words)?;
    let recipe = Recipe::Values { multi, key };
    lone(words, Command::Recipe { recipe })
}

#[tactic(auto, unfolding(model_shell::specs::Commands::write_of))]
fn write_of(alloc: Global, words: Words<'_>) -> Result<Command, Unread>
    ensures { Gives (λ command. command) result (write_of (words_left words.entry)) }
{
    let (blob, words) = next_token(alloc, words)?;
    let (at, words) = next_number(u64::MAX, words)?;
    let (piece, words) = next_token(alloc, words)?;
    let recipe = Recipe::Write { blob, at, piece };
    lone(words, Command::Recipe { recipe })
}

#[tactic(auto, unfolding(model_shell::specs::Commands::read_of))]
fn read_of(alloc: Global, words: Words<'_>) -> Result<Command, Unread>
    ensures { Gives (λ command. command) result (read_of (words_left words.entry)) }
{
    let (blob, words) = next_token(alloc, words)?;
    let (from, words) = next_number(u64::MAX, words)?;
    let (most, words) = next_number(u32::MAX as u64, words)?;
    let most = most as u32;
    let recipe = Recipe::Read { blob, from, most };
    lone(words, Command::Recipe { recipe })
}

#[tactic(auto, unfolding(model_shell::specs::Commands::size_of))]
fn size_of(alloc: Global, words: Words<'_>) -> Result<Command, Unread>
    ensures { Gives (λ command. command) result (size_of (words_left words.entry)) }
{
    let (blob, words) = next_token(alloc, words)?;
    let recipe = Recipe::Size { blob };
    lone(words, Command::Recipe { recipe })
}

/// Reads the call of a layer of a name from the words behind it.
#[tactic(auto, unfolding(model_shell::specs::Commands::recipe_named))]
pub(crate) fn recipe_named(alloc: Global, name: &[u8], words: Words<'_>) -> Result<Command, Unread>
    ensures { Gives (λ command. command) result (recipe_named name.now (words_left words.entry)) }
{
    if name == b"qpush".as_slice() {
        push_of(alloc, words)
    } else if name == b"qpop".as_slice() {
        pop_of(alloc, words)
    } else if name == b"madd".as_slice() {
        add_of(alloc, words)
    } else if name == b"msub".as_slice() {
        subtract_of(alloc, words)
    } else if name == b"mget".as_slice() {
        values_of(alloc, words)
    } else if name == b"bwrite".as_slice() {
        write_of(alloc, words)
    } else if name == b"bread".as_slice() {
        read_of(alloc, words)
    } else if name == b"bsize".as_slice() {
        size_of(alloc, words)
    } else {
        Err(Unread::Bad)
    }
}

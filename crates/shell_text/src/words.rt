//! The words of a line: tokens and numbers.

ghost use Rattle.std.specs.Prelude.{◌≡◌, ◌≤◌, ◌∷◌, length, Ok, IfOk};
ghost use Rattle.model_shell.specs.Tokens.{words_of, spelled_up_to, bytes_in, bounded, number_in};
ghost use Rattle.model_shell.specs.Commands.{next_token};
ghost use Rattle.shell_text.specs.Reading.{words_left, unread_is, Gives};
ghost use Rattle.shell_text.specs.declared.words.Unread.TheVariants.{NoMemory};

use dump_reading::{FieldFault, PrintableFault, number_of, read_printable};
use key_bytes::Bytes;
use memchr::memchr;
use std::alloc::{AllocError, AllocFailed, Global};

/// Why words were not read.
#[derive(Clone, Copy, Debug, PartialEq, Eq)]
pub enum Unread {
    /// They are no command.
    Bad,
    /// Memory ran out.
    NoMemory,
}

impl From<AllocError> for Unread {
    ghost from_gives = { λ _ e. e ≡ NoMemory };

    fn from(_e: AllocError) -> Unread {
        Unread::NoMemory
    }
}

impl<T: Drop> From<AllocFailed<T>> for Unread {
    ghost from_gives = { λ _ e. e ≡ NoMemory };

    fn from(_e: AllocFailed<T>) -> Unread {
        Unread::NoMemory
    }
}

/// The words of a line that are left.
#[derive(Clone, Copy)]
pub enum Words<'a> {
    /// There is none.
    None,
    /// Those of these bytes, between their spaces.
    Of(&'a [u8]),
}

/// Splits the first word off bytes; returns it and the words behind it.
pub fn first_word(bytes: &[u8]) -> (&[u8], Words<'_>)
    ensures { words_of bytes.now ≡ result.0.now ∷ words_left result.1 }
{
    match memchr(b' ', bytes) {
        Some(n) => (&bytes[..n], Words::Of(&bytes[n + 1..])),
        None => (bytes, Words::None),
    }
}

// Returns the same fault, as one of words.
fn unread_of(fault: PrintableFault) -> Unread
    ensures { result ≡ unread_is fault }
{
    match fault {
        PrintableFault::Bad { .. } => Unread::Bad,
        PrintableFault::NoMemory => Unread::NoMemory,
    }
}

// Reads the bytes that are spelled up to the end of a word.
fn spelled_in(alloc: Global, word: &[u8]) -> Result<Bytes, Unread>
    ensures { Gives (λ bytes. bytes) result (spelled_up_to (length word.now) word.now) }
{
    match read_printable(alloc, word, Some(b' ')) {
        Ok(bytes) => Ok(bytes),
        Err(fault) => Err(unread_of(fault)),
    }
}

// Reads the bytes that a word spells as a token.
#[tactic(auto, unfolding(model_shell::specs::Tokens::bytes_in))]
fn bytes_in(alloc: Global, word: &[u8]) -> Result<Bytes, Unread>
    ensures { Gives (λ bytes. bytes) result (bytes_in word.now) }
{
    if word.is_empty() {
        return Err(Unread::Bad);
    }
    if word == b"\\e".as_slice() {
        return Ok(Bytes::new(alloc));
    }
    spelled_in(alloc, word)
}

/// Reads the bytes of the next word, which is to be a token; returns them and the words behind it.
pub fn next_token<'a>(alloc: Global, words: Words<'a>) -> Result<(Bytes, Words<'a>), Unread>
    ensures { Gives (λ read. (read.0, words_left read.1)) result (next_token (words_left words.entry)) }
{
    let Words::Of(left) = words else {
        return Err(Unread::Bad);
    };
    let (word, rest) = first_word(left);
    let bytes = bytes_in(alloc, word)?;
    Ok((bytes, rest))
}

// Returns a number that ends with its word, if it isn't too small.
fn bounded(least: u64, number: u64, rest: &[u8]) -> Result<u64, Unread>
    ensures value { Gives (λ number. number) result (bounded least (Ok (number, rest.now))) }
    ensures same { IfOk result (λ its. its ≡ number) }
{
    if rest.is_empty() && least <= number {
        Ok(number)
    } else {
        Err(Unread::Bad)
    }
}

/// Reads the number that a word spells, if it lies within these bounds.
#[tactic(auto, unfolding(model_shell::specs::Tokens::number_in))]
pub fn number_in(least: u64, most: u64, word: &[u8]) -> Result<u64, Unread>
    ensures value { Gives (λ number. number) result (number_in least most word.now) }
    ensures within { IfOk result (λ number. number ≤ most) }
{
    match number_of(most, word) {
        Ok((number, rest)) => bounded(least, number, rest),
        Err(FieldFault::Bad(_)) => Err(Unread::Bad),
        Err(FieldFault::NoMemory) => Err(Unread::NoMemory),
    }
}

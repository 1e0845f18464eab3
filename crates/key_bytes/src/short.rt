//! A byte string of at most 22 bytes, kept where it is.

ghost use Rattle.std.specs.Prelude.{◌≡◌, ◌+◌, ◌<◌, ◌≤◌, ◌↔◌, [], ◌∷◌, ◌++◌, length, take, drop, IsTrue};
ghost use Rattle.std.specs.Int.{w64, from_be_bytes};
ghost use Rattle.key_bytes.specs.Keys.{IsByteString, key_cmp};

use std::cmp::Ordering;
use std::marker::Model;

// How many bytes there is room for.
pub(crate) const SHORT_LIMIT: usize = 22;

// A byte string of at most 22 bytes. Contracts see the list of its bytes. The room behind them is zero, so that two
// are compared by whole words.
#[derive(Debug)]
pub(crate) struct Short {
    len: u8,
    room: [u8; 22],
}

impl Model for Short {
    ghost use Rattle.std.specs.Prelude.{ℕ, List, take};
    ghost use Rattle.key_bytes.specs.Rooms.{IsPadded};

    ghost Value = { List ℕ };

    ghost view = { λ short. take short.len short.room };

    ghost invariant = { λ short. IsPadded short.len short.room };
}

impl Drop for Short {
    fn drop(self) {
        let Short { len: _, room: _ } = self;
    }
}

impl Short {
    // The empty byte string.
    pub(crate) fn new() -> Short
        ensures { result ≡ [] }
    {
        Short {
            len: 0,
            room: [0; SHORT_LIMIT],
        }
    }

    // These bytes.
    pub(crate) fn from_slice(bytes: &[u8]) -> Short
        requires { length bytes.now ≤ SHORT_LIMIT }
        ensures { result ≡ bytes.now }
    {
        let mut room = [0; SHORT_LIMIT];
        room[..bytes.len()].copy_from_slice(bytes);
        Short {
            len: bytes.len() as u8,
            room,
        }
    }

    // The first bytes with the others behind them.
    pub(crate) fn joined(first: &[u8], second: &[u8]) -> Short
        requires { length first.now + length second.now ≤ SHORT_LIMIT }
        ensures { result ≡ first.now ++ second.now }
    {
        let len = first.len() + second.len();
        let mut room = [0; SHORT_LIMIT];
        room[..first.len()].copy_from_slice(first);
        room[first.len()..len].copy_from_slice(second);
        Short {
            len: len as u8,
            room,
        }
    }

    // Whether so many bytes more find room.
    pub(crate) fn has_room_for(&self, count: usize) -> bool
        ensures { IsTrue result ↔ (length self.now + count ≤ SHORT_LIMIT) }
    {
        count <= SHORT_LIMIT - usize::from(self.len)
    }

    // A copy with one byte more.
    pub(crate) fn pushed(&self, byte: u8) -> Short
        requires { length self.now < SHORT_LIMIT }
        ensures { result ≡ self.now ++ byte ∷ [] }
    {
        let mut room = self.room;
        room[usize::from(self.len)] = byte;
        Short {
            len: self.len + 1,
            room,
        }
    }

    // Adds bytes at the end.
    pub(crate) fn extend(&mut self, bytes: &[u8])
        requires { length self.old + length bytes.now ≤ SHORT_LIMIT }
        ensures { self.new ≡ self.old ++ bytes.now }
    {
        let len = usize::from(self.len);
        let end = len + bytes.len();
        self.room[len..end].copy_from_slice(bytes);
        self.len = end as u8;
    }

    // A copy.
    #[inline(always)]
    pub(crate) fn copy(&self) -> Short
        ensures { result ≡ self.now }
    {
        Short {
            len: self.len,
            room: self.room,
        }
    }

    // The bytes.
    pub(crate) fn as_slice(&self) -> &[u8]
        ensures value { result.now ≡ self.now }
        ensures short { length self.now ≤ SHORT_LIMIT }
    {
        &self.room[..usize::from(self.len)]
    }

    // Which of two stands first in the order of keys. Where the first word decides, as it mostly does, that takes no call.
    #[inline(always)]
    pub(crate) fn cmp(&self, other: &Short) -> Ordering
        ensures { result ≡ key_cmp self.now other.now }
    {
        let first = word_at(&self.room, 0).cmp(&word_at(&other.room, 0));
        if first.is_ne() {
            return first;
        }
        self.cmp_words(other)
    }

    // The same by all words. The second and the third word share two bytes, so that three words hold the whole room; where all
    // three are the same, the longer one goes on with zeros and stands later.
    #[inline(never)]
    fn cmp_words(&self, other: &Short) -> Ordering
        ensures { result ≡ key_cmp self.now other.now }
    {
        let first = word_at(&self.room, 0).cmp(&word_at(&other.room, 0));
        if first.is_ne() {
            return first;
        }
        let second = word_at(&self.room, 8).cmp(&word_at(&other.room, 8));
        if second.is_ne() {
            return second;
        }
        let third = word_at(&self.room, 14).cmp(&word_at(&other.room, 14));
        if third.is_ne() {
            return third;
        }
        self.len.cmp(&other.len)
    }
}

// The eight bytes from a place on as one number, the highest first.
#[inline(always)]
fn word_at(room: &[u8; 22], at: usize) -> u64
    requires { at ≤ 14 }
    ensures word { result ≡ from_be_bytes w64 (take 8 (drop at room.now)) }
    ensures bytes { IsByteString (take 8 (drop at room.now)) }
    ensures eight { length (take 8 (drop at room.now)) ≡ 8 }
    ensures whole { length room.now ≡ 22 }
{
    match room[at..].first_chunk::<8>() {
        Some(chunk) => u64::from_be_bytes(*chunk),
        None => 0,
    }
}

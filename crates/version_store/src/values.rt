//! The values that a key was given.

ghost use Rattle.std.specs.Prelude.{◌≡◌, ◌≤◌, ◌+◌, ◌∷◌, ◌++◌, ℕ, List, [], length, true, false, option_copied, OnOk};
ghost use Rattle.std.specs.Option.{option_to_list};
ghost use Rattle.std.specs.VecDeque.{deque_capacity};
ghost use Rattle.version_store.specs.Values.{given_of, givens, chain_of_values, has_room, is_needless, IsOne};
ghost use Rattle.version_store.specs.Versions.{Chain, holding};

use key_bytes::Bytes;
use std::alloc::{AllocError, Global};
use std::collections::VecDeque;
use std::mem;

// What a key was given at a version: a value, or none where it was removed.
#[derive(Drop)]
pub(crate) struct Given {
    pub(crate) version: u64,
    pub(crate) value: Option<Bytes>,
}

// What a key was given, the newest first. What nothing came after lies here itself, so that a load takes no memory of its own for it.
#[derive(Drop)]
pub(crate) enum Values {
    Nothing,
    One(Given),
    Many(VecDeque<Given>),
}

const _: () = prove!(size_of::<Values>() <= 48);

impl Given {
    // Returns what the key holds at a version, where nothing came after.
    fn at(&self, version: u64) -> Option<&Bytes>
        ensures { option_copied result ≡ holding version (given_of self.now ∷ []) }
    {
        if self.version <= version {
            return self.value.as_ref();
        }
        None
    }
}

impl Values {
    // Returns what the key holds at a version.
    pub(crate) fn at(&self, version: u64) -> Option<&Bytes>
        ensures { option_copied result ≡ holding version (chain_of_values self.now) }
    {
        match self {
            Values::Nothing => None,
            Values::One(given) => given.at(version),
            Values::Many(queue) => held_in(queue, version),
        }
    }

    // Returns how many there are.
    pub(crate) fn len(&self) -> usize
        ensures { result ≡ length (chain_of_values self.now) }
    {
        match self {
            Values::Nothing => 0,
            Values::One(_) => 1,
            Values::Many(queue) => queue.len(),
        }
    }

    // Makes room for one more, before the others.
    pub(crate) fn make_room(&mut self, alloc: Global) -> Result<(), AllocError>
        ensures same { chain_of_values self.new ≡ chain_of_values self.old }
        ensures room { OnOk result (has_room self.new ≡ true) }
        ensures kept { has_room self.old ≡ true → has_room self.new ≡ true }
    {
        match self {
            Values::Nothing => Ok(()),
            Values::One(_) => {
                let queue = VecDeque::with_capacity(alloc, 2)?;
                self.move_to(queue);
                Ok(())
            }
            Values::Many(queue) => queue.reserve(1),
        }
    }

    // Moves what the key was given once into an empty queue with room for two.
    fn move_to(&mut self, mut queue: VecDeque<Given>)
        requires one { IsOne self.old }
        requires empty { queue.items ≡ [] }
        requires room { 2 ≤ deque_capacity queue }
        ensures same { chain_of_values self.new ≡ chain_of_values self.old }
        ensures room { has_room self.new ≡ true }
    {
        if let Values::One(given) = mem::replace(self, Values::Nothing) {
            queue.push_back_reserved(given);
        }
        *self = Values::Many(queue);
    }

    // Puts what the key is given now before the others.
    pub(crate) fn push(&mut self, given: Given)
        requires { has_room self.old ≡ true }
        ensures { chain_of_values self.new ≡ given_of given ∷ chain_of_values self.old }
    {
        match self {
            Values::Many(queue) => queue.push_front_reserved(given),
            _ => *self = Values::One(given),
        }
    }

    // Drops from the end what no version from `oldest` on needs.
    pub(crate) fn trim(&mut self, oldest: u64)
        ensures same { (version : ℕ) → oldest ≤ version
            → holding version (chain_of_values self.new) ≡ holding version (chain_of_values self.old) }
        ensures trimmed { is_needless oldest (chain_of_values self.new) ≡ false }
        ensures begins { (gone : Chain) × (chain_of_values self.old ≡ chain_of_values self.new ++ gone) }
    {
        match self {
            Values::Nothing => {}
            Values::One(given) => {
                if given.value.is_none() {
                    *self = Values::Nothing;
                }
            }
            Values::Many(queue) => {
                trim_queue(queue, oldest);
                if queue.len() <= 1 {
                    let left = queue.pop_back();
                    *self = of_one(left);
                }
            }
        }
    }
}

// What a key was given at most once.
fn of_one(left: Option<Given>) -> Values
    ensures { chain_of_values result ≡ givens (option_to_list left) }
{
    match left {
        Some(given) => Values::One(given),
        None => Values::Nothing,
    }
}

// What a queue holds at a version: the first that is no later.
fn held_in(queue: &VecDeque<Given>, version: u64) -> Option<&Bytes>
    ensures { option_copied result ≡ holding version (givens queue.now.items) }
{
    for i in 0..queue.len() {
        let given = &queue[i];
        if given.version <= version {
            return given.value.as_ref();
        }
    }
    None
}

// Whether no version from `oldest` on needs the last of a queue: it is an absence, as the end is, or the one before it is no later
// than `oldest`.
fn is_needless(queue: &VecDeque<Given>, oldest: u64) -> bool
    ensures { result ≡ is_needless oldest (givens queue.now.items) }
{
    let count = queue.len();
    if count == 0 {
        return false;
    }
    if count == 1 {
        return queue[0].value.is_none();
    }
    let (last, before) = (&queue[count - 1], &queue[count - 2]);
    last.value.is_none() || before.version <= oldest
}

// Drops from the end what no version from `oldest` on needs.
fn trim_queue(queue: &mut VecDeque<Given>, oldest: u64)
    ensures same { (version : ℕ) → oldest ≤ version
        → holding version (givens queue.new.items) ≡ holding version (givens queue.old.items) }
    ensures trimmed { is_needless oldest (givens queue.new.items) ≡ false }
    ensures begins { (gone : Chain) × (givens queue.old.items ≡ givens queue.new.items ++ gone) }
{
    while is_needless(queue, oldest) {
        queue.pop_back();
    }
}

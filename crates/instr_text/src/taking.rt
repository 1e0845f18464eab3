//! Taking a pair apart.

ghost use Rattle.std.specs.Prelude.{◌≡◌, ◌+◌, [], ◌∷◌, ◌++◌, ◌^◌, ◌<◌, ◌≤◌, Some, List, ℕ, IfOk, OnOk, option_map};
ghost use Rattle.key_bytes.specs.Entries.{entry_of};
ghost use Rattle.fdb_tuple.specs.Reading.{read_tuple};
ghost use Rattle.instr_grammar.specs.Taking.{Taken, place_of, instruction_in, in_tuple, follows, step_by, step};
ghost use Rattle.instr_text.specs.Taken.{bytes_in, text_in, index_in, place_in, alone, with_element, instruction_of, place_is, tuple_found, Writes, IsTaken, HasHead, Steps};

use fdb_tuple::{Elem, Tuple, UnpackFault, unpack};
use instr_grammar::{is_name, write_name, write_prefix, write_push};
use key_bytes::{Bytes, Pair};
use key_map::KeyMap;
use std::alloc::{AllocError, Global};

// How many bytes the prefix of a section may have.
const PREFIX_LIMIT: usize = 1_000;

/// The prefix and the index that a key packs.
#[derive(Drop)]
pub struct Place {
    pub prefix: Bytes,
    pub index: u128,
}

// Returns the byte string that an element is.
fn bytes_in(element: &Elem) -> Option<&Bytes>
    ensures { option_map (λ bytes. bytes.now) result ≡ bytes_in element.now }
{
    match element {
        Elem::Bytes(bytes) => Some(bytes),
        _ => None,
    }
}

// Returns the Unicode string that an element is, by its bytes.
fn text_in(element: &Elem) -> Option<&[u8]>
    ensures { option_map (λ text. text.now) result ≡ text_in element.now }
{
    match element {
        Elem::Text(text) => Some(text.as_bytes()),
        _ => None,
    }
}

// Returns the integer that an element is, where it isn't negative.
fn index_in(element: &Elem) -> Option<u128>
    ensures { result ≡ index_in element.now }
{
    match element {
        Elem::Int(number) if *number >= 0 => Some(number.unsigned_abs()),
        _ => None,
    }
}

// Returns the prefix and the index that are the only elements.
fn place_in(elements: &[Elem]) -> Result<Option<Place>, AllocError>
    ensures { IfOk result (λ place. option_map place_is place ≡ place_in elements.now) }
{
    let [prefix, index] = elements else {
        return Ok(None);
    };
    let Some(prefix) = bytes_in(prefix) else {
        return Ok(None);
    };
    let Some(index) = index_in(index) else {
        return Ok(None);
    };
    Ok(Some(Place {
        prefix: prefix.copy()?,
        index,
    }))
}

// Adds the line of the operation that this element names.
fn write_alone(to: &mut Vec<u8>, name: &Elem) -> Result<bool, AllocError>
    ensures { IfOk result (λ is. Writes is to.old.items to.new.items (alone (text_in name.now))) }
{
    match text_in(name) {
        Some(name) if is_name(name) => {
            write_name(to, name)?;
            Ok(true)
        }
        _ => Ok(false),
    }
}

// Adds the line that pushes the second element, where the first one is PUSH.
fn write_with_element(to: &mut Vec<u8>, name: &Elem, element: &Elem) -> Result<bool, AllocError>
    ensures { IfOk result (λ is. Writes is to.old.items to.new.items (with_element (text_in name.now) element.now)) }
{
    match text_in(name) {
        Some(name) if name == b"PUSH".as_slice() => {
            write_push(to, element)?;
            Ok(true)
        }
        _ => Ok(false),
    }
}

// Adds the line of the instruction that the elements are.
fn write_instruction(to: &mut Vec<u8>, elements: &[Elem]) -> Result<bool, AllocError>
    ensures { IfOk result (λ is. Writes is to.old.items to.new.items (instruction_of elements.now)) }
{
    match elements {
        [name] => write_alone(to, name),
        [name, element] => write_with_element(to, name, element),
        _ => Ok(false),
    }
}

// Unpacks a tuple; there is none where the bytes spell none.
fn tuple_in(alloc: Global, bytes: &[u8]) -> Result<Option<Tuple>, AllocError>
    ensures { IfOk result (λ tuple. tuple ≡ tuple_found (read_tuple bytes.now)) }
{
    match unpack(alloc, bytes) {
        Ok(tuple) => Ok(Some(tuple)),
        Err(UnpackFault::NoMemory) => Err(AllocError),
        Err(_) => Ok(None),
    }
}

// Returns the prefix and the index that a key packs.
fn place_of(alloc: Global, key: &[u8]) -> Result<Option<Place>, AllocError>
    ensures { IfOk result (λ place. option_map place_is place ≡ in_tuple place_of (read_tuple key.now)) }
{
    match tuple_in(alloc, key)? {
        Some(tuple) => place_in(tuple.as_slice()),
        None => Ok(None),
    }
}

// Adds the line of the instruction that a value packs.
fn write_packed(alloc: Global, to: &mut Vec<u8>, value: &[u8]) -> Result<bool, AllocError>
    ensures { IfOk result (λ is. Writes is to.old.items to.new.items (in_tuple instruction_in (read_tuple value.now))) }
{
    match tuple_in(alloc, value)? {
        Some(tuple) => write_instruction(to, tuple.as_slice()),
        None => Ok(false),
    }
}

/// What was taken apart before a pair.
#[derive(Drop)]
pub struct Taker {
    pub alloc: Global,
    /// The prefixes that came.
    pub came: KeyMap<()>,
    /// Whether a section is open.
    pub is_open: bool,
    /// The prefix of the section that is open.
    pub prefix: Bytes,
    /// The index that comes next in the section that is open.
    pub index: u128,
}

impl Taker {
    /// Returns what was taken apart before the first pair: nothing.
    pub fn new(alloc: Global) -> Taker
        ensures taken { IsTaken result (record { prefixes = []; index = 0 }) }
        ensures index { result.index ≡ 0 }
    {
        Taker {
            alloc,
            came: KeyMap::new(alloc),
            is_open: false,
            prefix: Bytes::new(alloc),
            index: 0,
        }
    }

    // Tells whether an instruction of this place can come next: index 0 begins the section of a prefix that didn't come, and any
    // other goes on in the section that is open.
    fn follows(&self, place: &Place) -> bool
        ensures { (taken : Taken) → IsTaken self.now taken → result ≡ follows taken (place_is place.now) }
    {
        if place.index == 0 {
            return place.prefix.len() <= PREFIX_LIMIT && !self.came.contains_key(&place.prefix);
        }
        self.is_open
            && self.prefix.as_slice() == place.prefix.as_slice()
            && place.index == self.index
    }

    // Begins the section of a prefix, whose instruction 0 is there.
    fn begin(&mut self, prefix: Bytes) -> Result<(), AllocError>
        ensures taken { (taken : Taken) → IsTaken self.old taken
            → OnOk result (IsTaken self.new (record { prefixes = prefix ∷ taken.prefixes; index = 1 })) }
        ensures index { OnOk result (self.new.index ≡ 1) }
    {
        let came = prefix.copy()?;
        self.came.insert(came, ())?;
        self.is_open = true;
        self.prefix = prefix;
        self.index = 1;
        Ok(())
    }

    // Takes the place of an instruction; where a section begins there, its line is added.
    fn put_head(&mut self, to: &mut Vec<u8>, place: Place) -> Result<(), AllocError>
        requires { self.old.index + 1 < 2 ^ 128 }
        ensures taken { (taken : Taken) → IsTaken self.old taken
            → OnOk result (HasHead self.new to.old.items to.new.items taken (place_is place)) }
        ensures index { OnOk result (self.new.index ≤ self.old.index + 1) }
    {
        if place.index == 0 {
            write_prefix(to, place.prefix.as_slice())?;
            return self.begin(place.prefix);
        }
        self.index += 1;
        Ok(())
    }

    // Takes the pair of a place and a value apart.
    fn step_at(&mut self, to: &mut Vec<u8>, place: Place, value: &[u8]) -> Result<bool, AllocError>
        requires { self.old.index + 1 < 2 ^ 128 }
        ensures steps { (taken : Taken) → IsTaken self.old taken → IfOk result (λ goes_on. Steps goes_on self.new to.old.items to.new.items
            (step_by taken (Some (place_is place)) (in_tuple instruction_in (read_tuple value.now)))) }
        ensures index { OnOk result (self.new.index ≤ self.old.index + 1) }
    {
        if !self.follows(&place) {
            return Ok(false);
        }
        self.put_head(to, place)?;
        write_packed(self.alloc, to, value)
    }

    /// Takes a pair apart: adds its lines, and answers true; or answers false where it can't follow.
    pub fn step(&mut self, to: &mut Vec<u8>, pair: &Pair) -> Result<bool, AllocError>
        requires { self.old.index + 1 < 2 ^ 128 }
        ensures steps { (taken : Taken) → IsTaken self.old taken
            → IfOk result (λ goes_on. Steps goes_on self.new to.old.items to.new.items (step taken (entry_of pair.now))) }
        ensures index { OnOk result (self.new.index ≤ self.old.index + 1) }
    {
        match place_of(self.alloc, pair.key.as_slice())? {
            None => Ok(false),
            Some(place) => self.step_at(to, place, pair.value.as_slice()),
        }
    }
}

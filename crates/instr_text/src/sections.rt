//! The sections that came before a line of a text.

ghost use Rattle.std.specs.Prelude.{◌≡◌, ◌+◌, ◌^◌, ◌<◌, ◌≤◌, not, ◌==◌, true, [], ◌∷◌, ◌++◌, length, List, ℕ, OnOk, IfOk, pos};
ghost use Rattle.model_lines.specs.Reading.{Line, Entry};
ghost use Rattle.fdb_tuple.specs.Tuples.{Bytes, Int, Empty, Single};
ghost use Rattle.fdb_tuple.specs.Spelling.{spelling};
ghost use Rattle.instr_grammar.specs.Names.{is_among};
ghost use Rattle.instr_grammar.specs.Texts.{Instruction, instruction_key};
ghost use Rattle.instr_grammar.specs.Lines.{Place, start, is_waiting, next_place, first_of, Begins, Does};
ghost use Rattle.instr_grammar.specs.Lines as lines;
ghost use Rattle.instr_text.specs.Saying.{IsSaid};
ghost use Rattle.instr_text.specs.Standing.{IsAt, IsInside, HasTaken};

use crate::line::Said;
use fdb_tuple::{Elem, pack_element};
use key_bytes::{Bytes, Pair, Pairs};
use key_map::KeyMap;
use std::alloc::{AllocError, Global};

/// The sections that came before a line.
#[derive(Drop)]
pub struct Sections {
    pub alloc: Global,
    /// The prefixes that came.
    pub came: KeyMap<()>,
    /// Whether a section is open.
    pub is_open: bool,
    /// The packed prefix of the section that is open.
    pub head: Bytes,
    /// How many instructions the section that is open has.
    pub index: usize,
    /// How many instructions came.
    pub instructions: usize,
}

impl Sections {
    /// Returns the sections before the first line: there are none.
    pub fn new(alloc: Global) -> Sections
        ensures { IsAt result start }
    {
        Sections {
            alloc,
            came: KeyMap::new(alloc),
            is_open: false,
            head: Bytes::new(alloc),
            index: 0,
            instructions: 0,
        }
    }

    /// Tells whether a section is open.
    pub fn is_open(&self) -> bool
        ensures { (place : Place) → IsAt self.now place → result ≡ not (length place.prefixes == 0) }
    {
        self.is_open
    }

    /// Tells whether a section is open that has no instruction yet.
    pub fn is_waiting(&self) -> bool
        ensures { (place : Place) → IsAt self.now place → result ≡ is_waiting place }
    {
        self.is_open && self.index == 0
    }

    /// Tells whether a prefix came.
    pub fn has(&self, prefix: &Bytes) -> bool
        ensures { (place : Place) → IsAt self.now place → result ≡ is_among prefix.now place.prefixes }
    {
        self.came.contains_key(prefix)
    }

    // Begins the section of a prefix.
    fn begin(&mut self, prefix: Bytes) -> Result<(), AllocError>
        ensures { (place : Place) (line : Line) → IsAt self.old place → OnOk result (IsAt self.new (next_place place line (Begins prefix))) }
    {
        let came = prefix.copy()?;
        let head = pack_element(self.alloc, &Elem::Bytes(prefix))?;
        self.came.insert(came, ())?;
        self.head = head;
        self.is_open = true;
        self.index = 0;
        Ok(())
    }

    // Packs the key of the next instruction of the section that is open.
    fn next_key(&self) -> Result<Bytes, AllocError>
        ensures { IfOk result (λ key. key ≡ self.now.head ++ spelling (Single (Int (pos self.now.index)) Empty)) }
    {
        let mut key = self.head.copy()?;
        let index = pack_element(self.alloc, &Elem::Int(self.index as i128))?;
        key.extend(index.as_slice())?;
        Ok(key)
    }

    // Adds the pair of an instruction, by its packed tuple.
    fn add(&mut self, pairs: &mut Pairs, value: Bytes) -> Result<(), AllocError>
        requires index { self.old.index + 1 < 2 ^ 64 }
        requires instructions { self.old.instructions + 1 < 2 ^ 64 }
        ensures pair { (place : Place) → IsAt self.old place → self.old.is_open ≡ true
            → OnOk result (pairs.new ≡ pairs.old ++ (instruction_key (first_of place.prefixes) place.index, value) ∷ []) }
        ensures place { (place : Place) (line : Line) (one : Instruction) → IsAt self.old place
            → OnOk result (IsAt self.new (next_place place line (Does one))) }
    {
        let key = self.next_key()?;
        pairs.push(Pair { key, value })?;
        self.index += 1;
        self.instructions += 1;
        Ok(())
    }
    /// Takes what a line says: a section begins, or the pair of an instruction is added to `pairs`.
    pub fn take(&mut self, pairs: &mut Pairs, said: Said) -> Result<(), AllocError>
        requires index { self.old.index + 1 < 2 ^ 64 }
        requires instructions { self.old.instructions + 1 < 2 ^ 64 }
        ensures { (place : Place) (line : Line) (told : lines.Said) → IsAt self.old place → IsSaid said told → IsInside place told
            → OnOk result (HasTaken self.new pairs.old pairs.new place line told) }
    {
        match said {
            Said::Begins(prefix) => self.begin(prefix),
            Said::Packs(value) => self.add(pairs, value),
        }
    }
}

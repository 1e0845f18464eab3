//! The pending mutations of a transaction.

ghost use Rattle.std.specs.Prelude.{◌≡◌, ℕ, Bool, true, false, List, [], ◌∷◌, ◌++◌, None, length, nat_lt, OnOk, OnErr, IfSome};
ghost use Rattle.std.specs.List.{All, filter, list_any};
ghost use Rattle.std.specs.Option.{option_map};
ghost use Rattle.key_bytes.specs.Keys.{after, key_le, key_lt};
ghost use Rattle.key_map.specs.Ends.{first, last};
ghost use Rattle.model_database.specs.Atomics.{is_versionstamped, stamp_form};
ghost use Rattle.model_database.specs.Databases as rules;
ghost use Rattle.model_database.specs.States.{state_after, state_under, has_room, stamped_bytes, unreadable_by};
ghost use Rattle.write_map.specs.Levels.{state_of};
ghost use Rattle.write_map.specs.Mutations.{mutation_of, mutations_of};
ghost use Rattle.write_map.specs.Pending.{AreAlike, IsBare, IsBelowBoundary, IsDepends, IsOn, is_single_state};
ghost use Rattle.write_map.specs.Stamps.{is_stamped, HasRoom};
ghost use Rattle.write_map.specs.Answers.{IsStateUnder};

use crate::changing::{ClearKeys, HideKeys, push_edit, put_state};
use crate::edits::AtomicEdit;
use crate::level::{Level, State};
use crate::mutation::Mutation;
use crate::stamping::hidden_keys;
use crate::state::KeyState;
use key_bytes::{Bytes, Key, KeyRange};
use model_database::AtomicOp;
use range_map::RangeMap;
use std::alloc::{AllocError, Global};
use std::marker::Model;

// A map of so many mutations at most keeps its room when they are taken away.
const FEW: usize = 16;

/// The pending mutations of a transaction. Contracts see the list of them in their order, and the boundaries between which all keys
/// are alike.
pub struct WriteMap {
    alloc: Global,
    levels: RangeMap<Level>,
    log: Vec<Mutation>,
    // Whether a mutation has a versionstamp.
    is_stamped: bool,
}

// Written out, so that a caller's proof sees one call where such a map ends, and nothing of what lies in it.
impl Drop for WriteMap {
    fn drop(self) {
        let WriteMap {
            alloc: _,
            levels: _,
            log: _,
            is_stamped: _,
        } = self;
    }
}

impl Model for WriteMap {
    ghost use Rattle.range_map.specs.Boundaries.{boundaries_of};
    ghost use Rattle.write_map.specs.Pending.{Pending};
    ghost use Rattle.write_map.specs.Mutations.{mutations_of};
    ghost use Rattle.write_map.specs.Levels.{IsKept};

    ghost Value = { Pending };

    ghost view = { λ map. record { mutations = mutations_of map.log.items; boundaries = boundaries_of map.levels } };

    ghost invariant = { λ map. IsKept (mutations_of map.log.items) map.levels map.is_stamped };
}

impl WriteMap {
    /// Makes the map without a mutation.
    pub fn new(alloc: Global) -> WriteMap
        ensures { result ≡ record { mutations = []; boundaries = [] } }
    {
        WriteMap {
            alloc,
            levels: RangeMap::new(alloc, Level::bare()),
            log: Vec::new(alloc),
            is_stamped: false,
        }
    }

    /// Returns the allocator that this map was made with.
    pub fn allocator(&self) -> Global {
        self.alloc
    }

    /// Tells whether there is no mutation.
    pub fn is_empty(&self) -> bool
        ensures { result ≡ nat_lt (length self.now.mutations) 1 }
    {
        self.log.len() < 1
    }

    /// Tells whether a mutation has a versionstamp, which is filled in by its commit. It takes no time in
    /// proportion to the mutations (API reference, "fdb_transaction_atomic_op").
    pub fn has_stamps(&self) -> bool
        ensures { result ≡ list_any is_stamped self.now.mutations }
    {
        self.is_stamped
    }

    // Each mutation with a versionstamp has room for it.
    pub(crate) fn shows_room(&self)
        ensures { All HasRoom self.now.mutations }
    {
        let _ = &self.alloc;
    }

    /// Returns the mutations, in their order.
    pub fn mutations(&self) -> &[Mutation]
        ensures { mutations_of result.now ≡ self.now.mutations }
    {
        self.log.as_slice()
    }

    /// Returns what the mutations make of a key (API reference, "fdb_transaction_get" and
    /// "fdb_transaction_atomic_op", on what a transaction reads of its own writes).
    pub fn at(&self, key: &Key) -> KeyState<'_>
        ensures { IsStateUnder self.now.mutations key.now result }
    {
        self.levels.at(key).shown()
    }

    /// Returns the first boundary above a key: up to it all keys from this one on are alike. None where all keys from this one on
    /// are.
    pub fn next_edge(&self, key: &Key) -> Option<&Key>
        ensures boundary { option_map (λ boundary. boundary.now) result
            ≡ first (filter (key_lt key.now) self.now.boundaries) }
        ensures alike { (asked : List ℕ) → key_le key.now asked ≡ true
            → IsBelowBoundary asked (option_map (λ boundary. boundary.now) result)
            → AreAlike self.now.mutations key.now asked }
        ensures single { is_single_state (state_under self.now.mutations key.now) ≡ true
            → option_map (λ boundary. boundary.now) result ≡ Some (after key.now) }
    {
        self.levels.shows_rising();
        self.levels.next(key)
    }

    /// Returns what the mutations make of a key, as `at` gives it, and the first boundary above it, as `next_edge` gives it: one
    /// search of the boundaries where the key is a boundary itself, and else one more.
    pub fn around(&self, key: &Key) -> (KeyState<'_>, Option<&Key>)
        ensures state { IsStateUnder self.now.mutations key.now result.0 }
        ensures boundary { option_map (λ boundary. boundary.now) result.1
            ≡ first (filter (key_lt key.now) self.now.boundaries) }
        ensures alike { (asked : List ℕ) → key_le key.now asked ≡ true
            → IsBelowBoundary asked (option_map (λ boundary. boundary.now) result.1)
            → AreAlike self.now.mutations key.now asked }
        ensures single { is_single_state (state_under self.now.mutations key.now) ≡ true
            → option_map (λ boundary. boundary.now) result.1 ≡ Some (after key.now) }
    {
        self.levels.shows_rising();
        let (level, boundary) = self.levels.around(key);
        (level.shown(), boundary)
    }

    /// Returns the last boundary below a key: from it on all keys below this one are alike. None where no key below this one has a
    /// mutation.
    pub fn prev_edge(&self, key: &Key) -> Option<&Key>
        ensures boundary { option_map (λ boundary. boundary.now) result
            ≡ last (filter (λ boundary. key_lt boundary key.now) self.now.boundaries) }
        ensures alike { IfSome result (λ boundary. (asked : List ℕ) → key_le boundary.now asked ≡ true
            → key_lt asked key.now ≡ true → AreAlike self.now.mutations boundary.now asked) }
        ensures bare { result ≡ None → (asked : List ℕ) → key_lt asked key.now ≡ true
            → IsBare self.now.mutations asked }
        ensures single { IfSome result (λ boundary.
            is_single_state (state_under self.now.mutations boundary.now) ≡ true
            → key_le key.now (after boundary.now) ≡ true) }
    {
        self.levels.shows_rising();
        self.levels.prev(key)
    }

    /// Takes all mutations away. Room for a few stays, and of more all is given back.
    pub fn reset(&mut self)
        ensures { self.new ≡ record { mutations = []; boundaries = [] } }
    {
        if self.log.len() > FEW {
            *self = WriteMap::new(self.alloc);
        } else {
            self.levels.clear();
            self.log.clear();
            self.is_stamped = false;
        }
    }

    // Adds a mutation of one key, after which it has this state. It takes one walk along a few boundaries, or six searches of more
    // at most, and two more where the key is unreadable. After a refusal the map is as it was.
    fn put(&mut self, mutation: Mutation, key: &Key, state: State) -> Result<(), AllocError>
        requires one { IsOn key.now (mutation_of mutation) }
        requires state { state_of state ≡ state_after (mutation_of mutation) key.now (state_under self.old.mutations key.now) }
        ensures added { OnOk result (self.new.mutations
            ≡ self.old.mutations ++ mutation_of mutation ∷ []) }
        ensures unchanged { OnErr result (self.new ≡ self.old) }
    {
        let end = key.after()?;
        self.log.reserve(1)?;
        put_state(&mut self.levels, key, &end, state)?;
        self.log.push(mutation).unwrap();
        Ok(())
    }

    /// Sets a key to a value, as one mutation more. After a refusal the map is as it was (API reference,
    /// "fdb_transaction_set").
    pub fn set(&mut self, key: &[u8], value: &[u8]) -> Result<(), AllocError>
        ensures added { OnOk result (self.new.mutations
            ≡ self.old.mutations ++ rules.Set key.now value.now ∷ []) }
        ensures unchanged { OnErr result (self.new ≡ self.old) }
    {
        let key = Bytes::from_slice(self.alloc, key)?;
        let value = Bytes::from_slice(self.alloc, value)?;
        let state = State::Decided(Some(value.copy()?));
        let own = key.copy()?;
        self.put(Mutation::Set { key: own, value }, &key, state)
    }

    /// Clears a key, as one mutation more. After a refusal the map is as it was (API reference,
    /// "fdb_transaction_clear").
    pub fn clear(&mut self, key: &[u8]) -> Result<(), AllocError>
        ensures added { OnOk result (self.new.mutations
            ≡ self.old.mutations ++ rules.Clear key.now ∷ []) }
        ensures unchanged { OnErr result (self.new ≡ self.old) }
    {
        let key = Bytes::from_slice(self.alloc, key)?;
        let own = key.copy()?;
        self.put(Mutation::Clear { key: own }, &key, State::Decided(None))
    }

    /// Clears the keys of a range: one mutation more. It takes two walks along a few boundaries, or six searches of more at most,
    /// and writes once for each boundary in the range. After a refusal the map is as it was (API reference,
    /// "fdb_transaction_clear_range").
    pub fn clear_range(&mut self, range: &KeyRange) -> Result<(), AllocError>
        ensures added { OnOk result (self.new.mutations
            ≡ self.old.mutations ++ rules.ClearRange range.now.begin range.now.end ∷ []) }
        ensures unchanged { OnErr result (self.new ≡ self.old) }
    {
        let begin = range.begin.copy()?;
        let end = range.end.copy()?;
        self.log.reserve(1)?;
        self.levels.split_both(&begin, &end)?;
        self.levels.change(&begin, &end, &ClearKeys);
        let range = KeyRange { begin, end };
        self.log.push(Mutation::ClearRange { range }).unwrap();
        Ok(())
    }

    // Adds an atomic operation on a key that has a list of them. After a refusal the map is as it was.
    fn put_edit(
        &mut self,
        mutation: Mutation,
        key: &Key,
        edit: AtomicEdit,
    ) -> Result<(), AllocError>
        requires atomic { mutation_of mutation ≡ rules.Atomic edit.op key.now edit.operand }
        requires plain { is_versionstamped edit.op ≡ false }
        requires list { IsDepends (state_under self.old.mutations key.now) }
        ensures added { OnOk result (self.new.mutations
            ≡ self.old.mutations ++ mutation_of mutation ∷ []) }
        ensures unchanged { OnErr result (self.new ≡ self.old) }
    {
        self.log.reserve(1)?;
        push_edit(&mut self.levels, key, edit)?;
        self.log.push(mutation).unwrap();
        Ok(())
    }

    /// Adds an atomic operation without a versionstamp on the value of a key, as one mutation more. After a
    /// refusal the map is as it was (API reference, "fdb_transaction_atomic_op").
    pub fn atomic(&mut self, op: AtomicOp, key: &[u8], operand: &[u8]) -> Result<(), AllocError>
        requires { is_versionstamped op ≡ false }
        ensures added { OnOk result (self.new.mutations
            ≡ self.old.mutations ++ rules.Atomic op key.now operand.now ∷ []) }
        ensures unchanged { OnErr result (self.new ≡ self.old) }
    {
        let key = Bytes::from_slice(self.alloc, key)?;
        let operand = Bytes::from_slice(self.alloc, operand)?;
        let mutation = Mutation::atomic(op, &key, &operand)?;
        match self.levels.at(&key).state.made(self.alloc, op, &operand)? {
            Some(state) => self.put(mutation, &key, state),
            None => self.put_edit(mutation, &key, AtomicEdit { op, operand }),
        }
    }

    // Adds a mutation that makes the keys of a range unreadable. After a refusal the map is as it was.
    fn hide(&mut self, mutation: Mutation, keys: &KeyRange) -> Result<(), AllocError>
        requires hidden { unreadable_by (mutation_of mutation) ≡ keys.now ∷ [] }
        requires room { HasRoom (mutation_of mutation) }
        ensures added { OnOk result (self.new.mutations
            ≡ self.old.mutations ++ mutation_of mutation ∷ []) }
        ensures unchanged { OnErr result (self.new ≡ self.old) }
    {
        self.log.reserve(1)?;
        self.levels.split_both(&keys.begin, &keys.end)?;
        self.levels.change(&keys.begin, &keys.end, &HideKeys);
        self.log.push(mutation).unwrap();
        self.is_stamped = true;
        Ok(())
    }

    /// Adds an atomic operation with a versionstamp, as one mutation more. From then on the key that gets a
    /// stamped value is unreadable, or each key that a stamped key may become. After a refusal the map is as it
    /// was (API reference, "fdb_transaction_atomic_op").
    pub fn stamp(&mut self, op: AtomicOp, key: &[u8], operand: &[u8]) -> Result<(), AllocError>
        requires stamped { is_versionstamped op ≡ true }
        requires room { has_room (stamp_form op) (stamped_bytes op key.now operand.now) ≡ true }
        ensures added { OnOk result (self.new.mutations
            ≡ self.old.mutations ++ rules.Atomic op key.now operand.now ∷ []) }
        ensures unchanged { OnErr result (self.new ≡ self.old) }
    {
        let key = Bytes::from_slice(self.alloc, key)?;
        let operand = Bytes::from_slice(self.alloc, operand)?;
        let mutation = Mutation::atomic(op, &key, &operand)?;
        let keys = hidden_keys(self.alloc, op, &key, &operand)?;
        self.hide(mutation, &keys)
    }
}

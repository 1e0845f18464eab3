//! What a boundary has.

ghost use Rattle.std.specs.Prelude.{◌≡◌, true, false, IfOk, OnOk, OnErr};
ghost use Rattle.model_database.specs.Atomics.{is_versionstamped};
ghost use Rattle.model_database.specs.States.{after_atomic};
ghost use Rattle.write_map.specs.Levels.{bare, state_of, is_list, IsMade, IsShown};

use crate::edits::{AtomicEdit, AtomicEdits};
use crate::state::KeyState;
use atomic_ops::apply;
use key_bytes::Bytes;
use model_database::AtomicOp;
use range_map::Spread;
use std::alloc::{AllocError, Global};

// What the mutations without a versionstamp make of a key.
#[derive(Drop)]
pub(crate) enum State {
    // It has what is stored.
    Unmodified,
    // It has this value, or none.
    Decided(Option<Bytes>),
    // It has what these operations make of what is stored.
    Depends(AtomicEdits),
}

impl State {
    // What an atomic operation makes of it. None where it is a list of operations, which is kept and grows.
    pub(crate) fn made(
        &self,
        alloc: Global,
        op: AtomicOp,
        operand: &Bytes,
    ) -> Result<Option<State>, AllocError>
        requires { is_versionstamped op ≡ false }
        ensures { IfOk result (IsMade op operand.now self.now) }
    {
        match self {
            State::Unmodified => {
                let edits = AtomicEdits::one(alloc, op, operand)?;
                Ok(Some(State::Depends(edits)))
            }
            State::Decided(value) => {
                let old = value.as_ref().map(|value| value.as_slice());
                let value = apply(alloc, op, old, operand.as_slice())?;
                Ok(Some(State::Decided(value)))
            }
            State::Depends(_) => Ok(None),
        }
    }
}

// What the keys have from a boundary up to the next one.
#[derive(Drop)]
pub(crate) struct Level {
    pub(crate) state: State,
    pub(crate) is_unreadable: bool,
}

// A new boundary lies behind the first key of the boundary before it, so it gets what may be had by more keys than one.
impl Spread for Level {
    ghost use Rattle.write_map.specs.Levels.{spread};

    ghost spread = { spread };

    fn spread(&self) -> Level {
        let state = match &self.state {
            State::Unmodified => State::Unmodified,
            State::Decided(_) | State::Depends(_) => State::Decided(None),
        };
        Level {
            state,
            is_unreadable: self.is_unreadable,
        }
    }
}

impl Level {
    // That of keys that no mutation touches.
    pub(crate) fn bare() -> Level
        ensures { result ≡ bare }
    {
        Level {
            state: State::Unmodified,
            is_unreadable: false,
        }
    }

    // Adds an operation to its list of operations. After a refusal the level is as it was.
    pub(crate) fn push(&mut self, edit: AtomicEdit) -> Result<(), AllocError>
        requires { is_list self.old.state ≡ true }
        ensures ok { OnOk result (state_of self.new.state ≡ after_atomic edit.op edit.operand (state_of self.old.state)) }
        ensures err { OnErr result (self.new ≡ self.old) }
        ensures readable { self.new.is_unreadable ≡ self.old.is_unreadable }
    {
        match &mut self.state {
            State::Depends(edits) => edits.push(edit),
            _ => unreachable!(),
        }
    }

    // What callers see of it.
    pub(crate) fn shown(&self) -> KeyState<'_>
        ensures { IsShown self.now result }
    {
        if self.is_unreadable {
            return KeyState::Unreadable;
        }
        match &self.state {
            State::Unmodified => KeyState::Unmodified,
            State::Decided(None) => KeyState::Decided(None),
            State::Decided(Some(value)) => KeyState::Decided(Some(value.as_slice())),
            State::Depends(edits) => KeyState::Depends(edits),
        }
    }
}

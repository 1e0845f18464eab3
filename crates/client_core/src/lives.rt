//! What became of each life that was drawn.

ghost use Rattle.std.specs.Prelude.{◌≡◌, [], List, None, Option, length, slice_index_or, true, if◌then◌else◌, OnOk, OnErr};
ghost use Rattle.model_machine.specs.Worlds.{decide, with_lives};
ghost use Rattle.client_core.specs.Lives.{outcome_by};

use fdb_calls::Outcome;
use model_database::{Code, TRANSACTION_CANCELLED};
use std::alloc::{AllocError, Global};
use std::marker::Model;
use txn_core::Txn;

/// What became of each life that was drawn, at its number, once it is decided. Contracts see the list. An entry is small, and
/// stays as long as the core.
#[derive(Drop)]
pub struct Lives {
    outcomes: Vec<Option<Outcome>>,
}

impl Model for Lives {
    ghost use Rattle.std.specs.Prelude.{List, Option};
    ghost use Rattle.fdb_calls.specs.declared.Outcome.{Outcome as OutcomeSaid};

    ghost Value = { List (Option OutcomeSaid) };

    ghost view = { λ lives. lives.outcomes.items };
}

impl Lives {
    /// Makes the list without a life.
    pub fn new(alloc: Global) -> Lives
        ensures { result ≡ [] }
    {
        Lives {
            outcomes: Vec::new(alloc),
        }
    }

    /// Returns the number of the next life.
    pub fn next(&self) -> u64
        ensures { result ≡ length self.now }
    {
        self.outcomes.len() as u64
    }

    /// Returns what became of a life; None where it isn't decided yet, or wasn't drawn.
    pub fn outcome(&self, life: u64) -> Option<Outcome>
        ensures { result ≡ slice_index_or self.now life None }
    {
        *self.outcomes.get(life as usize).unwrap_or(&None)
    }

    /// Adds a place for one more life. It is refused for want of memory alone.
    pub fn draw(&mut self) -> Result<(), AllocError>
        ensures { OnOk result (self.new ≡ with_lives self.old 1) }
    {
        self.outcomes.push(None)?;
        Ok(())
    }

    /// Adds a place for the life that was drawn, if one was, and notes the outcome of `life` where it has just
    /// been decided. It is refused for want of memory alone, and only where a life was drawn.
    pub fn go_on(
        &mut self,
        drew: bool,
        life: u64,
        outcome: Option<Outcome>,
    ) -> Result<(), AllocError>
        ensures ok { OnOk result (self.new ≡ decide life outcome (with_lives self.old (if drew then 1 else 0))) }
        ensures err { OnErr result (drew ≡ true) }
    {
        if drew {
            self.draw()?;
        }
        self.decide(life, outcome);
        Ok(())
    }

    // A life is decided so, unless it is decided already. It takes no memory.
    fn decide(&mut self, life: u64, outcome: Option<Outcome>)
        ensures { self.new ≡ decide life outcome self.old }
    {
        let place = life as usize;
        if place < self.outcomes.len() && self.outcomes[place].is_none() {
            self.outcomes[place] = outcome;
        }
    }
}

/// Returns what became of a life, seen from the transaction that stands in its place now: another life there
/// ends it.
pub fn outcome_after(life: u64, after: &Txn) -> Option<Outcome>
    ensures { result ≡ outcome_by life after.now.life after.now.phase }
{
    if life == after.life() {
        after.outcome()
    } else {
        Some(Outcome::Lacks(Code(TRANSACTION_CANCELLED)))
    }
}

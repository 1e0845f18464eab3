//! The machines that ran.

ghost use Rattle.std.specs.Prelude.{◌≡◌, ◌++◌, OnOk};
ghost use Rattle.machine_threads.specs.Crews.{machines_in};

use std::alloc::{AllocError, Global};
use threaded_machine::ThreadedMachine;

/// Machines that ran beside one another. The memory that keeps them together was taken before they ran, so all of them come back also
/// where memory is wanting.
#[derive(Drop)]
pub enum Crew {
    Nobody,
    One(ThreadedMachine),
    Both(Box<Crew>, Box<Crew>),
}

/// Where two crews are to be kept.
#[derive(Drop)]
pub(crate) struct Places {
    first: Box<Crew>,
    second: Box<Crew>,
}

impl Places {
    ghost use Rattle.std.specs.Prelude.{◌≡◌, ◌++◌};
    ghost use Rattle.machine_threads.specs.Crews.{machines_in};

    /// Takes the memory for two crews.
    pub(crate) fn new(alloc: Global) -> Result<Places, AllocError> {
        let first = Box::new(alloc, Crew::Nobody)?;
        let second = Box::new(alloc, Crew::Nobody)?;
        Ok(Places { first, second })
    }

    /// Joins two crews.
    pub(crate) fn keep(self, own: Crew, others: Crew) -> Crew
        ensures { machines_in result ≡ machines_in own ++ machines_in others }
    {
        let Places {
            mut first,
            mut second,
        } = self;
        *first = own;
        *second = others;
        Crew::Both(first, second)
    }
}

impl Crew {
    ghost use Rattle.std.specs.Prelude.{◌≡◌, IfOk};
    ghost use Rattle.machine_threads.specs.Crews.{machines_in};

    /// Lists the machines.
    pub fn listed(self, alloc: Global) -> Result<Vec<ThreadedMachine>, AllocError>
        ensures { IfOk result (λ list. list.items ≡ machines_in self) }
    {
        let mut list = Vec::new(alloc);
        add_to(&mut list, self)?;
        Ok(list)
    }
}

// Adds the machines of a crew to a list.
fn add_to(list: &mut Vec<ThreadedMachine>, crew: Crew) -> Result<(), AllocError>
    ensures { OnOk result (list.new.items ≡ list.old.items ++ machines_in crew) }
{
    match crew {
        Crew::Nobody => {}
        Crew::One(machine) => list.push(machine)?,
        Crew::Both(first, second) => {
            add_to(list, Box::into_inner(first))?;
            add_to(list, Box::into_inner(second))?;
        }
    }
    Ok(())
}

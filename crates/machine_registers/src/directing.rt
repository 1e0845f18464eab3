//! What an operation on the directories does (directoryLayerTester.md).

ghost use Rattle.std.specs.Prelude.{◌≡◌, IfOk, OnOk};
ghost use Rattle.model_machine.specs.StackOperations.{pushed};
ghost use Rattle.model_machine.specs.Directories.{appends};
ghost use Rattle.model_machine.specs.Machines.{Does, directs_to, faulting, lacking, with_stack};
ghost use Rattle.stack_directories.specs.Directing.{said, AreElements, GivesElements};
ghost use Rattle.machine_registers.specs.Acts.{act_with};

use crate::act::Act;
use crate::registers::Registers;
use fdb_calls::SharedRequest;
use fdb_tuple::Elem;
use key_bytes::Bytes;
use model_machine::{DirectoryOperation, Object};
use stack_directories::Directed;
use std::alloc::AllocError;

impl Registers {
    /// Does in the instruction of this number what its operation on the directories comes to, which appends an object or doesn't.
    pub(crate) fn direct(
        &mut self,
        number: u64,
        appends: bool,
        directed: Directed,
    ) -> Result<Act, AllocError>
        requires { GivesElements directed }
        ensures { IfOk result (λ act. act_with self.new act ≡ directs_to number appends self.old (said directed)) }
    {
        match directed {
            Directed::Appends(object) => {
                self.append(object)?;
                Ok(Act::Does)
            }
            Directed::Gives(elements) => self.give(number, elements),
            Directed::Chooses(index) => {
                self.choose(index);
                Ok(Act::Does)
            }
            Directed::FallsTo(index) => {
                self.fall_to(index);
                Ok(Act::Does)
            }
            Directed::Faults(fault) => {
                let name = Bytes::from_slice(self.alloc(), fault.name())?;
                self.fault(number, appends, name)
            }
            Directed::Asks(request, awaits) => {
                let asked = SharedRequest::new(self.alloc(), request)?;
                Ok(Act::Asks(asked, awaits))
            }
        }
    }

    // Pushes these elements, one after the other.
    fn give(&mut self, number: u64, elements: Vec<Elem>) -> Result<Act, AllocError>
        requires { AreElements elements.items }
        ensures { IfOk result (λ act. act_with self.new act
            ≡ Does (with_stack self.old (pushed number elements.items self.old.stack))) }
    {
        for element in elements {
            self.put(number, element)?;
        }
        Ok(Act::Does)
    }

    // Notes a fault on the directories by its name, and pushes the fixed text that tells of one. The operation appends null where
    // it appends an object.
    pub(crate) fn fault(
        &mut self,
        number: u64,
        appends: bool,
        name: Bytes,
    ) -> Result<Act, AllocError>
        ensures { IfOk result (λ act. act_with self.new act ≡ Does (faulting number appends self.old name)) }
    {
        self.lack(appends)?;
        self.note(number, name)?;
        self.push_text(number, b"DIRECTORY_ERROR")
    }

    // Null is appended where an operation was to append an object.
    fn lack(&mut self, appends: bool) -> Result<(), AllocError>
        ensures { OnOk result (self.new ≡ lacking appends self.old) }
    {
        if appends {
            self.append(Object::Null)
        } else {
            Ok(())
        }
    }
}

/// Tells whether an operation appends an object, which is null where it has a fault.
pub(crate) fn appends(operation: DirectoryOperation) -> bool
    ensures { result ≡ appends operation }
{
    matches!(
        operation,
        DirectoryOperation::CreateSubspace
            | DirectoryOperation::CreateLayer
            | DirectoryOperation::CreateOrOpen
            | DirectoryOperation::Create
            | DirectoryOperation::Open
            | DirectoryOperation::Move
            | DirectoryOperation::MoveTo
            | DirectoryOperation::OpenSubspace
    )
}

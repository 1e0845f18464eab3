//! What the reply to a call of a directory layer is used for (directoryLayerTester.md).

ghost use Rattle.std.specs.Prelude.{◌≡◌, ◌++◌, ◌∷◌, List, ℕ, IfOk, OnOk};
ghost use Rattle.model_machine.specs.Machines.{packed_names, used, use_of, Faults};
ghost use Rattle.model_machine.specs.Directories.{fault_name};
ghost use Rattle.machine_registers.specs.Acts.{act_with};
ghost use Rattle.machine_registers.specs.Packed.{spelled_names};

use crate::act::Act;
use crate::registers::Registers;
use directory_types::{DirFault, DirReply, Layer};
use fdb_calls::Reply;
use fdb_tuple::{Elem, Text, pack_element_into};
use key_bytes::Bytes;
use model_machine::Awaits;
use stack_directories::{digits_of, directory_of, fault_name};
use std::alloc::{AllocError, Global};

impl Registers {
    /// Appends the directory of this layer that was opened, or null where the call was refused.
    pub fn use_opened(
        &mut self,
        number: u64,
        layer: &Layer,
        reply: &Reply,
    ) -> Result<Act, AllocError>
        ensures { IfOk result (λ act. act_with self.new act ≡ used number self.old (use_of (Awaits.Opened layer.now) reply.now)) }
    {
        match reply {
            Reply::Dir(answer) => self.use_directory(layer, answer.get()),
            Reply::DirFault(fault) => self.use_fault(number, true, fault),
            _ => Ok(Act::Does),
        }
    }

    /// Uses a reply that tells nothing but whether the call was refused: pushes nothing where it wasn't.
    pub fn use_done(&mut self, number: u64, reply: &Reply) -> Result<Act, AllocError>
        ensures { IfOk result (λ act. act_with self.new act ≡ used number self.old (use_of Awaits.DirectoryDone reply.now)) }
    {
        match reply {
            Reply::DirFault(fault) => self.use_fault(number, false, fault),
            _ => Ok(Act::Does),
        }
    }

    /// Pushes the names, as one packed tuple.
    pub fn use_names(&mut self, number: u64, reply: &Reply) -> Result<Act, AllocError>
        ensures { IfOk result (λ act. act_with self.new act ≡ used number self.old (use_of Awaits.Names reply.now)) }
    {
        match reply {
            Reply::Dir(answer) => self.push_names(number, answer.get()),
            Reply::DirFault(fault) => self.use_fault(number, false, fault),
            _ => Ok(Act::Does),
        }
    }

    /// Pushes 1 where there is such a directory, and else 0.
    pub fn use_existence(&mut self, number: u64, reply: &Reply) -> Result<Act, AllocError>
        ensures { IfOk result (λ act. act_with self.new act ≡ used number self.old (use_of Awaits.Existence reply.now)) }
    {
        match reply {
            Reply::Dir(answer) => self.push_existence(number, answer.get()),
            Reply::DirFault(fault) => self.use_fault(number, false, fault),
            _ => Ok(Act::Does),
        }
    }

    /// Uses the reply to a subspace's logging: pushes nothing where it wasn't refused.
    pub fn use_logged(&mut self, number: u64, reply: &Reply) -> Result<Act, AllocError>
        ensures { IfOk result (λ act. act_with self.new act ≡ used number self.old (use_of Awaits.SubspaceLogged reply.now)) }
    {
        match reply {
            Reply::Fault(code) => {
                let digits = digits_of(self.alloc(), code.0)?;
                self.fault(number, false, digits)
            }
            _ => Ok(Act::Does),
        }
    }

    // The directory of this layer that was opened is appended.
    fn use_directory(&mut self, layer: &Layer, answer: &DirReply) -> Result<Act, AllocError>
        ensures { IfOk result (λ act. (number : ℕ) → act_with self.new act
            ≡ used number self.old (use_of (Awaits.Opened layer.now) (Reply.Dir answer.now))) }
    {
        if let DirReply::Opened {
            prefix,
            path,
            layer: layer_name,
        } = answer
        {
            self.append(directory_of(self.alloc(), layer, path, prefix, layer_name)?)?;
        }
        Ok(Act::Does)
    }

    // The names that were answered are pushed.
    fn push_names(&mut self, number: u64, answer: &DirReply) -> Result<Act, AllocError>
        ensures { IfOk result (λ act. act_with self.new act ≡ used number self.old (use_of Awaits.Names (Reply.Dir answer.now))) }
    {
        if let DirReply::Names(names) = answer {
            let packed = pack_names(self.alloc(), names.as_slice())?;
            self.put(number, Elem::Bytes(packed))?;
        }
        Ok(Act::Does)
    }

    // 1 is pushed where it was answered that there is one, and else 0.
    fn push_existence(&mut self, number: u64, answer: &DirReply) -> Result<Act, AllocError>
        ensures { IfOk result (λ act. act_with self.new act ≡ used number self.old (use_of Awaits.Existence (Reply.Dir answer.now))) }
    {
        if let DirReply::Is(is) = answer {
            self.put(number, Elem::Int(i128::from(*is)))?;
        }
        Ok(Act::Does)
    }

    // A call of a layer was refused.
    fn use_fault(&mut self, number: u64, appends: bool, fault: &DirFault) -> Result<Act, AllocError>
        ensures { IfOk result (λ act. act_with self.new act ≡ used number self.old (Faults appends (fault_name fault.now))) }
    {
        let name = fault_name(self.alloc(), fault)?;
        self.fault(number, appends, name)
    }
}

// Names as one packed tuple of Unicode strings.
fn pack_names(alloc: Global, names: &[Text]) -> Result<Bytes, AllocError>
    ensures { IfOk result (λ packed. Elem.Bytes packed ≡ packed_names names.now) }
{
    let mut packed = Vec::new(alloc);
    for name in names {
        add_name(&mut packed, name)?;
    }
    Bytes::from_vec(packed)
}

// Adds a name.
fn add_name(to: &mut Vec<u8>, name: &Text) -> Result<(), AllocError>
    ensures { OnOk result ((rest : List (List ℕ)) → to.new.items ++ spelled_names rest
        ≡ to.old.items ++ spelled_names (name.now ∷ rest)) }
{
    pack_element_into(to, &Elem::Text(name.copy()?))
}

//! What a machine's instructions work on.

ghost use Rattle.std.specs.Prelude.{◌≡◌, pos, [], ◌∷◌, ◌++◌, take, IfOk, OnOk};
ghost use Rattle.fdb_tuple.specs.Listed.{IsElement};
ghost use Rattle.model_machine.specs.Operands.{bytes_operand};
ghost use Rattle.model_machine.specs.StackOperations.{operated};
ghost use Rattle.model_machine.specs.Calls.{call_of, request_in, request_of, awaits_of, start_request};
ghost use Rattle.model_machine.specs.Machines.{act_of, pushing, does, uses, asks, calls, logs_stack, logs_on, logs_batch, waits_empty, first_life, with_stack, knowing, below_waiting, used};
ghost use Rattle.model_machine.specs.Machines.{Does, PushesWaiting, directs, appending};
ghost use Rattle.model_machine.specs.Directories.{first_directories, directed, appends};
ghost use Rattle.model_machine.specs.declared.TheConstants.{LOG_BATCH};
ghost use Rattle.machine_registers.specs.Acts.{act_with};
ghost use Rattle.machine_instructions.specs.Pushes.{PushesAnElement};

use crate::act::{Act, ask_empty, refused};
use crate::call::call_of;
use crate::directing::appends;
use crate::errors::Errors;
use crate::requests::{awaits_of, request_of};
use fdb_calls::{Request, SharedRequest, TxnCall};
use fdb_tuple::Elem;
use key_bytes::Bytes;
use model_machine::{
    Awaits, DatabaseOperation, DirectoryOperation, End, ErrorNote, Instruction, Item, ItemValue,
    Object, Scope, StackOperation, TransactionOperation, Wait,
};
use stack_directories::{Directories, directed};
use stack_items::Stack;
use std::alloc::{AllocError, Global};
use std::marker::Model;

/// What an instruction works on. Contracts see the registers of the definitions.
#[derive(Debug)]
pub struct Registers {
    name: Bytes,
    last_seen: i64,
    stack: Stack,
    errors: Errors,
    directories: Directories,
    alloc: Global,
}

// Written out, so that a caller's proof sees one call where they end, and nothing of what lies in them.
impl Drop for Registers {
    fn drop(self) {
        let Registers {
            name: _,
            last_seen: _,
            stack: _,
            errors: _,
            directories: _,
            alloc: _,
        } = self;
    }
}

impl Model for Registers {
    ghost use Rattle.model_machine.specs.Machines.{Registers as MachineRegisters};

    ghost Value = { MachineRegisters };

    ghost use Rattle.model_machine.specs.contracts.Item as item;
    ghost use Rattle.std.specs.Coded.{codes};

    ghost coded = { Prim.hlevel (codes, item.the_row.coded) };

    ghost view = { λ registers. record {
      name = registers.name;
      last_seen = registers.last_seen;
      stack = registers.stack;
      errors = registers.errors;
      directories = registers.directories;
    } };
}

impl Registers {
    /// Makes the registers as a machine is started: a current name, 0 as the last version seen, no item and no
    /// error, and the default layer as the only directory. It is refused for want of memory alone.
    pub fn new(alloc: Global, name: Bytes) -> Result<Registers, AllocError>
        ensures { IfOk result (λ registers. registers
            ≡ record { name = name; last_seen = pos 0; stack = []; errors = []; directories = first_directories }) }
    {
        Ok(Registers {
            name,
            last_seen: 0,
            stack: Stack::new(alloc),
            errors: Errors::new(alloc),
            directories: Directories::new(alloc)?,
            alloc,
        })
    }

    /// Returns the items.
    pub fn stack(&self) -> &Stack
        ensures { result.now ≡ self.now.stack }
    {
        &self.stack
    }

    /// Returns the errors that were noted, in the order in which they arose.
    pub fn errors(&self) -> &Errors
        ensures { result.now ≡ self.now.errors }
    {
        &self.errors
    }

    /// Runs the instruction of this number, as far as its first request.
    #[tactic(auto, unfolding(model_machine::specs::Machines::act_of))]
    pub fn run(&mut self, number: u64, instruction: Option<Instruction>) -> Result<Act, AllocError>
        requires { PushesAnElement instruction }
        ensures { IfOk result (λ act. act_with self.new act ≡ act_of number self.old instruction) }
    {
        match instruction {
            None => Ok(Act::Stops(End::BadInstruction(number))),
            Some(Instruction::Push(element)) => self.push(number, element),
            Some(Instruction::OnStack(operation)) => self.operate(number, operation),
            Some(Instruction::UseTransaction) => self.use_transaction(number),
            Some(Instruction::OnTransaction(operation)) => self.on_transaction(number, operation),
            Some(Instruction::OnDatabase(operation, scope)) => {
                self.on_database(number, operation, scope)
            }
            Some(Instruction::OnDirectories(operation, scope)) => {
                self.on_directories(number, operation, scope)
            }
            Some(Instruction::LogStack) => self.log_stack(number),
            Some(Instruction::StartThread) => self.start_thread(number),
            Some(Instruction::WaitEmpty) => self.wait_empty(number),
        }
    }

    /// Pushes an element, in the instruction of this number.
    pub fn push(&mut self, number: u64, element: Elem) -> Result<Act, AllocError>
        requires { IsElement element }
        ensures { IfOk result (λ act. act_with self.new act ≡ Does (pushing number self.old element)) }
    {
        self.put(number, element)?;
        Ok(Act::Does)
    }

    /// Pushes a fixed text, in the instruction of this number.
    pub fn push_text(&mut self, number: u64, text: &[u8]) -> Result<Act, AllocError>
        ensures { IfOk result (λ act. act_with self.new act ≡ Does (pushing number self.old (Elem.Bytes text.now))) }
    {
        let text = Bytes::from_slice(self.alloc(), text)?;
        self.push(number, Elem::Bytes(text))
    }

    /// Puts an element on top, in the instruction of this number.
    pub fn put(&mut self, number: u64, element: Elem) -> Result<(), AllocError>
        requires { IsElement element }
        ensures { OnOk result (self.new ≡ pushing number self.old element) }
    {
        self.stack.put(Item {
            value: ItemValue::Known(element),
            instruction: number,
        })?;
        Ok(())
    }

    /// Pushes an item that waits for a life, in the instruction of this number.
    pub fn push_waiting(&mut self, number: u64, life: u64) -> Result<Act, AllocError>
        ensures { IfOk result (λ act. act_with self.new act ≡ used number self.old (PushesWaiting life)) }
    {
        self.stack.put(Item {
            value: ItemValue::Waits(life),
            instruction: number,
        })?;
        Ok(Act::Does)
    }

    /// Notes a fault by its word, in the instruction of this number.
    pub fn note(&mut self, number: u64, word: Bytes) -> Result<(), AllocError>
        ensures { OnOk result (self.new
            ≡ record self.old { errors = self.old.errors ++ record { instruction = number; word = word } ∷ [] }) }
    {
        self.errors.push(ErrorNote {
            instruction: number,
            word,
        })?;
        Ok(())
    }

    /// Keeps a version as the last one seen.
    pub fn see(&mut self, version: i64)
        ensures { self.new ≡ record self.old { last_seen = version } }
    {
        self.last_seen = version;
    }

    // An operation on the stack alone.
    fn operate(&mut self, number: u64, operation: StackOperation) -> Result<Act, AllocError>
        ensures { IfOk result (λ act. act_with self.new act ≡ does number self.old (operated operation number self.old.stack)) }
    {
        match self.stack.operate(operation, number) {
            Ok(()) => Ok(Act::Does),
            Err(fault) => refused(self.alloc, number, fault),
        }
    }

    // USE_TRANSACTION pops the name.
    fn use_transaction(&mut self, number: u64) -> Result<Act, AllocError>
        ensures { IfOk result (λ act. act_with self.new act ≡ uses number self.old (bytes_operand self.old.stack)) }
    {
        match self.stack.pop_bytes() {
            Ok(name) => {
                self.name = name;
                Ok(Act::Does)
            }
            Err(fault) => refused(self.alloc, number, fault),
        }
    }

    // An operation on the current transaction.
    fn on_transaction(
        &mut self,
        number: u64,
        operation: TransactionOperation,
    ) -> Result<Act, AllocError>
        ensures { IfOk result (λ act. act_with self.new act
            ≡ asks number self.old (awaits_of operation) (request_of operation self.old.name self.old.last_seen self.old.stack)) }
    {
        let name = self.name.copy()?;
        let mut operands = self.stack.operands();
        let request = request_of(&mut operands, self.alloc, operation, name, self.last_seen);
        let popped = operands.popped();
        match self.stack.settle(popped, request) {
            Ok(asked) => Ok(Act::Asks(asked, awaits_of(operation))),
            Err(fault) => refused(self.alloc, number, fault),
        }
    }

    // A call on the database, in one of its forms.
    fn on_database(
        &mut self,
        number: u64,
        operation: DatabaseOperation,
        scope: Scope,
    ) -> Result<Act, AllocError>
        ensures { IfOk result (λ act. act_with self.new act ≡ calls number self.old scope (call_of operation scope self.old.stack)) }
    {
        let mut operands = self.stack.operands();
        let call = call_of(&mut operands, self.alloc, operation, scope);
        let popped = operands.popped();
        match self.stack.settle(popped, call) {
            Ok((call, awaits)) => Ok(Act::Asks(self.asked_in(scope, call)?, awaits)),
            Err(fault) => refused(self.alloc, number, fault),
        }
    }

    // The request that makes a call in this scope.
    fn asked_in(&self, scope: Scope, call: TxnCall) -> Result<SharedRequest, AllocError>
        ensures { IfOk result (λ asked. asked ≡ request_in scope self.now.name call) }
    {
        match scope {
            Scope::Transaction | Scope::Snapshot => {
                let name = self.name.copy()?;
                SharedRequest::new(self.alloc, Request::On { name, call })
            }
            Scope::Database => SharedRequest::new(self.alloc, Request::Database { call }),
        }
    }

    // An operation on the directories, in one of its forms where it asks a layer.
    fn on_directories(
        &mut self,
        number: u64,
        operation: DirectoryOperation,
        scope: Scope,
    ) -> Result<Act, AllocError>
        ensures { IfOk result (λ act. act_with self.new act ≡ directs number (appends operation) self.old
            (directed operation scope self.old.name self.old.directories self.old.stack)) }
    {
        let mut operands = self.stack.operands();
        let (name, directories) = (&self.name, &self.directories);
        let found = directed(
            &mut operands,
            self.alloc,
            operation,
            scope,
            name,
            directories,
        );
        let popped = operands.popped();
        match self.stack.settle(popped, found) {
            Ok(found) => self.direct(number, appends(operation), found),
            Err(fault) => refused(self.alloc, number, fault),
        }
    }

    // An object is appended to the list of directories.
    pub(crate) fn append(&mut self, object: Object) -> Result<(), AllocError>
        ensures { OnOk result (self.new ≡ appending self.old object) }
    {
        self.directories.append(object)
    }

    // The current directory is that of this index from now on.
    pub(crate) fn choose(&mut self, index: usize)
        ensures { self.new ≡ record self.old { directories = record self.old.directories { index = index } } }
    {
        self.directories.choose(index);
    }

    // This index is taken in place of that of a null directory from now on.
    pub(crate) fn fall_to(&mut self, index: usize)
        ensures { self.new ≡ record self.old { directories = record self.old.directories { error_index = index } } }
    {
        self.directories.fall_to(index);
    }

    // LOG_STACK pops the prefix, and writes the items under it.
    fn log_stack(&mut self, number: u64) -> Result<Act, AllocError>
        ensures { IfOk result (λ act. act_with self.new act ≡ logs_stack number self.old (bytes_operand self.old.stack)) }
    {
        match self.stack.pop_bytes() {
            Ok(prefix) => self.log_on(&prefix),
            Err(fault) => refused(self.alloc, number, fault),
        }
    }

    // START_THREAD pops the prefix of the machine that is started.
    fn start_thread(&mut self, number: u64) -> Result<Act, AllocError>
        ensures { IfOk result (λ act. act_with self.new act ≡ asks number self.old Awaits.Start (start_request self.old.stack)) }
    {
        match self.stack.pop_bytes() {
            Ok(prefix) => {
                let asked = SharedRequest::new(self.alloc, Request::Start { prefix })?;
                Ok(Act::Asks(asked, Awaits::Start))
            }
            Err(fault) => refused(self.alloc, number, fault),
        }
    }

    // WAIT_EMPTY pops the prefix, and polls for the first time.
    fn wait_empty(&mut self, number: u64) -> Result<Act, AllocError>
        ensures { IfOk result (λ act. act_with self.new act ≡ waits_empty number self.old (bytes_operand self.old.stack)) }
    {
        match self.stack.pop_bytes() {
            Ok(prefix) => ask_empty(&prefix, 0),
            Err(fault) => refused(self.alloc, number, fault),
        }
    }

    /// Goes on with LOG_STACK at the uppermost items, if there are any.
    pub fn log_on(&mut self, prefix: &Bytes) -> Result<Act, AllocError>
        ensures { IfOk result (λ act. act_with self.new act ≡ logs_on self.old prefix.now) }
    {
        if self.stack.is_empty() {
            return Ok(Act::Does);
        }
        self.log_batch(prefix)
    }

    // LOG_STACK polls for an item that waits among the uppermost ones, or takes these and asks that they are written under the
    // prefix.
    fn log_batch(&mut self, prefix: &Bytes) -> Result<Act, AllocError>
        ensures { IfOk result (λ act. act_with self.new act
            ≡ logs_batch (first_life (take LOG_BATCH self.old.stack)) self.old prefix.now) }
    {
        let copy = prefix.copy()?;
        if let Some(life) = self.stack.batch_life() {
            let wait = Wait { life, polled: 0 };
            let asked = SharedRequest::new(self.alloc, Request::PollStamp { life })?;
            return Ok(Act::Asks(asked, Awaits::LoggedStamp { prefix: copy, wait }));
        }
        let entries = self.stack.take_log()?;
        let prefix = prefix.copy()?;
        let request = Request::Log {
            prefix: copy,
            entries,
        };
        let asked = SharedRequest::new(self.alloc, request)?;
        Ok(Act::Asks(asked, Awaits::Logged { prefix }))
    }

    /// Makes the uppermost item that waits this element.
    pub fn know(&mut self, element: Elem)
        requires { IsElement element }
        ensures { self.new ≡ knowing self.old element }
    {
        self.stack.decide_first(element);
    }

    /// Drops the uppermost item that waits and all above it.
    pub fn drop_waiting(&mut self)
        ensures { self.new ≡ with_stack self.old (below_waiting self.old.stack) }
    {
        self.stack.drop_waiting();
    }

    /// Returns the allocator of memory.
    pub fn alloc(&self) -> Global {
        self.alloc
    }
}

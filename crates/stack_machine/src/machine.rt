//! A machine and its steps.

ghost use Rattle.std.specs.Prelude.{◌≡◌, ◌+◌, ◌<◌, false, true, pos, [], length, Some, Ok, option_copied, slice_get, IfOk, IsErr, OnErr};
ghost use Rattle.model_machine.specs.declared.State.TheVariants.{Running};
ghost use Rattle.model_machine.specs.Machines.{stopped, done, silent, acted, instruction_at, next_act, advance, resumed};
ghost use Rattle.model_machine.specs.Directories.{first_directories};
ghost use Rattle.machine_instructions.specs.Pushes.{PushesAnElement};
ghost use Rattle.machine_registers.specs.Acts.{act_with};

use crate::instruction::instruction_under;
use crate::polls::{resume_log, resume_poll, resume_watch};
use crate::replies::use_reply;
use fdb_calls::{Reply, SharedRequest};
use key_bytes::{Bytes, Pairs};
use machine_registers::{Act, Errors, Registers};
use model_machine::{Awaits, End, Instruction, MachineOptions, State};
use stack_items::Stack;
use std::alloc::{AllocError, Global};
use std::marker::Model;

/// What a machine answers to a step.
#[derive(Debug, Drop)]
pub enum Step {
    /// The machine asks this, and awaits the reply.
    Ask(SharedRequest),
    /// It ran an instruction, or used the reply, and is ready to go on.
    Again,
    /// It has stopped.
    Stopped(End),
}

/// A machine of the bindings tester. Contracts see the machine of the definitions, and whether it ran out of memory.
#[derive(Debug)]
pub struct Machine {
    number: u16,
    prefix: Bytes,
    instructions: Vec<Bytes>,
    next: usize,
    options: MachineOptions,
    registers: Registers,
    state: State,
    is_out_of_memory: bool,
    alloc: Global,
}

// Written out, so that a caller's proof sees one call where a machine ends, and nothing of what lies in it.
impl Drop for Machine {
    fn drop(self) {
        let Machine {
            number: _,
            prefix: _,
            instructions: _,
            next: _,
            options: _,
            registers: _,
            state: _,
            is_out_of_memory: _,
            alloc: _,
        } = self;
    }
}

impl Model for Machine {
    ghost use Rattle.std.specs.Prelude.{length};
    ghost use Rattle.stack_machine.specs.MachineModel.{MachineModel, IsInside};

    ghost Value = { MachineModel };

    ghost use Rattle.model_machine.specs.contracts.Item as item;
    ghost use Rattle.std.specs.Coded.{codes};

    ghost coded = { Prim.hlevel (codes, item.the_row.coded) };

    ghost view = { λ m. record {
      machine = record {
        number = m.number;
        prefix = m.prefix;
        instructions = m.instructions.items;
        next = m.next;
        options = m.options;
        registers = m.registers;
        state = m.state;
      };
      is_out_of_memory = m.is_out_of_memory;
    } };

    ghost invariant = { λ m. IsInside m.state m.next (length m.instructions.items) };
}

impl Machine {
    ghost use Rattle.stack_machine.specs.MachineModel.{MachineModel};
    ghost use Rattle.stack_machine.specs.Steps.{MayStep, moved, Moves};

    /// Makes a machine before its first instruction, under a number and a prefix, with the values of these
    /// pairs as its instructions, in order, and with these options.
    pub fn new(
        alloc: Global,
        number: u16,
        prefix: Bytes,
        instructions: Pairs,
        options: MachineOptions,
    ) -> Result<Machine, AllocError>
        ensures machine { IfOk result (λ machine. machine.machine ≡ record {
          number = number;
          prefix = prefix;
          instructions = values_of instructions;
          next = 0;
          options = options;
          registers = record { name = prefix; last_seen = pos 0; stack = []; errors = []; directories = first_directories };
          state = Running;
        }) }
        ensures ready { IfOk result (λ machine. machine.is_out_of_memory ≡ false) }
    {
        let instructions = values_of(alloc, instructions)?;
        Machine::with_instructions(alloc, number, prefix, instructions, options)
    }

    /// Makes a machine as `new` does, with these instructions.
    pub fn with_instructions(
        alloc: Global,
        number: u16,
        prefix: Bytes,
        instructions: Vec<Bytes>,
        options: MachineOptions,
    ) -> Result<Machine, AllocError>
        ensures machine { IfOk result (λ machine. machine.machine ≡ record {
          number = number;
          prefix = prefix;
          instructions = instructions.items;
          next = 0;
          options = options;
          registers = record { name = prefix; last_seen = pos 0; stack = []; errors = []; directories = first_directories };
          state = Running;
        }) }
        ensures ready { IfOk result (λ machine. machine.is_out_of_memory ≡ false) }
    {
        let name = prefix.copy()?;
        Ok(Machine {
            number,
            prefix,
            instructions,
            next: 0,
            options,
            registers: Registers::new(alloc, name)?,
            state: State::Running,
            is_out_of_memory: false,
            alloc,
        })
    }

    /// Returns the machine's number.
    pub fn number(&self) -> u16
        ensures { result ≡ self.now.machine.number }
    {
        self.number
    }

    /// Returns the options that the machine was started with.
    pub fn options(&self) -> MachineOptions
        ensures { result ≡ self.now.machine.options }
    {
        self.options
    }

    /// Returns the prefix that the machine was started under.
    pub fn prefix(&self) -> &Bytes
        ensures { result.now ≡ self.now.machine.prefix }
    {
        &self.prefix
    }

    /// Returns what the machine is about to do.
    pub fn state(&self) -> &State
        ensures { result.now ≡ self.now.machine.state }
    {
        &self.state
    }

    /// Returns how many instructions the machine has.
    pub fn instruction_count(&self) -> usize
        ensures { result ≡ length self.now.machine.instructions }
    {
        self.instructions.len()
    }

    /// Returns the machine's stack.
    pub fn stack(&self) -> &Stack
        ensures { result.now ≡ self.now.machine.registers.stack }
    {
        self.registers.stack()
    }

    /// Returns the errors that the machine noted, in the order in which they arose.
    pub fn errors(&self) -> &Errors
        ensures { result.now ≡ self.now.machine.registers.errors }
    {
        self.registers.errors()
    }

    /// Makes one step. With no reply it runs one instruction, asks a request, or says how the machine has
    /// stopped; with the reply to the request that it asked it uses that reply. After a stop each further step
    /// answers the same. It is refused for want of memory alone, and each further step is then refused too.
    pub fn step(&mut self, reply: Option<&Reply>) -> Result<Step, AllocError>
        requires { MayStep self.old.is_out_of_memory self.old.machine.state (option_copied reply) }
        ensures ok { IfOk result (λ step. Moves self.old (moved self.old.machine (option_copied reply.entry)) step self.new) }
        // Again comes only where an instruction was finished.
        ensures again { result ≡ Ok Step.Again → self.new.machine.next ≡ self.old.machine.next + 1 }
        ensures refused { self.old.is_out_of_memory ≡ true → IsErr result }
        ensures err { OnErr result (self.new.is_out_of_memory ≡ true) }
    {
        if self.is_out_of_memory {
            return Err(AllocError);
        }
        let step = self.move_on(reply);
        if step.is_err() {
            self.is_out_of_memory = true;
        }
        step
    }

    fn move_on(&mut self, reply: Option<&Reply>) -> Result<Step, AllocError>
        requires { self.old.is_out_of_memory ≡ false }
        ensures { IfOk result (λ step. Moves self.old (moved self.old.machine (option_copied reply.entry)) step self.new) }
    {
        match reply {
            None => self.advance(),
            Some(reply) => self.resume(reply),
        }
    }

    #[tactic(auto, unfolding(model_machine::specs::Machines::advance))]
    fn advance(&mut self) -> Result<Step, AllocError>
        requires { self.old.is_out_of_memory ≡ false }
        ensures { IfOk result (λ step. Moves self.old (advance self.old.machine) step self.new) }
    {
        match &self.state {
            State::Running => self.run_next(),
            State::Awaiting(_) => Ok(Step::Again),
            State::Stopped(end) => Ok(Step::Stopped(*end)),
        }
    }

    #[tactic(auto, unfolding(model_machine::specs::Machines::resumed))]
    fn resume(&mut self, reply: &Reply) -> Result<Step, AllocError>
        requires { self.old.is_out_of_memory ≡ false }
        ensures { IfOk result (λ step. Moves self.old (resumed self.old.machine reply.now) step self.new) }
    {
        let number = self.next as u64;
        let awaits = match &self.state {
            State::Running => return Ok(Step::Again),
            State::Awaiting(awaits) => awaits,
            State::Stopped(end) => return Ok(Step::Stopped(*end)),
        };
        let act = match awaits {
            Awaits::Stamp(wait) => {
                let wait = *wait;
                let instruction = self.instruction()?;
                let polls = self.options.polls;
                resume_poll(&mut self.registers, number, polls, wait, instruction, reply)
            }
            Awaits::LoggedStamp { prefix, wait } => {
                let polls = self.options.polls;
                resume_log(&mut self.registers, number, polls, prefix, *wait, reply)
            }
            Awaits::Empty { prefix, polled } => {
                let polls = self.options.polls;
                resume_watch(&mut self.registers, number, polls, prefix, *polled, reply)
            }
            _ => use_reply(&mut self.registers, number, awaits, reply),
        };
        Ok(self.act(act?))
    }

    fn run_next(&mut self) -> Result<Step, AllocError>
        requires ready { self.old.is_out_of_memory ≡ false }
        requires running { self.old.machine.state ≡ Running }
        ensures { IfOk result (λ step. Moves self.old
            (acted self.old.machine (next_act self.old.machine (slice_get self.old.machine.instructions self.old.machine.next))) step self.new) }
    {
        if self.next < self.instructions.len() {
            let instruction = self.instruction()?;
            let act = self.registers.run(self.next as u64, instruction)?;
            Ok(self.act(act))
        } else {
            Ok(self.stop(End::Ended))
        }
    }

    // The instruction that the machine stands at.
    fn instruction(&self) -> Result<Option<Instruction>, AllocError>
        requires { self.now.machine.next < length self.now.machine.instructions }
        ensures is { IfOk result (λ instruction. instruction ≡ instruction_at self.now.machine) }
        ensures pushes { IfOk result PushesAnElement }
    {
        instruction_under(
            self.alloc,
            self.options.api,
            self.instructions[self.next].as_slice(),
        )
    }

    // What the instruction, or the reply that it awaited, came to.
    #[inline(always)]
    fn act(&mut self, act: Act) -> Step
        requires ready { self.old.is_out_of_memory ≡ false }
        requires inside { self.old.machine.next < length self.old.machine.instructions }
        ensures { Moves self.old (acted self.old.machine (act_with self.old.machine.registers act)) result self.new }
    {
        match act {
            Act::Does => self.finish(),
            Act::Stops(end) => self.stop(end),
            Act::Asks(asked, awaits) => {
                self.state = State::Awaiting(awaits);
                Step::Ask(asked)
            }
        }
    }

    fn stop(&mut self, end: End) -> Step
        requires ready { self.old.is_out_of_memory ≡ false }
        ensures { Moves self.old (silent (stopped self.old.machine self.old.machine.registers end)) result self.new }
    {
        self.state = State::Stopped(end);
        Step::Stopped(end)
    }

    fn finish(&mut self) -> Step
        requires ready { self.old.is_out_of_memory ≡ false }
        requires inside { self.old.machine.next < length self.old.machine.instructions }
        ensures { Moves self.old (silent (done self.old.machine self.old.machine.registers)) result self.new }
    {
        // Gives the bound of the next number.
        let _count = self.instructions.len();
        self.next += 1;
        self.state = State::Running;
        Step::Again
    }
}

ghost use Rattle.stack_machine.specs.MachineModel.{values_of};

// The values of these pairs, in order.
fn values_of(alloc: Global, pairs: Pairs) -> Result<Vec<Bytes>, AllocError>
    ensures { IfOk result (λ values. values.items ≡ values_of pairs) }
{
    let mut values = Vec::with_capacity(alloc, pairs.len())?;
    for pair in pairs.into_vec() {
        values.push(pair.value)?;
    }
    Ok(values)
}

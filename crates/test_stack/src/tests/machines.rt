//! The machine: its steps, an error that it notes, and the polls of its waits.

use super::*;
use fdb_calls::{Code, Reply, Request, TxnCall};
use model_commands::RunArgs;
use model_database::DatabaseOptions;
use model_machine::{database_options, machine_options};
use stack_machine::{End, Machine, State, Step};

// What a step answers, as a test writes it.
#[derive(Clone, Copy, Debug, PartialEq, Eq)]
enum Told {
    Again,
    // It asks for the commit of the transaction `p`.
    Commits,
    // It asks for the outcome of this life.
    Polls(u64),
    // It asks for something else.
    Asks,
    Stops(End),
}

fn request_told(request: &Request) -> Told {
    match request {
        Request::On {
            name,
            call: TxnCall::Commit,
        } if name.as_slice() == b"p".as_slice() => Told::Commits,
        Request::PollStamp { life } => Told::Polls(*life),
        _ => Told::Asks,
    }
}

fn told_of(step: &Step) -> Told {
    match step {
        Step::Ask(asked) => request_told(asked.request()),
        Step::Again => Told::Again,
        Step::Stopped(end) => Told::Stops(*end),
    }
}

// The next step, by this reply where the machine awaits one, which is not that memory ran out.
fn go(machine: &mut Machine, reply: &Reply) -> Result<Step, AllocError> {
    let awaits = matches!(machine.state(), State::Awaiting(_));
    let is_no_memory = matches!(reply, Reply::NoMemory);
    if !awaits {
        machine.step(None)
    } else if is_no_memory {
        Err(AllocError)
    } else {
        machine.step(Some(reply))
    }
}

fn goes(machine: &mut Machine, reply: Reply) -> Result<Told, AllocError> {
    let step = go(machine, &reply);
    drop(reply);
    Ok(told_of(&step?))
}

fn machine_of(alloc: Global, values: &[&[u8]], polls: u32) -> Result<Machine, AllocError> {
    let prefix = Bytes::from_slice(alloc, b"p")?;
    Machine::new(alloc, 0, prefix, pairs_of(alloc, values)?, options(polls))
}

// Pushes an item that waits, and pops it.
const POPPED: &[&[u8]] = &[b"\x02GET_VERSIONSTAMP\x00", b"\x02POP\x00"];

// The item waits for life 3, whose outcome is asked for as often as the polls of a wait may be.
fn wait_in(machine: &mut Machine) -> Result<[Told; 6], AllocError> {
    Ok([
        goes(machine, Reply::Done)?,
        goes(machine, Reply::Life(3))?,
        goes(machine, Reply::Done)?,
        goes(machine, Reply::NotYet)?,
        goes(machine, Reply::NotYet)?,
        goes(machine, Reply::NotYet)?,
    ])
}

fn wait(alloc: Global) -> Result<[Told; 6], AllocError> {
    let mut machine = machine_of(alloc, POPPED, 3)?;
    let told = wait_in(&mut machine);
    drop(machine);
    told
}

const WAITED: [Told; 6] = [
    Told::Asks,
    Told::Again,
    Told::Polls(3),
    Told::Polls(3),
    Told::Polls(3),
    Told::Stops(End::WaitBound(1)),
];

#[test]
fn a_wait_ends_with_the_last_of_its_polls(rt: HostRuntime) {
    assert_eq!(rt; wait(rt.alloc()), Ok(WAITED));
}

// Whether one error was noted, of the instruction 1 with this word, and its item alone lies on the stack.
fn has_noted(machine: &Machine, word: &[u8], item: &'static [u8]) -> bool {
    let errors = machine.errors().as_slice();
    errors.len() == 1
        && errors[0].instruction == 1
        && errors[0].word.as_slice() == word
        && are_items(machine.stack(), &[Lying::Str(item)])
}

// Pushes a key, gets it, and commits.
const REFUSED: &[&[u8]] = &[b"\x02PUSH\x00\x01k\x00", b"\x02GET\x00", b"\x02COMMIT\x00"];

fn refuse_in(machine: &mut Machine) -> Result<([Told; 4], bool), AllocError> {
    let told = [
        goes(machine, Reply::Done)?,
        goes(machine, Reply::Done)?,
        goes(machine, Reply::Fault(Code(2004)))?,
        goes(machine, Reply::Done)?,
    ];
    Ok((
        told,
        has_noted(machine, b"2004", b"\x01ERROR\x00\x012004\x00"),
    ))
}

fn refuse(alloc: Global) -> Result<([Told; 4], bool), AllocError> {
    let mut machine = machine_of(alloc, REFUSED, 3)?;
    let told = refuse_in(&mut machine);
    drop(machine);
    told
}

#[test]
fn a_refusal_is_noted_and_pushed(rt: HostRuntime) {
    let told = [Told::Again, Told::Asks, Told::Again, Told::Commits];
    assert_eq!(rt; refuse(rt.alloc()), Ok((told, true)));
}

// What a machine shows of what it was made of: its number, how many instructions it has, and its options; and whether it is
// about to run under the prefix `p`.
fn shown(machine: &Machine) -> (u16, usize, MachineOptions, bool) {
    let runs = matches!(machine.state(), State::Running);
    let is_under_p = machine.prefix().as_slice() == b"p".as_slice();
    (
        machine.number(),
        machine.instruction_count(),
        machine.options(),
        runs && is_under_p,
    )
}

fn show(alloc: Global) -> Result<(u16, usize, MachineOptions, bool), AllocError> {
    let prefix = Bytes::from_slice(alloc, b"p")?;
    let machine = Machine::with_instructions(
        alloc,
        7,
        prefix,
        values_of(alloc, POPPED)?,
        options(3),
    )?;
    let shown = shown(&machine);
    drop(machine);
    Ok(shown)
}

#[test]
fn a_machine_shows_what_it_was_made_of(rt: HostRuntime) {
    assert_eq!(rt; show(rt.alloc()), Ok((7, 2, options(3), true)));
}

#[test]
fn a_run_gives_its_options(rt: HostRuntime) {
    let arguments = RunArgs {
        prefix: Bytes::new(rt.alloc()),
        api: Api::V630,
        seed: 1,
        polls: 2,
        window: Some(3),
    };
    let database = DatabaseOptions {
        api: Api::V630,
        window: Some(3),
    };
    assert_eq!(rt; machine_options(&arguments), options(2));
    assert_eq!(rt; database_options(&arguments), database);
}

//! What the reply to a request is used for.

ghost use Rattle.std.specs.Prelude.{◌≡◌, decimal, IfOk};
ghost use Rattle.model_machine.specs.Machines.{Does, pushing, failing, error_item, result_not_present, value_or_text};
ghost use Rattle.model_machine.specs.Machines.{Registers as RegistersSaid, key_within, packed_pairs, pairs_within, start_use, used, use_of};
ghost use Rattle.machine_registers.specs.Acts.{act_with};

use crate::packed::pack_within;
use fdb_calls::{Code, Reply};
use fdb_tuple::Elem;
use key_bytes::{Bytes, Key, Pairs, is_below};
use machine_registers::{Act, Registers, error_item, prefix_end};
use model_machine::{Awaits, End};
use stack_directories::digits_of;
use std::alloc::{AllocError, Global};

/// Uses the reply to a request, in the instruction of this number. A reply of a kind that the request never has, as a fault of
/// a new transaction or of the start of a machine, changes nothing.
#[tactic(auto, using(crate::proofs::Within::every_pair_within))]
pub fn use_reply(
    registers: &mut Registers,
    number: u64,
    awaits: &Awaits,
    reply: &Reply,
) -> Result<Act, AllocError>
    ensures { IfOk result (λ act. act_with registers.new act ≡ used number registers.old (use_of awaits.now reply.now)) }
{
    match (awaits, reply) {
        (Awaits::NewTransaction, _) => Ok(Act::Does),
        (Awaits::Start, _) => Ok(started(number, reply)),
        (Awaits::Opened { layer }, _) => registers.use_opened(number, layer.get(), reply),
        (Awaits::DirectoryDone, _) => registers.use_done(number, reply),
        (Awaits::Names, _) => registers.use_names(number, reply),
        (Awaits::Existence, _) => registers.use_existence(number, reply),
        (Awaits::SubspaceLogged, _) => registers.use_logged(number, reply),
        (_, Reply::Fault(code)) => fail(registers, number, *code),
        (Awaits::NotPresent, Reply::Done) => push_not_present(registers, number),
        (Awaits::Value, Reply::Value(value)) => push_value(registers, number, value),
        (Awaits::Key { prefix }, Reply::KeyIs(key)) => push_key(registers, number, prefix, key),
        (Awaits::Pairs, Reply::PairsAre(pairs)) => push_pairs(registers, number, &[], pairs),
        (Awaits::PairsWithin { prefix }, Reply::PairsAre(pairs)) => {
            push_pairs(registers, number, prefix.as_slice(), pairs)
        }
        (Awaits::Logged { prefix }, Reply::Done) => registers.log_on(prefix),
        (Awaits::ReadVersion, Reply::Version(version)) => {
            keep_version(registers, number, *version, b"GOT_READ_VERSION")
        }
        (Awaits::CommittedVersion, Reply::Version(version)) => {
            keep_version(registers, number, *version, b"GOT_COMMITTED_VERSION")
        }
        (Awaits::ConflictRange, Reply::Done) => registers.push_text(number, b"SET_CONFLICT_RANGE"),
        (Awaits::ConflictKey, Reply::Done) => registers.push_text(number, b"SET_CONFLICT_KEY"),
        (Awaits::Promise, Reply::Life(life)) => registers.push_waiting(number, *life),
        _ => Ok(Act::Does),
    }
}

// Notes a fault, and pushes the item that tells of it.
fn fail(registers: &mut Registers, number: u64, code: Code) -> Result<Act, AllocError>
    ensures { IfOk result (λ act. act_with registers.new act ≡ Does (failing number registers.old (decimal code.0) (error_item code.0))) }
{
    let item = error_item(registers.alloc(), code.0)?;
    let word = digits_of(registers.alloc(), code.0)?;
    registers.note(number, word)?;
    registers.push(number, item)
}

// Pushes the fixed text that stands for no value.
fn push_not_present(registers: &mut Registers, number: u64) -> Result<Act, AllocError>
    ensures { IfOk result (λ act. act_with registers.new act ≡ Does (pushing number registers.old result_not_present)) }
{
    registers.push_text(number, b"RESULT_NOT_PRESENT")
}

// Keeps a version as the last one seen, and pushes a fixed text.
fn keep_version(
    registers: &mut Registers,
    number: u64,
    version: i64,
    text: &[u8],
) -> Result<Act, AllocError>
    ensures { IfOk result (λ act. act_with registers.new act
        ≡ Does (pushing number (record registers.old { last_seen = version }) (Elem.Bytes text.now))) }
{
    registers.see(version);
    registers.push_text(number, text)
}

// Pushes a value, or the fixed text where there is none.
fn push_value(
    registers: &mut Registers,
    number: u64,
    value: &Option<Bytes>,
) -> Result<Act, AllocError>
    ensures { IfOk result (λ act. act_with registers.new act ≡ Does (pushing number registers.old (value_or_text value.now))) }
{
    match value {
        Some(value) => registers.push(number, Elem::Bytes(value.copy()?)),
        None => push_not_present(registers, number),
    }
}

// Pushes a key as the prefix lets it.
fn push_key(
    registers: &mut Registers,
    number: u64,
    prefix: &Bytes,
    key: &Key,
) -> Result<Act, AllocError>
    ensures { IfOk result (λ act. act_with registers.new act ≡ Does (pushing number registers.old (Elem.Bytes (key_within prefix.now key.now)))) }
{
    let key = key_within(registers.alloc(), prefix, key)?;
    registers.push(number, Elem::Bytes(key))
}

// Pushes the keys and values in turn of the pairs with keys that begin with the prefix, as one packed tuple.
fn push_pairs(
    registers: &mut Registers,
    number: u64,
    prefix: &[u8],
    pairs: &Pairs,
) -> Result<Act, AllocError>
    ensures { IfOk result (λ act. act_with registers.new act
        ≡ Does (pushing number registers.old (packed_pairs (pairs_within prefix.now pairs.now)))) }
{
    let packed = pack_within(registers.alloc(), prefix, pairs.as_slice())?;
    registers.push(number, Elem::Bytes(packed))
}

// Ends the machine where none was started, and else lets it go on.
fn started(number: u64, reply: &Reply) -> Act
    ensures { (registers : RegistersSaid) → act_with registers result ≡ used number registers (start_use reply.now) }
{
    match reply {
        Reply::NoMachine => Act::Stops(End::MachineLimit(number)),
        _ => Act::Does,
    }
}

// The key where it begins with the prefix; else the prefix where the key is less, and the end of the prefix's range where it
// is greater.
fn key_within(alloc: Global, prefix: &Bytes, key: &Key) -> Result<Key, AllocError>
    ensures { IfOk result (λ within. within ≡ key_within prefix.now key.now) }
{
    if key.starts_with(prefix.as_slice()) {
        key.copy()
    } else if is_below(key.as_slice(), prefix.as_slice()) {
        prefix.copy()
    } else {
        prefix_end(alloc, prefix)
    }
}

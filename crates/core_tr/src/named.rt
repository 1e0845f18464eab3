//! A named transaction of a core.

ghost use Rattle.std.specs.Prelude.{◌≡◌, true, Err};
ghost use Rattle.fdb_calls.specs.declared.fault.TrFault.TheVariants as fault;
ghost use Rattle.fdb_calls.specs.declared.Reply.TheVariants as reply;
ghost use Rattle.fdb_calls.specs.declared.Request.TheVariants as request;
ghost use Rattle.fdb_calls.specs.declared.TxnCall.TheVariants as call;
ghost use Rattle.model_machine.specs.Worlds.{World, step};
ghost use Rattle.client_core.specs.Stands.{StandsFor, is_no_memory};
ghost use Rattle.core_tr.specs.Standing.{Splits, Makes, MakesSilently, Settles, is_value, are_pairs, is_of_kind};

use crate::op_names::name_of;
use client_core::Core;
use fdb_calls::{Reply, Request, Tr, TrFault, TxnCall};
use key_bytes::{Bytes, KeyRange, Pairs};
use model_database::{AtomicOp, Mode, RangeOptions};
use outside::PcgWords;
use std::alloc::AllocError;

// How many requests a core takes.
const REQUEST_LIMIT: u64 = 1 << 62;

// Whether a reply says that memory ran out.
fn is_no_memory(reply: &Reply) -> bool
    ensures { result ≡ is_no_memory reply.now }
{
    matches!(reply, Reply::NoMemory)
}

// A reply by what it is: a refusal, want of memory, or any other.
fn split(reply: Reply) -> Result<Reply, TrFault>
    ensures { Splits result reply }
{
    match reply {
        Reply::NoMemory => Err(TrFault::NoMemory),
        Reply::Fault(code) => Err(TrFault::Code(code)),
        reply => Ok(reply),
    }
}

// The value of a reply that tells one.
fn value_in(given: Reply) -> Option<Bytes>
    requires { is_value given ≡ true }
    ensures { given ≡ reply.Value result }
{
    match given {
        Reply::Value(value) => value,
        _ => unreachable!(),
    }
}

// The pairs of a reply that tells them.
fn pairs_in(given: Reply) -> Pairs
    requires { are_pairs given ≡ true }
    ensures { given ≡ reply.PairsAre result }
{
    match given {
        Reply::PairsAre(pairs) => pairs,
        _ => unreachable!(),
    }
}

/// The transaction that has a name in a core: its calls are requests (API reference, "Transaction"). `is_spent` holds from then on that
/// the core took no request.
#[derive(Drop)]
pub struct CoreTr<'a> {
    pub core: &'a mut Core,
    pub name: Bytes,
    pub is_spent: bool,
}

impl CoreTr<'_> {
    /// Makes a call on the transaction by one request, and returns its reply. It is refused with the code of the first check that
    /// fails, or for want of memory: then it is spent, or the world is as before. One that is spent changes nothing. A read of a key
    /// that isn't refused is answered with a value, one of a range with its pairs, and the committed version is never refused.
    pub fn call(&mut self, call: TxnCall) -> Result<Reply, TrFault>
        ensures made { (world : World) → StandsFor self.old.core.now world
            → Makes result self.new.is_spent self.new.core.now world (step world (request.On self.old.name call)) }
        ensures kind { is_of_kind call result ≡ true }
        ensures spent { self.old.is_spent ≡ true → (result ≡ Err fault.NoMemory) × (self.new.is_spent ≡ true) }
        ensures same_core { self.new.core.ghost_name ≡ self.old.core.ghost_name }
        ensures same_name { self.new.name ≡ self.old.name }
    {
        if self.is_spent {
            return Err(TrFault::NoMemory);
        }
        let name = self.name.copy()?;
        if self.core.applied() >= REQUEST_LIMIT {
            self.is_spent = true;
            return Err(TrFault::NoMemory);
        }
        let request = Request::On { name, call };
        let reply = self.core.apply(0, &request, &mut PcgWords::new(0));
        self.is_spent = is_no_memory(&reply);
        split(reply)
    }

    // Makes a call that answers nothing but that it was accepted.
    fn call_silently(&mut self, call: TxnCall) -> Result<(), TrFault>
        ensures made { (world : World) → StandsFor self.old.core.now world
            → MakesSilently result self.new.is_spent self.new.core.now world (step world (request.On self.old.name call)) }
        ensures spent { self.old.is_spent ≡ true → (result ≡ Err fault.NoMemory) × (self.new.is_spent ≡ true) }
        ensures same_core { self.new.core.ghost_name ≡ self.old.core.ghost_name }
        ensures same_name { self.new.name ≡ self.old.name }
    {
        self.call(call)?;
        Ok(())
    }

    /// Gives the name a transaction where it has none, and settles what is known of its life, as every call does. The other calls ask
    /// that this was done. It is refused for want of memory alone: then it is spent, or the world is as before.
    pub fn settle(&mut self) -> Result<(), AllocError>
        ensures settled { (world : World) → StandsFor self.old.core.now world
            → Settles result self.new.is_spent self.new.core.now world (step world (request.On self.old.name call.CommittedVersion)) }
        ensures same_core { self.new.core.ghost_name ≡ self.old.core.ghost_name }
        ensures same_name { self.new.name ≡ self.old.name }
    {
        match self.call(TxnCall::CommittedVersion) {
            Ok(_) => Ok(()),
            Err(TrFault::NoMemory) => Err(AllocError),
            Err(TrFault::Code(_)) => unreachable!(),
        }
    }
}

impl Tr for CoreTr<'_> {
    ghost use Rattle.std.proofs.Common.{refl, ◌∙◌};
    ghost use Rattle.core_tr.specs.OpNames.{is_named};
    ghost use Rattle.core_tr.specs.Standing.{Stands, KeepsRest};
    ghost use Rattle.core_tr.specs.StandLaws.{rest_itself, rest_still, stands_granted};

    ghost stands = { λ on setting t. Stands on.is_spent on.core.now on.name setting t };

    ghost takes = { is_named };

    ghost same = { λ one two. (one.core.ghost_name ≡ two.core.ghost_name)
        × KeepsRest one.is_spent two.is_spent one.core.now two.core.now one.name two.name };

    fn get(&mut self, key: &[u8], snapshot: bool) -> Result<Option<Bytes>, TrFault> {
        let key = Bytes::from_slice(self.name.allocator(), key)?;
        let reply = self.call(TxnCall::Get { key, snapshot })?;
        Ok(value_in(reply))
    }

    fn range(
        &mut self,
        range: &KeyRange,
        limit: u32,
        reverse: bool,
        snapshot: bool,
    ) -> Result<Pairs, TrFault> {
        let begin = range.begin.copy()?;
        let end = range.end.copy()?;
        let range = KeyRange { begin, end };
        let options = RangeOptions {
            limit,
            reverse,
            mode: Mode::WantAll,
        };
        let reply = self.call(TxnCall::GetKeyRange {
            range,
            options,
            snapshot,
        })?;
        Ok(pairs_in(reply))
    }

    fn set(&mut self, key: &[u8], value: &[u8]) -> Result<(), TrFault> {
        let alloc = self.name.allocator();
        let key = Bytes::from_slice(alloc, key)?;
        let value = Bytes::from_slice(alloc, value)?;
        self.call_silently(TxnCall::Set { key, value })
    }

    fn clear(&mut self, key: &[u8]) -> Result<(), TrFault> {
        let key = Bytes::from_slice(self.name.allocator(), key)?;
        self.call_silently(TxnCall::Clear { key })
    }

    fn clear_range(&mut self, range: &KeyRange) -> Result<(), TrFault> {
        let begin = range.begin.copy()?;
        let end = range.end.copy()?;
        let range = KeyRange { begin, end };
        self.call_silently(TxnCall::ClearRange { range })
    }

    fn atomic(&mut self, op: AtomicOp, key: &[u8], operand: &[u8]) -> Result<(), TrFault> {
        let alloc = self.name.allocator();
        let name = Bytes::from_slice(alloc, name_of(op))?;
        let key = Bytes::from_slice(alloc, key)?;
        let operand = Bytes::from_slice(alloc, operand)?;
        self.call_silently(TxnCall::Atomic { name, key, operand })
    }

    fn no_write_conflict(&mut self) -> Result<(), TrFault> {
        self.call_silently(TxnCall::NoWriteConflict)
    }

    fn write_conflict_key(&mut self, key: &[u8]) -> Result<(), TrFault> {
        let alloc = self.name.allocator();
        let key = Bytes::from_slice(alloc, key)?;
        let range = KeyRange::single(alloc, &key)?;
        self.call_silently(TxnCall::WriteConflict { range })
    }

    ghost takes_add = { refl };

    ghost same_itself = { λ one. (refl, rest_itself one.is_spent one.core.now one.name) };

    ghost same_still = { λ one two three first second. (first.0 ∙ second.0, rest_still first.1 second.1) };

    ghost granted_still = { λ on setting t space number from stands.
        stands_granted on.is_spent on.core.now on.name setting t space number from stands };
}

//! What a call was answered.

ghost use Rattle.std.specs.Prelude.{◌≡◌, ◌^◌, ◌<◌, pos, true, false, Err, IfOk, OnErr};
ghost use Rattle.fdb_calls.specs.declared.fault.TrFault.TheVariants as fault;
ghost use Rattle.fdb_calls.specs.declared.Reply.TheVariants as reply;
ghost use Rattle.txn_core.specs.Answering.{IsToldBy, Tells, TellsOf};

use fdb_calls::{Reply, TrFault};
use key_bytes::{Bytes, Key, Pairs};
use model_database::Code;
use std::alloc::AllocError;

/// What a call was answered, and whether it began a new life, whose number was handed in.
#[derive(Debug, Drop)]
pub struct Answer {
    pub reply: Reply,
    pub drew_life: bool,
}

impl Answer {
    // What a call in the same life was answered.
    fn new(reply: Reply) -> Answer
        ensures reply { result.reply ≡ reply }
        ensures life { result.drew_life ≡ false }
    {
        Answer {
            reply,
            drew_life: false,
        }
    }

    pub(crate) fn done() -> Answer
        ensures reply { result.reply ≡ reply.Done }
        ensures life { result.drew_life ≡ false }
    {
        Answer::new(Reply::Done)
    }

    pub(crate) fn refused(code: Code) -> Answer
        ensures reply { result.reply ≡ reply.Fault code }
        ensures life { result.drew_life ≡ false }
    {
        Answer::new(Reply::Fault(code))
    }

    // What a call was answered that began a new life.
    pub(crate) fn begun_anew() -> Answer
        ensures reply { result.reply ≡ reply.Done }
        ensures life { result.drew_life ≡ true }
    {
        Answer {
            reply: Reply::Done,
            drew_life: true,
        }
    }

    // What a refused call was answered; want of memory is no answer.
    fn of_fault(refusal: TrFault) -> Result<Answer, AllocError>
        ensures ok { IfOk result (λ answer. IsToldBy refusal answer) }
        ensures err { OnErr result (refusal ≡ fault.NoMemory) }
    {
        match refusal {
            TrFault::Code(code) => Ok(Answer::refused(code)),
            TrFault::NoMemory => Err(AllocError),
        }
    }

    // What a read of a value was answered.
    pub(crate) fn of_value(read: Result<Option<Bytes>, TrFault>) -> Result<Answer, AllocError>
        ensures ok { IfOk result (Tells reply.Value read) }
        ensures err { OnErr result (read ≡ Err fault.NoMemory) }
    {
        match read {
            Ok(value) => Ok(Answer::new(Reply::Value(value))),
            Err(fault) => Answer::of_fault(fault),
        }
    }

    // What a read of a key was answered.
    pub(crate) fn of_key(read: Result<Key, TrFault>) -> Result<Answer, AllocError>
        ensures ok { IfOk result (Tells reply.KeyIs read) }
        ensures err { OnErr result (read ≡ Err fault.NoMemory) }
    {
        match read {
            Ok(key) => Ok(Answer::new(Reply::KeyIs(key))),
            Err(fault) => Answer::of_fault(fault),
        }
    }

    // What a read of pairs was answered.
    pub(crate) fn of_pairs(read: Result<Pairs, TrFault>) -> Result<Answer, AllocError>
        ensures ok { IfOk result (Tells reply.PairsAre read) }
        ensures err { OnErr result (read ≡ Err fault.NoMemory) }
    {
        match read {
            Ok(pairs) => Ok(Answer::new(Reply::PairsAre(pairs))),
            Err(fault) => Answer::of_fault(fault),
        }
    }

    // What a call for a version was answered, which has 63 bits.
    pub(crate) fn of_version(taken: Result<u64, TrFault>) -> Result<Answer, AllocError>
        requires { IfOk taken (λ version. version < 2 ^ 63) }
        ensures ok { IfOk result (Tells (λ version. reply.Version (pos version)) taken) }
        ensures err { OnErr result (taken ≡ Err fault.NoMemory) }
    {
        match taken {
            Ok(version) => Ok(Answer::version(version as i64)),
            Err(fault) => Answer::of_fault(fault),
        }
    }

    // A version, or -1.
    pub(crate) fn version(version: i64) -> Answer
        ensures reply { result.reply ≡ reply.Version version }
        ensures life { result.drew_life ≡ false }
    {
        Answer::new(Reply::Version(version))
    }

    // What a call for a versionstamp was answered.
    pub(crate) fn of_promise(promise: Result<u64, Code>) -> Answer
        ensures { TellsOf promise result }
    {
        match promise {
            Ok(life) => Answer::new(Reply::Life(life)),
            Err(code) => Answer::refused(code),
        }
    }

    // What a write was answered.
    pub(crate) fn of_write(written: Result<(), TrFault>) -> Result<Answer, AllocError>
        ensures ok { IfOk result (Tells (λ _. reply.Done) written) }
        ensures err { OnErr result (written ≡ Err fault.NoMemory) }
    {
        match written {
            Ok(()) => Ok(Answer::done()),
            Err(fault) => Answer::of_fault(fault),
        }
    }
}

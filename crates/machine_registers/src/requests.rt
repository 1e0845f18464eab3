//! Requests on the current transaction by the operands of an instruction.

ghost use Rattle.std.specs.Prelude.{◌≡◌, IfOk, IfErr};
ghost use Rattle.model_machine.specs.Calls.{request_of, awaits_of, on_error_request, range_request, key_request};
ghost use Rattle.stack_items.specs.Looks.{LooksUnlessFull};
ghost use Rattle.machine_registers.specs.Ranges.{range_operand, one_key_operand};

use fdb_calls::{Code, Request, SharedRequest, TxnCall};
use key_bytes::{Bytes, KeyRange};
use model_machine::{Awaits, TransactionOperation};
use stack_items::{Operands, StackFault};
use std::alloc::Global;

/// Returns the request that an operation makes on the transaction of a name, by the last version seen and its
/// operands.
pub fn request_of(
    operands: &mut Operands<'_>,
    alloc: Global,
    operation: TransactionOperation,
    name: Bytes,
    last_seen: i64,
) -> Result<SharedRequest, StackFault>
    ensures { LooksUnlessFull (λ request. request) result (request_of operation name last_seen) operands.old operands.new }
{
    match operation {
        TransactionOperation::NewTransaction => shared(alloc, Request::New { name }),
        TransactionOperation::OnError => on_error_request(operands, alloc, name),
        TransactionOperation::Reset => on(alloc, name, TxnCall::Reset),
        TransactionOperation::Cancel => on(alloc, name, TxnCall::Cancel),
        TransactionOperation::Commit => on(alloc, name, TxnCall::Commit),
        TransactionOperation::GetReadVersion => on(alloc, name, TxnCall::ReadVersion),
        TransactionOperation::SetReadVersion => {
            let version = last_seen;
            on(alloc, name, TxnCall::SetReadVersion { version })
        }
        TransactionOperation::GetCommittedVersion => on(alloc, name, TxnCall::CommittedVersion),
        TransactionOperation::ReadConflictRange => read_range_request(operands, alloc, name),
        TransactionOperation::WriteConflictRange => write_range_request(operands, alloc, name),
        TransactionOperation::ReadConflictKey => read_key_request(operands, alloc, name),
        TransactionOperation::WriteConflictKey => write_key_request(operands, alloc, name),
        TransactionOperation::DisableWriteConflict => on(alloc, name, TxnCall::NoWriteConflict),
        TransactionOperation::GetVersionstamp => on(alloc, name, TxnCall::Versionstamp),
    }
}

// A request in a block of its own.
fn shared(alloc: Global, request: Request) -> Result<SharedRequest, StackFault>
    ensures ok { IfOk result (λ shared. shared ≡ request) }
    ensures err { IfErr result (λ fault. fault ≡ StackFault.NoMemory) }
{
    Ok(SharedRequest::new(alloc, request)?)
}

// The request of a call on the transaction of a name.
fn on(alloc: Global, name: Bytes, call: TxnCall) -> Result<SharedRequest, StackFault>
    ensures ok { IfOk result (λ shared. shared ≡ Request.On name call) }
    ensures err { IfErr result (λ fault. fault ≡ StackFault.NoMemory) }
{
    shared(alloc, Request::On { name, call })
}

fn on_error_request(
    operands: &mut Operands<'_>,
    alloc: Global,
    name: Bytes,
) -> Result<SharedRequest, StackFault>
    ensures { LooksUnlessFull (λ request. request) result (on_error_request name) operands.old operands.new }
{
    let code = Code(operands.code()?);
    on(alloc, name, TxnCall::OnError { code })
}

fn read_range_request(
    operands: &mut Operands<'_>,
    alloc: Global,
    name: Bytes,
) -> Result<SharedRequest, StackFault>
    ensures { LooksUnlessFull (λ request. request) result (range_request name TxnCall.ReadConflict) operands.old operands.new }
{
    let range = range_operand(operands)?;
    on(alloc, name, TxnCall::ReadConflict { range })
}

fn write_range_request(
    operands: &mut Operands<'_>,
    alloc: Global,
    name: Bytes,
) -> Result<SharedRequest, StackFault>
    ensures { LooksUnlessFull (λ request. request) result (range_request name TxnCall.WriteConflict) operands.old operands.new }
{
    let range = range_operand(operands)?;
    on(alloc, name, TxnCall::WriteConflict { range })
}

fn read_key_request(
    operands: &mut Operands<'_>,
    alloc: Global,
    name: Bytes,
) -> Result<SharedRequest, StackFault>
    ensures { LooksUnlessFull (λ request. request) result (key_request name TxnCall.ReadConflict) operands.old operands.new }
{
    let range = one_key_operand(operands, alloc)?;
    on(alloc, name, TxnCall::ReadConflict { range })
}

fn write_key_request(
    operands: &mut Operands<'_>,
    alloc: Global,
    name: Bytes,
) -> Result<SharedRequest, StackFault>
    ensures { LooksUnlessFull (λ request. request) result (key_request name TxnCall.WriteConflict) operands.old operands.new }
{
    let range = one_key_operand(operands, alloc)?;
    on(alloc, name, TxnCall::WriteConflict { range })
}

/// Returns the two ends of a range.
pub fn range_operand(operands: &mut Operands<'_>) -> Result<KeyRange, StackFault>
    ensures { LooksUnlessFull (λ range. range) result range_operand operands.old operands.new }
{
    let begin = operands.copied_bytes()?;
    let end = operands.copied_bytes()?;
    Ok(KeyRange { begin, end })
}

// A key, as the range of it alone.
fn one_key_operand(operands: &mut Operands<'_>, alloc: Global) -> Result<KeyRange, StackFault>
    ensures { LooksUnlessFull (λ range. range) result one_key_operand operands.old operands.new }
{
    let key = operands.copied_bytes()?;
    Ok(KeyRange::single(alloc, &key)?)
}

/// Returns what the reply to an operation on the current transaction is used for.
pub fn awaits_of(operation: TransactionOperation) -> Awaits
    ensures { result ≡ awaits_of operation }
{
    match operation {
        TransactionOperation::NewTransaction => Awaits::NewTransaction,
        TransactionOperation::Reset
        | TransactionOperation::Cancel
        | TransactionOperation::SetReadVersion
        | TransactionOperation::DisableWriteConflict => Awaits::Nothing,
        TransactionOperation::OnError | TransactionOperation::Commit => Awaits::NotPresent,
        TransactionOperation::GetReadVersion => Awaits::ReadVersion,
        TransactionOperation::GetCommittedVersion => Awaits::CommittedVersion,
        TransactionOperation::ReadConflictRange | TransactionOperation::WriteConflictRange => {
            Awaits::ConflictRange
        }
        TransactionOperation::ReadConflictKey | TransactionOperation::WriteConflictKey => {
            Awaits::ConflictKey
        }
        TransactionOperation::GetVersionstamp => Awaits::Promise,
    }
}

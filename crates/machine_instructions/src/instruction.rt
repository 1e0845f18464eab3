//! Instructions as values of the database.

ghost use Rattle.std.specs.Prelude.{◌≡◌, [], ◌∷◌, ◌++◌, Some, Ok, IfOk, IfSome, option_to_list};
ghost use Rattle.std.specs.List.{AllByRecursion};
ghost use Rattle.fdb_tuple.specs.Reading.{read_tuple};
ghost use Rattle.fdb_tuple.specs.Tuples.{Empty, Single, Text};
ghost use Rattle.model_machine.specs.Operands.{bytes_of};
ghost use Rattle.model_machine.specs.Instructions.{stack_operation, transaction_operation, directory_operation, operation_in, read_scope, write_scope};
ghost use Rattle.model_machine.specs.Instructions.{database_names, creation_names, removal_names, listing_names, subspace_names};
ghost use Rattle.model_machine.specs.Instructions.{bare_instruction, named_instruction, instruction_in, instruction_of};
ghost use Rattle.machine_instructions.specs.Pushes.{PushesAnElement};
ghost use Rattle.fdb_tuple.specs.Listed.{IsElement};
ghost use Rattle.fdb_tuple.specs.Zeros.{HasNoZero};

use fdb_tuple::{Elem, UnpackFault, unpack};
use key_bytes::Bytes;
use model_machine::{
    DatabaseOperation, DirectoryOperation, Instruction, Scope, StackOperation, TransactionOperation,
};
use stack_items::bytes_of;
use std::alloc::{AllocError, Global};

/// Returns the instruction that a value packs under the last API version: a tuple of a name, a Unicode or a byte string, and for
/// PUSH one element more. None where the value is no such tuple, or the name that of no instruction.
#[tactic(auto, unfolding(model_machine::specs::Instructions::instruction_of))]
pub fn instruction_of(alloc: Global, value: &[u8]) -> Result<Option<Instruction>, AllocError>
    ensures instruction { IfOk result (λ instruction. instruction ≡ instruction_of value.now) }
    ensures element { IfOk result PushesAnElement }
{
    if let Some(instruction) = usual_instruction(value) {
        return Ok(Some(instruction));
    }
    if let Some(element) = pushed_element(alloc, value)? {
        return Ok(Some(Instruction::Push(element)));
    }
    if let Some(name) = lone_name(value) {
        return Ok(bare_instruction(name));
    }
    match unpack(alloc, value) {
        Ok(tuple) => Ok(instruction_in(tuple.into_vec())),
        Err(UnpackFault::NoMemory) => Err(AllocError),
        Err(_) => Ok(None),
    }
}

// The instruction where the value is that of one of those that most transactions have: one comparison each, and no look at the
// bytes of the name.
fn usual_instruction(value: &[u8]) -> Option<Instruction>
    ensures instruction { IfSome result (λ instruction. instruction_of value.now ≡ Some instruction) }
    ensures element { PushesAnElement result }
{
    if value == b"\x02SET\x00".as_slice() {
        Some(Instruction::OnDatabase(DatabaseOperation::Set, Scope::Transaction))
    } else if value == b"\x02GET\x00".as_slice() {
        Some(Instruction::OnDatabase(DatabaseOperation::Get, Scope::Transaction))
    } else if value == b"\x02COMMIT\x00".as_slice() {
        Some(Instruction::OnTransaction(TransactionOperation::Commit))
    } else if value == b"\x02RESET\x00".as_slice() {
        Some(Instruction::OnTransaction(TransactionOperation::Reset))
    } else if value == b"\x02NEW_TRANSACTION\x00".as_slice() {
        Some(Instruction::OnTransaction(TransactionOperation::NewTransaction))
    } else if value == b"\x02USE_TRANSACTION\x00".as_slice() {
        Some(Instruction::UseTransaction)
    } else {
        None
    }
}

// The string that the value packs alone under this code, where no zero stands in it, so that it is packed as it stands.
fn lone_string(value: &[u8], code: u8) -> Option<&[u8]>
    ensures packed { IfSome result (λ string. value.now ≡ code ∷ string.now ++ 0 ∷ []) }
    ensures whole { IfSome result (λ string. HasNoZero string.now) }
{
    let string = value.strip_prefix(&[code])?.strip_suffix(&[0x00])?;
    if string.contains(&0) {
        return None;
    }
    Some(string)
}

// The name where the value packs a Unicode string alone, without a zero in it, as most instructions do.
fn lone_name(value: &[u8]) -> Option<&[u8]>
    ensures { IfSome result (λ name. read_tuple value.now ≡ Ok (Single (Text name.now) Empty)) }
{
    let name = lone_string(value, 0x02)?;
    match str::from_utf8(name) {
        Ok(_) => Some(name),
        Err(_) => None,
    }
}

// The element that the value pushes, where it packs PUSH as a Unicode string and one element. A byte string without a zero in it
// is the one that most pushes have.
fn pushed_element(alloc: Global, value: &[u8]) -> Result<Option<Elem>, AllocError>
    ensures pushes { IfOk result (λ element. IfSome element (λ element. instruction_of value.now ≡ Some (Instruction.Push element))) }
    ensures element { IfOk result (λ element. IfSome element IsElement) }
{
    let Some(rest) = value.strip_prefix(b"\x02PUSH\x00") else {
        return Ok(None);
    };
    if let Some(bytes) = lone_string(rest, 0x01) {
        let bytes = Bytes::from_slice(alloc, bytes)?;
        return Ok(Some(Elem::Bytes(bytes)));
    }
    match unpack(alloc, rest) {
        Ok(tuple) => Ok(only_element(tuple.into_vec())),
        Err(UnpackFault::NoMemory) => Err(AllocError),
        Err(_) => Ok(None),
    }
}

// The element that is the only one.
fn only_element(elements: Vec<Elem>) -> Option<Elem>
    ensures { IfSome result (λ element. elements.items ≡ element ∷ []) }
{
    let mut elements = elements;
    if elements.len() == 1 {
        elements.pop()
    } else {
        None
    }
}

fn instruction_in(elements: Vec<Elem>) -> Option<Instruction>
    requires { AllByRecursion IsElement elements.items }
    ensures instruction { result ≡ instruction_in elements.items }
    ensures element { PushesAnElement result }
{
    let mut rest = elements.into_iter();
    let name = rest.next()?;
    let element = rest.next();
    if rest.next().is_some() {
        return None;
    }
    named_instruction(bytes_of(&name)?, element)
}

fn named_instruction(name: &[u8], element: Option<Elem>) -> Option<Instruction>
    requires { IfSome element IsElement }
    ensures instruction { result ≡ named_instruction name.now (option_to_list element) }
    ensures element { PushesAnElement result }
{
    match element {
        None => bare_instruction(name),
        Some(element) if name == b"PUSH".as_slice() => Some(Instruction::Push(element)),
        Some(_) => None,
    }
}

fn bare_instruction(name: &[u8]) -> Option<Instruction>
    ensures instruction { result ≡ bare_instruction name.now }
    ensures element { PushesAnElement result }
{
    if name == b"USE_TRANSACTION".as_slice() {
        return Some(Instruction::UseTransaction);
    }
    if name == b"LOG_STACK".as_slice() {
        return Some(Instruction::LogStack);
    }
    if name == b"START_THREAD".as_slice() {
        return Some(Instruction::StartThread);
    }
    if name == b"WAIT_EMPTY".as_slice() {
        return Some(Instruction::WaitEmpty);
    }
    if let Some(operation) = transaction_operation(name) {
        return Some(Instruction::OnTransaction(operation));
    }
    if let Some((operation, scope)) = database_operation(name) {
        return Some(Instruction::OnDatabase(operation, scope));
    }
    if let Some((operation, scope)) = directory_operation(name) {
        return Some(Instruction::OnDirectories(operation, scope));
    }
    stack_operation(name).map(Instruction::OnStack)
}

fn transaction_operation(name: &[u8]) -> Option<TransactionOperation>
    ensures { result ≡ transaction_operation name.now }
{
    if name == b"NEW_TRANSACTION".as_slice() {
        Some(TransactionOperation::NewTransaction)
    } else if name == b"ON_ERROR".as_slice() {
        Some(TransactionOperation::OnError)
    } else if name == b"RESET".as_slice() {
        Some(TransactionOperation::Reset)
    } else if name == b"CANCEL".as_slice() {
        Some(TransactionOperation::Cancel)
    } else if name == b"COMMIT".as_slice() {
        Some(TransactionOperation::Commit)
    } else if name == b"GET_READ_VERSION".as_slice()
        || name == b"GET_READ_VERSION_SNAPSHOT".as_slice()
    {
        Some(TransactionOperation::GetReadVersion)
    } else if name == b"SET_READ_VERSION".as_slice() {
        Some(TransactionOperation::SetReadVersion)
    } else if name == b"GET_COMMITTED_VERSION".as_slice() {
        Some(TransactionOperation::GetCommittedVersion)
    } else if name == b"READ_CONFLICT_RANGE".as_slice() {
        Some(TransactionOperation::ReadConflictRange)
    } else if name == b"WRITE_CONFLICT_RANGE".as_slice() {
        Some(TransactionOperation::WriteConflictRange)
    } else if name == b"READ_CONFLICT_KEY".as_slice() {
        Some(TransactionOperation::ReadConflictKey)
    } else if name == b"WRITE_CONFLICT_KEY".as_slice() {
        Some(TransactionOperation::WriteConflictKey)
    } else if name == b"DISABLE_WRITE_CONFLICT".as_slice() {
        Some(TransactionOperation::DisableWriteConflict)
    } else if name == b"GET_VERSIONSTAMP".as_slice() {
        Some(TransactionOperation::GetVersionstamp)
    } else {
        None
    }
}

fn database_operation(name: &[u8]) -> Option<(DatabaseOperation, Scope)>
    ensures { result ≡ operation_in database_names name.now }
{
    if let Some(scope) = read_scope(name, b"GET") {
        Some((DatabaseOperation::Get, scope))
    } else if let Some(scope) = read_scope(name, b"GET_KEY") {
        Some((DatabaseOperation::GetKey, scope))
    } else if let Some(scope) = read_scope(name, b"GET_RANGE") {
        Some((DatabaseOperation::GetRange, scope))
    } else if let Some(scope) = read_scope(name, b"GET_RANGE_STARTS_WITH") {
        Some((DatabaseOperation::GetRangeStartsWith, scope))
    } else if let Some(scope) = read_scope(name, b"GET_RANGE_SELECTOR") {
        Some((DatabaseOperation::GetRangeSelector, scope))
    } else if let Some(scope) = write_scope(name, b"SET") {
        Some((DatabaseOperation::Set, scope))
    } else if let Some(scope) = write_scope(name, b"CLEAR") {
        Some((DatabaseOperation::Clear, scope))
    } else if let Some(scope) = write_scope(name, b"CLEAR_RANGE") {
        Some((DatabaseOperation::ClearRange, scope))
    } else if let Some(scope) = write_scope(name, b"CLEAR_RANGE_STARTS_WITH") {
        Some((DatabaseOperation::ClearRangeStartsWith, scope))
    } else if let Some(scope) = write_scope(name, b"ATOMIC_OP") {
        Some((DatabaseOperation::AtomicOp, scope))
    } else {
        None
    }
}

fn directory_operation(name: &[u8]) -> Option<(DirectoryOperation, Scope)>
    ensures { result ≡ directory_operation name.now }
{
    if let Some(found) = creation_operation(name) {
        return Some(found);
    }
    if let Some(found) = removal_operation(name) {
        return Some(found);
    }
    if let Some(found) = listing_operation(name) {
        return Some(found);
    }
    subspace_operation(name)
}

// The operation of a name of those that make or open a directory, or choose one.
fn creation_operation(name: &[u8]) -> Option<(DirectoryOperation, Scope)>
    ensures { result ≡ operation_in creation_names name.now }
{
    if name == b"DIRECTORY_CREATE_SUBSPACE".as_slice() {
        Some((DirectoryOperation::CreateSubspace, Scope::Transaction))
    } else if name == b"DIRECTORY_CREATE_LAYER".as_slice() {
        Some((DirectoryOperation::CreateLayer, Scope::Transaction))
    } else if let Some(scope) = write_scope(name, b"DIRECTORY_CREATE_OR_OPEN") {
        Some((DirectoryOperation::CreateOrOpen, scope))
    } else if let Some(scope) = write_scope(name, b"DIRECTORY_CREATE") {
        Some((DirectoryOperation::Create, scope))
    } else if let Some(scope) = read_scope(name, b"DIRECTORY_OPEN") {
        Some((DirectoryOperation::Open, scope))
    } else if name == b"DIRECTORY_CHANGE".as_slice() {
        Some((DirectoryOperation::Change, Scope::Transaction))
    } else if name == b"DIRECTORY_SET_ERROR_INDEX".as_slice() {
        Some((DirectoryOperation::SetErrorIndex, Scope::Transaction))
    } else {
        None
    }
}

// The operation of a name of those that move or remove.
fn removal_operation(name: &[u8]) -> Option<(DirectoryOperation, Scope)>
    ensures { result ≡ operation_in removal_names name.now }
{
    if let Some(scope) = write_scope(name, b"DIRECTORY_MOVE") {
        Some((DirectoryOperation::Move, scope))
    } else if let Some(scope) = write_scope(name, b"DIRECTORY_MOVE_TO") {
        Some((DirectoryOperation::MoveTo, scope))
    } else if let Some(scope) = write_scope(name, b"DIRECTORY_REMOVE") {
        Some((DirectoryOperation::Remove, scope))
    } else if let Some(scope) = write_scope(name, b"DIRECTORY_REMOVE_IF_EXISTS") {
        Some((DirectoryOperation::RemoveIfExists, scope))
    } else {
        None
    }
}

// The operation of a name of those that list or find.
fn listing_operation(name: &[u8]) -> Option<(DirectoryOperation, Scope)>
    ensures { result ≡ operation_in listing_names name.now }
{
    if let Some(scope) = read_scope(name, b"DIRECTORY_LIST") {
        Some((DirectoryOperation::List, scope))
    } else if let Some(scope) = read_scope(name, b"DIRECTORY_EXISTS") {
        Some((DirectoryOperation::Exists, scope))
    } else {
        None
    }
}

// The operation of a name of those on subspaces and logs.
fn subspace_operation(name: &[u8]) -> Option<(DirectoryOperation, Scope)>
    ensures { result ≡ operation_in subspace_names name.now }
{
    if name == b"DIRECTORY_PACK_KEY".as_slice() {
        Some((DirectoryOperation::PackKey, Scope::Transaction))
    } else if name == b"DIRECTORY_UNPACK_KEY".as_slice() {
        Some((DirectoryOperation::UnpackKey, Scope::Transaction))
    } else if name == b"DIRECTORY_RANGE".as_slice() {
        Some((DirectoryOperation::Range, Scope::Transaction))
    } else if name == b"DIRECTORY_CONTAINS".as_slice() {
        Some((DirectoryOperation::Contains, Scope::Transaction))
    } else if name == b"DIRECTORY_OPEN_SUBSPACE".as_slice() {
        Some((DirectoryOperation::OpenSubspace, Scope::Transaction))
    } else if name == b"DIRECTORY_LOG_SUBSPACE".as_slice() {
        Some((DirectoryOperation::LogSubspace, Scope::Transaction))
    } else if name == b"DIRECTORY_LOG_DIRECTORY".as_slice() {
        Some((DirectoryOperation::LogDirectory, Scope::Transaction))
    } else if name == b"DIRECTORY_STRIP_PREFIX".as_slice() {
        Some((DirectoryOperation::StripPrefix, Scope::Transaction))
    } else {
        None
    }
}

// The scope of a name of an operation that reads: alone, or with an ending.
#[tactic(auto, using(crate::proofs::Scopes::scopes))]
fn read_scope(name: &[u8], operation: &[u8]) -> Option<Scope>
    ensures { result ≡ read_scope name.now operation.now }
{
    let ending = name.strip_prefix(operation)?;
    if ending == b"_SNAPSHOT".as_slice() {
        Some(Scope::Snapshot)
    } else {
        scope_by(ending)
    }
}

// The scope of a name of an operation that writes.
#[tactic(auto, using(crate::proofs::Scopes::scopes))]
fn write_scope(name: &[u8], operation: &[u8]) -> Option<Scope>
    ensures { result ≡ write_scope name.now operation.now }
{
    scope_by(name.strip_prefix(operation)?)
}

// The scope that every operation has with this ending.
fn scope_by(ending: &[u8]) -> Option<Scope>
    ensures { result ≡ write_scope ending.now [] }
{
    if ending.is_empty() {
        Some(Scope::Transaction)
    } else if ending == b"_DATABASE".as_slice() {
        Some(Scope::Database)
    } else {
        None
    }
}

fn stack_operation(name: &[u8]) -> Option<StackOperation>
    ensures { result ≡ stack_operation name.now }
{
    if name == b"DUP".as_slice() {
        Some(StackOperation::Dup)
    } else if name == b"EMPTY_STACK".as_slice() {
        Some(StackOperation::EmptyStack)
    } else if name == b"SWAP".as_slice() {
        Some(StackOperation::Swap)
    } else if name == b"POP".as_slice() {
        Some(StackOperation::Pop)
    } else if name == b"SUB".as_slice() {
        Some(StackOperation::Sub)
    } else if name == b"CONCAT".as_slice() {
        Some(StackOperation::Concat)
    } else if name == b"WAIT_FUTURE".as_slice() {
        Some(StackOperation::WaitFuture)
    } else if name == b"TUPLE_PACK".as_slice() {
        Some(StackOperation::TuplePack)
    } else if name == b"TUPLE_PACK_WITH_VERSIONSTAMP".as_slice() {
        Some(StackOperation::TuplePackWithVersionstamp)
    } else if name == b"TUPLE_UNPACK".as_slice() {
        Some(StackOperation::TupleUnpack)
    } else if name == b"TUPLE_RANGE".as_slice() {
        Some(StackOperation::TupleRange)
    } else if name == b"TUPLE_SORT".as_slice() {
        Some(StackOperation::TupleSort)
    } else if name == b"GET_APPROXIMATE_SIZE".as_slice() {
        Some(StackOperation::GetApproximateSize)
    } else if name == b"GET_ESTIMATED_RANGE_SIZE".as_slice() {
        Some(StackOperation::GetEstimatedRangeSize)
    } else if name == b"UNIT_TESTS".as_slice() {
        Some(StackOperation::UnitTests)
    } else {
        None
    }
}

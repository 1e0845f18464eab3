//! The requests of a client by their names: a row for each.

ghost use Rattle.std.specs.Prelude.{◌≡◌};
ghost use Rattle.fdb_wire.specs.Reading.{Gives, lone, get_of, get_key_of, get_range_of, get_range_selector_of, set_of, clear_of, clear_range_of, atomic_of, read_conflict_of, write_conflict_of, set_read_version_of, on_error_of, bare_of, new_of, poll_of, ruling_of, writing_of, request_named};

use crate::elements::{
    next_bytes, next_code, next_flag, next_life, next_options, next_range, next_selector,
    next_version,
};
use crate::fault::Unread;
use fdb_calls::{Code, Request, TxnCall};
use fdb_tuple::Elem;

// A request behind which no element is left.
fn lone(elements: &[Elem], request: Request) -> Result<Request, Unread>
    ensures { Gives (λ request. request) result (lone elements.now request) }
{
    match elements {
        [] => Ok(request),
        [_, rest @ ..] => Err(Unread::Stray(rest.len() + 1)),
    }
}

#[tactic(auto, unfolding(crate::specs::Reading::get_of))]
fn get_of(elements: &[Elem]) -> Result<Request, Unread>
    ensures { Gives (λ request. request) result (get_of elements.now) }
{
    let (name, elements) = next_bytes(elements)?;
    let (key, elements) = next_bytes(elements)?;
    let (snapshot, elements) = next_flag(elements)?;
    let call = TxnCall::Get { key, snapshot };
    lone(elements, Request::On { name, call })
}

#[tactic(auto, unfolding(crate::specs::Reading::get_key_of))]
fn get_key_of(elements: &[Elem]) -> Result<Request, Unread>
    ensures { Gives (λ request. request) result (get_key_of elements.now) }
{
    let (name, elements) = next_bytes(elements)?;
    let (selector, elements) = next_selector(elements)?;
    let (snapshot, elements) = next_flag(elements)?;
    let call = TxnCall::GetKey { selector, snapshot };
    lone(elements, Request::On { name, call })
}

#[tactic(auto, unfolding(crate::specs::Reading::get_range_of))]
fn get_range_of(elements: &[Elem]) -> Result<Request, Unread>
    ensures { Gives (λ request. request) result (get_range_of elements.now) }
{
    let (name, elements) = next_bytes(elements)?;
    let (range, elements) = next_range(elements)?;
    let (options, elements) = next_options(elements)?;
    let (snapshot, elements) = next_flag(elements)?;
    let call = TxnCall::GetKeyRange {
        range,
        options,
        snapshot,
    };
    lone(elements, Request::On { name, call })
}

#[tactic(auto, unfolding(crate::specs::Reading::get_range_selector_of))]
fn get_range_selector_of(elements: &[Elem]) -> Result<Request, Unread>
    ensures { Gives (λ request. request) result (get_range_selector_of elements.now) }
{
    let (name, elements) = next_bytes(elements)?;
    let (begin, elements) = next_selector(elements)?;
    let (end, elements) = next_selector(elements)?;
    let (options, elements) = next_options(elements)?;
    let (snapshot, elements) = next_flag(elements)?;
    let call = TxnCall::GetRange {
        begin,
        end,
        options,
        snapshot,
    };
    lone(elements, Request::On { name, call })
}

#[tactic(auto, unfolding(crate::specs::Reading::set_of))]
fn set_of(elements: &[Elem]) -> Result<Request, Unread>
    ensures { Gives (λ request. request) result (set_of elements.now) }
{
    let (name, elements) = next_bytes(elements)?;
    let (key, elements) = next_bytes(elements)?;
    let (value, elements) = next_bytes(elements)?;
    let call = TxnCall::Set { key, value };
    lone(elements, Request::On { name, call })
}

#[tactic(auto, unfolding(crate::specs::Reading::clear_of))]
fn clear_of(elements: &[Elem]) -> Result<Request, Unread>
    ensures { Gives (λ request. request) result (clear_of elements.now) }
{
    let (name, elements) = next_bytes(elements)?;
    let (key, elements) = next_bytes(elements)?;
    let call = TxnCall::Clear { key };
    lone(elements, Request::On { name, call })
}

#[tactic(auto, unfolding(crate::specs::Reading::clear_range_of))]
fn clear_range_of(elements: &[Elem]) -> Result<Request, Unread>
    ensures { Gives (λ request. request) result (clear_range_of elements.now) }
{
    let (name, elements) = next_bytes(elements)?;
    let (range, elements) = next_range(elements)?;
    let call = TxnCall::ClearRange { range };
    lone(elements, Request::On { name, call })
}

#[tactic(auto, unfolding(crate::specs::Reading::atomic_of))]
fn atomic_of(elements: &[Elem]) -> Result<Request, Unread>
    ensures { Gives (λ request. request) result (atomic_of elements.now) }
{
    let (name, elements) = next_bytes(elements)?;
    let (operation, elements) = next_bytes(elements)?;
    let (key, elements) = next_bytes(elements)?;
    let (operand, elements) = next_bytes(elements)?;
    let call = TxnCall::Atomic {
        name: operation,
        key,
        operand,
    };
    lone(elements, Request::On { name, call })
}

#[tactic(auto, unfolding(crate::specs::Reading::read_conflict_of))]
fn read_conflict_of(elements: &[Elem]) -> Result<Request, Unread>
    ensures { Gives (λ request. request) result (read_conflict_of elements.now) }
{
    let (name, elements) = next_bytes(elements)?;
    let (range, elements) = next_range(elements)?;
    let call = TxnCall::ReadConflict { range };
    lone(elements, Request::On { name, call })
}

#[tactic(auto, unfolding(crate::specs::Reading::write_conflict_of))]
fn write_conflict_of(elements: &[Elem]) -> Result<Request, Unread>
    ensures { Gives (λ request. request) result (write_conflict_of elements.now) }
{
    let (name, elements) = next_bytes(elements)?;
    let (range, elements) = next_range(elements)?;
    let call = TxnCall::WriteConflict { range };
    lone(elements, Request::On { name, call })
}

#[tactic(auto, unfolding(crate::specs::Reading::set_read_version_of))]
fn set_read_version_of(elements: &[Elem]) -> Result<Request, Unread>
    ensures { Gives (λ request. request) result (set_read_version_of elements.now) }
{
    let (name, elements) = next_bytes(elements)?;
    let (version, elements) = next_version(elements)?;
    let call = TxnCall::SetReadVersion { version };
    lone(elements, Request::On { name, call })
}

#[tactic(auto, unfolding(crate::specs::Reading::on_error_of))]
fn on_error_of(elements: &[Elem]) -> Result<Request, Unread>
    ensures { Gives (λ request. request) result (on_error_of elements.now) }
{
    let (name, elements) = next_bytes(elements)?;
    let (code, elements) = next_code(elements)?;
    let call = TxnCall::OnError { code: Code(code) };
    lone(elements, Request::On { name, call })
}

// A call that has nothing but its transaction's name.
#[tactic(auto, unfolding(crate::specs::Reading::bare_of))]
fn bare_of(call: TxnCall, elements: &[Elem]) -> Result<Request, Unread>
    ensures { Gives (λ request. request) result (bare_of call elements.now) }
{
    let (name, elements) = next_bytes(elements)?;
    lone(elements, Request::On { name, call })
}

#[tactic(auto, unfolding(crate::specs::Reading::new_of))]
fn new_of(elements: &[Elem]) -> Result<Request, Unread>
    ensures { Gives (λ request. request) result (new_of elements.now) }
{
    let (name, elements) = next_bytes(elements)?;
    lone(elements, Request::New { name })
}

#[tactic(auto, unfolding(crate::specs::Reading::poll_of))]
fn poll_of(elements: &[Elem]) -> Result<Request, Unread>
    ensures { Gives (λ request. request) result (poll_of elements.now) }
{
    let (life, elements) = next_life(elements)?;
    lone(elements, Request::PollStamp { life })
}

// Reads what begins, ends or rules a transaction; a name that is none is stray.
#[tactic(auto, unfolding(crate::specs::Reading::ruling_of))]
fn ruling_of(name: &[u8], elements: &[Elem]) -> Result<Request, Unread>
    ensures { Gives (λ request. request) result (ruling_of name.now elements.now) }
{
    if name == b"COMMIT".as_slice() {
        bare_of(TxnCall::Commit, elements)
    } else if name == b"RESET".as_slice() {
        bare_of(TxnCall::Reset, elements)
    } else if name == b"NEW_TRANSACTION".as_slice() {
        new_of(elements)
    } else if name == b"ON_ERROR".as_slice() {
        on_error_of(elements)
    } else if name == b"CANCEL".as_slice() {
        bare_of(TxnCall::Cancel, elements)
    } else if name == b"SET_READ_VERSION".as_slice() {
        set_read_version_of(elements)
    } else {
        Err(Unread::Stray(elements.len() + 1))
    }
}

// Reads what writes, or adds conflict ranges.
#[tactic(auto, unfolding(crate::specs::Reading::writing_of))]
fn writing_of(name: &[u8], elements: &[Elem]) -> Result<Request, Unread>
    ensures { Gives (λ request. request) result (writing_of name.now elements.now) }
{
    if name == b"SET".as_slice() {
        set_of(elements)
    } else if name == b"CLEAR".as_slice() {
        clear_of(elements)
    } else if name == b"CLEAR_RANGE".as_slice() {
        clear_range_of(elements)
    } else if name == b"ATOMIC_OP".as_slice() {
        atomic_of(elements)
    } else if name == b"READ_CONFLICT_RANGE".as_slice() {
        read_conflict_of(elements)
    } else if name == b"WRITE_CONFLICT_RANGE".as_slice() {
        write_conflict_of(elements)
    } else if name == b"DISABLE_WRITE_CONFLICT".as_slice() {
        bare_of(TxnCall::NoWriteConflict, elements)
    } else {
        ruling_of(name, elements)
    }
}

/// Reads the request of a name from the elements behind it.
#[tactic(auto, unfolding(crate::specs::Reading::request_named))]
pub(crate) fn request_named(name: &[u8], elements: &[Elem]) -> Result<Request, Unread>
    ensures { Gives (λ request. request) result (request_named name.now elements.now) }
{
    if name == b"GET".as_slice() {
        get_of(elements)
    } else if name == b"GET_KEY".as_slice() {
        get_key_of(elements)
    } else if name == b"GET_RANGE".as_slice() {
        get_range_of(elements)
    } else if name == b"GET_RANGE_SELECTOR".as_slice() {
        get_range_selector_of(elements)
    } else if name == b"GET_READ_VERSION".as_slice() {
        bare_of(TxnCall::ReadVersion, elements)
    } else if name == b"GET_COMMITTED_VERSION".as_slice() {
        bare_of(TxnCall::CommittedVersion, elements)
    } else if name == b"GET_VERSIONSTAMP".as_slice() {
        bare_of(TxnCall::Versionstamp, elements)
    } else if name == b"POLL_STAMP".as_slice() {
        poll_of(elements)
    } else {
        writing_of(name, elements)
    }
}

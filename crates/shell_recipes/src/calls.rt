//! Each call, on any transaction.

ghost use Rattle.std.specs.Prelude.{◌≡◌, IfOk};
ghost use Rattle.model_database.specs.Histories.{Setting};
ghost use Rattle.model_database.specs.Transactions.{Transaction, view};
ghost use Rattle.model_recipes.specs.Queues.{push_call, pop_call};
ghost use Rattle.model_recipes.specs.Multimaps.{add_call, subtract_call, values_call};
ghost use Rattle.model_recipes.specs.Blobs.{size_call, read_call, write_call};
ghost use Rattle.model_shell.specs.Recipes.{space_of, queue_space, multi_space, blob_space, nothing_said, item_said, counts_said, bytes_said, size_said};
ghost use Rattle.shell_recipes.specs.Running.{Refuses, Finishes, Ends, Makes};

use fdb_calls::Tr;
use fdb_subspace::{Subspace, packed_behind};
use fdb_tuple::{Elem, pack_element};
use key_bytes::Bytes;
use model_shell::Recipe;
use recipe_layers::{Counts, RecipeFault, add, pop, push, read, size, subtract, values, write};
use shell_text::{add_bytes, add_code, add_counts, add_error, add_item, add_size};
use std::alloc::AllocError;

/// How a call of a layer ended.
#[derive(Clone, Copy, Debug, PartialEq, Eq)]
pub enum End {
    /// It was done.
    Done,
    /// It was refused, and why was printed.
    Refused,
}

// The subspace of a kind of layer and a name.
#[tactic(auto, unfolding(model_shell::specs::Recipes::space_of))]
fn space_of(kind: &[u8], name: &Bytes) -> Result<Subspace, AllocError>
    ensures { IfOk result (λ space. space.prefix ≡ space_of kind.now name.now) }
{
    let kind = Bytes::from_slice(name.allocator(), kind)?;
    let front = pack_element(name.allocator(), &Elem::Bytes(kind))?;
    let prefix = packed_behind(&front, &Elem::Bytes(name.copy()?))?;
    Ok(Subspace { prefix })
}

// Prints why a call was refused.
fn refuse(text: &mut Bytes, fault: RecipeFault) -> Result<End, AllocError>
    ensures { IfOk result (λ end. Refuses fault end text.old text.new) }
{
    match fault {
        RecipeFault::BadKey { key: _ } => add_error(text, b"BadKey")?,
        RecipeFault::IndexEnd => add_error(text, b"IndexEnd")?,
        RecipeFault::PastEnd { size: _ } => add_error(text, b"PastEnd")?,
        RecipeFault::Tr(code) => add_code(text, code)?,
        RecipeFault::NoMemory => return Err(AllocError),
    }
    Ok(End::Refused)
}

// Prints what is said of a call that answers nothing.
fn finish(text: &mut Bytes, answer: Result<(), RecipeFault>) -> Result<End, AllocError>
    ensures { IfOk result (λ end. Finishes nothing_said answer end text.old text.new) }
{
    match answer {
        Ok(()) => Ok(End::Done),
        Err(fault) => refuse(text, fault),
    }
}

// Prints what is said of a call that answers an item, or that there is none.
fn finish_item(
    text: &mut Bytes,
    answer: Result<Option<Bytes>, RecipeFault>,
) -> Result<End, AllocError>
    ensures { IfOk result (λ end. Finishes item_said answer end text.old text.new) }
{
    match answer {
        Ok(item) => {
            add_item(text, &item)?;
            Ok(End::Done)
        }
        Err(fault) => refuse(text, fault),
    }
}

// Prints what is said of a call that answers values with their counts.
fn finish_counts(text: &mut Bytes, answer: Result<Counts, RecipeFault>) -> Result<End, AllocError>
    ensures { IfOk result (λ end. Finishes counts_said answer end text.old text.new) }
{
    match answer {
        Ok(counts) => {
            add_counts(text, &counts)?;
            Ok(End::Done)
        }
        Err(fault) => refuse(text, fault),
    }
}

// Prints what is said of a call that answers bytes.
fn finish_bytes(text: &mut Bytes, answer: Result<Bytes, RecipeFault>) -> Result<End, AllocError>
    ensures { IfOk result (λ end. Finishes bytes_said answer end text.old text.new) }
{
    match answer {
        Ok(bytes) => {
            add_bytes(text, bytes.as_slice())?;
            Ok(End::Done)
        }
        Err(fault) => refuse(text, fault),
    }
}

// Prints what is said of a call that answers a number of bytes.
fn finish_size(text: &mut Bytes, answer: Result<u64, RecipeFault>) -> Result<End, AllocError>
    ensures { IfOk result (λ end. Finishes size_said answer end text.old text.new) }
{
    match answer {
        Ok(size) => {
            add_size(text, size)?;
            Ok(End::Done)
        }
        Err(fault) => refuse(text, fault),
    }
}

fn push_item<T: Tr>(
    tr: &mut T,
    queue: &Bytes,
    value: &Bytes,
    text: &mut Bytes,
) -> Result<End, AllocError>
    ensures ended { (setting : Setting) (t : Transaction) → T.Tr.stands tr.old setting t
        → IfOk result (λ end. Ends end nothing_said setting (T.Tr.stands tr.new setting) (push_call (queue_space queue.now) value.now (view setting t)) t text.old text.new) }
    ensures same { T.Tr.same tr.old tr.new }
{
    let space = space_of(b"queue", queue)?;
    let answer = push(tr, &space, value.as_slice());
    finish(text, answer)
}

fn pop_item<T: Tr>(tr: &mut T, queue: &Bytes, text: &mut Bytes) -> Result<End, AllocError>
    ensures ended { (setting : Setting) (t : Transaction) → T.Tr.stands tr.old setting t
        → IfOk result (λ end. Ends end item_said setting (T.Tr.stands tr.new setting) (pop_call (queue_space queue.now) (view setting t)) t text.old text.new) }
    ensures same { T.Tr.same tr.old tr.new }
{
    let space = space_of(b"queue", queue)?;
    let answer = pop(tr, &space);
    finish_item(text, answer)
}

fn add_pair<T: Tr>(
    tr: &mut T,
    multi: &Bytes,
    key: &Bytes,
    value: &Bytes,
    text: &mut Bytes,
) -> Result<End, AllocError>
    ensures ended { (setting : Setting) (t : Transaction) → T.Tr.stands tr.old setting t
        → IfOk result (λ end. Ends end nothing_said setting (T.Tr.stands tr.new setting) (add_call (multi_space multi.now) key.now value.now (view setting t)) t text.old text.new) }
    ensures same { T.Tr.same tr.old tr.new }
{
    let space = space_of(b"multi", multi)?;
    let answer = add(tr, &space, key.as_slice(), value.as_slice());
    finish(text, answer)
}

fn subtract_pair<T: Tr>(
    tr: &mut T,
    multi: &Bytes,
    key: &Bytes,
    value: &Bytes,
    text: &mut Bytes,
) -> Result<End, AllocError>
    ensures ended { (setting : Setting) (t : Transaction) → T.Tr.stands tr.old setting t
        → IfOk result (λ end. Ends end nothing_said setting (T.Tr.stands tr.new setting) (subtract_call (multi_space multi.now) key.now value.now (view setting t)) t text.old text.new) }
    ensures same { T.Tr.same tr.old tr.new }
{
    let space = space_of(b"multi", multi)?;
    let answer = subtract(tr, &space, key.as_slice(), value.as_slice());
    finish(text, answer)
}

fn read_values<T: Tr>(
    tr: &mut T,
    multi: &Bytes,
    key: &Bytes,
    text: &mut Bytes,
) -> Result<End, AllocError>
    ensures ended { (setting : Setting) (t : Transaction) → T.Tr.stands tr.old setting t
        → IfOk result (λ end. Ends end counts_said setting (T.Tr.stands tr.new setting) (values_call (multi_space multi.now) key.now (view setting t)) t text.old text.new) }
    ensures same { T.Tr.same tr.old tr.new }
{
    let space = space_of(b"multi", multi)?;
    let answer = values(tr, &space, key.as_slice());
    finish_counts(text, answer)
}

fn write_bytes<T: Tr>(
    tr: &mut T,
    blob: &Bytes,
    at: u64,
    piece: &Bytes,
    text: &mut Bytes,
) -> Result<End, AllocError>
    ensures ended { (setting : Setting) (t : Transaction) → T.Tr.stands tr.old setting t
        → IfOk result (λ end. Ends end nothing_said setting (T.Tr.stands tr.new setting) (write_call (blob_space blob.now) at piece.now (view setting t)) t text.old text.new) }
    ensures same { T.Tr.same tr.old tr.new }
{
    let space = space_of(b"blob", blob)?;
    let answer = write(tr, &space, at, piece.as_slice());
    finish(text, answer)
}

fn read_bytes<T: Tr>(
    tr: &mut T,
    blob: &Bytes,
    from: u64,
    most: u32,
    text: &mut Bytes,
) -> Result<End, AllocError>
    ensures ended { (setting : Setting) (t : Transaction) → T.Tr.stands tr.old setting t
        → IfOk result (λ end. Ends end bytes_said setting (T.Tr.stands tr.new setting) (read_call (blob_space blob.now) from most (view setting t)) t text.old text.new) }
    ensures same { T.Tr.same tr.old tr.new }
{
    let space = space_of(b"blob", blob)?;
    let answer = read(tr, &space, from, most);
    finish_bytes(text, answer)
}

fn read_size<T: Tr>(tr: &mut T, blob: &Bytes, text: &mut Bytes) -> Result<End, AllocError>
    ensures ended { (setting : Setting) (t : Transaction) → T.Tr.stands tr.old setting t
        → IfOk result (λ end. Ends end size_said setting (T.Tr.stands tr.new setting) (size_call (blob_space blob.now) (view setting t)) t text.old text.new) }
    ensures same { T.Tr.same tr.old tr.new }
{
    let space = space_of(b"blob", blob)?;
    let answer = size(tr, &space);
    finish_size(text, answer)
}

/// Makes a call of a layer, and adds what is printed of it to a text.
pub(crate) fn make<T: Tr>(tr: &mut T, recipe: &Recipe, text: &mut Bytes) -> Result<End, AllocError>
    ensures made { (setting : Setting) (t : Transaction) → T.Tr.stands tr.old setting t
        → IfOk result (λ end. Makes recipe.now end setting (T.Tr.stands tr.new setting) t text.old text.new) }
    ensures same { T.Tr.same tr.old tr.new }
{
    match recipe {
        Recipe::Push { queue, value } => push_item(tr, queue, value, text),
        Recipe::Pop { queue } => pop_item(tr, queue, text),
        Recipe::Add { multi, key, value } => add_pair(tr, multi, key, value, text),
        Recipe::Subtract { multi, key, value } => subtract_pair(tr, multi, key, value, text),
        Recipe::Values { multi, key } => read_values(tr, multi, key, text),
        Recipe::Write { blob, at, piece } => write_bytes(tr, blob, *at, piece, text),
        Recipe::Read { blob, from, most } => read_bytes(tr, blob, *from, *most, text),
        Recipe::Size { blob } => read_size(tr, blob, text),
    }
}

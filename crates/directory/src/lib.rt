//! Directories (the directory layer's documentation): paths of names, each of which stands for a short prefix of keys.
//!
//! Each call does to its transaction, and answers, what its definition says (`model_directory`, `specs/Calls.antt`): those
//! reads and writes in their order, and no other that a transaction keeps, each read answered as it is after the writes before it, up to the first refusal. It works
//! over any transaction that answers as the definitions say (`Tr`), and any random words. What the steps before a refusal did stays
//! in the transaction, and the words that were drawn are drawn. After NoMemory it stands for the transaction after some first of
//! the steps.
//!
//! A contract of a single function here says that it makes the steps of a course, which is one of the definitions'
//! (`directory_nodes`, `specs/Runs.antt`). What reads and writes nodes, follows names and takes prefixes stands there too.
//!
//! # Choices
//!
//! - Functions say which course they follow, for every setting and transaction at once (`Follows`), so that no function
//!   between the public calls and the transaction's speaks of a view or of a script.
//! - Each call takes the allocator of memory first.
#![tactic(auto)]

ghost use Rattle.model_database.specs.Histories.{Setting};
ghost use Rattle.model_database.specs.Transactions.{Transaction};
ghost use Rattle.directory_types.specs.declared.DirKind.TheVariants as kind;
ghost use Rattle.directory.specs.Runs.{IsAnswered};

mod creating;
mod listing;
mod logging;
mod moving;
mod reaching;
mod removing;

use crate::creating::{CREATE_OR_OPEN, make_or_open};
use crate::listing::{is_there, names_below};
use crate::logging::log_directory;
use crate::moving::move_directory;
use crate::removing::remove_directory;
use directory_types::{DirArgs, DirFault, DirReply, Layer};
use fdb_calls::Tr;
use model_directory::OpenOptions;
use outside::Words;
use std::alloc::Global;

/// Makes a directory with this path, layer name and prefix, and those above it that are missing. Without a prefix a new one is
/// allocated. Exists comes where there is one already.
pub fn create<T: Tr, W: Words>(
    alloc: Global,
    layer: &Layer,
    tr: &mut T,
    words: &mut W,
    a: &DirArgs,
) -> Result<DirReply, DirFault>
    ensures answered { (setting : Setting) (t : Transaction) → T.Tr.stands tr.old setting t
        → IsAnswered result setting (T.Tr.stands tr.new setting) (W.Words.words words.old) (W.Words.words words.new)
        kind.Create layer.now a.now t }
    ensures same { T.Tr.same tr.old tr.new }
{
    let options = OpenOptions {
        may_create: true,
        may_open: false,
        snapshot: false,
    };
    make_or_open(alloc, layer, tr, words, options, a)
}

/// Opens the directory of a path, or makes it where there is none.
pub fn create_or_open<T: Tr, W: Words>(
    alloc: Global,
    layer: &Layer,
    tr: &mut T,
    words: &mut W,
    a: &DirArgs,
) -> Result<DirReply, DirFault>
    ensures answered { (setting : Setting) (t : Transaction) → T.Tr.stands tr.old setting t
        → IsAnswered result setting (T.Tr.stands tr.new setting) (W.Words.words words.old) (W.Words.words words.new)
        kind.CreateOrOpen layer.now a.now t }
    ensures same { T.Tr.same tr.old tr.new }
{
    make_or_open(alloc, layer, tr, words, CREATE_OR_OPEN, a)
}

/// Opens the directory of a path. Missing comes where there is none, and LayerDiffers where its layer name is another one than that
/// which is asked for.
pub fn open<T: Tr, W: Words>(
    alloc: Global,
    layer: &Layer,
    tr: &mut T,
    words: &mut W,
    a: &DirArgs,
) -> Result<DirReply, DirFault>
    ensures answered { (setting : Setting) (t : Transaction) → T.Tr.stands tr.old setting t
        → IsAnswered result setting (T.Tr.stands tr.new setting) (W.Words.words words.old) (W.Words.words words.new)
        kind.Open layer.now a.now t }
    ensures same { T.Tr.same tr.old tr.new }
{
    let options = OpenOptions {
        may_create: false,
        may_open: true,
        snapshot: a.snapshot,
    };
    make_or_open(alloc, layer, tr, words, options, a)
}

/// Moves the directory of a path to another path, with all below it. Its prefix stays.
pub fn move_to<T: Tr, W: Words>(
    alloc: Global,
    layer: &Layer,
    tr: &mut T,
    _words: &mut W,
    a: &DirArgs,
) -> Result<DirReply, DirFault>
    ensures answered { (setting : Setting) (t : Transaction) → T.Tr.stands tr.old setting t
        → IsAnswered result setting (T.Tr.stands tr.new setting) (W.Words.words _words.old) (W.Words.words _words.new)
        kind.MoveTo layer.now a.now t }
    ensures same { T.Tr.same tr.old tr.new }
{
    move_directory(alloc, layer, tr, a.path.as_slice(), a.new_path.as_slice())
}

/// Removes the directory of a path and all below it, with their contents. Missing comes where there is none.
pub fn remove<T: Tr, W: Words>(
    alloc: Global,
    layer: &Layer,
    tr: &mut T,
    _words: &mut W,
    a: &DirArgs,
) -> Result<DirReply, DirFault>
    ensures answered { (setting : Setting) (t : Transaction) → T.Tr.stands tr.old setting t
        → IsAnswered result setting (T.Tr.stands tr.new setting) (W.Words.words _words.old) (W.Words.words _words.new)
        kind.Remove layer.now a.now t }
    ensures same { T.Tr.same tr.old tr.new }
{
    remove_directory(alloc, layer, tr, a.path.as_slice(), true)
}

/// Removes the directory of a path and all below it, with their contents, where there is one.
pub fn remove_if_exists<T: Tr, W: Words>(
    alloc: Global,
    layer: &Layer,
    tr: &mut T,
    _words: &mut W,
    a: &DirArgs,
) -> Result<DirReply, DirFault>
    ensures answered { (setting : Setting) (t : Transaction) → T.Tr.stands tr.old setting t
        → IsAnswered result setting (T.Tr.stands tr.new setting) (W.Words.words _words.old) (W.Words.words _words.new)
        kind.RemoveIfExists layer.now a.now t }
    ensures same { T.Tr.same tr.old tr.new }
{
    remove_directory(alloc, layer, tr, a.path.as_slice(), false)
}

/// Lists the names of the directories right below the one of a path.
pub fn list<T: Tr, W: Words>(
    alloc: Global,
    layer: &Layer,
    tr: &mut T,
    _words: &mut W,
    a: &DirArgs,
) -> Result<DirReply, DirFault>
    ensures answered { (setting : Setting) (t : Transaction) → T.Tr.stands tr.old setting t
        → IsAnswered result setting (T.Tr.stands tr.new setting) (W.Words.words _words.old) (W.Words.words _words.new)
        kind.List layer.now a.now t }
    ensures same { T.Tr.same tr.old tr.new }
{
    let names = names_below(alloc, layer, tr, a.path.as_slice(), a.snapshot)?;
    Ok(DirReply::Names(names))
}

/// Tells whether there is a directory of a path.
pub fn exists<T: Tr, W: Words>(
    _alloc: Global,
    layer: &Layer,
    tr: &mut T,
    _words: &mut W,
    a: &DirArgs,
) -> Result<DirReply, DirFault>
    ensures answered { (setting : Setting) (t : Transaction) → T.Tr.stands tr.old setting t
        → IsAnswered result setting (T.Tr.stands tr.new setting) (W.Words.words _words.old) (W.Words.words _words.new)
        kind.Exists layer.now a.now t }
    ensures same { T.Tr.same tr.old tr.new }
{
    let is = is_there(layer, tr, a.path.as_slice(), a.snapshot)?;
    Ok(DirReply::Is(is))
}

/// Notes under the prefix `raw` and the number `index` the path, the layer name, whether there is a directory of this path, and the
/// names of those right below it.
pub fn log<T: Tr, W: Words>(
    alloc: Global,
    layer: &Layer,
    tr: &mut T,
    _words: &mut W,
    a: &DirArgs,
) -> Result<DirReply, DirFault>
    ensures answered { (setting : Setting) (t : Transaction) → T.Tr.stands tr.old setting t
        → IsAnswered result setting (T.Tr.stands tr.new setting) (W.Words.words _words.old) (W.Words.words _words.new)
        kind.Log layer.now a.now t }
    ensures same { T.Tr.same tr.old tr.new }
{
    log_directory(alloc, layer, tr, a)
}

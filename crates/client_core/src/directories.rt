//! Calls of directory layers.

ghost use Rattle.std.specs.Prelude.{◌≡◌, ◌^◌, IfOk, OnErr, IsSome};
ghost use Rattle.std.specs.FinMap as finite;
ghost use Rattle.model_database.specs.Histories.{Setting};
ghost use Rattle.model_database.specs.Transactions.{Transaction};
ghost use Rattle.model_directory.specs.Calls.{effect};
ghost use Rattle.directory.specs.Runs.{IsAnswered};
ghost use Rattle.model_machine.specs.Worlds.{World, HasWords, directory_alone, directory_named, directory_step, refusing, with_named};
ghost use Rattle.txn_core.specs.Stands.{StandsFor, Keeps};
ghost use Rattle.client_core.specs.Contents.{model_of};
ghost use Rattle.client_core.specs.Directories.{Reaches, RepliesTo};
ghost use Rattle.client_core.specs.Sound.{IsSound, StillKeeps, TookDrawing};
ghost use Rattle.client_core.specs.Stands.{KeepsWorld};

use crate::contents::Contents;
use crate::lives::outcome_after;
use conflict_ranges::WriteIndex;
use directory::{
    create, create_or_open, exists, list, log, move_to, open, remove, remove_if_exists,
};
use directory_types::{Boxed, DirArgs, DirFault, DirKind, DirReply, Layer};
use fdb_calls::{Reply, Tr};
use key_bytes::Bytes;
use outside::Words;
use std::alloc::{AllocError, Global};
use txn_core::{Txn, TxnOn};
use version_store::Store;

impl Contents {
    /// Applies a call of a directory layer, on the transaction of a name or, without one, on a transaction of
    /// its own, and returns its reply: its step in the world. The random words that it drew are gone. It is
    /// refused for want of memory alone: then the store and the index keep the history that they kept.
    pub fn call_directory<W: Words>(
        &mut self,
        name: &Option<Bytes>,
        layer: &Boxed<Layer>,
        kind: DirKind,
        args: &Boxed<DirArgs>,
        words: &mut W,
    ) -> Result<Reply, AllocError>
        requires { IsSound (model_of self.old) (2 ^ 62) }
        ensures step { IfOk result (λ reply. (world : World) → KeepsWorld (model_of self.old) world → HasWords world (W.words words.old)
            → TookDrawing reply (model_of self.new) (W.words words.new) (directory_step world name.now kind layer.now args.now)) }
        ensures kept { OnErr result (StillKeeps (model_of self.old) (model_of self.new)) }
        ensures applied { self.new.applied ≡ self.old.applied }
    {
        let (layer, args) = (layer.get(), args.get());
        match name {
            Some(name) => {
                self.make(name)?;
                self.directory_named(name, layer, kind, args, words)
            }
            None => self.directory_alone(layer, kind, args, words),
        }
    }

    // A call on the transaction of a name that has one.
    fn directory_named<W: Words>(
        &mut self,
        name: &Bytes,
        layer: &Layer,
        kind: DirKind,
        args: &DirArgs,
        words: &mut W,
    ) -> Result<Reply, AllocError>
        requires { IsSome (finite.get self.old.transactions name.now) }
        ensures step { IfOk result (λ reply. (world : World) → KeepsWorld (model_of self.old) world → HasWords world (W.words words.old)
            → TookDrawing reply (model_of self.new) (W.words words.new) (directory_named world name.now kind layer.now args.now)) }
        ensures store { self.new.store ≡ self.old.store }
        ensures index { self.new.index ≡ self.old.index }
        ensures applied { self.new.applied ≡ self.old.applied }
    {
        let transaction = self.transactions.get_mut(name).unwrap();
        let life = transaction.life();
        let (store, index) = (&self.store, &self.index);
        let reply = reply_on(
            self.alloc,
            transaction,
            store,
            index,
            layer,
            kind,
            args,
            words,
        )?;
        let outcome = outcome_after(life, transaction);
        self.lives.go_on(false, life, outcome)?;
        Ok(reply)
    }

    // A call on a transaction of its own at the last version, which is then committed where the call wasn't refused.
    fn directory_alone<W: Words>(
        &mut self,
        layer: &Layer,
        kind: DirKind,
        args: &DirArgs,
        words: &mut W,
    ) -> Result<Reply, AllocError>
        requires { IsSound (model_of self.old) (2 ^ 62) }
        ensures step { IfOk result (λ reply. (world : World) → KeepsWorld (model_of self.old) world → HasWords world (W.words words.old)
            → TookDrawing reply (model_of self.new) (W.words words.new) (directory_alone world kind layer.now args.now)) }
        ensures kept { OnErr result (StillKeeps (model_of self.old) (model_of self.new)) }
        ensures applied { self.new.applied ≡ self.old.applied }
    {
        let mut transaction = self.draw_apart()?;
        let life = transaction.life();
        let (store, index) = (&self.store, &self.index);
        let reply = reply_on(
            self.alloc,
            &mut transaction,
            store,
            index,
            layer,
            kind,
            args,
            words,
        )?;
        self.lives
            .go_on(false, life, outcome_after(life, &transaction))?;
        let answered = self.commit_apart(transaction, reply)?;
        Ok(refusing(answered))
    }
}

// What a call on a transaction is replied; want of memory has no reply.
fn reply_on<W: Words>(
    alloc: Global,
    txn: &mut Txn,
    store: &Store,
    index: &WriteIndex,
    layer: &Layer,
    kind: DirKind,
    args: &DirArgs,
    words: &mut W,
) -> Result<Reply, AllocError>
    ensures reaches { IfOk result (λ reply. (setting : Setting) (t : Transaction) → StandsFor txn.old t
        → Keeps store.now index.now setting
        → Reaches reply txn.new (W.words words.old) (W.words words.new)
        (effect kind layer.now args.now setting (W.words words.old) t)) }
{
    let mut on = TxnOn { txn, store, index };
    let answered = answer_on(alloc, kind, layer, &mut on, words, args);
    let_go(on);
    reply_to(alloc, answered)
}

// The transaction stays as it was left.
fn let_go(on: TxnOn<'_>)
    ensures { on.exit.0.now ≡ on.entry.txn.now }
{
    let TxnOn {
        txn: _txn,
        store: _store,
        index: _index,
    } = on;
}

// What a call on a transaction is answered. It is still the same transaction.
fn answer_on<W: Words>(
    alloc: Global,
    kind: DirKind,
    layer: &Layer,
    on: &mut TxnOn<'_>,
    words: &mut W,
    args: &DirArgs,
) -> Result<DirReply, DirFault>
    ensures answered { (setting : Setting) (t : Transaction) → StandsFor on.old.txn.now t
        → Keeps on.old.store.now on.old.index.now setting
        → IsAnswered result setting (λ after. StandsFor on.new.txn.now after × Keeps on.new.store.now on.new.index.now setting)
        (W.words words.old) (W.words words.new) kind layer.now args.now t }
    ensures same_txn { on.new.txn.ghost_name ≡ on.old.txn.ghost_name }
{
    call(alloc, kind, layer, on, words, args)
}

// The call of this kind.
fn call<T: Tr, W: Words>(
    alloc: Global,
    kind: DirKind,
    layer: &Layer,
    tr: &mut T,
    words: &mut W,
    args: &DirArgs,
) -> Result<DirReply, DirFault>
    ensures answered { (setting : Setting) (t : Transaction) → T.Tr.stands tr.old setting t
        → IsAnswered result setting (T.Tr.stands tr.new setting) (W.Words.words words.old) (W.Words.words words.new)
        kind layer.now args.now t }
    ensures same { T.Tr.same tr.old tr.new }
{
    match kind {
        DirKind::Create => create(alloc, layer, tr, words, args),
        DirKind::CreateOrOpen => create_or_open(alloc, layer, tr, words, args),
        DirKind::Open => open(alloc, layer, tr, words, args),
        DirKind::MoveTo => move_to(alloc, layer, tr, words, args),
        DirKind::Remove => remove(alloc, layer, tr, words, args),
        DirKind::RemoveIfExists => remove_if_exists(alloc, layer, tr, words, args),
        DirKind::List => list(alloc, layer, tr, words, args),
        DirKind::Exists => exists(alloc, layer, tr, words, args),
        DirKind::Log => log(alloc, layer, tr, words, args),
    }
}

// The reply to what a call answered; want of memory has none.
fn reply_to(alloc: Global, answered: Result<DirReply, DirFault>) -> Result<Reply, AllocError>
    ensures { IfOk result (RepliesTo answered) }
{
    match answered {
        Ok(answer) => Ok(Reply::Dir(Boxed::new(alloc, answer)?)),
        Err(DirFault::NoMemory) => Err(AllocError),
        Err(fault) => Ok(Reply::DirFault(fault)),
    }
}

// A commit that is refused refuses the call.
fn refusing(reply: Reply) -> Reply
    ensures { result ≡ refusing reply }
{
    match reply {
        Reply::Fault(code) => Reply::DirFault(DirFault::Tr(code)),
        _ => reply,
    }
}

//! What a core keeps, and what a request does to it.

ghost use Rattle.std.specs.Prelude.{◌≡◌, ◌+◌, ◌<◌, ◌^◌, ◌∷◌, [], None, unwrap_or, option_map, if◌then◌else◌, length, slice_index_or, IsSome, IfOk, OnOk, OnErr};
ghost use Rattle.std.specs.FinMap as finite;
ghost use Rattle.std.specs.Map.Iter.{deref_pair};
ghost use Rattle.model_database.specs.Transactions.{Transaction};
ghost use Rattle.fdb_calls.specs.declared.Request.TheVariants.{Database, Log};
ghost use Rattle.fdb_calls.specs.declared.Reply.TheVariants.{Done, Empty, NotYet};
ghost use Rattle.fdb_calls.specs.Calling.{Called, called, is_fault};
ghost use Rattle.model_machine.specs.Worlds.{World, with_new, with_named, call_named, commit_made, fresh_at_last, has_key_with, next_life, promised, step};
ghost use Rattle.client_core.specs.Lives.{drawn_in, life_of};
ghost use Rattle.version_store.specs.Versions.{at, last_of};
ghost use Rattle.client_core.specs.Stands.{KeepsWorld};
ghost use Rattle.txn_core.specs.Stands as txn;
ghost use Rattle.client_core.specs.Sound.{IsSound, MadeOn, StillKeeps, StillKeepsOf, Took, TookApart, Replies};
ghost use Rattle.client_core.specs.Contents.{first_begins, model_of};

use crate::lives::{Lives, outcome_after};
use conflict_ranges::WriteIndex;
use fdb_calls::{Outcome, Reply, TrFault, TxnCall};
use key_bytes::{Bytes, Key, Pairs};
use key_map::KeyMap;
use model_database::DatabaseOptions;
use std::alloc::{AllocError, Global};
use txn_core::Txn;
use version_store::Store;

/// What a core keeps.
pub struct Contents {
    pub alloc: Global,
    pub options: DatabaseOptions,
    pub store: Store,
    pub index: WriteIndex,
    pub transactions: KeyMap<Txn>,
    pub lives: Lives,
    pub applied: u64,
}

// Written out, so that a caller's proof sees one call where all this ends, and nothing of what it is.
impl Drop for Contents {
    fn drop(self) {
        let Contents {
            alloc: _,
            options: _,
            store: _,
            index: _,
            transactions: _,
            lives: _,
            applied: _,
        } = self;
    }
}

impl Contents {
    /// Makes a transaction of a new life under a name, in place of the one that is there. It is refused for want of memory
    /// alone.
    pub fn make_new(&mut self, name: &Bytes) -> Result<Reply, AllocError>
        ensures stands { IfOk result (λ reply. (world : World) → KeepsWorld (model_of self.old) world
            → Took reply (model_of self.new) (record { world = with_new world name.now; reply = Done })) }
        ensures there { OnOk result (IsSome (finite.get self.new.transactions name.now)) }
        ensures store { self.new.store ≡ self.old.store }
        ensures index { self.new.index ≡ self.old.index }
        ensures applied { self.new.applied ≡ self.old.applied }
    {
        let life = self.life_of(name);
        let transaction = Txn::new(self.alloc, self.lives.next());
        let outcome = outcome_after(life, &transaction);
        self.transactions.insert(name.copy()?, transaction)?;
        self.lives.go_on(true, life, outcome)?;
        Ok(Reply::Done)
    }

    // The life of the transaction of a name; the next one where it has none.
    fn life_of(&self, name: &Bytes) -> u64
        ensures { result ≡ life_of self.now.transactions name.now (length self.now.lives) }
    {
        match self.transactions.get(name) {
            Some(transaction) => transaction.life(),
            None => self.lives.next(),
        }
    }

    /// Makes a new transaction under a name that has none. It is refused for want of memory alone.
    pub fn make(&mut self, name: &Bytes) -> Result<(), AllocError>
        ensures stands { OnOk result ((world : World) → KeepsWorld (model_of self.old) world
            → KeepsWorld (model_of self.new) (with_named world name.now)) }
        ensures there { OnOk result (IsSome (finite.get self.new.transactions name.now)) }
        ensures store { self.new.store ≡ self.old.store }
        ensures index { self.new.index ≡ self.old.index }
        ensures applied { self.new.applied ≡ self.old.applied }
    {
        if !self.transactions.contains_key(name) {
            self.make_new(name)?;
        }
        Ok(())
    }

    /// Makes a call on the transaction of a name, which is made where the name has none. It is refused for want of memory
    /// alone: then the store and the index keep the history that they kept.
    pub fn call_made(&mut self, name: &Bytes, call: &TxnCall) -> Result<Reply, AllocError>
        requires { IsSound (model_of self.old) (2 ^ 62) }
        ensures step { IfOk result (λ reply. (world : World) → KeepsWorld (model_of self.old) world
            → Took reply (model_of self.new) (call_named (with_named world name.now) name.now call.now)) }
        ensures kept { OnErr result (StillKeeps (model_of self.old) (model_of self.new)) }
        ensures applied { self.new.applied ≡ self.old.applied }
    {
        if let Some(transaction) = self.transactions.get_mut(name) {
            let (store, index) = (&mut self.store, &mut self.index);
            return call_on(
                self.options,
                transaction,
                store,
                index,
                &mut self.lives,
                call,
            );
        }
        self.make_new(name)?;
        self.call_named(name, call)
    }

    // A call on the transaction of a name that has one.
    fn call_named(&mut self, name: &Bytes, call: &TxnCall) -> Result<Reply, AllocError>
        requires there { IsSome (finite.get self.old.transactions name.now) }
        requires few_commits { last_of self.old.store + 1 < 2 ^ 63 }
        ensures step { IfOk result (λ reply. (world : World) → KeepsWorld (model_of self.old) world
            → Took reply (model_of self.new) (call_named world name.now call.now)) }
        ensures kept { OnErr result (StillKeeps (model_of self.old) (model_of self.new)) }
        ensures applied { self.new.applied ≡ self.old.applied }
    {
        let transaction = self.transactions.get_mut(name).unwrap();
        let (store, index) = (&mut self.store, &mut self.index);
        call_on(
            self.options,
            transaction,
            store,
            index,
            &mut self.lives,
            call,
        )
    }

    /// Makes a call on a transaction of its own at the last version, and commits it. It is refused for want of memory alone:
    /// then the store and the index keep the history that they kept.
    pub fn call_database(&mut self, call: &TxnCall) -> Result<Reply, AllocError>
        requires { IsSound (model_of self.old) (2 ^ 62) }
        ensures step { IfOk result (λ reply. (world : World) → KeepsWorld (model_of self.old) world
            → Took reply (model_of self.new) (step world (Database call.now))) }
        ensures kept { OnErr result (StillKeeps (model_of self.old) (model_of self.new)) }
        ensures applied { self.new.applied ≡ self.old.applied }
    {
        let mut transaction = self.draw_apart()?;
        let reply = self.call_apart(&mut transaction, call)?;
        self.commit_apart(transaction, reply)
    }

    /// Writes entries under a prefix on a transaction of its own at the last version, and commits it. It is refused for want
    /// of memory alone: then the store and the index keep the history that they kept.
    pub fn log(&mut self, prefix: &Bytes, entries: &Pairs) -> Result<Reply, AllocError>
        requires { IsSound (model_of self.old) (2 ^ 62) }
        ensures step { IfOk result (λ reply. (world : World) → KeepsWorld (model_of self.old) world
            → Took reply (model_of self.new) (step world (Log prefix.now entries.now))) }
        ensures kept { OnErr result (StillKeeps (model_of self.old) (model_of self.new)) }
        ensures applied { self.new.applied ≡ self.old.applied }
    {
        let mut transaction = self.draw_apart()?;
        let life = transaction.life();
        let reply = reply_to_writes(transaction.log(prefix, entries))?;
        self.lives
            .go_on(false, life, outcome_after(life, &transaction))?;
        self.commit_apart(transaction, reply)
    }

    /// Makes a transaction of a new life at the last version, which stands under no name. It is refused for
    /// want of memory alone.
    pub fn draw_apart(&mut self) -> Result<Txn, AllocError>
        ensures drawn { IfOk result (λ transaction. (world : World) → KeepsWorld (model_of self.old) world
            → txn.StandsFor transaction (fresh_at_last world) × KeepsWorld (model_of self.new) (drawn_in world)) }
        ensures store { self.new.store ≡ self.old.store }
        ensures index { self.new.index ≡ self.old.index }
        ensures applied { self.new.applied ≡ self.old.applied }
    {
        let transaction = Txn::at_last(self.alloc, self.lives.next(), &self.store);
        self.lives.draw()?;
        Ok(transaction)
    }

    /// Commits a transaction that stands under no name, where its calls were not refused: their reply, or the commit's fault. It is
    /// refused for want of memory alone: then the store and the index keep the history that they kept.
    pub fn commit_apart(&mut self, mut transaction: Txn, reply: Reply) -> Result<Reply, AllocError>
        requires few_commits { last_of self.old.store + 1 < 2 ^ 63 }
        ensures step { IfOk result (λ answered. (world : World) (made : Called) → reply ≡ made.reply → txn.StandsFor transaction made.transaction
            → KeepsWorld (model_of self.old) world → Took answered (model_of self.new) (commit_made world made)) }
        ensures kept { OnErr result (StillKeepsOf self.old.options transaction self.old.store self.new.store self.old.index self.new.index) }
        ensures applied { self.new.applied ≡ self.old.applied }
    {
        if is_fault(&reply) {
            return Ok(reply);
        }
        let committed = self.call_apart(&mut transaction, &TxnCall::Commit)?;
        Ok(fault_or(committed, reply))
    }

    // A call on a transaction that stands under no name.
    fn call_apart(&mut self, transaction: &mut Txn, call: &TxnCall) -> Result<Reply, AllocError>
        requires few_commits { last_of self.old.store + 1 < 2 ^ 63 }
        ensures step { IfOk result (λ reply. (t : Transaction) (world : World) → txn.StandsFor transaction.old t
            → KeepsWorld (model_of self.old) world
            → TookApart reply transaction.new (model_of self.new) world t (called world.setting (next_life world) t call.now)) }
        ensures kept { OnErr result (StillKeepsOf self.old.options transaction.old self.old.store self.new.store self.old.index self.new.index) }
        ensures applied { self.new.applied ≡ self.old.applied }
    {
        let (store, index) = (&mut self.store, &mut self.index);
        call_on(
            self.options,
            transaction,
            store,
            index,
            &mut self.lives,
            call,
        )
    }

    /// Returns what was promised of a life.
    pub fn poll(&self, life: u64) -> Reply
        ensures { result ≡ promised (slice_index_or self.now.lives life None) }
    {
        match self.lives.outcome(life) {
            Some(Outcome::HasStamp(stamp)) => Reply::Stamp(stamp),
            Some(Outcome::Lacks(code)) => Reply::Fault(code),
            None => Reply::NotYet,
        }
    }

    /// Returns whether no key begins with a prefix at the last version, as a reply.
    pub fn poll_empty(&self, prefix: &Key) -> Reply
        ensures { result ≡ (if has_key_with prefix.now (at self.now.store (last_of self.now.store)) then NotYet else Empty) }
    {
        if self.has_key_with(prefix) {
            Reply::NotYet
        } else {
            Reply::Empty
        }
    }

    // Whether a key begins with a prefix at the last version. It takes no memory, and one search.
    fn has_key_with(&self, prefix: &Key) -> bool
        ensures { result ≡ has_key_with prefix.now (at self.now.store (last_of self.now.store)) }
    {
        match self.store.next_at(prefix, self.store.last()) {
            Ok(first) => begins(first, prefix),
            Err(_) => unreachable!(),
        }
    }
}

// A call on a transaction over a store and its index, in a database with these options, and what becomes of its life by it: the reply. After want of memory the
// store and the index keep the history that they kept: a commit draws no life, so nothing is refused behind it.
fn call_on(
    options: DatabaseOptions,
    transaction: &mut Txn,
    store: &mut Store,
    index: &mut WriteIndex,
    lives: &mut Lives,
    call: &TxnCall,
) -> Result<Reply, AllocError>
    requires { last_of store.old + 1 < 2 ^ 63 }
    ensures made { IfOk result (λ reply. MadeOn options call.now reply transaction.old transaction.new store.old store.new index.old index.new
        lives.old lives.new) }
    ensures kept { OnErr result (StillKeepsOf options transaction.old store.old store.new index.old index.new) }
{
    let life = transaction.life();
    let answer = txn_core::call(transaction, store, index, options, call, lives.next())?;
    let outcome = outcome_after(life, transaction);
    lives.go_on(answer.drew_life, life, outcome)?;
    Ok(answer.reply)
}

// Whether a pair is there, and its key begins with a prefix.
fn begins(pair: Option<(&Key, &Bytes)>, prefix: &Key) -> bool
    ensures { result ≡ first_begins prefix.now (option_map deref_pair pair.entry) }
{
    match pair {
        Some((key, _)) => key.starts_with(prefix.as_slice()),
        None => false,
    }
}

// The reply to writes; want of memory has none.
fn reply_to_writes(written: Result<(), TrFault>) -> Result<Reply, AllocError>
    ensures { IfOk result (Replies written) }
{
    match written {
        Ok(()) => Ok(Reply::Done),
        Err(TrFault::Code(code)) => Ok(Reply::Fault(code)),
        Err(TrFault::NoMemory) => Err(AllocError),
    }
}

// Whether a call was refused by a check.
fn is_fault(reply: &Reply) -> bool
    ensures { result ≡ is_fault reply.now }
{
    match reply {
        Reply::Fault(_) | Reply::DirFault(_) => true,
        _ => false,
    }
}

// The first reply where it is a fault, else the second.
fn fault_or(committed: Reply, reply: Reply) -> Reply
    ensures { result ≡ (if is_fault committed then committed else reply) }
{
    if is_fault(&committed) {
        committed
    } else {
        reply
    }
}

//! The core.

ghost use Rattle.std.specs.Prelude.{◌≡◌, ℕ, ◌+◌, ◌<◌, ◌^◌, true, false, IfOk, OnErr};
ghost use Rattle.std.specs.FinMap as finite;
ghost use Rattle.std.specs.List.{filter};
ghost use Rattle.std.specs.Map.{values_of};
ghost use Rattle.key_bytes.specs.Keys.{within};
ghost use Rattle.model_machine.specs.Runs.{start_prefix};
ghost use Rattle.model_machine.specs.Worlds.{World, HasWords, begun, instruction_pairs, step};
ghost use Rattle.version_store.specs.Versions.{at, last_of, HasFew};
ghost use Rattle.client_core.specs.Contents.{model_of};
ghost use Rattle.client_core.specs.Sound.{IsSound, StillKeeps, TookWhole};
ghost use Rattle.client_core.specs.Stands.{HasStarted, KeepsWorld};

use crate::contents::Contents;
use crate::lives::Lives;
use crate::machines::{Machines, instructions_under, start};
use conflict_ranges::WriteIndex;
use fdb_calls::{Reply, Request};
use key_bytes::{Bytes, Key, Pairs};
use key_map::KeyMap;
use model_commands::RunArgs;
use model_machine::database_options;
use outside::Words;
use std::alloc::{AllocError, Global};
use std::marker::Model;
use version_store::{PairsLeft, Store};

/// The core of the database. Contracts see what it keeps.
pub struct Core {
    contents: Contents,
    machines: Machines,
    is_spent: bool,
}

// Written out, so that a caller's proof sees one call where a core ends, and nothing of what lies in it.
impl Drop for Core {
    fn drop(self) {
        let Core {
            contents: _,
            machines: _,
            is_spent: _,
        } = self;
    }
}

impl Model for Core {
    ghost use Rattle.std.specs.Prelude.{◌≡◌, false, ◌+◌};
    ghost use Rattle.client_core.specs.Stands.{CoreModel};
    ghost use Rattle.client_core.specs.Sound.{IsSound};
    ghost use Rattle.client_core.specs.Contents.{core_of, model_of};
    ghost use Rattle.std.specs.FinMap as finite;
    ghost use Rattle.key_bytes.specs.Keys.{key_cmp};
    ghost use Rattle.std.specs.Coded.{codes, coded_ℕ, coded_list};
    ghost use Rattle.version_store.specs.contracts.store.Store as store;
    ghost use Rattle.txn_calls.specs.contracts.txn.Txn as txn;
    ghost use Rattle.conflict_ranges.specs.contracts.write_index.WriteIndex as index;

    ghost Value = { CoreModel };

    ghost coded = { Prim.hlevel (codes, store.the_row.coded, index.the_row.coded, finite.code {R = key_cmp} (coded_list coded_ℕ) txn.the_row.coded) };

    ghost view = { λ core. core_of core.contents core.machines core.is_spent };

    ghost invariant = { λ core. core.is_spent ≡ false
        → IsSound (model_of core.contents) (core.contents.applied + 1) };
}

impl Core {
    ghost use Rattle.client_core.specs.Kinds.{fits};
    ghost use Rattle.client_core.specs.Stands.{StandsFor, Answers, KeepsHistory, is_no_memory};

    /// Loads a core: these pairs are its first commit, and machine 0 is started by these arguments. Of two
    /// values of one key the later stays.
    pub fn load(alloc: Global, arguments: &RunArgs, pairs: Pairs) -> Result<Core, AllocError>
        ensures begun { IfOk result (λ core. StandsFor core (begun pairs arguments.now)) }
        ensures applied { IfOk result (λ core. core.applied ≡ 0) }
        ensures spent { IfOk result (λ core. core.is_spent ≡ false) }
        // It holds no more values than pairs at the oldest version that can be read and changes behind it.
        ensures few { IfOk result (λ core. HasFew core.store) }
    {
        let options = database_options(arguments);
        let mut store = Store::load_with_pruning(alloc, pairs, options.window.is_some())?;
        store.prune(options.lowest(1));
        store.shows_few();
        let machines = Machines::new(alloc, arguments.prefix.copy()?)?;
        Ok(Core {
            contents: Contents {
                alloc,
                options,
                store,
                index: WriteIndex::new(alloc),
                transactions: KeyMap::new(alloc),
                lives: Lives::new(alloc),
                applied: 0,
            },
            machines,
            is_spent: false,
        })
    }

    /// Returns the last version.
    pub fn last(&self) -> u64
        ensures { result ≡ last_of self.now.store }
    {
        self.contents.store.last()
    }

    /// Returns how many requests were applied.
    pub fn applied(&self) -> u64
        ensures { result ≡ self.now.applied }
    {
        self.contents.applied
    }

    /// Returns the pairs of the map at the last version, in the order of their keys, for a loop over them. It
    /// copies none, and takes no memory.
    pub fn pairs_left(&self) -> PairsLeft<'_>
        ensures { result ≡ finite.entries (at self.now.store (last_of self.now.store)) }
    {
        self.contents.store.pairs_left()
    }

    /// Returns a copy of the pairs of the map at the last version, in the order of their keys.
    pub fn dump_pairs(&self) -> Result<Pairs, AllocError>
        ensures { IfOk result (λ pairs. pairs ≡ finite.entries (at self.now.store (last_of self.now.store))) }
    {
        self.contents.store.pairs()
    }

    /// Returns a copy of the pairs of the map at the last version with keys from `begin` up to `end`, `end`
    /// left out, in the order of their keys. There is none where `begin` isn't less than `end`.
    pub fn pairs_between(&self, begin: &Key, end: &Key) -> Result<Pairs, AllocError>
        ensures { IfOk result (λ pairs. pairs
            ≡ filter (λ e. within begin.now end.now e.0) (finite.entries (at self.now.store (last_of self.now.store)))) }
    {
        self.contents.store.pairs_between(begin, end)
    }

    /// Returns the instructions of a prefix at the last version, in the order of their keys: the values of the
    /// pairs in the range of the tuples that begin with it.
    pub fn instructions(&self, prefix: &[u8]) -> Result<Vec<Bytes>, AllocError>
        ensures { IfOk result (λ values. values.items
            ≡ values_of (instruction_pairs prefix.now (at self.now.store (last_of self.now.store)))) }
    {
        instructions_under(self.contents.alloc, &self.contents.store, prefix)
    }

    /// Takes a request of a machine: its step in the world, and the reply that is fixed there. The random words are those
    /// of the world, and those that are left are the ones behind the drawn ones; only calls of directory layers draw any.
    /// After NoMemory the history is as it was, the request counts as applied, and the core is spent: each later request is
    /// answered with NoMemory. Of the named transactions, of the words that are left and of the machines that were started
    /// nothing is promised then.
    pub fn apply<W: Words>(&mut self, _machine: u16, request: &Request, words: &mut W) -> Reply
        requires { self.old.applied < 2 ^ 62 }
        ensures step { (world : World) → StandsFor self.old world → HasWords world (W.words words.old)
            → Answers result self.new (W.words words.new) (step world request.now) }
        // After NoMemory the history is as before, of a core that was spent too; it is spent then, and at no other reply.
        ensures history { is_no_memory result ≡ true → KeepsHistory self.old self.new }
        ensures spent { self.new.is_spent ≡ is_no_memory result }
        ensures stays_spent { self.old.is_spent ≡ true → result ≡ Reply.NoMemory }
        ensures applied { self.new.applied ≡ self.old.applied + 1 }
        // A read of a named transaction is replied to with what it reads or with a code, and its committed version always is told.
        ensures fits { fits request.now result ≡ true }
        // A machine more was started exactly where the reply to a start says so, and never more than may be.
        ensures started { HasStarted (start_prefix request.now) result self.old.started self.new.started }
        // It holds no more values than pairs at the oldest version that can be read and changes behind it: what a window makes
        // too old is dropped.
        ensures few { HasFew self.new.store }
    {
        let reply = self.take_request(request, words);
        self.contents.store.shows_few();
        reply
    }

    // Takes a request, as `apply` does.
    fn take_request<W: Words>(&mut self, request: &Request, words: &mut W) -> Reply
        requires { self.old.applied < 2 ^ 62 }
        ensures step { (world : World) → StandsFor self.old world → HasWords world (W.words words.old)
            → Answers result self.new (W.words words.new) (step world request.now) }
        ensures history { is_no_memory result ≡ true → KeepsHistory self.old self.new }
        ensures spent { self.new.is_spent ≡ is_no_memory result }
        ensures stays_spent { self.old.is_spent ≡ true → result ≡ Reply.NoMemory }
        ensures applied { self.new.applied ≡ self.old.applied + 1 }
        ensures fits { fits request.now result ≡ true }
        ensures started { HasStarted (start_prefix request.now) result self.old.started self.new.started }
    {
        self.contents.applied += 1;
        if self.is_spent {
            return Reply::NoMemory;
        }
        match take(&mut self.contents, &mut self.machines, request, words) {
            Ok(reply) => reply,
            Err(_) => {
                self.is_spent = true;
                Reply::NoMemory
            }
        }
    }
}

// Takes a request: its step in the world, and the reply that is fixed there. It is refused for want of memory alone: then the store
// and the index keep the history that they kept.
fn take<W: Words>(
    contents: &mut Contents,
    machines: &mut Machines,
    request: &Request,
    words: &mut W,
) -> Result<Reply, AllocError>
    requires { IsSound (model_of contents.old) (2 ^ 62) }
    ensures step { IfOk result (λ reply. (world : World) → KeepsWorld (model_of contents.old) world → machines.old ≡ world.started
        → HasWords world (W.words words.old)
        → TookWhole reply (model_of contents.new) machines.new (W.words words.new) (step world request.now)) }
    ensures kept { OnErr result (StillKeeps (model_of contents.old) (model_of contents.new)) }
    ensures applied { contents.new.applied ≡ contents.old.applied }
    ensures started { IfOk result (λ reply. HasStarted (start_prefix request.now) reply machines.old machines.new) }
    ensures unstarted { OnErr result (HasStarted (start_prefix request.now) Reply.NoMemory machines.old machines.new) }
{
    match request {
        Request::New { name } => contents.make_new(name),
        Request::On { name, call } => contents.call_made(name, call),
        Request::Database { call } => contents.call_database(call),
        Request::Directory {
            name,
            layer,
            kind,
            args,
        } => contents.call_directory(name, layer, *kind, args, words),
        Request::Log { prefix, entries } => contents.log(prefix, entries),
        Request::PollStamp { life } => Ok(contents.poll(*life)),
        Request::PollEmpty { prefix } => Ok(contents.poll_empty(prefix)),
        Request::Start { prefix } => start(machines, contents, prefix),
    }
}

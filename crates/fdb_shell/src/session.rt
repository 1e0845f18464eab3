//! A session: commands are done on a core, one after the other.

ghost use Rattle.std.specs.Prelude.{◌≡◌, false, IfOk, OnOk};
ghost use Rattle.fdb_calls.specs.declared.TxnCall.TheVariants as call;
ghost use Rattle.fdb_calls.specs.declared.Request.TheVariants as request;
ghost use Rattle.model_machine.specs.Worlds.{World, step};
ghost use Rattle.model_shell.specs.Requests.{value_said, pairs_said, version_said, silent, name, made, called, committed, says, read_by, written_by, printed_line, error_line};
ghost use Rattle.model_shell.specs.Recipes.{recipe_done};
ghost use Rattle.model_shell.specs.Sessions.{Session as State, range_call, shell_arguments, first_session, done, answered};
ghost use Rattle.fdb_shell.specs.Doing.{IsSession, IsAnswered, Stands, Asks, Does, Leaves};
ghost use Rattle.fdb_shell.specs.declared.session.Stop.TheVariants.{NoMemory};

use client_core::Core;
use fdb_calls::{Reply, Request, TxnCall};
use key_bytes::{Bytes, Key, KeyRange, Pairs};
use model_commands::RunArgs;
use model_database::{Api, Mode, RangeOptions};
use model_shell::{Command, Recipe};
use outside::PcgWords;
use shell_recipes::End;
use shell_text::{
    Unread, add_code, add_error, add_line, add_range, add_value, add_version, command_of,
};
use std::alloc::{AllocError, AllocFailed, Global};

// How many requests a core takes.
const REQUEST_LIMIT: u64 = 1 << 62;

/// Why requests stopped.
#[derive(Clone, Copy, Debug, PartialEq, Eq)]
pub enum Stop {
    /// One was refused, and its code was printed.
    Refused,
    /// Memory ran out.
    NoMemory,
}

impl From<AllocError> for Stop {
    ghost from_gives = { λ _ e. e ≡ NoMemory };

    fn from(_e: AllocError) -> Stop {
        Stop::NoMemory
    }
}

impl<T: Drop> From<AllocFailed<T>> for Stop {
    ghost from_gives = { λ _ e. e ≡ NoMemory };

    fn from(_e: AllocFailed<T>) -> Stop {
        Stop::NoMemory
    }
}

/// A core, whether a transaction is open on it, and what is printed for the line that is being answered.
#[derive(Drop)]
pub struct Session {
    alloc: Global,
    core: Core,
    words: PcgWords,
    is_open: bool,
    text: Bytes,
}

// The arguments of the core of a session.
fn shell_arguments(alloc: Global) -> RunArgs
    ensures { result ≡ shell_arguments }
{
    RunArgs {
        prefix: Bytes::new(alloc),
        api: Api::V630,
        seed: 0,
        polls: 1,
        window: None,
    }
}

impl Session {
    /// Makes the session at first: on a core without pairs, and with no transaction.
    pub fn new(alloc: Global) -> Result<Session, AllocError>
        ensures { IfOk result (λ made. IsSession made first_session) }
    {
        let arguments = shell_arguments(alloc);
        let words = PcgWords::new(arguments.seed);
        let core = Core::load(alloc, &arguments, Pairs::new(alloc))?;
        Ok(Session {
            alloc,
            core,
            words,
            is_open: false,
            text: Bytes::new(alloc),
        })
    }

    /// Returns what was printed for the last line that was answered.
    pub fn text(&self) -> &[u8]
        ensures { result.now ≡ self.now.text }
    {
        self.text.as_slice()
    }

    // Asks a request, and returns its reply; where it is refused, its code is printed.
    fn ask(&mut self, request: &Request) -> Result<Reply, Stop>
        ensures { (world : World) → Stands self.old world → Asks result self.old self.new (step world request.now) }
    {
        if self.core.applied() >= REQUEST_LIMIT {
            return Err(Stop::NoMemory);
        }
        match self.core.apply(0, request, &mut self.words) {
            Reply::NoMemory => Err(Stop::NoMemory),
            Reply::Fault(code) => {
                add_code(&mut self.text, code)?;
                Err(Stop::Refused)
            }
            reply => Ok(reply),
        }
    }

    // Makes the transaction anew.
    fn make(&mut self) -> Result<(), Stop>
        ensures { (world : World) → Stands self.old world → Does result self.old self.new (made world) }
    {
        let name = Bytes::new(self.alloc);
        self.ask(&Request::New { name })?;
        Ok(())
    }

    // Makes a call on the transaction.
    fn call(&mut self, call: TxnCall) -> Result<Reply, Stop>
        ensures { (world : World) → Stands self.old world → Asks result self.old self.new (step world (request.On name call)) }
    {
        let name = Bytes::new(self.alloc);
        self.ask(&Request::On { name, call })
    }

    // Makes a call of which nothing is printed but its code where it is refused.
    fn call_silently(&mut self, call: TxnCall) -> Result<(), Stop>
        ensures { (world : World) → Stands self.old world → Does result self.old self.new (called silent call world) }
    {
        self.call(call)?;
        Ok(())
    }

    // Prints a line.
    fn say(&mut self, text: &[u8]) -> Result<(), Stop>
        ensures { (world : World) → Stands self.old world → Does result self.old self.new (says (printed_line text.now) world) }
    {
        add_line(&mut self.text, text)?;
        Ok(())
    }

    // Prints the line of an error.
    fn say_error(&mut self, text: &[u8]) -> Result<(), Stop>
        ensures { (world : World) → Stands self.old world → Does result self.old self.new (says (error_line text.now) world) }
    {
        add_error(&mut self.text, text)?;
        Ok(())
    }

    // Reads the value of a key.
    fn read_value(&mut self, key: &Key) -> Result<(), Stop>
        ensures { (world : World) → Stands self.old world
            → Does result self.old self.new (called (value_said key.now) (call.Get key.now false) world) }
    {
        let call = TxnCall::Get {
            key: key.copy()?,
            snapshot: false,
        };
        let reply = self.call(call)?;
        add_value(&mut self.text, key.as_slice(), &reply)?;
        Ok(())
    }

    // Reads the pairs of a range.
    fn read_range(&mut self, range: KeyRange, limit: u32) -> Result<(), Stop>
        ensures { (world : World) → Stands self.old world
            → Does result self.old self.new (called pairs_said (range_call range limit) world) }
    {
        let options = RangeOptions {
            limit,
            reverse: false,
            mode: Mode::WantAll,
        };
        let reply = self.call(TxnCall::GetKeyRange {
            range,
            options,
            snapshot: false,
        })?;
        add_range(&mut self.text, &reply)?;
        Ok(())
    }

    // Reads the version that the transaction's commit made.
    fn read_version(&mut self) -> Result<(), Stop>
        ensures { (world : World) → Stands self.old world
            → Does result self.old self.new (called version_said call.CommittedVersion world) }
    {
        let reply = self.call(TxnCall::CommittedVersion)?;
        add_version(&mut self.text, &reply)?;
        Ok(())
    }

    // Commits the transaction, and reads the version that it made.
    fn commit(&mut self) -> Result<(), Stop>
        ensures { (world : World) → Stands self.old world → Does result self.old self.new (committed world) }
    {
        self.call_silently(TxnCall::Commit)?;
        self.read_version()
    }

    // Makes a call that writes: in the transaction that is open, or in one of its own, which is then committed.
    fn write(&mut self, call: TxnCall) -> Result<(), Stop>
        ensures { (world : World) → Stands self.old world
            → Does result self.old self.new (written_by self.old.is_open (called silent call) world) }
    {
        if self.is_open {
            self.call_silently(call)?;
            return self.say(b"Done");
        }
        self.make()?;
        self.call_silently(call)?;
        self.commit()
    }

    fn get(&mut self, key: &Key) -> Result<(), Stop>
        ensures { (world : World) → Stands self.old world
            → Does result self.old self.new (read_by self.old.is_open (called (value_said key.now) (call.Get key.now false)) world) }
    {
        if self.is_open {
            return self.read_value(key);
        }
        self.make()?;
        self.read_value(key)
    }

    fn get_range(&mut self, range: KeyRange, limit: u32) -> Result<(), Stop>
        ensures { (world : World) → Stands self.old world
            → Does result self.old self.new (read_by self.old.is_open (called pairs_said (range_call range limit)) world) }
    {
        if self.is_open {
            return self.read_range(range, limit);
        }
        self.make()?;
        self.read_range(range, limit)
    }

    // Makes a call of a layer.
    fn call_layer(&mut self, recipe: &Recipe) -> Result<(), Stop>
        ensures { (world : World) → Stands self.old world → Does result self.old self.new (recipe_done recipe.now world) }
    {
        let end = shell_recipes::run(&mut self.core, recipe, &mut self.text)?;
        match end {
            End::Done => Ok(()),
            End::Refused => Err(Stop::Refused),
        }
    }

    // Makes a call of a layer that only reads.
    fn read_layer(&mut self, recipe: &Recipe) -> Result<(), Stop>
        ensures { (world : World) → Stands self.old world
            → Does result self.old self.new (read_by self.old.is_open (recipe_done recipe.now) world) }
    {
        if self.is_open {
            return self.call_layer(recipe);
        }
        self.make()?;
        self.call_layer(recipe)
    }

    // Makes a call of a layer that writes: in the transaction that is open, or in one of its own, which is then committed.
    fn write_layer(&mut self, recipe: &Recipe) -> Result<(), Stop>
        ensures { (world : World) → Stands self.old world
            → Does result self.old self.new (written_by self.old.is_open (recipe_done recipe.now) world) }
    {
        if !self.is_open {
            self.make()?;
            self.call_layer(recipe)?;
            return self.commit();
        }
        self.call_layer(recipe)?;
        self.say(b"Done")
    }

    // Makes a call of a layer, in the transaction that is open or in one of its own.
    #[tactic(auto, using(crate::proofs::Layers::leaves_writing, crate::proofs::Layers::leaves_reading))]
    fn recipe(&mut self, recipe: &Recipe) -> Result<(), Stop>
        ensures { (state : State) → IsSession self.old state → Leaves result self.old self.new (done state (Command.Recipe recipe.now)) }
    {
        if recipe.is_writing() {
            self.write_layer(recipe)
        } else {
            self.read_layer(recipe)
        }
    }

    fn begin(&mut self) -> Result<(), Stop>
        ensures { (state : State) → IsSession self.old state → Leaves result self.old self.new (done state Command.Begin) }
    {
        if self.is_open {
            return self.say_error(b"Already in transaction");
        }
        self.make()?;
        self.is_open = true;
        self.say(b"Transaction started")
    }

    // The transaction ends, whether its commit is refused or not.
    fn end(&mut self) -> Result<(), Stop>
        ensures { (state : State) → IsSession self.old state → Leaves result self.old self.new (done state Command.Commit) }
    {
        if !self.is_open {
            return self.say_error(b"No active transaction");
        }
        let done = self.commit();
        self.is_open = false;
        done
    }

    fn reset(&mut self) -> Result<(), Stop>
        ensures { (state : State) → IsSession self.old state → Leaves result self.old self.new (done state Command.Reset) }
    {
        if !self.is_open {
            return self.say_error(b"No active transaction");
        }
        self.call_silently(TxnCall::Reset)?;
        self.say(b"Transaction reset")
    }

    // Does a command.
    fn run(&mut self, command: Command) -> Result<(), Stop>
        ensures { (state : State) → IsSession self.old state → Leaves result self.old self.new (done state command) }
    {
        match command {
            Command::Begin => self.begin(),
            Command::Commit => self.end(),
            Command::Reset => self.reset(),
            Command::Get { key } => self.get(&key),
            Command::GetRange { range, limit } => self.get_range(range, limit),
            Command::Set { key, value } => self.write(TxnCall::Set { key, value }),
            Command::Clear { key } => self.write(TxnCall::Clear { key }),
            Command::ClearRange { range } => self.write(TxnCall::ClearRange { range }),
            Command::Recipe { recipe } => self.recipe(&recipe),
        }
    }

    // Does what a line asks, or prints that it is no command.
    fn do_line(&mut self, line: &[u8]) -> Result<(), Stop>
        ensures { (state : State) → IsSession self.old state → Leaves result self.old self.new (answered state line.now) }
    {
        match command_of(self.alloc, line) {
            Ok(command) => self.run(command),
            Err(Unread::Bad) => self.say_error(b"bad command"),
            Err(Unread::NoMemory) => Err(Stop::NoMemory),
        }
    }

    /// Answers a line: does what it asks, and keeps what is to be printed for it. It is refused for want of memory alone, and
    /// nothing is said of the session then.
    pub fn answer(&mut self, line: &[u8]) -> Result<(), AllocError>
        ensures { (state : State) → IsSession self.old state → OnOk result (IsAnswered self.new (answered state line.now)) }
    {
        self.text = Bytes::new(self.alloc);
        match self.do_line(line) {
            Ok(()) | Err(Stop::Refused) => Ok(()),
            Err(Stop::NoMemory) => Err(AllocError),
        }
    }
}

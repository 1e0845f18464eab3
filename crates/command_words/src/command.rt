//! The command that `clap` reads the words by.

ghost use Rattle.std.specs.Prelude.{◌≡◌, IfOk, Some, false};
ghost use Rattle.clap.specs.Walk.{rule_of};
ghost use Rattle.clap.specs.Simple.{app_of, new_rule};
ghost use Rattle.clap.specs.declared.Command.TheViews.{out-Command};
ghost use Rattle.laws_commands.specs.Program.{bare_app, gen_app, positional_app, positional_rule, program, run_app, run_program, watch_program};

use clap::{Arg, Command};
use std::alloc::{AllocError, Global};

// A positional argument that must be there.
fn positional<'a>(alloc: Global, id: &'a str) -> Arg<'a>
    ensures rule { rule_of result ≡ positional_rule id.entry.now }
    ensures local { result.global ≡ false }
{
    Arg::new(alloc, id).required(true)
}

// An option with one value.
fn option<'a>(alloc: Global, name: &'a str) -> Arg<'a>
    ensures rule { rule_of result ≡ record (new_rule name.entry.now) { long = Some name.entry.now } }
    ensures local { result.global ≡ false }
{
    Arg::new(alloc, name).long(name)
}

// `run` or `replay`, without its options.
fn positional_command<'a>(alloc: Global, name: &'a str) -> Result<Command<'a>, AllocError>
    ensures app { IfOk result (λ command. app_of command ≡ positional_app name.entry.now) }
    ensures local { IfOk result (λ command. (out-Command command).has_globals ≡ false) }
{
    Command::new(alloc, name)
        .arg(positional(alloc, "prefix"))?
        .arg(positional(alloc, "api"))
}

// `run` or `replay`.
fn run_command<'a>(alloc: Global, name: &'a str) -> Result<Command<'a>, AllocError>
    ensures app { IfOk result (λ command. app_of command ≡ run_app name.entry.now) }
    ensures local { IfOk result (λ command. (out-Command command).has_globals ≡ false) }
{
    positional_command(alloc, name)?
        .arg(option(alloc, "seed"))?
        .arg(option(alloc, "polls"))?
        .arg(option(alloc, "window"))
}

// `gen`.
fn gen_command<'a>(alloc: Global) -> Result<Command<'a>, AllocError>
    ensures app { IfOk result (λ command. app_of command ≡ gen_app) }
    ensures local { IfOk result (λ command. (out-Command command).has_globals ≡ false) }
{
    Command::new(alloc, "gen").arg(positional(alloc, "workers"))
}

// `watch`, `asm` or `disasm`.
fn bare_command<'a>(alloc: Global, name: &'a str) -> Command<'a>
    ensures app { app_of result ≡ bare_app name.entry.now }
    ensures local { (out-Command result).has_globals ≡ false }
{
    Command::new(alloc, name)
}

// The command with `run` and `replay`. It has no words for help, and its first word is no program's name.
fn run_program<'a>(alloc: Global) -> Result<Command<'a>, AllocError>
    ensures app { IfOk result (λ command. app_of command ≡ run_program) }
{
    Command::new(alloc, "fdbtester")
        .no_binary_name(true)
        .disable_help_flag(true)
        .disable_help_subcommand(true)
        .subcommand_required(true)
        .subcommand(run_command(alloc, "run")?)?
        .subcommand(run_command(alloc, "replay")?)
}

// With `gen` and `watch`.
fn watch_program<'a>(alloc: Global) -> Result<Command<'a>, AllocError>
    ensures app { IfOk result (λ command. app_of command ≡ watch_program) }
{
    run_program(alloc)?
        .subcommand(gen_command(alloc)?)?
        .subcommand(bare_command(alloc, "watch"))
}

// The whole command, with `asm` and `disasm` too.
pub(crate) fn program<'a>(alloc: Global) -> Result<Command<'a>, AllocError>
    ensures app { IfOk result (λ command. app_of command ≡ program) }
{
    watch_program(alloc)?
        .subcommand(bare_command(alloc, "asm"))?
        .subcommand(bare_command(alloc, "disasm"))
}

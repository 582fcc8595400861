//! The command `irt`, as `clap` reads it.

ghost use Rattle.std.specs.Prelude.{◌≡◌, IfOk, codes, map, false};
ghost use Rattle.clap.specs.Words.{app_of, rule_of, with_subcommand};
ghost use Rattle.irt_words.specs.Grammar.{IsLeaf, bare_app, short_app, run_app, irt_app, required, required_all, run_rules, subcommand};

use clap::{Arg, Command};
use std::alloc::{AllocError, Global};

/// The command `irt` with its subcommands.
pub fn irt_command<'a>(alloc: Global) -> Result<Command<'a>, AllocError>
    ensures { IfOk result (λ r. app_of r ≡ irt_app) }
{
    let command = run_commands(alloc)?;
    let command = add(
        alloc,
        command,
        "gen",
        &["seed", "devices", "frames", "name"],
    )?;
    add(alloc, command, "free", &["plant", "cycles", "seed"])
}

/// The command `irt` with the subcommands of one file, `sync` and `run`.
fn run_commands<'a>(alloc: Global) -> Result<Command<'a>, AllocError>
    ensures { IfOk result (λ r. app_of r ≡ run_app) }
{
    let command = short_commands(alloc)?;
    let command = add(alloc, command, "sync", &["plant", "cycles", "seed"])?;
    add_run(alloc, command)
}

/// The command `irt` with the subcommands of one file.
fn short_commands<'a>(alloc: Global) -> Result<Command<'a>, AllocError>
    ensures { IfOk result (λ r. app_of r ≡ short_app) }
{
    let command = add(alloc, bare_command(alloc), "plan", &["plant"])?;
    let command = add(alloc, command, "check", &["plant"])?;
    add(alloc, command, "show", &["file"])
}

/// A command with one more subcommand, whose arguments must be there.
fn add<'a>(
    alloc: Global,
    command: Command<'a>,
    name: &'a str,
    arguments: &[&'a str],
) -> Result<Command<'a>, AllocError>
    ensures { IfOk result (λ r. app_of r ≡ with_subcommand (app_of command.entry)
        (subcommand name.entry.now (required_all (map (λ a. a.now) arguments.now)))) }
{
    let sub = subcommand(alloc, name, arguments)?;
    command.subcommand(sub)
}

/// A command with the subcommand `run`.
fn add_run<'a>(alloc: Global, command: Command<'a>) -> Result<Command<'a>, AllocError>
    ensures { IfOk result (λ r. app_of r ≡ with_subcommand (app_of command.entry) (subcommand (codes "run") run_rules)) }
{
    let run = run_subcommand(alloc)?;
    command.subcommand(run)
}

/// The command `irt` without subcommands. The words begin with a subcommand's name, and there is no help.
fn bare_command<'a>(alloc: Global) -> Command<'a>
    ensures { app_of result ≡ bare_app }
{
    Command::new(alloc, "irt")
        .no_binary_name(true)
        .disable_help_flag(true)
        .disable_help_subcommand(true)
        .disable_version_flag(true)
        .subcommand_required(true)
}

/// The subcommand `run`: a seed, or a world's file.
fn run_subcommand<'a>(alloc: Global) -> Result<Command<'a>, AllocError>
    ensures { IfOk result (λ r. IsLeaf r (subcommand (codes "run") run_rules)) }
{
    let command = subcommand(alloc, "run", &["plant", "cycles"])?;
    let command = command.arg(Arg::new(alloc, "seed"))?;
    command.arg(Arg::new(alloc, "world").long("world"))
}

/// A subcommand with arguments that must be there.
fn subcommand<'a>(
    alloc: Global,
    name: &'a str,
    arguments: &[&'a str],
) -> Result<Command<'a>, AllocError>
    ensures { IfOk result (λ r. IsLeaf r (subcommand name.entry.now (required_all (map (λ a. a.now) arguments.now)))) }
{
    let mut command = Command::new(alloc, name);
    for argument in arguments {
        command = command.arg(required(alloc, argument))?;
    }
    Ok(command)
}

/// An argument that must be there.
fn required<'a>(alloc: Global, name: &'a str) -> Arg<'a>
    ensures rule { rule_of result ≡ required name.entry.now }
    ensures local { result.global ≡ false }
{
    Arg::new(alloc, name).required(true)
}

//! The top call: words, files and a sink to a status.

ghost use Rattle.std.specs.Prelude.{◌≡◌, Some, option_map};
ghost use Rattle.irt_io.specs.Fault.{IsLater};
ghost use Rattle.irt_steps.specs.Follow.{Follows, HasCause};
ghost use Rattle.irt_words.specs.Asked.{asked_of, texts_of};
ghost use Rattle.irt_words.specs.Commands.{command_of};
ghost use Rattle.irt_top.specs.Call.{calm_call, FollowsSteps, TellsCause, HasEveryCause, IsSafeWhereAccepted, RunsSafely, StoresSafePlan, StoresInOrder, KeepsFiles, StoresPlant, TellsUsage, TakesCalm, TellsFaults, IsStatus};
ghost use Rattle.irt_top.specs.Commands.{HasRanges, StoresFiles, asked_steps, calm_of};

use crate::check::check;
use crate::generate::generate;
use crate::line::usage_line;
use crate::plan::plan;
use crate::run::run;
use crate::show::show;
use crate::sync::sync;
use crate::world::WorldAsked;
use fit_rules::law::{first_fit_is_accepted, first_fit_is_one};
use irt_base::numbers::Status;
use irt_io::shelf::Shelf;
use irt_io::sink::Sink;
use irt_route::laws::parents_of_trees;
use irt_steps::finish::finish;
use irt_steps::line::line_stop;
use irt_steps::stop::{Cause, Stop};
use irt_words::asked::Asked;
use irt_words::law::stated_words_are_read;
use irt_words::reading::read_words;
use plan_rules::law::accepted_plans_are_safe;
use plan_run::law::{
    runs_of_accepted_plans_are_safe, texts_are_of_one_record, worlds_and_walks_are_one,
};
use plan_run::run::Lockstep;
use std::alloc::Global;
use std::thread::Threads;
use sync_world::law::reports_are_one;
use world_file::law::{one_first_wrong, one_world};

/// Runs the command of the words, which may be any but `free`: words that state it are taken for no command. It always
/// returns.
///
/// A clause reads: of this call, that is of these words and what the shelf and the sink tell before and after it,
/// the status tells so and so. Where a shelf tells no files, `ends` and `cause` hold of some answers that it gave.
pub fn irt_calm<R: Threads + Sync, S: Shelf, K: Sink>(
    rt: &R,
    alloc: Global,
    words: &[String],
    shelf: &mut S,
    sink: &mut K,
) -> Status
    // The status, what was printed and the files after the call are those of the words' steps.
    ensures ends { FollowsSteps
        (calm_call S.files S.faults K.taken K.faults words.now shelf.old shelf.new sink.old sink.new) result.0 }
    // A text with this status was printed, and its cause holds; or there was a fault, or want of memory.
    ensures cause { TellsCause
        (calm_call S.files S.faults K.taken K.faults words.now shelf.old shelf.new sink.old sink.new) result.0 }
    // Over files that are told, each cause has its status, but for faults and want of memory.
    ensures exact { HasEveryCause
        (calm_call S.files S.faults K.taken K.faults words.now shelf.old shelf.new sink.old sink.new) result.0 }
    // A plan that is accepted is safe over every world.
    ensures safe { IsSafeWhereAccepted
        (calm_call S.files S.faults K.taken K.faults words.now shelf.old shelf.new sink.old sink.new) result.0 }
    // What `run` prints is the text of exactly one record: that of an accepted plan's run, which is safe over its world.
    ensures ran { RunsSafely
        (calm_call S.files S.faults K.taken K.faults words.now shelf.old shelf.new sink.old sink.new) result.0 }
    // Status 1 is of words that are no command, whatever the shelf is.
    ensures usage { TellsUsage
        (calm_call S.files S.faults K.taken K.faults words.now shelf.old shelf.new sink.old sink.new) result.0 }
    // Words that state a command other than `free` are never usage.
    ensures stated { TakesCalm
        (calm_call S.files S.faults K.taken K.faults words.now shelf.old shelf.new sink.old sink.new) result.0 }
    // A fault of the shelf is one that it counted, and so is one of the sink.
    ensures faults { TellsFaults
        (calm_call S.files S.faults K.taken K.faults words.now shelf.old shelf.new sink.old sink.new) result.0 }
    ensures status { IsStatus result.0 }
    // What `plan` stores is first fit's plan, and safe over every world.
    ensures stored { StoresSafePlan
        (calm_call S.files S.faults K.taken K.faults words.now shelf.old shelf.new sink.old sink.new) result.0 }
    // Whatever becomes of it, `plan` changes no file but those of the devices, one after the other.
    ensures order { StoresInOrder
        (calm_call S.files S.faults K.taken K.faults words.now shelf.old shelf.new sink.old sink.new) }
    // What `gen` stores is the plant that it makes, under its name and nowhere else.
    ensures generated { StoresPlant
        (calm_call S.files S.faults K.taken K.faults words.now shelf.old shelf.new sink.old sink.new) result.0 }
    // Only `plan` and `gen` change files, and `plan` only where it isn't refused.
    ensures kept { KeepsFiles
        (calm_call S.files S.faults K.taken K.faults words.now shelf.old shelf.new sink.old sink.new) result.0 }
{
    accepted_plans_are_safe();
    stated_words_are_read();
    first_fit_is_accepted();
    first_fit_is_one();
    parents_of_trees();
    reports_are_one();
    worlds_and_walks_are_one();
    one_world();
    one_first_wrong();
    runs_of_accepted_plans_are_safe();
    texts_are_of_one_record();
    let ended = run_words(rt, alloc, words, shelf);
    finish(sink, ended)
}

/// The steps of the words' command.
fn run_words<R: Threads + Sync, S: Shelf>(
    rt: &R,
    alloc: Global,
    words: &[String],
    shelf: &mut S,
) -> Result<Vec<u8>, Stop>
    ensures step { Follows (λ v. v.items) (asked_steps (calm_of (asked_of (texts_of words.now))))
        (S.files shelf.old) (S.files shelf.new) result }
    ensures kept { ¬ StoresFiles (calm_of (asked_of (texts_of words.now))) → S.files shelf.new ≡ S.files shelf.old }
    ensures cause { HasCause (S.faults shelf.old) (S.faults shelf.new) result }
    ensures later { IsLater (S.faults shelf.old) (S.faults shelf.new) }
{
    match read_words(alloc, words) {
        Ok(asked) => run_asked(rt, alloc, asked, shelf),
        Err(_) => Err(Stop::NoMemory),
    }
}

/// The steps of what words ask for, other than `free`.
pub fn run_asked<R: Threads + Sync, S: Shelf>(
    rt: &R,
    alloc: Global,
    asked: Option<Asked<'_>>,
    shelf: &mut S,
) -> Result<Vec<u8>, Stop>
    requires { HasRanges (option_map command_of asked) }
    ensures step { Follows (λ v. v.items) (asked_steps (calm_of (option_map command_of asked.entry)))
        (S.files shelf.old) (S.files shelf.new) result }
    ensures kept { ¬ StoresFiles (calm_of (option_map command_of asked.entry)) → S.files shelf.new ≡ S.files shelf.old }
    ensures cause { HasCause (S.faults shelf.old) (S.faults shelf.new) result }
    ensures later { IsLater (S.faults shelf.old) (S.faults shelf.new) }
{
    match asked {
        Some(command) => run_command(rt, alloc, command, shelf),
        None => Err(line_stop(Cause::Usage, usage_line(alloc))),
    }
}

/// The steps of a command other than `free`.
fn run_command<R: Threads + Sync, S: Shelf>(
    rt: &R,
    alloc: Global,
    asked: Asked<'_>,
    shelf: &mut S,
) -> Result<Vec<u8>, Stop>
    requires { HasRanges (Some (command_of asked)) }
    ensures step { Follows (λ v. v.items) (asked_steps (calm_of (Some (command_of asked.entry))))
        (S.files shelf.old) (S.files shelf.new) result }
    ensures kept { ¬ StoresFiles (calm_of (Some (command_of asked.entry))) → S.files shelf.new ≡ S.files shelf.old }
    ensures cause { HasCause (S.faults shelf.old) (S.faults shelf.new) result }
    ensures later { IsLater (S.faults shelf.old) (S.faults shelf.new) }
{
    match asked {
        Asked::Plan { plant } => plan(alloc, shelf, plant),
        Asked::Check { plant } => check(alloc, shelf, plant),
        Asked::Show { file } => show(alloc, shelf, file),
        Asked::Sync {
            plant,
            cycles,
            seed,
        } => sync(alloc, shelf, plant, cycles, seed),
        Asked::Run {
            plant,
            cycles,
            seed,
        } => run(
            &Lockstep { rt },
            alloc,
            shelf,
            plant,
            cycles,
            WorldAsked::Seed(seed),
        ),
        Asked::RunWorld {
            plant,
            cycles,
            world,
        } => run(
            &Lockstep { rt },
            alloc,
            shelf,
            plant,
            cycles,
            WorldAsked::File(world),
        ),
        Asked::Gen {
            seed,
            devices,
            frames,
            name,
        } => generate(rt, alloc, shelf, seed, devices, frames, name),
        Asked::Free { .. } => Err(line_stop(Cause::Usage, usage_line(alloc))),
    }
}

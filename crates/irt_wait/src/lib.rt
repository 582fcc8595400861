//! The top call of the program: from words, files and a sink to a status. `free` alone waits for threads.
#![tactic(auto)]

ghost use Rattle.std.specs.Prelude.{◌≡◌, option_map};
ghost use Rattle.irt_words.specs.Asked.{asked_of, texts_of};
ghost use Rattle.irt_words.specs.Commands.{command_of};
ghost use Rattle.irt_top.specs.Commands.{StoresFiles};
ghost use Rattle.irt_wait.specs.Free.{IsFreeOf};
ghost use Rattle.irt_top.specs.Call.{call, FollowsSteps, TellsCause, HasEveryCause, IsSafeWhereAccepted, RunsSafely, StoresSafePlan, StoresPlant, StoresInOrder, KeepsFiles, TellsUsage, TakesStated, TellsFaults, IsStatus};

use fit_rules::law::{first_fit_is_accepted, first_fit_is_one};
use irt_base::numbers::Status;
use irt_io::shelf::Shelf;
use irt_io::sink::Sink;
use irt_route::laws::parents_of_trees;
use irt_steps::finish::finish;
use irt_steps::stop::Stop;
use irt_top::run::run;
use irt_top::top::irt_calm;
use irt_top::world::WorldAsked;
use irt_words::asked::Asked;
use irt_words::law::stated_words_are_read;
use irt_words::reading::read_words;
use plan_free::Free;
use plan_rules::law::accepted_plans_are_safe;
use plan_run::law::{
    runs_of_accepted_plans_are_safe, texts_are_of_one_record, worlds_and_walks_are_one,
};
use std::alloc::Global;
use std::sync::Wait;
use std::thread::Threads;
use sync_world::law::reports_are_one;
use world_file::law::{one_first_wrong, one_world};

/// Runs the command of the words. `free` waits for the threads of its applications; every other command goes to
/// `irt_calm`, which always returns.
///
/// A clause reads as those of `irt_calm`: of this call, that is of these words and what the shelf and the sink tell before
/// and after it, the status tells so and so.
pub fn irt<R: Threads + Wait + Sync, S: Shelf, K: Sink>(
    rt: &R,
    alloc: Global,
    words: &[String],
    shelf: &mut S,
    sink: &mut K,
) -> Status
    // The status, what was printed and the files after the call are those of the words' steps.
    ensures ends { FollowsSteps
        (call S.files S.faults K.taken K.faults words.now shelf.old shelf.new sink.old sink.new) result.0 }
    // A text with this status was printed, and its cause holds; or there was a fault, or want of memory.
    ensures cause { TellsCause
        (call S.files S.faults K.taken K.faults words.now shelf.old shelf.new sink.old sink.new) result.0 }
    // Over files that are told, each cause has its status, but for faults and want of memory.
    ensures exact { HasEveryCause
        (call S.files S.faults K.taken K.faults words.now shelf.old shelf.new sink.old sink.new) result.0 }
    // A plan that is accepted is safe over every world.
    ensures safe { IsSafeWhereAccepted
        (call S.files S.faults K.taken K.faults words.now shelf.old shelf.new sink.old sink.new) result.0 }
    // Status 0 of `run` and `free`: what was printed is the text of exactly one record, that of the run; and from blocks that
    // the checker accepts, for every table of clock errors, bridge delays and cut links and every interleaving of the
    // threads, no two frames occupy a link direction at once; each due frame reaches exactly its receivers with a live
    // route, by its planned time; and each buffer taken is whole, one publication, never older than the last, of its
    // planned cycle where taken inside its window.
    ensures ran { RunsSafely
        (call S.files S.faults K.taken K.faults words.now shelf.old shelf.new sink.old sink.new) result.0 }
    // Status 1 is of words that are no command, whatever the shelf is.
    ensures usage { TellsUsage
        (call S.files S.faults K.taken K.faults words.now shelf.old shelf.new sink.old sink.new) result.0 }
    // Words that state a command are never usage.
    ensures stated { TakesStated
        (call S.files S.faults K.taken K.faults words.now shelf.old shelf.new sink.old sink.new) result.0 }
    // A fault of the shelf is one that it counted, and so is one of the sink.
    ensures faults { TellsFaults
        (call S.files S.faults K.taken K.faults words.now shelf.old shelf.new sink.old sink.new) result.0 }
    ensures status { IsStatus result.0 }
    // What `plan` stores is first fit's plan, and safe over every world.
    ensures stored { StoresSafePlan
        (call S.files S.faults K.taken K.faults words.now shelf.old shelf.new sink.old sink.new) result.0 }
    // Whatever becomes of it, `plan` changes no file but those of the devices, one after the other.
    ensures order { StoresInOrder
        (call S.files S.faults K.taken K.faults words.now shelf.old shelf.new sink.old sink.new) }
    // What `gen` stores is the plant that it makes, under its name and nowhere else.
    ensures generated { StoresPlant
        (call S.files S.faults K.taken K.faults words.now shelf.old shelf.new sink.old sink.new) result.0 }
    // Only `plan` and `gen` change files.
    ensures kept { KeepsFiles
        (call S.files S.faults K.taken K.faults words.now shelf.old shelf.new sink.old sink.new) result.0 }
{
    accepted_plans_are_safe();
    stated_words_are_read();
    first_fit_is_accepted();
    first_fit_is_one();
    parents_of_trees();
    reports_are_one();
    worlds_and_walks_are_one();
    one_world();
    one_first_wrong();
    runs_of_accepted_plans_are_safe();
    texts_are_of_one_record();
    run_words(rt, alloc, words, shelf, sink)
}

/// The call, by the steps of its words.
fn run_words<R: Threads + Wait + Sync, S: Shelf, K: Sink>(
    rt: &R,
    alloc: Global,
    words: &[String],
    shelf: &mut S,
    sink: &mut K,
) -> Status
    ensures ends { FollowsSteps
        (call S.files S.faults K.taken K.faults words.now shelf.old shelf.new sink.old sink.new) result.0 }
    ensures kept { ¬ StoresFiles (asked_of (texts_of words.now)) → S.files shelf.new ≡ S.files shelf.old }
{
    match read_words(alloc, words) {
        Ok(asked) => run_asked(rt, alloc, words, shelf, sink, free_asked(asked)),
        Err(_) => finish(sink, Err(Stop::NoMemory)),
    }
}

/// The same of words that ask for `free` with these arguments, or for something else where there are none.
fn run_asked<R: Threads + Wait + Sync, S: Shelf, K: Sink>(
    rt: &R,
    alloc: Global,
    words: &[String],
    shelf: &mut S,
    sink: &mut K,
    asked: Option<FreeAsked<'_>>,
) -> Status
    requires { IsFreeOf (asked_of (texts_of words.now)) asked }
    ensures ends { FollowsSteps
        (call S.files S.faults K.taken K.faults words.now shelf.old shelf.new sink.old sink.new) result.0 }
    ensures kept { ¬ StoresFiles (asked_of (texts_of words.now)) → S.files shelf.new ≡ S.files shelf.old }
{
    match asked {
        None => irt_calm(rt, alloc, words, shelf, sink),
        Some(own) => {
            let world = WorldAsked::Seed(own.seed);
            let ended = run(&Free { rt }, alloc, shelf, own.plant, own.cycles, world);
            finish(sink, ended)
        }
    }
}

/// What `free` is asked for with.
#[derive(Clone, Copy)]
struct FreeAsked<'a> {
    plant: &'a str,
    cycles: u32,
    seed: u64,
}

/// The arguments of `free`, where it is what was asked for.
fn free_asked<'a>(asked: Option<Asked<'a>>) -> Option<FreeAsked<'a>>
    ensures { IsFreeOf (option_map command_of asked.entry) result }
{
    match asked {
        Some(
            Asked::Free {
                plant,
                cycles,
                seed,
            },
        ) => Some(FreeAsked {
            plant,
            cycles,
            seed,
        }),
        _ => None,
    }
}

//! What all applications do in a cycle.

ghost use Rattle.std.specs.Prelude.{◌≡◌, ℕ, All, OnOk, Some, slice_get};
ghost use Rattle.std.specs.List.{list_any};
ghost use Rattle.iso_run.specs.Apps.{with_input, with_offer, IsReady, IsTurned, IsTurnedUnlessFailed};
ghost use Rattle.iso_run.specs.Each.{AreEach, AreReady};
ghost use Rattle.iso_run.specs.Ends.{EndView, offered_from};
ghost use Rattle.iso_run.specs.declared.apps.LockstepApp.{LockstepApp};

use crate::apps::LockstepApp;
use crate::ends::PlainEnds;
use irt_base::memory::NoMemory;
use iso_app::IsoApp;
use std::alloc::Global;
use std::thread;
use std::thread::Threads;

/// All applications offer their outputs, before a cycle.
pub fn offer_all<A: Drop>(apps: &mut [LockstepApp<A>], ends: &mut PlainEnds)
    requires { AreReady apps.old ends.old.ends.items }
    ensures apps { AreEach (λ n a b. b ≡ with_offer a) apps.old apps.new }
    ensures ends { AreEach (λ n e f. (a : LockstepApp A) → slice_get apps.old n ≡ Some a →
        f ≡ offered_from a.output e) ends.old.ends.items ends.new.ends.items }
{
    for index in 0..apps.len() {
        let app = &mut apps[index];
        app.offer(&mut ends.ends[index]);
    }
}

/// The images are published to all applications, after a cycle.
pub fn show_all<A: Drop>(apps: &mut [LockstepApp<A>], ends: &PlainEnds)
    requires { AreReady apps.old ends.now.ends.items }
    ensures { AreEach (λ n a b. (e : EndView) → slice_get ends.now.ends.items n ≡ Some e → b ≡ with_input e.image a)
        apps.old apps.new }
{
    for index in 0..apps.len() {
        let app = &mut apps[index];
        app.show(&ends.ends[index]);
    }
}

/// All applications make a turn, side by side.
fn turn_each<A: IsoApp + Send, R: Threads + Sync>(
    rt: &R,
    alloc: Global,
    apps: &mut [LockstepApp<A>],
    found: u32,
)
    requires { All IsReady apps.old }
    ensures { AreEach (λ n a b. IsTurnedUnlessFailed A.reply A.next_state found a b) apps.old apps.new }
{
    let threads = if apps.len() < 2 { 1 } else { 2 };
    thread::for_each_mut(
        rt,
        apps,
        threads,
        &|_: usize, app: &mut LockstepApp<A>|
            requires { IsReady app.old }
            ensures { IsTurnedUnlessFailed A.reply A.next_state found app.old app.new }
        { app.turn_kept(alloc, found) },
    );
}

/// Whether memory ran out in one of their last turns.
fn has_failed<A>(apps: &[LockstepApp<A>]) -> bool
    ensures { result ≡ list_any (λ a. a.failed) apps.now }
{
    apps.iter().any(|app| app.failed)
}

/// All applications make a turn, side by side.
pub fn turn_all<A: IsoApp + Send, R: Threads + Sync>(
    rt: &R,
    alloc: Global,
    apps: &mut [LockstepApp<A>],
    found: u32,
) -> Result<(), NoMemory>
    requires { All IsReady apps.old }
    ensures { OnOk result (AreEach (λ n a b. IsTurned A.reply A.next_state found a b) apps.old apps.new) }
{
    turn_each(rt, alloc, apps, found);
    if has_failed(apps) {
        return Err(NoMemory);
    }
    Ok(())
}

//! The rule of clocks.

ghost use Rattle.std.specs.Prelude.{◌≡◌, ℕ, true, false, ◌<◌, ◌≤◌, ◌^◌, ◌==◌, ◌||◌, IfSome, slice_index_or};
ghost use Rattle.std.specs.List.{AllByRecursion, list_any};
ghost use Rattle.plant_rules.specs.Clocks.{clock_budget};
ghost use Rattle.irt_topo.specs.Clocks.{joins, hops_within, has_clock};
ghost use Rattle.plant_rules.specs.Words.{is_within};
ghost use Rattle.irt_topo.specs.Rules.{is_loss, is_sync_plan, follows_clock, clock_holds};

use irt_base::cycles::budget_over;
use irt_base::limits::{
    MAX_DEVICES, MAX_DRIFT, MAX_LOSS, MAX_SEND, MAX_STAMP, MAX_TIMEOUT, MIN_LOSS,
};
use irt_base::plants::{Clocks, Link, Plant, SyncPlan};

/// P18: the numbers of `sync` are in range, and where clocks are by PTCP, device 0 reaches the device by
/// links, over so few that the budget is at most the window.
pub fn clock_holds(plant: &Plant, index: usize) -> bool
    ensures { result ≡ clock_holds plant.now index }
{
    is_sync_plan(plant.sync) && follows_clock(plant, index)
}

fn is_sync_plan(sync: SyncPlan) -> bool
    ensures { result ≡ is_sync_plan sync }
{
    is_send(sync.send)
        && is_timeout(sync.timeout)
        && sync.drift <= MAX_DRIFT
        && sync.stamp <= MAX_STAMP
        && is_loss(sync.loss)
}

fn is_send(send: u32) -> bool
    ensures { result ≡ is_within 1 MAX_SEND send }
{
    1 <= send && send <= MAX_SEND
}

fn is_timeout(timeout: u16) -> bool
    ensures { result ≡ is_within 1 MAX_TIMEOUT timeout }
{
    1 <= timeout && timeout <= MAX_TIMEOUT
}

fn is_loss(loss: u32) -> bool
    ensures { result ≡ is_loss loss }
{
    loss == 0 || (MIN_LOSS <= loss && loss <= MAX_LOSS)
}

fn follows_clock(plant: &Plant, device: usize) -> bool
    requires { is_sync_plan plant.now.sync ≡ true }
    ensures { result ≡ follows_clock plant.now.clocks plant.now device }
{
    match plant.clocks {
        Clocks::World => true,
        Clocks::Ptcp => device == 0 || MAX_DEVICES <= device || has_clock(plant, device),
    }
}

fn has_clock(plant: &Plant, device: usize) -> bool
    requires sync { is_sync_plan plant.now.sync ≡ true }
    requires small { device < 256 }
    ensures { result ≡ has_clock plant.now device }
{
    match hops_within(plant, device) {
        None => false,
        Some(hops) => budget(hops, plant.sync) <= u64::from(plant.window),
    }
}

/// By how much a clock may be off that follows over so many links, in ns.
fn budget(hops: u32, sync: SyncPlan) -> u64
    requires ranges { is_sync_plan sync ≡ true }
    ensures { result ≡ clock_budget sync hops }
{
    budget_over(hops, sync.stamp, sync.drift, sync.send, sync.timeout)
}

/// The links of a shortest walk from device 0, where there is one of at most as many links as the window
/// has ns. A budget is at least its links, so that a longer walk is of no use.
fn hops_within(plant: &Plant, device: usize) -> Option<u32>
    requires { device < 256 }
    ensures { result ≡ hops_within plant.now device }
{
    let mut reached = first_reached();
    let most = u64::from(plant.window) + 1;
    for rounds in 0..most {
        if reached[device] {
            return Some(rounds as u32);
        }
        let before = reached;
        spread(plant.links.as_slice(), &before, &mut reached);
    }
    None
}

/// Device 0 alone.
fn first_reached() -> [bool; 256]
    ensures { (d : ℕ) → d < 256 → slice_index_or result d false ≡ (d == 0) }
{
    let mut reached = [false; 256];
    reached[0] = true;
    reached
}

/// Marks what is one link from a device that was reached before.
fn spread(links: &[Link], before: &[bool; 256], reached: &mut [bool; 256])
    ensures reached { (d : ℕ) → slice_index_or reached.new d false
        ≡ (slice_index_or reached.old d false || list_any (joins (λ e. slice_index_or before.now e false) d) links.now) }
    ensures small { AllByRecursion (λ (l : Link). (l.a.0 < 256) × (l.b.0 < 256)) links.now }
{
    for link in links {
        mark(*link, before, reached);
    }
}

fn mark(link: Link, before: &[bool; 256], reached: &mut [bool; 256])
    ensures reached { (d : ℕ) → slice_index_or reached.new d false
        ≡ (slice_index_or reached.old d false || joins (λ e. slice_index_or before.now e false) d link) }
    ensures small { (link.a.0 < 256) × (link.b.0 < 256) }
{
    let a = usize::from(link.a.0);
    let b = usize::from(link.b.0);
    if before[a] {
        reached[b] = true;
    }
    if before[b] {
        reached[a] = true;
    }
}

//! A plan with the tables in which its rules look things up.

ghost use Rattle.std.specs.Prelude.{◌≡◌};
ghost use Rattle.std.specs.Option.{option_copied};
ghost use Rattle.irt_base.specs.declared.blocks.Entry.{Entry};
ghost use Rattle.link_index.specs.Index.{IsIndexOf};
ghost use Rattle.plan_rules.specs.Plan.{IsPlan};
ghost use Rattle.plan_rules.specs.Tree.{demand_of};
ghost use Rattle.irt_window.specs.Demands.{AreNumbers};
ghost use Rattle.irt_window.specs.Plans.{IsNet, IsEntryAt, Stands};

use crate::search::entry_index;
use irt_base::blocks::{Bundle, Entry};
use irt_base::list::Items;
use irt_base::numbers::{DevId, FrameId};
use irt_base::plants::{Demand, Plant};
use link_index::index::LinkIndex;
use plan_rules::ways::ways_are_one;

/// A plan with its links by port and its demands by FrameID.
#[derive(Clone, Copy)]
pub struct Net<'a> {
    pub plant: &'a Plant,
    pub bundles: &'a [Bundle],
    pub links: &'a LinkIndex,
    /// By FrameID: the number of the demand that has it.
    pub numbers: &'a Items<Option<u16>>,
}

impl<'a> Net<'a> {
    /// A plan with the index of its plant's links and the numbers of its demands.
    pub fn new(
        plant: &'a Plant,
        bundles: &'a [Bundle],
        links: &'a LinkIndex,
        numbers: &'a Items<Option<u16>>,
    ) -> Net<'a>
        requires plan { IsPlan plant.now bundles.now }
        requires links { IsIndexOf plant.now links.now }
        requires numbers { AreNumbers plant.now numbers.now }
        ensures net { IsNet result }
        ensures plant { result.plant.now ≡ plant.now }
        ensures bundles { result.bundles.now ≡ bundles.now }
    {
        ways_are_one();
        Net {
            plant,
            bundles,
            links,
            numbers,
        }
    }
}

/// The place of a frame's entry in a device's block. `None` comes exactly where the device has none.
pub fn entry_at(net: &Net<'_>, device: DevId, frame: FrameId) -> Option<usize>
    requires { IsNet net.now }
    ensures { IsEntryAt net.now device.0 frame.0 result }
{
    match net.bundles.get(usize::from(device.0)) {
        None => None,
        Some(bundle) => entry_index(bundle.frames.entries.as_slice(), frame),
    }
}

/// The entry at a place of a device's block.
pub fn entry_of(net: &Net<'_>, device: DevId, place: usize) -> Entry
    requires { (e : Entry) × Stands net.now.bundles.now device.0 place e }
    ensures { Stands net.now.bundles.now device.0 place result }
{
    let bundle = &net.bundles[usize::from(device.0)];
    bundle.frames.entries.as_slice()[place]
}

/// The demand that asks for a frame.
pub fn demand_at<'a>(net: &Net<'a>, frame: FrameId) -> Option<&'a Demand>
    requires { IsNet net.now }
    ensures { option_copied result ≡ demand_of net.now.plant.now frame.0 }
{
    match net.numbers.as_slice().get(usize::from(frame.0)) {
        Some(Some(number)) => net.plant.demands.get(usize::from(*number)),
        _ => None,
    }
}

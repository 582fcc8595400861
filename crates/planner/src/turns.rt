//! The order in which demands are placed.

ghost use Rattle.std.specs.Prelude.{◌≡◌, ◌≤◌, IfOk, length};
ghost use Rattle.irt_base.specs.declared.limits.TheConstants.{MAX_DEMANDS};
ghost use Rattle.std.specs.List.Sorted.{IsPermutation, IsSortedByKey};
ghost use Rattle.planner.specs.Turns.{AreTurns, key_of, key_cmp};

use frame_ways::frame_way::FrameWay;
use irt_base::memory::NoMemory;
use irt_base::plants::Demand;
use std::alloc::Global;
use std::cmp::Reverse;

/// What decides about a demand's turn: far frames come first, then long ones, then those of lesser FrameIDs.
#[derive(Clone, Copy, PartialEq, Eq)]
pub struct Turn {
    /// The links of the walk to the farthest consumer.
    pub hops: u32,
    /// The bytes of data.
    pub length: u16,
    pub frame: u16,
    /// The demand's place in the plant, from 0.
    pub index: u16,
}

/// A turn's key. The lesser key has its turn first.
#[derive(Clone, Copy, PartialEq, Eq, PartialOrd, Ord)]
pub struct TurnKey {
    pub far: Reverse<u32>,
    pub long: Reverse<u16>,
    pub frame: u16,
}

/// The turns of demands, as these stand.
pub fn turns_of(alloc: Global, demands: &[Demand], ways: &[FrameWay]) -> Result<Vec<Turn>, NoMemory>
    requires same { length ways.now ≡ length demands.now }
    requires few { length demands.now ≤ MAX_DEMANDS }
    ensures { IfOk result (λ turns. AreTurns demands.now ways.now turns.items) }
{
    let mut turns = Vec::new(alloc);
    for (place, demand) in demands.iter().enumerate() {
        turns.push(Turn {
            hops: ways[place].hops,
            length: demand.length,
            frame: demand.frame.0,
            index: place as u16,
        })?;
    }
    Ok(turns)
}

/// The same turns, the first to be placed first.
pub fn in_order(turns: Vec<Turn>) -> Vec<Turn>
    ensures same { IsPermutation turns.items result.items }
    ensures sorted { IsSortedByKey key_of key_cmp result.items }
{
    let mut sorted = turns;
    sorted.sort_unstable_by_key(|turn| turn_key(turn));
    sorted
}

fn turn_key(turn: &Turn) -> TurnKey
    ensures { result ≡ key_of turn.now }
{
    TurnKey {
        far: Reverse(turn.hops),
        long: Reverse(turn.length),
        frame: turn.frame,
    }
}

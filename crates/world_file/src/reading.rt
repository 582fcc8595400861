//! Reading a world file.

ghost use Rattle.std.specs.Prelude.{◌≡◌, ◌⊎◌, ◌≤◌, ◌+◌, ◌<◌, ◌^◌, ◌++◌, ℕ, List, IfOk, IfErr, IsErrAnd, MatchResult, length};
ghost use Rattle.std.specs.List.{AllByRecursion};
ghost use Rattle.irt_base.specs.declared.blocks.Bundle.{Bundle};
ghost use Rattle.irt_world.specs.declared.rows.World.{World};
ghost use Rattle.plan_rules.specs.Plan.{IsPlan};
ghost use Rattle.irt_world.specs.Forwardings.{forwardings};
ghost use Rattle.irt_world.specs.Rows.{Fits, IsRowOf};
ghost use Rattle.world_file.specs.Text.{IsWorldFile, line_of, line_text};
ghost use Rattle.world_file.specs.Wrong.{IsFirstWrong, IsLineRefusal, IsRefusal};
ghost use Rattle.world_file.specs.Reading.{next_place, verdict_of};

use crate::draft::Draft;
use crate::fault::{LineFault, WorldFault};
use crate::line::read_line;
use irt_base::blocks::Bundle;
use irt_base::limits::MAX_CYCLES;
use irt_base::list::Items;
use irt_base::plants::Plant;
use irt_world::forwardings::{Forwarding, Forwardings};
use irt_world::rows::{Row, World};
use std::alloc::Global;

/// Reads the world file of a plan, with a line for each of so many cycles. A refusal names the first line, from 1,
/// that is wrong, and its first wrong place. The time is linear in the file.
pub fn read_world(
    alloc: Global,
    bytes: &[u8],
    plant: &Plant,
    bundles: &[Bundle],
    cycles: u32,
) -> Result<World, WorldFault>
    requires plan { IsPlan plant.now bundles.now }
    requires cycles { cycles ≤ MAX_CYCLES }
    // What is read is the file of a world.
    ensures found { IfOk result (IsWorldFile plant.now bundles.now cycles bytes.now) }
    ensures fits { IfOk result (Fits plant.now bundles.now) }
    // The file of a world is read as that world, unless memory runs out.
    ensures only { (world : World) → IsWorldFile plant.now bundles.now cycles bytes.now world →
        MatchResult result (λ found. found ≡ world) (λ e. e ≡ WorldFault.NoMemory) }
    // A refusal names the first line and place that are wrong.
    ensures refused { IfErr result (IsRefusal plant.now bundles.now cycles bytes.now) }
    // A wrong file is refused so, unless memory runs out.
    ensures exact { (line place : ℕ) → IsFirstWrong plant.now bundles.now cycles bytes.now line place →
        IsErrAnd result (λ e. (e ≡ WorldFault.NoMemory) ⊎ (e ≡ WorldFault.Refused line place)) }
{
    read_rows(alloc, bytes, plant, bundles, cycles)
}

/// Reads line by line.
fn read_rows(
    alloc: Global,
    bytes: &[u8],
    plant: &Plant,
    bundles: &[Bundle],
    cycles: u32,
) -> Result<World, WorldFault>
    requires plan { IsPlan plant.now bundles.now }
    requires cycles { cycles ≤ MAX_CYCLES }
    ensures found { IfOk result (IsWorldFile plant.now bundles.now cycles bytes.now) }
    ensures refused { IfErr result (IsRefusal plant.now bundles.now cycles bytes.now) }
{
    let forwardings = Forwardings::new(alloc, plant, bundles)?;
    let mut rows = Items::with_capacity(alloc, cycles as usize)?;
    let mut rest = bytes;
    for cycle in 0..cycles {
        let (row, after) = read_row(alloc, rest, plant, forwardings.as_slice(), cycle + 1)?;
        rows.push(row)?;
        rest = after;
    }
    if rest.is_empty() {
        Ok(World { rows })
    } else {
        Err(WorldFault::Refused {
            line: cycles + 1,
            place: 0,
        })
    }
}

/// Reads the row that the bytes begin with, on a line of this number, and gives the bytes after it.
fn read_row<'a>(
    alloc: Global,
    bytes: &'a [u8],
    plant: &Plant,
    delayed: &[Forwarding],
    line: u32,
) -> Result<(Row, &'a [u8]), WorldFault>
    requires links { length plant.now.links ≤ 2 ^ 16 }
    requires counts { length plant.now.devices + length delayed.now < 2 ^ 31 }
    requires ranges { AllByRecursion (λ f. f.bmax < 2 ^ 32) delayed.now }
    ensures found { (bundles : List Bundle) → delayed.now ≡ forwardings plant.now bundles →
        IfOk result (λ x. IsRowOf plant.now bundles x.0 × (bytes.now ≡ line_text (line_of x.0) ++ x.1.now)) }
    ensures refused { IfErr result (IsLineRefusal plant.now delayed.now bytes.now line) }
{
    let mut draft = Draft::new(alloc, plant.devices.len(), delayed.len())?;
    match read_line(&mut draft, bytes, plant, delayed) {
        Err(LineFault::NoMemory) => Err(WorldFault::NoMemory),
        Err(LineFault::Form) => Err(WorldFault::Refused { line, place: 0 }),
        Ok(rest) => {
            let row = judged(draft, line)?;
            Ok((row, rest))
        }
    }
}

/// The row of a line that is read whole.
fn judged(draft: Draft, line: u32) -> Result<Row, WorldFault>
    requires { next_place draft.row < 2 ^ 32 }
    ensures { result ≡ verdict_of line draft }
{
    let Draft {
        row,
        least_link: _,
        is_wrong,
    } = draft;
    if is_wrong {
        let place = row.errors.len() + row.bridges.len() + row.cuts.len() + 1;
        return Err(WorldFault::Refused {
            line,
            place: place as u32,
        });
    }
    Ok(row)
}

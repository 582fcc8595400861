//! The report of a domain.

ghost use Rattle.std.specs.Prelude.{◌≡◌, ◌≤◌, ◌<◌, ◌++◌, ◌-◌, IfOk, OnOk, length, map};
ghost use Rattle.irt_route.specs.Clocks.{IsClockTreeOf};
ghost use Rattle.std.specs.List.{flat_map, range_with_len};
ghost use Rattle.sync_world.specs.Domain.{IsDomain};
ghost use Rattle.sync_world.specs.Lines.{all_passages};
ghost use Rattle.sync_world.specs.Report.{known_in, line_text, muted_in, name_of, numbers_text, report_line, report_lines, report_text, size_of, worst_in};

use crate::clocks::heard_errors;
use crate::domain::{Domain, domain_of};
use crate::lines::{LinePassages, all_passages};
use irt_base::limits::MAX_CYCLES;
use irt_base::list::Items;
use irt_base::memory::NoMemory;
use irt_base::numbers::DevId;
use irt_base::plants::Plant;
use irt_route::clocks::{ClockTree, budget};
use std::alloc::Global;

/// What is said of a device.
#[derive(Clone, Copy, PartialEq, Eq)]
pub struct ReportLine {
    pub device: DevId,
    /// The links of its walk from device 0.
    pub hops: u32,
    /// The delay of the link to its parent, in ns.
    pub delay: u32,
    /// What is known of that delay at the end, in ns.
    pub measured: u32,
    /// By how many ns its clock may be off, with the plant's send and timeout.
    pub budget: u64,
    /// In how many cycles it is muted.
    pub muted: u32,
    /// Its greatest error, either way, in the cycles in which it isn't muted, in ns, 0 if there is none.
    pub worst: u64,
}

/// A line for each device from 1, over so many cycles. The plant's clocks may be of either kind.
///
/// # Errors
/// `NoMemory` where memory runs out.
pub fn sync_report(
    alloc: Global,
    seed: u64,
    plant: &Plant,
    tree: &ClockTree,
    cycles: u32,
) -> Result<Items<ReportLine>, NoMemory>
    requires own { IsClockTreeOf plant.now tree.now }
    requires cycles { cycles ≤ MAX_CYCLES }
    ensures { IfOk result (λ lines. lines ≡ report_lines seed plant.now tree.now cycles) }
{
    let domain = domain_of(alloc, seed, plant, tree, plant.sync.send)?;
    let table = all_passages(alloc, &domain, cycles)?;
    lines_of(alloc, plant, tree, &domain, table.as_slice(), cycles)
}

fn lines_of(
    alloc: Global,
    plant: &Plant,
    tree: &ClockTree,
    domain: &Domain,
    table: &[LinePassages],
    cycles: u32,
) -> Result<Items<ReportLine>, NoMemory>
    requires own { IsClockTreeOf plant.now tree.now }
    requires valid { IsDomain domain.now }
    requires count { length domain.now.lines ≡ length plant.now.devices }
    requires table { table.now ≡ all_passages domain.now cycles }
    requires cycles { cycles ≤ MAX_CYCLES }
    ensures { IfOk result (λ lines. lines ≡
        map (report_line plant.now tree.now domain.now cycles) (range_with_len 1 (length plant.now.devices - 1))) }
{
    let mut lines = Items::new(alloc);
    for before in 0..plant.devices.len() as u8 - 1 {
        let device = DevId(before + 1);
        lines.push(report_line(alloc, plant, tree, domain, table, cycles, device)?)?;
    }
    Ok(lines)
}

#[tactic(auto, unfolding(crate::specs::Report::report_line))]
fn report_line(
    alloc: Global,
    plant: &Plant,
    tree: &ClockTree,
    domain: &Domain,
    table: &[LinePassages],
    cycles: u32,
    device: DevId,
) -> Result<ReportLine, NoMemory>
    requires own { IsClockTreeOf plant.now tree.now }
    requires valid { IsDomain domain.now }
    requires there { device.0 < length domain.now.lines }
    requires table { table.now ≡ all_passages domain.now cycles }
    requires cycles { cycles ≤ MAX_CYCLES }
    ensures { IfOk result (λ line. line ≡ report_line plant.now tree.now domain.now cycles device.0) }
{
    let sync = plant.sync;
    let errors = heard_errors(alloc, domain, table, device, sync.timeout, cycles)?;
    Ok(ReportLine {
        device,
        hops: tree.hops(device),
        delay: domain.delay(device),
        measured: known_in(table, device),
        budget: budget(tree, plant, device, sync.send, sync.timeout),
        muted: muted_in(errors.as_slice()),
        worst: worst_in(errors.as_slice()),
    })
}

/// What is known of the delay of the link to a device's parent at the end, in ns.
fn known_in(table: &[LinePassages], device: DevId) -> u32
    ensures { result ≡ known_in table.now device.0 }
{
    match table.get(usize::from(device.0)) {
        None => 0,
        Some(line) => line.known,
    }
}

/// In how many cycles a device was muted.
fn muted_in(errors: &[Option<i64>]) -> u32
    requires { length errors.now ≤ MAX_CYCLES }
    ensures { result ≡ muted_in errors.now }
{
    let mut muted = 0;
    for error in errors {
        if error.is_none() {
            muted += 1;
        }
    }
    muted
}

/// The greatest error, either way, in ns, of those that a device had when it wasn't muted.
fn worst_in(errors: &[Option<i64>]) -> u64
    ensures { result ≡ worst_in errors.now }
{
    let mut worst = 0;
    for error in errors {
        worst = worst.max(size_of(*error));
    }
    worst
}

/// How great an error is, either way, in ns, 0 where there is none.
fn size_of(error: Option<i64>) -> u64
    ensures { result ≡ size_of error }
{
    match error {
        None => 0,
        Some(error) => error.unsigned_abs(),
    }
}

/// The text of a report: a line for each device, NAME HOPS DELAY MEASURED BUDGET MUTED WORST.
///
/// # Errors
/// `NoMemory` where memory runs out.
pub fn report_text(alloc: Global, plant: &Plant, lines: &[ReportLine]) -> Result<Vec<u8>, NoMemory>
    ensures { IfOk result (λ text. text.items ≡ report_text plant.now lines.now) }
{
    let mut text = Vec::new(alloc);
    for line in lines {
        put_line(alloc, &mut text, plant, *line)?;
    }
    Ok(text)
}

fn put_line(
    alloc: Global,
    text: &mut Vec<u8>,
    plant: &Plant,
    line: ReportLine,
) -> Result<(), NoMemory>
    ensures { OnOk result (text.new.items ≡ text.old.items ++ line_text plant.now line) }
{
    let numbers = numbers_text(alloc, line)?;
    text.extend_from_slice(name_of(plant, line.device))?;
    text.extend_from_slice(&numbers)?;
    Ok(())
}

fn name_of(plant: &Plant, device: DevId) -> &[u8]
    ensures { result.now ≡ name_of plant.now device.0 }
{
    match plant.devices.get(usize::from(device.0)) {
        None => &[],
        Some(found) => found.name.as_slice(),
    }
}

/// The numbers of a line.
fn numbers_text(alloc: Global, line: ReportLine) -> Result<Vec<u8>, NoMemory>
    ensures { IfOk result (λ v. v.items ≡ numbers_text line) }
{
    let ReportLine {
        hops,
        delay,
        measured,
        budget,
        muted,
        worst,
        ..
    } = line;
    let text = format!(in alloc; " {hops} {delay} {measured} {budget} {muted} {worst}\n")?;
    Ok(text.into_bytes())
}

//! The lines that the commands print.

ghost use Rattle.std.specs.Prelude.{◌≡◌, IfOk};
ghost use Rattle.irt_top.specs.Lines.{usage_line, not_toml_line, rule_line, kind_text, malformed_line, accept_line, reject_line, unreachable_line, no_path_line, no_clock_line, overrun_line, world_line, long_run_line};

use irt_base::memory::NoMemory;
use irt_base::numbers::FrameId;
use irt_base::texts::print_frame;
use irt_block::{BlockFault, BlockKind};
use plan_rules::place::Reject;
use std::alloc::Global;

/// Words that are no command.
pub fn usage_line(alloc: Global) -> Result<Vec<u8>, NoMemory>
    ensures { IfOk result (λ v. v.items ≡ usage_line) }
{
    Ok(Vec::from_slice(alloc, b"usage\n")?)
}

/// A plant file that is no TOML document.
pub fn not_toml_line(alloc: Global) -> Result<Vec<u8>, NoMemory>
    ensures { IfOk result (λ v. v.items ≡ not_toml_line) }
{
    Ok(Vec::from_slice(alloc, b"plant not toml\n")?)
}

/// The plant rule that fails, and its index.
pub fn rule_line(alloc: Global, number: u8, index: u16) -> Result<Vec<u8>, NoMemory>
    ensures { IfOk result (λ v. v.items ≡ rule_line number index) }
{
    let line = format!(in alloc; "plant P{number} {index}\n")?;
    Ok(line.into_bytes())
}

/// What is wrong with a device file.
pub fn malformed_line(alloc: Global, name: &str, fault: BlockFault) -> Result<Vec<u8>, NoMemory>
    ensures { IfOk result (λ v. v.items ≡ malformed_line name.now fault) }
{
    let kind = kind_text(fault.kind);
    let offset = fault.offset;
    let line = format!(in alloc; "malformed {name} {offset} {kind}\n")?;
    Ok(line.into_bytes())
}

/// The name of a kind of fault.
fn kind_text(kind: BlockKind) -> &'static str
    ensures { result.now ≡ kind_text kind }
{
    match kind {
        BlockKind::NoMemory => "NoMemory",
        BlockKind::Short => "Short",
        BlockKind::BadType => "BadType",
        BlockKind::BadLength => "BadLength",
        BlockKind::BadVersion => "BadVersion",
        BlockKind::BadPad => "BadPad",
        BlockKind::BadValue => "BadValue",
        BlockKind::Trailing => "Trailing",
    }
}

/// A frame and its first receiver to which no walk leads; `device` is that receiver's name.
pub fn unreachable_line(alloc: Global, frame: FrameId, device: &[u8]) -> Result<Vec<u8>, NoMemory>
    ensures { IfOk result (λ v. v.items ≡ unreachable_line frame.0 device.now) }
{
    let mut name = [0; 6];
    print_frame(&mut name, frame);
    let mut line = Vec::from_slice(alloc, b"unreachable ")?;
    line.extend_from_slice(&name)?;
    line.extend_from_slice(b" ")?;
    line.extend_from_slice(device)?;
    line.extend_from_slice(b"\n")?;
    Ok(line)
}

/// The first traffic entry without a walk.
pub fn no_path_line(alloc: Global, traffic: u16) -> Result<Vec<u8>, NoMemory>
    ensures { IfOk result (λ v. v.items ≡ no_path_line traffic) }
{
    let line = format!(in alloc; "no path {traffic}\n")?;
    Ok(line.into_bytes())
}

/// The least device to which no walk leads from device 0; `device` is its name.
pub fn no_clock_line(alloc: Global, device: &[u8]) -> Result<Vec<u8>, NoMemory>
    ensures { IfOk result (λ v. v.items ≡ no_clock_line device.now) }
{
    let mut line = Vec::from_slice(alloc, b"no clock ")?;
    line.extend_from_slice(device)?;
    line.extend_from_slice(b"\n")?;
    Ok(line)
}

/// The first frame for which no phase has room.
pub fn overrun_line(alloc: Global, frame: FrameId) -> Result<Vec<u8>, NoMemory>
    ensures { IfOk result (λ v. v.items ≡ overrun_line frame.0) }
{
    let mut name = [0; 6];
    print_frame(&mut name, frame);
    let mut line = Vec::from_slice(alloc, b"overrun ")?;
    line.extend_from_slice(&name)?;
    line.extend_from_slice(b"\n")?;
    Ok(line)
}

/// Blocks that the rules accept.
pub fn accept_line(alloc: Global) -> Result<Vec<u8>, NoMemory>
    ensures { IfOk result (λ v. v.items ≡ accept_line) }
{
    Ok(Vec::from_slice(alloc, b"ACCEPT\n")?)
}

/// The check rule that fails, and its place; `device` is the name of the place's device.
pub fn reject_line(alloc: Global, device: &[u8], reject: Reject) -> Result<Vec<u8>, NoMemory>
    ensures { IfOk result (λ v. v.items ≡
        reject_line reject.rule device.now reject.place.port reject.place.frame reject.place.other) }
{
    let rule = reject.rule;
    let port = reject.place.port;
    let mut frame = [0; 6];
    let mut other = [0; 6];
    print_frame(&mut frame, FrameId(reject.place.frame));
    print_frame(&mut other, FrameId(reject.place.other));
    let mut line = format!(in alloc; "REJECT V{rule} ")?.into_bytes();
    line.extend_from_slice(device)?;
    line.extend_from_slice(format!(in alloc; " {port} ")?.as_bytes())?;
    line.extend_from_slice(&frame)?;
    line.extend_from_slice(b" ")?;
    line.extend_from_slice(&other)?;
    line.extend_from_slice(b"\n")?;
    Ok(line)
}

/// The first line and place at which a world file is wrong.
pub fn world_line(alloc: Global, number: u32, place: u32) -> Result<Vec<u8>, NoMemory>
    ensures { IfOk result (λ v. v.items ≡ world_line number place) }
{
    let line = format!(in alloc; "world {number} {place}\n")?;
    Ok(line.into_bytes())
}

/// A run that is too long.
pub fn long_run_line(alloc: Global) -> Result<Vec<u8>, NoMemory>
    ensures { IfOk result (λ v. v.items ≡ long_run_line) }
{
    Ok(Vec::from_slice(alloc, b"run too long\n")?)
}

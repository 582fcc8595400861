//! The lines of a device file's text.

ghost use Rattle.std.specs.Prelude.{◌≡◌, ◌++◌, IfOk};
ghost use Rattle.std.specs.List.{flat_map};
ghost use Rattle.irt_show.specs.Show.{begins, entry_line, entry_numbers, global_line, mask_text, mode_line, pair_text, period_line, phases_line, port_line, red_line, sync_line};

use irt_base::blocks::{Assignment, Entry, Period, PhasePair, PortDelay, PortPeriods, SyncBlock};
use irt_base::memory::NoMemory;
use irt_base::numbers::FrameId;
use irt_base::texts::{print_frame, print_hex};
use std::alloc::Global;

/// How the device keeps its clock.
pub fn sync_line(alloc: Global, sync: &SyncBlock) -> Result<Vec<u8>, NoMemory>
    ensures { IfOk result (λ v. v.items ≡ sync_line sync.now) }
{
    let line = format!(in alloc;
        "sync {} {} {} {}\n",
        sync.window, sync.send, sync.factor, sync.timeout
    )?;
    Ok(line.into_bytes())
}

/// The bridge delay in ns, and how many ports there are.
pub fn global_line(alloc: Global, bridge: u32, count: usize) -> Result<Vec<u8>, NoMemory>
    ensures { IfOk result (λ v. v.items ≡ global_line bridge count) }
{
    let line = format!(in alloc; "global {bridge} {count}\n")?;
    Ok(line.into_bytes())
}

/// The delays of a port.
pub fn port_line(alloc: Global, number: usize, port: PortDelay) -> Result<Vec<u8>, NoMemory>
    ensures { IfOk result (λ v. v.items ≡ port_line number port) }
{
    let line = format!(in alloc; "port {number} {} {}\n", port.tx, port.rx)?;
    Ok(line.into_bytes())
}

/// Whether the device forwards relative to the arrival.
pub fn mode_line(relative: bool) -> &'static [u8]
    ensures { result.now ≡ mode_line relative }
{
    if relative {
        b"mode relative\n"
    } else {
        b"mode absolute\n"
    }
}

/// A frame at the device.
pub fn entry_line(alloc: Global, entry: Entry) -> Result<Vec<u8>, NoMemory>
    ensures { IfOk result (λ v. v.items ≡ entry_line entry) }
{
    let mut frame = [0; 6];
    print_frame(&mut frame, entry.frame);
    let numbers = entry_numbers(alloc, entry)?;
    let mut line = Vec::from_slice(alloc, b"frame ")?;
    line.extend_from_slice(&frame)?;
    line.extend_from_slice(&numbers)?;
    line.extend_from_slice(&mask_text(entry.tx))?;
    line.extend_from_slice(b"\n")?;
    Ok(line)
}

/// The decimal numbers of a frame.
fn entry_numbers(alloc: Global, entry: Entry) -> Result<Vec<u8>, NoMemory>
    ensures { IfOk result (λ v. v.items ≡ entry_numbers entry) }
{
    let Entry {
        send_offset,
        data_length,
        ratio,
        phase,
        rx_port,
        ..
    } = entry;
    let text = format!(in alloc; " {send_offset} {data_length} {ratio} {phase} {rx_port}")?;
    Ok(text.into_bytes())
}

/// The ports by which a frame leaves, as `0x` and two digits behind a space.
#[tactic(auto, unfolding(irt_base::specs::Text::hex_digits))]
fn mask_text(tx: u8) -> [u8; 5]
    ensures { result ≡ mask_text tx }
{
    let mut digits = [0; 16];
    print_hex(&mut digits, u64::from(tx));
    [b' ', b'0', b'x', digits[14], digits[15]]
}

/// The range of red FrameIDs.
pub fn red_line(alloc: Global, first: u16, last: u16) -> Result<Vec<u8>, NoMemory>
    ensures { IfOk result (λ v. v.items ≡ red_line first last) }
{
    let mut low = [0; 6];
    let mut high = [0; 6];
    print_frame(&mut low, FrameId(first));
    print_frame(&mut high, FrameId(last));
    let mut line = Vec::from_slice(alloc, b"red ")?;
    line.extend_from_slice(&low)?;
    line.extend_from_slice(b" ")?;
    line.extend_from_slice(&high)?;
    line.extend_from_slice(b"\n")?;
    Ok(line)
}

/// One assignment of a port.
pub fn period_line(
    alloc: Global,
    port: usize,
    number: usize,
    assignment: Assignment,
) -> Result<Vec<u8>, NoMemory>
    ensures { IfOk result (λ v. v.items ≡ period_line port number assignment) }
{
    let sent = begins(alloc, assignment.tx)?;
    let received = begins(alloc, assignment.rx)?;
    let mut line = format!(in alloc; "period {port} {number}")?.into_bytes();
    line.extend_from_slice(&sent)?;
    line.extend_from_slice(&received)?;
    line.extend_from_slice(b"\n")?;
    Ok(line)
}

/// The begins of a side's periods.
fn begins(alloc: Global, period: Period) -> Result<Vec<u8>, NoMemory>
    ensures { IfOk result (λ v. v.items ≡ begins period) }
{
    let text = format!(in alloc; " {} {} {}", period.red, period.orange, period.green)?;
    Ok(text.into_bytes())
}

/// The assignments of a port's phases.
pub fn phases_line(alloc: Global, port: usize, periods: &PortPeriods) -> Result<Vec<u8>, NoMemory>
    ensures { IfOk result (λ v. v.items ≡ phases_line port periods.now) }
{
    let pairs = pairs_text(alloc, periods.phases.as_slice())?;
    let mut line = format!(in alloc; "phases {port}")?.into_bytes();
    line.extend_from_slice(&pairs)?;
    line.extend_from_slice(b"\n")?;
    Ok(line)
}

fn pairs_text(alloc: Global, pairs: &[PhasePair]) -> Result<Vec<u8>, NoMemory>
    ensures { IfOk result (λ v. v.items ≡ flat_map pair_text pairs.now) }
{
    let mut text = Vec::new(alloc);
    for pair in pairs {
        text.extend_from_slice(&pair_text(alloc, *pair)?)?;
    }
    Ok(text)
}

fn pair_text(alloc: Global, pair: PhasePair) -> Result<Vec<u8>, NoMemory>
    ensures { IfOk result (λ v. v.items ≡ pair_text pair) }
{
    let text = format!(in alloc; " {}/{}", pair.tx, pair.rx)?;
    Ok(text.into_bytes())
}

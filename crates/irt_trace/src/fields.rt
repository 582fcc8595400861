//! The fields of a line, each behind a space, and its end.

ghost use Rattle.std.specs.Prelude.{◌≡◌, ◌++◌, OnOk};
ghost use Rattle.irt_trace.specs.Journal.{begin_of, field, frame_field, name_of, parcel_fields, time_field, times_end};

use irt_base::memory::NoMemory;
use irt_base::numbers::{DevId, FrameId, Ns};
use irt_base::plants::Plant;
use irt_base::texts::{print_decimal, print_frame};
use itoa::Buffer;

/// Appends bytes as they are.
pub fn put_bytes(out: &mut Vec<u8>, bytes: &[u8]) -> Result<(), NoMemory>
    ensures { OnOk result (out.new.items ≡ out.old.items ++ bytes.now) }
{
    out.extend_from_slice(bytes)?;
    Ok(())
}

/// A number.
pub fn put_number(out: &mut Vec<u8>, value: u64) -> Result<(), NoMemory>
    ensures { OnOk result (out.new.items ≡ out.old.items ++ field value) }
{
    let mut digits = [0; 20];
    let count = print_decimal(&mut digits, value);
    put_bytes(out, b" ")?;
    put_bytes(out, &digits[..count])
}

/// A time in ns.
pub fn put_time(out: &mut Vec<u8>, time: Ns) -> Result<(), NoMemory>
    ensures { OnOk result (out.new.items ≡ out.old.items ++ time_field time) }
{
    let mut buffer = Buffer::new();
    put_bytes(out, b" ")?;
    put_bytes(out, buffer.format(time).as_bytes())
}

/// Two times in ns, and the line's end.
pub fn put_times_end(out: &mut Vec<u8>, start: Ns, end: Ns) -> Result<(), NoMemory>
    ensures { OnOk result (out.new.items ≡ out.old.items ++ times_end start end) }
{
    put_time(out, start)?;
    put_time(out, end)?;
    put_bytes(out, b"\n")
}

/// A FrameID.
pub fn put_frame(out: &mut Vec<u8>, frame: FrameId) -> Result<(), NoMemory>
    ensures { OnOk result (out.new.items ≡ out.old.items ++ frame_field frame.0) }
{
    let mut text = [0; 6];
    print_frame(&mut text, frame);
    put_bytes(out, b" ")?;
    put_bytes(out, &text)
}

/// Which parcel of which traffic entry.
pub fn put_parcel(out: &mut Vec<u8>, traffic: u16, serial: u32) -> Result<(), NoMemory>
    ensures { OnOk result (out.new.items ≡ out.old.items ++ parcel_fields traffic serial) }
{
    put_number(out, u64::from(traffic))?;
    put_number(out, u64::from(serial))
}

/// The letter of a line, the cycle and the device's name.
pub fn put_begin(
    out: &mut Vec<u8>,
    plant: &Plant,
    letter: u8,
    cycle: u32,
    device: DevId,
) -> Result<(), NoMemory>
    ensures { OnOk result (out.new.items ≡ out.old.items ++ begin_of plant.now letter cycle device.0) }
{
    put_bytes(out, &[letter])?;
    put_number(out, u64::from(cycle))?;
    put_bytes(out, b" ")?;
    put_bytes(out, name_of(plant, device))
}

fn name_of(plant: &Plant, device: DevId) -> &[u8]
    ensures { result.now ≡ name_of plant.now device.0 }
{
    match plant.devices.get(usize::from(device.0)) {
        Some(found) => found.name.as_slice(),
        None => &[],
    }
}

//! What a frame says of its data beside them.

ghost use Rattle.std.specs.Prelude.{◌≡◌, ◌<◌};
ghost use Rattle.irt_base.specs.declared.limits.TheConstants.{MAX_CYCLES};
ghost use Rattle.iso_station.specs.Mark.{counter_of, is_good};

use irt_base::limits::MAX_CYCLES;

/// The DataStatus with which a provider sends.
pub const DATA_STATUS: u8 = 0x35;

/// Bit 2 of DataStatus: the data are valid (IEC 61158-6-10).
pub const VALID: u8 = 4;

/// Bit 4 of DataStatus: the provider runs (IEC 61158-6-10).
pub const RUNNING: u8 = 16;

/// The numbers that a CycleCounter can have.
pub const COUNTS: u32 = 65536;

/// The CycleCounter of cycle `k`, in units of 31.25 microseconds: `factor` more with each cycle, wrapping.
pub fn counter(factor: u16, k: u32) -> u16
    requires { k < MAX_CYCLES }
    ensures { result ≡ counter_of factor k }
{
    (k * u32::from(factor) % COUNTS) as u16
}

/// Whether a DataStatus says that its provider runs and its data are valid.
pub fn is_good(status: u8) -> bool
    ensures { result ≡ is_good status }
{
    status & VALID != 0 && status & RUNNING != 0
}

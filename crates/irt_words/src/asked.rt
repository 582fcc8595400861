//! What words ask for.

/// Least number of devices of a generated plant.
pub const MIN_GENERATED: usize = 2;

/// Greatest seed.
pub const MAX_SEED: u64 = 18446744073709551615;

/// A command with its checked arguments. Names of files are not empty, CYCLES is 1..10000, and a generated
/// plant has 2..64 devices and at most 512 frames.
#[derive(Clone, Copy, PartialEq, Eq)]
pub enum Asked<'a> {
    /// `plan PLANT`
    Plan {
        plant: &'a str,
    },
    /// `check PLANT`
    Check {
        plant: &'a str,
    },
    /// `show FILE`
    Show {
        file: &'a str,
    },
    /// `sync PLANT CYCLES SEED`
    Sync {
        plant: &'a str,
        cycles: u32,
        seed: u64,
    },
    /// `run PLANT CYCLES SEED`
    Run {
        plant: &'a str,
        cycles: u32,
        seed: u64,
    },
    /// `run PLANT CYCLES --world FILE`
    RunWorld {
        plant: &'a str,
        cycles: u32,
        world: &'a str,
    },
    /// `gen SEED DEVICES FRAMES NAME`
    Gen {
        seed: u64,
        devices: u16,
        frames: u16,
        name: &'a str,
    },
    /// `free PLANT CYCLES SEED`
    Free {
        plant: &'a str,
        cycles: u32,
        seed: u64,
    },
}

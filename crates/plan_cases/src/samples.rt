//! Plants with the entries of their devices.
//!
//! Devices are named d0, d1 and so on, with seven ports each. A hop takes 800 ns (100, 500 and 200), a bridge 1000 to
//! 3000 ns; a cycle takes 1 ms, the window is 1000 ns and red ends at 250000 ns. Frames have 40 bytes.

/// Device, frame, FrameSendOffset in ns, receiving port, and the sending ports as bits, with bit 0 where it is consumed.
pub type Row = (u8, u16, u32, u8, u8);

/// A device, one of its ports (from 1), and the device and port at the other end.
pub type Wire = (u8, u8, u8, u8);

/// A frame, its provider and its consumers.
pub type Asked<'a> = (u16, u8, &'a [u8]);

/// A plant, and the entries of its devices.
#[derive(Clone, Copy)]
pub struct Sample<'a> {
    /// The mode of each device.
    pub modes: &'a [&'a str],
    pub wires: &'a [Wire],
    pub asked: &'a [Asked<'a>],
    pub rows: &'a [Row],
}

/// d0 is linked to d1 and d4, and d1, d2 and d3 form a ring.
pub const RING: Sample<'static> = Sample {
    modes: &["absolute", "relative", "absolute", "absolute", "absolute"],
    wires: &[
        (0, 1, 1, 1),
        (1, 2, 2, 1),
        (2, 2, 3, 1),
        (3, 2, 1, 3),
        (0, 2, 4, 1),
    ],
    asked: &[
        (0x0100, 0, &[4]),
        (0x0101, 0, &[1, 2, 3]),
        (0x0102, 1, &[2]),
        (0x0103, 2, &[0]),
    ],
    rows: &[
        (0, 0x0100, 9000, 0, 0b100),
        (0, 0x0101, 0, 0, 0b10),
        (0, 0x0103, 0, 1, 0b1),
        (1, 0x0101, 0, 1, 0b101),
        (1, 0x0102, 12520, 0, 0b100),
        (1, 0x0103, 0, 2, 0b10),
        (2, 0x0101, 12000, 1, 0b101),
        (2, 0x0102, 0, 1, 0b1),
        (2, 0x0103, 20000, 0, 0b10),
        (3, 0x0101, 0, 1, 0b1),
        (4, 0x0100, 0, 1, 0b1),
    ],
};

ghost use Rattle.std.specs.Prelude.{◌≤◌, ◌<◌};

use irt_base::memory::NoMemory;
use irt_base::numbers::{DevId, FrameId};
use std::alloc::Global;
use std::process::Abort;
use std::test::Fail;
use window_sweep::pairs::first_clash_of_pairs;
use window_sweep::slot::SendSlot;
use window_sweep::sweep::first_clash;
use window_sweep::valid::are_send_slots;

// Frame, begin, end, anchor, ratio and phase of a slot.
type Row = (u16, u64, u64, u8, u16, u16);

// Two frames.
type Pair = (FrameId, FrameId);

const A: FrameId = FrameId(256);

const B: FrameId = FrameId(257);

const C: FrameId = FrameId(258);

const NONE: &[Row] = &[];

// Slots, and the first two frames that clash. The window is 1000 ns, so the guard is 2000 ns.
const CLASHES: [(&[Row], Option<Pair>); 17] = [
    (NONE, None),
    (&[(256, 0, 6720, 1, 1, 1)], None),
    // Slots of one anchor may touch, and not by one ns more, whichever is first.
    (
        &[(256, 0, 6720, 1, 1, 1), (257, 6720, 13440, 1, 1, 1)],
        None,
    ),
    (
        &[(256, 6720, 13440, 1, 1, 1), (257, 0, 6720, 1, 1, 1)],
        None,
    ),
    (
        &[(256, 0, 6721, 1, 1, 1), (257, 6720, 13440, 1, 1, 1)],
        Some((A, B)),
    ),
    (
        &[(256, 6719, 13439, 1, 1, 1), (257, 0, 6720, 1, 1, 1)],
        Some((A, B)),
    ),
    // Two anchors keep a guard.
    (
        &[(256, 0, 6720, 1, 1, 1), (257, 8720, 15440, 2, 1, 1)],
        None,
    ),
    (
        &[(256, 0, 6720, 1, 1, 1), (257, 8719, 15439, 2, 1, 1)],
        Some((A, B)),
    ),
    // It is kept to the slot after the next, of the first anchor again.
    (
        &[
            (256, 0, 6720, 1, 1, 1),
            (257, 8720, 15440, 2, 1, 1),
            (258, 17440, 24160, 1, 1, 1),
        ],
        None,
    ),
    // Phase 3 of 4 is in the cycles of phase 1 of 2. Phase 2 of 4 isn't.
    (
        &[(256, 0, 9000, 1, 2, 1), (257, 100, 7000, 1, 4, 3)],
        Some((A, B)),
    ),
    (&[(256, 0, 9000, 1, 2, 1), (257, 100, 7000, 1, 4, 2)], None),
    (&[(256, 0, 9000, 1, 2, 1), (257, 100, 7000, 1, 2, 2)], None),
    // A slot between the two that is due in other cycles doesn't part them.
    (
        &[
            (256, 0, 9000, 1, 2, 1),
            (257, 100, 200, 1, 2, 2),
            (258, 300, 400, 1, 16, 15),
        ],
        Some((A, C)),
    ),
    // A sweep meets 257 and 258 first. 256 and 257 is the lesser pair.
    (
        &[
            (256, 5000, 9000, 1, 1, 1),
            (257, 1000, 6000, 1, 1, 1),
            (258, 0, 2000, 1, 1, 1),
        ],
        Some((A, B)),
    ),
    // 256 clashes with both: the lesser of the two, though it begins later.
    (
        &[
            (256, 0, 9000, 1, 1, 1),
            (257, 5000, 6000, 1, 1, 1),
            (258, 1000, 2000, 1, 1, 1),
        ],
        Some((A, B)),
    ),
    // Equal begins, in either order of the frames.
    (
        &[
            (256, 0, 5, 1, 1, 1),
            (257, 100, 110, 1, 1, 1),
            (258, 100, 101, 1, 1, 1),
        ],
        Some((B, C)),
    ),
    (
        &[
            (256, 100, 101, 1, 1, 1),
            (257, 0, 5, 1, 1, 1),
            (258, 100, 110, 1, 1, 1),
        ],
        Some((A, C)),
    ),
];

fn slot(row: Row) -> SendSlot {
    let (frame, lo, end, anchor, ratio, phase) = row;
    SendSlot {
        lo,
        end,
        anchor: DevId(anchor),
        frame: FrameId(frame),
        ratio,
        phase,
    }
}

fn slots_of(alloc: Global, rows: &[Row]) -> Result<Vec<SendSlot>, NoMemory> {
    let mut slots = Vec::new(alloc);
    for row in rows {
        slots.push(slot(*row))?;
    }
    Ok(slots)
}

// The first two frames that clash, which the sweep and the pairs agree on.
fn found(rt: &impl Abort, alloc: Global, slots: &[SendSlot]) -> Result<Option<Pair>, NoMemory> {
    assert!(rt; are_send_slots(slots));
    let swept = first_clash(alloc, 1000, slots)?;
    let paired = first_clash_of_pairs(1000, slots);
    assert!(rt; swept == paired, "{swept:?} and {paired:?}");
    Ok(swept)
}

fn found_of(rt: &impl Abort, alloc: Global, rows: &[Row]) -> Result<Option<Pair>, NoMemory> {
    let slots = slots_of(alloc, rows)?;
    found(rt, alloc, slots.as_slice())
}

#[test]
fn first_clashes(rt: HostRuntime) -> Result<(), Fail> {
    for (number, (rows, want)) in CLASHES.iter().enumerate() {
        let clash = found_of(&rt, rt.alloc(), rows)?;
        assert!(rt; clash == *want, "{clash:?} of {number}");
    }
    Ok(())
}

// A number that looks like chance.
fn next(seed: u32) -> u32 {
    seed.wrapping_mul(1664525).wrapping_add(1013904223)
}

fn below(seed: u32, limit: u32) -> u32
    requires { 1 ≤ limit }
    ensures { result < limit }
{
    (seed >> 8) % limit
}

// A slot of one of three anchors, and the number after those drawn for it.
fn some_slot(seed: u32, frame: u16) -> (SendSlot, u32) {
    let at = next(seed);
    let lo = u64::from(below(at, 40000));
    let of = next(at);
    let ratio = [1u16, 2, 4, 8, 16][below(of, 5) as usize];
    let in_cycle = next(of);
    let phase = 1 + (in_cycle >> 16) as u16 % ratio;
    let by = next(in_cycle);
    (
        slot((frame, lo, lo + 3000, below(by, 3) as u8, ratio, phase)),
        by,
    )
}

// Up to five slots of three anchors. More of them clash than not.
fn some_slots(alloc: Global, start: u32) -> Result<Vec<SendSlot>, NoMemory> {
    let mut slots = Vec::new(alloc);
    let mut seed = start;
    for frame in 256..257 + (start % 5) as u16 {
        let (slot, drawn) = some_slot(seed, frame);
        seed = drawn;
        slots.push(slot)?;
    }
    Ok(slots)
}

// Whether no two of some slots clash.
fn is_clear(rt: &impl Abort, alloc: Global, start: u32) -> Result<bool, NoMemory> {
    let slots = some_slots(alloc, start)?;
    Ok(found(rt, alloc, slots.as_slice())?.is_none())
}

#[test]
fn sweep_and_pairs_agree(rt: HostRuntime) -> Result<(), Fail> {
    let mut clear = 0u32;
    for start in 0..600 {
        clear = clear.wrapping_add(u32::from(is_clear(&rt, rt.alloc(), start)?));
    }
    assert!(&rt; 100 < clear && clear < 500, "{clear} of 600 are clear");
    Ok(())
}

fn many_slots(alloc: Global) -> Result<Vec<SendSlot>, NoMemory> {
    let mut slots = Vec::new(alloc);
    for place in 0..512u16 {
        let lo = 10000 * u64::from(511 - place);
        slots.push(slot((256 + place, lo, lo + 10000, 1, 16, 1 + place % 16)))?;
    }
    Ok(slots)
}

#[test]
fn as_many_as_a_plant_has(rt: HostRuntime) -> Result<(), Fail> {
    let slots = many_slots(rt.alloc())?;
    assert!(rt; found(&rt, rt.alloc(), slots.as_slice())? == None);
    Ok(())
}

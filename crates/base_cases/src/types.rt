ghost use Rattle.std.specs.Prelude.{◌≡◌, IfOk, length};
ghost use Rattle.std.specs.List.{AllByRecursion};
ghost use Rattle.irt_base.specs.Valid.{IsAssignment, IsPeriodBlock, IsPhasePair, IsPortPeriods};

use irt_base::blocks::{Assignment, Period, PeriodBlock, PhasePair, PortPeriods, Side};
use irt_base::cycles::{budget_over, cycle_length, due, guard, period, share, wire};
use irt_base::list::Items;
use irt_base::memory::NoMemory;
use irt_base::numbers::{FrameId, PortNo};
use irt_base::texts::{print_decimal, print_frame, print_hex, read_decimal};
use std::alloc::Global;
use std::test::Fail;

// Cycle, ratio and phase, and whether a frame is due.
const DUE: [(u32, u16, u16, bool); 4] = [
    (0, 1, 1, true),
    (3, 2, 2, true),
    (4, 2, 2, false),
    (4, 2, 0, false),
];

// Ratio and phase of two frames, and whether they share a cycle.
const SHARED: [(u16, u16, u16, u16, bool); 3] = [
    (2, 1, 2, 2, false),
    (2, 1, 4, 3, true),
    (4, 2, 2, 1, false),
];

const READ: [(&str, Option<u64>); 9] = [
    ("0", Some(0)),
    ("243281", Some(243281)),
    ("18446744073709551615", Some(u64::MAX)),
    ("18446744073709551616", None),
    ("05", None),
    ("+5", None),
    ("-1", None),
    ("1a", None),
    ("", None),
];

const EARLY: Period = Period {
    red: 0,
    orange: 6720,
    green: 6720,
};

const LATE: Period = Period {
    red: 1,
    orange: 2,
    green: 3,
};

#[test]
fn frames_are_due(rt: HostRuntime) {
    for (k, ratio, phase, want) in &DUE {
        assert!(rt;
            due(*k, *ratio, *phase) == *want,
            "cycle {k}, ratio {ratio}, phase {phase}"
        );
    }
}

#[test]
fn frames_share_cycles(rt: HostRuntime) {
    for (ratio, phase, other, at, want) in &SHARED {
        assert!(rt;
            share(*ratio, *phase, *other, *at) == *want,
            "phase {phase} of ratio {ratio} and phase {at} of ratio {other}"
        );
    }
}

#[test]
fn times(rt: HostRuntime) {
    assert!(rt; wire(40) == 6720 && wire(1440) == 118720);
    assert!(rt; cycle_length(32) == 1000000 && guard(1000) == 2000);
    assert!(rt; budget_over(8, 8, 5, 4, 6) == 400);
}

// Whether the number is printed over dots as the text, and how long it is.
fn prints(number: u64, text: &[u8; 20], length: usize) -> bool {
    let mut out = [b'.'; 20];
    print_decimal(&mut out, number) == length && out == *text
}

fn hex(number: u64) -> [u8; 16] {
    let mut out = [0; 16];
    print_hex(&mut out, number);
    out
}

fn frame_text(number: u16) -> [u8; 6] {
    let mut out = [0; 6];
    print_frame(&mut out, FrameId(number));
    out
}

#[test]
fn texts(rt: HostRuntime) {
    assert!(rt; prints(243281, b"243281..............", 6));
    assert!(rt; prints(u64::MAX, b"18446744073709551615", 20));
    assert!(rt; hex(0x0123_4567_89ab_cdef) == *b"0123456789abcdef");
    assert!(rt; frame_text(0x0100) == *b"0x0100");
}

#[test]
fn texts_read(rt: HostRuntime) {
    for (text, number) in &READ {
        assert!(rt; read_decimal(text.as_bytes()) == *number, "{text}");
    }
}

fn one_assignment(alloc: Global) -> Result<Items<Assignment>, NoMemory>
    ensures count { IfOk result (λ list. length list ≡ 1) }
    ensures each { IfOk result (AllByRecursion IsAssignment) }
{
    let mut assignments = Items::new(alloc);
    assignments.push(Assignment {
        tx: EARLY,
        rx: LATE,
    })?;
    Ok(assignments)
}

fn equal_phases(alloc: Global) -> Result<Items<PhasePair>, NoMemory>
    ensures count { IfOk result (λ list. length list ≡ 16) }
    ensures each { IfOk result (AllByRecursion (IsPhasePair 1)) }
{
    let mut phases = Items::from_vec(vec![in alloc; PhasePair { tx: 0, rx: 0 }; 15]?);
    phases.push(PhasePair { tx: 0, rx: 0 })?;
    Ok(phases)
}

fn one_port(alloc: Global, port: PortPeriods) -> Result<Items<PortPeriods>, NoMemory>
    requires { IsPortPeriods port }
    ensures count { IfOk result (λ list. length list ≡ 1) }
    ensures each { IfOk result (AllByRecursion IsPortPeriods) }
{
    let mut ports = Items::new(alloc);
    ports.push(port)?;
    Ok(ports)
}

fn port_periods(alloc: Global) -> Result<PortPeriods, NoMemory>
    ensures { IfOk result IsPortPeriods }
{
    let phases = equal_phases(alloc)?;
    Ok(PortPeriods {
        assignments: one_assignment(alloc)?,
        phases,
    })
}

fn period_block(alloc: Global) -> Result<PeriodBlock, NoMemory>
    ensures valid { IfOk result IsPeriodBlock }
    ensures count { IfOk result (λ block. length block.ports ≡ 1) }
{
    Ok(PeriodBlock {
        first: 0x0100,
        last: 0x06ff,
        ports: one_port(alloc, port_periods(alloc)?)?,
    })
}

// The periods of both sides of port 1.
fn sides(block: &PeriodBlock) -> (Period, Period)
    requires valid { IsPeriodBlock block.now }
    requires count { length block.now.ports ≡ 1 }
{
    (
        period(block, PortNo(1), 17, Side::Tx),
        period(block, PortNo(1), 17, Side::Rx),
    )
}

#[test]
fn periods(rt: HostRuntime) -> Result<(), Fail> {
    let block = period_block(rt.alloc())?;
    assert_eq!(rt; sides(&block), (EARLY, LATE));
    Ok(())
}

// 5, 9 and 7.
fn three(alloc: Global) -> Result<Items<u32>, NoMemory>
    ensures { IfOk result (λ list. length list ≡ 3) }
{
    let mut list = Items::with_capacity(alloc, 3)?;
    list.push(5)?;
    list.push(6)?;
    list.push(7)?;
    list.set(1, 9);
    Ok(list)
}

fn sum(list: &Items<u32>) -> u32 {
    let mut sum = 0u32;
    for item in list {
        sum = sum.wrapping_add(*item);
    }
    sum
}

fn shows_three(list: &Items<u32>) -> bool
    requires { length list.now ≡ 3 }
{
    list.get(1).copied() == Some(9)
        && list.get(3).copied() == None
        && list[2] == 7
        && sum(list) == 21
}

fn copies_three(alloc: Global, list: &Items<u32>) -> Result<bool, NoMemory> {
    let copy = list.try_copy(alloc)?.into_vec();
    Ok(copy.as_slice() == [5, 9, 7].as_slice())
}

// Takes the last item out, and then all.
fn is_emptied(list: &mut Items<u32>) -> bool {
    let popped = list.pop() == Some(7) && list.len() == 2;
    list.clear();
    popped && list.is_empty()
}

#[test]
fn lists(rt: HostRuntime) -> Result<(), Fail> {
    let mut list = three(rt.alloc())?;
    assert!(rt; shows_three(&list));
    assert!(rt; copies_three(rt.alloc(), &list)?);
    assert!(rt; is_emptied(&mut list));
    Ok(())
}

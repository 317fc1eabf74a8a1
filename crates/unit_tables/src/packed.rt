//! A packed log beside a full one.

use hart_model::{Probe, Side, Why};
use isa_model::{Latch, RegNo};
use probe_log::{Full, Keeper, Packed};
use std::test::Fail;

/// A latch of each kind in turn.
fn latch_of(number: u32) -> Latch {
    match number % 9 {
        0 => Latch::PortA,
        1 => Latch::PortB,
        2 => Latch::Res,
        3 => Latch::Load,
        4 => Latch::Store,
        5 => Latch::Scr,
        6 => Latch::Mul,
        7 => Latch::Mem(0x10_8000),
        _ => Latch::Reg(RegNo::new((number % 32) as u8).unwrap()),
    }
}

/// Each why in turn, and of a value both sides.
fn why_of(number: u32) -> Why {
    let latch = latch_of(number / 5);
    match number % 5 {
        0 => Why::Public,
        1 => Why::Value {
            task: 2,
            step: number,
            latch,
            side: Side::Was,
        },
        2 => Why::Value {
            task: 0,
            step: 3,
            latch,
            side: Side::Now,
        },
        3 => Why::Step {
            task: 1,
            step: number,
            latch,
        },
        _ => Why::Unexplained,
    }
}

/// An entry: the hart changes after 50 entries, the pc after 7, and every other value is 0.
fn entry_of(number: u32) -> Probe {
    Probe {
        hart: number / 50 % 3,
        pc: number / 7,
        latch: latch_of(number),
        was: number % 2,
        now: number / 2 % 2,
        why: why_of(number),
    }
}

/// Both have the same entries, one by one and from the start on.
#[test]
fn packed_as_full(rt: HostRuntime) -> Result<(), Fail> {
    let alloc = rt.alloc();
    let mut packed = Packed::new(alloc, 200)?;
    let mut full = Full::new(alloc, 200)?;
    for number in 0..200u32 {
        assert!(rt; packed.room() > 0 && full.room() > 0);
        packed.put(entry_of(number));
        full.put(entry_of(number));
    }
    let mut reader = packed.from_start();
    for number in 0..201u64 {
        assert_eq!(rt; packed.get(number), full.get(number));
        assert_eq!(rt; reader.next(), full.get(number));
    }
    assert_eq!(rt; packed.len(), 200);
    Ok(())
}

/// A public entry of hart 0, where the value was 0.
fn public_entry(pc: u32, latch: Latch, now: u32) -> Probe {
    Probe {
        hart: 0,
        pc,
        latch,
        was: 0,
        now,
        why: Why::Public,
    }
}

/// The words of the first two steps of a hart, a load of the take port and a branch on what it gives.
const TWO_STEPS: [u32; 13] = [
    0x0018_0020,
    0x0000_0000,
    0x0000_1324,
    0x0040_0022,
    0x0000_0700,
    0x0040_0023,
    0x0000_0200,
    0x0040_0005,
    0x0000_0200,
    0x0050_0020,
    0x0000_1328,
    0x0000_0200,
    0x0000_0021,
];

/// The words of a log.
#[test]
fn packed_words(rt: HostRuntime) -> Result<(), Fail> {
    let register = Latch::Reg(RegNo::new(5).ok_or("no register")?);
    let entries = [
        public_entry(0x1324, Latch::PortA, 0),
        public_entry(0x1324, Latch::Res, 0x700),
        public_entry(0x1324, Latch::Load, 0x200),
        public_entry(0x1324, register, 0x200),
        public_entry(0x1328, Latch::PortA, 0x200),
        public_entry(0x1328, Latch::PortB, 0),
    ];
    let mut packed = Packed::new(rt.alloc(), 6)?;
    for entry in &entries {
        assert!(rt; packed.room() > 0);
        packed.put(*entry);
    }
    assert_eq!(rt; packed.words(), TWO_STEPS.as_slice());
    Ok(())
}

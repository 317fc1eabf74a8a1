//! What several entries of a log show together.

use crate::runs::task_of;
use hart_model::{Probe, Side, Why};
use isa_model::{Latch, RegNo};
use probe_inspect::Shown;
use probe_log::{Keeper, Packed};
use probe_order::shown_many;
use std::test::Fail;

/// An entry that names something.
fn entry_of(latch: Latch, why: Why) -> Probe {
    Probe {
        hart: 0,
        pc: 0,
        latch,
        was: 0,
        now: 0,
        why,
    }
}

/// Each listed entry shows what it names of the task, in the order of the list: the task is addi x1,x0,42.
#[test]
fn shows_several(rt: HostRuntime) -> Result<(), Fail> {
    let alloc = rt.alloc();
    let latch = Latch::Reg(RegNo::new(1).ok_or("no register")?);
    let tasks = vec![in alloc; task_of(alloc, [0x02a0_0093].as_slice())?]?;
    let value = Why::Value {
        task: 0,
        step: 1,
        latch,
        side: Side::Now,
    };
    let change = Why::Step {
        task: 0,
        step: 0,
        latch,
    };
    let mut log = Packed::new(alloc, 3)?;
    for why in [Why::Public, value, change] {
        assert!(rt; log.room() > 0);
        log.put(entry_of(latch, why));
    }
    assert_eq!(rt; log.len(), 3);
    let shown = shown_many(alloc, tasks.as_slice(), &log, [2, 1, 0, 1].as_slice())?;
    let wanted = [
        Shown::Pair(0, 42),
        Shown::Value(42),
        Shown::Nothing,
        Shown::Value(42),
    ];
    assert_eq!(rt; shown.as_slice(), wanted.as_slice());
    Ok(())
}

//! A task by itself, step by step, a board that grows, and the pace of a plan.

ghost use Rattle.std.specs.Prelude.{◌≤◌, length, IfOk};
ghost use Rattle.isa_model.specs.TaskPlaces.{IsValidTask};

use alone_run::{Alone, Latch, Task, Words};
use context_slot::Body;
use core_model::{Home, Plan, Quanta};
use isa_model::RegNo;
use ready_queue::Board;
use std::alloc::{AllocError, Global};
use std::test::Fail;
use timer_plan::Pace;

/// A task of these words, at its place as number 0.
pub(crate) fn task_of(alloc: Global, code: &[u32]) -> Result<Task, AllocError>
    requires short { length code.now ≤ 64 }
    ensures valid { IfOk result IsValidTask }
{
    Ok(Task {
        code_at: 0x10_0000,
        data_at: 0x10_8000,
        code: Words::new(code.to_vec(alloc)?),
        data_len: 0,
        fuel: 5,
        out_max: 4,
        tape: Words::new(vec![in alloc;]?),
    })
}

/// lui x1,256; jalr x2,6(x1), and with the offset 9: the words of a task, and x2 once it has ended.
const JUMPS: [([u32; 2], u32); 2] = [
    ([0x0010_00b7, 0x0060_8167], 0),
    ([0x0010_00b7, 0x0090_8167], 0x10_0008),
];

/// A jump that faults writes no register, and one that goes past the code does.
#[test]
fn jumps(rt: HostRuntime) -> Result<(), Fail> {
    let alloc = rt.alloc();
    let register = Latch::Reg(RegNo::new(2).ok_or("no register")?);
    for (code, wanted) in &JUMPS {
        let task = task_of(alloc, code.as_slice())?;
        let mut alone = Alone::start(alloc, &task)?;
        for _ in 0..5 {
            let _seen = alone.step();
        }
        assert!(rt; alone.ended().is_some());
        assert_eq!(rt; alone.value(register), *wanted, "of {code:?}");
    }
    Ok(())
}

/// Whether a thread may have a value.
fn is_sendable<T: Send + Drop>(_value: T) -> bool {
    true
}

/// A board takes the room of two actions more, and may go into a thread.
#[test]
fn a_board_that_grows(rt: HostRuntime) -> Result<(), Fail> {
    let alloc = rt.alloc();
    let task = task_of(alloc, &[0x73])?;
    let mut bodies = Vec::new(alloc);
    bodies.push(Body::fresh(alloc, 0, &task)?)?;
    let mut board = Board::boot(alloc, 1, bodies, vec![in alloc; 0]?)?;
    board.reserve_two()?;
    assert_eq!(rt; board.home(0), Some(Home::Slot(0)));
    assert!(rt; is_sendable(board));
    Ok(())
}

/// How many instructions may run before each tick of a plan with the quanta 3, 0 and 2 and the tail 4, of which the first is before
/// any take.
const QUANTA: [u32; 6] = [0, 3, 0, 2, 4, 4];

#[test]
fn ticks(rt: HostRuntime) -> Result<(), Fail> {
    let quanta = Quanta::new([3, 0, 2].to_vec(rt.alloc())?);
    let mut pace = Pace::new(Plan { quanta, tail: 4 });
    for (takes, quantum) in QUANTA.iter().enumerate() {
        for _ in 0..*quantum {
            assert!(rt; !pace.due(), "after {takes} takes");
            pace.ran();
        }
        assert!(rt; pace.due(), "after {takes} takes");
        pace.took();
    }
    Ok(())
}

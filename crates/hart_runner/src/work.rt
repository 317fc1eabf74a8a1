//! One worker.

ghost use Rattle.std.specs.Prelude.{◌≡◌, ◌<◌, length};
ghost use Rattle.core_model.specs.KernelWords as definition;
ghost use Rattle.core_model.specs.Loaded.{IsLoaded};
ghost use Rattle.core_model.specs.Orders.{plan_at};
ghost use Rattle.timer_plan.specs.Pace.{pace_of};
ghost use Rattle.turn_lock.specs.Passes.{IsNewPass, IsPassOf, pass_number, pass_seen, lock_frame};
ghost use Rattle.hart_runner.specs.Receipts.{IsReceiptOf};
ghost use Rattle.hart_runner.specs.Working.{IsWorkerOf};

use crate::board::CoreBoard;
use crate::own_hart::OwnHart;
use crate::receipt::Receipt;
use crate::turning::{give_turn, take_turn, to_give};
use hart_state::Hart;
use io_edge::Gate;
use probe_log::Tally;
use std::sync::Wait;
use switch_emit::KernelCode;
use timer_plan::Pace;
use turn_lock::{Pass, Turns};

/// The worker of one hart: it steps the hart, and takes turns at the board for its queue actions, until a take finds nothing or has no memory.
///
/// The lock was made for a loaded bundle that has this hart, the code is that of the kernel, the pace is new and of the hart's plan, and the
/// pass is a new one of the lock with the hart's number. The pass that it gives back has seen an order, the hart and the tally are those of
/// this hart in the order's coarse run, and the receipt says how the worker ended, with the length of that order.
///
/// The gate is called before each turn's ticket is drawn, with how many turns there were before. A hart that holds a context is stepped to its
/// give before that, so that nothing but the queue action is done while the board is out of the lock; a hart that holds nothing is at its
/// take, or one instruction before it. The board's order alone grows, and nothing else takes memory.
pub fn worker<R: Wait + Sync, G: Gate>(
    rt: &R,
    gate: &G,
    lock: &Turns<CoreBoard>,
    code: &KernelCode,
    hart: u32,
    pace: Pace,
    pass: Pass<CoreBoard>,
) -> (Hart, Tally, Pass<CoreBoard>, Receipt)
    requires loaded { IsLoaded (lock_frame lock.now).value }
    requires hart { hart < (lock_frame lock.now).value.harts }
    requires code { code.now ≡ definition.kernel_code }
    requires pace { pace ≡ pace_of (plan_at (lock_frame lock.now).value.plans hart) 0 0 }
    requires pass { IsNewPass lock.now hart pass }
    ensures pass { IsPassOf lock.now result.2 }
    ensures number { pass_number result.2 ≡ hart }
    ensures share { IsWorkerOf (lock_frame lock.now).value hart (pass_seen result.2) result.0 result.1 }
    ensures receipt { IsReceiptOf (lock_frame lock.now).value (pass_seen result.2) hart result.3 }
    ensures length { result.3.order_length ≡ length (pass_seen result.2) }
{
    let words = code.words.as_slice();
    let mut own = OwnHart {
        hart: Hart::boot(hart, code.take),
        pace,
        tally: Tally::new(),
    };
    let mut pass = pass;
    let mut turns = 0u32;
    for _ in rt.forever() {
        let gives = to_give(&mut own, words);
        gate.before_action(hart, turns);
        turns = turns.wrapping_add(1);
        let (board, held) = lock.lift(rt, pass);
        match gives {
            Some(kind) => {
                pass = give_turn(lock, board, held, &mut own, hart, words, kind);
            }
            None => {
                let (next, ended) = take_turn(lock, board, held, &mut own, hart, words);
                match ended {
                    Some(receipt) => {
                        let OwnHart {
                            hart,
                            pace: _,
                            tally,
                        } = own;
                        return (hart, tally, next, receipt);
                    }
                    None => pass = next,
                }
            }
        }
    }
    unreachable!()
}

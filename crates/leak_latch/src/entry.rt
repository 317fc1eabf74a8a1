//! The entry of the log that a write makes.

ghost use Rattle.std.specs.Prelude.{◌≡◌};
ghost use Rattle.hart_model.specs.Why.{why_of};
ghost use Rattle.hart_model.specs.Probes.{probe_of as probe_of_write};

use crate::order::is_same;
use hart_model::{Cell, Mode, Probe, Side, Tag, Why};
use isa_model::Latch;

/// Why a write of a latch is explained, by the mode and the tags before and after.
fn why(mode: Mode, latch: &Latch, was: &Tag, now: &Tag) -> Why
    ensures value { result ≡ why_of mode latch.now was.now now.now }
{
    match (was, now) {
        (Tag::Public, Tag::Public) => Why::Public,
        (
            Tag::Of {
                task,
                step,
                latch: source,
            },
            Tag::Public,
        ) => Why::Value {
            task: *task,
            step: *step,
            latch: *source,
            side: Side::Was,
        },
        (
            Tag::Public,
            Tag::Of {
                task,
                step,
                latch: source,
            },
        ) => Why::Value {
            task: *task,
            step: *step,
            latch: *source,
            side: Side::Now,
        },
        (
            Tag::Of {
                task,
                step,
                latch: source,
            },
            Tag::Of {
                task: new_task,
                step: new_step,
                latch: new_source,
            },
        ) => {
            if mode == Mode::User
                && *task == *new_task
                && is_same(source, latch)
                && is_same(new_source, latch)
                && *step < *new_step
            {
                Why::Step {
                    task: *task,
                    step: *new_step - 1,
                    latch: *latch,
                }
            } else {
                Why::Unexplained
            }
        }
        _ => Why::Unexplained,
    }
}

/// The entry that a write of a latch makes: the cells before and after, with what explains the two values (this project's own).
/// `hart` is the hart's number, `pc` the address of the instruction, `mode` the mode that it runs in. A write that leaves the value
/// as it was makes an entry too.
pub fn probe_of(hart: u32, pc: u32, mode: Mode, latch: Latch, was: Cell, now: Cell) -> Probe
    ensures entry { result ≡ probe_of_write hart pc mode latch was now }
{
    let why = why(mode, &latch, &was.tag, &now.tag);
    Probe {
        hart,
        pc,
        latch,
        was: was.value,
        now: now.value,
        why,
    }
}

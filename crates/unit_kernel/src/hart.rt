//! A hart driven by hand, without a queue.

ghost use Rattle.std.specs.Prelude.{◌≤◌, length, IfOk, IsTrue};
ghost use Rattle.isa_model.specs.TaskPlaces.{IsValidTask};
ghost use Rattle.hart_state.specs.UserDeed.{CanCount};

use context_slot::{Body, Context, Task, Words, slot_words};
use hart_model::{Probe, Why};
use hart_state::{Did, Hart, Latch, QueueCall};
use probe_log::{Full, Keeper};
use std::alloc::{AllocError, Global};
use std::process::Abort;
use std::test::Fail;
use switch_emit::{kernel_code, naive_code};

/// A task of these words, at its place as number 0, with one word of input and no room for output.
fn task_of(alloc: Global, code: &[u32]) -> Result<Task, AllocError>
    requires short { length code.now ≤ 64 }
    ensures valid { IfOk result IsValidTask }
{
    Ok(Task {
        code_at: 0x10_0000,
        data_at: 0x10_8000,
        code: Words::new(code.to_vec(alloc)?),
        data_len: 0,
        fuel: 64,
        out_max: 0,
        tape: Words::new(vec![in alloc; 9]?),
    })
}

/// That task admitted into slot 0.
fn admitted(alloc: Global, code: &[u32]) -> Result<Context, AllocError>
    requires short { length code.now ≤ 64 }
{
    let task = task_of(alloc, code)?;
    let body = Body::fresh(alloc, 0, &task)?;
    let words = slot_words(alloc)?;
    Ok(Context::admit(body, 0, words))
}

/// Whether what is held has room in its count.
fn can_count(hart: &Hart) -> bool
    ensures can { IsTrue result → CanCount hart.now.held }
{
    match hart.held() {
        None => true,
        Some(context) => context.body().count() < 1000,
    }
}

/// One step. Where the hart asks for a context it gets the one that is next.
fn step<R: Abort>(
    rt: &R,
    hart: &mut Hart,
    code: &[u32],
    next: Option<Context>,
    log: &mut Full,
) -> Did {
    assert!(rt; can_count(hart));
    assert!(rt; log.room() >= 12);
    match hart.step(code, log) {
        Did::Wants(QueueCall::Take) => {
            assert!(rt; log.room() >= 6);
            hart.answer_take(code, next, log);
            Did::Wants(QueueCall::Take)
        }
        did => did,
    }
}

/// So many steps of a hart that begins at this pc and takes the context, and what the last of them came to: each one before has run,
/// trapped or taken.
fn last_of<R: Abort>(
    rt: &R,
    code: &[u32],
    pc: u32,
    steps: usize,
    held: Option<Context>,
    log: &mut Full,
) -> Did {
    assert!(rt; pc % 4 == 0);
    let mut hart = Hart::boot(3, pc);
    let mut next = held;
    let mut last = Did::Ran;
    for number in 0..steps {
        assert!(rt;
            matches!(
                last,
                Did::Ran | Did::Trapped(_) | Did::Wants(QueueCall::Take)
            ),
            "{last:?} before step {number}"
        );
        last = step(rt, &mut hart, code, next.take(), log);
    }
    last
}

/// addi x1,x0,5; addi x2,x0,9; ecall
const TWO_REGISTERS: [u32; 3] = [0x0050_0093, 0x0090_0113, 0x0000_0073];

/// The first entry that isn't explained, once a kernel has taken that task and made so many steps.
fn first_unexplained<R: Abort + AllocGlobal>(
    rt: &R,
    code: &[u32],
    take: u32,
    steps: usize,
) -> Result<Option<Probe>, Fail> {
    let alloc = rt.alloc();
    let mut log = Full::new(alloc, 2000)?;
    let held = admitted(alloc, &TWO_REGISTERS)?;
    assert_eq!(rt;
        last_of(rt, code, take, steps, Some(held), &mut log),
        Did::Ran
    );
    for i in 0..log.len() {
        let probe = log.get(i).ok_or("no entry")?;
        if probe.why == Why::Unexplained {
            return Ok(Some(probe));
        }
    }
    Ok(None)
}

/// The save without the cleared ports has both registers in one port, one after the other. The kernel's own save is followed to its end.
#[test]
fn a_naive_save_mixes_two_registers(rt: HostRuntime) -> Result<(), Fail> {
    let alloc = rt.alloc();
    let naive = naive_code(alloc)?;
    let mixed = Probe {
        hart: 3,
        pc: 0x1008,
        latch: Latch::PortB,
        was: 5,
        now: 9,
        why: Why::Unexplained,
    };
    assert_eq!(rt;
        first_unexplained(&rt, naive.words.as_slice(), naive.take, 110)?,
        Some(mixed)
    );
    let kernel = kernel_code(alloc)?;
    assert_eq!(rt;
        first_unexplained(&rt, kernel.words.as_slice(), kernel.take, 200)?,
        None
    );
    Ok(())
}

/// lw x5,0x700(x0), which takes a context
const TAKE: u32 = 0x7000_2283;

/// lw x6,0x70c(x0), whose word of the tape is the task's
const TAPE: u32 = 0x70c0_2303;

/// addi x6,x0,0 and with 1, 7 and 8
const ZERO: u32 = 0x0000_0313;

const ONE: u32 = 0x0010_0313;

const SEVEN: u32 = 0x0070_0313;

const EIGHT: u32 = 0x0080_0313;

/// sw x6 to GIVE, OUT, EXIT, FAULT and ACK
const GIVE: u32 = 0x7060_2223;

const OUT: u32 = 0x7060_2423;

const EXIT: u32 = 0x7060_2a23;

const FAULT: u32 = 0x7060_2c23;

const ACK: u32 = 0x7060_2e23;

const STEPS: [(&[u32], Did); 32] = [
    // While nothing is held: TAKE, loads of TAPE, TAPE_LEFT and OUT_LEFT, stores to GIVE, EXIT and OUT, and to ACK.
    (&[TAKE], Did::Wants(QueueCall::Take)),
    (&[0x70c0_2383], Did::Wedged),
    (&[0x7100_2383], Did::Wedged),
    (&[0x7200_2383], Did::Wedged),
    (&[GIVE], Did::Wedged),
    (&[EXIT], Did::Wedged),
    (&[OUT], Did::Wedged),
    (&[ACK], Did::Ran),
    // A byte at ACK, and a word that is the task's.
    (&[0x7060_0e23], Did::Wedged),
    (&[TAKE, TAPE, ACK], Did::Wedged),
    // While a context is held: TAKE, a load of GIVE, TAPE at its end, TAPE_LEFT, and OUT without room.
    (&[TAKE, TAKE], Did::Wedged),
    (&[TAKE, 0x7040_2383], Did::Wedged),
    (&[TAKE, TAPE], Did::Ran),
    (&[TAKE, TAPE, TAPE], Did::Wedged),
    (&[TAKE, 0x7100_2383], Did::Ran),
    (&[TAKE, OUT], Did::Wedged),
    // GIVE as ready and as ended, of a task that goes on and of one that has ended.
    (&[TAKE, ZERO, GIVE], Did::Wants(QueueCall::GiveReady)),
    (&[TAKE, ONE, GIVE], Did::Wedged),
    (
        &[TAKE, TAPE, EXIT, ONE, GIVE],
        Did::Wants(QueueCall::GiveDone),
    ),
    (&[TAKE, TAPE, EXIT, ZERO, GIVE], Did::Wedged),
    (&[TAKE, TAPE, GIVE], Did::Wedged),
    // A second end; a code of an end that there isn't, and one that is the task's.
    (&[TAKE, TAPE, EXIT, EXIT], Did::Wedged),
    (&[TAKE, SEVEN, FAULT], Did::Ran),
    (&[TAKE, EIGHT, FAULT], Did::Wedged),
    (&[TAKE, TAPE, FAULT], Did::Wedged),
    (&[TAKE, SEVEN, FAULT, FAULT], Did::Wedged),
    // csrrw x7 from x6, of mepc and mscratch with a value of the task's, and of mhartid; csrrs x7 with x0, of mhartid and of 0x301.
    (&[TAKE, TAPE, 0x3413_13f3], Did::Wedged),
    (&[TAKE, TAPE, 0x3403_13f3], Did::Ran),
    (&[0xf143_13f3], Did::Wedged),
    (&[0xf140_23f3], Did::Ran),
    (&[0x3010_23f3], Did::Wedged),
    // MRET to user mode while nothing is held
    (&[0x3020_0073], Did::Wedged),
];

/// Words at 0x1000 that a hart executes in machine mode, and what the last of them comes to.
#[test]
fn machine_steps(rt: HostRuntime) -> Result<(), Fail> {
    let alloc = rt.alloc();
    for (code, wanted) in &STEPS {
        let mut log = Full::new(alloc, 60)?;
        let held = admitted(alloc, &TWO_REGISTERS)?;
        let last = last_of(&rt, code, 0x1000, code.len(), Some(held), &mut log);
        assert_eq!(rt; last, *wanted, "of {code:?}");
    }
    Ok(())
}

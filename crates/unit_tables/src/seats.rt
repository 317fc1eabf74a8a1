//! Seats of the lock on real threads.

ghost use Rattle.std.specs.Prelude.{◌≡◌, ◌≤◌};
ghost use Rattle.turn_lock.specs.Passes.{IsPassOf, pass_number};

use std::alloc::{AllocError, Global};
use std::process::Abort;
use std::sync::Wait;
use std::sync::atomic::{AtomicU64, Ordering};
use std::test::Fail;
use std::thread;
use std::thread::Threads;
use turn_lock::{Pass, Turned, Turns};

const ENTRIES: u64 = 1_000;

/// What a worker writes at an entry: which worker it is, and how often it wrote before.
#[derive(Clone, Copy)]
struct Line {
    worker: u64,
    count: u64,
}

#[derive(Drop)]
struct Lines(Vec<Line>);

impl Turned for Lines {
    type Frame = ();

    ghost use Rattle.std.specs.Prelude.{◌≡◌, length, vec_len};

    ghost stands = { λ lines _ order. vec_len lines.0 ≡ length order };
}

/// Makes all entries of a worker. With rests, the turn before each entry is put back.
fn make_entries<R: Wait>(
    rt: &R,
    lock: &Turns<Lines>,
    pass: Pass<Lines>,
    worker: u64,
    rests: bool,
) -> Pass<Lines>
    requires { IsPassOf lock.now pass }
    ensures lock { IsPassOf lock.now result }
    ensures number { pass_number result ≡ pass_number pass }
{
    let mut pass = pass;
    for count in 0..ENTRIES {
        if rests {
            let (lines, held) = lock.lift(rt, pass);
            pass = lock.put_back(lines, held);
        }
        let (Lines(mut lines), held) = lock.lift(rt, pass);
        pass = match lines.push(Line { worker, count }) {
            Ok(()) => lock.lay(Lines(lines), held),
            Err(_) => lock.put_back(Lines(lines), held),
        };
    }
    pass
}

/// The lines of a lock at its close, once the pass of each seat made all its entries in a thread.
fn lines_of<R: Threads + Wait + Sync>(
    rt: &R,
    alloc: Global,
    seats: u32,
    rests: bool,
) -> Result<Vec<Line>, AllocError>
    requires { (1 ≤ seats) × (seats ≤ 8) }
{
    let (lock, passes) = Turns::new(alloc, Lines(Vec::new(alloc)), (), seats)?;
    let workers = AtomicU64::new(0);
    let shared = &lock;
    let passes = thread::map_vec(
        rt,
        passes,
        &|pass: Pass<Lines>| -> Pass<Lines>
            requires { IsPassOf shared.now pass }
            ensures { IsPassOf shared.entry.now result × (pass_number result ≡ pass_number pass) }
        {
            let worker = workers.fetch_add(1, Ordering::SeqCst);
            make_entries(rt, shared, pass, worker, rests)
        },
    )?;
    let Lines(lines) = lock.close(passes);
    Ok(lines)
}

/// Each worker wrote all its lines, in its own order, and nobody else wrote one.
fn assert_complete(rt: &impl Abort, lines: &[Line], workers: u32) {
    let mut counts = [0_u64; 8];
    for line in lines {
        assert!(rt; line.worker < 8 && line.count < ENTRIES);
        let count = &mut counts[line.worker as usize];
        assert_eq!(rt; line.count, *count, "worker {}", line.worker);
        *count = line.count + 1;
    }
    for (worker, count) in counts.iter().enumerate() {
        let wanted = if (worker as u32) < workers {
            ENTRIES
        } else {
            0
        };
        assert_eq!(rt; *count, wanted, "worker {worker} of {workers}");
    }
}

/// How many seats there are, and whether each turn that makes an entry comes after one that is put back.
const ROUNDS: [(u32, bool); 6] = [
    (1, false),
    (2, false),
    (8, false),
    (1, true),
    (2, true),
    (8, true),
];

#[test]
fn every_seat_makes_its_entries_in_its_order(rt: HostRuntime) -> Result<(), Fail> {
    for (seats, rests) in ROUNDS {
        let lines = lines_of(&rt, rt.alloc(), seats, rests)?;
        assert_complete(&rt, &lines, seats);
    }
    Ok(())
}

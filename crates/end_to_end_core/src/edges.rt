//! Faults of the source and of the sink where harts run on threads.

use crate::harness::{text_of, words_of};
use io_edge::{FreeGate, MemSink, MemSource};
use kernel_cli::{msktask, status_number};
use std::process::Abort;
use std::sync::Wait;
use std::test::Fail;
use std::thread::Threads;

/// The first lines of a bundle with one slot.
const HEAD: (usize, &str) = (1, "bundle 1\nslots 1\n");

/// A task that puts out 42 and exits with it.
const TASK: (usize, &str) = (
    1,
    "task fuel 5 out 4 data 0\nwords 02a00513 00100893 00000073 00000893 00000073\nendtask\n",
);

/// The report of one hart that has run this task to its end.
const FINISHED: &str = "\
harts 1
order 0*5
task 0: exited 0000002a count 5
out 0: 0000002a
probes 1679 public 1602 value 74 step 3 unexplained 0
latches reg 165 portA 428 portB 181 res 411 load 150 store 171 scr 6 mem 167
";

/// Where there is one order alone, or a refusal: the words, the input, the number of the status and the text.
const RUNS: [(&[&str], &[(usize, &str)], u8, &str); 3] = [
    (&["run", "1"], &[HEAD, TASK], 0, FINISHED),
    (
        &["run", "2"],
        &[HEAD, (1, "plan 2 tail 1\n"), TASK],
        3,
        "plan for missing hart 2\n",
    ),
    (
        &["run", "8"],
        &[HEAD, TASK, (1, "order 0\nevents g0\n")],
        3,
        "line 7: misplaced\n",
    ),
];

/// Runs words over an input, where the source and the sink move one byte a call and fail at these calls: they have to end with this number and
/// write this text.
fn run_failing<R: Threads + Wait + Sync + Abort + AllocGlobal>(
    rt: &R,
    words: &[&str],
    input: &str,
    failing: (&[u64], &[u64]),
    number: u8,
    written: &str,
) -> Result<(), Fail> {
    let alloc = rt.alloc();
    let words = words_of(alloc, words)?;
    let mut src = MemSource::new(input.as_bytes().to_vec(alloc)?, 1, failing.0.to_vec(alloc)?);
    let mut sink = MemSink::new(alloc, 4096, 1, failing.1.to_vec(alloc)?)?;
    let status = msktask(rt, alloc, words.as_slice(), &mut src, &mut sink, &FreeGate);
    assert_eq!(rt; status_number(status), number, "{words:?}, {failing:?}");
    assert_eq!(rt;
        str::from_utf8(sink.bytes())?,
        written,
        "{words:?}, {failing:?}"
    );
    Ok(())
}

/// The source fails at each call in turn, of which the last tells the end, then the sink does, and then nothing does.
#[test]
fn failing_runs(rt: HostRuntime) -> Result<(), Fail> {
    for (words, parts, number, written) in &RUNS {
        let input = text_of(rt.alloc(), parts)?;
        for call in 0..=input.len() {
            run_failing(&rt, words, input.as_str(), (&[call as u64], &[]), 4, "")?;
        }
        for call in 0..written.len() {
            let front = str::from_utf8(&written.as_bytes()[..call])?;
            run_failing(&rt, words, input.as_str(), (&[], &[call as u64]), 5, front)?;
        }
        run_failing(&rt, words, input.as_str(), (&[], &[]), *number, written)?;
    }
    Ok(())
}

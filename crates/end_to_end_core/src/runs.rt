//! Harts on threads: reports where only one order can be made, reports against the replay of the order that they spell, and a gate that shows
//! that two harts run at once.

use crate::harness::{lines_of, output_of, text_of, words_of};
use io_edge::{FreeGate, Gate, MemSink, MemSource};
use kernel_cli::{msktask, status_number};
use std::process::Abort;
use std::sync::Wait;
use std::sync::atomic::{AtomicU64, Ordering};
use std::test::Fail;
use std::thread::{Threads, yield_now};

/// The first lines of bundles with one slot and with two.
const ONE_SLOT: (usize, &str) = (1, "bundle 1\nslots 1\n");

const TWO_SLOTS: (usize, &str) = (1, "bundle 1\nslots 2\n");

/// A task that puts out 42 and exits with it.
const TASK: (usize, &str) = (
    1,
    "task fuel 5 out 4 data 0\nwords 02a00513 00100893 00000073 00000893 00000073\nendtask\n",
);

/// Such a task with the most fuel, five times.
const LONG: (usize, &str) = (
    5,
    "task fuel 100000 out 4 data 0\nwords 02a00513 00100893 00000073 00000893 00000073\nendtask\n",
);

/// The words of such a task, after its fuel.
const REST: (usize, &str) = (
    1,
    " out 4 data 0\nwords 02a00513 00100893 00000073 00000893 00000073\nendtask\n",
);

/// The sink over which words have written their text of an input, on threads with this gate. They have to end with this number.
pub(crate) fn run_of<R: Threads + Wait + Sync + Abort + AllocGlobal, G: Gate>(
    rt: &R,
    words: &[&str],
    input: &str,
    gate: &G,
    number: u8,
) -> Result<MemSink, Fail> {
    let alloc = rt.alloc();
    let words = words_of(alloc, words)?;
    let mut src = MemSource::new(input.as_bytes().to_vec(alloc)?, 4096, Vec::new(alloc));
    let mut sink = MemSink::new(alloc, 65_536, 4096, Vec::new(alloc))?;
    let status = msktask(rt, alloc, words.as_slice(), &mut src, &mut sink, gate);
    assert_eq!(rt; status_number(status), number, "{words:?}, {input}");
    Ok(sink)
}

/// One hart makes one order. The words, the bundle, the status and the text.
const ONE_HART: [(&[&str], &[(usize, &str)], u8, &str); 6] = [
    (
        &["run", "1"],
        &[ONE_SLOT, TASK],
        0,
        "\
harts 1
order 0*5
task 0: exited 0000002a count 5
out 0: 0000002a
probes 1679 public 1602 value 74 step 3 unexplained 0
latches reg 165 portA 428 portB 181 res 411 load 150 store 171 scr 6 mem 167
",
    ),
    // Ticks before the first instruction, and then after each.
    (
        &["run", "1"],
        &[ONE_SLOT, (1, "plan 0 tail 1 quanta 0 0 0\n"), TASK],
        0,
        "\
harts 1
order 0*17
task 0: exited 0000002a count 5
out 0: 0000002a
probes 5987 public 5858 value 128 step 1 unexplained 0
latches reg 615 portA 1544 portB 619 res 1479 load 564 store 579 scr 24 mem 563
",
    ),
    (
        &["run", "1"],
        &[ONE_SLOT, TASK, TASK, TASK],
        0,
        "\
harts 1
order 0*13
task 0: exited 0000002a count 5
out 0: 0000002a
task 1: exited 0000002a count 5
out 1: 0000002a
task 2: exited 0000002a count 5
out 2: 0000002a
probes 5029 public 4798 value 222 step 9 unexplained 0
latches reg 493 portA 1282 portB 543 res 1231 load 448 store 513 scr 18 mem 501
",
    ),
    // Refusals of the bundle.
    (
        &["run", "1"],
        &[ONE_SLOT, (1, "plan 1 tail 5\n"), TASK],
        3,
        "plan for missing hart 1\n",
    ),
    (
        &["run", "7"],
        &[ONE_SLOT, LONG, (1, "task fuel 24279"), REST],
        3,
        "too long 1048577\n",
    ),
    (
        &["run", "1"],
        &[(1, "bundle 3\n")],
        3,
        "line 1: out of range\n",
    ),
];

#[test]
fn one_hart(rt: HostRuntime) -> Result<(), Fail> {
    for (words, parts, number, written) in &ONE_HART {
        let input = text_of(rt.alloc(), parts)?;
        let sink = run_of(&rt, words, input.as_str(), &FreeGate, *number)?;
        assert_eq!(&rt;
            str::from_utf8(sink.bytes())?,
            *written,
            "{words:?} of {input}"
        );
    }
    Ok(())
}

/// Several harts: the number of harts as a word, and the bundle.
const SEVERAL_HARTS: [(&str, &[(usize, &str)]); 4] = [
    ("2", &[TWO_SLOTS, TASK, TASK]),
    ("8", &[ONE_SLOT, LONG, (1, "task fuel 24278"), REST]),
    (
        "3",
        &[
            TWO_SLOTS,
            (1, "plan 1 tail 1 quanta 0 3\nplan 0 tail 2\n"),
            TASK,
            TASK,
            TASK,
        ],
    ),
    (
        "4",
        &[
            (1, "bundle 2\nslots 3\n"),
            (
                1,
                "task fuel 5 out 4 data 0 band 1\nwords 02a00513 00100893 00000073 00000893 00000073\nendtask\n",
            ),
            (
                1,
                "task fuel 5 out 4 data 0 band 0\nwords 02a00513 00100893 00000073 00000893 00000073\nendtask\n",
            ),
            (
                1,
                "task fuel 5 out 4 data 0 band 1\nwords 02a00513 00100893 00000073 00000893 00000073\nendtask\n",
            ),
        ],
    ),
];

/// The line that begins with this word.
pub(crate) fn line_with<'a>(text: &'a str, word: &str) -> &'a str {
    for line in text.lines() {
        if line.starts_with(word) {
            return line;
        }
    }
    ""
}

#[test]
fn reports_are_those_of_their_orders(rt: HostRuntime) -> Result<(), Fail> {
    let alloc = rt.alloc();
    for (harts, parts) in &SEVERAL_HARTS {
        let bundle = text_of(alloc, parts)?;
        let ran = run_of(&rt, &["run", *harts], bundle.as_str(), &FreeGate, 0)?;
        let report = str::from_utf8(ran.bytes())?;
        // Every task has ended, and the replay of the order that the report spells prints the same.
        assert!(&rt; !report.contains("slot"), "{report}");
        let order = line_with(report, "order ");
        let input = format!(in alloc; "{bundle}{order}\n")?;
        let again = output_of(&rt, &["replay", *harts], input.as_str(), 65_536, 0)?;
        assert_eq!(&rt; str::from_utf8(again.bytes())?, report, "{input}");
    }
    // The log of that order has as many entries as the report counts.
    let bundle = text_of(alloc, &[TWO_SLOTS, TASK, TASK])?;
    let ran = run_of(&rt, &["run", "2"], bundle.as_str(), &FreeGate, 0)?;
    let report = str::from_utf8(ran.bytes())?;
    let order = line_with(report, "order ");
    let input = format!(in alloc; "{bundle}{order}\n")?;
    let listed = output_of(
        &rt,
        &["replay", "2", "probes"],
        input.as_str(),
        1_000_000,
        0,
    )?;
    let entries = lines_of(listed.bytes()).saturating_sub(lines_of(ran.bytes()));
    let counted = format!(in alloc; "probes {entries} ")?;
    assert!(&rt;
        line_with(report, "probes ").starts_with(counted.as_str()),
        "{report}"
    );
    Ok(())
}

/// A gate that holds each of two harts at its second action until the other one has come to its own. It looks no more often than this, which
/// takes seconds, and lets other threads go on between.
#[derive(Drop)]
struct Meeting {
    arrivals: [AtomicU64; 2],
    late: AtomicU64,
}

const MOST_LOOKS: u32 = 10_000_000;

impl Gate for Meeting {
    fn before_action(&self, hart: u32, k: u32) {
        if k != 1 || hart > 1 {
            return;
        }
        let hart = hart as usize;
        self.arrivals[hart].fetch_add(1, Ordering::SeqCst);
        for _ in 0..MOST_LOOKS {
            if self.arrivals[1 - hart].load(Ordering::SeqCst) > 0 {
                return;
            }
            yield_now();
        }
        self.late.fetch_add(1, Ordering::SeqCst);
    }
}

/// Two harts hold a task each at once: neither keeps the board while it runs its task, and each has a thread of its own.
#[test]
fn two_harts_meet(rt: HostRuntime) -> Result<(), Fail> {
    let bundle = text_of(rt.alloc(), &[TWO_SLOTS, TASK, TASK])?;
    let gate = Meeting {
        arrivals: [AtomicU64::new(0), AtomicU64::new(0)],
        late: AtomicU64::new(0),
    };
    run_of(&rt, &["run", "2"], bundle.as_str(), &gate, 0)?;
    assert_eq!(&rt; gate.late.load(Ordering::SeqCst), 0);
    Ok(())
}

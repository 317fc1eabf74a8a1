//! The coarse run of a bundle's order under the plans of its harts: reports, logs and refusals, as an independent model of the machine
//! gives them.

use crate::harness::{ends_each, lines_of, output_of, text_of};
use std::test::Fail;

/// The first lines of a bundle with one slot.
const HEAD: (usize, &str) = (1, "bundle 1\nslots 1\n");

/// The first lines of a bundle with two slots.
const TWO: (usize, &str) = (1, "bundle 1\nslots 2\n");

/// A task that puts out 42 and exits with it.
const TASK: (usize, &str) = (
    1,
    "task fuel 5 out 4 data 0\nwords 02a00513 00100893 00000073 00000893 00000073\nendtask\n",
);

/// The body of a task that jumps to itself.
const TURN: (usize, &str) = (1, " out 0 data 0\nwords 0000006f\nendtask\n");

/// The plans of two harts.
const TWO_PLANS: (usize, &str) = (1, "plan 1 tail 1 quanta 0 3\nplan 0 tail 2\n");

/// An order of both that leads two such tasks to their end.
const TO_THE_END: (usize, &str) = (1, "order 0 1 0 1*2 0*4 1*2 0*2 1*2 0 1*2\n");

/// A task that yields by the last instruction that its fuel allows.
const YIELD: (usize, &str) = (
    1,
    "task fuel 2 out 0 data 0\nwords 00300893 00000073\nendtask\n",
);

/// A task of the most fuel.
const LONG: (usize, &str) = (
    1,
    "task fuel 100000 out 4 data 0\nwords 02a00513 00100893 00000073 00000893 00000073\nendtask\n",
);

/// The report of one hart that has run this task to its end.
const FINISHED: &str = "\
harts 1
order 0*5
task 0: exited 0000002a count 5
out 0: 0000002a
probes 1679 public 1602 value 74 step 3 unexplained 0
latches reg 165 portA 428 portB 181 res 411 load 150 store 171 scr 6 mem 167
";

/// The report of two harts that have run two tasks to their end.
const BOTH_FINISHED: &str = "\
harts 2
order 0 1 0 1*2 0*4 1*2 0*2 1*2 0 1*2
task 0: exited 0000002a count 5
out 0: 0000002a
task 1: exited 0000002a count 5
out 1: 0000002a
probes 6230 public 6016 value 208 step 6 unexplained 0
latches reg 630 portA 1600 portB 654 res 1534 load 576 store 614 scr 24 mem 598
";

/// The report of a hart that has done nothing.
const UNTOUCHED: &str = "\
harts 1
order
task 0: slot 0 count 0
out 0:
probes 0 public 0 value 0 step 0 unexplained 0
latches reg 0 portA 0 portB 0 res 0 load 0 store 0 scr 0 mem 0
";

/// One hart: the words, the bundle, and the report.
const ONE_HART: [(&[&str], &[(usize, &str)], &str); 19] = [
    (&["replay", "1"], &[HEAD, TASK], UNTOUCHED),
    (&["replay", "1"], &[HEAD, TASK, (1, "order\n")], UNTOUCHED),
    (
        &["replay", "1"],
        &[HEAD, TASK, (1, "order 0\n")],
        "\
harts 1
order 0
task 0: hart 0 slot 0 count 0
out 0:
probes 4 public 4 value 0 step 0 unexplained 0
latches reg 1 portA 1 portB 0 res 1 load 1 store 0 scr 0 mem 0
",
    ),
    (
        &["replay", "1"],
        &[HEAD, TASK, (1, "order 0*2\n")],
        "\
harts 1
order 0*2
task 0: slot 0 count 3
out 0: 0000002a
probes 765 public 729 value 34 step 2 unexplained 0
latches reg 83 portA 200 portB 76 res 190 load 75 store 70 scr 3 mem 68
",
    ),
    // To its end; the same by several lines, beside events, and under plans whose ticks come too late.
    (
        &["replay", "1"],
        &[HEAD, TASK, (1, "order 0*5\n")],
        FINISHED,
    ),
    (
        &["replay", "1"],
        &[
            HEAD,
            TASK,
            (1, "events g0*78 t0 g1\norder 0*2\norder 0 0*2\n"),
        ],
        FINISHED,
    ),
    (
        &["replay", "1"],
        &[HEAD, (1, "plan 0 tail 5\n"), TASK, (1, "order 0*5\n")],
        FINISHED,
    ),
    (
        &["replay", "1"],
        &[
            HEAD,
            (1, "plan 0 tail 1 quanta 3 2\n"),
            TASK,
            (1, "order 0*5\n"),
        ],
        FINISHED,
    ),
    // A script has nothing of the order.
    (
        &["script"],
        &[HEAD, TASK, (1, "events g0*435\norder 0*2 7 1\n")],
        "\
harts 8
order 0*5
task 0: exited 0000002a count 5
out 0: 0000002a
probes 1679 public 1602 value 74 step 3 unexplained 0
latches reg 165 portA 428 portB 181 res 411 load 150 store 171 scr 6 mem 167
",
    ),
    // Ticks before the first instruction, and then after each.
    (
        &["replay", "1"],
        &[
            HEAD,
            (1, "plan 0 tail 1 quanta 0 0 0\n"),
            TASK,
            (1, "order 0*17\n"),
        ],
        "\
harts 1
order 0*17
task 0: exited 0000002a count 5
out 0: 0000002a
probes 5987 public 5858 value 128 step 1 unexplained 0
latches reg 615 portA 1544 portB 619 res 1479 load 564 store 579 scr 24 mem 563
",
    ),
    (
        &["replay", "1"],
        &[
            HEAD,
            (1, "plan 0 tail 1 quanta 0 0 0\n"),
            TASK,
            (1, "order 0*8\n"),
        ],
        "\
harts 1
order 0*8
task 0: slot 0 count 1
out 0:
probes 2875 public 2864 value 11 step 0 unexplained 0
latches reg 301 portA 745 portB 292 res 713 load 276 store 272 scr 12 mem 264
",
    ),
    (
        &["replay", "1"],
        &[
            HEAD,
            (1, "plan 0 tail 4 quanta 2 0 1\n"),
            TASK,
            (1, "order 0*9\n"),
        ],
        "\
harts 1
order 0*9
task 0: exited 0000002a count 5
out 0: 0000002a
probes 3115 public 2998 value 114 step 3 unexplained 0
latches reg 315 portA 800 portB 327 res 767 load 288 store 307 scr 12 mem 299
",
    ),
    (
        &["replay", "1"],
        &[HEAD, TASK, TASK, TASK, (1, "order 0*13\n")],
        "\
harts 1
order 0*13
task 0: exited 0000002a count 5
out 0: 0000002a
task 1: exited 0000002a count 5
out 1: 0000002a
task 2: exited 0000002a count 5
out 2: 0000002a
probes 5029 public 4798 value 222 step 9 unexplained 0
latches reg 493 portA 1282 portB 543 res 1231 load 448 store 513 scr 18 mem 501
",
    ),
    // No tick is due where the fuel is used: the next task isn't preempted by it.
    (
        &["replay", "1"],
        &[
            HEAD,
            (1, "plan 0 tail 5\n"),
            (1, "task fuel 5"),
            TURN,
            (1, "order 0*3\n"),
        ],
        "\
harts 1
order 0*3
task 0: out-of-steps count 5
out 0:
probes 886 public 880 value 2 step 4 unexplained 0
latches reg 77 portA 219 portB 104 res 217 load 70 store 99 scr 3 mem 97
",
    ),
    (
        &["replay", "1"],
        &[
            TWO,
            (1, "plan 0 tail 5\n"),
            (1, "task fuel 5"),
            TURN,
            (1, "task fuel 5"),
            TURN,
            (1, "order 0*5\n"),
        ],
        "\
harts 1
order 0*5
task 0: out-of-steps count 5
out 0:
task 1: out-of-steps count 5
out 1:
probes 1768 public 1756 value 4 step 8 unexplained 0
latches reg 153 portA 437 portB 208 res 433 load 139 store 198 scr 6 mem 194
",
    ),
    (
        &["replay", "1"],
        &[
            TWO,
            (1, "plan 0 tail 5\n"),
            (1, "task fuel 6"),
            TURN,
            (1, "task fuel 5"),
            TURN,
            (1, "order 0*7\n"),
        ],
        "\
harts 1
order 0*7
task 0: out-of-steps count 6
out 0:
task 1: out-of-steps count 5
out 1:
probes 2487 public 2473 value 6 step 8 unexplained 0
latches reg 228 portA 623 portB 281 res 612 load 208 store 266 scr 9 mem 260
",
    ),
    (
        &["replay", "1"],
        &[
            HEAD,
            (1, "plan 0 tail 9 quanta 2 0\n"),
            YIELD,
            YIELD,
            (1, "order 0*9\n"),
        ],
        "\
harts 1
order 0*9
task 0: out-of-steps count 2
out 0:
task 1: out-of-steps count 2
out 1:
probes 3252 public 3184 value 68 step 0 unexplained 0
latches reg 315 portA 829 portB 358 res 793 load 283 store 334 scr 12 mem 328
",
    ),
    // A hart without a plan has a tick due after 4,096 instructions.
    (
        &["replay", "1"],
        &[HEAD, (1, "task fuel 4096"), TURN, (1, "order 0*3\n")],
        "\
harts 1
order 0*3
task 0: out-of-steps count 4096
out 0:
probes 4977 public 880 value 2 step 4095 unexplained 0
latches reg 77 portA 219 portB 104 res 4308 load 70 store 99 scr 3 mem 97
",
    ),
    (
        &["replay", "1"],
        &[HEAD, (1, "task fuel 4097"), TURN, (1, "order 0*5\n")],
        "\
harts 1
order 0*5
task 0: out-of-steps count 4097
out 0:
probes 5696 public 1597 value 4 step 4095 unexplained 0
latches reg 152 portA 405 portB 177 res 4487 load 139 store 167 scr 6 mem 163
",
    ),
];

/// Several harts.
const SEVERAL_HARTS: [(&[&str], &[(usize, &str)], &str); 7] = [
    // A hart that takes the one task, and one that finds nothing.
    (
        &["replay", "8"],
        &[HEAD, TASK, (1, "order 7 0\n")],
        "\
harts 8
order 7 0
task 0: hart 7 slot 0 count 0
out 0:
probes 8 public 8 value 0 step 0 unexplained 0
latches reg 2 portA 2 portB 0 res 2 load 2 store 0 scr 0 mem 0
",
    ),
    (
        &["replay", "2"],
        &[HEAD, TASK, (1, "order 0 1 0*4\n")],
        "\
harts 2
order 0 1 0*4
task 0: exited 0000002a count 5
out 0: 0000002a
probes 1683 public 1606 value 74 step 3 unexplained 0
latches reg 166 portA 429 portB 181 res 412 load 151 store 171 scr 6 mem 167
",
    ),
    (
        &["replay", "2"],
        &[HEAD, TASK, (1, "order 0*2 1*3 0\n")],
        "\
harts 2
order 0*2 1*3 0
task 0: exited 0000002a count 5
out 0: 0000002a
probes 1683 public 1606 value 74 step 3 unexplained 0
latches reg 166 portA 429 portB 181 res 412 load 151 store 171 scr 6 mem 167
",
    ),
    // Two that are preempted, each of which then takes the task of the other.
    (
        &["replay", "2"],
        &[
            TWO,
            (1, "plan 0 tail 2\nplan 1 tail 3 quanta 2\n"),
            TASK,
            TASK,
            (1, "order 0 1 0 1*2 0\n"),
        ],
        "\
harts 2
order 0 1 0 1*2 0
task 0: hart 1 slot 0 count 2
out 0:
task 1: hart 0 slot 1 count 2
out 1:
probes 1456 public 1416 value 36 step 4 unexplained 0
latches reg 156 portA 378 portB 146 res 362 load 140 store 136 scr 6 mem 132
",
    ),
    (
        &["replay", "2"],
        &[TWO, TWO_PLANS, TASK, TASK, TO_THE_END],
        BOTH_FINISHED,
    ),
    (
        &["replay", "3"],
        &[
            TWO,
            (1, "plan 2 tail 1\n"),
            TASK,
            TASK,
            TASK,
            (1, "order 2 1 0 2*3 1*2 2*4\n"),
        ],
        "\
harts 3
order 2 1 0 2*3 1*2 2*4
task 0: hart 1 slot 0 count 2
out 0:
task 1: exited 0000002a count 5
out 1: 0000002a
task 2: slot 1 count 0
out 2:
probes 3842 public 3713 value 126 step 3 unexplained 0
latches reg 393 portA 989 portB 400 res 947 load 358 store 375 scr 15 mem 365
",
    ),
    // A plan of a hart that has no entry.
    (
        &["replay", "2"],
        &[HEAD, (1, "plan 1 tail 5\n"), TASK, (1, "order 0*5\n")],
        "\
harts 2
order 0*5
task 0: exited 0000002a count 5
out 0: 0000002a
probes 1679 public 1602 value 74 step 3 unexplained 0
latches reg 165 portA 428 portB 181 res 411 load 150 store 171 scr 6 mem 167
",
    ),
];

/// What is refused, with the number of the status.
const REFUSED: [(&[&str], &[(usize, &str)], &str); 16] = [
    // A hart that stands again after it has found nothing, at the first such place.
    (
        &["replay", "1"],
        &[HEAD, TASK, (1, "order 0*6\n")],
        "order 5: bad\n",
    ),
    (
        &["replay", "1"],
        &[HEAD, TASK, (1, "order 0*1048576\n")],
        "order 5: bad\n",
    ),
    (
        &["replay", "1", "probes"],
        &[HEAD, TASK, (1, "order 0*6\n")],
        "order 5: bad\n",
    ),
    (
        &["replay", "1"],
        &[
            HEAD,
            (1, "plan 0 tail 1 quanta 0 0 0\n"),
            TASK,
            (1, "order 0*18\n"),
        ],
        "order 17: bad\n",
    ),
    (
        &["replay", "1"],
        &[HEAD, TASK, TASK, TASK, (1, "order 0*14\n")],
        "order 13: bad\n",
    ),
    (
        &["replay", "2"],
        &[HEAD, TASK, (1, "order 0 1*2 0*4\n")],
        "order 2: bad\n",
    ),
    (
        &["replay", "2"],
        &[HEAD, TASK, (1, "order 0 1\norder 0 1 0*3 7\n")],
        "order 3: bad\n",
    ),
    (
        &["replay", "8"],
        &[HEAD, TASK, (1, "order 7 0 7*4 1 2 3 4 5 6 0\n")],
        "order 12: bad\n",
    ),
    // A hart that there isn't.
    (
        &["replay", "1"],
        &[HEAD, TASK, (1, "order 1\n")],
        "order 0: bad\n",
    ),
    (
        &["replay", "1"],
        &[HEAD, TASK, (1, "order 0 1 0*4\n")],
        "order 1: bad\n",
    ),
    (
        &["replay", "2"],
        &[TWO, TASK, TASK, (1, "order 0 1 0 2*2 7\n")],
        "order 3: bad\n",
    ),
    (
        &["replay", "7", "probes"],
        &[TWO, TASK, TASK, (1, "order 6 5*2 7 6\n")],
        "order 3: bad\n",
    ),
    // The bundle is loaded for as many harts as the command says.
    (
        &["replay", "1"],
        &[HEAD, (1, "plan 1 tail 5\n"), TASK, (1, "order 1\n")],
        "plan for missing hart 1\n",
    ),
    (
        &["replay", "7"],
        &[
            HEAD,
            (1, "plan 6 tail 5\nplan 7 tail 5\nplan 0 tail 5\n"),
            TASK,
        ],
        "plan for missing hart 7\n",
    ),
    (
        &["replay", "7"],
        &[
            HEAD,
            LONG,
            LONG,
            LONG,
            LONG,
            LONG,
            (1, "task fuel 24279"),
            TURN,
            (1, "order 7\n"),
        ],
        "too long 1048577\n",
    ),
    (
        &["replay", "1"],
        &[
            HEAD,
            (1, "plan 1 tail 5\n"),
            LONG,
            LONG,
            LONG,
            LONG,
            LONG,
            (1, "task fuel 24283"),
            TURN,
        ],
        "plan for missing hart 1\n",
    ),
];

/// The most that loads for so many harts.
const LOADED: [(&[&str], &[(usize, &str)], &str); 2] = [
    (
        &["replay", "8"],
        &[
            HEAD,
            LONG,
            LONG,
            LONG,
            LONG,
            LONG,
            (1, "task fuel 24278"),
            TURN,
        ],
        "\
harts 8
order
task 0: slot 0 count 0
out 0:
task 1: waiting count 0
out 1:
task 2: waiting count 0
out 2:
task 3: waiting count 0
out 3:
task 4: waiting count 0
out 4:
task 5: waiting count 0
out 5:
probes 0 public 0 value 0 step 0 unexplained 0
latches reg 0 portA 0 portB 0 res 0 load 0 store 0 scr 0 mem 0
",
    ),
    (
        &["replay", "6"],
        &[
            HEAD,
            LONG,
            LONG,
            LONG,
            LONG,
            LONG,
            (1, "task fuel 24279"),
            TURN,
            (1, "order 5\n"),
        ],
        "\
harts 6
order 5
task 0: hart 5 slot 0 count 0
out 0:
task 1: waiting count 0
out 1:
task 2: waiting count 0
out 2:
task 3: waiting count 0
out 3:
task 4: waiting count 0
out 4:
task 5: waiting count 0
out 5:
probes 4 public 4 value 0 step 0 unexplained 0
latches reg 1 portA 1 portB 0 res 1 load 1 store 0 scr 0 mem 0
",
    ),
];

#[test]
fn orders(rt: HostRuntime) -> Result<(), Fail> {
    ends_each(&rt, 0, &ONE_HART)?;
    ends_each(&rt, 0, &SEVERAL_HARTS)
}

#[test]
fn refusals(rt: HostRuntime) -> Result<(), Fail> {
    ends_each(&rt, 3, &REFUSED)?;
    ends_each(&rt, 0, &LOADED)
}

/// The takes of two harts: every entry.
const TWO_TAKES: &str = "\
0 00001324 portA 00000000 00000000 public
0 00001324 res 00000000 00000700 public
0 00001324 load 00000000 00000200 public
0 00001324 x5 00000000 00000200 public
1 00001324 portA 00000000 00000000 public
1 00001324 res 00000000 00000700 public
1 00001324 load 00000000 000002a0 public
1 00001324 x5 00000000 000002a0 public
";

/// The report of these.
const TWO_TAKES_REPORT: &str = "\
harts 2
order 0 1
task 0: hart 0 slot 0 count 0
out 0:
task 1: hart 1 slot 1 count 0
out 1:
probes 8 public 8 value 0 step 0 unexplained 0
latches reg 2 portA 2 portB 0 res 2 load 2 store 0 scr 0 mem 0
";

/// Three long tasks that multiply over and over.
const PRODUCTS: (usize, &str) = (
    3,
    "task fuel 100000 out 0 data 0\nwords 025282b3 ffdff06f\nendtask\n",
);

/// The log has a line an entry, and the report of two tasks has eight.
#[test]
fn logs(rt: HostRuntime) -> Result<(), Fail> {
    let alloc = rt.alloc();
    let words = &["replay", "2", "probes"];
    let input = text_of(alloc, &[TWO, TASK, TASK, (1, "order 0 1\n")])?;
    let sink = output_of(&rt, words, input.as_str(), 4096, 0)?;
    let written = text_of(alloc, &[(1, TWO_TAKES), (1, TWO_TAKES_REPORT)])?;
    assert_eq!(rt; str::from_utf8(sink.bytes())?, written.as_str());

    let input = text_of(alloc, &[TWO, TWO_PLANS, TASK, TASK, TO_THE_END])?;
    let sink = output_of(&rt, words, input.as_str(), 1_048_576, 0)?;
    assert!(rt; sink.bytes().starts_with(TWO_TAKES.as_bytes()));
    assert!(rt; sink.bytes().ends_with(BOTH_FINISHED.as_bytes()));
    assert_eq!(rt; lines_of(sink.bytes()), 6230 + 8);
    Ok(())
}

/// A log that has no room for another event is full, where the run comes to it before it comes to a hart that there isn't.
#[test]
fn full_logs(rt: HostRuntime) -> Result<(), Fail> {
    let alloc = rt.alloc();
    let words = &["replay", "1", "probes"];
    let input = text_of(
        alloc,
        &[
            HEAD,
            PRODUCTS,
            (1, "task fuel 38333"),
            TURN,
            (1, "order 0*170\n"),
        ],
    )?;
    let sink = output_of(&rt, words, input.as_str(), 100_000_000, 0)?;
    assert_eq!(rt; lines_of(sink.bytes()), 999_998 + 12);
    let input = text_of(
        alloc,
        &[
            HEAD,
            PRODUCTS,
            (1, "task fuel 38334"),
            TURN,
            (1, "order 0*170 1\n"),
        ],
    )?;
    let sink = output_of(&rt, words, input.as_str(), 4096, 7)?;
    assert_eq!(rt; sink.bytes(), b"log full\n".as_slice());
    Ok(())
}

//! Tasks in two bands, of which band 0 goes first: reports, as an independent model of the machine gives them.

use crate::harness::ends_each;
use std::test::Fail;

/// The first lines of a bundle with three slots.
const THREE: (usize, &str) = (1, "bundle 1\nslots 3\n");

/// The first lines of a bundle with three slots whose tasks have bands.
const BANDS: (usize, &str) = (1, "bundle 2\nslots 3\n");

/// The first lines of a bundle with two slots whose tasks have bands.
const TWO_BANDS: (usize, &str) = (1, "bundle 2\nslots 2\n");

/// A task that puts out 42 and exits with it.
const TASK: (usize, &str) = (
    1,
    "task fuel 5 out 4 data 0\nwords 02a00513 00100893 00000073 00000893 00000073\nendtask\n",
);

/// A task of band 0 that puts out 42 and exits with it.
const FIRST: (usize, &str) = (
    1,
    "task fuel 5 out 4 data 0 band 0\nwords 02a00513 00100893 00000073 00000893 00000073\nendtask\n",
);

/// The same task in band 1.
const LAST: (usize, &str) = (
    1,
    "task fuel 5 out 4 data 0 band 1\nwords 02a00513 00100893 00000073 00000893 00000073\nendtask\n",
);

/// The report of three tasks that are taken in turn.
const IN_TURN: &str = "\
harts 1
order 0*4
task 0: slot 0 count 3
out 0: 0000002a
task 1: slot 1 count 3
out 1: 0000002a
task 2: slot 2 count 0
out 2:
probes 1530 public 1458 value 68 step 4 unexplained 0
latches reg 166 portA 400 portB 152 res 380 load 150 store 140 scr 6 mem 136
";

/// Two bands, by orders and by the events that these stand for.
const BANDED: [(&[&str], &[(usize, &str)], &str); 14] = [
    (
        &["replay", "1"],
        &[BANDS, LAST, FIRST, LAST, (1, "order 0*2\n")],
        "\
harts 1
order 0*2
task 0: slot 0 count 0
out 0:
task 1: slot 1 count 3
out 1: 0000002a
task 2: slot 2 count 0
out 2:
probes 765 public 729 value 34 step 2 unexplained 0
latches reg 83 portA 200 portB 76 res 190 load 75 store 70 scr 3 mem 68
",
    ),
    (
        &["replay", "1"],
        &[BANDS, LAST, FIRST, LAST, (1, "order 0*4\n")],
        "\
harts 1
order 0*4
task 0: slot 0 count 0
out 0:
task 1: exited 0000002a count 5
out 1: 0000002a
task 2: slot 2 count 0
out 2:
probes 1674 public 1597 value 74 step 3 unexplained 0
latches reg 164 portA 427 portB 181 res 409 load 149 store 171 scr 6 mem 167
",
    ),
    (
        &["replay", "1"],
        &[THREE, TASK, TASK, TASK, (1, "order 0*4\n")],
        IN_TURN,
    ),
    (
        &["script"],
        &[BANDS, LAST, FIRST, LAST, (1, "events g0 g0*202\n")],
        "\
harts 8
order 0*2
task 0: slot 0 count 0
out 0:
task 1: slot 1 count 3
out 1: 0000002a
task 2: slot 2 count 0
out 2:
probes 765 public 729 value 34 step 2 unexplained 0
latches reg 83 portA 200 portB 76 res 190 load 75 store 70 scr 3 mem 68
",
    ),
    (
        &["script"],
        &[
            BANDS,
            LAST,
            FIRST,
            LAST,
            (1, "events g0 g0*202 g0 g0*229\n"),
        ],
        "\
harts 8
order 0*4
task 0: slot 0 count 0
out 0:
task 1: exited 0000002a count 5
out 1: 0000002a
task 2: slot 2 count 0
out 2:
probes 1674 public 1597 value 74 step 3 unexplained 0
latches reg 164 portA 427 portB 181 res 409 load 149 store 171 scr 6 mem 167
",
    ),
    (
        &["script"],
        &[THREE, TASK, TASK, TASK, (1, "events g0 g0*202 g0 g0*202\n")],
        "\
harts 8
order 0*4
task 0: slot 0 count 3
out 0: 0000002a
task 1: slot 1 count 3
out 1: 0000002a
task 2: slot 2 count 0
out 2:
probes 1530 public 1458 value 68 step 4 unexplained 0
latches reg 166 portA 400 portB 152 res 380 load 150 store 140 scr 6 mem 136
",
    ),
    // To the end: the order is as long as without bands.
    (
        &["replay", "1"],
        &[BANDS, LAST, FIRST, LAST, (1, "order 0*13\n")],
        "\
harts 1
order 0*13
task 0: exited 0000002a count 5
out 0: 0000002a
task 1: exited 0000002a count 5
out 1: 0000002a
task 2: exited 0000002a count 5
out 2: 0000002a
probes 5029 public 4798 value 222 step 9 unexplained 0
latches reg 493 portA 1282 portB 543 res 1231 load 448 store 513 scr 18 mem 501
",
    ),
    // Two of band 0 in turn, and the one of band 1 stands.
    (
        &["replay", "1"],
        &[
            BANDS,
            (1, "plan 0 tail 1\n"),
            FIRST,
            LAST,
            FIRST,
            (1, "order 0*9\n"),
        ],
        "\
harts 1
order 0*9
task 0: hart 0 slot 0 count 2
out 0:
task 1: slot 1 count 0
out 1:
task 2: slot 2 count 2
out 2:
probes 2888 public 2824 value 64 step 0 unexplained 0
latches reg 305 portA 749 portB 292 res 717 load 277 store 272 scr 12 mem 264
",
    ),
    // Another hart takes what band 1 has once band 0 is empty.
    (
        &["replay", "3"],
        &[BANDS, LAST, FIRST, LAST, (1, "order 2 0 1\n")],
        "\
harts 3
order 2 0 1
task 0: hart 0 slot 0 count 0
out 0:
task 1: hart 2 slot 1 count 0
out 1:
task 2: hart 1 slot 2 count 0
out 2:
probes 12 public 12 value 0 step 0 unexplained 0
latches reg 3 portA 3 portB 0 res 3 load 3 store 0 scr 0 mem 0
",
    ),
    // A slot that is free goes to the first that waits, and it stands in its own band.
    (
        &["replay", "1"],
        &[TWO_BANDS, LAST, LAST, FIRST, LAST, (1, "order 0*5\n")],
        "\
harts 1
order 0*5
task 0: hart 0 slot 0 count 3
out 0: 0000002a
task 1: slot 1 count 3
out 1: 0000002a
task 2: waiting count 0
out 2:
task 3: waiting count 0
out 3:
probes 1534 public 1462 value 68 step 4 unexplained 0
latches reg 167 portA 401 portB 152 res 381 load 151 store 140 scr 6 mem 136
",
    ),
    (
        &["replay", "1"],
        &[TWO_BANDS, LAST, LAST, FIRST, LAST, (1, "order 0*7\n")],
        "\
harts 1
order 0*7
task 0: exited 0000002a count 5
out 0: 0000002a
task 1: slot 1 count 3
out 1: 0000002a
task 2: hart 0 slot 0 count 0
out 2:
task 3: waiting count 0
out 3:
probes 2444 public 2331 value 108 step 5 unexplained 0
latches reg 248 portA 628 portB 257 res 601 load 225 store 241 scr 9 mem 235
",
    ),
    (
        &["replay", "1"],
        &[TWO_BANDS, FIRST, LAST, LAST, FIRST, (1, "order 0*6\n")],
        "\
harts 1
order 0*6
task 0: exited 0000002a count 5
out 0: 0000002a
task 1: slot 1 count 3
out 1: 0000002a
task 2: slot 0 count 0
out 2:
task 3: waiting count 0
out 3:
probes 2440 public 2327 value 108 step 5 unexplained 0
latches reg 247 portA 627 portB 257 res 600 load 224 store 241 scr 9 mem 235
",
    ),
    // All of band 1, or of band 0, are as without bands.
    (
        &["replay", "1"],
        &[BANDS, LAST, LAST, LAST, (1, "order 0*4\n")],
        IN_TURN,
    ),
    (
        &["replay", "1"],
        &[BANDS, FIRST, FIRST, FIRST, (1, "order 0*4\n")],
        IN_TURN,
    ),
];

#[test]
fn bands(rt: HostRuntime) -> Result<(), Fail> {
    ends_each(&rt, 0, &BANDED)
}

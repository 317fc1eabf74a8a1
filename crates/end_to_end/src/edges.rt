//! The words of the command line, and faults of the source and the sink.

use crate::harness::{Edge, FORTY_TWO, FORTY_TWO_REPORT, SOUND, runs, text_of};
use std::process::Abort;
use std::test::Fail;

/// Words that are no command.
const NO_COMMANDS: [&[&str]; 55] = [
    &[],
    &[""],
    &["ALONE"],
    &["alone "],
    &["alone", "x"],
    &["asm", ""],
    &["script", "probe"],
    &["script", "probes", "probes"],
    &["explain", "probes"],
    &["replay"],
    &["replay", "probes"],
    &["replay", "0"],
    &["replay", "9"],
    &["replay", "10"],
    &["replay", "01"],
    &["replay", "-1"],
    &["replay", "0x1"],
    &["replay", ""],
    &["replay", "1", ""],
    &["replay", "1", "probe"],
    &["replay", "1", "Probes"],
    &["replay", "probes", "1"],
    &["replay", "1", "1"],
    &["replay", "1", "probes", "x"],
    &["replay", "1", "probes", "probes"],
    &["Replay", "1"],
    &["script", "1"],
    &["replay 1"],
    &["--help"],
    &["certify", "1"],
    &["certify", "02"],
    &["certify", "2", "2"],
    &["run", "9"],
    &["gen", "7", "33"],
    &["gen"],
    &["gen", "1"],
    &["gen", "1", "1", "1"],
    &["gen", "x", "1"],
    &["gen", "1", "x"],
    &["gen", "", "1"],
    &["gen", "1", ""],
    &["gen", "1", "0"],
    &["gen", "1", "00"],
    &["gen", "1", "001"],
    &["gen", "1", "100"],
    &["gen", "+1", "1"],
    &["gen", "1", "+1"],
    &["gen", "-1", "1"],
    &["gen", "0x1", "1"],
    &["gen", "1 ", "1"],
    &["gen", "18446744073709551616", "1"],
    &["gen", "99999999999999999999", "1"],
    &["gen", "000000000000000000001", "1"],
    &["Gen", "1", "1"],
    &["gen", "1", "probes"],
];

#[test]
fn words_and_edges(rt: HostRuntime) -> Result<(), Fail> {
    let input = FORTY_TWO.as_bytes();
    // Words are refused before the source is touched, even where that can't be written.
    for words in &NO_COMMANDS {
        runs(&rt, words, input, SOUND, 2, "bad words\n", input.len())?;
    }
    let edge = Edge {
        per_write: 1,
        failing_writes: &[3],
        ..SOUND
    };
    runs(&rt, &["ALONE"], input, edge, 5, "bad", input.len())?;

    // The source fails at each call in turn, of which the last tells the end.
    for call in 0..=input.len() {
        let edge = Edge {
            per_read: 1,
            failing_reads: &[call as u64],
            ..SOUND
        };
        runs(&rt, &["alone"], input, edge, 4, "", input.len() - call)?;
    }

    // The sink fails at each call in turn.
    for call in 0..FORTY_TWO_REPORT.len() {
        let edge = Edge {
            per_write: 1,
            failing_writes: &[call as u64],
            ..SOUND
        };
        runs(
            &rt,
            &["alone"],
            input,
            edge,
            5,
            str::from_utf8(&FORTY_TWO_REPORT.as_bytes()[..call])?,
            0,
        )?;
    }
    let edge = Edge {
        per_write: 7,
        failing_writes: &[1],
        ..SOUND
    };
    runs(&rt, &["alone"], input, edge, 5, "task 0:", 0)
}

/// The listing of that task.
const LISTING: &str = "\
task 0
00100000 1305a002 addi x10,x0,42
00100004 93081000 addi x17,x0,1
00100008 73000000 ecall
0010000c 93080000 addi x17,x0,0
00100010 73000000 ecall
";

/// What a core of it is like once a hart has taken it, after the first line.
const TAKEN: &str = "\
order 0
task 0: hart 0 slot 0 count 0
out 0:
probes 4 public 4 value 0 step 0 unexplained 0
latches reg 1 portA 1 portB 0 res 1 load 1 store 0 scr 0 mem 0
";

/// The entries of that.
const ENTRIES: &str = "\
0 00001324 portA 00000000 00000000 public
0 00001324 res 00000000 00000700 public
0 00001324 load 00000000 00000200 public
0 00001324 x5 00000000 00000200 public
";

/// Two words of the tape, one over the other, in the worlds of a secret of which they are the shares.
const SHARES: &str = "\
bundle 1
slots 1
task fuel 5 out 4 data 0
code
addi x17,x0,2
ecall
ecall
addi x17,x0,0
ecall
endcode
endtask
world 0 0 0
world 0 1 1
world 1 0 1
world 1 1 0
";

/// What each command that runs no threads writes of an input, and what is refused: the words, the input's parts, the number of the status and
/// the parts of the text.
const WRITTEN: [(&[&str], &[(usize, &str)], u8, &[(usize, &str)]); 12] = [
    (&["asm"], &[(1, FORTY_TWO)], 0, &[(1, LISTING)]),
    (
        &["script"],
        &[(1, FORTY_TWO), (1, "events g0\n")],
        0,
        &[(1, "harts 8\n"), (1, TAKEN)],
    ),
    (
        &["script", "probes"],
        &[(1, FORTY_TWO), (1, "events g0\n")],
        0,
        &[(1, ENTRIES), (1, "harts 8\n"), (1, TAKEN)],
    ),
    (
        &["explain"],
        &[(1, FORTY_TWO), (1, "events g0\n")],
        0,
        &[(1, "harts 8\n"), (1, TAKEN)],
    ),
    (
        &["replay", "1"],
        &[(1, FORTY_TWO), (1, "order 0\n")],
        0,
        &[(1, "harts 1\n"), (1, TAKEN)],
    ),
    (
        &["replay", "3", "probes"],
        &[(1, FORTY_TWO), (1, "order 0\n")],
        0,
        &[(1, ENTRIES), (1, "harts 3\n"), (1, TAKEN)],
    ),
    (
        &["certify"],
        &[(1, SHARES)],
        1,
        &[(
            1,
            "leak step 2 x10 secrets 0 1 pair 00000000 00000000 counts 1 0\n",
        )],
    ),
    (&["certify"], &[(1, FORTY_TWO)], 3, &[(1, "no worlds\n")]),
    (
        &["replay", "1"],
        &[(1, FORTY_TWO), (1, "order 0*6 7\n")],
        3,
        &[(1, "order 5: bad\n")],
    ),
    (
        &["alone"],
        &[(1, FORTY_TWO), (1, "slots 1\n")],
        3,
        &[(1, "line 6: misplaced\n")],
    ),
    (
        &["script"],
        &[(1, "bundle 1\nslots 1\n")],
        3,
        &[(1, "limit tasks 0\n")],
    ),
    (
        &["replay", "2"],
        &[
            (1, "bundle 1\nslots 1\nplan 2 tail 1\n"),
            (1, "task fuel 1 out 0 data 0\nendtask\n"),
        ],
        3,
        &[(1, "plan for missing hart 2\n")],
    ),
];

/// Runs words over an input: the source fails at each call in turn, then the sink does, and then nothing does.
fn fails_each<R: Abort + AllocGlobal>(
    rt: &R,
    words: &[&str],
    input: &str,
    number: u8,
    written: &str,
) -> Result<(), Fail> {
    let input = input.as_bytes();
    for call in 0..=input.len() {
        let edge = Edge {
            per_read: 1,
            failing_reads: &[call as u64],
            ..SOUND
        };
        runs(rt, words, input, edge, 4, "", input.len() - call)?;
    }
    for call in 0..written.len() {
        let edge = Edge {
            per_write: 1,
            failing_writes: &[call as u64],
            ..SOUND
        };
        let front = str::from_utf8(&written.as_bytes()[..call])?;
        runs(rt, words, input, edge, 5, front, 0)?;
    }
    let edge = Edge {
        per_read: 1,
        per_write: 1,
        ..SOUND
    };
    runs(rt, words, input, edge, number, written, 0)
}

#[test]
fn failing_edges(rt: HostRuntime) -> Result<(), Fail> {
    let alloc = rt.alloc();
    for (words, parts, number, written) in &WRITTEN {
        let input = text_of(alloc, parts)?;
        let written = text_of(alloc, written)?;
        fails_each(&rt, words, input.as_str(), *number, written.as_str())?;
    }
    // Of an input that is too large one byte more than the limit is taken.
    let input = text_of(alloc, &[(4_194_314, "#")])?;
    runs(
        &rt,
        &["alone"],
        input.as_bytes(),
        SOUND,
        3,
        "too large\n",
        9,
    )
}

//! Verdicts on tasks in the worlds of their secrets.

use crate::harness::{SOUND, runs};
use std::process::Abort;
use std::test::Fail;

/// The lines after `bundle 1` and `slots 1`, and the line of the verdict.
const VERDICTS: [(&str, &str); 21] = [
    // two shares, each cleared before the next
    (
        "task fuel 9 out 4 data 0\ncode\naddi x17,x0,2\necall\naddi x8,x10,0\naddi x10,x0,0\necall\naddi x9,x10,0\naddi x10,x0,0\naddi x17,x0,0\necall\nendcode\nendtask\nworld 0 0 0\nworld 0 1 1\nworld 1 0 1\nworld 1 1 0\n",
        "secure 20\n",
    ),
    // a share over the other one in x10
    (
        "task fuel 5 out 4 data 0\ncode\naddi x17,x0,2\necall\necall\naddi x17,x0,0\necall\nendcode\nendtask\nworld 0 0 0\nworld 0 1 1\nworld 1 0 1\nworld 1 1 0\n",
        "leak step 2 x10 secrets 0 1 pair 00000000 00000000 counts 1 0\n",
    ),
    // an AND of two shares each, with one mask
    (
        "task fuel 34 out 4 data 0\ncode\naddi x17,x0,2\necall\naddi x1,x10,0\naddi x10,x0,0\necall\naddi x2,x10,0\naddi x10,x0,0\necall\naddi x3,x10,0\naddi x10,x0,0\necall\naddi x4,x10,0\naddi x10,x0,0\necall\naddi x5,x10,0\naddi x10,x0,0\nand x6,x1,x4\nadd x0,x0,x0\nxor x6,x6,x5\nadd x0,x0,x0\nand x7,x1,x3\nadd x0,x0,x0\nxor x7,x7,x6\nadd x0,x0,x0\nand x8,x2,x3\nadd x0,x0,x0\nxor x8,x8,x5\nadd x0,x0,x0\nand x9,x2,x4\nadd x0,x0,x0\nxor x9,x9,x8\nadd x0,x0,x0\naddi x17,x0,0\necall\nendcode\nendtask\nworld 0 0 0 0 0 0\nworld 0 0 0 0 0 1\nworld 0 0 0 1 1 0\nworld 0 0 0 1 1 1\nworld 0 1 1 0 0 0\nworld 0 1 1 0 0 1\nworld 0 1 1 1 1 0\nworld 0 1 1 1 1 1\nworld 1 0 0 0 1 0\nworld 1 0 0 0 1 1\nworld 1 0 0 1 0 0\nworld 1 0 0 1 0 1\nworld 1 1 1 0 1 0\nworld 1 1 1 0 1 1\nworld 1 1 1 1 0 0\nworld 1 1 1 1 0 1\nworld 2 0 1 0 0 0\nworld 2 0 1 0 0 1\nworld 2 0 1 1 1 0\nworld 2 0 1 1 1 1\nworld 2 1 0 0 0 0\nworld 2 1 0 0 0 1\nworld 2 1 0 1 1 0\nworld 2 1 0 1 1 1\nworld 3 0 1 0 1 0\nworld 3 0 1 0 1 1\nworld 3 0 1 1 0 0\nworld 3 0 1 1 0 1\nworld 3 1 0 0 1 0\nworld 3 1 0 0 1 1\nworld 3 1 0 1 0 0\nworld 3 1 0 1 0 1\n",
        "secure 97\n",
    ),
    // a branch on the secret
    (
        "task fuel 6 out 4 data 0\ncode\naddi x17,x0,2\necall\nbeq x10,x0,.+8\naddi x5,x0,1\naddi x17,x0,0\necall\nendcode\nendtask\nworld 0 0\nworld 1 1\n",
        "control differs worlds 0 1 step 3\n",
    ),
    // secrets with different numbers of worlds
    (
        "task fuel 6 out 4 data 0\ncode\naddi x17,x0,2\necall\naddi x8,x10,0\naddi x10,x0,0\necall\naddi x9,x10,0\naddi x10,x0,0\naddi x17,x0,0\necall\nendcode\nendtask\nworld 0 0\nworld 0 1\nworld 1 0\n",
        "uneven 0 1\n",
    ),
    // too many worlds for the fuel
    (
        "task fuel 100000 out 4 data 0\ncode\naddi x17,x0,2\necall\naddi x8,x10,0\naddi x10,x0,0\necall\naddi x9,x10,0\naddi x10,x0,0\naddi x17,x0,0\necall\nendcode\nendtask\nworld 0 0 0\nworld 0 0 0\nworld 0 0 0\nworld 0 0 0\nworld 0 0 0\nworld 0 0 0\nworld 0 0 0\nworld 0 0 0\nworld 0 0 0\nworld 0 0 0\nworld 0 0 0\nworld 0 0 0\nworld 0 0 0\nworld 0 0 0\nworld 0 0 0\nworld 0 0 0\nworld 0 0 0\nworld 0 0 0\nworld 0 0 0\nworld 0 0 0\nworld 0 0 0\n",
        "too much 2100000\n",
    ),
    // no world
    (
        "task fuel 6 out 4 data 0\ncode\naddi x17,x0,2\necall\naddi x8,x10,0\naddi x10,x0,0\necall\naddi x9,x10,0\naddi x10,x0,0\naddi x17,x0,0\necall\nendcode\nendtask\n",
        "no worlds\n",
    ),
    // the last instruction that fuel allows compares the shares: only the pc at the end tells
    (
        "task fuel 6 out 4 data 0\ncode\naddi x17,x0,2\necall\naddi x8,x10,0\naddi x10,x0,0\necall\nbeq x8,x10,.+8\naddi x0,x0,0\naddi x0,x0,0\nendcode\nendtask\nworld 0 0 0\nworld 0 1 1\nworld 1 0 1\nworld 1 1 0\n",
        "control differs worlds 0 2 step 6\n",
    ),
    // the least step goes before the least world
    (
        "task fuel 40 out 4 data 0\ncode\naddi x17,x0,2\necall\naddi x8,x10,0\naddi x10,x0,0\necall\naddi x9,x10,0\naddi x10,x0,0\nbeq x8,x0,.+8\naddi x5,x0,1\nbeq x9,x0,.+8\naddi x5,x0,1\naddi x17,x0,0\necall\nendcode\nendtask\nworld 0 0 0\nworld 0 0 1\nworld 1 1 0\nworld 1 1 1\n",
        "control differs worlds 0 2 step 8\n",
    ),
    // a deed tells, and no pc
    (
        "task fuel 40 out 4 data 2\ncode\naddi x17,x0,2\nlui x20,264\necall\naddi x8,x10,0\naddi x10,x0,0\nadd x20,x20,x8\nlw x5,0(x20)\naddi x17,x0,0\necall\nendcode\nendtask\nworld 0 0 0\nworld 0 1 1\nworld 1 0 1\nworld 1 1 0\n",
        "control differs worlds 0 1 step 6\n",
    ),
    // sums of values are alike
    (
        "task fuel 9 out 4 data 0\ncode\naddi x17,x0,2\necall\naddi x17,x0,0\necall\nendcode\nendtask\nworld 0 0\nworld 0 2\nworld 1 1\nworld 1 1\n",
        "leak step 1 x10 secrets 0 1 pair 00000000 00000000 counts 1 0\n",
    ),
    // a share over the other one in an operand port
    (
        "task fuel 40 out 4 data 0\ncode\naddi x17,x0,2\necall\naddi x8,x10,0\naddi x10,x0,0\necall\naddi x9,x10,0\naddi x10,x0,0\nxor x5,x8,x0\nxor x6,x9,x0\naddi x17,x0,0\necall\nendcode\nendtask\nworld 0 0 0\nworld 0 1 1\nworld 1 0 1\nworld 1 1 0\n",
        "leak step 8 portA secrets 0 1 pair 00000000 00000000 counts 1 0\n",
    ),
    // the port cleared between
    (
        "task fuel 40 out 4 data 0\ncode\naddi x17,x0,2\necall\naddi x8,x10,0\naddi x10,x0,0\necall\naddi x9,x10,0\naddi x10,x0,0\nxor x5,x8,x0\nadd x0,x0,x0\nxor x6,x9,x0\naddi x17,x0,0\necall\nendcode\nendtask\nworld 0 0 0\nworld 0 1 1\nworld 1 0 1\nworld 1 1 0\n",
        "secure 31\n",
    ),
    // of two latches of one instruction the register goes first
    (
        "task fuel 40 out 4 data 0\ncode\naddi x17,x0,2\necall\naddi x8,x10,0\naddi x10,x0,0\necall\naddi x9,x10,0\naddi x10,x0,0\nxor x6,x8,x9\naddi x17,x0,0\necall\nendcode\nendtask\nworld 0 0 0\nworld 0 1 1\nworld 1 0 1\nworld 1 1 0\n",
        "leak step 7 x6 secrets 0 1 pair 00000000 00000000 counts 2 0\n",
    ),
    // each secret is compared with the least one
    (
        "task fuel 40 out 4 data 0\ncode\naddi x17,x0,2\necall\naddi x8,x10,0\naddi x10,x0,0\necall\naddi x9,x10,0\naddi x10,x0,0\naddi x17,x0,0\necall\nendcode\nendtask\nworld 9 1 1\nworld 5 0 1\nworld 9 1 0\nworld 5 1 0\nworld 7 1 0\nworld 7 0 1\n",
        "leak step 1 x10 secrets 5 9 pair 00000000 00000000 counts 1 0\n",
    ),
    // a share over the other one in a data word
    (
        "task fuel 40 out 4 data 2\ncode\naddi x17,x0,2\nlui x20,264\necall\naddi x8,x10,0\naddi x10,x0,0\necall\naddi x9,x10,0\naddi x10,x0,0\nsw x8,0(x20)\nadd x0,x0,x0\nsw x0,4(x20)\nsw x9,0(x20)\naddi x17,x0,0\necall\nendcode\nendtask\nworld 0 0 0\nworld 0 1 1\nworld 1 0 1\nworld 1 1 0\n",
        "leak step 11 m00108000 secrets 0 1 pair 00000000 00000000 counts 1 0\n",
    ),
    // a share over the other one in the latch of loads
    (
        "task fuel 40 out 4 data 3\ncode\naddi x17,x0,2\nlui x20,264\necall\naddi x8,x10,0\naddi x10,x0,0\necall\naddi x9,x10,0\naddi x10,x0,0\nsw x8,0(x20)\nadd x0,x0,x0\nsw x0,8(x20)\nsw x9,4(x20)\naddi x8,x0,0\nsw x0,8(x20)\nadd x9,x0,x0\nadd x0,x0,x0\nlw x0,0(x20)\nlw x0,4(x20)\naddi x17,x0,0\necall\nendcode\nendtask\nworld 0 0 0\nworld 0 1 1\nworld 1 0 1\nworld 1 1 0\n",
        "leak step 17 load secrets 0 1 pair 00000000 00000000 counts 1 0\n",
    ),
    // three shares
    (
        "task fuel 40 out 4 data 0\ncode\naddi x17,x0,2\necall\naddi x8,x10,0\naddi x10,x0,0\necall\naddi x9,x10,0\naddi x10,x0,0\necall\naddi x7,x10,0\naddi x10,x0,0\naddi x17,x0,0\necall\nendcode\nendtask\nworld 0 0 0 0\nworld 0 0 1 1\nworld 0 1 0 1\nworld 0 1 1 0\nworld 1 0 0 1\nworld 1 0 1 0\nworld 1 1 0 0\nworld 1 1 1 1\n",
        "secure 27\n",
    ),
    // the least secrets of which the groups differ
    (
        "task fuel 5 out 4 data 0\ncode\naddi x17,x0,0\necall\nendcode\nendtask\nworld 4 0\nworld 4 1\nworld 2 0\nworld 2 1\nworld 9 0\nworld 7 0\n",
        "uneven 2 7\n",
    ),
    // places of executed instructions alone
    (
        "task fuel 2 out 4 data 0\ncode\naddi x17,x0,2\necall\necall\naddi x17,x0,0\necall\nendcode\nendtask\nworld 0 0 0\nworld 0 1 1\nworld 1 0 1\nworld 1 1 0\n",
        "secure 4\n",
    ),
    // a call that takes nothing writes nothing
    (
        "task fuel 40 out 4 data 0\ncode\naddi x17,x0,2\necall\naddi x8,x10,0\naddi x10,x0,0\necall\naddi x9,x10,0\naddi x10,x0,0\necall\nendcode\nendtask\nworld 0 0 0\nworld 0 1 1\nworld 1 0 1\nworld 1 1 0\n",
        "secure 17\n",
    ),
];

/// The lines, as above, and the line of the verdict by two probes.
const VERDICTS_BY_TWO: [(&str, &str); 8] = [
    // two shares are two probes
    (
        "task fuel 9 out 4 data 0\ncode\naddi x17,x0,2\necall\naddi x8,x10,0\naddi x10,x0,0\necall\naddi x9,x10,0\naddi x10,x0,0\naddi x17,x0,0\necall\nendcode\nendtask\nworld 0 0 0\nworld 0 1 1\nworld 1 0 1\nworld 1 1 0\n",
        "leak2 steps 1 4 latches x10 x10 secrets 0 1 values 00000000 00000000 00000000 00000000 counts 1 0\n",
    ),
    // the least secrets, whichever world comes first
    (
        "task fuel 9 out 4 data 0\ncode\naddi x17,x0,2\necall\naddi x8,x10,0\naddi x10,x0,0\necall\naddi x9,x10,0\naddi x10,x0,0\naddi x17,x0,0\necall\nendcode\nendtask\nworld 9 1 0\nworld 5 1 1\nworld 9 0 1\nworld 5 0 0\n",
        "leak2 steps 1 4 latches x10 x10 secrets 5 9 values 00000000 00000000 00000000 00000000 counts 1 0\n",
    ),
    // a word that hangs on no secret
    (
        "task fuel 4 out 4 data 0\nwords 00200893 00000073 00000893 00000073\nendtask\nworld 0 0\nworld 0 1\nworld 1 0\nworld 1 1\n",
        "secure2 7\n",
    ),
    // what one probe tells is told first
    (
        "task fuel 5 out 4 data 0\ncode\naddi x17,x0,2\necall\necall\naddi x17,x0,0\necall\nendcode\nendtask\nworld 0 0 0\nworld 0 1 1\nworld 1 0 1\nworld 1 1 0\n",
        "leak step 2 x10 secrets 0 1 pair 00000000 00000000 counts 1 0\n",
    ),
    // and so are the faults by one
    (
        "task fuel 5 out 4 data 0\ncode\naddi x17,x0,2\necall\necall\naddi x17,x0,0\necall\nendcode\nendtask\nworld 0 0 0\nworld 1 0 1\nworld 1 1 1\n",
        "uneven 0 1\n",
    ),
    (
        "task fuel 6 out 4 data 0\ncode\naddi x17,x0,2\necall\naddi x8,x10,0\naddi x10,x0,0\necall\nbeq x8,x10,.+8\naddi x0,x0,0\naddi x0,x0,0\nendcode\nendtask\nworld 0 0 0\nworld 0 1 1\nworld 1 0 1\nworld 1 1 0\n",
        "control differs worlds 0 2 step 6\n",
    ),
    // just as many pairs as are looked at, and one step more
    (
        "task fuel 3332 out 4 data 0\ncode\naddi x17,x0,2\necall\nlui x5,0\nx: addi x0,x0,0\njal x0,x\nendcode\nendtask\nworld 0 0\nworld 1 0\n",
        "secure2 5000\n",
    ),
    (
        "task fuel 3333 out 4 data 0\ncode\naddi x17,x0,2\necall\nlui x5,0\nx: addi x0,x0,0\njal x0,x\nendcode\nendtask\nworld 0 0\nworld 1 0\n",
        "too many 50020002\n",
    ),
];

/// The number of the status that comes with this line.
fn number_of(line: &str) -> u8 {
    if line.starts_with("secure") {
        0
    } else if line.starts_with("leak") || line.starts_with("control") {
        1
    } else {
        3
    }
}

/// Each of the bundles has the line of its verdict, and the status that comes with it.
fn judge<R: Abort + AllocGlobal>(
    rt: &R,
    words: &[&str],
    rows: &[(&str, &str)],
) -> Result<(), Fail> {
    let alloc = rt.alloc();
    for (lines, line) in rows {
        let mut text = String::from_str(alloc, "bundle 1\nslots 1\n")?;
        text.push_str(lines)?;
        runs(rt, words, text.as_bytes(), SOUND, number_of(line), line, 0)?;
    }
    Ok(())
}

#[test]
fn judges(rt: HostRuntime) -> Result<(), Fail> {
    judge(&rt, &["certify"], &VERDICTS)
}

#[test]
fn judges_by_two(rt: HostRuntime) -> Result<(), Fail> {
    judge(&rt, &["certify", "2"], &VERDICTS_BY_TWO)
}

//! Routines of one's own: the kernel's own parts and changes of them, as an independent model of the rules judges them.

use crate::harness::{SOUND, runs, written_by};
use std::alloc::{AllocError, Global};
use std::test::Fail;

/// The lines of the kernel's save part, `ebreak` and its restore part.
fn own_lines(alloc: Global) -> Result<Vec<String>, AllocError> {
    let mut lines = Vec::new(alloc);
    for line in [
        "mul x0,x0,x0",
        "csrrw x5,mscratch,x5",
        "sw x0,0x100(x0)",
        "lw x0,0x100(x0)",
    ] {
        lines.push(String::from_str(alloc, line)?)?;
    }
    for i in 1..32u32 {
        if i != 5 {
            lines.push(format!(in alloc; "sw x0,{}(x5)", 4 * i)?)?;
            lines.push(format!(in alloc; "sw x{i},{}(x5)", 4 * i)?)?;
            lines.push(format!(in alloc; "addi x{i},x0,0")?)?;
        }
    }
    for line in [
        "sw x0,0x100(x0)",
        "csrrs x6,mscratch,x0",
        "sw x0,20(x5)",
        "sw x6,20(x5)",
        "addi x6,x0,0",
        "sw x0,0x100(x0)",
        "csrrw x0,mscratch,x5",
        "ebreak",
    ] {
        lines.push(String::from_str(alloc, line)?)?;
    }
    for i in 1..32u32 {
        if i != 5 {
            lines.push(format!(in alloc; "lw x{i},{}(x5)", 4 * i)?)?;
            lines.push(String::from_str(alloc, "lw x0,0x100(x0)")?)?;
        }
    }
    lines.push(String::from_str(alloc, "lw x5,20(x5)")?)?;
    lines.push(String::from_str(alloc, "lw x0,0x100(x0)")?)?;
    Ok(lines)
}

/// In place of so many of these lines, from this one on, a line so many times.
#[derive(Clone, Copy)]
struct Change<'a> {
    at: usize,
    taken: usize,
    times: usize,
    line: &'a str,
}

/// No change.
const NONE: Change<'static> = Change {
    at: 0,
    taken: 0,
    times: 0,
    line: "",
};

/// The text of the lines with a change, each with this end.
fn changed(
    alloc: Global,
    lines: &[String],
    change: &Change,
    end: &str,
) -> Result<String, AllocError> {
    let mut text = String::new(alloc);
    for (i, line) in lines.iter().enumerate() {
        if i == change.at {
            for _ in 0..change.times {
                text.push_str(change.line)?;
                text.push_str(end)?;
            }
        }
        if i < change.at || i - change.at >= change.taken {
            text.push_str(line.as_str())?;
            text.push_str(end)?;
        }
    }
    Ok(text)
}

/// A change, by where it is, how many lines it takes, and how many it puts there of which line; the number of the status and what is written.
const CHANGES: [(usize, usize, usize, &str, u8, &str); 22] = [
    (0, 0, 0, "", 0, "accepted 101 62\n"),
    (0, 0, 1, "# a comment", 0, "accepted 101 62\n"),
    (0, 1, 0, "", 1, "refused 0 meets\n"),
    (4, 1, 0, "", 1, "refused 4 meets\n"),
    (0, 1, 1, "add x0,x0,x0", 1, "refused 101 left\n"),
    (163, 1, 0, "", 1, "refused 163 left\n"),
    (0, 164, 0, "", 1, "refused 0 divide\n"),
    (101, 1, 0, "", 1, "refused 163 divide\n"),
    (112, 0, 1, "ebreak", 1, "refused 112 divide\n"),
    (101, 0, 199, "add x0,x0,x0", 0, "accepted 300 62\n"),
    (101, 0, 200, "add x0,x0,x0", 1, "refused 300 length\n"),
    (102, 0, 239, "add x0,x0,x0", 1, "refused 402 length\n"),
    (6, 1, 1, "addi x1,x1,0", 1, "refused 6 form\n"),
    (6, 1, 1, "lui x1,7", 0, "accepted 101 62\n"),
    (101, 0, 1, "lw x6,128(x5)", 1, "refused 101 base\n"),
    (2, 1, 1, "sw x5,0x100(x0)", 1, "refused 2 notzero\n"),
    (91, 3, 0, "", 1, "refused 98 slot\n"),
    (101, 0, 1, "csrrw x0,mscratch,x0", 1, "refused 102 left\n"),
    (160, 2, 0, "", 1, "refused 162 restored\n"),
    (104, 0, 1, "sw x0,4(x5)", 1, "refused 165 slot\n"),
    (1, 0, 2, "\u{1}", 3, "line 2: not text\n"),
    (0, 1, 2, "addz x1,x0,1", 3, "line 1: asm unknown word\n"),
];

#[test]
fn changes_of_the_own_routine(rt: HostRuntime) -> Result<(), Fail> {
    let alloc = rt.alloc();
    let own = own_lines(alloc)?;
    for (at, taken, times, line, number, written) in &CHANGES {
        let change = Change {
            at: *at,
            taken: *taken,
            times: *times,
            line: *line,
        };
        for end in ["\n", "\r\n"] {
            let text = changed(alloc, own.as_slice(), &change, end)?;
            runs(&rt, &["lint"], text.as_bytes(), SOUND, *number, *written, 0)?;
        }
    }

    // A refused routine is not run, and an accepted one does what the kernel's own does.
    let text = changed(alloc, own.as_slice(), &Change { taken: 1, ..NONE }, "\n")?;
    runs(
        &rt,
        &["lint", "1", "4"],
        text.as_bytes(),
        SOUND,
        1,
        "refused 0 meets\n",
        0,
    )?;
    let text = changed(alloc, own.as_slice(), &NONE, "\n")?;
    let mut whole = String::from_str(alloc, "accepted 101 62\n")?;
    whole.push_str(written_by(&rt, &["drill", "1", "4"], b"")?.as_str())?;
    runs(
        &rt,
        &["lint", "1", "04"],
        text.as_bytes(),
        SOUND,
        0,
        whole.as_str(),
        0,
    )?;
    runs(
        &rt,
        &["lint", "1", "33"],
        text.as_bytes(),
        SOUND,
        2,
        "bad words\n",
        text.len(),
    )
}

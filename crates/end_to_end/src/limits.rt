//! What is counted: the bytes of the input, the words of code, how far labels reach, and the lists of a bundle.

use crate::harness::{SOUND, runs, text_of};
use std::test::Fail;

/// The first lines of a bundle.
const HEAD: (usize, &str) = (1, "bundle 1\nslots 1\n");

/// The first lines of a bundle whose code comes next. Its fuel is enough for a word at each place.
const CODE: (usize, &str) = (1, "bundle 1\nslots 1\ntask fuel 5000 out 0 data 0\ncode\n");

/// Its last lines.
const END: (usize, &str) = (1, "endcode\nendtask\n");

/// A task without code.
const TASK: (usize, &str) = (1, "task fuel 1 out 0 data 0\nendtask\n");

/// The first line of such a task.
const BEGIN: (usize, &str) = (1, "task fuel 1 out 0 data 0\n");

/// Its last line.
const CLOSE: (usize, &str) = (1, "endtask\n");

/// The end of a line.
const LINE: (usize, &str) = (1, "\n");

/// Tasks of the most fuel.
const LONG_TASKS: (usize, &str) = (5, "task fuel 100000 out 0 data 0\nwords 73\nendtask\n");

/// A task whose first line of code is refused.
const ODD_TASK: (usize, &str) = (
    1,
    "task fuel 5 out 4 data 0\ncode\naddz x1,x0,1\nendcode\nendtask\n",
);

/// What `alone` writes of a task without code.
const NO_CODE: &str = "task 0: faulted 1 at 00100000 count 1\nout 0:\n";

/// What it writes of six tasks that exit at once.
const SIX_TASKS: &str = "\
task 0: exited 00000000 count 1
out 0:
task 1: exited 00000000 count 1
out 1:
task 2: exited 00000000 count 1
out 2:
task 3: exited 00000000 count 1
out 3:
task 4: exited 00000000 count 1
out 4:
task 5: exited 00000000 count 1
out 5:
";

/// The parts of an input, each with how often it stands, the number of the status and what `alone` writes.
const LIMITS: [(&[(usize, &str)], u8, &str); 36] = [
    // The bytes of the input.
    (&[(4_194_304, " ")], 3, "line 2: missing\n"),
    (&[(4_194_305, " ")], 3, "too large\n"),
    // The words of code. Lines are judged before the words that they make are counted, and labels before both.
    (
        &[CODE, (4096, "nop\n"), (1, "end: # no word\n"), END],
        0,
        "task 0: faulted 1 at 00104000 count 4097\nout 0:\n",
    ),
    (
        &[CODE, (4096, "nop\n"), (1, "nop\n"), END],
        3,
        "line 4101: asm too many words\n",
    ),
    (
        &[CODE, (4095, "nop\n"), (1, "li x1,4097\n"), END],
        3,
        "line 4100: asm too many words\n",
    ),
    (
        &[CODE, (4096, "nop\n"), (1, "\n.word 1\naddz\n"), END],
        3,
        "line 4102: asm too many words\n",
    ),
    (
        &[CODE, (4096, "nop\n"), (1, "a: a: nop\n"), END],
        3,
        "line 4101: asm duplicate label\n",
    ),
    (
        &[CODE, (4096, "nop\n"), (1, "addz x1\n"), END],
        3,
        "line 4101: asm unknown word\n",
    ),
    (
        &[CODE, (1, "j nowhere\n"), (4096, "nop\n"), END],
        3,
        "line 4101: asm too many words\n",
    ),
    // How far a branch reaches a label: 4,094 bytes on and 4,096 back.
    (
        &[
            CODE,
            (1, "beq x0,x0,end\n"),
            (1022, "nop\n"),
            (1, "end:\n"),
            END,
        ],
        0,
        "task 0: faulted 1 at 00100ffc count 2\nout 0:\n",
    ),
    (
        &[
            CODE,
            (1, "beq x0,x0,end\n"),
            (1023, "nop\n"),
            (1, "end:\n"),
            END,
        ],
        3,
        "line 5: asm out of range\n",
    ),
    (
        &[
            CODE,
            (1, "start: beqz x1,.+8\necall\nli x1,1\n"),
            (1021, "nop\n"),
            (1, "bnez x1,start\n"),
            END,
        ],
        0,
        "task 0: exited 00000000 count 1026\nout 0:\n",
    ),
    (
        &[
            CODE,
            (1, "start:\n"),
            (1025, "nop\n"),
            (1, "beq x0,x0,start\n"),
            END,
        ],
        3,
        "line 1031: asm out of range\n",
    ),
    // A jump reaches every label.
    (
        &[
            CODE,
            (1, "start: beqz x1,.+8\necall\nli x1,1\n"),
            (4092, "nop\n"),
            (1, "j start\n"),
            END,
        ],
        0,
        "task 0: exited 00000000 count 4097\nout 0:\n",
    ),
    // The lists of a bundle, at their limits and past them.
    (
        &[HEAD, (33, "task fuel 1 out 0 data 0\nendtask\n")],
        3,
        "limit tasks 33\n",
    ),
    (
        &[
            (1, "bundle 2\nslots 8\n"),
            (33, "task fuel 1 out 0 data 0 band 1\nendtask\n"),
        ],
        3,
        "limit tasks 33\n",
    ),
    (
        &[HEAD, BEGIN, (1, "words"), (4096, " 0"), LINE, CLOSE],
        0,
        "task 0: faulted 2 at 00100000 count 1\nout 0:\n",
    ),
    (
        &[HEAD, BEGIN, (1, "words"), (4097, " 0"), LINE, CLOSE],
        3,
        "limit code 4097\n",
    ),
    (
        &[HEAD, BEGIN, (1, "tape"), (4096, " 0"), LINE, CLOSE],
        0,
        NO_CODE,
    ),
    (
        &[HEAD, BEGIN, (1, "tape"), (4097, " 0"), LINE, CLOSE],
        3,
        "limit tape 4097\n",
    ),
    (
        &[HEAD, (1, "plan 7 tail 1 quanta"), (1024, " 0"), LINE, TASK],
        0,
        NO_CODE,
    ),
    (
        &[HEAD, (1, "plan 7 tail 1 quanta"), (1025, " 0"), LINE, TASK],
        3,
        "limit quanta 1025\n",
    ),
    (&[HEAD, TASK, (65_536, "world 0\n")], 0, NO_CODE),
    (
        &[HEAD, TASK, (65_537, "world 0\n")],
        3,
        "limit worlds 65537\n",
    ),
    (
        &[HEAD, TASK, (1, "world 0"), (4096, " 0"), LINE],
        0,
        NO_CODE,
    ),
    (
        &[HEAD, TASK, (1, "world 0"), (4097, " 0"), LINE],
        3,
        "limit tape 4097\n",
    ),
    (&[HEAD, TASK, (1, "events g0*1048575 t7\n")], 0, NO_CODE),
    (
        &[HEAD, TASK, (4097, "events g0*1048576\n")],
        3,
        "limit events 4296015872\n",
    ),
    (&[HEAD, TASK, (1, "order 0*1048575 7\n")], 0, NO_CODE),
    (
        &[HEAD, TASK, (1, "order 0*1048575 7*2\n")],
        3,
        "limit order 1048577\n",
    ),
    // The bound of the queue actions.
    (
        &[
            HEAD,
            LONG_TASKS,
            (1, "task fuel 24278 out 0 data 0\nwords 73\nendtask\n"),
        ],
        0,
        SIX_TASKS,
    ),
    (
        &[
            HEAD,
            LONG_TASKS,
            (1, "task fuel 24279 out 0 data 0\nwords 73\nendtask\n"),
        ],
        3,
        "too long 1048578\n",
    ),
    // Of two refusals the first: all code before all limits; tasks, code, tape, quanta, worlds and their words, events, order; the bound.
    (
        &[HEAD, (32, "task fuel 1 out 0 data 0\nendtask\n"), ODD_TASK],
        3,
        "line 69: asm unknown word\n",
    ),
    (
        &[
            HEAD,
            (32, "task fuel 1 out 0 data 0\nendtask\n"),
            BEGIN,
            (1, "words"),
            (4097, " 0"),
            LINE,
            CLOSE,
        ],
        3,
        "limit tasks 33\n",
    ),
    (
        &[
            HEAD,
            BEGIN,
            (1, "tape"),
            (4097, " 0"),
            (1, "\nwords"),
            (4098, " 0"),
            LINE,
            CLOSE,
        ],
        3,
        "limit code 4098\n",
    ),
    (
        &[
            HEAD,
            (1, "plan 1 tail 1 quanta"),
            (1026, " 0"),
            (1, "\nplan 0 tail 1 quanta"),
            (1025, " 0"),
            LINE,
            TASK,
            (65_537, "world 0\n"),
        ],
        3,
        "limit quanta 1026\n",
    ),
];

#[test]
fn limits(rt: HostRuntime) -> Result<(), Fail> {
    for (parts, number, written) in &LIMITS {
        let input = text_of(rt.alloc(), parts)?;
        runs(
            &rt,
            &["alone"],
            input.as_bytes(),
            SOUND,
            *number,
            written,
            0,
        )?;
    }
    Ok(())
}

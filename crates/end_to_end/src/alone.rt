//! Tasks alone.

use crate::harness::{FORTY_TWO, FORTY_TWO_REPORT, Frame, writes_each};
use std::test::Fail;

/// A bundle of one task without its last line, and its report.
const ONE_TASK: Frame<'static> = Frame {
    input: ("bundle 1\nslots 1\n", "endtask\n"),
    written: ("task 0: ", "\n"),
};

/// The report of a task, and the lines of such tasks.
const TASKS: [(&str, &[&str]); 25] = [
    // 42 is put out, and then the task exits with it. As assembler text there are a label, names of registers, a comment and a carriage
    // return.
    (
        "exited 0000002a count 5\nout 0: 0000002a",
        &[
            "task fuel 5 out 4 data 0\nwords 02a00513 00100893 00000073 00000893 00000073\n",
            "task fuel 5 out 4 data 0\nwords 2A00513 0x00100893\nwords\nwords 73 893 73\n",
            "task fuel 5 out 4 data 0\ncode\nstart: li a0, 42 # put out\r\n\tli a7,1\n\n ecall\nli a7,0\necall\n endcode\n",
        ],
    ),
    // The same with less fuel, with no room for output, and without words.
    (
        "out-of-steps count 4\nout 0: 0000002a",
        &["task fuel 4 out 4 data 0\nwords 02a00513 00100893 00000073 00000893 00000073\n"],
    ),
    (
        "out-full count 3\nout 0:",
        &["task fuel 5 out 0 data 0\nwords 02a00513 00100893 00000073 00000893 00000073\n"],
    ),
    (
        "faulted 1 at 00100000 count 1\nout 0:",
        &[
            "task fuel 5 out 4 data 0\n",
            "task fuel 5 out 4 data 0\ncode\nendcode\n",
        ],
    ),
    // -7 divided by 2, as words and as assembler text.
    (
        "exited fffffffd count 7\nout 0: fffffffd",
        &[
            "task fuel 7 out 4 data 0\nwords ff900513 00200593 02b54533 00100893 00000073 00000893 00000073\n",
            "task fuel 7 out 4 data 0\ncode\nli a0,-7\nli a1,2\ndiv a0,a0,a1\nli a7,1\necall\nli a7,0\necall\nendcode\n",
        ],
    ),
    // Two words of input, where the tape has one.
    (
        "tape-end count 3\nout 0:",
        &["task fuel 5 out 4 data 0\ntape b\nwords 00200893 00000073 00000073\n"],
    ),
    // Two words of input, which are put out, and a yield between them.
    (
        "exited ffffffff count 12\nout 0: 0000000b ffffffff",
        &[
            "task fuel 16 out 2 data 0\ntape b\ntape ffffffff\ncode\n\
            li a7,2\necall\nli a7,1\necall\nli a7,3\necall\nli a7,2\necall\nli a7,1\necall\nli a7,0\necall\nendcode\n",
        ],
    ),
    (
        "bad-call 00000009 count 2\nout 0:",
        &["task fuel 5 out 4 data 0\nwords 00900893 00000073\n"],
    ),
    // An end by the last instruction that the fuel allows.
    (
        "faulted 3 at 00100000 count 1\nout 0:",
        &[
            "task fuel 1 out 4 data 0\nwords 00100073\n",
            "task fuel 5 out 4 data 0\nwords 00100073\n",
        ],
    ),
    // A jump to itself, and one to 0.
    (
        "out-of-steps count 5\nout 0:",
        &["task fuel 5 out 4 data 0\nwords 0000006f\n"],
    ),
    (
        "faulted 1 at 00000000 count 2\nout 0:",
        &["task fuel 5 out 4 data 0\nwords 00000067\n"],
    ),
    // lui x1,256; jalr x2,6(x1), and with the offset 9, which is past the code
    (
        "faulted 0 at 00100004 count 2\nout 0:",
        &["task fuel 5 out 4 data 0\nwords 001000b7 00608167\n"],
    ),
    (
        "faulted 1 at 00100008 count 3\nout 0:",
        &["task fuel 5 out 4 data 0\nwords 001000b7 00908167\n"],
    ),
    // What no task may do: csrrs x1,mscratch,x0; csrrw x7,mepc,x6; csrrs x7,cycle,x0; csrrwi x0,mscratch,0; mret; wfi; no instruction.
    (
        "faulted 2 at 00100000 count 1\nout 0:",
        &[
            "task fuel 5 out 4 data 0\nwords 340020f3\n",
            "task fuel 5 out 4 data 0\nwords 341313f3\n",
            "task fuel 5 out 4 data 0\nwords c00023f3\n",
            "task fuel 5 out 4 data 0\nwords 34005073\n",
            "task fuel 5 out 4 data 0\nwords 30200073\n",
            "task fuel 5 out 4 data 0\nwords 10500073\n",
            "task fuel 5 out 4 data 0\nwords 0\n",
        ],
    ),
    // Stores to the kernel's code, to the task's own code, past one data word and where there is none.
    (
        "faulted 7 at 00100004 count 2\nout 0:",
        &[
            "task fuel 5 out 4 data 0\nwords 000010b7 0000a023\n",
            "task fuel 5 out 4 data 0\nwords 00000097 0000a023\n",
            "task fuel 5 out 4 data 1\nwords 001080b7 00008223\n",
            "task fuel 5 out 4 data 1\nwords 001080b7 00009223\n",
            "task fuel 5 out 4 data 0\nwords 001080b7 00008023\n",
        ],
    ),
    // lui x1,264; sw x0,0(x1); sw x0,4(x1), where there is one data word
    (
        "faulted 7 at 00100008 count 3\nout 0:",
        &["task fuel 5 out 4 data 1\nwords 001080b7 0000a023 0000a223\n"],
    ),
    // Loads of a slot and of a device port.
    (
        "faulted 5 at 00100000 count 1\nout 0:",
        &[
            "task fuel 5 out 4 data 0\nwords 20002083\n",
            "task fuel 5 out 4 data 0\nwords 70002083\n",
        ],
    ),
    // Loads of a byte and of a half around one data word, of data where there is none, and of bytes around the code.
    (
        "faulted 5 at 00100004 count 2\nout 0:",
        &[
            "task fuel 5 out 4 data 1\nwords 001080b7 fff08503\n",
            "task fuel 5 out 4 data 1\nwords 001080b7 00408503\n",
            "task fuel 5 out 4 data 1\nwords 001080b7 00409503\n",
            "task fuel 5 out 4 data 0\nwords 001080b7 00008503\n",
            "task fuel 5 out 4 data 0\nwords 001000b7 0100c503 00000073 ab000000\n",
            "task fuel 5 out 4 data 0\nwords 001000b7 fff08503\n",
        ],
    ),
    // A word loaded and a half stored at addresses that are no multiples of their sizes.
    (
        "faulted 4 at 00100004 count 2\nout 0:",
        &["task fuel 5 out 4 data 1\nwords 001080b7 0020a003\n"],
    ),
    (
        "faulted 6 at 00100004 count 2\nout 0:",
        &["task fuel 5 out 4 data 1\nwords 001080b7 000091a3\n"],
    ),
    // Bytes and halves stored into one data word and loaded with their sign, without it, and within the word; the last ones of the code.
    (
        "exited ffffff80 count 5\nout 0:",
        &["task fuel 5 out 4 data 1\nwords 08000113 001080b7 002081a3 00308503 00000073\n"],
    ),
    (
        "exited 0000fffe count 5\nout 0:",
        &["task fuel 5 out 4 data 1\nwords ffe00113 001080b7 00209123 0020d503 00000073\n"],
    ),
    (
        "exited 000000ff count 5\nout 0:",
        &["task fuel 5 out 4 data 1\nwords fff00113 001080b7 00208023 0000a503 00000073\n"],
    ),
    (
        "exited 000000ab count 3\nout 0:",
        &["task fuel 5 out 4 data 0\nwords 001000b7 00f0c503 00000073 ab000000\n"],
    ),
    (
        "exited 00000073 count 3\nout 0:",
        &["task fuel 5 out 4 data 0\nwords 001000b7 00809503 00000073\n"],
    ),
];

/// Nothing before and nothing after.
const WHOLE: Frame<'static> = Frame {
    input: ("", ""),
    written: ("", ""),
};

/// Every kind of line, and two tasks.
const BUNDLES: [(&str, &[&str]); 2] = [
    (
        FORTY_TWO_REPORT,
        &[
            FORTY_TWO,
            "bundle 1\nslots 1\ntask fuel 5 out 4 data 0\nwords 02a00513 00100893 00000073 00000893 00000073\nendtask",
            "bundle 2\nslots 1\ntask fuel 5 out 4 data 0 band 1\nwords 02a00513 00100893 00000073 00000893 00000073\nendtask",
            "bundle 02\nslots 1\n task  fuel 5 out 4 data 0\tband 00\nwords 02a00513 00100893 00000073 00000893 00000073\nendtask\n",
        ],
    ),
    (
        "task 0: out-of-steps count 3\nout 0:\ntask 1: exited 0000002a count 5\nout 1: 0000002a\n",
        &[
            "# every kind of line\r\nbundle 01\n\n\tslots  3 \nplan 7 tail 4096 quanta 0 4096\nplan 0 tail 1 quanta\ntask fuel 3 out 4096 data 1024\n\
            tape 0xFfffffff 1\ntape\ncode\nnop\r\nj .+0\n endcode \nendtask\ntask fuel 5 out 4 data 0\n\
            words 02a00513 00100893 00000073\nwords 0x893 73\nendtask\nworld 4294967295 a\nworld 0 b\nevents\nevents g0*1048575 t7\norder 0*2 1",
            "# the same with bands\r\nbundle 2\nslots 8\nplan 1 tail 1\ntask fuel 3 out 4096 data 1024 band 1\ntape 1\ncode\nj .+0\nendcode\n\
            endtask\n# between\ntask fuel 5 out 4 data 0 band 000\r\nwords 02a00513 00100893 00000073 893 73\nendtask\nworld 0\nevents t0\norder",
        ],
    ),
];

#[test]
fn tasks_alone(rt: HostRuntime) -> Result<(), Fail> {
    writes_each(&rt, "alone", ONE_TASK, 0, &TASKS)?;
    writes_each(&rt, "alone", WHOLE, 0, &BUNDLES)
}

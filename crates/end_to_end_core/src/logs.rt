//! Logs and what they show, as an independent model of the machine gives them.

use crate::harness::{lines_of, output_of, text_of, writes_each};
use std::test::Fail;

/// The first two steps of a hart: every entry.
const PROBES: [(&str, &[&str]); 1] = [(
    "\
0 00001324 portA 00000000 00000000 public
0 00001324 res 00000000 00000700 public
0 00001324 load 00000000 00000200 public
0 00001324 x5 00000000 00000200 public
0 00001328 portA 00000000 00000200 public
0 00001328 portB 00000000 00000000 public
harts 8
order 0
task 0: hart 0 slot 0 count 0
out 0:
probes 6 public 6 value 0 step 0 unexplained 0
latches reg 1 portA 2 portB 1 res 1 load 1 store 0 scr 0 mem 0
",
    &[
        "\
bundle 1
slots 1
task fuel 5 out 4 data 0
words 02a00513 00100893 00000073 00000893 00000073
endtask
events g0*2
",
    ],
)];

/// The entries that aren't public, with what the task alone has there.
const EXPLAINED: [(&str, &[&str]); 4] = [
    // The task's first two instructions.
    (
        "\
0 00100000 portA 00000000 00000000 value 0 1 portA now alone 00000000
0 00100000 res 00000100 0000002a value 0 1 res now alone 0000002a
0 00100000 x10 00000000 0000002a value 0 1 x10 now alone 0000002a
0 00100004 portA 00000000 00000000 step 0 1 portA alone 00000000 00000000
0 00100004 res 0000002a 00000001 step 0 1 res alone 0000002a 00000001
0 00100004 x17 00000000 00000001 value 0 2 x17 now alone 00000001
harts 8
order 0
task 0: hart 0 slot 0 count 2
out 0:
probes 256 public 250 value 4 step 2 unexplained 0
latches reg 39 portA 77 portB 1 res 70 load 68 store 0 scr 1 mem 0
",
        &[
            "\
bundle 1
slots 1
task fuel 5 out 4 data 0
words 02a00513 00100893 00000073 00000893 00000073
endtask
events g0*78
",
        ],
    ),
    // A word and a byte stored into the same word of data.
    (
        "\
0 00100000 res 00000100 00108000 value 0 1 res now alone 00108000
0 00100000 x1 00000000 00108000 value 0 1 x1 now alone 00108000
0 00100004 portA 00000000 00000000 value 0 2 portA now alone 00000000
0 00100004 res 00108000 00000007 step 0 1 res alone 00108000 00000007
0 00100004 x2 00000000 00000007 value 0 2 x2 now alone 00000007
0 00100008 portA 00000000 00108000 step 0 2 portA alone 00000000 00108000
0 00100008 portB 00000000 00000007 value 0 3 portB now alone 00000007
0 00100008 res 00000007 00108000 step 0 2 res alone 00000007 00108000
0 00100008 store 00000000 00000007 value 0 3 store now alone 00000007
0 00100008 m00108000 00000000 00000007 value 0 3 m00108000 now alone 00000007
0 0010000c portA 00108000 00108000 step 0 3 portA alone 00108000 00108000
0 0010000c portB 00000007 00000007 step 0 3 portB alone 00000007 00000007
0 0010000c res 00108000 00108002 step 0 3 res alone 00108000 00108002
0 0010000c store 00000007 00000007 step 0 3 store alone 00000007 00000007
0 0010000c m00108000 00000007 00070007 step 0 3 m00108000 alone 00000007 00070007
harts 8
order 0
task 0: hart 0 slot 0 count 4
out 0:
probes 265 public 250 value 7 step 8 unexplained 0
latches reg 39 portA 78 portB 3 res 72 load 68 store 2 scr 1 mem 2
",
        &[
            "\
bundle 1
slots 1
task fuel 5 out 0 data 1
words 001080b7 00700113 0020a023 00208123
endtask
events g0*80
",
        ],
    ),
    // A division, whose quotient comes into the multiplier's latch. The kernel's first instruction takes it out.
    (
        "\
0 00100000 portA 00000000 00000000 value 0 1 portA now alone 00000000
0 00100000 res 00000100 fffffff9 value 0 1 res now alone fffffff9
0 00100000 x10 00000000 fffffff9 value 0 1 x10 now alone fffffff9
0 00100004 portA 00000000 00000000 step 0 1 portA alone 00000000 00000000
0 00100004 res fffffff9 00000002 step 0 1 res alone fffffff9 00000002
0 00100004 x11 00000000 00000002 value 0 2 x11 now alone 00000002
0 00100008 portA 00000000 fffffff9 step 0 2 portA alone 00000000 fffffff9
0 00100008 portB 00000000 00000002 value 0 3 portB now alone 00000002
0 00100008 mul 00000000 fffffffd value 0 3 mul now alone fffffffd
0 00100008 res 00000002 fffffffd step 0 2 res alone 00000002 fffffffd
0 00100008 x10 fffffff9 fffffffd step 0 2 x10 alone fffffff9 fffffffd
0 00001000 portA fffffff9 00000000 value 0 3 portA was alone fffffff9
0 00001000 portB 00000002 00000000 value 0 3 portB was alone 00000002
0 00001000 mul fffffffd 00000000 value 0 3 mul was alone fffffffd
0 00001000 res fffffffd 00000000 value 0 3 res was alone fffffffd
harts 8
order 0
task 0: hart 0 slot 0 count 3
out 0:
probes 265 public 250 value 10 step 5 unexplained 0
latches reg 40 portA 79 portB 3 res 74 load 68 store 0 scr 1 mem 0
",
        &[
            "\
bundle 1
slots 1
task fuel 7 out 4 data 0
words ff900513 00200593 02b54533 00100893 00000073 00000893 00000073
endtask
events g0*79 t0 g0*2
",
        ],
    ),
    // A register is written before the task is preempted and after it goes on. In between it is saved and restored.
    (
        "\
0 00100000 portA 00000000 00000000 value 0 1 portA now alone 00000000
0 00100000 res 00000100 00000005 value 0 1 res now alone 00000005
0 00100000 x1 00000000 00000005 value 0 1 x1 now alone 00000005
0 00001000 portA 00000000 00000000 value 0 1 portA was alone 00000000
0 00001000 res 00000005 00000000 value 0 1 res was alone 00000005
0 00001014 portB 00000000 00000005 value 0 1 x1 now alone 00000005
0 00001014 store 00000000 00000005 value 0 1 x1 now alone 00000005
0 00001014 m00000204 00000000 00000005 value 0 1 x1 now alone 00000005
0 00001018 x1 00000005 00000000 value 0 1 x1 was alone 00000005
0 0000101c portB 00000005 00000000 value 0 1 x1 was alone 00000005
0 0000101c store 00000005 00000000 value 0 1 x1 was alone 00000005
0 00001358 load 00100004 00000005 value 0 1 x1 now alone 00000005
0 00001358 x1 00000000 00000005 value 0 1 x1 now alone 00000005
0 0000135c load 00000005 00000000 value 0 1 x1 was alone 00000005
0 00100004 portA 00000000 00000000 value 0 2 portA now alone 00000000
0 00100004 res 00000100 00000009 value 0 2 res now alone 00000009
0 00100004 x1 00000005 00000009 step 0 1 x1 alone 00000005 00000009
harts 8
order 0*3
task 0: hart 0 slot 0 count 2
out 0:
probes 974 public 957 value 16 step 1 unexplained 0
latches reg 114 portA 263 portB 74 res 248 load 137 store 68 scr 4 mem 66
",
        &[
            "\
bundle 1
slots 1
task fuel 5 out 0 data 0
words 00500093 00900093 00000073
endtask
events g0*77 t0 g0*191
",
        ],
    ),
];

#[test]
fn entries(rt: HostRuntime) -> Result<(), Fail> {
    writes_each(&rt, &["script", "probes"], ("", ""), &PROBES)?;
    writes_each(&rt, &["explain"], ("", ""), &EXPLAINED)
}

/// A masked AND of two shares each, which reads its words from the tape.
const MASKED_AND: &str = "\
bundle 1
slots 1
task fuel 34 out 0 data 0
tape 1 2 3 4 5
code
addi x17,x0,2
ecall
addi x1,x10,0
addi x10,x0,0
ecall
addi x2,x10,0
addi x10,x0,0
ecall
addi x3,x10,0
addi x10,x0,0
ecall
addi x4,x10,0
addi x10,x0,0
ecall
addi x5,x10,0
addi x10,x0,0
and x6,x1,x4
add x0,x0,x0
xor x6,x6,x5
add x0,x0,x0
and x7,x1,x3
add x0,x0,x0
xor x7,x7,x6
add x0,x0,x0
and x8,x2,x3
add x0,x0,x0
xor x8,x8,x5
add x0,x0,x0
and x9,x2,x4
add x0,x0,x0
xor x9,x9,x8
add x0,x0,x0
addi x17,x0,0
ecall
endcode
endtask
events g0*76";

/// The events after an instruction of it: the timer preempts the task, and it goes on; of an instruction that asks for a word; of the last.
const INTERRUPTED: &str = " g0 t0 g0*190";

const ASKED: &str = " g0*204";

const ENDED: &str = " g0*155\n";

/// The events of all of its instructions, in their order.
const EVENTS: [(usize, &str); 12] = [
    (1, INTERRUPTED),
    (1, ASKED),
    (2, INTERRUPTED),
    (1, ASKED),
    (2, INTERRUPTED),
    (1, ASKED),
    (2, INTERRUPTED),
    (1, ASKED),
    (2, INTERRUPTED),
    (1, ASKED),
    (19, INTERRUPTED),
    (1, ENDED),
];

/// The end of what `script probes` writes of it: none of the entries is unexplained.
const MASKED_REPORT: &str = "\
harts 8
order 0*69
task 0: exited 00000000 count 34
out 0:
probes 24957 public 22109 value 2838 step 10 unexplained 0
latches reg 2611 portA 6468 portB 2555 res 6182 load 2382 store 2360 scr 102 mem 2297
";

/// A task that puts out 42 and exits with it.
const FORTY_TWO: &str =
    "bundle 1\nslots 1\ntask fuel 5 out 4 data 0\nwords 02a00513 00100893 00000073 00000893 00000073\nendtask\n";

/// The listing has a line an entry, and the report of one task has six.
#[test]
fn long_logs(rt: HostRuntime) -> Result<(), Fail> {
    let alloc = rt.alloc();
    let words = &["script", "probes"];
    let events = text_of(alloc, &EVENTS)?;
    let input = text_of(alloc, &[(1, MASKED_AND), (1, events.as_str())])?;
    let sink = output_of(&rt, words, input.as_str(), 4_194_304, 0)?;
    assert!(rt; sink.bytes().ends_with(MASKED_REPORT.as_bytes()));
    assert_eq!(rt; lines_of(sink.bytes()), 24_957 + 6);

    // A log that has no room for another event is full.
    let input = text_of(alloc, &[(1, FORTY_TWO), (1, "events g0*998750\n")])?;
    let sink = output_of(&rt, words, input.as_str(), 100_000_000, 0)?;
    assert_eq!(rt; lines_of(sink.bytes()), 999_995 + 6);
    let input = text_of(alloc, &[(1, FORTY_TWO), (1, "events g0*998751\n")])?;
    let sink = output_of(&rt, words, input.as_str(), 4096, 7)?;
    assert_eq!(rt; sink.bytes(), b"log full\n".as_slice());
    Ok(())
}

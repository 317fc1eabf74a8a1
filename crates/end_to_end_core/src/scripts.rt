//! The core of a bundle, by its list of events: whole reports, as an independent model of the machine gives them.

use crate::harness::writes_each;
use std::test::Fail;

/// The report of a script, and the bundle.
const REPORTS: [(&str, &[&str]); 11] = [
    // A task that puts out 42 and exits with it: preempted after two instructions, up to the step before it is given back and with that step;
    // to its end.
    (
        "\
harts 8
order 0
task 0: hart 0 slot 0 count 2
out 0:
probes 720 public 700 value 18 step 2 unexplained 0
latches reg 77 portA 187 portB 72 res 179 load 69 store 67 scr 3 mem 66
",
        &[
            "\
bundle 1
slots 1
task fuel 5 out 4 data 0
words 02a00513 00100893 00000073 00000893 00000073
endtask
events g0*78 t0 g0*113
",
        ],
    ),
    (
        "\
harts 8
order 0*2
task 0: slot 0 count 2
out 0:
probes 724 public 704 value 18 step 2 unexplained 0
latches reg 77 portA 188 portB 73 res 180 load 69 store 68 scr 3 mem 66
",
        &[
            "\
bundle 1
slots 1
task fuel 5 out 4 data 0
words 02a00513 00100893 00000073 00000893 00000073
endtask
events g0*78 t0 g0*114
",
        ],
    ),
    (
        "\
harts 8
order 0*5
task 0: exited 0000002a count 5
out 0: 0000002a
probes 1679 public 1602 value 74 step 3 unexplained 0
latches reg 165 portA 428 portB 181 res 411 load 150 store 171 scr 6 mem 167
",
        &[
            "\
bundle 1
slots 1
task fuel 5 out 4 data 0
words 02a00513 00100893 00000073 00000893 00000073
endtask
events g0*435
",
        ],
    ),
    // The timer of a hart that has nothing to run.
    (
        "\
harts 8
order 0*5
task 0: exited 0000002a count 5
out 0: 0000002a
probes 1780 public 1703 value 74 step 3 unexplained 0
latches reg 165 portA 429 portB 182 res 510 load 150 store 171 scr 6 mem 167
",
        &[
            "\
bundle 1
slots 1
task fuel 5 out 4 data 0
words 02a00513 00100893 00000073 00000893 00000073
endtask
events g0*435 t0 g0*100
",
        ],
    ),
    // A timer that comes twice while the kernel runs is taken once, before the first instruction.
    (
        "\
harts 8
order 0*2
task 0: slot 0 count 0
out 0:
probes 718 public 718 value 0 step 0 unexplained 0
latches reg 75 portA 186 portB 73 res 178 load 69 store 68 scr 3 mem 66
",
        &[
            "\
bundle 1
slots 1
task fuel 5 out 4 data 0
words 02a00513 00100893 00000073 00000893 00000073
endtask
events g0*40 t0*2 g0*36 g0*114
",
        ],
    ),
    // Used fuel is taken before the timer.
    (
        "\
harts 8
order 0*3
task 0: out-of-steps count 2
out 0:
probes 910 public 888 value 20 step 2 unexplained 0
latches reg 79 portA 222 portB 105 res 235 load 70 store 99 scr 3 mem 97
",
        &[
            "\
bundle 1
slots 1
task fuel 2 out 4 data 0
words 02a00513 00100893 00000073 00000893 00000073
endtask
events g0*78 t0 g0*170
",
        ],
    ),
    // One slot for three tasks, two slots and harts for two.
    (
        "\
harts 8
order 0*4
task 0: exited 0000002a count 5
out 0: 0000002a
task 1: slot 0 count 0
out 1:
task 2: waiting count 0
out 2:
probes 1675 public 1598 value 74 step 3 unexplained 0
latches reg 164 portA 427 portB 181 res 410 load 149 store 171 scr 6 mem 167
",
        &[
            "\
bundle 1
slots 1
task fuel 5 out 4 data 0
words 02a00513 00100893 00000073 00000893 00000073
endtask
task fuel 5 out 4 data 0
words 02a00513 00100893 00000073 00000893 00000073
endtask
task fuel 5 out 4 data 0
words 02a00513 00100893 00000073 00000893 00000073
endtask
events g0*434
",
        ],
    ),
    (
        "\
harts 8
order 0 1
task 0: hart 0 slot 0 count 0
out 0:
task 1: hart 1 slot 1 count 0
out 1:
probes 500 public 500 value 0 step 0 unexplained 0
latches reg 74 portA 150 portB 2 res 136 load 136 store 0 scr 2 mem 0
",
        &[
            "\
bundle 1
slots 2
task fuel 5 out 4 data 0
words 02a00513 00100893 00000073 00000893 00000073
endtask
task fuel 5 out 4 data 0
words 02a00513 00100893 00000073 00000893 00000073
endtask
events g0*76 g1*76
",
        ],
    ),
    // Two harts that are both preempted, each of which then takes the task of the other.
    (
        "\
harts 8
order 0 1 0 1*2 0
task 0: hart 1 slot 0 count 2
out 0:
task 1: hart 0 slot 1 count 3
out 1:
probes 1948 public 1896 value 48 step 4 unexplained 0
latches reg 228 portA 526 portB 148 res 496 load 274 store 136 scr 8 mem 132
",
        &[
            "\
bundle 1
slots 2
task fuel 5 out 4 data 0
words 02a00513 00100893 00000073 00000893 00000073
endtask
task fuel 5 out 4 data 0
words 02a00513 00100893 00000073 00000893 00000073
endtask
events g0*78 g1*78 t0*2 g0*114 t1 g1*114 g1*76 g0*77
",
        ],
    ),
    // -7 divided by 2, and preempted before it is put out.
    (
        "\
harts 8
order 0*7
task 0: exited fffffffd count 7
out 0: fffffffd
probes 2648 public 2522 value 120 step 6 unexplained 0
latches reg 242 portA 617 portB 256 res 833 load 219 store 239 scr 9 mem 233
",
        &[
            "\
bundle 1
slots 1
task fuel 7 out 4 data 0
words ff900513 00200593 02b54533 00100893 00000073 00000893 00000073
endtask
events g0*79 t0 g0*790
",
        ],
    ),
    // Each register but x0 gets a value. Then the task is preempted, stores all but the last, loads them one by one and puts each out.
    (EVERY_REGISTER_REPORT, &[EVERY_REGISTER]),
];

const EVERY_REGISTER: &str = "bundle 1\nslots 1\ntask fuel 200 out 30 data 30\nwords \
    081230b7 04108093 10246137 08210113 183691b7 0c318193 2048c237 10420213 285af2b7 14528293 306d2337 18630313 387f53b7 1c738393 40918437 \
    20840413 48a3b4b7 24948493 50b5e537 28a50513 58c815b7 2cb58593 60da4637 30c60613 68ec76b7 34d68693 70fea737 38e70713 7910d7b7 3cf78793 \
    81230837 41080813 893538b7 45188893 91476937 49290913 995999b7 4d398993 a16bca37 514a0a13 a97dfab7 555a8a93 b1902b37 596b0b13 b9a25bb7 \
    5d7b8b93 c1b48c37 618c0c13 c9c6bcb7 659c8c93 d1d8ed37 69ad0d13 d9eb1db7 6dbd8d93 e1fd4e37 71ce0e13 ea0f7eb7 75de8e93 f221af37 79ef0f13 \
    00108fb7 001fa023 002fa223 003fa423 004fa623 005fa823 006faa23 007fac23 008fae23 029fa023 02afa223 02bfa423 02cfa623 02dfa823 02efaa23 \
    02ffac23 030fae23 051fa023 052fa223 053fa423 054fa623 055fa823 056faa23 057fac23 058fae23 079fa023 07afa223 07bfa423 07cfa623 07dfa823 \
    07efaa23 00100893 000fa503 00000073 004fa503 00000073 008fa503 00000073 00cfa503 00000073 010fa503 00000073 014fa503 00000073 018fa503 \
    00000073 01cfa503 00000073 020fa503 00000073 024fa503 00000073 028fa503 00000073 02cfa503 00000073 030fa503 00000073 034fa503 00000073 \
    038fa503 00000073 03cfa503 00000073 040fa503 00000073 044fa503 00000073 048fa503 00000073 04cfa503 00000073 050fa503 00000073 054fa503 \
    00000073 058fa503 00000073 05cfa503 00000073 060fa503 00000073 064fa503 00000073 068fa503 00000073 06cfa503 00000073 070fa503 00000073 \
    074fa503 00000073 00000893 00000073 \
    \nendtask\nevents g0*137 t0 g0*20000\n";

const EVERY_REGISTER_REPORT: &str = "\
harts 8
order 0*65
task 0: exited f221a79e count 154
out 0: 08123041 10246082 183690c3 2048c104 285af145 306d2186 387f51c7 40918208 48a3b249 50b5e28a 58c812cb 60da430c 68ec734d 70fea38e \
    7910d3cf 81230410 89353451 91476492 995994d3 a16bc514 a97df555 b1902596 b9a255d7 c1b48618 c9c6b659 d1d8e69a d9eb16db e1fd471c ea0f775d \
    f221a79e
probes 38391 public 27290 value 10830 step 271 unexplained 0
latches reg 2679 portA 6446 portB 2489 res 19723 load 2424 store 2299 scr 96 mem 2235
";

/// The reports of tasks that do what no task may, each run to its end, and the tasks but for their last lines.
const HOSTILE: [(&str, &[&str]); 6] = [
    (
        "\
harts 8
order 0*3
task 0: faulted 2 at 00100000 count 1
out 0:
probes 1554 public 1554 value 0 step 0 unexplained 0
latches reg 75 portA 218 portB 104 res 888 load 70 store 99 scr 3 mem 97
",
        &[
            "task fuel 5 out 4 data 0\nwords 340020f3",
            "task fuel 5 out 4 data 0\nwords 30200073",
            "task fuel 5 out 4 data 0\nwords 10500073",
        ],
    ),
    (
        "\
harts 8
order 0*3
task 0: faulted 3 at 00100000 count 1
out 0:
probes 1554 public 1554 value 0 step 0 unexplained 0
latches reg 75 portA 218 portB 104 res 888 load 70 store 99 scr 3 mem 97
",
        &["task fuel 5 out 4 data 0\nwords 00100073"],
    ),
    (
        "\
harts 8
order 0*3
task 0: faulted 7 at 00100004 count 2
out 0:
probes 1558 public 1543 value 14 step 1 unexplained 0
latches reg 76 portA 219 portB 105 res 889 load 70 store 99 scr 3 mem 97
",
        &[
            "task fuel 5 out 4 data 0\nwords 000010b7 0000a023",
            "task fuel 5 out 4 data 0\nwords 00000097 0000a023",
        ],
    ),
    (
        "\
harts 8
order 0*3
task 0: faulted 5 at 00100000 count 1
out 0:
probes 1556 public 1552 value 4 step 0 unexplained 0
latches reg 75 portA 219 portB 104 res 889 load 70 store 99 scr 3 mem 97
",
        &[
            "task fuel 5 out 4 data 0\nwords 20002083",
            "task fuel 5 out 4 data 0\nwords 70002083",
        ],
    ),
    (
        "\
harts 8
order 0*3
task 0: faulted 1 at 00000000 count 2
out 0:
probes 1555 public 1551 value 4 step 0 unexplained 0
latches reg 75 portA 219 portB 104 res 888 load 70 store 99 scr 3 mem 97
",
        &["task fuel 5 out 4 data 0\nwords 00000067"],
    ),
    (
        "\
harts 8
order 0*3
task 0: out-of-steps count 5
out 0:
probes 1558 public 1552 value 2 step 4 unexplained 0
latches reg 77 portA 220 portB 105 res 887 load 70 store 99 scr 3 mem 97
",
        &["task fuel 5 out 4 data 0\nwords 0000006f"],
    ),
];

/// The reports of the same tasks where the timer comes after each of their first six instructions.
const PREEMPTED: [(&str, &[&str]); 6] = [
    (
        "\
harts 8
order 0*3
task 0: faulted 2 at 00100000 count 1
out 0:
probes 1876 public 1876 value 0 step 0 unexplained 0
latches reg 75 portA 218 portB 104 res 1210 load 70 store 99 scr 3 mem 97
",
        &[
            "task fuel 5 out 4 data 0\nwords 340020f3",
            "task fuel 5 out 4 data 0\nwords 30200073",
            "task fuel 5 out 4 data 0\nwords 10500073",
        ],
    ),
    (
        "\
harts 8
order 0*3
task 0: faulted 3 at 00100000 count 1
out 0:
probes 1876 public 1876 value 0 step 0 unexplained 0
latches reg 75 portA 218 portB 104 res 1210 load 70 store 99 scr 3 mem 97
",
        &["task fuel 5 out 4 data 0\nwords 00100073"],
    ),
    (
        "\
harts 8
order 0*5
task 0: faulted 7 at 00100004 count 2
out 0:
probes 2408 public 2382 value 26 step 0 unexplained 0
latches reg 151 portA 405 portB 178 res 1199 load 139 store 167 scr 6 mem 163
",
        &[
            "task fuel 5 out 4 data 0\nwords 000010b7 0000a023",
            "task fuel 5 out 4 data 0\nwords 00000097 0000a023",
        ],
    ),
    (
        "\
harts 8
order 0*3
task 0: faulted 5 at 00100000 count 1
out 0:
probes 1878 public 1874 value 4 step 0 unexplained 0
latches reg 75 portA 219 portB 104 res 1211 load 70 store 99 scr 3 mem 97
",
        &[
            "task fuel 5 out 4 data 0\nwords 20002083",
            "task fuel 5 out 4 data 0\nwords 70002083",
        ],
    ),
    (
        "\
harts 8
order 0*5
task 0: faulted 1 at 00000000 count 2
out 0:
probes 2405 public 2401 value 4 step 0 unexplained 0
latches reg 150 portA 405 portB 177 res 1198 load 139 store 167 scr 6 mem 163
",
        &["task fuel 5 out 4 data 0\nwords 00000067"],
    ),
    (
        "\
harts 8
order 0*11
task 0: out-of-steps count 5
out 0:
probes 3992 public 3982 value 10 step 0 unexplained 0
latches reg 377 portA 964 portB 397 res 1161 load 346 store 371 scr 15 mem 361
",
        &["task fuel 5 out 4 data 0\nwords 0000006f"],
    ),
];

/// The reports of tasks that store past their data, load half a word too far, ask for a word too many, and call what there isn't.
const FAULTY: [(&str, &[&str]); 4] = [
    (
        "\
harts 8
order 0*3
task 0: faulted 7 at 00100008 count 3
out 0:
probes 1162 public 1141 value 17 step 4 unexplained 0
latches reg 76 portA 220 portB 106 res 489 load 70 store 100 scr 3 mem 98
",
        &["task fuel 5 out 4 data 1\nwords 001080b7 0000a023 0000a223"],
    ),
    (
        "\
harts 8
order 0*3
task 0: faulted 4 at 00100004 count 2
out 0:
probes 1157 public 1144 value 12 step 1 unexplained 0
latches reg 76 portA 219 portB 104 res 489 load 70 store 99 scr 3 mem 97
",
        &["task fuel 5 out 4 data 1\nwords 001080b7 0020a003"],
    ),
    (
        "\
harts 8
order 0*5
task 0: tape-end count 3
out 0:
probes 1750 public 1688 value 62 step 0 unexplained 0
latches reg 166 portA 433 portB 186 res 471 load 149 store 171 scr 6 mem 168
",
        &["task fuel 5 out 4 data 0\ntape b\nwords 00200893 00000073 00000073"],
    ),
    (
        "\
harts 8
order 0*3
task 0: bad-call 00000009 count 2
out 0:
probes 1183 public 1159 value 24 step 0 unexplained 0
latches reg 84 portA 232 portB 108 res 485 load 73 store 100 scr 3 mem 98
",
        &["task fuel 5 out 4 data 0\nwords 00900893 00000073"],
    ),
];

/// The lines around the tasks of the three tables.
const TO_THE_END: (&str, &str) = ("bundle 1\nslots 1\n", "\nendtask\nevents g0*900\n");

const PREEMPTING: (&str, &str) = (
    "bundle 1\nslots 1\n",
    "\nendtask\nevents g0*76 g0 t0 g0*190 g0 t0 g0*190 g0 t0 g0*190 g0 t0 g0*190 g0 t0 g0*190 g0 t0 g0*190\n",
);

const SHORT: (&str, &str) = ("bundle 1\nslots 1\n", "\nendtask\nevents g0*500\n");

#[test]
fn reports(rt: HostRuntime) -> Result<(), Fail> {
    let words = &["script"];
    writes_each(&rt, words, ("", ""), &REPORTS)?;
    writes_each(&rt, words, TO_THE_END, &HOSTILE)?;
    writes_each(&rt, words, PREEMPTING, &PREEMPTED)?;
    writes_each(&rt, words, SHORT, &FAULTY)
}

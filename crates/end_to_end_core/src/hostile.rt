//! Tasks that do what no task may, beside some that do no harm, on one core: each ends as it does alone, as an independent model of the run alone
//! gives it, whichever harts run it and wherever timers stop it.

use crate::harness::{output_of, text_of};
use crate::runs::{line_with, run_of};
use io_edge::FreeGate;
use std::process::Abort;
use std::test::Fail;

/// The lines of each task, and its lines of the report.
const TASKS: [(&str, &str); 32] = [
    // A task that does no harm.
    (
        "task fuel 5 out 4 data 0\nwords 02a00513 00100893 00000073 00000893 00000073\nendtask\n",
        "task 0: exited 0000002a count 5\nout 0: 0000002a\n",
    ),
    // Words that no task may execute: csrrs of mscratch and mhartid, csrrw of mtvec, csrrwi of pmpcfg0, mret, sret, and an atomic instruction.
    (
        "task fuel 5 out 4 data 0\nwords 340020f3\nendtask\n",
        "task 1: faulted 2 at 00110000 count 1\nout 1:\n",
    ),
    (
        "task fuel 5 out 4 data 0\nwords f14020f3\nendtask\n",
        "task 2: faulted 2 at 00120000 count 1\nout 2:\n",
    ),
    (
        "task fuel 5 out 4 data 0\nwords 30509073\nendtask\n",
        "task 3: faulted 2 at 00130000 count 1\nout 3:\n",
    ),
    (
        "task fuel 5 out 4 data 0\nwords 3a0fd073\nendtask\n",
        "task 4: faulted 2 at 00140000 count 1\nout 4:\n",
    ),
    (
        "task fuel 5 out 4 data 0\nwords 30200073\nendtask\n",
        "task 5: faulted 2 at 00150000 count 1\nout 5:\n",
    ),
    (
        "task fuel 5 out 4 data 0\nwords 10200073\nendtask\n",
        "task 6: faulted 2 at 00160000 count 1\nout 6:\n",
    ),
    (
        "task fuel 5 out 4 data 0\nwords 0000202f\nendtask\n",
        "task 7: faulted 2 at 00170000 count 1\nout 7:\n",
    ),
    // A breakpoint.
    (
        "task fuel 5 out 4 data 0\nwords 00100073\nendtask\n",
        "task 8: faulted 3 at 00180000 count 1\nout 8:\n",
    ),
    // Loads of a slot, of the ports TAKE and TAPE, of the kernel's code and of another task's code.
    (
        "task fuel 5 out 4 data 0\ncode\nlw x1,0x204(x0)\nendcode\nendtask\n",
        "task 9: faulted 5 at 00190000 count 1\nout 9:\n",
    ),
    (
        "task fuel 5 out 4 data 0\ncode\nlbu x1,0x700(x0)\nendcode\nendtask\n",
        "task 10: faulted 5 at 001a0000 count 1\nout 10:\n",
    ),
    (
        "task fuel 5 out 4 data 0\ntape 7\ncode\nlw x1,0x70c(x0)\nendcode\nendtask\n",
        "task 11: faulted 5 at 001b0000 count 1\nout 11:\n",
    ),
    (
        "task fuel 5 out 4 data 0\ncode\nlui x1,1\nlw x2,0(x1)\nendcode\nendtask\n",
        "task 12: faulted 5 at 001c0004 count 2\nout 12:\n",
    ),
    (
        "task fuel 5 out 4 data 0\ncode\nlui x1,0x100\nlw x2,0(x1)\nendcode\nendtask\n",
        "task 13: faulted 5 at 001d0004 count 2\nout 13:\n",
    ),
    // Stores to the word that is always 0, to a slot, to the ports GIVE and EXIT, to the kernel's code, to its own, and to the data of the last task.
    (
        "task fuel 5 out 4 data 0\ncode\nli x1,-1\nsw x1,0x100(x0)\nendcode\nendtask\n",
        "task 14: faulted 7 at 001e0004 count 2\nout 14:\n",
    ),
    (
        "task fuel 5 out 4 data 0\ncode\nli x1,-1\nsw x1,0x280(x0)\nendcode\nendtask\n",
        "task 15: faulted 7 at 001f0004 count 2\nout 15:\n",
    ),
    (
        "task fuel 5 out 4 data 0\ncode\nsw x0,0x704(x0)\nendcode\nendtask\n",
        "task 16: faulted 7 at 00200000 count 1\nout 16:\n",
    ),
    (
        "task fuel 5 out 4 data 0\ncode\nsb x0,0x714(x0)\nendcode\nendtask\n",
        "task 17: faulted 7 at 00210000 count 1\nout 17:\n",
    ),
    (
        "task fuel 5 out 4 data 0\ncode\nlui x1,1\nsw x0,0(x1)\nendcode\nendtask\n",
        "task 18: faulted 7 at 00220004 count 2\nout 18:\n",
    ),
    (
        "task fuel 5 out 4 data 0\ncode\nauipc x1,0\nsh x0,0(x1)\nendcode\nendtask\n",
        "task 19: faulted 7 at 00230004 count 2\nout 19:\n",
    ),
    (
        "task fuel 5 out 4 data 0\ncode\nlui x1,0x2f8\nsw x1,0(x1)\nendcode\nendtask\n",
        "task 20: faulted 7 at 00240004 count 2\nout 20:\n",
    ),
    // A load past its own data, and accesses and a jump out of line.
    (
        "task fuel 5 out 4 data 1\ncode\nlui x1,0x258\nlh x2,4(x1)\nendcode\nendtask\n",
        "task 21: faulted 5 at 00250004 count 2\nout 21:\n",
    ),
    (
        "task fuel 5 out 4 data 0\ncode\nlw x1,0x102(x0)\nendcode\nendtask\n",
        "task 22: faulted 4 at 00260000 count 1\nout 22:\n",
    ),
    (
        "task fuel 5 out 4 data 0\ncode\nsh x1,0x101(x0)\nendcode\nendtask\n",
        "task 23: faulted 6 at 00270000 count 1\nout 23:\n",
    ),
    (
        "task fuel 5 out 4 data 0\ncode\nauipc x1,0\njalr x0,6(x1)\nendcode\nendtask\n",
        "task 24: faulted 0 at 00280004 count 2\nout 24:\n",
    ),
    // Jumps to the kernel's entry and to its take, into another task's code, and off the end.
    (
        "task fuel 5 out 4 data 0\ncode\nlui x1,1\njalr x0,0(x1)\nendcode\nendtask\n",
        "task 25: faulted 1 at 00001000 count 3\nout 25:\n",
    ),
    (
        "task fuel 5 out 4 data 0\ncode\nlui x1,1\njalr x0,0x324(x1)\nendcode\nendtask\n",
        "task 26: faulted 1 at 00001324 count 3\nout 26:\n",
    ),
    (
        "task fuel 5 out 4 data 0\ncode\nlui x1,0x100\njalr x0,0(x1)\nendcode\nendtask\n",
        "task 27: faulted 1 at 00100000 count 3\nout 27:\n",
    ),
    (
        "task fuel 5 out 4 data 0\ncode\nnop\nnop\nendcode\nendtask\n",
        "task 28: faulted 1 at 002c0008 count 3\nout 28:\n",
    ),
    // A service that isn't there, and one that has all of its output and goes on.
    (
        "task fuel 5 out 4 data 0\ncode\nli a7,-1\necall\nendcode\nendtask\n",
        "task 29: bad-call ffffffff count 2\nout 29:\n",
    ),
    // Addresses of slots and ports in every register that the kernel uses, and yields without end.
    (
        "task fuel 30 out 0 data 0\ncode\nli x5,0x200\nli x6,0x700\nli x7,8\nli a7,3\necall\nj .-4\nendcode\nendtask\n",
        "task 30: out-of-steps count 30\nout 30:\n",
    ),
    // The last task's data, which nobody else has touched.
    (
        "task fuel 9 out 1 data 1\ncode\nlui x1,0x2f8\nlw a0,0(x1)\nli a7,1\necall\nj .-4\nendcode\nendtask\n",
        "task 31: out-full count 6\nout 31: 00000000\n",
    ),
];

/// The first lines of the bundle.
const HEAD: &str = "bundle 1\nslots 3\n";

/// Plans of eight harts, of which some stop a task after each instruction, and some before its first one.
const PLANS: &str = "\
plan 0 tail 1
plan 1 tail 2 quanta 0 0 1
plan 2 tail 1 quanta 3
plan 4 tail 5 quanta 0
plan 5 tail 1 quanta 0 0 0 0
plan 7 tail 4096
";

/// Plans of two harts.
const TWO_PLANS: &str = "plan 0 tail 1 quanta 0\nplan 1 tail 1\n";

/// The number of harts as a word, and their plans.
const RUNS: [(&str, &str); 4] = [
    ("1", ""),
    ("1", "plan 0 tail 1 quanta 0\n"),
    ("2", TWO_PLANS),
    ("8", PLANS),
];

/// Events after which all tasks have ended: one hart without ticks; one whose timer comes at every place of the kernel and after every instruction
/// of a task; three harts, of which two have ticks.
const EVENTS: [&[(usize, &str)]; 3] = [
    &[(1, "events g0*30000\n")],
    &[
        (1, "events g0*76"),
        (500, " g0 t0 g0*190"),
        (200, " t0 g0*197"),
        (1, " g0*30000\n"),
    ],
    &[
        (1, "events"),
        (60, " g0*97 g1*101 t1 g7*89 t7 g1*3 g0"),
        (1, " g0*30000 g1*30000 g7*30000\n"),
    ],
];

/// The texts of all tasks, and of all of their reports.
fn tasks_of<R: AllocGlobal>(rt: &R) -> Result<(String, String), Fail> {
    let mut tasks = String::new(rt.alloc());
    let mut reports = String::new(rt.alloc());
    for (task, report) in &TASKS {
        tasks.push_str(task)?;
        reports.push_str(report)?;
    }
    Ok((tasks, reports))
}

/// The report of a core has to have these reports of its tasks, and no entry of its log is unexplained.
fn keeps<R: Abort>(rt: &R, report: &str, tasks: &str) {
    assert!(rt; report.contains(tasks), "{report}");
    assert!(rt; report.contains(" unexplained 0\n"), "{report}");
}

#[test]
fn hostile_tasks(rt: HostRuntime) -> Result<(), Fail> {
    let alloc = rt.alloc();
    let (tasks, reports) = tasks_of(&rt)?;
    let bundle = text_of(alloc, &[(1, HEAD), (1, tasks.as_str())])?;
    let alone = output_of(&rt, &["alone"], bundle.as_str(), 65_536, 0)?;
    assert_eq!(&rt; str::from_utf8(alone.bytes())?, reports.as_str());
    for events in &EVENTS {
        let events = text_of(alloc, events)?;
        let input = text_of(alloc, &[(1, bundle.as_str()), (1, events.as_str())])?;
        let ran = output_of(&rt, &["script"], input.as_str(), 65_536, 0)?;
        keeps(&rt, str::from_utf8(ran.bytes())?, reports.as_str());
    }
    for (harts, plans) in &RUNS {
        let bundle = text_of(alloc, &[(1, HEAD), (1, plans), (1, tasks.as_str())])?;
        let ran = run_of(&rt, &["run", *harts], bundle.as_str(), &FreeGate, 0)?;
        let report = str::from_utf8(ran.bytes())?;
        keeps(&rt, report, reports.as_str());
        let order = line_with(report, "order ");
        let input = format!(in alloc; "{bundle}{order}\n")?;
        let again = output_of(&rt, &["replay", *harts], input.as_str(), 65_536, 0)?;
        assert_eq!(&rt; str::from_utf8(again.bytes())?, report, "{input}");
    }
    Ok(())
}

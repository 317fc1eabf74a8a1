//! Drills: each of their tasks ends as it does alone.

use crate::harness::output_of;
use std::alloc::{AllocError, Global};
use std::test::Fail;

/// The lines of a report that are about tasks.
fn task_lines(alloc: Global, report: &str) -> Result<String, AllocError> {
    let mut lines = String::new(alloc);
    for line in report.lines() {
        if line.starts_with("task ") || line.starts_with("out ") {
            lines.push_str(line)?;
            lines.push_str("\n")?;
        }
    }
    Ok(lines)
}

/// Seeds and numbers of tasks.
const DRILLS: [(&str, &str); 4] = [
    ("1", "1"),
    ("1", "32"),
    ("7", "04"),
    ("18446744073709551615", "9"),
];

#[test]
fn tasks_of_drills_end_as_alone(rt: HostRuntime) -> Result<(), Fail> {
    let alloc = rt.alloc();
    for (seed, tasks) in &DRILLS {
        let bundle = output_of(&rt, &["gen", *seed, *tasks], "", 262_144, 0)?;
        let alone = output_of(&rt, &["alone"], str::from_utf8(bundle.bytes())?, 65_536, 0)?;
        let drill = output_of(&rt, &["drill", *seed, *tasks], "", 65_536, 0)?;
        let report = str::from_utf8(drill.bytes())?;
        assert_eq!(&rt;
            task_lines(alloc, report)?.as_str(),
            str::from_utf8(alone.bytes())?,
            "{seed} {tasks}"
        );
        assert!(&rt; report.starts_with("harts 1\norder 0*"), "{report}");
        assert!(&rt; report.contains(" unexplained 0\n"), "{report}");
    }
    Ok(())
}

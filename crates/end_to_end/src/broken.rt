//! Bundles that are cut off at each byte, and bundles of which one byte is another or is left out: answers of an independent model.

use crate::harness::{FORTY_TWO, FORTY_TWO_REPORT, SOUND, runs};
use std::process::Abort;
use std::test::Fail;

/// A bundle with every kind of line.
const MANY: &str = "\
bundle 2
slots 2
plan 1 tail 5 quanta 0 3
task fuel 9 out 1 data 1 band 1
tape 2a
code
li a7,2
a: j a
endcode
endtask
task fuel 2 out 0 data 0 band 0
words 893 73
endtask
world 0 1
events g0*3 t1
order 1 0*2
";

/// What `alone` writes of it.
const MANY_REPORT: &str = "\
task 0: out-of-steps count 9
out 0:
task 1: exited 00000000 count 2
out 1:
";

/// The bundle of one task, cut off. A row is for each number of bytes from that of the row before, or 0, to below its own: the number of the
/// status, and what `alone` writes.
const CUT: [(usize, u8, &str); 14] = [
    (1, 3, "line 1: missing\n"),
    (6, 3, "line 1: unknown word\n"),
    (8, 3, "line 1: operands\n"),
    (10, 3, "line 2: missing\n"),
    (14, 3, "line 2: unknown word\n"),
    (16, 3, "line 2: operands\n"),
    (18, 3, "limit tasks 0\n"),
    (21, 3, "line 3: unknown word\n"),
    (41, 3, "line 3: operands\n"),
    (43, 3, "line 4: missing\n"),
    (47, 3, "line 4: unknown word\n"),
    (94, 3, "line 5: missing\n"),
    (100, 3, "line 5: unknown word\n"),
    (102, 0, FORTY_TWO_REPORT),
];

/// The bundle with every kind of line, cut off in the same way.
const MANY_CUT: [(usize, u8, &str); 46] = [
    (1, 3, "line 1: missing\n"),
    (6, 3, "line 1: unknown word\n"),
    (8, 3, "line 1: operands\n"),
    (10, 3, "line 2: missing\n"),
    (14, 3, "line 2: unknown word\n"),
    (16, 3, "line 2: operands\n"),
    (18, 3, "limit tasks 0\n"),
    (21, 3, "line 3: unknown word\n"),
    (30, 3, "line 3: operands\n"),
    (32, 3, "limit tasks 0\n"),
    (37, 3, "line 3: operands\n"),
    (43, 3, "limit tasks 0\n"),
    (46, 3, "line 4: unknown word\n"),
    (73, 3, "line 4: operands\n"),
    (75, 3, "line 5: missing\n"),
    (78, 3, "line 5: unknown word\n"),
    (83, 3, "line 6: missing\n"),
    (86, 3, "line 6: unknown word\n"),
    (88, 3, "line 7: missing\n"),
    (96, 3, "line 8: missing\n"),
    (103, 3, "line 9: missing\n"),
    (111, 3, "line 10: missing\n"),
    (117, 3, "line 10: unknown word\n"),
    (119, 0, "task 0: out-of-steps count 9\nout 0:\n"),
    (122, 3, "line 11: unknown word\n"),
    (149, 3, "line 11: operands\n"),
    (151, 3, "line 12: missing\n"),
    (155, 3, "line 12: unknown word\n"),
    (164, 3, "line 13: missing\n"),
    (170, 3, "line 13: unknown word\n"),
    (172, 0, MANY_REPORT),
    (176, 3, "line 14: unknown word\n"),
    (178, 3, "line 14: operands\n"),
    (182, 0, MANY_REPORT),
    (187, 3, "line 15: unknown word\n"),
    (189, 0, MANY_REPORT),
    (190, 3, "line 15: bad number\n"),
    (191, 0, MANY_REPORT),
    (192, 3, "line 15: bad number\n"),
    (194, 0, MANY_REPORT),
    (195, 3, "line 15: bad number\n"),
    (197, 0, MANY_REPORT),
    (201, 3, "line 16: unknown word\n"),
    (206, 0, MANY_REPORT),
    (207, 3, "line 16: bad number\n"),
    (209, 0, MANY_REPORT),
];

/// The same bundle where one byte is ff. A row is for each place of this byte from that of the row before, or 0, to below its own.
const NO_TEXT: [(usize, u8, &str); 16] = [
    (9, 3, "line 1: not text\n"),
    (17, 3, "line 2: not text\n"),
    (42, 3, "line 3: not text\n"),
    (74, 3, "line 4: not text\n"),
    (82, 3, "line 5: not text\n"),
    (87, 3, "line 6: not text\n"),
    (95, 3, "line 7: not text\n"),
    (102, 3, "line 8: not text\n"),
    (110, 3, "line 9: not text\n"),
    (118, 3, "line 10: not text\n"),
    (150, 3, "line 11: not text\n"),
    (163, 3, "line 12: not text\n"),
    (171, 3, "line 13: not text\n"),
    (181, 3, "line 14: not text\n"),
    (196, 3, "line 15: not text\n"),
    (208, 3, "line 16: not text\n"),
];

/// The same bundle where one byte is left out.
const LEFT_OUT: [(usize, u8, &str); 45] = [
    (7, 3, "line 1: unknown word\n"),
    (9, 3, "line 1: operands\n"),
    (15, 3, "line 2: unknown word\n"),
    (17, 3, "line 2: operands\n"),
    (22, 3, "line 3: unknown word\n"),
    (38, 3, "line 3: operands\n"),
    (41, 0, MANY_REPORT),
    (42, 3, "line 3: bad number\n"),
    (47, 3, "line 4: unknown word\n"),
    (74, 3, "line 4: operands\n"),
    (79, 3, "line 5: unknown word\n"),
    (81, 0, MANY_REPORT),
    (82, 3, "line 5: bad number\n"),
    (87, 3, "line 6: unknown word\n"),
    (90, 3, "line 7: asm unknown word\n"),
    (92, 3, "line 7: asm bad register\n"),
    (93, 3, "line 7: asm operands\n"),
    (95, 3, "line 7: asm bad number\n"),
    (97, 3, "line 8: asm unknown word\n"),
    (98, 0, MANY_REPORT),
    (100, 3, "line 8: asm unknown word\n"),
    (101, 3, "line 8: asm operands\n"),
    (102, 3, "line 16: missing\n"),
    (109, 3, "line 17: missing\n"),
    (110, 3, "line 16: missing\n"),
    (118, 3, "line 10: unknown word\n"),
    (123, 3, "line 11: unknown word\n"),
    (150, 3, "line 11: operands\n"),
    (156, 3, "line 12: unknown word\n"),
    (157, 0, MANY_REPORT),
    (
        158,
        0,
        "task 0: out-of-steps count 9\nout 0:\ntask 1: faulted 5 at 00110000 count 1\nout 1:\n",
    ),
    (
        160,
        0,
        "task 0: out-of-steps count 9\nout 0:\ntask 1: faulted 2 at 00110000 count 1\nout 1:\n",
    ),
    (
        161,
        0,
        "task 0: out-of-steps count 9\nout 0:\ntask 1: faulted 5 at 00110004 count 2\nout 1:\n",
    ),
    (
        162,
        0,
        "task 0: out-of-steps count 9\nout 0:\ntask 1: faulted 2 at 00110004 count 2\nout 1:\n",
    ),
    (163, 3, "line 12: bad number\n"),
    (171, 3, "line 13: unknown word\n"),
    (177, 3, "line 14: unknown word\n"),
    (180, 0, MANY_REPORT),
    (181, 3, "line 14: bad number\n"),
    (188, 3, "line 15: unknown word\n"),
    (196, 3, "line 15: bad number\n"),
    (202, 3, "line 16: unknown word\n"),
    (203, 0, MANY_REPORT),
    (207, 3, "line 16: bad number\n"),
    (208, 0, MANY_REPORT),
];

/// The bundle of one task where one byte is the end of a line.
const BROKEN_LINES: [(usize, u8, &str); 20] = [
    (1, 3, "line 2: unknown word\n"),
    (6, 3, "line 1: unknown word\n"),
    (8, 3, "line 1: operands\n"),
    (9, 0, FORTY_TWO_REPORT),
    (10, 3, "line 3: unknown word\n"),
    (14, 3, "line 2: unknown word\n"),
    (16, 3, "line 2: operands\n"),
    (17, 0, FORTY_TWO_REPORT),
    (18, 3, "line 4: unknown word\n"),
    (21, 3, "line 3: unknown word\n"),
    (41, 3, "line 3: operands\n"),
    (42, 0, FORTY_TWO_REPORT),
    (43, 3, "line 5: unknown word\n"),
    (47, 3, "line 4: unknown word\n"),
    (91, 3, "line 5: unknown word\n"),
    (
        92,
        0,
        "task 0: faulted 2 at 00100010 count 5\nout 0: 0000002a\n",
    ),
    (93, 0, FORTY_TWO_REPORT),
    (94, 3, "line 6: unknown word\n"),
    (100, 3, "line 5: unknown word\n"),
    (101, 0, FORTY_TWO_REPORT),
];

/// The bundle of one task where one byte is `#`.
const COMMENTS: [(usize, u8, &str); 22] = [
    (1, 3, "line 2: misplaced\n"),
    (7, 3, "line 1: unknown word\n"),
    (8, 3, "line 1: bad number\n"),
    (9, 3, "line 1: operands\n"),
    (10, 3, "line 3: misplaced\n"),
    (15, 3, "line 2: unknown word\n"),
    (16, 3, "line 2: bad number\n"),
    (17, 3, "line 2: operands\n"),
    (18, 3, "line 4: misplaced\n"),
    (22, 3, "line 3: unknown word\n"),
    (27, 3, "line 3: operands\n"),
    (28, 3, "line 3: bad number\n"),
    (33, 3, "line 3: operands\n"),
    (34, 3, "line 3: bad number\n"),
    (40, 3, "line 3: operands\n"),
    (41, 3, "line 3: bad number\n"),
    (42, 3, "line 3: operands\n"),
    (43, 0, "task 0: faulted 1 at 00100000 count 1\nout 0:\n"),
    (48, 3, "line 4: unknown word\n"),
    (93, 3, "line 4: bad number\n"),
    (94, 3, "line 6: missing\n"),
    (101, 3, "line 5: unknown word\n"),
];

/// Runs `alone` over the first bytes of a bundle, from none of them to all.
fn cut_each<R: Abort + AllocGlobal>(
    rt: &R,
    bundle: &str,
    rows: &[(usize, u8, &str)],
) -> Result<(), Fail> {
    let bytes = bundle.as_bytes();
    let mut first = 0_usize;
    for (end, number, written) in rows {
        for kept in first..*end {
            assert!(rt; kept <= bytes.len());
            runs(rt, &["alone"], &bytes[..kept], SOUND, *number, written, 0)?;
        }
        first = *end;
    }
    assert!(rt; first > bytes.len(), "rows to {first}");
    Ok(())
}

/// Runs `alone` over a bundle in which these bytes stand in the place of one, for each in turn.
fn break_each<R: Abort + AllocGlobal>(
    rt: &R,
    bundle: &str,
    put: &[u8],
    rows: &[(usize, u8, &str)],
) -> Result<(), Fail> {
    let bytes = bundle.as_bytes();
    let mut first = 0_usize;
    for (end, number, written) in rows {
        for at in first..*end {
            assert!(rt; at < bytes.len());
            let mut broken = bytes[..at].to_vec(rt.alloc())?;
            broken.extend_from_slice(put)?;
            broken.extend_from_slice(&bytes[at + 1..])?;
            runs(
                rt,
                &["alone"],
                broken.as_slice(),
                SOUND,
                *number,
                written,
                0,
            )?;
        }
        first = *end;
    }
    assert_eq!(rt; first, bytes.len());
    Ok(())
}

#[test]
fn broken_bundles(rt: HostRuntime) -> Result<(), Fail> {
    cut_each(&rt, FORTY_TWO, &CUT)?;
    cut_each(&rt, MANY, &MANY_CUT)?;
    break_each(&rt, MANY, &[0xff], &NO_TEXT)?;
    break_each(&rt, MANY, &[], &LEFT_OUT)?;
    break_each(&rt, FORTY_TWO, b"\n", &BROKEN_LINES)?;
    break_each(&rt, FORTY_TWO, b"#", &COMMENTS)
}

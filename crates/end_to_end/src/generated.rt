//! Bundles from a number, as an independent model of the generator gives them. The source isn't read.

use crate::harness::{Edge, FORTY_TWO, SOUND, runs, runs_unread, text_of};
use std::test::Fail;

/// The first lines of each bundle, and of its first task.
const HEAD: (usize, &str) = (
    1,
    "bundle 1\nslots 4\nplan 0 tail 5\ntask fuel 1000 out 2 data 0\n",
);

/// The first line of a later task.
const TASK: (usize, &str) = (1, "task fuel 1000 out 2 data 0\n");

/// The first lines of each code, which take the shares of two words.
const TAKE: (usize, &str) = (
    1,
    "\
code
addi x17,x0,2
ecall
addi x1,x10,0
addi x10,x0,0
ecall
addi x2,x10,0
addi x10,x0,0
ecall
addi x3,x10,0
addi x10,x0,0
ecall
addi x4,x10,0
addi x10,x0,0
",
);

/// An exclusive or on shares.
const XOR: &str = "\
xor x1,x1,x3
add x0,x0,x0
xor x2,x2,x4
add x0,x0,x0
";

/// An And on shares, which takes a mask.
const AND: &str = "\
ecall
addi x5,x10,0
addi x10,x0,0
and x6,x1,x4
add x0,x0,x0
xor x6,x6,x5
add x0,x0,x0
and x7,x1,x3
add x0,x0,x0
xor x7,x7,x6
add x0,x0,x0
and x8,x2,x3
add x0,x0,x0
xor x8,x8,x5
add x0,x0,x0
and x9,x2,x4
add x0,x0,x0
xor x9,x9,x8
add x0,x0,x0
addi x1,x7,0
add x0,x0,x0
addi x2,x9,0
add x0,x0,x0
addi x5,x0,0
addi x6,x0,0
addi x7,x0,0
addi x8,x0,0
addi x9,x0,0
";

/// The last lines of each code and task, which put both shares out.
const PUT: (usize, &str) = (
    1,
    "\
addi x17,x0,1
addi x10,x1,0
ecall
addi x10,x0,0
add x0,x0,x0
addi x10,x2,0
ecall
addi x10,x0,0
addi x17,x0,0
ecall
endcode
endtask
",
);

/// The words and the text that is written.
const BUNDLES: [(&[&[&str]], &[(usize, &str)]); 6] = [
    (
        &[&["gen", "0", "1"], &["gen", "00000000000000000000", "01"]],
        &[
            HEAD,
            (
                1,
                "tape 605eec85 1de85c8e aab5ec0e 035f39c0 8cceaa3e 24c37cb1 06f7569c\n",
            ),
            TAKE,
            (2, AND),
            (1, XOR),
            (1, AND),
            PUT,
        ],
    ),
    (
        &[&["gen", "1", "1"], &["gen", "01", "1"]],
        &[
            HEAD,
            (
                1,
                "tape dbda25d4 0d2ec398 6436ee23 4bd6aad4 c0bbde57 02316562\n",
            ),
            TAKE,
            (1, XOR),
            (1, AND),
            (1, XOR),
            (1, AND),
            (3, XOR),
            PUT,
        ],
    ),
    (
        &[&["gen", "42", "2"]],
        &[
            HEAD,
            (1, "tape 1eb4d0ae fbcfed44 5cc0ffbe a587db8d\n"),
            TAKE,
            (1, XOR),
            PUT,
            TASK,
            (
                1,
                "tape 26362fd9 810fe533 5d992b15 6c922b9c 12ce14c1 dec9a651 8ec051b4\n",
            ),
            TAKE,
            (3, AND),
            PUT,
        ],
    ),
    (
        &[&["gen", "18446744073709551615", "1"]],
        &[
            HEAD,
            (
                1,
                "tape aadae43a 7d94eb98 b3450327 f2104ae1 18e1f034 382bd571 18b4fb6e\n",
            ),
            TAKE,
            (2, XOR),
            (1, AND),
            (2, XOR),
            (2, AND),
            PUT,
        ],
    ),
    (
        &[&["gen", "7", "1"]],
        &[
            HEAD,
            (1, "tape d2193ac4 8d5c3bbc 518eb1ad 280d3624 e2bd3d20\n"),
            TAKE,
            (1, XOR),
            (1, AND),
            PUT,
        ],
    ),
    (
        &[&["gen", "123456789012345678", "1"]],
        &[
            HEAD,
            (1, "tape 350b07d1 c38583a2 c285ff86 85eb5b46 1d82ef58\n"),
            TAKE,
            (1, XOR),
            (1, AND),
            (1, XOR),
            PUT,
        ],
    ),
];

#[test]
fn bundles_from_a_number(rt: HostRuntime) -> Result<(), Fail> {
    let alloc = rt.alloc();
    for (spellings, parts) in &BUNDLES {
        let text = text_of(alloc, parts)?;
        for words in *spellings {
            for input in [FORTY_TWO, "no bundle\n", ""] {
                runs(
                    &rt,
                    words,
                    input.as_bytes(),
                    SOUND,
                    0,
                    text.as_str(),
                    input.len(),
                )?;
            }
            runs_unread(&rt, words, FORTY_TWO.as_bytes(), text.as_str())?;
        }
    }

    // The sink fails at its third call.
    let edge = Edge {
        per_write: 7,
        failing_writes: &[2],
        ..SOUND
    };
    runs(&rt, &["gen", "1", "1"], b"x", edge, 5, "bundle 1\nslots", 1)
}

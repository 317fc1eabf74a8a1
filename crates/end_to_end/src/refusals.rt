//! Lines that are refused, made by hand from the tables of the formats.

use crate::harness::{Frame, writes_each};
use std::test::Fail;

/// The lines of a task's code, of which the first is line 5.
const ONE_CODE: Frame<'static> = Frame {
    input: (
        "bundle 1\nslots 1\ntask fuel 5 out 4 data 0\ncode\n",
        "\nendcode\nendtask\n",
    ),
    written: ("line ", "\n"),
};

/// The line and the cause of a refusal of code, and the code.
const CODE: [(&str, &[&str]); 15] = [
    (
        "5: asm unknown word",
        &[
            "addz x1,x0,1",
            "NOP",
            ".Word 1",
            "subi x1,x2,3",
            "j.+8",
            "lui,x1",
            "1a: nop",
            "a : nop",
            "nop\r#",
            "a123456789b123456789c123456789d123456789e123456789f123456789g1234:",
        ],
    ),
    (
        "5: asm operands",
        &[
            "ecall ,",
            "nop x1",
            "lui",
            "add x1,x2\r",
            "addi x1,x2",
            "add x1,x2,x3,x4",
            "lw x1,4",
            "lw zz,4(x2",
            "lw x1,0 (x2",
            "lw x1,x2,0",
            "sw x1,4 x2)",
            "jalr x1,4(x2)x",
            "addi x32,x0",
        ],
    ),
    (
        "5: asm bad register",
        &[
            "add x1,x32,x3",
            "add x1,x01,x1",
            "add x1,X1,x1",
            "csrrw x1,0x340,A0",
            "mv s12,s11",
            "addi x1,,3",
            "addi x1,zz,2048",
            "addi zz,x1,zz",
            "lw x1,0( x1)",
            "lw x1,zz(yy)",
            "lw x1,4()",
            "lw x1,0((x1)",
            "lw x1,(x1)(s7)",
        ],
    ),
    (
        "5: asm bad number",
        &[
            "lui x1,",
            "lw x1,(x2)",
            "lw x1,0 (x1)",
            "addi x1,x2,+3",
            "addi x1,x2,-",
            "addi x1,x2,0x",
            "addi x1,x2,-0x1",
            "addi x1,x2,12a",
            "addi x1,x2,3\r\r",
            "csrrw x0,mcycle,x1",
            "csrrw x1,Mie,x1",
            "beq x1,x2,.8",
            "j 8",
            "j .+",
            "j .+0x8",
        ],
    ),
    (
        "5: asm out of range",
        &[
            "addi x1,x2,2048",
            "addi x1,x2,-2049",
            "slli x1,x2,32",
            "lui x1,1048576",
            "lui x1,-1",
            "csrrs x1,4096,x0",
            "csrrwi x1,0,32",
            "li x1,4294967296",
            ".word -2147483649",
            "lw x1,2048(x2)",
            "beq x1,x2,.+4096",
            "beq x1,x2,.-4098",
            "bne x1,x2,.+3",
            "jal x1,.+1048576",
            "jal x1,.-1048578",
            "beq x1,x0,.+3\nj nowhere",
        ],
    ),
    ("5: asm duplicate label", &["a: a: addz", "a:b:a: nop"]),
    (
        "6: asm duplicate label",
        &["a: nop\na: nop", "a:\na: addz x1,x0,1"],
    ),
    ("7: asm duplicate label", &["j nowhere\na: nop\na:"]),
    ("9: asm duplicate label", &["nop\n\nb:\tnop\n# b:\nb: lui"]),
    // The first line that is refused, and only then labels that jumps name.
    (
        "6: asm unknown word",
        &[
            "nop\n\tlui,x1 # comment",
            "j a\naddz x1",
            "nop\naddz x1\na:a:",
        ],
    ),
    ("7: asm operands", &["nop\n\naddi x32,x0"]),
    ("6: asm bad register", &["j nowhere\nadd x32,x0,x1"]),
    (
        "6: asm out of range",
        &["nop\naddi x1,x0,2048", "nop\nbeq x1,x0,.+4096\naddz"],
    ),
    (
        "5: asm unknown label",
        &[
            "jal x1,a # a:",
            "here: bnez x1,Here",
            "beqz x1,_nowhere\nj nowhere\nnowhere:",
        ],
    ),
    (
        "6: asm unknown label",
        &["j a\na: j b\n", "nop\nj nowhere\nbeqz x1,neither"],
    ),
];

/// The lines after `bundle 1` and `slots 1`, of which the first is line 3.
const ONE_BUNDLE: Frame<'static> = Frame {
    input: ("bundle 1\nslots 1\n", "\n"),
    written: ("line ", "\n"),
};

/// The line and the cause of a refusal, and the lines.
const BUNDLES: [(&str, &[&str]); 23] = [
    ("3: not text", &["# \x7f", "events\x00", "plan 0\x0b"]),
    (
        "5: not text",
        &["task fuel 1 out 0 data 0\ncode\nnop \x01\nendcode"],
    ),
    (
        "3: unknown word",
        &["plans", "Task fuel 1 out 0 data 0", "\r\r"],
    ),
    ("4: unknown word", &["\r\n\r x"]),
    (
        "6: unknown word",
        &["task fuel 1 out 0 data 0\ncode\nendcode\nx"],
    ),
    (
        "3: misplaced",
        &[
            "bundle 1", "bundle 2", "slots 1", "words", "endcode", "endtask",
        ],
    ),
    (
        "4: misplaced",
        &[
            "order\nplan 0 tail 1",
            "order\nevents",
            "task fuel 1 out 0 data 0\nendcode",
        ],
    ),
    (
        "5: misplaced",
        &[
            "task fuel 1 out 0 data 0\nendtask\nplan 0 tail 1",
            "task fuel 1 out 0 data 0\nwords\ntape",
        ],
    ),
    (
        "6: misplaced",
        &[
            "task fuel 1 out 0 data 0\ncode\nendcode\ncode",
            "task fuel 1 out 0 data 0\ncode\nendcode\nwords",
        ],
    ),
    (
        "3: operands",
        &[
            "plan 0",
            "plan 0 tail 1 quantum",
            "task fuel x out 0 data",
            "task out 0 fuel 1 data 0",
            "task fuel 1 out 0 data 0 band 0",
            "task fuel 0 out 0 data 0 band 2",
            "world",
        ],
    ),
    (
        "5: operands",
        &["task fuel 1 out 0 data 0\nendtask\ntask fuel 1 out 0 data 0 band 0"],
    ),
    (
        "4: operands",
        &[
            "world 0 1\n\tworld 1 1 2",
            "world 0 1 2\nworld x 1",
            "task fuel 1 out 0 data 0\nendtask 1",
            "task fuel 1 out 0 data 0\ncode 1",
        ],
    ),
    (
        "3: bad number",
        &[
            "plan -1 tail 1",
            "plan 0 tail 0x1",
            "task fuel x out 4097 data 0",
            "world 0 0x",
            "world 0 0X1",
            "world 0 00000000g",
            "events g",
            "events g0*",
            "events g00",
            "events G0",
            "events g*5",
            "events g9*x",
            "events x0",
            "events g0*-1",
            "events 0",
            "order 10",
            "order 0*",
            "order 0*2*2",
            "order *5",
            "order 0*+5",
            "order 8*x",
            "order g0",
        ],
    ),
    (
        "3: out of range",
        &[
            "plan 8 tail 1",
            "plan 0 tail 0",
            "plan 0 tail 4097",
            "plan 7 tail 4096 quanta 0 4096 4097",
            "task fuel 0 out 0 data 0",
            "task fuel 100001 out 0 data 0",
            "task fuel 100001 out x data 0",
            "task fuel 100000 out 4097 data 0",
            "task fuel 1 out 4096 data 1025",
            "world 4294967296",
            "world 0 000000001",
            "events g0 t8",
            "events t9*2",
            "events g0*0",
            "events g0*1048576 t7*1048577",
            "events g0*4294967297",
            "events g1*100000000000000000000000000000000000001",
            "order 7 8",
            "order 9*2",
            "order 0*0",
            "order 0*1048577",
            "order 0*18446744073709551617",
            "order 8*99999999999999999999999999999999999999",
        ],
    ),
    (
        "4: out of range",
        &["task fuel 1 out 0 data 1024\ntape ffffffff 100000000"],
    ),
    ("4: repeated", &["plan 0 tail 1\nplan 00 tail 1"]),
    (
        "5: repeated",
        &["plan 0 tail 1\nplan 1 tail 1\nplan 0 tail 2"],
    ),
    (
        "6: repeated",
        &[
            "plan 7 tail 1\n\n# seven\nplan 7 tail 1 quanta",
            "plan 0 tail 1\n#\n\nplan 0 tail 2 quanta 1",
        ],
    ),
    ("4: missing", &["task fuel 1 out 0 data 0"]),
    ("5: missing", &["task fuel 1 out 0 data 0\ncode"]),
    ("6: missing", &["task fuel 1 out 0 data 0\ncode\nendcode #"]),
    (
        "7: missing",
        &[
            "task fuel 1 out 0 data 0\ncode\nendcode x\nendtask",
            "task fuel 1 out 0 data 0\ntape\n\n#",
        ],
    ),
    (
        "4: unknown word",
        &["task fuel 1 out 0 data 0\nendtsk\nendtask"],
    ),
];

/// The lines after `bundle 2` and `slots 1`, of which the first is line 3.
const BANDS_BUNDLE: Frame<'static> = Frame {
    input: ("bundle 2\nslots 1\n", "\n"),
    written: ("line ", "\n"),
};

/// The line and the cause of a refusal where each task says its band, and the lines.
const BANDS: [(&str, &[&str]); 14] = [
    ("3: not text", &["task fuel 1 out 0 data 0 band 0\x01"]),
    (
        "3: unknown word",
        &["band 0", "Task fuel 1 out 0 data 0 band 0"],
    ),
    (
        "3: misplaced",
        &["bundle 1", "bundle 2", "slots 1", "words", "endtask"],
    ),
    (
        "4: misplaced",
        &["task fuel 1 out 0 data 0 band 1\ntask fuel 1 out 0 data 0 band 0"],
    ),
    (
        "5: misplaced",
        &["task fuel 1 out 0 data 0 band 1\nendtask\nplan 0 tail 1"],
    ),
    (
        "3: operands",
        &[
            "task fuel 1 out 0 data 0",
            "task fuel 1 out 0 data 0 band",
            "task fuel 1 out 0 data 0 0",
            "task fuel 1 out 0 data 0 bands 0",
            "task fuel 1 out 0 data 0 Band 0",
            "task fuel 1 out 0 data 0 band 0 0",
            "task fuel 1 out 0 data 0 band 0 band 0",
            "task band 0 fuel 1 out 0 data 0",
            "task fuel 1 out 0 band 0 data 0",
            // Before any number is judged.
            "task fuel x out 4097 data 0",
            "task fuel x out 4097 data 0 bund 2",
        ],
    ),
    (
        "5: operands",
        &["task fuel 1 out 0 data 0 band 1\nendtask\ntask fuel 1 out 0 data 0"],
    ),
    (
        "3: bad number",
        &[
            "task fuel 1 out 0 data 0 band x",
            "task fuel 1 out 0 data 0 band -1",
            "task fuel 1 out 0 data 0 band +1",
            "task fuel 1 out 0 data 0 band 0x1",
            "task fuel x out 0 data 0 band 2",
        ],
    ),
    (
        "3: out of range",
        &[
            "task fuel 1 out 0 data 0 band 2",
            "task fuel 1 out 0 data 0 band 10",
            "task fuel 1 out 0 data 0 band 4294967296",
            "task fuel 1 out 0 data 0 band 18446744073709551617",
            // The numbers are judged from the left.
            "task fuel 0 out 0 data 0 band x",
            "task fuel 1 out 0 data 1025 band x",
        ],
    ),
    (
        "5: out of range",
        &["task fuel 1 out 0 data 0 band 01\nendtask\ntask fuel 1 out 0 data 0 band 2"],
    ),
    ("4: missing", &["task fuel 1 out 0 data 0 band 1"]),
    // Code is assembled once all lines have been read.
    (
        "5: asm unknown word",
        &["task fuel 1 out 0 data 0 band 1\ncode\naddz\nendcode\nendtask"],
    ),
    (
        "8: out of range",
        &[
            "task fuel 1 out 0 data 0 band 1\ncode\naddz\nendcode\nendtask\ntask fuel 1 out 0 data 0 band 2",
        ],
    ),
    (
        "7: missing",
        &["task fuel 1 out 0 data 0 band 0\nendtask\ntask fuel 1 out 0 data 0 band 1\nwords"],
    ),
];

/// Whole inputs.
const WHOLE: Frame<'static> = Frame {
    input: ("", ""),
    written: ("", "\n"),
};

/// The refusal of a head, or of a bundle of one task that is cut off.
const HEADS: [(&str, &[&str]); 14] = [
    ("line 1: missing", &[""]),
    ("line 1: unknown word", &["bun"]),
    (
        "line 1: operands",
        &["bundle", "bundle ", "bundle 1 2", "bundle 2 2"],
    ),
    ("line 1: bad number", &["bundle x", "bundle 1\r\r\n"]),
    (
        "line 1: out of range",
        &["bundle 0", "bundle 3", "bundle 4294967298"],
    ),
    ("line 1: misplaced", &["slots 1\n"]),
    (
        "line 2: missing",
        &["\n", "bundle 1", "bundle 1\n", "bundle 02"],
    ),
    ("line 2: operands", &["bundle 1\nslots "]),
    ("line 2: bad number", &["bundle 1\nslots 1\r"]),
    (
        "line 2: out of range",
        &["bundle 01\nslots 9", "bundle 1\nslots 0\n"],
    ),
    (
        "limit tasks 0",
        &[
            "bundle 1\nslots 1",
            "bundle 1\nslots 1\n",
            "bundle 2\nslots 1",
        ],
    ),
    (
        "line 4: missing",
        &[
            "# only\n\n\t \n",
            "bundle 01\n\n#",
            "bundle 1\nslots 1\ntask fuel 5 out 4 data 0",
            "bundle 1\nslots 1\ntask fuel 5 out 4 data 0\n",
        ],
    ),
    (
        "line 5: missing",
        &[
            "bundle 1\nslots 1\ntask fuel 5 out 4 data 0\nwords 02a00513",
            "bundle 1\nslots 1\ntask fuel 5 out 4 data 0\nwords 02a00513 00100893 00000073 00000893 00000073",
            "bundle 1\nslots 1\ntask fuel 5 out 4 data 0\nwords 02a00513 00100893 00000073 00000893 00000073\n",
        ],
    ),
    (
        "line 5: unknown word",
        &[
            "bundle 1\nslots 1\ntask fuel 5 out 4 data 0\nwords 02a00513 00100893 00000073 00000893 00000073\nendtas",
        ],
    ),
];

#[test]
fn refusals(rt: HostRuntime) -> Result<(), Fail> {
    writes_each(&rt, "alone", ONE_CODE, 3, &CODE)?;
    writes_each(&rt, "alone", ONE_BUNDLE, 3, &BUNDLES)?;
    writes_each(&rt, "alone", BANDS_BUNDLE, 3, &BANDS)?;
    writes_each(&rt, "alone", WHOLE, 3, &HEADS)
}

//! Listings of code, with the words that LLVM's assembler makes of the same lines.

use crate::harness::{FORTY_TWO, Frame, SOUND, runs, text_of, writes_each};
use std::test::Fail;

/// The lines of a task's code, and the listing from the bytes of its first word on.
const ONE_CODE: Frame<'static> = Frame {
    input: (
        "bundle 1\nslots 1\ntask fuel 1 out 0 data 0\ncode\n",
        "\nendcode\nendtask\n",
    ),
    written: ("task 0\n00100000 ", "\n"),
};

/// Each instruction of RV32I, Zicsr and machine mode: the bytes in memory and the text of each word, and the lines that assemble to it.
const INSTRUCTIONS: [(&str, &[&str]); 54] = [
    ("b7801000 lui x1,264", &["lui x1,264"]),
    ("b7ffffff lui x31,1048575", &["lui t6,1048575"]),
    ("37000000 lui x0,0", &["lui zero,0x0"]),
    ("17110000 auipc x2,1", &["auipc sp,1"]),
    ("6f008000 jal x0,.+8", &["jal x0,.+8"]),
    ("ef000080 jal x1,.-1048576", &["jal ra,.-1048576"]),
    ("eff0ff7f jal x1,.+1048574", &["jal x1,.+1048574"]),
    ("67816000 jalr x2,6(x1)", &["jalr x2,6(x1)"]),
    ("e30e00fe beq x0,x0,.-4", &["beq x0,x0,.-4"]),
    ("e39f207e bne x1,x2,.+4094", &["bne x1,x2,.+4094"]),
    ("63c02080 blt x1,x2,.-4096", &["blt x1,x2,.-4096"]),
    ("63d42000 bge x1,x2,.+8", &["bge x1,x2,.+8"]),
    ("63e42000 bltu x1,x2,.+8", &["bltu x1,x2,.+8"]),
    ("63f42000 bgeu x1,x2,.+8", &["bgeu x1,x2,.+8"]),
    ("83000180 lb x1,-2048(x2)", &["lb x1,-2048(x2)"]),
    ("8310f17f lh x1,2047(x2)", &["lh x1,2047(x2)"]),
    ("03a02000 lw x0,2(x1)", &["lw x0,2(x1)"]),
    ("03450400 lbu x10,0(x8)", &["lbu a0,0(fp)"]),
    ("83d87d00 lhu x17,7(x27)", &["lhu a7,0x7(s11)"]),
    ("a38f91fe sb x9,-1(x3)", &["sb s1,-1(gp)"]),
    ("23912000 sh x2,2(x1)", &["sh x2,2(x1)"]),
    ("23a20000 sw x0,4(x1)", &["sw x0,4(x1)"]),
    ("1305a002 addi x10,x0,42", &["addi x10,x0,42"]),
    ("93000180 addi x1,x2,-2048", &["addi x1,x2,-2048"]),
    ("9300f17f addi x1,x2,2047", &["addi x1,x2,2047"]),
    ("93203100 slti x1,x2,3", &["slti x1,x2,3"]),
    ("93303100 sltiu x1,x2,3", &["sltiu x1,x2,3"]),
    ("93403100 xori x1,x2,3", &["xori x1,x2,3"]),
    ("93603100 ori x1,x2,3", &["ori x1,x2,3"]),
    ("93703100 andi x1,x2,3", &["andi x1,x2,3"]),
    ("9310f101 slli x1,x2,31", &["slli x1,x2,31"]),
    ("93500100 srli x1,x2,0", &["srli x1,x2,0"]),
    ("93505140 srai x1,x2,5", &["srai x1,x2,5"]),
    ("b3003100 add x1,x2,x3", &["add x1,x2,x3"]),
    ("b3812040 sub x3,x1,x2", &["sub x3,x1,x2"]),
    ("b3103100 sll x1,x2,x3", &["sll x1,x2,x3"]),
    ("b3203100 slt x1,x2,x3", &["slt x1,x2,x3"]),
    ("b3303100 sltu x1,x2,x3", &["sltu x1,x2,x3"]),
    ("b3403100 xor x1,x2,x3", &["xor x1,x2,x3"]),
    ("b3503100 srl x1,x2,x3", &["srl x1,x2,x3"]),
    ("b3503140 sra x1,x2,x3", &["sra x1,x2,x3"]),
    ("b3603100 or x1,x2,x3", &["or x1,x2,x3"]),
    ("b3703100 and x1,x2,x3", &["and x1,x2,x3"]),
    ("0f00f00f fence", &["fence"]),
    ("73000000 ecall", &["ecall # the rest is a comment, x1"]),
    ("73001000 ebreak", &["ebreak"]),
    ("73002030 mret", &["mret"]),
    ("f3920234 csrrw x5,0x340,x5", &["csrrw x5,0x340,x5"]),
    ("f3a20234 csrrs x5,0x340,x5", &["csrrs t0,mscratch,t0"]),
    ("73b0f0ff csrrc x0,0xfff,x1", &["csrrc x0,4095,x1"]),
    ("73d04ff1 csrrwi x0,0xf14,31", &["csrrwi x0,mhartid,31"]),
    ("f360303b csrrsi x1,0x3b3,0", &["csrrsi x1,pmpaddr3,0"]),
    ("f3f00030 csrrci x1,0x300,1", &["csrrci x1,0x300,1"]),
    (
        "ffffffff .word 0xffffffff",
        &[".word 4294967295", ".word 0xffffffff"],
    ),
];

/// Short forms, and the operations of the multiplier: the bytes in memory and the text of each word, and the lines that assemble to it.
const SHORT_FORMS: [(&str, &[&str]); 38] = [
    ("00000080 .word 0x80000000", &[".word -2147483648"]),
    ("13000000 addi x0,x0,0", &["nop"]),
    ("93000100 addi x1,x2,0", &["mv x1,x2"]),
    ("9340f1ff xori x1,x2,-1", &["not x1,x2"]),
    ("6ff0ffff jal x0,.-2", &["j .-2"]),
    ("67800000 jalr x0,0(x1)", &["ret"]),
    ("63840000 beq x1,x0,.+8", &["beqz x1,.+8"]),
    ("63140500 bne x10,x0,.+8", &["bnez a0,.+8"]),
    (
        "93000080 addi x1,x0,-2048",
        &["li x1,-2048", "li x1,0xfffff800"],
    ),
    ("9300f07f addi x1,x0,2047", &["li x1,2047"]),
    ("9300f0ff addi x1,x0,-1", &["li x1,4294967295"]),
    ("b7100000 lui x1,1", &["li x1,4096"]),
    (
        "b7100000 lui x1,1\n00100004 93800080 addi x1,x1,-2048",
        &["li x1,2048", "li x1,0x800"],
    ),
    (
        "b7f0ffff lui x1,1048575\n00100004 9380f07f addi x1,x1,2047",
        &["li x1,-2049"],
    ),
    (
        "b7603412 lui x1,74566\n00100004 9380f0ff addi x1,x1,-1",
        &["li x1,0x12345fff"],
    ),
    ("97f0ffff auipc x1,1048575", &["auipc x1,1048575"]),
    ("e3ff207e bgeu x1,x2,.+4094", &["bgeu x1,x2,.+4094"]),
    ("9330f1ff sltiu x1,x2,-1", &["sltiu x1,x2,-1"]),
    (
        "b3227302 mulhsu x5,x6,x7",
        &["mulhsu x5,x6,x7", "mulhsu t0,t1,t2"],
    ),
    ("0f003083 .word 0x8330000f", &[".word 0x8330000f"]),
    ("73f04ff1 csrrci x0,0xf14,31", &["csrrci x0,0xf14,31"]),
    ("7360a000 csrrsi x0,0x00a,0", &["csrrsi x0,0x00a,0"]),
    ("33000002 mul x0,x0,x0", &["mul x0,x0,x0"]),
    ("3345b502 div x10,x10,x11", &["div x10,x10,x11"]),
    ("97f2ffff auipc x5,1048575", &["auipc x5,1048575"]),
    ("eff0ffff jal x1,.-2", &["jal x1,.-2"]),
    ("e3703100 bgeu x2,x3,.+2048", &["bgeu x2,x3,.+2048"]),
    ("03258100 lw x10,8(x2)", &["lw x10,8(x2)"]),
    ("a30f53fe sb x5,-1(x6)", &["sb x5,-1(x6)"]),
    ("f3200034 csrrs x1,0x340,x0", &["csrrs x1,0x340,x0"]),
    ("73700430 csrrci x0,0x300,8", &["csrrci x0,0x300,8"]),
    ("b3027302 mul x5,x6,x7", &["mul x5,x6,x7"]),
    ("b3127302 mulh x5,x6,x7", &["mulh x5,x6,x7"]),
    ("b3327302 mulhu x5,x6,x7", &["mulhu x5,x6,x7"]),
    ("b3427302 div x5,x6,x7", &["div x5,x6,x7"]),
    ("b3527302 divu x5,x6,x7", &["divu x5,x6,x7"]),
    ("b3627302 rem x5,x6,x7", &["rem x5,x6,x7"]),
    ("b3727302 remu x5,x6,x7", &["remu x5,x6,x7"]),
];

/// Words that are no instructions, and labels: the bytes in memory and the text of each word, and the lines that assemble to it.
const WORDS_AND_LABELS: [(&str, &[&str]); 14] = [
    // Words that are no instructions.
    ("00000000 .word 0x00000000", &[".word 0x00000000"]),
    ("73005010 .word 0x10500073", &[".word 0x10500073"]),
    ("73002010 .word 0x10200073", &[".word 0x10200073"]),
    ("0f100000 .word 0x0000100f", &[".word 0x0000100f"]),
    ("93900002 .word 0x02009093", &[".word 0x02009093"]),
    ("83b00000 .word 0x0000b083", &[".word 0x0000b083"]),
    ("33000004 .word 0x04000033", &[".word 0x04000033"]),
    ("63200000 .word 0x00002063", &[".word 0x00002063"]),
    ("67100000 .word 0x00001067", &[".word 0x00001067"]),
    ("73400000 .word 0x00004073", &[".word 0x00004073"]),
    // Labels before and after the line that names them, several on a line, names that are those of registers, and the longest name.
    (
        "6f00c000 jal x0,.+12\n00100004 13000000 addi x0,x0,0\n00100008 e39c00fe bne x1,x0,.-8\n0010000c e30e00fe beq x0,x0,.-4",
        &[
            "start: j end\nnop\nloop: bne x1,x0,start\nend: beq x0,x0,loop",
            "\t_a1:b:  j\tx1 # a target may be named as a register is\n\nnop\nLoop_2:\nbnez ra , _a1\nx1: beqz x0,Loop_2 # x1:",
        ],
    ),
    (
        "13000000 addi x0,x0,0\n00100004 6ff0dfff jal x0,.-4\n00100008 6ff09fff jal x0,.-8",
        &[
            "a:b:nop\nj a\nj b",
            "a123456789b123456789c123456789d123456789e123456789f123456789g123: nop\nj .-4\n\
                j a123456789b123456789c123456789d123456789e123456789f123456789g123",
        ],
    ),
    (
        "b7100000 lui x1,1\n00100004 93800080 addi x1,x1,-2048\n00100008 ef020000 jal x5,.+0\n0010000c 6372b500 bgeu x10,x11,.+4",
        &["# two words\nli x1,2048\n\nhere:\nthere: jal x5,here\nbgeu a0,a1,last\nlast:"],
    ),
    ("6f004000 jal x0,.+4", &["j end\nend:end_:END:"]),
];

/// What is listed of the task that puts out 42, and of a second task.
const FORTY_TWO_LISTING: &str = "\
task 0
00100000 1305a002 addi x10,x0,42
00100004 93081000 addi x17,x0,1
00100008 73000000 ecall
0010000c 93080000 addi x17,x0,0
00100010 73000000 ecall
";

const SECOND_LISTING: &str = "task 1\n00110000 6f000000 jal x0,.+0\n";

/// The second task.
const SECOND: &str = "task fuel 1 out 0 data 0\ncode\nj .+0\nendcode\nendtask\n";

#[test]
fn instructions(rt: HostRuntime) -> Result<(), Fail> {
    writes_each(&rt, "asm", ONE_CODE, 0, &INSTRUCTIONS)
}

#[test]
fn short_forms(rt: HostRuntime) -> Result<(), Fail> {
    writes_each(&rt, "asm", ONE_CODE, 0, &SHORT_FORMS)
}

#[test]
fn words_and_labels(rt: HostRuntime) -> Result<(), Fail> {
    writes_each(&rt, "asm", ONE_CODE, 0, &WORDS_AND_LABELS)
}

#[test]
fn listings_of_two_tasks(rt: HostRuntime) -> Result<(), Fail> {
    let input = FORTY_TWO.as_bytes();
    runs(&rt, &["asm"], input, SOUND, 0, FORTY_TWO_LISTING, 0)?;
    let input = text_of(rt.alloc(), &[(1, FORTY_TWO), (1, SECOND)])?;
    let listing = text_of(rt.alloc(), &[(1, FORTY_TWO_LISTING), (1, SECOND_LISTING)])?;
    runs(
        &rt,
        &["asm"],
        input.as_bytes(),
        SOUND,
        0,
        listing.as_str(),
        0,
    )
}

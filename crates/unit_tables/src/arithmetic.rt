//! Arithmetic and comparisons at the ends of their ranges, as the unprivileged manual has them.

use rv_exec::{Alu, Cmp, alu, taken};
use std::test::Fail;

/// An operation, its operands and its result.
const OPERATIONS: [(Alu, u32, u32, u32); 66] = [
    (Alu::Add, 0xffff_ffff, 2, 1),
    (Alu::Sub, 1, 2, 0xffff_ffff),
    (Alu::Sll, 0x8000_0001, 33, 2),
    (Alu::Srl, 0x8000_0000, 63, 1),
    (Alu::Sra, 0x8000_0000, 31, 0xffff_ffff),
    (Alu::Sra, 0xffff_fff9, 1, 0xffff_fffc),
    (Alu::Sra, 0x7fff_ffff, 30, 1),
    (Alu::Slt, 0x8000_0000, 0x7fff_ffff, 1),
    (Alu::Slt, 0, 0xffff_ffff, 0),
    (Alu::Sltu, 0x8000_0000, 0x7fff_ffff, 0),
    (Alu::Sltu, 0, 0xffff_ffff, 1),
    (Alu::Xor, 0xff00_ff00, 0x0ff0_0ff0, 0xf0f0_f0f0),
    (Alu::Or, 0xff00_ff00, 0x0ff0_0ff0, 0xfff0_fff0),
    (Alu::And, 0xff00_ff00, 0x0ff0_0ff0, 0x0f00_0f00),
    // The low half of a product, and the high half of operands with and without a sign.
    (Alu::Mul, 0xffff_ffff, 7, 0xffff_fff9),
    (Alu::Mul, 0x8000_0000, 0xffff_8000, 0),
    (Alu::Mul, 0xaaaa_aaab, 0x0002_fe7d, 0x0000_ff7f),
    (Alu::Mulh, 0x8000_0000, 0x8000_0000, 0x4000_0000),
    (Alu::Mulh, 0xffff_ffff, 0xffff_ffff, 0),
    (Alu::Mulh, 0xffff_ffff, 7, 0xffff_ffff),
    (Alu::Mulh, 0x7fff_ffff, 0x7fff_ffff, 0x3fff_ffff),
    (Alu::Mulh, 0xaaaa_aaab, 0x0002_fe7d, 0xffff_0081),
    (Alu::Mulhsu, 0x8000_0000, 0x8000_0000, 0xc000_0000),
    (Alu::Mulhsu, 0xffff_ffff, 0xffff_ffff, 0xffff_ffff),
    (Alu::Mulhsu, 1, 0xffff_ffff, 0),
    (Alu::Mulhsu, 0xaaaa_aaab, 0x0002_fe7d, 0xffff_0081),
    (Alu::Mulhsu, 0x0002_fe7d, 0xaaaa_aaab, 0x0001_fefe),
    (Alu::Mulhu, 0x8000_0000, 0x8000_0000, 0x4000_0000),
    (Alu::Mulhu, 0xffff_ffff, 0xffff_ffff, 0xffff_fffe),
    (Alu::Mulhu, 0xaaaa_aaab, 0x0002_fe7d, 0x0001_fefe),
    // Quotients round towards zero, and a remainder has the sign of the dividend: 20 and -20 by 6 and -6, and -7 by 2.
    (Alu::Div, 20, 6, 3),
    (Alu::Div, 0xffff_ffec, 6, 0xffff_fffd),
    (Alu::Div, 20, 0xffff_fffa, 0xffff_fffd),
    (Alu::Div, 0xffff_ffec, 0xffff_fffa, 3),
    (Alu::Div, 0xffff_fff9, 2, 0xffff_fffd),
    (Alu::Rem, 20, 6, 2),
    (Alu::Rem, 0xffff_ffec, 6, 0xffff_fffe),
    (Alu::Rem, 20, 0xffff_fffa, 2),
    (Alu::Rem, 0xffff_ffec, 0xffff_fffa, 0xffff_fffe),
    (Alu::Rem, 0xffff_fff9, 2, 0xffff_ffff),
    (Alu::Divu, 20, 6, 3),
    (Alu::Divu, 0xffff_ffec, 6, 0x2aaa_aaa7),
    (Alu::Divu, 20, 0xffff_fffa, 0),
    (Alu::Divu, 0xffff_fff9, 2, 0x7fff_fffc),
    (Alu::Remu, 20, 6, 2),
    (Alu::Remu, 0xffff_ffec, 6, 2),
    (Alu::Remu, 20, 0xffff_fffa, 20),
    (Alu::Remu, 0xffff_fff9, 2, 1),
    // By 0: all bits of the quotient are 1, and the remainder is the dividend.
    (Alu::Div, 7, 0, 0xffff_ffff),
    (Alu::Div, 0, 0, 0xffff_ffff),
    (Alu::Div, 0x8000_0000, 0, 0xffff_ffff),
    (Alu::Divu, 7, 0, 0xffff_ffff),
    (Alu::Divu, 0, 0, 0xffff_ffff),
    (Alu::Rem, 0xffff_fff9, 0, 0xffff_fff9),
    (Alu::Rem, 0x8000_0000, 0, 0x8000_0000),
    (Alu::Rem, 0, 0, 0),
    (Alu::Remu, 0xffff_fff9, 0, 0xffff_fff9),
    (Alu::Remu, 0, 0, 0),
    // The one quotient that is no signed word, and its neighbours.
    (Alu::Div, 0x8000_0000, 0xffff_ffff, 0x8000_0000),
    (Alu::Rem, 0x8000_0000, 0xffff_ffff, 0),
    (Alu::Div, 0x8000_0000, 1, 0x8000_0000),
    (Alu::Div, 0x8000_0001, 0xffff_ffff, 0x7fff_ffff),
    (Alu::Divu, 0x8000_0000, 0xffff_ffff, 0),
    (Alu::Remu, 0x8000_0000, 0xffff_ffff, 0x8000_0000),
    (Alu::Divu, 0x8000_0000, 1, 0x8000_0000),
    (Alu::Remu, 0x8000_0000, 1, 0),
];

/// A comparison, its operands, and whether its branch is taken.
const COMPARISONS: [(Cmp, u32, u32, bool); 10] = [
    (Cmp::Beq, 7, 7, true),
    (Cmp::Beq, 7, 8, false),
    (Cmp::Bne, 7, 7, false),
    (Cmp::Blt, 0xffff_ffff, 0, true),
    (Cmp::Blt, 5, 5, false),
    (Cmp::Bge, 0xffff_ffff, 0, false),
    (Cmp::Bge, 5, 5, true),
    (Cmp::Bltu, 0xffff_ffff, 0, false),
    (Cmp::Bgeu, 0xffff_ffff, 0, true),
    (Cmp::Bgeu, 5, 5, true),
];

#[test]
fn results(rt: HostRuntime) -> Result<(), Fail> {
    for (op, a, b, wanted) in &OPERATIONS {
        assert_eq!(rt; alu(*op, *a, *b), *wanted, "{op:?} of {a:#x} and {b:#x}");
    }
    for (op, a, b, wanted) in &COMPARISONS {
        assert_eq!(rt; taken(*op, *a, *b), *wanted, "{op:?} of {a:#x} and {b:#x}");
    }
    Ok(())
}

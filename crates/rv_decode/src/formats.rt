//! The formats of words, composed from their fields (unprivileged manual, "Base Instruction Formats" and "Immediate Encoding
//! Variants").

ghost use Rattle.std.specs.Prelude.{◌≡◌, ◌+◌, ◌*◌, ◌<◌, ◌^◌};
ghost use Rattle.isa_model.specs.Encoding.{r_format, i_format, s_format, b_format, u_format, j_format};

use crate::fields::bits;
use isa_model::RegNo;

/// A word of which only the bits below `low` are used, with a field put at `low`.
fn with_field(word: u32, low: u32, value: u32) -> u32
    requires low { low < 32 }
    requires word { word < 2 ^ low }
    requires value { value * 2 ^ low < 2 ^ 32 }
    ensures value { result ≡ word + 2 ^ low * value }
{
    word | (value << low)
}

/// The R format.
pub fn r_format(opcode: u32, rd: RegNo, funct3: u32, rs1: RegNo, rs2: RegNo, funct7: u32) -> u32
    requires opcode { opcode < 2 ^ 7 }
    requires funct3 { funct3 < 2 ^ 3 }
    requires funct7 { funct7 < 2 ^ 7 }
    ensures format { result ≡ r_format opcode rd funct3 rs1 rs2 funct7 }
{
    let low = with_field(with_field(opcode, 7, rd.num().into()), 12, funct3);
    let middle = with_field(with_field(low, 15, rs1.num().into()), 20, rs2.num().into());
    with_field(middle, 25, funct7)
}

/// The I format, with its immediate as 12 bits.
pub fn i_format(opcode: u32, rd: RegNo, funct3: u32, rs1: RegNo, imm: u32) -> u32
    requires opcode { opcode < 2 ^ 7 }
    requires funct3 { funct3 < 2 ^ 3 }
    requires imm { imm < 2 ^ 12 }
    ensures format { result ≡ i_format opcode rd funct3 rs1 imm }
{
    let low = with_field(with_field(opcode, 7, rd.num().into()), 12, funct3);
    with_field(with_field(low, 15, rs1.num().into()), 20, imm)
}

/// The S format, with its immediate as 12 bits.
pub fn s_format(opcode: u32, funct3: u32, rs1: RegNo, rs2: RegNo, imm: u32) -> u32
    requires opcode { opcode < 2 ^ 7 }
    requires funct3 { funct3 < 2 ^ 3 }
    requires imm { imm < 2 ^ 12 }
    ensures format { result ≡ s_format opcode funct3 rs1 rs2 imm }
{
    let low = with_field(with_field(opcode, 7, bits(imm, 0, 5)), 12, funct3);
    let middle = with_field(with_field(low, 15, rs1.num().into()), 20, rs2.num().into());
    with_field(middle, 25, bits(imm, 5, 7))
}

/// The B format, with its offset as 13 bits.
pub fn b_format(opcode: u32, funct3: u32, rs1: RegNo, rs2: RegNo, off: u32) -> u32
    requires opcode { opcode < 2 ^ 7 }
    requires funct3 { funct3 < 2 ^ 3 }
    requires off { off < 2 ^ 13 }
    ensures format { result ≡ b_format opcode funct3 rs1 rs2 off }
{
    let low = with_field(with_field(opcode, 7, bits(off, 11, 1)), 8, bits(off, 1, 4));
    let middle = with_field(with_field(low, 12, funct3), 15, rs1.num().into());
    let high = with_field(
        with_field(middle, 20, rs2.num().into()),
        25,
        bits(off, 5, 6),
    );
    with_field(high, 31, bits(off, 12, 1))
}

/// The U format, with its immediate as 20 bits.
pub fn u_format(opcode: u32, rd: RegNo, imm20: u32) -> u32
    requires opcode { opcode < 2 ^ 7 }
    requires imm20 { imm20 < 2 ^ 20 }
    ensures format { result ≡ u_format opcode rd imm20 }
{
    with_field(with_field(opcode, 7, rd.num().into()), 12, imm20)
}

/// The J format, with its offset as 21 bits.
pub fn j_format(opcode: u32, rd: RegNo, off: u32) -> u32
    requires opcode { opcode < 2 ^ 7 }
    requires off { off < 2 ^ 21 }
    ensures format { result ≡ j_format opcode rd off }
{
    let low = with_field(with_field(opcode, 7, rd.num().into()), 12, bits(off, 12, 8));
    let middle = with_field(with_field(low, 20, bits(off, 11, 1)), 21, bits(off, 1, 10));
    with_field(middle, 31, bits(off, 20, 1))
}

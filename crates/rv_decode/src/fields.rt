//! The fields of a word (unprivileged manual, "Base Instruction Formats" and "Immediate Encoding Variants").

ghost use Rattle.std.specs.Prelude.{◌≡◌, ◌-◌, ◌*◌, ◌<◌, ◌≤◌, ◌^◌, pos, negsuc, nat_lt, if◌then◌else◌};
ghost use Rattle.isa_model.specs.Bits.{bits};
ghost use Rattle.isa_model.specs.InstrTable.{i_immediate, s_immediate, b_immediate, j_immediate};

use isa_model::RegNo;

/// `count` bits of a word from the bit `low` on.
pub fn bits(word: u32, low: u32, count: u32) -> u32
    requires low { low < 32 }
    requires count { count < 32 }
    ensures value { result ≡ bits low count word }
    ensures bound { result < 2 ^ count }
{
    (word >> low) & ((1 << count) - 1)
}

/// The register whose number stands in the five bits from `low` on.
pub fn register(word: u32, low: u32) -> RegNo
    requires low { low < 32 }
    ensures number { result ≡ bits low 5 word }
{
    RegNo::new(bits(word, low, 5) as u8).unwrap()
}

/// The signed number of some bits, the highest of which has the weight `sign`.
fn signed(number: u32, sign: u32) -> i32
    requires sign { sign ≤ 2 ^ 20 }
    requires number { number < 2 * sign }
    ensures value { result ≡ (if nat_lt number sign then pos number else negsuc (2 * sign - 1 - number)) }
{
    if number < sign {
        number as i32
    } else {
        number as i32 - 2 * sign as i32
    }
}

/// The immediate of the I format.
pub fn i_immediate(word: u32) -> i32
    ensures value { result ≡ i_immediate word }
{
    signed(bits(word, 20, 12), 0x800)
}

/// The immediate of the S format.
pub fn s_immediate(word: u32) -> i32
    ensures value { result ≡ s_immediate word }
{
    signed(0x20 * bits(word, 25, 7) + bits(word, 7, 5), 0x800)
}

/// The offset of the B format.
pub fn b_immediate(word: u32) -> i32
    ensures value { result ≡ b_immediate word }
{
    let high = 0x1000 * bits(word, 31, 1) + 0x800 * bits(word, 7, 1);
    let low = 0x20 * bits(word, 25, 6) + 2 * bits(word, 8, 4);
    signed(high + low, 0x1000)
}

/// The offset of the J format.
pub fn j_immediate(word: u32) -> i32
    ensures value { result ≡ j_immediate word }
{
    let high = 0x10_0000 * bits(word, 31, 1) + 0x1000 * bits(word, 12, 8);
    let low = 0x800 * bits(word, 20, 1) + 2 * bits(word, 21, 10);
    signed(high + low, 0x10_0000)
}

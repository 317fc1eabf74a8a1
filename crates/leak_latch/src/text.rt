//! The names of latches in texts.

ghost use Rattle.std.specs.Prelude.{◌≡◌, ◌<◌, ◌++◌, codes, OnOk, OnErr};
ghost use Rattle.leak_latch.specs.LatchName.{latch_name, hex_digit_of, hex_word_of};

use isa_model::Latch;
use std::alloc::AllocError;

/// The lower case hexadecimal digit of a number below 16.
fn hex_digit(digit: u32) -> u8
    requires small { digit < 16 }
    ensures char { result ≡ hex_digit_of digit }
{
    b"0123456789abcdef"[digit as usize]
}

/// The name of a memory word: `m` and its address.
fn memory_name(at: u32) -> [u8; 9]
    ensures text { result ≡ codes "m" ++ hex_word_of at }
{
    [
        b'm',
        hex_digit(at / 0x1000_0000 % 16),
        hex_digit(at / 0x100_0000 % 16),
        hex_digit(at / 0x10_0000 % 16),
        hex_digit(at / 0x1_0000 % 16),
        hex_digit(at / 0x1000 % 16),
        hex_digit(at / 0x100 % 16),
        hex_digit(at / 0x10 % 16),
        hex_digit(at % 16),
    ]
}

/// Appends the name of a register: `x` and its number.
fn register_text(number: u8, out: &mut Vec<u8>) -> Result<(), AllocError>
    requires small { number < 32 }
    ensures ok { OnOk result (out.new.items ≡ out.old.items ++ latch_name (Latch.Reg number)) }
    ensures err { OnErr result (out.new.items ≡ out.old.items) }
{
    if number < 10 {
        out.extend_from_slice(&[b'x', b'0' + number])
    } else {
        out.extend_from_slice(&[b'x', b'0' + number / 10, b'0' + number % 10])
    }
}

/// Appends the name of a latch: `x0` to `x31`, `portA`, `portB`, `res`, `load`, `store`, `scr`, `mul`, or `m` and the address of
/// the word in eight lower case hexadecimal digits (this project's own). `AllocError` is want of memory, and leaves the items as they were.
pub fn latch_text(latch: Latch, out: &mut Vec<u8>) -> Result<(), AllocError>
    ensures ok { OnOk result (out.new.items ≡ out.old.items ++ latch_name latch) }
    ensures err { OnErr result (out.new.items ≡ out.old.items) }
{
    match latch {
        Latch::Reg(register) => register_text(register.num(), out),
        Latch::PortA => out.extend_from_slice(b"portA"),
        Latch::PortB => out.extend_from_slice(b"portB"),
        Latch::Res => out.extend_from_slice(b"res"),
        Latch::Load => out.extend_from_slice(b"load"),
        Latch::Store => out.extend_from_slice(b"store"),
        Latch::Scr => out.extend_from_slice(b"scr"),
        Latch::Mul => out.extend_from_slice(b"mul"),
        Latch::Mem(at) => out.extend_from_slice(&memory_name(at)),
    }
}

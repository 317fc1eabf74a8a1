//! The part of a memory word that a load takes or a store replaces. Memory is little endian.

ghost use Rattle.std.specs.Prelude.{◌≡◌, ◌==◌, ◌*◌, ◌<◌, ◌+◌, ◌%◌, ◌^◌};
ghost use Rattle.isa_model.specs.Arithmetic.{load_size, store_size, load_result, store_result, byte_of, half_of, stored_word};
ghost use Rattle.isa_model.specs.Bits.{two_complement, sign_extend};

use isa_model::{LoadKind, StoreKind};

/// Whether an address in bytes is a multiple of what the load moves (unprivileged manual, RV32I, "Load and Store Instructions").
pub fn load_aligned(kind: LoadKind, at: u32) -> bool
    ensures test { result ≡ (at % load_size kind == 0) }
{
    match kind {
        LoadKind::B | LoadKind::Bu => true,
        LoadKind::H | LoadKind::Hu => at % 2 == 0,
        LoadKind::W => at % 4 == 0,
    }
}

/// Whether an address in bytes is a multiple of what the store moves.
pub fn store_aligned(kind: StoreKind, at: u32) -> bool
    ensures test { result ≡ (at % store_size kind == 0) }
{
    match kind {
        StoreKind::B => true,
        StoreKind::H => at % 2 == 0,
        StoreKind::W => at % 4 == 0,
    }
}

/// A byte of a word, the lowest at place 0.
fn byte(word: u32, place: u32) -> u32
    requires place { place < 4 }
    ensures value { result ≡ byte_of word place }
    ensures bound { result < 2 ^ 8 }
{
    word >> (8 * place) & 0xff
}

/// A half of a word: the byte at this place and the one above it.
fn half(word: u32, place: u32) -> u32
    requires place { place < 3 }
    ensures value { result ≡ half_of word place }
    ensures bound { result < 2 ^ 16 }
{
    byte(word, place) + 0x100 * byte(word, place + 1)
}

/// A byte whose sign is extended.
fn signed_byte(number: u32) -> u32
    requires byte { number < 2 ^ 8 }
    ensures value { result ≡ two_complement 32 (sign_extend 8 number) }
{
    if number < 0x80 {
        number
    } else {
        number + 0xffff_ff00
    }
}

/// A half whose sign is extended.
fn signed_half(number: u32) -> u32
    requires half { number < 2 ^ 16 }
    ensures value { result ≡ two_complement 32 (sign_extend 16 number) }
{
    if number < 0x8000 {
        number
    } else {
        number + 0xffff_0000
    }
}

/// What a load at an address gives of the word that the address lies in: B and H extend the sign, Bu and Hu put zeros above.
pub fn extract(kind: LoadKind, word: u32, at: u32) -> u32
    requires aligned { at % load_size kind ≡ 0 }
    ensures value { result ≡ load_result kind word at }
{
    match kind {
        LoadKind::B => signed_byte(byte(word, at % 4)),
        LoadKind::H => signed_half(half(word, at % 4)),
        LoadKind::W => word,
        LoadKind::Bu => byte(word, at % 4),
        LoadKind::Hu => half(word, at % 4),
    }
}

/// A word whose byte at this place is replaced by the low byte of a value.
fn with_byte(word: u32, place: u32, value: u32) -> u32
    requires place { place < 4 }
    ensures value { result ≡ stored_word 1 word place value }
{
    let new = byte(value, 0);
    let old = byte(word, place);
    match place {
        0 => word - old + new,
        1 => word - 0x100 * old + 0x100 * new,
        2 => word - 0x1_0000 * old + 0x1_0000 * new,
        3 => word - 0x100_0000 * old + 0x100_0000 * new,
        _ => unreachable!(),
    }
}

/// A word whose lower or upper half is replaced by the low half of a value.
fn with_half(word: u32, place: u32, value: u32) -> u32
    requires place { place < 4 }
    requires even { place % 2 ≡ 0 }
    ensures value { result ≡ stored_word 2 word place value }
{
    let new = half(value, 0);
    match place {
        0 => word - half(word, 0) + new,
        2 => half(word, 0) + 0x1_0000 * new,
        _ => unreachable!(),
    }
}

/// What a store at an address makes of the word that the address lies in: B and H replace the low bytes of the value alone.
pub fn merge(kind: StoreKind, word: u32, at: u32, value: u32) -> u32
    requires aligned { at % store_size kind ≡ 0 }
    ensures value { result ≡ store_result kind word at value }
{
    match kind {
        StoreKind::B => with_byte(word, at % 4, value),
        StoreKind::H => with_half(word, at % 4, value),
        StoreKind::W => value,
    }
}

//! The names that operands may be.

ghost use Rattle.std.specs.Prelude.{◌≡◌, ◌<◌, ◌^◌, map, IfSome, IfOk};
ghost use Rattle.std.specs.List.{list_all};
ghost use Rattle.asm_line.specs.Numbers.{is_decimal_digit};
ghost use Rattle.asm_line.specs.Names.{number_named, register_names, csr_names, is_name_byte, is_name};
ghost use Rattle.asm_line.specs.Named.{entry_of};
ghost use Rattle.asm_line.specs.Operands.{register, csr};

use crate::line::AsmKind;
use crate::numbers::unsigned_in;
use isa_model::RegNo;

/// A name and the number that it stands for.
#[derive(Clone, Copy, Debug)]
pub(crate) struct Named {
    pub name: &'static [u8],
    pub number: u16,
}

/// The longest name that a label may have.
const NAME_MAX: usize = 64;

/// The greatest number of a CSR.
const CSR_MAX: u32 = 0xfff;

/// The number of a name.
fn number_named(entries: &[Named], text: &[u8]) -> Option<u16>
    ensures value { result ≡ number_named (map entry_of entries.now) text.now }
{
    for entry in entries {
        if entry.name == text {
            return Some(entry.number);
        }
    }
    None
}

/// Whether a byte may stand in the name of a label.
fn is_name_byte(b: u8) -> bool
    ensures value { result ≡ is_name_byte b }
{
    b.is_ascii_alphanumeric() || b == b'_'
}

/// Whether a byte is a decimal digit.
fn is_decimal_digit(b: u8) -> bool
    ensures value { result ≡ is_decimal_digit b }
{
    b.is_ascii_digit()
}

/// Whether all bytes may stand in the name of a label.
fn are_name_bytes(text: &[u8]) -> bool
    ensures value { result ≡ list_all is_name_byte text.now }
{
    text.iter().all(|b| is_name_byte(*b))
}

/// Whether a text may name a label: 1 to 64 letters, digits and `_`, the first one no digit.
pub(crate) fn is_name(text: &[u8]) -> bool
    ensures value { result ≡ is_name text.now }
{
    if text.is_empty() || text.len() > NAME_MAX {
        return false;
    }
    are_name_bytes(text) && !is_decimal_digit(text[0])
}

/// The register of a name.
pub(crate) fn register(text: &[u8]) -> Result<RegNo, AsmKind>
    ensures value { result ≡ register text.now }
    ensures bound { IfOk result (λ r. r < 32) }
{
    match number_named(&REGISTER_NAMES, text) {
        Some(number) => RegNo::new(number as u8).ok_or(AsmKind::BadRegister),
        None => Err(AsmKind::BadRegister),
    }
}

/// The CSR of a name or of a number.
pub(crate) fn csr(text: &[u8]) -> Result<u16, AsmKind>
    ensures value { result ≡ csr text.now }
    ensures bound { IfOk result (λ number. number < 2 ^ 12) }
{
    match number_named(&CSR_NAMES, text) {
        Some(number) => Ok(number),
        None => Ok(unsigned_in(CSR_MAX, text)? as u16),
    }
}

/// The registers by number, and by the names of the calling convention (unprivileged manual, "RISC-V Assembly Programmer's
/// Handbook").
static REGISTER_NAMES: [Named; 65] = [
    Named {
        name: b"x0",
        number: 0,
    },
    Named {
        name: b"x1",
        number: 1,
    },
    Named {
        name: b"x2",
        number: 2,
    },
    Named {
        name: b"x3",
        number: 3,
    },
    Named {
        name: b"x4",
        number: 4,
    },
    Named {
        name: b"x5",
        number: 5,
    },
    Named {
        name: b"x6",
        number: 6,
    },
    Named {
        name: b"x7",
        number: 7,
    },
    Named {
        name: b"x8",
        number: 8,
    },
    Named {
        name: b"x9",
        number: 9,
    },
    Named {
        name: b"x10",
        number: 10,
    },
    Named {
        name: b"x11",
        number: 11,
    },
    Named {
        name: b"x12",
        number: 12,
    },
    Named {
        name: b"x13",
        number: 13,
    },
    Named {
        name: b"x14",
        number: 14,
    },
    Named {
        name: b"x15",
        number: 15,
    },
    Named {
        name: b"x16",
        number: 16,
    },
    Named {
        name: b"x17",
        number: 17,
    },
    Named {
        name: b"x18",
        number: 18,
    },
    Named {
        name: b"x19",
        number: 19,
    },
    Named {
        name: b"x20",
        number: 20,
    },
    Named {
        name: b"x21",
        number: 21,
    },
    Named {
        name: b"x22",
        number: 22,
    },
    Named {
        name: b"x23",
        number: 23,
    },
    Named {
        name: b"x24",
        number: 24,
    },
    Named {
        name: b"x25",
        number: 25,
    },
    Named {
        name: b"x26",
        number: 26,
    },
    Named {
        name: b"x27",
        number: 27,
    },
    Named {
        name: b"x28",
        number: 28,
    },
    Named {
        name: b"x29",
        number: 29,
    },
    Named {
        name: b"x30",
        number: 30,
    },
    Named {
        name: b"x31",
        number: 31,
    },
    Named {
        name: b"zero",
        number: 0,
    },
    Named {
        name: b"ra",
        number: 1,
    },
    Named {
        name: b"sp",
        number: 2,
    },
    Named {
        name: b"gp",
        number: 3,
    },
    Named {
        name: b"tp",
        number: 4,
    },
    Named {
        name: b"t0",
        number: 5,
    },
    Named {
        name: b"t1",
        number: 6,
    },
    Named {
        name: b"t2",
        number: 7,
    },
    Named {
        name: b"s0",
        number: 8,
    },
    Named {
        name: b"fp",
        number: 8,
    },
    Named {
        name: b"s1",
        number: 9,
    },
    Named {
        name: b"a0",
        number: 10,
    },
    Named {
        name: b"a1",
        number: 11,
    },
    Named {
        name: b"a2",
        number: 12,
    },
    Named {
        name: b"a3",
        number: 13,
    },
    Named {
        name: b"a4",
        number: 14,
    },
    Named {
        name: b"a5",
        number: 15,
    },
    Named {
        name: b"a6",
        number: 16,
    },
    Named {
        name: b"a7",
        number: 17,
    },
    Named {
        name: b"s2",
        number: 18,
    },
    Named {
        name: b"s3",
        number: 19,
    },
    Named {
        name: b"s4",
        number: 20,
    },
    Named {
        name: b"s5",
        number: 21,
    },
    Named {
        name: b"s6",
        number: 22,
    },
    Named {
        name: b"s7",
        number: 23,
    },
    Named {
        name: b"s8",
        number: 24,
    },
    Named {
        name: b"s9",
        number: 25,
    },
    Named {
        name: b"s10",
        number: 26,
    },
    Named {
        name: b"s11",
        number: 27,
    },
    Named {
        name: b"t3",
        number: 28,
    },
    Named {
        name: b"t4",
        number: 29,
    },
    Named {
        name: b"t5",
        number: 30,
    },
    Named {
        name: b"t6",
        number: 31,
    },
];

/// The control and status registers of this profile (privileged manual, "CSR Listing").
static CSR_NAMES: [Named; 14] = [
    Named {
        name: b"mstatus",
        number: 0x300,
    },
    Named {
        name: b"mie",
        number: 0x304,
    },
    Named {
        name: b"mtvec",
        number: 0x305,
    },
    Named {
        name: b"mscratch",
        number: 0x340,
    },
    Named {
        name: b"mepc",
        number: 0x341,
    },
    Named {
        name: b"mcause",
        number: 0x342,
    },
    Named {
        name: b"mtval",
        number: 0x343,
    },
    Named {
        name: b"mip",
        number: 0x344,
    },
    Named {
        name: b"pmpcfg0",
        number: 0x3a0,
    },
    Named {
        name: b"pmpaddr0",
        number: 0x3b0,
    },
    Named {
        name: b"pmpaddr1",
        number: 0x3b1,
    },
    Named {
        name: b"pmpaddr2",
        number: 0x3b2,
    },
    Named {
        name: b"pmpaddr3",
        number: 0x3b3,
    },
    Named {
        name: b"mhartid",
        number: 0xf14,
    },
];

//! The configuration word, a byte an entry: R bit 0, W bit 1, X bit 2, A bits 4:3.

ghost use Rattle.std.specs.Prelude.{◌≡◌, ◌*◌, ◌<◌, ◌^◌};
ghost use Rattle.isa_model.specs.Bits.{bits};
ghost use Rattle.hart_model.specs.Pmp.{matching_of, is_permitted, legal_entry, legal_pmpcfg};

use hart_model::{Access, AddressMatching};

/// The configuration byte of an entry.
pub(crate) fn byte(word: u32, entry: u32) -> u32
    requires entry { entry < 4 }
    ensures value { result ≡ bits (8 * entry) 8 word }
{
    word >> (8 * entry) & 0xff
}

/// How the entry with this configuration byte matches addresses.
pub(crate) fn matching(byte: u32) -> AddressMatching
    ensures value { result ≡ matching_of byte }
{
    match byte >> 3 & 3 {
        0 => AddressMatching::Off,
        1 => AddressMatching::Tor,
        2 => AddressMatching::Na4,
        _ => AddressMatching::Napot,
    }
}

/// Whether this configuration byte permits an access.
pub(crate) fn is_permitted(byte: u32, kind: Access) -> bool
    ensures value { result ≡ is_permitted byte kind }
{
    match kind {
        Access::Read => byte & 1 == 1,
        Access::Write => byte >> 1 & 1 == 1,
        Access::Fetch => byte >> 2 & 1 == 1,
    }
}

/// What a configuration byte becomes when it is written: W without R is reserved and becomes neither, and all but R, W, X and A
/// becomes 0.
fn legal_entry(byte: u32) -> u32
    ensures value { result ≡ legal_entry byte }
    ensures bound { result < 2 ^ 5 }
{
    let matching_and_fetch = 4 * (byte >> 2 & 7);
    if byte & 1 == 1 {
        matching_and_fetch + (byte & 3)
    } else {
        matching_and_fetch
    }
}

/// What a configuration word becomes when it is written, byte by byte.
pub(crate) fn legal_config(word: u32) -> u32
    ensures value { result ≡ legal_pmpcfg word }
{
    let lower = legal_entry(byte(word, 0)) + 0x100 * legal_entry(byte(word, 1));
    let upper = legal_entry(byte(word, 2)) + 0x100 * legal_entry(byte(word, 3));
    lower + 0x1_0000 * upper
}

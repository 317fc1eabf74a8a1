//! What an entry of the physical memory protection covers.

/// How an entry matches addresses (privileged manual, "Physical Memory Protection", "Address Matching"): its A field.
#[derive(Clone, Copy, Debug, PartialEq, Eq)]
pub enum AddressMatching {
    /// OFF: it covers nothing.
    Off,
    /// TOR: from the address of the entry below, whatever that entry is, or from 0 for the lowest one, up to its own address.
    Tor,
    /// NA4: the four bytes at its address.
    Na4,
    /// NAPOT: a naturally aligned power of two of bytes, at least eight.
    Napot,
}

/// The bytes from `low` on and below `high`. An address word of an entry is an address of 34 bits divided by 4, so both may pass
/// 2^32.
#[derive(Clone, Copy, Debug, PartialEq, Eq)]
pub struct Region {
    pub low: u64,
    pub high: u64,
}

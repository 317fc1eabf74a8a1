//! The bytes that an entry covers.

ghost use Rattle.std.specs.Prelude.{◌≡◌, ◌≤◌, ◌-◌, ◌^◌};
ghost use Rattle.hart_model.specs.Pmp.{low_ones, napot_region, is_touched, is_covered};

use hart_model::Region;

/// How many of the low bits of a word are 1.
fn low_ones(word: u32) -> u32
    ensures value { result ≡ low_ones 32 word }
    ensures bound { result ≤ 32 }
    ensures least { 2 ^ result - 1 ≤ word }
{
    word.trailing_ones()
}

/// The naturally aligned power of two of bytes that an address word stands for: its low ones tell how many, and the word without
/// them where they begin.
pub(crate) fn power_of_two(word: u32) -> Region
    ensures value { result ≡ napot_region word (low_ones 32 word) }
{
    let ones = low_ones(word);
    let low = 4 * (u64::from(word) - ((1 << ones) - 1));
    Region {
        low,
        high: low + (8 << ones),
    }
}

/// Whether a region has any byte of an access.
pub(crate) fn is_touched(region: Region, addr: u32, size: u32) -> bool
    ensures value { result ≡ is_touched region addr size }
{
    let end = u64::from(addr) + u64::from(size);
    region.low.max(u64::from(addr)) < region.high.min(end)
}

/// Whether a region has every byte of an access.
pub(crate) fn is_covered(region: Region, addr: u32, size: u32) -> bool
    ensures value { result ≡ is_covered region addr size }
{
    let end = u64::from(addr) + u64::from(size);
    region.low <= u64::from(addr) && end <= region.high
}

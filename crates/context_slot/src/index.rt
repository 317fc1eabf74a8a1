//! The place of an address among words in a row.

ghost use Rattle.std.specs.Prelude.{◌≡◌, ◌<◌, IfSome};
ghost use Rattle.hart_model.specs.Cells.{index_in};

/// The index of the word whose address in bytes this is, among `len` words from the address `base` on; None exactly where it is the
/// address of none of them.
pub(crate) fn index_of(base: u32, len: u32, at: u32) -> Option<u32>
    ensures index { result ≡ index_in base len at }
    ensures bound { IfSome result (λ i. i < len) }
{
    if at < base {
        return None;
    }
    let offset = at - base;
    if offset % 4 == 0 && offset / 4 < len {
        Some(offset / 4)
    } else {
        None
    }
}

//! Pivots (this project's own).

/// Where a word may be added to a tape without a change of any secret.
#[derive(Clone, Copy, Debug, PartialEq, Eq)]
pub enum Pivot {
    /// At the place of a mask.
    AtMask(usize),
    /// At the places of two shares of one secret, of which the first is to be seen.
    AtShares(usize, usize),
}

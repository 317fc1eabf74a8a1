//! The least item that two lists have in different numbers.

ghost use Rattle.std.specs.Prelude.{◌≡◌, length, IfNone, IfSome, IsSorted};
ghost use Rattle.count_differences.specs.Differences.{how_often, IsLeastDifference};

use std::cmp::Ordering;

/// The least item that stands in two sorted lists of one length in different numbers; `None` exactly where there is none.
pub fn least_difference<T: Ord + Copy>(xs: &[T], ys: &[T]) -> Option<T>
    requires as_long { length xs.now ≡ length ys.now }
    requires first { IsSorted T.cmp xs.now }
    requires second { IsSorted T.cmp ys.now }
    ensures none { IfNone result ((z : T) → how_often T.cmp z xs.now ≡ how_often T.cmp z ys.now) }
    ensures some { IfSome result (λ item. IsLeastDifference T.cmp xs.now ys.now item) }
{
    let mut at = 0;
    while at < xs.len() {
        let x = xs[at];
        let y = ys[at];
        match x.cmp(&y) {
            Ordering::Less => return Some(x),
            Ordering::Greater => return Some(y),
            Ordering::Equal => at += 1,
        }
    }
    None
}

/// Sorts two lists of one length, and finds the least item that stands in them in different numbers; `None` exactly where there is none.
pub fn least_of<T: Ord + Copy>(xs: &mut [T], ys: &mut [T]) -> Option<T>
    requires as_long { length xs.old ≡ length ys.old }
    ensures none { IfNone result ((z : T) → how_often T.cmp z xs.old ≡ how_often T.cmp z ys.old) }
    ensures some { IfSome result (λ item. IsLeastDifference T.cmp xs.old ys.old item) }
{
    xs.sort_unstable();
    ys.sort_unstable();
    least_difference(xs, ys)
}

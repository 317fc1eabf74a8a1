//! All pairs of places, one after the other.

ghost use Rattle.std.specs.Prelude.{◌<◌, ◌≤◌, IfOk, length, ℕ};
ghost use Rattle.isa_model.specs.Limits.{max_worlds};
ghost use Rattle.probe_inspect.specs.Columns.{AreLonger, AreGroupsOf};
ghost use Rattle.probe_order.specs.Numbers.{AreColumnsOf};
ghost use Rattle.probe_order.specs.Pairs.{IsFoundAfter, IsFoundAmong};

use crate::columns::{Column, columns_of};
use crate::joint::{JointDifference, difference_unless};
use crate::orders::{lengthen, look_alike, orders_of};
use probe_inspect::{Group, Row};
use std::alloc::{AllocError, Global};

/// Two places, by their numbers, and the difference of the groups there.
#[derive(Clone, Copy)]
pub(crate) struct Pair {
    pub first: usize,
    pub second: usize,
    pub difference: JointDifference,
}

/// The first difference at a place together with a later one. A look at the numbers of both tells most pairs alike; what it doesn't is
/// compared change by change.
fn difference_after(
    alloc: Global,
    groups: &[Group],
    rows: &[Row],
    columns: &[Column],
    first: usize,
) -> Result<Option<Pair>, AllocError>
    requires groups { AreGroupsOf groups.now rows.now }
    requires cells { (k : ℕ) → k < length columns.now → AreLonger k rows.now }
    requires columns { AreColumnsOf rows.now (length columns.now) columns.now }
    requires low { first < length columns.now }
    ensures found { IfOk result (IsFoundAfter groups.now rows.now first (length columns.now)) }
{
    let orders = orders_of(alloc, groups, columns[first].numbers.as_slice())?;
    let mut counts = Vec::new(alloc);
    let mut left = Vec::with_capacity(alloc, groups[0].members.len())?;
    let mut right = Vec::with_capacity(alloc, groups[0].members.len())?;
    for second in first + 1..columns.len() {
        let column = &columns[second];
        let numbers = column.numbers.as_slice();
        lengthen(&mut counts, column.changes.len())?;
        let table = counts.as_mut_slice();
        let alike = look_alike(orders.as_slice(), numbers, table, &mut left, &mut right)?;
        let found = difference_unless(alike, alloc, groups, rows, first, second)?;
        if let Some(difference) = found {
            return Ok(Some(Pair {
                first,
                second,
                difference,
            }));
        }
    }
    Ok(None)
}

/// The first difference at two of so many places: at the least first place, and then at the least second one.
pub(crate) fn difference_among(
    alloc: Global,
    groups: &[Group],
    rows: &[Row],
    places: usize,
) -> Result<Option<Pair>, AllocError>
    requires groups { AreGroupsOf groups.now rows.now }
    requires few { length rows.now ≤ max_worlds }
    requires cells { (k : ℕ) → k < places → AreLonger k rows.now }
    ensures found { IfOk result (IsFoundAmong groups.now rows.now places) }
{
    let columns = columns_of(alloc, rows, places)?;
    for first in 0..places {
        if let Some(pair) = difference_after(alloc, groups, rows, columns.as_slice(), first)? {
            return Ok(Some(pair));
        }
    }
    Ok(None)
}

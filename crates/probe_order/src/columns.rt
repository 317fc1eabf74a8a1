//! The changes at a place by small numbers, so that two of them can be compared by a table.

ghost use Rattle.std.specs.Prelude.{◌≡◌, ◌+◌, ◌<◌, ◌≤◌, ◌^◌, IfOk, Some, length, ℕ, slice_get};
ghost use Rattle.isa_model.specs.Limits.{max_worlds};
ghost use Rattle.probe_inspect.specs.Columns.{AreLonger};
ghost use Rattle.probe_order.specs.Numbers.{IsNumberIn, IsColumnOf, AreColumnsOf};

use crate::joint::change_of;
use core_model::Items;
use isa_model::Words;
use probe_inspect::Row;
use std::alloc::{AllocError, Global};

/// The changes that come at a place, each once, and of each row the number of its change among them.
#[derive(Drop)]
pub(crate) struct Column {
    pub changes: Items<(u32, u32)>,
    pub numbers: Words,
}

/// The number of a change in a list. One that isn't there goes to its end.
fn number_in(changes: &mut Vec<(u32, u32)>, change: (u32, u32)) -> Result<u32, AllocError>
    requires few { length changes.old.items + 1 < 2 ^ 32 }
    ensures number { IfOk result (IsNumberIn changes.old.items changes.new.items change) }
{
    match changes.as_slice().binary_search(&change) {
        Ok(at) => Ok(at as u32),
        Err(_) => {
            let at = changes.len();
            changes.push(change)?;
            Ok(at as u32)
        }
    }
}

/// The changes of rows at a place, in order and each once.
fn changes_at(alloc: Global, rows: &[Row], at: usize) -> Result<Vec<(u32, u32)>, AllocError>
    requires cells { AreLonger at rows.now }
    ensures few { IfOk result (λ changes. length changes.items ≤ length rows.now) }
{
    let mut changes = Vec::with_capacity(alloc, rows.len())?;
    for row in rows {
        changes.push(change_of(row, at))?;
    }
    changes.sort_unstable();
    changes.dedup();
    Ok(changes)
}

/// The changes of rows at a place by numbers.
fn column_of(alloc: Global, rows: &[Row], at: usize) -> Result<Column, AllocError>
    requires few { length rows.now ≤ max_worlds }
    requires cells { AreLonger at rows.now }
    ensures column { IfOk result (IsColumnOf rows.now at) }
{
    let mut changes = changes_at(alloc, rows, at)?;
    let mut numbers = Vec::with_capacity(alloc, rows.len())?;
    for row in rows {
        let number = number_in(&mut changes, change_of(row, at))?;
        numbers.push(number)?;
    }
    Ok(Column {
        changes: Items::new(changes),
        numbers: Words::new(numbers),
    })
}

/// The changes of rows at so many places.
pub(crate) fn columns_of(
    alloc: Global,
    rows: &[Row],
    places: usize,
) -> Result<Vec<Column>, AllocError>
    requires few { length rows.now ≤ max_worlds }
    requires cells { (k : ℕ) → k < places → AreLonger k rows.now }
    ensures columns { IfOk result (λ columns. AreColumnsOf rows.now places columns.items) }
{
    let mut columns = Vec::with_capacity(alloc, places)?;
    for at in 0..places {
        columns.push(column_of(alloc, rows, at)?)?;
    }
    Ok(columns)
}

//! What the rows of all worlds have in one place, group by group.

ghost use Rattle.std.specs.Prelude.{◌≡◌, ◌+◌, ◌<◌, ◌^◌, All, IfOk, IsPermutation, OnOk, IfSome, IfNone, length, ℕ};
ghost use Rattle.std.specs.List.Sorted.{IsSorted};
ghost use Rattle.probe_inspect.specs.Columns.{count_same, IsDifferenceOf, changes_of, IsFoundAt, AreLonger, AreGroupsOf, IsFoundFrom, AreRowsAlong, IsVerdictIn};
ghost use Rattle.probe_inspect.specs.PairOrder.{pair_cmp};

use crate::course::Course;
use crate::groups::Group;
use crate::rows::Row;
use count_differences::least_difference;
use probing_laws::Verdict;
use std::alloc::{AllocError, Global};

/// The first group that differs from the first one in a place, the least change that they have in different numbers, and these numbers.
#[derive(Clone, Copy)]
pub(crate) struct Difference {
    pub secret: u32,
    pub change: (u32, u32),
    pub count_first: u32,
    pub count_other: u32,
}

/// Puts the changes of rows at a place into a list, in order.
fn gather(
    rows: &[Row],
    members: &[u32],
    at: usize,
    changes: &mut Vec<(u32, u32)>,
) -> Result<(), AllocError>
    requires members { All (λ i. i < length rows.now) members.now }
    requires cells { AreLonger at rows.now }
    ensures moved { OnOk result (IsPermutation (changes_of rows.now at members.now) changes.new.items) }
    ensures sorted { OnOk result (IsSorted pair_cmp changes.new.items) }
{
    changes.clear();
    for member in members {
        let row = &rows[*member as usize];
        changes.push((row.was.as_slice()[at], row.now.as_slice()[at]))?;
    }
    changes.sort_unstable();
    Ok(())
}

/// How often a change stands in a list.
fn count_of(changes: &[(u32, u32)], change: (u32, u32)) -> u32
    requires few { length changes.now < 2 ^ 32 }
    ensures count { result ≡ count_same changes.now change }
{
    let mut count = 0;
    for other in changes {
        if *other == change {
            count += 1;
        }
    }
    count
}

/// The least change that two lists in order have in different numbers, with these numbers.
fn compare(first: &[(u32, u32)], other: &[(u32, u32)], secret: u32) -> Option<Difference>
    requires as_long { length first.now ≡ length other.now }
    requires few { length first.now < 2 ^ 32 }
    requires first { IsSorted pair_cmp first.now }
    requires other { IsSorted pair_cmp other.now }
    ensures none { IfNone result ((change : ℕ × ℕ) → count_same other.now change ≡ count_same first.now change) }
    ensures some { IfSome result (IsDifferenceOf first.now other.now secret) }
{
    match least_difference(first, other) {
        None => None,
        Some(change) => Some(Difference {
            secret,
            change,
            count_first: count_of(first, change),
            count_other: count_of(other, change),
        }),
    }
}

/// The first group that differs from the first one in a place.
fn difference_at(
    alloc: Global,
    groups: &[Group],
    rows: &[Row],
    at: usize,
) -> Result<Option<Difference>, AllocError>
    requires groups { AreGroupsOf groups.now rows.now }
    requires cells { AreLonger at rows.now }
    ensures found { IfOk result (IsFoundAt groups.now rows.now at) }
{
    let head = &groups[0];
    let mut first = Vec::with_capacity(alloc, head.members.len())?;
    let mut other = Vec::with_capacity(alloc, head.members.len())?;
    gather(rows, head.members.as_slice(), at, &mut first)?;
    for j in 1..groups.len() {
        let group = &groups[j];
        gather(rows, group.members.as_slice(), at, &mut other)?;
        if let Some(difference) = compare(first.as_slice(), other.as_slice(), group.secret) {
            return Ok(Some(difference));
        }
    }
    Ok(None)
}

/// The first difference among so many places from one on.
fn difference_from(
    alloc: Global,
    groups: &[Group],
    rows: &[Row],
    from: usize,
    count: usize,
) -> Result<Option<(usize, Difference)>, AllocError>
    requires groups { AreGroupsOf groups.now rows.now }
    requires cells { (k : ℕ) → k < count → AreLonger (from + k) rows.now }
    requires fits { from + count < 2 ^ 64 }
    ensures found { IfOk result (IsFoundFrom groups.now rows.now from count) }
{
    for i in 0..count {
        if let Some(difference) = difference_at(alloc, groups, rows, from + i)? {
            return Ok(Some((i, difference)));
        }
    }
    Ok(None)
}

/// The verdict on the rows of a course: the first difference, or none.
pub(crate) fn verdict_on(
    alloc: Global,
    course: &Course,
    groups: &[Group],
    rows: &[Row],
) -> Result<Verdict, AllocError>
    requires groups { AreGroupsOf groups.now rows.now }
    requires along { AreRowsAlong course.now rows.now }
    ensures verdict { IfOk result (IsVerdictIn course.now groups.now rows.now) }
{
    let mut at = 0;
    let steps = course.steps.as_slice();
    for step in 0..steps.len() {
        let latches = steps[step].latches.as_slice();
        if let Some((place, found)) = difference_from(alloc, groups, rows, at, latches.len())? {
            return Ok(Verdict::Leak {
                step: step as u32,
                latch: latches[place],
                secret_a: groups[0].secret,
                secret_b: found.secret,
                pair: found.change,
                count_a: found.count_first,
                count_b: found.count_other,
            });
        }
        at += latches.len();
    }
    Ok(Verdict::Secure { places: at as u64 })
}

//! What the rows of all worlds have in two places together, group by group.

ghost use Rattle.std.specs.Prelude.{◌≡◌, ◌<◌, ◌^◌, All, IfOk, IsPermutation, OnOk, IfSome, IfNone, Some, length, ℕ, true};
ghost use Rattle.std.specs.List.Sorted.{IsSorted};
ghost use Rattle.probe_inspect.specs.Columns.{change_in, AreLonger, AreGroupsOf};
ghost use Rattle.probe_order.specs.Joint.{joint_cmp, joints_of, count_joint, IsJointDifferenceOf, AreBothAlikeAt, IsJointFoundAt};

use count_differences::least_difference;
use probe_inspect::{Group, Row};
use std::alloc::{AllocError, Global};

/// The values before and after a first write, and those before and after a second one.
type Joint = ((u32, u32), (u32, u32));

/// The first group that differs from the first one in two places together, the least two changes that they have together in different
/// numbers, and these numbers.
#[derive(Clone, Copy)]
pub(crate) struct JointDifference {
    pub secret: u32,
    pub joint: Joint,
    pub count_first: u32,
    pub count_other: u32,
}

/// The change at a place of a row.
pub(crate) fn change_of(row: &Row, at: usize) -> (u32, u32)
    requires was { at < length row.now.was }
    requires now { at < length row.now.now }
    ensures change { result ≡ change_in at (Some row.entry.now) }
{
    (row.was.as_slice()[at], row.now.as_slice()[at])
}

/// Puts the changes of rows at two places into a list, in order.
fn gather(
    rows: &[Row],
    members: &[u32],
    p: usize,
    q: usize,
    joints: &mut Vec<Joint>,
) -> Result<(), AllocError>
    requires members { All (λ i. i < length rows.now) members.now }
    requires first { AreLonger p rows.now }
    requires second { AreLonger q rows.now }
    ensures moved { OnOk result (IsPermutation (joints_of rows.now p q members.now) joints.new.items) }
    ensures sorted { OnOk result (IsSorted joint_cmp joints.new.items) }
{
    joints.clear();
    for member in members {
        let row = &rows[*member as usize];
        joints.push((change_of(row, p), change_of(row, q)))?;
    }
    joints.sort_unstable();
    Ok(())
}

/// How often two changes stand together in a list.
fn count_of(joints: &[Joint], joint: Joint) -> u32
    requires few { length joints.now < 2 ^ 32 }
    ensures count { result ≡ count_joint joints.now joint }
{
    let mut count = 0;
    for other in joints {
        if *other == joint {
            count += 1;
        }
    }
    count
}

/// The least two changes that two lists in order have together in different numbers, with these numbers.
fn compare(first: &[Joint], other: &[Joint], secret: u32) -> Option<JointDifference>
    requires as_long { length first.now ≡ length other.now }
    requires few { length first.now < 2 ^ 32 }
    requires first { IsSorted joint_cmp first.now }
    requires other { IsSorted joint_cmp other.now }
    ensures none { IfNone result ((joint : (ℕ × ℕ) × (ℕ × ℕ)) → count_joint other.now joint ≡ count_joint first.now joint) }
    ensures some { IfSome result (IsJointDifferenceOf first.now other.now secret) }
{
    match least_difference(first, other) {
        None => None,
        Some(joint) => Some(JointDifference {
            secret,
            joint,
            count_first: count_of(first, joint),
            count_other: count_of(other, joint),
        }),
    }
}

/// The first group that differs from the first one in two places together.
fn joint_difference_at(
    alloc: Global,
    groups: &[Group],
    rows: &[Row],
    p: usize,
    q: usize,
) -> Result<Option<JointDifference>, AllocError>
    requires groups { AreGroupsOf groups.now rows.now }
    requires first { AreLonger p rows.now }
    requires second { AreLonger q rows.now }
    ensures found { IfOk result (IsJointFoundAt groups.now rows.now p q) }
{
    let head = &groups[0];
    let mut first = Vec::with_capacity(alloc, head.members.len())?;
    let mut other = Vec::with_capacity(alloc, head.members.len())?;
    gather(rows, head.members.as_slice(), p, q, &mut first)?;
    for j in 1..groups.len() {
        let group = &groups[j];
        gather(rows, group.members.as_slice(), p, q, &mut other)?;
        if let Some(difference) = compare(first.as_slice(), other.as_slice(), group.secret) {
            return Ok(Some(difference));
        }
    }
    Ok(None)
}

/// The first group that differs from the first one in two places together, where it isn't known already that they are alike.
pub(crate) fn difference_unless(
    alike: bool,
    alloc: Global,
    groups: &[Group],
    rows: &[Row],
    p: usize,
    q: usize,
) -> Result<Option<JointDifference>, AllocError>
    requires groups { AreGroupsOf groups.now rows.now }
    requires first { AreLonger p rows.now }
    requires second { AreLonger q rows.now }
    requires alike { alike ≡ true → AreBothAlikeAt groups.now rows.now p q }
    ensures found { IfOk result (IsJointFoundAt groups.now rows.now p q) }
{
    if alike {
        return Ok(None);
    }
    joint_difference_at(alloc, groups, rows, p, q)
}

//! Worlds by their secrets.

ghost use Rattle.std.specs.Prelude.{◌+◌, ◌<◌, ◌≤◌, All, IfOk, IfSome, IfNone, IsPermutation, length, slice_index_or};
ghost use Rattle.std.specs.List.Sorted.{IsNonDecreasingBy};
ghost use Rattle.isa_model.specs.Limits.{max_worlds};
ghost use Rattle.probe_inspect.specs.Groups.{numbered, IsRunFrom, AreGroupsTo, AreGroups, AsManyAs, IsFirstOdd};

use core_model::World;
use isa_model::Words;
use std::alloc::{AllocError, Global};

/// The worlds of a secret, by their numbers.
#[derive(Drop)]
pub struct Group {
    pub secret: u32,
    pub members: Words,
}

/// The secret and the number of each world, in the order of the secrets.
fn by_secret(alloc: Global, worlds: &[World]) -> Result<Vec<(u32, u32)>, AllocError>
    requires few { length worlds.now ≤ max_worlds }
    ensures moved { IfOk result (λ order. IsPermutation (numbered worlds.now (length worlds.now)) order.items) }
    ensures sorted { IfOk result (λ order. IsNonDecreasingBy (λ p. p.0) order.items) }
{
    let mut order = Vec::with_capacity(alloc, worlds.len())?;
    for i in 0..worlds.len() {
        let secret = worlds[i].secret;
        order.push((secret, i as u32))?;
    }
    order.sort_unstable();
    Ok(order)
}

/// The members of the secret at a place of a list in order.
fn members_from(alloc: Global, order: &[(u32, u32)], from: usize) -> Result<Vec<u32>, AllocError>
    requires within { from < length order.now }
    ensures run { IfOk result (λ members. IsRunFrom order.now from (slice_index_or order.now from (0, 0)).0 members.items) }
{
    let (secret, first) = order[from];
    let mut members = Vec::new(alloc);
    members.push(first)?;
    let mut at = from + 1;
    while at < order.len() && order[at].0 == secret {
        members.push(order[at].1)?;
        at += 1;
    }
    Ok(members)
}

/// The groups of a list in order.
fn groups_in(alloc: Global, order: &[(u32, u32)]) -> Result<Vec<Group>, AllocError>
    requires sorted { IsNonDecreasingBy (λ p. p.0) order.now }
    ensures groups { IfOk result (λ groups. AreGroupsTo order.now (length order.now) groups.items) }
{
    let mut groups = Vec::new(alloc);
    let mut from = 0;
    while from < order.len() {
        let members = members_from(alloc, order, from)?;
        let secret = order[from].0;
        from += members.len();
        groups.push(Group {
            secret,
            members: Words::new(members),
        })?;
    }
    Ok(groups)
}

/// Worlds by their secrets, which ascend.
pub(crate) fn groups_of(alloc: Global, worlds: &[World]) -> Result<Vec<Group>, AllocError>
    requires few { length worlds.now ≤ max_worlds }
    ensures groups { IfOk result (λ groups. AreGroups worlds.now groups.items) }
{
    let order = by_secret(alloc, worlds)?;
    groups_in(alloc, order.as_slice())
}

/// The secret of the first group that has another number of members than the first one.
pub(crate) fn odd_group(groups: &[Group]) -> Option<u32>
    requires some { 0 < length groups.now }
    ensures none { IfNone result (All (AsManyAs groups.now) groups.now) }
    ensures some { IfSome result (IsFirstOdd groups.now) }
{
    let size = groups[0].members.len();
    for group in groups {
        if group.members.len() != size {
            return Some(group.secret);
        }
    }
    None
}

//! The members of groups by the numbers of their changes at one place, and a fast look at another place beside it.

ghost use Rattle.std.specs.Prelude.{◌≡◌, ◌<◌, ◌≤◌, All, IfOk, OnOk, length, true};
ghost use Rattle.count_tables.specs.Tables.{AreBelow, IsEmpty};
ghost use Rattle.probe_inspect.specs.declared.groups.Group.{Group};
ghost use Rattle.probe_order.specs.Orders.{numbers_at, IsOrderOf, AreOrdersOf, AreFitting, LookAlike};

use count_tables::equally_often_beside;
use isa_model::Words;
use probe_inspect::Group;
use std::alloc::{AllocError, Global};

/// The members of a group by their numbers at a place: the numbers in ascending order, and beside each the member that has it.
#[derive(Drop)]
pub(crate) struct Order {
    pub numbers: Words,
    pub members: Words,
}

/// The members of a group by their numbers at a place.
fn order_of(alloc: Global, numbers: &[u32], members: &[u32]) -> Result<Order, AllocError>
    requires members { All (λ i. i < length numbers.now) members.now }
    ensures order { IfOk result (IsOrderOf numbers.now members.now) }
{
    let mut pairs = Vec::with_capacity(alloc, members.len())?;
    for member in members {
        pairs.push((numbers[*member as usize], *member))?;
    }
    pairs.sort_unstable();
    let mut beside = Vec::with_capacity(alloc, members.len())?;
    let mut moved = Vec::with_capacity(alloc, members.len())?;
    for pair in &pairs {
        beside.push(pair.0)?;
        moved.push(pair.1)?;
    }
    Ok(Order {
        numbers: Words::new(beside),
        members: Words::new(moved),
    })
}

/// The members of each group by their numbers at a place.
pub(crate) fn orders_of(
    alloc: Global,
    groups: &[Group],
    numbers: &[u32],
) -> Result<Vec<Order>, AllocError>
    requires members { All (λ (g : Group). All (λ i. i < length numbers.now) g.members) groups.now }
    ensures orders { IfOk result (λ orders. AreOrdersOf groups.now numbers.now orders.items) }
{
    let mut orders = Vec::with_capacity(alloc, groups.len())?;
    for group in groups {
        orders.push(order_of(alloc, numbers, group.members.as_slice())?)?;
    }
    Ok(orders)
}

/// Puts the numbers of members at another place into a list.
fn gather(numbers: &[u32], members: &[u32], along: &mut Vec<u32>) -> Result<(), AllocError>
    requires members { All (λ i. i < length numbers.now) members.now }
    ensures along { OnOk result (along.new.items ≡ numbers_at numbers.now members.now) }
{
    along.clear();
    for member in members {
        along.push(numbers[*member as usize])?;
    }
    Ok(())
}

/// Makes a table of counts, all 0, as long as this.
pub(crate) fn lengthen(counts: &mut Vec<u32>, kinds: usize) -> Result<(), AllocError>
    requires empty { IsEmpty counts.old.items }
    ensures empty { OnOk result (IsEmpty counts.new.items) }
    ensures long { OnOk result (kinds ≤ length counts.new.items) }
{
    while counts.len() < kinds {
        counts.push(0)?;
    }
    Ok(())
}

/// Whether all groups have the same numbers at one place, and each number at another place equally often beside each of these; it may miss
/// that they do. The table has a count for each number at the other place, all 0.
pub(crate) fn look_alike(
    orders: &[Order],
    numbers: &[u32],
    counts: &mut [u32],
    first: &mut Vec<u32>,
    other: &mut Vec<u32>,
) -> Result<bool, AllocError>
    requires fitting { AreFitting orders.now numbers.now }
    requires below { AreBelow numbers.now counts.old }
    requires empty { IsEmpty counts.old }
    ensures length { length counts.new ≡ length counts.old }
    ensures empty { IsEmpty counts.new }
    ensures alike { IfOk result (λ alike. alike ≡ true → LookAlike orders.now numbers.now) }
{
    let head = &orders[0];
    let beside = head.numbers.as_slice();
    gather(numbers, head.members.as_slice(), first)?;
    for j in 1..orders.len() {
        let order = &orders[j];
        if order.numbers.as_slice() != beside {
            return Ok(false);
        }
        gather(numbers, order.members.as_slice(), other)?;
        if !equally_often_beside(counts, beside, first.as_slice(), other.as_slice()) {
            return Ok(false);
        }
    }
    Ok(true)
}

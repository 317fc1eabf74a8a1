//! Rounds of chi on five words of two shares each, with a fresh mask for each product.

use crate::check::is_shown;
use crate::roles::count_secrets;
use masked_worlds::Role;
use std::alloc::Global;
use std::test::Fail;
use tape_terms::{Alu, Pool, columns};

const LANES: usize = 5;

const ROUNDS: usize = 3;

/// The role of a word of the tape: the shares of the lanes, and then masks.
fn role_at(place: usize) -> Role {
    match place {
        0 | 1 => Role::Share(0),
        2 | 3 => Role::Share(1),
        4 | 5 => Role::Share(2),
        6 | 7 => Role::Share(3),
        8 | 9 => Role::Share(4),
        _ => Role::Mask,
    }
}

/// What an operation gives of two terms.
fn make(pool: &mut Pool, op: Alu, a: usize, b: usize) -> Result<usize, Fail> {
    if a < pool.terms().len() && b < pool.terms().len() {
        Ok(pool.of(op, a, b)?)
    } else {
        Ok(0)
    }
}

/// The item at an index, and 0 past the end.
fn item(items: &[usize], i: usize) -> usize {
    items.get(i).copied().unwrap_or(0)
}

/// One share of a lane after a round, by the lane's share, the factors and a mask; the pairs that are seen one after the other are kept.
fn share_after(
    pool: &mut Pool,
    seen: &mut Vec<(usize, usize)>,
    lane: usize,
    factor: usize,
    same: usize,
    other: usize,
    mask: usize,
) -> Result<usize, Fail> {
    let cross = make(pool, Alu::And, factor, other)?;
    let masked = make(pool, Alu::Xor, cross, mask)?;
    let inner = make(pool, Alu::And, factor, same)?;
    let sum = make(pool, Alu::Xor, inner, masked)?;
    let new = make(pool, Alu::Xor, lane, sum)?;
    seen.push((cross, masked))?;
    seen.push((masked, inner))?;
    seen.push((inner, sum))?;
    seen.push((sum, new))?;
    seen.push((lane, new))?;
    Ok(new)
}

/// A round on the shares of the lanes, two after each other for each lane.
fn round(
    alloc: Global,
    pool: &mut Pool,
    seen: &mut Vec<(usize, usize)>,
    shares: &[usize],
    ones: usize,
    masks: &[usize],
) -> Result<Vec<usize>, Fail> {
    let mut after = Vec::new(alloc);
    for lane in 0..LANES {
        let next = (lane + 1) % LANES;
        let third = (lane + 2) % LANES;
        let x = item(shares, 2 * lane);
        let y = item(shares, 2 * lane + 1);
        let p = make(pool, Alu::Xor, item(shares, 2 * next), ones)?;
        let q = item(shares, 2 * next + 1);
        let u = item(shares, 2 * third);
        let v = item(shares, 2 * third + 1);
        let mask = item(masks, lane);
        after.push(share_after(pool, seen, x, p, u, v, mask)?)?;
        after.push(share_after(pool, seen, y, q, v, u, mask)?)?;
    }
    Ok(after)
}

#[test]
fn rounds_are_shown(rt: HostRuntime) -> Result<(), Fail> {
    let mut pool = Pool::new(rt.alloc());
    let mut roles: Vec<Role> = Vec::new(rt.alloc());
    let mut shares: Vec<usize> = Vec::new(rt.alloc());
    for place in 0..2 * LANES {
        roles.push(role_at(place))?;
        shares.push(pool.word(place)?)?;
    }
    let ones = pool.constant(u32::MAX)?;
    let mut seen: Vec<(usize, usize)> = Vec::new(rt.alloc());
    for number in 0..ROUNDS {
        let mut masks: Vec<usize> = Vec::new(rt.alloc());
        for lane in 0..LANES {
            let place = 2 * LANES + number * LANES + lane;
            roles.push(role_at(place))?;
            masks.push(pool.word(place)?)?;
        }
        shares = round(
            rt.alloc(),
            &mut pool,
            &mut seen,
            shares.as_slice(),
            ones,
            masks.as_slice(),
        )?;
    }
    let marks = columns(rt.alloc(), pool.terms(), roles.len())?;
    let count = count_secrets(roles.as_slice());
    let mut missed = 0_u64;
    for (first, second) in seen.as_slice() {
        let atoms = [*first, *second];
        if !is_shown(
            rt.alloc(),
            pool.terms(),
            marks.as_slice(),
            roles.as_slice(),
            count,
            atoms.as_slice(),
            32,
        )? {
            missed = missed.saturating_add(1);
        }
    }
    assert_eq!(rt; missed, 0);
    Ok(())
}

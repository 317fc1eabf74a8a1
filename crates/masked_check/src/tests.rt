//! Small gadgets: what is shown of them, and what isn't.

use crate::check::is_shown;
use crate::roles::count_secrets;
use masked_worlds::Role;
use std::test::Fail;
use tape_terms::{Alu, Terms, columns};

const LIMIT: usize = 32;

/// Two secrets of two shares each, and two masks.
const ROLES: [Role; 6] = [
    Role::Share(0),
    Role::Share(0),
    Role::Share(1),
    Role::Share(1),
    Role::Mask,
    Role::Mask,
];

/// Whether some terms are shown to tell nothing.
fn shown(rt: HostRuntime, terms: &Terms, atoms: &[usize]) -> Result<bool, Fail> {
    let marks = columns(rt.alloc(), terms, ROLES.len())?;
    let roles = ROLES.as_slice();
    let count = count_secrets(roles);
    Ok(is_shown(
        rt.alloc(),
        terms,
        marks.as_slice(),
        roles,
        count,
        atoms,
        LIMIT,
    )?)
}

/// The words of the tape as the first terms.
fn words(rt: HostRuntime) -> Result<Terms, Fail> {
    let mut terms = Terms::new(rt.alloc());
    for place in 0..ROLES.len() {
        let _word = terms.word(place)?;
    }
    Ok(terms)
}

#[test]
fn shares_apart(rt: HostRuntime) -> Result<(), Fail> {
    let terms = words(rt)?;
    assert!(rt; shown(rt, &terms, &[0])?);
    assert!(rt; shown(rt, &terms, &[0, 2])?);
    assert!(rt; shown(rt, &terms, &[0, 3, 4])?);
    assert!(rt; !shown(rt, &terms, &[0, 1])?);
    assert!(rt; !shown(rt, &terms, &[0, 2, 3])?);
    Ok(())
}

/// What an operation gives of two terms.
fn make(terms: &mut Terms, op: Alu, a: usize, b: usize) -> Result<usize, Fail> {
    if a < terms.len() && b < terms.len() {
        Ok(terms.of(op, a, b)?)
    } else {
        Ok(0)
    }
}

/// A masked product of two secrets, with its mask and without.
#[test]
fn product(rt: HostRuntime) -> Result<(), Fail> {
    let mut terms = words(rt)?;
    let cross = make(&mut terms, Alu::And, 0, 3)?;
    let masked = make(&mut terms, Alu::Xor, cross, 4)?;
    let inner = make(&mut terms, Alu::And, 0, 2)?;
    let share = make(&mut terms, Alu::Xor, inner, masked)?;
    assert!(rt; shown(rt, &terms, &[cross, masked])?);
    assert!(rt; shown(rt, &terms, &[masked, inner])?);
    assert!(rt; shown(rt, &terms, &[inner, share])?);
    assert!(rt; shown(rt, &terms, &[masked, share])?);
    assert!(rt; shown(rt, &terms, &[cross])?);
    assert!(rt; !shown(rt, &terms, &[cross, inner])?);
    assert!(rt; !shown(rt, &terms, &[cross, 1])?);
    Ok(())
}

/// Sums are added, not replaced by their operands: what is masked twice and once is masked.
#[test]
fn sums(rt: HostRuntime) -> Result<(), Fail> {
    let mut terms = words(rt)?;
    let cross = make(&mut terms, Alu::And, 0, 3)?;
    let once = make(&mut terms, Alu::Xor, cross, 4)?;
    let inner = make(&mut terms, Alu::And, 0, 2)?;
    let twice = make(&mut terms, Alu::Xor, once, inner)?;
    let bare = make(&mut terms, Alu::Xor, once, 4)?;
    assert!(rt; shown(rt, &terms, &[once, twice])?);
    assert!(rt; !shown(rt, &terms, &[bare, inner])?);
    let shifted = make(&mut terms, Alu::Srl, 0, 2)?;
    let hidden = make(&mut terms, Alu::Xor, shifted, 5)?;
    assert!(rt; shown(rt, &terms, &[hidden, 1])?);
    assert!(rt; !shown(rt, &terms, &[shifted, 1])?);
    Ok(())
}

/// A share with an unseen partner masks as a mask does.
#[test]
fn partner(rt: HostRuntime) -> Result<(), Fail> {
    let mut terms = words(rt)?;
    let both = make(&mut terms, Alu::And, 2, 3)?;
    let masked = make(&mut terms, Alu::Xor, both, 0)?;
    assert!(rt; shown(rt, &terms, &[masked])?);
    assert!(rt; !shown(rt, &terms, &[both])?);
    assert!(rt; !shown(rt, &terms, &[masked, 1])?);
    Ok(())
}

//! What to try next. Nothing is claimed of it: what is tried is checked.

use crate::form::Form;
use crate::forms::Forms;
use crate::roles::is_share;
use masked_worlds::{Pivot, Role};
use std::alloc::{AllocError, Global};
use tape_terms::{Alu, Column, Term, Terms};

/// A step of the check.
#[derive(Clone, Copy, Debug)]
pub enum Step {
    /// The form at this place is added to the others that have this term, and is cut at the pivot whose word the term is.
    Cut(usize, usize, Pivot),
    /// The operands of this term become forms.
    Expand(usize),
    /// None is left.
    Stuck,
}

/// Which kind of term is looked for.
#[derive(Clone, Copy, Debug)]
enum Kind {
    Sum,
    Operation,
}

/// Whether a term is of this kind.
fn is_kind(terms: &Terms, atom: usize, kind: Kind) -> bool {
    match (terms.get(atom), kind) {
        (Some(Term::Of(Alu::Xor, _, _)), Kind::Sum) => true,
        (Some(Term::Of(_, _, _)), Kind::Operation) => true,
        _ => false,
    }
}

/// The greater of a place and one that may be missing.
fn greater(best: Option<usize>, atom: usize) -> Option<usize> {
    match best {
        Some(old) => { if old < atom { Some(atom) } else { Some(old) } }
        None => Some(atom),
    }
}

/// The greatest term of a form that is of this kind, or the one that was found before if it is greater.
fn greatest_in(form: &Form, terms: &Terms, kind: Kind, found: Option<usize>) -> Option<usize> {
    let mut best = found;
    for atom in form.as_slice() {
        if is_kind(terms, *atom, kind) {
            best = greater(best, *atom);
        }
    }
    best
}

/// The greatest term of this kind in all forms.
fn greatest(forms: &Forms, terms: &Terms, kind: Kind) -> Option<usize> {
    let mut best = None;
    for form in forms.as_slice() {
        best = greatest_in(form, terms, kind, best);
    }
    best
}

/// The greatest exclusive or in all forms.
pub fn greatest_sum(forms: &Forms, terms: &Terms) -> Option<usize> {
    greatest(forms, terms, Kind::Sum)
}

/// Whether a form has a term other than this one that reads the place of a column.
fn other_reads_in(form: &Form, column: &Column, m: usize) -> bool {
    for atom in form.as_slice() {
        if *atom != m && column.reads(*atom) {
            return true;
        }
    }
    false
}

/// Whether some form has one.
fn other_reads(forms: &Forms, columns: &[Column], place: usize, m: usize) -> bool {
    match columns.get(place) {
        Some(column) => {
            for form in forms.as_slice() {
                if other_reads_in(form, column, m) {
                    return true;
                }
            }
            false
        }
        None => true,
    }
}

/// Another share of a secret that no form hangs on.
fn partner_of(
    forms: &Forms,
    columns: &[Column],
    roles: &[Role],
    place: usize,
    secret: u32,
) -> Option<usize> {
    for partner in 0..roles.len() {
        if partner != place
            && is_share(roles, partner, secret as usize)
            && forms.is_unread(columns, partner)
        {
            return Some(partner);
        }
    }
    None
}

/// The pivot at a place, if there is one.
fn pivot_at(forms: &Forms, columns: &[Column], roles: &[Role], place: usize) -> Option<Pivot> {
    match roles.get(place).copied() {
        Some(Role::Mask) => Some(Pivot::AtMask(place)),
        Some(Role::Share(secret)) => match partner_of(forms, columns, roles, place, secret) {
            Some(partner) => Some(Pivot::AtShares(place, partner)),
            None => None,
        },
        _ => None,
    }
}

/// The pivot whose word a term is, if no other term of a form reads it.
fn pivot_of(
    forms: &Forms,
    terms: &Terms,
    columns: &[Column],
    roles: &[Role],
    m: usize,
) -> Option<Pivot> {
    match terms.get(m) {
        Some(Term::Word(place)) => {
            if other_reads(forms, columns, place, m) {
                None
            } else {
                pivot_at(forms, columns, roles, place)
            }
        }
        _ => None,
    }
}

/// The shortest form that has a term; the given one, if there is none that is shorter.
fn shortest_with(forms: &Forms, m: usize, given: usize) -> usize {
    let mut best = given;
    let mut length = usize::MAX;
    for (i, form) in forms.as_slice().iter().enumerate() {
        if form.as_slice().len() < length && form.find(m).is_some() {
            best = i;
            length = form.as_slice().len();
        }
    }
    best
}

/// A cut of a form with more than one term.
fn cut_in(
    form: &Form,
    i: usize,
    forms: &Forms,
    terms: &Terms,
    columns: &[Column],
    roles: &[Role],
) -> Option<Step> {
    if form.as_slice().len() < 2 {
        return None;
    }
    for atom in form.as_slice() {
        if let Some(pivot) = pivot_of(forms, terms, columns, roles, *atom) {
            return Some(Step::Cut(shortest_with(forms, *atom, i), *atom, pivot));
        }
    }
    None
}

/// The next step.
pub fn next_step(forms: &Forms, terms: &Terms, columns: &[Column], roles: &[Role]) -> Step {
    for (i, form) in forms.as_slice().iter().enumerate() {
        if let Some(step) = cut_in(form, i, forms, terms, columns, roles) {
            return step;
        }
    }
    match greatest(forms, terms, Kind::Operation) {
        Some(m) => Step::Expand(m),
        None => Step::Stuck,
    }
}

/// For each secret a share that no form hangs on, or a place past the end.
pub fn find_left_out(
    alloc: Global,
    forms: &Forms,
    columns: &[Column],
    roles: &[Role],
    count: usize,
) -> Result<Vec<usize>, AllocError> {
    let mut found = vec![in alloc; usize::MAX; count]?;
    for place in 0..roles.len() {
        if let Role::Share(secret) = roles[place] {
            let secret = secret as usize;
            if secret < found.len()
                && found[secret] == usize::MAX
                && forms.is_unread(columns, place)
            {
                found[secret] = place;
            }
        }
    }
    Ok(found)
}

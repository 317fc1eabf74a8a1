//! The check of what some terms show together.

ghost use Rattle.std.specs.Prelude.{◌≡◌, ℕ, ◌<◌, true, List, [], ◌∷◌, map, length, IfOk, OnOk};
ghost use Rattle.tape_terms.specs.declared.term.Term.{Term};
ghost use Rattle.tape_terms.specs.Values.{value_of};
ghost use Rattle.tape_terms.specs.Marks.{AreColumns};
ghost use Rattle.masked_worlds.specs.declared.role.Role.{Role};
ghost use Rattle.masked_check.specs.Shown.{IsShown, AreBelow};
ghost use Rattle.masked_check.specs.Forms.{seen, Leads};

use crate::forms::Forms;
use crate::search::{Step, find_left_out, greatest_sum, next_step};
use masked_worlds::{Pivot, Role};
use std::alloc::{AllocError, Global};
use tape_terms::{Column, Terms};

/// Adds a form to the others that have a term.
fn add_to_others(forms: &mut Forms, alloc: Global, i: usize, m: usize) -> Result<(), AllocError>
    requires place { i < length forms.old }
    ensures leads { OnOk result ((roles : List Role) (terms : List Term) → Leads roles terms forms.old forms.new) }
    ensures length { OnOk result (length forms.new ≡ length forms.old) }
{
    for j in 0..forms.len() {
        if j != i && forms.has(j, m) {
            forms.add(alloc, j, i)?;
        }
    }
    Ok(())
}

/// Cuts a form, after it was added to the others that have the pivot's term.
fn cut_all(
    forms: &mut Forms,
    alloc: Global,
    terms: &Terms,
    columns: &[Column],
    roles: &[Role],
    place: (usize, usize),
    pivot: Pivot,
) -> Result<bool, AllocError>
    requires columns { AreColumns terms.now columns.now }
    requires place { place.0 < length forms.old }
    ensures leads { OnOk result (Leads roles.now terms.now forms.old forms.new) }
{
    add_to_others(forms, alloc, place.0, place.1)?;
    let is_cut = forms.cut(alloc, terms, columns, roles, place, pivot)?;
    Ok(is_cut)
}

/// Puts the operands of exclusive ors in their places, till none is left.
fn split_sums(forms: &mut Forms, terms: &Terms) -> Result<(), AllocError>
    ensures leads { OnOk result ((roles : List Role) → Leads roles terms.now forms.old forms.new) }
{
    for _ in 0..terms.len() {
        match greatest_sum(forms, terms) {
            Some(m) => {
                forms.split(terms, m)?;
            }
            None => {
                return Ok(());
            }
        }
    }
    Ok(())
}

/// Takes a step. Answers whether something was done.
fn take_step(
    forms: &mut Forms,
    alloc: Global,
    terms: &Terms,
    columns: &[Column],
    roles: &[Role],
) -> Result<bool, AllocError>
    requires columns { AreColumns terms.now columns.now }
    ensures leads { OnOk result (Leads roles.now terms.now forms.old forms.new) }
{
    match next_step(forms, terms, columns, roles) {
        Step::Cut(i, m, pivot) => {
            if i < forms.len() {
                let done = cut_all(forms, alloc, terms, columns, roles, (i, m), pivot)?;
                Ok(done)
            } else {
                Ok(false)
            }
        }
        Step::Expand(m) => {
            let done = forms.expand(alloc, terms, m)?;
            Ok(done)
        }
        Step::Stuck => Ok(false),
    }
}

/// The forms of some terms, one for each.
fn forms_of(alloc: Global, atoms: &[usize]) -> Result<Forms, AllocError>
    ensures forms { IfOk result (λ forms. forms ≡ map (λ (a : ℕ). a ∷ []) atoms.now) }
{
    let mut forms = Forms::new(alloc);
    for atom in atoms {
        forms.push(alloc, *atom)?;
    }
    Ok(forms)
}

/// Whether forms are seen to leave out a share of each secret.
fn is_done(
    forms: &Forms,
    alloc: Global,
    columns: &[Column],
    roles: &[Role],
    count: usize,
) -> Result<bool, AllocError>
    requires below { AreBelow roles.now count }
    ensures shown { IfOk result (λ done. done ≡ true → (terms : List Term) → AreColumns terms columns.now → IsShown roles.now (seen terms forms.now)) }
{
    let left_out = find_left_out(alloc, forms, columns, roles, count)?;
    let done = forms.leaves_out(columns, roles, left_out.as_slice(), count);
    Ok(done)
}

/// Whether what some terms denote together is shown to tell nothing of the secrets. It is looked for in at most so many steps.
pub fn is_shown(
    alloc: Global,
    terms: &Terms,
    columns: &[Column],
    roles: &[Role],
    count: usize,
    atoms: &[usize],
    limit: usize,
) -> Result<bool, AllocError>
    requires columns { AreColumns terms.now columns.now }
    requires below { AreBelow roles.now count }
    ensures shown { IfOk result (λ shown. shown ≡ true → IsShown roles.now (λ (t : List ℕ). map (λ (a : ℕ). value_of terms.now t a) atoms.now)) }
{
    let mut forms = forms_of(alloc, atoms)?;
    for _ in 0..limit {
        split_sums(&mut forms, terms)?;
        if is_done(&forms, alloc, columns, roles, count)? {
            return Ok(true);
        }
        if !take_step(&mut forms, alloc, terms, columns, roles)? {
            return Ok(false);
        }
    }
    Ok(false)
}

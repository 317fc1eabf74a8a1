//! Lists of forms, and the steps that keep what is shown of them.

ghost use Rattle.std.specs.Prelude.{◌≡◌, ◌≢◌, ℕ, ◌+◌, ◌<◌, true, false, List, [], ◌∷◌, ◌++◌, length, get_or, set, slice_get, Some, IfOk, OnOk};
ghost use Rattle.isa_model.specs.Bits.{low_word};
ghost use Rattle.tape_terms.specs.Values.{IsAfter, value_of};
ghost use Rattle.tape_terms.specs.Marks.{AreColumns, IsApart};
ghost use Rattle.tape_terms.specs.declared.term.Term.{Term};
ghost use Rattle.tape_terms.specs.declared.term.Term.TheVariants as terms_of;
ghost use Rattle.masked_worlds.specs.declared.role.Role.{Role};
ghost use Rattle.masked_worlds.specs.Changes.{IsApartFrom};
ghost use Rattle.masked_check.specs.Shown.{IsShown, LeavesOne, AreBelow};
ghost use Rattle.masked_check.specs.Forms.{value_on, seen, Leads, AreUnread, OthersAreUnread, MayCut};

use crate::form::Form;
use crate::roles::{is_pivot, is_share, place_of_pivot};
use masked_worlds::{Pivot, Role};
use std::alloc::{AllocError, Global};
use std::marker::Model;
use tape_terms::{Alu, Column, Term, Terms};

/// What is seen of a tape, as forms.
#[derive(Debug, Drop)]
pub struct Forms {
    list: Vec<Form>,
}

impl Model for Forms {
    ghost use Rattle.std.specs.Prelude.{ℕ, List};

    ghost Value = { List (List ℕ) };

    ghost view = { λ f. f.list.items };
}

impl Forms {
    /// No forms.
    pub fn new(alloc: Global) -> Forms
        ensures none { result ≡ [] }
    {
        Forms {
            list: Vec::new(alloc),
        }
    }

    /// How many forms there are.
    pub fn len(&self) -> usize
        ensures length { result ≡ length self.now }
    {
        self.list.len()
    }

    /// The forms as a slice.
    pub fn as_slice(&self) -> &[Form]
        ensures forms { result.now ≡ self.now }
    {
        self.list.as_slice()
    }

    /// Whether the form at a place has a term.
    pub fn has(&self, i: usize, atom: usize) -> bool {
        match self.list.get(i) {
            Some(form) => form.find(atom).is_some(),
            None => false,
        }
    }

    /// Adds a form of one term at the end.
    pub fn push(&mut self, alloc: Global, atom: usize) -> Result<(), AllocError>
        ensures forms { OnOk result (self.new ≡ self.old ++ (atom ∷ []) ∷ []) }
    {
        let form = Form::of(alloc, atom)?;
        self.list.push(form)?;
        Ok(())
    }

    /// Adds one form to another.
    pub fn add(&mut self, alloc: Global, to: usize, other: usize) -> Result<(), AllocError>
        requires to { to < length self.old }
        requires other { other < length self.old }
        requires apart { other ≢ to }
        ensures leads { OnOk result ((roles : List Role) (terms : List Term) → Leads roles terms self.old self.new) }
        ensures length { OnOk result (length self.new ≡ length self.old) }
    {
        let added = self.list[other].copy(alloc)?;
        self.list[to].add(&added)?;
        Ok(())
    }

    /// Puts the operands of an exclusive or in its place in one form.
    fn split_at(&mut self, terms: &Terms, i: usize, m: usize) -> Result<(), AllocError>
        requires place { i < length self.old }
        ensures same { OnOk result ((t : List ℕ) → seen terms.now self.new t ≡ seen terms.now self.old t) }
        ensures length { OnOk result (length self.new ≡ length self.old) }
    {
        self.list[i].split(terms, m)?;
        Ok(())
    }

    /// Puts the operands of an exclusive or in its place.
    pub fn split(&mut self, terms: &Terms, m: usize) -> Result<(), AllocError>
        ensures leads { OnOk result ((roles : List Role) → Leads roles terms.now self.old self.new) }
        ensures length { OnOk result (length self.new ≡ length self.old) }
    {
        for i in 0..self.list.len() {
            if self.list[i].find(m).is_some() {
                self.split_at(terms, i, m)?;
            }
        }
        Ok(())
    }

    /// Takes a term out of one form, or adds it there, where forms at `n` and after it are its operands.
    fn put(
        &mut self,
        terms: &Terms,
        term: (usize, Alu, usize, usize),
        i: usize,
        n: usize,
    ) -> Result<(), AllocError>
        requires is { slice_get terms.now term.0 ≡ Some (terms_of.Of term.1 term.2 term.3) }
        requires after { IsAfter term.0 (terms_of.Of term.1 term.2 term.3) }
        requires place { i < n }
        requires room { n + 1 < length self.old }
        requires first { get_or self.old n [] ≡ term.2 ∷ [] }
        requires second { get_or self.old (n + 1) [] ≡ term.3 ∷ [] }
        ensures leads { OnOk result ((roles : List Role) → Leads roles terms.now self.old self.new) }
        ensures length { OnOk result (length self.new ≡ length self.old) }
        ensures others { OnOk result ((j : ℕ) → j ≢ i → get_or self.new j [] ≡ get_or self.old j []) }
    {
        self.list[i].toggle(term.0)?;
        Ok(())
    }

    /// Puts the operands of a term in its place in all forms: they become forms of their own.
    fn open(
        &mut self,
        alloc: Global,
        terms: &Terms,
        term: (usize, Alu, usize, usize),
    ) -> Result<(), AllocError>
        requires is { slice_get terms.now term.0 ≡ Some (terms_of.Of term.1 term.2 term.3) }
        requires after { IsAfter term.0 (terms_of.Of term.1 term.2 term.3) }
        ensures leads { OnOk result ((roles : List Role) → Leads roles terms.now self.old self.new) }
    {
        let count = self.list.len();
        self.push(alloc, term.2)?;
        self.push(alloc, term.3)?;
        for i in 0..count {
            if self.list[i].find(term.0).is_some() {
                self.put(terms, term, i, count)?;
            }
        }
        Ok(())
    }

    /// Puts the operands of a term in its place in all forms. Answers whether it has operands.
    pub fn expand(&mut self, alloc: Global, terms: &Terms, m: usize) -> Result<bool, AllocError>
        ensures leads { OnOk result ((roles : List Role) → Leads roles terms.now self.old self.new) }
    {
        match terms.get(m) {
            Some(Term::Of(op, a, b)) => {
                self.open(alloc, terms, (m, op, a, b))?;
                Ok(true)
            }
            _ => Ok(false),
        }
    }

    /// Whether a form reads the place of a column.
    pub fn reads(&self, column: &Column) -> bool
        ensures unread { result ≡ false → AreUnread column.now self.now }
    {
        for i in 0..self.list.len() {
            if self.list[i].reads(column) {
                return true;
            }
        }
        false
    }

    /// Whether a form but the one at `i` reads the place of a column.
    pub fn others_read(&self, column: &Column, i: usize) -> bool
        ensures unread { result ≡ false → OthersAreUnread column.now self.now i }
    {
        for j in 0..self.list.len() {
            if j != i && self.list[j].reads(column) {
                return true;
            }
        }
        false
    }

    /// Whether neither a form nor the forms but the one at `i` hang on a place.
    fn is_apart(&self, columns: &[Column], rest: &Form, i: usize, place: usize) -> bool
        ensures apart { result ≡ true → (terms : List Term) → AreColumns terms columns.now → IsApart place (λ (t : List ℕ). value_on terms t rest.now) × IsApart place (seen terms (set self.now i [])) }
    {
        match columns.get(place) {
            Some(column) => !rest.reads(column) && !self.others_read(column, i),
            None => false,
        }
    }

    /// Whether neither a form nor the forms but the one at `i` hang on a pivot or its partner.
    fn is_apart_from(&self, columns: &[Column], rest: &Form, i: usize, pivot: Pivot) -> bool
        ensures apart { result ≡ true → (terms : List Term) → AreColumns terms columns.now → IsApartFrom pivot (λ (t : List ℕ). value_on terms t rest.now) × IsApartFrom pivot (seen terms (set self.now i [])) }
    {
        match pivot {
            Pivot::AtMask(place) => self.is_apart(columns, rest, i, place),
            Pivot::AtShares(place, partner) => {
                self.is_apart(columns, rest, i, place) && self.is_apart(columns, rest, i, partner)
            }
        }
    }

    /// Whether a form may be cut at a pivot, of which a term is the word.
    fn may_cut(
        &self,
        terms: &Terms,
        columns: &[Column],
        roles: &[Role],
        rest: &Form,
        place: (usize, usize),
        pivot: Pivot,
    ) -> bool
        requires columns { AreColumns terms.now columns.now }
        ensures may { result ≡ true → MayCut roles.now terms.now self.now place.0 place.1 rest.now pivot }
    {
        if !is_pivot(roles, pivot) {
            return false;
        }
        if !is_word(terms, place.1, place_of_pivot(pivot)) {
            return false;
        }
        self.is_apart_from(columns, rest, place.0, pivot)
    }

    /// Puts the word of a pivot in the place of a form that it is added to, if this is a cut. Answers whether it is.
    pub fn cut(
        &mut self,
        alloc: Global,
        terms: &Terms,
        columns: &[Column],
        roles: &[Role],
        place: (usize, usize),
        pivot: Pivot,
    ) -> Result<bool, AllocError>
        requires columns { AreColumns terms.now columns.now }
        requires place { place.0 < length self.old }
        ensures leads { OnOk result (Leads roles.now terms.now self.old self.new) }
    {
        let mut rest = self.list[place.0].copy(alloc)?;
        rest.toggle(place.1)?;
        if !self.may_cut(terms, columns, roles, &rest, place, pivot) {
            return Ok(false);
        }
        self.list[place.0] = Form::of(alloc, place.1)?;
        Ok(true)
    }

    /// Whether no form hangs on a place.
    pub fn is_unread(&self, columns: &[Column], place: usize) -> bool
        ensures apart { result ≡ true → (terms : List Term) → AreColumns terms columns.now → IsApart place (seen terms self.now) }
    {
        match columns.get(place) {
            Some(column) => !self.reads(column),
            None => false,
        }
    }

    /// Whether the share of a secret that is to be left out is one on which no form hangs.
    fn leaves_one(
        &self,
        columns: &[Column],
        roles: &[Role],
        left_out: &[usize],
        secret: usize,
    ) -> bool
        ensures one { result ≡ true → (terms : List Term) → AreColumns terms columns.now → LeavesOne roles.now (seen terms self.now) secret }
    {
        match left_out.get(secret).copied() {
            Some(place) => is_share(roles, place, secret) && self.is_unread(columns, place),
            None => false,
        }
    }

    /// Whether no form hangs on the shares that are to be left out, one for each secret.
    pub fn leaves_out(
        &self,
        columns: &[Column],
        roles: &[Role],
        left_out: &[usize],
        count: usize,
    ) -> bool
        requires below { AreBelow roles.now count }
        ensures shown { result ≡ true → (terms : List Term) → AreColumns terms columns.now → IsShown roles.now (seen terms self.now) }
    {
        for secret in 0..count {
            if !self.leaves_one(columns, roles, left_out, secret) {
                return false;
            }
        }
        true
    }
}

/// Whether a term is the word at a place of the tape.
fn is_word(terms: &Terms, m: usize, place: usize) -> bool
    ensures word { result ≡ true → (t : List ℕ) → value_of terms.now t m ≡ low_word (get_or t place 0) }
{
    match terms.get(m) {
        Some(Term::Word(at)) => at == place,
        _ => false,
    }
}

//! Forms.

ghost use Rattle.std.specs.Prelude.{◌≡◌, ℕ, ◌+◌, ◌<◌, true, false, List, [], ◌∷◌, length, get_or, bit_xor, IfSome, IfOk, OnOk};
ghost use Rattle.masked_check.specs.Forms.{form_value, value_on, IsUnread};

use std::alloc::{AllocError, Global};
use std::marker::Model;
use tape_terms::{Alu, Column, Term, Terms};

/// Places of terms, which stand for the exclusive or of what these terms denote.
#[derive(Debug, Drop)]
pub struct Form {
    atoms: Vec<usize>,
}

impl Model for Form {
    ghost use Rattle.std.specs.Prelude.{ℕ, List};

    ghost Value = { List ℕ };

    ghost view = { λ f. f.atoms.items };
}

impl Form {
    /// The form of one term.
    pub fn of(alloc: Global, atom: usize) -> Result<Form, AllocError>
        ensures atoms { IfOk result (λ f. f ≡ atom ∷ []) }
    {
        let mut atoms = Vec::new(alloc);
        atoms.push(atom)?;
        Ok(Form { atoms })
    }

    /// The same form in memory of its own.
    pub fn copy(&self, alloc: Global) -> Result<Form, AllocError>
        ensures same { IfOk result (λ f. f ≡ self.now) }
    {
        Ok(Form {
            atoms: Vec::from_slice(alloc, self.atoms.as_slice())?,
        })
    }

    /// The places of its terms.
    pub fn as_slice(&self) -> &[usize]
        ensures atoms { result.now ≡ self.now }
    {
        self.atoms.as_slice()
    }

    /// Where a term stands in it.
    pub fn find(&self, atom: usize) -> Option<usize>
        ensures found { IfSome result (λ i. i < length self.now) }
        ensures atom { IfSome result (λ i. get_or self.now i 0 ≡ atom) }
    {
        let atoms = self.atoms.as_slice();
        for i in 0..atoms.len() {
            if atoms[i] == atom {
                return Some(i);
            }
        }
        None
    }

    /// Adds a term, which takes it out where it stands already.
    pub fn toggle(&mut self, atom: usize) -> Result<(), AllocError>
        ensures value { OnOk result ((vs : List ℕ) → form_value vs self.new ≡ bit_xor (get_or vs atom 0) (form_value vs self.old)) }
    {
        match self.find(atom) {
            Some(i) => {
                let _atom = self.atoms.remove(i);
                Ok(())
            }
            None => {
                self.atoms.push(atom)?;
                Ok(())
            }
        }
    }

    /// Adds another form.
    pub fn add(&mut self, other: &Form) -> Result<(), AllocError>
        ensures value { OnOk result ((vs : List ℕ) → form_value vs self.new ≡ bit_xor (form_value vs other.now) (form_value vs self.old)) }
    {
        for atom in other.as_slice() {
            self.toggle(*atom)?;
        }
        Ok(())
    }

    /// Puts the two operands of an exclusive or in its place.
    pub fn split(&mut self, terms: &Terms, atom: usize) -> Result<(), AllocError>
        ensures same { OnOk result ((t : List ℕ) → value_on terms.now t self.new ≡ value_on terms.now t self.old) }
    {
        if let Some(Term::Of(Alu::Xor, a, b)) = terms.get(atom) {
            self.toggle(atom)?;
            self.toggle(a)?;
            self.toggle(b)?;
        }
        Ok(())
    }

    /// Whether one of its terms reads the place of a column.
    pub fn reads(&self, column: &Column) -> bool
        ensures unread { result ≡ false → IsUnread column.now self.now }
    {
        for atom in self.atoms.as_slice() {
            if column.reads(*atom) {
                return true;
            }
        }
        false
    }
}

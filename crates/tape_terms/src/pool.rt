//! Terms without repetition.

ghost use Rattle.std.specs.Prelude.{◌≡◌, ℕ, ◌<◌, true, List, [], length, get_or, slice_get, Some, IfSome, IfOk};
ghost use Rattle.isa_model.specs.Bits.{low_word};
ghost use Rattle.isa_model.specs.Arithmetic.{alu_of};

use crate::term::Term;
use crate::terms::Terms;
use isa_model::Alu;
use std::alloc::{AllocError, Global};
use std::collections::BTreeMap;
use std::marker::Model;

/// Terms of which one that is asked for again is found. Contracts see the list of the terms.
#[derive(Drop)]
pub struct Pool {
    terms: Terms,
    index: BTreeMap<u64, usize>,
}

impl Model for Pool {
    ghost use Rattle.std.specs.Prelude.{List};
    ghost use Rattle.tape_terms.specs.declared.term.Term.{Term};

    ghost Value = { List Term };

    ghost view = { λ p. p.terms };
}

/// A number of a term. Two terms may have one number: what is found is compared.
fn number_of(term: Term) -> u64 {
    match term {
        Term::Constant(word) => u64::from(word),
        Term::Word(place) => (place as u64) ^ 0x5555_0000_0000_0000,
        Term::Of(op, a, b) => {
            (op as u64 + 1).wrapping_mul(0x9e37_79b9_7f4a_7c15)
                ^ (a as u64).wrapping_mul(0xc2b2_ae3d_27d4_eb4f)
                ^ (b as u64).wrapping_mul(0x1656_67b1_9e37_79f9)
        }
    }
}

/// Whether two terms are the same.
fn is_same(a: Term, b: Term) -> bool
    ensures same { result ≡ true → a ≡ b }
{
    a == b
}

impl Pool {
    ghost use Rattle.tape_terms.specs.Values.{value_in, values, value_of, IsAfter, Keeps};

    /// No terms.
    pub fn new(alloc: Global) -> Pool
        ensures none { result ≡ [] }
    {
        Pool {
            terms: Terms::new(alloc),
            index: BTreeMap::new(alloc),
        }
    }

    /// The terms.
    pub fn terms(&self) -> &Terms
        ensures terms { result.now ≡ self.now }
    {
        &self.terms
    }

    /// Where a term stands, if it is there.
    fn find(&self, number: u64, term: Term) -> Option<usize>
        ensures found { IfSome result (λ i. slice_get self.now i ≡ Some term) }
        ensures after { IfSome result (λ i. IsAfter i term) }
    {
        match self.index.get(&number).copied() {
            Some(i) => match self.terms.get(i) {
                Some(old) => { if is_same(old, term) { Some(i) } else { None } }
                None => None,
            },
            None => None,
        }
    }

    /// The place of a term, which is added if it isn't there.
    fn put(&mut self, term: Term) -> Result<usize, AllocError>
        requires after { IsAfter (length self.old) term }
        ensures place { IfOk result (λ i. i < length self.new) }
        ensures value { IfOk result (λ i. (tape : List ℕ) → value_of self.new tape i ≡ value_in tape (values self.old tape) term) }
        ensures others { Keeps self.old self.new }
    {
        let number = number_of(term);
        if let Some(i) = self.find(number, term) {
            return Ok(i);
        }
        let i = self.terms.push(term)?;
        self.index.insert(number, i)?;
        Ok(i)
    }

    /// A term that denotes this word on every tape.
    pub fn constant(&mut self, word: u32) -> Result<usize, AllocError>
        ensures place { IfOk result (λ i. i < length self.new) }
        ensures value { IfOk result (λ i. (tape : List ℕ) → value_of self.new tape i ≡ word) }
        ensures others { Keeps self.old self.new }
    {
        self.put(Term::Constant(word))
    }

    /// A term that denotes the word at a place of the tape.
    pub fn word(&mut self, place: usize) -> Result<usize, AllocError>
        ensures place { IfOk result (λ i. i < length self.new) }
        ensures value { IfOk result (λ i. (tape : List ℕ) → value_of self.new tape i ≡ low_word (get_or tape place 0)) }
        ensures others { Keeps self.old self.new }
    {
        self.put(Term::Word(place))
    }

    /// A term that denotes what an operation gives of what two terms denote: one of these, where it gives it again.
    pub fn of(&mut self, op: Alu, a: usize, b: usize) -> Result<usize, AllocError>
        requires first { a < length self.old }
        requires second { b < length self.old }
        ensures place { IfOk result (λ i. i < length self.new) }
        ensures value { IfOk result (λ i. (tape : List ℕ) → value_of self.new tape i ≡ alu_of op (value_of self.old tape a) (value_of self.old tape b)) }
        ensures others { Keeps self.old self.new }
    {
        if let Some(i) = self.terms.reduced(op, a, b) {
            return Ok(i);
        }
        self.put(Term::Of(op, a, b))
    }
}

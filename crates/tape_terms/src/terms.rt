//! A list of terms.

ghost use Rattle.std.specs.Prelude.{◌≡◌, ◌⊎◌, true, ℕ, ◌+◌, ◌<◌, List, [], length, get_or, slice_get, ◌==◌, IfSome, IfOk};
ghost use Rattle.isa_model.specs.Bits.{low_word};
ghost use Rattle.isa_model.specs.Arithmetic.{alu_of};

use crate::identities::{are_both_kept, is_first_kept, is_second_kept};
use crate::term::Term;
use isa_model::Alu;
use std::alloc::{AllocError, Global};
use std::marker::Model;

/// Terms, each after its operands.
#[derive(Debug, Drop)]
pub struct Terms {
    inner: Vec<Term>,
}

impl Model for Terms {
    ghost use Rattle.std.specs.Prelude.{List};
    ghost use Rattle.tape_terms.specs.declared.term.Term.{Term};
    ghost use Rattle.tape_terms.specs.Values.{AreInOrder};

    ghost Value = { List Term };

    ghost view = { λ t. t.inner.items };

    ghost invariant = { λ t. AreInOrder t.inner.items };
}

impl Terms {
    ghost use Rattle.tape_terms.specs.Values.{value_in, values, value_of, IsAfter, Keeps};

    /// No terms.
    pub fn new(alloc: Global) -> Terms
        ensures none { result ≡ [] }
    {
        Terms {
            inner: Vec::new(alloc),
        }
    }

    /// How many terms there are.
    pub fn len(&self) -> usize
        ensures length { result ≡ length self.now }
    {
        self.inner.len()
    }

    /// Whether there are none.
    pub fn is_empty(&self) -> bool
        ensures test { result ≡ (length self.now == 0) }
    {
        self.inner.is_empty()
    }

    /// The terms as a slice.
    pub(crate) fn as_slice(&self) -> &[Term]
        ensures terms { result.now ≡ self.now }
    {
        self.inner.as_slice()
    }

    /// The term at a place.
    pub fn get(&self, i: usize) -> Option<Term>
        ensures value { result ≡ slice_get self.now i }
        ensures after { IfSome result (λ term. IsAfter i term) }
    {
        self.inner.as_slice().get(i).copied()
    }

    /// One term more.
    pub(crate) fn push(&mut self, term: Term) -> Result<usize, AllocError>
        requires after { IsAfter (length self.old) term }
        ensures place { IfOk result (λ i. i ≡ length self.old) }
        ensures longer { IfOk result (λ i. length self.new ≡ length self.old + 1) }
        ensures value { IfOk result (λ i. (tape : List ℕ) → value_of self.new tape i ≡ value_in tape (values self.old tape) term) }
        ensures others { Keeps self.old self.new }
    {
        let place = self.inner.len();
        self.inner.push(term)?;
        Ok(place)
    }

    /// A term that denotes this word on every tape; and the place where it stands.
    pub fn constant(&mut self, word: u32) -> Result<usize, AllocError>
        ensures place { IfOk result (λ i. i < length self.new) }
        ensures value { IfOk result (λ i. (tape : List ℕ) → value_of self.new tape i ≡ word) }
        ensures others { Keeps self.old self.new }
    {
        self.push(Term::Constant(word))
    }

    /// A term that denotes the word at a place of the tape.
    pub fn word(&mut self, place: usize) -> Result<usize, AllocError>
        ensures place { IfOk result (λ i. i < length self.new) }
        ensures value { IfOk result (λ i. (tape : List ℕ) → value_of self.new tape i ≡ low_word (get_or tape place 0)) }
        ensures others { Keeps self.old self.new }
    {
        self.push(Term::Word(place))
    }

    /// A term that denotes what an operation gives of what two terms denote.
    pub fn of(&mut self, op: Alu, a: usize, b: usize) -> Result<usize, AllocError>
        requires first { a < length self.old }
        requires second { b < length self.old }
        ensures place { IfOk result (λ i. i < length self.new) }
        ensures value { IfOk result (λ i. (tape : List ℕ) → value_of self.new tape i ≡ alu_of op (value_of self.old tape a) (value_of self.old tape b)) }
        ensures others { Keeps self.old self.new }
    {
        self.push(Term::Of(op, a, b))
    }

    /// The word that the term at a place denotes on every tape, if it is a constant.
    pub fn constant_at(&self, i: usize) -> Option<u32>
        ensures value { IfSome result (λ word. (tape : List ℕ) → value_of self.now tape i ≡ low_word word) }
    {
        match self.get(i) {
            Some(Term::Constant(word)) => Some(word),
            _ => None,
        }
    }

    /// Whether the term at a place is the constant 0.
    fn is_zero(&self, i: usize) -> bool
        ensures zero { result ≡ true → (tape : List ℕ) → value_of self.now tape i ≡ 0 }
    {
        match self.constant_at(i) {
            Some(word) => word == 0,
            None => false,
        }
    }

    /// Whether an operation on two terms denotes what the first denotes, as far as this is seen.
    fn gives_first(&self, op: Alu, a: usize, b: usize) -> bool
        ensures first { result ≡ true → (tape : List ℕ) → alu_of op (value_of self.now tape a) (value_of self.now tape b) ≡ value_of self.now tape a }
    {
        if a == b {
            return are_both_kept(op);
        }
        if !is_first_kept(op) {
            return false;
        }
        self.is_zero(b)
    }

    /// Whether it denotes what the second denotes, as far as this is seen.
    fn gives_second(&self, op: Alu, a: usize, b: usize) -> bool
        ensures second { result ≡ true → (tape : List ℕ) → alu_of op (value_of self.now tape a) (value_of self.now tape b) ≡ value_of self.now tape b }
    {
        if !is_second_kept(op) {
            return false;
        }
        self.is_zero(a)
    }

    /// The operand that an operation denotes, if it is seen to denote one.
    pub fn reduced(&self, op: Alu, a: usize, b: usize) -> Option<usize>
        ensures operand { IfSome result (λ i. (i ≡ a) ⊎ (i ≡ b)) }
        ensures value { IfSome result (λ i. (tape : List ℕ) → value_of self.now tape i ≡ alu_of op (value_of self.now tape a) (value_of self.now tape b)) }
    {
        if self.gives_first(op, a, b) {
            return Some(a);
        }
        if self.gives_second(op, a, b) {
            return Some(b);
        }
        None
    }
}

//! The terms that hang on a place of the tape.

ghost use Rattle.std.specs.Prelude.{◌≡◌, false, length, get_or, IfOk};
ghost use Rattle.tape_terms.specs.Marks.{mark_in, marks, AreColumns};

use crate::term::Term;
use crate::terms::Terms;
use std::alloc::{AllocError, Global};
use std::marker::Model;

/// For each term, whether it reads a place of the tape, itself or by its operands.
#[derive(Debug, Drop)]
pub struct Column {
    marks: Vec<bool>,
}

impl Model for Column {
    ghost use Rattle.std.specs.Prelude.{Bool, List};

    ghost Value = { List Bool };

    ghost view = { λ c. c.marks.items };
}

impl Column {
    /// The marks of a place.
    pub fn new(alloc: Global, terms: &Terms, place: usize) -> Result<Column, AllocError>
        ensures marks { IfOk result (λ c. c ≡ marks terms.now place) }
    {
        let mut marks: Vec<bool> = Vec::new(alloc);
        for term in terms.as_slice() {
            let mark = mark_of(marks.as_slice(), *term, place);
            marks.push(mark)?;
        }
        Ok(Column { marks })
    }

    /// Whether a term reads the place.
    pub fn reads(&self, i: usize) -> bool
        ensures value { result ≡ get_or self.now i false }
    {
        is_marked(self.marks.as_slice(), i)
    }
}

/// The columns of the first places of the tape.
pub fn columns(alloc: Global, terms: &Terms, count: usize) -> Result<Vec<Column>, AllocError>
    ensures columns { IfOk result (λ columns. AreColumns terms.now columns.items) }
    ensures length { IfOk result (λ columns. length columns.items ≡ count) }
{
    let mut columns: Vec<Column> = Vec::new(alloc);
    for place in 0..count {
        let column = Column::new(alloc, terms, place)?;
        columns.push(column)?;
    }
    Ok(columns)
}

/// The mark at a place of a list, and none past its end.
fn is_marked(marks: &[bool], i: usize) -> bool
    ensures value { result ≡ get_or marks.now i false }
{
    if i < marks.len() { marks[i] } else { false }
}

/// Whether a term reads a place, by the marks of the terms before it.
fn mark_of(marks: &[bool], term: Term, place: usize) -> bool
    ensures value { result ≡ mark_in place marks.now term }
{
    match term {
        Term::Constant(_) => false,
        Term::Word(at) => at == place,
        Term::Of(_, a, b) => is_marked(marks, a) || is_marked(marks, b),
    }
}

//! What an instruction of a routine writes, as a list.

ghost use Rattle.std.specs.Prelude.{◌≡◌, ◌+◌, ◌<◌, ◌≤◌, [], ◌++◌, length, map};
ghost use Rattle.routine_laws.specs.Contents.{to, to_register, old_to_res, lui_writes as writes_of_lui, addi_writes as writes_of_addi, add_writes as writes_of_add, mul_writes as writes_of_mul};
ghost use Rattle.scrub_rules.specs.View.{content_write};

use hart_model::Place;
use isa_model::RegNo;
use routine_laws::Content;
use std::marker::Model;

/// What is known of a word goes to a place.
#[derive(Clone, Copy)]
pub(crate) struct Write {
    pub at: Place,
    pub content: Content,
}

/// The writes of one instruction, at most five, the first one first.
#[derive(Drop)]
pub(crate) struct WriteList {
    items: [Write; 5],
    len: usize,
}

impl Model for WriteList {
    ghost use Rattle.std.specs.Prelude.{◌≡◌, ◌≤◌, List, length, map, take};
    ghost use Rattle.routine_laws.specs.Contents.{ContentWrite};
    ghost use Rattle.scrub_rules.specs.View.{content_write};

    ghost Value = { List ContentWrite };

    ghost view = { λ w. map content_write (take w.len w.items) };

    ghost invariant = { λ w. (w.len ≤ 5) × (length w.items ≡ 5) };
}

impl WriteList {
    /// No writes.
    pub(crate) fn new() -> WriteList
        ensures writes { result ≡ [] }
    {
        let none = Write {
            at: Place::PortA,
            content: Content::Zero,
        };
        WriteList {
            items: [none; 5],
            len: 0,
        }
    }

    /// A write after the others.
    pub(crate) fn put(&mut self, at: Place, content: Content)
        requires room { length self.old < 5 }
        ensures writes { self.new ≡ self.old ++ to at content }
        ensures len { length self.new ≡ length self.old + 1 }
    {
        self.items[self.len] = Write { at, content };
        self.len += 1;
    }

    /// The write of a register after the others, unless it is x0.
    pub(crate) fn put_register(&mut self, rd: RegNo, content: Content)
        requires room { length self.old < 5 }
        ensures writes { self.new ≡ self.old ++ to_register rd content }
        ensures len { length self.new ≤ length self.old + 1 }
    {
        if rd.num() != 0 {
            self.put(Place::Reg(rd), content);
        }
    }

    /// The write of the result after the others, unless the register that is written with it is x0.
    pub(crate) fn put_old(&mut self, rd: RegNo, old: Content)
        requires room { length self.old < 5 }
        ensures writes { self.new ≡ self.old ++ old_to_res rd old }
        ensures len { length self.new ≤ length self.old + 1 }
    {
        if rd.num() != 0 {
            self.put(Place::Res, old);
        }
    }

    /// The writes as a slice.
    pub(crate) fn as_slice(&self) -> &[Write]
        ensures writes { map content_write result.now ≡ self.now }
    {
        &self.items[..self.len]
    }
}

/// What LUI writes.
pub(crate) fn lui_writes(rd: RegNo) -> WriteList
    ensures writes { result ≡ writes_of_lui rd }
{
    let mut list = WriteList::new();
    list.put(Place::Res, Content::Public);
    list.put_register(rd, Content::Public);
    list
}

/// What ADDI of x0 writes, by its constant.
pub(crate) fn addi_writes(rd: RegNo, constant: Content) -> WriteList
    ensures writes { result ≡ writes_of_addi rd constant }
{
    let mut list = WriteList::new();
    list.put(Place::PortA, Content::Zero);
    list.put(Place::Res, constant);
    list.put_register(rd, constant);
    list
}

/// What ADD of x0 and x0 writes.
pub(crate) fn add_writes() -> WriteList
    ensures writes { result ≡ writes_of_add }
{
    let mut list = WriteList::new();
    list.put(Place::PortA, Content::Zero);
    list.put(Place::PortB, Content::Zero);
    list.put(Place::Res, Content::Zero);
    list
}

/// What MUL of x0 and x0 writes.
pub(crate) fn mul_writes() -> WriteList
    ensures writes { result ≡ writes_of_mul }
{
    let mut list = WriteList::new();
    list.put(Place::PortA, Content::Zero);
    list.put(Place::PortB, Content::Zero);
    list.put(Place::Mul, Content::Zero);
    list.put(Place::Res, Content::Zero);
    list
}

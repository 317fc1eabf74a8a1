//! What is known of each latch and each word of the slot.

ghost use Rattle.std.specs.Prelude.{◌≡◌, ◌-◌, ◌<◌, length, map, drop};
ghost use Rattle.hart_model.specs.declared.place.Place.TheVariants.{Reg, SlotWord};
ghost use Rattle.hart_model.specs.Cells.{with_cell};
ghost use Rattle.routine_laws.specs.Contents.{content_at, is_tagged as is_tagged_content, is_zero as is_zero_content};
ghost use Rattle.routine_laws.specs.Rules.{after_writes};
ghost use Rattle.routine_laws.specs.Accepted.{at_save, at_restore};
ghost use Rattle.scrub_rules.specs.View.{content_write, word_outcome};

use crate::rule::WordRule;
use crate::write_list::{Write, WriteList};
use hart_model::Place;
use routine_laws::Content;
use std::marker::Model;

/// Whether a word may be tagged.
pub(crate) fn is_tagged(content: Content) -> bool
    ensures test { result ≡ is_tagged_content content }
{
    match content {
        Content::Zero => false,
        Content::SlotAddress => false,
        Content::Public => false,
        Content::TaskReg(_) => true,
        Content::OldSlotWord(_) => true,
        Content::Unknown => true,
    }
}

/// Whether a word is known to be 0.
pub(crate) fn is_zero(content: Content) -> bool
    ensures test { result ≡ is_zero_content content }
{
    match content {
        Content::Zero => true,
        Content::SlotAddress => false,
        Content::Public => false,
        Content::TaskReg(_) => false,
        Content::OldSlotWord(_) => false,
        Content::Unknown => false,
    }
}

/// What is known of each latch of a hart and of each word of its slot.
#[derive(Drop)]
pub(crate) struct Storage {
    regs: [Content; 32],
    port_a: Content,
    port_b: Content,
    res: Content,
    load: Content,
    store: Content,
    scr: Content,
    mul: Content,
    zero: Content,
    slot: [Content; 36],
}

impl Model for Storage {
    ghost use Rattle.std.specs.Prelude.{◌≡◌, [], length};
    ghost use Rattle.routine_laws.specs.Contents.{Contents};

    ghost Value = { Contents };

    ghost view = { λ s. record {
      regs = s.regs;
      port_a = s.port_a;
      port_b = s.port_b;
      res = s.res;
      load = s.load;
      store = s.store;
      scr = s.scr;
      mul = s.mul;
      zero = s.zero;
      slot = s.slot;
      data_words = [];
    } };

    ghost invariant = { λ s. (length s.regs ≡ 32) × (length s.slot ≡ 36) };
}

/// The registers where a save part begins.
#[tactic(auto, using(crate::proofs::Filled::filled_more))]
fn task_regs() -> [Content; 32]
    ensures contents { result ≡ at_save.regs }
{
    let mut regs = [Content::Unknown; 32];
    for i in 1..32u32 {
        regs[i as usize] = Content::TaskReg(i);
    }
    regs
}

/// The words of the slot by what is known of those that keep registers, and of the others.
#[tactic(auto, using(crate::proofs::Filled::filled_more))]
fn task_slot() -> [Content; 36]
    ensures contents { result ≡ at_restore.slot }
{
    let mut slot = [Content::Public; 36];
    for i in 1..32u32 {
        slot[i as usize] = Content::TaskReg(i);
    }
    slot
}

/// The words of the slot where a save part begins.
#[tactic(auto, using(crate::proofs::Filled::filled_more))]
fn old_slot() -> [Content; 36]
    ensures contents { result ≡ at_save.slot }
{
    let mut slot = [Content::Unknown; 36];
    for i in 1..32u32 {
        slot[i as usize] = Content::OldSlotWord(i);
    }
    slot
}

/// The registers where a restore part begins.
fn public_regs() -> [Content; 32]
    ensures contents { result ≡ at_restore.regs }
{
    let mut regs = [Content::Public; 32];
    regs[5] = Content::SlotAddress;
    regs
}

impl Storage {
    /// Where a save part begins.
    pub(crate) fn at_save() -> Storage
        ensures contents { result ≡ at_save }
    {
        Storage {
            regs: task_regs(),
            port_a: Content::Unknown,
            port_b: Content::Unknown,
            res: Content::Unknown,
            load: Content::Unknown,
            store: Content::Unknown,
            scr: Content::SlotAddress,
            mul: Content::Unknown,
            zero: Content::Zero,
            slot: old_slot(),
        }
    }

    /// Where a restore part begins.
    pub(crate) fn at_restore() -> Storage
        ensures contents { result ≡ at_restore }
    {
        Storage {
            regs: public_regs(),
            port_a: Content::Public,
            port_b: Content::Public,
            res: Content::Public,
            load: Content::Public,
            store: Content::Public,
            scr: Content::SlotAddress,
            mul: Content::Public,
            zero: Content::Zero,
            slot: task_slot(),
        }
    }

    /// What is known of a register, by its number; x0 is 0.
    pub(crate) fn register(&self, number: u32) -> Content
        requires number { number < 32 }
        ensures content { result ≡ content_at self.now (Reg number) }
    {
        if number == 0 {
            Content::Zero
        } else {
            self.regs[number as usize]
        }
    }

    /// What is known of a word of the slot, by its index.
    pub(crate) fn slot_word(&self, index: u32) -> Content
        ensures content { result ≡ content_at self.now (SlotWord index) }
    {
        if index < 36 {
            self.slot[index as usize]
        } else {
            Content::Unknown
        }
    }

    /// What is known of `mscratch`.
    pub(crate) fn scratch(&self) -> Content
        ensures content { result ≡ self.now.scr }
    {
        self.scr
    }

    /// What is known of a place.
    pub(crate) fn content(&self, place: &Place) -> Content
        ensures content { result ≡ content_at self.now place.now }
    {
        match place {
            Place::Reg(number) => self.register(u32::from(number.num())),
            Place::PortA => self.port_a,
            Place::PortB => self.port_b,
            Place::Res => self.res,
            Place::Load => self.load,
            Place::Store => self.store,
            Place::Scr => self.scr,
            Place::Mul => self.mul,
            Place::Zero => self.zero,
            Place::SlotWord(index) => self.slot_word(*index),
            Place::DataWord(_) => Content::Unknown,
        }
    }

    /// Puts what is known of a word into a place.
    fn put(&mut self, place: &Place, content: Content)
        ensures contents { self.new ≡ with_cell self.old place.now content }
    {
        match place {
            Place::Reg(number) => self.regs[number.num() as usize] = content,
            Place::PortA => self.port_a = content,
            Place::PortB => self.port_b = content,
            Place::Res => self.res = content,
            Place::Load => self.load = content,
            Place::Store => self.store = content,
            Place::Scr => self.scr = content,
            Place::Mul => self.mul = content,
            Place::Zero => self.zero = content,
            Place::SlotWord(index) => {
                if *index < 36 {
                    self.slot[*index as usize] = content;
                }
            }
            Place::DataWord(_) => {}
        }
    }

    /// The writes from one on, one after the other, up to one that breaks a rule.
    fn write_from(&mut self, writes: &[Write], from: usize) -> Option<WordRule>
        ensures outcome { word_outcome result self.new ≡ after_writes (map content_write (drop from writes.now)) self.old }
    {
        if from < writes.len() {
            let write = writes[from];
            if is_tagged(self.content(&write.at)) && is_tagged(write.content) {
                return Some(WordRule::Meets);
            }
            self.put(&write.at, write.content);
            self.write_from(writes, from + 1)
        } else {
            None
        }
    }

    /// What an instruction writes, one after the other, up to a write that breaks a rule.
    pub(crate) fn write_all(&mut self, list: &WriteList) -> Option<WordRule>
        ensures outcome { word_outcome result self.new ≡ after_writes list.now self.old }
    {
        self.write_from(list.as_slice(), 0)
    }
}

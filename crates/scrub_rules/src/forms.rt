//! One word of a routine: what it leaves, or the first rule that it breaks.

ghost use Rattle.std.specs.Prelude.{◌≡◌, Some};
ghost use Rattle.isa_model.specs.declared.instr.Instr.{Instr};
ghost use Rattle.isa_model.specs.InstrTable.{instr_of};
ghost use Rattle.routine_laws.specs.Contents.{load_writes as writes_of_load, store_writes as writes_of_store, swap_writes as writes_of_swap, read_writes as writes_of_read, reached_by as reached_by_access, register as register_of};
ghost use Rattle.routine_laws.specs.Rules.{after_store, after_instr, after_word, may_take as may_take_content};
ghost use Rattle.scrub_rules.specs.View.{word_outcome};

use crate::registers::{constant_of, is_zero_offset, word_from};
use crate::rule::WordRule;
use crate::storage::{Storage, is_zero};
use crate::write_list::{WriteList, add_writes, addi_writes, lui_writes, mul_writes};
use hart_model::Place;
use isa_model::{Alu, CsrOp, Instr, LoadKind, RegNo, StoreKind};
use routine_laws::Content;
use rv_decode::decode;

/// The CSR `mscratch`.
const MSCRATCH: u16 = 0x340;

/// Whether a place may take a word: the one that is always 0 takes 0 alone.
fn may_take(place: &Place, content: Content) -> bool
    ensures test { result ≡ may_take_content place.now content }
{
    match place {
        Place::Zero => is_zero(content),
        _ => true,
    }
}

impl Storage {
    /// What is known of a register of an instruction.
    fn operand(&self, register: RegNo) -> Content
        ensures content { result ≡ register_of self.now register }
    {
        self.register(u32::from(register.num()))
    }

    /// What LW from a place writes.
    fn load_writes(&self, rd: RegNo, rs1: RegNo, place: &Place) -> WriteList
        ensures writes { result ≡ writes_of_load self.now rd rs1 place.now }
    {
        let word = self.content(place);
        let mut list = WriteList::new();
        list.put(Place::PortA, self.operand(rs1));
        list.put(Place::Res, Content::Public);
        list.put(Place::Load, word);
        list.put_register(rd, word);
        list
    }

    /// What SW to a place writes.
    fn store_writes(&self, rs2: RegNo, rs1: RegNo, place: &Place) -> WriteList
        ensures writes { result ≡ writes_of_store self.now rs2 rs1 place.now }
    {
        let word = self.operand(rs2);
        let mut list = WriteList::new();
        list.put(Place::PortA, self.operand(rs1));
        list.put(Place::PortB, word);
        list.put(Place::Res, Content::Public);
        list.put(Place::Store, word);
        list.put(*place, word);
        list
    }

    /// What CSRRW of `mscratch` writes.
    fn swap_writes(&self, rd: RegNo, rs1: RegNo) -> WriteList
        ensures writes { result ≡ writes_of_swap self.now rd rs1 }
    {
        let new = self.operand(rs1);
        let mut list = WriteList::new();
        list.put(Place::PortA, new);
        list.put_old(rd, self.scratch());
        list.put(Place::Scr, new);
        list.put_register(rd, self.scratch());
        list
    }

    /// What CSRRS of `mscratch` and x0 writes.
    fn read_writes(&self, rd: RegNo) -> WriteList
        ensures writes { result ≡ writes_of_read self.now rd }
    {
        let mut list = WriteList::new();
        list.put(Place::PortA, Content::Zero);
        list.put_old(rd, self.scratch());
        list.put_register(rd, self.scratch());
        list
    }

    /// The place that a load or a store reaches, if it may reach one.
    fn reached_by(&self, rs1: RegNo, imm: i32) -> Option<Place>
        ensures place { result ≡ reached_by_access self.now rs1 imm }
    {
        if rs1.num() == 0 && is_zero_offset(imm) {
            Some(Place::Zero)
        } else {
            word_from(self.operand(rs1), imm)
        }
    }

    /// A load from a register and a distance.
    fn follow_load(&mut self, kind: LoadKind, rd: RegNo, rs1: RegNo, imm: i32) -> Option<WordRule>
        ensures outcome { word_outcome result self.new ≡ after_instr self.old (Instr.Load kind rd rs1 imm) }
    {
        if kind != LoadKind::W {
            return Some(WordRule::Form);
        }
        match self.reached_by(rs1, imm) {
            None => Some(WordRule::Base),
            Some(place) => self.write_all(&self.load_writes(rd, rs1, &place)),
        }
    }

    /// A store to a place.
    fn store_at(&mut self, rs2: RegNo, rs1: RegNo, place: &Place) -> Option<WordRule>
        ensures outcome { word_outcome result self.new ≡ after_store self.old rs2 rs1 (Some place.now) }
    {
        if may_take(place, self.operand(rs2)) {
            self.write_all(&self.store_writes(rs2, rs1, place))
        } else {
            Some(WordRule::NotZero)
        }
    }

    /// A store to a register and a distance.
    fn follow_store(
        &mut self,
        kind: StoreKind,
        rs2: RegNo,
        rs1: RegNo,
        imm: i32,
    ) -> Option<WordRule>
        ensures outcome { word_outcome result self.new ≡ after_instr self.old (Instr.Store kind rs2 rs1 imm) }
    {
        if kind != StoreKind::W {
            return Some(WordRule::Form);
        }
        match self.reached_by(rs1, imm) {
            None => Some(WordRule::Base),
            Some(place) => self.store_at(rs2, rs1, &place),
        }
    }

    /// An operation on a register and an immediate: a constant.
    fn follow_constant(&mut self, op: Alu, rd: RegNo, rs1: RegNo, imm: i32) -> Option<WordRule>
        ensures outcome { word_outcome result self.new ≡ after_instr self.old (Instr.AluImm op rd rs1 imm) }
    {
        if op == Alu::Add && rs1.num() == 0 {
            self.write_all(&addi_writes(rd, constant_of(imm)))
        } else {
            Some(WordRule::Form)
        }
    }

    /// An operation on two registers: 0 of x0 and x0, into x0.
    fn follow_zeros(&mut self, op: Alu, rd: RegNo, rs1: RegNo, rs2: RegNo) -> Option<WordRule>
        ensures outcome { word_outcome result self.new ≡ after_instr self.old (Instr.AluReg op rd rs1 rs2) }
    {
        if rd.num() != 0 || rs1.num() != 0 || rs2.num() != 0 {
            return Some(WordRule::Form);
        }
        match op {
            Alu::Add => self.write_all(&add_writes()),
            Alu::Mul => self.write_all(&mul_writes()),
            _ => Some(WordRule::Form),
        }
    }

    /// An instruction on a CSR and a register: `mscratch` changes places with a register, or is read.
    fn follow_csr(&mut self, op: CsrOp, rd: RegNo, rs1: RegNo, csr: u16) -> Option<WordRule>
        ensures outcome { word_outcome result self.new ≡ after_instr self.old (Instr.Csr op rd rs1 csr) }
    {
        if csr != MSCRATCH {
            return Some(WordRule::Form);
        }
        match op {
            CsrOp::Rw => self.write_all(&self.swap_writes(rd, rs1)),
            CsrOp::Rs => {
                if rs1.num() == 0 {
                    self.write_all(&self.read_writes(rd))
                } else {
                    Some(WordRule::Form)
                }
            }
            CsrOp::Rc => Some(WordRule::Form),
        }
    }

    /// One instruction.
    fn follow_instr(&mut self, instr: &Instr) -> Option<WordRule>
        ensures outcome { word_outcome result self.new ≡ after_instr self.old instr.now }
    {
        match instr {
            Instr::Lui { rd, imm20: _ } => self.write_all(&lui_writes(*rd)),
            Instr::AluImm { op, rd, rs1, imm } => self.follow_constant(*op, *rd, *rs1, *imm),
            Instr::AluReg { op, rd, rs1, rs2 } => self.follow_zeros(*op, *rd, *rs1, *rs2),
            Instr::Load { kind, rd, rs1, imm } => self.follow_load(*kind, *rd, *rs1, *imm),
            Instr::Store {
                kind,
                rs2,
                rs1,
                imm,
            } => self.follow_store(*kind, *rs2, *rs1, *imm),
            Instr::Csr { op, rd, rs1, csr } => self.follow_csr(*op, *rd, *rs1, *csr),
            _ => Some(WordRule::Form),
        }
    }

    /// One word: the first rule that it breaks; None where it breaks none, and then it is followed.
    pub(crate) fn follow(&mut self, word: u32) -> Option<WordRule>
        ensures outcome { word_outcome result self.new ≡ after_word self.old (instr_of word) }
    {
        match decode(word) {
            None => Some(WordRule::Form),
            Some(instr) => self.follow_instr(&instr),
        }
    }
}

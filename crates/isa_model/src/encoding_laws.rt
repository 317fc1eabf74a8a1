//! Laws about the words of instructions: each is the contract of a function that does nothing.

ghost use Rattle.std.specs.Prelude.{◌≡◌, ℕ, ◌<◌, ◌^◌};
ghost use Rattle.isa_model.specs.declared.instr.Instr.{Instr};
ghost use Rattle.isa_model.specs.Encoding.{Spells, IsInstr, word_of};
ghost use Rattle.isa_model.specs.InstrTable.{TableIsEncoding, instr_of};

/// The table of bit patterns is the encoding relation: it has an instruction for a word exactly where the word spells it.
pub fn encoding_is_table()
    ensures law { TableIsEncoding }
{}

/// Every instruction has exactly one word, and the table has the instruction for it.
pub fn every_instr_has_one_word()
    ensures bound { (instr : Instr) → IsInstr instr → word_of instr < 2 ^ 32 }
    ensures spelled { (instr : Instr) → IsInstr instr → Spells (word_of instr) instr }
    ensures only { (instr : Instr) → (word : ℕ) → Spells word instr → word ≡ word_of instr }
    ensures back { (instr : Instr) → IsInstr instr → instr_of (word_of instr) ≡ Some instr }
{}

/// A word spells at most one instruction.
pub fn every_word_has_one_instr_at_most()
    ensures law { (word : ℕ) (a b : Instr) → Spells word a → Spells word b → a ≡ b }
{}

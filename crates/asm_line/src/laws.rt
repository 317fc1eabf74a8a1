//! Laws about the definitions of `specs/`: each is the contract of a function that does nothing.

ghost use Rattle.std.specs.Prelude.{◌≡◌, ℕ, ◌^◌, ◌<◌, [], Ok};
ghost use Rattle.isa_model.specs.declared.instr.Instr.{Instr};
ghost use Rattle.isa_model.specs.Encoding.{IsInstr, word_of};
ghost use Rattle.rv_decode.specs.Text.{text_of_instr, word_text};
ghost use Rattle.asm_line.specs.declared.line.Item.TheVariants.{One};
ghost use Rattle.asm_line.specs.LineForm.{line_of};

/// The text of an instruction is read as the one word of the instruction, with no label.
pub fn texts_of_instrs_read_back()
    ensures reads { (instr : Instr) → IsInstr instr → line_of (text_of_instr instr) ≡ record { labels = []; item = Ok (One (word_of instr)) } }
{}

/// The text of a word is read as the word, with no label.
pub fn texts_of_words_read_back()
    ensures reads { (word : ℕ) → word < 2 ^ 32 → line_of (word_text word) ≡ record { labels = []; item = Ok (One word) } }
{}

//! Laws about the definitions of `specs/`: each is the contract of a function that does nothing.

ghost use Rattle.std.specs.Prelude.{◌≡◌, ◌≢◌, ℕ, ◌+◌, ◌<◌, ◌≤◌, ◌↔◌, ◌⊎◌, List, length};
ghost use Rattle.core_model.specs.Events.{hart_of};
ghost use Rattle.core_model.specs.declared.event.EventRun.{EventRun};
ghost use Rattle.core_model.specs.declared.event.OrderRun.{OrderRun};
ghost use Rattle.timer_plan.specs.Tokens.{IsDecimal, SpellsOrderRun, SpellsEventRun, IsInRange, IsOutOfRange};
ghost use Rattle.bundle_text.specs.Pieces.{lines, tokens};
ghost use Rattle.bundle_text.specs.Numbers.{number_in, word_of};
ghost use Rattle.bundle_text.specs.Runs.{order_operand, event_operand};
ghost use Rattle.bundle_text.specs.Lines.{no_lines, with_lines, bundle_of};
ghost use Rattle.bundle_text.specs.TextLines.{text_lines_of, AreTextLines, IsFirstNotText};
ghost use Rattle.bundle_text.specs.Form.{AreLinesOf, AreTokensOf, SpellsHex, IsHexWord, IsLongHex, Breaks};
ghost use Rattle.bundle_text.specs.Grammar.{IsBundle, Reads};
ghost use Rattle.bundle_text.specs.declared.bundle.Bundle.{Bundle};
ghost use Rattle.bundle_text.specs.declared.bundle.BundleFault.{BundleFault};
ghost use Rattle.bundle_text.specs.declared.bundle.BundleKind.TheVariants.{BadNumber, OutOfRange, Memory};

/// The lines that are cut from a text are the lines of its form, and no others are.
pub fn lines_are_decided()
    ensures lines { (bytes : List ℕ) (text : List (List ℕ)) → (lines bytes ≡ text) ↔ AreLinesOf text bytes }
{}

/// The lines of text that are decided are those of the form that are all of text, and a fault is the first line of the form that isn't.
pub fn text_lines_are_decided()
    ensures lines { (bytes : List ℕ) (text : List (List ℕ)) → (text_lines_of bytes ≡ Ok text) ↔ AreTextLines bytes text }
    ensures fault { (bytes : List ℕ) (fault : BundleFault) → (text_lines_of bytes ≡ Err fault) ↔ IsFirstNotText bytes fault }
{}

/// The tokens that are cut from a line are the tokens of its form, and no others are.
pub fn tokens_are_decided()
    ensures tokens { (line : List ℕ) (ts : List (List ℕ)) → (tokens line ≡ ts) ↔ AreTokensOf ts line }
{}

/// A decimal token is read as its number where that is in the range.
pub fn numbers_are_decided()
    ensures number { (low high : ℕ) (text : List ℕ) (n : ℕ) → (number_in low high text ≡ Ok n) ↔ (IsDecimal text n × (low ≤ n) × (n ≤ high)) }
    ensures bad_number { (low high : ℕ) (text : List ℕ) → (number_in low high text ≡ Err BadNumber) ↔ ((n : ℕ) → ¬ (IsDecimal text n)) }
    ensures out_of_range { (low high : ℕ) (text : List ℕ) → (number_in low high text ≡ Err OutOfRange) ↔ ((n : ℕ) × IsDecimal text n × ((n < low) ⊎ (high < n))) }
{}

/// A token of a word is read as the word.
pub fn words_are_decided()
    ensures word { (text : List ℕ) (word : ℕ) → (word_of text ≡ Ok word) ↔ IsHexWord text word }
    ensures bad_number { (text : List ℕ) → (word_of text ≡ Err BadNumber) ↔ ((digits : List ℕ) → ¬ (SpellsHex text digits)) }
    ensures out_of_range { (text : List ℕ) → (word_of text ≡ Err OutOfRange) ↔ IsLongHex text }
{}

/// A token of the order is read as its run where that is in range.
pub fn order_runs_are_decided()
    ensures run { (text : List ℕ) (run : OrderRun) → (order_operand text ≡ Ok run) ↔ (SpellsOrderRun text run × IsInRange run.hart run.times) }
    ensures bad_number { (text : List ℕ) → (order_operand text ≡ Err BadNumber) ↔ ((run : OrderRun) → ¬ (SpellsOrderRun text run)) }
    ensures out_of_range { (text : List ℕ) → (order_operand text ≡ Err OutOfRange) ↔ ((run : OrderRun) × SpellsOrderRun text run × IsOutOfRange run.hart run.times) }
{}

/// A token of events is read as its run where that is in range.
pub fn event_runs_are_decided()
    ensures run { (text : List ℕ) (run : EventRun) → (event_operand text ≡ Ok run) ↔ (SpellsEventRun text run × IsInRange (hart_of run.event) run.times) }
    ensures bad_number { (text : List ℕ) → (event_operand text ≡ Err BadNumber) ↔ ((run : EventRun) → ¬ (SpellsEventRun text run)) }
    ensures out_of_range { (text : List ℕ) → (event_operand text ≡ Err OutOfRange) ↔ ((run : EventRun) × SpellsEventRun text run × IsOutOfRange (hart_of run.event) run.times) }
{}

/// The lines of a text are decided as a bundle exactly where they are its sections.
pub fn sections_are_decided()
    ensures sections { (text : List (List ℕ)) (bundle : Bundle) → (with_lines 1 no_lines text ≡ Ok bundle) ↔ IsBundle text bundle }
{}

/// The decision says what a text reads as, and by what it first breaks the form.
pub fn form_is_decided()
    ensures reads { (bytes : List ℕ) (bundle : Bundle) → (bundle_of bytes ≡ Ok bundle) ↔ Reads bytes bundle }
    ensures breaks { (bytes : List ℕ) (fault : BundleFault) → (bundle_of bytes ≡ Err fault) ↔ Breaks bytes fault }
{}

/// A text reads as one bundle, or has one first fault, and not both.
pub fn form_is_unambiguous()
    ensures reads { (bytes : List ℕ) (a b : Bundle) → Reads bytes a → Reads bytes b → a ≡ b }
    ensures breaks { (bytes : List ℕ) (a b : BundleFault) → Breaks bytes a → Breaks bytes b → a ≡ b }
    ensures apart { (bytes : List ℕ) (bundle : Bundle) (fault : BundleFault) → Reads bytes bundle → ¬ (Breaks bytes fault) }
    ensures some { (bytes : List ℕ) → ((bundle : Bundle) × Reads bytes bundle) ⊎ ((fault : BundleFault) × Breaks bytes fault) }
{}

/// A fault names one of the lines of the text or the line after them, and is never for want of memory.
pub fn faults_name_lines()
    ensures line_low { (bytes : List ℕ) (fault : BundleFault) → Breaks bytes fault → 1 ≤ fault.line }
    ensures line_high { (bytes : List ℕ) (fault : BundleFault) → Breaks bytes fault → fault.line ≤ length (lines bytes) + 1 }
    ensures kind { (bytes : List ℕ) (fault : BundleFault) → Breaks bytes fault → fault.kind ≢ Memory }
{}

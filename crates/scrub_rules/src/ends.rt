//! What has to hold at the end of a part.

ghost use Rattle.std.specs.Prelude.{◌≡◌, ℕ, ◌<◌, ◌≤◌, true, false, IfSome, IfNone};
ghost use Rattle.routine_laws.specs.declared.content.Content.TheVariants.{TaskReg, SlotAddress};
ghost use Rattle.routine_laws.specs.Contents.{register as register_of, is_tagged as is_tagged_content};
ghost use Rattle.routine_laws.specs.Accepted.{AreWordsSaved, AreLatchesUntagged, IsSavedEnd, IsRestoredEnd};
ghost use Rattle.scrub_rules.specs.Broken.{IsCleared, AreRegistersRestored, AreOthersCleared, IsSaveEndBroken, IsRestoreEndBroken};

use crate::rule::Rule;
use crate::storage::{Storage, is_tagged};
use hart_model::Place;
use routine_laws::Content;

/// Whether a word is known to be the task's register of a number.
fn is_register(content: Content, number: u32) -> bool
    ensures yes { result ≡ true → content ≡ TaskReg number }
    ensures no { result ≡ false → content ≡ TaskReg number → ⊥ }
{
    match content {
        Content::TaskReg(other) => other == number,
        _ => false,
    }
}

/// Whether a word is known to be the slot's address.
fn is_slot_address(content: Content) -> bool
    ensures yes { result ≡ true → content ≡ SlotAddress }
    ensures no { result ≡ false → content ≡ SlotAddress → ⊥ }
{
    match content {
        Content::SlotAddress => true,
        _ => false,
    }
}

impl Storage {
    /// Whether the slot's words 1 to 31 are the task's registers.
    fn are_words_saved(&self) -> bool
        ensures yes { result ≡ true → AreWordsSaved self.now }
        ensures no { result ≡ false → AreWordsSaved self.now → ⊥ }
    {
        for i in 1..32u32 {
            if !is_register(self.slot_word(i), i) {
                return false;
            }
        }
        true
    }

    /// Whether the registers are the task's.
    fn are_registers_restored(&self) -> bool
        ensures yes { result ≡ true → AreRegistersRestored self.now }
        ensures no { result ≡ false → AreRegistersRestored self.now → ⊥ }
    {
        for i in 1..32u32 {
            if !is_register(self.register(i), i) {
                return false;
            }
        }
        true
    }

    /// Whether no register is tagged.
    fn are_registers_untagged(&self) -> bool
        ensures yes { result ≡ true → (i : ℕ) → 1 ≤ i → i < 32 → is_tagged_content (register_of self.now i) ≡ false }
        ensures no { result ≡ false → ((i : ℕ) → 1 ≤ i → i < 32 → is_tagged_content (register_of self.now i) ≡ false) → ⊥ }
    {
        for i in 1..32u32 {
            if is_tagged(self.register(i)) {
                return false;
            }
        }
        true
    }

    /// Whether no latch other than a register is tagged.
    #[tactic(auto, using(crate::proofs::UntaggedLatches::untagged_latches))]
    fn are_latches_untagged(&self) -> bool
        ensures yes { result ≡ true → AreLatchesUntagged self.now }
        ensures no { result ≡ false → AreLatchesUntagged self.now → ⊥ }
    {
        !(is_tagged(self.content(&Place::PortA))
            || is_tagged(self.content(&Place::PortB))
            || is_tagged(self.content(&Place::Res))
            || is_tagged(self.content(&Place::Load))
            || is_tagged(self.content(&Place::Store))
            || is_tagged(self.content(&Place::Scr))
            || is_tagged(self.content(&Place::Mul))
            || is_tagged(self.content(&Place::Zero)))
    }

    /// Whether no latch is tagged, and x5 and `mscratch` have the slot's address.
    fn is_cleared(&self) -> bool
        ensures yes { result ≡ true → IsCleared self.now }
        ensures no { result ≡ false → IsCleared self.now → ⊥ }
    {
        self.are_registers_untagged()
            && self.are_latches_untagged()
            && is_slot_address(self.register(5))
            && is_slot_address(self.scratch())
    }

    /// Whether no latch other than a register is tagged, and `mscratch` has the slot's address.
    fn are_others_cleared(&self) -> bool
        ensures yes { result ≡ true → AreOthersCleared self.now }
        ensures no { result ≡ false → AreOthersCleared self.now → ⊥ }
    {
        self.are_latches_untagged() && is_slot_address(self.scratch())
    }

    /// The first rule that is broken at the end of a save part, if any.
    pub(crate) fn broken_at_save_end(&self) -> Option<Rule>
        ensures some { IfSome result (IsSaveEndBroken self.now) }
        ensures none { IfNone result (IsSavedEnd self.now) }
    {
        if !self.are_words_saved() {
            Some(Rule::Slot)
        } else if !self.is_cleared() {
            Some(Rule::Left)
        } else {
            None
        }
    }

    /// The first rule that is broken at the end of a restore part, if any.
    pub(crate) fn broken_at_restore_end(&self) -> Option<Rule>
        ensures some { IfSome result (IsRestoreEndBroken self.now) }
        ensures none { IfNone result (IsRestoredEnd self.now) }
    {
        if !self.are_registers_restored() {
            Some(Rule::Restored)
        } else if !self.are_others_cleared() {
            Some(Rule::Left)
        } else if !self.are_words_saved() {
            Some(Rule::Slot)
        } else {
            None
        }
    }
}

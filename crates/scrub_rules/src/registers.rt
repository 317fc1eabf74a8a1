//! Numbers of registers and distances.

ghost use Rattle.std.specs.Prelude.{◌≡◌, Some, None};
ghost use Rattle.routine_laws.specs.Contents.{constant_of as constant_of_imm, saved_word as saved_word_of, is_zero_offset as is_zero_imm, word_from as word_from_content};
ghost use Rattle.scrub_rules.specs.View.{forwards as forwards_of};

use hart_model::Place;
use routine_laws::Content;

/// The address of the word that is always 0.
const ZERO_ADDRESS: u32 = 0x100;

/// What ADDI of x0 makes of its immediate.
pub(crate) fn constant_of(imm: i32) -> Content
    ensures content { result ≡ constant_of_imm imm }
{
    if imm == 0 {
        Content::Zero
    } else {
        Content::Public
    }
}

/// A distance forwards; None where it goes backwards.
fn forwards(imm: i32) -> Option<u32>
    ensures distance { result ≡ forwards_of imm }
{
    if imm < 0 { None } else { Some(imm as u32) }
}

/// Whether a distance from x0 is the address of the word that is always 0.
pub(crate) fn is_zero_offset(imm: i32) -> bool
    ensures test { result ≡ is_zero_imm imm }
{
    match forwards(imm) {
        Some(at) => at == ZERO_ADDRESS,
        None => false,
    }
}

/// The word of the slot that keeps a register, at a distance from the slot's address.
fn saved_word(imm: i32) -> Option<Place>
    ensures word { result ≡ saved_word_of imm }
{
    match forwards(imm) {
        Some(at) => {
            if 4 <= at && at <= 124 && at % 4 == 0 {
                Some(Place::SlotWord(at / 4))
            } else {
                None
            }
        }
        None => None,
    }
}

/// The word of the slot that keeps a register, at a distance from what a register has.
pub(crate) fn word_from(content: Content, imm: i32) -> Option<Place>
    ensures word { result ≡ word_from_content content imm }
{
    match content {
        Content::SlotAddress => saved_word(imm),
        Content::Zero => None,
        Content::Public => None,
        Content::TaskReg(_) => None,
        Content::OldSlotWord(_) => None,
        Content::Unknown => None,
    }
}

//! The text of a kernel for demonstration alone: what its stores write meets what stood in the slot and in the latches before.

ghost use Rattle.std.specs.Prelude.{◌≡◌, [], ◌∷◌, ◌++◌, flat_map, OnOk};
ghost use Rattle.core_model.specs.KernelText.{sw, saved, x5, registers_but_x5, naive_lines};

use crate::kernel_text::{append_last, append_restore, saved, take_lines};
use crate::label::Label;
use crate::mnemonics::{MSCRATCH, X0, X5, at, csrrw, jal_to_itself, sw};
use crate::text::Text;
use std::alloc::AllocError;

/// Every register but x5 goes to its slot word, which isn't written before.
fn append_naive_saves(text: &mut Text) -> Result<(), AllocError>
    ensures lines { OnOk result (text.new ≡ text.old ++ flat_map (λ i. sw i (saved i) x5 ∷ []) registers_but_x5) }
{
    for register in 1..32 {
        if register != X5 {
            text.append([sw(register, saved(register), X5)])?;
        }
    }
    Ok(())
}

/// The text of a kernel for demonstration alone, whose save clears nothing and then loops.
pub fn append_naive(text: &mut Text) -> Result<(), AllocError>
    ensures lines { OnOk result (text.new ≡ text.old ++ naive_lines) }
{
    text.append([at(Label::Entry), csrrw(X5, MSCRATCH, X5)])?;
    append_naive_saves(text)?;
    text.append([jal_to_itself(X0)])?;
    text.append(take_lines())?;
    append_restore(text)?;
    append_last(text)
}

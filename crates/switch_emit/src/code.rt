//! The kernel's code.

ghost use Rattle.std.specs.Prelude.{◌≡◌, ◌<◌, ◌≤◌, length, IfOk};
ghost use Rattle.core_model.specs.KernelWords as definition;
ghost use Rattle.switch_emit.specs.Lines.{label_of};

use crate::kernel_text::{append_kernel, append_last, append_middle};
use crate::label::Label;
use crate::naive_text::append_naive;
use crate::text::Text;
use isa_model::Words;
use std::alloc::{AllocError, Global};
use std::marker::Model;

/// Where the kernel's code stands, in bytes.
const KERNEL_ADDRESS: u32 = 0x1000;

/// How many words a save part and a restore part have at most.
pub const PART_MAX: usize = 300;

/// A kernel's words, which stand from 0x1000 on, and three addresses in bytes.
#[derive(Debug, Drop)]
pub struct KernelCode {
    pub words: Words,
    /// Where a trap enters.
    pub entry: u32,
    /// Where a hart boots, and takes its next context.
    pub take: u32,
    /// The loop of a hart whose take was empty.
    pub idle: u32,
}

impl Model for KernelCode {
    ghost use Rattle.core_model.specs.KernelWords.{KernelCodeState};

    ghost Value = { KernelCodeState };

    ghost view = { λ c. record { words = c.words; entry = c.entry; take = c.take; idle = c.idle } };
}

/// The address of a label.
fn address_of(text: &Text, label: Label) -> u32
    requires short { length text.now < 1024 }
    ensures address { result ≡ definition.address_of (label_of label) text.now }
{
    KERNEL_ADDRESS + 4 * text.words_before(label) as u32
}

/// The code of a text.
fn code_of(text: &Text) -> Result<KernelCode, AllocError>
    requires short { length text.now < 1024 }
    ensures code { IfOk result (λ code. code ≡ definition.code_of text.now) }
{
    Ok(KernelCode {
        words: text.words()?,
        entry: KERNEL_ADDRESS,
        take: address_of(text, Label::Take),
        idle: address_of(text, Label::Idle),
    })
}

/// The kernel's code (this project's own).
pub fn kernel_code(alloc: Global) -> Result<KernelCode, AllocError>
    ensures code { IfOk result (λ code. code ≡ definition.kernel_code) }
{
    let mut text = Text::new(alloc);
    append_kernel(&mut text)?;
    code_of(&text)
}

/// The code of a kernel for demonstration alone: its save clears nothing, so what it stores meets what stood in the latches before;
/// after that it loops.
pub fn naive_code(alloc: Global) -> Result<KernelCode, AllocError>
    ensures code { IfOk result (λ code. code ≡ definition.naive_code) }
{
    let mut text = Text::new(alloc);
    append_naive(&mut text)?;
    code_of(&text)
}

/// The kernel's code with other words for its save part and its restore part.
pub fn link(alloc: Global, save: &[u32], restore: &[u32]) -> Result<KernelCode, AllocError>
    requires save { length save.now ≤ PART_MAX }
    requires restore { length restore.now ≤ PART_MAX }
    ensures code { IfOk result (λ code. code ≡ definition.linked_code save.now restore.now) }
{
    let mut text = Text::new(alloc);
    text.append_words(save)?;
    append_middle(&mut text)?;
    text.append_words(restore)?;
    append_last(&mut text)?;
    code_of(&text)
}

//! Assembling a listing.

ghost use Rattle.std.specs.Prelude.{◌≡◌, ◌≢◌, ◌+◌, ◌<◌, ◌≤◌, ◌^◌, length, IfOk, IfErr};
ghost use Rattle.asm_line.specs.declared.line.AsmKind.TheVariants.{Memory};
ghost use Rattle.rv_asm.specs.Listing.{texts};
ghost use Rattle.isa_model.specs.Limits.{max_code_words};
ghost use Rattle.rv_asm.specs.Assembly.{Assembles, IsRefusedAt};

use crate::fault::AsmFault;
use crate::linking::linked;
use crate::listing::read_listing;
use isa_model::Words;
use std::alloc::Global;

/// What a listing assembles to.
#[derive(Debug, Drop)]
pub struct Assembled {
    /// The words, at most 4,096.
    pub words: Words,
    /// The number of the line of each word.
    pub lines: Words,
}

/// Assembles a listing whose first line has the number `first_line`. All lines are read first, in their order. On one line a label
/// that stood before, on an earlier line or on this one, is tried first; then the fault of the line's item; then whether there are
/// more than 4,096 words with this line's. Then come the labels that jumps and branches name, in the order of the lines: one that
/// stands nowhere, and one that is out of reach, which is -4096 to 4094 bytes from a branch and -1048576 to 1048574 from a jump.
/// The first line that is refused ends it. A label's place is that of the next word after it. The time is linear in the length of
/// the listing, where hashes of labels don't collide.
pub fn assemble(alloc: Global, lines: &[Vec<u8>], first_line: u32) -> Result<Assembled, AsmFault>
    requires numbers { first_line + length lines.now < 2 ^ 32 }
    ensures assembled { IfOk result (Assembles (texts lines.now) first_line) }
    ensures few { IfOk result (λ assembled. length assembled.words ≤ max_code_words) }
    ensures line_each { IfOk result (λ assembled. length assembled.lines ≡ length assembled.words) }
    ensures refused { IfErr result (λ fault. fault.kind ≢ Memory → IsRefusedAt (texts lines.now) first_line fault) }
    ensures memory { IfErr result (λ fault. fault.kind ≡ Memory → fault.line ≡ 0) }
{
    let (listing, places) = read_listing(alloc, lines, first_line)?;
    let words = linked(alloc, listing.as_slice(), &places)?;
    Ok(Assembled {
        words: Words::new(words.words(alloc)?),
        lines: Words::new(words.lines(alloc)?),
    })
}

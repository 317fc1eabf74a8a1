//! The lines of a whole input, as a block of code has them.

ghost use Rattle.std.specs.Prelude.{◌≡◌, ◌-◌, ◌<◌, ◌≤◌, ◌^◌, ◌∷◌, ◌++◌, [], length, OnOk, IfOk};
ghost use Rattle.bundle_text.specs.TextLines.{text_lines_of, AnswersLines};

use crate::bundle::{BundleFault, BundleKind, Line};
use crate::pieces::{cut_line, is_text};
use core_model::Items;
use std::alloc::{AllocError, Global};

/// The line of a refusal for want of memory.
const NO_LINE: u32 = 0;

/// Puts a line at the end of lines.
pub(crate) fn push_line(
    alloc: Global,
    lines: &mut Items<Line>,
    line: &[u8],
) -> Result<(), AllocError>
    ensures lines { OnOk result (lines.new ≡ lines.old ++ line.now ∷ []) }
{
    let line: Line = Items::new(Vec::from_slice(alloc, line)?);
    lines.push(line)?;
    Ok(())
}

/// The lines of the bytes, each without the bytes that end it, as a block of code of a bundle has them; none of them ends the block.
/// Errors: the first line, counted from 1, with a byte that is neither printable ASCII nor a tab nor a CR, as `NotText`; and `Memory`,
/// with line 0.
///
/// It takes time linear in the length of the bytes.
pub fn text_lines(alloc: Global, bytes: &[u8]) -> Result<Items<Line>, BundleFault>
    requires length { length bytes.now < 2 ^ 32 - 1 }
    ensures decision { AnswersLines result (text_lines_of bytes.now) }
    ensures few { IfOk result (λ text. length text ≤ length bytes.now) }
{
    let mut found = Items::empty(alloc);
    let mut number: u32 = 1;
    let mut rest = bytes;
    while let Some((line, next)) = cut_line(rest) {
        if !is_text(line) {
            return Err(BundleFault {
                line: number,
                kind: BundleKind::NotText,
            });
        }
        if push_line(alloc, &mut found, line).is_err() {
            return Err(BundleFault {
                line: NO_LINE,
                kind: BundleKind::Memory,
            });
        }
        number += 1;
        rest = next;
    }
    Ok(found)
}

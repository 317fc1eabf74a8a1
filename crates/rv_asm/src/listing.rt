//! The lines of a listing.

ghost use Rattle.std.specs.Prelude.{◌≡◌, ℕ, ◌+◌, ◌<◌, ◌≤◌, ◌^◌, ◌⊎◌, ◌++◌, ◌∷◌, [], length, false, Some, None, IfOk, IfErr, OnOk};
ghost use Rattle.asm_line.specs.LineForm.{line_of};
ghost use Rattle.rv_asm.specs.Listing.{texts, word_count, placed_lines};
ghost use Rattle.isa_model.specs.Limits.{max_code_words};
ghost use Rattle.rv_asm.specs.Refusals.{repeats, kind_of_item, kind_in_reading, refusal_in_reading};
ghost use Rattle.rv_asm.specs.Memory.{memory_fault};
ghost use Rattle.rv_asm.specs.Places.{names, at_place, label_places};

use crate::fault::AsmFault;
use crate::places::Places;
use asm_line::{AsmKind, Item, Label, Line, read_line};
use std::alloc::{AllocError, Global};
use std::marker::Model;

/// How many words a task may have.
const MAX_WORDS: u32 = 4096;

/// A line that was read, with its number and its place.
#[derive(Drop)]
pub(crate) struct Placed {
    /// The number of the line.
    pub number: u32,
    /// How many words stand before it.
    pub place: u32,
    /// What it says.
    pub line: Line,
}

/// Lines that were read, in their order, which contracts see as a list.
#[derive(Drop)]
pub(crate) struct Listing {
    inner: Vec<Placed>,
}

impl Model for Listing {
    ghost use Rattle.std.specs.Prelude.{List};
    ghost use Rattle.rv_asm.specs.declared.listing.Placed.{Placed};

    ghost Value = { List Placed };

    ghost view = { λ l. l.inner.items };
}

impl Listing {
    /// No lines.
    fn new(alloc: Global) -> Listing
        ensures empty { result ≡ [] }
    {
        Listing {
            inner: Vec::new(alloc),
        }
    }

    /// Puts a line after the others.
    fn push(&mut self, placed: Placed) -> Result<(), AllocError>
        ensures ok { OnOk result (self.new ≡ self.old ++ placed ∷ []) }
    {
        self.inner.push(placed)?;
        Ok(())
    }

    /// The lines as a slice.
    pub(crate) fn as_slice(&self) -> &[Placed]
        ensures lines { result.now ≡ self.now }
    {
        self.inner.as_slice()
    }
}

/// How many words a line has.
fn word_count(item: &Result<Item, AsmKind>) -> u32
    ensures value { result ≡ word_count item.now }
    ensures bound { result ≤ 2 }
{
    match item {
        Ok(Item::Empty) | Err(_) => 0,
        Ok(Item::Two(..)) => 2,
        Ok(_) => 1,
    }
}

/// The fault of a line beside its labels.
fn item_fault(item: &Result<Item, AsmKind>, place: u32) -> Option<AsmKind>
    requires place { place ≤ max_code_words }
    ensures value { result ≡ kind_of_item place item.now }
{
    if let Err(kind) = item {
        return Some(*kind);
    }
    if place + word_count(item) > MAX_WORDS {
        Some(AsmKind::TooManyWords)
    } else {
        None
    }
}

/// Adds the labels of a line, up to one that stands a second time, and tells whether there is one.
fn add_labels(
    alloc: Global,
    labels: &[Label],
    place: u32,
    places: &mut Places,
) -> Result<bool, AllocError>
    ensures repeats { IfOk result (λ again. again ≡ repeats (names places.old) labels.now) }
    ensures added { IfOk result (λ again. again ≡ false → places.new ≡ places.old ++ at_place place labels.now) }
{
    for label in labels {
        let name = label.as_slice();
        if places.contains(name) {
            return Ok(true);
        }
        places.add(alloc, name, place)?;
    }
    Ok(false)
}

/// The first fault of a line, whose labels are added.
fn line_fault(
    alloc: Global,
    line: &Line,
    place: u32,
    places: &mut Places,
) -> Result<Option<AsmKind>, AllocError>
    requires place { place ≤ max_code_words }
    ensures value { IfOk result (λ kind. (number : ℕ) → kind ≡ kind_in_reading (names places.old) (record { number = number; place = place; line = line.now })) }
    ensures added { IfOk result (λ kind. kind ≡ None → places.new ≡ places.old ++ at_place place line.now.labels) }
{
    if add_labels(alloc, line.labels.as_slice(), place, places)? {
        return Ok(Some(AsmKind::DuplicateLabel));
    }
    Ok(item_fault(&line.item, place))
}

/// Reads a line and adds its labels.
fn read_placed(
    alloc: Global,
    text: &[u8],
    number: u32,
    place: u32,
    places: &mut Places,
) -> Result<Placed, AsmFault>
    requires place { place ≤ max_code_words }
    ensures line { IfOk result (λ p. p ≡ record { number = number; place = place; line = line_of text.now }) }
    ensures accepted { IfOk result (λ p. kind_in_reading (names places.old) p ≡ None) }
    ensures room { IfOk result (λ p. place + word_count p.line.item ≤ max_code_words) }
    ensures added { IfOk result (λ p. places.new ≡ places.old ++ at_place place p.line.labels) }
    ensures refused { IfErr result (λ fault. (fault ≡ memory_fault) ⊎ ((fault.line ≡ number) × (kind_in_reading (names places.old) (record { number = number; place = place; line = line_of text.now }) ≡ Some fault.kind))) }
{
    let line = read_line(alloc, text)?;
    if let Some(kind) = line_fault(alloc, &line, place, places)? {
        return Err(AsmFault { line: number, kind });
    }
    Ok(Placed {
        number,
        place,
        line,
    })
}

/// Reads the lines of a listing, up to the first that is refused, and gathers the places of the labels.
pub(crate) fn read_listing(
    alloc: Global,
    lines: &[Vec<u8>],
    first_line: u32,
) -> Result<(Listing, Places), AsmFault>
    requires numbers { first_line + length lines.now < 2 ^ 32 }
    ensures lines { IfOk result (λ read. read.0 ≡ placed_lines (texts lines.now) first_line) }
    ensures places { IfOk result (λ read. read.1 ≡ label_places read.0) }
    ensures accepted { IfOk result (λ read. refusal_in_reading [] read.0 ≡ None) }
    ensures refused { IfErr result (λ fault. (fault ≡ memory_fault) ⊎ (refusal_in_reading [] (placed_lines (texts lines.now) first_line) ≡ Some fault)) }
{
    let mut listing = Listing::new(alloc);
    let mut places = Places::new(alloc);
    let mut place = 0;
    for (index, text) in lines.iter().enumerate() {
        let number = first_line + index as u32;
        let placed = read_placed(alloc, text.as_slice(), number, place, &mut places)?;
        place += word_count(&placed.line.item);
        listing.push(placed)?;
    }
    Ok((listing, places))
}

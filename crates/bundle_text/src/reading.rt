//! Reading a bundle, line by line.

ghost use Rattle.std.specs.Prelude.{◌≡◌, ◌≢◌, ◌-◌, ◌+◌, ◌<◌, ◌^◌, ◌++◌, length, IfOk, IfErr, OnOk};
ghost use Rattle.bundle_text.specs.Pieces.{texts, tokens as tokens_of};
ghost use Rattle.bundle_text.specs.Lines.{task_with, with_words, with_code_line, with_plan, with_task_ended, with_operands, is_comment, is_endcode, line_of_word, line_of_tokens, line_of_code, with_line, no_lines, bundle_of};
ghost use Rattle.bundle_text.specs.Answer.{Leaves, Answers};
ghost use Rattle.bundle_text.specs.Form.{Breaks};
ghost use Rattle.bundle_text.specs.Grammar.{Reads};
ghost use Rattle.bundle_text.specs.Range.{IsInRange};

use crate::bundle::{Bundle, BundleFault, BundleKind, Code, TaskText};
use crate::draft::{Draft, Place, Word};
use crate::operands::{
    events, has_plan, one_number, order, plan_operands, task_operands, words, world_operands,
};
use crate::pieces::{cut_line, is_text, tokens};
use crate::places::{is_in_code, may_end, place_after, word_named};
use crate::text_block::push_line;
use core_model::Items;
use isa_model::Words;
use std::alloc::{AllocError, Global};
use std::mem;

/// The line of a refusal for want of memory.
const NO_LINE: u32 = 0;

/// A task without tape and code.
fn task_with(alloc: Global, fuel: u32, out_max: u32, data_len: u32, band: u32) -> TaskText
    ensures value { result ≡ task_with fuel out_max data_len band }
{
    TaskText {
        fuel,
        out_max,
        data_len,
        band,
        tape: Words::new(Vec::new(alloc)),
        code: Code::Words(Words::new(Vec::new(alloc))),
    }
}

/// What no line says.
fn no_lines(alloc: Global) -> Draft
    ensures value { result ≡ no_lines }
{
    Draft {
        place: Place::Start,
        has_bands: false,
        bundle: Bundle {
            slots: 0,
            plans: Items::empty(alloc),
            tasks: Items::empty(alloc),
            worlds: Items::empty(alloc),
            events: Items::empty(alloc),
            order: Items::empty(alloc),
        },
        task: task_with(alloc, 0, 0, 0, 0),
    }
}

/// Puts words at the end of a list.
fn append_words(alloc: Global, list: &mut Words, mut more: Vec<u32>) -> Result<(), AllocError>
    ensures words { OnOk result (list.new ≡ list.old ++ more.items) }
{
    let mut all = mem::replace(list, Words::new(Vec::new(alloc))).into_vec();
    all.append(&mut more)?;
    *list = Words::new(all);
    Ok(())
}

/// Puts words at the end of code that has no lines.
fn add_words(alloc: Global, code: &mut Code, more: Vec<u32>) -> Result<(), AllocError>
    ensures value { OnOk result (code.new ≡ with_words code.old more.items) }
{
    match code {
        Code::Words(list) => append_words(alloc, list, more),
        Code::Text { .. } => Ok(()),
    }
}

/// Puts a line at the end of lines of code.
fn add_code_line(alloc: Global, code: &mut Code, line: &[u8]) -> Result<(), AllocError>
    ensures value { OnOk result (code.new ≡ with_code_line code.old line.now) }
{
    match code {
        Code::Words(_) => Ok(()),
        Code::Text { lines, .. } => push_line(alloc, lines, line),
    }
}

/// Adds a plan.
fn plan_line(alloc: Global, draft: &mut Draft, tokens: &[&[u8]]) -> Result<(), BundleKind>
    ensures value { Leaves result draft.new (with_operands Word.Plan 0 draft.old (texts tokens.now)) }
{
    let plan = plan_operands(alloc, tokens)?;
    if has_plan(plan.hart, draft.bundle.plans.as_slice()) {
        return Err(BundleKind::Repeated);
    }
    draft.bundle.plans.push(plan)?;
    Ok(())
}

/// Opens a task.
fn task_line(alloc: Global, draft: &mut Draft, tokens: &[&[u8]]) -> Result<(), BundleKind>
    ensures value { Leaves result draft.new (with_operands Word.Task 0 draft.old (texts tokens.now)) }
{
    let (fuel, out_max, data_len, band) = task_operands(draft.has_bands, tokens)?;
    draft.task = task_with(alloc, fuel, out_max, data_len, band);
    Ok(())
}

/// Adds words to the tape of the task.
fn tape_line(alloc: Global, draft: &mut Draft, tokens: &[&[u8]]) -> Result<(), BundleKind>
    ensures value { Leaves result draft.new (with_operands Word.Tape 0 draft.old (texts tokens.now)) }
{
    let more = words(alloc, tokens)?;
    append_words(alloc, &mut draft.task.tape, more)?;
    Ok(())
}

/// Adds words to the code of the task.
fn words_line(alloc: Global, draft: &mut Draft, tokens: &[&[u8]]) -> Result<(), BundleKind>
    ensures value { Leaves result draft.new (with_operands Word.Words 0 draft.old (texts tokens.now)) }
{
    let more = words(alloc, tokens)?;
    add_words(alloc, &mut draft.task.code, more)?;
    Ok(())
}

/// Opens lines of code, of which the next line is the first.
fn code_line(
    alloc: Global,
    number: u32,
    draft: &mut Draft,
    tokens: &[&[u8]],
) -> Result<(), BundleKind>
    requires number { number < 2 ^ 32 - 1 }
    ensures value { Leaves result draft.new (with_operands Word.Code number draft.old (texts tokens.now)) }
{
    if !tokens.is_empty() {
        return Err(BundleKind::Operands);
    }
    draft.task.code = Code::Text {
        first_line: number + 1,
        lines: Items::empty(alloc),
    };
    Ok(())
}

/// Ends the task.
fn end_line(alloc: Global, draft: &mut Draft, tokens: &[&[u8]]) -> Result<(), BundleKind>
    ensures value { Leaves result draft.new (with_operands Word.EndTask 0 draft.old (texts tokens.now)) }
{
    if !tokens.is_empty() {
        return Err(BundleKind::Operands);
    }
    let task = mem::replace(&mut draft.task, task_with(alloc, 0, 0, 0, 0));
    draft.bundle.tasks.push(task)?;
    Ok(())
}

/// Adds a world.
fn world_line(alloc: Global, draft: &mut Draft, tokens: &[&[u8]]) -> Result<(), BundleKind>
    ensures value { Leaves result draft.new (with_operands Word.World 0 draft.old (texts tokens.now)) }
{
    let world = world_operands(alloc, draft.bundle.worlds.as_slice(), tokens)?;
    draft.bundle.worlds.push(world)?;
    Ok(())
}

/// Adds events.
fn events_line(alloc: Global, draft: &mut Draft, tokens: &[&[u8]]) -> Result<(), BundleKind>
    ensures value { Leaves result draft.new (with_operands Word.Events 0 draft.old (texts tokens.now)) }
{
    let runs = events(alloc, tokens)?;
    draft.bundle.events.append(runs)?;
    Ok(())
}

/// Adds to the order.
fn order_line(alloc: Global, draft: &mut Draft, tokens: &[&[u8]]) -> Result<(), BundleKind>
    ensures value { Leaves result draft.new (with_operands Word.Order 0 draft.old (texts tokens.now)) }
{
    let runs = order(alloc, tokens)?;
    draft.bundle.order.append(runs)?;
    Ok(())
}

/// Adds the number of slots.
fn slots_line(draft: &mut Draft, tokens: &[&[u8]]) -> Result<(), BundleKind>
    ensures value { Leaves result draft.new (with_operands Word.Slots 0 draft.old (texts tokens.now)) }
{
    let slots = one_number(1, 8, tokens)?;
    draft.bundle.slots = slots;
    Ok(())
}

/// Reads the version, which is 1, or 2 where each task says its band.
fn version_line(draft: &mut Draft, tokens: &[&[u8]]) -> Result<(), BundleKind>
    ensures value { Leaves result draft.new (with_operands Word.Bundle 0 draft.old (texts tokens.now)) }
{
    let version = one_number(1, 2, tokens)?;
    draft.has_bands = version == 2;
    Ok(())
}

/// Adds what the tokens after a word say.
fn add_operands(
    alloc: Global,
    word: Word,
    number: u32,
    draft: &mut Draft,
    tokens: &[&[u8]],
) -> Result<(), BundleKind>
    requires number { number < 2 ^ 32 - 1 }
    ensures value { Leaves result draft.new (with_operands word number draft.old (texts tokens.now)) }
{
    match word {
        Word::Bundle => version_line(draft, tokens),
        Word::Slots => slots_line(draft, tokens),
        Word::Plan => plan_line(alloc, draft, tokens),
        Word::Task => task_line(alloc, draft, tokens),
        Word::Tape => tape_line(alloc, draft, tokens),
        Word::Words => words_line(alloc, draft, tokens),
        Word::Code => code_line(alloc, number, draft, tokens),
        Word::EndCode => Err(BundleKind::Misplaced),
        Word::EndTask => end_line(alloc, draft, tokens),
        Word::World => world_line(alloc, draft, tokens),
        Word::Events => events_line(alloc, draft, tokens),
        Word::Order => order_line(alloc, draft, tokens),
    }
}

/// Whether a token begins a comment.
fn is_comment(token: &[u8]) -> bool
    ensures value { result ≡ is_comment token.now }
{
    match token {
        [b'#', ..] => true,
        _ => false,
    }
}

/// Whether tokens end lines of code.
fn is_endcode(tokens: &[&[u8]]) -> bool
    ensures value { result ≡ is_endcode (texts tokens.now) }
{
    match tokens {
        [token] => *token == b"endcode".as_slice(),
        _ => false,
    }
}

/// Adds a line outside code.
fn add_line_of_tokens(
    alloc: Global,
    number: u32,
    draft: &mut Draft,
    tokens: &[&[u8]],
) -> Result<(), BundleKind>
    requires number { number < 2 ^ 32 - 1 }
    ensures value { Leaves result draft.new (line_of_tokens number draft.old (texts tokens.now)) }
{
    let [first, rest @ ..] = tokens else {
        return Ok(());
    };
    if is_comment(first) {
        return Ok(());
    }
    let word = word_named(first).ok_or(BundleKind::UnknownWord)?;
    let place = place_after(draft.place, word).ok_or(BundleKind::Misplaced)?;
    draft.place = place;
    add_operands(alloc, word, number, draft, rest)
}

/// Adds a line of code, or ends the code.
fn add_line_of_code(
    alloc: Global,
    draft: &mut Draft,
    line: &[u8],
    tokens: &[&[u8]],
) -> Result<(), BundleKind>
    requires tokens { texts tokens.now ≡ tokens_of line.now }
    ensures value { Leaves result draft.new (Ok (line_of_code draft.old line.now)) }
{
    if is_endcode(tokens) {
        draft.place = Place::CodeEnd;
        Ok(())
    } else {
        add_code_line(alloc, &mut draft.task.code, line)?;
        Ok(())
    }
}

/// Adds the line of this number.
#[tactic(auto, unfolding(crate::specs::Lines::with_line))]
fn add_line(alloc: Global, number: u32, draft: &mut Draft, line: &[u8]) -> Result<(), BundleKind>
    requires number { number < 2 ^ 32 - 1 }
    ensures value { Leaves result draft.new (with_line number draft.old line.now) }
{
    if !is_text(line) {
        return Err(BundleKind::NotText);
    }
    let found = tokens(alloc, line)?;
    if is_in_code(draft.place) {
        add_line_of_code(alloc, draft, line, found.as_slice())
    } else {
        add_line_of_tokens(alloc, number, draft, found.as_slice())
    }
}

/// The bundle of the lines of a text, or its first fault.
fn read_lines(alloc: Global, bytes: &[u8]) -> Result<Bundle, BundleFault>
    requires length { length bytes.now < 2 ^ 32 - 1 }
    ensures decision { Answers result (bundle_of bytes.now) }
{
    let mut draft = no_lines(alloc);
    let mut number: u32 = 1;
    let mut rest = bytes;
    while let Some((line, next)) = cut_line(rest) {
        match add_line(alloc, number, &mut draft, line) {
            Ok(()) => {}
            Err(BundleKind::Memory) => return Err(out_of_memory()),
            Err(kind) => return Err(BundleFault { line: number, kind }),
        }
        number += 1;
        rest = next;
    }
    if may_end(draft.place) {
        Ok(draft.bundle)
    } else {
        Err(BundleFault {
            line: number,
            kind: BundleKind::Missing,
        })
    }
}

/// The refusal for want of memory.
fn out_of_memory() -> BundleFault
    ensures line { result.line ≡ 0 }
    ensures kind { result.kind ≡ BundleKind.Memory }
{
    BundleFault {
        line: NO_LINE,
        kind: BundleKind::Memory,
    }
}

/// Reads a bundle. Errors: the first line that breaks the form, and by what; where lines are missing, the number of lines plus 1;
/// where memory ran out, line 0.
///
/// It takes time linear in the length of the text.
pub fn read_bundle(alloc: Global, bytes: &[u8]) -> Result<Bundle, BundleFault>
    requires length { length bytes.now < 2 ^ 32 - 1 }

    // The bundle that the text says, or its first fault, as functions of the bytes.
    ensures decision { Answers result (bundle_of bytes.now) }

    // The bytes read as the bundle.
    ensures read { IfOk result (λ bundle. Reads bytes.now bundle) }

    // The numbers of the bundle are in their ranges, and its lists are short.
    ensures range { IfOk result IsInRange }

    // A refusal for another cause than want of memory names the first line that breaks the form.
    ensures fault { IfErr result (λ fault. fault.kind ≢ BundleKind.Memory → Breaks bytes.now fault) }

    // Want of memory names no line.
    ensures memory { IfErr result (λ fault. fault.kind ≡ BundleKind.Memory → fault.line ≡ 0) }
{
    read_lines(alloc, bytes)
}

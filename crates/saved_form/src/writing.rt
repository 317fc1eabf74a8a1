//! Writing a saved board.

ghost use Rattle.std.specs.Prelude.{◌≡◌, [], ◌∷◌, ◌++◌, length, OnOk, IfOk};
ghost use Rattle.std.specs.List.{flat_map};
ghost use Rattle.byteorder.specs.Endian.{little_bytes};
ghost use Rattle.saved_form.specs.Spelling.{counted, of_rest, of_hart, of_cell, of_context, of_end, of_ended, of_progress, of_task, of_run, magic, bytes_of, spelling};

use crate::saved::{Progress, SavedBoard, SavedCell, SavedContext, SavedEnd, SavedHart, SavedTask};
use byteorder::{ByteOrder, LittleEndian};
use core_model::OrderRun;
use isa_model::End;
use resting_hart::Rest;
use std::alloc::{AllocError, Global};

/// The number that the first four bytes spell, `4d 4b 42 31`.
pub(crate) const MAGIC: u32 = 0x3142_4b4d;

/// Appends a number.
fn add_number(number: u32, out: &mut Vec<u8>) -> Result<(), AllocError>
    ensures ok { OnOk result (out.new.items ≡ out.old.items ++ little_bytes 4 number) }
{
    let mut bytes = [0u8; 4];
    LittleEndian::write_u32(&mut bytes, number);
    out.extend_from_slice(&bytes)
}

/// Appends how many things there are, by the lowest four bytes of this number.
fn add_count(count: usize, out: &mut Vec<u8>) -> Result<(), AllocError>
    ensures ok { OnOk result (out.new.items ≡ out.old.items ++ little_bytes 4 count) }
{
    let mut bytes = [0u8; 8];
    LittleEndian::write_u64(&mut bytes, count as u64);
    out.extend_from_slice(&bytes[..4])
}

/// Appends numbers.
fn add_numbers(numbers: &[u32], out: &mut Vec<u8>) -> Result<(), AllocError>
    ensures ok { OnOk result (out.new.items ≡ out.old.items ++ bytes_of numbers.now) }
{
    for number in numbers {
        add_number(*number, out)?;
    }
    Ok(())
}

/// Appends how many numbers there are, and these.
fn add_counted(numbers: &[u32], out: &mut Vec<u8>) -> Result<(), AllocError>
    ensures ok { OnOk result (out.new.items ≡ out.old.items ++ bytes_of (counted numbers.now)) }
{
    add_count(numbers.len(), out)?;
    add_numbers(numbers, out)
}

/// Appends the values of a hart.
fn add_rest(rest: &Rest, out: &mut Vec<u8>) -> Result<(), AllocError>
    ensures ok { OnOk result (out.new.items ≡ out.old.items ++ bytes_of (of_rest rest.now)) }
{
    add_number(rest.pc, out)?;
    add_numbers(&rest.regs, out)?;
    add_numbers(&rest.latches, out)?;
    add_number(rest.mepc, out)?;
    add_number(rest.mcause, out)?;
    add_numbers(&rest.bounds, out)?;
    add_number(u32::from(rest.pending), out)
}

/// Appends a hart.
fn add_hart(hart: &SavedHart, out: &mut Vec<u8>) -> Result<(), AllocError>
    ensures ok { OnOk result (out.new.items ≡ out.old.items ++ bytes_of (of_hart hart.now)) }
{
    add_counted(hart.quanta.as_slice(), out)?;
    add_number(hart.tail, out)?;
    add_rest(&hart.rest, out)
}

/// Appends harts.
fn add_harts(harts: &[SavedHart], out: &mut Vec<u8>) -> Result<(), AllocError>
    ensures ok { OnOk result (out.new.items ≡ out.old.items ++ bytes_of (flat_map of_hart harts.now)) }
{
    for hart in harts {
        add_hart(hart, out)?;
    }
    Ok(())
}

/// Appends cells.
fn add_cells(cells: &[SavedCell], out: &mut Vec<u8>) -> Result<(), AllocError>
    ensures ok { OnOk result (out.new.items ≡ out.old.items ++ bytes_of (flat_map of_cell cells.now)) }
{
    for cell in cells {
        add_number(cell.step, out)?;
        add_number(cell.value, out)?;
    }
    Ok(())
}

/// Appends what there is of a ready task.
fn add_context(context: &SavedContext, out: &mut Vec<u8>) -> Result<(), AllocError>
    ensures ok { OnOk result (out.new.items ≡ out.old.items ++ bytes_of (of_context context.now)) }
{
    add_number(context.slot, out)?;
    add_number(context.count, out)?;
    add_cells(context.regs.as_slice(), out)?;
    add_cells(context.data_words.as_slice(), out)?;
    add_number(context.tape_at, out)?;
    add_counted(context.output.as_slice(), out)?;
    add_number(context.pc, out)
}

/// The kind of an end and its two words.
fn numbers_of_end(end: End) -> [u32; 3]
    ensures numbers { result ≡ of_end end }
{
    match end {
        End::Exited(code) => [0, code, 0],
        End::Faulted { cause, pc } => [1, cause, pc],
        End::BadCall(service) => [2, service, 0],
        End::TapeEnd => [3, 0, 0],
        End::OutFull => [4, 0, 0],
        End::OutOfSteps => [5, 0, 0],
    }
}

/// Appends what there is of a task that has ended.
fn add_ended(ended: &SavedEnd, out: &mut Vec<u8>) -> Result<(), AllocError>
    ensures ok { OnOk result (out.new.items ≡ out.old.items ++ bytes_of (of_ended ended.now)) }
{
    add_number(ended.count, out)?;
    add_numbers(&numbers_of_end(ended.end), out)?;
    add_counted(ended.output.as_slice(), out)
}

/// Appends how far a task is.
fn add_progress(progress: &Progress, out: &mut Vec<u8>) -> Result<(), AllocError>
    ensures ok { OnOk result (out.new.items ≡ out.old.items ++ bytes_of (of_progress progress.now)) }
{
    match progress {
        Progress::Waits => add_number(0, out),
        Progress::IsReady(context) => {
            add_number(1, out)?;
            add_context(context, out)
        }
        Progress::HasEnded(ended) => {
            add_number(2, out)?;
            add_ended(ended, out)
        }
    }
}

/// Appends a task.
fn add_task(task: &SavedTask, out: &mut Vec<u8>) -> Result<(), AllocError>
    ensures ok { OnOk result (out.new.items ≡ out.old.items ++ bytes_of (of_task task.now)) }
{
    add_numbers(&[task.band, task.fuel, task.out_max, task.data_len], out)?;
    add_counted(task.code.as_slice(), out)?;
    add_counted(task.tape.as_slice(), out)?;
    add_progress(&task.progress, out)
}

/// Appends tasks.
fn add_tasks(tasks: &[SavedTask], out: &mut Vec<u8>) -> Result<(), AllocError>
    ensures ok { OnOk result (out.new.items ≡ out.old.items ++ bytes_of (flat_map of_task tasks.now)) }
{
    for task in tasks {
        add_task(task, out)?;
    }
    Ok(())
}

/// Appends runs.
fn add_runs(runs: &[OrderRun], out: &mut Vec<u8>) -> Result<(), AllocError>
    ensures ok { OnOk result (out.new.items ≡ out.old.items ++ bytes_of (flat_map of_run runs.now)) }
{
    for run in runs {
        add_number(run.hart, out)?;
        add_number(run.times, out)?;
    }
    Ok(())
}

/// Appends what stands before the harts.
fn add_head(board: &SavedBoard, out: &mut Vec<u8>) -> Result<(), AllocError>
    ensures ok { OnOk result (out.new.items ≡ out.old.items ++ bytes_of (magic ∷ length board.now.harts ∷ board.now.slots ∷ length board.now.tasks ∷ [])) }
{
    add_number(MAGIC, out)?;
    add_count(board.harts.len(), out)?;
    add_number(board.slots, out)?;
    add_count(board.tasks.len(), out)
}

/// Appends the four lists.
fn add_lists(board: &SavedBoard, out: &mut Vec<u8>) -> Result<(), AllocError>
    ensures ok { OnOk result (out.new.items
        ≡ out.old.items ++ bytes_of (counted board.now.waiting
        ++ (counted board.now.ready_first ++ (counted board.now.ready_second ++ counted board.now.ended)))) }
{
    add_counted(board.waiting.as_slice(), out)?;
    add_counted(board.ready_first.as_slice(), out)?;
    add_counted(board.ready_second.as_slice(), out)?;
    add_counted(board.ended.as_slice(), out)
}

/// Appends how many runs there are, and these.
fn add_order(runs: &[OrderRun], out: &mut Vec<u8>) -> Result<(), AllocError>
    ensures ok { OnOk result (out.new.items ≡ out.old.items ++ bytes_of (length runs.now ∷ flat_map of_run runs.now)) }
{
    add_count(runs.len(), out)?;
    add_runs(runs, out)
}

/// Writes a saved board: its spelling. Each number has four bytes, the lowest first, and of one that fits in no four bytes, as of a
/// list of 4,294,967,296 items, they are the lowest four. A board that is within its ranges is read again as it is. `AllocError` is
/// want of memory.
///
/// It takes time linear in the size of the board.
pub fn write(alloc: Global, board: &SavedBoard) -> Result<Vec<u8>, AllocError>
    ensures bytes { IfOk result (λ bytes. bytes.items ≡ spelling board.now) }
{
    let mut out = Vec::new(alloc);
    add_head(board, &mut out)?;
    add_harts(board.harts.as_slice(), &mut out)?;
    add_tasks(board.tasks.as_slice(), &mut out)?;
    add_lists(board, &mut out)?;
    add_order(board.order.as_slice(), &mut out)?;
    Ok(out)
}

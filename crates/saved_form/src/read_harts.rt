//! Reading what is saved of the harts.

ghost use Rattle.std.specs.Prelude.{◌≡◌, [], ◌≤◌, ◌^◌, ◌*◌, ◌==◌, ◌&&◌, ◌||◌, not, length};
ghost use Rattle.std.specs.List.{sum_by};
ghost use Rattle.isa_model.specs.Limits.{max_quantum, max_quanta};
ghost use Rattle.saved_form.specs.Fields.{field, items};
ghost use Rattle.saved_form.specs.Ranges.{is_rest_pc, is_multiple, up_to};
ghost use Rattle.saved_form.specs.Reading.{numbers as so_many, counted_numbers, register, rest, hart};
ghost use Rattle.saved_form.specs.Answer.{Gives};

use crate::numbers::{Numbers, ReadError, passed};
use crate::saved::SavedHart;
use core_model::Items;
use isa_model::Words;
use resting_hart::Rest;
use std::alloc::Global;

/// How many quanta a plan lists at most.
const QUANTA_MAX: usize = 1024;

/// The greatest quantum and the greatest tail.
const QUANTUM_MAX: u32 = 4096;

/// Where a hart rests that has given an ended task.
const GIVEN_AT: u32 = 0x131c;

/// Where a hart rests before a take.
const TAKE_AT: u32 = 0x1324;

/// Where a hart rests after a take that found nothing.
const TAKEN_AT: u32 = 0x1328;

/// The idle loop.
const IDLE_AT: u32 = 0x1454;

/// So many quanta.
fn so_many_quanta(alloc: Global, count: u32, numbers: &mut Numbers) -> Result<Words, ReadError>
    ensures value { Gives result numbers.new (so_many count (up_to max_quantum) numbers.old) }
{
    let mut found = Vec::new(alloc);
    for _index in 0..count {
        let quantum = numbers.up_to(QUANTUM_MAX as usize)?;
        found.push(quantum)?;
    }
    Ok(Words::new(found))
}

/// The quanta of a plan.
fn quanta(alloc: Global, numbers: &mut Numbers) -> Result<Words, ReadError>
    ensures value { Gives result numbers.new (counted_numbers max_quanta (up_to max_quantum) numbers.old) }
{
    let count = numbers.up_to(QUANTA_MAX)?;
    so_many_quanta(alloc, count, numbers)
}

/// The pc of a hart that rests.
fn rest_pc(numbers: &mut Numbers) -> Result<u32, ReadError>
    ensures value { Gives result numbers.new (field is_rest_pc numbers.old) }
{
    let at = numbers.at();
    let pc = numbers.any()?;
    passed(
        pc,
        at,
        pc == GIVEN_AT || pc == TAKE_AT || pc == TAKEN_AT || pc == IDLE_AT,
    )
}

/// The register after so many others, of a hart that rests at this pc.
fn next_register(pc: u32, index: usize, numbers: &mut Numbers) -> Result<u32, ReadError>
    ensures value { Gives result numbers.new (field (λ n. not (pc == TAKEN_AT && index == 4) || n == 0) numbers.old) }
{
    let at = numbers.at();
    let value = numbers.any()?;
    passed(value, at, !(pc == TAKEN_AT && index == 4) || value == 0)
}

/// x1 to x31 of a hart that rests at this pc.
fn registers(pc: u32, numbers: &mut Numbers) -> Result<[u32; 31], ReadError>
    ensures value { Gives result numbers.new (items (register pc) [] 31 numbers.old) }
{
    let mut found = [0u32; 31];
    for index in 0..31 {
        let value = next_register(pc, index, numbers)?;
        found[index] = value;
    }
    Ok(found)
}

/// A multiple of 4.
fn multiple(numbers: &mut Numbers) -> Result<u32, ReadError>
    ensures value { Gives result numbers.new (field is_multiple numbers.old) }
{
    let at = numbers.at();
    let number = numbers.any()?;
    passed(number, at, number % 4 == 0)
}

/// The values of a hart that rests.
fn rest(numbers: &mut Numbers) -> Result<Rest, ReadError>
    ensures value { Gives result numbers.new (rest numbers.old) }
{
    let pc = rest_pc(numbers)?;
    let regs = registers(pc, numbers)?;
    let latches = numbers.array::<7>()?;
    let mepc = multiple(numbers)?;
    let mcause = numbers.any()?;
    let bounds = numbers.array::<4>()?;
    let pending = numbers.up_to(1)?;
    Ok(Rest {
        pc,
        regs,
        latches,
        mepc,
        mcause,
        bounds,
        pending: pending == 1,
    })
}

/// A hart.
fn hart(alloc: Global, numbers: &mut Numbers) -> Result<SavedHart, ReadError>
    ensures value { Gives result numbers.new (hart [] numbers.old) }
{
    let quanta = quanta(alloc, numbers)?;
    let tail = numbers.between(1, QUANTUM_MAX)?;
    let rest = rest(numbers)?;
    Ok(SavedHart { quanta, tail, rest })
}

/// So many harts.
pub(crate) fn harts(
    alloc: Global,
    count: u32,
    numbers: &mut Numbers,
) -> Result<Items<SavedHart>, ReadError>
    ensures value { Gives result numbers.new (items hart [] count numbers.old) }
{
    let mut found = Vec::new(alloc);
    for _index in 0..count {
        let hart = hart(alloc, numbers)?;
        found.push(hart)?;
    }
    Ok(Items::new(found))
}

/// How many quanta harts have left, summed in 128 bits, where no sum wraps.
pub(crate) fn quanta_of(harts: &[SavedHart]) -> u128
    requires few { length harts.now ≤ 8 }
    ensures sum { result ≡ sum_by (λ h. length h.quanta) harts.now }
    ensures bound { result ≤ 8 * 2 ^ 64 }
{
    let mut sum = 0u128;
    for hart in harts {
        sum += hart.quanta.len() as u128;
    }
    sum
}

//! Laws about the definitions of `specs/`: each is the contract of a function that does nothing.

ghost use Rattle.isa_model.specs.LatchOrder.{is_before, IsStrictTotalOrder};
ghost use Rattle.isa_model.specs.Control.{ControlTellsEndKind};
ghost use Rattle.isa_model.specs.Laws.{WritesEachLatchOnce, ZeroRegisterStays, PcIsAligned, DividesTowardsZero};

/// The order of latches is strict, and total on the latches that there are.
pub fn latch_order_is_total()
    ensures law { IsStrictTotalOrder is_before }
{}

/// An instruction writes a latch at most once.
pub fn latch_written_once()
    ensures law { WritesEachLatchOnce }
{}

/// In the run alone x0 is 0 after any number of instructions.
pub fn zero_register_stays()
    ensures law { ZeroRegisterStays }
{}

/// The pc of the run alone is a multiple of 4 where the code's address is.
pub fn pc_is_aligned()
    ensures law { PcIsAligned }
{}

/// Tasks of equal fuel and equal control have one kind of end.
pub fn control_tells_end_kind()
    ensures law { ControlTellsEndKind }
{}

/// A signed division by another number than 0 rounds towards zero, and its remainder is what is left.
pub fn division_rounds_towards_zero()
    ensures law { DividesTowardsZero }
{}

//! A law about wedged harts: it is the contract of a function that does nothing.

ghost use Rattle.hart_model.specs.Wedges.{WedgedExactly};

/// A step in machine mode is wedged exactly where its instruction would raise an exception (there is no code word at the pc, the word
/// is no instruction, a call of the environment or a breakpoint, a misaligned target of a jump or of a taken branch, a misaligned
/// access or one of what machine mode doesn't reach, a CSR that there isn't or that is read only), where a port's condition fails,
/// where it would put a tagged value into a CSR other than mscratch, where it jumps by a tagged register, and where it would enter
/// user mode while nothing is held.
pub fn wedged_exactly()
    ensures law { WedgedExactly }
{}

//! The kernel's text, in the order and the groups of its definition.

ghost use Rattle.std.specs.Prelude.{◌≡◌, ◌<◌, ◌++◌, flat_map, OnOk};
ghost use Rattle.core_model.specs.KernelText.{saved, saved_bound, registers_but_x5, save_register, save_lines, cause_lines, interrupt_lines, service_lines, yield_lines, exit_lines, out_lines, in_lines, finish_lines, ready_lines, take_lines, middle_lines, restore_lines, last_lines, kernel_lines};

use crate::label::Label;
use crate::line::Line;
use crate::mnemonics::{
    MCAUSE, MEPC, MSCRATCH, PMPADDR0, X0, X5, X6, X7, addi, at, beq, blt, clear_load, clear_store,
    csrrs, csrrw, jal, lui, lw, mret, mul, port, sw,
};
use crate::text::Text;
use hart_model::Port;
use std::alloc::AllocError;

/// The word of a slot that keeps the pc, as an offset in bytes from the slot's address.
const SAVED_PC: u16 = 0;

/// The word of a slot that keeps a register.
pub fn saved(register: u8) -> u16
    requires register { register < 32 }
    ensures offset { result ≡ saved register }
{
    4 * u16::from(register)
}

/// The word of a slot that keeps a bound of the protection.
fn saved_bound(bound: u8) -> u16
    requires bound { bound < 4 }
    ensures offset { result ≡ saved_bound bound }
{
    4 * (32 + u16::from(bound))
}

/// A register goes to its slot word, which is written 0 before; the register is 0 then.
fn save_register(register: u8) -> [Line; 3]
    requires register { register < 32 }
    ensures lines { result ≡ save_register register }
{
    [
        sw(X0, saved(register), X5),
        sw(register, saved(register), X5),
        addi(register, X0, 0),
    ]
}

/// Every register but x5 goes to its slot word.
fn append_saves(text: &mut Text) -> Result<(), AllocError>
    ensures lines { OnOk result (text.new ≡ text.old ++ flat_map save_register registers_but_x5) }
{
    for register in 1..32 {
        if register != X5 {
            text.append(save_register(register))?;
        }
    }
    Ok(())
}

/// The save part. The first instruction clears the operand ports and the multiplier before x5 is read. x5 is kept in mscratch
/// meanwhile, which has the slot's address again at the end.
pub fn append_save(text: &mut Text) -> Result<(), AllocError>
    ensures lines { OnOk result (text.new ≡ text.old ++ save_lines) }
{
    text.append([
        at(Label::Entry),
        mul(X0, X0, X0),
        csrrw(X5, MSCRATCH, X5),
        clear_store(),
        clear_load(),
    ])?;
    append_saves(text)?;
    text.append([
        clear_store(),
        csrrs(X6, MSCRATCH, X0),
        sw(X0, saved(X5), X5),
        sw(X6, saved(X5), X5),
        addi(X6, X0, 0),
        clear_store(),
        csrrw(X0, MSCRATCH, X5),
    ])
}

/// By the cause: ECALL is a service, an interrupt is negative, and every other one ends the task.
fn cause_lines() -> [Line; 8]
    ensures lines { result ≡ cause_lines }
{
    [
        csrrs(X6, MEPC, X0),
        sw(X6, SAVED_PC, X5),
        csrrs(X7, MCAUSE, X0),
        addi(X6, X0, 8),
        beq(X7, X6, Label::Service),
        blt(X7, X0, Label::Interrupt),
        sw(X7, port(Port::Fault), X0),
        jal(X0, Label::Finish),
    ]
}

/// The timer gives the task back; used fuel ends it.
fn interrupt_lines() -> [Line; 9]
    ensures lines { result ≡ interrupt_lines }
{
    [
        at(Label::Interrupt),
        lui(X6, 0x80000),
        addi(X6, X6, 7),
        beq(X7, X6, Label::Timer),
        sw(X7, port(Port::Fault), X0),
        jal(X0, Label::Finish),
        at(Label::Timer),
        sw(X0, port(Port::Ack), X0),
        jal(X0, Label::Ready),
    ]
}

/// A service goes on after its ECALL, and is told by a7.
fn service_lines() -> [Line; 17]
    ensures lines { result ≡ service_lines }
{
    [
        at(Label::Service),
        lw(X6, SAVED_PC, X5),
        addi(X6, X6, 4),
        sw(X6, SAVED_PC, X5),
        lw(X6, saved(17), X5),
        clear_load(),
        beq(X6, X0, Label::DoExit),
        addi(X7, X0, 1),
        beq(X6, X7, Label::DoOut),
        addi(X7, X0, 2),
        beq(X6, X7, Label::DoIn),
        addi(X7, X0, 3),
        beq(X6, X7, Label::DoYield),
        addi(X6, X0, 0),
        addi(X7, X0, 0x102),
        sw(X7, port(Port::Fault), X0),
        jal(X0, Label::Finish),
    ]
}

/// Yield: the task goes on later.
fn yield_lines() -> [Line; 3]
    ensures lines { result ≡ yield_lines }
{
    [at(Label::DoYield), addi(X6, X0, 0), jal(X0, Label::Ready)]
}

/// Exit: the task ends with a0.
fn exit_lines() -> [Line; 8]
    ensures lines { result ≡ exit_lines }
{
    [
        at(Label::DoExit),
        addi(X6, X0, 0),
        lw(X6, saved(10), X5),
        sw(X6, port(Port::Exit), X0),
        addi(X6, X0, 0),
        clear_store(),
        clear_load(),
        jal(X0, Label::Finish),
    ]
}

/// Out: a0 goes to the output, if that has room.
fn out_lines() -> [Line; 14]
    ensures lines { result ≡ out_lines }
{
    [
        at(Label::DoOut),
        addi(X6, X0, 0),
        lw(X6, port(Port::OutLeft), X0),
        beq(X6, X0, Label::OutFull),
        lw(X6, saved(10), X5),
        sw(X6, port(Port::Out), X0),
        addi(X6, X0, 0),
        clear_store(),
        clear_load(),
        jal(X0, Label::Ready),
        at(Label::OutFull),
        addi(X7, X0, 0x101),
        sw(X7, port(Port::Fault), X0),
        jal(X0, Label::Finish),
    ]
}

/// In: a0 gets the next word of the tape, if there is one.
fn in_lines() -> [Line; 15]
    ensures lines { result ≡ in_lines }
{
    [
        at(Label::DoIn),
        addi(X6, X0, 0),
        lw(X6, port(Port::TapeLeft), X0),
        beq(X6, X0, Label::TapeEnd),
        sw(X0, saved(10), X5),
        lw(X6, port(Port::Tape), X0),
        sw(X6, saved(10), X5),
        addi(X6, X0, 0),
        clear_store(),
        clear_load(),
        jal(X0, Label::Ready),
        at(Label::TapeEnd),
        addi(X7, X0, 0x100),
        sw(X7, port(Port::Fault), X0),
        jal(X0, Label::Finish),
    ]
}

/// An ended task is given back with its slot scrubbed.
fn append_finish(text: &mut Text) -> Result<(), AllocError>
    ensures lines { OnOk result (text.new ≡ text.old ++ finish_lines) }
{
    text.append([at(Label::Finish)])?;
    for register in 1..32 {
        text.append([sw(X0, saved(register), X5)])?;
    }
    text.append([
        addi(X6, X0, 1),
        sw(X6, port(Port::Give), X0),
        jal(X0, Label::Take),
    ])
}

/// A task that goes on later is given back.
fn ready_lines() -> [Line; 2]
    ensures lines { result ≡ ready_lines }
{
    [at(Label::Ready), sw(X0, port(Port::Give), X0)]
}

/// The next context: its slot's address goes to mscratch, its bounds to the protection, its pc to mepc.
pub fn take_lines() -> [Line; 14]
    ensures lines { result ≡ take_lines }
{
    [
        at(Label::Take),
        lw(X5, port(Port::Take), X0),
        beq(X5, X0, Label::Idle),
        csrrw(X0, MSCRATCH, X5),
        lw(X6, saved_bound(0), X5),
        csrrw(X0, PMPADDR0, X6),
        lw(X6, saved_bound(1), X5),
        csrrw(X0, PMPADDR0 + 1, X6),
        lw(X6, saved_bound(2), X5),
        csrrw(X0, PMPADDR0 + 2, X6),
        lw(X6, saved_bound(3), X5),
        csrrw(X0, PMPADDR0 + 3, X6),
        lw(X6, SAVED_PC, X5),
        csrrw(X0, MEPC, X6),
    ]
}

/// What stands between the save part and the restore part.
pub fn append_middle(text: &mut Text) -> Result<(), AllocError>
    ensures lines { OnOk result (text.new ≡ text.old ++ middle_lines) }
{
    text.append(cause_lines())?;
    text.append(interrupt_lines())?;
    text.append(service_lines())?;
    text.append(yield_lines())?;
    text.append(exit_lines())?;
    text.append(out_lines())?;
    text.append(in_lines())?;
    append_finish(text)?;
    text.append(ready_lines())?;
    text.append(take_lines())
}

/// The restore part: each register from its slot word; x5 is the last.
pub fn append_restore(text: &mut Text) -> Result<(), AllocError>
    ensures lines { OnOk result (text.new ≡ text.old ++ restore_lines) }
{
    for register in 1..32 {
        if register != X5 {
            text.append([lw(register, saved(register), X5), clear_load()])?;
        }
    }
    text.append([lw(X5, saved(X5), X5), clear_load()])
}

/// The return to the task, and the loop of a hart whose take was empty.
pub fn append_last(text: &mut Text) -> Result<(), AllocError>
    ensures lines { OnOk result (text.new ≡ text.old ++ last_lines) }
{
    text.append([mret(), at(Label::Idle), jal(X0, Label::Idle)])
}

/// The kernel's text.
pub fn append_kernel(text: &mut Text) -> Result<(), AllocError>
    ensures lines { OnOk result (text.new ≡ text.old ++ kernel_lines) }
{
    append_save(text)?;
    append_middle(text)?;
    append_restore(text)?;
    append_last(text)
}

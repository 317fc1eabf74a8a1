//! The lines of code of a chain of gates.

ghost use Rattle.std.specs.Prelude.{◌≡◌, ◌++◌, IfOk, OnOk};
ghost use Rattle.bundle_text.specs.Pieces.{texts};
ghost use Rattle.std.specs.List.{flat_map};
ghost use Rattle.masked_gen.specs.Code.{cleared, start_lines, xor_lines, and_lines, gate_lines, end_lines, code_lines};

use crate::gate::Gate;
use bundle_text::Line;
use core_model::Items;
use std::alloc::{AllocError, Global};

/// Adds lines.
fn add_lines(alloc: Global, lines: &[&[u8]], code: &mut Items<Line>) -> Result<(), AllocError>
    ensures ok { OnOk result (code.new ≡ code.old ++ texts lines.now) }
{
    for line in lines {
        code.push(Items::new(Vec::from_slice(alloc, line)?))?;
    }
    Ok(())
}

/// Adds operations, each with the line that clears after it.
fn add_cleared(
    alloc: Global,
    operations: &[&[u8]],
    code: &mut Items<Line>,
) -> Result<(), AllocError>
    ensures ok { OnOk result (code.new ≡ code.old ++ flat_map cleared (texts operations.now)) }
{
    for operation in operations {
        add_lines(alloc, &[*operation, b"add x0,x0,x0"], code)?;
    }
    Ok(())
}

/// Adds the lines of an Xor.
fn add_xor(alloc: Global, code: &mut Items<Line>) -> Result<(), AllocError>
    ensures ok { OnOk result (code.new ≡ code.old ++ xor_lines) }
{
    add_cleared(alloc, &[b"xor x1,x1,x3", b"xor x2,x2,x4"], code)
}

/// Adds the lines of an And.
fn add_and(alloc: Global, code: &mut Items<Line>) -> Result<(), AllocError>
    ensures ok { OnOk result (code.new ≡ code.old ++ and_lines) }
{
    let mask: [&[u8]; 3] = [b"ecall", b"addi x5,x10,0", b"addi x10,x0,0"];
    let products: [&[u8]; 10] = [
        b"and x6,x1,x4",
        b"xor x6,x6,x5",
        b"and x7,x1,x3",
        b"xor x7,x7,x6",
        b"and x8,x2,x3",
        b"xor x8,x8,x5",
        b"and x9,x2,x4",
        b"xor x9,x9,x8",
        b"addi x1,x7,0",
        b"addi x2,x9,0",
    ];
    let emptied: [&[u8]; 5] = [
        b"addi x5,x0,0",
        b"addi x6,x0,0",
        b"addi x7,x0,0",
        b"addi x8,x0,0",
        b"addi x9,x0,0",
    ];
    add_lines(alloc, &mask, code)?;
    add_cleared(alloc, &products, code)?;
    add_lines(alloc, &emptied, code)?;
    Ok(())
}

/// Adds the lines of gates.
fn add_gates(alloc: Global, gates: &[Gate], code: &mut Items<Line>) -> Result<(), AllocError>
    ensures ok { OnOk result (code.new ≡ code.old ++ flat_map gate_lines gates.now) }
{
    for gate in gates {
        match gate {
            Gate::Xor => add_xor(alloc, code)?,
            Gate::And => add_and(alloc, code)?,
        }
    }
    Ok(())
}

/// Adds the lines by which the shares come from the tape.
fn add_start(alloc: Global, code: &mut Items<Line>) -> Result<(), AllocError>
    ensures ok { OnOk result (code.new ≡ code.old ++ start_lines) }
{
    let lines: [&[u8]; 13] = [
        b"addi x17,x0,2",
        b"ecall",
        b"addi x1,x10,0",
        b"addi x10,x0,0",
        b"ecall",
        b"addi x2,x10,0",
        b"addi x10,x0,0",
        b"ecall",
        b"addi x3,x10,0",
        b"addi x10,x0,0",
        b"ecall",
        b"addi x4,x10,0",
        b"addi x10,x0,0",
    ];
    add_lines(alloc, &lines, code)
}

/// Adds the lines that put out the shares of the result and end the task.
fn add_end(alloc: Global, code: &mut Items<Line>) -> Result<(), AllocError>
    ensures ok { OnOk result (code.new ≡ code.old ++ end_lines) }
{
    let lines: [&[u8]; 10] = [
        b"addi x17,x0,1",
        b"addi x10,x1,0",
        b"ecall",
        b"addi x10,x0,0",
        b"add x0,x0,x0",
        b"addi x10,x2,0",
        b"ecall",
        b"addi x10,x0,0",
        b"addi x17,x0,0",
        b"ecall",
    ];
    add_lines(alloc, &lines, code)
}

/// The code of a chain of gates, one instruction on each line.
pub(crate) fn code_of(alloc: Global, gates: &[Gate]) -> Result<Items<Line>, AllocError>
    ensures lines { IfOk result (λ code. code ≡ code_lines gates.now) }
{
    let mut code = Items::empty(alloc);
    add_start(alloc, &mut code)?;
    add_gates(alloc, gates, &mut code)?;
    add_end(alloc, &mut code)?;
    Ok(code)
}

//! The latches that an instruction writes, in the order of latches.

ghost use Rattle.std.specs.Prelude.{◌≡◌, ◌<◌, ◌++◌, OnOk, IfSome};
ghost use Rattle.core_model.specs.Places.{served_latches};
ghost use Rattle.probe_inspect.specs.LatchList.{register_latch, port_latch, result_latch, unit_latches, latches_in_order};

use isa_model::{Deed, Latch, RegNo};
use rv_effect::{RegisterWrite, Traced, UnitWrite, Writes};
use std::alloc::AllocError;

/// Adds the register that an instruction writes, but for x0.
fn add_register(
    latches: &mut Vec<Latch>,
    register: &Option<RegisterWrite>,
) -> Result<(), AllocError>
    ensures added { OnOk result (latches.new.items ≡ latches.old.items ++ register_latch register.now) }
    ensures number { IfSome register.now (λ w. w.rd < 32) }
{
    if let Some(register) = register {
        let number = register.rd.num();
        if number != 0 {
            latches.push(Latch::Reg(register.rd))?;
        }
    }
    Ok(())
}

/// Adds an operand port, if an instruction writes it.
fn add_port(latches: &mut Vec<Latch>, port: Latch, value: &Option<u32>) -> Result<(), AllocError>
    ensures added { OnOk result (latches.new.items ≡ latches.old.items ++ port_latch port value.now) }
{
    if let Some(_value) = value {
        latches.push(port)?;
    }
    Ok(())
}

/// Adds the result of the arithmetic unit, if an instruction writes it.
fn add_result(latches: &mut Vec<Latch>, res: &Option<Traced>) -> Result<(), AllocError>
    ensures added { OnOk result (latches.new.items ≡ latches.old.items ++ result_latch res.now) }
{
    if let Some(_res) = res {
        latches.push(Latch::Res)?;
    }
    Ok(())
}

/// Adds the latches of a unit of its own.
fn add_unit(latches: &mut Vec<Latch>, unit: &UnitWrite) -> Result<(), AllocError>
    ensures added { OnOk result (latches.new.items ≡ latches.old.items ++ unit_latches unit.now) }
{
    match unit {
        UnitWrite::Nothing => {}
        UnitWrite::Multiplies(_) => {
            latches.push(Latch::Mul)?;
        }
        UnitWrite::Loads(_) => {
            latches.push(Latch::Load)?;
        }
        UnitWrite::Stores { at, .. } => {
            latches.push(Latch::Store)?;
            latches.push(Latch::Mem(*at / 4 * 4))?;
        }
        UnitWrite::Scratches(_) => {
            latches.push(Latch::Scr)?;
        }
    }
    Ok(())
}

/// Adds the latches of writes, in the order of latches.
pub(crate) fn add_latches(latches: &mut Vec<Latch>, writes: &Writes) -> Result<(), AllocError>
    ensures added { OnOk result (latches.new.items ≡ latches.old.items ++ latches_in_order writes.now) }
    ensures number { IfSome writes.now.register (λ w. w.rd < 32) }
{
    add_register(latches, &writes.register)?;
    add_port(latches, Latch::PortA, &writes.port_a)?;
    add_port(latches, Latch::PortB, &writes.port_b)?;
    add_result(latches, &writes.res)?;
    add_unit(latches, &writes.unit)
}

/// The register a0, which the service `in` writes.
fn a0() -> RegNo
    ensures number { result ≡ 10 }
{
    match RegNo::new(10) {
        Some(register) => register,
        None => unreachable!(),
    }
}

/// Adds the register that a service writes.
pub(crate) fn add_served(latches: &mut Vec<Latch>, deed: Deed) -> Result<(), AllocError>
    ensures added { OnOk result (latches.new.items ≡ latches.old.items ++ served_latches deed) }
{
    match deed {
        Deed::Called(number) => {
            if number == 2 {
                latches.push(Latch::Reg(a0()))?;
            }
        }
        _ => {}
    }
    Ok(())
}

//! The kernel's code against the assembler's reading of the same text.

use rv_asm::assemble;
use std::alloc::{AllocError, Global};
use std::test::Fail;
use switch_emit::kernel_code;

/// The lines before the registers are saved, and those up to where they are scrubbed.
const ENTRY: &str = "\
entry: mul x0,x0,x0
csrrw x5,mscratch,x5
sw x0,0x100(x0)
lw x0,0x100(x0)
";

const MIDDLE: &str = "\
sw x0,0x100(x0)
csrrs x6,mscratch,x0
sw x0,20(x5)
sw x6,20(x5)
addi x6,x0,0
sw x0,0x100(x0)
csrrw x0,mscratch,x5
csrrs x6,mepc,x0
sw x6,0(x5)
csrrs x7,mcause,x0
addi x6,x0,8
beq x7,x6,service
blt x7,x0,interrupt
sw x7,0x718(x0)
jal x0,finish
interrupt: lui x6,0x80000
addi x6,x6,7
beq x7,x6,timer
sw x7,0x718(x0)
jal x0,finish
timer: sw x0,0x71c(x0)
jal x0,ready
service: lw x6,0(x5)
addi x6,x6,4
sw x6,0(x5)
lw x6,68(x5)
lw x0,0x100(x0)
beq x6,x0,do_exit
addi x7,x0,1
beq x6,x7,do_out
addi x7,x0,2
beq x6,x7,do_in
addi x7,x0,3
beq x6,x7,do_yield
addi x6,x0,0
addi x7,x0,0x102
sw x7,0x718(x0)
jal x0,finish
do_yield: addi x6,x0,0
jal x0,ready
do_exit: addi x6,x0,0
lw x6,40(x5)
sw x6,0x714(x0)
addi x6,x0,0
sw x0,0x100(x0)
lw x0,0x100(x0)
jal x0,finish
do_out: addi x6,x0,0
lw x6,0x720(x0)
beq x6,x0,out_full
lw x6,40(x5)
sw x6,0x708(x0)
addi x6,x0,0
sw x0,0x100(x0)
lw x0,0x100(x0)
jal x0,ready
out_full: addi x7,x0,0x101
sw x7,0x718(x0)
jal x0,finish
do_in: addi x6,x0,0
lw x6,0x710(x0)
beq x6,x0,tape_end
sw x0,40(x5)
lw x6,0x70c(x0)
sw x6,40(x5)
addi x6,x0,0
sw x0,0x100(x0)
lw x0,0x100(x0)
jal x0,ready
tape_end: addi x7,x0,0x100
sw x7,0x718(x0)
jal x0,finish
finish:
";

/// The lines from the give of a task that has ended to the registers that are restored, and the last ones.
const TAKE: &str = "\
addi x6,x0,1
sw x6,0x704(x0)
jal x0,take
ready: sw x0,0x704(x0)
take: lw x5,0x700(x0)
beq x5,x0,idle
csrrw x0,mscratch,x5
lw x6,128(x5)
csrrw x0,pmpaddr0,x6
lw x6,132(x5)
csrrw x0,pmpaddr1,x6
lw x6,136(x5)
csrrw x0,pmpaddr2,x6
lw x6,140(x5)
csrrw x0,pmpaddr3,x6
lw x6,0(x5)
csrrw x0,mepc,x6
";

const LAST: &str = "\
lw x5,20(x5)
lw x0,0x100(x0)
mret
idle: jal x0,idle
";

/// The kernel's text, with its repeated lines written out.
fn kernel_text(alloc: Global) -> Result<String, AllocError> {
    let mut text = String::from_str(alloc, ENTRY)?;
    for register in 1..32_u32 {
        if register != 5 {
            let at = 4 * register;
            let lines = format!(in alloc;
                "sw x0,{at}(x5)\nsw x{register},{at}(x5)\naddi x{register},x0,0\n"
            )?;
            text.push_str(lines.as_str())?;
        }
    }
    text.push_str(MIDDLE)?;
    for register in 1..32_u32 {
        let at = 4 * register;
        let line = format!(in alloc; "sw x0,{at}(x5)\n")?;
        text.push_str(line.as_str())?;
    }
    text.push_str(TAKE)?;
    for register in 1..32_u32 {
        if register != 5 {
            let at = 4 * register;
            let lines = format!(in alloc; "lw x{register},{at}(x5)\nlw x0,0x100(x0)\n")?;
            text.push_str(lines.as_str())?;
        }
    }
    text.push_str(LAST)?;
    Ok(text)
}

/// The words that the assembler makes of the text are those of the kernel's code.
#[test]
fn words_of_the_text(rt: HostRuntime) -> Result<(), Fail> {
    let alloc = rt.alloc();
    let text = kernel_text(alloc)?;
    let mut lines = Vec::new(alloc);
    for line in text.as_str().lines() {
        lines.push(line.as_bytes().to_vec(alloc)?)?;
    }
    assert!(rt; lines.len() < 1000);
    let read = assemble(alloc, lines.as_slice(), 1)?;
    let code = kernel_code(alloc)?;
    assert_eq!(rt; read.words.as_slice(), code.words.as_slice());
    assert_eq!(rt; code.words.len(), 278);
    Ok(())
}

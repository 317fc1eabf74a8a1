//! Texts that no command writes, and the edge over std's readers and writers.

use bundle_text::{read_bundle, write_bundle};
use io_edge::{StdSink, StdSource, WriteEnd, read_all, write_all};
use report_text::order_line;
use rv_asm::disassemble;
use std::test::Fail;

/// Words, and the lines that they are written as.
const WORDS: [u32; 10] = [
    0x02a0_0513,
    0x0010_0893,
    0x0000_0073,
    0xfe00_0ee3,
    0x00c0_006f,
    0x0000_0000,
    0x8330_000f,
    0x0ff0_000f,
    0x3402_92f3,
    0x0200_0033,
];

const LINES: &str = "\
addi x10,x0,42
addi x17,x0,1
ecall
beq x0,x0,.-4
jal x0,.+12
.word 0x00000000
.word 0x8330000f
fence
csrrw x5,0x340,x5
mul x0,x0,x0
";

/// A bundle without tasks, as it is written.
const BUNDLE: &str = "\
bundle 1
slots 8
plan 7 tail 4096 quanta 0 4096
plan 0 tail 1
world 4294967295 00000001 80000000
world 0 00000000 0000000a
events g0 t7*1048576 g3*2
order 0*10 1
";

#[test]
fn written(rt: HostRuntime) -> Result<(), Fail> {
    let alloc = rt.alloc();
    assert_eq!(rt;
        str::from_utf8(disassemble(alloc, &WORDS)?.as_slice())?,
        LINES
    );
    assert_eq!(rt;
        str::from_utf8(order_line(alloc, &[])?.as_slice())?,
        "order\n"
    );
    assert_eq!(rt;
        str::from_utf8(order_line(alloc, &[7, 0, 0])?.as_slice())?,
        "order 7 0*2\n"
    );
    let bundle = read_bundle(alloc, BUNDLE.as_bytes())?;
    assert!(rt; bundle.tasks.is_empty());
    assert_eq!(rt;
        str::from_utf8(write_bundle(alloc, &bundle)?.as_slice())?,
        BUNDLE
    );
    Ok(())
}

#[test]
fn through_std(rt: HostRuntime) -> Result<(), Fail> {
    let alloc = rt.alloc();
    let text = b"bundle 1".as_slice();
    let bytes = read_all(alloc, &mut StdSource::new(text), 8)?;
    assert_eq!(rt; bytes.as_slice(), text);
    let mut taken = Vec::new(alloc);
    write_all(&mut StdSink::new(&mut taken), text)?;
    assert_eq!(rt; taken.as_slice(), text);
    // A slice that is full takes no byte.
    let mut room = [0; 3];
    let refused = write_all(&mut StdSink::new(room.as_mut_slice()), text).err();
    assert_eq!(rt; refused, Some(WriteEnd::WriteFault { gone: 3 }));
    assert_eq!(rt; room, *b"bun");
    Ok(())
}

//! Control and status registers, and protection, as the privileged manual has them within this machine's profile.

use csr_trap::{Cell, Csrs, Tag};
use hart_model::Access;
use mem_protect::{Mode, Pmp};
use std::test::Fail;

/// The number of a register of a hart's control, what it has at boot, a word that is written, and what it has then.
const REGISTERS: [(u16, u32, u32, u32); 14] = [
    (0x300, 0, 0xffff_ffff, 0x1888),
    (0x300, 0x1888, 0x0800, 0),
    (0x304, 0x1_0080, 0xffff_ff7f, 0x1_0000),
    (0x305, 0x1000, 0x2003, 0x2000),
    (0x340, 0, 0xffff_ffff, 0xffff_ffff),
    (0x341, 0, 0x10_0007, 0x10_0004),
    (0x342, 0, 0x8000_0010, 0x8000_0010),
    (0x343, 0, 5, 0),
    (0x344, 0, 0xffff_ffff, 0),
    (0x3a0, 0x0b00_0d00, 0xff02_ff06, 0x1f00_1f04),
    (0x3b0, 0, 0x4_0000, 0x4_0000),
    (0x3b1, 0, 0x4_0002, 0x4_0002),
    (0x3b2, 0, 0x4_2000, 0x4_2000),
    (0x3b3, 0, 0xffff_ffff, 0xffff_ffff),
];

/// The numbers of registers that this machine hasn't.
const MISSING: [u16; 6] = [0x301, 0x306, 0x3a1, 0x3b4, 0xf11, 0xb00];

#[test]
fn registers(rt: HostRuntime) -> Result<(), Fail> {
    let tag = Tag::Public;
    let mut csrs = Csrs::new(2);
    for (no, before, value, after) in &REGISTERS {
        assert_eq!(rt;
            csrs.read(*no),
            Some(Cell {
                value: *before,
                tag
            }),
            "of {no:#x}"
        );
        assert!(rt; csrs.write(*no, Cell { value: *value, tag }), "of {no:#x}");
        assert_eq!(rt;
            csrs.read(*no),
            Some(Cell { value: *after, tag }),
            "of {no:#x}"
        );
    }
    for no in &MISSING {
        assert!(rt;
            csrs.read(*no).is_none() && !csrs.write(*no, Cell { value: 0, tag }),
            "of {no:#x}"
        );
    }
    // The number of the hart is read alone, and only the scratch register takes what isn't public.
    assert!(rt; !csrs.write(0xf14, Cell { value: 1, tag }));
    assert_eq!(rt; csrs.read(0xf14), Some(Cell { value: 2, tag }));
    let value = 0x200;
    let tag = Tag::Many;
    assert!(rt; !csrs.write(0x341, Cell { value, tag }) && csrs.write(0x340, Cell { value, tag }));
    Ok(())
}

/// An access in user mode by its address, size and kind, and whether it is allowed. Protected are four bytes without a permission, sixteen
/// bytes to read, a range to fetch, and all that there is to write.
const ACCESSES: [(u32, u32, Access, bool); 12] = [
    (0x400, 4, Access::Read, false),
    (0x400, 4, Access::Write, false),
    (0x403, 1, Access::Read, false),
    (0x404, 4, Access::Read, true),
    (0x40e, 2, Access::Read, true),
    (0x40c, 4, Access::Fetch, false),
    (0x410, 4, Access::Fetch, true),
    (0x7fc, 4, Access::Fetch, true),
    (0x800, 4, Access::Fetch, false),
    (0x800, 4, Access::Write, true),
    (0xffff_fffc, 4, Access::Write, true),
    (0x3fc, 4, Access::Write, true),
];

#[test]
fn protection(rt: HostRuntime) -> Result<(), Fail> {
    let mut pmp = Pmp::new();
    assert!(rt; !pmp.allows(Mode::User, 0x400, 4, Access::Read));
    assert!(rt; pmp.allows(Mode::Machine, 0x400, 4, Access::Write));
    pmp.set_cfg(0x9b0c_9990);
    pmp.set_addr(0, 0x100);
    pmp.set_addr(1, 0x101);
    pmp.set_addr(2, 0x200);
    pmp.set_addr(3, 0xffff_ffff);
    for (addr, size, kind, wanted) in &ACCESSES {
        assert_eq!(rt;
            pmp.allows(Mode::User, *addr, *size, *kind),
            *wanted,
            "{kind:?} of {size} at {addr:#x}"
        );
    }
    Ok(())
}

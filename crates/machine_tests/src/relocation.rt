use crate::rows::holds;
use core_bank::reloc_protect::{Outside, Registers};

// The first block and the blocks of a program, an address, and where that lies in core.
static ADDRESSES: [(u8, u8, u16, Result<u16, Outside>); 16] = [
    (0, 2, 0, Ok(0)),
    (0, 2, 511, Ok(511)),
    (0, 2, 512, Err(Outside)),
    (0, 2, 32767, Err(Outside)),
    (10, 2, 0, Ok(2560)),
    (10, 2, 511, Ok(3071)),
    (10, 2, 512, Err(Outside)),
    (127, 1, 0, Ok(32512)),
    (127, 1, 255, Ok(32767)),
    // Relocated, this address is word 0 of core.
    (127, 1, 256, Err(Outside)),
    (127, 1, 32767, Err(Outside)),
    (3, 2, 0, Ok(768)),
    (3, 2, 511, Ok(1279)),
    (3, 2, 512, Err(Outside)),
    (0, 128, 32767, Ok(32767)),
    (128, 0, 0, Err(Outside)),
];

#[test]
fn maps_addresses(rt: HostRuntime) {
    for (row, (base, blocks, address, at)) in ADDRESSES.iter().enumerate() {
        assert!(rt; *base <= 128 && *blocks <= 128 - *base);
        let registers = Registers::new(*base, *blocks);
        holds(&rt, row, registers.map(*address) == *at);
    }
}

#[test]
fn registers_compare(rt: HostRuntime) {
    assert!(rt; Registers::new(128, 0) != Registers::new(0, 0));
    assert!(rt; Registers::new(3, 2) == Registers::new(3, 2));
}

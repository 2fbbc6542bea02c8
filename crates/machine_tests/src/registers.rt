use crate::rows::holds;
use cpu_regs::{IndexRegisters, Regs};
use word36::Word;

#[test]
fn registers_begin_at_zero(rt: HostRuntime) {
    let regs = Regs::new();
    assert!(rt; !regs.ac.negative() && !regs.overflow && !regs.divide_check);
    assert!(rt; regs.ac.magnitude() == 0 && regs.mq == Word::signed(false, 0));
    assert!(rt; regs.ic == 0 && regs.xr(7) == 0);
    assert!(rt; IndexRegisters::new().get(3) == 0);
}

// Tags, and what the registers that they name hold.
static HELD: [(u8, u16); 4] = [(0, 0), (1, 5), (2, 0), (7, 32767)];

#[test]
fn tags_name_index_registers(rt: HostRuntime) {
    let mut regs = Regs::new();
    regs.set_xr(1, 5);
    regs.set_xr(7, 32767);
    regs.set_xr(0, 9);
    for (row, (tag, held)) in HELD.iter().enumerate() {
        assert!(rt; *tag < 8);
        holds(&rt, row, regs.xr(*tag) == *held);
    }
    assert!(rt; regs != Regs::new());
}

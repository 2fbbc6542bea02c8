//! Index registers, transfers and stops: what each instruction does.
ghost use Rattle.std.specs.Prelude.{◌≡◌, ◌<◌, ◌^◌, true};
ghost use Rattle.opcode_table.specs.Table.{kind_of};
ghost use Rattle.machine_model.specs.Index.{index_row};
ghost use Rattle.machine_model.specs.Results.{DoesNotHalt};
ghost use Rattle.machine_model.specs.Step.{complement, acc_address, acc_decrement, is_greater};
ghost use Rattle.cpu_step.specs.IndexFamilies.{is_index_load, is_index_store, is_transfer, is_count, is_stop};
ghost use Rattle.cpu_step.specs.Does.{IsAtPlace, DoesRow};

use arith36::{Side, compare};
use cpu_regs::{MemoryPort, OpEnd, Regs};
use opcode_table::{Instr, Kind, Op};
use word36::Acc;

/// Does an operation of this group at the place `y`.
#[inline(always)]
pub fn apply<M: MemoryPort>(regs: &mut Regs, core: &mut M, i: &Instr, y: u16) -> OpEnd
    requires kind { kind_of i.now.op ≡ Kind.Index }
    requires place { IsAtPlace i.now y regs.old }
    ensures does { DoesRow index_row i.now y result regs.old regs.new (M.words core.old) (M.words core.new) }
    ensures keeps { M.Keeps core.old core.new }
{
    match i.op {
        Op::Lxa
        | Op::Lxd
        | Op::Lac
        | Op::Ldc
        | Op::Axt
        | Op::Axc
        | Op::Pax
        | Op::Pdx
        | Op::Pac
        | Op::Pdc => load_index(regs, core, i, y),
        Op::Sxa | Op::Sxd | Op::Sca | Op::Scd | Op::Pxa | Op::Pxd | Op::Pca | Op::Pcd =>
            store_index(regs, core, i, y),
        Op::Tra
        | Op::Tze
        | Op::Tnz
        | Op::Tpl
        | Op::Tmi
        | Op::Tov
        | Op::Tno
        | Op::Tqp
        | Op::Tlq
        | Op::Tsx => transfer(regs, core, i, y),
        Op::Txi | Op::Tix | Op::Tnx | Op::Txh | Op::Txl => count(regs, core, i, y),
        Op::Nop => pass(regs, core, i, y),
        Op::Htr | Op::Hpr => stop(regs, core, i, y),
        _ => unreachable!(),
    }
}

/// Loads an index register.
#[inline(always)]
pub fn load_index<M: MemoryPort>(regs: &mut Regs, core: &mut M, i: &Instr, y: u16) -> OpEnd
    requires family { is_index_load i.now.op ≡ true }
    requires place { IsAtPlace i.now y regs.old }
    ensures does { DoesRow index_row i.now y result regs.old regs.new (M.words core.old) (M.words core.new) }
    ensures goes { DoesNotHalt result }
    ensures keeps { M.Keeps core.old core.new }
{
    match i.op {
        Op::Lxa => {
            let Ok(w) = core.load(y) else {
                return OpEnd::Outside(y);
            };
            regs.set_xr(i.tag, w.address());
            regs.skip(1);
            OpEnd::Went
        }
        Op::Lxd => {
            let Ok(w) = core.load(y) else {
                return OpEnd::Outside(y);
            };
            regs.set_xr(i.tag, w.decrement());
            regs.skip(1);
            OpEnd::Went
        }
        Op::Lac => {
            let Ok(w) = core.load(y) else {
                return OpEnd::Outside(y);
            };
            regs.set_xr(i.tag, complement(w.address()));
            regs.skip(1);
            OpEnd::Went
        }
        Op::Ldc => {
            let Ok(w) = core.load(y) else {
                return OpEnd::Outside(y);
            };
            regs.set_xr(i.tag, complement(w.decrement()));
            regs.skip(1);
            OpEnd::Went
        }
        Op::Axt => {
            regs.set_xr(i.tag, y);
            regs.skip(1);
            OpEnd::Went
        }
        Op::Axc => {
            regs.set_xr(i.tag, complement(y));
            regs.skip(1);
            OpEnd::Went
        }
        Op::Pax => {
            regs.set_xr(i.tag, address_of(regs.ac));
            regs.skip(1);
            OpEnd::Went
        }
        Op::Pdx => {
            regs.set_xr(i.tag, decrement_of(regs.ac));
            regs.skip(1);
            OpEnd::Went
        }
        Op::Pac => {
            regs.set_xr(i.tag, complement(address_of(regs.ac)));
            regs.skip(1);
            OpEnd::Went
        }
        Op::Pdc => {
            regs.set_xr(i.tag, complement(decrement_of(regs.ac)));
            regs.skip(1);
            OpEnd::Went
        }
        _ => unreachable!(),
    }
}

/// Stores an index register.
#[inline(always)]
pub fn store_index<M: MemoryPort>(regs: &mut Regs, core: &mut M, i: &Instr, y: u16) -> OpEnd
    requires family { is_index_store i.now.op ≡ true }
    requires place { IsAtPlace i.now y regs.old }
    ensures does { DoesRow index_row i.now y result regs.old regs.new (M.words core.old) (M.words core.new) }
    ensures goes { DoesNotHalt result }
    ensures keeps { M.Keeps core.old core.new }
{
    match i.op {
        Op::Sxa => {
            let Ok(w) = core.load(y) else {
                return OpEnd::Outside(y);
            };
            let _ = core.store(y, w.with_address(regs.xr(i.tag)));
            regs.skip(1);
            OpEnd::Went
        }
        Op::Sxd => {
            let Ok(w) = core.load(y) else {
                return OpEnd::Outside(y);
            };
            let _ = core.store(y, w.with_decrement(regs.xr(i.tag)));
            regs.skip(1);
            OpEnd::Went
        }
        Op::Sca => {
            let Ok(w) = core.load(y) else {
                return OpEnd::Outside(y);
            };
            let _ = core.store(y, w.with_address(complement(regs.xr(i.tag))));
            regs.skip(1);
            OpEnd::Went
        }
        Op::Scd => {
            let Ok(w) = core.load(y) else {
                return OpEnd::Outside(y);
            };
            let _ = core.store(y, w.with_decrement(complement(regs.xr(i.tag))));
            regs.skip(1);
            OpEnd::Went
        }
        Op::Pxa => {
            let magnitude = u64::from(regs.xr(i.tag));
            regs.ac.set(false, magnitude);
            regs.skip(1);
            OpEnd::Went
        }
        Op::Pxd => {
            let magnitude = u64::from(regs.xr(i.tag)) << 18;
            regs.ac.set(false, magnitude);
            regs.skip(1);
            OpEnd::Went
        }
        Op::Pca => {
            let magnitude = u64::from(complement(regs.xr(i.tag)));
            regs.ac.set(false, magnitude);
            regs.skip(1);
            OpEnd::Went
        }
        Op::Pcd => {
            let magnitude = u64::from(complement(regs.xr(i.tag))) << 18;
            regs.ac.set(false, magnitude);
            regs.skip(1);
            OpEnd::Went
        }
        _ => unreachable!(),
    }
}

/// Transfers by the registers and indicators.
#[inline(always)]
pub fn transfer<M: MemoryPort>(regs: &mut Regs, core: &mut M, i: &Instr, y: u16) -> OpEnd
    requires family { is_transfer i.now.op ≡ true }
    requires place { IsAtPlace i.now y regs.old }
    ensures does { DoesRow index_row i.now y result regs.old regs.new (M.words core.old) (M.words core.new) }
    ensures goes { DoesNotHalt result }
    ensures keeps { M.Keeps core.old core.new }
{
    match i.op {
        Op::Tra => {
            regs.jump(y);
            OpEnd::Went
        }
        Op::Tze => {
            regs.jump_if(regs.ac.magnitude() == 0, y);
            OpEnd::Went
        }
        Op::Tnz => {
            regs.jump_if(regs.ac.magnitude() != 0, y);
            OpEnd::Went
        }
        Op::Tpl => {
            regs.jump_if(!regs.ac.negative(), y);
            OpEnd::Went
        }
        Op::Tmi => {
            regs.jump_if(regs.ac.negative(), y);
            OpEnd::Went
        }
        Op::Tov => {
            let on = regs.overflow;
            regs.overflow = false;
            regs.jump_if(on, y);
            OpEnd::Went
        }
        Op::Tno => {
            let on = regs.overflow;
            regs.overflow = false;
            regs.jump_if(!on, y);
            OpEnd::Went
        }
        Op::Tqp => {
            regs.jump_if(!regs.mq.negative(), y);
            OpEnd::Went
        }
        Op::Tlq => {
            regs.jump_if(is_greater(compare(regs.ac, regs.mq)), y);
            OpEnd::Went
        }
        Op::Tsx => {
            regs.set_xr(i.tag, complement(regs.ic));
            regs.jump(y);
            OpEnd::Went
        }
        _ => unreachable!(),
    }
}

/// Counts an index register and transfers.
#[inline(always)]
pub fn count<M: MemoryPort>(regs: &mut Regs, core: &mut M, i: &Instr, y: u16) -> OpEnd
    requires family { is_count i.now.op ≡ true }
    requires place { IsAtPlace i.now y regs.old }
    ensures does { DoesRow index_row i.now y result regs.old regs.new (M.words core.old) (M.words core.new) }
    ensures goes { DoesNotHalt result }
    ensures keeps { M.Keeps core.old core.new }
{
    match i.op {
        Op::Txi => {
            regs.set_xr(i.tag, (regs.xr(i.tag) + i.decrement) & 0o77777);
            regs.jump(y);
            OpEnd::Went
        }
        Op::Tix => {
            let index = regs.xr(i.tag);
            if i.decrement < index {
                regs.set_xr(i.tag, index - i.decrement);
                regs.jump(y);
            } else {
                regs.skip(1);
            }
            OpEnd::Went
        }
        Op::Tnx => {
            let index = regs.xr(i.tag);
            if index > i.decrement {
                regs.set_xr(i.tag, index - i.decrement);
                regs.skip(1);
            } else {
                regs.jump(y);
            }
            OpEnd::Went
        }
        Op::Txh => {
            regs.jump_if(regs.xr(i.tag) > i.decrement, y);
            OpEnd::Went
        }
        Op::Txl => {
            regs.jump_if(regs.xr(i.tag) <= i.decrement, y);
            OpEnd::Went
        }
        _ => unreachable!(),
    }
}

/// Does nothing.
#[inline(always)]
pub fn pass<M: MemoryPort>(regs: &mut Regs, core: &mut M, i: &Instr, y: u16) -> OpEnd
    requires family { i.now.op ≡ Op.Nop }
    requires place { IsAtPlace i.now y regs.old }
    ensures does { DoesRow index_row i.now y result regs.old regs.new (M.words core.old) (M.words core.new) }
    ensures goes { DoesNotHalt result }
    ensures keeps { M.Keeps core.old core.new }
{
    regs.skip(1);
    OpEnd::Went
}

/// Stops.
#[inline(always)]
fn stop<M: MemoryPort>(regs: &mut Regs, core: &mut M, i: &Instr, y: u16) -> OpEnd
    requires family { is_stop i.now.op ≡ true }
    requires place { IsAtPlace i.now y regs.old }
    ensures does { DoesRow index_row i.now y result regs.old regs.new (M.words core.old) (M.words core.new) }
    ensures keeps { M.Keeps core.old core.new }
{
    match i.op {
        Op::Htr => {
            regs.jump(y);
            OpEnd::Halt
        }
        Op::Hpr => {
            regs.skip(1);
            OpEnd::Halt
        }
        _ => unreachable!(),
    }
}

/// The two's complement of 15 bits.
fn complement(v: u16) -> u16
    requires { v < 2 ^ 15 }
    ensures value { result ≡ complement v }
    ensures below { result < 2 ^ 15 }
{
    (0o100000 - v) & 0o77777
}

/// Positions 21 to 35 of the accumulator.
fn address_of(a: Acc) -> u16
    ensures value { result ≡ acc_address a }
    ensures below { result < 2 ^ 15 }
{
    (a.magnitude() & 0o77777) as u16
}

/// Positions 3 to 17 of the accumulator.
fn decrement_of(a: Acc) -> u16
    ensures value { result ≡ acc_decrement a }
    ensures below { result < 2 ^ 15 }
{
    (a.magnitude() >> 18 & 0o77777) as u16
}

/// Whether the accumulator is the greater.
fn is_greater(side: Side) -> bool
    ensures { result ≡ is_greater side }
{
    match side {
        Side::Greater => true,
        Side::Equal | Side::Less => false,
    }
}

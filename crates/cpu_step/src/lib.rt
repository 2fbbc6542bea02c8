//! One step of the machine, and what each instruction does, by groups: loads, stores and fixed-point arithmetic
//! (`fixed`); logic, shifts and sense indicators (`logic`); index registers, transfers and stops (`index`).
#![tactic(auto)]

pub mod fixed;
pub mod index;
pub mod logic;

ghost use Rattle.std.specs.Prelude.{◌≡◌, ◌≢◌, ◌<◌, ◌≤◌, ◌^◌, ◌%◌, ◌/◌, nat_eq, true, false, IfOk};
ghost use Rattle.opcode_table.specs.Table.{class_of, kind_of, row_of};
ghost use Rattle.opcode_table.specs.Words.{HasFields, decoded, fields_for};
ghost use Rattle.word36.specs.Bits.{prefix_of, tag_of};
ghost use Rattle.machine_model.specs.Machine.{step_of, instruction, executed, once, done, row, is_xec, place_of, place_in, indexed};
ghost use Rattle.machine_model.specs.Results.{ended};
ghost use Rattle.machine_model.specs.Runs.{many};
ghost use Rattle.machine_model.specs.Step.{went, at, entry};
ghost use Rattle.cpu_step.specs.Results.{outcome, stepped_by, is_addressed, Stays, Stands};

use cpu_regs::{MemoryPort, OpEnd, Regs};
use opcode_table::{
    Class, Instr, Kind, Op, Row, class, decode, decode_prefixed, instr_coded, kind, row_coded,
};
use word36::Word;

/// The prefix of TIX.
const TIX: u8 = 2;

/// How a step ended.
///
/// Where it went on or halted, registers and core are those after the instruction. Every other answer leaves both as
/// they were, the instruction counter too.
#[derive(Clone, Copy, Debug, PartialEq, Eq)]
pub enum Stepped {
    Went,
    /// A supervisor entry, with the word that names it.
    Entry(Word),
    Halt,
    /// A word that is no instruction, or an XEC of an XEC.
    Illegal,
    /// The address that is outside the core.
    Outside(u16),
}

/// Does one step: fetches the word at the instruction counter, decodes it, and does it. An XEC and the instruction that
/// it names are one step.
#[inline(always)]
pub fn step<M: MemoryPort>(regs: &mut Regs, core: &mut M) -> Stepped
    requires { regs.old.ic < 2 ^ 15 }
    ensures step_of { outcome result regs.new (M.words core.new) ≡ step_of regs.old (M.words core.old) }
    ensures stays { Stays result regs.old regs.new (M.words core.old) (M.words core.new) }
    ensures keeps { M.Keeps core.old core.new }
    ensures ic { regs.new.ic < 2 ^ 15 }
{
    let Ok(word) = core.load(regs.ic) else {
        return Stepped::Outside(regs.ic);
    };
    if word.prefix() & 3 != 0 {
        do_prefixed(regs, core, word)
    } else {
        do_coded(regs, core, word)
    }
}

/// Does the instruction that a word with a prefix is.
#[inline(never)]
fn do_prefixed<M: MemoryPort>(regs: &mut Regs, core: &mut M, word: Word) -> Stepped
    requires prefix { prefix_of word % 4 ≢ 0 }
    requires ic { regs.old.ic < 2 ^ 15 }
    ensures does { outcome result regs.new (M.words core.new)
        ≡ instruction (decoded word) (λ i. executed i regs.old (M.words core.old)) }
    ensures stays { Stays result regs.old regs.new (M.words core.old) (M.words core.new) }
    ensures keeps { M.Keeps core.old core.new }
    ensures ic { regs.new.ic < 2 ^ 15 }
{
    let Some(i) = decode_prefixed(word) else {
        return Stepped::Illegal;
    };
    as_step(index::apply(regs, core, &i, i.address))
}

/// Does the instruction that a word without a prefix is. Its row of the table is looked up once. What isn't a
/// supervisor entry stands apart, so that a call doesn't pay for the registers that it takes.
#[inline(always)]
fn do_coded<M: MemoryPort>(regs: &mut Regs, core: &mut M, word: Word) -> Stepped
    requires prefix { prefix_of word % 4 ≡ 0 }
    requires ic { regs.old.ic < 2 ^ 15 }
    ensures does { outcome result regs.new (M.words core.new)
        ≡ instruction (decoded word) (λ i. executed i regs.old (M.words core.old)) }
    ensures stays { Stays result regs.old regs.new (M.words core.old) (M.words core.new) }
    ensures keeps { M.Keeps core.old core.new }
    ensures ic { regs.new.ic < 2 ^ 15 }
{
    let Some(row) = row_coded(word) else {
        return Stepped::Illegal;
    };
    match row.4 {
        Kind::Tia => enter(regs, core, row, word),
        Kind::Fixed | Kind::Logic | Kind::Index | Kind::Xec => do_row(regs, core, row, word),
    }
}

/// A supervisor entry: the word at its place.
#[inline(always)]
fn enter<M: MemoryPort>(regs: &Regs, core: &M, known: &Row, word: Word) -> Stepped
    requires own { known.now ≡ row_of known.now.0 }
    requires kind { known.now.4 ≡ Kind.Tia }
    requires class { known.now.3 ≢ Class.Prefixed }
    ensures does { outcome result regs.now (M.words core.now)
        ≡ executed (fields_for known.now.3 word known.now) regs.now (M.words core.now) }
    ensures stays { Stays result regs.now regs.now (M.words core.now) (M.words core.now) }
{
    let y = match place_coded(regs, core, known.3, word) {
        Ok(y) => y,
        Err(address) => return Stepped::Outside(address),
    };
    entry_at(core, y)
}

/// The supervisor entry that the word at a place names.
#[inline(always)]
fn entry_at<M: MemoryPort>(core: &M, y: u16) -> Stepped
    ensures entry { (r : Regs) → outcome result r (M.words core.now) ≡ at (M.words core.now) y (λ w. entry w) }
    ensures stays { (r : Regs) → Stays result r r (M.words core.now) (M.words core.now) }
{
    match core.load(y) {
        Ok(word) => Stepped::Entry(word),
        Err(_) => Stepped::Outside(y),
    }
}

/// Does the instruction of a row whose other fields stand in a word.
#[inline(never)]
fn do_row<M: MemoryPort>(regs: &mut Regs, core: &mut M, known: &Row, word: Word) -> Stepped
    requires own { known.now ≡ row_of known.now.0 }
    requires class { known.now.3 ≢ Class.Prefixed }
    requires ic { regs.old.ic < 2 ^ 15 }
    ensures does { outcome result regs.new (M.words core.new)
        ≡ executed (fields_for known.now.3 word known.now) regs.old (M.words core.old) }
    ensures stays { Stays result regs.old regs.new (M.words core.old) (M.words core.new) }
    ensures keeps { M.Keeps core.old core.new }
    ensures ic { regs.new.ic < 2 ^ 15 }
{
    let i = instr_coded(known, word);
    execute(regs, core, known.3, known.4, &i)
}

/// Does as many steps as go on, at most so many, and says how many they were. It ends before a step that halts, that is a
/// supervisor entry or no instruction, or whose address is outside, and before an XEC or a DVH: such a step is not done.
#[tactic(auto, using(machine_model::proofs::Runs::many_none, machine_model::proofs::Runs::many_more))]
pub fn run<M: MemoryPort>(regs: &mut Regs, core: &mut M, most: u64) -> u64
    requires { regs.old.ic < 2 ^ 15 }
    ensures most { result ≤ most }
    ensures steps { many result regs.old (M.words core.old) ≡ went regs.new (M.words core.new) }
    ensures keeps { M.Keeps core.old core.new }
    ensures ic { regs.new.ic < 2 ^ 15 }
{
    let mut done = 0;
    'steps: while done < most {
        if !go(regs, core) {
            return done;
        }
        done += 1;
    }
    done
}

/// Does a step if it goes on, and is of no operation that a run leaves to `step`; else nothing. TIX, with which programs
/// count, is told first.
#[inline(always)]
fn go<M: MemoryPort>(regs: &mut Regs, core: &mut M) -> bool
    requires { regs.old.ic < 2 ^ 15 }
    ensures goes { result ≡ true → step_of regs.old (M.words core.old) ≡ went regs.new (M.words core.new) }
    ensures regs { result ≡ false → regs.new ≡ regs.old }
    ensures core { result ≡ false → M.words core.new ≡ M.words core.old }
    ensures keeps { M.Keeps core.old core.new }
    ensures ic { regs.new.ic < 2 ^ 15 }
{
    let Ok(fetched) = core.load(regs.ic) else {
        return false;
    };
    if fetched.prefix() == TIX {
        return go_prefixed(regs, core, fetched);
    }
    if fetched.prefix() & 3 != 0 {
        return go_prefixed(regs, core, fetched);
    }
    go_coded(regs, core, fetched)
}

/// Does the instruction that a word with a prefix is, if there is one; else nothing.
#[inline(always)]
#[tactic(auto, using(crate::proofs::Goes::prefixed_counts))]
fn go_prefixed<M: MemoryPort>(regs: &mut Regs, core: &mut M, word: Word) -> bool
    requires prefix { prefix_of word % 4 ≢ 0 }
    requires ic { regs.old.ic < 2 ^ 15 }
    ensures goes { result ≡ true → instruction (decoded word) (λ i. executed i regs.old (M.words core.old))
        ≡ went regs.new (M.words core.new) }
    ensures regs { result ≡ false → regs.new ≡ regs.old }
    ensures core { result ≡ false → M.words core.new ≡ M.words core.old }
    ensures keeps { M.Keeps core.old core.new }
    ensures ic { regs.new.ic < 2 ^ 15 }
{
    let Some(i) = decode_prefixed(word) else {
        return false;
    };
    match index::count(regs, core, &i, i.address) {
        OpEnd::Went => true,
        OpEnd::Halt | OpEnd::Outside(_) => false,
    }
}

/// Does the instruction that a word without a prefix is, if it goes on and is of no operation that a run leaves to
/// `step`; else nothing.
#[inline(always)]
fn go_coded<M: MemoryPort>(regs: &mut Regs, core: &mut M, word: Word) -> bool
    requires prefix { prefix_of word % 4 ≡ 0 }
    requires ic { regs.old.ic < 2 ^ 15 }
    ensures goes { result ≡ true → instruction (decoded word) (λ i. executed i regs.old (M.words core.old))
        ≡ went regs.new (M.words core.new) }
    ensures regs { result ≡ false → regs.new ≡ regs.old }
    ensures core { result ≡ false → M.words core.new ≡ M.words core.old }
    ensures keeps { M.Keeps core.old core.new }
    ensures ic { regs.new.ic < 2 ^ 15 }
{
    let Some(row) = row_coded(word) else {
        return false;
    };
    let Ok(y) = place_coded(regs, core, row.3, word) else {
        return false;
    };
    match go_at(regs, core, row, word, y) {
        OpEnd::Went => true,
        OpEnd::Halt | OpEnd::Outside(_) => false,
    }
}

/// Does the operation of a row at the place `y`, with the other fields of a word, if it goes on and is none that a run
/// leaves to `step`; else nothing. One jump leads to each operation that programs do most, and two to the others.
#[inline(always)]
#[tactic(auto, using(crate::proofs::Goes::stands))]
fn go_at<M: MemoryPort>(regs: &mut Regs, core: &mut M, known: &Row, word: Word, y: u16) -> OpEnd
    requires class { known.now.3 ≢ Class.Prefixed }
    requires y { y < 2 ^ 15 }
    requires ic { regs.old.ic < 2 ^ 15 }
    ensures goes { result ≡ OpEnd.Went → row (kind_of known.now.0) (fields_for known.now.3 word known.now)
        regs.old (M.words core.old) y ≡ went regs.new (M.words core.new) }
    ensures stands { Stands result regs.old regs.new (M.words core.old) (M.words core.new) }
    ensures keeps { M.Keeps core.old core.new }
    ensures ic { regs.new.ic < 2 ^ 15 }
{
    match known.0 {
        Op::Cla => fixed::load_or_store(regs, core, &instr_coded(known, word), y),
        Op::Sto => fixed::load_or_store(regs, core, &instr_coded(known, word), y),
        Op::Ldq => fixed::load_or_store(regs, core, &instr_coded(known, word), y),
        Op::Add => fixed::sum(regs, core, &instr_coded(known, word), y),
        Op::Sub => fixed::sum(regs, core, &instr_coded(known, word), y),
        Op::Cal => logic::load_or_store(regs, core, &instr_coded(known, word), y),
        Op::Slw => logic::load_or_store(regs, core, &instr_coded(known, word), y),
        Op::Ana => logic::combine(regs, core, &instr_coded(known, word), y),
        Op::Ora => logic::combine(regs, core, &instr_coded(known, word), y),
        Op::Tra => index::transfer(regs, core, &instr_coded(known, word), y),
        Op::Tze => index::transfer(regs, core, &instr_coded(known, word), y),
        Op::Tnz => index::transfer(regs, core, &instr_coded(known, word), y),
        Op::Tia => OpEnd::Halt,
        _ => go_fixed(regs, core, known, word, y),
    }
}

/// The same of the other fixed operations; DVH, which may halt, is left to `step`.
#[inline(always)]
#[tactic(auto, using(crate::proofs::Goes::stands))]
fn go_fixed<M: MemoryPort>(regs: &mut Regs, core: &mut M, known: &Row, word: Word, y: u16) -> OpEnd
    requires class { known.now.3 ≢ Class.Prefixed }
    requires y { y < 2 ^ 15 }
    requires ic { regs.old.ic < 2 ^ 15 }
    ensures goes { result ≡ OpEnd.Went → row (kind_of known.now.0) (fields_for known.now.3 word known.now)
        regs.old (M.words core.old) y ≡ went regs.new (M.words core.new) }
    ensures stands { Stands result regs.old regs.new (M.words core.old) (M.words core.new) }
    ensures keeps { M.Keeps core.old core.new }
    ensures ic { regs.new.ic < 2 ^ 15 }
{
    match known.0 {
        Op::Cls | Op::Stz | Op::Stq => fixed::load_or_store(
            regs,
            core,
            &instr_coded(known, word),
            y,
        ),
        Op::Slq | Op::Sta | Op::Std | Op::Stt | Op::Stl | Op::Stp => fixed::store_part(
            regs,
            core,
            &instr_coded(known, word),
            y,
        ),
        Op::Adm | Op::Sbm => fixed::sum(regs, core, &instr_coded(known, word), y),
        Op::Mpy | Op::Mpr | Op::Dvp => fixed::product(regs, core, &instr_coded(known, word), y),
        Op::Cas | Op::Zet | Op::Nzt | Op::Lbt | Op::Pbt | Op::Dct => fixed::test(
            regs,
            core,
            &instr_coded(known, word),
            y,
        ),
        Op::Xca | Op::Clm | Op::Chs | Op::Ssp | Op::Ssm | Op::Com | Op::Rnd => fixed::change(
            regs,
            core,
            &instr_coded(known, word),
            y,
        ),
        _ => go_logic(regs, core, known, word, y),
    }
}

/// The same of the other operations on bits.
#[inline(always)]
#[tactic(auto, using(crate::proofs::Goes::stands))]
fn go_logic<M: MemoryPort>(regs: &mut Regs, core: &mut M, known: &Row, word: Word, y: u16) -> OpEnd
    requires class { known.now.3 ≢ Class.Prefixed }
    requires y { y < 2 ^ 15 }
    requires ic { regs.old.ic < 2 ^ 15 }
    ensures goes { result ≡ OpEnd.Went → row (kind_of known.now.0) (fields_for known.now.3 word known.now)
        regs.old (M.words core.old) y ≡ went regs.new (M.words core.new) }
    ensures stands { Stands result regs.old regs.new (M.words core.old) (M.words core.new) }
    ensures keeps { M.Keeps core.old core.new }
    ensures ic { regs.new.ic < 2 ^ 15 }
{
    match known.0 {
        Op::Ldi | Op::Sti => logic::load_or_store(regs, core, &instr_coded(known, word), y),
        Op::Acl | Op::Era | Op::Ans | Op::Ors | Op::Las => logic::combine(
            regs,
            core,
            &instr_coded(known, word),
            y,
        ),
        Op::Xcl | Op::Als | Op::Ars | Op::Lls | Op::Lrs | Op::Lgl | Op::Lgr | Op::Rql =>
            logic::shift(regs, core, &instr_coded(known, word), y),
        Op::Pai | Op::Pia | Op::Oai | Op::Iia | Op::Ria | Op::Tio | Op::Tif => logic::indicate(
            regs,
            core,
            &instr_coded(known, word),
            y,
        ),
        Op::Osi | Op::Iis | Op::Ris | Op::Ont | Op::Oft => logic::indicate_by_word(
            regs,
            core,
            &instr_coded(known, word),
            y,
        ),
        Op::Sir | Op::Sil | Op::Rir | Op::Ril | Op::Rnt | Op::Lnt | Op::Rft | Op::Lft =>
            logic::indicate_by_half(regs, core, &instr_coded(known, word), y),
        _ => go_index(regs, core, known, word, y),
    }
}

/// The same of index registers and the other transfers. HTR and HPR, a supervisor entry and an XEC are left to `step`.
#[inline(always)]
#[tactic(auto, using(crate::proofs::Goes::stands))]
fn go_index<M: MemoryPort>(regs: &mut Regs, core: &mut M, known: &Row, word: Word, y: u16) -> OpEnd
    requires class { known.now.3 ≢ Class.Prefixed }
    requires y { y < 2 ^ 15 }
    requires ic { regs.old.ic < 2 ^ 15 }
    ensures goes { result ≡ OpEnd.Went → row (kind_of known.now.0) (fields_for known.now.3 word known.now)
        regs.old (M.words core.old) y ≡ went regs.new (M.words core.new) }
    ensures stands { Stands result regs.old regs.new (M.words core.old) (M.words core.new) }
    ensures keeps { M.Keeps core.old core.new }
    ensures ic { regs.new.ic < 2 ^ 15 }
{
    match known.0 {
        Op::Lxa
        | Op::Lxd
        | Op::Lac
        | Op::Ldc
        | Op::Axt
        | Op::Axc
        | Op::Pax
        | Op::Pdx
        | Op::Pac
        | Op::Pdc => index::load_index(regs, core, &instr_coded(known, word), y),
        Op::Sxa | Op::Sxd | Op::Sca | Op::Scd | Op::Pxa | Op::Pxd | Op::Pca | Op::Pcd =>
            index::store_index(regs, core, &instr_coded(known, word), y),
        Op::Tpl | Op::Tmi | Op::Tov | Op::Tno | Op::Tqp | Op::Tlq | Op::Tsx => index::transfer(
            regs,
            core,
            &instr_coded(known, word),
            y,
        ),
        Op::Nop => index::pass(regs, core, &instr_coded(known, word), y),
        _ => OpEnd::Halt,
    }
}

/// Does an instruction of a class and a group.
#[inline(always)]
#[tactic(auto, using(crate::proofs::Xec::executed_at))]
fn execute<M: MemoryPort>(
    regs: &mut Regs,
    core: &mut M,
    class: Class,
    kind: Kind,
    i: &Instr,
) -> Stepped
    requires class { class ≡ class_of i.now.op }
    requires kind { kind ≡ kind_of i.now.op }
    requires fields { HasFields i.now }
    requires ic { regs.old.ic < 2 ^ 15 }
    ensures executed { outcome result regs.new (M.words core.new) ≡ executed i.now regs.old (M.words core.old) }
    ensures stays { Stays result regs.old regs.new (M.words core.old) (M.words core.new) }
    ensures keeps { M.Keeps core.old core.new }
    ensures ic { regs.new.ic < 2 ^ 15 }
{
    if !is_xec(kind) {
        return perform(regs, core, class, kind, i);
    }
    let y = match place(regs, core, class, i) {
        Ok(y) => y,
        Err(address) => return Stepped::Outside(address),
    };
    let Ok(word) = core.load(y) else {
        return Stepped::Outside(y);
    };
    perform_word(regs, core, word)
}

/// Does the instruction that an XEC names.
#[cold]
#[inline(never)]
fn perform_word<M: MemoryPort>(regs: &mut Regs, core: &mut M, word: Word) -> Stepped
    requires { regs.old.ic < 2 ^ 15 }
    ensures once { outcome result regs.new (M.words core.new) ≡ once word regs.old (M.words core.old) }
    ensures stays { Stays result regs.old regs.new (M.words core.old) (M.words core.new) }
    ensures keeps { M.Keeps core.old core.new }
    ensures ic { regs.new.ic < 2 ^ 15 }
{
    let Some(i) = decode(word) else {
        return Stepped::Illegal;
    };
    if is_xec(kind(i.op)) {
        return Stepped::Illegal;
    }
    perform(regs, core, class(i.op), kind(i.op), &i)
}

/// Does an instruction of a class and a group that is no XEC.
#[inline(always)]
fn perform<M: MemoryPort>(
    regs: &mut Regs,
    core: &mut M,
    class: Class,
    kind: Kind,
    i: &Instr,
) -> Stepped
    requires class { class ≡ class_of i.now.op }
    requires kind { kind ≡ kind_of i.now.op }
    requires fields { HasFields i.now }
    requires ic { regs.old.ic < 2 ^ 15 }
    ensures done { outcome result regs.new (M.words core.new) ≡ done i.now regs.old (M.words core.old) }
    ensures stays { Stays result regs.old regs.new (M.words core.old) (M.words core.new) }
    ensures keeps { M.Keeps core.old core.new }
    ensures ic { regs.new.ic < 2 ^ 15 }
{
    let y = match place(regs, core, class, i) {
        Ok(y) => y,
        Err(address) => return Stepped::Outside(address),
    };
    perform_at(regs, core, kind, i, y)
}

/// Does an instruction of a group that is no XEC at its place.
#[inline(always)]
fn perform_at<M: MemoryPort>(
    regs: &mut Regs,
    core: &mut M,
    kind: Kind,
    i: &Instr,
    y: u16,
) -> Stepped
    requires kind { kind ≡ kind_of i.now.op }
    requires fields { HasFields i.now }
    requires y { y < 2 ^ 15 }
    requires ic { regs.old.ic < 2 ^ 15 }
    ensures row { outcome result regs.new (M.words core.new)
        ≡ row (kind_of i.now.op) i.now regs.old (M.words core.old) y }
    ensures stays { Stays result regs.old regs.new (M.words core.old) (M.words core.new) }
    ensures keeps { M.Keeps core.old core.new }
    ensures ic { regs.new.ic < 2 ^ 15 }
{
    match kind {
        Kind::Fixed => as_step(fixed::apply(regs, core, i, y)),
        Kind::Logic => as_step(logic::apply(regs, core, i, y)),
        Kind::Index => as_step(index::apply(regs, core, i, y)),
        Kind::Tia => match core.load(y) {
            Ok(word) => Stepped::Entry(word),
            Err(_) => Stepped::Outside(y),
        },
        Kind::Xec => Stepped::Illegal,
    }
}

/// As what a step ends that an operation ended.
#[inline(always)]
fn as_step(end: OpEnd) -> Stepped
    ensures { result ≡ stepped_by end }
{
    match end {
        OpEnd::Went => Stepped::Went,
        OpEnd::Halt => Stepped::Halt,
        OpEnd::Outside(address) => Stepped::Outside(address),
    }
}

#[inline(always)]
fn is_xec(kind: Kind) -> bool
    ensures { result ≡ is_xec kind }
{
    match kind {
        Kind::Xec => true,
        Kind::Fixed | Kind::Logic | Kind::Index | Kind::Tia => false,
    }
}

/// The address less an index number, round the end of core.
#[inline(always)]
fn indexed(address: u16, x: u16) -> u16
    requires address { address < 2 ^ 15 }
    requires x { x < 2 ^ 15 }
    ensures value { result ≡ indexed address x }
    ensures below { result < 2 ^ 15 }
{
    (address + 0o100000 - x) & 0o77777
}

/// The place that an instruction of a class works at, or the address outside.
#[inline(always)]
fn place<M: MemoryPort>(regs: &Regs, core: &M, class: Class, i: &Instr) -> Result<u16, u16>
    requires { HasFields i.now }
    ensures place { result ≡ place_of class i.now regs.now (M.words core.now) }
    ensures below { IfOk result (λ y. y < 2 ^ 15) }
{
    match class {
        Class::Addressed => {
            let y = if i.tag == 0 {
                i.address
            } else {
                indexed(i.address, regs.xr(i.tag))
            };
            if !i.flag {
                return Ok(y);
            }
            let Ok(word) = core.load(y) else {
                return Err(y);
            };
            Ok(indexed(word.address(), regs.xr(word.tag())))
        }
        Class::Direct => Ok(indexed(i.address, regs.xr(i.tag))),
        Class::Tagged | Class::Prefixed | Class::Group => Ok(i.address),
    }
}

/// The place that an instruction works at whose fields stand in a word, by the class of its row; or the address
/// outside.
#[inline(always)]
fn place_coded<M: MemoryPort>(regs: &Regs, core: &M, class: Class, word: Word) -> Result<u16, u16>
    ensures place { (r : Row) → result ≡ place_of class (fields_for class word r) regs.now (M.words core.now) }
    ensures below { IfOk result (λ y. y < 2 ^ 15) }
{
    match class {
        Class::Addressed | Class::Direct => {
            let y = place_in(regs, word);
            if !is_flagged(word) || !is_addressed(class) {
                return Ok(y);
            }
            let Ok(word) = core.load(y) else {
                return Err(y);
            };
            Ok(place_in(regs, word))
        }
        Class::Tagged | Class::Prefixed => Ok(word.address()),
        Class::Group => Ok(0),
    }
}

/// Whether a flag counts.
#[inline(always)]
fn is_addressed(class: Class) -> bool
    ensures { result ≡ is_addressed class }
{
    match class {
        Class::Addressed => true,
        Class::Direct | Class::Tagged | Class::Prefixed | Class::Group => false,
    }
}

/// Whether a word's flag is set: both its positions.
#[inline(always)]
fn is_flagged(word: Word) -> bool
    ensures { result ≡ nat_eq (word / 2 ^ 22 % 4) 3 }
{
    word.bits() >> 22 & 3 == 3
}

/// Whether a word's tag is not 0.
#[inline(always)]
#[tactic(auto, using(crate::proofs::Tags::no_tag))]
fn is_tagged(word: Word) -> bool
    ensures { result ≡ false → tag_of word ≡ 0 }
{
    word.bits() & 0o700000 != 0
}

/// The place that a word's address and tag name. Mostly the tag is 0, and then it is the address.
#[inline(always)]
#[tactic(auto, using(crate::proofs::Tags::untagged))]
fn place_in(regs: &Regs, word: Word) -> u16
    ensures place { result ≡ place_in regs.now word }
    ensures below { result < 2 ^ 15 }
{
    if !is_tagged(word) {
        return word.address();
    }
    indexed(word.address(), regs.xr(word.tag()))
}

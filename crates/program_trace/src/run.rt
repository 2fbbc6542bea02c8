//! What a program does that is run alone.
ghost use Rattle.std.specs.Prelude.{◌≡◌, ◌≤◌, ◌<◌, ◌^◌, ◌++◌, ◌∷◌, [], IfOk, drop, length};
ghost use Rattle.program_trace.specs.Lone.{TracedUser, gone, loaded};
ghost use Rattle.program_trace.specs.Traces.{end_of, step_between, steps_from, traced};
ghost use Rattle.program_trace.specs.Steppings.{found_in};

use crate::alone::ProgramAlone;
use crate::stepping::Stepping;
use crate::types::{Trace, TraceEnd, TracedStep};
use cpu_regs::Regs;
use ctss_types::{Item, Items, LineText, NoMemory, Sequence};
use std::alloc::Global;
use word36::Word;

/// What a step finds.
#[derive(Clone, Copy)]
struct Found {
    word: Option<Word>,
    regs: Regs,
    item_count: usize,
}

/// What the next step of a program finds.
fn found_by(alone: &ProgramAlone) -> Found
    ensures { result ≡ found_in alone.now }
{
    let regs = alone.regs();
    Found {
        word: alone.word(regs.ic),
        regs,
        item_count: alone.items().len(),
    }
}

/// The items behind so many.
fn items_behind(alloc: Global, items: &[Item], count: usize) -> Result<Items, NoMemory>
    ensures { IfOk result (λ new. new ≡ drop count items.now) }
{
    let behind = items.split_at(count.min(items.len())).1;
    Ok(Sequence::from_vec(Vec::from_slice(alloc, behind)?))
}

/// The step from what was found to the user behind it.
fn step_between(alloc: Global, found: &Found, alone: &ProgramAlone) -> Result<TracedStep, NoMemory>
    ensures { (old : TracedUser) → found.now ≡ found_in old
        → IfOk result (λ step. step ≡ step_between old alone.now) }
{
    let items = items_behind(alloc, alone.items(), found.item_count)?;
    Ok(TracedStep {
        place: found.regs.ic,
        word: found.word,
        before: found.regs,
        after: alone.regs_left(),
        items,
    })
}

/// Notes the step from what was found to the user behind it.
fn note_step(
    alloc: Global,
    found: &Found,
    alone: &ProgramAlone,
    steps: &mut Sequence<TracedStep>,
) -> Result<(), NoMemory>
    ensures { (old : TracedUser) → found.now ≡ found_in old
        → IfOk result (λ _. steps.new ≡ steps.old ++ step_between old alone.now ∷ []) }
{
    let step = step_between(alloc, found, alone)?;
    Ok(steps.push(step)?)
}

/// Does at most so many steps, and notes them.
fn go(
    alloc: Global,
    alone: ProgramAlone,
    most: u32,
    steps: &mut Sequence<TracedStep>,
) -> Result<ProgramAlone, NoMemory>
    requires { alone.user.own < 2 ^ 33 }
    ensures steps { IfOk result (λ _. steps.new ≡ steps.old ++ steps_from most alone) }
    ensures gone { IfOk result (λ a. a ≡ gone most alone) }
{
    let mut alone = alone;
    let mut left = most;
    'steps: while 0 < left {
        if !alone.works() {
            return Ok(alone);
        }
        let found = found_by(&alone);
        alone = match alone.step(alloc)? {
            Stepping::Waits(same) => return Ok(same),
            Stepping::Went(next) => next,
        };
        let Ok(()) = note_step(alloc, &found, &alone, steps) else {
            drop(alone);
            return Err(NoMemory);
        };
        left -= 1;
    }
    Ok(alone)
}

/// The program loaded: LOADGO was done, and the core filled.
fn loaded(alloc: Global, deck: &[Word], lines: &[LineText]) -> Result<ProgramAlone, NoMemory>
    requires { length lines.now ≤ 2047 }
    ensures value { IfOk result (λ a. a ≡ loaded deck.now lines.now) }
    ensures early { IfOk result (λ a. a.user.own ≤ 2) }
{
    let begun = ProgramAlone::begin(alloc, deck, lines)?;
    match begun.step(alloc)? {
        Stepping::Waits(_) => unreachable!(),
        Stepping::Went(asked) => {
            let mut steps = Sequence::new(alloc);
            go(alloc, asked, 1, &mut steps)
        }
    }
}

/// How a program is left.
fn end_of(alloc: Global, alone: ProgramAlone) -> Result<TraceEnd, NoMemory>
    requires { alone.user.own < 2 ^ 34 }
    ensures { IfOk result (λ end. end ≡ end_of alone) }
{
    if !alone.works() {
        drop(alone);
        return Ok(TraceEnd::Stopped);
    }
    match alone.step(alloc)? {
        Stepping::Waits(same) => {
            drop(same);
            Ok(TraceEnd::Waits)
        }
        Stepping::Went(next) => {
            drop(next);
            Ok(TraceEnd::Unfinished)
        }
    }
}

/// The trace of a program that is run alone, of at most so many steps, with the lines that it may read: as many as a
/// session takes behind LOADGO.
pub fn trace(alloc: Global, deck: &[Word], lines: &[LineText], most: u32) -> Result<Trace, NoMemory>
    requires { length lines.now ≤ 2047 }
    ensures { IfOk result (λ t. t ≡ traced most deck.now lines.now) }
{
    let begun = loaded(alloc, deck, lines)?;
    let mut steps = Sequence::new(alloc);
    let alone = go(alloc, begun, most, &mut steps)?;
    let place = alone.regs().ic;
    let end = end_of(alloc, alone)?;
    Ok(Trace { steps, place, end })
}

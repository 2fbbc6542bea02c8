ghost use Rattle.std.specs.Prelude.{◌≡◌, ◌+◌, ◌-◌, ◌^◌, ◌<◌, ◌≤◌, [], IfOk, OnOk, length};
ghost use Rattle.fap_model.specs.Places.{value_in, or_zero};
ghost use Rattle.fap_model.specs.Decks.{cards_read};
ghost use Rattle.link_model.specs.Moves.{nothing_moved};
ghost use Rattle.link_model.specs.ModuleCards.{relocated_of, entries_of, module_start, module_faults, module_of_cards, module_made};
ghost use Rattle.fap_assemble.specs.Steps.{texts};
ghost use Rattle.fap_assemble.specs.Follows.{numbered};
ghost use Rattle.fap_assemble.specs.Answers.{end_index, IsModuleMade, IsRefused};
ghost use Rattle.fap_assemble.specs.Judging.{relocated_in};
ghost use Rattle.fap_assemble.specs.ModuleFollows.{TellsAll};
ghost use Rattle.fap_assemble.specs.ModuleEnds.{entries_named};

use crate::assembler::{cards_read, end_index, note_missing_end};
use crate::cells::cells_of;
use crate::fault::{AsmFault, FaultList};
use crate::field::{number, read_with};
use crate::module_judge;
use crate::names::Names;
use crate::past::{ENTRY, named_by};
use crate::relocated::{Relocated, relocated_of};
use ctss_types::{NoMemory, Sequence};
use fap_model::Operation;
use fap_read::Card;
use link_model::{EntryList, Module, ModuleEntry};
use std::alloc::Global;
use word36::Word;

/// The faults of all cards, with a missing END's.
fn faults_of(
    alloc: Global,
    cards: &[Card],
    read: &[Card],
    end: usize,
    r: &Relocated,
) -> Result<FaultList, NoMemory>
    requires few { length cards.now < 2 ^ 32 - 1 }
    requires fewer { length read.now ≤ length cards.now }
    requires end { end ≡ end_index cards.now }
    requires read { texts read.now ≡ cards_read (texts cards.now) }
    requires blocks { r.now.whole.blocks < 2 ^ 30 }
    requires literals { length r.now.whole.literals < 2 ^ 33 }
    requires tells { TellsAll r.now (texts read.now) }
    ensures { IfOk result (λ fs. numbered fs ≡ module_faults (texts cards.now)) }
{
    let mut faults = module_judge::module_faults(alloc, read, r)?;
    note_missing_end(&mut faults, cards, end)?;
    Ok(faults)
}

/// The start that the END card says.
pub(crate) fn start(
    alloc: Global,
    cards: &[Card],
    end: usize,
    r: &Relocated,
) -> Result<u16, NoMemory>
    requires end { end ≡ end_index cards.now }
    requires within { end < length cards.now }
    requires told { relocated_in r.now ≡ relocated_of (texts cards.now) }
    ensures { IfOk result (λ n. n ≡ module_start (relocated_in r.now) nothing_moved (texts cards.now)) }
{
    let text = cards[end].text.as_slice();
    let names = Names {
        externs: Some(&r.externs),
        symbols: &r.whole.symbols,
        visible: r.whole.symbols.len(),
    };
    let said = read_with(alloc, Operation::End, text, names, r.whole.end_place)?;
    Ok(number(&said))
}

/// The value of an entry's symbol.
fn entry_place(r: &Relocated, name: Word) -> u16
    ensures { result ≡ or_zero (value_in (relocated_in r.now).whole.names name) }
{
    let names = Names {
        externs: Some(&r.externs),
        symbols: &r.whole.symbols,
        visible: r.whole.symbols.len(),
    };
    names.value(name).unwrap_or(0)
}

/// Each ENTRY's symbol with its value.
fn entries_at(alloc: Global, names: &[Word], r: &Relocated) -> Result<EntryList, NoMemory>
    ensures { IfOk result (λ es. es ≡ entries_named (relocated_in r.now) names.now) }
{
    let mut entries = Sequence::new(alloc);
    for name in names {
        entries.push(ModuleEntry {
            name: *name,
            place: entry_place(r, *name),
        })?;
    }
    Ok(entries)
}

/// Each ENTRY's symbol with its value.
pub(crate) fn entries_of(alloc: Global, read: &[Card], r: &Relocated) -> Result<EntryList, NoMemory>
    requires { length read.now < 2 ^ 32 }
    ensures { IfOk result (λ es. es ≡ entries_of (relocated_in r.now) (texts read.now)) }
{
    let names = named_by(alloc, ENTRY, read)?;
    entries_at(alloc, names.as_slice(), r)
}

/// The module of cards without a fault.
fn sound_module(
    alloc: Global,
    cards: &[Card],
    read: &[Card],
    end: usize,
    r: Relocated,
) -> Result<Module, NoMemory>
    requires few { length read.now < 2 ^ 32 }
    requires end { end ≡ end_index cards.now }
    requires read { texts read.now ≡ cards_read (texts cards.now) }
    requires place { r.whole.end_place < 2 ^ 33 }
    requires literals { length r.whole.literals < 2 ^ 33 }
    requires tells { TellsAll r (texts read.now) }
    requires sound { module_faults (texts cards.now) ≡ [] }
    ensures { IfOk result (λ m. m ≡ module_of_cards (texts cards.now)) }
{
    let Ok(start) = start(alloc, cards, end, &r) else {
        return Err(r.spent());
    };
    let Ok(entries) = entries_of(alloc, read, &r) else {
        return Err(r.spent());
    };
    let Ok(places) = cells_of(alloc, read, &r) else {
        return Err(r.spent());
    };
    let externs = r.into_externs();
    Ok(Module {
        start,
        entries,
        externs: externs.into_names(),
        places,
    })
}

/// Gives up with the faults of cards that together tell this, if there are any.
fn refuse_faults(
    alloc: Global,
    cards: &[Card],
    read: &[Card],
    end: usize,
    r: &Relocated,
) -> Result<(), AsmFault>
    requires few { length cards.now < 2 ^ 32 - 1 }
    requires fewer { length read.now ≤ length cards.now }
    requires end { end ≡ end_index cards.now }
    requires read { texts read.now ≡ cards_read (texts cards.now) }
    requires blocks { r.now.whole.blocks < 2 ^ 30 }
    requires literals { length r.now.whole.literals < 2 ^ 33 }
    requires tells { TellsAll r.now (texts read.now) }
    ensures sound { OnOk result (module_faults (texts cards.now) ≡ []) }
    ensures faulty { IsRefused result (module_made (texts cards.now)) }
{
    let faults = faults_of(alloc, cards, read, end, r)?;
    if faults.is_empty() {
        Ok(())
    } else {
        Err(AsmFault::Faults(faults))
    }
}

/// The module of cards that together tell this, or their faults.
fn module_of(
    alloc: Global,
    cards: &[Card],
    read: &[Card],
    end: usize,
    r: Relocated,
) -> Result<Module, AsmFault>
    requires few { length cards.now < 2 ^ 32 - 1 }
    requires fewer { length read.now ≤ length cards.now }
    requires end { end ≡ end_index cards.now }
    requires read { texts read.now ≡ cards_read (texts cards.now) }
    requires place { r.whole.end_place < 2 ^ 33 }
    requires literals { length r.whole.literals < 2 ^ 33 }
    requires blocks { r.whole.blocks < 2 ^ 30 }
    requires tells { TellsAll r (texts read.now) }
    ensures { IsModuleMade result (module_made (texts cards.now)) }
{
    match refuse_faults(alloc, cards, read, end, &r) {
        Ok(()) => {
            let made = sound_module(alloc, cards, read, end, r)?;
            Ok(made)
        }
        Err(fault) => {
            drop(r);
            Err(fault)
        }
    }
}

/// The module of a list of cards, or the faults of its cards: `Faults` has each card at fault with its least fault, in order,
/// and says that the cards make no module; `NoMemory` says nothing of them. Whether cards are a module's at all is
/// `is_module`'s to say.
pub fn assemble_module(alloc: Global, cards: &[Card]) -> Result<Module, AsmFault>
    requires few { length cards.now < 2 ^ 32 - 1 }
    ensures { IsModuleMade result (module_made (texts cards.now)) }
{
    let end = end_index(cards);
    let read = cards_read(cards, end);
    let r = relocated_of(alloc, read)?;
    module_of(alloc, cards, read, end, r)
}

ghost use Rattle.std.specs.Prelude.{◌≡◌, ◌+◌, ◌-◌, ◌^◌, ◌<◌, ◌++◌, IfOk, OnOk, length};
ghost use Rattle.fap_model.specs.Places.{known_after, nothing_known};
ghost use Rattle.fap_model.specs.Decks.{fault_entry, faults_from};
ghost use Rattle.fap_assemble.specs.Steps.{texts};
ghost use Rattle.fap_assemble.specs.Wholes.{whole_in};
ghost use Rattle.fap_assemble.specs.Follows.{numbered};

use crate::cause::fault_of;
use crate::fault::{CardFault, FaultList};
use crate::place::{operation_in, place_behind, visible_behind};
use crate::whole::Whole;
use ctss_types::{NoMemory, Sequence};
use fap_read::Card;
use std::alloc::Global;

/// Notes a fault if there is one.
pub(crate) fn note(faults: &mut FaultList, card: u32, number: u8) -> Result<(), NoMemory>
    ensures { OnOk result (numbered faults.new ≡ numbered faults.old ++ fault_entry card number) }
{
    if number == 0 {
        Ok(())
    } else {
        faults.push(CardFault { card, number })
    }
}

/// The faults of cards that are read.
pub(crate) fn faults_of(alloc: Global, cards: &[Card], whole: &Whole) -> Result<FaultList, NoMemory>
    requires few { length cards.now < 2 ^ 32 - 1 }
    requires blocks { whole.now.blocks < 2 ^ 30 }
    requires symbols { (known_after nothing_known (texts cards.now)).symbols ≡ whole.now.symbols }
    ensures { IfOk result (λ fs. numbered fs ≡ faults_from (whole_in whole.now) 1 nothing_known (texts cards.now)) }
{
    let symbols = &whole.symbols;
    let mut faults = Sequence::new(alloc);
    let mut visible = 0;
    let mut place = 0;
    let mut number = 1;
    for card in cards {
        let text = card.text.as_slice();
        let fault = fault_of(alloc, text, whole, visible, place)?;
        note(&mut faults, number, fault)?;
        let next = place_behind(alloc, operation_in(text), text, symbols, visible, place)?;
        visible = visible_behind(text, symbols, visible);
        place = next;
        number += 1;
    }
    Ok(faults)
}

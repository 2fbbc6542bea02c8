ghost use Rattle.std.specs.Prelude.{◌≡◌, ◌<◌, ◌-◌, ◌^◌, length, IfOk, IsErrOf};
ghost use Rattle.faults.specs.Faults.{Rose};
ghost use Rattle.file_model.specs.Files.{got};
ghost use Rattle.file_map.specs.Known.{AnswersOver};
ghost use Rattle.fap_model.specs.Cards.{cards_of};
ghost use Rattle.fap_model.specs.Decks.{assembled};
ghost use Rattle.link_model.specs.ModuleCards.{module_made};
ghost use Rattle.fap_assemble.specs.Steps.{texts};
ghost use Rattle.cmd_fap.specs.Assemblies.{assembly_in, module_assembly, assembly_of, assembly_got};

use crate::fault_line::fault_lines;
use bss_loader::module_words;
use ctss_types::{FileName, LineList, NoMemory, WordList};
use fap_assemble::{AsmFault, assemble, assemble_module, is_module};
use fap_read::{Card, cards_of_words};
use file_map::{FilePort, PortFault};
use std::alloc::Global;
use word36::Word;

/// What cards make.
#[derive(Debug, Drop)]
pub enum Assembly {
    /// The words of a deck.
    Deck(WordList),
    /// The words of a module's file.
    Module(WordList),
    /// A line for each card at fault.
    Faults(LineList),
}

/// What the cards of a file make: its words, 14 a card.
pub fn assemble_file<F: FilePort>(
    alloc: Global,
    name: FileName,
    files: &mut F,
) -> Result<Assembly, PortFault>
    requires usable { F.Usable files.old }
    ensures answer { AnswersOver (F.tells files.old) (F.files files.old) result (λ fs. assembly_got (got name fs)) }
    ensures left { ¬ IsErrOf result PortFault.Disk → F.files files.new ≡ F.files files.old }
    ensures telling { ¬ IsErrOf result PortFault.Disk → F.tells files.new ≡ F.tells files.old }
    ensures usable { ¬ IsErrOf result PortFault.Disk → F.Usable files.new }
    ensures keeps { F.Keeps files.old files.new }
    ensures cause { IsErrOf result PortFault.Disk → Rose (F.faults files.old) (F.faults files.new) }
{
    let words = files.get(name)?;
    let assembly = assembly_of(alloc, words.as_slice())?;
    Ok(assembly)
}

/// What the cards of words make. No file comes to 2^32 cards; where words did, memory would lack.
fn assembly_of(alloc: Global, words: &[Word]) -> Result<Assembly, NoMemory>
    ensures { IfOk result (λ a. a ≡ assembly_of (cards_of words.now)) }
{
    let cards = cards_of_words(alloc, words)?;
    if cards.len() >= u32::MAX as usize {
        return Err(NoMemory);
    }
    if is_module(cards.as_slice()) {
        module_of(alloc, cards.as_slice())
    } else {
        deck_of(alloc, cards.as_slice())
    }
}

/// What cards make as a deck's.
fn deck_of(alloc: Global, cards: &[Card]) -> Result<Assembly, NoMemory>
    requires few { length cards.now < 2 ^ 32 - 1 }
    ensures { IfOk result (λ a. a ≡ assembly_in (assembled (texts cards.now))) }
{
    match assemble(alloc, cards) {
        Ok(deck) => Ok(Assembly::Deck(deck.words)),
        Err(AsmFault::Faults(faults)) => {
            let lines = fault_lines(alloc, faults.as_slice())?;
            Ok(Assembly::Faults(lines))
        }
        Err(AsmFault::NoMemory) => Err(NoMemory),
    }
}

/// What cards make as a module's.
#[tactic(auto, using(rule_laws::proofs::Fits::made_fits))]
fn module_of(alloc: Global, cards: &[Card]) -> Result<Assembly, NoMemory>
    requires few { length cards.now < 2 ^ 32 - 1 }
    ensures { IfOk result (λ a. a ≡ module_assembly (module_made (texts cards.now))) }
{
    match assemble_module(alloc, cards) {
        Ok(made) => {
            let words = module_words(alloc, &made)?;
            Ok(Assembly::Module(words))
        }
        Err(AsmFault::Faults(faults)) => {
            let lines = fault_lines(alloc, faults.as_slice())?;
            Ok(Assembly::Faults(lines))
        }
        Err(AsmFault::NoMemory) => Err(NoMemory),
    }
}

//! The two steps of a load: of a deck, or of a saved program.
ghost use Rattle.std.specs.Prelude.{◌≡◌, ◌≤◌, ◌<◌, ◌*◌, ◌^◌, IfOk};
ghost use Rattle.file_model.specs.Files.{got};
ghost use Rattle.program_model.specs.Decks.{deck_of};
ghost use Rattle.program_model.specs.Fills.{fill_name, StartsInCore};
ghost use Rattle.program_model.specs.Saved.{saved_of};
ghost use Rattle.cmd_program.specs.Loads.{PreparesOver, IsFilled, Fills};
ghost use Rattle.cmd_program.specs.Ports.{OnlyReads};

use crate::saved::{saved_in, saved_regs, store_saved};
use crate::{deck_in, store_deck};
use cpu_regs::{MemoryPort, Regs};
use ctss_types::{FileName, StepFault};
use file_map::{FilePort, PortFault};
use program_model::{Deck, Fill, LoadFault};
use thiserror::Error;
use word36::Word;

/// Why a program isn't loaded. The disk's and memory's faults are none of the program's.
#[derive(Clone, Copy, Debug, PartialEq, Eq, Error)]
pub enum PrepareFault {
    #[error("{0}")]
    Load(LoadFault),
    #[error("the disk failed")]
    Disk,
    #[error("out of memory")]
    NoMemory,
}

/// Reads what a file says as a deck, for a user of so many blocks.
pub fn prepare<F: FilePort>(name: FileName, quota: u8, files: &mut F) -> Result<Deck, PrepareFault>
    requires usable { F.Usable files.old }
    ensures answer { PreparesOver (F.tells files.old) (F.files files.old) result (λ fs. deck_of quota (got name fs)) }
    ensures blocks { IfOk result (λ d. d.blocks ≤ quota) }
    ensures start { IfOk result (λ d. d.start < 256 * d.blocks) }
    ensures most { IfOk result (λ d. d.blocks ≤ 128) }
    ensures reads { OnlyReads F.FilePort result PrepareFault.Disk files.old files.new }
{
    match files.get(name) {
        Ok(words) => match deck_in(words.as_slice(), quota) {
            Ok(deck) => Ok(deck),
            Err(fault) => Err(PrepareFault::Load(fault)),
        },
        Err(PortFault::Refused(_)) => Err(PrepareFault::Load(LoadFault::NoFile)),
        Err(PortFault::Disk) => Err(PrepareFault::Disk),
        Err(PortFault::NoMemory) => Err(PrepareFault::NoMemory),
    }
}

/// Reads how many blocks a file says as a saved program, for a user of so many.
pub fn prepare_saved<F: FilePort>(
    name: FileName,
    quota: u8,
    files: &mut F,
) -> Result<u8, PrepareFault>
    requires usable { F.Usable files.old }
    ensures answer { PreparesOver (F.tells files.old) (F.files files.old) result (λ fs. saved_of quota (got name fs)) }
    ensures blocks { IfOk result (λ b. b ≤ quota) }
    ensures most { IfOk result (λ b. b ≤ 128) }
    ensures reads { OnlyReads F.FilePort result PrepareFault.Disk files.old files.new }
{
    match files.get(name) {
        Ok(words) => match saved_in(words.as_slice(), quota) {
            Ok(blocks) => Ok(blocks),
            Err(fault) => Err(PrepareFault::Load(fault)),
        },
        Err(PortFault::Refused(_)) => Err(PrepareFault::Load(LoadFault::NoFile)),
        Err(PortFault::Disk) => Err(PrepareFault::Disk),
        Err(PortFault::NoMemory) => Err(PrepareFault::NoMemory),
    }
}

/// Stores the words of a file in core and registers.
fn store<M: MemoryPort>(fill: &Fill, words: &[Word], regs: &mut Regs, core: &mut M)
    requires { StartsInCore fill.now }
    ensures filled { IsFilled fill.now words.now regs.old regs.new (M.words core.old) (M.words core.new) }
    ensures ic { regs.new.ic < 2 ^ 15 }
    ensures keeps { M.Keeps core.old core.new }
{
    match *fill {
        Fill::Deck { name: _, start } => {
            store_deck(words, core);
            regs.ic = start;
        }
        Fill::Saved { name: _ } => {
            store_saved(words, core);
            *regs = saved_regs(words);
        }
    }
}

/// The file that a program is filled with.
fn fill_name(fill: &Fill) -> FileName
    ensures { result ≡ fill_name fill.now }
{
    match *fill {
        Fill::Deck { name, start: _ } | Fill::Saved { name } => name,
    }
}

/// Fills a program that has its core: with the words of a deck, whose start is then in the counter, or with the words
/// and registers of a saved program.
pub fn fill<M: MemoryPort, F: FilePort>(
    fill: &Fill,
    regs: &mut Regs,
    core: &mut M,
    files: &mut F,
) -> Result<(), StepFault>
    requires start { StartsInCore fill.now }
    requires usable { F.Usable files.old }
    ensures fills { Fills (F.tells files.old) (F.files files.old) fill.now result
        regs.old regs.new (M.words core.old) (M.words core.new) }
    ensures core_keeps { M.Keeps core.old core.new }
    ensures reads { OnlyReads F.FilePort result StepFault.Disk files.old files.new }
{
    match files.get(fill_name(fill)) {
        Ok(words) => store(fill, words.as_slice(), regs, core),
        Err(PortFault::Refused(_)) => store(fill, &[], regs, core),
        Err(PortFault::Disk) => return Err(StepFault::Disk),
        Err(PortFault::NoMemory) => return Err(StepFault::NoMemory),
    }
    Ok(())
}

//! The deck of modules that stand in files.
ghost use Rattle.std.specs.Prelude.{◌≡◌, None, IsErrOf};
ghost use Rattle.std.specs.Option.{option_copied};
ghost use Rattle.file_model.specs.Files.{got};
ghost use Rattle.link_model.specs.Files.{module_name, said_of, files_linked};
ghost use Rattle.link_model.specs.Links.{link_of};
ghost use Rattle.link_model.specs.Modules.{module_of_words};
ghost use Rattle.cmd_program.specs.Links.{Links, LinksOver, fault_of, words_told, or_bad_module, words_kept};
ghost use Rattle.cmd_program.specs.Links.{AreRead, ReadsNext, ReadsOver};
ghost use Rattle.cmd_program.specs.Ports.{OnlyReads};

use bss_loader::{LinkFault, ModuleFault, link, read_module};
use ctss_types::{FileName, NoMemory, Sequence, WordList, name_word};
use file_map::{FilePort, PortFault};
use link_model::{LinkRefusal, Module};
use std::alloc::Global;
use thiserror::Error;
use word36::Word;

/// Why modules aren't linked. The disk's and memory's faults are none of the modules'.
#[derive(Clone, Copy, Debug, PartialEq, Eq, Error)]
pub enum LinkFilesFault {
    #[error("the modules make no deck")]
    Refused(LinkRefusal),
    #[error("the disk failed")]
    Disk,
    #[error("out of memory")]
    NoMemory,
}

impl From<NoMemory> for LinkFilesFault {
    ghost use Rattle.std.specs.Prelude.{◌≡◌};
    ghost use Rattle.cmd_program.specs.declared.link.LinkFilesFault.TheVariants as fault;

    ghost from_gives = { λ _ e. e ≡ fault.NoMemory };

    fn from(_: NoMemory) -> LinkFilesFault {
        LinkFilesFault::NoMemory
    }
}

/// A module's file that was read.
#[derive(Debug, Drop)]
struct ModuleFile {
    name: Word,
    words: WordList,
}

/// The file that a module of this name stands in.
fn module_name(name: Word) -> FileName
    ensures { result ≡ module_name name }
{
    FileName::new(name, name_word(b"REL"))
}

/// The words of a name's file.
fn read_words<F: FilePort>(name: Word, files: &mut F) -> Result<WordList, LinkFilesFault>
    requires usable { F.Usable files.old }
    ensures answer { LinksOver (F.tells files.old) (F.files files.old) result
        (λ fs. words_told (got (module_name name) fs)) }
    ensures reads { OnlyReads F.FilePort result LinkFilesFault.Disk files.old files.new }
{
    match files.get(module_name(name)) {
        Ok(words) => Ok(words),
        Err(PortFault::Refused(_)) => Err(LinkFilesFault::Refused(LinkRefusal::NoFile)),
        Err(PortFault::Disk) => Err(LinkFilesFault::Disk),
        Err(PortFault::NoMemory) => Err(LinkFilesFault::NoMemory),
    }
}

/// The module that words say.
fn module_of(alloc: Global, words: &[Word]) -> Result<Module, LinkFilesFault>
    ensures answer { Links result (or_bad_module (module_of_words words.now)) }
    ensures disk { ¬ IsErrOf result LinkFilesFault.Disk }
{
    match read_module(alloc, words) {
        Ok(module) => Ok(module),
        Err(ModuleFault::BadModule) => Err(LinkFilesFault::Refused(LinkRefusal::BadModule)),
        Err(ModuleFault::NoMemory) => Err(LinkFilesFault::NoMemory),
    }
}

/// The words of a name's file, if it was read.
fn words_kept(kept: &[ModuleFile], name: Word) -> Option<&[Word]>
    ensures { option_copied result ≡ words_kept name kept.now }
{
    kept.iter()
        .find(|file| file.name == name)
        .map(|file| file.words.as_slice())
}

/// The module of a name's file that wasn't read.
fn first_module<F: FilePort>(
    alloc: Global,
    name: Word,
    kept: &mut Sequence<ModuleFile>,
    files: &mut F,
) -> Result<Module, LinkFilesFault>
    requires usable { F.Usable files.old }
    requires read { AreRead (F.tells files.old) (F.files files.old) kept.old }
    requires none { words_kept name kept.old ≡ None }
    ensures answer { ReadsNext (F.tells files.old) (F.files files.old) name kept.old kept.new result }
    ensures reads { OnlyReads F.FilePort result LinkFilesFault.Disk files.old files.new }
{
    let words = read_words(name, files)?;
    let module = module_of(alloc, words.as_slice())?;
    kept.push(ModuleFile { name, words })?;
    Ok(module)
}

/// The module of a name's file. Each file is read once: where its disk doesn't tell its records, nothing says that it
/// would answer the same words again.
fn next_module<F: FilePort>(
    alloc: Global,
    name: Word,
    kept: &mut Sequence<ModuleFile>,
    files: &mut F,
) -> Result<Module, LinkFilesFault>
    requires usable { F.Usable files.old }
    requires read { AreRead (F.tells files.old) (F.files files.old) kept.old }
    ensures answer { ReadsNext (F.tells files.old) (F.files files.old) name kept.old kept.new result }
    ensures reads { OnlyReads F.FilePort result LinkFilesFault.Disk files.old files.new }
{
    match words_kept(kept.as_slice(), name) {
        Some(words) => module_of(alloc, words),
        None => first_module(alloc, name, kept, files),
    }
}

/// The modules of names' files in order.
fn read_modules<F: FilePort>(
    alloc: Global,
    names: &[Word],
    files: &mut F,
) -> Result<Sequence<Module>, LinkFilesFault>
    requires usable { F.Usable files.old }
    ensures answer { ReadsOver (F.tells files.old) (F.files files.old) result (files_linked names.now) }
    ensures reads { OnlyReads F.FilePort result LinkFilesFault.Disk files.old files.new }
{
    let mut kept = Sequence::new(alloc);
    let mut modules = Sequence::new(alloc);
    for name in names {
        let module = next_module(alloc, *name, &mut kept, files)?;
        modules.push(module)?;
    }
    Ok(modules)
}

/// A refusal of the loader, or want of memory.
fn fault_of(fault: LinkFault) -> LinkFilesFault
    ensures { result ≡ fault_of fault }
{
    match fault {
        LinkFault::TooLarge => LinkFilesFault::Refused(LinkRefusal::TooLarge),
        LinkFault::Doubly(name) => LinkFilesFault::Refused(LinkRefusal::Doubly(name)),
        LinkFault::Undefined(name) => LinkFilesFault::Refused(LinkRefusal::Undefined(name)),
        LinkFault::NoMemory => LinkFilesFault::NoMemory,
    }
}

/// The deck that modules make together.
fn deck_of_modules(alloc: Global, modules: &[Module]) -> Result<WordList, LinkFilesFault>
    ensures answer { Links result (said_of (link_of modules.now)) }
    ensures disk { ¬ IsErrOf result LinkFilesFault.Disk }
{
    match link(alloc, modules) {
        Ok(words) => Ok(words),
        Err(fault) => Err(fault_of(fault)),
    }
}

/// The deck that the modules of these names make together, each of which stands in its file. The first file that isn't
/// there or is no module counts before all that the modules lack.
pub fn link_files<F: FilePort>(
    alloc: Global,
    names: &[Word],
    files: &mut F,
) -> Result<WordList, LinkFilesFault>
    requires usable { F.Usable files.old }
    ensures answer { LinksOver (F.tells files.old) (F.files files.old) result (files_linked names.now) }
    ensures reads { OnlyReads F.FilePort result LinkFilesFault.Disk files.old files.new }
{
    let modules = read_modules(alloc, names, files)?;
    deck_of_modules(alloc, modules.as_slice())
}

//! FAP: a file of cards is assembled.
ghost use Rattle.std.specs.Prelude.{◌≡◌, ◌<◌, ◌-◌, ◌^◌, ℕ, List, IfOk};
ghost use Rattle.file_model.specs.Files.{got};
ghost use Rattle.cmd_fap.specs.Assemblies.{assembly_got};
ghost use Rattle.user_model.specs.Answers.{DidCommand};
ghost use Rattle.link_model.specs.Files.{module_name};
ghost use Rattle.user_model.specs.Commands.{cards_name};
ghost use Rattle.user_session.specs.Stores.{stored, Over, OfSome, Uses, Reads};
ghost use Rattle.user_model.specs.declared.Command.{Command};
ghost use Rattle.user_session.specs.Calls.{IsCoreOf, IsDirectoryOf, KeepsUser};

use crate::Step;
use crate::command::deck_name;
use crate::file_command::DONE;
use crate::session::Session;
use cmd_fap::{Assembly, assemble_file};
use cmd_program::refusal_text;
use ctss_types::{FileName, LineText, Refusal, StepFault, name_word};
use file_map::{FilePort, PortFault};
use word36::Word;

/// The file that a deck of this name is assembled from.
fn cards_name(name: Word) -> FileName
    ensures { result ≡ cards_name name }
{
    FileName::new(name, name_word(b"FAP"))
}

/// The file that a module of this name stands in.
fn module_name(name: Word) -> FileName
    ensures { result ≡ module_name name }
{
    FileName::new(name, name_word(b"REL"))
}

impl Session {
    /// What the cards of a file make, or why it isn't read.
    fn assembly_of<P: FilePort>(
        &self,
        files: &mut P,
        name: Word,
    ) -> Result<Result<Assembly, Refusal>, StepFault>
        requires port { P.Usable files.old }
        ensures answer { IfOk result (λ answer. OfSome (P.tells files.old) (P.files files.old)
            (λ fs. answer ≡ assembly_got (got (cards_name name) fs))) }
        ensures reads { Reads P.FilePort result files.old files.new }
    {
        match assemble_file(self.talk.allocator(), cards_name(name), files) {
            Ok(assembly) => Ok(Ok(assembly)),
            Err(PortFault::Refused(refusal)) => Ok(Err(refusal)),
            Err(PortFault::Disk) => Err(StepFault::Disk),
            Err(PortFault::NoMemory) => Err(StepFault::NoMemory),
        }
    }

    /// FAP: the deck or the module of a file of cards is put, or the faults of the cards are printed.
    #[tactic(auto, using(user_model::proofs::CoreLaws::recut_same))]
    pub(crate) fn assemble<P: FilePort>(
        &mut self,
        files: &mut P,
        line: LineText,
        name: Word,
        now: u64,
    ) -> Result<Step, StepFault>
        requires fits { self.old.own < 2 ^ 64 - 1 }
        requires own { IsDirectoryOf P.FilePort self.old files.old }
        ensures row { (core : List ℕ) → IsCoreOf self.old core → IfOk result (λ s. Over (P.tells files.old)
            (stored core (P.files files.old)) (stored core (P.files files.new))
            (DidCommand line (Command.Assemble name) s.ending s.clock now self.old self.new)) }
        ensures user { KeepsUser result self.old self.new }
        ensures uses { Uses P.FilePort result files.old files.new }
    {
        match self.assembly_of(files, name)? {
            Ok(Assembly::Deck(words)) => self.put_file(
                files,
                line,
                deck_name(name),
                words.as_slice(),
                now,
            ),
            Ok(Assembly::Module(words)) => self.put_file(
                files,
                line,
                module_name(name),
                words.as_slice(),
                now,
            ),
            Ok(Assembly::Faults(lines)) => {
                self.say_all(line, lines.as_slice(), now)?;
                Ok(DONE)
            }
            Err(refusal) => {
                self.say(line, Some(refusal_text(refusal)), now)?;
                Ok(DONE)
            }
        }
    }
}

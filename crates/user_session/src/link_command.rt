//! LINK: modules are linked to a deck.
ghost use Rattle.std.specs.Prelude.{◌≡◌, ◌<◌, ◌-◌, ◌^◌, ◌++◌, ℕ, List, IfOk, OnOk};
ghost use Rattle.ctss_types.specs.Words.{words_of};
ghost use Rattle.link_model.specs.Files.{files_linked};
ghost use Rattle.user_model.specs.Answers.{DidCommand};
ghost use Rattle.user_model.specs.Commands.{modules_in, names_in};
ghost use Rattle.user_model.specs.declared.Command.{Command};
ghost use Rattle.user_session.specs.Stores.{stored, Over, OfSome, Uses, Reads};
ghost use Rattle.user_session.specs.Calls.{IsCoreOf, IsDirectoryOf, KeepsUser};

use crate::Step;
use crate::command::deck_name;
use crate::file_command::DONE;
use crate::run_file::behind_two;
use crate::session::Session;
use cmd_program::{LinkFilesFault, link_files};
use ctss_types::{LineText, NoMemory, Sequence, StepFault, WordList, first_word};
use dialogue::command_table::word_name;
use dialogue::session_text::link_text;
use file_map::FilePort;
use link_model::LinkRefusal;
use std::alloc::Global;
use word36::Word;

/// Adds the names among the words of a text.
fn add_names(names: &mut WordList, text: &[u8]) -> Result<(), NoMemory>
    ensures { OnOk result (names.new ≡ names.old ++ names_in (words_of text.now)) }
{
    let (word, behind) = first_word(text);
    if word.is_empty() {
        return Ok(());
    }
    if let Some(name) = word_name(word) {
        names.push(name)?;
    }
    add_names(names, behind)
}

/// The modules that a line names.
fn modules_in(alloc: Global, line: &LineText) -> Result<WordList, NoMemory>
    ensures { IfOk result (λ names. names ≡ modules_in line.now) }
{
    let mut names = Sequence::new(alloc);
    add_names(&mut names, behind_two(line))?;
    Ok(names)
}

impl Session {
    /// The deck of the modules that a line names, or why there is none.
    fn deck_of_modules<P: FilePort>(
        &self,
        files: &mut P,
        line: &LineText,
    ) -> Result<Result<WordList, LinkRefusal>, StepFault>
        requires port { P.Usable files.old }
        ensures answer { IfOk result (λ answer. OfSome (P.tells files.old) (P.files files.old)
            (λ fs. answer ≡ files_linked (modules_in line.now) fs)) }
        ensures reads { Reads P.FilePort result files.old files.new }
    {
        let alloc = self.talk.allocator();
        let names = modules_in(alloc, line)?;
        match link_files(alloc, names.as_slice(), files) {
            Ok(deck) => Ok(Ok(deck)),
            Err(LinkFilesFault::Refused(refusal)) => Ok(Err(refusal)),
            Err(LinkFilesFault::Disk) => Err(StepFault::Disk),
            Err(LinkFilesFault::NoMemory) => Err(StepFault::NoMemory),
        }
    }

    /// LINK: the deck of the modules that a line names is put under this name, or it is said why there is none.
    #[tactic(auto, using(user_model::proofs::CoreLaws::recut_same))]
    pub(crate) fn link<P: FilePort>(
        &mut self,
        files: &mut P,
        line: LineText,
        name: Word,
        now: u64,
    ) -> Result<Step, StepFault>
        requires fits { self.old.own < 2 ^ 64 - 1 }
        requires own { IsDirectoryOf P.FilePort self.old files.old }
        ensures row { (core : List ℕ) → IsCoreOf self.old core → IfOk result (λ s. Over (P.tells files.old)
            (stored core (P.files files.old)) (stored core (P.files files.new))
            (DidCommand line (Command.Link name) s.ending s.clock now self.old self.new)) }
        ensures user { KeepsUser result self.old self.new }
        ensures uses { Uses P.FilePort result files.old files.new }
    {
        match self.deck_of_modules(files, &line)? {
            Ok(deck) => self.put_file(files, line, deck_name(name), deck.as_slice(), now),
            Err(refusal) => {
                self.say(line, Some(link_text(refusal)), now)?;
                Ok(DONE)
            }
        }
    }
}

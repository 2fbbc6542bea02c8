//! RUNCOM: the lines of a command file stand before those that were typed.
ghost use Rattle.std.specs.Prelude.{◌≡◌, ◌<◌, ◌-◌, ◌^◌, ℕ, List, drop, true, IfOk};
ghost use Rattle.std.specs.List.{list_all};
ghost use Rattle.bcd48.specs.Characters.{is_character};
ghost use Rattle.ctss_types.specs.Words.{words_of};
ghost use Rattle.file_model.specs.Files.{got};
ghost use Rattle.program_model.specs.CommandLines.{lines_with};
ghost use Rattle.cmd_program.specs.Lines.{lines_got};
ghost use Rattle.user_model.specs.declared.Command.{Command};
ghost use Rattle.user_model.specs.Answers.{DidCommand};
ghost use Rattle.user_model.specs.Commands.{command_file, com_text};
ghost use Rattle.user_session.specs.Changes.{DidFeed};
ghost use Rattle.user_model.specs.Inner.{Stored};
ghost use Rattle.user_session.specs.Stores.{stored, Over, OfSome, Uses, Reads};
ghost use Rattle.user_session.specs.Calls.{IsCoreOf, KeepsUser};

use crate::Step;
use crate::file_command::DONE;
use crate::session::Session;
use cmd_program::{printed, refusal_text};
use ctss_types::{
    FileName, LineList, LineText, NoMemory, Refusal, StepFault, first_word, name_word,
};
use dialogue::runcom::{ComFault, ComRefusal, MOST_LINES, substitute};
use file_map::{FilePort, PortFault};
use word36::Word;

/// The file that commands of this name are read from.
fn command_file(name: Word) -> FileName
    ensures { result ≡ command_file name }
{
    FileName::new(name, name_word(b"RUNCOM"))
}

/// Why lines of a command file aren't added.
fn com_text(refusal: ComRefusal) -> LineText
    ensures { result ≡ com_text refusal }
{
    match refusal {
        ComRefusal::BadArguments => LineText::of(b"BAD ARGUMENTS"),
        ComRefusal::TooLong => LineText::of(b"TOO LONG"),
    }
}

/// What stands behind the first word of a text.
#[tactic(auto, using(dialogue::proofs::Parts::behind_all))]
fn behind_one(text: &[u8]) -> &[u8]
    requires { list_all is_character text.now ≡ true }
    ensures words { words_of result.now ≡ drop 1 (words_of text.now) }
    ensures characters { list_all is_character result.now ≡ true }
{
    let (word, behind) = first_word(text);
    if word.is_empty() { b"" } else { behind }
}

/// What stands behind the first two words of a line: a command and a name.
#[tactic(auto, using(crate::proofs::Words::behind_second))]
pub(crate) fn behind_two(line: &LineText) -> &[u8]
    ensures words { words_of result.now ≡ drop 2 (words_of line.now) }
    ensures characters { list_all is_character result.now ≡ true }
{
    behind_one(behind_one(line.as_slice()))
}

impl Session {
    /// The lines of a command file, or why it isn't read.
    fn command_lines<P: FilePort>(
        &self,
        files: &mut P,
        name: Word,
    ) -> Result<Result<LineList, Refusal>, StepFault>
        requires port { P.Usable files.old }
        ensures answer { IfOk result (λ answer. OfSome (P.tells files.old) (P.files files.old)
            (λ fs. answer ≡ lines_got (got (command_file name) fs))) }
        ensures reads { Reads P.FilePort result files.old files.new }
    {
        match printed(self.talk.allocator(), command_file(name), files) {
            Ok(lines) => Ok(Ok(lines)),
            Err(PortFault::Refused(refusal)) => Ok(Err(refusal)),
            Err(PortFault::Disk) => Err(StepFault::Disk),
            Err(PortFault::NoMemory) => Err(StepFault::NoMemory),
        }
    }

    /// The lines of a command file stand before those unread, or it is said why they don't.
    #[tactic(auto, using(user_model::proofs::CoreLaws::recut_same))]
    fn feed_lines(&mut self, line: LineText, lines: &[LineText], now: u64) -> Result<Step, NoMemory>
        requires fits { self.old.own < 2 ^ 64 - 1 }
        ensures row { (store : Stored) → IsCoreOf self.old store.core → IfOk result (λ s.
            DidFeed line (lines_with lines.now (drop 2 (words_of line)) (256 - (self.old.fed - 1)))
            s.ending s.clock now self.old self.new store store) }
        ensures user { KeepsUser result self.old self.new }
    {
        let left = self.talk.fed_count().saturating_sub(1);
        match substitute(
            self.talk.allocator(),
            lines,
            behind_two(&line),
            MOST_LINES - left,
        ) {
            Ok(made) => {
                self.talk.reserve(4)?;
                self.talk.feed(line, made.as_slice(), now);
                self.count_command();
                Ok(DONE)
            }
            Err(ComFault::Refused(refusal)) => {
                self.say(line, Some(com_text(refusal)), now)?;
                Ok(DONE)
            }
            Err(ComFault::NoMemory) => Err(NoMemory),
        }
    }

    /// RUNCOM: the lines of a command file stand before those unread.
    #[tactic(auto, using(user_model::proofs::CoreLaws::recut_same))]
    pub(crate) fn run_file<P: FilePort>(
        &mut self,
        files: &mut P,
        line: LineText,
        name: Word,
        now: u64,
    ) -> Result<Step, StepFault>
        requires fits { self.old.own < 2 ^ 64 - 1 }
        requires port { P.Usable files.old }
        ensures row { (core : List ℕ) → IsCoreOf self.old core → IfOk result (λ s. Over (P.tells files.old)
            (stored core (P.files files.old)) (stored core (P.files files.new))
            (DidCommand line (Command.RunFile name) s.ending s.clock now self.old self.new)) }
        ensures user { KeepsUser result self.old self.new }
        ensures uses { Uses P.FilePort result files.old files.new }
    {
        match self.command_lines(files, name)? {
            Ok(lines) => {
                let done = self.feed_lines(line, lines.as_slice(), now)?;
                Ok(done)
            }
            Err(refusal) => {
                self.say(line, Some(refusal_text(refusal)), now)?;
                Ok(DONE)
            }
        }
    }
}

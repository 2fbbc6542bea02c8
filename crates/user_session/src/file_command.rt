//! Commands on a user's files.
ghost use Rattle.std.specs.Prelude.{◌≡◌, ◌<◌, ◌+◌, ◌-◌, ◌^◌, ◌++◌, ◌∷◌, [], ℕ, List, suc, true, Some, None, drop, IfOk, OnOk, OnErr};
ghost use Rattle.file_model.specs.Files.{got};
ghost use Rattle.time_sharing.specs.Machine.{In, Out};
ghost use Rattle.time_sharing.specs.Rows.{out_all};
ghost use Rattle.user_model.specs.declared.Command.{Command};
ghost use Rattle.user_model.specs.Texts.{time_text, ready_text};
ghost use Rattle.user_model.specs.Commands.{printed};
ghost use Rattle.user_model.specs.Answers.{DidCommand};
ghost use Rattle.user_session.specs.Changes.{DidPut};
ghost use Rattle.user_session.specs.Stores.{stored, Over, OfSome, Uses, Reads};
ghost use Rattle.user_session.specs.Turns.{Obeys};
ghost use Rattle.ctss_types.specs.declared.file.FileBody.{FileBody};
ghost use Rattle.file_map.specs.Known.{known};
ghost use Rattle.user_session.specs.Calls.{IsCoreOf, IsDirectoryOf, KeepsUser};

use crate::session::Session;
use crate::{Step, Turn};
use cmd_program::{listing, refusal_text};
use ctss_types::{Ending, FileName, LineList, LineText, NoMemory, Sequence, StepFault};
use file_map::{FilePort, PortFault};
use std::alloc::Global;
use word36::Word;

/// A command that is done, after which no program goes on.
pub(crate) const DONE: Step = Step {
    ending: Ending::Stopped,
    clock: true,
};

/// Just one line.
fn one_line(alloc: Global, line: LineText) -> Result<LineList, NoMemory>
    ensures { IfOk result (λ lines. lines ≡ line ∷ []) }
{
    let mut lines = Sequence::new(alloc);
    lines.push(line)?;
    Ok(lines)
}

impl Session {
    /// A command is a step, from which `R n` counts anew.
    pub(crate) fn count_command(&mut self)
        requires fits { self.old.own < 2 ^ 64 - 1 }
        ensures user { self.new ≡ record self.old { own = suc self.old.own; own_at_command = self.old.own } }
    {
        self.own_at_command = self.own;
        self.own += 1;
    }

    /// A line is taken: the line, the time, these texts, and R 1.
    pub(crate) fn say_all(
        &mut self,
        line: LineText,
        lines: &[LineText],
        now: u64,
    ) -> Result<(), NoMemory>
        requires fits { self.old.own < 2 ^ 64 - 1 }
        ensures ok { OnOk result (self.new ≡ record self.old {
          unread = drop 1 self.old.unread;
          fed = self.old.fed - 1;
          transcript = self.old.transcript ++ In line ∷ Out (time_text now) ∷ out_all (lines.now ++ ready_text 1 ∷ []);
          own = suc self.old.own;
          own_at_command = self.old.own;
        }) }
        ensures err { OnErr result (self.new ≡ self.old) }
    {
        self.talk.reserve(lines.len() + 3)?;
        self.talk.answer_all(line, lines, now);
        self.count_command();
        Ok(())
    }

    /// A command that replaces a file's content, or says why it doesn't.
    #[tactic(auto, using(user_model::proofs::CoreLaws::recut_same))]
    pub(crate) fn put_file<P: FilePort>(
        &mut self,
        files: &mut P,
        line: LineText,
        name: FileName,
        words: &[Word],
        now: u64,
    ) -> Result<Step, StepFault>
        requires fits { self.old.own < 2 ^ 64 - 1 }
        requires own { IsDirectoryOf P.FilePort self.old files.old }
        ensures row { (core : List ℕ) (fs : List FileBody) → IsCoreOf self.old core
            → known (P.tells files.old) fs ≡ P.files files.old
            → IfOk result (λ s. OfSome (P.tells files.old) (P.files files.new) (λ has.
            DidPut line name words.now s.ending s.clock now self.old self.new
            (stored core fs) (stored core has))) }
        ensures user { KeepsUser result self.old self.new }
        ensures uses { Uses P.FilePort result files.old files.new }
    {
        self.talk.reserve(4)?;
        match files.put(name, words) {
            Ok(()) => {
                self.talk.answer(line, None, now);
                self.count_command();
                Ok(DONE)
            }
            Err(PortFault::Refused(refusal)) => {
                self.talk.answer(line, Some(refusal_text(refusal)), now);
                self.count_command();
                Ok(DONE)
            }
            Err(PortFault::Disk) => Err(StepFault::Disk),
            Err(PortFault::NoMemory) => Err(StepFault::NoMemory),
        }
    }

    /// LISTF: the files are listed.
    #[tactic(auto, using(user_model::proofs::CoreLaws::recut_same))]
    pub(crate) fn list_files<P: FilePort>(
        &mut self,
        files: &P,
        line: LineText,
        now: u64,
    ) -> Result<Step, NoMemory>
        requires fits { self.old.own < 2 ^ 64 - 1 }
        requires own { IsDirectoryOf P.FilePort self.old files.now }
        ensures row { (core : List ℕ) → IsCoreOf self.old core → IfOk result (λ s.
            DidCommand line Command.List s.ending s.clock now self.old self.new
            (stored core (P.files files.now)) (stored core (P.files files.now))) }
        ensures user { KeepsUser result self.old self.new }
    {
        let lines = listing(self.talk.allocator(), files)?;
        self.say_all(line, lines.as_slice(), now)?;
        Ok(DONE)
    }

    /// A file's words as lines, or why there are none.
    fn lines_of<P: FilePort>(&self, files: &mut P, name: FileName) -> Result<LineList, StepFault>
        requires port { P.Usable files.old }
        ensures lines { IfOk result (λ lines. OfSome (P.tells files.old) (P.files files.old)
            (λ fs. lines ≡ printed (got name fs))) }
        ensures reads { Reads P.FilePort result files.old files.new }
    {
        let alloc = self.talk.allocator();
        match cmd_program::printed(alloc, name, files) {
            Ok(lines) => Ok(lines),
            Err(PortFault::Refused(refusal)) => {
                let lines = one_line(alloc, refusal_text(refusal))?;
                Ok(lines)
            }
            Err(PortFault::Disk) => Err(StepFault::Disk),
            Err(PortFault::NoMemory) => Err(StepFault::NoMemory),
        }
    }

    /// PRINTF: a file's words are printed as lines.
    #[tactic(auto, using(user_model::proofs::CoreLaws::recut_same))]
    pub(crate) fn print_file<P: FilePort>(
        &mut self,
        files: &mut P,
        line: LineText,
        name: FileName,
        now: u64,
    ) -> Result<Turn, StepFault>
        requires fits { self.old.own < 2 ^ 64 - 1 }
        requires port { P.Usable files.old }
        ensures row { (core : List ℕ) → IsCoreOf self.old core → IfOk result (λ turn. Over (P.tells files.old)
            (stored core (P.files files.old)) (stored core (P.files files.new))
            (Obeys line (Command.Print name) turn now self.old self.new)) }
        ensures user { KeepsUser result self.old self.new }
        ensures uses { Uses P.FilePort result files.old files.new }
    {
        let lines = self.lines_of(files, name)?;
        self.say_all(line, lines.as_slice(), now)?;
        Ok(Turn::Done(DONE))
    }

    /// RENAME: a file gets another name.
    #[tactic(auto, using(user_model::proofs::CoreLaws::recut_same))]
    pub(crate) fn rename<P: FilePort>(
        &mut self,
        files: &mut P,
        line: LineText,
        name: FileName,
        to: FileName,
        now: u64,
    ) -> Result<Turn, StepFault>
        requires fits { self.old.own < 2 ^ 64 - 1 }
        requires port { P.Usable files.old }
        ensures row { (core : List ℕ) → IsCoreOf self.old core → IfOk result (λ turn.
            Obeys line (Command.Rename name to) turn now self.old self.new
            (stored core (P.files files.old)) (stored core (P.files files.new))) }
        ensures user { KeepsUser result self.old self.new }
        ensures uses { Uses P.FilePort result files.old files.new }
    {
        self.talk.reserve(4)?;
        match files.rename(name, to) {
            Ok(()) => {
                self.talk.answer(line, None, now);
                self.count_command();
                Ok(Turn::Done(DONE))
            }
            Err(PortFault::Refused(refusal)) => {
                self.talk.answer(line, Some(refusal_text(refusal)), now);
                self.count_command();
                Ok(Turn::Done(DONE))
            }
            Err(PortFault::Disk) => Err(StepFault::Disk),
            Err(PortFault::NoMemory) => Err(StepFault::NoMemory),
        }
    }

    /// DELETE: a file goes.
    #[tactic(auto, using(user_model::proofs::CoreLaws::recut_same))]
    pub(crate) fn delete<P: FilePort>(
        &mut self,
        files: &mut P,
        line: LineText,
        name: FileName,
        now: u64,
    ) -> Result<Turn, StepFault>
        requires fits { self.old.own < 2 ^ 64 - 1 }
        requires port { P.Usable files.old }
        ensures row { (core : List ℕ) → IsCoreOf self.old core → IfOk result (λ turn.
            Obeys line (Command.Delete name) turn now self.old self.new
            (stored core (P.files files.old)) (stored core (P.files files.new))) }
        ensures user { KeepsUser result self.old self.new }
        ensures uses { Uses P.FilePort result files.old files.new }
    {
        self.talk.reserve(4)?;
        match files.delete(name) {
            Ok(()) => {
                self.talk.answer(line, None, now);
                self.count_command();
                Ok(Turn::Done(DONE))
            }
            Err(PortFault::Refused(refusal)) => {
                self.talk.answer(line, Some(refusal_text(refusal)), now);
                self.count_command();
                Ok(Turn::Done(DONE))
            }
            Err(PortFault::Disk) => Err(StepFault::Disk),
            Err(PortFault::NoMemory) => Err(StepFault::NoMemory),
        }
    }

    /// CHMODE: a file gets another mode.
    #[tactic(auto, using(user_model::proofs::CoreLaws::recut_same))]
    pub(crate) fn chmode<P: FilePort>(
        &mut self,
        files: &mut P,
        line: LineText,
        name: FileName,
        mode: u8,
        now: u64,
    ) -> Result<Turn, StepFault>
        requires fits { self.old.own < 2 ^ 64 - 1 }
        requires port { P.Usable files.old }
        ensures row { (core : List ℕ) → IsCoreOf self.old core → IfOk result (λ turn.
            Obeys line (Command.ChangeMode name mode) turn now self.old self.new
            (stored core (P.files files.old)) (stored core (P.files files.new))) }
        ensures user { KeepsUser result self.old self.new }
        ensures uses { Uses P.FilePort result files.old files.new }
    {
        self.talk.reserve(4)?;
        match files.chmode(name, mode) {
            Ok(()) => {
                self.talk.answer(line, None, now);
                self.count_command();
                Ok(Turn::Done(DONE))
            }
            Err(PortFault::Refused(refusal)) => {
                self.talk.answer(line, Some(refusal_text(refusal)), now);
                self.count_command();
                Ok(Turn::Done(DONE))
            }
            Err(PortFault::Disk) => Err(StepFault::Disk),
            Err(PortFault::NoMemory) => Err(StepFault::NoMemory),
        }
    }
}

//! COPY: a file goes to the common files, or comes from them.
ghost use Rattle.std.specs.Prelude.{◌≡◌, ◌<◌, ◌-◌, ◌^◌, ℕ, List, IfOk};
ghost use Rattle.user_model.specs.Commands.{copy_target};
ghost use Rattle.user_model.specs.declared.Command.{Command};
ghost use Rattle.user_session.specs.Changes.{Copies, TookReply};
ghost use Rattle.user_session.specs.Stores.{stored, Over, OfSome, Uses};
ghost use Rattle.ctss_types.specs.declared.file.FileBody.{FileBody};
ghost use Rattle.file_map.specs.Known.{known};
ghost use Rattle.user_session.specs.Turns.{Obeys};
ghost use Rattle.user_session.specs.Calls.{IsCoreOf, IsDirectoryOf, KeepsUser};

use crate::file_command::DONE;
use crate::session::Session;
use crate::{Step, Turn};
use cmd_program::refusal_text;
use ctss_types::{CommonOp, FileName, LineText, Reply, StepFault, WordList};
use file_map::{FilePort, PortFault};
use user_model::Command;

/// The file of the user's own that words of a common file are put as.
fn copy_target(command: Command) -> Option<FileName>
    ensures { result ≡ copy_target command }
{
    match command {
        Command::CopyFrom(name) => Some(name),
        _ => None,
    }
}

impl Session {
    /// COPY TO: the operation that puts the file, or why the file isn't read.
    #[tactic(auto, using(user_model::proofs::CoreLaws::recut_same))]
    pub(crate) fn ask_copy<P: FilePort>(
        &mut self,
        files: &mut P,
        line: LineText,
        name: FileName,
        now: u64,
    ) -> Result<Turn, StepFault>
        requires fits { self.old.own < 2 ^ 64 - 1 }
        requires port { P.Usable files.old }
        ensures row { (core : List ℕ) → IsCoreOf self.old core → IfOk result (λ turn. Over (P.tells files.old)
            (stored core (P.files files.old)) (stored core (P.files files.new))
            (Obeys line (Command.CopyTo name) turn now self.old self.new)) }
        ensures user { KeepsUser result self.old self.new }
        ensures uses { Uses P.FilePort result files.old files.new }
    {
        match files.get(name) {
            Ok(words) => Ok(self.ask(CommonOp::Put { name, words })?),
            Err(PortFault::Refused(refusal)) => {
                self.say(line, Some(refusal_text(refusal)), now)?;
                Ok(Turn::Done(DONE))
            }
            Err(PortFault::Disk) => Err(StepFault::Disk),
            Err(PortFault::NoMemory) => Err(StepFault::NoMemory),
        }
    }

    /// Words that came from the common files are put, where they are to be.
    #[tactic(auto, using(user_model::proofs::CoreLaws::recut_same))]
    fn put_copy<P: FilePort>(
        &mut self,
        files: &mut P,
        line: LineText,
        target: Option<FileName>,
        words: &WordList,
        now: u64,
    ) -> Result<Step, StepFault>
        requires fits { self.old.own < 2 ^ 64 - 1 }
        requires own { IsDirectoryOf P.FilePort self.old files.old }
        ensures row { (core : List ℕ) (fs : List FileBody) → IsCoreOf self.old core
            → known (P.tells files.old) fs ≡ P.files files.old
            → IfOk result (λ s. OfSome (P.tells files.old) (P.files files.new) (λ has.
            Copies line target words.now s.ending s.clock now self.old self.new
            (stored core fs) (stored core has))) }
        ensures user { KeepsUser result self.old self.new }
        ensures uses { Uses P.FilePort result files.old files.new }
    {
        match target {
            Some(name) => self.put_file(files, line, name, words.as_slice(), now),
            None => {
                self.say(line, None, now)?;
                Ok(DONE)
            }
        }
    }

    /// A command that made a common operation goes on with its reply.
    #[tactic(auto, using(user_model::proofs::CoreLaws::recut_same))]
    pub(crate) fn copy_replied<P: FilePort>(
        &mut self,
        files: &mut P,
        line: LineText,
        command: Command,
        reply: &Reply,
        now: u64,
    ) -> Result<Step, StepFault>
        requires fits { self.old.own < 2 ^ 64 - 1 }
        requires own { IsDirectoryOf P.FilePort self.old files.old }
        ensures row { (core : List ℕ) (fs : List FileBody) → IsCoreOf self.old core
            → known (P.tells files.old) fs ≡ P.files files.old
            → IfOk result (λ s. OfSome (P.tells files.old) (P.files files.new) (λ has.
            TookReply line command reply.now s.ending s.clock now self.old self.new
            (stored core fs) (stored core has))) }
        ensures user { KeepsUser result self.old self.new }
        ensures uses { Uses P.FilePort result files.old files.new }
    {
        match reply {
            Reply::Done => {
                self.say(line, None, now)?;
                Ok(DONE)
            }
            Reply::Size(_) => {
                self.say(line, None, now)?;
                Ok(DONE)
            }
            Reply::Words(words) => self.put_copy(files, line, copy_target(command), words, now),
            Reply::Refused(refusal) => {
                self.say(line, Some(refusal_text(*refusal)), now)?;
                Ok(DONE)
            }
        }
    }
}

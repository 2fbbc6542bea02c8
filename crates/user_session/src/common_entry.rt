//! Supervisor entries for common files.
ghost use Rattle.std.specs.Prelude.{◌≡◌, ◌<◌, ◌≤◌, ◌+◌, ◌-◌, ◌^◌, ℕ, List, Ok, Some, length, IfOk};
ghost use Rattle.program_model.specs.declared.Call.{Call};
ghost use Rattle.program_model.specs.declared.CommonCall.{CommonCall};
ghost use Rattle.tia_entry.specs.Buffers.{HasBuffer};
ghost use Rattle.user_model.specs.Programs.{is_common_count, common_arguments, common_buffer, call_asks};
ghost use Rattle.user_session.specs.Changes.{Answered, CallTook};
ghost use Rattle.ctss_types.specs.declared.file.CommonOp.{CommonOp};
ghost use Rattle.ctss_types.specs.declared.file.FileBody.{FileBody};
ghost use Rattle.user_model.specs.Inner.{Stored};
ghost use Rattle.user_session.specs.Stores.{stored};
ghost use Rattle.user_session.specs.Turns.{Enters};
ghost use Rattle.file_model.specs.Commons.{ReplyFits};
ghost use Rattle.user_session.specs.Calls.{CanStep, IsCoreOf, KeepsUser};

use crate::file_entry::{Buffer, WENT};
use crate::session::Session;
use crate::{Step, Turn};
use cpu_regs::MemoryPort;
use ctss_types::{Apart, CommonOp, FileName, NoMemory, Reply, Sequence};
use file_model::refusal_number;
use program_model::{Call, CommonCall};
use tia_entry::{store_fitting, words_in};

/// Whether an operation on common files may have so many words: at most 432.
fn is_common_count(count: u16) -> bool
    ensures { result ≡ is_common_count count }
{
    count <= 432
}

/// How many arguments a call on a common file has.
fn common_arguments(call: &CommonCall) -> u8
    ensures value { result ≡ common_arguments call.now }
    ensures most { result ≤ 3 }
{
    match call {
        CommonCall::Read { .. } | CommonCall::Write { .. } => 3,
        CommonCall::Stat { .. } | CommonCall::Delete { .. } => 1,
    }
}

/// Where words of its reply go.
fn common_buffer(call: &CommonCall) -> u16
    ensures { result ≡ common_buffer call.now }
{
    match call {
        CommonCall::Read { at, .. } => *at,
        _ => 0,
    }
}

impl Session {
    /// The turn of a step that is to make an operation on common files, which finds its place in memory.
    pub(crate) fn ask(&self, op: CommonOp) -> Result<Turn, NoMemory>
        ensures { IfOk result (λ turn. turn ≡ Turn.Asks op) }
    {
        let op = Apart::new(self.talk.allocator(), op)?;
        Ok(Turn::Asks(op))
    }

    /// CRDFIL: the operation that reads words, or reply 7 where there are too many.
    #[tactic(auto, using(user_model::proofs::CoreLaws::recut_same))]
    pub(crate) fn ask_read(
        &mut self,
        name: FileName,
        count: u16,
        place: u64,
    ) -> Result<Turn, NoMemory>
        requires fits { self.old.own < 2 ^ 64 - 1 }
        ensures row { (store : Stored) (at now : ℕ) → IsCoreOf self.old store.core → IfOk result (λ turn.
            Enters (Ok (Call.Common (CommonCall.Read name at count place))) turn now self.old self.new store store) }
        ensures user { KeepsUser result self.old self.new }
    {
        if !is_common_count(count) {
            self.reply(3, 7, None);
            return Ok(Turn::Done(WENT));
        }
        self.ask(CommonOp::Read { name, place, count })
    }

    /// CWRFIL: the operation that writes a buffer, or reply 7 where it has too many words.
    #[tactic(auto, using(user_model::proofs::CoreLaws::recut_same))]
    pub(crate) fn ask_write<M: MemoryPort>(
        &mut self,
        core: &M,
        name: FileName,
        buffer: Buffer,
        place: u64,
    ) -> Result<Turn, NoMemory>
        requires can { CanStep self.old (M.words core.now) }
        requires within { buffer.at + buffer.count ≤ length (M.words core.now) }
        ensures row { (fs : List FileBody) (now : ℕ) → IfOk result (λ turn.
            Enters (Ok (Call.Common (CommonCall.Write name buffer.at buffer.count place))) turn now self.old self.new
            (stored (M.words core.now) fs) (stored (M.words core.now) fs)) }
        ensures user { KeepsUser result self.old self.new }
    {
        if !is_common_count(buffer.count) {
            self.reply(3, 7, None);
            return Ok(Turn::Done(WENT));
        }
        let words = words_in(self.talk.allocator(), core, buffer.at, buffer.count)?;
        self.ask(CommonOp::Write {
            name,
            place,
            words: Sequence::from_vec(words),
        })
    }

    /// A call on the common files: the operation that it makes, or reply 7 where it has too many words.
    pub(crate) fn ask_common<M: MemoryPort>(
        &mut self,
        core: &M,
        call: CommonCall,
    ) -> Result<Turn, NoMemory>
        requires can { CanStep self.old (M.words core.now) }
        requires within { HasBuffer (length (M.words core.now)) (Call.Common call) }
        ensures row { (fs : List FileBody) (now : ℕ) → IfOk result (λ turn.
            Enters (Ok (Call.Common call)) turn now self.old self.new
            (stored (M.words core.now) fs) (stored (M.words core.now) fs)) }
        ensures user { KeepsUser result self.old self.new }
    {
        match call {
            CommonCall::Stat { name } => self.ask(CommonOp::Stat(name)),
            CommonCall::Read {
                name,
                count,
                place,
                ..
            } => self.ask_read(name, count, place),
            CommonCall::Write {
                name,
                at,
                count,
                place,
            } => self.ask_write(core, name, Buffer { at, count }, place),
            CommonCall::Delete { name } => self.ask(CommonOp::Delete(name)),
        }
    }

    /// A call that made a common operation, with so many arguments and a buffer, takes its reply.
    #[tactic(auto, using(user_model::proofs::CoreLaws::recut_same))]
    fn take_answer<M: MemoryPort>(
        &mut self,
        core: &mut M,
        arguments: u8,
        at: u16,
        reply: &Reply,
    ) -> Step
        requires arguments { arguments ≤ 3 }
        requires can { CanStep self.old (M.words core.old) }
        requires reply_fits { ReplyFits reply.now }
        ensures row { (fs : List FileBody) → Answered arguments at reply.now result.ending result.clock
            self.old self.new (stored (M.words core.old) fs) (stored (M.words core.new) fs) }
        ensures account { self.new.inner.account ≡ self.old.inner.account }
        ensures keeps { M.Keeps core.old core.new }
    {
        match reply {
            Reply::Done => {
                self.reply(arguments, 0, None);
                WENT
            }
            Reply::Size(size) => {
                self.reply(arguments, 0, Some(*size));
                WENT
            }
            Reply::Words(words) => {
                store_fitting(core, at, words.as_slice());
                self.reply(arguments, 0, None);
                WENT
            }
            Reply::Refused(refusal) => {
                self.reply(arguments, refusal_number(*refusal), None);
                WENT
            }
        }
    }

    /// A call that made a common operation goes on with its reply.
    pub(crate) fn call_replied<M: MemoryPort>(
        &mut self,
        core: &mut M,
        call: Call,
        reply: &Reply,
    ) -> Step
        requires can { CanStep self.old (M.words core.old) }
        requires reply_fits { ReplyFits reply.now }
        requires asks { (op : CommonOp) × (call_asks call (M.words core.old) ≡ Some op) }
        ensures row { (fs : List FileBody) → CallTook call reply.now result.ending result.clock
            self.old self.new (stored (M.words core.old) fs) (stored (M.words core.new) fs) }
        ensures account { self.new.inner.account ≡ self.old.inner.account }
        ensures keeps { M.Keeps core.old core.new }
    {
        match call {
            Call::Common(asked) => {
                let arguments = common_arguments(&asked);
                let at = common_buffer(&asked);
                self.take_answer(core, arguments, at, reply)
            }
            _ => unreachable!(),
        }
    }
}

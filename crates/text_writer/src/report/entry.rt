ghost use Rattle.std.specs.Prelude.{◌≡◌, ◌++◌};
ghost use Rattle.std.specs.List.{flat_map};
ghost use Rattle.text_model.specs.Parts.{line};
ghost use Rattle.text_model.specs.Report.{op_text, reply_number, entry_text};
ghost use Rattle.text_writer.specs.Lines.{spaced};
ghost use Rattle.text_writer.specs.Writing.{Adds};
ghost use Rattle.text_writer.specs.ReportLines.{spaced_then, worded};

use crate::writer::TextWriter;
use ctss_io::Sink;
use ctss_types::{CommonOp, Entry, Reply};
use file_model::refusal_number;

/// What a reply says in one number.
fn reply_number(reply: &Reply) -> u8
    ensures { result ≡ reply_number reply.now }
{
    match reply {
        Reply::Done | Reply::Size(_) | Reply::Words(_) => 0,
        Reply::Refused(refusal) => refusal_number(*refusal),
    }
}

/// The word of what is done to the common directory.
fn op_word(op: &CommonOp) -> &'static str
    ensures { result.now ≡ op_text op.now }
{
    match op {
        CommonOp::Stat(_) => "STAT",
        CommonOp::Read { .. } => "READ",
        CommonOp::Write { .. } => "WRITE",
        CommonOp::Delete(_) => "DELETE",
        CommonOp::Put { .. } => "PUT",
        CommonOp::Get(_) => "GET",
    }
}

/// Adds a line of a word and numbers.
fn add_line<K: Sink>(out: &mut TextWriter<'_, K>, word: &[u8], numbers: &[u64])
    ensures { Adds K.Sink (line (word.now ++ spaced numbers.now)) out.old out.new }
{
    out.add(word);
    out.end_by(numbers);
}

/// Adds a line of a word, numbers, another word, and numbers again.
fn add_parted<K: Sink>(
    out: &mut TextWriter<'_, K>,
    word: &[u8],
    before: &[u64],
    second: &str,
    behind: &[u64],
)
    ensures { Adds K.Sink (line (word.now ++ spaced_then before.now (worded second.now behind.now))) out.old out.new }
{
    out.add(word);
    out.numbers(before);
    out.blank(second.as_bytes());
    out.end_by(behind);
}

/// Adds the line of an entry.
pub fn add_entry<K: Sink>(out: &mut TextWriter<'_, K>, entry: &Entry)
    ensures { Adds K.Sink (entry_text entry.now) out.old out.new }
{
    match entry {
        Entry::Taken {
            tick,
            console,
            kind,
            user,
            own,
        } => add_parted(
            out,
            b"TAKEN",
            &[*tick, u64::from(*console)],
            kind.word(),
            &[u64::from(*user), *own],
        ),
        Entry::Login {
            tick,
            console,
            user,
        } => add_line(
            out,
            b"LOGIN",
            &[*tick, u64::from(*console), u64::from(*user)],
        ),
        Entry::Refused {
            tick,
            console,
            cause,
        } => add_line(
            out,
            b"REFUSED",
            &[*tick, u64::from(*console), u64::from(*cause)],
        ),
        Entry::Idle { from, until } => add_line(out, b"IDLE", &[*from, *until]),
        Entry::Swap {
            tick,
            user,
            dumped,
            read,
            fresh,
        } => add_line(
            out,
            b"SWAP",
            &[
                *tick,
                u64::from(*user),
                u64::from(*dumped),
                u64::from(*read),
                u64::from(*fresh),
            ],
        ),
        Entry::Rise { tick, user, level } => add_line(
            out,
            b"RISE",
            &[*tick, u64::from(*user), u64::from(*level)],
        ),
        Entry::Serve {
            tick,
            user,
            level,
            ran,
            cause,
        } => add_parted(
            out,
            b"SERVE",
            &[*tick, u64::from(*user), u64::from(*level), *ran],
            cause.word(),
            &[],
        ),
        Entry::Clock { answer, user } => add_line(out, b"CLOCK", &[*answer, u64::from(*user)]),
        Entry::Common { user, op, reply } => add_parted(
            out,
            b"SHARED",
            &[u64::from(*user)],
            op_word(op.get()),
            &[u64::from(reply_number(reply))],
        ),
    }
}

/// Adds the schedule.
pub fn add_entries<K: Sink>(out: &mut TextWriter<'_, K>, entries: &[Entry])
    ensures { Adds K.Sink (flat_map entry_text entries.now) out.old out.new }
{
    for entry in entries {
        add_entry(out, entry);
    }
}

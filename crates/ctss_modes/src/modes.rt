//! A script is read or made, run, and the text of its run written.
ghost use Rattle.std.specs.Prelude.{◌≡◌, ◌≢◌, ◌∷◌, [], true};
ghost use Rattle.faults.specs.Faults.{Rose, WhereTold};
ghost use Rattle.ctss_io.specs.Outside.{after};
ghost use Rattle.ctss_io.specs.Whole.{GrewByProperPrefix};
ghost use Rattle.text_model.specs.Report.{report_of};
ghost use Rattle.text_model.specs.Reading.{script_of};
ghost use Rattle.text_model.specs.Lawful.{IsLawful};
ghost use Rattle.text_writer.specs.Writing.{Adds};
ghost use Rattle.drum_slots.specs.Kept.{ServesSlots};
ghost use Rattle.track_store.specs.Tracks.{ServesTracks};
ghost use Rattle.live_run.specs.Media.{media_seen};
ghost use Rattle.console_link.specs.Links.{LinkSeen};
ghost use Rattle.ctss_modes.specs.Outcomes.{bare, IsOneOf};
ghost use Rattle.ctss_modes.specs.Modes.{TextOfRun, replays, text_for};
ghost use Rattle.ctss_modes.specs.Devices.{InputSeen, output_seen, devices, devices_seen};
ghost use Rattle.ctss_modes.specs.Statuses.{Performs, AnswersFor};
ghost use Rattle.ctss_modes.specs.Top.{statuses_for};

use crate::outcome::Outcome;
use crate::record::record_script;
use crate::write::{end_unread, refuse_script};
use ctss_io::{Sink, Source, read_bytes};
use ctss_types::{Record, Script};
use live_run::Played;
use made_script::make_script;
use medium::Medium;
use script_read::{ScriptFault, ScriptText, read_script};
use std::alloc::Global;
use text_model::Mode;
use text_writer::report::{Report, Summary};
use text_writer::{Text, TextFault, TextWriter, write_text};

/// A text of a script's run, which goes out piece by piece.
pub trait RunText {
    /// Its bytes, of this script and this record.
    ghost bytes: { Self → TextOfRun };

    /// Adds it.
    fn add_to<K: Sink>(&self, script: &Script, run: &Record, out: &mut TextWriter<'_, K>)
        ensures { Adds K.Sink (bytes self.now script.now run.now) out.old out.new };
}

/// In a mode that runs a script, the text of the run; that of live consoles begins with the script.
impl RunText for Mode {
    ghost use Rattle.ctss_modes.specs.Modes.{text_for};

    ghost bytes = { λ mode. text_for mode };

    fn add_to<K: Sink>(&self, script: &Script, run: &Record, out: &mut TextWriter<'_, K>) {
        add_run(out, *self, script, run);
    }
}

/// The text of one run.
#[derive(Drop)]
struct Shown<'a, T: RunText> {
    text: &'a T,
    script: &'a Script,
    run: &'a Record,
}

impl<T: RunText> Text for Shown<'_, T> {
    ghost bytes = { λ s. T.bytes s.text.now s.script.now s.run.now };

    fn add_to<K: Sink>(&self, out: &mut TextWriter<'_, K>) {
        self.text.add_to(self.script, self.run, out);
    }
}

/// Adds a report.
fn add_report<K: Sink>(out: &mut TextWriter<'_, K>, script: &Script, run: &Record, dump: bool)
    ensures { Adds K.Sink (report_of script.now run.now dump) out.old out.new }
{
    let report = Report { script, run, dump };
    report.add_to(out);
}

/// Adds the text of a run.
fn add_run<K: Sink>(out: &mut TextWriter<'_, K>, mode: Mode, script: &Script, run: &Record)
    ensures { Adds K.Sink (text_for mode script.now run.now) out.old out.new }
{
    match mode {
        Mode::Replay => add_report(out, script, run, false),
        Mode::Dump => add_report(out, script, run, true),
        Mode::Load(n) => {
            let summary = Summary { n, script, run };
            summary.add_to(out);
        }
        Mode::Serve { .. } => {
            let text = ScriptText { script };
            text.add_to(out);
            add_report(out, script, run, false);
        }
        Mode::Asm => {}
    }
}

/// The text of a run is written.
pub(crate) fn write_run<T: RunText, K: Sink>(
    alloc: Global,
    text: &T,
    script: &Script,
    run: Record,
    sink: &mut K,
) -> Outcome
    ensures status { IsOneOf result.status (0 ∷ 4 ∷ 8 ∷ []) }
    ensures run { result.status ≢ 8 → result.run ≡ run }
    ensures numbers { (result.card ≡ 0) × (result.cause ≡ 0) }
    ensures text { result.status ≡ 0 → K.held sink.new
        ≡ after (K.held sink.old) (T.bytes text.now script.now result.run) }
    ensures part { result.status ≡ 4
        → GrewByProperPrefix (K.held sink.old) (T.bytes text.now script.now result.run) (K.held sink.new) }
    ensures cause { result.status ≡ 4 → Rose (K.faults sink.old) (K.faults sink.new) }
    ensures memory { result.status ≡ 8 → result ≡ bare 8 0 0 }
    ensures silent { result.status ≡ 8 → K.held sink.new ≡ K.held sink.old }
{
    let text = Shown {
        text,
        script,
        run: &run,
    };
    match write_text(alloc, sink, &text) {
        Ok(()) => Outcome {
            status: 0,
            card: 0,
            cause: 0,
            run,
        },
        Err(TextFault::Write) => Outcome {
            status: 4,
            card: 0,
            cause: 0,
            run,
        },
        Err(TextFault::NoMemory) => Outcome::bare(alloc, 8, 0, 0),
    }
}

/// A script is run over drum and disk, and the text of its run is written.
pub fn perform<T: RunText, K: Sink, D: Medium, F: Medium>(
    alloc: Global,
    text: &T,
    script: &Script,
    sink: &mut K,
    drum: &mut D,
    disk: &mut F,
) -> Outcome
    requires lawful { IsLawful script.now }
    requires drum { ServesSlots (D.contents drum.old) (D.record_count drum.old) (D.words_each drum.old) 3840 }
    requires disk { ServesTracks (F.contents disk.old) (F.record_count disk.old) (F.words_each disk.old) 10000 }
    ensures { Performs (T.bytes text.now) script.now
        (media_seen D.Medium F.Medium drum.old disk.old) (media_seen D.Medium F.Medium drum.new disk.new)
        (output_seen K.Sink sink.old) (output_seen K.Sink sink.new) result }
{
    match record_script(alloc, script, drum, disk) {
        Ok(Played::Done(run)) => write_run(alloc, text, script, run, sink),
        Ok(Played::DrumFailed(run)) => Outcome::failed(5, run),
        Ok(Played::DiskFailed(run)) => Outcome::failed(6, run),
        Err(_) => Outcome::bare(alloc, 8, 0, 0),
    }
}

/// A script is read, run, and the text of its run written.
pub(crate) fn replay<S: Source, K: Sink, D: Medium, F: Medium>(
    alloc: Global,
    mode: Mode,
    script: &mut S,
    sink: &mut K,
    drum: &mut D,
    disk: &mut F,
) -> Outcome
    requires mode { replays mode ≡ true }
    requires drum { ServesSlots (D.contents drum.old) (D.record_count drum.old) (D.words_each drum.old) 3840 }
    requires disk { ServesTracks (F.contents disk.old) (F.record_count disk.old) (F.words_each disk.old) 10000 }
    ensures status { IsOneOf result.status (0 ∷ 2 ∷ 3 ∷ 4 ∷ 5 ∷ 6 ∷ 8 ∷ []) }
    ensures answers { (link : LinkSeen) → AnswersFor mode
        (devices_seen S.Source K.Sink D.Medium F.Medium script.old sink.old drum.old disk.old link)
        (devices_seen S.Source K.Sink D.Medium F.Medium script.new sink.new drum.new disk.new link) result }
    ensures statuses { WhereTold (S.left script.old) (λ bytes. IsOneOf result.status (statuses_for (script_of bytes))) }
{
    let bytes = match read_bytes(alloc, script) {
        Ok(bytes) => bytes,
        Err(end) => return end_unread(alloc, sink, end),
    };
    match read_script(alloc, &bytes) {
        Ok(script) => perform(alloc, &mode, &script, sink, drum, disk),
        Err(ScriptFault::Refused(refusal)) => {
            refuse_script(alloc, sink, refusal.card, refusal.cause.number())
        }
        Err(ScriptFault::NoMemory) => Outcome::bare(alloc, 8, 0, 0),
    }
}

/// The script that is made of a number is run, and a summary written. Nothing is read.
pub(crate) fn load<K: Sink, D: Medium, F: Medium>(
    alloc: Global,
    n: u32,
    sink: &mut K,
    drum: &mut D,
    disk: &mut F,
) -> Outcome
    requires drum { ServesSlots (D.contents drum.old) (D.record_count drum.old) (D.words_each drum.old) 3840 }
    requires disk { ServesTracks (F.contents disk.old) (F.record_count disk.old) (F.words_each disk.old) 10000 }
    ensures status { IsOneOf result.status (0 ∷ 4 ∷ 5 ∷ 6 ∷ 8 ∷ []) }
    ensures answers { (input : InputSeen) (link : LinkSeen) → AnswersFor (Mode.Load n)
        (devices input (output_seen K.Sink sink.old) (media_seen D.Medium F.Medium drum.old disk.old) link)
        (devices input (output_seen K.Sink sink.new) (media_seen D.Medium F.Medium drum.new disk.new) link) result }
{
    match make_script(alloc, n) {
        Ok(script) => perform(alloc, &Mode::Load(n), &script, sink, drum, disk),
        Err(_) => Outcome::bare(alloc, 8, 0, 0),
    }
}

//! Texts that are written at the end of a call, and the refusals.
ghost use Rattle.std.specs.Prelude.{◌≡◌, ◌≢◌, ◌∷◌, [], IfOk};
ghost use Rattle.faults.specs.Faults.{Rose};
ghost use Rattle.ctss_io.specs.Outside.{after};
ghost use Rattle.ctss_io.specs.Whole.{GrewByProperPrefix};
ghost use Rattle.text_model.specs.Words.{words_refused, script_refused};
ghost use Rattle.ctss_modes.specs.Outcomes.{bare, cut_off, IsOneOf};
ghost use Rattle.ctss_modes.specs.Devices.{output_seen};
ghost use Rattle.ctss_modes.specs.Unread.{EndsBy};

use crate::outcome::Outcome;
use ctss_io::{ReadEnd, Sink, write_all};
use ctss_types::{Bytes, NoMemory, Sequence};
use std::alloc::Global;
use std::fmt::Write;

/// Writes a text behind which the call is over, with this outcome where all is written.
pub(crate) fn write_out<K: Sink>(sink: &mut K, text: &[u8], outcome: Outcome) -> Outcome
    requires { outcome.status ≢ 4 }
    ensures done { result.status ≢ 4 → result ≡ outcome }
    ensures written { result.status ≢ 4 → K.held sink.new ≡ after (K.held sink.old) text.now }
    ensures cut { result.status ≡ 4 → result ≡ cut_off outcome }
    ensures part { result.status ≡ 4 → GrewByProperPrefix (K.held sink.old) text.now (K.held sink.new) }
    ensures cause { result.status ≡ 4 → Rose (K.faults sink.old) (K.faults sink.new) }
{
    match write_all(sink, text) {
        Ok(()) => outcome,
        Err(_) => Outcome {
            status: 4,
            card: 0,
            cause: 0,
            run: outcome.run,
        },
    }
}

/// The text of a refusal of a script.
fn refusal(alloc: Global, card: u32, cause: u8) -> Result<Bytes, NoMemory>
    ensures { IfOk result (λ text. text ≡ script_refused card cause) }
{
    let mut text = String::new(alloc);
    writeln!(text, "SCRIPT REFUSED AT CARD {card}: {cause}")?;
    Ok(Sequence::from_vec(text.into_bytes()))
}

/// The words are refused.
pub fn refuse_words<K: Sink>(alloc: Global, sink: &mut K) -> Outcome
    ensures status { IsOneOf result.status (1 ∷ 4 ∷ []) }
    ensures refused { result.status ≡ 1 → result ≡ bare 1 0 0 }
    ensures written { result.status ≡ 1 → K.held sink.new ≡ after (K.held sink.old) words_refused }
    ensures cut { result.status ≡ 4 → result ≡ bare 4 0 0 }
    ensures part { result.status ≡ 4 → GrewByProperPrefix (K.held sink.old) words_refused (K.held sink.new) }
    ensures cause { result.status ≡ 4 → Rose (K.faults sink.old) (K.faults sink.new) }
{
    write_out(sink, b"WORDS REFUSED\n", Outcome::bare(alloc, 1, 0, 0))
}

/// The script is refused.
pub fn refuse_script<K: Sink>(alloc: Global, sink: &mut K, card: u32, cause: u8) -> Outcome
    ensures status { IsOneOf result.status (2 ∷ 4 ∷ 8 ∷ []) }
    ensures refused { result.status ≡ 2 → result ≡ bare 2 card cause }
    ensures written { result.status ≡ 2 → K.held sink.new ≡ after (K.held sink.old) (script_refused card cause) }
    ensures cut { result.status ≡ 4 → result ≡ bare 4 0 0 }
    ensures part { result.status ≡ 4
        → GrewByProperPrefix (K.held sink.old) (script_refused card cause) (K.held sink.new) }
    ensures cause { result.status ≡ 4 → Rose (K.faults sink.old) (K.faults sink.new) }
    ensures memory { result.status ≡ 8 → result ≡ bare 8 0 0 }
    ensures silent { result.status ≡ 8 → K.held sink.new ≡ K.held sink.old }
{
    match refusal(alloc, card, cause) {
        Ok(text) => write_out(sink, text.as_slice(), Outcome::bare(alloc, 2, card, cause)),
        Err(_) => Outcome::bare(alloc, 8, 0, 0),
    }
}

/// Ends a call whose input was not read to its end: more came than may, which is written, a read failed, or memory lacked.
pub fn end_unread<K: Sink>(alloc: Global, sink: &mut K, end: ReadEnd) -> Outcome
    ensures { EndsBy end (output_seen K.Sink sink.old) (output_seen K.Sink sink.new) result }
{
    match end {
        ReadEnd::TooLong => refuse_script(alloc, sink, 0, 8),
        ReadEnd::Fault => Outcome::bare(alloc, 3, 0, 0),
        ReadEnd::NoMemory => Outcome::bare(alloc, 8, 0, 0),
    }
}

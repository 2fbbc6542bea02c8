ghost use Rattle.std.specs.Prelude.{◌≡◌, ◌≤◌, ◌*◌, ◌^◌, length, List};
ghost use Rattle.text_model.specs.Summary.{items_in, counted, summary_of};
ghost use Rattle.text_writer.specs.Writing.{Adds};
ghost use Rattle.text_writer.specs.Sums.{AreSums};

use crate::report::schedule::sums_over;
use crate::text::Text;
use crate::writer::TextWriter;
use ctss_io::Sink;
use ctss_types::{Entry, Items, Record, Script};

/// All items of all transcripts.
fn items_in(transcripts: &[Items]) -> u128
    ensures { result ≡ items_in transcripts.now }
{
    transcripts.iter().map(|items| items.len() as u128).sum()
}

/// Adds a word and its number.
fn add_counted<K: Sink>(out: &mut TextWriter<'_, K>, word: &str, n: u128)
    ensures { Adds K.Sink (counted word.now n) out.old out.new }
{
    out.add(word.as_bytes());
    out.number(n);
    out.end_line();
}

/// Adds a summary.
fn add_summary<K: Sink>(out: &mut TextWriter<'_, K>, n: u32, script: &Script, run: &Record)
    ensures { Adds K.Sink (summary_of n script.now run.now) out.old out.new }
{
    let sums = sums_over(run.entries.as_slice());
    add_counted(out, "LOAD", u128::from(n));
    add_counted(out, "USERS", script.accounts.len() as u128);
    add_counted(out, "ITEMS", items_in(run.transcripts.as_slice()));
    add_counted(out, "SERVES", sums.serves);
    add_counted(out, "SWAPS", sums.swaps);
    add_counted(out, "DUMPED", sums.dumped);
    add_counted(out, "READ", sums.read);
    add_counted(out, "STEPS", sums.steps);
    add_counted(out, "END", u128::from(run.clock));
}

/// The summary of the run of the script that is made of a number.
#[derive(Clone, Copy)]
pub struct Summary<'a> {
    pub n: u32,
    pub script: &'a Script,
    pub run: &'a Record,
}

impl Text for Summary<'_> {
    ghost use Rattle.text_model.specs.Summary.{summary_of};

    ghost bytes = { λ s. summary_of s.n s.script.now s.run.now };

    fn add_to<K: Sink>(&self, out: &mut TextWriter<'_, K>) {
        add_summary(out, self.n, self.script, self.run);
    }
}

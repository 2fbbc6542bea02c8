//! The report of a script's record, and the summary of a made script's.
ghost use Rattle.std.specs.Prelude.{◌++◌, codes};
ghost use Rattle.text_model.specs.Parts.{line, number};
ghost use Rattle.text_model.specs.Report.{report_of};
ghost use Rattle.text_writer.specs.Writing.{Adds};

mod account;
mod entry;
mod file;
mod load;
mod schedule;

use crate::text::Text;
use crate::writer::TextWriter;
use ctss_io::Sink;
use ctss_types::{Record, Script};
pub use entry::add_entry;
pub use load::Summary;

/// Adds the line that ends a report.
fn add_end<K: Sink>(out: &mut TextWriter<'_, K>, clock: u64)
    ensures { Adds K.Sink (line (codes "END" ++ number clock)) out.old out.new }
{
    out.add(b"END");
    out.number(clock);
    out.end_line();
}

/// Adds a report.
fn add_report<K: Sink>(out: &mut TextWriter<'_, K>, script: &Script, run: &Record, dump: bool)
    ensures { Adds K.Sink (report_of script.now run.now dump) out.old out.new }
{
    account::add_accounts(out, script.accounts.as_slice(), run, dump);
    out.line(b"COMMON");
    file::add_files(out, run.common.as_slice(), dump);
    out.line(b"SCHEDULE");
    entry::add_entries(out, run.entries.as_slice());
    add_end(out, run.clock);
}

/// The report of a script's record: in a dump the words of each file stand behind it.
#[derive(Clone, Copy)]
pub struct Report<'a> {
    pub script: &'a Script,
    pub run: &'a Record,
    pub dump: bool,
}

impl Text for Report<'_> {
    ghost use Rattle.text_model.specs.Report.{report_of};

    ghost bytes = { λ r. report_of r.script.now r.run.now r.dump };

    fn add_to<K: Sink>(&self, out: &mut TextWriter<'_, K>) {
        add_report(out, self.script, self.run, self.dump);
    }
}

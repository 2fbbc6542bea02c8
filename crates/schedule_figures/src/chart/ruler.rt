//! The ruler over the rows.
ghost use Rattle.std.specs.Prelude.{◌≤◌};
ghost use Rattle.picture_model.specs.Chart.{ruler, ruler_from};
ghost use Rattle.text_writer.specs.Writing.{Adds};

use crate::chart::columns::Columns;
use crate::chart::numbers::add_left;
use crate::chart::place::tick_at;
use ctss_io::Sink;
use ctss_types::Entry;
use text_writer::TextWriter;

/// Adds the tick over each tenth column, so many of them.
fn add_ticks<K: Sink>(out: &mut TextWriter<'_, K>, each: u64, count: usize, entries: &[Entry])
    requires { count ≤ 11 }
    ensures { Adds K.Sink (ruler_from each 0 count entries.now) out.old out.new }
{
    for tenth in 0..count {
        add_left(out, tick_at(10 * tenth as u128 * u128::from(each), entries));
    }
}

/// Adds the ruler.
pub fn add_ruler<K: Sink>(out: &mut TextWriter<'_, K>, columns: Columns, entries: &[Entry])
    ensures { Adds K.Sink (ruler columns.each columns.count entries.now) out.old out.new }
{
    out.add(b"TICK      ");
    add_ticks(out, columns.each, (columns.count + 9) / 10, entries);
    out.end_line();
}

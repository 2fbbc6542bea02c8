//! The levels' rows.
ghost use Rattle.std.specs.List.{flat_map};
ghost use Rattle.picture_model.specs.Chart.{level_line};
ghost use Rattle.text_writer.specs.Writing.{Adds};

use crate::chart::columns::Columns;
use crate::chart::rows::add_level_row;
use ctss_io::Sink;
use ctss_types::Entry;
use text_writer::TextWriter;
use text_writer::columns::add_number;

/// Adds the line of a level.
fn add_level<K: Sink>(out: &mut TextWriter<'_, K>, columns: Columns, entries: &[Entry], level: u8)
    ensures { Adds K.Sink (level_line columns.each columns.count entries.now level) out.old out.new }
{
    out.add(b"LEVEL ");
    add_number(out, level);
    out.add(b"   ");
    add_level_row(out, columns, level, entries);
    out.end_line();
}

/// Adds the lines of some levels.
pub fn add_levels<K: Sink>(
    out: &mut TextWriter<'_, K>,
    columns: Columns,
    entries: &[Entry],
    levels: &[u8],
)
    ensures { Adds K.Sink (flat_map (level_line columns.each columns.count entries.now) levels.now) out.old out.new }
{
    for level in levels {
        add_level(out, columns, entries, *level);
    }
}

//! The whole picture.
ghost use Rattle.std.specs.Prelude.{map};
ghost use Rattle.picture_model.specs.Chart.{chart_head, chart_with, chart_of};
ghost use Rattle.picture_model.specs.Cores.{owner_in};
ghost use Rattle.picture_model.specs.CoreLines.{chart_over};
ghost use Rattle.text_writer.specs.Writing.{Adds};

use crate::chart::columns::{Columns, columns_for};
use crate::chart::core_lines::add_core_lines;
use crate::chart::levels::add_levels;
use crate::chart::maps::CoreMaps;
use crate::chart::place::places_in;
use crate::chart::ruler::add_ruler;
use crate::chart::users::add_users;
use crate::time::add_time_line;
use ctss_io::Sink;
use ctss_types::{Record, Script};
use text_writer::TextWriter;
use text_writer::columns::add_number;

/// How the rows are read, behind the ticks of a column.
const HOW_READ: &[u8] =
    b" TICKS A COLUMN; OF IDLE TIME AT MOST 52 TICKS ARE SHOWN. . IN A QUEUE, / BROUGHT INTO CORE, 0 TO 8 SERVED AT";

/// The line behind it.
const HOW_READ_FURTHER: &[u8] =
    b"THAT LEVEL. ABOVE: V A LINE, Q A QUIT, H A HANG-UP, S A LINE TOO MANY, R A RISE. BELOW: WHO WAS SERVED (A IS USER 10).";

/// What stands over the lines of core.
const CORE_HEAD: &[u8] =
    b"      TICK  USER  DUMPED    READ CLEARED  PLACES OF CORE BEHIND THE LOAD, AND WHOSE THEY ARE";

/// Adds how the picture is read.
fn add_head<K: Sink>(out: &mut TextWriter<'_, K>, each: u64)
    ensures { Adds K.Sink (chart_head each) out.old out.new }
{
    add_number(out, each);
    out.add(HOW_READ);
    out.end_line();
    out.line(HOW_READ_FURTHER);
}

/// Adds the picture in these columns.
fn add_in_columns<K: Sink>(
    out: &mut TextWriter<'_, K>,
    columns: Columns,
    script: &Script,
    run: &Record,
)
    ensures { Adds K.Sink (chart_with columns.each columns.count script.now run.now) out.old out.new }
{
    let swap = script.params.swap;
    let entries = run.entries.as_slice();
    add_time_line(out, swap, run);
    out.end_line();
    add_head(out, columns.each);
    add_ruler(out, columns, entries);
    add_users(out, columns, swap, script.accounts.as_slice(), entries);
    add_levels(out, columns, entries, &[0, 1, 2, 3, 4, 5, 6, 7, 8]);
}

/// Adds the rows of a run: who ran, and at which level.
fn add_rows_of_run<K: Sink>(out: &mut TextWriter<'_, K>, script: &Script, run: &Record)
    ensures { Adds K.Sink (chart_of script.now run.now) out.old out.new }
{
    add_in_columns(out, columns_for(places_in(run)), script, run);
}

/// Adds the picture of a record: who ran and at which level, and core after each load, of which these maps say whose
/// each place is.
pub fn add_chart<K: Sink>(
    out: &mut TextWriter<'_, K>,
    script: &Script,
    run: &Record,
    maps: &CoreMaps,
)
    ensures { Adds K.Sink (chart_over (map owner_in maps.now) script.now run.now) out.old out.new }
{
    add_rows_of_run(out, script, run);
    out.line(CORE_HEAD);
    add_core_lines(out, maps, run.entries.as_slice());
}

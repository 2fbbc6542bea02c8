//! Rows of cells, each painted in one pass over the entries.
ghost use Rattle.std.specs.Prelude.{◌≡◌, ◌<◌, ◌≤◌, length, take};
ghost use Rattle.picture_model.specs.declared.request.Track.TheVariants.{Fresh};
ghost use Rattle.picture_model.specs.Marks.{cells, event_row, served_row, level_row};
ghost use Rattle.text_writer.specs.Writing.{Adds};
ghost use Rattle.schedule_figures.specs.Painted.{IsRowOf};

use crate::chart::columns::Columns;
use crate::chart::marks::{paint_event, paint_level, paint_served};
use crate::chart::place::cut_of;
use crate::chart::row::Row;
use ctss_io::Sink;
use ctss_types::Entry;
use picture_model::Track;
use text_writer::TextWriter;

/// What came to a user.
fn event_row(each: u64, user: u64, entries: &[Entry]) -> Row
    requires { 0 < each }
    ensures { IsRowOf each (event_row user 0 entries.now) result }
{
    let mut row = Row::blank(each);
    let mut cut: u128 = 0;
    for entry in entries {
        paint_event(&mut row, user, cut, entry);
        cut += u128::from(cut_of(entry));
    }
    row
}

/// How a user waited and was served.
fn served_row(each: u64, swap: u64, user: u64, entries: &[Entry]) -> Row
    requires { 0 < each }
    ensures { IsRowOf each (served_row swap user 0 Fresh entries.now) result }
{
    let mut row = Row::blank(each);
    let mut cut: u128 = 0;
    let mut track = Track::Fresh;
    for entry in entries {
        paint_served(&mut row, swap, user, cut, track, entry);
        cut += u128::from(cut_of(entry));
        track = track.after(user, entry);
    }
    row
}

/// Who was served at a level.
fn level_row(each: u64, level: u8, entries: &[Entry]) -> Row
    requires { 0 < each }
    ensures { IsRowOf each (level_row level 0 entries.now) result }
{
    let mut row = Row::blank(each);
    let mut cut: u128 = 0;
    for entry in entries {
        paint_level(&mut row, level, cut, entry);
        cut += u128::from(cut_of(entry));
    }
    row
}

/// Adds the first cells of a row.
fn add_cells<K: Sink>(out: &mut TextWriter<'_, K>, row: &Row, count: usize)
    requires { count ≤ 110 }
    ensures text { Adds K.Sink (take count row.now.cells) out.old out.new }
    ensures size { length row.now.cells ≡ 110 }
{
    out.add(row.cells.split_at(count).0);
}

/// Adds what came to a user.
pub fn add_event_row<K: Sink>(
    out: &mut TextWriter<'_, K>,
    columns: Columns,
    user: u64,
    entries: &[Entry],
)
    ensures { Adds K.Sink (cells columns.each 0 columns.count (event_row user 0 entries.now)) out.old out.new }
{
    add_cells(out, &event_row(columns.each, user, entries), columns.count);
}

/// Adds how a user waited and was served.
pub fn add_served_row<K: Sink>(
    out: &mut TextWriter<'_, K>,
    columns: Columns,
    swap: u64,
    user: u64,
    entries: &[Entry],
)
    ensures { Adds K.Sink (cells columns.each 0 columns.count (served_row swap user 0 Fresh entries.now))
        out.old out.new }
{
    add_cells(
        out,
        &served_row(columns.each, swap, user, entries),
        columns.count,
    );
}

/// Adds who was served at a level.
pub fn add_level_row<K: Sink>(
    out: &mut TextWriter<'_, K>,
    columns: Columns,
    level: u8,
    entries: &[Entry],
)
    ensures { Adds K.Sink (cells columns.each 0 columns.count (level_row level 0 entries.now)) out.old out.new }
{
    add_cells(out, &level_row(columns.each, level, entries), columns.count);
}

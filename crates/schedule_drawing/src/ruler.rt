//! The ruler, and names of levels.
ghost use Rattle.std.specs.Prelude.{◌*◌, ◌/◌, ◌≤◌, suc};
ghost use Rattle.std.specs.List.{flat_map};
ghost use Rattle.picture_model.specs.Drawing.{level_name, ruler, ruler_mark};
ghost use Rattle.text_writer.specs.Writing.{Adds};

use crate::shape::{Area, Point, add_box, add_number_at, begin_text};
use crate::sheet::Sheet;
use ctss_io::Sink;
use ctss_types::Entry;
use schedule_figures::chart::tick_at;
use text_writer::TextWriter;
use text_writer::columns::add_number;

/// Adds a line across all rows at a place, and the tick there.
fn add_mark<K: Sink>(out: &mut TextWriter<'_, K>, sheet: Sheet, place: u64, entries: &[Entry])
    ensures { Adds K.Sink (ruler_mark sheet.scale sheet.zoom sheet.users place entries.now) out.old out.new }
{
    let line = Area {
        x: sheet.across(place),
        y: sheet.units(76),
        width: u128::from(sheet.scale),
        height: sheet.level_top(9).saturating_sub(sheet.units(76)),
    };
    let number = Point {
        x: sheet.across(place),
        y: sheet.units(72),
    };
    add_box(out, b"grid", line);
    add_number_at(out, b"w", number, tick_at(u128::from(place), entries));
}

/// Adds the name of a level before its row.
fn add_level_name<K: Sink>(out: &mut TextWriter<'_, K>, sheet: Sheet, level: u8)
    ensures { Adds K.Sink (level_name sheet.scale sheet.users level) out.old out.new }
{
    let at = Point {
        x: sheet.units(4),
        y: sheet.level_top(level) + sheet.units(11),
    };
    begin_text(out, b"w", at);
    out.add(b"LEVEL ");
    add_number(out, level);
    out.line(b"</text>");
}

/// Adds the names of some levels.
pub(crate) fn add_level_names<K: Sink>(out: &mut TextWriter<'_, K>, sheet: Sheet, levels: &[u8])
    ensures { Adds K.Sink (flat_map (level_name sheet.scale sheet.users) levels.now) out.old out.new }
{
    for level in levels {
        add_level_name(out, sheet, *level);
    }
}

/// Adds the ruler over so many places, with so many between two of its lines.
pub(crate) fn add_ruler<K: Sink>(
    out: &mut TextWriter<'_, K>,
    sheet: Sheet,
    each: u64,
    places: u64,
    entries: &[Entry],
)
    requires { 1 ≤ each }
    ensures { Adds K.Sink (ruler sheet.scale sheet.zoom sheet.users each places entries.now) out.old out.new }
{
    for mark in 0..u128::from(places / each) + 1 {
        add_mark(out, sheet, each * mark as u64, entries);
    }
}

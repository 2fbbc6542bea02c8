//! The picture as a whole.
ghost use Rattle.std.specs.Prelude.{◌*◌, ◌≤◌, codes, map};
ghost use Rattle.picture_model.specs.Cores.{owner_in};
ghost use Rattle.picture_model.specs.Drawing.{back_drawn, figures_drawn, legend, rows_drawn, sheet as sheet_text, sheet_begun, style, words_at};
ghost use Rattle.picture_model.specs.FigureLines.{time_line};
ghost use Rattle.picture_model.specs.Picture.{drawing_over};
ghost use Rattle.text_writer.specs.Writing.{Adds};

use crate::core_rows::add_cores;
use crate::layer::add_layer;
use crate::level::{IdleTimes, LevelRows};
use crate::ruler::{add_level_names, add_ruler};
use crate::shape::{Area, Point, add_attribute, add_box, add_words, begin_text};
use crate::sheet::{Sheet, scale_for, zoom_for};
use crate::user::UserRows;
use crate::wait::add_users;
use ctss_io::Sink;
use ctss_types::{Account, Entry, Record, Script};
use schedule_figures::chart::{CoreMaps, places_in};
use schedule_figures::{add_figures, add_time_line};
use text_writer::TextWriter;
use text_writer::columns::add_number;

/// Adds the first lines of a picture of so many places.
fn begin_sheet<K: Sink>(out: &mut TextWriter<'_, K>, sheet: Sheet, places: u64)
    requires { 1 ≤ sheet.scale }
    ensures { Adds K.Sink (sheet_begun sheet.scale sheet.zoom sheet.users places) out.old out.new }
{
    out.add(b"<svg xmlns='http://www.w3.org/2000/svg' font-family='monospace'");
    add_attribute(out, b" font-size='", sheet.units(11));
    out.add(b" viewBox='0 0 ");
    add_number(out, sheet.width(places));
    out.add(b" ");
    add_number(out, sheet.height());
    out.add(b"'");
    add_attribute(
        out,
        b" width='",
        sheet.width(places) / u128::from(sheet.scale),
    );
    add_attribute(out, b" height='", 960 + 40 * u128::from(sheet.users));
    out.line(b">");
}

/// Adds the colours.
fn add_style<K: Sink>(out: &mut TextWriter<'_, K>)
    ensures { Adds K.Sink style out.old out.new }
{
    out.add(
        b"<style>rect{stroke:#555;stroke-width:.5px;vector-effect:non-scaling-stroke}text{fill:#222}.b{font-weight:bold}.n{text-anchor:middle}.d{fill:#fff}",
    );
    out.add(
        b".l0{fill:#ffffd9}.l1{fill:#edf8b1}.l2{fill:#c7e9b4}.l3{fill:#7fcdbb}.l4{fill:#41b6c4}.l5{fill:#1d91c0}.l6{fill:#225ea8}.l7{fill:#253494}.l8{fill:#081d58}",
    );
    out.add(
        b".u0{fill:#bc80bd}.u1{fill:#8dd3c7}.u2{fill:#ffffb3}.u3{fill:#bebada}.u4{fill:#fb8072}.u5{fill:#80b1d3}.u6{fill:#fdb462}.u7{fill:#b3de69}.u8{fill:#fccde5}.u9{fill:#d9d9d9}",
    );
    out.line(
        b".load0{fill:#000}.free0{fill:#f5f5f5;stroke:none}.wait{fill:#777;stroke:none}.idle0{fill:#f2f2f2;stroke:none}.cut{fill:#777}.grid{fill:#ddd;stroke:none}.line{fill:#c00}.rise{fill:#060}.q{fill:#c00;font-weight:bold}.sheet{fill:#fff;stroke:none}</style>",
    );
}

/// Adds how the picture is read.
fn add_legend<K: Sink>(out: &mut TextWriter<'_, K>, sheet: Sheet)
    ensures { Adds K.Sink (legend sheet.scale) out.old out.new }
{
    let first = Point {
        x: sheet.units(110),
        y: sheet.units(36),
    };
    let second = Point {
        x: sheet.units(110),
        y: sheet.units(50),
    };
    add_words(
        out,
        b"w",
        first,
        b"Number and colour: the level. Letter: why the service ended (T its time was over, P another was preferred, W it waits for a line,",
    );
    add_words(
        out,
        b"w",
        second,
        b"S done, Z a new size, E the end). Black: brought into core. Thin: in a queue. Red: a line, Q a quit, H a hang-up. Grey: idle, cut to 52 ticks.",
    );
}

/// Adds what the whole time went into, as the picture's title.
fn add_heading<K: Sink>(out: &mut TextWriter<'_, K>, sheet: Sheet, run: &Record)
    ensures { Adds K.Sink (words_at (codes "b") (110 * sheet.scale) (20 * sheet.scale)
        (time_line sheet.swap run.now)) out.old out.new }
{
    let at = Point {
        x: sheet.units(110),
        y: sheet.units(20),
    };
    begin_text(out, b"b", at);
    add_time_line(out, sheet.swap, run);
    out.line(b"</text>");
}

/// Adds the figures as lines of one text.
fn add_figure_lines<K: Sink>(
    out: &mut TextWriter<'_, K>,
    sheet: Sheet,
    script: &Script,
    run: &Record,
)
    ensures { Adds K.Sink (figures_drawn sheet.scale sheet.users script.now run.now) out.old out.new }
{
    out.add(b"<svg overflow='visible'");
    add_attribute(out, b" x='", sheet.units(4));
    add_attribute(out, b" y='", sheet.figures_top());
    out.add(b"><text xml:space='preserve'>");
    add_figures(out, b"<tspan x='0' dy='1.25em'>", b"</tspan>", script, run);
    out.line(b"</text></svg>");
}

/// Adds a sheet of white with the colours.
fn add_sheet<K: Sink>(out: &mut TextWriter<'_, K>, sheet: Sheet, places: u64)
    requires { 1 ≤ sheet.scale }
    ensures { Adds K.Sink (sheet_text sheet.scale sheet.zoom sheet.users places) out.old out.new }
{
    let all = Area {
        x: 0,
        y: 0,
        width: sheet.width(places),
        height: sheet.height(),
    };
    begin_sheet(out, sheet, places);
    add_style(out);
    add_box(out, b"sheet", all);
}

/// Adds the rows of users and levels, with all that is in them.
fn add_rows<K: Sink>(
    out: &mut TextWriter<'_, K>,
    sheet: Sheet,
    accounts: &[Account],
    entries: &[Entry],
)
    ensures { Adds K.Sink (rows_drawn sheet.swap sheet.scale sheet.zoom sheet.users
        accounts.now entries.now) out.old out.new }
{
    add_users(out, sheet, accounts, entries);
    add_layer(out, &UserRows { sheet }, entries);
    add_level_names(out, sheet, &[0, 1, 2, 3, 4, 5, 6, 7, 8]);
    add_layer(out, &LevelRows { sheet }, entries);
}

/// Adds what lies behind the rows, on a sheet for so many places.
fn add_back<K: Sink>(out: &mut TextWriter<'_, K>, sheet: Sheet, places: u64, run: &Record)
    requires scale { 1 ≤ sheet.scale }
    requires zoom { 1 ≤ sheet.zoom }
    ensures { Adds K.Sink (back_drawn sheet.scale sheet.zoom sheet.users places sheet.swap run.now) out.old out.new }
{
    add_sheet(out, sheet, places);
    add_heading(out, sheet, run);
    add_legend(out, sheet);
    add_layer(out, &IdleTimes { sheet }, run.entries.as_slice());
    add_ruler(
        out,
        sheet,
        sheet.places_between(),
        places,
        run.entries.as_slice(),
    );
}

/// Adds the picture of a record, with these owners of the places of core after each load.
pub fn add_drawing<K: Sink>(
    out: &mut TextWriter<'_, K>,
    script: &Script,
    run: &Record,
    maps: &CoreMaps,
)
    ensures { Adds K.Sink (drawing_over (map owner_in maps.now) script.now run.now) out.old out.new }
{
    let places = places_in(run);
    let sheet = Sheet {
        scale: scale_for(places),
        zoom: zoom_for(places),
        users: script.accounts.len() as u64,
        swap: script.params.swap,
    };
    add_back(out, sheet, places, run);
    add_rows(
        out,
        sheet,
        script.accounts.as_slice(),
        run.entries.as_slice(),
    );
    add_cores(out, sheet, places, maps, run.entries.as_slice());
    add_figure_lines(out, sheet, script, run);
    out.line(b"</svg>");
}

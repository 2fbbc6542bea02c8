//! The rows of core: from each load to the next, whose each place is, and below it what the load moved.
ghost use Rattle.std.specs.Prelude.{◌≡◌, ◌<◌, ◌+◌, ◌*◌, ◌^◌, length, map, drop};
ghost use Rattle.std.specs.List.{flat_map};
ghost use Rattle.picture_model.specs.Folds.{cut_of};
ghost use Rattle.picture_model.specs.Cores.{owner_in};
ghost use Rattle.picture_model.specs.CorePanel.{core_drawn, core_names, core_panel, cores_drawn, first_owners, load_shown, moved_label, moved_name, next_load, place_name};
ghost use Rattle.schedule_figures.specs.Maps.{users_of};
ghost use Rattle.text_writer.specs.Writing.{Adds};

use crate::shape::{Point, add_number_at, add_words, begin_text};
use crate::sheet::Sheet;
use crate::stretch::{Span, add_places};
use ctss_io::Sink;
use ctss_types::Entry;
use schedule_figures::chart::{CoreMaps, CorePart, cut_of, place_of};
use text_writer::TextWriter;
use text_writer::columns::add_number;

/// How many blocks were dumped, read and cleared for a load.
#[derive(Clone, Copy)]
struct Moved {
    dumped: u8,
    read: u8,
    fresh: u8,
}

/// How an entry stands in the picture: so many ticks are cut out before it, the picture has so many places, and this load
/// comes next.
#[derive(Clone, Copy)]
struct Standing {
    cut: u128,
    last: u64,
    next: usize,
}

/// Adds a number below core, where there is room before the next load.
#[tactic(auto, using(text_writer::proofs::Added::adds_none))]
fn add_moved<K: Sink>(out: &mut TextWriter<'_, K>, sheet: Sheet, span: Span, row: u8, n: u8)
    ensures { Adds K.Sink (moved_label sheet.scale sheet.zoom sheet.users span.from span.until row n) out.old out.new }
{
    if span.width(sheet) >= sheet.units(24) {
        let at = Point {
            x: sheet.across(span.from),
            y: sheet.moved_top(row),
        };
        add_number_at(out, b"w", at, n);
    }
}

/// Adds a load: core after it, and what it moved.
fn add_load<K: Sink>(
    out: &mut TextWriter<'_, K>,
    sheet: Sheet,
    span: Span,
    moved: Moved,
    core: &[CorePart],
    entry: &Entry,
)
    ensures { Adds K.Sink (load_shown sheet.scale sheet.zoom sheet.users span.from span.until
        moved.dumped moved.read moved.fresh (owner_in (users_of core.now)) entry.now) out.old out.new }
{
    add_places(out, sheet, span, core, entry);
    add_moved(out, sheet, span, 1, moved.dumped);
    add_moved(out, sheet, span, 2, moved.read);
    add_moved(out, sheet, span, 3, moved.fresh);
}

/// The place at which the next load begins, or the last one, where so many ticks are cut out before these entries.
fn next_load(last: u64, cut: u128, entries: &[Entry]) -> u64
    requires { cut + 2 ^ 64 * length entries.now < 2 ^ 128 }
    ensures { result ≡ next_load last cut entries.now }
{
    let mut cut = cut;
    for entry in entries {
        if let Entry::Swap { tick, .. } = entry {
            return place_of(*tick, cut);
        }
        cut += u128::from(cut_of(entry));
    }
    last
}

/// Adds what an entry shows in the rows of core: a load lasts until the next of the entries that come later.
fn add_core<K: Sink>(
    out: &mut TextWriter<'_, K>,
    sheet: Sheet,
    standing: Standing,
    maps: &CoreMaps,
    entry: &Entry,
    later: &[Entry],
)
    requires { standing.cut + 2 ^ 64 * length later.now < 2 ^ 128 }
    ensures { Adds K.Sink (core_drawn sheet.scale sheet.zoom sheet.users standing.cut
        (next_load standing.last (standing.cut + cut_of entry.now) later.now)
        (first_owners (map owner_in (drop standing.next maps.now))) entry.now) out.old out.new }
{
    if let Entry::Swap {
        tick,
        dumped,
        read,
        fresh,
        ..
    } = entry
    {
        let span = Span {
            from: place_of(*tick, standing.cut),
            until: next_load(standing.last, standing.cut, later),
        };
        let moved = Moved {
            dumped: *dumped,
            read: *read,
            fresh: *fresh,
        };
        add_load(out, sheet, span, moved, maps.behind(standing.next), entry);
    }
}

/// Adds what all entries show in the rows of core.
fn add_loads<K: Sink>(
    out: &mut TextWriter<'_, K>,
    sheet: Sheet,
    last: u64,
    maps: &CoreMaps,
    entries: &[Entry],
)
    ensures { Adds K.Sink (cores_drawn sheet.scale sheet.zoom sheet.users last 0
        (map owner_in maps.now) entries.now) out.old out.new }
{
    let mut cut: u128 = 0;
    let mut next = 0;
    let mut entries = entries;
    'loads: while let Some((entry, later)) = entries.split_first() {
        add_core(out, sheet, Standing { cut, last, next }, maps, entry, later);
        cut += u128::from(cut_of(entry));
        next = maps.after(entry, next);
        entries = later;
    }
}

/// Adds the name of a place before its row.
fn add_place_name<K: Sink>(out: &mut TextWriter<'_, K>, sheet: Sheet, place: u8)
    ensures { Adds K.Sink (place_name sheet.scale sheet.users place) out.old out.new }
{
    let at = Point {
        x: sheet.units(4),
        y: sheet.place_top(place) + sheet.units(11),
    };
    begin_text(out, b"w", at);
    out.add(b"PLACE ");
    add_number(out, place);
    out.line(b"</text>");
}

/// Adds the names of some places.
fn add_place_names<K: Sink>(out: &mut TextWriter<'_, K>, sheet: Sheet, places: &[u8])
    ensures { Adds K.Sink (flat_map (place_name sheet.scale sheet.users) places.now) out.old out.new }
{
    for place in places {
        add_place_name(out, sheet, *place);
    }
}

/// Adds what stands before the numbers of a row below core.
fn add_moved_name<K: Sink>(out: &mut TextWriter<'_, K>, sheet: Sheet, row: u8, name: &[u8])
    ensures { Adds K.Sink (moved_name sheet.scale sheet.users row name.now) out.old out.new }
{
    let at = Point {
        x: sheet.units(4),
        y: sheet.moved_top(row),
    };
    add_words(out, b"w", at, name);
}

/// Adds what stands over and before the rows of core.
fn add_core_names<K: Sink>(out: &mut TextWriter<'_, K>, sheet: Sheet)
    ensures { Adds K.Sink (core_names sheet.scale sheet.users) out.old out.new }
{
    let title = Point {
        x: sheet.units(110),
        y: sheet.place_top(0).saturating_sub(sheet.units(6)),
    };
    add_words(
        out,
        b"w",
        title,
        b"Core: whose each place is behind each load; below, how many blocks were moved for it.",
    );
    add_place_names(out, sheet, &[0, 32, 64, 96]);
    add_moved_name(out, sheet, 1, b"DUMPED");
    add_moved_name(out, sheet, 2, b"READ");
    add_moved_name(out, sheet, 3, b"CLEARED");
}

/// Adds the panel of core of a picture with so many places.
pub(crate) fn add_cores<K: Sink>(
    out: &mut TextWriter<'_, K>,
    sheet: Sheet,
    last: u64,
    maps: &CoreMaps,
    entries: &[Entry],
)
    ensures { Adds K.Sink (core_panel sheet.scale sheet.zoom sheet.users last
        (map owner_in maps.now) entries.now) out.old out.new }
{
    add_core_names(out, sheet);
    add_loads(out, sheet, last, maps, entries);
}

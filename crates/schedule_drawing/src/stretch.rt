//! Core after a load: its places from top to bottom, in stretches of one owner each.
ghost use Rattle.std.specs.Prelude.{◌≡◌, ◌≤◌, ◌<◌, ◌+◌, ◌-◌, ◌*◌, ◌^◌};
ghost use Rattle.picture_model.specs.Cores.{owner_in};
ghost use Rattle.picture_model.specs.CorePanel.{owner_bar, owner_label, place_drawn, places_drawn, stretch_drawn};
ghost use Rattle.schedule_figures.specs.Maps.{users_of};
ghost use Rattle.text_writer.specs.Writing.{Adds};

use crate::label::add_level_label;
use crate::shape::{Area, Point, add_bar};
use crate::sheet::Sheet;
use ctss_io::Sink;
use ctss_types::Entry;
use schedule_figures::chart::{CorePart, begins_at, owner_at, stretch_from};
use text_writer::TextWriter;

/// From one place of the picture to another: a load shows core until the next load.
#[derive(Clone, Copy)]
pub(crate) struct Span {
    pub from: u64,
    pub until: u64,
}

impl Span {
    /// How wide it is.
    pub(crate) fn width(self, sheet: Sheet) -> u128
        ensures value { result ≡ sheet.zoom * (self.until - self.from) }
        ensures small { result ≤ 2 ^ 90 }
    {
        sheet.wide(u128::from(self.until.saturating_sub(self.from)))
    }
}

/// So many places of a user, from one on; user 0 is nobody.
#[derive(Clone, Copy)]
struct Stretch {
    user: u8,
    place: u8,
    count: u8,
}

/// Adds the bar of a user's places; those of nobody are light grey.
fn add_owner<K: Sink>(out: &mut TextWriter<'_, K>, user: u8, at: Area, entry: &Entry)
    ensures { Adds K.Sink (owner_bar user at.x at.y at.width at.height entry.now) out.old out.new }
{
    if user == 0 {
        add_bar(out, b"free", 0, at, entry);
    } else {
        add_bar(out, b"u", user % 10, at, entry);
    }
}

/// Adds a user's number in the middle of its places, where there is room.
#[tactic(auto, using(text_writer::proofs::Added::adds_none))]
fn add_owner_label<K: Sink>(
    out: &mut TextWriter<'_, K>,
    sheet: Sheet,
    at: Point,
    width: u128,
    stretch: Stretch,
)
    requires left { at.x ≤ 2 ^ 80 }
    requires top { at.y ≤ 2 ^ 124 }
    requires width { width ≤ 2 ^ 90 }
    ensures { Adds K.Sink (owner_label sheet.scale stretch.user at.x at.y width stretch.count) out.old out.new }
{
    if stretch.user != 0 && stretch.count >= 6 {
        let middle = Point {
            x: at.x,
            y: at.y + (sheet.times(stretch.count) + sheet.units(4)),
        };
        add_level_label(out, sheet, middle, width, stretch.user);
    }
}

/// Adds a stretch: its bar, and its label.
fn add_stretch<K: Sink>(
    out: &mut TextWriter<'_, K>,
    sheet: Sheet,
    span: Span,
    stretch: Stretch,
    entry: &Entry,
)
    ensures { Adds K.Sink (stretch_drawn sheet.scale sheet.zoom sheet.users span.from span.until
        stretch.user stretch.place stretch.count entry.now) out.old out.new }
{
    let at = Area {
        x: sheet.across(span.from),
        y: sheet.place_top(stretch.place),
        width: span.width(sheet),
        height: 2 * sheet.times(stretch.count),
    };
    let corner = Point { x: at.x, y: at.y };
    add_owner(out, stretch.user, at, entry);
    add_owner_label(out, sheet, corner, at.width, stretch);
}

/// Adds the stretch that begins at a place, if one does.
#[tactic(auto, using(text_writer::proofs::Added::adds_none))]
fn add_place<K: Sink>(
    out: &mut TextWriter<'_, K>,
    sheet: Sheet,
    span: Span,
    core: &[CorePart],
    entry: &Entry,
    place: u8,
)
    requires { place < 128 }
    ensures { Adds K.Sink (place_drawn sheet.scale sheet.zoom sheet.users span.from span.until
        (owner_in (users_of core.now)) entry.now place) out.old out.new }
{
    if begins_at(core, place) {
        let user = owner_at(core, place);
        let stretch = Stretch {
            user,
            place,
            count: stretch_from(core, user, place),
        };
        add_stretch(out, sheet, span, stretch, entry);
    }
}

/// Adds all places of core after the first of these loads.
pub(crate) fn add_places<K: Sink>(
    out: &mut TextWriter<'_, K>,
    sheet: Sheet,
    span: Span,
    core: &[CorePart],
    entry: &Entry,
)
    ensures { Adds K.Sink (places_drawn sheet.scale sheet.zoom sheet.users span.from span.until
        (owner_in (users_of core.now)) entry.now 0 128) out.old out.new }
{
    for place in 0..128 {
        add_place(out, sheet, span, core, entry, place);
    }
}

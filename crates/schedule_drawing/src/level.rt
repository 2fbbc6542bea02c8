//! The rows of levels, and idle times behind all rows.
ghost use Rattle.std.specs.Prelude.{◌≡◌, ◌-◌, ◌*◌, ◌&&◌, nat_le};
ghost use Rattle.picture_model.specs.Folds.{cut_of, most_idle};
ghost use Rattle.picture_model.specs.Drawing.{across, idle_bar, idle_drawn, idle_label, level_drawn, level_service, level_top, user_top};
ghost use Rattle.text_writer.specs.Writing.{Adds};

use crate::label::add_level_label;
use crate::layer::Layer;
use crate::shape::{Area, Point, add_bar, add_number_at};
use crate::sheet::Sheet;
use ctss_io::Sink;
use ctss_types::Entry;
use schedule_figures::chart::{cut_of, place_of};
use text_writer::TextWriter;

/// A service in the row of its level.
#[derive(Clone, Copy)]
struct Service {
    level: u8,
    ran: u64,
    user: u8,
}

/// Adds a service: its bar, and its label.
fn add_service<K: Sink>(
    out: &mut TextWriter<'_, K>,
    sheet: Sheet,
    place: u64,
    service: Service,
    entry: &Entry,
)
    ensures { Adds K.Sink (level_service sheet.scale sheet.zoom sheet.users place
        service.level service.ran service.user entry.now) out.old out.new }
{
    let at = Area {
        x: sheet.across(place),
        y: sheet.level_top(service.level),
        width: sheet.wide(u128::from(service.ran)),
        height: sheet.units(14),
    };
    let label = Point {
        x: sheet.across(place),
        y: sheet.level_top(service.level) + sheet.units(11),
    };
    add_bar(out, b"u", service.user % 10, at, entry);
    add_level_label(out, sheet, label, at.width, service.user);
}

/// Adds an entry to the rows of levels.
#[tactic(auto, using(text_writer::proofs::Added::adds_none))]
fn add_in_levels<K: Sink>(out: &mut TextWriter<'_, K>, sheet: Sheet, cut: u128, entry: &Entry)
    ensures { Adds K.Sink (level_drawn sheet.scale sheet.zoom sheet.users cut entry.now) out.old out.new }
{
    if let Entry::Serve {
        tick,
        user,
        level,
        ran,
        ..
    } = entry
    {
        let service = Service {
            level: *level,
            ran: *ran,
            user: *user,
        };
        add_service(out, sheet, place_of(*tick, cut), service, entry);
    }
}

/// The rows of levels.
#[derive(Clone, Copy)]
pub(crate) struct LevelRows {
    pub sheet: Sheet,
}

impl Layer for LevelRows {
    ghost use Rattle.picture_model.specs.Drawing.{level_drawn};

    ghost text = { λ rows. level_drawn rows.sheet.scale rows.sheet.zoom rows.sheet.users };

    fn add<K: Sink>(&self, out: &mut TextWriter<'_, K>, cut: u128, entry: &Entry) {
        add_in_levels(out, self.sheet, cut, entry);
    }
}

/// Whether it is said how long an idle time was: as much of it is shown as may be, and there is room.
fn is_labelled(sheet: Sheet, ticks: u64) -> bool
    ensures { result ≡ (nat_le sheet.scale 1 && nat_le most_idle ticks) }
{
    sheet.scale <= 1 && ticks >= 52
}

/// Adds how long an idle time was, where as much of it is shown as may be, and there is room.
fn add_idle_label<K: Sink>(out: &mut TextWriter<'_, K>, sheet: Sheet, place: u64, ticks: u64)
    ensures { Adds K.Sink (idle_label sheet.scale sheet.zoom place ticks) out.old out.new }
{
    if is_labelled(sheet, ticks) {
        let at = Point {
            x: sheet.across(place) + sheet.wide(26),
            y: sheet.units(94),
        };
        add_number_at(out, b"n cut", at, ticks);
    }
}

/// Where an idle time lies behind all rows.
fn idle_area(sheet: Sheet, cut: u128, from: u64, until: u64, entry: &Entry) -> Area
    ensures x { result.x ≡ across sheet.scale sheet.zoom (from - cut) }
    ensures y { result.y ≡ user_top sheet.scale 1 }
    ensures width { result.width ≡ sheet.zoom * ((until - from) - cut_of entry.now) }
    ensures height { result.height ≡ level_top sheet.scale sheet.users 9 - user_top sheet.scale 1 }
{
    Area {
        x: sheet.across(place_of(from, cut)),
        y: sheet.user_top(1),
        width: sheet.wide(u128::from(until.saturating_sub(from).saturating_sub(cut_of(entry)))),
        height: sheet.level_top(9).saturating_sub(sheet.user_top(1)),
    }
}

/// Adds an idle time: its bar, and its label.
fn add_idle<K: Sink>(
    out: &mut TextWriter<'_, K>,
    sheet: Sheet,
    cut: u128,
    from: u64,
    until: u64,
    entry: &Entry,
)
    ensures { Adds K.Sink (idle_bar sheet.scale sheet.zoom sheet.users cut from until entry.now) out.old out.new }
{
    add_bar(
        out,
        b"idle",
        0,
        idle_area(sheet, cut, from, until, entry),
        entry,
    );
    add_idle_label(out, sheet, place_of(from, cut), until.saturating_sub(from));
}

/// Adds an entry behind all rows, if it is an idle time.
#[tactic(auto, using(text_writer::proofs::Added::adds_none))]
fn add_behind<K: Sink>(out: &mut TextWriter<'_, K>, sheet: Sheet, cut: u128, entry: &Entry)
    ensures { Adds K.Sink (idle_drawn sheet.scale sheet.zoom sheet.users cut entry.now) out.old out.new }
{
    if let Entry::Idle { from, until } = entry {
        add_idle(out, sheet, cut, *from, *until, entry);
    }
}

/// Idle times, behind all rows.
#[derive(Clone, Copy)]
pub(crate) struct IdleTimes {
    pub sheet: Sheet,
}

impl Layer for IdleTimes {
    ghost use Rattle.picture_model.specs.Drawing.{idle_drawn};

    ghost text = { λ times. idle_drawn times.sheet.scale times.sheet.zoom times.sheet.users };

    fn add<K: Sink>(&self, out: &mut TextWriter<'_, K>, cut: u128, entry: &Entry) {
        add_behind(out, self.sheet, cut, entry);
    }
}

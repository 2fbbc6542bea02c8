//! The rows of users: services, loads, what came to a user, and rises.
ghost use Rattle.std.specs.Prelude.{◌≡◌, ◌≤◌, ◌+◌, ◌*◌, ◌^◌};
ghost use Rattle.picture_model.specs.Drawing.{across, event_drawn, load_drawn, rise_drawn, service_drawn, taken_drawn, user_drawn, user_top};
ghost use Rattle.text_writer.specs.Writing.{Adds};

use crate::label::{add_label, cause_letter};
use crate::layer::Layer;
use crate::shape::{Area, Point, Sign, add_bar, add_sign, add_words};
use crate::sheet::Sheet;
use ctss_io::Sink;
use ctss_types::{Cause, Entry, EventKind};
use schedule_figures::chart::place_of;
use text_writer::TextWriter;

/// A line that came: its tip is below.
const LINE: Sign = Sign {
    class: b"line",
    side: b"-",
};

/// A rise: its tip is above.
const RISE: Sign = Sign {
    class: b"rise",
    side: b" ",
};

/// A service in the row of its user.
#[derive(Clone, Copy)]
struct Service {
    user: u8,
    level: u8,
    ran: u64,
    cause: Cause,
}

/// A load in the row of its user.
#[derive(Clone, Copy)]
struct Load {
    user: u8,
    dumped: u8,
    read: u8,
}

/// Adds what came to a user, over the row that begins at a point.
#[tactic(auto, using(text_writer::proofs::Added::adds_none))]
fn add_event<K: Sink>(
    out: &mut TextWriter<'_, K>,
    sheet: Sheet,
    at: Point,
    kind: EventKind,
    entry: &Entry,
)
    requires { at.y ≤ 2 ^ 124 }
    ensures { Adds K.Sink (event_drawn sheet.scale at.x at.y kind entry.now) out.old out.new }
{
    let letter = Point {
        x: at.x,
        y: at.y + sheet.units(7),
    };
    match kind {
        EventKind::Dial => {}
        EventKind::Line => add_sign(
            out,
            sheet,
            LINE,
            Point {
                x: at.x,
                y: at.y + sheet.units(8),
            },
            entry,
        ),
        EventKind::Quit => add_words(out, b"q", letter, b"Q"),
        EventKind::Hang => add_words(out, b"q", letter, b"H"),
        EventKind::Spent => add_words(out, b"q", letter, b"S"),
    }
}

/// Where a bar lies in the row of a user, that begins at a place and lasts so many ticks.
fn bar_area(sheet: Sheet, user: u8, place: u64, ticks: u128) -> Area
    requires { ticks ≤ 2 ^ 80 }
    ensures x { result.x ≡ across sheet.scale sheet.zoom place }
    ensures y { result.y ≡ user_top sheet.scale user + 8 * sheet.scale }
    ensures width { result.width ≡ sheet.zoom * ticks }
    ensures height { result.height ≡ 14 * sheet.scale }
{
    Area {
        x: sheet.across(place),
        y: sheet.user_top(u64::from(user)) + sheet.units(8),
        width: sheet.wide(ticks),
        height: sheet.units(14),
    }
}

/// Adds a service: its bar, and its label.
fn add_service<K: Sink>(
    out: &mut TextWriter<'_, K>,
    sheet: Sheet,
    place: u64,
    service: Service,
    entry: &Entry,
)
    ensures { Adds K.Sink (service_drawn sheet.scale sheet.zoom place
        service.user service.level service.ran service.cause entry.now) out.old out.new }
{
    let at = bar_area(sheet, service.user, place, u128::from(service.ran));
    let label = Point {
        x: sheet.across(place),
        y: sheet.user_top(u64::from(service.user)) + sheet.units(19),
    };
    add_bar(out, b"l", service.level, at, entry);
    add_label(
        out,
        sheet,
        label,
        sheet.wide(u128::from(service.ran)),
        service.level,
        cause_letter(service.cause),
    );
}

/// Adds a load: its bar.
fn add_load<K: Sink>(
    out: &mut TextWriter<'_, K>,
    sheet: Sheet,
    place: u64,
    load: Load,
    entry: &Entry,
)
    ensures { Adds K.Sink (load_drawn sheet.swap sheet.scale sheet.zoom place
        load.user load.dumped load.read entry.now) out.old out.new }
{
    let ticks = u128::from(sheet.swap) * (u128::from(load.dumped) + u128::from(load.read));
    add_bar(
        out,
        b"load",
        0,
        bar_area(sheet, load.user, place, ticks),
        entry,
    );
}

/// Adds what came to a user, if it came in a session.
#[tactic(auto, using(text_writer::proofs::Added::adds_none))]
fn add_taken<K: Sink>(
    out: &mut TextWriter<'_, K>,
    sheet: Sheet,
    place: u64,
    user: u8,
    kind: EventKind,
    entry: &Entry,
)
    ensures { Adds K.Sink (taken_drawn sheet.scale sheet.zoom place user kind entry.now) out.old out.new }
{
    if user != 0 {
        let at = Point {
            x: sheet.across(place),
            y: sheet.user_top(u64::from(user)),
        };
        add_event(out, sheet, at, kind, entry);
    }
}

/// Adds a rise.
fn add_rise<K: Sink>(out: &mut TextWriter<'_, K>, sheet: Sheet, place: u64, user: u8, entry: &Entry)
    ensures { Adds K.Sink (rise_drawn sheet.scale sheet.zoom place user entry.now) out.old out.new }
{
    let at = Point {
        x: sheet.across(place),
        y: sheet.user_top(u64::from(user)) + sheet.units(2),
    };
    add_sign(out, sheet, RISE, at, entry);
}

/// Adds an entry to the rows of users.
#[tactic(auto, using(text_writer::proofs::Added::adds_none))]
fn add_entry<K: Sink>(out: &mut TextWriter<'_, K>, sheet: Sheet, cut: u128, entry: &Entry)
    ensures { Adds K.Sink (user_drawn sheet.swap sheet.scale sheet.zoom cut entry.now) out.old out.new }
{
    match entry {
        Entry::Serve {
            tick,
            user,
            level,
            ran,
            cause,
        } => {
            let service = Service {
                user: *user,
                level: *level,
                ran: *ran,
                cause: *cause,
            };
            add_service(out, sheet, place_of(*tick, cut), service, entry);
        }
        Entry::Swap {
            tick,
            user,
            dumped,
            read,
            ..
        } => {
            let load = Load {
                user: *user,
                dumped: *dumped,
                read: *read,
            };
            add_load(out, sheet, place_of(*tick, cut), load, entry);
        }
        Entry::Taken {
            tick,
            kind,
            user,
            ..
        } => add_taken(out, sheet, place_of(*tick, cut), *user, *kind, entry),
        Entry::Rise { tick, user, .. } => add_rise(out, sheet, place_of(*tick, cut), *user, entry),
        _ => {}
    }
}

/// The rows of users.
#[derive(Clone, Copy)]
pub(crate) struct UserRows {
    pub sheet: Sheet,
}

impl Layer for UserRows {
    ghost use Rattle.picture_model.specs.Drawing.{user_drawn};

    ghost text = { λ rows. user_drawn rows.sheet.swap rows.sheet.scale rows.sheet.zoom };

    fn add<K: Sink>(&self, out: &mut TextWriter<'_, K>, cut: u128, entry: &Entry) {
        add_entry(out, self.sheet, cut, entry);
    }
}

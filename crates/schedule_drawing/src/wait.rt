//! Users' names, and their times in a queue.
ghost use Rattle.std.specs.Prelude.{◌+◌, ◌*◌, ◌++◌, codes};
ghost use Rattle.std.specs.Fmt.{decimal};
ghost use Rattle.bcd48.specs.Words.{characters_of};
ghost use Rattle.picture_model.specs.declared.request.Track.TheVariants.{Fresh};
ghost use Rattle.picture_model.specs.Drawing.{queue_drawn, user_row, user_rows, user_top, wait_drawn, waits_drawn, words_at};
ghost use Rattle.text_writer.specs.Writing.{Adds};

use crate::shape::{Area, Point, add_box, begin_text};
use crate::sheet::Sheet;
use ctss_io::Sink;
use ctss_types::{Account, Entry};
use picture_model::Track;
use schedule_figures::chart::{cut_of, place_of};
use text_writer::TextWriter;
use text_writer::columns::{add_characters, add_number};

/// Adds a time in a queue, from one tick to another, if there is any.
#[tactic(auto, using(text_writer::proofs::Added::adds_none))]
fn add_queue<K: Sink>(
    out: &mut TextWriter<'_, K>,
    sheet: Sheet,
    user: u64,
    cut: u128,
    waited: u128,
    tick: u64,
)
    ensures { Adds K.Sink (queue_drawn sheet.scale sheet.zoom user cut waited tick) out.old out.new }
{
    if waited < u128::from(tick) {
        let at = Area {
            x: sheet.across(place_of(waited as u64, cut)),
            y: sheet.user_top(user) + sheet.units(14),
            width: sheet.wide(u128::from(tick) - waited),
            height: sheet.units(2),
        };
        add_box(out, b"wait", at);
    }
}

/// Adds a user's time in a queue before a service of its.
#[tactic(auto, using(text_writer::proofs::Added::adds_none))]
fn add_wait<K: Sink>(
    out: &mut TextWriter<'_, K>,
    sheet: Sheet,
    user: u64,
    cut: u128,
    track: Track,
    entry: &Entry,
)
    ensures { Adds K.Sink (wait_drawn sheet.scale sheet.zoom user cut track entry.now) out.old out.new }
{
    match entry {
        Entry::Serve { tick, user: of, .. } if u64::from(*of) == user => {
            let waited = track.waited_from(u128::from(*tick));
            add_queue(out, sheet, user, cut, waited, *tick);
        }
        _ => {}
    }
}

/// Adds all of a user's times in a queue.
fn add_waits<K: Sink>(out: &mut TextWriter<'_, K>, sheet: Sheet, user: u64, entries: &[Entry])
    ensures { Adds K.Sink (waits_drawn sheet.scale sheet.zoom user 0 Fresh entries.now) out.old out.new }
{
    let mut cut: u128 = 0;
    let mut track = Track::Fresh;
    for entry in entries {
        add_wait(out, sheet, user, cut, track, entry);
        cut += u128::from(cut_of(entry));
        track = track.after(user, entry);
    }
}

/// Adds a user's name before its row.
fn add_name<K: Sink>(out: &mut TextWriter<'_, K>, sheet: Sheet, user: u64, account: &Account)
    ensures { Adds K.Sink (words_at (codes "w") (4 * sheet.scale) (user_top sheet.scale user + 19 * sheet.scale)
        (decimal user ++ (codes " " ++ characters_of account.now.name))) out.old out.new }
{
    let at = Point {
        x: sheet.units(4),
        y: sheet.user_top(user) + sheet.units(19),
    };
    begin_text(out, b"w", at);
    add_number(out, user);
    out.add(b" ");
    add_characters(out, account.name);
    out.line(b"</text>");
}

/// Adds a user's name, and its times in a queue.
fn add_user<K: Sink>(
    out: &mut TextWriter<'_, K>,
    sheet: Sheet,
    user: u64,
    account: &Account,
    entries: &[Entry],
)
    ensures { Adds K.Sink (user_row sheet.scale sheet.zoom user account.now entries.now) out.old out.new }
{
    add_name(out, sheet, user, account);
    add_waits(out, sheet, user, entries);
}

/// Adds all users' names, and their times in a queue.
pub(crate) fn add_users<K: Sink>(
    out: &mut TextWriter<'_, K>,
    sheet: Sheet,
    accounts: &[Account],
    entries: &[Entry],
)
    ensures { Adds K.Sink (user_rows sheet.scale sheet.zoom 1 accounts.now entries.now) out.old out.new }
{
    for (index, account) in accounts.iter().enumerate() {
        add_user(out, sheet, index as u64 + 1, account, entries);
    }
}

//! What the entries of a schedule cover, as comma-separated values.
ghost use Rattle.std.specs.Prelude.{◌≡◌, ◌+◌, ◌*◌, ◌++◌, ◌∷◌, codes};
ghost use Rattle.std.specs.List.{flat_map};
ghost use Rattle.ctss_types.specs.Entries.{cause_text};
ghost use Rattle.text_model.specs.Parts.{line};
ghost use Rattle.picture_model.specs.Csv.{comma, csv_of, csv_row};
ghost use Rattle.text_writer.specs.Writing.{Adds};

use ctss_io::Sink;
use ctss_types::{Cause, Entry, Record, Script};
use itoa::Integer;
use text_writer::TextWriter;
use text_writer::columns::add_number;

/// The blocks that a load dumped, read and cleared.
#[derive(Clone, Copy)]
struct Moved {
    dumped: u8,
    read: u8,
    fresh: u8,
}

/// Adds a number behind a comma.
fn add_comma<K: Sink, I: Integer>(out: &mut TextWriter<'_, K>, n: I)
    ensures { Adds K.Sink (44 ∷ I.text n) out.old out.new }
{
    out.add(b",");
    add_number(out, n);
}

/// Adds how a service ended, and the columns that only loads have.
fn add_end_of_service<K: Sink>(out: &mut TextWriter<'_, K>, cause: Cause)
    ensures { Adds K.Sink (44 ∷ (cause_text cause ++ codes ",,,")) out.old out.new }
{
    out.add(b",");
    out.add(cause.word().as_bytes());
    out.add(b",,,");
}

/// Adds the row of a service.
fn add_service<K: Sink>(
    out: &mut TextWriter<'_, K>,
    tick: u64,
    user: u8,
    level: u8,
    ran: u64,
    cause: Cause,
)
    ensures { Adds K.Sink (line (codes "SERVE" ++ (comma tick ++ (comma (tick + ran) ++ (comma user ++ (comma level
        ++ (44 ∷ (cause_text cause ++ codes ",,,")))))))) out.old out.new }
{
    let until = u128::from(tick) + u128::from(ran);
    out.add(b"SERVE");
    add_comma(out, tick);
    add_comma(out, until);
    add_comma(out, user);
    add_comma(out, level);
    add_end_of_service(out, cause);
    out.end_line();
}

/// Adds the row of a load that moved these blocks: dumped, read, and cleared.
fn add_load<K: Sink>(out: &mut TextWriter<'_, K>, from: u64, until: u128, user: u8, moved: Moved)
    ensures { Adds K.Sink (line (codes "SWAP" ++ (comma from ++ (comma until ++ (comma user ++ (codes ",,"
        ++ (comma moved.dumped ++ (comma moved.read ++ comma moved.fresh)))))))) out.old out.new }
{
    out.add(b"SWAP");
    add_comma(out, from);
    add_comma(out, until);
    add_comma(out, user);
    out.add(b",,");
    add_comma(out, moved.dumped);
    add_comma(out, moved.read);
    add_comma(out, moved.fresh);
    out.end_line();
}

/// Adds the row of idling.
fn add_idle<K: Sink>(out: &mut TextWriter<'_, K>, from: u64, until: u64)
    ensures { Adds K.Sink (line (codes "IDLE" ++ (comma from ++ (comma until ++ codes ",,,,,,")))) out.old out.new }
{
    out.add(b"IDLE");
    add_comma(out, from);
    add_comma(out, until);
    out.add(b",,,,,,");
    out.end_line();
}

/// When a load ends, at so many ticks a block.
fn end_of_load(swap: u64, tick: u64, moved: Moved) -> u128
    ensures { result ≡ tick + swap * (moved.dumped + moved.read) }
{
    let blocks = u128::from(moved.dumped) + u128::from(moved.read);
    u128::from(tick) + u128::from(swap) * blocks
}

/// Adds the row of an entry that covers time, at so many ticks a block.
fn add_row<K: Sink>(out: &mut TextWriter<'_, K>, swap: u64, entry: &Entry)
    ensures { Adds K.Sink (csv_row swap entry.now) out.old out.new }
{
    match entry {
        Entry::Serve {
            tick,
            user,
            level,
            ran,
            cause,
        } => add_service(out, *tick, *user, *level, *ran, *cause),
        Entry::Swap {
            tick,
            user,
            dumped,
            read,
            fresh,
        } => {
            let moved = Moved {
                dumped: *dumped,
                read: *read,
                fresh: *fresh,
            };
            add_load(out, *tick, end_of_load(swap, *tick, moved), *user, moved);
        }
        Entry::Idle { from, until } => add_idle(out, *from, *until),
        _ => out.add(b""),
    }
}

/// Adds the rows of entries.
fn add_rows<K: Sink>(out: &mut TextWriter<'_, K>, swap: u64, entries: &[Entry])
    ensures { Adds K.Sink (flat_map (csv_row swap) entries.now) out.old out.new }
{
    for entry in entries {
        add_row(out, swap, entry);
    }
}

/// Adds a head and a row for each entry that covers time.
pub fn add_csv<K: Sink>(out: &mut TextWriter<'_, K>, script: &Script, run: &Record)
    ensures { Adds K.Sink (csv_of script.now run.now) out.old out.new }
{
    out.line(b"KIND,FROM,UNTIL,USER,LEVEL,CAUSE,DUMPED,READ,CLEARED");
    add_rows(out, script.params.swap, run.entries.as_slice());
}

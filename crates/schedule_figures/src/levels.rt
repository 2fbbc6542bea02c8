//! Services and their ticks by level and cause.
ghost use Rattle.std.specs.Prelude.{◌≡◌};
ghost use Rattle.std.specs.List.{flat_map};
ghost use Rattle.picture_model.specs.Figures.{cause_number, if_same, service_at, ticks_at, total};
ghost use Rattle.picture_model.specs.FigureLines.{level_services, level_ticks};
ghost use Rattle.schedule_figures.specs.Levels.{service_line, services_column, tick_line, ticks_column};
ghost use Rattle.text_writer.specs.Writing.{Adds};

use ctss_io::Sink;
use ctss_types::{Cause, Entry};
use text_writer::TextWriter;
use text_writer::columns::add_column;

/// What stands over the levels' lines.
pub(crate) const HEAD: &[u8] =
    b"LEVEL                TIME      WAIT      STOP      SIZE   PREEMPT       END";

/// The levels of the queues.
pub(crate) const LEVELS: [u8; 9] = [0, 1, 2, 3, 4, 5, 6, 7, 8];

/// All causes for which a service ends.
const CAUSES: [Cause; 6] = [
    Cause::Time,
    Cause::Wait,
    Cause::Stop,
    Cause::Size,
    Cause::Preempt,
    Cause::End,
];

/// The number of a cause.
fn cause_number(cause: Cause) -> u8
    ensures { result ≡ cause_number cause }
{
    match cause {
        Cause::Time => 0,
        Cause::Wait => 1,
        Cause::Stop => 2,
        Cause::Size => 3,
        Cause::Preempt => 4,
        Cause::End => 5,
    }
}

/// A number, where two others are the same.
fn if_same(a: u8, b: u8, n: u64) -> u64
    ensures { result ≡ if_same a b n }
{
    if a == b { n } else { 0 }
}

/// Whether it is a service at a level that ended for a cause.
fn service_at(level: u8, cause: Cause, entry: &Entry) -> u64
    ensures { result ≡ service_at level cause entry.now }
{
    match entry {
        Entry::Serve {
            level: at,
            cause: by,
            ..
        } => if_same(
            *at,
            level,
            if_same(cause_number(*by), cause_number(cause), 1),
        ),
        _ => 0,
    }
}

/// The ticks of a service at a level that ended for a cause.
fn ticks_at(level: u8, cause: Cause, entry: &Entry) -> u64
    ensures { result ≡ ticks_at level cause entry.now }
{
    match entry {
        Entry::Serve {
            level: at,
            ran,
            cause: by,
            ..
        } => if_same(
            *at,
            level,
            if_same(cause_number(*by), cause_number(cause), *ran),
        ),
        _ => 0,
    }
}

/// The services at a level that ended for a cause.
fn services(level: u8, cause: Cause, entries: &[Entry]) -> u128
    ensures { result ≡ total (service_at level cause) entries.now }
{
    entries
        .iter()
        .map(|entry| u128::from(service_at(level, cause, entry)))
        .sum()
}

/// The ticks of the services at a level that ended for a cause.
fn ticks(level: u8, cause: Cause, entries: &[Entry]) -> u128
    ensures { result ≡ total (ticks_at level cause) entries.now }
{
    entries
        .iter()
        .map(|entry| u128::from(ticks_at(level, cause, entry)))
        .sum()
}

/// Adds a level's services by cause.
fn add_services<K: Sink>(
    out: &mut TextWriter<'_, K>,
    level: u8,
    causes: &[Cause],
    entries: &[Entry],
)
    ensures { Adds K.Sink (flat_map (services_column level entries.now) causes.now) out.old out.new }
{
    for cause in causes {
        add_column(out, 10, services(level, *cause, entries));
    }
}

/// Adds a level's ticks by cause.
fn add_ticks<K: Sink>(out: &mut TextWriter<'_, K>, level: u8, causes: &[Cause], entries: &[Entry])
    ensures { Adds K.Sink (flat_map (ticks_column level entries.now) causes.now) out.old out.new }
{
    for cause in causes {
        add_column(out, 10, ticks(level, *cause, entries));
    }
}

/// Adds the line of a level's services.
fn add_service_line<K: Sink>(out: &mut TextWriter<'_, K>, level: u8, entries: &[Entry])
    ensures { Adds K.Sink (level_services entries.now level) out.old out.new }
{
    add_column(out, 5, level);
    out.add(b"  SERVICES");
    add_services(out, level, &CAUSES, entries);
}

/// Adds the line of a level's ticks.
fn add_tick_line<K: Sink>(out: &mut TextWriter<'_, K>, level: u8, entries: &[Entry])
    ensures { Adds K.Sink (level_ticks entries.now level) out.old out.new }
{
    add_column(out, 5, level);
    out.add(b"  TICKS   ");
    add_ticks(out, level, &CAUSES, entries);
}

/// Adds the lines of levels' services, each between two texts.
pub(crate) fn add_service_lines<K: Sink>(
    out: &mut TextWriter<'_, K>,
    front: &[u8],
    behind: &[u8],
    levels: &[u8],
    entries: &[Entry],
)
    ensures { Adds K.Sink (flat_map (service_line front.now behind.now entries.now) levels.now) out.old out.new }
{
    for level in levels {
        out.add(front);
        add_service_line(out, *level, entries);
        out.add(behind);
    }
}

/// Adds the lines of levels' ticks, each between two texts.
pub(crate) fn add_tick_lines<K: Sink>(
    out: &mut TextWriter<'_, K>,
    front: &[u8],
    behind: &[u8],
    levels: &[u8],
    entries: &[Entry],
)
    ensures { Adds K.Sink (flat_map (tick_line front.now behind.now entries.now) levels.now) out.old out.new }
{
    for level in levels {
        out.add(front);
        add_tick_line(out, *level, entries);
        out.add(behind);
    }
}

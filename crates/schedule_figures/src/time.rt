//! What the whole time went into.
ghost use Rattle.std.specs.Prelude.{◌≡◌, ◌*◌, ◌+◌, ◌<◌, ◌≤◌, ◌^◌};
ghost use Rattle.std.specs.Fmt.{decimal};
ghost use Rattle.picture_model.specs.Figures.{total};
ghost use Rattle.picture_model.specs.FigureLines.{time_line};
ghost use Rattle.schedule_figures.specs.Time.{idle_of, moved_of, served_of};
ghost use Rattle.text_writer.specs.Writing.{Adds};

use ctss_io::Sink;
use ctss_types::{Entry, Record};
use text_writer::TextWriter;
use text_writer::columns::add_number;

/// The ticks of a service.
fn served_of(entry: &Entry) -> u64
    ensures { result ≡ served_of entry.now }
{
    match entry {
        Entry::Serve { ran, .. } => *ran,
        _ => 0,
    }
}

/// The blocks that a load moved.
fn moved_of(entry: &Entry) -> u16
    ensures value { result ≡ moved_of entry.now }
    ensures below { result ≤ 510 }
{
    match entry {
        Entry::Swap { dumped, read, .. } => u16::from(*dumped) + u16::from(*read),
        _ => 0,
    }
}

/// The ticks of idling.
fn idle_of(entry: &Entry) -> u64
    ensures { result ≡ idle_of entry.now }
{
    match entry {
        Entry::Idle { from, until } => until.saturating_sub(*from),
        _ => 0,
    }
}

/// The ticks of the services.
fn served_in(entries: &[Entry]) -> u128
    ensures { result ≡ total served_of entries.now }
{
    let mut served = 0;
    for entry in entries {
        served += u128::from(served_of(entry));
    }
    served
}

/// The blocks that the loads moved.
fn moved_in(entries: &[Entry]) -> u128
    ensures value { result ≡ total moved_of entries.now }
    ensures below { result < 2 ^ 67 }
{
    let mut moved = 0;
    for entry in entries {
        moved += u128::from(moved_of(entry));
    }
    moved
}

/// The ticks in which nobody had anything to do.
fn idle_in(entries: &[Entry]) -> u128
    ensures { result ≡ total idle_of entries.now }
{
    let mut idle = 0;
    for entry in entries {
        idle += u128::from(idle_of(entry));
    }
    idle
}

/// Adds a number of which these are the tens and the units: it may be too large for a number of the machine.
fn add_tens_and_units<K: Sink>(out: &mut TextWriter<'_, K>, tens: u128, units: u128)
    requires { units < 10 }
    ensures { Adds K.Sink (decimal (10 * tens + units)) out.old out.new }
{
    if tens == 0 {
        add_number(out, units);
    } else {
        add_number(out, tens);
        add_number(out, units);
    }
}

/// Adds the ticks of so many blocks, at so many ticks a block.
fn add_product<K: Sink>(out: &mut TextWriter<'_, K>, swap: u64, blocks: u128)
    requires { blocks < 2 ^ 67 }
    ensures { Adds K.Sink (decimal (swap * blocks)) out.old out.new }
{
    let swap = u128::from(swap);
    let rest = swap * (blocks % 10);
    add_tens_and_units(out, swap * (blocks / 10) + rest / 10, rest % 10);
}

/// Adds the whole time and what it went into, at so many ticks a block that was moved, without an end of the line.
pub fn add_time_line<K: Sink>(out: &mut TextWriter<'_, K>, swap: u64, run: &Record)
    ensures { Adds K.Sink (time_line swap run.now) out.old out.new }
{
    let entries = run.entries.as_slice();
    out.add(b"END ");
    add_number(out, run.clock);
    out.add(b" = ");
    add_number(out, served_in(entries));
    out.add(b" SERVED + ");
    add_product(out, swap, moved_in(entries));
    out.add(b" SWAPPING + ");
    add_number(out, idle_in(entries));
    out.add(b" IDLE");
}

//! The lines of core: for each load what it moved, and whose each place is after it.
ghost use Rattle.std.specs.Prelude.{◌<◌, map, drop};
ghost use Rattle.picture_model.specs.Cores.{owner_in};
ghost use Rattle.picture_model.specs.CorePanel.{first_owners};
ghost use Rattle.picture_model.specs.CoreLines.{core_line, core_lines, load_line, place_text, places_text, stretch_text};
ghost use Rattle.schedule_figures.specs.Maps.{users_of};
ghost use Rattle.text_writer.specs.Writing.{Adds};

use crate::chart::maps::{CoreMaps, CorePart};
use crate::chart::owners::{begins_at, owner_at, stretch_from};
use ctss_io::Sink;
use ctss_types::Entry;
use text_writer::TextWriter;
use text_writer::columns::{add_column, add_number};

/// A load: when it began, whose it was, and how many blocks were dumped, read and cleared for it.
#[derive(Clone, Copy)]
struct Load {
    tick: u64,
    user: u8,
    dumped: u8,
    read: u8,
    fresh: u8,
}

/// Adds a stretch of so many places, from one on, and whose they are.
fn add_stretch<K: Sink>(out: &mut TextWriter<'_, K>, user: u8, place: u8, count: u8)
    ensures { Adds K.Sink (stretch_text user place count) out.old out.new }
{
    out.add(b"  ");
    add_number(out, place);
    out.add(b"-");
    add_number(out, u16::from(place) + u16::from(count.saturating_sub(1)));
    out.add(b" ");
    add_number(out, user);
}

/// Adds the stretch that begins at a place, if one does that is somebody's.
#[tactic(auto, using(text_writer::proofs::Added::adds_none))]
fn add_place<K: Sink>(out: &mut TextWriter<'_, K>, core: &[CorePart], place: u8)
    requires { place < 128 }
    ensures { Adds K.Sink (place_text (owner_in (users_of core.now)) place) out.old out.new }
{
    let user = owner_at(core, place);
    if begins_at(core, place) && user != 0 {
        add_stretch(out, user, place, stretch_from(core, user, place));
    }
}

/// Adds all places of core.
fn add_places<K: Sink>(out: &mut TextWriter<'_, K>, core: &[CorePart])
    ensures { Adds K.Sink (places_text (owner_in (users_of core.now)) 0 128) out.old out.new }
{
    for place in 0..128 {
        add_place(out, core, place);
    }
}

/// Adds the line of a load, and core after it.
fn add_load<K: Sink>(out: &mut TextWriter<'_, K>, load: Load, core: &[CorePart])
    ensures { Adds K.Sink (load_line load.tick load.user load.dumped load.read load.fresh
        (owner_in (users_of core.now))) out.old out.new }
{
    add_column(out, 10, load.tick);
    add_column(out, 6, load.user);
    add_column(out, 8, load.dumped);
    add_column(out, 8, load.read);
    add_column(out, 8, load.fresh);
    add_places(out, core);
    out.end_line();
}

/// Adds the line of an entry, if it is a load: the next one.
fn add_core_line<K: Sink>(out: &mut TextWriter<'_, K>, maps: &CoreMaps, next: usize, entry: &Entry)
    ensures { Adds K.Sink (core_line (first_owners (map owner_in (drop next maps.now))) entry.now) out.old out.new }
{
    if let Entry::Swap {
        tick,
        user,
        dumped,
        read,
        fresh,
    } = entry
    {
        let load = Load {
            tick: *tick,
            user: *user,
            dumped: *dumped,
            read: *read,
            fresh: *fresh,
        };
        add_load(out, load, maps.behind(next));
    }
}

/// Adds the lines of all loads.
pub fn add_core_lines<K: Sink>(out: &mut TextWriter<'_, K>, maps: &CoreMaps, entries: &[Entry])
    ensures { Adds K.Sink (core_lines (map owner_in maps.now) entries.now) out.old out.new }
{
    let mut next = 0;
    for entry in entries {
        add_core_line(out, maps, next, entry);
        next = maps.after(entry, next);
    }
}

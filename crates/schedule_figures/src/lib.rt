//! The figures of a schedule, by user, by level and as a whole, its spans as comma-separated values, and its picture in
//! characters (`chart`).
#![tactic(auto)]

ghost use Rattle.picture_model.specs.FigureLines.{between, figures_in};
ghost use Rattle.text_writer.specs.Writing.{Adds};

pub mod chart;
mod column;
mod csv;
mod levels;
mod requests;
mod tally;
mod time;
mod users;
mod work;

pub use csv::add_csv;
use ctss_io::Sink;
use ctss_types::{Record, Script};
use text_writer::TextWriter;
pub use time::add_time_line;

/// Adds a line between two texts.
fn add_between<K: Sink>(out: &mut TextWriter<'_, K>, front: &[u8], behind: &[u8], text: &[u8])
    ensures { Adds K.Sink (between front.now behind.now text.now) out.old out.new }
{
    out.add(front);
    out.add(text);
    out.add(behind);
}

/// Adds all figures, each line between two texts: the users', the levels', and what the whole time went into.
pub fn add_figures<K: Sink>(
    out: &mut TextWriter<'_, K>,
    front: &[u8],
    behind: &[u8],
    script: &Script,
    run: &Record,
)
    ensures { Adds K.Sink (figures_in front.now behind.now script.now run.now) out.old out.new }
{
    add_between(out, front, behind, users::HEAD);
    users::add_user_lines(
        out,
        front,
        behind,
        script.accounts.as_slice(),
        run.entries.as_slice(),
    );
    add_between(out, front, behind, levels::HEAD);
    levels::add_service_lines(out, front, behind, &levels::LEVELS, run.entries.as_slice());
    levels::add_tick_lines(out, front, behind, &levels::LEVELS, run.entries.as_slice());
    out.add(front);
    add_time_line(out, script.params.swap, run);
    out.add(behind);
}

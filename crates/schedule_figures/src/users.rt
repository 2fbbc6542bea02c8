//! The users' lines of figures.
ghost use Rattle.picture_model.specs.FigureLines.{user_line, user_lines};
ghost use Rattle.schedule_figures.specs.Lines.{figure_columns, load_columns};
ghost use Rattle.text_writer.specs.Writing.{Adds};

use crate::requests::requests_of;
use crate::work::{Work, work_of};
use ctss_io::Sink;
use ctss_types::{Account, Entry};
use text_writer::TextWriter;
use text_writer::columns::{add_characters, add_column};

/// What stands over the users' lines.
pub(crate) const HEAD: &[u8] =
    b"USER NAME    LINES SERVICES    SERVED    WAITED  RESPONSE    MOST TURNROUND    MOST LEVEL LOADS  DUMPED    READ";

/// Adds a user's highest level, its loads, and the blocks that they moved.
fn add_load_columns<K: Sink>(out: &mut TextWriter<'_, K>, work: Work)
    ensures { Adds K.Sink (load_columns work) out.old out.new }
{
    add_column(out, 6, work.level);
    add_column(out, 6, work.loads);
    add_column(out, 8, work.dumped);
    add_column(out, 8, work.read);
}

/// Adds a user's figures.
fn add_figure_columns<K: Sink>(out: &mut TextWriter<'_, K>, user: usize, entries: &[Entry])
    ensures { Adds K.Sink (figure_columns user entries.now) out.old out.new }
{
    let work = work_of(user, entries);
    let requests = requests_of(user, entries);
    add_column(out, 7, work.lines);
    add_column(out, 9, work.services);
    add_column(out, 10, work.served);
    add_column(out, 10, requests.waited);
    requests.responses.add_to(out);
    requests.turnarounds.add_to(out);
    add_load_columns(out, work);
}

/// Adds a user's line.
fn add_user_line<K: Sink>(
    out: &mut TextWriter<'_, K>,
    number: usize,
    account: &Account,
    entries: &[Entry],
)
    ensures { Adds K.Sink (user_line number account.now entries.now) out.old out.new }
{
    add_column(out, 4, number);
    out.add(b" ");
    add_characters(out, account.name);
    add_figure_columns(out, number, entries);
}

/// Adds the users' lines, numbered from 1 on, each between two texts.
pub(crate) fn add_user_lines<K: Sink>(
    out: &mut TextWriter<'_, K>,
    front: &[u8],
    behind: &[u8],
    accounts: &[Account],
    entries: &[Entry],
)
    ensures { Adds K.Sink (user_lines front.now behind.now 1 accounts.now entries.now) out.old out.new }
{
    for (index, account) in accounts.iter().enumerate() {
        out.add(front);
        add_user_line(out, index + 1, account, entries);
        out.add(behind);
    }
}

//! The users' rows.
ghost use Rattle.picture_model.specs.Chart.{user_rows, all_user_rows};
ghost use Rattle.text_writer.specs.Writing.{Adds};

use crate::chart::columns::Columns;
use crate::chart::rows::{add_event_row, add_served_row};
use ctss_io::Sink;
use ctss_types::{Account, Entry};
use text_writer::TextWriter;
use text_writer::columns::{add_characters, add_column};

/// Adds the two rows of a user: what came to it, and how it waited and was served.
fn add_user<K: Sink>(
    out: &mut TextWriter<'_, K>,
    columns: Columns,
    swap: u64,
    user: u64,
    account: &Account,
    entries: &[Entry],
)
    ensures { Adds K.Sink (user_rows swap columns.each columns.count user account.now entries.now) out.old out.new }
{
    out.add(b"          ");
    add_event_row(out, columns, user, entries);
    out.end_line();
    add_column(out, 2, user);
    out.add(b" ");
    add_characters(out, account.name);
    out.add(b" ");
    add_served_row(out, columns, swap, user, entries);
    out.end_line();
}

/// Adds the rows of all users; the first account is user 1.
pub fn add_users<K: Sink>(
    out: &mut TextWriter<'_, K>,
    columns: Columns,
    swap: u64,
    accounts: &[Account],
    entries: &[Entry],
)
    ensures { Adds K.Sink (all_user_rows swap columns.each columns.count 1 accounts.now entries.now) out.old out.new }
{
    for (index, account) in accounts.iter().enumerate() {
        add_user(out, columns, swap, index as u64 + 1, account, entries);
    }
}

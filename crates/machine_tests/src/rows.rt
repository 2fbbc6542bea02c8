//! What is tried row by row of a table.
use std::process::Abort;

/// Tries that a row, by its place in the table, is so.
pub fn holds(rt: &impl Abort, row: usize, is_so: bool) {
    assert!(rt; is_so, "row {row}");
}

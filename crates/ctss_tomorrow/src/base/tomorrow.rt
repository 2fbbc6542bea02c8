//! The next session's base script: its definition, its text, and that it is lawful and reads as itself.
//!
//! The definitions stand in `specs/`: `Tomorrow` (which files are kept, and the base), `Laws` and `Rows` (worked rows).
ghost use Rattle.ctss_tomorrow.specs.Laws.{NextBasesAreLawful, NextBasesAreRead, QuietScriptsAreBases};
ghost use Rattle.ctss_tomorrow.specs.Rows.{RowOfNames, RowOfKept};

/// The base after the record of a lawful script is lawful.
pub fn next_bases_are_lawful()
    ensures { NextBasesAreLawful }
{}

/// A script without events is a base script.
pub fn quiet_scripts_are_bases()
    ensures { QuietScriptsAreBases }
{}

/// The text of that base reads as it.
pub fn next_bases_are_read()
    ensures { NextBasesAreRead }
{}

/// Which names a card can say.
pub fn row_of_names()
    ensures { RowOfNames }
{}

/// Which files are kept.
pub fn row_of_kept()
    ensures { RowOfKept }
{}

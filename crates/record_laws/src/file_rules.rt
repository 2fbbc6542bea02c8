//! What every directory of every record keeps to: modes, names that differ, and the quota of tracks.
//!
//! The definitions stand in `specs/`: `Rules`, `DirectoryLaws` and `DirectoryRows` (a worked row). The functions here do nothing: each carries
//! the law or the row.
ghost use Rattle.record_laws.specs.DirectoryLaws.{DirectoriesKeepRules};
ghost use Rattle.record_laws.specs.DirectoryRows.{RowOfRules};

/// In the record of every script each directory keeps its rules.
pub fn directories_keep_rules()
    ensures { DirectoriesKeepRules }
{}

/// Directories that keep the rules and that don't.
pub fn row_of_rules()
    ensures { RowOfRules }
{}

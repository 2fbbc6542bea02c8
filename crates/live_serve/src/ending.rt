use ctss_types::{Record, TimedList};

/// How the serving of live consoles ended.
#[derive(Debug, Drop)]
pub enum Served {
    /// All turns were done: the events that people gave, and the record.
    Done { events: TimedList, record: Record },
    /// The drum failed. The record has no files.
    DrumFailed(Record),
    /// The disk failed. The record has no files.
    DiskFailed(Record),
}

ghost use Rattle.std.specs.Prelude.{◌≡◌};
ghost use Rattle.ctss_modes.specs.Outcomes.{bare, failed};

use ctss_types::{Record, Sequence};
use std::alloc::Global;

/// How a call ended. `status` is what the program ends with:
///
/// - 0: done
/// - 1: the words of the command line are refused
/// - 2: the script is refused, at `card` for `cause`
/// - 3: the source failed
/// - 4: the sink failed
/// - 5: the drum failed
/// - 6: the disk failed
/// - 7: the listener failed
/// - 8: memory ran out
/// - 9: the cards are at fault
///
/// `card` and `cause` are 0 but for status 2. `run` is the record with status 0 (none for cards), and with 4 where the text of
/// a run was cut off; with 5 and 6 that of the steps so far, without files; else it is empty.
#[derive(Debug, Drop)]
pub struct Outcome {
    pub status: u8,
    pub card: u32,
    pub cause: u8,
    pub run: Record,
}

impl Outcome {
    /// No record was made.
    pub fn bare(alloc: Global, status: u8, card: u32, cause: u8) -> Outcome
        ensures { result ≡ bare status card cause }
    {
        Outcome {
            status,
            card,
            cause,
            run: Record {
                entries: Sequence::new(alloc),
                transcripts: Sequence::new(alloc),
                files: Sequence::new(alloc),
                common: Sequence::new(alloc),
                clock: 0,
            },
        }
    }

    /// Drum or disk failed, which left this record.
    pub(crate) fn failed(status: u8, run: Record) -> Outcome
        ensures { result ≡ failed status run }
    {
        Outcome {
            status,
            card: 0,
            cause: 0,
            run,
        }
    }
}

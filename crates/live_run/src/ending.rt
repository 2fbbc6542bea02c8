//! The end of a run.
ghost use Rattle.std.specs.Prelude.{◌≡◌, false, OnOk, IfOk};
ghost use Rattle.supervisor.specs.Whole.{whole_of, Agrees};
ghost use Rattle.live_run.specs.Finishes.{Finishes, IfDone};

use ctss_types::{NoMemory, Record, RunFault};
use std::alloc::Global;
use supervisor::{Closed, Supervisor};
use user_cores::Backing;

/// How a run ended, with its record.
#[derive(Debug, Drop)]
pub enum Played {
    /// Its end was reached.
    Done(Record),
    /// The drum failed. The record has no files.
    DrumFailed(Record),
    /// The disk failed. The record has no files.
    DiskFailed(Record),
}

/// The record of a run that ended so: with all files where it came to its end and they could be read, else that of its steps so far,
/// without files. There is none where memory lacked.
pub fn finish<C: Backing>(
    alloc: Global,
    supervisor: Supervisor,
    cores: &mut C,
    ended: Result<(), RunFault>,
) -> Result<Played, NoMemory>
    requires open { OnOk ended (supervisor.ended ≡ false) }
    requires usable { OnOk ended (C.Usable cores.old) }
    requires agrees { OnOk ended (Agrees (whole_of supervisor (C.state cores.old))) }
    ensures finishes { IfOk result (Finishes ended supervisor (C.state cores.old) (C.state cores.new)) }
    ensures lies { IfOk result (λ played. IfDone played (λ rec. C.Lies cores.new rec.files rec.common)) }
    ensures calls { (C.state cores.new).calls ≡ (C.state cores.old).calls }
    ensures faults { (C.state cores.new).faults ≡ (C.state cores.old).faults }
    ensures keeps { C.Keeps cores.old cores.new }
{
    match ended {
        Ok(()) => match supervisor.close(alloc, cores)? {
            Closed::Complete(record) => Ok(Played::Done(record)),
            Closed::WithoutFiles(record) => Ok(Played::DiskFailed(record)),
        },
        Err(RunFault::Drum) => Ok(Played::DrumFailed(supervisor.stop(alloc)?)),
        Err(RunFault::Disk) => Ok(Played::DiskFailed(supervisor.stop(alloc)?)),
        Err(RunFault::NoMemory) => Err(NoMemory),
    }
}

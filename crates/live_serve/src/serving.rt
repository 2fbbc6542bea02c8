//! Live consoles over drum, disk and a link.
ghost use Rattle.std.specs.Prelude.{◌≡◌, ◌≢◌, ◌≤◌, false, Err, IfOk, OnOk, OnErr, IsErrOf};
ghost use Rattle.faults.specs.Faults.{Rose};
ghost use Rattle.drum_slots.specs.Kept.{ServesSlots};
ghost use Rattle.track_store.specs.Tracks.{ServesTracks};
ghost use Rattle.ctss_types.specs.declared.script.Script.{Script};
ghost use Rattle.text_model.specs.Lawful.{IsLawful};
ghost use Rattle.plan_model.specs.Loads.{no_places};
ghost use Rattle.supervisor.specs.Seen.{run_with, record_so_far};
ghost use Rattle.supervisor.specs.Whole.{whole_of, Agrees};
ghost use Rattle.live_run.specs.Calls.{IsReady};
ghost use Rattle.live_run.specs.Media.{MediaSeen, media_seen};
ghost use Rattle.live_run.specs.Starts.{IsBegun};
ghost use Rattle.console_server.specs.Server.{AreUnused};
ghost use Rattle.live_serve.specs.Live.{IsServed, HasSpent, RunEnds};
ghost use Rattle.live_serve.specs.Hosts.{EndsSo, Hosts, IsBehind};

use crate::ending::Served;
use crate::fault::ServingFault;
use crate::talking::{Talked, talk};
use console_link::Link;
use console_server::{ServeFault, Tables};
use ctss_types::{RunFault, Script, StepFault, TimedList};
use live_run::{Begun, LiveRun, NewRun, Played, begin, finish};
use medium::Medium;
use std::alloc::Global;
use supervisor::Supervisor;
use user_cores::Backing;

/// Where people connect, and for how many turns.
#[derive(Clone, Copy)]
pub struct Listening {
    pub port: u16,
    pub turns: u32,
}

/// How a run ended whose turns ended so. A fault of the listener leaves none.
fn run_ended(ended: Result<(), ServeFault>) -> Result<Result<(), RunFault>, ServingFault>
    ensures run { IfOk result (λ run. RunEnds ended run) }
    ensures link { result ≡ Err ServingFault.Link → ended ≡ Err ServeFault.Link }
{
    match ended {
        Ok(()) => Ok(Ok(())),
        Err(ServeFault::Link) => Err(ServingFault::Link),
        Err(ServeFault::Drum) => Ok(Err(RunFault::Drum)),
        Err(ServeFault::Disk) => Ok(Err(RunFault::Disk)),
        Err(ServeFault::NoMemory) => Err(ServingFault::NoMemory),
    }
}

/// What a run hands out whose turns ended so, with these events.
fn end<C: Backing>(
    alloc: Global,
    supervisor: Supervisor,
    behind: &mut C,
    events: TimedList,
    ended: Result<(), ServeFault>,
) -> Result<Served, ServingFault>
    requires open { OnOk ended (supervisor.ended ≡ false) }
    requires usable { OnOk ended (C.Usable behind.old) }
    requires agrees { OnOk ended (Agrees (whole_of supervisor (C.state behind.old))) }
    ensures ends { IfOk result (EndsSo (C.Lies behind.new) ended supervisor
        (C.state behind.old) (C.state behind.new) events) }
    ensures link { result ≡ Err ServingFault.Link → ended ≡ Err ServeFault.Link }
    ensures calls { (C.state behind.new).calls ≡ (C.state behind.old).calls }
    ensures faults { (C.state behind.new).faults ≡ (C.state behind.old).faults }
    ensures keeps { C.Keeps behind.old behind.new }
{
    let run = run_ended(ended)?;
    match finish(alloc, supervisor, behind, run)? {
        Played::Done(record) => Ok(Served::Done { events, record }),
        Played::DrumFailed(record) => Ok(Served::DrumFailed(record)),
        Played::DiskFailed(record) => Ok(Served::DiskFailed(record)),
    }
}

/// What a run hands out whose first files could not be written.
fn end_unbegun(
    alloc: Global,
    supervisor: Supervisor,
    fault: StepFault,
) -> Result<Served, ServingFault>
    ensures disk { IfOk result
        (λ s. (fault ≡ StepFault.Disk) × (s ≡ Served.DiskFailed (record_so_far (run_with no_places supervisor)))) }
    ensures link { result ≢ Err ServingFault.Link }
{
    match fault {
        StepFault::Disk => Ok(Served::DiskFailed(supervisor.stop(alloc)?)),
        StepFault::NoMemory => Err(ServingFault::NoMemory),
    }
}

/// What came of serving, and what lay behind the run.
#[derive(Drop)]
struct Hosted<C> {
    behind: C,
    served: Result<Served, ServingFault>,
}

/// So many turns over a run that has begun, in which people connect at a port.
fn host<C: Backing + Drop, L: Link>(
    alloc: Global,
    run: LiveRun<C>,
    wrote: Result<(), StepFault>,
    tables: Tables,
    listening: Listening,
    link: &mut L,
) -> Hosted<C>
    requires turns { listening.turns ≤ 100000 }
    requires unused { AreUnused tables }
    requires open { OnOk wrote (run.supervisor.ended ≡ false) }
    requires usable { ¬ IsErrOf wrote StepFault.Disk → C.Usable run.cores }
    requires ready { OnOk wrote (IsReady (whole_of run.supervisor (C.state run.cores))) }
    ensures hosts { (base : Script) (was now : MediaSeen)
        → IsBegun base was wrote (whole_of run.supervisor (C.state run.cores))
        → IsBehind (C.Lies result.behind) (C.state result.behind) now
        → Hosts base listening.port listening.turns was now (L.seen link.old) (L.seen link.new) result.served }
    ensures link { result.served ≡ Err ServingFault.Link → Rose (L.seen link.old).faults (L.seen link.new).faults }
    ensures keeps { C.Keeps run.cores result.behind }
{
    if let Err(fault) = wrote {
        let (supervisor, behind) = run.into_parts();
        let served = end_unbegun(alloc, supervisor, fault);
        return Hosted { behind, served };
    }
    if link.open(listening.port).is_err() {
        let (_, behind) = run.into_parts();
        return Hosted {
            behind,
            served: Err(ServingFault::Link),
        };
    }
    let Talked {
        core,
        events,
        ended,
    } = talk(tables, run, listening.turns, link);
    let (supervisor, mut behind) = core.into_parts();
    let served = end(alloc, supervisor, &mut behind, events, ended);
    Hosted { behind, served }
}

/// So many turns of 1000 ticks each, in which people connect at a port, over the accounts and files of a base script, a drum of at
/// least 3840 records of 256 words and a disk of at least 10000 records of 432 words.
pub fn serve<D: Medium, F: Medium, L: Link>(
    alloc: Global,
    base: &Script,
    listening: Listening,
    drum: &mut D,
    disk: &mut F,
    link: &mut L,
) -> Result<Served, ServingFault>
    requires lawful { IsLawful base.now }
    requires turns { listening.turns ≤ 100000 }
    requires drum { ServesSlots (D.contents drum.old) (D.record_count drum.old) (D.words_each drum.old) 3840 }
    requires disk { ServesTracks (F.contents disk.old) (F.record_count disk.old) (F.words_each disk.old) 10000 }
    ensures served { IfOk result (IsServed base.now listening.port listening.turns
        (media_seen D.Medium F.Medium drum.old disk.old) (media_seen D.Medium F.Medium drum.new disk.new)
        (L.seen link.old) (L.seen link.new)) }
    ensures spent { OnErr result (HasSpent base.now listening.port listening.turns
        (media_seen D.Medium F.Medium drum.old disk.old) (media_seen D.Medium F.Medium drum.new disk.new)
        (L.seen link.old) (L.seen link.new)) }
    ensures link { result ≡ Err ServingFault.Link → Rose (L.seen link.old).faults (L.seen link.new).faults }
{
    let new = NewRun::new(alloc, base)?;
    let tables = Tables::new(alloc)?;
    let Begun { run, wrote } = begin(new, base, drum, disk);
    let Hosted { behind, served } = host(alloc, run, wrote, tables, listening, link);
    let (cores, files) = behind.into_parts();
    let _ = cores.back();
    let _ = files.back();
    served
}

//! The turns of a server over a link, from the first one to the closing of all connections.
ghost use Rattle.std.specs.Prelude.{◌≡◌, ◌≤◌, false, OnOk, IfErr};
ghost use Rattle.console_server.specs.Server.{IsCause, AreUnused};
ghost use Rattle.console_server.specs.Cores.{CanGoOn};
ghost use Rattle.live_serve.specs.Talks.{TalkIsDone, TalkIsCut};

use console_link::Link;
use console_server::{Finished, ServeFault, Server, Tables};
use ctss_types::TimedList;
use live_core::LiveCore;

/// A core after its turns, the events that it was given, and how the turns ended.
#[derive(Drop)]
pub(crate) struct Talked<C> {
    pub(crate) core: C,
    pub(crate) events: TimedList,
    pub(crate) ended: Result<(), ServeFault>,
}

/// So many turns of 32 consoles.
pub(crate) fn talk<C: LiveCore + Drop, L: Link>(
    tables: Tables,
    core: C,
    count: u32,
    link: &mut L,
) -> Talked<C>
    requires unused { AreUnused tables }
    requires count { count ≤ 100000 }
    requires can { CanGoOn C.seen C.Sound core }
    ensures done { OnOk result.ended (TalkIsDone C.Goes C.seen (C.seen core).texts count result.events
        (L.seen link.old) (L.seen link.new) core result.core) }
    ensures cut { IfErr result.ended (λ fault. TalkIsCut C.Goes C.seen (C.seen core).texts count fault
        (L.seen link.old) (L.seen link.new) core result.core) }
    ensures can { OnOk result.ended (CanGoOn C.seen C.Sound result.core) }
    ensures cause { IfErr result.ended (λ fault. IsCause fault
        (L.seen link.old) (L.seen link.new) (C.seen core) (C.seen result.core)) }
{
    let mut server = Server::new(tables, core, link);
    let ended = server.turns(u64::from(count));
    let (finished, link_back) = server.finish();
    let Finished { core, events } = finished;
    let _ = link_back;
    Talked {
        core,
        events,
        ended,
    }
}

//! Someone at a socket, whom a server serves over a run. What else connections send and consoles show are cases of run_cases.
ghost use Rattle.std.specs.Prelude.{◌≡◌, false, IfOk};
ghost use Rattle.drum_slots.specs.Kept.{ServesSlots};
ghost use Rattle.track_store.specs.Tracks.{ServesTracks};
ghost use Rattle.text_model.specs.Lawful.{IsLawful};

use crate::links::{gets, opened};
use console_link::{Link, MioLink};
use console_server::{Finished, Server, Tables};
use ctss_types::{Event, NoMemory, Script, Timed, TimedList};
use live_core::LiveCore;
use live_run::{Begun, NewRun, begin};
use medium::{Medium, PlainMedium};
use script_read::read_script;
use std::alloc::Global;
use std::io::{Read, Write};
use std::net;
use std::net::Ipv4Addr;
use std::process::Abort;
use std::test::Fail;

static BASE: &[u8] = b"PARAM 1024 100 10 8 20 5
USER 1 ALFA SESAME 8 10
END 0
";

static TYPED: &[u8] = b"login alfa\r\nsesame\r\nlogout\r\n";

static SHOWN: &[u8] = b"PASSWORD\r\nALFA LOGGED IN\r\nW 0000.0\r\nALFA LOGGED OUT\r\n";

/// What happens at console 1 and tick 0, a line or a DIAL.
static EVENTS: [Option<&[u8]>; 4] = [None, Some(b"LOGIN ALFA"), Some(b"SESAME"), Some(b"LOGOUT")];

/// Whether an event is this line at console 1 and tick 0, or where it is none a DIAL.
fn is_event(timed: &Timed, wanted: Option<&[u8]>) -> bool {
    let is_so = match timed.event {
        Event::Line(line) => wanted == Some(line.as_slice()),
        event => event == Event::Dial && wanted.is_none(),
    };
    is_so && timed.tick == 0 && timed.console.number() == 1
}

/// Tries that these are the events.
fn are_events(rt: &impl Abort, events: &[Timed]) {
    assert!(rt; events.len() == EVENTS.len());
    for (timed, wanted) in events.iter().zip(&EVENTS) {
        assert!(rt; is_event(timed, *wanted));
    }
}

/// Does two turns of a server, and gives the events.
fn two_turns<C: LiveCore + Drop, L: Link>(
    rt: &impl Abort,
    alloc: Global,
    core: C,
    link: &mut L,
) -> Result<TimedList, NoMemory>
    requires ready { (C.seen core).is_ended ≡ false }
    requires sound { C.Sound core }
{
    let tables = Tables::new(alloc)?;
    let mut server = Server::new(tables, core, link);
    assert!(rt; server.turns(2) == Ok(()));
    let (finished, _) = server.finish();
    let Finished { core, events } = finished;
    drop(core);
    Ok(events)
}

/// The base's script, which is lawful.
#[tactic(auto, using(text_model::proofs::LawfulLaws::scripts_are_lawful))]
fn base_of(rt: &impl Abort, alloc: Global) -> Result<Script, Fail>
    ensures { IfOk result IsLawful }
{
    match read_script(alloc, BASE) {
        Ok(script) => Ok(script),
        Err(_) => panic!(rt; "the script is refused"),
    }
}

/// Serves the run of a script over this drum and this disk, and tries which events it was given.
fn over_media<D: Medium, F: Medium, L: Link>(
    rt: &impl Abort,
    alloc: Global,
    script: &Script,
    drum: &mut D,
    disk: &mut F,
    link: &mut L,
) -> Result<(), Fail>
    requires lawful { IsLawful script.now }
    requires drum { ServesSlots (D.contents drum.old) (D.record_count drum.old) (D.words_each drum.old) 3840 }
    requires disk { ServesTracks (F.contents disk.old) (F.record_count disk.old) (F.words_each disk.old) 10000 }
{
    let new = NewRun::new(alloc, script)?;
    let Begun { run, wrote } = begin(new, script, drum, disk);
    let Ok(()) = wrote else {
        panic!(rt; "the disk failed");
    };
    let events = two_turns(rt, alloc, run, link)?;
    are_events(rt, events.as_slice());
    Ok(())
}

/// Serves the base over a drum and a disk in memory.
fn is_served<L: Link>(rt: &impl Abort, alloc: Global, link: &mut L) -> Result<(), Fail> {
    let script = base_of(rt, alloc)?;
    let mut drum = PlainMedium::new(alloc, 3840, 256)?;
    let mut disk = PlainMedium::new(alloc, 10000, 432)?;
    over_media(rt, alloc, &script, &mut drum, &mut disk, link)
}

/// Has a client type, and tries what it gets.
fn types_and_gets<L: Link, S: Read + Write>(
    rt: &impl Abort,
    alloc: Global,
    link: &mut L,
    client: &mut S,
) -> Result<(), Fail> {
    client.write_all(TYPED)?;
    is_served(rt, alloc, link)?;
    gets(rt, client, SHOWN)
}

#[test]
fn a_login_over_a_socket_is_served(rt: HostRuntime) -> Result<(), Fail> {
    let mut link = MioLink::new(rt.alloc(), &rt)?;
    let port = opened(&rt, &mut link);
    let mut client = net::TcpStream::connect(&rt, (Ipv4Addr::LOCALHOST, port))?;
    types_and_gets(&rt, rt.alloc(), &mut link, &mut client)
}

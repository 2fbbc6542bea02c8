//! What consoles show of a run.
ghost use Rattle.std.specs.Prelude.{◌≡◌, false, IfOk};
ghost use Rattle.text_model.specs.Lawful.{IsLawful};

use ctss_types::{ConsoleNo, Script, Timed};
use live_core::LiveCore;
use live_run::{Begun, NewRun, begin};
use medium::MemoryMedium;
use script_read::read_script;
use std::alloc::Global;
use std::process::Abort;
use std::test::Fail;

/// Two users, one of whom is refused twice; a quit, a hang, a logout, and a login at the other's console.
static SCRIPT: &[u8] = b"PARAM 1024 100 10 16 20 5
USER 1 ALFA SESAME 8 5
USER 2 BETA SESAME 8 5
AT 0 1 DIAL
AT 0 1 LINE LOGIN ALFA
AT 0 1 LINE WRONG
AT 0 1 LINE LOGIN ALFA
AT 0 1 LINE SESAME
AT 0 2 DIAL
AT 0 2 LINE LOGIN ALFA
AT 0 2 LINE SESAME
AT 0 2 LINE LOGIN BETA
AT 0 2 LINE SESAME
AT 10 1 LINE NOTHING
AT 20 2 QUIT
AT 30 2 HANG
AT 40 1 LINE LOGOUT
AT 50 2 DIAL
AT 50 2 LINE LOGIN ALFA
AT 50 2 LINE SESAME
END 100
";

static FIRST: &[u8] =
    b"PASSWORD\r\nLOGIN REFUSED\r\nPASSWORD\r\nALFA LOGGED IN\r\nW 0000.0\r\nNOT A COMMAND\r\nR 1\r\nW 0000.0\r\nALFA LOGGED OUT\r\n";

static SECOND: &[u8] =
    b"PASSWORD\r\nLOGIN REFUSED\r\nPASSWORD\r\nBETA LOGGED IN\r\nQUIT,\r\nPASSWORD\r\nALFA LOGGED IN\r\n";

/// A script that is lawful.
#[tactic(auto, using(text_model::proofs::LawfulLaws::scripts_are_lawful))]
fn script_of(rt: &impl Abort, alloc: Global, text: &[u8]) -> Result<Script, Fail>
    ensures { IfOk result IsLawful }
{
    match read_script(alloc, text) {
        Ok(script) => Ok(script),
        Err(_) => panic!(rt; "the script is refused"),
    }
}

/// A core is given all these events, and goes to tick 100.
fn play<R: LiveCore>(core: &mut R, events: &[Timed]) -> Result<(), Fail>
    requires ready { (R.seen core.old).is_ended ≡ false }
    requires sound { R.Sound core.old }
{
    'events: for event in events {
        core.take(*event)?;
    }
    core.advance(100)?;
    Ok(())
}

fn console(rt: &impl Abort, number: u8) -> ConsoleNo {
    match ConsoleNo::new(number) {
        Some(console) => console,
        None => panic!(rt; "no console has this number"),
    }
}

/// Tries how much a console has shown, and what from a place on, in a slice of 120 bytes.
fn shows<R: LiveCore>(rt: &impl Abort, run: &R, number: u8, from: usize, all: &[u8]) {
    let console = console(rt, number);
    let mut into = [0u8; 120];
    let count = run.out_since(console, from as u64, &mut into);
    let want = all.get(from..).unwrap_or(b"");
    assert_eq!(rt;
        (run.out_len(console), &into[..count]),
        (all.len() as u64, want)
    );
}

/// Tries what the consoles of a core show of these events.
fn shows_all<R: LiveCore>(rt: &impl Abort, core: &mut R, events: &[Timed]) -> Result<(), Fail>
    requires ready { (R.seen core.old).is_ended ≡ false }
    requires sound { R.Sound core.old }
{
    play(core, events)?;
    // From its beginning, inside a line, at its end, at the end of all, and past it.
    for from in [0, 3, 10, FIRST.len(), 10_000] {
        shows(rt, core, 1, from, FIRST);
    }
    shows(rt, core, 2, 0, SECOND);
    shows(rt, core, 3, 0, b"");
    shows(rt, core, 32, 0, b"");
    let mut into = [0u8; 12];
    let count = core.out_since(console(rt, 2), 8, &mut into);
    assert_eq!(rt; (count, &into), (12, b"\r\nLOGIN REFU"));
    Ok(())
}

#[test]
fn each_console_shows_its_own_in_any_parts(rt: HostRuntime) -> Result<(), Fail> {
    let script = script_of(&rt, rt.alloc(), SCRIPT)?;
    let mut drum = MemoryMedium::new(rt.alloc(), 3840, 256, &[], &[], 0)?;
    let mut disk = MemoryMedium::new(rt.alloc(), 10000, 432, &[], &[], 0)?;
    let new = NewRun::new(rt.alloc(), &script)?;
    let Begun { mut run, wrote } = begin(new, &script, &mut drum, &mut disk);
    let Ok(()) = wrote else {
        panic!(rt; "the disk failed");
    };
    shows_all(&rt, &mut run, script.events.as_slice())?;
    let (supervisor, _) = run.into_parts();
    assert!(rt; !supervisor.ended());
    Ok(())
}

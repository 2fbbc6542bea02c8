//! A case that is done.
ghost use Rattle.std.specs.Prelude.{◌≡◌, IfOk, length};
ghost use Rattle.std.specs.List.{All};
ghost use Rattle.medium.specs.Damages.{IsDamage};
ghost use Rattle.medium.specs.Medium.{HasShape};
ghost use Rattle.medium.specs.Rows.{told_rows};
ghost use Rattle.medium.specs.declared.memory.Damage.{Damage};
ghost use Rattle.run_cases.specs.Media.{AreWhole};

use crate::case::{Case, Device, Each, Faults, Program};
use crate::drum::TellingDrum;
use crate::link::link_of;
use anyhow::{Result, bail};
use console_link::{Accepted, CallMade, MemoryLink};
use ctss_io::{MemorySink, MemorySource};
use ctss_top::{ArgList, Outcome, run_ctss};
use medium::{Damage, MemoryMedium};
use run_listing::write_listing;
use run_picture::write_picture;
use std::alloc::{AllocError, Global};
use std::io::{Write, writer};

/// The words of a case; for turns those that ask for so many.
fn words_of(alloc: Global, case: &Case) -> Result<ArgList> {
    let mut words = ArgList::new(alloc);
    if let Some(turns) = case.turns {
        let turns = format!(in alloc; "{turns}")?;
        for word in ["serve", "--port", "7094", "--turns", turns.as_str()] {
            words.add(word)?;
        }
    }
    for word in &case.words {
        words.add(word.as_str())?;
    }
    Ok(words)
}

/// Tells the calls of a link: how many, the first two and the last, how many wait, and what comes behind the 33rd connection.
fn tell_calls(rt: &HostRuntime, link: &MemoryLink) -> Result<()> {
    let calls = link.calls();
    let is_wait = |call: &&CallMade| matches!(call, CallMade::Wait { .. });
    let waits = calls.iter().filter(is_wait).count();
    println!(rt;
        "CALLS {:?} {:?} .. {:?}, {waits} WAITS",
        calls.first(),
        calls.get(1),
        calls.last()
    )?;
    let late = CallMade::Accept(Accepted::New(32));
    if let Some(at) = calls.iter().position(|call| *call == late) {
        println!(rt; "BEHIND 33 {:?}", calls.get(at + 1))?;
    }
    Ok(())
}

/// Tells the calls of a drum, a line each, if there was room for all.
fn tell_drum(rt: &HostRuntime, drum: &TellingDrum) -> Result<()> {
    let Some(calls) = drum.calls() else {
        println!(rt; "DRUM TELLS NO CALLS")?;
        return Ok(());
    };
    for call in calls {
        let kind = if call.is_put { "PUT" } else { "GET" };
        let end = if call.failed { " FAILED" } else { "" };
        println!(rt; "{kind} {}{end}", call.record)?;
    }
    Ok(())
}

/// Writes what came of a case.
fn tell(
    rt: &HostRuntime,
    case: &Case,
    outcome: &Outcome,
    wrote: &[u8],
    drum: &TellingDrum,
    link: &MemoryLink,
) -> Result<()> {
    writer(rt).write_all(wrote)?;
    if case.name.is_some() {
        println!(rt;
            "STATUS {} CARD {} CAUSE {}",
            outcome.status, outcome.card, outcome.cause
        )?;
    }
    if case.drum_calls.is_some() {
        tell_drum(rt, drum)?;
    }
    if case.tells_last {
        let entries = outcome.run.entries.as_slice();
        println!(rt; "LAST {} {:?}", entries.len(), entries.last())?;
    }
    for (k, _) in (0u32..).zip(&case.callers) {
        let sent = hex::encode(rt.alloc(), link.sent(k))?;
        println!(rt; "SENT {k} {sent}")?;
    }
    if case.tells_calls {
        tell_calls(rt, link)?;
    }
    Ok(())
}

/// The damage of a medium, whose records have so many words.
fn damages_of(alloc: Global, damage: Option<Damage>, words: u16) -> Result<Vec<Damage>>
    ensures { IfOk result (λ damages. All (λ (d : Damage). IsDamage words d) damages.items) }
{
    let mut damages = Vec::new(alloc);
    if let Some(damage) = damage {
        if damage.place >= words || damage.word >= 1 << 36 {
            bail!("no such damage");
        }
        damages.push(damage)?;
    }
    Ok(damages)
}

/// A call of a device that fails.
#[derive(Clone, Copy)]
struct FailingCall {
    device: Device,
    number: u64,
}

/// The calls of a device that fail: these, and the one that fails beside them.
fn fails_of(
    alloc: Global,
    device: Device,
    fails: &[u64],
    beside: Option<FailingCall>,
) -> Result<Vec<u64>, AllocError> {
    let mut all = fails.to_vec(alloc)?;
    if let Some(call) = beside {
        if call.device == device {
            all.push(call.number)?;
        }
    }
    Ok(all)
}

/// How large a medium is: so many records of so many words, with room for so many calls in its log.
#[derive(Clone, Copy)]
struct Extent {
    records: u16,
    words: u16,
    room: u64,
}

/// A medium in memory, of which this is wrong, and of which a call may fail beside.
#[tactic(auto, using(crate::proofs::Shapes::told_shape))]
fn medium_of(
    alloc: Global,
    device: Device,
    faults: &Faults,
    beside: Option<FailingCall>,
    extent: Extent,
) -> Result<MemoryMedium>
    ensures shape { IfOk result (λ m. HasShape (told_rows m.damages m.contents) (length m.contents)) }
    ensures count { IfOk result (λ m. length m.contents ≡ extent.records) }
    ensures words { IfOk result (λ m. m.words_each ≡ extent.words) }
{
    let damages = damages_of(alloc, faults.damage, extent.words)?;
    let fails = fails_of(alloc, device, &faults.fails, beside)?;
    let Extent {
        records,
        words,
        room,
    } = extent;
    Ok(MemoryMedium::new(alloc, records, words, &fails, &damages, room)?)
}

/// The text of a case as a source.
fn source_of(alloc: Global, case: &Case, beside: Option<FailingCall>) -> Result<MemorySource> {
    if case.source.piece == 0 {
        bail!("a source gives a byte or more a read");
    }
    let fails = fails_of(alloc, Device::Source, &case.source.fails, beside)?;
    let source = MemorySource::new(alloc, &case.text, case.source.piece, &fails)?;
    Ok(source)
}

/// The sink of a case.
fn sink_of(alloc: Global, case: &Case, beside: Option<FailingCall>) -> Result<MemorySink> {
    if case.sink.piece == 0 {
        bail!("a sink takes a byte or more a put");
    }
    let fails = fails_of(alloc, Device::Sink, &case.sink.fails, beside)?;
    let sink = MemorySink::new(alloc, case.room, case.sink.piece, &fails)?;
    Ok(sink)
}

/// The drum and the disk of a case.
#[derive(Drop)]
struct Media {
    drum: TellingDrum,
    disk: MemoryMedium,
}

/// Source and sink of a case.
#[derive(Drop)]
struct Streams {
    input: MemorySource,
    output: MemorySink,
}

/// The drum and the disk of a case, each as large as the program's.
fn media_of(alloc: Global, case: &Case, beside: Option<FailingCall>) -> Result<Media>
    ensures { IfOk result AreWhole }
{
    let room = case.drum_calls.unwrap_or(0);
    let drum_extent = Extent {
        records: 3840,
        words: 256,
        room,
    };
    let disk_extent = Extent {
        records: 10000,
        words: 432,
        room: 0,
    };
    let records = medium_of(alloc, Device::Drum, &case.drum, beside, drum_extent)?;
    let drum = TellingDrum::new(alloc, records, room)?;
    let disk = medium_of(alloc, Device::Disk, &case.disk, beside, disk_extent)?;
    Ok(Media { drum, disk })
}

/// Source and sink of a case.
fn streams_of(alloc: Global, case: &Case, beside: Option<FailingCall>) -> Result<Streams> {
    let input = source_of(alloc, case, beside)?;
    let output = sink_of(alloc, case, beside)?;
    Ok(Streams { input, output })
}

/// What comes of a program's words over streams, and, of the supervisor's, over media and a link.
fn outcome_of(
    alloc: Global,
    program: Program,
    words: &ArgList,
    streams: &mut Streams,
    media: &mut Media,
    link: &mut MemoryLink,
) -> Outcome
    requires { AreWhole media.old }
{
    let (input, output) = (&mut streams.input, &mut streams.output);
    match program {
        Program::Supervisor => run_ctss(
            alloc,
            words,
            input,
            output,
            &mut media.drum,
            &mut media.disk,
            link,
        ),
        Program::Picture => write_picture(alloc, words, input, output),
        Program::Listing => write_listing(alloc, words, input, output),
    }
}

/// Does a case, of which one call may fail beside those that it names, and answers the status.
fn status_of(rt: &HostRuntime, case: &Case, beside: Option<FailingCall>) -> Result<u8> {
    let alloc = rt.alloc();
    let words = words_of(alloc, case)?;
    let mut media = media_of(alloc, case, beside)?;
    let mut link = link_of(alloc, case)?;
    let mut streams = streams_of(alloc, case, beside)?;
    let outcome = outcome_of(
        alloc,
        case.program,
        &words,
        &mut streams,
        &mut media,
        &mut link,
    );
    tell(
        rt,
        case,
        &outcome,
        streams.output.bytes(),
        &media.drum,
        &link,
    )?;
    Ok(outcome.status)
}

/// Does a case for each call of a device, which fails, until no call does. Answers the last status.
fn play_each(rt: &HostRuntime, case: &Case, each: Each) -> Result<u8> {
    let device = each.device;
    let mut status = device.status();
    for number in 1..=each.most {
        println!(rt; "CALL {number}")?;
        status = status_of(rt, case, Some(FailingCall { device, number }))?;
        if status != device.status() {
            break;
        }
    }
    Ok(status)
}

/// Does a case and writes what came of it. Answers the status; 0 for a case that has a name, whose status is written.
pub(crate) fn play(rt: &HostRuntime, case: &Case) -> Result<u8> {
    if let Some(name) = &case.name {
        println!(rt; "CASE {name}")?;
    }
    let status = match case.each {
        Some(each) => play_each(rt, case, each)?,
        None => status_of(rt, case, None)?,
    };
    Ok(if case.name.is_some() { 0 } else { status })
}

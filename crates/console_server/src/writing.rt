//! Writing to the connections.
ghost use Rattle.std.specs.Prelude.{◌≡◌, ◌<◌, ◌≤◌, ◌-◌, ℕ, [], List, Option, true, length, take, drop, get_or};
ghost use Rattle.console_server.specs.Turns.{Talk};
ghost use Rattle.console_server.specs.Seats.{Stands, SeatIsOpen, SeatIsTold, StandAll, SeatsAreTold};
ghost use Rattle.console_server.specs.Consoles.{KeepsOpen, ServesOne, AreTables, KeepsTables};
ghost use Rattle.console_server.specs.Writings.{IsSent};

use crate::tasks::Task;
use console_link::{Link, LinkTook};
use ctss_types::ConsoleNo;
use live_core::LiveCore;

/// How far a text was sent, and whether its connection is lost.
#[derive(Clone, Copy)]
pub(crate) struct Sent {
    pub(crate) count: usize,
    pub(crate) lost: bool,
}

/// Sends the bytes at the front of a text until all are sent, or the connection is not ready or fails.
pub(crate) fn send<L: Link>(link: &mut L, id: u32, text: &[u8]) -> Sent
    requires here { (L.seen link.old).is_open id ≡ true }
    requires most { length text.now ≤ 4096 }
    ensures sent { (rest : List ℕ) → text.now ≡ take 4096 rest → IsSent id rest result.lost result.count
        (L.seen link.old) (L.seen link.new) }
    ensures within { result.count ≤ length text.now }
    ensures link { KeepsOpen (L.seen link.old) (L.seen link.new) }
{
    let mut count = 0usize;
    'writing: while count < text.len() {
        match link.write(id, &text[count..]) {
            LinkTook::Bytes(n) => count += n,
            LinkTook::NotYet => return Sent { count, lost: false },
            LinkTook::Failed => return Sent { count, lost: true },
        }
    }
    Sent { count, lost: false }
}

/// Sends a console's connection what its text has behind the place up to which it was sent, 4096 bytes at most. Where
/// that fails the connection is closed, and it answers so.
#[tactic(auto, using(crate::proofs::TellLaws::told_none, crate::proofs::TellLaws::window_is, crate::proofs::TellLaws::told_lost, crate::proofs::TellLaws::told_on, crate::proofs::SeatLaws::not_closed))]
pub(crate) fn tell<C: LiveCore, L: Link>(
    core: &C,
    link: &mut L,
    seat: &mut Option<Task>,
    console: ConsoleNo,
) -> bool
    requires here { SeatIsOpen (L.seen link.old).is_open seat.old }
    ensures told { (talk : Option Talk) → Stands seat.old talk
        → SeatIsTold (get_or (C.seen core.now).texts (console - 1) []) talk result (L.seen link.old) (L.seen link.new)
        seat.new }
    ensures seat { ServesOne seat.old seat.new (L.seen link.old) (L.seen link.new) }
{
    let Some(mut task) = seat.take() else {
        return false;
    };
    let mut buffer = [0u8; 4096];
    let count = core.out_since(console, task.place, &mut buffer);
    let sent = send(link, task.id, &buffer[..count]);
    if sent.lost {
        link.close(task.id);
        return true;
    }
    task.place = task.place.saturating_add(sent.count as u64);
    *seat = Some(task);
    false
}

/// Sends all consoles their texts, and notes whose connection failed.
pub(crate) fn tell_all<C: LiveCore, L: Link>(
    core: &C,
    link: &mut L,
    seats: &mut Vec<Option<Task>>,
    failed: &mut Vec<bool>,
)
    requires tables { AreTables (L.seen link.old).is_open seats.old.items failed.old.items }
    ensures told { (desk : List (Option Talk)) → StandAll seats.old.items desk
        → SeatsAreTold (C.seen core.now).texts (length desk) desk (L.seen link.old) (L.seen link.new) seats.new.items
        failed.new.items }
    ensures tables { KeepsTables (L.seen link.new).is_open seats.old.items seats.new.items failed.old.items
        failed.new.items }
    ensures listener { (L.seen link.new).faults ≡ (L.seen link.old).faults }
{
    'consoles: for i in 0..seats.len() {
        let Some(console) = ConsoleNo::new(i as u8 + 1) else {
            unreachable!()
        };
        let lost = tell(core, link, &mut seats[i], console);
        failed[i] = lost;
    }
}

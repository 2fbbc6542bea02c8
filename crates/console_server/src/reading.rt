//! Reading the connections.
ghost use Rattle.std.specs.Prelude.{◌≡◌, ◌<◌, ◌≤◌, ℕ, List, length, take, true, IfOk, OnErr};
ghost use Rattle.console_link.specs.Links.{Did, DidRead, given, GotFits};
ghost use Rattle.console_wire.specs.Items.{half_of};
ghost use Rattle.console_server.specs.Cores.{CanGoOn};
ghost use Rattle.console_server.specs.Given.{StaysReady};
ghost use Rattle.console_server.specs.Readings.{Drained, DrainedPart};
ghost use Rattle.console_server.specs.Consoles.{KeepsOpen};

use crate::book::Book;
use console_link::{Link, LinkGot};
use console_wire::Wire;
use ctss_types::{ConsoleNo, NoMemory};
use live_core::LiveCore;

const MOST: usize = 1024;

/// One read of at most so many bytes.
fn read_some<L: Link>(link: &mut L, id: u32, buffer: &mut [u8], most: usize) -> LinkGot
    requires some { 0 < most }
    requires within { most ≤ length buffer.old }
    requires here { (L.seen link.old).is_open id ≡ true }
    ensures amount { GotFits result most }
    ensures did { Did (DidRead id result (given result buffer.new)) (L.seen link.old) (L.seen link.new) }
    ensures same { length buffer.new ≡ length buffer.old }
{
    link.read(id, &mut buffer[..most])
}

/// Reads a connection until it is not ready, over, or has given 1024 bytes, and gives the core what its bytes complete.
/// Answers whether the connection is over.
pub(crate) fn drain<C: LiveCore, L: Link>(
    book: &mut Book<C>,
    link: &mut L,
    id: u32,
    wire: &mut Wire,
    tick: u64,
    console: ConsoleNo,
) -> Result<bool, NoMemory>
    requires here { (L.seen link.old).is_open id ≡ true }
    requires ready { CanGoOn C.seen C.Sound book.old.core }
    ensures ok { (piece : List ℕ) → wire.old ≡ half_of piece
        → IfOk result (λ over. Drained C.Goes tick console id piece over (L.seen link.old) (L.seen link.new)
        book.old.core book.new.core book.old.events.items book.new.events.items wire.new) }
    ensures err { (piece : List ℕ) → wire.old ≡ half_of piece
        → OnErr result (DrainedPart C.Goes tick console id piece (L.seen link.old) (L.seen link.new) book.old.core
        book.new.core book.old.events.items book.new.events.items) }
    ensures link { KeepsOpen (L.seen link.old) (L.seen link.new) }
    ensures core { StaysReady C.seen C.Sound book.old.core book.new.core }
{
    let mut buffer = [0u8; MOST];
    let mut left = MOST;
    'reading: while left > 0 {
        match read_some(link, id, &mut buffer, left) {
            LinkGot::Bytes(count) => {
                book.feed(tick, console, wire, &buffer[..count])?;
                left -= count;
            }
            LinkGot::NotYet => return Ok(false),
            LinkGot::End => return Ok(true),
            LinkGot::Failed => return Ok(true),
        }
    }
    Ok(false)
}

//! Closing what is open at the end.
ghost use Rattle.std.specs.Prelude.{◌≡◌, ℕ, length};
ghost use Rattle.console_server.specs.Readings.{DidAll};
ghost use Rattle.console_server.specs.Seats.{AreSeated, SeatIsOpen, IsNotOf, KeepsSeat};
ghost use Rattle.console_server.specs.Server.{closes, closes_of};

use crate::tasks::Task;
use console_link::Link;

/// Closes a console's connection, if it has one.
#[tactic(auto, using(crate::proofs::SeatLaws::not_closed))]
fn close<L: Link>(link: &mut L, seat: &mut Option<Task>)
    requires here { SeatIsOpen (L.seen link.old).is_open seat.old }
    ensures link { DidAll (closes_of seat.old) (L.seen link.old) (L.seen link.new) }
    ensures left { SeatIsOpen (L.seen link.new).is_open seat.new }
    ensures others { (k : ℕ) → IsNotOf seat.old k → (L.seen link.new).is_open k ≡ (L.seen link.old).is_open k }
    ensures keeps { KeepsSeat seat.old seat.new }
{
    let Some(task) = seat.take() else {
        return;
    };
    link.close(task.id);
}

/// Closes all consoles' connections in order.
pub(crate) fn close_all<L: Link>(link: &mut L, seats: &mut Vec<Option<Task>>)
    requires seated { AreSeated (L.seen link.old).is_open seats.old.items }
    ensures { DidAll (closes seats.old.items) (L.seen link.old) (L.seen link.new) }
{
    'consoles: for i in 0..seats.len() {
        close(link, &mut seats[i]);
    }
}

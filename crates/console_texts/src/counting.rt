//! The lengths of consoles' texts.
ghost use Rattle.std.specs.Prelude.{◌≡◌, ◌≤◌, ◌+◌, ◌-◌, ◌^◌, ◌∷◌, [], min, length};
ghost use Rattle.time_sharing.specs.Texts.{written, sent};
ghost use Rattle.console_texts.specs.Parts.{piece_text, tail_text};

use crate::copying::{Transcripts, behind, front};
use crate::row::{Piece, Tail};
use ctss_types::Item;

/// How many bytes an item writes.
fn item_len(item: &Item) -> u64
    ensures { result ≡ length (sent (written (item.now ∷ []))) }
{
    match item {
        Item::Out(line) => line.as_slice().len() as u64 + 2,
        Item::In(_) | Item::Quit | Item::Hang => 0,
    }
}

/// So many bytes and those that items write; at most what a `u64` can hold.
fn add_items(total: u64, items: &[Item]) -> u64
    ensures { result ≡ min (total + length (sent (written items.now))) (2 ^ 64 - 1) }
{
    let mut sum = total;
    'items: for i in 0..items.len() {
        sum = sum.saturating_add(item_len(&items[i]));
    }
    sum
}

/// And those of a part that stands for good.
pub(crate) fn add_piece<T: Transcripts>(total: u64, transcripts: &T, piece: &Piece) -> u64
    ensures { result ≡ min (total + length (piece_text (T.all transcripts.now) piece.now)) (2 ^ 64 - 1) }
{
    match piece {
        Piece::PasswordAsked => total.saturating_add(10),
        Piece::LoginRefused => total.saturating_add(15),
        Piece::Wrote { user, from, count } => {
            let items = front(behind(transcripts.transcript(*user), *from), *count);
            add_items(total, items)
        }
    }
}

/// And those of the session that is shown.
pub(crate) fn add_tail<T: Transcripts>(total: u64, transcripts: &T, tail: Option<Tail>) -> u64
    ensures { result ≡ min (total + length (tail_text (T.all transcripts.now) tail)) (2 ^ 64 - 1) }
{
    match tail {
        Some(tail) => {
            let items = behind(transcripts.transcript(tail.user), tail.from);
            add_items(total, items)
        }
        None => total,
    }
}

//! A console's text, copied out of transcripts.
ghost use Rattle.std.specs.Prelude.{◌≡◌, ◌≤◌, ◌+◌, ◌-◌, ◌^◌, ◌++◌, ◌∷◌, [], ℕ, List, min, length, take, drop, Some, None};
ghost use Rattle.time_sharing.specs.Machine.{Item as Shown};
ghost use Rattle.time_sharing.specs.System.{at};
ghost use Rattle.time_sharing.specs.Texts.{written, sent};
ghost use Rattle.console_texts.specs.Parts.{piece_text, tail_text};
ghost use Rattle.console_texts.specs.Copying.{IsCopied};

use crate::row::{Piece, Tail};
use ctss_types::Item;

/// All users' transcripts, where they are kept.
pub trait Transcripts {
    ghost all: { Self → List (List Shown) };

    /// The transcript of a user; it is empty for a number that is no user's.
    fn transcript(&self, user: u8) -> &[Item]
        ensures { result.now ≡ at [] (all self.now) user };
}

/// How many bytes of the text are still to be passed over, and how many were copied.
#[derive(Clone, Copy, Debug, PartialEq, Eq)]
pub(crate) struct Window {
    pub(crate) skip: u64,
    pub(crate) at: usize,
}

/// A byte more of the text.
#[tactic(auto, using(crate::proofs::Bytes::byte_passed, crate::proofs::Bytes::byte_put, crate::proofs::Bytes::byte_over))]
fn put_byte(window: &mut Window, into: &mut [u8], byte: u8)
    ensures { (from : ℕ) (text slice : List ℕ) → IsCopied from text slice window.old into.old
        → IsCopied from (text ++ byte ∷ []) slice window.new into.new }
{
    if window.skip > 0 {
        window.skip -= 1;
    } else if window.at < into.len() {
        into[window.at] = byte;
        window.at += 1;
    }
}

/// Bytes more of the text.
fn put_bytes(window: &mut Window, into: &mut [u8], bytes: &[u8])
    ensures { (from : ℕ) (text slice : List ℕ) → IsCopied from text slice window.old into.old
        → IsCopied from (text ++ bytes.now) slice window.new into.new }
{
    'bytes: for i in 0..bytes.len() {
        put_byte(window, into, bytes[i]);
    }
}

/// A line more of the text.
fn put_line(window: &mut Window, into: &mut [u8], line: &[u8])
    requires { length line.now ≤ 84 }
    ensures { (from : ℕ) (text slice : List ℕ) → IsCopied from text slice window.old into.old
        → IsCopied from (text ++ (line.now ++ 13 ∷ 10 ∷ [])) slice window.new into.new }
{
    let long = line.len() as u64 + 2;
    if window.skip >= long {
        window.skip -= long;
        return;
    }
    put_bytes(window, into, line);
    put_bytes(window, into, b"\r\n");
}

/// What an item writes, behind the text so far.
fn put_item(window: &mut Window, into: &mut [u8], item: &Item)
    ensures { (from : ℕ) (text slice : List ℕ) → IsCopied from text slice window.old into.old
        → IsCopied from (text ++ sent (written (item.now ∷ []))) slice window.new into.new }
{
    match item {
        Item::Out(line) => put_line(window, into, line.as_slice()),
        Item::In(_) | Item::Quit | Item::Hang => {}
    }
}

/// What items write, behind the text so far.
fn put_items(window: &mut Window, into: &mut [u8], items: &[Item])
    ensures { (from : ℕ) (text slice : List ℕ) → IsCopied from text slice window.old into.old
        → IsCopied from (text ++ sent (written items.now)) slice window.new into.new }
{
    'items: for i in 0..items.len() {
        put_item(window, into, &items[i]);
    }
}

/// What stands behind so many items.
pub(crate) fn behind(items: &[Item], from: usize) -> &[Item]
    ensures { result.now ≡ drop from items.now }
{
    if from < items.len() {
        &items[from..]
    } else {
        &items[items.len()..]
    }
}

/// The first items, so many if there are as many.
pub(crate) fn front(items: &[Item], count: usize) -> &[Item]
    ensures { result.now ≡ take count items.now }
{
    if count < items.len() {
        &items[..count]
    } else {
        items
    }
}

/// A part of the text that stands for good.
pub(crate) fn put_piece<T: Transcripts>(
    window: &mut Window,
    into: &mut [u8],
    transcripts: &T,
    piece: &Piece,
)
    ensures { (from : ℕ) (text slice : List ℕ) → IsCopied from text slice window.old into.old
        → IsCopied from (text ++ piece_text (T.all transcripts.now) piece.now) slice window.new into.new }
{
    match piece {
        Piece::PasswordAsked => put_line(window, into, b"PASSWORD"),
        Piece::LoginRefused => put_line(window, into, b"LOGIN REFUSED"),
        Piece::Wrote { user, from, count } => {
            let items = front(behind(transcripts.transcript(*user), *from), *count);
            put_items(window, into, items);
        }
    }
}

/// What the session's user writes.
pub(crate) fn put_tail<T: Transcripts>(
    window: &mut Window,
    into: &mut [u8],
    transcripts: &T,
    tail: Option<Tail>,
)
    ensures { (from : ℕ) (text slice : List ℕ) → IsCopied from text slice window.old into.old
        → IsCopied from (text ++ tail_text (T.all transcripts.now) tail) slice window.new into.new }
{
    if let Some(tail) = tail {
        let items = behind(transcripts.transcript(tail.user), tail.from);
        put_items(window, into, items);
    }
}

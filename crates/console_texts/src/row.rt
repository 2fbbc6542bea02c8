//! What one console has shown.
ghost use Rattle.std.specs.Prelude.{◌≡◌, ◌<◌, ◌≤◌, ◌+◌, ◌-◌, ◌^◌, ◌++◌, ◌∷◌, [], ℕ, List, None, min, length, nat_eq, OnOk};
ghost use Rattle.time_sharing.specs.System.{Off};
ghost use Rattle.console_texts.specs.Following.{closed, begun, login_answered, turned, settled, followed, settled_in};
ghost use Rattle.console_texts.specs.Parts.{text_of};
ghost use Rattle.console_texts.specs.Copying.{IsCopied};

use crate::console::{asks, console_at, goes_on, length_of, shows, user_in};
use crate::copying::{Transcripts, Window, put_piece, put_tail};
use crate::counting::{add_piece, add_tail};
use ctss_types::{Console, NoMemory};
use std::alloc::Global;
use std::marker::Model;

/// A part of a console's text that stands for good.
#[derive(Clone, Copy, Debug, PartialEq, Eq)]
pub(crate) enum Piece {
    /// The question for a password.
    PasswordAsked,
    /// The answer to a refused login.
    LoginRefused,
    /// What a user wrote in so many items of its transcript, from an item on.
    Wrote { user: u8, from: usize, count: usize },
}

/// The session that a console shows: what its user writes from an item of the transcript on.
#[derive(Clone, Copy, Debug, PartialEq, Eq)]
pub(crate) struct Tail {
    pub(crate) user: u8,
    pub(crate) from: usize,
}

/// What one console has shown. While a session is shown there is room for a part more.
#[derive(Drop)]
pub(crate) struct Row {
    number: u8,
    console: Console,
    pieces: Vec<Piece>,
    tail: Option<Tail>,
}

impl Model for Row {
    ghost use Rattle.std.specs.Prelude.{◌≡◌, ◌<◌, ◌-◌, None, vec_len, vec_capacity};
    ghost use Rattle.std.specs.Prelude.{◌⊎◌};
    ghost use Rattle.console_texts.specs.Parts.{Kept};

    ghost Value = { Kept };

    ghost view = { λ r. record {
      shown = record { number = r.number; console = r.console; pieces = r.pieces.items; tail = r.tail };
      room = vec_capacity r.pieces - vec_len r.pieces;
    } };

    ghost invariant = { λ r. (r.tail ≡ None) ⊎ (vec_len r.pieces < vec_capacity r.pieces) };
}

impl Row {
    /// A console that is off and has shown nothing.
    pub(crate) fn new(alloc: Global, number: u8) -> Row
        ensures { result.shown ≡ record { number = number; console = Off; pieces = []; tail = None } }
    {
        Row {
            number,
            console: Console::Off,
            pieces: Vec::new(alloc),
            tail: None,
        }
    }

    /// The text, behind what was copied of one.
    pub(crate) fn put_text<T: Transcripts>(
        &self,
        transcripts: &T,
        window: &mut Window,
        into: &mut [u8],
    )
        ensures { (from : ℕ) (text slice : List ℕ) → IsCopied from text slice window.old into.old
            → IsCopied from (text ++ text_of (T.all transcripts.now) self.now.shown) slice window.new into.new }
    {
        'pieces: for i in 0..self.pieces.len() {
            put_piece(window, into, transcripts, &self.pieces[i]);
        }
        put_tail(window, into, transcripts, self.tail);
    }

    /// The length of the text; at most what a `u64` can hold.
    pub(crate) fn text_len<T: Transcripts>(&self, transcripts: &T) -> u64
        ensures { result ≡ min (length (text_of (T.all transcripts.now) self.now.shown)) (2 ^ 64 - 1) }
    {
        let mut total = 0;
        'pieces: for i in 0..self.pieces.len() {
            total = add_piece(total, transcripts, &self.pieces[i]);
        }
        add_tail(total, transcripts, self.tail)
    }

    /// Room for the parts of one event.
    pub(crate) fn reserve(&mut self) -> Result<(), NoMemory>
        ensures shown { self.new.shown ≡ self.old.shown }
        ensures room { OnOk result (4 ≤ self.new.room) }
    {
        self.pieces.reserve(4)?;
        Ok(())
    }

    /// The session that is shown ends.
    #[tactic(auto, unfolding(crate::specs::Following::closed))]
    fn close(&mut self, lens: &[usize])
        ensures shown { self.new.shown ≡ closed lens.now self.old.shown }
        ensures over { self.new.shown.tail ≡ None }
        ensures room { self.old.room ≤ self.new.room + 1 }
    {
        if let Some(tail) = self.tail {
            let to = length_of(lens, tail.user);
            let _ = self.pieces.push(Piece::Wrote {
                user: tail.user,
                from: tail.from,
                count: to.saturating_sub(tail.from),
            });
            self.tail = None;
        }
    }

    /// The texts of a login.
    #[tactic(auto, unfolding(crate::specs::Following::login_answered))]
    fn tell(&mut self, asked: bool, refused: bool)
        requires none { self.old.shown.tail ≡ None }
        requires room { 2 ≤ self.old.room }
        ensures shown { self.new.shown ≡ login_answered asked refused self.old.shown }
        ensures room { self.old.room ≤ self.new.room + 2 }
    {
        if asked {
            let _ = self.pieces.push(Piece::PasswordAsked);
        }
        if refused {
            let _ = self.pieces.push(Piece::LoginRefused);
        }
    }

    /// A session of this user, if any, is shown from now on.
    #[tactic(auto, unfolding(crate::specs::Following::begun))]
    fn begin(&mut self, user: u8, lens: &[usize])
        requires room { 1 ≤ self.old.room }
        ensures shown { self.new.shown ≡ begun user lens.now self.old.shown }
        ensures room { self.old.room ≤ self.new.room }
    {
        if user != 0 {
            self.tail = Some(Tail {
                user,
                from: length_of(lens, user),
            });
        }
    }

    /// What is told before what users newly wrote.
    #[tactic(auto, unfolding(crate::specs::Following::turned))]
    fn turn(&mut self, now: &Console, refused: bool, before: &[usize])
        requires room { 4 ≤ self.old.room }
        ensures shown { self.new.shown ≡ turned self.old.shown.console now.now refused before.now self.old.shown }
        ensures room { 1 ≤ self.new.room }
    {
        let asked = asks(&self.console, now);
        let user = shows(&self.console, now);
        if !goes_on(&self.console, now, refused) {
            self.close(before);
            self.tell(asked, refused);
            self.begin(user, before);
        }
    }

    /// The console is this now; a session that is over ends.
    #[tactic(auto, unfolding(crate::specs::Following::settled))]
    fn settle_as(&mut self, now: Console, after: &[usize])
        ensures shown { self.new.shown ≡ settled now after.now self.old.shown }
    {
        if user_in(&now) == 0 {
            self.close(after);
        }
        self.console = now;
    }

    /// A step of the run at an event, with the lengths of transcripts before it and after it. `refused` is the number of the
    /// console at which a login was refused, or 0.
    #[tactic(auto, unfolding(crate::specs::Following::followed))]
    pub(crate) fn follow(
        &mut self,
        consoles: &[Console],
        refused: u8,
        before: &[usize],
        after: &[usize],
    )
        requires room { 4 ≤ self.old.room }
        ensures shown { self.new.shown ≡ followed consoles.now refused before.now after.now self.old.shown }
    {
        let now = console_at(consoles, self.number);
        self.turn(&now, refused == self.number, before);
        self.settle_as(now, after);
    }

    /// Any other step of the run.
    #[tactic(auto, unfolding(crate::specs::Following::settled_in))]
    pub(crate) fn settle(&mut self, consoles: &[Console], after: &[usize])
        ensures shown { self.new.shown ≡ settled_in consoles.now after.now self.old.shown }
    {
        let now = console_at(consoles, self.number);
        self.settle_as(now, after);
    }
}

//! What all consoles have shown.
ghost use Rattle.std.specs.Prelude.{◌≡◌, ◌≤◌, ◌+◌, ◌-◌, ◌^◌, ◌++◌, All, min, length, map, take, drop, IfOk, OnOk};
ghost use Rattle.console_texts.specs.Parts.{Kept, text_at};
ghost use Rattle.console_texts.specs.Following.{fresh, followed, settled_in};

use crate::copying::{Transcripts, Window};
use crate::row::Row;
use ctss_types::{Console, ConsoleNo, NoMemory};
use std::alloc::Global;
use std::marker::Model;

/// What each console has shown, from console 1 on.
#[derive(Drop)]
pub struct ConsoleTexts {
    rows: Vec<Row>,
}

impl Model for ConsoleTexts {
    ghost use Rattle.std.specs.Prelude.{List};
    ghost use Rattle.console_texts.specs.Parts.{Kept};

    ghost Value = { List Kept };

    ghost view = { λ t. t.rows.items };
}

/// So many rows more, of which the first has this number.
fn add_rows(alloc: Global, rows: &mut Vec<Row>, number: u8, count: u8) -> Result<(), NoMemory>
    requires { number + count ≤ 255 }
    ensures { OnOk result (map (λ (k : Kept). k.shown) rows.new.items ≡ map (λ (k : Kept). k.shown) rows.old.items
        ++ fresh number count) }
{
    if count == 0 {
        return Ok(());
    }
    rows.push(Row::new(alloc, number))?;
    add_rows(alloc, rows, number + 1, count - 1)
}

impl ConsoleTexts {
    /// So many consoles, all off, that have shown nothing.
    pub fn new(alloc: Global, count: u8) -> Result<ConsoleTexts, NoMemory>
        requires { count ≤ 32 }
        ensures { IfOk result (λ t. map (λ (k : Kept). k.shown) t ≡ fresh 1 count) }
    {
        let mut rows = Vec::new(alloc);
        add_rows(alloc, &mut rows, 1, count)?;
        Ok(ConsoleTexts { rows })
    }

    /// Room for the texts of one event.
    pub fn reserve(&mut self) -> Result<(), NoMemory>
        ensures shown { map (λ (k : Kept). k.shown) self.new ≡ map (λ (k : Kept). k.shown) self.old }
        ensures room { OnOk result (All (λ (k : Kept). 4 ≤ k.room) self.new) }
    {
        'rows: for i in 0..self.rows.len() {
            self.rows[i].reserve()?;
        }
        Ok(())
    }

    /// A step of the run at an event, with the lengths of transcripts before it and after it. `refused` is the number of the
    /// console at which a login was refused, or 0.
    pub fn follow(&mut self, consoles: &[Console], refused: u8, before: &[usize], after: &[usize])
        requires room { All (λ (k : Kept). 4 ≤ k.room) self.old }
        ensures shown { map (λ (k : Kept). k.shown) self.new
            ≡ map (followed consoles.now refused before.now after.now) (map (λ (k : Kept). k.shown) self.old) }
    {
        'rows: for i in 0..self.rows.len() {
            self.rows[i].follow(consoles, refused, before, after);
        }
    }

    /// Any other step of the run, with the lengths of transcripts after it.
    pub fn settle(&mut self, consoles: &[Console], after: &[usize])
        ensures shown { map (λ (k : Kept). k.shown) self.new
            ≡ map (settled_in consoles.now after.now) (map (λ (k : Kept). k.shown) self.old) }
    {
        'rows: for i in 0..self.rows.len() {
            self.rows[i].settle(consoles, after);
        }
    }

    /// The length of a console's text; at most what a `u64` can hold.
    pub fn out_len<T: Transcripts>(&self, transcripts: &T, console: ConsoleNo) -> u64
        ensures { result ≡ min (length (text_at (T.all transcripts.now) self.now console)) (2 ^ 64 - 1) }
    {
        match self.rows.get(console.number() as usize - 1) {
            Some(row) => row.text_len(transcripts),
            None => 0,
        }
    }

    /// Copies a console's text from a place on, as much as fits, and answers how many bytes that were.
    pub fn out_since<T: Transcripts>(
        &self,
        transcripts: &T,
        console: ConsoleNo,
        from: u64,
        into: &mut [u8],
    ) -> usize
        ensures count { result ≡ min (length into.old) (length (text_at (T.all transcripts.now) self.now console)
            - from) }
        ensures bytes { into.new ≡ take result (drop from (text_at (T.all transcripts.now) self.now console))
            ++ drop result into.old }
    {
        let mut window = Window { skip: from, at: 0 };
        if let Some(row) = self.rows.get(console.number() as usize - 1) {
            row.put_text(transcripts, &mut window, into);
        }
        window.at
    }
}

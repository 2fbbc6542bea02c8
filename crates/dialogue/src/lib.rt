//! What a user and the system say to each other: what typed lines ask for, the transcript, and the lines that were
//! typed ahead and are not read yet.
//!
//! The lines that were typed ahead are kept by `line_buffer`, those that a session writes of its own are made by `session_text`.
//!
//! What is written needs room: `reserve` takes it, and the calls that write ask for it, so that they can't fail.
#![tactic(auto)]

ghost use Rattle.std.specs.Prelude.{◌≡◌, ◌<◌, ◌≤◌, ◌+◌, ◌-◌, ◌^◌, ◌++◌, ◌∷◌, ◌↔◌, [], true, drop, length, option_to_list, slice_get, IfOk, OnOk, OnErr, vec_len, vec_capacity};
ghost use Rattle.std.specs.List.{list_all};
ghost use Rattle.bcd48.specs.Characters.{is_character};
ghost use Rattle.dialogue.specs.Said.{Said};
ghost use Rattle.time_sharing.specs.Machine.{In, Out, Quitted, Hung};
ghost use Rattle.time_sharing.specs.Rows.{out_all, some_line};
ghost use Rattle.user_model.specs.Session.{quit_text};
ghost use Rattle.user_model.specs.Texts.{time_text, ready_text, stop_text, logged_in_text, logged_out_text};

pub mod command_table;
pub mod fap_debug;
pub mod line_buffer;
mod notes;
mod octals;
pub mod runcom;
pub mod session_text;

use crate::line_buffer::Lines;
pub use crate::line_buffer::Put;
use crate::notes::{
    note, note_command, note_end, note_lines, note_read, note_ready, note_stop, note_taken,
};
use crate::runcom::CommandLines;
use crate::session_text::{logged_in_text, logged_out_text, ready_text};
use ctss_types::{Item, Items, LineText, NoMemory, Sequence};
use program_model::ProgramState;
use std::alloc::Global;
use std::marker::Model;
use word36::Word;

/// A user's transcript over all sessions, and the unread lines of the open one.
#[derive(Drop)]
pub struct Dialogue {
    items: Vec<Item>,
    commands: CommandLines,
    lines: Lines,
}

impl Model for Dialogue {
    ghost use Rattle.std.specs.Prelude.{◌++◌, length, vec_capacity};
    ghost use Rattle.dialogue.specs.Said.{Said};

    ghost Value = { Said };

    ghost view = { λ d. record {
      transcript = d.items.items;
      capacity = vec_capacity d.items;
      unread = d.commands ++ d.lines.lines;
      lines = d.lines.count;
      fed = length d.commands;
    } };
}

impl Dialogue {
    /// Nothing said yet. It takes the room for the lines typed ahead.
    pub fn new(alloc: Global) -> Result<Dialogue, NoMemory>
        ensures { IfOk result (λ d. d ≡ record d { transcript = []; unread = []; lines = 0; fed = 0 }) }
    {
        let commands = CommandLines::new(alloc)?;
        let lines = Lines::new(alloc)?;
        Ok(Dialogue {
            items: Vec::new(alloc),
            commands,
            lines,
        })
    }

    /// The allocator of all that is said.
    pub fn allocator(&self) -> Global {
        *self.items.allocator()
    }

    /// The transcript so far.
    pub fn items(&self) -> &[Item]
        ensures { result.now ≡ self.now.transcript }
    {
        &self.items
    }

    /// The whole transcript.
    pub fn into_items(self) -> Items
        ensures { result ≡ self.transcript }
    {
        Sequence::from_vec(self.items)
    }

    /// How many lines were typed in the session.
    pub fn line_count(&self) -> u16
        ensures { result ≡ self.now.lines }
    {
        self.lines.count()
    }

    /// Whether a line is unread.
    pub fn has_line(&self) -> bool
        ensures { result ≡ some_line self.now.unread }
    {
        !self.commands.is_empty() || !self.lines.is_empty()
    }

    /// The first unread line, which stays.
    pub fn first_line(&self) -> Option<LineText>
        ensures { result ≡ slice_get self.now.unread 0 }
    {
        match self.commands.first() {
            Some(line) => Some(line),
            None => self.lines.first(),
        }
    }

    /// How many lines of command files are unread.
    pub fn fed_count(&self) -> u16
        ensures value { result ≡ self.now.fed }
        ensures most { result ≤ 256 }
    {
        self.commands.len()
    }

    /// The first unread line is read now.
    fn take_line(&mut self)
        ensures { self.new ≡ record self.old { unread = drop 1 self.old.unread; fed = self.old.fed - 1 } }
    {
        if self.commands.is_empty() {
            let _ = self.lines.take();
        } else {
            let _ = self.commands.take();
        }
    }

    /// The unread lines go.
    fn drop_lines(&mut self)
        ensures { self.new ≡ record self.old { unread = []; fed = 0 } }
    {
        self.commands.drop_all();
        self.lines.drop_all();
    }

    /// A line is typed, unless it is one too many in the session. It shows when it is read.
    pub fn type_line(&mut self, line: LineText) -> Put
        ensures spent { (result ≡ Put.Spent) ↔ (self.old.lines ≡ 2048) }
        ensures stays { result ≡ Put.Spent → self.new ≡ self.old }
        ensures kept { result ≡ Put.Kept → self.new ≡ record self.old {
          unread = self.old.unread ++ line ∷ [];
          lines = self.old.lines + 1;
        } }
    {
        self.lines.put(line)
    }

    /// Room for so many items more.
    pub fn reserve(&mut self, more: usize) -> Result<(), NoMemory>
        ensures same { self.new ≡ record self.old { capacity = self.new.capacity } }
        ensures ok { OnOk result (length self.new.transcript + more ≤ self.new.capacity) }
    {
        self.items.reserve(more)?;
        Ok(())
    }

    /// A session is opened: its user is greeted, and its lines are counted anew.
    pub fn open(&mut self, name: Word) -> Result<(), NoMemory>
        ensures ok { OnOk result (self.new ≡ record {
          transcript = self.old.transcript ++ Out (logged_in_text name) ∷ [];
          capacity = self.new.capacity;
          unread = [];
          lines = 0;
          fed = 0;
        }) }
        ensures err { OnErr result (self.new ≡ record self.old { capacity = self.new.capacity }) }
    {
        self.items.reserve(1)?;
        note(&mut self.items, Item::Out(logged_in_text(name)));
        self.commands.drop_all();
        self.lines.restart();
        Ok(())
    }

    /// A quit: the unread lines go, and a program that works is ready after so many steps.
    pub fn quit(&mut self, state: ProgramState, n: u64) -> Result<(), NoMemory>
        ensures ok { OnOk result (self.new ≡ record self.old {
          transcript = self.old.transcript ++ Quitted ∷ out_all (quit_text state n);
          capacity = self.new.capacity;
          unread = [];
          fed = 0;
        }) }
        ensures err { OnErr result (self.new ≡ record self.old { capacity = self.new.capacity }) }
    {
        self.items.reserve(3)?;
        note(&mut self.items, Item::Quit);
        note(&mut self.items, Item::Out(LineText::of(b"QUIT,")));
        if state == ProgramState::Working {
            note_ready(&mut self.items, n);
        }
        self.drop_lines();
        Ok(())
    }

    /// A hang: the unread lines go.
    pub fn hang(&mut self) -> Result<(), NoMemory>
        ensures ok { OnOk result (self.new ≡ record self.old {
          transcript = self.old.transcript ++ Hung ∷ [];
          capacity = self.new.capacity;
          unread = [];
          fed = 0;
        }) }
        ensures err { OnErr result (self.new ≡ record self.old { capacity = self.new.capacity }) }
    {
        self.items.reserve(1)?;
        note(&mut self.items, Item::Hang);
        self.drop_lines();
        Ok(())
    }

    /// The line of a logout, the time and the farewell; the unread lines go.
    pub fn log_out(&mut self, line: LineText, name: Word, now: u64)
        requires room { length self.old.transcript + 3 ≤ self.old.capacity }
        ensures { self.new ≡ record self.old {
          transcript = self.old.transcript ++ In line ∷ Out (time_text now) ∷ Out (logged_out_text name) ∷ [];
          capacity = self.new.capacity;
          unread = [];
          fed = 0;
        } }
    {
        note_taken(&mut self.items, line, now);
        note(&mut self.items, Item::Out(logged_out_text(name)));
        self.drop_lines();
    }

    /// The first unread line is read by a program, or typed into a file.
    pub fn read(&mut self, line: LineText)
        requires room { length self.old.transcript + 1 ≤ self.old.capacity }
        ensures { self.new ≡ record self.old {
          transcript = self.old.transcript ++ In line ∷ [];
          capacity = self.new.capacity;
          unread = drop 1 self.old.unread;
          fed = self.old.fed - 1;
        } }
    {
        self.take_line();
        note(&mut self.items, Item::In(line));
    }

    /// A line that a program writes.
    pub fn write(&mut self, line: LineText)
        requires room { length self.old.transcript + 1 ≤ self.old.capacity }
        ensures { self.new ≡ record self.old {
          transcript = self.old.transcript ++ Out line ∷ [];
          capacity = self.new.capacity;
        } }
    {
        note(&mut self.items, Item::Out(line));
    }

    /// A program stopped, for a reason and at a place, after so many steps.
    pub fn say_stop(&mut self, why: &[u8], place: u16, n: u64)
        requires room { length self.old.transcript + 2 ≤ self.old.capacity }
        requires short { length why.now ≤ 70 }
        requires characters { list_all is_character why.now ≡ true }
        ensures { self.new ≡ record self.old {
          transcript = self.old.transcript ++ Out (stop_text why.now place) ∷ Out (ready_text n) ∷ [];
          capacity = self.new.capacity;
        } }
    {
        note_stop(&mut self.items, why, place, n);
    }

    /// The first unread line is taken as a command after which a program goes on: the line and the time.
    pub fn begin(&mut self, line: LineText, now: u64)
        requires room { length self.old.transcript + 2 ≤ self.old.capacity }
        ensures { self.new ≡ record self.old {
          transcript = self.old.transcript ++ In line ∷ Out (time_text now) ∷ [];
          capacity = self.new.capacity;
          unread = drop 1 self.old.unread;
          fed = self.old.fed - 1;
        } }
    {
        self.take_line();
        note_taken(&mut self.items, line, now);
    }

    /// The first unread line is taken as a command: the line, the time, maybe a text, and R 1.
    pub fn answer(&mut self, line: LineText, text: Option<LineText>, now: u64)
        requires room { length self.old.transcript + 4 ≤ self.old.capacity }
        ensures { self.new ≡ record self.old {
          transcript = self.old.transcript
              ++ In line ∷ Out (time_text now) ∷ out_all (option_to_list text ++ ready_text 1 ∷ []);
          capacity = self.new.capacity;
          unread = drop 1 self.old.unread;
          fed = self.old.fed - 1;
        } }
    {
        self.take_line();
        note_command(&mut self.items, line, text, now);
    }

    /// The first unread line is taken as a command: the line, the time, these texts, and R 1.
    pub fn answer_all(&mut self, line: LineText, lines: &[LineText], now: u64)
        requires room { length self.old.transcript + (length lines.now + 3) ≤ self.old.capacity }
        ensures { self.new ≡ record self.old {
          transcript = self.old.transcript ++ In line ∷ Out (time_text now) ∷ out_all (lines.now ++ ready_text 1 ∷ []);
          capacity = self.new.capacity;
          unread = drop 1 self.old.unread;
          fed = self.old.fed - 1;
        } }
    {
        self.take_line();
        note_lines(&mut self.items, line, lines, now);
    }

    /// The last line that is typed into a file: the line, maybe why it is refused, and R n.
    pub fn end_input(&mut self, line: LineText, text: Option<LineText>, n: u64)
        requires room { length self.old.transcript + 3 ≤ self.old.capacity }
        ensures { self.new ≡ record self.old {
          transcript = self.old.transcript ++ In line ∷ out_all (option_to_list text ++ ready_text n ∷ []);
          capacity = self.new.capacity;
          unread = drop 1 self.old.unread;
          fed = self.old.fed - 1;
        } }
    {
        self.take_line();
        note_end(&mut self.items, line, text, n);
    }

    /// The first unread line is taken by the debugger: the line and these texts.
    pub fn answer_debugger(&mut self, line: LineText, lines: &[LineText])
        requires room { length self.old.transcript + (length lines.now + 2) ≤ self.old.capacity }
        ensures { self.new ≡ record self.old {
          transcript = self.old.transcript ++ In line ∷ out_all lines.now;
          capacity = self.new.capacity;
          unread = drop 1 self.old.unread;
          fed = self.old.fed - 1;
        } }
    {
        self.take_line();
        note_read(&mut self.items, line, lines);
    }

    /// The first unread line is taken as a command, and lines of a command file stand before those left: the line, the time and R 1.
    pub fn feed(&mut self, line: LineText, lines: &[LineText], now: u64)
        requires room { length self.old.transcript + 4 ≤ self.old.capacity }
        requires few { length lines.now + (self.old.fed - 1) ≤ 256 }
        ensures { self.new ≡ record self.old {
          transcript = self.old.transcript ++ In line ∷ Out (time_text now) ∷ Out (ready_text 1) ∷ [];
          capacity = self.new.capacity;
          unread = lines.now ++ drop 1 self.old.unread;
          fed = length lines.now + (self.old.fed - 1);
        } }
    {
        self.answer(line, None, now);
        self.commands.put_front(lines);
    }
}

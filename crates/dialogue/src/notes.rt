//! Items behind a transcript that has room for them.
ghost use Rattle.std.specs.Prelude.{◌≡◌, ◌<◌, ◌≤◌, ◌+◌, ◌++◌, ◌∷◌, [], true, length, option_to_list, vec_len, vec_capacity};
ghost use Rattle.std.specs.List.{list_all};
ghost use Rattle.bcd48.specs.Characters.{is_character};
ghost use Rattle.time_sharing.specs.Machine.{In, Out};
ghost use Rattle.time_sharing.specs.Rows.{out_all};
ghost use Rattle.user_model.specs.Texts.{time_text, ready_text, stop_text};

use crate::session_text::{ready_text, stop_text, time_text};
use ctss_types::{Item, LineText};

/// An item more.
pub(crate) fn note(items: &mut Vec<Item>, item: Item)
    requires { vec_len items.old < vec_capacity items.old }
    ensures items { items.new.items ≡ items.old.items ++ item ∷ [] }
    ensures len { vec_len items.new ≡ vec_len items.old + 1 }
    ensures capacity { vec_capacity items.old ≤ vec_capacity items.new }
{
    let _ = items.push(item);
}

/// R n.
pub(crate) fn note_ready(items: &mut Vec<Item>, n: u64)
    requires { vec_len items.old < vec_capacity items.old }
    ensures { items.new.items ≡ items.old.items ++ Out (ready_text n) ∷ [] }
{
    note(items, Item::Out(ready_text(n)));
}

/// Why a program stopped, and R n.
pub(crate) fn note_stop(items: &mut Vec<Item>, why: &[u8], place: u16, n: u64)
    requires room { vec_len items.old + 1 < vec_capacity items.old }
    requires short { length why.now ≤ 70 }
    requires characters { list_all is_character why.now ≡ true }
    ensures { items.new.items ≡ items.old.items ++ Out (stop_text why.now place) ∷ Out (ready_text n) ∷ [] }
{
    note(items, Item::Out(stop_text(why, place)));
    note(items, Item::Out(ready_text(n)));
}

/// Lines written.
fn note_all(items: &mut Vec<Item>, lines: &[LineText])
    requires { vec_len items.old + length lines.now < vec_capacity items.old }
    ensures items { items.new.items ≡ items.old.items ++ out_all lines.now }
    ensures len { vec_len items.new ≡ vec_len items.old + length lines.now }
    ensures capacity { vec_capacity items.old ≤ vec_capacity items.new }
{
    'lines: for line in lines {
        note(items, Item::Out(*line));
    }
}

/// A line taken as a command, after which no text is written yet: the line and the time.
pub(crate) fn note_taken(items: &mut Vec<Item>, line: LineText, now: u64)
    requires { vec_len items.old + 1 < vec_capacity items.old }
    ensures items { items.new.items ≡ items.old.items ++ In line ∷ Out (time_text now) ∷ [] }
    ensures len { vec_len items.new ≡ vec_len items.old + 2 }
    ensures capacity { vec_capacity items.old ≤ vec_capacity items.new }
{
    note(items, Item::In(line));
    note(items, Item::Out(time_text(now)));
}

/// A line taken as a command: the line, the time, maybe a text, and R 1.
pub(crate) fn note_command(items: &mut Vec<Item>, line: LineText, text: Option<LineText>, now: u64)
    requires { vec_len items.old + 3 < vec_capacity items.old }
    ensures { items.new.items ≡ items.old.items ++ In line ∷ Out (time_text now) ∷ out_all (option_to_list text ++
        ready_text 1 ∷ []) }
{
    note(items, Item::In(line));
    note(items, Item::Out(time_text(now)));
    if let Some(text) = text {
        note(items, Item::Out(text));
    }
    note(items, Item::Out(ready_text(1)));
}

/// A line taken as a command: the line, the time, these texts, and R 1.
#[tactic(auto, using(crate::proofs::Lines::command_lines))]
pub(crate) fn note_lines(items: &mut Vec<Item>, line: LineText, lines: &[LineText], now: u64)
    requires { vec_len items.old + length lines.now + 2 < vec_capacity items.old }
    ensures { items.new.items ≡ items.old.items ++ In line ∷ Out (time_text now) ∷ out_all (lines.now ++ ready_text
        1 ∷ []) }
{
    note(items, Item::In(line));
    note(items, Item::Out(time_text(now)));
    note_all(items, lines);
    note(items, Item::Out(ready_text(1)));
}

/// The last line of INPUT: the line, maybe a text, and R n.
pub(crate) fn note_end(items: &mut Vec<Item>, line: LineText, text: Option<LineText>, n: u64)
    requires { vec_len items.old + 2 < vec_capacity items.old }
    ensures { items.new.items ≡ items.old.items ++ In line ∷ out_all (option_to_list text ++ ready_text n ∷ []) }
{
    note(items, Item::In(line));
    if let Some(text) = text {
        note(items, Item::Out(text));
    }
    note(items, Item::Out(ready_text(n)));
}

/// A line that the debugger took, and these texts.
pub(crate) fn note_read(items: &mut Vec<Item>, line: LineText, lines: &[LineText])
    requires { vec_len items.old + length lines.now + 1 < vec_capacity items.old }
    ensures { items.new.items ≡ items.old.items ++ In line ∷ out_all lines.now }
{
    note(items, Item::In(line));
    note_all(items, lines);
}

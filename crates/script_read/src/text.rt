//! The canonical text of a script.
ghost use Rattle.std.specs.Prelude.{◌++◌, codes};
ghost use Rattle.std.specs.List.{flat_map};
ghost use Rattle.text_model.specs.Canonical.{param_card, user_card, user_cards, file_cards, event_text, event_card, end_card, script_text_of};
ghost use Rattle.text_model.specs.Parts.{line, number, name};
ghost use Rattle.text_writer.specs.Writing.{Adds};

use crate::params::{numbers, written_out};
use ctss_io::Sink;
use ctss_types::{Account, Event, FileBody, OwnedFile, Params, Script, Timed};
use text_writer::cards::add_word_cards;
use text_writer::{Text, TextWriter};
use word36::Word;

/// Adds numbers.
fn add_numbers<K: Sink>(out: &mut TextWriter<'_, K>, numbers: &[u64])
    ensures { Adds K.Sink (flat_map number numbers.now) out.old out.new }
{
    for n in numbers {
        out.number(*n);
    }
}

/// Adds the PARAM card.
pub fn add_params<K: Sink>(out: &mut TextWriter<'_, K>, params: Params)
    ensures { Adds K.Sink (param_card params) out.old out.new }
{
    out.add(b"PARAM");
    add_numbers(out, written_out(&numbers(params)));
    out.end_line();
}

/// Adds the USER card of an account of this number.
fn add_user<K: Sink>(out: &mut TextWriter<'_, K>, number: usize, account: &Account)
    ensures { Adds K.Sink (user_card number account.now) out.old out.new }
{
    out.add(b"USER");
    out.number(number);
    out.name(account.name);
    out.name(account.password);
    out.number(account.blocks);
    out.number(account.tracks);
    out.end_line();
}

/// Adds the USER cards.
pub fn add_users<K: Sink>(out: &mut TextWriter<'_, K>, accounts: &[Account])
    ensures { Adds K.Sink (user_cards 1 accounts.now) out.old out.new }
{
    for (index, account) in accounts.iter().enumerate() {
        add_user(out, index + 1, account);
    }
}

/// Adds a FILE card.
fn add_file_card<K: Sink>(
    out: &mut TextWriter<'_, K>,
    owner: u64,
    first: Word,
    second: Word,
    mode: u8,
)
    ensures { Adds K.Sink (line (codes "FILE" ++ (number owner ++ (name first ++ (name second ++ number mode)))))
        out.old out.new }
{
    out.add(b"FILE");
    out.number(owner);
    out.name(first);
    out.name(second);
    out.number(mode);
    out.end_line();
}

/// Adds a FILE card of an owner and its words.
pub fn add_owned_file<K: Sink>(out: &mut TextWriter<'_, K>, owner: u64, body: &FileBody)
    ensures { Adds K.Sink (file_cards (record { owner = owner; body = body.now })) out.old out.new }
{
    let name = body.name;
    add_file_card(out, owner, name.first, name.second, body.mode);
    add_word_cards(out, body.words.as_slice());
}

/// Adds a FILE card and its words.
fn add_file<K: Sink>(out: &mut TextWriter<'_, K>, file: &OwnedFile)
    ensures { Adds K.Sink (file_cards file.now) out.old out.new }
{
    add_owned_file(out, u64::from(file.owner.number()), &file.body);
}

/// Adds the files.
fn add_files<K: Sink>(out: &mut TextWriter<'_, K>, files: &[OwnedFile])
    ensures { Adds K.Sink (flat_map file_cards files.now) out.old out.new }
{
    for file in files {
        add_file(out, file);
    }
}

/// Adds an event behind its tick and console.
fn add_what<K: Sink>(out: &mut TextWriter<'_, K>, event: &Event)
    ensures { Adds K.Sink (event_text event.now) out.old out.new }
{
    match event {
        Event::Dial => out.blank(b"DIAL"),
        Event::Line(text) => {
            out.blank(b"LINE");
            out.typed(text);
        }
        Event::Quit => out.blank(b"QUIT"),
        Event::Hang => out.blank(b"HANG"),
    }
}

/// Adds an AT card.
fn add_event<K: Sink>(out: &mut TextWriter<'_, K>, timed: &Timed)
    ensures { Adds K.Sink (event_card timed.now) out.old out.new }
{
    out.add(b"AT");
    out.number(timed.tick);
    out.number(timed.console.number());
    add_what(out, &timed.event);
    out.end_line();
}

/// Adds the AT cards.
fn add_events<K: Sink>(out: &mut TextWriter<'_, K>, events: &[Timed])
    ensures { Adds K.Sink (flat_map event_card events.now) out.old out.new }
{
    for timed in events {
        add_event(out, timed);
    }
}

/// Adds the END card.
pub fn add_end<K: Sink>(out: &mut TextWriter<'_, K>, end: u64)
    ensures { Adds K.Sink (end_card end) out.old out.new }
{
    out.add(b"END");
    out.number(end);
    out.end_line();
}

/// Adds a script's text.
fn add_script<K: Sink>(out: &mut TextWriter<'_, K>, script: &Script)
    ensures { Adds K.Sink (script_text_of script.now) out.old out.new }
{
    add_params(out, script.params);
    add_users(out, script.accounts.as_slice());
    add_files(out, script.files.as_slice());
    add_events(out, script.events.as_slice());
    add_end(out, script.end);
}

/// The one canonical text of a script.
#[derive(Clone, Copy)]
pub struct ScriptText<'a> {
    pub script: &'a Script,
}

impl Text for ScriptText<'_> {
    ghost use Rattle.text_model.specs.Canonical.{script_text_of};

    ghost bytes = { λ t. script_text_of t.script.now };

    fn add_to<K: Sink>(&self, out: &mut TextWriter<'_, K>) {
        add_script(out, self.script);
    }
}

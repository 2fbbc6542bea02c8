ghost use Rattle.std.specs.Prelude.{◌≡◌, ◌++◌, ◌-◌, ◌≤◌, [], get_or};
ghost use Rattle.std.specs.List.{flat_map};
ghost use Rattle.text_model.specs.Parts.{line, name, number as number_text};
ghost use Rattle.text_model.specs.Report.{labelled, item_text, account_text, accounts_text};
ghost use Rattle.text_writer.specs.Writing.{Adds};

use crate::report::file::add_files;
use crate::writer::TextWriter;
use ctss_io::Sink;
use ctss_types::{Account, FileBody, Item, LineText, Record};

/// Adds a letter and a text.
fn add_labelled<K: Sink>(out: &mut TextWriter<'_, K>, letter: u8, text: &LineText)
    ensures { Adds K.Sink (line (labelled letter text.now)) out.old out.new }
{
    out.add(&[letter]);
    out.typed(text);
    out.end_line();
}

/// Adds what stands on a transcript.
fn add_item<K: Sink>(out: &mut TextWriter<'_, K>, item: &Item)
    ensures { Adds K.Sink (item_text item.now) out.old out.new }
{
    match item {
        Item::In(text) => add_labelled(out, b'I', text),
        Item::Out(text) => add_labelled(out, b'O', text),
        Item::Quit => out.line(b"Q"),
        Item::Hang => out.line(b"H"),
    }
}

/// Adds a transcript.
fn add_items<K: Sink>(out: &mut TextWriter<'_, K>, items: &[Item])
    ensures { Adds K.Sink (flat_map item_text items.now) out.old out.new }
{
    for item in items {
        add_item(out, item);
    }
}

/// The transcript at an index, empty where there is none.
fn transcript(run: &Record, index: usize) -> &[Item]
    ensures { result.now ≡ get_or run.now.transcripts index [] }
{
    match run.transcripts.as_slice().get(index) {
        Some(items) => items.as_slice(),
        None => &[],
    }
}

/// The files at an index, none where there is no list.
fn files(run: &Record, index: usize) -> &[FileBody]
    ensures { result.now ≡ get_or run.now.files index [] }
{
    match run.files.as_slice().get(index) {
        Some(files) => files.as_slice(),
        None => &[],
    }
}

/// Adds a line of a word, and the number and name of an account.
fn add_title<K: Sink>(out: &mut TextWriter<'_, K>, word: &[u8], number: usize, account: &Account)
    ensures { Adds K.Sink (line (word.now ++ (number_text number ++ name account.now.name))) out.old out.new }
{
    out.add(word);
    out.number(number);
    out.name(account.name);
    out.end_line();
}

/// Adds an account with what it saw and its files.
fn add_account<K: Sink>(
    out: &mut TextWriter<'_, K>,
    number: usize,
    account: &Account,
    run: &Record,
    dump: bool,
)
    requires { 1 ≤ number }
    ensures { Adds K.Sink (account_text dump number account.now (get_or run.now.transcripts (number - 1) [])
        (get_or run.now.files (number - 1) [])) out.old out.new }
{
    add_title(out, b"USER", number, account);
    add_items(out, transcript(run, number - 1));
    add_title(out, b"FILES", number, account);
    add_files(out, files(run, number - 1), dump);
}

/// Adds the accounts in order.
pub fn add_accounts<K: Sink>(
    out: &mut TextWriter<'_, K>,
    accounts: &[Account],
    run: &Record,
    dump: bool,
)
    ensures { Adds K.Sink (accounts_text dump 1 accounts.now run.now) out.old out.new }
{
    for (index, account) in accounts.iter().enumerate() {
        add_account(out, index + 1, account, run, dump);
    }
}

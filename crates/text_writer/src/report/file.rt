ghost use Rattle.std.specs.Prelude.{◌≡◌, ◌++◌};
ghost use Rattle.std.specs.List.{flat_map};
ghost use Rattle.std.specs.Fmt.{decimal};
ghost use Rattle.bcd48.specs.Words.{characters_of};
ghost use Rattle.file_model.specs.Texts.{right, file_line};
ghost use Rattle.text_model.specs.Parts.{line, blank, number};
ghost use Rattle.text_model.specs.Report.{file_text};
ghost use Rattle.text_writer.specs.Writing.{Adds};

use crate::cards::add_word_cards;
use crate::writer::TextWriter;
use bcd48::text6;
use ctss_io::Sink;
use ctss_types::{FileBody, FileName, LineText};
use itoa::Buffer;
use word36::Word;

/// The six characters of a word, the blanks behind a name included.
#[tactic(auto, using(bcd48::proofs::Table::all_characters))]
fn characters(word: Word) -> LineText
    ensures { result ≡ characters_of word }
{
    LineText::of(&text6(word.bits()))
}

/// The characters of a file's two names.
fn both_names(name: &FileName) -> (LineText, LineText)
    ensures first { result.0 ≡ characters_of name.now.first }
    ensures second { result.1 ≡ characters_of name.now.second }
{
    (characters(name.first), characters(name.second))
}

/// Adds a number right in 7 places, behind a blank.
fn add_right<K: Sink>(out: &mut TextWriter<'_, K>, number: usize)
    ensures { Adds K.Sink (blank (right (decimal number))) out.old out.new }
{
    let mut buffer = Buffer::new();
    let digits = buffer.format(number).as_bytes();
    let blanks = [b' '; 7];
    out.blank(blanks.split_at(digits.len().min(7)).1);
    out.add(digits);
}

/// Adds a line of these columns.
fn add_columns<K: Sink>(
    out: &mut TextWriter<'_, K>,
    first: LineText,
    second: LineText,
    mode: u8,
    count: usize,
)
    ensures { Adds K.Sink (line (first ++ (blank second ++ (number mode ++ blank (right (decimal count)))))) out.old
        out.new }
{
    out.add(first.as_slice());
    out.blank(second.as_slice());
    out.number(mode);
    add_right(out, count);
    out.end_line();
}

/// Adds a file's own line.
fn add_file_line<K: Sink>(out: &mut TextWriter<'_, K>, file: &FileBody)
    ensures { Adds K.Sink (line (file_line file.now)) out.old out.new }
{
    let (first, second) = both_names(&file.name);
    add_columns(out, first, second, file.mode, file.words.len());
}

/// Adds a file, in a dump with its words.
fn add_file<K: Sink>(out: &mut TextWriter<'_, K>, file: &FileBody, dump: bool)
    ensures { Adds K.Sink (file_text dump file.now) out.old out.new }
{
    add_file_line(out, file);
    if dump {
        add_word_cards(out, file.words.as_slice());
    }
}

/// Adds files in order.
pub fn add_files<K: Sink>(out: &mut TextWriter<'_, K>, files: &[FileBody], dump: bool)
    ensures { Adds K.Sink (flat_map (file_text dump) files.now) out.old out.new }
{
    for file in files {
        add_file(out, file, dump);
    }
}

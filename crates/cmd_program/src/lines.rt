ghost use Rattle.std.specs.Prelude.{◌≡◌, ◌≤◌, length, IfOk, IsErrOf};
ghost use Rattle.faults.specs.Faults.{Rose};
ghost use Rattle.file_model.specs.Files.{got};
ghost use Rattle.program_model.specs.Lines.{line_of_words, lines_of_words, words_of_line};
ghost use Rattle.file_map.specs.Known.{AnswersOver};
ghost use Rattle.cmd_program.specs.Lines.{lines_got};

use crate::part::put;
use arrayvec::ArrayVec;
use bcd48::text6;
use ctss_types::{FileName, LineList, LineText, NoMemory, name_word};
use file_map::{FilePort, PortFault};
use std::alloc::Global;
use word36::Word;

/// The words of a line.
const LINE_WORDS: usize = 14;

/// A file's words as lines, 14 words each.
pub fn printed<F: FilePort>(
    alloc: Global,
    name: FileName,
    files: &mut F,
) -> Result<LineList, PortFault>
    requires usable { F.Usable files.old }
    ensures answer { AnswersOver (F.tells files.old) (F.files files.old) result (λ fs. lines_got (got name fs)) }
    ensures left { ¬ IsErrOf result PortFault.Disk → F.files files.new ≡ F.files files.old }
    ensures telling { ¬ IsErrOf result PortFault.Disk → F.tells files.new ≡ F.tells files.old }
    ensures usable { ¬ IsErrOf result PortFault.Disk → F.Usable files.new }
    ensures keeps { F.Keeps files.old files.new }
    ensures cause { IsErrOf result PortFault.Disk → Rose (F.faults files.old) (F.faults files.new) }
{
    let words = files.get(name)?;
    let lines = lines_of(alloc, words.as_slice())?;
    Ok(lines)
}

/// Words as lines, 14 words each, the last line with what is left.
fn lines_of(alloc: Global, words: &[Word]) -> Result<LineList, NoMemory>
    ensures { IfOk result (λ lines. lines ≡ lines_of_words words.now) }
{
    let mut lines = LineList::new(alloc);
    for group in words.chunks(LINE_WORDS) {
        lines.push(line_of(group))?;
    }
    Ok(lines)
}

/// What words print as, without trailing blanks.
#[tactic(auto, using(crate::proofs::Printing::prints))]
fn line_of(words: &[Word]) -> LineText
    requires { length words.now ≤ 14 }
    ensures { result ≡ line_of_words words.now }
{
    let mut text = ArrayVec::<u8, 84>::new();
    for word in words {
        put(&mut text, &text6(word.bits()));
    }
    match LineText::from_bytes(&text) {
        Ok(line) => line,
        Err(_) => unreachable!(),
    }
}

/// A line as 14 words, with blanks behind it.
pub fn line_words(line: &LineText) -> [Word; 14]
    ensures { result ≡ words_of_line 14 line.now }
{
    let mut words = [Word::default(); 14];
    fill_words(&mut words, line.as_slice());
    words
}

/// Fills words with a text, six characters each, and with blanks behind it.
fn fill_words(words: &mut [Word], text: &[u8])
    ensures { words.new ≡ words_of_line (length words.old) text.now }
{
    let mut rest = text;
    for word in words.iter_mut() {
        let (front, behind) = rest.split_at(rest.len().min(6));
        *word = name_word(front);
        rest = behind;
    }
}

ghost use Rattle.std.specs.Prelude.{◌≡◌, ◌≤◌, ◌==◌, ◌&&◌, not, nat_le, nat_lt, true, length, slice_get, Ok, IfOk, IfErr, IfSome, option_map};
ghost use Rattle.std.specs.List.{list_all, prefix_len};
ghost use Rattle.bcd48.specs.Characters.{is_character};
ghost use Rattle.ctss_types.specs.Words.{words_of};
ghost use Rattle.program_model.specs.CommandLines.{argument_for, with_arguments, lines_with};
ghost use Rattle.dialogue.specs.Made.{IsFault, IsPart};

use ctss_types::{LineList, LineText, NoMemory, first_word};
use program_model::ComRefusal;
use std::alloc::Global;

/// The most characters of a line.
const MOST_CHARACTERS: usize = 84;

/// Why no lines are added.
#[derive(Clone, Copy, Debug, PartialEq, Eq)]
pub enum ComFault {
    Refused(ComRefusal),
    NoMemory,
}

impl From<NoMemory> for ComFault {
    ghost use Rattle.std.specs.Prelude.{◌≡◌};
    ghost use Rattle.dialogue.specs.declared.runcom.made.ComFault.TheVariants as fault;

    ghost from_gives = { λ _ e. e ≡ fault.NoMemory };

    fn from(_: NoMemory) -> ComFault {
        ComFault::NoMemory
    }
}

/// The lines of a command file with the words of a text as arguments, where at most so many are to be added.
pub fn substitute(
    alloc: Global,
    lines: &[LineText],
    arguments: &[u8],
    room: u16,
) -> Result<LineList, ComFault>
    requires characters { list_all is_character arguments.now ≡ true }
    ensures ok { IfOk result (λ made. lines_with lines.now (words_of arguments.now) room ≡ Ok made) }
    ensures fits { IfOk result (λ made. length made ≤ room) }
    ensures err { IfErr result (λ fault. IsFault fault (lines_with lines.now (words_of arguments.now) room)) }
{
    let mut made = LineList::new(alloc);
    let mut fits = true;
    'lines: for line in lines {
        let Some(text) = with_arguments(alloc, line.as_slice(), arguments)? else {
            return Err(ComFault::Refused(ComRefusal::BadArguments));
        };
        fits &= is_fitting(&text, made.len(), room);
        if fits {
            made.push(LineText::of(&text))?;
        }
    }
    if fits {
        Ok(made)
    } else {
        Err(ComFault::Refused(ComRefusal::TooLong))
    }
}

/// Whether a line fits behind so many others.
fn is_fitting(text: &[u8], before: usize, room: u16) -> bool
    ensures { result ≡ (nat_le (length text.now) 84 && nat_lt before room) }
{
    text.len() <= MOST_CHARACTERS && before < usize::from(room)
}

/// A line with its arguments, or none where one isn't there.
fn with_arguments(alloc: Global, line: &[u8], arguments: &[u8]) -> Result<Option<Vec<u8>>, NoMemory>
    requires line { list_all is_character line.now ≡ true }
    requires arguments { list_all is_character arguments.now ≡ true }
    ensures value { IfOk result
        (λ text. option_map (λ t. t.items) text ≡ with_arguments (words_of arguments.now) line.now) }
    ensures characters { IfOk result (λ text. IfSome text (λ t. list_all is_character t.items ≡ true)) }
{
    let mut text = Vec::new(alloc);
    if add_parts(&mut text, line, arguments)? {
        Ok(Some(text))
    } else {
        Ok(None)
    }
}

/// Adds a line with its arguments, part by part, and says whether all are there.
fn add_parts(text: &mut Vec<u8>, line: &[u8], arguments: &[u8]) -> Result<bool, NoMemory>
    requires line { list_all is_character line.now ≡ true }
    requires arguments { list_all is_character arguments.now ≡ true }
    requires before { list_all is_character text.old.items ≡ true }
    ensures value { IfOk result
        (λ whole. IsPart whole text.old.items text.new.items (with_arguments (words_of arguments.now) line.now)) }
    ensures characters { IfOk result (λ whole. list_all is_character text.new.items ≡ true) }
{
    let (part, behind) = line.split_at(part_len(line));
    let Some(value) = argument_for(part, arguments) else {
        return Ok(false);
    };
    text.extend_from_slice(value)?;
    if behind.is_empty() {
        return Ok(true);
    }
    text.push(b' ')?;
    let rest = behind.split_at(1).1;
    add_parts(text, rest, arguments)
}

/// The number of characters up to a blank.
fn part_len(line: &[u8]) -> usize
    ensures value { result ≡ prefix_len (λ b. not (b == 32)) line.now }
    ensures within { result ≤ length line.now }
{
    line.iter().take_while(|b| **b != b' ').count()
}

/// What stands for a part of a line: $ and a digit 1 to 9 for the argument of that number, and else the part.
fn argument_for<'a>(part: &'a [u8], arguments: &'a [u8]) -> Option<&'a [u8]>
    requires part { list_all is_character part.now ≡ true }
    requires arguments { list_all is_character arguments.now ≡ true }
    ensures value { option_map (λ t. t.now) result ≡ argument_for (words_of arguments.now) part.now }
    ensures characters { IfSome result (λ t. list_all is_character t.now ≡ true) }
{
    match part {
        [b'$', digit @ b'1'..=b'9'] => word_at(arguments, *digit - b'1'),
        _ => Some(part),
    }
}

/// The word of a text behind so many others.
fn word_at(text: &[u8], number: u8) -> Option<&[u8]>
    requires characters { list_all is_character text.now ≡ true }
    ensures value { option_map (λ t. t.now) result ≡ slice_get (words_of text.now) number }
    ensures characters { IfSome result (λ t. list_all is_character t.now ≡ true) }
{
    let (word, behind) = first_word(text);
    if word.is_empty() {
        return None;
    }
    if number == 0 {
        Some(word)
    } else {
        word_at(behind, number - 1)
    }
}

//! The table of commands: what a line asks for, and in which state of a program commands on a stopped one are done. The definitions
//! are `Requests` and `Commands` of user_model.
ghost use Rattle.std.specs.Prelude.{◌≡◌, ◌∷◌, [], length, drop, nat_eq, nat_le, MatchOption, None, Some};
ghost use Rattle.std.specs.List.{list_all};
ghost use Rattle.std.specs.Option.{unwrap_or};
ghost use Rattle.ctss_types.specs.Words.{words_of};
ghost use Rattle.program_model.specs.Octals.{octal_in};
ghost use Rattle.user_model.specs.Requests.{word_name, digit_in, alone, rename_of, chmode_of, post_mortem_of, copy_by, linking_of, run_of, commands, command_named, command_of};
ghost use Rattle.user_model.specs.Commands.{is_dormant};
ghost use Rattle.dialogue.specs.Words.{file_first, one_name, one_file};

use crate::octals::octal_in;
use ctss_types::{FileName, LineText, first_word, name_word};
use program_model::ProgramState;
use user_model::Command;
use word36::Word;

/// A word of at most six characters as a name.
pub fn word_name(word: &[u8]) -> Option<Word>
    ensures { result ≡ word_name word.now }
{
    if word.len() > 6 {
        return None;
    }
    Some(name_word(word))
}

/// Whether a program stopped, and is there: START, SAVE and PM ask for one.
pub fn is_dormant(state: ProgramState) -> bool
    ensures { result ≡ is_dormant state }
{
    match state {
        ProgramState::Dormant => true,
        ProgramState::Dead | ProgramState::Working => false,
    }
}

/// What a line asks for.
#[tactic(auto, unfolding(user_model::specs::Requests::command_of))]
pub fn command_of(line: &LineText) -> Command
    ensures { result ≡ command_of line.now }
{
    match next_word(line.as_slice()) {
        Some((name, rest)) => command_by(name, rest).unwrap_or(Command::BadArguments),
        None => Command::Empty,
    }
}

/// What the words behind a command's name ask for, where the command takes them.
#[tactic(auto, using(crate::proofs::Words::taken))]
fn command_by(name: &[u8], rest: &[u8]) -> Option<Command>
    ensures { unwrap_or result Command.BadArguments ≡ command_named commands name.now (words_of rest.now) }
{
    if name == b"LOGOUT".as_slice() {
        alone(Command::Logout, rest)
    } else if name == b"LOADGO".as_slice() {
        one_name(rest).map(Command::LoadGo)
    } else if name == b"LISTF".as_slice() {
        alone(Command::List, rest)
    } else if name == b"PRINTF".as_slice() {
        one_file(rest).map(Command::Print)
    } else if name == b"RENAME".as_slice() {
        rename(rest)
    } else if name == b"DELETE".as_slice() {
        one_file(rest).map(Command::Delete)
    } else if name == b"CHMODE".as_slice() {
        change_mode(rest)
    } else if name == b"INPUT".as_slice() {
        one_file(rest).map(Command::Input)
    } else if name == b"COPY".as_slice() {
        copy(rest)
    } else if name == b"FAP".as_slice() {
        one_name(rest).map(Command::Assemble)
    } else if name == b"LINK".as_slice() {
        link(rest)
    } else if name == b"START".as_slice() {
        alone(Command::Start, rest)
    } else if name == b"SAVE".as_slice() {
        one_name(rest).map(Command::Save)
    } else if name == b"RESUME".as_slice() {
        one_name(rest).map(Command::Resume)
    } else if name == b"PM".as_slice() {
        post_mortem(rest)
    } else if name == b"FAPDBG".as_slice() {
        alone(Command::Debug, rest)
    } else if name == b"RUNCOM".as_slice() {
        run_file(rest)
    } else {
        Some(Command::Unknown)
    }
}

/// A command that takes no words behind its name.
fn alone(command: Command, rest: &[u8]) -> Option<Command>
    ensures { unwrap_or result Command.BadArguments ≡ alone command (words_of rest.now) }
{
    if is_over(rest) { Some(command) } else { None }
}

/// The only word of a text, as a name.
fn one_name(text: &[u8]) -> Option<Word>
    ensures { result ≡ one_name (words_of text.now) }
{
    let (word, rest) = next_word(text)?;
    if is_over(rest) { word_name(word) } else { None }
}

/// The only two words of a text, as a file's names.
fn one_file(text: &[u8]) -> Option<FileName>
    ensures { result ≡ one_file (words_of text.now) }
{
    let Some((name, rest)) = next_file(text) else {
        return None;
    };
    if is_over(rest) { Some(name) } else { None }
}

/// RENAME, with a file's names and its new names behind it.
fn rename(rest: &[u8]) -> Option<Command>
    ensures { unwrap_or result Command.BadArguments ≡ rename_of (words_of rest.now) }
{
    let Some((name, rest)) = next_file(rest) else {
        return None;
    };
    let Some((to, rest)) = next_file(rest) else {
        return None;
    };
    if is_over(rest) {
        Some(Command::Rename { name, to })
    } else {
        None
    }
}

/// CHMODE, with a file's names and a digit behind it.
fn change_mode(rest: &[u8]) -> Option<Command>
    ensures { unwrap_or result Command.BadArguments ≡ chmode_of (words_of rest.now) }
{
    let Some((name, rest)) = next_file(rest) else {
        return None;
    };
    let (word, rest) = next_word(rest)?;
    let mode = digit_in(word)?;
    if is_over(rest) {
        Some(Command::ChangeMode { name, mode })
    } else {
        None
    }
}

/// COPY, with TO or FROM and a file's names behind it.
#[tactic(auto, using(crate::proofs::Words::taken))]
fn copy(rest: &[u8]) -> Option<Command>
    ensures { unwrap_or result Command.BadArguments ≡ copy_by (words_of rest.now) }
{
    let (word, behind) = next_word(rest)?;
    if word == b"TO".as_slice() {
        one_file(behind).map(Command::CopyTo)
    } else if word == b"FROM".as_slice() {
        one_file(behind).map(Command::CopyFrom)
    } else {
        None
    }
}

/// PM, with nothing or a place behind it.
fn post_mortem(rest: &[u8]) -> Option<Command>
    ensures { unwrap_or result Command.BadArguments ≡ post_mortem_of (words_of rest.now) }
{
    let Some((word, behind)) = next_word(rest) else {
        return Some(Command::Registers);
    };
    let place = place_in(word)?;
    if is_over(behind) {
        Some(Command::WordAt { place })
    } else {
        None
    }
}

/// LINK, with a deck's name and the names of one to eight modules behind it.
fn link(rest: &[u8]) -> Option<Command>
    ensures { unwrap_or result Command.BadArguments ≡ linking_of (words_of rest.now) }
{
    let (word, behind) = next_word(rest)?;
    if is_over(behind) || !are_at_most(behind, 8) || !are_short(behind) {
        return None;
    }
    Some(Command::Link(word_name(word)?))
}

/// RUNCOM, with a command file's name and at most nine arguments behind it.
fn run_file(rest: &[u8]) -> Option<Command>
    ensures { unwrap_or result Command.BadArguments ≡ run_of (words_of rest.now) }
{
    let (word, behind) = next_word(rest)?;
    if !are_at_most(behind, 9) {
        return None;
    }
    Some(Command::RunFile(word_name(word)?))
}

/// Whether a text has at most so many words.
fn are_at_most(text: &[u8], most: u8) -> bool
    ensures { result ≡ nat_le (length (words_of text.now)) most }
{
    match next_word(text) {
        None => true,
        Some((_, rest)) => most > 0 && are_at_most(rest, most - 1),
    }
}

/// Whether each word of a text is as short as a name.
fn are_short(text: &[u8]) -> bool
    ensures { result ≡ list_all (λ w. nat_le (length w) 6) (words_of text.now) }
{
    match next_word(text) {
        None => true,
        Some((word, rest)) => word.len() <= 6 && are_short(rest),
    }
}

/// A word of one to five octal digits as a place.
fn place_in(word: &[u8]) -> Option<u16>
    ensures { result ≡ octal_in 5 word.now }
{
    let place = octal_in(word, 5)?;
    Some(place as u16)
}

/// A word of one digit as its value.
fn digit_in(word: &[u8]) -> Option<u8>
    ensures { result ≡ digit_in word.now }
{
    match word {
        [digit @ b'0'..=b'9'] => Some(*digit - b'0'),
        _ => None,
    }
}

/// The first two words of a text as a file's names, and what stands behind them.
fn next_file(text: &[u8]) -> Option<(FileName, &[u8])>
    ensures { MatchOption result (file_first (words_of text.now) ≡ None)
        (λ p. (file_first (words_of text.now) ≡ Some p.0) × (words_of p.1.now ≡ drop 2 (words_of text.now))) }
{
    let (first, rest) = next_word(text)?;
    let (second, rest) = next_word(rest)?;
    let name = FileName::new(word_name(first)?, word_name(second)?);
    Some((name, rest))
}

/// The first word of a text, where it has one, and what stands behind it.
fn next_word(text: &[u8]) -> Option<(&[u8], &[u8])>
    ensures { MatchOption result (words_of text.now ≡ []) (λ p. words_of text.now ≡ p.0.now ∷ words_of p.1.now) }
{
    let (word, rest) = first_word(text);
    if word.is_empty() {
        None
    } else {
        Some((word, rest))
    }
}

/// Whether a text has no word.
fn is_over(text: &[u8]) -> bool
    ensures { result ≡ nat_eq (length (words_of text.now)) 0 }
{
    first_word(text).0.is_empty()
}

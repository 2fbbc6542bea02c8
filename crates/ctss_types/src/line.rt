ghost use Rattle.std.specs.Prelude.{◌≡◌, ◌<◌, ◌≤◌, ◌+◌, ◌↔◌, ℕ, [], length, take, drop, ◌++◌, slice_index, IfOk, Err, nat_eq, true, false, Some};
ghost use Rattle.std.specs.List.{list_all};
ghost use Rattle.bcd48.specs.Characters.{is_character};
ghost use Rattle.ctss_types.specs.Line.{trimmed, padded as padded_list};

use bcd48::is_character;
use std::error::Error;
use std::marker::Model;
use std::{fmt, str};

/// The most characters of a line.
pub const MOST_CHARACTERS: usize = 84;

/// Why a text is no line.
#[derive(Clone, Copy, Debug, PartialEq, Eq)]
pub enum LineFault {
    TooLong,
    NotBcd,
}

impl fmt::Display for LineFault {
    ghost use Rattle.std.specs.Prelude.{Some};
    ghost use Rattle.ctss_types.specs.Line.{line_fault_text};

    ghost output = { λ fault. Some (line_fault_text fault) };

    fn fmt<W: fmt::Write>(&self, f: &mut fmt::Formatter<W>) -> fmt::Result {
        f.write_str(match self {
            LineFault::TooLong => "a line has at most 84 characters",
            LineFault::NotBcd => "a character is outside the 48",
        })
    }
}

impl Error for LineFault {}

/// A line of at most 84 of the 48 characters. It has a fixed size and takes no memory.
#[derive(Clone, Copy, Debug, PartialEq, Eq, Hash)]
pub struct LineText {
    bytes: [u8; 84],
    len: u8,
}

impl Model for LineText {
    ghost use Rattle.std.specs.Prelude.{ℕ, List, length, take};
    ghost use Rattle.ctss_types.specs.Line.{padded, IsLine, padded_ok, len_ok};

    ghost Value = { List ℕ };

    ghost view = { λ l. take l.len l.bytes };

    ghost invariant = { λ l. IsLine l.bytes l.len };

    ghost inverse = { λ xs. record { bytes = padded xs; len = length xs } };

    ghost inverse_ok = { λ a h. (λ i. record { bytes = padded_ok a.bytes a.len h i; len = len_ok a.bytes a.len h i }) };
}

/// The length without trailing blanks.
fn trimmed_len(bytes: &[u8]) -> usize
    ensures within { result ≤ length bytes.now }
    ensures value { take result bytes.now ≡ trimmed bytes.now }
{
    let mut end = bytes.len();
    'trimming: while 0 < end && bytes[end - 1] == b' ' {
        end -= 1;
    }
    end
}

/// With zeros behind it.
#[tactic(auto, using(crate::proofs::Trim::zeros))]
fn padded(line: &[u8]) -> [u8; 84]
    requires { length line.now ≤ 84 }
    ensures { result ≡ padded_list line.now }
{
    let mut text = [0; 84];
    put_front(line, &mut text);
    text
}

fn put_front(line: &[u8], text: &mut [u8])
    requires { length line.now ≤ length text.old }
    ensures { text.new ≡ line.now ++ drop (length line.now) text.old }
{
    text[..line.len()].copy_from_slice(line);
}

/// The first text and then the second.
#[tactic(auto, using(crate::proofs::Trim::two_parts))]
fn put_both(front: &[u8], back: &[u8], text: &mut [u8])
    requires { length front.now + length back.now ≤ length text.old }
    ensures { take (length front.now + length back.now) text.new ≡ front.now ++ back.now }
{
    text[..front.len()].copy_from_slice(front);
    text[front.len()..front.len() + back.len()].copy_from_slice(back);
}

fn are_characters(line: &[u8]) -> bool
    ensures { result ≡ list_all is_character line.now }
{
    line.iter().all(|b| is_character(*b))
}

impl LineText {
    /// The line of these bytes without their trailing blanks. The length is tried before the characters.
    pub fn from_bytes(bytes: &[u8]) -> Result<LineText, LineFault>
        ensures value { IfOk result (λ line. line ≡ trimmed bytes.now) }
        ensures too_long { (result ≡ Err LineFault.TooLong) ↔ (84 < length (trimmed bytes.now)) }
        ensures not_bcd { (result ≡ Err LineFault.NotBcd)
            ↔ ((length (trimmed bytes.now) ≤ 84) × (list_all is_character (trimmed bytes.now) ≡ false)) }
    {
        let line = &bytes[..trimmed_len(bytes)];
        if line.len() > MOST_CHARACTERS {
            return Err(LineFault::TooLong);
        }
        if !are_characters(line) {
            return Err(LineFault::NotBcd);
        }
        Ok(LineText::of(line))
    }

    /// The line of these characters, just as they stand.
    #[tactic(auto, using(crate::proofs::Trim::is_line, crate::proofs::Trim::line_seen))]
    pub fn of(characters: &[u8]) -> LineText
        requires length { length characters.now ≤ 84 }
        requires characters { list_all is_character characters.now ≡ true }
        ensures { result ≡ characters.now }
    {
        LineText {
            bytes: padded(characters),
            len: characters.len() as u8,
        }
    }

    /// The line of one text and then another.
    #[tactic(auto, using(crate::proofs::Trim::all_of_both))]
    pub fn joined(front: &[u8], back: &[u8]) -> LineText
        requires length { length front.now + length back.now ≤ 84 }
        requires front { list_all is_character front.now ≡ true }
        requires back { list_all is_character back.now ≡ true }
        ensures { result ≡ front.now ++ back.now }
    {
        let mut text = [0; 84];
        put_both(front, back, &mut text);
        LineText::of(&text[..front.len() + back.len()])
    }

    /// The number of characters.
    pub fn len(&self) -> u8
        ensures value { result ≡ length self.now }
        ensures most { result ≤ 84 }
    {
        self.len
    }

    /// Whether there is no character.
    pub fn is_empty(&self) -> bool
        ensures { result ≡ nat_eq (length self.now) 0 }
    {
        self.len == 0
    }

    /// The character at a place.
    pub fn at(&self, place: u8) -> u8
        requires { place < length self.now }
        ensures { result ≡ slice_index self.now place }
    {
        self.bytes[place as usize]
    }

    /// The characters.
    pub fn as_slice(&self) -> &[u8]
        ensures value { result.now ≡ self.now }
        ensures most { length result.now ≤ 84 }
        ensures characters { list_all is_character result.now ≡ true }
    {
        &self.bytes[..self.len as usize]
    }

    /// The characters as text.
    #[tactic(auto, using(crate::proofs::Ascii::characters_are_text))]
    pub fn as_str(&self) -> &str
        ensures { result.now ≡ self.now }
    {
        match str::from_utf8(self.as_slice()) {
            Ok(text) => text,
            Err(_) => unreachable!(),
        }
    }
}

impl fmt::Display for LineText {
    ghost output = { λ line. Some line };

    fn fmt<W: fmt::Write>(&self, f: &mut fmt::Formatter<W>) -> fmt::Result {
        f.write_str(self.as_str())
    }
}

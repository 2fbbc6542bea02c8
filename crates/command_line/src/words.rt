ghost use Rattle.std.specs.Prelude.{◌≡◌, ◌++◌, ◌∷◌, [], IfOk, map, string_bytes, OnOk, OnErr};
ghost use Rattle.std.specs.List.{list_any};
ghost use Rattle.text_model.specs.Words.{is_option, mode_of};
ghost use Rattle.command_line.specs.Places.{is_named_option, is_other_option};

use crate::command::matches_of;
use crate::named::mode_at;
use ctss_types::NoMemory;
use std::alloc::Global;
use std::marker::Model;
use text_model::Mode;

/// The words of a command line behind the program's own name.
#[derive(Debug, Drop)]
pub struct ArgList {
    alloc: Global,
    words: Vec<String>,
}

impl Model for ArgList {
    ghost use Rattle.std.specs.Prelude.{List, ℕ, map, string_bytes};

    ghost Value = { List (List ℕ) };

    ghost view = { λ a. map string_bytes a.words.items };
}

impl ArgList {
    /// No word yet.
    pub fn new(alloc: Global) -> ArgList
        ensures { result ≡ [] }
    {
        ArgList {
            alloc,
            words: Vec::new(alloc),
        }
    }

    /// A word more, at the end.
    pub fn add(&mut self, word: &str) -> Result<(), NoMemory>
        ensures ok { OnOk result (self.new ≡ self.old ++ word.now ∷ []) }
        ensures err { OnErr result (self.new ≡ self.old) }
    {
        let word = String::from_str(self.alloc, word)?;
        self.words.push(word)?;
        Ok(())
    }

    /// The words, in order.
    pub fn words(&self) -> &[String]
        ensures { map string_bytes result.now ≡ self.now }
    {
        self.words.as_slice()
    }

    /// What the words ask for, if they are lawful. It may want memory.
    pub fn mode(&self) -> Result<Option<Mode>, NoMemory>
        ensures { IfOk result (λ mode. mode ≡ mode_of self.now) }
    {
        let words = self.words.as_slice();
        if has_other_option(words) {
            return Ok(None);
        }
        match matches_of(self.alloc, words)? {
            Some(matches) => Ok(mode_at(
                matches.get_str("MODE"),
                matches.get_str("NUMBER"),
                matches.get_str("PORT"),
                matches.get_str("TURNS"),
            )),
            None => Ok(None),
        }
    }
}

/// Whether a word begins with `-`.
fn is_option(word: &str) -> bool
    ensures { result ≡ is_option word.now }
{
    match word.as_bytes() {
        [b, ..] => *b == b'-',
        [] => false,
    }
}

/// Whether a word is an option of `serve`, alone or with its value behind `=`.
fn is_named_option(word: &str) -> bool
    ensures { result ≡ is_named_option word.now }
{
    let bytes = word.as_bytes();
    word == "--port"
        || word == "--turns"
        || bytes.starts_with(b"--port=")
        || bytes.starts_with(b"--turns=")
}

/// Whether a word begins with `-` and is no option of `serve`.
fn is_other_option(word: &str) -> bool
    ensures { result ≡ is_other_option word.now }
{
    is_option(word) && !is_named_option(word)
}

/// Whether one of the words begins with `-` and is no option of `serve`.
fn has_other_option(words: &[String]) -> bool
    ensures { result ≡ list_any (λ word. is_other_option (string_bytes word)) words.now }
{
    words.iter().any(|word| is_other_option(word.as_str()))
}

ghost use Rattle.std.specs.Prelude.{◌≡◌, [], ◌∷◌, option_to_list};
ghost use Rattle.std.specs.Option.{option_map};
ghost use Rattle.text_model.specs.Words.{mode_by, mode_named, mode_of_words, mode_serving, mode_with};
ghost use Rattle.command_line.specs.Places.{words_at};

use text_model::Mode;
use text_model::fields::number;

/// The largest number that a script is made of.
const LARGEST_LOAD: u32 = 999_999;

/// The ports at which people can connect.
const SMALLEST_PORT: u32 = 1;

const LARGEST_PORT: u32 = 65_535;

/// The most turns that people are served.
const MOST_TURNS: u32 = 100_000;

/// What one word asks for.
fn mode_named(word: &str) -> Option<Mode>
    ensures { result ≡ mode_named word.now }
{
    match word {
        "replay" => Some(Mode::Replay),
        "dump" => Some(Mode::Dump),
        "asm" => Some(Mode::Asm),
        _ => None,
    }
}

/// What a word and a number ask for.
fn mode_with(word: &str, field: &str) -> Option<Mode>
    ensures { result ≡ mode_with word.now field.now }
{
    if word == "load" {
        let n = number(field.as_bytes())?;
        if n <= LARGEST_LOAD {
            Some(Mode::Load(n))
        } else {
            None
        }
    } else {
        None
    }
}

/// What the words at the two places ask for, where no option stands.
fn mode_of_words(word: Option<&str>, field: Option<&str>) -> Option<Mode>
    ensures { result ≡ mode_of_words
        (words_at (option_map (λ s. s.now) word.entry) (option_map (λ s. s.now) field.entry)) }
{
    match (word?, field) {
        (word, None) => mode_named(word),
        (word, Some(field)) => mode_with(word, field),
    }
}

/// What `serve` asks for, with a port and a number of turns.
fn mode_serving(word: &str, port: &str, turns: &str) -> Option<Mode>
    ensures { result ≡ mode_serving (word.now ∷ []) port.now turns.now }
{
    if word == "serve" {
        let port = number(port.as_bytes())?;
        let turns = number(turns.as_bytes())?;
        if SMALLEST_PORT <= port && port <= LARGEST_PORT && turns <= MOST_TURNS {
            let port = port as u16;
            Some(Mode::Serve { port, turns })
        } else {
            None
        }
    } else {
        None
    }
}

/// What the words at the two places ask for, with the values of both options.
fn mode_of_served(word: Option<&str>, field: Option<&str>, port: &str, turns: &str) -> Option<Mode>
    ensures { result ≡ mode_serving
        (words_at (option_map (λ s. s.now) word.entry) (option_map (λ s. s.now) field.entry)) port.now turns.now }
{
    match (word?, field) {
        (word, None) => mode_serving(word, port, turns),
        (_, Some(_)) => None,
    }
}

/// What the words at the two places and the values of the two options ask for.
pub(crate) fn mode_at(
    word: Option<&str>,
    field: Option<&str>,
    port: Option<&str>,
    turns: Option<&str>,
) -> Option<Mode>
    ensures { result ≡ mode_by (words_at (option_map (λ s. s.now) word.entry) (option_map (λ s. s.now) field.entry))
        (option_to_list (option_map (λ s. s.now) port.entry)) (option_to_list (option_map (λ s. s.now) turns.entry)) }
{
    match (port, turns) {
        (None, None) => mode_of_words(word, field),
        (Some(port), Some(turns)) => mode_of_served(word, field, port, turns),
        _ => None,
    }
}

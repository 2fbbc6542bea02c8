//! What the program answers.
ghost use Rattle.std.specs.Prelude.{◌≡◌, ◌≤◌, ℕ, List, IfOk, length};
ghost use Rattle.std.specs.Option.{option_map};
ghost use Rattle.ctss_modes.specs.Devices.{output_seen};
ghost use Rattle.run_listing.specs.Answer.{Asked, IsAnswer, asked, status_of, text_of};
ghost use Rattle.run_listing.specs.Texts.{IsAsked};
ghost use Rattle.script_show.specs.Input.{ShowsBytes};
ghost use Rattle.script_show.specs.Seen.{streams};

use crate::asked::{Asked, asked_by};
use crate::text::{Answer, listing, traced};
use ctss_io::{Sink, Source};
use ctss_modes::{Outcome, refuse_words};
use ctss_types::NoMemory;
use script_show::{ArgList, InputShow, ShowProgram, show_input};
use std::alloc::Global;
use text_writer::{TextFault, write_text};

/// What is asked for of a text whose lines are cards.
fn answer(alloc: Global, asked: Asked, bytes: &[u8]) -> Result<Answer, NoMemory>
    requires { length bytes.now ≤ 4194304 }
    ensures { IfOk result (IsAsked asked bytes.now) }
{
    match asked {
        Asked::List => listing(alloc, bytes),
        Asked::Trace(most) => traced(alloc, most, bytes),
    }
}

/// Writes an answer.
fn write<K: Sink>(alloc: Global, told: &Answer, output: &mut K) -> Outcome
    ensures { (a : Asked) (bytes : List ℕ) → IsAsked a bytes told.now
        → ShowsBytes (text_of a) (status_of a) bytes
        (output_seen K.Sink output.old) (output_seen K.Sink output.new) result }
{
    match write_text(alloc, output, &told.text) {
        Ok(()) => Outcome::bare(alloc, told.status, 0, 0),
        Err(TextFault::Write) => Outcome::bare(alloc, 4, 0, 0),
        Err(TextFault::NoMemory) => Outcome::bare(alloc, 8, 0, 0),
    }
}

impl InputShow for Asked {
    ghost use Rattle.run_listing.specs.Answer.{status_of, text_of};

    ghost text = { text_of };

    ghost status = { status_of };

    fn show<K: Sink>(&self, alloc: Global, bytes: &[u8], sink: &mut K) -> Outcome {
        match answer(alloc, *self, bytes) {
            Ok(told) => write(alloc, &told, sink),
            Err(_) => Outcome::bare(alloc, 8, 0, 0),
        }
    }
}

/// The listing of the cards that come in, or the trace of their program, is written, where the words ask for it; other
/// words are refused, and nothing is read.
pub fn write_listing<S: Source, K: Sink>(
    alloc: Global,
    words: &ArgList,
    input: &mut S,
    output: &mut K,
) -> Outcome
    ensures { IsAnswer (asked words.now)
        (streams S.Source K.Sink input.old output.old) (streams S.Source K.Sink input.new output.new) result }
{
    match asked_by(words) {
        Some(asked) => show_input(alloc, &asked, input, output),
        None => refuse_words(alloc, output),
    }
}

/// The program, but for its `main`.
pub struct ListCards {}

impl ShowProgram for ListCards {
    ghost use Rattle.std.specs.Prelude.{codes};

    ghost Answers = { λ words old new result. IsAnswer (asked words) old new result };

    ghost usage_line = { codes "words refused: list or trace N (1 to 100000) is wanted, and FAP cards behind <" };

    fn usage() -> &'static [u8] {
        b"words refused: list or trace N (1 to 100000) is wanted, and FAP cards behind <"
    }

    fn answer<S: Source, K: Sink>(
        alloc: Global,
        words: &ArgList,
        input: &mut S,
        output: &mut K,
    ) -> Outcome {
        write_listing(alloc, words, input, output)
    }
}

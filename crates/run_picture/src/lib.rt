//! The picture of a run: a script comes in, and its run goes out drawn, in characters, as figures or as comma-separated values.
//!
//! The definitions stand in picture_model, and what the program answers in `specs/Asked`.
#![tactic(auto)]

pub mod core_maps;
mod form;
mod text;

ghost use Rattle.std.specs.Prelude.{◌≡◌};
ghost use Rattle.std.specs.Option.{option_map};
ghost use Rattle.run_picture.specs.Asked.{asked, text_in};
ghost use Rattle.script_show.specs.Asked.{IsAnswer};
ghost use Rattle.script_show.specs.Seen.{streams};

pub use crate::form::Form;
use crate::form::form_named;
use ctss_io::{Sink, Source};
pub use script_show::run;
use script_show::{ArgList, Outcome, ShowProgram, show_asked};
use std::alloc::Global;

/// The form that words ask for: one word that names it.
fn asked(words: &ArgList) -> Option<Form>
    ensures { option_map text_in result ≡ asked words.now }
{
    match words.words() {
        [word] => form_named(word.as_str()),
        _ => None,
    }
}

/// A script is read and run, and the picture of its record is written, in the form that the one word asks for.
pub fn write_picture<S: Source, K: Sink>(
    alloc: Global,
    words: &ArgList,
    input: &mut S,
    output: &mut K,
) -> Outcome
    ensures { IsAnswer (asked words.now)
        (streams S.Source K.Sink input.old output.old) (streams S.Source K.Sink input.new output.new) result }
{
    show_asked(alloc, asked(words), input, output)
}

/// The program, but for its `main`.
pub struct RunPicture {}

impl ShowProgram for RunPicture {
    ghost use Rattle.std.specs.Prelude.{codes};

    ghost Answers = { λ words old new result. IsAnswer (asked words) old new result };

    ghost usage_line = { codes "words refused: svg, text, figures or csv is wanted, and a script behind <" };

    fn usage() -> &'static [u8] {
        b"words refused: svg, text, figures or csv is wanted, and a script behind <"
    }

    fn answer<S: Source, K: Sink>(
        alloc: Global,
        words: &ArgList,
        input: &mut S,
        output: &mut K,
    ) -> Outcome {
        write_picture(alloc, words, input, output)
    }
}

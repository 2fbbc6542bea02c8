//! The base script of the next session: the run of a script comes in, and what it leaves goes out as a script again.
//!
//! The definition of a base stands in `specs/Tomorrow` (`tomorrow` has its laws), and what the program answers in `specs/Next`.
mod held;
mod kept;
mod text;
pub mod tomorrow;

ghost use Rattle.std.specs.Prelude.{◌≡◌, []};
ghost use Rattle.std.specs.Option.{option_map};
ghost use Rattle.ctss_tomorrow.specs.Next.{IsNextBase, asked, next_text};
ghost use Rattle.script_show.specs.Asked.{IsAnswer};
ghost use Rattle.script_show.specs.Seen.{streams};

use crate::base::held::hold_words;
use ctss_io::{Sink, Source};
pub use script_show::run;
use script_show::{ArgList, Outcome, ShowProgram, show_asked};
use std::alloc::Global;
pub use text::NextBase;

/// The text that words ask for: without a word the next session's base, else none.
fn asked(words: &ArgList) -> Option<NextBase>
    ensures { option_map (λ text. next_text) result ≡ asked words.now }
{
    if words.words().is_empty() {
        Some(NextBase)
    } else {
        None
    }
}

/// A script is read and run, and the base of the next session is written. No word is wanted.
pub fn write_next_base<S: Source, K: Sink>(
    alloc: Global,
    words: &ArgList,
    input: &mut S,
    output: &mut K,
) -> Outcome
    ensures headline { words.now ≡ [] → result.status ≡ 0
        → IsNextBase (streams S.Source K.Sink input.old output.old) (streams S.Source K.Sink input.new output.new) }
    ensures answer { IsAnswer (asked words.now)
        (streams S.Source K.Sink input.old output.old) (streams S.Source K.Sink input.new output.new) result }
{
    let outcome = show_asked(alloc, asked(words), input, output);
    hold_words(&outcome.run);
    outcome
}

/// The program, but for its `main`.
pub struct NextSession {}

impl ShowProgram for NextSession {
    ghost use Rattle.std.specs.Prelude.{codes};

    ghost Answers = { λ words old new result. IsAnswer (asked words) old new result };

    ghost usage_line = { codes "words refused: none is wanted, and a script behind <" };

    fn usage() -> &'static [u8] {
        b"words refused: none is wanted, and a script behind <"
    }

    fn answer<S: Source, K: Sink>(
        alloc: Global,
        words: &ArgList,
        input: &mut S,
        output: &mut K,
    ) -> Outcome {
        write_next_base(alloc, words, input, output)
    }
}

//! Such a program, but for its `main`.
ghost use Rattle.std.specs.Prelude.{◌≡◌, ℕ, List, if◌then◌else◌, nat_eq};
ghost use Rattle.command_line.specs.Explained.{explained};
ghost use Rattle.command_line.specs.Said.{Says};
ghost use Rattle.ctss_modes.specs.declared.outcome.Outcome.{Outcome};
ghost use Rattle.ctss_modes.specs.Devices.{output_seen};
ghost use Rattle.script_show.specs.Programs.{HasAnswered};
ghost use Rattle.script_show.specs.Seen.{streams};
ghost use Rattle.script_show.specs.Shown.{StreamsSeen};
ghost use Rattle.text_model.specs.Parts.{line};

use command_line::outcome::{explain, say_line};
use command_line::{ArgList, program_words};
use ctss_io::{Sink, Source, StdSink, StdSource};
use ctss_modes::Outcome;
use std::alloc::Global;
use std::io;

/// A program that writes a text of what comes in.
pub trait ShowProgram {
    /// What its words, its streams before and after, and its outcome have in common.
    ghost Answers: { List (List ℕ) → StreamsSeen → StreamsSeen → Outcome → Type 0 };

    /// The usage line.
    ghost usage_line: { List ℕ };

    /// Returns the usage line, which is written if the words are refused.
    fn usage() -> &'static [u8]
        ensures { result.now ≡ usage_line };

    /// Writes what its words ask for of what comes in.
    fn answer<S: Source, K: Sink>(
        alloc: Global,
        words: &ArgList,
        input: &mut S,
        output: &mut K,
    ) -> Outcome
        ensures { Answers words.now (streams S.Source K.Sink input.old output.old)
            (streams S.Source K.Sink input.new output.new) result };
}

/// Explains a status other than 0, on one line; of refused words it says what may be typed.
fn explain_answer<E: Sink>(errors: &mut E, outcome: &Outcome, usage: &[u8])
    ensures { Says (if nat_eq outcome.now.status 1 then line usage.now
        else explained outcome.now.status outcome.now.card outcome.now.cause)
        (E.held errors.old) (E.held errors.new) (E.faults errors.old) (E.faults errors.new) }
{
    if outcome.status == 1 {
        say_line(errors, usage);
    } else {
        explain(errors, outcome.status, outcome.card, outcome.cause);
    }
}

/// Answers the words over streams, and returns the status. A status other than 0 is explained on `errors`.
pub fn run_program<P: ShowProgram, S: Source, K: Sink, E: Sink>(
    alloc: Global,
    words: &ArgList,
    input: &mut S,
    output: &mut K,
    errors: &mut E,
) -> u8
    ensures { HasAnswered (P.Answers words.now (streams S.Source K.Sink input.old output.old)
        (streams S.Source K.Sink input.new output.new)) P.usage_line (output_seen E.Sink errors.old)
        (output_seen E.Sink errors.new) result }
{
    let outcome = P::answer(alloc, words, input, output);
    explain_answer(errors, &outcome, P::usage());
    outcome.status
}

/// Runs a program over standard input, standard output and standard error, and returns the status.
pub fn run<P: ShowProgram>(rt: &HostRuntime) -> u8 {
    let mut errors = StdSink::new(rt.stderr());
    let Ok(words) = program_words(rt) else {
        explain(&mut errors, 8, 0, 0);
        return 8;
    };
    let mut source = StdSource::new(rt.reader());
    let mut sink = StdSink::new(io::writer(rt));
    run_program::<P, _, _, _>(rt.alloc(), &words, &mut source, &mut sink, &mut errors)
}

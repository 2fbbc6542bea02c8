//! What the words ask for.
ghost use Rattle.std.specs.Prelude.{◌≡◌};
ghost use Rattle.run_listing.specs.Answer.{asked, trace_asked};

use script_show::ArgList;
use text_model::fields::number;

/// The most steps of a trace.
const MOST_STEPS: u32 = 100_000;

/// What may be asked for.
#[derive(Clone, Copy, Debug, PartialEq, Eq)]
pub(crate) enum Asked {
    /// The listing of the cards.
    List,
    /// The trace of the program, of at most so many steps.
    Trace(u32),
}

/// A trace, if it may have so many steps.
fn trace_asked(most: Option<u32>) -> Option<Asked>
    ensures { result ≡ trace_asked most }
{
    match most {
        Some(most) if 1 <= most && most <= MOST_STEPS => Some(Asked::Trace(most)),
        _ => None,
    }
}

/// What words ask for: `list`, or `trace` and a number.
pub(crate) fn asked_by(words: &ArgList) -> Option<Asked>
    ensures { result ≡ asked words.now }
{
    match words.words() {
        [word] if word.as_str() == "list" => Some(Asked::List),
        [word, most] if word.as_str() == "trace" => trace_asked(number(most.as_bytes())),
        _ => None,
    }
}

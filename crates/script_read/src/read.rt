ghost use Rattle.std.specs.Prelude.{◌≡◌, ◌∷◌, ◌<◌, ◌≤◌, ◌==◌, length, not};
ghost use Rattle.std.specs.List.{prefix_len};
ghost use Rattle.std.specs.Str.Lines.{lines, strip_carriage_return};
ghost use Rattle.text_model.specs.Drafts.{empty_draft};
ghost use Rattle.text_model.specs.Reading.{script_by, script_of};
ghost use Rattle.script_read.specs.Bases.{is_event_card, entered_in, cards_from, base_of, BasesAreScripts};
ghost use Rattle.script_read.specs.Answers.{Reads};
ghost use Rattle.script_read.specs.Drafts.{draft_of, Enters};

use crate::ScriptFault;
use crate::draft::{CardFault, Draft};
use crate::enter::{close_file, empty_draft, enter, is_comment, is_indented};
use ctss_types::{Script, first_word};
use std::alloc::Global;
use text_model::{ScriptCause, ScriptRefusal};

/// The most bytes of a script.
const MOST_BYTES: usize = 4_194_304;

/// The number of bytes up to a newline.
fn line_len(text: &[u8]) -> usize
    ensures value { result ≡ prefix_len (λ b. not (b == 10)) text.now }
    ensures within { result ≤ length text.now }
{
    text.iter().take_while(|b| **b != b'\n').count()
}

/// The line without the carriage return at its end.
fn without_return(line: &[u8]) -> &[u8]
    ensures { result.now ≡ strip_carriage_return line.now }
{
    if !line.is_empty() && line[line.len() - 1] == b'\r' {
        &line[..line.len() - 1]
    } else {
        line
    }
}

/// The first line, and what stands behind it.
#[tactic(auto, using(crate::proofs::FirstLine::lines_last, crate::proofs::FirstLine::lines_first))]
fn first_line(text: &[u8]) -> (&[u8], &[u8])
    requires { 0 < length text.now }
    ensures line { lines text.now ≡ result.0.now ∷ lines result.1.now }
    ensures shorter { length result.1.now < length text.now }
{
    let n = line_len(text);
    if n == text.len() {
        text.split_at(n)
    } else {
        (without_return(text.split_at(n).0), text.split_at(n + 1).1)
    }
}

/// The script of whole cards, or the refusal for the END that is missing behind them.
fn script_by(mut draft: Draft, card: u32) -> Result<Script, ScriptFault>
    ensures { Reads result (script_by draft.params draft.end card (draft_of draft)) }
{
    close_file(&mut draft)?;
    let Draft {
        params,
        accounts,
        files,
        events,
        end,
        ..
    } = draft;
    match (params, end) {
        (Some(params), Some(end)) => Ok(Script {
            params,
            accounts,
            files,
            events,
            end,
        }),
        _ => Err(ScriptFault::Refused(ScriptRefusal {
            card,
            cause: ScriptCause::NoEnd,
        })),
    }
}

/// Whether a card says an event.
fn is_event_card(card: &[u8]) -> bool
    ensures { result ≡ is_event_card card.now }
{
    !is_comment(card) && !is_indented(card) && first_word(card).0 == b"AT".as_slice()
}

/// Takes a card of a base script, or of any.
fn enter_in(alloc: Global, is_base: bool, draft: &mut Draft, card: &[u8]) -> Result<(), CardFault>
    ensures { Enters result (entered_in is_base (draft_of draft.old) card.now) (draft_of draft.new) }
{
    if is_base && draft.end.is_none() && is_event_card(card) {
        return Err(CardFault::Refused(ScriptCause::NotACard));
    }
    enter(alloc, draft, card)
}

/// The script that the cards of a text make: a base script, or any.
fn script_from(alloc: Global, is_base: bool, bytes: &[u8]) -> Result<Script, ScriptFault>
    requires { length bytes.now ≤ 4194304 }
    ensures { Reads result (cards_from is_base 1 empty_draft (lines bytes.now)) }
{
    let mut draft = empty_draft(alloc);
    let mut rest = bytes;
    let mut number = 1;
    'cards: while !rest.is_empty() {
        let (card, more) = first_line(rest);
        match enter_in(alloc, is_base, &mut draft, card) {
            Ok(()) => {}
            Err(CardFault::Refused(cause)) => {
                return Err(ScriptFault::Refused(ScriptRefusal {
                    card: number,
                    cause,
                }));
            }
            Err(CardFault::NoMemory) => return Err(ScriptFault::NoMemory),
        }
        rest = more;
        number += 1;
    }
    script_by(draft, number)
}

/// The refusal of a text of too many bytes.
const TOO_LONG: ScriptFault = ScriptFault::Refused(ScriptRefusal {
    card: 0,
    cause: ScriptCause::TooLong,
});

/// The script of bytes, or the first card at fault with its cause.
#[tactic(auto, using(crate::proofs::Bases::any_cards), unfolding(text_model::specs::Reading::script_of))]
pub fn read_script(alloc: Global, bytes: &[u8]) -> Result<Script, ScriptFault>
    ensures { Reads result (script_of bytes.now) }
{
    if bytes.len() > MOST_BYTES {
        return Err(TOO_LONG);
    }
    script_from(alloc, false, bytes)
}

/// The base script of bytes: a script in which a card of an event is no card; or the first card at fault with its cause.
#[tactic(auto, unfolding(crate::specs::Bases::base_of))]
pub fn read_base(alloc: Global, bytes: &[u8]) -> Result<Script, ScriptFault>
    ensures { Reads result (base_of bytes.now) }
{
    if bytes.len() > MOST_BYTES {
        return Err(TOO_LONG);
    }
    script_from(alloc, true, bytes)
}

/// Every base script is a script, so it is in range as all are.
#[tactic(auto, using(crate::proofs::Bases::bases_are_scripts))]
pub fn bases_are_scripts()
    ensures { BasesAreScripts }
{}

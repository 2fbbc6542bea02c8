ghost use Rattle.std.specs.Prelude.{◌≡◌, ◌+◌, ◌≤◌, ◌&&◌, ◌++◌, ◌∷◌, [], OnOk, length, nat_eq, not, option_to_list};
ghost use Rattle.std.specs.List.{list_any};
ghost use Rattle.ctss_types.specs.declared.script.Account as record_of;
ghost use Rattle.program_model.specs.Lines.{words_of_line};
ghost use Rattle.text_model.specs.Cards.{words_card_in};
ghost use Rattle.text_model.specs.Drafts.{is_account_in_limits, is_file_in_limits, is_new_account, is_new_file, is_same_file, empty_file, with_params, with_account, with_last, with_file, with_words, with_text, with_event, with_end, by_form, more_entered, entered_by, entered, empty_draft, is_comment, is_indented};
ghost use Rattle.ctss_types.specs.Params.{params_of};
ghost use Rattle.ctss_types.specs.Words.{word_in, behind_word};
ghost use Rattle.script_read.specs.Drafts.{draft_of, Enters};

use crate::card::{end_card, event_card, file_card, user_card};
use crate::draft::{CardFault, Draft};
use crate::field::{is_over, text_behind};
use crate::files::{fits, has_file, quota, tracks_of};
use crate::params::{are_within, param_card, params};
use crate::words::{add_line, add_words};
use ctss_types::{
    Account, ConsoleNo, Event, FileBody, LineText, NoMemory, OwnedFile, Params, Sequence, Timed,
    UserNo, first_word,
};
use std::alloc::Global;
use text_model::{CardEvent, CardText, EventCard, FileCard, ScriptCause, UserCard};
use word36::Word;

/// The highest tick.
const MAX_TICK: u32 = 100_000_000;

/// What no card says.
pub fn empty_draft(alloc: Global) -> Draft
    ensures { draft_of result ≡ empty_draft }
{
    Draft {
        params: None,
        accounts: Sequence::new(alloc),
        blocks: 0,
        tracks: 0,
        files: Sequence::new(alloc),
        file: None,
        others: 0,
        events: Sequence::new(alloc),
        tick: 0,
        end: None,
    }
}

/// Takes the first card.
fn with_params(draft: &mut Draft, numbers: &[u32]) -> Result<(), CardFault>
    ensures { Enters result (with_params (draft_of draft.old) (params_of numbers.now)) (draft_of draft.new) }
{
    if !are_within(numbers) {
        return Err(CardFault::Refused(ScriptCause::OverLimit));
    }
    let params = params(numbers);
    if params.disk < params.common {
        return Err(CardFault::Refused(ScriptCause::DiskSmall));
    }
    draft.params = Some(params);
    Ok(())
}

/// Whether an account has the name.
fn has_name(accounts: &[Account], name: Word) -> bool
    ensures { result ≡ list_any (λ (x : record_of.Account). nat_eq x.name name) accounts.now }
{
    accounts.iter().any(|account| account.name == name)
}

/// Whether an account of this name may stand here: before all files and events, with a name of its own.
fn is_new_account(draft: &Draft, name: Word) -> bool
    ensures { result ≡ is_new_account (draft_of draft.now) name }
{
    draft.events.is_empty() && has_no_file(draft) && !has_name(draft.accounts.as_slice(), name)
}

/// Whether no file stands yet.
fn has_no_file(draft: &Draft) -> bool
    ensures { result ≡ nat_eq (length (draft.now.files ++ option_to_list draft.now.file)) 0 }
{
    draft.files.is_empty() && draft.file.is_none()
}

/// Whether the numbers of a USER card are in their limits.
fn is_account_in_limits(card: &UserCard) -> bool
    ensures { result ≡ is_account_in_limits card.now }
{
    1 <= card.number
        && card.number <= 30
        && 1 <= card.blocks
        && card.blocks <= 128
        && card.tracks <= 10_000
}

/// Whether a number is the next after a count.
fn is_next(number: u32, count: usize) -> bool
    requires { 1 ≤ number }
    ensures { result ≡ nat_eq number (count + 1) }
{
    number as usize - 1 == count
}

/// Takes an account.
fn with_account(draft: &mut Draft, params: Params, card: &UserCard) -> Result<(), CardFault>
    ensures { Enters result (with_account (draft_of draft.old) params card.now) (draft_of draft.new) }
{
    if !is_new_account(draft, card.name) {
        return Err(CardFault::Refused(ScriptCause::NotACard));
    }
    if !is_account_in_limits(card) {
        return Err(CardFault::Refused(ScriptCause::OverLimit));
    }
    if !is_next(card.number, draft.accounts.len()) {
        return Err(CardFault::Refused(ScriptCause::UnknownNumber));
    }
    if u32::from(params.drum) < u32::from(draft.blocks) + card.blocks {
        return Err(CardFault::Refused(ScriptCause::DrumSmall));
    }
    let tracks = u32::from(params.common) + u32::from(draft.tracks) + card.tracks;
    if u32::from(params.disk) < tracks {
        return Err(CardFault::Refused(ScriptCause::DiskSmall));
    }
    draft.accounts.push(Account {
        name: card.name,
        password: card.password,
        blocks: card.blocks as u8,
        tracks: card.tracks as u16,
    })?;
    draft.blocks += card.blocks as u16;
    draft.tracks += card.tracks as u16;
    Ok(())
}

/// Ends the last file: no more words come to it.
pub fn close_file(draft: &mut Draft) -> Result<(), NoMemory>
    ensures { OnOk result (draft_of draft.new
        ≡ record (draft_of draft.old) { files = draft.old.files ++ option_to_list draft.old.file; file = None }) }
{
    let last = draft.file.take();
    draft.others = 0;
    match last {
        Some(file) => draft.files.push(file),
        None => Ok(()),
    }
}

/// Takes a file behind those that have ended, where its owner's tracks allow it.
fn with_last(draft: &mut Draft, file: OwnedFile) -> Result<(), CardFault>
    ensures { Enters result (with_last (draft_of draft.old) draft.old.files file) (draft_of draft.new) }
{
    let quota = quota(draft.accounts.as_slice(), file.owner);
    let Some(others) = tracks_of(draft.files.as_slice(), file.owner, quota) else {
        return Err(CardFault::Refused(ScriptCause::OverLimit));
    };
    if !fits(others, file.body.words.len(), quota) {
        return Err(CardFault::Refused(ScriptCause::OverLimit));
    }
    draft.others = others;
    draft.file = Some(file);
    Ok(())
}

/// Whether a file may stand behind those that have ended: before all events, with names of its own among its owner's.
fn is_new_file(draft: &Draft, card: &FileCard) -> bool
    ensures { result ≡ (nat_eq (length draft.now.events) 0
        && not (list_any (is_same_file (empty_file card.now)) draft.now.files)) }
{
    draft.events.is_empty() && !has_file(draft.files.as_slice(), card)
}

/// Whether the numbers of a FILE card are in their limits.
fn is_file_in_limits(card: &FileCard) -> bool
    ensures { result ≡ is_file_in_limits card.now }
{
    1 <= card.owner && card.owner <= 30 && card.mode <= 3
}

/// The file of a FILE card, with no words yet.
fn empty_file(alloc: Global, card: &FileCard) -> OwnedFile
    requires owner { (1 ≤ card.now.owner) × (card.now.owner ≤ 30) }
    requires mode { card.now.mode ≤ 3 }
    ensures { result ≡ empty_file card.now }
{
    OwnedFile {
        owner: UserNo::of(card.owner as u8),
        body: FileBody {
            name: card.name,
            mode: card.mode as u8,
            words: Sequence::new(alloc),
        },
    }
}

/// Takes a file.
fn with_file(alloc: Global, draft: &mut Draft, card: &FileCard) -> Result<(), CardFault>
    ensures { Enters result (with_file (draft_of draft.old) card.now) (draft_of draft.new) }
{
    close_file(draft)?;
    if !is_new_file(draft, card) {
        return Err(CardFault::Refused(ScriptCause::NotACard));
    }
    if !is_file_in_limits(card) {
        return Err(CardFault::Refused(ScriptCause::OverLimit));
    }
    if draft.accounts.len() < card.owner as usize {
        return Err(CardFault::Refused(ScriptCause::UnknownNumber));
    }
    with_last(draft, empty_file(alloc, card))
}

/// Takes the words of an O card.
fn with_words(draft: &mut Draft, text: &[u8]) -> Result<(), CardFault>
    ensures { Enters result (by_form (with_words (draft_of draft.old)) (words_card_in text.now)) (draft_of draft.new) }
{
    if !draft.events.is_empty() {
        return Err(CardFault::Refused(ScriptCause::NotACard));
    }
    let Some(mut file) = draft.file.take() else {
        return Err(CardFault::Refused(ScriptCause::NotACard));
    };
    let quota = quota(draft.accounts.as_slice(), file.owner);
    let added = add_words(&mut file.body.words, text);
    let fits = fits(draft.others, file.body.words.len(), quota);
    draft.file = Some(file);
    added?;
    if fits {
        Ok(())
    } else {
        Err(CardFault::Refused(ScriptCause::OverLimit))
    }
}

/// Takes the line of a T card, as 14 words.
fn with_line(draft: &mut Draft, line: &LineText) -> Result<(), CardFault>
    ensures { Enters result (with_words (draft_of draft.old) (words_of_line 14 line.now)) (draft_of draft.new) }
{
    if !draft.events.is_empty() {
        return Err(CardFault::Refused(ScriptCause::NotACard));
    }
    let Some(mut file) = draft.file.take() else {
        return Err(CardFault::Refused(ScriptCause::NotACard));
    };
    let quota = quota(draft.accounts.as_slice(), file.owner);
    let added = add_line(&mut file.body.words, line);
    let fits = fits(draft.others, file.body.words.len(), quota);
    draft.file = Some(file);
    added?;
    if fits {
        Ok(())
    } else {
        Err(CardFault::Refused(ScriptCause::OverLimit))
    }
}

/// Takes the text of a T card.
fn with_text(draft: &mut Draft, text: &CardText) -> Result<(), CardFault>
    ensures { Enters result (with_text (draft_of draft.old) text.now) (draft_of draft.new) }
{
    match text {
        CardText::Fits(line) => with_line(draft, line),
        CardText::TooLong => {
            if draft.file.is_some() && draft.events.is_empty() {
                Err(CardFault::Refused(ScriptCause::OverLimit))
            } else {
                Err(CardFault::Refused(ScriptCause::NotACard))
            }
        }
    }
}

/// Takes an event.
fn with_event(draft: &mut Draft, card: EventCard) -> Result<(), CardFault>
    ensures { Enters result (with_event (draft_of draft.old) card) (draft_of draft.new) }
{
    let EventCard {
        tick,
        console,
        event,
    } = card;
    let CardEvent::Fits(event) = event else {
        return Err(CardFault::Refused(ScriptCause::OverLimit));
    };
    if MAX_TICK < tick || console < 1 || 32 < console {
        return Err(CardFault::Refused(ScriptCause::OverLimit));
    }
    let tick = u64::from(tick);
    if tick < draft.tick {
        return Err(CardFault::Refused(ScriptCause::TimeFalls));
    }
    add_event(draft, tick, console, event)
}

/// Adds an event that is in order.
fn add_event(draft: &mut Draft, tick: u64, console: u32, event: Event) -> Result<(), CardFault>
    requires console { (1 ≤ console) × (console ≤ 32) }
    ensures { Enters result (Ok (record (draft_of draft.old) {
      events = draft.old.events
          ++ record { tick = tick; console = console; event = event } ∷ [];
      tick = tick;
    })) (draft_of draft.new) }
{
    let Some(console) = ConsoleNo::new(console as u8) else {
        unreachable!()
    };
    draft.events.push(Timed {
        tick,
        console,
        event,
    })?;
    draft.tick = tick;
    Ok(())
}

/// Takes the end.
fn with_end(draft: &mut Draft, end: u32) -> Result<(), CardFault>
    ensures { Enters result (with_end (draft_of draft.old) end) (draft_of draft.new) }
{
    if MAX_TICK < end {
        return Err(CardFault::Refused(ScriptCause::OverLimit));
    }
    let end = u64::from(end);
    if end < draft.tick {
        return Err(CardFault::Refused(ScriptCause::TimeFalls));
    }
    draft.end = Some(end);
    Ok(())
}

/// Takes a card behind PARAM.
fn enter_more(
    alloc: Global,
    draft: &mut Draft,
    params: Params,
    word: &[u8],
    text: &[u8],
) -> Result<(), CardFault>
    ensures { Enters result (more_entered (draft_of draft.old) params word.now text.now) (draft_of draft.new) }
{
    if word == b"USER".as_slice() {
        match user_card(text) {
            Some(card) => with_account(draft, params, &card),
            None => Err(CardFault::Refused(ScriptCause::NotACard)),
        }
    } else if word == b"FILE".as_slice() {
        match file_card(text) {
            Some(card) => with_file(alloc, draft, &card),
            None => Err(CardFault::Refused(ScriptCause::NotACard)),
        }
    } else if word == b"O".as_slice() {
        with_words(draft, text)
    } else if word == b"T".as_slice() {
        match text_behind(text) {
            Some(text) => with_text(draft, &text),
            None => Err(CardFault::Refused(ScriptCause::NotACard)),
        }
    } else if word == b"AT".as_slice() {
        match event_card(text) {
            Some(card) => with_event(draft, card),
            None => Err(CardFault::Refused(ScriptCause::NotACard)),
        }
    } else if word == b"END".as_slice() {
        match end_card(text) {
            Some(tick) => with_end(draft, tick),
            None => Err(CardFault::Refused(ScriptCause::NotACard)),
        }
    } else {
        Err(CardFault::Refused(ScriptCause::NotACard))
    }
}

/// Takes the card that is to be PARAM.
fn enter_first(draft: &mut Draft, word: &[u8], text: &[u8]) -> Result<(), CardFault>
    ensures { Enters result (entered_by None (draft_of draft.old) word.now text.now) (draft_of draft.new) }
{
    if word != b"PARAM".as_slice() {
        return Err(CardFault::Refused(ScriptCause::NotACard));
    }
    match param_card(text) {
        Some(numbers) => with_params(draft, &numbers),
        None => Err(CardFault::Refused(ScriptCause::NotACard)),
    }
}

/// Takes a card that is no comment and begins in the first column.
fn enter_card(alloc: Global, draft: &mut Draft, card: &[u8]) -> Result<(), CardFault>
    ensures { Enters result (entered_by draft.old.params (draft_of draft.old) (word_in card.now)
        (behind_word card.now)) (draft_of draft.new) }
{
    let (word, text) = first_word(card);
    match draft.params {
        None => enter_first(draft, word, text),
        Some(params) => enter_more(alloc, draft, params, word, text),
    }
}

/// Whether a card is a comment.
pub(crate) fn is_comment(card: &[u8]) -> bool
    ensures { result ≡ is_comment card.now }
{
    match card {
        [] => true,
        [first, ..] => *first == b'*' || is_over(card),
    }
}

/// Whether a card doesn't begin in the first column.
pub(crate) fn is_indented(card: &[u8]) -> bool
    ensures { result ≡ is_indented card.now }
{
    match card {
        [] => false,
        [first, ..] => *first == b' ',
    }
}

/// Takes a card.
pub fn enter(alloc: Global, draft: &mut Draft, card: &[u8]) -> Result<(), CardFault>
    ensures { Enters result (entered (draft_of draft.old) card.now) (draft_of draft.new) }
{
    if is_comment(card) {
        return Ok(());
    }
    if draft.end.is_some() {
        return Err(CardFault::Refused(ScriptCause::NoEnd));
    }
    if is_indented(card) {
        return Err(CardFault::Refused(ScriptCause::NotACard));
    }
    enter_card(alloc, draft, card)
}

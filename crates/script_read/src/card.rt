ghost use Rattle.std.specs.Prelude.{◌≡◌};
ghost use Rattle.text_model.specs.Cards.{user_card_in, file_card_in, line_event, event_in, event_card_in, end_card_in};

use crate::field::{first_name, first_number, is_over, text_behind};
use ctss_types::{Event, FileName, first_word};
use text_model::{CardEvent, CardText, EventCard, FileCard, UserCard};

/// What a USER card says.
pub fn user_card(text: &[u8]) -> Option<UserCard>
    ensures { result ≡ user_card_in text.now }
{
    let (number, text) = first_number(text)?;
    let Some((name, text)) = first_name(text) else {
        return None;
    };
    let Some((password, text)) = first_name(text) else {
        return None;
    };
    let (blocks, text) = first_number(text)?;
    let (tracks, text) = first_number(text)?;
    if !is_over(text) {
        return None;
    }
    Some(UserCard {
        number,
        name,
        password,
        blocks,
        tracks,
    })
}

/// What a FILE card says.
pub fn file_card(text: &[u8]) -> Option<FileCard>
    ensures { result ≡ file_card_in text.now }
{
    let (owner, text) = first_number(text)?;
    let Some((first, text)) = first_name(text) else {
        return None;
    };
    let Some((second, text)) = first_name(text) else {
        return None;
    };
    let (mode, text) = first_number(text)?;
    if !is_over(text) {
        return None;
    }
    let name = FileName::new(first, second);
    Some(FileCard { owner, name, mode })
}

/// The event of a line that is typed.
fn line_event(text: CardText) -> CardEvent
    ensures { result ≡ line_event text }
{
    match text {
        CardText::Fits(line) => CardEvent::Fits(Event::Line(line)),
        CardText::TooLong => CardEvent::TooLong,
    }
}

/// The event of a word and what stands behind it.
fn event(word: &[u8], text: &[u8]) -> Option<CardEvent>
    ensures { result ≡ event_in word.now text.now }
{
    if word == b"LINE".as_slice() {
        return Some(line_event(text_behind(text)?));
    }
    if !is_over(text) {
        return None;
    }
    if word == b"DIAL".as_slice() {
        Some(CardEvent::Fits(Event::Dial))
    } else if word == b"QUIT".as_slice() {
        Some(CardEvent::Fits(Event::Quit))
    } else if word == b"HANG".as_slice() {
        Some(CardEvent::Fits(Event::Hang))
    } else {
        None
    }
}

/// What an AT card says.
pub fn event_card(text: &[u8]) -> Option<EventCard>
    ensures { result ≡ event_card_in text.now }
{
    let (tick, text) = first_number(text)?;
    let (console, text) = first_number(text)?;
    let (word, text) = first_word(text);
    let event = event(word, text)?;
    Some(EventCard {
        tick,
        console,
        event,
    })
}

/// What the END card says.
pub fn end_card(text: &[u8]) -> Option<u32>
    ensures { result ≡ end_card_in text.now }
{
    let (tick, text) = first_number(text)?;
    if is_over(text) { Some(tick) } else { None }
}

use ctss_types::{Event, FileName, LineText};
use word36::Word;

/// What a USER card says.
#[derive(Clone, Copy, Debug, PartialEq, Eq)]
pub struct UserCard {
    pub number: u32,
    pub name: Word,
    pub password: Word,
    pub blocks: u32,
    pub tracks: u32,
}

/// What a FILE card says.
#[derive(Clone, Copy, Debug, PartialEq, Eq)]
pub struct FileCard {
    pub owner: u32,
    pub name: FileName,
    pub mode: u32,
}

/// The text of a card, without the blanks behind it.
#[derive(Clone, Copy, Debug, PartialEq, Eq)]
pub enum CardText {
    Fits(LineText),
    /// More than 84 characters.
    TooLong,
}

/// The event of a card.
#[derive(Clone, Copy, Debug, PartialEq, Eq)]
pub enum CardEvent {
    Fits(Event),
    /// A line of more than 84 characters.
    TooLong,
}

/// What an AT card says.
#[derive(Clone, Copy, Debug, PartialEq, Eq)]
pub struct EventCard {
    pub tick: u32,
    pub console: u32,
    pub event: CardEvent,
}

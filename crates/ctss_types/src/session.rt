//! Consoles, sessions and services.
use crate::UserNo;
use word36::Word;

/// What ends a session's run of steps from outside. End is the end of the record.
#[derive(Clone, Copy, Debug, PartialEq, Eq)]
pub enum CutKind {
    Quit,
    Hang,
    Spent,
    End,
}

/// How a step that was done leaves its user.
#[derive(Clone, Copy, Debug, PartialEq, Eq)]
pub enum Ending {
    Went,
    Stopped,
    Resized,
    Replaced,
    LoggedOut,
}

/// A console: off, on, waiting for the password of a name, or in the session of a user.
#[derive(Clone, Copy, Debug, PartialEq, Eq)]
pub enum Console {
    Off,
    On,
    Password(Word),
    Session(UserNo),
}

/// An open service: the tick and the level at which it began, and its ticks so far.
#[derive(Clone, Copy, Debug, PartialEq, Eq)]
pub struct Service {
    pub tick: u64,
    pub user: UserNo,
    pub level: u8,
    pub ran: u64,
}

/// A user in the queues, with the ticks that are left of its time, and the tick since which it waits.
#[derive(Clone, Copy, Debug, Default, PartialEq, Eq)]
pub struct Waiting {
    pub user: u8,
    pub left: u64,
    pub since: u64,
}

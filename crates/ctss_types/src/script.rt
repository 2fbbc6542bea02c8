use crate::{ConsoleNo, LineText, OwnedFiles, Sequence};
use word36::Word;

/// The numbers of the machine, as the PARAM card has them in order.
#[derive(Clone, Copy, Debug, PartialEq, Eq)]
pub struct Params {
    /// Words of a level (a program of fewer enters level 0).
    pub wq: u32,
    /// Ticks of level 0's time, which doubles with each level.
    pub quantum: u64,
    /// Ticks for each block to or from the drum.
    pub swap: u64,
    /// Records of the drum, a block each.
    pub drum: u16,
    /// Tracks of the disk.
    pub disk: u16,
    /// Tracks that the common files may take.
    pub common: u16,
    /// Ticks after which a user that waits rises (with 0 nobody does).
    pub age: u64,
}

/// An account: name and password as words padded with blanks, quotas of blocks of core and of tracks.
#[derive(Clone, Copy, Debug, PartialEq, Eq)]
pub struct Account {
    pub name: Word,
    pub password: Word,
    pub blocks: u8,
    pub tracks: u16,
}

/// The accounts in order; the first is user 1.
pub type AccountList = Sequence<Account>;

/// What happens at a console.
#[derive(Clone, Copy, Debug, PartialEq, Eq)]
pub enum Event {
    Dial,
    Line(LineText),
    Quit,
    Hang,
}

/// An event with its tick and its console.
#[derive(Clone, Copy, Debug, PartialEq, Eq)]
pub struct Timed {
    pub tick: u64,
    pub console: ConsoleNo,
    pub event: Event,
}

/// Events in order of their ticks.
pub type TimedList = Sequence<Timed>;

/// A whole script. The run ends where the clock reaches `end`.
#[derive(Clone, Debug, PartialEq, Eq, Drop)]
pub struct Script {
    pub params: Params,
    pub accounts: AccountList,
    pub files: OwnedFiles,
    pub events: TimedList,
    pub end: u64,
}

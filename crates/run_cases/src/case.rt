//! What a case is.
use console_link::LinkAt;
use medium::Damage;
use std::alloc::Global;

/// Bytes that become ready together in a turn.
#[derive(Drop)]
pub(crate) struct Piece {
    pub(crate) turn: u32,
    pub(crate) bytes: Vec<u8>,
}

/// Someone who connects.
#[derive(Drop)]
pub(crate) struct Caller {
    /// The turn from which on the connection can be accepted.
    pub(crate) turn: u32,
    pub(crate) pieces: Vec<Piece>,
    /// The turn from which on it is over, once its bytes are read.
    pub(crate) over: Option<u32>,
    /// The turns whose first read fails.
    pub(crate) fails: Vec<u32>,
}

/// How a stream works: the most bytes of a call, and which calls fail.
#[derive(Drop)]
pub(crate) struct Stream {
    pub(crate) piece: usize,
    pub(crate) fails: Vec<u64>,
}

/// What is wrong with drum or disk: which calls fail, and a word that reads give in place of another.
#[derive(Drop)]
pub(crate) struct Faults {
    pub(crate) fails: Vec<u64>,
    pub(crate) damage: Option<Damage>,
}

impl Faults {
    /// Nothing is wrong.
    pub(crate) fn new(alloc: Global) -> Faults {
        Faults {
            fails: Vec::new(alloc),
            damage: None,
        }
    }
}

/// An object outside whose calls can fail one at a time.
#[derive(Clone, Copy, Debug, PartialEq, Eq)]
pub(crate) enum Device {
    Source,
    Sink,
    Drum,
    Disk,
}

impl Device {
    /// The status of a run of which a call of it failed.
    pub(crate) fn status(self) -> u8 {
        match self {
            Device::Source => 3,
            Device::Sink => 4,
            Device::Drum => 5,
            Device::Disk => 6,
        }
    }
}

/// Each call of a device fails in turn, up to the call with this number.
#[derive(Clone, Copy)]
pub(crate) struct Each {
    pub(crate) device: Device,
    pub(crate) most: u64,
}

/// The program whose words a case has.
#[derive(Clone, Copy)]
pub(crate) enum Program {
    Supervisor,
    Picture,
    Listing,
}

/// A run: the words of the command line or the turns of a server, the text that is read, what fails, and the callers in order.
#[derive(Drop)]
pub(crate) struct Case {
    /// None for a case that stands alone.
    pub(crate) name: Option<String>,
    /// The program that is run.
    pub(crate) program: Program,
    pub(crate) words: Vec<String>,
    pub(crate) turns: Option<u32>,
    pub(crate) text: Vec<u8>,
    pub(crate) source: Stream,
    pub(crate) room: usize,
    pub(crate) sink: Stream,
    pub(crate) drum: Faults,
    pub(crate) disk: Faults,
    /// For how many calls the drum has room, where it is to tell them.
    pub(crate) drum_calls: Option<u64>,
    /// The case is done once for each of these calls, which fails.
    pub(crate) each: Option<Each>,
    pub(crate) callers: Vec<Caller>,
    pub(crate) link_fails: Vec<LinkAt>,
    pub(crate) link_waits: Vec<LinkAt>,
    pub(crate) tells_last: bool,
    pub(crate) tells_calls: bool,
}

impl Case {
    /// No words and no text, and nothing fails.
    pub(crate) fn new(alloc: Global, name: Option<String>) -> Case {
        Case {
            name,
            program: Program::Supervisor,
            words: Vec::new(alloc),
            turns: None,
            text: Vec::new(alloc),
            source: Stream {
                piece: 4096,
                fails: Vec::new(alloc),
            },
            room: 1_000_000,
            sink: Stream {
                piece: 4096,
                fails: Vec::new(alloc),
            },
            drum: Faults::new(alloc),
            disk: Faults::new(alloc),
            drum_calls: None,
            each: None,
            callers: Vec::new(alloc),
            link_fails: Vec::new(alloc),
            link_waits: Vec::new(alloc),
            tells_last: false,
            tells_calls: false,
        }
    }
}

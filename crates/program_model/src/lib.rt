//! Programs: what they ask of the supervisor, and the decks that they are loaded from.
//!
//! The definitions stand in `specs/`: `Calls` (how a call's arguments are read, and what an answer leaves in the
//! registers), `Lines` (lines as words of a program, and back), `Decks` (what a deck says and where its words go), `DebugLines`
//! and `Stops` (the debugger's lines and breakpoints), `CommandLines` (the lines of command files), `Rows` (worked rows). The functions here do nothing: each carries a row.
#![tactic(auto)]

ghost use Rattle.program_model.specs.Rows.{RowOfCalls, RowOfFileCalls, RowOfCommonCalls, RowOfLines, RowOfDecks, RowOfSaved, RowOfDebugLines, RowOfCommandLines};

use ctss_types::FileName;
use thiserror::Error;
use word36::Word;

/// A supervisor entry that a program calls, with its arguments. A variant's comment begins with the entry's name and
/// what stands behind the call. A buffer has `count` words from the address `at` on; `place` is the number of a file's
/// word, from 0. Addresses, counts and modes are below 2^15, places below 2^35. An answer has a reply, and some have a
/// value.
#[derive(Clone, Copy, Debug, PartialEq, Eq)]
pub enum Call {
    /// `RDFLX buffer`: the next line, to 1 to 14 words; value: the number of its characters.
    ReadLine {
        at: u16,
        count: u16,
    },
    /// `WRFLX buffer`: 1 to 14 words, as a line.
    WriteLine {
        at: u16,
        count: u16,
    },
    /// `GETTM`: the clock; value: its tick.
    GetTime,
    /// `GETMEM`: the size of the program; value: the number of its words.
    GetMemory,
    /// `SETMEM blocks`: another size, from 1 block of 256 words to the quota.
    SetMemory {
        blocks: u16,
    },
    /// `FSTAT names`: the size and the mode of a file; value: 4 times its words, plus the mode.
    FileStat {
        name: FileName,
    },
    /// `RDFILE names, buffer, place`: words of a file, from a place on, to the buffer.
    ReadFile {
        name: FileName,
        at: u16,
        count: u16,
        place: u64,
    },
    /// `WRFILE names, buffer, place`: the buffer to a file, from a place on.
    WriteFile {
        name: FileName,
        at: u16,
        count: u16,
        place: u64,
    },
    /// `DELETE names`: the file goes.
    DeleteFile {
        name: FileName,
    },
    /// `RENAME names, names`: the file gets the other names.
    RenameFile {
        name: FileName,
        to: FileName,
    },
    /// `CHMODE names, mode`: the file gets the mode, 0 to 3.
    ChangeMode {
        name: FileName,
        mode: u16,
    },
    /// A call on the common files.
    Common(CommonCall),
    /// `DEAD`: the program is over and goes.
    Dead,
    /// `DORMNT`: the program is over and stays.
    Dormant,
}

/// What a call asks for of a common file, as `Call` has it. With a buffer of more than 432 words nothing is asked.
#[derive(Clone, Copy, Debug, PartialEq, Eq)]
pub enum CommonCall {
    /// `CFSTAT names`: FSTAT of a common file.
    Stat {
        name: FileName,
    },
    /// `CRDFIL names, buffer, place`: RDFILE of a common file, at most 432 words.
    Read {
        name: FileName,
        at: u16,
        count: u16,
        place: u64,
    },
    /// `CWRFIL names, buffer, place`: WRFILE of a common file, at most 432 words.
    Write {
        name: FileName,
        at: u16,
        count: u16,
        place: u64,
    },
    /// `CDELET names`: DELETE of a common file.
    Delete {
        name: FileName,
    },
}

/// Why a call isn't done. It changes nothing.
#[derive(Clone, Copy, Debug, PartialEq, Eq)]
pub enum EntryFault {
    /// No entry has the name.
    NoSuchEntry,
    /// The first address that is outside the program's core, for a buffer its own.
    Outside(u16),
}

/// What a deck's first word says.
#[derive(Clone, Copy, Debug, PartialEq, Eq)]
pub struct Deck {
    /// The address of the first instruction.
    pub start: u16,
    /// The size of the program, from 1 to 128.
    pub blocks: u8,
}

/// Why a program isn't loaded. As text it is what the user reads.
#[derive(Clone, Copy, Debug, PartialEq, Eq, Error)]
pub enum LoadFault {
    #[error("FILE NOT FOUND")]
    NoFile,
    #[error("BAD DECK")]
    BadDeck,
    /// It has more blocks than the user may have.
    #[error("TOO LARGE")]
    TooLarge,
}

/// What is still to be stored into the core of a program that has it.
#[derive(Clone, Copy, Debug, PartialEq, Eq)]
pub enum Fill {
    /// The deck of this file, and where it starts.
    Deck { name: FileName, start: u16 },
    /// The saved program of this file.
    Saved { name: FileName },
}

/// Whether a user has a program, and whether it runs.
#[derive(Clone, Copy, Debug, PartialEq, Eq)]
pub enum ProgramState {
    /// There is none.
    Dead,
    /// There is one, and it doesn't run.
    Dormant,
    /// It runs, or waits for a line.
    Working,
}

/// What a line asks of the debugger.
#[derive(Clone, Copy, Debug, PartialEq, Eq)]
pub enum DebugLine {
    /// A breakpoint is set.
    Break(u16),
    /// A breakpoint is removed.
    Clear(u16),
    /// The program goes on.
    Go,
    /// The word at a place is printed.
    Look(u16),
    /// The registers are printed.
    Regs,
    /// A word is stored at a place.
    Set(u16, Word),
    /// The debugger is closed.
    End,
    /// Any other line.
    Bad,
}

/// Why the lines of a command file aren't added to those unread.
#[derive(Clone, Copy, Debug, PartialEq, Eq)]
pub enum ComRefusal {
    /// A line names an argument that the command doesn't have.
    BadArguments,
    /// A line has more than 84 characters, or there are too many lines.
    TooLong,
}

/// Arguments, bounds and names of calls, and their answers.
#[tactic(auto, using(crate::proofs::RowsComputed::row_of_calls))]
pub fn row_of_calls()
    ensures { RowOfCalls }
{}

/// Calls for files: their arguments, what these point at, and the order in which they are looked at.
#[tactic(auto, using(crate::proofs::RowsComputed::row_of_file_calls))]
pub fn row_of_file_calls()
    ensures { RowOfFileCalls }
{}

/// Lines as words, and words as lines.
#[tactic(auto, using(crate::proofs::RowsComputed::row_of_lines))]
pub fn row_of_lines()
    ensures { RowOfLines }
{}

/// Decks and their faults.
#[tactic(auto, using(crate::proofs::RowsComputed::row_of_decks))]
pub fn row_of_decks()
    ensures { RowOfDecks }
{}

/// Calls that ask for something of a common file.
#[tactic(auto, using(crate::proofs::RowsComputed::row_of_common_calls))]
pub fn row_of_common_calls()
    ensures { RowOfCommonCalls }
{}

/// Saved programs, and what is printed of one that stopped.
#[tactic(auto, using(crate::proofs::RowsComputed::row_of_saved))]
pub fn row_of_saved()
    ensures { RowOfSaved }
{}

/// What lines ask of the debugger.
#[tactic(auto, using(crate::proofs::RowsComputed::row_of_debug_lines))]
pub fn row_of_debug_lines()
    ensures { RowOfDebugLines }
{}

/// Lines of command files with their arguments.
#[tactic(auto, using(crate::proofs::RowsComputed::row_of_command_lines))]
pub fn row_of_command_lines()
    ensures { RowOfCommandLines }
{}

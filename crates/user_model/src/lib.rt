//! One user's inner state and the rows of what a user's step does, as the machine made of rows has them.
//!
//! All of it stands in `specs/`: `Inner` (the state), `Texts` (what is printed), `Requests` (what a line asks for),
//! `OwnFiles` (changes of the directory), `Commands` (what each command comes to, and a line of INPUT), `Programs` (a
//! program's steps), `Session` (the rows) and `User` (the user's machine, closed, as contracts cite it), `Rows` (worked
//! rows).
#![tactic(auto)]

ghost use Rattle.user_model.specs.Rows.{RowOfRequests, RowOfInput, RowOfAssembly, RowOfLinking, RowOfCopies};
ghost use Rattle.user_model.specs.Sessions.{RowOfSessions};
ghost use Rattle.user_model.specs.Plain.{DebuggerIsPlain};
ghost use Rattle.user_model.specs.CommandFiles.{FilesAreTyped};

use ctss_types::FileName;
use word36::Word;

/// What a line asks for, by the table of commands. A variant's comment begins with the line as it is typed; a `Word`
/// has its `name`, a `FileName` its `first second`.
#[derive(Clone, Copy, Debug, PartialEq, Eq)]
pub enum Command {
    /// A line without a word.
    Empty,
    /// `LOGOUT`: the end of the session.
    Logout,
    /// `LOADGO name`: the program in `name BSS` is loaded, and goes.
    LoadGo(Word),
    /// `LISTF`: the files, and the tracks in use.
    List,
    /// `PRINTF first second`: the words of a file as lines.
    Print(FileName),
    /// `RENAME first second first second`: the file gets other names, the last two.
    Rename { name: FileName, to: FileName },
    /// `DELETE first second`: the file goes.
    Delete(FileName),
    /// `CHMODE first second mode`: 0 temporary, 1 permanent, 2 read-only, 3 read-only for good.
    ///
    /// The file gets this mode, a digit; above 3 it is refused.
    ChangeMode { name: FileName, mode: u8 },
    /// `INPUT first second`: the lines that come go into a new file, up to an empty line.
    Input(FileName),
    /// `COPY TO first second`: one's own file is copied to the common files.
    CopyTo(FileName),
    /// `COPY FROM first second`: a common file is copied to one's own.
    CopyFrom(FileName),
    /// `FAP name`: `name FAP` is assembled to the deck `name BSS`, or to the module `name REL`.
    Assemble(Word),
    /// `LINK name module ..`: one to eight modules `module REL` are linked to the deck `name BSS`.
    ///
    /// The value has the deck's name; the modules' are read from the line.
    Link(Word),
    /// `START`: the program that stopped goes on.
    Start,
    /// `SAVE name`: the program that stopped is saved in `name SAVED`.
    Save(Word),
    /// `RESUME name`: the program in `name SAVED` comes back, and goes on.
    Resume(Word),
    /// `PM`: the registers of the program that stopped.
    Registers,
    /// `PM place`: the word at this place of it; places are octal, up to five digits.
    WordAt { place: u16 },
    /// `FAPDBG`: the debugger, on the program that stopped.
    Debug,
    /// `RUNCOM name word ..`: the lines of `name RUNCOM` as if typed, with the words as `$1` to `$9`.
    ///
    /// They come before the lines that are unread. The value has the name; the words are read from the line.
    RunFile(Word),
    /// A known command with words that it doesn't take.
    BadArguments,
    /// A first word that is no command.
    Unknown,
}

/// What lines ask for.
#[tactic(auto, using(crate::proofs::RowsComputed::row_of_requests))]
pub fn row_of_requests()
    ensures { RowOfRequests }
{}

/// A file typed in, step by step.
#[tactic(auto, using(crate::proofs::RowsComputed::row_of_input))]
pub fn row_of_input()
    ensures { RowOfInput }
{}

/// A file of cards assembled.
#[tactic(auto, using(crate::proofs::RowsComputed::row_of_assembly))]
pub fn row_of_assembly()
    ensures { RowOfAssembly }
{}

/// A file of a module's cards assembled, and modules linked.
#[tactic(auto, using(crate::proofs::RowsComputed::row_of_linking))]
pub fn row_of_linking()
    ensures { RowOfLinking }
{}

/// A file copied to the common files, and from them.
#[tactic(auto, using(crate::proofs::RowsComputed::row_of_copies))]
pub fn row_of_copies()
    ensures { RowOfCopies }
{}

/// Under the debugger a program does what it does without it.
#[tactic(auto, using(crate::proofs::PlainLaws::debugger_is_plain))]
pub fn debugger_is_plain()
    ensures { DebuggerIsPlain }
{}

/// The lines of a command file are read as if they had been typed before those unread.
#[tactic(auto, using(crate::proofs::CommandFileLaws::files_are_typed))]
pub fn command_files_are_typed()
    ensures { FilesAreTyped }
{}

/// Sessions with the debugger, and with a command file.
#[tactic(auto, using(crate::proofs::RowsComputed::row_of_sessions))]
pub fn row_of_sessions()
    ensures { RowOfSessions }
{}

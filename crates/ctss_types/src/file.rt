use crate::{FileName, Sequence, UserNo, WordList};
use thiserror::Error;

/// A file: its names, its mode 0 to 3 (temporary, permanent, read-only, read-only for good) and its words.
#[derive(Clone, Debug, PartialEq, Eq, Drop)]
pub struct FileBody {
    pub name: FileName,
    pub mode: u8,
    pub words: WordList,
}

/// A directory's files in order of making.
pub type FileList = Sequence<FileBody>;

/// One list of files for each account.
pub type FileLists = Sequence<FileList>;

/// A file that a script gives to an account.
#[derive(Clone, Debug, PartialEq, Eq, Drop)]
pub struct OwnedFile {
    pub owner: UserNo,
    pub body: FileBody,
}

/// The files of a script in order.
pub type OwnedFiles = Sequence<OwnedFile>;

/// What a user does to the common directory.
#[derive(Clone, Debug, PartialEq, Eq, Drop)]
pub enum CommonOp {
    Stat(FileName),
    Read {
        name: FileName,
        place: u64,
        count: u16,
    },
    Write {
        name: FileName,
        place: u64,
        words: WordList,
    },
    Delete(FileName),
    Put {
        name: FileName,
        words: WordList,
    },
    Get(FileName),
}

/// What the common directory answers. The size of a file is 4 times its words plus its mode.
#[derive(Clone, Debug, PartialEq, Eq, Drop)]
pub enum Reply {
    Done,
    Size(u64),
    Words(WordList),
    Refused(Refusal),
}

/// Why a call on files is refused. The numbers are those that programs get.
#[derive(Clone, Copy, Debug, PartialEq, Eq, Error)]
pub enum Refusal {
    #[error("FILE NOT FOUND")]
    NoFile = 1,
    #[error("READ ONLY")]
    ReadOnly = 2,
    #[error("QUOTA EXCEEDED")]
    Quota = 3,
    #[error("NAME IN USE")]
    NameUsed = 4,
    #[error("PAST END")]
    PastEnd = 5,
    #[error("BAD MODE")]
    BadMode = 6,
    #[error("BAD COUNT")]
    BadCount = 7,
}

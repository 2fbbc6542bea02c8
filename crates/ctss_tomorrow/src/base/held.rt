//! That a record holds words of the machine. Each is one by its type, but a clause knows of a word's range only once the word has
//! been read: so these read them all, and change nothing.
ghost use Rattle.std.specs.Prelude.{◌<◌, ◌^◌};
ghost use Rattle.std.specs.List.{All};
ghost use Rattle.ctss_tomorrow.specs.Laws.{HoldsWords};
ghost use Rattle.ctss_tomorrow.specs.Files.{HaveWords};

use ctss_types::{FileBody, Record};
use word36::Word;

/// All words of a list.
fn are_words(words: &[Word])
    ensures { All (λ w. w < 2 ^ 36) words.now }
{
    for word in words {
        let _ = word.bits();
    }
}

/// All words of files.
fn have_words(files: &[FileBody])
    ensures { HaveWords files.now }
{
    for file in files {
        are_words(file.words.as_slice());
    }
}

/// All words of the files of a record.
pub(crate) fn hold_words(run: &Record)
    ensures { HoldsWords run.now }
{
    let lists = run.files.as_slice();
    for files in lists {
        have_words(files.as_slice());
    }
}

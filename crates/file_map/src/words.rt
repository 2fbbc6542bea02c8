//! Words of a file, and the tracks that they take.
ghost use Rattle.std.specs.Prelude.{◌≡◌, ◌≤◌, ◌<◌, ◌^◌, length, IfOk, OnOk, OnErr};
ghost use Rattle.file_model.specs.Files.{overwritten, tracks_of_words};

use ctss_types::NoMemory;
use std::alloc::Global;
use word36::Word;

/// How many words a track holds.
const TRACK: u64 = 432;

/// How many tracks a file of so many words takes: one at least.
pub(crate) fn tracks_of_words(words: usize) -> u64
    ensures value { result ≡ tracks_of_words words }
    ensures small { result < 2 ^ 57 }
{
    (words as u64).div_ceil(TRACK).max(1)
}

/// The words in other memory.
pub(crate) fn copy_of(alloc: Global, words: &[Word]) -> Result<Vec<Word>, NoMemory>
    ensures { IfOk result (λ copy. copy.items ≡ words.now) }
{
    Ok(Vec::from_slice(alloc, words)?)
}

/// Writes words from a place on, over those that stand there and behind the end. Where memory lacks, all is as before.
pub(crate) fn overwrite(old: &mut Vec<Word>, place: usize, words: &[Word]) -> Result<(), NoMemory>
    requires { place ≤ length old.old.items }
    ensures ok { OnOk result (old.new.items ≡ overwritten place words.now old.old.items) }
    ensures err { OnErr result (old.new.items ≡ old.old.items) }
{
    let inside = words.len().min(old.len() - place);
    let (over, behind) = words.split_at(inside);
    old.extend_from_slice(behind)?;
    old[place..place + inside].copy_from_slice(over);
    Ok(())
}

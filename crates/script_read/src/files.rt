ghost use Rattle.std.specs.Prelude.{◌≡◌, ◌+◌, None, Some, nat_le, if◌then◌else◌};
ghost use Rattle.std.specs.List.{list_any};
ghost use Rattle.file_model.specs.Files.{tracks_of, tracks_of_words};
ghost use Rattle.file_model.specs.Owned.{files_of};
ghost use Rattle.text_model.specs.Drafts.{is_same_file, empty_file, quota_of};

use ctss_types::{Account, OwnedFile, UserNo};
use text_model::FileCard;

/// The words of a track.
const TRACK: usize = 432;

/// The tracks of a file of so many words.
fn tracks_of_words(words: usize) -> usize
    ensures { result ≡ tracks_of_words words }
{
    words.div_ceil(TRACK).max(1)
}

/// Whether a file of so many words keeps a quota beside other tracks.
pub fn fits(others: u16, words: usize, quota: u16) -> bool
    ensures { result ≡ nat_le (others + tracks_of_words words) quota }
{
    usize::from(others) + tracks_of_words(words) <= usize::from(quota)
}

/// The tracks of an owner's files, where they keep its quota.
pub fn tracks_of(files: &[OwnedFile], owner: UserNo, quota: u16) -> Option<u16>
    ensures { result ≡ (if nat_le (tracks_of (files_of owner files.now)) quota then Some
        (tracks_of (files_of owner files.now)) else None) }
{
    let mut tracks = 0;
    for file in files {
        if file.owner == owner {
            let words = file.body.words.len();
            if !fits(tracks, words, quota) {
                return None;
            }
            tracks += tracks_of_words(words) as u16;
        }
    }
    Some(tracks)
}

/// The tracks that a user may have.
pub fn quota(accounts: &[Account], user: UserNo) -> u16
    ensures { result ≡ quota_of user accounts.now }
{
    match accounts.get(usize::from(user.number()) - 1) {
        Some(account) => account.tracks,
        None => 0,
    }
}

/// Whether these have a file of the same owner and names.
pub fn has_file(files: &[OwnedFile], card: &FileCard) -> bool
    ensures { result ≡ list_any (is_same_file (empty_file card.now)) files.now }
{
    files.iter().any(|other| card.owner == u32::from(other.owner.number())
        && card.name == other.body.name)
}

//! Words of files, and the tracks that they take.
ghost use Rattle.std.specs.Prelude.{◌≡◌, ◌<◌, ◌≤◌, ◌+◌, ◌*◌, ◌^◌, [], length, take, vec_capacity, IfOk, MatchBool, MatchOption};
ghost use Rattle.medium.specs.Medium.{AreWords};
ghost use Rattle.file_model.specs.Files.{overwritten, tracks_of_words};

use ctss_types::NoMemory;
use std::alloc::Global;
use word36::Word;

/// The words as words of 36 bits.
pub(crate) fn as_words(alloc: Global, bits: &[u64]) -> Result<Vec<Word>, NoMemory>
    requires { AreWords bits.now }
    ensures { IfOk result (λ v. v.items ≡ bits.now) }
{
    let mut words = Vec::with_capacity(alloc, bits.len())?;
    for word in bits {
        words.push(Word::of(*word))?;
    }
    Ok(words)
}

/// The words as numbers, with zeros behind them up to this many tracks.
pub(crate) fn padded(alloc: Global, words: &[Word], tracks: usize) -> Result<Vec<u64>, NoMemory>
    requires fits { length words.now ≤ 432 * tracks }
    requires small { 432 * tracks < 2 ^ 64 }
    ensures words { IfOk result (λ v. take (length words.now) v.items ≡ words.now) }
    ensures len { IfOk result (λ v. length v.items ≡ 432 * tracks) }
    ensures all { IfOk result (λ v. AreWords v.items) }
{
    let mut bits = Vec::with_capacity(alloc, 432 * tracks)?;
    for word in words {
        bits.push(word.bits())?;
    }
    bits.resize(432 * tracks, 0)?;
    Ok(bits)
}

/// Writes words over others from a place on.
pub(crate) fn overlay(into: &mut [u64], place: usize, words: &[Word])
    requires inside { place + length words.now ≤ length into.old }
    requires all { AreWords into.old }
    ensures over { into.new ≡ overwritten place words.now into.old }
    ensures all { AreWords into.new }
    ensures len { length into.new ≡ length into.old }
{
    'laying: for i in 0..words.len() {
        into[place + i] = words[i].bits();
    }
}

/// An empty list with room for so many tracks.
pub(crate) fn room_for_tracks(alloc: Global, tracks: usize) -> Result<Vec<u16>, NoMemory>
    ensures items { IfOk result (λ v. v.items ≡ []) }
    ensures room { IfOk result (λ v. tracks ≤ vec_capacity v) }
{
    Ok(Vec::with_capacity(alloc, tracks)?)
}

/// These tracks, with room for so many.
pub(crate) fn copied(alloc: Global, tracks: &[u16], count: usize) -> Result<Vec<u16>, NoMemory>
    requires { length tracks.now ≤ count }
    ensures items { IfOk result (λ v. v.items ≡ tracks.now) }
    ensures room { IfOk result (λ v. count ≤ vec_capacity v) }
{
    let mut copy = room_for_tracks(alloc, count)?;
    copy.extend_from_slice(tracks)?;
    Ok(copy)
}

/// How many tracks so many words take: one at least.
pub(crate) fn tracks_for(words: u64) -> u64
    requires { words < 2 ^ 63 }
    ensures value { result ≡ tracks_of_words words }
    ensures enough { words ≤ 432 * result }
    ensures small { 432 * result ≤ words + 863 }
{
    words.div_ceil(432).max(1)
}

/// Tracks in use after `after` of them came for `before`, if they keep the quota.
pub(crate) fn used_after(used: u32, quota: u16, before: u64, after: u64) -> Option<u32>
    requires before { before ≤ used }
    requires after { after < 2 ^ 60 }
    ensures { MatchOption result (quota + before < used + after)
        (λ now. (now + before ≡ used + after) × (now ≤ quota)) }
{
    let now = u64::from(used) - before + after;
    if now <= u64::from(quota) {
        Some(now as u32)
    } else {
        None
    }
}

/// Whether so many words from a place on go past the end of a file.
pub(crate) fn is_past(place: u64, count: u16, words: u64) -> bool
    ensures { MatchBool result (words < place + count) (place + count ≤ words) }
{
    if place > words {
        return true;
    }
    u64::from(count) > words - place
}

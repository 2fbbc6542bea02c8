//! Where the ticks of a record stand in a picture of it.
ghost use Rattle.std.specs.Prelude.{◌≡◌, ◌-◌, ◌*◌, ◌^◌, ◌<◌, ◌≤◌, length};
ghost use Rattle.picture_model.specs.Folds.{cut_of, all_cut, cut_before, places_in, tick_at};

use ctss_types::{Entry, Record};

/// How many ticks of one idle time are shown, at most.
const MOST_IDLE: u64 = 52;

/// The ticks that are cut out of what an entry covers.
pub fn cut_of(entry: &Entry) -> u64
    ensures { result ≡ cut_of entry.now }
{
    match entry {
        Entry::Idle { from, until } => until.saturating_sub(*from).saturating_sub(MOST_IDLE),
        _ => 0,
    }
}

/// Where a tick stands, where so many are cut out before it.
pub fn place_of(tick: u64, cut: u128) -> u64
    ensures { result ≡ tick - cut }
{
    u128::from(tick).saturating_sub(cut) as u64
}

/// How many ticks are cut out of all that these entries cover.
fn all_cut(entries: &[Entry]) -> u128
    ensures { result ≡ all_cut entries.now }
{
    let mut cut: u128 = 0;
    for entry in entries {
        cut += u128::from(cut_of(entry));
    }
    cut
}

/// How many places a record has.
pub fn places_in(run: &Record) -> u64
    ensures { result ≡ places_in run.now }
{
    place_of(run.clock, all_cut(run.entries.as_slice()))
}

/// How many ticks are cut out before a place: those of the idle times that end there or before.
fn cut_before(place: u128, entries: &[Entry]) -> u128
    ensures cut { result ≡ cut_before place 0 entries.now }
    ensures below { result ≤ 2 ^ 64 * length entries.now }
{
    let mut cut: u128 = 0;
    for entry in entries {
        if let Entry::Idle { until, .. } = entry {
            let behind = cut + u128::from(cut_of(entry));
            if u128::from(*until).saturating_sub(behind) > place {
                return cut;
            }
            cut = behind;
        }
    }
    cut
}

/// The tick at a place.
pub fn tick_at(place: u128, entries: &[Entry]) -> u128
    requires { place < 2 ^ 127 }
    ensures { result ≡ tick_at place entries.now }
{
    place + cut_before(place, entries)
}

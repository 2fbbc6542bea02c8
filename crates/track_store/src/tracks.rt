//! Which tracks of a disk are taken.
ghost use Rattle.std.specs.Prelude.{◌≡◌, ◌<◌, ◌+◌, ◌^◌, length, vec_len, true, false, replicate, slice_set, IfOk, OnOk, OnErr};
ghost use Rattle.track_store.specs.Tracks.{first_free, count_taken, is_taken};

use faults::NoMemory;
use std::alloc::Global;
use std::error::Error;
use std::fmt;

/// All tracks are taken.
#[derive(Clone, Copy, Debug, PartialEq, Eq, Hash)]
pub struct NoTrack;

impl fmt::Display for NoTrack {
    ghost use Rattle.std.specs.Prelude.{Some, codes};

    ghost output = { λ _. Some (codes "all tracks are taken") };

    fn fmt<W: fmt::Write>(&self, f: &mut fmt::Formatter<W>) -> fmt::Result {
        f.write_str("all tracks are taken")
    }
}

impl Error for NoTrack {}

/// Which tracks are taken. Tracks are numbered from 0.
#[derive(Drop)]
pub struct Tracks {
    taken: Vec<bool>,
    ghost size: { vec_len taken < 2 ^ 16 },
}

/// The place of the first `false`, or the length.
fn first_clear(taken: &[bool]) -> usize
    ensures { result ≡ first_free taken.now }
{
    for (at, is_taken) in taken.iter().enumerate() {
        if !*is_taken {
            return at;
        }
    }
    taken.len()
}

impl Tracks {
    /// So many tracks, all free.
    pub fn new(alloc: Global, tracks: u16) -> Result<Tracks, NoMemory>
        ensures { IfOk result (λ t. t.taken.items ≡ replicate tracks false) }
    {
        Ok(Tracks {
            taken: vec![in alloc; false; tracks as usize]?,
        })
    }

    /// Takes the first free track.
    #[tactic(auto, using(crate::proofs::Taken::found, crate::proofs::Taken::found_below, crate::proofs::Taken::found_counts, crate::proofs::Taken::full))]
    pub fn take(&mut self) -> Result<u16, NoTrack>
        ensures track { IfOk result (λ t. t ≡ first_free self.old.taken.items) }
        ensures inside { IfOk result (λ t. t < length self.old.taken.items) }
        ensures free { IfOk result (λ t. is_taken self.old.taken.items t ≡ false) }
        ensures taken { IfOk result (λ t. self.new.taken.items ≡ slice_set self.old.taken.items t true) }
        ensures count { OnOk result (count_taken self.new.taken.items ≡ count_taken self.old.taken.items + 1) }
        ensures full { OnErr result (count_taken self.old.taken.items ≡ length self.old.taken.items) }
        ensures err { OnErr result (self.new ≡ self.old) }
    {
        let at = first_clear(&self.taken);
        if at == self.taken.len() {
            return Err(NoTrack);
        }
        self.taken[at] = true;
        Ok(at as u16)
    }

    /// Gives a track back.
    #[tactic(auto, using(crate::proofs::Taken::given_counts, crate::proofs::Taken::taken_below))]
    pub fn give(&mut self, track: u16)
        requires { is_taken self.old.taken.items track ≡ true }
        ensures taken { self.new.taken.items ≡ slice_set self.old.taken.items track false }
        ensures count { count_taken self.old.taken.items ≡ count_taken self.new.taken.items + 1 }
    {
        self.taken[track as usize] = false;
    }
}

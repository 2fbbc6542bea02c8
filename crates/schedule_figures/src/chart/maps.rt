//! Whose each place of core is after each load of a run, kept in parts of one user each: two bytes a part, where there are
//! 128 places.
ghost use Rattle.std.specs.Prelude.{◌≡◌, ◌<◌, ◌≤◌, ◌+◌, ◌-◌, ◌++◌, ◌∷◌, [], length, map, take, drop, replicate, slice_index_or, vec_len, vec_capacity, OnOk, OnErr};
ghost use Rattle.picture_model.specs.Cores.{owner_in};
ghost use Rattle.picture_model.specs.CorePanel.{first_owners, owners_after};
ghost use Rattle.schedule_figures.specs.Maps.{Lays, start_in, users_of};

use ctss_types::{Entry, NoMemory};
use std::alloc::Global;
use std::marker::Model;

/// So many places of core, one behind another, of one user; user 0 is nobody.
#[derive(Clone, Copy)]
pub struct CorePart {
    pub user: u8,
    pub count: u8,
}

/// How many places from one on are all of its user.
fn count_from(owners: &[u8; 128], place: u8) -> u8
    requires { place < 128 }
    ensures some { 0 < result }
    ensures within { place + result ≤ 128 }
    ensures same { take (place + result) owners.now
        ≡ take place owners.now ++ replicate result (slice_index_or owners.now place 0) }
{
    let user = owners[place as usize];
    for next in place + 1..128 {
        if owners[next as usize] != user {
            return next - place;
        }
    }
    128 - place
}

/// Puts the parts of a core with these owners behind others.
fn lay(parts: &mut Vec<CorePart>, owners: &[u8; 128])
    requires { vec_len parts.old + 128 ≤ vec_capacity parts.old }
    ensures { Lays owners.now parts.old.items parts.new.items }
{
    let mut place: u8 = 0;
    'parts: while place < 128 {
        let user = owners[place as usize];
        let count = count_from(owners, place);
        let _ = parts.push(CorePart { user, count });
        place += count;
    }
}

/// Where the parts of a load begin.
fn start_in(ends: &[usize], load: usize) -> usize
    requires { load < length ends.now }
    ensures { result ≡ start_in ends.now load }
{
    if load == 0 { 0 } else { ends[load - 1] }
}

/// So many of the parts, from one on.
fn between(parts: &[CorePart], from: usize, until: usize) -> &[CorePart]
    requires order { from ≤ until }
    requires within { until ≤ length parts.now }
    ensures { result.now ≡ take (until - from) (drop from parts.now) }
{
    &parts[from..until]
}

/// Whose each place of core is after each load, in the order of the loads. In clauses it is a list of 128 users' numbers for
/// each load, 0 for nobody's.
#[derive(Drop)]
pub struct CoreMaps {
    parts: Vec<CorePart>,
    ends: Vec<usize>,
}

impl Model for CoreMaps {
    ghost use Rattle.std.specs.Prelude.{ℕ, List, length};
    ghost use Rattle.schedule_figures.specs.Maps.{maps_in, AreEnds};

    ghost Value = { List (List ℕ) };

    ghost view = { λ m. maps_in 0 m.ends.items m.parts.items };

    ghost invariant = { λ m. AreEnds 0 m.ends.items (length m.parts.items) };
}

impl CoreMaps {
    /// No load.
    pub fn new(alloc: Global) -> CoreMaps
        ensures { result ≡ [] }
    {
        CoreMaps {
            parts: Vec::new(alloc),
            ends: Vec::new(alloc),
        }
    }

    /// How many loads there are.
    pub fn count(&self) -> usize
        ensures { result ≡ length self.now }
    {
        self.ends.as_slice().len()
    }

    /// One load more, behind which each place is this user's. Without memory there are as many as before.
    pub fn push(&mut self, owners: &[u8; 128]) -> Result<(), NoMemory>
        ensures ok { OnOk result (self.new ≡ self.old ++ owners.now ∷ []) }
        ensures err { OnErr result (self.new ≡ self.old) }
    {
        self.parts.reserve(128)?;
        self.ends.reserve(1)?;
        lay(&mut self.parts, owners);
        let _ = self.ends.push(self.parts.len());
        Ok(())
    }

    /// The parts of core after a load; none where there are not so many loads.
    pub fn behind(&self, load: usize) -> &[CorePart]
        ensures { owner_in (users_of result.now) ≡ first_owners (map owner_in (drop load self.now)) }
    {
        let ends = self.ends.as_slice();
        if load >= ends.len() {
            return &[];
        }
        between(&self.parts, start_in(ends, load), ends[load])
    }

    /// The load that comes next behind an entry, where this one came next before it.
    pub fn after(&self, entry: &Entry, load: usize) -> usize
        ensures { map owner_in (drop result self.now) ≡ owners_after entry.now (map owner_in (drop load self.now)) }
    {
        if let Entry::Swap { .. } = entry {
            if load < self.count() {
                return load + 1;
            }
        }
        load
    }
}

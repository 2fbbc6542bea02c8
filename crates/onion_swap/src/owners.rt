//! The owners of the 128 places of core, and where each user's blocks lie.
ghost use Rattle.std.specs.Prelude.{◌≡◌, ◌≢◌, ◌<◌, ◌≤◌, ◌+◌, ◌-◌, ℕ, length, slice_set, slice_index_or, nat_eq, nat_lt, nat_le, ◌&&◌, Some, None, false, IfSome, IsSome, IsTrue, ◌↔◌};
ghost use Rattle.plan_model.specs.Loads.{count_below, owned, is_other, others_from, first_least, is_moved, stays, base_for, dumps, reads, clears};
ghost use Rattle.onion_swap.specs.Places.{Layout, first_layout, owner_of, base_of, IsLayout, places_of};
ghost use Rattle.onion_swap.specs.Brought.{comes_back, comes_fresh};

use ctss_types::UserNo;
use std::marker::Model;

const CORE_PLACES: u8 = 128;

/// Where the blocks of a user that is loaded are to lie, and how many blocks that moves.
#[derive(Clone, Copy, Debug, PartialEq, Eq)]
pub struct Plan {
    /// The place of the first block.
    pub base: u8,
    /// Whether the user's own blocks have to go to the drum before, since they lie too far back.
    pub moved: bool,
    /// Blocks of the user and of others that go to the drum.
    pub dumped: u8,
    /// Blocks of the user that come from the drum.
    pub read: u8,
    /// Blocks of the user that come up as plus zeros.
    pub fresh: u8,
}

/// The owner of each of the 128 places of core, a user's number or 0 for none, and each user's base: its block b lies at
/// the place base + b, where it is in core. In clauses it is the two lists.
#[derive(Drop)]
pub struct Owners {
    owners: [u8; 128],
    // By user number.
    bases: [u8; 31],
}

impl Model for Owners {
    ghost use Rattle.onion_swap.specs.Places.{Layout, IsLayout};

    ghost Value = { Layout };

    ghost view = { λ o. record { owners = o.owners; bases = o.bases } };

    ghost invariant = { λ o. IsLayout (record { owners = o.owners; bases = o.bases }) };
}

impl Owners {
    /// No place has an owner.
    pub fn new() -> Owners
        ensures value { result ≡ first_layout }
    {
        Owners {
            owners: [0; 128],
            bases: [0; 31],
        }
    }

    /// The owner of a place, or 0.
    pub fn owner(&self, place: u8) -> u8
        requires { place < 128 }
        ensures { result ≡ owner_of self.now.owners place }
    {
        self.owners[place as usize]
    }

    /// The owners of all places, 0 for none.
    pub fn owners(&self) -> [u8; 128]
        ensures { result ≡ self.now.owners }
    {
        self.owners
    }

    /// The place of a user's block, where that is in core.
    pub fn place(&self, user: UserNo, block: u8) -> u8
        requires { base_of self.now.bases user + block < 128 }
        ensures { result ≡ base_of self.now.bases user + block }
    {
        self.bases[user.number() as usize] + block
    }

    /// The block of a user that lies at a place.
    pub fn block(&self, user: UserNo, place: u8) -> u8
        requires { base_of self.now.bases user ≤ place }
        ensures { result ≡ place - base_of self.now.bases user }
    {
        place - self.bases[user.number() as usize]
    }

    /// Whether a user's block is in core.
    pub fn has(&self, user: UserNo, block: u8) -> bool
        ensures { IsTrue result ↔ (owner_of self.now.owners (base_of self.now.bases user + block) ≡ user) }
    {
        let place = self.bases[user.number() as usize] as usize + block as usize;
        if place < 128 {
            self.owners[place] == user.number()
        } else {
            false
        }
    }

    /// Where a user's blocks lie, if it owns any place.
    pub fn base(&self, user: UserNo) -> Option<u8>
        ensures owns { IsSome result ↔ (0 < owned (owner_of self.now.owners) user) }
        ensures value { IfSome result (λ base. base ≡ base_of self.now.bases user) }
    {
        if self.owned(user) > 0 {
            Some(self.bases[user.number() as usize])
        } else {
            None
        }
    }

    /// Whether a user's blocks below `blocks` are to lie where they lie: it owns places, and they end within core.
    pub fn stays(&self, user: UserNo, blocks: u8) -> bool
        ensures { result ≡ (nat_lt 0 (owned (owner_of self.now.owners) user)
            && nat_le (base_of self.now.bases user + blocks) 128) }
    {
        let own = self.owned(user);
        let start = self.start(user);
        may_stay(own, start, blocks)
    }

    /// Has the blocks of a user, none of which is in core, lie from a place on.
    pub fn settle(&mut self, user: UserNo, base: u8)
        requires none { (place : ℕ) → owner_of self.old.owners place ≢ user }
        requires inside { base < 128 }
        ensures owners { self.new.owners ≡ self.old.owners }
        ensures bases { self.new.bases ≡ slice_set self.old.bases user base }
    {
        self.bases[user.number() as usize] = base;
    }

    /// Gives the place of a user's block to the user.
    pub fn set(&mut self, user: UserNo, block: u8)
        requires { base_of self.old.bases user + block < 128 }
        ensures owners { self.new.owners
            ≡ slice_set self.old.owners (base_of self.old.bases user + block) user }
        ensures bases { self.new.bases ≡ self.old.bases }
    {
        self.owners[(self.bases[user.number() as usize] + block) as usize] = user.number();
    }

    /// Leaves a place without an owner.
    pub fn empty(&mut self, place: u8)
        requires { place < 128 }
        ensures owners { self.new.owners ≡ slice_set self.old.owners place 0 }
        ensures bases { self.new.bases ≡ self.old.bases }
    {
        self.owners[place as usize] = 0;
    }

    /// Takes a user's blocks from this one on away from it.
    pub fn give_up(&mut self, user: UserNo, from: u8)
        ensures gone { (place : ℕ) → base_of self.old.bases user + from ≤ place
            → owner_of self.old.owners place ≡ user → owner_of self.new.owners place ≡ 0 }
        ensures others { (place : ℕ) → owner_of self.old.owners place ≢ user
            → owner_of self.new.owners place ≡ owner_of self.old.owners place }
        ensures below { (place : ℕ) → place < base_of self.old.bases user + from
            → owner_of self.new.owners place ≡ owner_of self.old.owners place }
        ensures len { length self.new.owners ≡ length self.old.owners }
        ensures bases { self.new.bases ≡ self.old.bases }
    {
        let first = self.bases[user.number() as usize] as usize + from as usize;
        'giving: for place in first..128 {
            if self.owners[place] == user.number() {
                self.owners[place] = 0;
            }
        }
    }

    /// Where a user's blocks below `blocks` are to lie and what their load moves, where `kept` says which of them have a
    /// copy on the drum.
    pub fn plan(&self, user: UserNo, blocks: u8, kept: &[bool; 128]) -> Plan
        requires { blocks ≤ 128 }
        ensures base { result.base ≡ base_for (places_of self.now kept.now) user blocks }
        ensures place { result.base < 128 }
        ensures inside { result.base + blocks ≤ 128 }
        ensures moved { result.moved ≡ is_moved (places_of self.now kept.now) user blocks }
        ensures dumped { result.dumped ≡ dumps (places_of self.now kept.now) user blocks }
        ensures read { result.read ≡ reads (places_of self.now kept.now) user blocks }
        ensures fresh { result.fresh ≡ clears (places_of self.now kept.now) user blocks }
    {
        // So it is known that the number is not 0.
        let _number = user.number();
        let own = self.owned(user);
        let start = self.start(user);
        let stay = may_stay(own, start, blocks);
        let (read, fresh) = self.brought(user, blocks, kept, stay);
        if stay {
            return Plan {
                base: start,
                moved: false,
                dumped: self.others(user, start, blocks),
                read,
                fresh,
            };
        }
        let base = self.least(user, blocks);
        let others = self.others(user, base, blocks);
        Plan {
            base,
            moved: own > 0,
            dumped: own + others,
            read,
            fresh,
        }
    }

    /// A user's base.
    fn start(&self, user: UserNo) -> u8
        ensures value { result ≡ base_of self.now.bases user }
        ensures place { result < 128 }
    {
        self.bases[user.number() as usize]
    }

    /// How many places a user owns.
    fn owned(&self, user: UserNo) -> u8
        ensures value { result ≡ owned (owner_of self.now.owners) user }
        ensures most { result ≤ 128 }
    {
        let mut count = 0;
        'counting: for place in 0..CORE_PLACES {
            if self.owners[place as usize] == user.number() {
                count += 1;
            }
        }
        count
    }

    /// Whether a place has an owner, and not this user.
    fn is_other(&self, user: UserNo, place: u8) -> bool
        requires { place < 128 }
        ensures { result ≡ is_other (owner_of self.now.owners place) user }
    {
        let owner = self.owners[place as usize];
        owner != user.number() && owner != 0
    }

    /// How many of so many places from one on others own.
    fn others(&self, user: UserNo, from: u8, blocks: u8) -> u8
        requires { from + blocks ≤ 128 }
        ensures value { result ≡ others_from (owner_of self.now.owners) user blocks from }
        ensures most { result ≤ blocks }
    {
        let mut count = 0;
        'counting: for k in 0..blocks {
            if self.is_other(user, from + k) {
                count += 1;
            }
        }
        count
    }

    /// How many of so many places from the next one on others own, where it is known of those from this one on.
    fn slid(&self, user: UserNo, from: u8, blocks: u8, count: u8) -> u8
        requires inside { from + blocks < 128 }
        requires count { count ≡ others_from (owner_of self.now.owners) user blocks from }
        requires most { count ≤ blocks }
        ensures value { result ≡ others_from (owner_of self.now.owners) user blocks (from + 1) }
        ensures most { result ≤ blocks }
    {
        let last = self.is_other(user, from + blocks);
        let first = self.is_other(user, from);
        if first == last {
            return count;
        }
        if last { count + 1 } else { count - 1 }
    }

    /// The first place on from which others own the fewest of so many.
    fn least(&self, user: UserNo, blocks: u8) -> u8
        requires { blocks ≤ 128 }
        ensures value { result
            ≡ first_least (128 - blocks) (others_from (owner_of self.now.owners) user blocks) }
        ensures place { result < 128 }
        ensures inside { result + blocks ≤ 128 }
    {
        let mut base = 0;
        let mut fewest = self.others(user, 0, blocks);
        let mut count = fewest;
        'sliding: for from in 0..CORE_PLACES - blocks {
            count = self.slid(user, from, blocks, count);
            if count < fewest {
                base = from + 1;
                fewest = count;
            }
        }
        base
    }

    /// How many of a user's blocks come from the drum and how many as plus zeros, where those in core stay or are dumped.
    fn brought(&self, user: UserNo, blocks: u8, kept: &[bool; 128], stays: bool) -> (u8, u8)
        requires { blocks ≤ 128 }
        ensures read { result.0 ≡ count_below blocks (λ b. comes_back stays
            (nat_eq (owner_of self.now.owners (base_of self.now.bases user + b)) user)
            (slice_index_or kept.now b false)) }
        ensures fresh { result.1 ≡ count_below blocks (λ b. comes_fresh
            (nat_eq (owner_of self.now.owners (base_of self.now.bases user + b)) user)
            (slice_index_or kept.now b false)) }
    {
        let mut read = 0;
        let mut fresh = 0;
        'bringing: for b in 0..blocks {
            let here = self.has(user, b);
            if here && stays {
                continue;
            }
            if here || kept[b as usize] {
                read += 1;
            } else {
                fresh += 1;
            }
        }
        (read, fresh)
    }
}

/// Whether a user that owns so many places stays at its base with so many blocks.
fn may_stay(own: u8, base: u8, blocks: u8) -> bool
    ensures { result ≡ (nat_lt 0 own && nat_le (base + blocks) 128) }
{
    own > 0 && base as usize + blocks as usize <= 128
}

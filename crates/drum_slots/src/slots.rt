//! Which record of a drum keeps which block.
ghost use Rattle.std.specs.Prelude.{◌≡◌, ◌≢◌, ◌<◌, ◌≤◌, ◌^◌, ◌↔◌, ℕ, ◌∷◌, length, vec_len, sum, true, false, None, Some, replicate, slice_set, slice_index_or, IfOk, IsTrue, IsSome};
ghost use Rattle.drum_slots.specs.Keys.{key, quota_of};
ghost use Rattle.drum_slots.specs.Slots.{IsSlots, slot_of, first_free, count_kept};

use ctss_types::UserNo;
use faults::NoMemory;
use std::alloc::Global;

/// The record of each block that is kept, and which records are free. Records are numbered from 0.
///
/// Each user has a quota, and a place for each block below it: the places of user 1 come first, then
/// those of user 2, and so on. A block has a record of its own, or none.
#[derive(Drop)]
pub struct Slots {
    slots: Vec<Option<u16>>,
    free: Vec<bool>,
    // By user number, so that of number 0, which is nobody's, is 0.
    quotas: Vec<u8>,
    ghost sound: { IsSlots slots.items free.items },
    ghost size: { vec_len free < 2 ^ 16 },
    ghost places: { length slots.items ≡ sum quotas.items },
}

impl Slots {
    /// Slots for users 1, 2, 3 and on with these quotas, in blocks, in so many records. No block is
    /// kept.
    pub fn new(alloc: Global, records: u16, quotas: &[u8]) -> Result<Slots, NoMemory>
        requires { sum quotas.now ≤ records }
        ensures slots { IfOk result (λ s. s.slots.items ≡ replicate (sum quotas.now) None) }
        ensures none { IfOk result (λ s. (k : ℕ) → slot_of s.slots.items k ≡ None) }
        ensures free { IfOk result (λ s. s.free.items ≡ replicate records true) }
        ensures quotas { IfOk result (λ s. s.quotas.items ≡ 0 ∷ quotas.now) }
    {
        let places = total(quotas);
        let slots = vec![in alloc; None; places]?;
        let free = vec![in alloc; true; records as usize]?;
        let quotas = by_number(alloc, quotas)?;
        Ok(Slots {
            slots,
            free,
            quotas,
        })
    }

    /// How many blocks a user may have.
    fn quota(&self, user: UserNo) -> u8
        requires { user < length self.now.quotas.items }
        ensures { result ≡ quota_of self.now.quotas.items user }
    {
        self.quotas[user.number() as usize]
    }

    /// The place of a user's block.
    pub(crate) fn key(&self, user: UserNo, block: u8) -> u16
        requires { block < quota_of self.now.quotas.items user }
        ensures value { result ≡ key self.now.quotas.items user block }
        ensures inside { result < length self.now.slots.items }
    {
        let start = total(&self.quotas[..user.number() as usize]);
        (start + block as usize) as u16
    }

    /// The record of the block with this place.
    pub(crate) fn slot(&self, place: u16) -> Option<u16>
        requires { place < length self.now.slots.items }
        ensures { result ≡ slot_of self.now.slots.items place }
    {
        self.slots[place as usize]
    }

    /// The least free record.
    pub(crate) fn first_free(&self) -> u16
        requires { count_kept self.now.slots.items < length self.now.slots.items }
        ensures value { result ≡ first_free self.now.free.items }
        ensures inside { result < length self.now.free.items }
        ensures is_free { slice_index_or self.now.free.items result true ≡ true }
    {
        first_set(&self.free) as u16
    }

    /// Keeps the block with this place in a free record.
    pub(crate) fn keep(&mut self, place: u16, at: u16)
        requires inside { place < length self.old.slots.items }
        requires empty { slot_of self.old.slots.items place ≡ None }
        requires at { at < length self.old.free.items }
        requires is_free { slice_index_or self.old.free.items at true ≡ true }
        ensures slots { self.new.slots.items ≡ slice_set self.old.slots.items place (Some at) }
        ensures free { self.new.free.items ≡ slice_set self.old.free.items at false }
        ensures quotas { self.new.quotas ≡ self.old.quotas }
    {
        self.slots[place as usize] = Some(at);
        self.free[at as usize] = false;
    }

    /// Keeps the block with this place no more, and frees its record.
    pub(crate) fn release(&mut self, place: u16, at: u16)
        requires inside { place < length self.old.slots.items }
        requires at { at < length self.old.free.items }
        requires kept { slot_of self.old.slots.items place ≡ Some at }
        ensures slots { self.new.slots.items ≡ slice_set self.old.slots.items place None }
        ensures free { self.new.free.items ≡ slice_set self.old.free.items at true }
        ensures quotas { self.new.quotas ≡ self.old.quotas }
    {
        self.slots[place as usize] = None;
        self.free[at as usize] = true;
    }

    /// Keeps the block with this place no more, if it is kept.
    fn free_at(&mut self, place: u16)
        requires { place < length self.old.slots.items }
        ensures gone { slot_of self.new.slots.items place ≡ None }
        ensures others { (k : ℕ) → k ≢ place
            → slot_of self.new.slots.items k ≡ slot_of self.old.slots.items k }
        ensures records { length self.new.free.items ≡ length self.old.free.items }
        ensures quotas { self.new.quotas ≡ self.old.quotas }
    {
        if let Some(at) = self.slot(place) {
            self.release(place, at);
        }
    }

    /// Keeps a user's blocks from this one on no more.
    pub(crate) fn free_from(&mut self, user: UserNo, block: u8)
        requires { user < length self.old.quotas.items }
        ensures gone { (b : ℕ) → block ≤ b → b < quota_of self.old.quotas.items user
            → slot_of self.new.slots.items (key self.old.quotas.items user b) ≡ None }
        ensures others { (k : ℕ)
            → ((b : ℕ) → block ≤ b → b < quota_of self.old.quotas.items user
            → k ≢ key self.old.quotas.items user b)
            → slot_of self.new.slots.items k ≡ slot_of self.old.slots.items k }
        ensures records { length self.new.free.items ≡ length self.old.free.items }
        ensures quotas { self.new.quotas ≡ self.old.quotas }
    {
        'giving: for b in block..self.quota(user) {
            let place = self.key(user, b);
            self.free_at(place);
        }
    }
}

/// The quotas of users 1, 2, 3 and on by user number.
fn by_number(alloc: Global, quotas: &[u8]) -> Result<Vec<u8>, NoMemory>
    ensures { IfOk result (λ v. v.items ≡ 0 ∷ quotas.now) }
{
    let mut numbered = vec![in alloc; 0u8]?;
    numbered.extend_from_slice(quotas)?;
    Ok(numbered)
}

/// The place of the first `true`, or the length.
fn first_set(free: &[bool]) -> usize
    ensures { result ≡ first_free free.now }
{
    for (at, is_free) in free.iter().enumerate() {
        if *is_free {
            return at;
        }
    }
    free.len()
}

/// The sum of these.
fn total(quotas: &[u8]) -> usize
    requires { sum quotas.now < 2 ^ 16 }
    ensures { result ≡ sum quotas.now }
{
    let mut total = 0;
    for quota in quotas {
        total += *quota as usize;
    }
    total
}

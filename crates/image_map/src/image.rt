//! What each user has in core and on the drum.
ghost use Rattle.std.specs.Prelude.{◌≡◌, ◌≢◌, ◌⊎◌, ◌<◌, ◌≤◌, ◌+◌, ◌↔◌, ℕ, [], length, sum, true, false, None, replicate, IfOk, OnOk, IsSome, IsTrue};
ghost use Rattle.std.specs.List.{All};
ghost use Rattle.core_bank.specs.Bank.{AreWords, block_at};
ghost use Rattle.drum_slots.specs.Kept.{ServesSlots};
ghost use Rattle.drum_slots.specs.Slots.{slot_of};
ghost use Rattle.drum_slots.specs.Table.{slots_of, quota_in, record_of};
ghost use Rattle.onion_swap.specs.Places.{owner_of};
ghost use Rattle.plan_model.specs.Loads.{core_places, stays, is_moved, base_for, dumps, reads, clears, is_loaded, loaded};
ghost use Rattle.image_map.specs.Images.{size_of, IsResident, IsImage};
ghost use Rattle.image_map.specs.Loads.{bases_before};
ghost use Rattle.image_map.specs.Places.{places_of};

use crate::port::Port;
use crate::transfer::read_block;
use core_bank::Bank;
use ctss_types::UserNo;
use drum_slots::{DrumFault, SlotTable, Slots};
use faults::NoMemory;
use medium::Medium;
use onion_swap::{Owners, Plan};
use std::alloc::Global;

const CORE_PLACES: u8 = 128;

/// Size 0 for number 0, which is nobody's, and for so many users.
pub fn no_sizes(alloc: Global, users: usize) -> Result<Vec<u8>, NoMemory>
    requires { users ≤ 30 }
    ensures { IfOk result (λ v. v.items ≡ replicate (users + 1) 0) }
{
    Ok(vec![in alloc; 0u8; users + 1]?)
}

/// The images of up to 30 users over a core and a drum that is handed in.
///
/// A user's image is a list of blocks of 256 words, as many as its size, which is at most its quota.
/// Each block lies in core, at the place base + its number, where the user owns that; else in a record of
/// the drum; and else it is plus zeros. Where the drum tells its records, clauses name the image by
/// `image_in`. After a drum fault nothing but `failed`, `owners`, `size`, `resident` and `back` may be asked.
#[derive(Drop)]
pub struct Image<'a, D: Medium> {
    tables: Tables<'a, D>,
    bank: Bank,
    failed: bool,
}

/// Where each block of each user is.
#[derive(Drop)]
struct Tables<'a, D: Medium> {
    kept: SlotTable<'a, D>,
    owners: Owners,
    // By user number, so that of number 0, which is nobody's, is 0.
    sizes: Vec<u8>,
    ghost sound: { IsImage owners.bases owners.owners kept.slots.slots.items kept.slots.quotas.items sizes.items },
}

impl<'a, D: Medium> Image<'a, D> {
    ghost use Rattle.image_map.specs.State.{size, base, quota, places_in, first_state, IsFirst};
    ghost use Rattle.image_map.specs.Image.{state, drum_seen, drum_of};

    /// Images of users 1, 2, 3 and on with these quotas, in blocks, over the first `records` records
    /// of a drum. All sizes are 0, and no call of the drum is made.
    ///
    /// After an error the clauses say nothing of the drum. Where that matters, make the parts first
    /// and then the images with `over`.
    pub fn new(
        alloc: Global,
        drum: &'a mut D,
        records: u16,
        quotas: &[u8],
    ) -> Result<Image<'a, D>, NoMemory>
        requires few { length quotas.now ≤ 30 }
        requires limit { All (λ quota. quota ≤ 128) quotas.now }
        requires fits { sum quotas.now ≤ records }
        requires serves { ServesSlots (D.contents drum.old) (D.record_count drum.old)
            (D.words_each drum.old) records }
        ensures first { IfOk result (λ i. IsFirst (drum_seen D.Medium drum.entry) quotas.now (state i)) }
        ensures drum { IfOk result (λ i. drum_of i ≡ drum.old) }
    {
        let sizes = no_sizes(alloc, quotas.len())?;
        let bank = Bank::new(alloc)?;
        let slots = Slots::new(alloc, records, quotas)?;
        Ok(Image::over(drum, slots, bank, sizes))
    }

    /// Images over parts that were made before: slots that keep nothing, any core, and sizes 0.
    pub fn over(drum: &'a mut D, slots: Slots, bank: Bank, sizes: Vec<u8>) -> Image<'a, D>
        requires none { (k : ℕ) → slot_of (slots_of slots) k ≡ None }
        requires few { length slots.quotas.items ≤ 31 }
        requires limit { (u : ℕ) → quota_in slots u ≤ 128 }
        requires sizes { sizes.items ≡ replicate (length slots.quotas.items) 0 }
        ensures first { state result ≡ first_state (drum_seen D.Medium drum.entry) slots bank sizes.items }
        ensures drum { drum_of result ≡ drum.old }
    {
        let tables = Tables {
            kept: SlotTable::over(drum, slots),
            owners: Owners::new(),
            sizes,
        };
        Image {
            tables,
            bank,
            failed: false,
        }
    }

    /// Ends the images and gives the drum back.
    pub fn back(self) -> &'a mut D
        ensures seen { drum_seen D.Medium result ≡ (state self.entry).drum }
        ensures drum { result.now ≡ drum_of self.entry }
    {
        let Image {
            tables,
            bank,
            failed: _,
        } = self;
        let Tables {
            kept,
            owners,
            sizes,
        } = tables;
        drop(bank);
        drop(owners);
        drop(sizes);
        kept.back()
    }

    /// Whether a load has failed.
    pub fn failed(&self) -> bool
        ensures { result ≡ (state self.now).failed }
    {
        self.failed
    }

    /// Whose each place of core is, 0 for nobody's.
    pub fn owners(&self) -> [u8; 128]
        ensures { result ≡ (state self.now).layout.owners }
    {
        self.tables.owners.owners()
    }

    /// How many blocks a user has.
    pub fn size(&self, user: UserNo) -> u8
        requires { user < length (state self.now).sizes }
        ensures value { result ≡ size (state self.now) user }
        ensures quota { result ≤ quota (state self.now) user }
        ensures most { result ≤ 128 }
    {
        self.tables.sizes[user.number() as usize]
    }

    /// Where a user's blocks lie in core. Of one that is resident all do, so that it ends within core.
    pub fn base(&self, user: UserNo) -> u8
        requires { user < length (state self.now).sizes }
        ensures value { result ≡ base (state self.now) user }
        ensures inside { is_loaded (places_in (state self.now)) user (size (state self.now) user) ≡ true
            → result + size (state self.now) user ≤ 128 }
    {
        // So it is known that the number is not 0.
        let _number = user.number();
        self.tables.owners.place(user, 0)
    }

    /// Whether all of a user's blocks are in core.
    pub fn resident(&self, user: UserNo) -> bool
        requires { user < length (state self.now).sizes }
        ensures owns { IsTrue result
            ↔ IsResident (state self.now).layout (size (state self.now) user) user }
        ensures value { result ≡ is_loaded (places_in (state self.now)) user (size (state self.now) user) }
    {
        'looking: for b in 0..self.tables.sizes[user.number() as usize] {
            if !self.tables.owners.has(user, b) {
                return false;
            }
        }
        true
    }
}

impl<'a, D: Medium> Image<'a, D> {
    ghost use Rattle.std.specs.Borrow.{sem, Lends};
    ghost use mir.Syntax.{named};
    ghost use Rattle.image_map.specs.State.{size, base};
    ghost use Rattle.image_map.specs.Image.{state, with_words};
    ghost use Rattle.core_bank.specs.contracts.Bank.{the_row as bank_row};
    ghost use Rattle.image_map.specs.contracts.image.Image.{the_row as image_row};

    /// Lends the core, so that a program can work in it.
    pub fn bank_mut(&mut self) -> &mut Bank
        ensures* lends { sem 𝓛 (Lends
            (image_row (record { mir = named 1; lft = [] }) D.row D.Medium) bank_row
            self.entry result (with_words self.old)) }
        ensures now { result.now ≡ (state self.old).words }
    {
        &mut self.bank
    }

    /// A port to the blocks of a user that is resident.
    ///
    /// While it lives the other fields stay, but a caller learns nothing of what was stored. Where
    /// that matters hand `bank_mut` to a function that makes the port with `Port::over`.
    pub fn port(&mut self, user: UserNo) -> Port<'_>
        requires user { user < length (state self.old).sizes }
        requires resident { IsResident (state self.old).layout (size (state self.old) user) user }
        requires words { AreWords (state self.old).words }
        ensures* lends { sem 𝓛 (Lends
            (image_row (record { mir = named 1; lft = [] }) D.row D.Medium) bank_row
            self.entry result.bank (with_words self.old)) }
        ensures now { result.bank.now ≡ (state self.old).words }
        ensures base { result.base ≡ base (state self.old) user }
        ensures blocks { result.blocks ≡ size (state self.old) user }
    {
        let blocks = self.size(user);
        let base = self.base(user);
        Port::over(&mut self.bank, base, blocks)
    }
}

impl<'a, D: Medium> Image<'a, D> {
    ghost use Rattle.image_map.specs.State.{base as base_in, size, quota, IsUsable, Resizes, Replaces, Loads};
    ghost use Rattle.image_map.specs.Image.{state, drum_of};
    ghost use Rattle.image_map.specs.Moves.{a_dump, a_fetch, a_put, puts_below, a_laying, a_loading, loads_below, a_load, CanMove, IsVacant, IsPlanned, MakesMove, TakesBlank};

    /// Writes what lies at a place to the drum. The place has no owner then.
    fn dump_block(&mut self, owner: UserNo, place: u8) -> Result<(), DrumFault>
        requires some { 1 ≤ owner }
        requires place { place < 128 }
        requires owned { owner_of self.old.tables.owners.owners place ≡ owner }
        requires ready { CanMove self.old }
        ensures moves { MakesMove (a_dump (state self.old) owner place) result self.old self.new }
        ensures bank { self.new.bank ≡ self.old.bank }
        ensures bases { self.new.tables.owners.bases ≡ self.old.tables.owners.bases }
    {
        let tables = &mut self.tables;
        let block = tables.owners.block(owner, place);
        tables.kept.put_block(owner, block, self.bank.block(place))?;
        tables.owners.empty(place);
        Ok(())
    }

    /// Reads the copy of a user's block into core.
    fn fetch_block(&mut self, user: UserNo, block: u8) -> Result<(), DrumFault>
        requires vacant { IsVacant user block self.old }
        requires kept { IsSome (record_of self.old.tables.kept.slots user block) }
        requires ready { CanMove self.old }
        ensures moves { MakesMove (a_fetch (state self.old) user block
            (block_at self.new.bank (base_in (state self.old) user + block))) result self.old self.new }
        ensures bases { self.new.tables.owners.bases ≡ self.old.tables.owners.bases }
        ensures others { (q : ℕ) → q ≢ base_in (state self.old) user + block
            → block_at self.new.bank q ≡ block_at self.old.bank q }
    {
        // So it is known that the number is not 0.
        let _number = user.number();
        let tables = &mut self.tables;
        let place = tables.owners.place(user, block);
        read_block(&mut tables.kept, self.bank.words_mut(), user, block, place)?;
        tables.owners.set(user, block);
        Ok(())
    }

    /// Brings a user's block of which there is no copy into core, as plus zeros.
    fn clear(&mut self, user: UserNo, block: u8)
        requires vacant { IsVacant user block self.old }
        requires none { record_of self.old.tables.kept.slots user block ≡ None }
        requires words { AreWords self.old.bank }
        ensures { TakesBlank user block self.old self.new }
    {
        // So it is known that the number is not 0.
        let _number = user.number();
        let place = self.tables.owners.place(user, block);
        self.bank.clear_block(place);
        let tables = &mut self.tables;
        tables.owners.set(user, block);
    }

    /// Writes what lies at a place to the drum, where the user owns it.
    fn put_place(&mut self, user: UserNo, place: u8) -> Result<(), DrumFault>
        requires place { place < 128 }
        requires ready { CanMove self.old }
        ensures moves { MakesMove (a_put (state self.old) user place) result self.old self.new }
        ensures bank { self.new.bank ≡ self.old.bank }
        ensures bases { self.new.tables.owners.bases ≡ self.old.tables.owners.bases }
    {
        if self.tables.owners.owner(place) == user.number() {
            self.dump_block(user, place)?;
        }
        Ok(())
    }

    /// Writes all that a user has in core to the drum, in rising order.
    fn put_out(&mut self, user: UserNo) -> Result<(), DrumFault>
        requires ready { CanMove self.old }
        ensures moves { MakesMove (puts_below (state self.old) user core_places) result self.old self.new }
        ensures none { OnOk result ((q : ℕ) → owner_of self.new.tables.owners.owners q ≢ user) }
        ensures bank { self.new.bank ≡ self.old.bank }
        ensures bases { self.new.tables.owners.bases ≡ self.old.tables.owners.bases }
    {
        // So it is known that the number is not 0.
        let _number = user.number();
        'putting: for place in 0..CORE_PLACES {
            self.put_place(user, place)?;
        }
        Ok(())
    }

    /// The first part of a load: where a user doesn't stay, all that it has in core goes to the drum, and its blocks are
    /// to lie from another place on.
    fn lay(&mut self, user: UserNo, base: u8, stay: bool) -> Result<(), DrumFault>
        requires user { user < length self.old.tables.sizes.items }
        requires inside { base < 128 }
        requires ready { CanMove self.old }
        ensures moves { MakesMove (a_laying (state self.old) user stay) result self.old self.new }
        ensures bases { OnOk result (self.new.tables.owners.bases
            ≡ bases_before self.old.tables.owners.bases user stay base) }
        ensures bank { self.new.bank ≡ self.old.bank }
    {
        if stay {
            return Ok(());
        }
        self.put_out(user)?;
        let tables = &mut self.tables;
        tables.owners.settle(user, base);
        Ok(())
    }

    /// Brings one block of a user into core.
    fn load_block(&mut self, user: UserNo, block: u8) -> Result<(), DrumFault>
        requires inside { block < size (state self.old) user }
        requires room { base_in (state self.old) user + block < 128 }
        requires ready { CanMove self.old }
        ensures moves { MakesMove (a_loading (state self.old) user block
            (block_at self.new.bank (base_in (state self.old) user + block))) result self.old self.new }
        ensures bases { self.new.tables.owners.bases ≡ self.old.tables.owners.bases }
        ensures others { (q : ℕ) → q ≢ base_in (state self.old) user + block
            → block_at self.new.bank q ≡ block_at self.old.bank q }
    {
        let place = self.tables.owners.place(user, block);
        let owner = self.tables.owners.owner(place);
        if owner == user.number() {
            return Ok(());
        }
        if owner != 0 {
            self.dump_block(UserNo::of(owner), place)?;
        }
        if self.tables.kept.has(user, block) {
            self.fetch_block(user, block)?;
        } else {
            self.clear(user, block);
        }
        Ok(())
    }

    /// The second part of a load: brings a user's blocks below a number into core, in rising order.
    fn load_blocks(&mut self, user: UserNo, blocks: u8) -> Result<(), DrumFault>
        requires inside { blocks ≤ size (state self.old) user }
        requires room { base_in (state self.old) user + blocks ≤ 128 }
        requires ready { CanMove self.old }
        ensures moves { MakesMove (loads_below (state self.old) user blocks (block_at self.new.bank))
            result self.old self.new }
        ensures resident { OnOk result (IsResident self.new.tables.owners blocks user) }
        ensures bases { self.new.tables.owners.bases ≡ self.old.tables.owners.bases }
        ensures others { (q : ℕ) → (q < base_in (state self.old) user) ⊎ (base_in (state self.old) user + blocks ≤ q)
            → block_at self.new.bank q ≡ block_at self.old.bank q }
    {
        'loading: for b in 0..blocks {
            self.load_block(user, b)?;
        }
        Ok(())
    }

    /// Both parts of a load.
    fn bring(&mut self, user: UserNo, blocks: u8, base: u8, stay: bool) -> Result<(), DrumFault>
        requires planned { IsPlanned user blocks base stay self.old }
        requires ready { CanMove self.old }
        ensures moves { MakesMove (a_load (state self.old) user blocks base stay (block_at self.new.bank))
            result self.old self.new }
        ensures bases { OnOk result (self.new.tables.owners.bases
            ≡ bases_before self.old.tables.owners.bases user stay base) }
        ensures places { OnOk result (places_of self.new.tables.owners self.new.tables.kept.slots
            ≡ loaded (places_of self.old.tables.owners self.old.tables.kept.slots) user blocks) }
        ensures resident { OnOk result (IsResident self.new.tables.owners blocks user) }
        ensures others { (q : ℕ) → (q < base) ⊎ (base + blocks ≤ q)
            → block_at self.new.bank q ≡ block_at self.old.bank q }
    {
        // So it is known that the number is not 0.
        let _number = user.number();
        self.lay(user, base, stay)?;
        self.load_blocks(user, blocks)
    }

    /// What a load of a user's blocks below a number moves.
    fn plan_of(&self, user: UserNo, blocks: u8) -> Plan
        requires { blocks ≤ size_of self.now.tables.sizes.items user }
        ensures base { result.base
            ≡ base_for (places_of self.now.tables.owners self.now.tables.kept.slots) user blocks }
        ensures inside { result.base < 128 }
        ensures room { result.base + blocks ≤ 128 }
        ensures moved { result.moved
            ≡ is_moved (places_of self.now.tables.owners self.now.tables.kept.slots) user blocks }
        ensures dumped { result.dumped
            ≡ dumps (places_of self.now.tables.owners self.now.tables.kept.slots) user blocks }
        ensures read { result.read
            ≡ reads (places_of self.now.tables.owners self.now.tables.kept.slots) user blocks }
        ensures fresh { result.fresh
            ≡ clears (places_of self.now.tables.owners self.now.tables.kept.slots) user blocks }
    {
        // So it is known that the number is not 0.
        let _number = user.number();
        let mut kept = [false; 128];
        'keeping: for b in 0..blocks {
            kept[b as usize] = self.tables.kept.has(user, b);
        }
        self.tables.owners.plan(user, blocks, &kept)
    }

    /// Brings all of a user's blocks into core, and says what that moved. Every user's image stays.
    ///
    /// Where the user owns places, but its blocks don't fit into core from its base on, all that it has in core is written
    /// to the drum first, in rising order. Where it owns none then, its base is the first place from which others own the
    /// fewest places. Then in rising order each place of a block that isn't in core is written to the drum if another user
    /// owns it, and the block is read from its record, which is free then, or made plus zeros. After a drum fault the images
    /// are lost.
    pub fn load_user(&mut self, user: UserNo) -> Result<Plan, DrumFault>
        requires usable { IsUsable (state self.old) }
        requires user { user < length (state self.old).sizes }
        ensures { Loads user result (state self.old) (state self.new) }
    {
        let blocks = self.tables.sizes[user.number() as usize];
        let plan = self.plan_of(user, blocks);
        let stay = self.tables.owners.stays(user, blocks);
        match self.bring(user, blocks, plan.base, stay) {
            Ok(()) => Ok(plan),
            Err(fault) => {
                self.failed = true;
                Err(fault)
            }
        }
    }

    /// Gives a user another size: its image is cut, or extended by plus zeros. No call of the drum is
    /// made, and the other images stay.
    pub fn resize_user(&mut self, user: UserNo, blocks: u8)
        requires usable { (state self.old).failed ≡ false }
        requires user { user < length (state self.old).sizes }
        requires quota { blocks ≤ quota (state self.old) user }
        ensures resizes { Resizes user blocks (state self.old) (state self.new) }
        ensures drum { drum_of self.new ≡ drum_of self.old }
    {
        let tables = &mut self.tables;
        tables.owners.give_up(user, blocks);
        tables.kept.free_from(user, blocks);
        tables.sizes[user.number() as usize] = blocks;
    }

    /// Gives a user a new image of plus zeros. No call of the drum is made, and the other images
    /// stay.
    pub fn replace_user(&mut self, user: UserNo, blocks: u8)
        requires usable { (state self.old).failed ≡ false }
        requires user { user < length (state self.old).sizes }
        requires quota { blocks ≤ quota (state self.old) user }
        ensures replaces { Replaces user blocks (state self.old) (state self.new) }
        ensures drum { drum_of self.new ≡ drum_of self.old }
    {
        self.resize_user(user, 0);
        self.resize_user(user, blocks);
    }
}

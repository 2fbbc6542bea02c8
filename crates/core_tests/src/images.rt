//! Users' images over core and drum. What a drum that fails or gives other words comes to is a case of run_cases.
ghost use Rattle.std.specs.Prelude.{◌≡◌, ◌≢◌, ◌<◌, ◌≤◌, ◌+◌, ℕ, length};
ghost use Rattle.core_bank.specs.Bank.{AreWords, block_at};
ghost use Rattle.drum_slots.specs.Kept.{ServesSlots};
ghost use Rattle.drum_slots.specs.Table.{records_of};
ghost use Rattle.onion_swap.specs.Places.{base_of};
ghost use Rattle.image_map.specs.Blocks.{first};
ghost use Rattle.image_map.specs.Images.{size_of, image_in, where_told};

use crate::rows::holds;
use crate::telling::{Call, TellingDrum};
use core_bank::Bank;
use cpu_regs::{MemoryPort, Outside};
use ctss_types::UserNo;
use image_map::{DrumFault, Image, Plan, Port, store_in};
use medium::{Medium, MemoryMedium};
use std::alloc::{AllocError, Global};
use std::process::Abort;
use std::test::Fail;
use word36::Word;

/// What is done with a user's image. A word is written as a small number.
#[derive(Clone, Copy)]
enum Action {
    /// Gives the user an image of so many blocks of plus zeros.
    Give(u8),
    /// Gives the user another size.
    Resize(u8),
    /// Loads the user, where this moves so many blocks to the drum, from it, and up as plus zeros, to this base, and where
    /// its own blocks go to the drum before or stay.
    Load(u8, u8, u8, u8, bool),
    /// Puts a word at an address of the user, which is loaded.
    Put(u16, i8),
    /// Gets the word at an address of the user.
    Get(u16, Result<i8, Outside>),
    /// Asks whether the user is resident.
    Resident(bool),
}

use Action::{Get, Give, Load, Put, Resident, Resize};

const MOVES: bool = true;

const STAYS: bool = false;

/// A user's number, and what is done with its image.
type Step = (u8, Action);

/// Puts a word at an address of a user that is loaded: its image is what stands in core then, and
/// the other images stay.
fn put<D: Medium>(
    rt: &impl Abort,
    image: &mut Image<'_, D>,
    user: UserNo,
    address: u16,
    word: Word,
) -> Result<(), Outside>
    requires user { user < length image.old.tables.sizes.items }
    requires words { AreWords image.old.bank }
    ensures tables { image.new.tables ≡ image.old.tables }
    ensures words { AreWords image.new.bank }
    ensures mine { image_in image.new.bank (D.contents image.new.tables.kept.drum.now) image.new.tables.owners
        image.new.tables.kept.slots image.new.tables.sizes.items user
        ≡ where_told (D.contents image.new.tables.kept.drum.now)
        (first (size_of image.new.tables.sizes.items user)
        (λ b. block_at image.new.bank (base_of image.new.tables.owners.bases user + b))) }
    ensures others { (u : ℕ) → u ≢ user
        → image_in image.new.bank (D.contents image.new.tables.kept.drum.now) image.new.tables.owners
        image.new.tables.kept.slots image.new.tables.sizes.items u
        ≡ image_in image.old.bank (D.contents image.old.tables.kept.drum.now) image.old.tables.owners
        image.old.tables.kept.slots image.old.tables.sizes.items u }
{
    assert!(rt; image.resident(user));
    let (base, blocks) = (image.base(user), image.size(user));
    store_in(image.bank_mut(), base, blocks, address, word)
}

/// The word at an address of some blocks of a bank.
fn word_at(bank: &mut Bank, base: u8, blocks: u8, address: u16) -> Result<Word, Outside>
    requires most { base + blocks ≤ 128 }
    requires words { AreWords bank.old }
    ensures { bank.new ≡ bank.old }
{
    Port::over(bank, base, blocks).load(address)
}

/// The word at an address of a resident user.
fn get<D: Medium>(
    rt: &impl Abort,
    image: &mut Image<'_, D>,
    user: UserNo,
    address: u16,
) -> Result<Word, Outside>
    requires user { user < length image.old.tables.sizes.items }
    requires words { AreWords image.old.bank }
    ensures tables { image.new.tables ≡ image.old.tables }
    ensures bank { image.new.bank ≡ image.old.bank }
{
    assert!(rt; image.resident(user));
    let (base, blocks) = (image.base(user), image.size(user));
    word_at(image.bank_mut(), base, blocks, address)
}

/// The word of a small number.
fn word(number: i8) -> Word {
    Word::signed(number < 0, u64::from(number.unsigned_abs()))
}

/// What is got, of a small number.
fn found(number: Result<i8, Outside>) -> Result<Word, Outside> {
    match number {
        Ok(number) => Ok(word(number)),
        Err(outside) => Err(outside),
    }
}

/// Does a step after no load has failed, and says whether it gives what it must. It fails where a load does.
fn does<D: Medium>(
    rt: &impl Abort,
    image: &mut Image<'_, D>,
    quotas: &[u8],
    step: Step,
) -> Result<bool, DrumFault>
    requires quotas { image.old.tables.kept.slots.quotas.items ≡ quotas.now }
    requires words { AreWords image.old.bank }
    requires serves { ServesSlots (D.contents image.old.tables.kept.drum.now)
        (D.record_count image.old.tables.kept.drum.now)
        (D.words_each image.old.tables.kept.drum.now) (records_of image.old.tables.kept.slots) }
    ensures same { image.new.tables.kept.drum.ghost_name ≡ image.old.tables.kept.drum.ghost_name }
    ensures words { AreWords image.new.bank }
    ensures serves { ServesSlots (D.contents image.new.tables.kept.drum.now)
        (D.record_count image.new.tables.kept.drum.now)
        (D.words_each image.new.tables.kept.drum.now) (records_of image.new.tables.kept.slots) }
    ensures quotas { image.new.tables.kept.slots.quotas ≡ image.old.tables.kept.slots.quotas }
{
    let (number, action) = step;
    assert!(rt; !image.failed() && 1 <= number && number <= 30);
    assert!(rt; (number as usize) < quotas.len());
    let (user, quota) = (UserNo::of(number), quotas[number as usize]);
    let went = match action {
        Give(blocks) => {
            assert!(rt; blocks <= quota);
            image.replace_user(user, blocks);
            true
        }
        Resize(blocks) => {
            assert!(rt; blocks <= quota);
            image.resize_user(user, blocks);
            true
        }
        Load(dumped, read, fresh, base, moved) => {
            image.load_user(user)?
                == Plan {
                    base,
                    moved,
                    dumped,
                    read,
                    fresh,
                }
        }
        Put(address, number) => put(rt, image, user, address, word(number)) == Ok(()),
        Get(address, number) => get(rt, image, user, address) == found(number),
        Resident(is) => image.resident(user) == is,
    };
    Ok(went)
}

/// Does these steps, up to the first fault.
fn runs<D: Medium>(
    rt: &impl Abort,
    image: &mut Image<'_, D>,
    quotas: &[u8],
    steps: &[Step],
) -> Result<(), DrumFault>
    requires quotas { image.old.tables.kept.slots.quotas.items ≡ quotas.now }
    requires words { AreWords image.old.bank }
    requires serves { ServesSlots (D.contents image.old.tables.kept.drum.now)
        (D.record_count image.old.tables.kept.drum.now)
        (D.words_each image.old.tables.kept.drum.now) (records_of image.old.tables.kept.slots) }
    ensures same { image.new.tables.kept.drum.ghost_name ≡ image.old.tables.kept.drum.ghost_name }
{
    'steps: for (row, step) in steps.iter().enumerate() {
        holds(rt, row, does(rt, image, quotas, *step)?);
    }
    Ok(())
}

static IN_TURN: [Step; 15] = [
    (1, Give(64)),
    (2, Give(64)),
    (3, Give(32)),
    (1, Load(0, 0, 64, 0, STAYS)),
    (1, Put(16383, -5)),
    (1, Put(0, 6)),
    (2, Load(0, 0, 64, 64, STAYS)),
    (1, Resident(true)),
    // Half of the first user's blocks stay in core.
    (3, Load(32, 0, 32, 0, STAYS)),
    (1, Resident(false)),
    (2, Resident(true)),
    (1, Load(32, 32, 0, 0, STAYS)),
    (1, Get(16383, Ok(-5))),
    (1, Get(0, Ok(6))),
    (3, Load(32, 32, 0, 0, STAYS)),
];

/// Tries loads of three users over a drum.
fn loads_in_turn<D: Medium>(rt: &impl Abort, alloc: Global, drum: &mut D) -> Result<(), Fail>
    requires { ServesSlots (D.contents drum.old) (D.record_count drum.old) (D.words_each drum.old) 160 }
{
    let mut image = Image::new(alloc, drum, 160, &[64, 64, 32])?;
    assert!(rt; runs(rt, &mut image, &[0, 64, 64, 32], &IN_TURN) == Ok(()));
    let _ = image.back();
    Ok(())
}

#[test]
fn loads_users_in_turn(rt: HostRuntime) -> Result<(), Fail> {
    let mut drum = MemoryMedium::new(rt.alloc(), 160, 256, &[], &[], 0)?;
    loads_in_turn(&rt, rt.alloc(), &mut drum)
}

/// So often a put, and behind it a get where there is one. These are the records of the first, and each time they rise by one.
type Round = (u16, u16, Option<u16>);

// A put goes to the least free record, and a get frees the record of its copy.
static OF_THE_DRUM: [Round; 6] = [
    // The third user comes for the first time: the first user's blocks 0 to 31 go to the records 0 to 31.
    (32, 0, None),
    // The first user is back: each block of the third user goes to the record that the get before has freed.
    (1, 32, Some(0)),
    (31, 0, Some(1)),
    // The third user is back: its block 0 lies in record 32, and block b behind it in record b - 1.
    (1, 31, Some(32)),
    (1, 32, Some(0)),
    (30, 0, Some(1)),
];

/// The calls of these rounds.
fn calls_of(alloc: Global, rounds: &[Round]) -> Result<Vec<Call>, AllocError> {
    let mut calls = Vec::new(alloc);
    for (times, put, get) in rounds {
        for k in 0..*times {
            calls.push(Call::Put(put.saturating_add(k)))?;
            if let Some(get) = get {
                calls.push(Call::Get(get.saturating_add(k)))?;
            }
        }
    }
    Ok(calls)
}

#[test]
fn asks_the_drum_for_what_moves(rt: HostRuntime) -> Result<(), Fail> {
    let wanted = calls_of(rt.alloc(), &OF_THE_DRUM)?;
    let mut drum = TellingDrum::new(rt.alloc(), 160)?;
    loads_in_turn(&rt, rt.alloc(), &mut drum)?;
    assert!(rt; drum.had(&wanted));
    Ok(())
}

#[test]
fn cuts_and_extends(rt: HostRuntime) -> Result<(), Fail> {
    static STEPS: [Step; 11] = [
        (1, Give(4)),
        (1, Load(0, 0, 4, 0, STAYS)),
        (1, Put(600, 7)),
        (1, Resize(2)),
        (2, Give(4)),
        // It lies behind the first.
        (2, Load(0, 0, 4, 2, STAYS)),
        (2, Put(100, 5)),
        (1, Resize(4)),
        (1, Load(2, 0, 2, 0, STAYS)),
        (1, Get(600, Ok(0))),
        (2, Load(2, 2, 0, 2, STAYS)),
    ];
    let mut drum = MemoryMedium::new(rt.alloc(), 16, 256, &[], &[], 0)?;
    let mut image = Image::new(rt.alloc(), &mut drum, 16, &[8, 8])?;
    assert!(rt; runs(&rt, &mut image, &[0, 8, 8], &STEPS) == Ok(()));
    let _ = image.back();
    Ok(())
}

#[test]
fn moves_a_user_that_grows(rt: HostRuntime) -> Result<(), Fail> {
    static STEPS: [Step; 11] = [
        (1, Give(40)),
        (1, Load(0, 0, 40, 0, STAYS)),
        (2, Give(60)),
        (2, Load(0, 0, 60, 40, STAYS)),
        (2, Put(600, 7)),
        (2, Resize(100)),
        (2, Resident(false)),
        (2, Load(72, 60, 40, 28, MOVES)),
        (2, Get(600, Ok(7))),
        (2, Get(15360, Ok(0))),
        // Blocks 0 to 27 of the first user are still in core.
        (1, Load(12, 12, 0, 0, STAYS)),
    ];
    let mut drum = MemoryMedium::new(rt.alloc(), 200, 256, &[], &[], 0)?;
    let mut image = Image::new(rt.alloc(), &mut drum, 200, &[100, 100])?;
    assert!(rt; runs(&rt, &mut image, &[0, 100, 100], &STEPS) == Ok(()));
    let _ = image.back();
    Ok(())
}

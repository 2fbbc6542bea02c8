//! A medium in memory, which fails and gives other words where it is told to.
ghost use Rattle.std.specs.Prelude.{◌≡◌, ◌<◌, ◌≤◌, [], length, true, is_err, if◌then◌else◌, slice_set, slice_index_or, replicate, OnOk, OnErr, IfOk};
ghost use Rattle.std.specs.List.{All};
ghost use Rattle.faults.specs.Faults.{one_further};
ghost use Rattle.medium.specs.Damages.{IsDamage, damaged_words, hits};
ghost use Rattle.medium.specs.Called.{ReadsRecord, WritesRecord};
ghost use Rattle.medium.specs.Medium.{AreWords, no_calls, with_call};
ghost use Rattle.medium.specs.MediumState.{rows_told, memory_seen, fails_next, words_read, after_read, after_write};

use crate::log::CallLog;
use crate::medium::{Failed, Medium};
use crate::pages::Pages;
use faults::NoMemory;
use std::alloc::Global;
use std::marker::Model;

/// A wrong word: at this place of a record a read gives `word`, whatever was written there.
///
/// It is the read with the number `read`, where the first read of the medium has number 1 and a
/// failed read counts too, or each read where that is `None`. Of two damages to one place the later
/// in the list counts.
#[derive(Clone, Copy, Debug, PartialEq, Eq)]
pub struct Damage {
    pub read: Option<u64>,
    pub place: u16,
    pub word: u64,
}

/// Records in memory, which are zero at first. With a damage it does not tell what they hold.
#[derive(Drop)]
pub struct MemoryMedium {
    pages: Pages,
    fails: Vec<u64>,
    damages: Vec<Damage>,
    call_count: u64,
    read_count: u64,
    fault_count: u64,
    log: CallLog,
}

impl Model for MemoryMedium {
    ghost use Rattle.medium.specs.MediumState.{MediumState};

    ghost Value = { MediumState };

    ghost use Rattle.medium.specs.Memory.{medium_state, IsMedium};

    ghost view = { medium_state };

    ghost invariant = { IsMedium };
}

/// Puts a damage's word in its place, where this is its read.
fn put_damage(damage: Damage, read: u64, into: &mut [u64])
    requires lies { IsDamage (length into.old) damage }
    requires words { AreWords into.old }
    ensures damaged { into.new
        ≡ (if hits damage.read read then slice_set into.old damage.place damage.word else into.old) }
    ensures words { AreWords into.new }
{
    let is_hit = match damage.read {
        None => true,
        Some(number) => number == read,
    };
    if is_hit {
        into[damage.place as usize] = damage.word;
    }
}

/// Puts the words of the damages to this read in their places, in order.
fn put_damages(damages: &[Damage], read: u64, into: &mut [u64])
    requires damages { All (λ d. IsDamage (length into.old) d) damages.now }
    requires words { AreWords into.old }
    ensures damaged { into.new ≡ damaged_words damages.now read into.old }
    ensures words { AreWords into.new }
{
    for damage in damages {
        put_damage(*damage, read, into);
    }
}

impl MemoryMedium {
    /// A medium of `records` records of `record_words` words, all zero.
    ///
    /// The calls with the numbers in `fails` fail, where the first read or write has number 1 and
    /// failed ones count too. A call that fails changes no record. `room` is how many calls it lists:
    /// with 0 it tells none, and a call past the room is done, but then no calls are told any more.
    /// All memory is taken here.
    pub fn new(
        alloc: Global,
        records: u16,
        record_words: u16,
        fails: &[u64],
        damages: &[Damage],
        room: u64,
    ) -> Result<MemoryMedium, NoMemory>
        requires { All (λ d. IsDamage record_words d) damages.now }
        ensures { IfOk result (λ m. m ≡ record {
          contents = replicate records (replicate record_words 0);
          words_each = record_words;
          fails = fails.now;
          damages = damages.now;
          call_count = 0;
          read_count = 0;
          fault_count = 0;
          calls = no_calls room;
        }) }
    {
        Ok(MemoryMedium {
            pages: Pages::zeros(alloc, records, record_words)?,
            fails: fails.to_vec(alloc)?,
            damages: damages.to_vec(alloc)?,
            call_count: 0,
            read_count: 0,
            fault_count: 0,
            log: CallLog::new(alloc, record_words, room)?,
        })
    }

    /// Counts a call, and says whether it is one of those that fail.
    fn fails_next(&mut self) -> bool
        ensures answer { result ≡ fails_next self.old }
        ensures state { self.new ≡ record self.old { call_count = one_further self.old.call_count } }
    {
        self.call_count = self.call_count.saturating_add(1);
        self.fails.contains(&self.call_count)
    }

    /// Counts and lists a call that fails.
    fn fail(&mut self, is_write: bool, at: u16) -> Failed
        ensures state { self.new ≡ record self.old {
          fault_count = one_further self.old.fault_count;
          calls = with_call self.old.calls
              (record { is_write = is_write; at = at; failed = true; words = [] });
        } }
        ensures faults_grow { self.old.fault_count ≤ self.new.fault_count }
    {
        self.fault_count = self.fault_count.saturating_add(1);
        self.log.push(is_write, at, true, &[]);
        Failed
    }
}

impl Medium for MemoryMedium {
    ghost record_count = { λ m. length m.contents };

    ghost words_each = { λ m. m.words_each };

    ghost contents = { rows_told };

    ghost calls = { λ m. m.calls };

    ghost faults = { λ m. m.fault_count };

    fn records(&self) -> u16 {
        self.pages.len()
    }

    fn record_words(&self) -> u16 {
        self.log.words_each()
    }

    fn read(&mut self, at: u16, into: &mut [u64]) -> Result<(), Failed>
        requires inside { at < length self.old.contents }
        requires whole { length into.old ≡ self.old.words_each }
        requires words { AreWords into.old }
        ensures reads { ReadsRecord at into.new result (memory_seen self.old) (memory_seen self.new) }

        // In memory all is determined.
        ensures answer { is_err result ≡ fails_next self.old }
        ensures given { OnOk result (into.new ≡ words_read self.old at) }
        ensures untouched { OnErr result (into.new ≡ into.old) }
        ensures state { self.new ≡ after_read self.old at }
    {
        self.read_count = self.read_count.saturating_add(1);
        if self.fails_next() {
            return Err(self.fail(false, at));
        }
        self.pages.read(at, into);
        put_damages(&self.damages, self.read_count, into);
        self.log.push(false, at, false, into);
        Ok(())
    }

    fn write(&mut self, at: u16, from: &[u64]) -> Result<(), Failed>
        requires inside { at < length self.old.contents }
        requires whole { length from.now ≡ self.old.words_each }
        requires words { AreWords from.now }
        ensures writes { WritesRecord at from.now result (memory_seen self.old) (memory_seen self.new) }

        // In memory all is determined.
        ensures answer { is_err result ≡ fails_next self.old }
        ensures state { self.new ≡ after_write self.old at from.now }
    {
        if self.fails_next() {
            return Err(self.fail(true, at));
        }
        self.pages.write(at, from);
        self.log.push(true, at, false, &[]);
        Ok(())
    }
}

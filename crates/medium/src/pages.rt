//! Records of words in one piece of memory.
ghost use Rattle.std.specs.Prelude.{◌≡◌, ◌<◌, ◌≤◌, ◌+◌, ◌^◌, ◌++◌, ◌∷◌, [], ℕ, length, get_or, slice_set, slice_index_or, replicate, vec_len, vec_capacity, IfOk};
ghost use Rattle.medium.specs.Medium.{AreWords};
ghost use Rattle.medium.specs.Rows.{words_from};

use faults::NoMemory;
use std::alloc::Global;
use std::marker::Model;

/// So many records of so many words, which are zero at first. Memory for all is taken at once; what lies behind the last record that was
/// written is not touched, so it costs nothing until it is used.
#[derive(Drop)]
pub(crate) struct Pages {
    words: Vec<u64>,
    count: u16,
    each: u16,
}

impl Model for Pages {
    ghost use Rattle.std.specs.Prelude.{◌≤◌, ◌*◌, vec_capacity};
    ghost use Rattle.medium.specs.Medium.{AreWords};
    ghost use Rattle.medium.specs.Rows.{PagesState, rows_from};

    ghost Value = { PagesState };

    ghost view = { λ r. record { contents = rows_from r.words.items r.each 0 r.count; each = r.each } };

    ghost invariant = { λ r. (r.count * r.each ≤ vec_capacity r.words) × AreWords r.words.items };
}

/// A zero behind the words, for which there is room.
fn push_zero(words: &mut Vec<u64>)
    requires { vec_len words.old < vec_capacity words.old }
    ensures items { words.new.items ≡ words.old.items ++ 0 ∷ [] }
    ensures capacity { vec_capacity words.old ≤ vec_capacity words.new }
{
    let _ = words.push(0);
}

/// Zeros behind the words, up to a place. There is room.
fn reach(words: &mut Vec<u64>, end: usize)
    requires room { end ≤ vec_capacity words.old }
    requires words { AreWords words.old.items }
    ensures same { (q : ℕ) → get_or words.new.items q 0 ≡ get_or words.old.items q 0 }
    ensures len { end ≤ length words.new.items }
    ensures capacity { vec_capacity words.old ≤ vec_capacity words.new }
    ensures words { AreWords words.new.items }
{
    'reaching: while words.len() < end {
        push_zero(words);
    }
}

/// Words over those from a place on.
fn copy_in(words: &mut Vec<u64>, place: usize, from: &[u64])
    requires inside { place + length from.now ≤ length words.old.items }
    requires words { AreWords words.old.items }
    requires from { AreWords from.now }
    ensures here { (j : ℕ) → j < length from.now → get_or words.new.items (place + j) 0 ≡ get_or from.now j 0 }
    ensures before { (q : ℕ) → q < place → get_or words.new.items q 0 ≡ get_or words.old.items q 0 }
    ensures behind { (q : ℕ) → place + length from.now ≤ q → get_or words.new.items q 0 ≡ get_or words.old.items q 0 }
    ensures capacity { vec_capacity words.old ≤ vec_capacity words.new }
    ensures words { AreWords words.new.items }
{
    'copying: for i in 0..from.len() {
        words[place + i] = from[i];
    }
}

/// The word at a place; zero behind the last one.
fn word_at(words: &[u64], place: usize) -> u64
    ensures { result ≡ get_or words.now place 0 }
{
    if place < words.len() {
        return words[place];
    }
    0
}

/// Words from a place on.
fn copy_out(words: &[u64], place: usize, into: &mut [u64])
    requires fits { place + length into.old < 2 ^ 33 }
    requires words { AreWords words.now }
    ensures row { into.new ≡ words_from words.now place (length into.old) }
    ensures words { AreWords into.new }
{
    'copying: for i in 0..into.len() {
        into[i] = word_at(words, place + i);
    }
}

impl Pages {
    /// Records of zeros.
    pub(crate) fn zeros(alloc: Global, count: u16, each: u16) -> Result<Pages, NoMemory>
        ensures contents { IfOk result (λ r. r.contents ≡ replicate count (replicate each 0)) }
        ensures each { IfOk result (λ r. r.each ≡ each) }
    {
        let words = Vec::with_capacity(alloc, count as usize * each as usize)?;
        Ok(Pages { words, count, each })
    }

    /// How many there are.
    pub(crate) fn len(&self) -> u16
        ensures { result ≡ length self.now.contents }
    {
        self.count
    }

    /// How many words each has.
    pub(crate) fn each(&self) -> u16
        ensures { result ≡ self.now.each }
    {
        self.each
    }

    /// Copies a record out.
    pub(crate) fn read(&self, at: u16, into: &mut [u64])
        requires inside { at < length self.now.contents }
        requires whole { length into.old ≡ self.now.each }
        ensures row { into.new ≡ slice_index_or self.now.contents at [] }
        ensures words { AreWords into.new }
    {
        copy_out(&self.words, at as usize * self.each as usize, into);
    }

    /// Copies a record in.
    pub(crate) fn write(&mut self, at: u16, from: &[u64])
        requires inside { at < length self.old.contents }
        requires whole { length from.now ≡ self.old.each }
        requires words { AreWords from.now }
        ensures { self.new ≡ record self.old { contents = slice_set self.old.contents at from.now } }
    {
        let place = at as usize * self.each as usize;
        reach(&mut self.words, place + self.each as usize);
        copy_in(&mut self.words, place, from);
    }
}

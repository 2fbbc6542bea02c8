ghost use Rattle.std.specs.Prelude.{◌≡◌, ◌+◌, ◌*◌, ◌^◌, ◌<◌, ◌≤◌, [], ◌∷◌, ◌++◌, length, OnOk, IfOk};
ghost use Rattle.bss_loader.specs.Runs.{Open, word_in, words_in, run_words, closed};

use ctss_types::{NoMemory, Sequence, WordList};
use std::alloc::Global;
use std::marker::Model;
use word36::Word;

/// The most words of a segment.
const MAX_RUN: usize = 4096;

/// The words of a deck while its segments grow: those up to the last segment, and the last segment with its first place.
#[derive(Drop)]
pub struct Segments {
    done: WordList,
    first: u64,
    run: WordList,
}

impl Model for Segments {
    ghost use Rattle.std.specs.Prelude.{◌^◌, ◌<◌, ◌≤◌, length};
    ghost use Rattle.bss_loader.specs.Runs.{Open};

    ghost Value = { Open };

    ghost view = { λ s. record { done = s.done; first = s.first; run = s.run } };

    ghost invariant = { λ s. (s.first < 2 ^ 34) × (length s.run ≤ 4096) };
}

/// The header of a segment.
fn header(length: usize, first: u64) -> Word
    requires length { length ≤ 4096 }
    requires first { first < 2 ^ 34 }
    ensures { result ≡ length * 2 ^ 18 + first }
{
    Word::of(((length as u64) << 18) + first)
}

/// Adds words at the end.
pub(crate) fn push_all(list: &mut WordList, words: &[Word]) -> Result<(), NoMemory>
    ensures { OnOk result (list.new ≡ list.old ++ words.now) }
{
    for word in words {
        list.push(*word)?;
    }
    Ok(())
}

/// Adds a segment with its header. One without words is none.
fn push_run(done: &mut WordList, first: u64, run: &[Word]) -> Result<(), NoMemory>
    requires length { length run.now ≤ 4096 }
    requires first { first < 2 ^ 34 }
    ensures { OnOk result (done.new ≡ done.old ++ run_words first run.now) }
{
    if run.is_empty() {
        return Ok(());
    }
    done.push(header(run.len(), first))?;
    push_all(done, run)
}

impl Segments {
    /// No segment behind a deck's first word.
    pub fn new(alloc: Global, head: Word) -> Result<Segments, NoMemory>
        ensures { IfOk result (λ s. s ≡ record { done = head ∷ []; first = 0; run = [] }) }
    {
        let mut done = Sequence::new(alloc);
        done.push(head)?;
        Ok(Segments {
            done,
            first: 0,
            run: Sequence::new(alloc),
        })
    }

    /// A word more, behind the last segment or as a segment of its own.
    pub fn add(&mut self, alloc: Global, place: u64, word: Word) -> Result<(), NoMemory>
        requires { place < 2 ^ 34 }
        ensures { OnOk result (self.new ≡ word_in self.old place word) }
    {
        let length = self.run.len();
        if length > 0 && length < MAX_RUN && self.first + length as u64 == place {
            return self.run.push(word);
        }
        push_run(&mut self.done, self.first, self.run.as_slice())?;
        let mut run = Sequence::new(alloc);
        run.push(word)?;
        self.first = place;
        self.run = run;
        Ok(())
    }

    /// Words at successive places.
    pub fn add_all(&mut self, alloc: Global, place: u64, words: &[Word]) -> Result<(), NoMemory>
        requires { place + length words.now < 2 ^ 34 }
        ensures { OnOk result (self.new ≡ words_in self.old place words.now) }
    {
        let mut at = place;
        for word in words {
            self.add(alloc, at, *word)?;
            at += 1;
        }
        Ok(())
    }

    /// All words.
    pub fn close(self) -> Result<WordList, NoMemory>
        ensures { IfOk result (λ ws. ws ≡ closed self) }
    {
        let Segments {
            mut done,
            first,
            run,
        } = self;
        push_run(&mut done, first, run.as_slice())?;
        Ok(done)
    }
}

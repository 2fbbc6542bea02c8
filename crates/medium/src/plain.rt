//! A medium in memory that never fails.
ghost use Rattle.std.specs.Prelude.{◌≡◌, replicate, IfOk};

use crate::medium::{Failed, Medium};
use crate::pages::Pages;
use faults::NoMemory;
use std::alloc::Global;
use std::marker::Model;

/// Records in memory, which are zero at first. No call fails, a read gives what was last written, and no list is kept of the calls.
#[derive(Drop)]
pub struct PlainMedium {
    pages: Pages,
}

impl Model for PlainMedium {
    ghost use Rattle.medium.specs.Rows.{PagesState};

    ghost Value = { PagesState };

    ghost view = { λ m. m.pages };
}

impl PlainMedium {
    /// A medium of `records` records of `record_words` words, all zero. All memory is taken here; what is never written costs nothing
    /// until it is.
    pub fn new(alloc: Global, records: u16, record_words: u16) -> Result<PlainMedium, NoMemory>
        ensures { IfOk result (λ m. m
            ≡ record { contents = replicate records (replicate record_words 0); each = record_words }) }
    {
        let pages = Pages::zeros(alloc, records, record_words)?;
        Ok(PlainMedium { pages })
    }
}

impl Medium for PlainMedium {
    ghost use Rattle.std.specs.Prelude.{None, Some, length};

    ghost record_count = { λ m. length m.contents };

    ghost words_each = { λ m. m.each };

    ghost contents = { λ m. Some m.contents };

    ghost calls = { λ _. None };

    ghost faults = { λ _. 0 };

    fn records(&self) -> u16 {
        self.pages.len()
    }

    fn record_words(&self) -> u16 {
        self.pages.each()
    }

    fn read(&mut self, at: u16, into: &mut [u64]) -> Result<(), Failed> {
        self.pages.read(at, into);
        Ok(())
    }

    fn write(&mut self, at: u16, from: &[u64]) -> Result<(), Failed> {
        self.pages.write(at, from);
        Ok(())
    }
}

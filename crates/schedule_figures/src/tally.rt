//! How many numbers there are, their sum, and the greatest of them.
ghost use Rattle.std.specs.Prelude.{◌<◌, ◌+◌, ◌^◌, ℕ, List, [], ◌∷◌, ◌++◌};
ghost use Rattle.picture_model.specs.Columns.{mean_columns};
ghost use Rattle.schedule_figures.specs.Tallies.{IsTally, IsTallyOfFew};
ghost use Rattle.text_writer.specs.Writing.{Adds};

use crate::column::add_mean;
use ctss_io::Sink;
use text_writer::TextWriter;
use text_writer::columns::add_column;

/// What a line of figures says of some numbers.
#[derive(Clone, Copy)]
pub(crate) struct Tally {
    pub count: u128,
    pub sum: u128,
    pub greatest: u128,
}

impl Tally {
    /// Of no number.
    pub(crate) fn new() -> Tally
        ensures tally { IsTally result [] }
        ensures few { IsTallyOfFew 0 result }
    {
        Tally {
            count: 0,
            sum: 0,
            greatest: 0,
        }
    }

    /// With one number more.
    pub(crate) fn with(self, number: u128) -> Tally
        requires number { number < 2 ^ 65 }
        requires few { IsTallyOfFew (2 ^ 60) self }
        ensures tally { (ns : List ℕ) → IsTally self ns → IsTally result (ns ++ number ∷ []) }
        ensures few { (n : ℕ) → IsTallyOfFew n self → IsTallyOfFew (n + 1) result }
    {
        Tally {
            count: self.count + 1,
            sum: self.sum + number,
            greatest: self.greatest.max(number),
        }
    }

    /// Adds the mean of the numbers and the greatest of them.
    pub(crate) fn add_to<K: Sink>(self, out: &mut TextWriter<'_, K>)
        requires { IsTallyOfFew (2 ^ 58) self }
        ensures { (ns : List ℕ) → IsTally self ns → Adds K.Sink (mean_columns ns) out.old out.new }
    {
        add_mean(out, self.count, self.sum);
        add_column(out, 8, self.greatest);
    }
}

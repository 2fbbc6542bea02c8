//! Marks that are painted over a row of cells.
ghost use Rattle.std.specs.Prelude.{◌≡◌, ◌<◌, ◌≤◌, ◌^◌, ◌∷◌, [], ℕ, length, max, slice_index};
ghost use Rattle.picture_model.specs.Marks.{mark};
ghost use Rattle.schedule_figures.specs.Painted.{Painted};

use crate::chart::row::{MOST_CELLS, Row};

/// Raises the cells from one to another to a character.
fn raise(cells: &mut [u8; 110], first: usize, behind: usize, character: u8)
    requires { behind ≤ 110 }
    ensures before { (k : ℕ) → k < first → slice_index cells.new k ≡ slice_index cells.old k }
    ensures within { (k : ℕ) → first ≤ k → k < behind
        → slice_index cells.new k ≡ max (slice_index cells.old k) character }
    ensures behind { (k : ℕ) → behind ≤ k → slice_index cells.new k ≡ slice_index cells.old k }
{
    for column in first..behind {
        cells[column] = cells[column].max(character);
    }
}

impl Row {
    /// Paints a character from a place on, for so many places.
    pub fn paint(&mut self, at: u64, ticks: u128, character: u8)
        requires { ticks < 2 ^ 127 }
        ensures { Painted (mark at ticks character ∷ []) self.old self.new }
    {
        let each = u128::from(self.each);
        let first = u128::from(at) / each;
        let last = (u128::from(at) + ticks.saturating_sub(1)) / each;
        let first = first.min(110) as usize;
        let behind = last.min(109) as usize + 1;
        raise(&mut self.cells, first, behind, character);
    }
}

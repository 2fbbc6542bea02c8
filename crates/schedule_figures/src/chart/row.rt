//! A row of cells.
ghost use Rattle.std.specs.Prelude.{◌≡◌, ◌<◌, replicate};

/// The most cells of a row.
pub const MOST_CELLS: usize = 110;

/// The cells of a row at so many places a cell, each with the greatest character of the marks so far.
#[derive(Drop)]
pub struct Row {
    pub each: u64,
    pub cells: [u8; 110],
    ghost some: { 0 < each },
}

impl Row {
    /// A row without a mark.
    pub fn blank(each: u64) -> Row
        requires { 0 < each }
        ensures each { result.each ≡ each }
        ensures cells { result.cells ≡ replicate 110 32 }
    {
        Row {
            each,
            cells: [b' '; MOST_CELLS],
        }
    }
}

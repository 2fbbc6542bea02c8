//! How many places a column has, and how many columns there are.
ghost use Rattle.std.specs.Prelude.{◌≡◌, ◌<◌, ◌≤◌};
ghost use Rattle.picture_model.specs.Chart.{places_each, column_count};

/// The places of a column, and the columns that have a place.
#[derive(Clone, Copy)]
pub struct Columns {
    pub each: u64,
    pub count: usize,
    ghost some: { 0 < each },
    ghost few: { count ≤ 110 },
}

/// The columns for so many places.
pub fn columns_for(places: u64) -> Columns
    ensures each { result.each ≡ places_each places }
    ensures count { result.count ≡ column_count places }
{
    let each = ((u128::from(places) + 109) / 110).max(26);
    let count = (u128::from(places) + (each - 1)) / each;
    Columns {
        each: each as u64,
        count: count as usize,
    }
}

//! How a picture is laid out: a place is so many units wide as the zoom says, and all else is a multiple of the scale.
ghost use Rattle.std.specs.Prelude.{◌≡◌, ◌≤◌, ◌+◌, ◌*◌, ◌/◌, ◌^◌, suc};
ghost use Rattle.picture_model.specs.CorePanel.{place_top};
ghost use Rattle.picture_model.specs.Drawing.{across, core_top, figures_top, level_top, places_between, scale_for, sheet_height, sheet_width, user_top, zoom_for};

/// The scale and the zoom of a picture, how many users it has, and the ticks that a block takes.
#[derive(Clone, Copy)]
pub struct Sheet {
    pub scale: u64,
    pub zoom: u64,
    pub users: u64,
    pub swap: u64,
    ghost small: { scale ≤ 2 ^ 54 },
    ghost near: { zoom ≤ 1000 },
}

/// The scale of a picture of so many places.
pub(crate) fn scale_for(places: u64) -> u64
    ensures value { result ≡ scale_for places }
    ensures small { result ≤ 2 ^ 54 }
    ensures some { 1 ≤ result }
{
    places / 1200 + 1
}

/// The zoom of a picture of so many places.
pub(crate) fn zoom_for(places: u64) -> u64
    ensures value { result ≡ zoom_for places }
    ensures near { result ≤ 1000 }
    ensures some { 1 ≤ result }
{
    let zoom = 1000 / (u128::from(places) + 1);
    (zoom as u64).max(1)
}

impl Sheet {
    /// So many units of the scale.
    pub(crate) fn units(self, n: u16) -> u128
        ensures value { result ≡ n * self.scale }
        ensures small { result ≤ 2 ^ 70 }
    {
        u128::from(n) * u128::from(self.scale)
    }

    /// The left edge of a place.
    pub(crate) fn across(self, place: u64) -> u128
        ensures value { result ≡ across self.scale self.zoom place }
        ensures small { result ≤ 2 ^ 75 }
    {
        self.units(110) + u128::from(self.zoom) * u128::from(place)
    }

    /// How wide so many ticks are.
    pub(crate) fn wide(self, ticks: u128) -> u128
        requires { ticks ≤ 2 ^ 80 }
        ensures value { result ≡ self.zoom * ticks }
        ensures small { result ≤ 2 ^ 90 }
    {
        u128::from(self.zoom) * ticks
    }

    /// How many places are between two lines of the ruler.
    pub(crate) fn places_between(self) -> u64
        requires { 1 ≤ self.zoom }
        ensures value { result ≡ places_between self.scale self.zoom }
        ensures some { 1 ≤ result }
    {
        (100 * self.scale / self.zoom).max(1)
    }

    /// The upper edge of a user's row.
    pub(crate) fn user_top(self, user: u64) -> u128
        ensures value { result ≡ user_top self.scale user }
        ensures small { result ≤ 2 ^ 124 }
    {
        (70 + 26 * u128::from(user)) * u128::from(self.scale)
    }

    /// The upper edge of a level's row.
    pub(crate) fn level_top(self, level: u8) -> u128
        ensures value { result ≡ level_top self.scale self.users level }
        ensures small { result ≤ 2 ^ 124 }
    {
        (140 + (26 * u128::from(self.users) + 18 * u128::from(level))) * u128::from(self.scale)
    }

    /// The scale, so many times.
    pub(crate) fn times(self, n: u8) -> u128
        ensures value { result ≡ self.scale * n }
        ensures small { result ≤ 2 ^ 62 }
    {
        u128::from(self.scale) * u128::from(n)
    }

    /// The upper edge of the rows of core.
    fn core_top(self) -> u128
        ensures value { result ≡ core_top self.scale self.users }
        ensures small { result ≤ 2 ^ 123 }
    {
        (330 + 26 * u128::from(self.users)) * u128::from(self.scale)
    }

    /// The upper edge of a place of core.
    pub(crate) fn place_top(self, place: u8) -> u128
        ensures value { result ≡ place_top self.scale self.users place }
        ensures small { result ≤ 2 ^ 124 }
    {
        self.core_top() + 2 * self.times(place)
    }

    /// Where the numbers of a row below core stand.
    pub(crate) fn moved_top(self, row: u8) -> u128
        ensures { result ≡ place_top self.scale self.users 128 + 12 * (self.scale * row) }
    {
        self.place_top(128) + 12 * self.times(row)
    }

    /// The upper edge of the figures.
    pub(crate) fn figures_top(self) -> u128
        ensures { result ≡ figures_top self.scale self.users }
    {
        (650 + 26 * u128::from(self.users)) * u128::from(self.scale)
    }

    /// How high the picture is.
    pub(crate) fn height(self) -> u128
        ensures value { result ≡ sheet_height self.scale self.users }
        ensures small { result ≤ 2 ^ 124 }
    {
        (960 + 40 * u128::from(self.users)) * u128::from(self.scale)
    }

    /// How wide a picture of so many places is.
    pub(crate) fn width(self, places: u64) -> u128
        ensures value { result ≡ sheet_width self.scale self.zoom places }
    {
        self.units(130) + (u128::from(self.zoom) * u128::from(places)).max(self.units(960))
    }
}

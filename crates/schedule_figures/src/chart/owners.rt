//! Whose each place of core is, in parts of one user each.
ghost use Rattle.std.specs.Prelude.{◌≡◌, ◌<◌, ◌-◌};
ghost use Rattle.picture_model.specs.Cores.{owner_in};
ghost use Rattle.picture_model.specs.CorePanel.{begins_at, stretch_from};
ghost use Rattle.schedule_figures.specs.Maps.{users_of};

use crate::chart::maps::CorePart;

/// The user whose a place is, 0 for nobody.
pub fn owner_at(core: &[CorePart], place: u8) -> u8
    ensures { result ≡ owner_in (users_of core.now) place }
{
    let mut left = place;
    for part in core {
        if left < part.count {
            return part.user;
        }
        left -= part.count;
    }
    0
}

/// Whether a stretch of places of one owner begins at a place.
pub fn begins_at(core: &[CorePart], place: u8) -> bool
    ensures { result ≡ begins_at (owner_in (users_of core.now)) place }
{
    place == 0 || owner_at(core, place - 1) != owner_at(core, place)
}

/// How many places from one on are all this user's.
pub fn stretch_from(core: &[CorePart], user: u8, place: u8) -> u8
    requires { place < 128 }
    ensures { result ≡ stretch_from (owner_in (users_of core.now)) user place (128 - place) }
{
    for next in place..128 {
        if owner_at(core, next) != user {
            return next - place;
        }
    }
    128 - place
}

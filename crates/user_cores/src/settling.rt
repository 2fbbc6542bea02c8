//! The size of a user's core after a step.
ghost use Rattle.std.specs.Prelude.{◌≡◌, ◌<◌, ◌≤◌, length};
ghost use Rattle.drum_slots.specs.Keys.{quota_of};
ghost use Rattle.image_map.specs.Images.{size_of};
ghost use Rattle.time_sharing.specs.Machine.{Went};
ghost use Rattle.user_cores.specs.Backing.{CallsNothing};
ghost use Rattle.user_cores.specs.Settles.{IsSettled};

use crate::Backing;
use ctss_types::{Ending, UserNo};

/// A user's core becomes as large as its step left it.
#[inline(always)]
pub fn settle<C: Backing>(cores: &mut C, user: UserNo, ending: Ending, blocks: u8)
    requires usable { C.Usable cores.old }
    requires user { user < length (C.state cores.old).held.sizes }
    requires quota { blocks ≤ quota_of (C.state cores.old).held.quotas user }
    requires same { ending ≡ Went → size_of (C.state cores.old).held.sizes user ≡ blocks }
    ensures settled { IsSettled ending user blocks (C.state cores.old).held (C.state cores.new).held }
    ensures none { CallsNothing (C.state cores.old) (C.state cores.new) }
    ensures usable { C.Usable cores.new }
    ensures keeps { C.Keeps cores.old cores.new }
{
    match ending {
        Ending::Went => {}
        Ending::Replaced => cores.replace(user, blocks),
        Ending::Stopped | Ending::Resized | Ending::LoggedOut => cores.resize(user, blocks),
    }
}

//! Cores that are swapped with a drum, beside directories on tracks of a disk.
ghost use Rattle.std.specs.Prelude.{◌≡◌};

use crate::backing::{Backing, Made};
use crate::turn::{Part, advance_in, reply_in, turn_in};
use ctss_types::{CommonOp, StepFault, UserNo};
use image_map::{DrumFault, Image, Plan};
use medium::Medium;
use std::alloc::Global;
use track_directories::{Lists, TrackDirectories};
use user_session::{Session, Turn};

/// What lies behind users' sessions: the cores of their programs, and their directories.
#[derive(Drop)]
pub struct Behind<'a, 'd, D: Medium, F: Medium> {
    cores: Image<'a, D>,
    files: TrackDirectories<'d, F>,
}

impl<'a, 'd, D: Medium, F: Medium> Behind<'a, 'd, D, F> {
    /// These cores beside these directories, of the same users.
    pub fn new(cores: Image<'a, D>, files: TrackDirectories<'d, F>) -> Behind<'a, 'd, D, F>
        ensures cores { result.cores ≡ cores.entry }
        ensures files { result.files ≡ files.entry }
    {
        Behind { cores, files }
    }

    /// Gives back the cores and the directories.
    pub fn into_parts(self) -> (Image<'a, D>, TrackDirectories<'d, F>)
        ensures cores { result.0 ≡ self.entry.cores }
        ensures files { result.1 ≡ self.entry.files }
    {
        let Behind { cores, files } = self;
        (cores, files)
    }
}

impl<D: Medium, F: Medium> Backing for Behind<'_, '_, D, F> {
    ghost use Rattle.std.specs.Prelude.{◌≡◌, refl};
    ghost use Rattle.std.proofs.Common.{◌∙◌};
    ghost use Rattle.faults.specs.Faults.{WhereTold};
    ghost use Rattle.image_map.specs.Image.{state as image_state};
    ghost use Rattle.file_tracks.specs.Lying.{LieOn};
    ghost use Rattle.track_directories.specs.Tables.{disk_of, shown, Sound};
    ghost use Rattle.user_cores.specs.Backing.{back_of};
    ghost use Rattle.user_cores.specs.Usable.{IsWhole};

    ghost state = { λ b. back_of (image_state b.cores) (shown F.Medium b.files) };

    ghost Usable = { λ b. IsWhole (image_state b.cores) × Sound F.Medium b.files };

    ghost Keeps = { λ a b. ((image_state b.cores).drum.name ≡ (image_state a.cores).drum.name)
        × ((disk_of b.files).ghost_name ≡ (disk_of a.files).ghost_name) };

    ghost Lies = { λ b own common. WhereTold (F.contents (disk_of b.files).now)
        (λ contents. LieOn contents own common) };

    ghost stays = { λ a. (refl, refl) };

    ghost goes_on = { λ a b c one two. (two.0 ∙ one.0, two.1 ∙ one.1) };

    fn is_loaded(&self, user: UserNo) -> bool {
        self.cores.resident(user)
    }

    fn load(&mut self, user: UserNo) -> Result<Plan, DrumFault> {
        self.cores.load_user(user)
    }

    fn resize(&mut self, user: UserNo, blocks: u8) {
        // So it is known that the number is not 0.
        let _number = user.number();
        self.cores.resize_user(user, blocks);
    }

    fn replace(&mut self, user: UserNo, blocks: u8) {
        let _number = user.number();
        self.cores.replace_user(user, blocks);
    }

    fn hang_up(&mut self, user: UserNo) {
        let _number = user.number();
        self.cores.replace_user(user, 0);
        self.files.drop_temporary(user);
    }

    fn turn(&mut self, user: UserNo, session: &mut Session, now: u64) -> Result<Turn, StepFault> {
        let _number = user.number();
        let blocks = self.cores.size(user);
        let base = self.cores.base(user);
        let part = Part { user, base, blocks };
        turn_in(self.cores.bank_mut(), part, session, &mut self.files, now)
    }

    fn share(
        &mut self,
        user: UserNo,
        session: &mut Session,
        op: &CommonOp,
        now: u64,
    ) -> Result<Made, StepFault> {
        let _number = user.number();
        let reply = self.files.share(op)?;
        let blocks = self.cores.size(user);
        let base = self.cores.base(user);
        let part = Part { user, base, blocks };
        let step = reply_in(
            self.cores.bank_mut(),
            part,
            session,
            &mut self.files,
            &reply,
            now,
        )?;
        Ok(Made { step, reply })
    }

    fn advance(&mut self, user: UserNo, session: &mut Session, most: u64) -> u64 {
        let _number = user.number();
        let blocks = self.cores.size(user);
        let base = self.cores.base(user);
        let part = Part { user, base, blocks };
        advance_in(self.cores.bank_mut(), part, session, most)
    }

    fn take_lists(&mut self, alloc: Global) -> Result<Lists, StepFault> {
        self.files.take_lists(alloc)
    }
}

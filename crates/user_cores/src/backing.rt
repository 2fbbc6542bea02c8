//! What the supervisor asks of all that lies behind users' sessions: their cores and their directories.
ghost use Rattle.std.specs.Prelude.{◌≡◌, ◌<◌, ◌≤◌, ◌+◌, ◌-◌, ◌^◌, List, true, length, IfOk, OnOk, OnErr, IsErrOf};
ghost use Rattle.faults.specs.Faults.{Rose};
ghost use Rattle.ctss_types.specs.declared.file.FileBody.{FileBody};
ghost use Rattle.drum_slots.specs.Keys.{quota_of};
ghost use Rattle.plan_model.specs.Loads.{is_loaded};
ghost use Rattle.user_model.specs.Runs.{HaveGone};
ghost use Rattle.user_session.specs.Calls.{KeepsUser};
ghost use Rattle.user_session.specs.Stores.{Over, IsToMake};
ghost use Rattle.user_session.specs.Turns.{IsTurn};
ghost use Rattle.track_directories.specs.Directories.{lists_from};
ghost use Rattle.user_cores.specs.Backing.{BackState, size, CanTurn, HangsUp, HasAdvanced, HasShared, HasTurned, IsInCore, Loads, Replaces, Resizes, Shared};

use ctss_types::{CommonOp, Reply, StepFault, UserNo};
use image_map::{DrumFault, Plan};
use std::alloc::Global;
use track_directories::Lists;
use user_session::{Session, Step, Turn};

/// A step that made an operation on the common files, and the reply.
#[derive(Debug, Drop)]
pub struct Made {
    pub step: Step,
    pub reply: Reply,
}

/// The cores of up to 30 users' programs, their directories and the common files. Users count from 1.
///
/// In clauses `state` is what they show. After a fault of drum or disk nothing may be asked any more.
pub trait Backing {
    ghost state: { Self → BackState };

    /// No fault has come.
    ghost Usable: { Self → Type 0 };

    /// The same drum and disk.
    ghost Keeps: { Self → Self → Type 0 };

    /// What is promised of where the files that were handed out lie: those of users, and the common ones.
    ghost Lies: { Self → List (List FileBody) → List FileBody → Type 0 };

    /// Whether all of a user's blocks are in core.
    fn is_loaded(&self, user: UserNo) -> bool
        requires user { user < length (state self.now).held.sizes }
        ensures { result ≡ is_loaded (state self.now).held.places user (size (state self.now) user) };

    /// Brings all of a user's blocks into core, and says what that moved.
    fn load(&mut self, user: UserNo) -> Result<Plan, DrumFault>
        requires usable { Usable self.old }
        requires user { user < length (state self.old).held.sizes }
        ensures usable { OnOk result (Usable self.new) }
        ensures keeps { Keeps self.old self.new }
        ensures loads { Loads user result (state self.old) (state self.new) };

    /// Gives a user another size: its words are cut, or extended by plus zeros.
    fn resize(&mut self, user: UserNo, blocks: u8)
        requires usable { Usable self.old }
        requires user { user < length (state self.old).held.sizes }
        requires quota { blocks ≤ quota_of (state self.old).held.quotas user }
        ensures usable { Usable self.new }
        ensures keeps { Keeps self.old self.new }
        ensures resizes { Resizes user blocks (state self.old) (state self.new) };

    /// Gives a user so many blocks of plus zeros in place of all that it has.
    fn replace(&mut self, user: UserNo, blocks: u8)
        requires usable { Usable self.old }
        requires user { user < length (state self.old).held.sizes }
        requires quota { blocks ≤ quota_of (state self.old).held.quotas user }
        ensures usable { Usable self.new }
        ensures keeps { Keeps self.old self.new }
        ensures replaces { Replaces user blocks (state self.old) (state self.new) };

    /// A user's session is over: its blocks go, and its files of mode 0.
    fn hang_up(&mut self, user: UserNo)
        requires usable { Usable self.old }
        requires user { user < length (state self.old).held.sizes }
        requires directory { user ≤ (state self.old).held.users }
        ensures usable { Usable self.new }
        ensures keeps { Keeps self.old self.new }
        ensures hangs { HangsUp user (state self.old) (state self.new) };

    /// A step of the session of a user whose blocks are all in core.
    fn turn(&mut self, user: UserNo, session: &mut Session, now: u64) -> Result<Turn, StepFault>
        requires usable { Usable self.old }
        requires can { CanTurn user session.old (state self.old) }
        requires time { now < 2 ^ 35 }
        ensures turn { IfOk result (λ turn. Over (state self.old).disk_tells
            ((state self.old).window user) ((state self.new).window user) (IsTurn turn now session.old session.new)) }
        ensures user { KeepsUser result session.old session.new }
        ensures turned { HasTurned user result (state self.old) (state self.new) }
        ensures usable { ¬ IsErrOf result StepFault.Disk → Usable self.new }
        ensures keeps { Keeps self.old self.new };

    /// A step of the session of a user whose blocks are all in core, which is to make an operation on the common files: that is done,
    /// and the step goes on with the reply. Where memory lacks the operation may be done.
    fn share(
        &mut self,
        user: UserNo,
        session: &mut Session,
        op: &CommonOp,
        now: u64,
    ) -> Result<Made, StepFault>
        requires usable { Usable self.old }
        requires can { CanTurn user session.old (state self.old) }
        requires asks { IsToMake (state self.old).disk_tells ((state self.old).window user) op.now session.old }
        ensures made { IfOk result
            (λ made. Shared op.now made user now session.old session.new (state self.old) (state self.new)) }
        ensures user { KeepsUser result session.old session.new }
        ensures shared { HasShared user result (state self.old) (state self.new) }
        ensures usable { ¬ IsErrOf result StepFault.Disk → Usable self.new }
        ensures keeps { Keeps self.old self.new };

    /// As many instructions as go on, at most so many, of the session of a user whose blocks are all in core; and how many
    /// they were.
    fn advance(&mut self, user: UserNo, session: &mut Session, most: u64) -> u64
        requires usable { Usable self.old }
        requires core { IsInCore user (state self.old) }
        requires fits { session.old.own + most < 2 ^ 64 }
        ensures most { result ≤ most }
        ensures gone { HaveGone result session.old session.new
            ((state self.old).window user).core ((state self.new).window user).core }
        ensures advanced { HasAdvanced user (state self.old) (state self.new) }
        ensures usable { Usable self.new }
        ensures keeps { Keeps self.old self.new };

    /// All files. Nothing may be asked after it.
    fn take_lists(&mut self, alloc: Global) -> Result<Lists, StepFault>
        requires usable { Usable self.old }
        ensures lists { (state self.old).held.tells ≡ true → IfOk result (λ lists. lists.own.items
            ≡ lists_from 1 (state self.old).held.users (λ u. ((state self.old).held.stores u).files)) }
        ensures common { (state self.old).held.tells ≡ true
            → IfOk result (λ lists. lists.common ≡ ((state self.old).held.stores 0).files) }
        ensures lies { IfOk result (λ lists. Lies self.new lists.own.items lists.common) }
        ensures calls { (state self.new).calls ≡ (state self.old).calls }
        ensures faults { (state self.new).faults ≡ (state self.old).faults }
        ensures keeps { Keeps self.old self.new }
        ensures cause { IsErrOf result StepFault.Disk
            → Rose (state self.old).disk_faults (state self.new).disk_faults };

    ghost stays: { (a : Self) → Keeps a a };

    ghost goes_on: { (a b c : Self) → Keeps a b → Keeps b c → Keeps a c };
}

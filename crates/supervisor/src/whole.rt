//! Steps of the state together with what lies behind users' sessions, one after another.
ghost use Rattle.std.specs.Prelude.{◌≡◌, ◌<◌, ◌≤◌, ◌+◌, length, true, false, None, OnOk, OnErr, vec_len, vec_capacity};
ghost use Rattle.std.specs.Option.{is_some};
ghost use Rattle.user_session.specs.Stores.{IsToMake};
ghost use Rattle.plan_model.specs.Levels.{chosen, user_of};
ghost use Rattle.system_model.specs.Run.{next, taken, otherwise, attended, raised, due_of};
ghost use Rattle.system_model.specs.Cases.{broken_off, idled, user_at};
ghost use Rattle.system_model.specs.Sound.{HasSeat, IsUser};
ghost use Rattle.time_sharing.specs.System.{next_tick};
ghost use Rattle.supervisor.specs.Goes.{HasTime, IsToServe, IsFirst, MayPass, GivesUp, IsGoing, Leaves, LeavesDevices, WorksOn};
ghost use Rattle.supervisor.specs.Seen.{number_of};
ghost use Rattle.supervisor.specs.Whole.{whole, run_of, IsReady, HasBlocks, StepsBy, IsSame, LoadIsCut, AbsentIsCut, ServedIsCut, NextIsCut, NeverCut, Steps};

use crate::state::State;
use ctss_types::{
    Apart, CommonOp, Ending, Entry, NoMemory, RunFault, Service, StepFault, Timed, UserNo,
};
use level_queues::Chosen;
use user_cores::{Backing, Made, settle};
use user_session::Turn;

/// How far a user may go on alone: so many ticks at most, up to the limit, and up to the tick `still`, from which on another
/// user may rise.
#[derive(Clone, Copy)]
struct Stretch {
    most: u64,
    limit: u64,
    still: u64,
}

/// A user whose session is over gives up its core, and its files of mode 0.
fn give_up<C: Backing>(cores: &mut C, cut: Option<UserNo>)
    requires usable { C.Usable cores.old }
    requires user { number_of cut < length (C.state cores.old).held.sizes }
    requires directory { number_of cut ≤ (C.state cores.old).held.users }
    ensures gives { GivesUp cut (C.state cores.old) (C.state cores.new) }
    ensures usable { C.Usable cores.new }
    ensures keeps { C.Keeps cores.old cores.new }
{
    if let Some(user) = cut {
        cores.hang_up(user);
    }
}

impl State {
    /// The event that is due.
    fn hear<C: Backing>(&mut self, cores: &mut C, e: Timed) -> Result<(), NoMemory>
        requires going { IsGoing C.Backing self.old cores.old }
        requires seat { HasSeat e (run_of (whole self.old (C.state cores.old))) }
        ensures ok { OnOk result (StepsBy (taken e)
            (whole self.old (C.state cores.old)) (whole self.new (C.state cores.new))) }
        ensures err { OnErr result (IsSame (whole self.old (C.state cores.old)) (whole self.new (C.state cores.new))) }
        ensures leaves { LeavesDevices C.Backing self.old cores.old self.new cores.new }
    {
        let cut = self.take_event(e)?;
        give_up(cores, cut);
        Ok(())
    }

    /// The blocks of the user that is served are brought into core.
    #[inline(never)]
    fn swap_in<C: Backing>(&mut self, cores: &mut C, v: Service) -> Result<(), RunFault>
        requires going { IsGoing C.Backing self.old cores.old }
        requires user { IsUser v.user (run_of (whole self.old (C.state cores.old))) }
        requires absent { HasBlocks v.user false (whole self.old (C.state cores.old)) }
        requires in_time { self.old.clock ≤ 100000000 }
        ensures ended { Steps (attended v) (LoadIsCut v.user) result
            (whole self.old (C.state cores.old)) (whole self.new (C.state cores.new)) }
        ensures leaves { Leaves C.Backing result self.old cores.old self.new cores.new }
    {
        if self.entries.reserve(1).is_err() {
            return Err(RunFault::NoMemory);
        }
        match cores.load(v.user) {
            Ok(plan) => {
                self.note_swap(v.user, plan);
                Ok(())
            }
            Err(_) => Err(RunFault::Drum),
        }
    }

    /// A step of the user that is served, whose blocks are in core, makes its operation on the common files and goes on with
    /// the reply. It stands apart, since the reply is large and most steps make none.
    #[inline(never)]
    fn share<C: Backing>(
        &mut self,
        cores: &mut C,
        v: Service,
        op: Apart<CommonOp>,
    ) -> Result<(), RunFault>
        requires going { IsGoing C.Backing self.old cores.old }
        requires serves { IsToServe v (whole self.old (C.state cores.old)) }
        requires loaded { HasBlocks v.user true (whole self.old (C.state cores.old)) }
        requires makes { IsToMake (C.state cores.old).disk_tells ((C.state cores.old).window v.user) op
            (user_at v.user self.old.sessions.items) }
        requires room { vec_len self.old.entries + 4 ≤ vec_capacity self.old.entries }
        ensures ended { Steps (attended v) NeverCut result
            (whole self.old (C.state cores.old)) (whole self.new (C.state cores.new)) }
        ensures leaves { Leaves C.Backing result self.old cores.old self.new cores.new }
        ensures drum { (C.state cores.new).faults ≡ (C.state cores.old).faults }
    {
        let session = &mut self.sessions[v.user.index()];
        match cores.share(v.user, session, op.get(), self.clock) {
            Ok(Made { step, reply }) => {
                let blocks = session.blocks();
                settle(cores, v.user, step.ending, blocks);
                let entry = Entry::Common {
                    user: v.user.number(),
                    op,
                    reply,
                };
                self.count_shared(v, step, entry);
                Ok(())
            }
            Err(StepFault::Disk) => Err(RunFault::Disk),
            Err(StepFault::NoMemory) => Err(RunFault::NoMemory),
        }
    }

    /// A step of the user that is served, whose blocks are in core; where it can't step, it waits.
    #[inline(always)]
    fn serve<C: Backing>(&mut self, cores: &mut C, v: Service) -> Result<(), RunFault>
        requires going { IsGoing C.Backing self.old cores.old }
        requires serves { IsToServe v (whole self.old (C.state cores.old)) }
        requires loaded { HasBlocks v.user true (whole self.old (C.state cores.old)) }
        ensures ended { Steps (attended v) NeverCut result
            (whole self.old (C.state cores.old)) (whole self.new (C.state cores.new)) }
        ensures leaves { Leaves C.Backing result self.old cores.old self.new cores.new }
        ensures drum { (C.state cores.new).faults ≡ (C.state cores.old).faults }
    {
        if self.entries.reserve(4).is_err() {
            return Err(RunFault::NoMemory);
        }
        let session = &mut self.sessions[v.user.index()];
        match cores.turn(v.user, session, self.clock) {
            Ok(Turn::Waits) => {
                self.count_wait(v);
                Ok(())
            }
            Ok(Turn::Done(step)) => {
                let blocks = session.blocks();
                settle(cores, v.user, step.ending, blocks);
                self.count_step(v, step);
                Ok(())
            }
            Ok(Turn::Asks(op)) => self.share(cores, v, op),
            Err(StepFault::Disk) => Err(RunFault::Disk),
            Err(StepFault::NoMemory) => Err(RunFault::NoMemory),
        }
    }

    /// The user that is served: its blocks are brought in, or it steps.
    #[inline(always)]
    fn attend<C: Backing>(&mut self, cores: &mut C, v: Service) -> Result<(), RunFault>
        requires going { IsGoing C.Backing self.old cores.old }
        requires serves { IsToServe v (whole self.old (C.state cores.old)) }
        ensures ended { Steps (attended v) (AbsentIsCut v.user) result
            (whole self.old (C.state cores.old)) (whole self.new (C.state cores.new)) }
        ensures leaves { Leaves C.Backing result self.old cores.old self.new cores.new }
    {
        if !cores.is_loaded(v.user) {
            return self.swap_in(cores, v);
        }
        self.serve(cores, v)
    }

    /// A service ends, since its user isn't the head of the lowest level.
    #[inline(never)]
    fn preempt<C: Backing>(&mut self, cores: &mut C, v: Service) -> Result<(), NoMemory>
        requires going { IsGoing C.Backing self.old cores.old }
        ensures ok { OnOk result (StepsBy (broken_off v)
            (whole self.old (C.state cores.old)) (whole self.new (C.state cores.new))) }
        ensures err { OnErr result (IsSame (whole self.old (C.state cores.old)) (whole self.new (C.state cores.new))) }
        ensures leaves { LeavesDevices C.Backing self.old cores.old self.new cores.new }
    {
        self.break_off(v)?;
        Ok(())
    }

    /// Nobody waits: the clock goes on.
    fn idle_on<C: Backing>(&mut self, cores: &mut C, limit: u64)
        requires going { IsGoing C.Backing self.old cores.old }
        ensures does { StepsBy (idled limit) (whole self.old (C.state cores.old)) (whole self.new (C.state cores.new)) }
        ensures leaves { LeavesDevices C.Backing self.old cores.old self.new cores.new }
    {
        self.idle(limit);
    }

    /// No event is due: the head of the lowest level is served, or the service ends, or the clock goes on.
    #[inline(never)]
    #[tactic(auto, using(crate::proofs::Doing::go_idle, crate::proofs::Doing::go_end_none, crate::proofs::Doing::go_end))]
    fn go_on<C: Backing>(&mut self, cores: &mut C, limit: u64) -> Result<(), RunFault>
        requires going { IsGoing C.Backing self.old cores.old }
        requires time { HasTime limit self.old.clock }
        ensures ended { Steps (otherwise limit (user_of (chosen self.old.queues)) self.old.service) ServedIsCut result
            (whole self.old (C.state cores.old)) (whole self.new (C.state cores.new)) }
        ensures leaves { Leaves C.Backing result self.old cores.old self.new cores.new }
    {
        match (self.queues.choose(), self.service) {
            (None, None) => {
                self.idle_on(cores, limit);
                Ok(())
            }
            (None, Some(v)) => {
                self.preempt(cores, v)?;
                Ok(())
            }
            (Some(next), None) => self.attend(
                cores,
                Service {
                    tick: self.clock,
                    user: next.user,
                    level: next.level,
                    ran: 0,
                },
            ),
            (Some(next), Some(v)) => {
                if v.user == next.user {
                    return self.attend(cores, v);
                }
                self.preempt(cores, v)?;
                Ok(())
            }
        }
    }

    /// One step, at which an event is due.
    pub(crate) fn step_at<C: Backing>(&mut self, cores: &mut C, limit: u64) -> Result<(), RunFault>
        requires due { is_some (due_of self.old.events.items self.old.clock) ≡ true }
        requires going { IsGoing C.Backing self.old cores.old }
        requires time { HasTime limit self.old.clock }
        ensures ended { Steps (next limit) NextIsCut result
            (whole self.old (C.state cores.old)) (whole self.new (C.state cores.new)) }
        ensures leaves { Leaves C.Backing result self.old cores.old self.new cores.new }
    {
        match self.due() {
            Some(e) => {
                self.hear(cores, e)?;
                Ok(())
            }
            None => unreachable!(),
        }
    }

    /// A user has waited for so long that it rises.
    #[inline(never)]
    fn lift<C: Backing>(&mut self, cores: &mut C) -> Result<(), NoMemory>
        requires going { IsGoing C.Backing self.old cores.old }
        ensures ok { OnOk result (StepsBy raised
            (whole self.old (C.state cores.old)) (whole self.new (C.state cores.new))) }
        ensures err { OnErr result (IsSame (whole self.old (C.state cores.old)) (whole self.new (C.state cores.new))) }
        ensures leaves { LeavesDevices C.Backing self.old cores.old self.new cores.new }
    {
        self.raise()?;
        Ok(())
    }

    /// One step, at which no event is due. Where it is known to be one of the user whose service is open, nothing else is
    /// looked at.
    #[inline(always)]
    #[tactic(auto, using(crate::proofs::Doing::does_rise))]
    pub(crate) fn step_on<C: Backing>(
        &mut self,
        cores: &mut C,
        ready: bool,
        limit: u64,
    ) -> Result<(), RunFault>
        requires ready { ready ≡ true → IsReady (whole self.old (C.state cores.old)) }
        requires quiet { due_of self.old.events.items self.old.clock ≡ None }
        requires going { IsGoing C.Backing self.old cores.old }
        requires time { HasTime limit self.old.clock }
        ensures ended { Steps (next limit) NextIsCut result
            (whole self.old (C.state cores.old)) (whole self.new (C.state cores.new)) }
        ensures leaves { Leaves C.Backing result self.old cores.old self.new cores.new }
    {
        if ready {
            if let Some(v) = self.service {
                return self.serve(cores, v);
            }
        }
        if self.rises() {
            self.lift(cores)?;
            return Ok(());
        }
        self.go_on(cores, limit)
    }

    /// So many ticks at most may go by until something else than the user of the service is to be looked at: an event, the
    /// limit, another user that may rise, from the tick `still` on, or the end of the user's time, of which so many ticks are
    /// left.
    fn spare(&self, left: u64, limit: u64, still: u64) -> u64
        ensures left { 0 < result → result < left }
        ensures limit { 0 < result → self.now.clock + result ≤ limit }
        ensures quiet { 0 < result → self.now.clock + result ≤ next_tick limit self.now.events.items }
        ensures still { 0 < result → self.now.clock + result ≤ still }
    {
        let until = match self.events.front() {
            Some(e) => e.tick.min(limit),
            None => limit,
        };
        until
            .min(still)
            .saturating_sub(self.clock)
            .min(left.saturating_sub(1))
    }

    /// Instructions of the user of the service, one after another: as many as go on, at most so many; and whether the next step
    /// is known to be that user's too, as it is where they were fewer.
    fn work<C: Backing>(
        &mut self,
        cores: &mut C,
        v: Service,
        next: Chosen,
        stretch: Stretch,
    ) -> bool
        requires going { IsGoing C.Backing self.old cores.old }
        requires first { IsFirst v next (whole self.old (C.state cores.old)) }
        requires loaded { HasBlocks v.user true (whole self.old (C.state cores.old)) }
        requires spare { MayPass stretch.most v.user next.left stretch.limit stretch.still
            (whole self.old (C.state cores.old)) }
        requires limit { stretch.limit ≤ 100000000 }
        ensures works { WorksOn C.Backing stretch.limit self.old cores.old self.new cores.new }
        ensures ready { result ≡ true → IsReady (whole self.new (C.state cores.new)) }
    {
        let session = &mut self.sessions[v.user.index()];
        let ticks = cores.advance(v.user, session, stretch.most);
        self.count_ticks(v, ticks);
        ticks < stretch.most
    }

    /// Instructions of the user of the service, if it is the head of the lowest level and all its blocks are in core, until
    /// something else is to be looked at; and whether the next step is known to be that user's too.
    #[tactic(auto, using(crate::proofs::Passing::stands_still))]
    fn work_on<C: Backing>(&mut self, cores: &mut C, v: Service, next: Chosen, limit: u64) -> bool
        requires going { IsGoing C.Backing self.old cores.old }
        requires first { IsFirst v next (whole self.old (C.state cores.old)) }
        requires limit { limit ≤ 100000000 }
        ensures works { WorksOn C.Backing limit self.old cores.old self.new cores.new }
        ensures ready { result ≡ true → IsReady (whole self.new (C.state cores.new)) }
    {
        if !cores.is_loaded(v.user) {
            return false;
        }
        let served = Some(v.user);
        let still = self.queues.still_until(&served);
        let most = self.spare(next.left, limit, still);
        if most == 0 {
            return false;
        }
        self.work(cores, v, next, Stretch { most, limit, still })
    }

    /// As many instructions of the user of the service as can be done before anything else is to be looked at, one after
    /// another: each is a step, but none of them asks again whom to serve. The answer is whether the next step is known to be one
    /// of that user too.
    #[tactic(auto, using(crate::proofs::Passing::stands_still))]
    pub(crate) fn run<C: Backing>(&mut self, cores: &mut C, limit: u64) -> bool
        requires going { IsGoing C.Backing self.old cores.old }
        requires limit { limit ≤ 100000000 }
        ensures works { WorksOn C.Backing limit self.old cores.old self.new cores.new }
        ensures ready { result ≡ true → IsReady (whole self.new (C.state cores.new)) }
    {
        match (self.queues.choose(), self.service) {
            (Some(next), Some(v)) => {
                if v.user != next.user {
                    return false;
                }
                self.work_on(cores, v, next, limit)
            }
            (None, _) | (Some(_), None) => false,
        }
    }
}

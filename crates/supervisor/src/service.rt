//! Whom the queues serve, and how a service ends.
ghost use Rattle.std.specs.Prelude.{◌≡◌, ◌<◌, ◌≤◌, ◌+◌, ◌-◌, suc, ◌∷◌, [], length, vec_len, vec_capacity, Some};
ghost use Rattle.time_sharing.specs.System.{served_of};
ghost use Rattle.plan_model.specs.Levels.{chosen, user_of};
ghost use Rattle.system_model.specs.Cases.{idled, broken_off, waited};
ghost use Rattle.system_model.specs.Joined.{counted, moved};
ghost use Rattle.system_model.specs.Run.{rising, raised};
ghost use Rattle.system_model.specs.Runs.{elapsed};
ghost use Rattle.plan_model.specs.Loads.{no_places};
ghost use Rattle.std.specs.Option.{is_some};
ghost use Rattle.supervisor.specs.Seen.{left_queues, Becomes, BecomesIf, StaysIf, run_seen};

use crate::state::State;
use ctss_types::{Cause, Ending, Entry, NoMemory, Service, UserNo};
use level_queues::{Charge, Queues};
use schedule_notes::{cause_of, idle_from, leave_consoles, note, note_clock, note_step};
use user_cores::Plan;
use user_session::Step;

/// What a service's end does to the queues, of a user with unread lines or none.
#[inline(never)]
#[tactic(auto, using(level_queues::proofs::Counts::not_waits))]
fn leave_for(queues: &mut Queues, cause: Cause, user: UserNo, unread: bool, blocks: u8, now: u64)
    requires { blocks ≤ 128 }
    ensures { queues.new ≡ left_queues (Some cause) user unread blocks now queues.old }
{
    match cause {
        Cause::Stop => {
            queues.drop_user(user);
            if unread {
                queues.enter(user, 4, now);
            }
        }
        Cause::Size => {
            queues.drop_user(user);
            queues.enter(user, blocks, now);
        }
        Cause::Wait => queues.drop_user(user),
        Cause::Time | Cause::Preempt | Cause::End => {}
    }
}

/// What a step does to the queues by the end of its service, if it ends it. Mostly it doesn't.
#[inline(always)]
fn leave(
    queues: &mut Queues,
    cause: Option<Cause>,
    user: UserNo,
    unread: bool,
    blocks: u8,
    now: u64,
)
    requires { blocks ≤ 128 }
    ensures { queues.new ≡ left_queues cause user unread blocks now queues.old }
{
    match cause {
        Some(cause) => leave_for(queues, cause, user, unread, blocks, now),
        None => queues.look_ahead(Some(user), now),
    }
}

/// The tick after a step.
fn tick_after(clock: u64) -> u64
    requires { clock ≤ 100000000 }
    ensures { result ≡ suc clock }
{
    clock + 1
}

impl State {
    /// Nobody waits: the clock goes on.
    #[tactic(auto, unfolding(system_model::specs::Cases::idled))]
    pub(crate) fn idle(&mut self, limit: u64)
        ensures { Becomes (idled limit) self.old self.new }
    {
        self.idling = Some(idle_from(self.idling, self.clock));
        self.clock = match self.events.front() {
            Some(e) => e.tick.min(limit),
            None => limit,
        };
    }

    /// A service ends with no step, since its user isn't the head of the lowest level.
    #[tactic(auto, unfolding(system_model::specs::Cases::broken_off))]
    pub(crate) fn break_off(&mut self, v: Service) -> Result<(), NoMemory>
        ensures ok { BecomesIf result (broken_off v) self.old self.new }
        ensures err { StaysIf result self.old self.new }
    {
        self.entries.reserve(1)?;
        self.queues.preempt(v.user, self.clock);
        note(
            &mut self.entries,
            Entry::Serve {
                tick: v.tick,
                user: v.user.number(),
                level: v.level,
                ran: v.ran,
                cause: Cause::Preempt,
            },
        );
        self.service = None;
        Ok(())
    }

    /// The user whose service is open.
    fn served(&self) -> Option<UserNo>
        ensures { result ≡ served_of self.now.service }
    {
        match self.service {
            None => None,
            Some(v) => Some(v.user),
        }
    }

    /// Whether a user has waited for so long that it rises.
    #[tactic(auto, using(crate::proofs::Serving::up_too))]
    pub(crate) fn rises(&self) -> bool
        ensures { result ≡ is_some (rising (run_seen no_places self.now)) }
    {
        let served = self.served();
        self.queues.rises(&served, self.clock)
    }

    /// The user that rises does.
    #[tactic(auto, unfolding(system_model::specs::Run::rise))]
    pub(crate) fn raise(&mut self) -> Result<(), NoMemory>
        ensures ok { BecomesIf result raised self.old self.new }
        ensures err { StaysIf result self.old self.new }
    {
        self.entries.reserve(1)?;
        let served = self.served();
        match self.queues.rise(served, self.clock) {
            None => Ok(()),
            Some(risen) => {
                note(
                    &mut self.entries,
                    Entry::Rise {
                        tick: self.clock,
                        user: risen.user.number(),
                        level: risen.level,
                    },
                );
                Ok(())
            }
        }
    }

    /// A user's blocks were brought into core, which costs ticks for each block that was moved.
    #[tactic(auto, unfolding(system_model::specs::Joined::moved))]
    pub(crate) fn note_swap(&mut self, user: UserNo, plan: Plan)
        requires room { vec_len self.old.entries < vec_capacity self.old.entries }
        requires in_time { self.old.clock ≤ 100000000 }
        ensures { Becomes (moved user plan.dumped plan.read plan.fresh) self.old self.new }
    {
        note(
            &mut self.entries,
            Entry::Swap {
                tick: self.clock,
                user: user.number(),
                dumped: plan.dumped,
                read: plan.read,
                fresh: plan.fresh,
            },
        );
        let moved = u64::from(plan.dumped) + u64::from(plan.read);
        self.clock += u64::from(self.swap) * moved;
    }

    /// The clock, the queues and the service after a step of the user that is served, which made no common operation.
    #[inline(always)]
    #[tactic(auto, unfolding(system_model::specs::Joined::counted))]
    pub(crate) fn count_step(&mut self, v: Service, step: Step)
        requires room { vec_len self.old.entries + 2 ≤ vec_capacity self.old.entries }
        requires within { v.user ≤ length self.old.sessions.items }
        requires chosen { user_of (chosen self.old.queues) ≡ Some v.user }
        requires ran { v.ran ≤ self.old.clock }
        requires in_time { self.old.clock ≤ 100000000 }
        ensures { Becomes (counted v step.ending step.clock []) self.old self.new }
    {
        let user = v.user;
        let session = &self.sessions[user.index()];
        let unread = session.has_line();
        let blocks = session.blocks();
        let now = tick_after(self.clock);
        let left = match self.queues.charge(user, now) {
            Charge::Goes => true,
            Charge::Spent => false,
        };
        let cause = cause_of(step.ending, left);
        leave(&mut self.queues, cause, user, unread, blocks, now);
        if step.ending == Ending::LoggedOut {
            leave_consoles(&mut self.consoles, user);
        }
        note_clock(&mut self.entries, step.clock, self.clock, user);
        self.clock = now;
        self.service = note_step(&mut self.entries, v, cause);
    }

    /// The same after a step that made a common operation, with its entry.
    pub(crate) fn count_shared(&mut self, v: Service, step: Step, common: Entry)
        requires room { vec_len self.old.entries + 4 ≤ vec_capacity self.old.entries }
        requires within { v.user ≤ length self.old.sessions.items }
        requires chosen { user_of (chosen self.old.queues) ≡ Some v.user }
        requires ran { v.ran ≤ self.old.clock }
        requires in_time { self.old.clock ≤ 100000000 }
        ensures { Becomes (counted v step.ending step.clock (common ∷ [])) self.old self.new }
    {
        note_clock(&mut self.entries, step.clock, self.clock, v.user);
        note(&mut self.entries, common);
        let rest = Step {
            ending: step.ending,
            clock: false,
        };
        self.count_step(v, rest);
    }

    /// The clock, the queues and the service after so many steps of the user that is served, which went on.
    #[tactic(auto, unfolding(system_model::specs::Runs::elapsed))]
    pub(crate) fn count_ticks(&mut self, v: Service, ticks: u64)
        requires ran { v.ran ≤ self.old.clock }
        requires in_time { self.old.clock + ticks ≤ 100000000 }
        ensures { Becomes (elapsed ticks v) self.old self.new }
    {
        self.queues.spend(v.user, ticks);
        self.clock += ticks;
        self.service = Some(Service {
            tick: v.tick,
            user: v.user,
            level: v.level,
            ran: v.ran + ticks,
        });
    }

    /// A chosen user that can't step.
    #[tactic(auto, unfolding(system_model::specs::Cases::waited))]
    pub(crate) fn count_wait(&mut self, v: Service)
        requires room { vec_len self.old.entries < vec_capacity self.old.entries }
        requires within { v.user ≤ length self.old.sessions.items }
        requires chosen { user_of (chosen self.old.queues) ≡ Some v.user }
        requires ran { v.ran ≤ self.old.clock }
        requires in_time { self.old.clock ≤ 100000000 }
        ensures { Becomes (waited v) self.old self.new }
    {
        let now = self.clock + 1;
        let _ = self.queues.charge(v.user, now);
        self.queues.drop_user(v.user);
        note(
            &mut self.entries,
            Entry::Serve {
                tick: v.tick,
                user: v.user.number(),
                level: v.level,
                ran: v.ran + 1,
                cause: Cause::Wait,
            },
        );
        self.clock = now;
        self.service = None;
    }
}

ghost use Rattle.std.specs.Prelude.{◌≡◌, ◌≤◌, ◌<◌, ◌+◌, ◌↔◌, Some, None, false, drop, IfSome, IfNone};
ghost use Rattle.std.specs.Option.{is_some};
ghost use Rattle.plan_model.specs.Levels.{empty_levels, chosen, waits, entered, dropped, charged, sunk, ticked, enter_at, has_time, level_in, left_in, user_of, IsChosen, preempted, riser, goes_up, risen};
ghost use Rattle.plan_model.specs.Spent.{spent, NobodyRises};
ghost use Rattle.level_queues.specs.Sound.{covers, AreLater};

use crate::row::{
    Row, add_in, drop_in_all, earliest_above, first_in, first_waiting_in, has_in_any, level_of,
    lowest_in, spend_in_all, wait_from_in_all,
};
use ctss_types::{UserNo, Waiting};
use std::marker::Model;

/// The user that is served next, its level, and the ticks that are left of its time.
#[derive(Clone, Copy, Debug, PartialEq, Eq)]
pub struct Chosen {
    pub user: UserNo,
    pub level: u8,
    pub left: u64,
}

/// Whether what is known of all users but one is known of all but the one that is served.
fn covers(besides: &Option<UserNo>, served: &Option<UserNo>) -> bool
    ensures { result ≡ covers besides.now served.now }
{
    match besides {
        None => true,
        Some(user) => match served {
            None => false,
            Some(v) => user.number() == v.number(),
        },
    }
}

/// Whether a charged user keeps its place or has sunk.
#[derive(Clone, Copy, Debug, PartialEq, Eq)]
pub enum Charge {
    Goes,
    Spent,
}

/// A user that has risen, and the level that it has risen to.
#[derive(Clone, Copy, Debug, PartialEq, Eq)]
pub struct Risen {
    pub user: UserNo,
    pub level: u8,
}

/// The rows of the levels 0 to 8. Each user of 1 to 30 stands in them at most once.
#[derive(Drop)]
pub struct Queues {
    wq: u32,
    quantum: u64,
    age: u64,
    rows: [Row; 9],
    /// The levels below it have no users, so that nobody looks for one there.
    low: u8,
    /// Before this tick no user above level 0 but one rises, so that nobody looks for one that does.
    soon: u64,
    /// The one of which `soon` says nothing.
    besides: Option<UserNo>,
}

impl Model for Queues {
    ghost use Rattle.std.specs.Prelude.{◌≤◌};
    ghost use Rattle.plan_model.specs.Levels.{Levels};
    ghost use Rattle.level_queues.specs.Sound.{IsSound, AreEmpty, RiseLater};

    ghost Value = { Levels };

    ghost view = { λ q. record { wq = q.wq; quantum = q.quantum; age = q.age; rows = q.rows } };

    ghost invariant = { λ q. IsSound q.wq q.quantum q.rows × AreEmpty q.low q.rows × (q.low ≤ 8)
        × RiseLater q.age q.soon q.besides q.rows };
}

/// `soon` with one user more: at level 0 it doesn't count.
fn soon_with(soon: u64, level: u8, now: u64, age: u64) -> u64
    ensures under { result ≤ soon }
    ensures later { 0 < level → result ≤ now + age }
{
    if level == 0 {
        soon
    } else {
        soon.min(now.saturating_add(age))
    }
}

impl Queues {
    /// Nobody waits. `wq` is the words of a level, `quantum` the ticks of level 0's time, `age` the ticks after which a user
    /// that waits rises; with 0 nobody does.
    #[tactic(auto, using(crate::proofs::Rising::rise_none))]
    pub fn new(wq: u32, quantum: u64, age: u64) -> Queues
        requires some { 1 ≤ wq }
        requires small { quantum ≤ 1000000 }
        ensures { result ≡ empty_levels wq quantum age }
    {
        let rows = [
            Row::new(),
            Row::new(),
            Row::new(),
            Row::new(),
            Row::new(),
            Row::new(),
            Row::new(),
            Row::new(),
            Row::new(),
        ];
        Queues {
            wq,
            quantum,
            age,
            rows,
            low: 8,
            soon: u64::MAX,
            besides: None,
        }
    }

    #[tactic(auto, unfolding(plan_model::specs::Levels::chosen))]
    fn first(&self) -> Option<(u8, Waiting)>
        ensures value { result ≡ chosen self.now }
        ensures small { IfSome result (λ x. x.0 ≤ 8) }
        ensures known { IfSome result (λ x. (1 ≤ x.1.user) × (x.1.user ≤ 30)) }
    {
        first_in(&self.rows, self.low)
    }

    /// The user that is served next: the head of the lowest row that isn't empty.
    pub fn choose(&self) -> Option<Chosen>
        ensures none { IfNone result (chosen self.now ≡ None) }
        ensures some { IfSome result (λ c. IsChosen c.user c.level c.left self.now) }
        ensures small { IfSome result (λ c. c.level ≤ 8) }
    {
        match self.first() {
            Some((level, waiting)) => Some(Chosen {
                user: UserNo::of(waiting.user),
                level,
                left: waiting.left,
            }),
            None => None,
        }
    }

    /// Whether the user stands in a row.
    #[tactic(auto, unfolding(plan_model::specs::Levels::waits))]
    pub fn holds(&self, user: UserNo) -> bool
        ensures { result ≡ waits user self.now }
    {
        has_in_any(&self.rows, user.number())
    }

    /// The user goes out; the others keep their order.
    #[tactic(auto, unfolding(plan_model::specs::Levels::dropped))]
    pub fn drop_user(&mut self, user: UserNo)
        ensures { self.new ≡ dropped user self.old }
    {
        drop_in_all(&mut self.rows, user.number());
        self.low = lowest_in(&self.rows, self.low);
    }

    #[tactic(auto, using(crate::proofs::Counts::entering), unfolding(plan_model::specs::Levels::waits))]
    fn enter_at(&mut self, level: u8, user: UserNo, now: u64)
        requires small { level ≤ 8 }
        requires out { waits user self.old ≡ false }
        ensures { self.new ≡ enter_at level user now self.old }
    {
        let left = self.quantum << level;
        add_in(
            &mut self.rows,
            level,
            Waiting {
                user: user.number(),
                left,
                since: now,
            },
        );
        self.low = self.low.min(level);
        self.soon = soon_with(self.soon, level, now, self.age);
    }

    /// The user enters at the level of so many blocks, with that level's full time.
    #[tactic(auto, unfolding(plan_model::specs::Levels::entered))]
    pub fn enter(&mut self, user: UserNo, blocks: u8, now: u64)
        requires few { blocks ≤ 128 }
        requires out { waits user self.old ≡ false }
        ensures { self.new ≡ entered blocks user now self.old }
    {
        let level = level_of(blocks, self.wq);
        self.enter_at(level, user, now);
    }

    #[inline(always)]
    #[tactic(auto, unfolding(plan_model::specs::Levels::ticked))]
    fn tick(&mut self, user: UserNo)
        ensures { self.new ≡ ticked user self.old }
    {
        spend_in_all(&mut self.rows, self.low, user.number(), 1);
    }

    /// So many ticks of a user's time go by; it keeps its place.
    #[tactic(auto, unfolding(plan_model::specs::Spent::spent))]
    pub fn spend(&mut self, user: UserNo, ticks: u64)
        ensures { self.new ≡ spent ticks user self.old }
    {
        spend_in_all(&mut self.rows, self.low, user.number(), ticks);
    }

    #[tactic(auto, using(crate::proofs::Counts::not_waits), unfolding(plan_model::specs::Levels::sunk))]
    fn sink(&mut self, user: UserNo, now: u64)
        ensures { self.new ≡ sunk user now self.old }
    {
        let level = match self.first() {
            Some((level, _)) => level,
            None => 0,
        };
        self.drop_user(user);
        self.enter_at((level + 1).min(8), user, now);
    }

    fn has_time(&self) -> bool
        ensures { result ≡ has_time self.now }
    {
        match self.first() {
            Some((_, waiting)) => waiting.left > 1,
            None => false,
        }
    }

    /// A tick is charged to the user that is chosen. At the last tick of its time it sinks to the tail of the next row,
    /// of which 8 is the last, with that row's full time.
    #[inline(always)]
    #[tactic(auto, unfolding(plan_model::specs::Levels::charged))]
    pub fn charge(&mut self, user: UserNo, now: u64) -> Charge
        requires chosen { user_of (chosen self.old) ≡ Some user }
        ensures value { self.new ≡ charged user now self.old }
        ensures spent { (result ≡ Charge.Spent) ↔ (has_time self.old ≡ false) }
    {
        if self.has_time() {
            self.tick(user);
            Charge::Goes
        } else {
            self.sink(user, now);
            Charge::Spent
        }
    }

    /// A preempted user keeps its place and its time, and waits from now on.
    #[tactic(auto, unfolding(plan_model::specs::Levels::preempted))]
    pub fn preempt(&mut self, user: UserNo, now: u64)
        ensures { self.new ≡ preempted user now self.old }
    {
        wait_from_in_all(&mut self.rows, user.number(), now);
        self.soon = self.soon.min(now.saturating_add(self.age));
    }

    /// A tick before which nobody rises, where this user is served. It may be too low.
    pub fn still_until(&self, served: &Option<UserNo>) -> u64
        ensures { NobodyRises served.now result self.now }
    {
        if self.age == 0 {
            return u64::MAX;
        }
        if covers(&self.besides, served) {
            self.soon
        } else {
            0
        }
    }

    /// The user that rises, and the level from which it does.
    #[tactic(auto, unfolding(plan_model::specs::Levels::riser))]
    fn due(&self, served: &Option<UserNo>, now: u64) -> Option<(u8, Waiting)>
        ensures value { result ≡ riser served.now now self.now }
        ensures small { IfSome result (λ x. (1 ≤ x.0) × (x.0 ≤ 8)) }
        ensures known { IfSome result (λ x. (1 ≤ x.1.user) × (x.1.user ≤ 30)) }
    {
        if self.age == 0 {
            return None;
        }
        first_waiting_in(&self.rows, self.age, served, now)
    }

    /// Whether a user rises, where this one is served.
    #[tactic(auto, using(crate::proofs::Rising::none_yet))]
    pub fn rises(&self, served: &Option<UserNo>, now: u64) -> bool
        ensures { result ≡ is_some (riser served.now now self.now) }
    {
        if now < self.still_until(served) {
            return false;
        }
        self.due(served, now).is_some()
    }

    /// Where it isn't known any more that nobody rises, it is looked up from when on a user does while this one is served.
    #[inline(always)]
    pub fn look_ahead(&mut self, served: Option<UserNo>, now: u64)
        ensures { self.new ≡ self.old }
    {
        if now < self.still_until(&served) {
            return;
        }
        self.soon = earliest_above(&self.rows, self.age, &served, u64::MAX);
        self.besides = served;
    }

    #[tactic(auto, using(crate::proofs::Counts::not_waits), unfolding(plan_model::specs::Levels::risen))]
    fn lift(&mut self, user: UserNo, level: u8, now: u64)
        requires { level ≤ 8 }
        ensures { self.new ≡ risen user level now self.old }
    {
        self.drop_user(user);
        self.enter_at(level, user, now);
    }

    /// A user rises, if one has waited for long enough: of the users above level 0 but the one whose service is open the one
    /// of the lowest level, nearest to its head, goes to the tail of the level below it with that level's full time.
    pub fn rise(&mut self, served: Option<UserNo>, now: u64) -> Option<Risen>
        ensures none { IfNone result ((goes_up (riser served now self.old) ≡ None) × (self.new ≡ self.old)) }
        ensures some { IfSome result (λ r. (goes_up (riser served now self.old) ≡ Some (r.user, r.level))
            × (self.new ≡ risen r.user r.level now self.old)) }
        ensures level { IfSome result (λ r. r.level < 8) }
    {
        match self.due(&served, now) {
            None => None,
            Some((level, waiting)) => {
                let user = UserNo::of(waiting.user);
                self.lift(user, level - 1, now);
                Some(Risen {
                    user,
                    level: level - 1,
                })
            }
        }
    }
}

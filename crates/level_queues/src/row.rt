ghost use Rattle.std.specs.Prelude.{◌≡◌, ◌<◌, ◌≤◌, ◌+◌, ◌*◌, ◌/◌, ◌^◌, ◌++◌, ◌∷◌, [], ℕ, false, map, length, IfSome, IsSome, set, get_or, drop};
ghost use Rattle.std.specs.List.{list_any};
ghost use Rattle.plan_model.specs.Spent.{less};
ghost use Rattle.level_queues.specs.Sound.{times, count, AreEmpty, RowIsLater, AreLater};
ghost use Rattle.plan_model.specs.Levels.{is_user, is_in, without_user, first_of, head_of, greatest, level_of_words, from_now, is_served, has_waited, first_that, first_with};
ghost use Rattle.arrayvec.specs.ArrayVec.{array_vec_len};

use arrayvec::ArrayVec;
use ctss_types::{UserNo, Waiting};
use std::marker::Model;

/// A level's users, the next one first. 30 is the most that there are.
#[derive(Drop)]
pub(crate) struct Row {
    items: ArrayVec<Waiting, 31>,
}

impl Model for Row {
    ghost use Rattle.std.specs.Prelude.{List};
    ghost use Rattle.ctss_types.specs.declared.session.Waiting.{Waiting};

    ghost Value = { List Waiting };

    ghost view = { λ r. r.items.items };
}

impl Row {
    /// A level without users.
    pub(crate) fn new() -> Row
        ensures { result ≡ [] }
    {
        Row {
            items: ArrayVec::new(),
        }
    }

    /// A user more, behind the others.
    pub(crate) fn add(&mut self, waiting: Waiting)
        requires { length self.old < 31 }
        ensures { self.new ≡ self.old ++ waiting ∷ [] }
    {
        self.items.push(waiting);
    }

    /// Whether a user stands in the row.
    pub(crate) fn has(&self, user: u8) -> bool
        ensures { result ≡ list_any (is_user user) self.now }
    {
        self.items
            .as_slice()
            .iter()
            .any(|waiting| waiting.user == user)
    }

    /// A user leaves the row.
    pub(crate) fn drop_user(&mut self, user: u8)
        ensures { self.new ≡ without_user user self.old }
    {
        self.items.retain(|waiting| waiting.user != user);
    }

    /// So many ticks of a user's quantum go by, if the user stands in the row; and whether it does.
    pub(crate) fn spend(&mut self, user: u8, ticks: u64) -> bool
        requires { times user self.old ≤ 1 }
        ensures spent { self.new ≡ map (less ticks user) self.old }
        ensures stands { result ≡ list_any (is_user user) self.old }
    {
        spend_each(self.items.as_mut_slice(), user, ticks)
    }

    /// A user waits from now on, if it stands in the row.
    pub(crate) fn wait_from(&mut self, user: u8, now: u64)
        ensures { self.new ≡ map (from_now user now) self.old }
    {
        wait_from_each(self.items.as_mut_slice(), user, now);
    }

    /// The first user that has waited for so many ticks and isn't served.
    pub(crate) fn first_waiting(
        &self,
        age: u64,
        served: &Option<UserNo>,
        now: u64,
    ) -> Option<Waiting>
        requires { 0 < age }
        ensures { result ≡ first_that (has_waited age served.now now) self.now }
    {
        first_waiting_of(self.items.as_slice(), age, served, now)
    }

    /// A tick, at most `soon`, before which no user of the row but one has waited for so many ticks.
    pub(crate) fn earliest(&self, age: u64, besides: &Option<UserNo>, soon: u64) -> u64
        ensures under { result ≤ soon }
        ensures later { RowIsLater age result besides.now self.now }
    {
        earliest_of(self.items.as_slice(), age, besides, soon)
    }

    /// The next user.
    pub(crate) fn head(&self) -> Option<Waiting>
        ensures { result ≡ head_of self.now }
    {
        self.items.as_slice().first().copied()
    }
}

/// So many ticks of a user's quantum go by, if the user is among these; and whether it is.
fn spend_each(items: &mut [Waiting], user: u8, ticks: u64) -> bool
    requires { times user items.old ≤ 1 }
    ensures spent { items.new ≡ map (less ticks user) items.old }
    ensures stands { result ≡ list_any (is_user user) items.old }
{
    for i in 0..items.len() {
        if items[i].user == user {
            items[i].left = items[i].left.saturating_sub(ticks);
            return true;
        }
    }
    false
}

/// A user waits from now on.
fn waiting_from(waiting: Waiting, user: u8, now: u64) -> Waiting
    ensures { result ≡ from_now user now waiting }
{
    if waiting.user == user {
        Waiting {
            user: waiting.user,
            left: waiting.left,
            since: now,
        }
    } else {
        waiting
    }
}

/// A user waits from now on, if it is among these.
fn wait_from_each(items: &mut [Waiting], user: u8, now: u64)
    ensures { items.new ≡ map (from_now user now) items.old }
{
    for item in items.iter_mut() {
        *item = waiting_from(*item, user, now);
    }
}

/// Whether it is this user's service that is open.
fn is_served(served: &Option<UserNo>, user: u8) -> bool
    ensures { result ≡ is_served served.now user }
{
    match served {
        None => false,
        Some(v) => v.number() == user,
    }
}

/// Whether a user has waited for so many ticks and isn't served.
#[tactic(auto, using(crate::proofs::Rising::waited_so_long))]
fn has_waited(waiting: &Waiting, age: u64, served: &Option<UserNo>, now: u64) -> bool
    requires { 0 < age }
    ensures { result ≡ has_waited age served.now now waiting.now }
{
    !is_served(served, waiting.user) && now.saturating_sub(waiting.since) >= age
}

/// The first that has waited for so many ticks and isn't served.
fn first_waiting_of(
    items: &[Waiting],
    age: u64,
    served: &Option<UserNo>,
    now: u64,
) -> Option<Waiting>
    requires { 0 < age }
    ensures { result ≡ first_that (has_waited age served.now now) items.now }
{
    match items {
        [] => None,
        [waiting, rest @ ..] => {
            if has_waited(waiting, age, served, now) {
                Some(*waiting)
            } else {
                first_waiting_of(rest, age, served, now)
            }
        }
    }
}

/// The tick at which a user has waited for so many ticks, but at most `soon`; where it is the one that doesn't count, `soon`.
fn sooner(waiting: &Waiting, age: u64, besides: &Option<UserNo>, soon: u64) -> u64
    ensures under { result ≤ soon }
    ensures later { is_served besides.now waiting.now.user ≡ false → result ≤ waiting.now.since + age }
{
    if is_served(besides, waiting.user) {
        soon
    } else {
        soon.min(waiting.since.saturating_add(age))
    }
}

/// A tick, at most `soon`, before which none of these users but one has waited for so many ticks.
fn earliest_of(items: &[Waiting], age: u64, besides: &Option<UserNo>, soon: u64) -> u64
    ensures under { result ≤ soon }
    ensures later { RowIsLater age result besides.now items.now }
{
    match items {
        [] => soon,
        [waiting, rest @ ..] => earliest_of(
            rest,
            age,
            besides,
            sooner(waiting, age, besides, soon),
        ),
    }
}

/// A tick, at most `soon`, before which no user of these rows but one has waited for so many ticks.
fn earliest_in(rows: &[Row], age: u64, besides: &Option<UserNo>, soon: u64) -> u64
    ensures under { result ≤ soon }
    ensures later { AreLater age result besides.now rows.now }
{
    match rows {
        [] => soon,
        [row, rest @ ..] => earliest_in(rest, age, besides, row.earliest(age, besides, soon)),
    }
}

/// The same of all levels above the first of these. It stands apart, as it is rarely come to.
#[inline(never)]
pub(crate) fn earliest_above(rows: &[Row], age: u64, besides: &Option<UserNo>, soon: u64) -> u64
    ensures { AreLater age result besides.now (drop 1 rows.now) }
{
    match rows {
        [] => soon,
        [_, rest @ ..] => earliest_in(rest, age, besides, soon),
    }
}

/// The first user above level 0 that has waited for so many ticks and isn't served, with its level.
pub(crate) fn first_waiting_in(
    rows: &[Row],
    age: u64,
    served: &Option<UserNo>,
    now: u64,
) -> Option<(u8, Waiting)>
    requires few { length rows.now ≤ 9 }
    requires some { 0 < age }
    ensures value { result ≡ first_with (has_waited age served.now now) 1 (drop 1 rows.now) }
    ensures small { IfSome result (λ x. (1 ≤ x.0) × (x.0 ≤ 8)) }
{
    for level in 1..rows.len() {
        if let Some(waiting) = rows[level].first_waiting(age, served, now) {
            return Some((level as u8, waiting));
        }
    }
    None
}

/// A user waits from now on, in whichever row it stands.
#[tactic(auto, using(crate::proofs::Counts::over_more))]
pub(crate) fn wait_from_in_all(rows: &mut [Row], user: u8, now: u64)
    ensures { rows.new ≡ map (map (from_now user now)) rows.old }
{
    for row in rows.iter_mut() {
        row.wait_from(user, now);
    }
}

/// So many ticks of a user's quantum go by, in whichever row it stands. The first `low` rows have no users.
#[inline(always)]
pub(crate) fn spend_in_all(rows: &mut [Row], low: u8, user: u8, ticks: u64)
    requires once { count user rows.old ≤ 1 }
    requires empty { AreEmpty low rows.old }
    ensures { rows.new ≡ map (map (less ticks user)) rows.old }
{
    for i in low as usize..rows.len() {
        if rows[i].spend(user, ticks) {
            return;
        }
    }
}

/// A user leaves all rows.
#[tactic(auto, using(crate::proofs::Counts::over_more))]
pub(crate) fn drop_in_all(rows: &mut [Row], user: u8)
    ensures { rows.new ≡ map (without_user user) rows.old }
{
    for row in rows.iter_mut() {
        row.drop_user(user);
    }
}

/// Whether a user stands in any row.
pub(crate) fn has_in_any(rows: &[Row], user: u8) -> bool
    ensures { result ≡ is_in user rows.now }
{
    for row in rows {
        if row.has(user) {
            return true;
        }
    }
    false
}

/// The level of the first row that has a user, and its next user. The first `low` rows have no users.
pub(crate) fn first_in(rows: &[Row], low: u8) -> Option<(u8, Waiting)>
    requires few { length rows.now ≤ 9 }
    requires empty { AreEmpty low rows.now }
    ensures value { result ≡ first_of 0 rows.now }
    ensures small { IfSome result (λ x. x.0 ≤ 8) }
{
    for level in low as usize..rows.len() {
        if let Some(waiting) = rows[level].head() {
            return Some((level as u8, waiting));
        }
    }
    None
}

/// How many of the first rows have no users, but at most 8. The first `low` have none.
pub(crate) fn lowest_in(rows: &[Row], low: u8) -> u8
    requires nine { length rows.now ≡ 9 }
    requires small { low ≤ 8 }
    requires empty { AreEmpty low rows.now }
    ensures empty { AreEmpty result rows.now }
    ensures small { result ≤ 8 }
{
    for level in low..8 {
        if let Some(_) = rows[level as usize].head() {
            return level;
        }
    }
    8
}

/// A user more, behind the others of a level.
pub(crate) fn add_in(rows: &mut [Row], level: u8, waiting: Waiting)
    requires within { level < length rows.old }
    requires room { length (get_or rows.old level []) < 31 }
    ensures { rows.new ≡ set rows.old level (get_or rows.old level [] ++ waiting ∷ []) }
{
    let row = &mut rows[level as usize];
    row.add(waiting);
}

/// The greatest level of at most 8 whose power of two is no more.
#[tactic(auto, using(crate::proofs::Greatest::steps))]
fn greatest_of(n: u32) -> u8
    ensures value { result ≡ greatest 8 n }
    ensures small { result ≤ 8 }
{
    let mut level = 8;
    'levels: while level > 0 && 1u32 << level > n {
        level -= 1;
    }
    level
}

/// The level at which a program of so many blocks of 256 words enters, where a level counts `wq` words.
#[tactic(auto, unfolding(plan_model::specs::Levels::level_of_words))]
pub fn level_of(blocks: u8, wq: u32) -> u8
    requires few { blocks ≤ 128 }
    requires some { 1 ≤ wq }
    ensures value { result ≡ level_of_words wq (256 * blocks) }
    ensures small { result ≤ 8 }
{
    greatest_of(256 * blocks as u32 / wq + 1)
}

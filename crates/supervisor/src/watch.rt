//! Steps of the state, with what the consoles show of them.
ghost use Rattle.std.specs.Prelude.{◌≡◌, ◌≤◌, length, map, true, Some, None};
ghost use Rattle.std.specs.Option.{is_some};
ghost use Rattle.user_model.specs.User.{User};
ghost use Rattle.system_model.specs.Run.{next, due_of};
ghost use Rattle.console_texts.specs.Following.{settled_in};
ghost use Rattle.console_texts.specs.Watching.{refused_by, refusal_in as console_of};
ghost use Rattle.supervisor.specs.Goes.{HasTime, IsWatched, Leaves, LeavesWatched};
ghost use Rattle.supervisor.specs.Shows.{MatchesConsoles, rows_of};
ghost use Rattle.supervisor.specs.Whole.{watched, IsReady, NextIsCut, Steps, TextsFollow, RunsTo, TextsRunTo};

use crate::state::State;
use arrayvec::ArrayVec;
use console_texts::ConsoleTexts;
use ctss_types::{Console, Entry, RunFault};
use user_cores::Backing;
use user_session::Session;

/// The lengths of all transcripts.
fn lengths(sessions: &[Session]) -> ArrayVec<usize, 30>
    requires { length sessions.now ≤ 30 }
    ensures { result.items ≡ map (λ (u : User). length u.transcript) sessions.now }
{
    let mut lens = ArrayVec::new();
    'lens: for i in 0..sessions.len() {
        lens.push(sessions[i].items().len());
    }
    lens
}

/// What the consoles show after a step without an event. It stands apart, since the lengths of all transcripts take
/// room and most steps need none.
#[inline(never)]
fn settle_texts(texts: &mut ConsoleTexts, consoles: &[Console], sessions: &[Session])
    requires { length sessions.now ≤ 30 }
    ensures { rows_of texts.new
        ≡ map (settled_in consoles.now (map (λ (u : User). length u.transcript) sessions.now)) (rows_of texts.old) }
{
    let after = lengths(sessions);
    texts.settle(consoles, after.as_slice());
}

/// The console at which an entry says that a login was refused, or 0.
fn refusal_in(entry: &Entry) -> u8
    ensures { result ≡ console_of (Some entry.now) }
{
    match entry {
        Entry::Refused { console, .. } => *console,
        _ => 0,
    }
}

/// The same of the last entry.
#[tactic(auto, using(console_texts::proofs::Steps::refused_at_end, console_texts::proofs::Steps::refused_none))]
fn refused_at(entries: &[Entry]) -> u8
    ensures { result ≡ refused_by entries.now }
{
    if entries.is_empty() {
        return 0;
    }
    refusal_in(&entries[entries.len() - 1])
}

/// The state of a run but for what lies behind users' sessions, and what the consoles have shown of it.
#[derive(Drop)]
pub(crate) struct Watch {
    pub(crate) state: State,
    pub(crate) texts: ConsoleTexts,
}

impl Watch {
    /// One step, at which an event is due. It stands apart, since its event is large and most steps have none.
    #[inline(never)]
    fn step_with_event<C: Backing>(&mut self, cores: &mut C, limit: u64) -> Result<(), RunFault>
        requires watch { IsWatched C.Backing self.old cores.old }
        requires due { is_some (due_of self.old.state.events.items self.old.state.clock) ≡ true }
        requires time { HasTime limit self.old.state.clock }
        ensures ended { Steps (next limit) NextIsCut result
            (watched self.old (C.state cores.old)) (watched self.new (C.state cores.new)) }
        ensures leaves { Leaves C.Backing result self.old.state cores.old self.new.state cores.new }
        ensures texts { TextsFollow limit result
            (watched self.old (C.state cores.old)) (watched self.new (C.state cores.new)) }
        ensures matched { MatchesConsoles self.new.state.consoles.items self.new.state.sessions.items self.new.texts }
    {
        if self.texts.reserve().is_err() {
            return Err(RunFault::NoMemory);
        }
        let before = lengths(self.state.sessions.as_slice());
        match self.state.step_at(cores, limit) {
            Ok(()) => {}
            Err(fault) => return Err(fault),
        }
        let after = lengths(self.state.sessions.as_slice());
        self.texts.follow(
            self.state.consoles.as_slice(),
            refused_at(self.state.entries.as_slice()),
            before.as_slice(),
            after.as_slice(),
        );
        Ok(())
    }

    /// One step, at which no event is due; whether it is known to be one of the user whose service is open.
    #[inline(always)]
    fn step_without_event<C: Backing>(
        &mut self,
        cores: &mut C,
        ready: bool,
        limit: u64,
    ) -> Result<(), RunFault>
        requires ready { ready ≡ true → IsReady (watched self.old (C.state cores.old)) }
        requires watch { IsWatched C.Backing self.old cores.old }
        requires quiet { due_of self.old.state.events.items self.old.state.clock ≡ None }
        requires time { HasTime limit self.old.state.clock }
        ensures ended { Steps (next limit) NextIsCut result
            (watched self.old (C.state cores.old)) (watched self.new (C.state cores.new)) }
        ensures leaves { Leaves C.Backing result self.old.state cores.old self.new.state cores.new }
        ensures texts { TextsFollow limit result
            (watched self.old (C.state cores.old)) (watched self.new (C.state cores.new)) }
        ensures matched { MatchesConsoles self.new.state.consoles.items self.new.state.sessions.items self.new.texts }
    {
        match self.state.step_on(cores, ready, limit) {
            Ok(()) => {}
            Err(fault) => return Err(fault),
        }
        // Where a service is open, no session has ended.
        if self.state.service.is_some() {
            return Ok(());
        }
        settle_texts(
            &mut self.texts,
            self.state.consoles.as_slice(),
            self.state.sessions.as_slice(),
        );
        Ok(())
    }

    /// One step of which nothing is known. It stands apart, so that a step that is known to be the served user's is short.
    #[inline(never)]
    pub(crate) fn look<C: Backing>(&mut self, cores: &mut C, limit: u64) -> Result<(), RunFault>
        requires watch { IsWatched C.Backing self.old cores.old }
        requires time { HasTime limit self.old.state.clock }
        ensures ended { Steps (next limit) NextIsCut result
            (watched self.old (C.state cores.old)) (watched self.new (C.state cores.new)) }
        ensures leaves { Leaves C.Backing result self.old.state cores.old self.new.state cores.new }
        ensures texts { TextsFollow limit result
            (watched self.old (C.state cores.old)) (watched self.new (C.state cores.new)) }
        ensures matched { MatchesConsoles self.new.state.consoles.items self.new.state.sessions.items self.new.texts }
    {
        if self.state.is_due() {
            return self.step_with_event(cores, limit);
        }
        self.step_without_event(cores, false, limit)
    }

    /// One step; whether it is known to be one of the user whose service is open.
    #[inline(always)]
    fn step<C: Backing>(&mut self, cores: &mut C, ready: bool, limit: u64) -> Result<(), RunFault>
        requires ready { ready ≡ true → IsReady (watched self.old (C.state cores.old)) }
        requires watch { IsWatched C.Backing self.old cores.old }
        requires time { HasTime limit self.old.state.clock }
        ensures ended { Steps (next limit) NextIsCut result
            (watched self.old (C.state cores.old)) (watched self.new (C.state cores.new)) }
        ensures leaves { Leaves C.Backing result self.old.state cores.old self.new.state cores.new }
        ensures texts { TextsFollow limit result
            (watched self.old (C.state cores.old)) (watched self.new (C.state cores.new)) }
        ensures matched { MatchesConsoles self.new.state.consoles.items self.new.state.sessions.items self.new.texts }
    {
        if ready {
            return self.step_without_event(cores, ready, limit);
        }
        self.look(cores, limit)
    }

    /// Whole steps, up to the limit.
    pub(crate) fn advance<C: Backing>(&mut self, cores: &mut C, limit: u64) -> Result<(), RunFault>
        requires watch { IsWatched C.Backing self.old cores.old }
        requires limit { limit ≤ 100000000 }
        ensures ended { RunsTo limit result
            (watched self.old (C.state cores.old)) (watched self.new (C.state cores.new)) }
        ensures texts { TextsRunTo limit result
            (watched self.old (C.state cores.old)) (watched self.new (C.state cores.new)) }
        ensures leaves { LeavesWatched C.Backing result self.old cores.old self.new cores.new }
    {
        let mut ready = false;
        'steps: while self.state.clock < limit {
            match self.step(cores, ready, limit) {
                Ok(()) => {}
                Err(fault) => return Err(fault),
            }
            ready = self.state.run(cores, limit);
        }
        Ok(())
    }
}

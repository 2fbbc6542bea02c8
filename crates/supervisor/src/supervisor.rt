ghost use Rattle.std.specs.Prelude.{◌≡◌, ◌<◌, ◌≤◌, ◌-◌, ◌^◌, ◌++◌, [], min, length, take, drop, replicate, true, false};
ghost use Rattle.time_sharing.specs.System.{at};
ghost use Rattle.system_model.specs.Run.{with_one_event};
ghost use Rattle.plan_model.specs.Loads.{Places, no_places};
ghost use Rattle.system_model.specs.Record.{start_of};
ghost use Rattle.system_model.specs.Sound.{HasSeat};
ghost use Rattle.std.specs.List.{All};
ghost use Rattle.ctss_types.specs.declared.script.Account.{Account};
ghost use Rattle.supervisor.specs.Seen.{record_so_far, run_with};
ghost use Rattle.supervisor.specs.Steps.{Lasts};
ghost use Rattle.supervisor.specs.Whole.{whole_of, Agrees, Advances, AdvancesOnce};
ghost use Rattle.supervisor.specs.Closes.{Closes, IfComplete};
ghost use Rattle.std.specs.Prelude.{IfOk, OnOk, OnErr};

use crate::finish::{Closed, record_of, record_without_files};
use crate::start::first_state;
use crate::watch::Watch;
use console_texts::ConsoleTexts;
use ctss_types::{ConsoleNo, Entry, NoMemory, Record, RunFault, Script, StepFault, Timed};
use std::alloc::Global;
use std::marker::Model;
use user_cores::Backing;

/// The supervisor of a run: all that its accounts, consoles and clock are at one moment. The cores of users' programs and
/// their directories lie behind it; a run is handed those of the same accounts each time.
///
/// In clauses it is the run but for what lies behind, with the texts that its consoles have shown; `run_with` adds the places
/// of users' blocks, `joined` their words and files.
#[derive(Drop)]
pub struct Supervisor {
    watch: Watch,
    ended: bool,
}

impl Model for Supervisor {
    ghost use Rattle.system_model.specs.Sound.{Sound};
    ghost use Rattle.plan_model.specs.Loads.{no_places};
    ghost use Rattle.supervisor.specs.Seen.{Bare, bare_of, run_seen};
    ghost use Rattle.supervisor.specs.Shows.{texts_of, MatchesConsoles};

    ghost Value = { Bare };

    ghost view = { λ s. record (bare_of s.watch.state) {
      texts = texts_of s.watch.state.sessions.items s.watch.texts;
      ended = s.ended;
    } };

    ghost invariant = { λ s. Sound (run_seen no_places s.watch.state)
        × MatchesConsoles s.watch.state.consoles.items s.watch.state.sessions.items s.watch.texts };
}

impl Supervisor {
    /// The state at the start of a script, with no event given yet. Its users' files lie behind it.
    pub fn new(alloc: Global, script: &Script) -> Result<Supervisor, NoMemory>
        requires level { 1 ≤ script.now.params.wq }
        requires quantum { script.now.params.quantum ≤ 1000000 }
        requires swap { script.now.params.swap ≤ 1000000 }
        requires users { length script.now.accounts ≤ 30 }
        requires blocks { All (λ (a : Account). a.blocks ≤ 128) script.now.accounts }
        ensures run { IfOk result
            (λ s. run_with no_places s ≡ start_of (record script.now { events = []; files = [] })) }
        ensures texts { IfOk result (λ s. s.texts ≡ replicate 32 []) }
        ensures begun { IfOk result (λ s. s.ended ≡ false) }
    {
        let state = first_state(alloc, script)?;
        let texts = ConsoleTexts::new(alloc, 32)?;
        Ok(Supervisor {
            watch: Watch { state, texts },
            ended: false,
        })
    }

    /// An event more, behind those that are left. Its tick is at least that of each earlier event.
    pub fn take(&mut self, e: Timed) -> Result<(), NoMemory>
        requires seat { HasSeat e (run_with no_places self.old) }
        ensures ok { (places : Places)
            → OnOk result (run_with places self.new ≡ with_one_event e (run_with places self.old)) }
        ensures err { OnErr result (self.new ≡ self.old) }
        ensures texts { self.new.texts ≡ self.old.texts }
        ensures same { self.new.ended ≡ self.old.ended }
    {
        self.watch.state.take(e)
    }

    /// Whole steps, up to the limit. Where memory lacks or the disk fails, some of them are done; where the drum fails, those
    /// before a load. After a fault of drum or disk the run may only be stopped.
    pub fn advance<C: Backing>(&mut self, cores: &mut C, limit: u64) -> Result<(), RunFault>
        requires usable { C.Usable cores.old }
        requires agrees { Agrees (whole_of self.old (C.state cores.old)) }
        requires limit { limit ≤ 100000000 }
        ensures advances { Advances limit result
            (whole_of self.old (C.state cores.old)) (whole_of self.new (C.state cores.new)) }
        ensures usable { Lasts result (C.Usable cores.new) }
        ensures keeps { C.Keeps cores.old cores.new }
    {
        let done = self.watch.advance(cores, limit);
        if done.is_err() {
            self.ended = true;
        }
        done
    }

    /// One step below the limit, and the instructions of the served user's program that follow it: steps at which no event is
    /// due, and which write no entry. Whoever goes on so up to the limit has done what `advance` does, and has seen each step that
    /// writes entries. A fault is as one of `advance`.
    pub fn advance_once<C: Backing>(&mut self, cores: &mut C, limit: u64) -> Result<(), RunFault>
        requires usable { C.Usable cores.old }
        requires agrees { Agrees (whole_of self.old (C.state cores.old)) }
        requires in_time { self.old.clock < limit }
        requires limit { limit ≤ 100000000 }
        ensures once { OnOk result (AdvancesOnce limit
            (whole_of self.old (C.state cores.old)) (whole_of self.new (C.state cores.new))) }
        ensures fails { OnErr result (Advances limit result
            (whole_of self.old (C.state cores.old)) (whole_of self.new (C.state cores.new))) }
        ensures usable { Lasts result (C.Usable cores.new) }
        ensures keeps { C.Keeps cores.old cores.new }
    {
        let done = self.watch.advance_once(cores, limit);
        if done.is_err() {
            self.ended = true;
        }
        done
    }

    /// The clock.
    pub fn clock(&self) -> u64
        ensures { result ≡ self.now.clock }
    {
        self.watch.state.clock
    }

    /// Whether a call of `advance` or `advance_once` answered a fault.
    pub fn ended(&self) -> bool
        ensures { result ≡ self.now.ended }
    {
        self.ended
    }

    /// The end of the record of a run that no fault ended: an open service and open idling end, and all is handed out. The files are read
    /// from the disk; where that fails, the record has none.
    #[tactic(auto, using(system_model::proofs::CaseLaws::closes))]
    pub fn close<C: Backing>(self, alloc: Global, cores: &mut C) -> Result<Closed, NoMemory>
        requires open { self.ended ≡ false }
        requires usable { C.Usable cores.old }
        requires agrees { Agrees (whole_of self (C.state cores.old)) }
        ensures closes { IfOk result (Closes self (C.state cores.old) (C.state cores.new)) }
        ensures lies { IfOk result (λ closed. IfComplete closed (λ rec. C.Lies cores.new rec.files rec.common)) }
        ensures calls { (C.state cores.new).calls ≡ (C.state cores.old).calls }
        ensures faults { (C.state cores.new).faults ≡ (C.state cores.old).faults }
        ensures keeps { C.Keeps cores.old cores.new }
    {
        let watch = self.watch;
        let mut state = watch.state;
        state.close()?;
        match cores.take_lists(alloc) {
            Ok(lists) => Ok(Closed::Complete(record_of(alloc, state, lists.own, lists.common)?)),
            Err(StepFault::Disk) => Ok(Closed::WithoutFiles(record_without_files(alloc, state)?)),
            Err(StepFault::NoMemory) => Err(NoMemory),
        }
    }

    /// The record of a run that stopped: entries, transcripts and clock so far, and no files.
    pub fn stop(self, alloc: Global) -> Result<Record, NoMemory>
        ensures { IfOk result (λ rec. rec ≡ record_so_far (run_with no_places self)) }
    {
        let watch = self.watch;
        record_without_files(alloc, watch.state)
    }

    /// The schedule so far.
    pub fn entries(&self) -> &[Entry]
        ensures { result.now ≡ self.now.entries }
    {
        &self.watch.state.entries
    }

    /// How many bytes a console has shown; at most what a `u64` can hold.
    pub fn out_len(&self, console: ConsoleNo) -> u64
        ensures { result ≡ min (length (at [] self.now.texts console)) (2 ^ 64 - 1) }
    {
        self.watch.texts.out_len(&self.watch.state, console)
    }

    /// Copies what a console has shown from a place on, as much as fits, and answers how many bytes that were.
    pub fn out_since(&self, console: ConsoleNo, from: u64, into: &mut [u8]) -> usize
        ensures count { result ≡ min (length into.old) (length (at [] self.now.texts console) - from) }
        ensures bytes { into.new ≡ take result (drop from (at [] self.now.texts console)) ++ drop result into.old }
    {
        self.watch
            .texts
            .out_since(&self.watch.state, console, from, into)
    }
}

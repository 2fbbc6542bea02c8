//! The state of a run but for users' cores.
ghost use Rattle.std.specs.Prelude.{◌≡◌, OnErr};
ghost use Rattle.std.specs.Option.{is_some};
ghost use Rattle.plan_model.specs.Loads.{no_places};
ghost use Rattle.system_model.specs.Sound.{Sound, HasSeat};
ghost use Rattle.system_model.specs.Run.{with_one_event, due_of};
ghost use Rattle.system_model.specs.Cases.{closed};
ghost use Rattle.supervisor.specs.Seen.{run_seen, bare_of, BecomesIf, StaysIf};

use accounts::Accounts;
use console_texts::Transcripts;
use ctss_types::{Console, Entry, Event, Item, NoMemory, Service, Timed};
use level_queues::Queues;
use schedule_notes::{end_note, idle_note, note_some};
use std::collections::VecDeque;
use user_session::Session;

/// The state of a run but for users' cores.
#[derive(Drop)]
pub(crate) struct State {
    /// Ticks for a block that goes to the drum or comes from it.
    pub(crate) swap: u32,
    pub(crate) accounts: Accounts,
    /// How many tracks the common files may take.
    pub(crate) common: u16,
    pub(crate) sessions: Vec<Session>,
    pub(crate) queues: Queues,
    pub(crate) consoles: Vec<Console>,
    pub(crate) clock: u64,
    pub(crate) events: VecDeque<Timed>,
    pub(crate) service: Option<Service>,
    pub(crate) idling: Option<u64>,
    pub(crate) entries: Vec<Entry>,
}

impl Transcripts for State {
    ghost use Rattle.console_texts.specs.Watching.{transcripts_of};

    ghost all = { λ s. transcripts_of s.sessions.items };

    fn transcript(&self, user: u8) -> &[Item] {
        if user == 0 {
            return &[];
        }
        match self.sessions.get(user as usize - 1) {
            Some(session) => session.items(),
            None => &[],
        }
    }
}

impl State {
    /// Whether an event is due.
    pub(crate) fn is_due(&self) -> bool
        ensures { result ≡ is_some (due_of self.now.events.items self.now.clock) }
    {
        match self.events.front() {
            Some(e) => e.tick <= self.clock,
            None => false,
        }
    }

    /// The event that is due.
    pub(crate) fn due(&self) -> Option<Timed>
        ensures { result ≡ due_of self.now.events.items self.now.clock }
    {
        match self.events.front() {
            Some(e) => { if e.tick <= self.clock { Some(*e) } else { None } }
            None => None,
        }
    }

    /// An event more.
    #[tactic(auto, using(system_model::proofs::SoundLaws::sound_given), unfolding(system_model::specs::Run::with_one_event))]
    pub(crate) fn take(&mut self, e: Timed) -> Result<(), NoMemory>
        requires sound { Sound (run_seen no_places self.old) }
        requires seat { HasSeat e (run_seen no_places self.old) }
        ensures ok { BecomesIf result (with_one_event e) self.old self.new }
        ensures err { OnErr result (bare_of self.new ≡ bare_of self.old) }
        ensures consoles { self.new.consoles.items ≡ self.old.consoles.items }
        ensures sessions { self.new.sessions.items ≡ self.old.sessions.items }
        ensures sound { Sound (run_seen no_places self.new) }
    {
        self.events.reserve(1)?;
        let event: Event = e.event;
        let _ = self.events.push_back(Timed {
            tick: e.tick,
            console: e.console,
            event,
        });
        Ok(())
    }

    /// An open service and open idling end.
    #[tactic(auto, unfolding(system_model::specs::Cases::closed))]
    pub(crate) fn close(&mut self) -> Result<(), NoMemory>
        ensures ok { BecomesIf result closed self.old self.new }
        ensures err { StaysIf result self.old self.new }
    {
        self.entries.reserve(2)?;
        note_some(&mut self.entries, end_note(self.service));
        note_some(&mut self.entries, idle_note(self.idling, self.clock));
        self.service = None;
        self.idling = None;
        Ok(())
    }
}

//! Events: what each of them does at each console.
ghost use Rattle.std.specs.Prelude.{◌≡◌, ◌<◌, ◌≤◌, ◌-◌, ◌∷◌, [], length, option_to_list, get_or, IfOk};
ghost use Rattle.time_sharing.specs.System.{Off, On, Password, Session as Inside, Types, LineTaken, Refused};
ghost use Rattle.plan_model.specs.Levels.{woken};
ghost use Rattle.plan_model.specs.Loads.{no_places};
ghost use Rattle.system_model.specs.World.{line_blocks};
ghost use Rattle.system_model.specs.Joined.{cut_user};
ghost use Rattle.system_model.specs.Run.{taken, at_console};
ghost use Rattle.system_model.specs.Cases.{quit_taken, hang_taken, spent_taken, line_taken, heard, login_taken, dial_taken, user_at};
ghost use Rattle.system_model.specs.Sound.{Sound, HasSeat};
ghost use Rattle.supervisor.specs.Seen.{run_seen, number_of, BecomesIf, StaysIf, LeavesIf, CutsIf};

use crate::login::{asked, mark_on, password_in};
use crate::state::State;
use accounts::Login;
use ctss_types::{Console, ConsoleNo, Entry, Event, EventKind, LineText, NoMemory, Timed, UserNo};
use level_queues::Queues;
use schedule_notes::{idle_note, leave_consoles, note, note_some, service_left, stop_note};
use user_session::{Put, Session};
use word36::Word;

/// A user has something to do: as a program of so many blocks it enters, unless it stands in the queues.
#[tactic(auto, unfolding(plan_model::specs::Levels::woken))]
fn wake(queues: &mut Queues, user: UserNo, blocks: u8, now: u64)
    requires { blocks ≤ 128 }
    ensures { queues.new ≡ woken blocks user now queues.old }
{
    if !queues.holds(user) {
        queues.enter(user, blocks, now);
    }
}

/// As how many blocks a user enters that gets a line: as a command's, or as its program's where that works.
fn blocks_for_line(session: &Session) -> u8
    ensures value { result ≡ line_blocks session.now }
    ensures few { result ≤ 128 }
{
    if session.works() { session.blocks() } else { 4 }
}

impl State {
    /// An event that no session hears.
    #[tactic(auto, unfolding(system_model::specs::Cases::heard))]
    fn take_heard(
        &mut self,
        console: ConsoleNo,
        kind: EventKind,
        now: Console,
        more: Option<Entry>,
    ) -> Result<(), NoMemory>
        requires here { console ≤ length self.old.consoles.items }
        ensures ok { BecomesIf result (heard console kind now (option_to_list more)) self.old self.new }
        ensures err { StaysIf result self.old self.new }
        ensures seat { 0 < console }
    {
        let seat = console.index();
        self.entries.reserve(3)?;
        let _ = self.events.pop_front();
        self.consoles[seat] = now;
        note_some(&mut self.entries, idle_note(self.idling, self.clock));
        note(
            &mut self.entries,
            Entry::Taken {
                tick: self.clock,
                console: console.number(),
                kind,
                user: 0,
                own: 0,
            },
        );
        note_some(&mut self.entries, more);
        self.idling = None;
        Ok(())
    }

    /// A login is refused.
    fn take_refusal(&mut self, console: ConsoleNo, cause: u8) -> Result<(), NoMemory>
        requires here { console ≤ length self.old.consoles.items }
        ensures ok { BecomesIf result (heard console LineTaken On (Refused self.old.clock console cause ∷ []))
            self.old self.new }
        ensures err { StaysIf result self.old self.new }
        ensures seat { 0 < console }
    {
        let entry = Entry::Refused {
            tick: self.clock,
            console: console.number(),
            cause,
        };
        self.take_heard(console, EventKind::Line, Console::On, Some(entry))
    }

    /// A session begins.
    #[tactic(auto, unfolding(system_model::specs::Cases::login_taken))]
    fn take_login(&mut self, console: ConsoleNo, user: UserNo) -> Result<(), NoMemory>
        requires within { user ≤ length self.old.sessions.items }
        requires here { console ≤ length self.old.consoles.items }
        ensures ok { BecomesIf result (login_taken console user) self.old self.new }
        ensures err { StaysIf result self.old self.new }
        ensures seat { 0 < console }
    {
        let seat = console.index();
        self.entries.reserve(3)?;
        let session = &mut self.sessions[user.index()];
        session.login()?;
        let _ = self.events.pop_front();
        self.consoles[seat] = Console::Session(user);
        note_some(&mut self.entries, idle_note(self.idling, self.clock));
        note(
            &mut self.entries,
            Entry::Taken {
                tick: self.clock,
                console: console.number(),
                kind: EventKind::Line,
                user: 0,
                own: 0,
            },
        );
        note(
            &mut self.entries,
            Entry::Login {
                tick: self.clock,
                console: console.number(),
                user: user.number(),
            },
        );
        self.idling = None;
        Ok(())
    }

    /// A dial from a session.
    #[tactic(auto, unfolding(system_model::specs::Cases::dial_taken))]
    fn take_dial(&mut self, console: ConsoleNo, user: UserNo) -> Result<(), NoMemory>
        requires within { user ≤ length self.old.sessions.items }
        ensures ok { BecomesIf result (dial_taken console user) self.old self.new }
        ensures err { StaysIf result self.old self.new }
        ensures some { 0 < user }
    {
        let place = user.index();
        self.entries.reserve(2)?;
        let session = &self.sessions[place];
        let own = session.own();
        let _ = self.events.pop_front();
        note_some(&mut self.entries, idle_note(self.idling, self.clock));
        note(
            &mut self.entries,
            Entry::Taken {
                tick: self.clock,
                console: console.number(),
                kind: EventKind::Dial,
                user: user.number(),
                own,
            },
        );
        self.idling = None;
        Ok(())
    }

    /// A line that a session keeps.
    #[tactic(auto, unfolding(system_model::specs::Cases::line_taken))]
    fn take_line(
        &mut self,
        console: ConsoleNo,
        user: UserNo,
        text: LineText,
    ) -> Result<(), NoMemory>
        requires within { user ≤ length self.old.sessions.items }
        requires room { (user_at user self.old.sessions.items).lines < 2048 }
        ensures ok { BecomesIf result (line_taken console user text) self.old self.new }
        ensures err { StaysIf result self.old self.new }
        ensures some { 0 < user }
    {
        let place = user.index();
        self.entries.reserve(2)?;
        let session = &mut self.sessions[place];
        let own = session.own();
        let blocks = blocks_for_line(session);
        let _ = session.line(text);
        wake(&mut self.queues, user, blocks, self.clock);
        let _ = self.events.pop_front();
        note_some(&mut self.entries, idle_note(self.idling, self.clock));
        note(
            &mut self.entries,
            Entry::Taken {
                tick: self.clock,
                console: console.number(),
                kind: EventKind::Line,
                user: user.number(),
                own,
            },
        );
        self.idling = None;
        Ok(())
    }

    /// A quit in a session.
    #[tactic(auto, unfolding(system_model::specs::Cases::quit_taken))]
    fn take_quit(&mut self, console: ConsoleNo, user: UserNo) -> Result<(), NoMemory>
        requires within { user ≤ length self.old.sessions.items }
        ensures ok { BecomesIf result (quit_taken console user) self.old self.new }
        ensures err { StaysIf result self.old self.new }
        ensures some { 0 < user }
    {
        let place = user.index();
        self.entries.reserve(3)?;
        let session = &mut self.sessions[place];
        let own = session.own();
        session.quit()?;
        self.queues.drop_user(user);
        let _ = self.events.pop_front();
        note_some(&mut self.entries, idle_note(self.idling, self.clock));
        note_some(&mut self.entries, stop_note(self.service, user));
        note(
            &mut self.entries,
            Entry::Taken {
                tick: self.clock,
                console: console.number(),
                kind: EventKind::Quit,
                user: user.number(),
                own,
            },
        );
        self.idling = None;
        self.service = service_left(self.service, user);
        Ok(())
    }

    /// A hang in a session.
    #[tactic(auto, unfolding(system_model::specs::Cases::hang_taken))]
    fn take_hang(&mut self, console: ConsoleNo, user: UserNo) -> Result<(), NoMemory>
        requires within { user ≤ length self.old.sessions.items }
        requires here { console ≤ length self.old.consoles.items }
        ensures ok { LeavesIf result user (hang_taken console user) self.old self.new }
        ensures err { StaysIf result self.old self.new }
        ensures some { 0 < user }
        ensures seat { 0 < console }
    {
        let (place, seat) = (user.index(), console.index());
        self.entries.reserve(3)?;
        let session = &mut self.sessions[place];
        let own = session.own();
        session.hang()?;
        self.queues.drop_user(user);
        let _ = self.events.pop_front();
        leave_consoles(&mut self.consoles, user);
        self.consoles[seat] = Console::Off;
        note_some(&mut self.entries, idle_note(self.idling, self.clock));
        note_some(&mut self.entries, stop_note(self.service, user));
        note(
            &mut self.entries,
            Entry::Taken {
                tick: self.clock,
                console: console.number(),
                kind: EventKind::Hang,
                user: user.number(),
                own,
            },
        );
        self.idling = None;
        self.service = service_left(self.service, user);
        Ok(())
    }

    /// A line too much in a session.
    #[tactic(auto, unfolding(system_model::specs::Cases::spent_taken))]
    fn take_spent(&mut self, console: ConsoleNo, user: UserNo) -> Result<(), NoMemory>
        requires within { user ≤ length self.old.sessions.items }
        ensures ok { LeavesIf result user (spent_taken console user) self.old self.new }
        ensures err { StaysIf result self.old self.new }
        ensures some { 0 < user }
    {
        let place = user.index();
        self.entries.reserve(3)?;
        let session = &mut self.sessions[place];
        let own = session.own();
        session.spend()?;
        self.queues.drop_user(user);
        let _ = self.events.pop_front();
        leave_consoles(&mut self.consoles, user);
        note_some(&mut self.entries, idle_note(self.idling, self.clock));
        note_some(&mut self.entries, stop_note(self.service, user));
        note(
            &mut self.entries,
            Entry::Taken {
                tick: self.clock,
                console: console.number(),
                kind: EventKind::Spent,
                user: user.number(),
                own,
            },
        );
        self.idling = None;
        self.service = service_left(self.service, user);
        Ok(())
    }

    #[tactic(auto, using(system_model::proofs::CaseLaws::off_laws))]
    fn at_off(&mut self, console: ConsoleNo, event: Event) -> Result<(), NoMemory>
        requires here { console ≤ length self.old.consoles.items }
        ensures ok { BecomesIf result (at_console console Off event) self.old self.new }
        ensures err { StaysIf result self.old self.new }
    {
        match event {
            Event::Dial => self.take_heard(console, EventKind::Dial, Console::On, None),
            Event::Line(_) => self.take_heard(console, EventKind::Line, Console::Off, None),
            Event::Quit => self.take_heard(console, EventKind::Quit, Console::Off, None),
            Event::Hang => self.take_heard(console, EventKind::Hang, Console::Off, None),
        }
    }

    /// A line at a console that is on.
    #[tactic(auto, using(system_model::proofs::CaseLaws::on_no_name, system_model::proofs::CaseLaws::on_name))]
    fn at_name(&mut self, console: ConsoleNo, line: LineText) -> Result<(), NoMemory>
        requires here { console ≤ length self.old.consoles.items }
        ensures ok { BecomesIf result (at_console console On (Types line)) self.old self.new }
        ensures err { StaysIf result self.old self.new }
    {
        match asked(&line) {
            None => self.take_refusal(console, 1),
            Some(name) => self.take_heard(console, EventKind::Line, Console::Password(name), None),
        }
    }

    #[tactic(auto, using(system_model::proofs::CaseLaws::on_laws))]
    fn at_on(&mut self, console: ConsoleNo, event: Event) -> Result<(), NoMemory>
        requires here { console ≤ length self.old.consoles.items }
        ensures ok { BecomesIf result (at_console console On event) self.old self.new }
        ensures err { StaysIf result self.old self.new }
    {
        match event {
            Event::Dial => self.take_heard(console, EventKind::Dial, Console::On, None),
            Event::Line(line) => self.at_name(console, line),
            Event::Quit => self.take_heard(console, EventKind::Quit, Console::On, None),
            Event::Hang => self.take_heard(console, EventKind::Hang, Console::Off, None),
        }
    }

    #[tactic(auto, using(system_model::proofs::CaseLaws::word_laws))]
    fn at_word(&mut self, console: ConsoleNo, name: Word, line: LineText) -> Result<(), NoMemory>
        requires accounts { length self.old.accounts.list ≤ length self.old.sessions.items }
        requires here { console ≤ length self.old.consoles.items }
        ensures ok { BecomesIf result (at_console console (Password name) (Types line)) self.old self.new }
        ensures err { StaysIf result self.old self.new }
    {
        let Some(password) = password_in(&line) else {
            return self.take_refusal(console, 1);
        };
        mark_on(&mut self.accounts, self.sessions.as_slice());
        match self.accounts.check(name, password) {
            Login::Unknown => self.take_refusal(console, 1),
            Login::Already => self.take_refusal(console, 2),
            Login::Right(user) => self.take_login(console, user),
        }
    }

    #[tactic(auto, using(system_model::proofs::CaseLaws::asked_laws))]
    fn at_password(&mut self, console: ConsoleNo, name: Word, event: Event) -> Result<(), NoMemory>
        requires accounts { length self.old.accounts.list ≤ length self.old.sessions.items }
        requires here { console ≤ length self.old.consoles.items }
        ensures ok { BecomesIf result (at_console console (Password name) event) self.old self.new }
        ensures err { StaysIf result self.old self.new }
    {
        match event {
            Event::Dial => self.take_heard(console, EventKind::Dial, Console::Password(name), None),
            Event::Line(line) => self.at_word(console, name, line),
            Event::Quit => self.take_heard(console, EventKind::Quit, Console::On, None),
            Event::Hang => self.take_heard(console, EventKind::Hang, Console::Off, None),
        }
    }

    /// An event in a session. It answers the user whose session is over by a hang or by a line too much.
    #[tactic(auto, using(system_model::proofs::CaseLaws::in_laws))]
    fn at_session(
        &mut self,
        console: ConsoleNo,
        user: UserNo,
        event: Event,
    ) -> Result<Option<UserNo>, NoMemory>
        requires within { user ≤ length self.old.sessions.items }
        requires here { console ≤ length self.old.consoles.items }
        ensures ok { CutsIf result (at_console console (Inside user) event) self.old self.new }
        ensures cut { IfOk result (λ cut. number_of cut ≡ cut_user (Inside user) event self.old.sessions.items) }
        ensures err { StaysIf result self.old self.new }
    {
        match event {
            Event::Dial => {
                self.take_dial(console, user)?;
                Ok(None)
            }
            Event::Line(text) => self.at_line(console, user, text),
            Event::Quit => {
                self.take_quit(console, user)?;
                Ok(None)
            }
            Event::Hang => {
                self.take_hang(console, user)?;
                Ok(Some(user))
            }
        }
    }

    #[tactic(auto, using(system_model::proofs::CaseLaws::in_laws))]
    fn at_line(
        &mut self,
        console: ConsoleNo,
        user: UserNo,
        text: LineText,
    ) -> Result<Option<UserNo>, NoMemory>
        requires within { user ≤ length self.old.sessions.items }
        ensures ok { CutsIf result (at_console console (Inside user) (Types text)) self.old self.new }
        ensures cut { IfOk result (λ cut. number_of cut
            ≡ cut_user (Inside user) (Types text) self.old.sessions.items) }
        ensures err { StaysIf result self.old self.new }
    {
        let session = &self.sessions[user.index()];
        if session.line_count() < 2048 {
            self.take_line(console, user, text)?;
            Ok(None)
        } else {
            self.take_spent(console, user)?;
            Ok(Some(user))
        }
    }

    /// The event that is due. It answers the user whose session is over by a hang or by a line too much.
    #[tactic(auto, using(system_model::proofs::CaseLaws::taken_at))]
    pub(crate) fn take_event(&mut self, e: Timed) -> Result<Option<UserNo>, NoMemory>
        requires sound { Sound (run_seen no_places self.old) }
        requires seat { HasSeat e (run_seen no_places self.old) }
        ensures ok { CutsIf result (taken e) self.old self.new }
        ensures cut { IfOk result (λ cut. number_of cut
            ≡ cut_user (get_or self.old.consoles.items (e.console - 1) Off) e.event self.old.sessions.items) }
        ensures err { StaysIf result self.old self.new }
    {
        let seat = e.console.index();
        match self.consoles[seat] {
            Console::Session(user) => self.at_session(e.console, user, e.event),
            Console::Off => {
                self.at_off(e.console, e.event)?;
                Ok(None)
            }
            Console::On => {
                self.at_on(e.console, e.event)?;
                Ok(None)
            }
            Console::Password(name) => {
                self.at_password(e.console, name, e.event)?;
                Ok(None)
            }
        }
    }
}

ghost use Rattle.std.specs.Prelude.{◌≡◌, ◌<◌, ◌≤◌, ◌+◌, ◌-◌, ◌^◌, ◌++◌, ◌∷◌, ◌↔◌, [], ℕ, true, false, not, OnOk, OnErr, IfOk, slice_get};
ghost use Rattle.user_model.specs.Session.{first_state, is_none, works_in};
ghost use Rattle.user_model.specs.Inner.{blocks_of, without_program};
ghost use Rattle.user_model.specs.User.{typed, opened, cut};
ghost use Rattle.time_sharing.specs.Machine.{Quit, Hang, Spent};
ghost use Rattle.time_sharing.specs.Rows.{some_line};

use cpu_regs::Regs;
use ctss_types::{Account, FileName, Item, Items, LineText, NoMemory};
use dialogue::fap_debug::Debug;
use dialogue::{Dialogue, Put};
use program_model::{Fill, ProgramState};
use std::alloc::Global;
use std::marker::Model;

/// A user's state: account, session, lines typed ahead, transcript, own steps, and its program but for the words of its
/// core. It lasts over all sessions of the user.
///
/// In clauses it is the user of the definitions with no word in core and no file; `in_store` adds them.
#[derive(Drop)]
pub struct Session {
    pub(crate) account: Account,
    pub(crate) on: bool,
    pub(crate) talk: Dialogue,
    pub(crate) own: u64,
    pub(crate) own_at_command: u64,
    pub(crate) state: ProgramState,
    pub(crate) regs: Regs,
    pub(crate) blocks: u8,
    pub(crate) fill: Option<Fill>,
    pub(crate) input: Option<FileName>,
    pub(crate) debugger: Option<Debug>,
}

impl Model for Session {
    ghost use Rattle.std.specs.Prelude.{◌≡◌, ◌≤◌, ◌<◌, ◌^◌, [], IfSome};
    ghost use Rattle.time_sharing.specs.Rows.{Private};
    ghost use Rattle.program_model.specs.Fills.{StartsInCore};
    ghost use Rattle.user_model.specs.Inner.{Inner};

    ghost Value = { Private Inner };

    ghost view = { λ s. record {
      inner = record {
        account = s.account;
        files = [];
        state = s.state;
        regs = s.regs;
        blocks = s.blocks;
        core = [];
        fill = s.fill;
        input = s.input;
        debugger = s.debugger;
      };
      on = s.on;
      unread = s.talk.unread;
      lines = s.talk.lines;
      fed = s.talk.fed;
      transcript = s.talk.transcript;
      own = s.own;
      own_at_command = s.own_at_command;
    } };

    ghost invariant = { λ s. (s.own_at_command ≤ s.own) × (s.regs.ic < 2 ^ 15) × (s.blocks ≤ s.account.blocks)
        × (s.account.blocks ≤ 128) × IfSome s.fill (λ f. StartsInCore f) };
}

/// Whether a program works.
pub(crate) fn works_in(state: ProgramState) -> bool
    ensures { result ≡ works_in state }
{
    match state {
        ProgramState::Working => true,
        ProgramState::Dead | ProgramState::Dormant => false,
    }
}

impl Session {
    /// A user of this account, that never logged in. It takes the room for the lines typed ahead.
    pub fn new(alloc: Global, account: &Account) -> Result<Session, NoMemory>
        requires blocks { account.now.blocks ≤ 128 }
        ensures { IfOk result (λ s. s ≡ first_state account.now []) }
    {
        let talk = Dialogue::new(alloc)?;
        Ok(Session {
            account: *account,
            on: false,
            talk,
            own: 0,
            own_at_command: 0,
            state: ProgramState::Dead,
            regs: Regs::new(),
            blocks: 0,
            fill: None,
            input: None,
            debugger: None,
        })
    }

    /// The own steps over all sessions.
    pub fn own(&self) -> u64
        ensures { result ≡ self.now.own }
    {
        self.own
    }

    /// Whether a session is open.
    pub fn is_open(&self) -> bool
        ensures { result ≡ self.now.on }
    {
        self.on
    }

    /// Whether a program works, or waits for a line.
    pub fn works(&self) -> bool
        ensures { result ≡ works_in self.now.inner.state }
    {
        works_in(self.state)
    }

    /// The registers of the user's program.
    pub fn regs(&self) -> Regs
        ensures { result ≡ self.now.inner.regs }
    {
        self.regs
    }

    /// The size of the user's program in blocks.
    pub fn blocks(&self) -> u8
        ensures value { result ≡ blocks_of self.now.inner }
        ensures quota { result ≤ self.now.inner.account.blocks }
        ensures few { result ≤ 128 }
    {
        self.blocks
    }

    /// The quota of tracks that its directory must have.
    pub fn tracks(&self) -> u16
        ensures { result ≡ self.now.inner.account.tracks }
    {
        self.account.tracks
    }

    /// How many lines were typed in the session.
    pub fn line_count(&self) -> u16
        ensures { result ≡ self.now.lines }
    {
        self.talk.line_count()
    }

    /// Whether a line is unread.
    pub fn has_line(&self) -> bool
        ensures { result ≡ some_line self.now.unread }
    {
        self.talk.has_line()
    }

    /// Whether the debugger is open.
    pub(crate) fn is_debugged(&self) -> bool
        ensures { result ≡ not (is_none self.now.inner.debugger) }
    {
        self.debugger.is_some()
    }

    /// The first unread line, which stays.
    pub(crate) fn first_line(&self) -> Option<LineText>
        ensures { result ≡ slice_get self.now.unread 0 }
    {
        self.talk.first_line()
    }

    /// The transcript so far.
    pub fn items(&self) -> &[Item]
        ensures { result.now ≡ self.now.transcript }
    {
        self.talk.items()
    }

    /// The whole transcript.
    pub fn into_items(self) -> Items
        ensures { result ≡ self.transcript }
    {
        self.talk.into_items()
    }

    /// A line is typed.
    #[tactic(auto, unfolding(user_model::specs::User::typed))]
    pub fn line(&mut self, text: LineText) -> Put
        ensures spent { (result ≡ Put.Spent) ↔ (self.old.lines ≡ 2048) }
        ensures stays { result ≡ Put.Spent → self.new ≡ self.old }
        ensures kept { result ≡ Put.Kept → self.new ≡ typed text self.old }
    {
        self.talk.type_line(text)
    }

    /// A session is opened.
    #[tactic(auto, unfolding(user_model::specs::User::opened))]
    pub fn login(&mut self) -> Result<(), NoMemory>
        ensures ok { OnOk result (self.new ≡ opened self.old) }
        ensures err { OnErr result (self.new ≡ self.old) }
    {
        self.talk.open(self.account.name)?;
        self.on = true;
        Ok(())
    }

    /// A quit: the unread lines go, INPUT is over, the debugger is closed, and a program that works stops.
    #[tactic(auto, unfolding(user_model::specs::User::cut))]
    pub fn quit(&mut self) -> Result<(), NoMemory>
        ensures ok { OnOk result (self.new ≡ cut Quit self.old) }
        ensures err { OnErr result (self.new ≡ self.old) }
    {
        self.talk.quit(self.state, self.own - self.own_at_command)?;
        if self.state == ProgramState::Working {
            self.state = ProgramState::Dormant;
        }
        self.fill = None;
        self.input = None;
        self.debugger = None;
        Ok(())
    }

    /// No program is left, and the debugger is closed.
    pub(crate) fn drop_program(&mut self)
        ensures { self.new ≡ record self.old { inner = without_program self.old.inner } }
    {
        self.state = ProgramState::Dead;
        self.regs = Regs::new();
        self.blocks = 0;
        self.fill = None;
        self.debugger = None;
    }

    /// A hang: the session is over, and its program goes. Its files of mode 0 go too, but they lie outside.
    #[tactic(auto, unfolding(user_model::specs::User::cut))]
    pub fn hang(&mut self) -> Result<(), NoMemory>
        ensures ok { OnOk result (self.new ≡ cut Hang self.old) }
        ensures err { OnErr result (self.new ≡ self.old) }
    {
        self.talk.hang()?;
        self.on = false;
        self.drop_program();
        self.input = None;
        Ok(())
    }

    /// A line too much ends the session as a hang does.
    #[tactic(auto, unfolding(user_model::specs::User::cut))]
    pub fn spend(&mut self) -> Result<(), NoMemory>
        ensures ok { OnOk result (self.new ≡ cut Spent self.old) }
        ensures err { OnErr result (self.new ≡ self.old) }
    {
        self.hang()
    }
}

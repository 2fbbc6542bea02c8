//! What a run begins with.
ghost use Rattle.std.specs.Prelude.{◌≡◌, ◌≤◌, [], length, map, replicate, IfOk};
ghost use Rattle.std.specs.List.{All};
ghost use Rattle.ctss_types.specs.declared.script.Account.{Account};
ghost use Rattle.time_sharing.specs.System.{Off};
ghost use Rattle.user_model.specs.Session.{first_state};
ghost use Rattle.plan_model.specs.Loads.{no_places};
ghost use Rattle.system_model.specs.Record.{start_of};
ghost use Rattle.system_model.specs.Sound.{Sound};
ghost use Rattle.supervisor.specs.Seen.{run_seen};

use crate::state::State;
use accounts::Accounts;
use ctss_types::{Account, Console, NoMemory, Script};
use level_queues::Queues;
use std::alloc::Global;
use std::collections::VecDeque;
use user_session::Session;

/// A session of each account, in order.
fn sessions_of(alloc: Global, accounts: &[Account]) -> Result<Vec<Session>, NoMemory>
    requires blocks { All (λ (a : Account). a.blocks ≤ 128) accounts.now }
    ensures { IfOk result (λ s. s.items ≡ map (λ (a : Account). first_state a []) accounts.now) }
{
    let mut sessions = Vec::new(alloc);
    for account in accounts {
        sessions.push(Session::new(alloc, account)?)?;
    }
    Ok(sessions)
}

/// 32 consoles, all off.
fn consoles_of(alloc: Global) -> Result<Vec<Console>, NoMemory>
    ensures { IfOk result (λ s. s.items ≡ replicate 32 Off) }
{
    let mut consoles = Vec::new(alloc);
    consoles.extend_from_slice(&[Console::Off; 32])?;
    Ok(consoles)
}

/// The state at the start of a script, with no event given yet. Its users' files lie elsewhere.
pub(crate) fn first_state(alloc: Global, script: &Script) -> Result<State, NoMemory>
    requires level { 1 ≤ script.now.params.wq }
    requires quantum { script.now.params.quantum ≤ 1000000 }
    requires swap { script.now.params.swap ≤ 1000000 }
    requires users { length script.now.accounts ≤ 30 }
    requires blocks { All (λ (a : Account). a.blocks ≤ 128) script.now.accounts }
    ensures run { IfOk result (λ s. run_seen no_places s ≡ start_of (record script.now { events = []; files = [] })) }
    ensures off { IfOk result (λ s. s.consoles.items ≡ replicate 32 Off) }
    ensures sound { IfOk result (λ s. Sound (run_seen no_places s)) }
{
    let accounts = script.accounts.as_slice();
    Ok(State {
        swap: script.params.swap as u32,
        accounts: Accounts::new(alloc, accounts)?,
        common: script.params.common,
        sessions: sessions_of(alloc, accounts)?,
        queues: Queues::new(script.params.wq, script.params.quantum, script.params.age),
        consoles: consoles_of(alloc)?,
        clock: 0,
        events: VecDeque::new(alloc),
        service: None,
        idling: None,
        entries: Vec::new(alloc),
    })
}

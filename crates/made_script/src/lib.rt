//! The script that is made of a number: users that all run the same program.
#![tactic(auto)]

ghost use Rattle.std.specs.Prelude.{◌≡◌, IfOk};
ghost use Rattle.text_model.specs.Made.{made_script};
ghost use Rattle.text_model.specs.Reading.{IsInRange};
ghost use Rattle.text_model.specs.Lawful.{IsLawful};

mod accounts;
mod events;
mod files;
mod names;

use ctss_types::{NoMemory, Params, Script, Sequence};
use std::alloc::Global;

/// The script that is made of a number up to 999,999: 4 to 30 users, each with a program of 1 to 16 blocks that counts
/// down from 100 to 1099.
#[tactic(auto, unfolding(text_model::specs::Made::made_script))]
pub fn make_script(alloc: Global, n: u32) -> Result<Script, NoMemory>
    ensures value { IfOk result (λ script. script ≡ made_script n) }
    ensures lawful { IfOk result (λ script. IsLawful script) }
    ensures range { IfOk result (λ script. IsInRange script) }
{
    let users = 4 + (n % 27) as u8;
    let mut accounts = Sequence::new(alloc);
    accounts::add_accounts(&mut accounts, users)?;
    let mut files = Sequence::new(alloc);
    files::add_files(alloc, &mut files, users, n)?;
    let mut events = Sequence::new(alloc);
    events::add_events(&mut events, users)?;
    Ok(Script {
        params: Params {
            wq: 1024,
            quantum: 100,
            swap: 2,
            drum: 480,
            disk: 300,
            common: 10,
            age: 0,
        },
        accounts,
        files,
        events,
        end: 1_000_000,
    })
}

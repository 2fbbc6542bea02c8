//! A step of a program that is run alone.
ghost use Rattle.std.specs.Prelude.{◌<◌, ◌^◌, IfOk};
ghost use Rattle.program_trace.specs.Steppings.{IsStepping};

use crate::alone::{ProgramAlone, settled, step_beside};
use ctss_types::NoMemory;
use file_map::Files;
use std::alloc::Global;
use user_session::Session;

/// A step was done, or none can be.
#[derive(Drop)]
pub(crate) enum Stepping {
    Waits(ProgramAlone),
    Went(ProgramAlone),
}

/// Lets go what a user is made of.
fn let_go(session: Session, files: Files, common: Files) {
    drop(session);
    drop(files);
    drop(common);
}

impl ProgramAlone {
    /// A step, if one can be done.
    pub(crate) fn step(self, alloc: Global) -> Result<Stepping, NoMemory>
        requires { self.user.own < 2 ^ 34 }
        ensures { IfOk result (IsStepping self) }
    {
        let ProgramAlone {
            mut session,
            mut core,
            mut files,
            mut common,
        } = self;
        let now = session.own();
        let Ok(told) = step_beside(&mut session, &mut core, &mut files, &mut common, now) else {
            let_go(session, files, common);
            return Err(NoMemory);
        };
        let Some(step) = told else {
            return Ok(Stepping::Waits(ProgramAlone {
                session,
                core,
                files,
                common,
            }));
        };
        let Ok(core) = settled(alloc, core, step.ending, session.blocks()) else {
            let_go(session, files, common);
            return Err(NoMemory);
        };
        Ok(Stepping::Went(ProgramAlone {
            session,
            core,
            files,
            common,
        }))
    }
}

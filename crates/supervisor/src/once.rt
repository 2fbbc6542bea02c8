//! One step of the state, and the instructions that follow it, with what the consoles show of them.
ghost use Rattle.std.specs.Prelude.{OnOk, OnErr};
ghost use Rattle.supervisor.specs.Goes.{HasTime, IsWatched, LeavesWatched};
ghost use Rattle.supervisor.specs.Whole.{watched, GoesOnce, RunsTo, TextsRunTo};

use crate::watch::Watch;
use ctss_types::RunFault;
use user_cores::Backing;

impl Watch {
    /// One step below the limit, and the instructions of the served user's program that follow it.
    pub(crate) fn advance_once<C: Backing>(
        &mut self,
        cores: &mut C,
        limit: u64,
    ) -> Result<(), RunFault>
        requires watch { IsWatched C.Backing self.old cores.old }
        requires time { HasTime limit self.old.state.clock }
        ensures once { OnOk result (GoesOnce limit
            (watched self.old (C.state cores.old)) (watched self.new (C.state cores.new))) }
        ensures fails { OnErr result (RunsTo limit result
            (watched self.old (C.state cores.old)) (watched self.new (C.state cores.new))) }
        ensures fails_texts { OnErr result (TextsRunTo limit result
            (watched self.old (C.state cores.old)) (watched self.new (C.state cores.new))) }
        ensures leaves { LeavesWatched C.Backing result self.old cores.old self.new cores.new }
    {
        match self.look(cores, limit) {
            Ok(()) => {}
            Err(fault) => return Err(fault),
        }
        self.state.run(cores, limit);
        Ok(())
    }
}

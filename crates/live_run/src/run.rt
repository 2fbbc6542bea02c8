ghost use Rattle.std.specs.Prelude.{◌≡◌, ◌≤◌, length};
ghost use Rattle.supervisor.specs.Whole.{whole_of};
ghost use Rattle.live_run.specs.Calls.{IsReady};

use ctss_types::{ConsoleNo, NoMemory, RunFault, Timed};
use live_core::LiveCore;
use supervisor::Supervisor;
use user_cores::Backing;

/// A supervisor and what lies behind its users' sessions, which goes on as events come. Its events must come in the order of their
/// ticks.
#[derive(Drop)]
pub struct LiveRun<C> {
    supervisor: Supervisor,
    cores: C,
}

impl<C: Backing + Drop> LiveRun<C> {
    /// A run of this supervisor over these cores and directories, which are those of the same accounts.
    pub fn new(supervisor: Supervisor, cores: C) -> LiveRun<C>
        ensures supervisor { result.supervisor ≡ supervisor }
        ensures cores { result.cores ≡ cores }
    {
        LiveRun { supervisor, cores }
    }

    /// Ends the run, and gives back the supervisor and what lay behind it.
    pub fn into_parts(self) -> (Supervisor, C)
        ensures supervisor { result.0 ≡ self.supervisor }
        ensures cores { result.1 ≡ self.cores }
    {
        let LiveRun { supervisor, cores } = self;
        (supervisor, cores)
    }
}

impl<C: Backing + Drop> LiveCore for LiveRun<C> {
    ghost use Rattle.std.specs.Prelude.{◌≡◌, refl};
    ghost use Rattle.supervisor.specs.Whole.{whole_of};
    ghost use Rattle.live_run.specs.Calls.{IsReady, Follows, seen_of};
    ghost use Rattle.live_run.specs.Following.{follows_both};

    ghost seen = { λ r. seen_of (whole_of r.supervisor (C.state r.cores)) };

    ghost Sound = { λ r. C.Usable r.cores × IsReady (whole_of r.supervisor (C.state r.cores)) };

    ghost Goes = { λ a calls b. C.Keeps a.cores b.cores
        × Follows calls (whole_of a.supervisor (C.state a.cores)) (whole_of b.supervisor (C.state b.cores)) };

    fn take(&mut self, event: Timed) -> Result<(), NoMemory> {
        self.supervisor.take(event)
    }

    fn advance(&mut self, limit: u64) -> Result<(), RunFault> {
        self.supervisor.advance(&mut self.cores, limit)
    }

    fn out_len(&self, console: ConsoleNo) -> u64 {
        self.supervisor.out_len(console)
    }

    fn out_since(&self, console: ConsoleNo, from: u64, into: &mut [u8]) -> usize {
        self.supervisor.out_since(console, from, into)
    }

    ghost goes_nowhere = { λ a. (C.stays a.cores, refl) };

    ghost goes_on = { λ a b c first second one two. (
      C.goes_on a.cores b.cores c.cores one.0 two.0,
      follows_both first second _ _ _ one.1 two.1,
    ) };
}

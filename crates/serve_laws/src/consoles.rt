//! What holds of turns one after another: how many calls one makes, why reading and writing stop, whose counts a call
//! moves, and what a console's visits are.

ghost use Rattle.serve_laws.specs.ConsoleLaws.{FewCalls, FewCallsUntil, FewCallsInTurns, CallsAreTold, ReadingStops, WritingStops, OthersLeaveIt, CountsNeverFall, ReadsAreTaken, WritesAreSent};
ghost use Rattle.serve_laws.specs.VisitLaws.{EventsAreVisits, CutEventsAreVisits};

/// A turn makes few calls, whether it was done or failed, and turns one after another few each.
#[tactic(auto, using(crate::proofs::CallLaws::few_calls, crate::proofs::CallLaws::few_calls_until, crate::proofs::CallLaws::few_calls_in_turns))]
pub fn few_calls()
    ensures turn { FewCalls }
    ensures until { FewCallsUntil }
    ensures turns { FewCallsInTurns }
{}

/// A link that lists its calls lists all of them, in order, where it has the room.
#[tactic(auto, using(crate::proofs::CallLaws::calls_are_told))]
pub fn calls_are_told()
    ensures { CallsAreTold }
{}

/// Reading a connection stops for one of four reasons, each of which shows at the link.
#[tactic(auto, using(crate::proofs::StopLaws::why_stopped))]
pub fn reading_stops()
    ensures { ReadingStops }
{}

/// Writing a connection stops for one of four reasons.
#[tactic(auto, using(crate::proofs::WriteStops::why_writing_stopped))]
pub fn writing_stops()
    ensures { WritingStops }
{}

/// A connection's counts are its own: calls on others leave them, and none makes one fall.
#[tactic(auto, using(crate::proofs::OwnCounts::counts_never_fall))]
pub fn own_counts()
    ensures others { OthersLeaveIt }
    ensures rise { CountsNeverFall }
{}

/// What reads gave was taken from the connection, and what writes took was sent to it.
#[tactic(auto, using(crate::proofs::Passing::reads_are_taken, crate::proofs::Passing::writes_are_sent))]
pub fn bytes_pass()
    ensures taken { ReadsAreTaken }
    ensures sent { WritesAreSent }
{}

/// What the core hears at a console over many turns is what the console's connections sent, one after another.
pub fn events_are_visits()
    ensures { EventsAreVisits }
{}

/// Where a turn failed, what the core heard at a console so far is a beginning of what the console's connections sent.
pub fn cut_events_are_visits()
    ensures { CutEventsAreVisits }
{}

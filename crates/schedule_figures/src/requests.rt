//! What a user waited for, over a schedule.
ghost use Rattle.std.specs.Prelude.{◌≡◌, ◌<◌, ◌+◌, ◌^◌, ℕ, List, [], ◌∷◌, ◌++◌};
ghost use Rattle.picture_model.specs.Figures.{responses, turnarounds};
ghost use Rattle.picture_model.specs.Requests.{visit_of, visits};
ghost use Rattle.schedule_figures.specs.Requests.{AreRequests, AreFewRequests, Visits};
ghost use Rattle.schedule_figures.specs.Tallies.{IsTally, IsTallyOfFew};

use crate::tally::Tally;
use ctss_types::Entry;
use picture_model::{Track, Visit};

/// How many ticks a user waited for its services; and the ticks from each request to its first service, and to the end
/// of its last.
#[derive(Clone, Copy)]
pub(crate) struct Requests {
    pub waited: u128,
    pub responses: Tally,
    pub turnarounds: Tally,
}

/// The ticks from requests to their first services, with a visit more.
fn with_response(tally: Tally, visit: Visit) -> Tally
    requires from { visit.from < 2 ^ 64 }
    requires few { IsTallyOfFew (2 ^ 60) tally }
    ensures tally { (ns : List ℕ) → IsTally tally ns → IsTally result (ns ++ responses (visit ∷ [])) }
    ensures few { (n : ℕ) → IsTallyOfFew n tally → IsTallyOfFew (n + 1) result }
{
    if visit.is_first {
        tally.with(visit.from.saturating_sub(visit.asked))
    } else {
        tally
    }
}

/// The ticks from requests to the ends of their last services, with a visit more.
fn with_turnaround(tally: Tally, visit: Visit) -> Tally
    requires until { visit.until < 2 ^ 65 }
    requires few { IsTallyOfFew (2 ^ 60) tally }
    ensures tally { (ns : List ℕ) → IsTally tally ns → IsTally result (ns ++ turnarounds (visit ∷ [])) }
    ensures few { (n : ℕ) → IsTallyOfFew n tally → IsTallyOfFew (n + 1) result }
{
    if visit.is_last {
        tally.with(visit.until.saturating_sub(visit.asked))
    } else {
        tally
    }
}

/// With one visit more.
fn with_visit(requests: Requests, visit: Visit) -> Requests
    requires from { visit.from < 2 ^ 64 }
    requires until { visit.until < 2 ^ 65 }
    requires few { AreFewRequests (2 ^ 60) requests }
    ensures requests { (vs : Visits) → AreRequests requests vs → AreRequests result (vs ++ visit ∷ []) }
    ensures few { (n : ℕ) → AreFewRequests n requests → AreFewRequests (n + 1) result }
{
    Requests {
        waited: requests.waited + visit.from.saturating_sub(visit.waited),
        responses: with_response(requests.responses, visit),
        turnarounds: with_turnaround(requests.turnarounds, visit),
    }
}

/// With one entry more of a schedule, before which so much is known of a user.
fn with_entry(requests: Requests, user: usize, track: Track, entry: &Entry) -> Requests
    requires { AreFewRequests (2 ^ 60) requests }
    ensures requests { (vs : Visits) → AreRequests requests vs
        → AreRequests result (vs ++ visit_of user track entry.now) }
    ensures few { (n : ℕ) → AreFewRequests n requests → AreFewRequests (n + 1) result }
{
    match entry {
        Entry::Serve {
            tick,
            user: of,
            ran,
            cause,
            ..
        } if usize::from(*of) == user => { with_visit(requests, track.visit(*tick, *ran, *cause)) }
        _ => requests,
    }
}

/// What a user waited for, over a whole schedule.
pub(crate) fn requests_of(user: usize, entries: &[Entry]) -> Requests
    ensures requests { AreRequests result (visits user entries.now) }
    ensures few { AreFewRequests (2 ^ 58) result }
{
    let mut requests = Requests {
        waited: 0,
        responses: Tally::new(),
        turnarounds: Tally::new(),
    };
    let mut track = Track::Fresh;
    for entry in entries {
        requests = with_entry(requests, user, track, entry);
        track = track.after(user as u64, entry);
    }
    requests
}

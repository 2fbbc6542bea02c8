//! What is known of one user at one place of a schedule, and one service of a user.
ghost use Rattle.std.specs.Prelude.{◌≡◌, ◌+◌};
ghost use Rattle.picture_model.specs.Requests.{asked_from, ends_request, is_first, served_until, taken_as, tick_or, track_after, typed_at, visit_at, waited_from};

use ctss_types::{Cause, Entry, EventKind};

/// What a user has asked for, as far as the entries up to one place of a schedule tell it. Ticks are those at which a thing happened.
#[derive(Clone, Copy)]
pub enum Track {
    /// Nothing: no line has come since the user came, or was cut.
    Fresh,
    /// Its last service, which ended at this tick, did what had been asked for, and no line has come since.
    Done { ended: u128 },
    /// The first line since then came at this tick.
    Typed { ended: Option<u128>, line: u128 },
    /// What was asked for at one tick is not done: the last service for it ended at the other.
    UnderWay { asked: u128, since: u128 },
}

/// One service of a user: since when the user had waited for it, from when to when it was served, since when what it is for has been
/// asked, and whether it is the first service for that, and the last.
#[derive(Clone, Copy)]
pub struct Visit {
    pub waited: u128,
    pub from: u128,
    pub until: u128,
    pub asked: u128,
    pub is_first: bool,
    pub is_last: bool,
}

/// A tick that may be there, or another.
fn tick_or(one: Option<u128>, other: u128) -> u128
    ensures { result ≡ tick_or one other }
{
    match one {
        Some(tick) => tick,
        None => other,
    }
}

/// Whether a request is over with a service that ended for this cause.
fn ends_request(cause: Cause) -> bool
    ensures { result ≡ ends_request cause }
{
    match cause {
        Cause::Wait | Cause::Stop | Cause::End => true,
        Cause::Time | Cause::Size | Cause::Preempt => false,
    }
}

impl Track {
    /// Since when a user has waited that is served from this tick on.
    pub fn waited_from(self, tick: u128) -> u128
        ensures { result ≡ waited_from self tick }
    {
        match self {
            Track::Fresh => tick,
            Track::Done { ended } => ended,
            Track::Typed { ended, line } => {
                if line <= tick {
                    line
                } else {
                    tick_or(ended, tick)
                }
            }
            Track::UnderWay { since, .. } => since,
        }
    }

    /// Since when has been asked for what a service from this tick on is for.
    pub fn asked_from(self, tick: u128) -> u128
        ensures { result ≡ asked_from self tick }
    {
        match self {
            Track::UnderWay { asked, .. } => asked,
            Track::Fresh => tick,
            Track::Done { ended } => ended,
            Track::Typed { .. } => self.waited_from(tick),
        }
    }

    /// Whether a service is the first for what is asked for.
    fn is_first(self) -> bool
        ensures { result ≡ is_first self }
    {
        match self {
            Track::UnderWay { .. } => false,
            Track::Fresh | Track::Done { .. } | Track::Typed { .. } => true,
        }
    }

    /// Behind a line that came at this tick.
    fn typed_at(self, tick: u128) -> Track
        ensures { result ≡ typed_at tick self }
    {
        match self {
            Track::Fresh => Track::Typed {
                ended: None,
                line: tick,
            },
            Track::Done { ended } => Track::Typed {
                ended: Some(ended),
                line: tick,
            },
            Track::Typed { .. } | Track::UnderWay { .. } => self,
        }
    }

    /// Behind an event that was taken as this.
    fn taken_as(self, kind: EventKind, tick: u128) -> Track
        ensures { result ≡ taken_as kind tick self }
    {
        match kind {
            EventKind::Dial => self,
            EventKind::Line => self.typed_at(tick),
            EventKind::Quit | EventKind::Hang | EventKind::Spent => Track::Fresh,
        }
    }

    /// After a service.
    fn served(self, tick: u64, ran: u64, cause: Cause) -> Track
        ensures { result ≡ served_until (ends_request cause) (asked_from self tick) (tick + ran) }
    {
        let until = u128::from(tick) + u128::from(ran);
        if ends_request(cause) {
            Track::Done { ended: until }
        } else {
            Track::UnderWay {
                asked: self.asked_from(u128::from(tick)),
                since: until,
            }
        }
    }

    /// Behind one entry more, of this user's.
    pub fn after(self, user: u64, entry: &Entry) -> Track
        ensures { result ≡ track_after user self entry.now }
    {
        match entry {
            Entry::Taken {
                tick,
                kind,
                user: of,
                ..
            } if u64::from(*of) == user => self.taken_as(*kind, u128::from(*tick)),
            Entry::Serve {
                tick,
                user: of,
                ran,
                cause,
                ..
            } if u64::from(*of) == user => self.served(*tick, *ran, *cause),
            _ => self,
        }
    }

    /// A service from this tick on, for so many ticks.
    pub fn visit(self, tick: u64, ran: u64, cause: Cause) -> Visit
        ensures { result ≡ visit_at self tick ran cause }
    {
        Visit {
            waited: self.waited_from(u128::from(tick)),
            from: u128::from(tick),
            until: u128::from(tick) + u128::from(ran),
            asked: self.asked_from(u128::from(tick)),
            is_first: self.is_first(),
            is_last: ends_request(cause),
        }
    }
}

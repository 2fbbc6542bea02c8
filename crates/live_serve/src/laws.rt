//! What holds of live consoles if a turn failed.
//!
//! The definitions are in `specs/`. The function here does nothing: it carries a law.
ghost use Rattle.live_serve.specs.Stops.{LiveStopsAreBeginnings};

/// If a turn of live consoles failed, their schedule and transcripts are beginnings of those of the script with all events that
/// they gave.
pub fn live_stops_are_beginnings()
    ensures { LiveStopsAreBeginnings }
{}

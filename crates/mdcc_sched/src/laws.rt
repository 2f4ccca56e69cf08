//! What is read is spelled so.
ghost use Rattle.mdcc_sched.specs.Spelled.{EventsAreSpelled};

/// A line that is read as an event is the one text of that event, with a line end.
pub fn events_are_spelled()
    ensures { EventsAreSpelled }
{}

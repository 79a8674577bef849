//! Theorems: events that are written are read back, and nothing can be read in two ways.

ghost use Rattle.tw_report.specs.Events.{EventsAreReadBack, OneEvent};
ghost use Rattle.tw_report.specs.History.{OneHistory};

/// Proves that no line is two events.
pub fn one_event()
    ensures { OneEvent }
{}

/// Proves that the text written of an event is read as this event.
pub fn events_are_read_back()
    ensures { EventsAreReadBack }
{}

/// Proves that no lines are two traces.
pub fn one_history()
    ensures { OneHistory }
{}

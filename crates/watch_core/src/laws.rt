//! The law of watches, over every history.

ghost use Rattle.watch_core.specs.Events.{EventsSettle};

/// Shows to a proof that after every list of installs, watches and cancels, over every history, each watch ends as
/// the history says. It does nothing when it runs.
pub fn events_settle_watches()
    ensures { EventsSettle }
{}

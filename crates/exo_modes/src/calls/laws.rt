//! Laws of what is called.
ghost use Rattle.exo_modes.specs.Calls.Closed.{ClosedIsClosed, SeedsAreClosed, ClosedIsLeast};

/// Where each procedure calls those before it alone, what is called by a procedure that is reached and passes is reached.
pub fn closed_is_closed()
    ensures { ClosedIsClosed }
{}

/// Each seed is reached.
pub fn seeds_are_closed()
    ensures { SeedsAreClosed }
{}

/// Nothing else is reached than what any set has that has the seeds and is closed under such calls.
pub fn closed_is_least()
    ensures { ClosedIsLeast }
{}

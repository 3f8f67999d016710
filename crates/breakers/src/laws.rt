//! Laws of checks that follow one another. Each is the contract of a function that does nothing.
ghost use Rattle.breakers.specs.Laws.{ToldChecksHaveOneOutcome, CalmChecksRaiseNoTrips, OnlyTheTrippedRose};

/// Where each breaker tells its plan, a check has one outcome, and so has the check after it.
pub fn told_checks_have_one_outcome()
    ensures { ToldChecksHaveOneOutcome }
{}

/// Whether a run of checks was interrupted, and by which breaker, shows in the trips.
pub fn trips_show_interruption()
    ensures calm { CalmChecksRaiseNoTrips }
    ensures tripped { OnlyTheTrippedRose }
{}

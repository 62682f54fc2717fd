//! Laws on sets of terms.
ghost use Rattle.txs_laws.specs.Quiescence.{QuietIsSilent};
ghost use Rattle.txs_laws.specs.Sets.{ClosedIsReached, FirstIsAfter, MovedIsStepped, NextIsAfter};

/// A closed set holds what internal steps reach from the set, and nothing else.
pub fn closed_is_reached()
    ensures { ClosedIsReached }
{}

/// A moved set holds what its members become by the action, and nothing else.
pub fn moved_is_stepped()
    ensures { MovedIsStepped }
{}

/// The behaviour, closed, is the set of terms after the empty trace.
pub fn first_is_after()
    ensures { FirstIsAfter }
{}

/// The set after a trace, moved by an action and closed, is the set of terms after both.
pub fn next_is_after()
    ensures { NextIsAfter }
{}

/// A term is quiescent exactly if no item of its menu is internal and none does an output at any values.
pub fn quiet_is_silent()
    ensures { QuietIsSilent }
{}

//! Laws of the running table. Each function here does nothing, and its contract is a law.

ghost use Rattle.claim_table.specs.Laws.{EveryStateIsReached, ReachedByARun};

/// Between any two steps of its passes the table is a good board, to which events led from the board with which it
/// began, one after the other; each pass's trail is the end of its own. They are a run of the board.
pub fn every_state_is_reached()
    ensures reached { EveryStateIsReached }
    ensures run { ReachedByARun }
{}

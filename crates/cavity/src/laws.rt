//! What a filled hole comes to. The function here does nothing, and its contract is a law.

ghost use Rattle.cavity.specs.Fills.{FreshAreHeld};

/// Where the buckets of all finite points of the gone cells are in hand, and that of
/// the new point, those of the fresh cells are.
pub fn fresh_cells_are_held()
    ensures { FreshAreHeld }
{}

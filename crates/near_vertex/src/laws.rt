//! What a walk to the nearest point comes to. Each function here does nothing, and its contract is a law.

ghost use Rattle.near_vertex.specs.Laws.{NoPointTwice, NearStartIsWalk};

/// A walk visits no point twice, also where buckets come to the hold between its steps.
pub fn no_point_twice()
    ensures { NoPointTwice }
{}

/// What starts is a walk over the points of the set.
pub fn start_is_walk()
    ensures { NearStartIsWalk }
{}

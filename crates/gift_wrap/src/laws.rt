//! What a wrapped hole rests on. The function here does nothing, and its contract is a law.

ghost use Rattle.gift_wrap.specs.Wraps.{LeaderIsApex, OuterIsRim};

/// What a wrapped hole rests on: which cell lies over a facet, and that the triples against
/// a point of the cells at it bound its hole.
pub fn wrapped_holes()
    ensures apex { LeaderIsApex }
    ensures rim { OuterIsRim }
{}

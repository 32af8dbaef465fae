//! Laws of boundaries. The functions here do nothing: each contract is a law.

ghost use Rattle.solid_parts.specs.Laws.{EdgesAreEven};

/// The boundary of Full cells of one complex, each once, is closed: every pair of points lies in an even number of its
/// triangles.
pub fn edges_are_even()
    ensures { EdgesAreEven }
{}

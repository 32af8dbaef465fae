//! Laws of squared radii. The functions here do nothing: each contract is a law.

ghost use Rattle.small_spheres.specs.Laws.{EdgeWithinWhole, TriangleWithinWhole, CellWithinWhole};

/// A sphere is within sixteen times a whole number exactly where its squared radius is at most that number.
pub fn within_whole()
    ensures edge { EdgeWithinWhole }
    ensures triangle { TriangleWithinWhole }
    ensures cell { CellWithinWhole }
{}

//! Laws of the perturbed heights. Each function here does nothing, and its contract is the law.
//!
//! The perturbation is symbolic (Edelsbrunner and Mücke, Simulation of Simplicity): the height of a point on the
//! paraboloid is raised by a part too small to change any sign but that of a tie, the more the greater the point is.

ghost use Rattle.point_order.specs.Laws.{PlainSign, TieSign, TieDecided, NeverZero, PlainNotBelow, PlainNotAbove};
ghost use Rattle.point_order.specs.Laws.{HeightParts, PartRises};

/// The sign of the lifted determinant at the perturbed heights is that of the in-sphere polynomial where this is not 0,
/// and else that of the coefficient of the greatest point whose coefficient is not 0.
pub fn sign_rule()
    ensures plain { PlainSign }
    ensures tie { TieSign }
    ensures decided { TieDecided }
{}

/// No tie is left between five distinct points of which the first four are independent.
pub fn never_zero()
    ensures { NeverZero }
{}

/// A point that is outside a perturbed sphere is not inside the plain one, and a point inside it is not outside that.
pub fn plain_half()
    ensures not_below { PlainNotBelow }
    ensures not_above { PlainNotAbove }
{}

/// The perturbed height is the square of the distance from the origin times a great number, plus a part between 0
/// and that number, which rises with the key.
pub fn height_parts()
    ensures parts { HeightParts }
    ensures rises { PartRises }
{}

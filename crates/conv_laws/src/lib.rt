//! Identities of geometry over the whole numbers: orientations, lifted determinants and spheres.
//!
//! Each function here does nothing, and its contract is a law. The definitions are in `specs/`, and
//! `proofs/Cited` passes on the lemmas that crates above cite. `docs/GEOMETRY.md` tells the laws in order.
#![tactic(auto)]

ghost use Rattle.conv_laws.specs.Affine.{WeightsAddUp, WeightsLocate, WeightsOfHeights, OrientCarried, LiftedCarried};
ghost use Rattle.conv_laws.specs.Affine.{ThreeTerms, Pencil, PencilInPlane, Crossing};
ghost use Rattle.conv_laws.specs.Alternation.{OrientSwaps, OrientEvenOrders, OrientRepeats, LiftedSwaps, LiftedOrders};
ghost use Rattle.conv_laws.specs.Alternation.{LiftedRepeats};
ghost use Rattle.conv_laws.specs.Solidity.{HeightOverPlane, CramersRule, NormalByHeights, OnePlane, OnlyOnLine};
ghost use Rattle.conv_laws.specs.Solidity.{LineInPlane, ParallelVectors, OneLine};
ghost use Rattle.conv_laws.specs.Spheres.{HeightsAreLinear, AffineChange, LiftedBySteps, SphereBySteps, SphereAbout};
ghost use Rattle.conv_laws.specs.Spheres.{ParaboloidIsConvex, PowerCarried, EdgePower, TriangleOnSphere, TrianglePower};

/// The orientation of four places is an alternating function of them.
pub fn orientation_alternates()
    ensures swaps { OrientSwaps }
    ensures even_orders { OrientEvenOrders }
    ensures repeats { OrientRepeats }
{}

/// The lifted determinant of five lifted places is an alternating function of them.
pub fn lifted_determinant_alternates()
    ensures swaps { LiftedSwaps }
    ensures orders { LiftedOrders }
    ensures repeats { LiftedRepeats }
{}

/// Barycentric coordinates without division: a fifth place by its weights at four
/// others, and how much it is raised above them.
pub fn affine_relation()
    ensures sum { WeightsAddUp }
    ensures place { WeightsLocate }
    ensures height { WeightsOfHeights }
{}

/// What the affine relation carries from the four places to the fifth: orientations, and lifted determinants.
pub fn carried_by_weights()
    ensures orientation { OrientCarried }
    ensures lifted_determinant { LiftedCarried }
{}

/// The three-term relation (of Grassmann and Plücker) of four places around a common pair.
pub fn three_term_relation()
    ensures { ThreeTerms }
{}

/// The spheres through three places form a pencil; in the plane of the three they cut one circle.
pub fn pencil_of_spheres()
    ensures relation { Pencil }
    ensures in_plane { PencilInPlane }
{}

/// From a cell across one of its facets to the next, by which a walk over cells comes nearer.
pub fn crossing_a_facet()
    ensures { Crossing }
{}

/// What a change of all heights does to a lifted determinant: it is linear in them, and
/// an affine function of place adds nothing.
pub fn change_of_heights()
    ensures linear { HeightsAreLinear }
    ensures affine { AffineChange }
{}

/// Lifted determinants and the in-sphere polynomial by differences from the first place, as programs compute them.
pub fn translated_to_first()
    ensures lifted_determinant { LiftedBySteps }
    ensures sphere { SphereBySteps }
{}

/// The in-sphere polynomial by squares of distances: from any place, and as a weighted sum, which tells
/// that a place among the vertices is inside.
pub fn paraboloid_is_convex()
    ensures about { SphereAbout }
    ensures convex { ParaboloidIsConvex }
{}

/// The power of a place to a sphere, as a weighted sum of the powers of four others; and so for the smallest spheres of
/// an edge and a triangle, on which their own vertices lie.
pub fn small_spheres()
    ensures power { PowerCarried }
    ensures edge { EdgePower }
    ensures triangle_vertices { TriangleOnSphere }
    ensures triangle { TrianglePower }
{}

/// Planes by their normals.
pub fn normal_of_plane()
    ensures height { HeightOverPlane }
    ensures cramers_rule { CramersRule }
    ensures told_by_heights { NormalByHeights }
{}

/// When all places lie in one plane: the places in the plane of three that are not
/// on one line, and those on the line of two.
pub fn all_in_one_plane()
    ensures one_plane { OnePlane }
    ensures only_on_line { OnlyOnLine }
    ensures line_in_plane { LineInPlane }
    ensures parallel { ParallelVectors }
    ensures one_line { OneLine }
{}

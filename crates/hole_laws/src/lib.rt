//! What an insertion or a removal changes in the perturbed Delaunay complex.
//!
//! Each function here does nothing, and its contract is a law about the complexes of a solid set of points and of the
//! set with one more point. A set is an ascending list of keys, and a complex is its sorted list of cells. The laws
//! never open the definition of a cell: they rest on the few facts that `del_laws` proves in `base_of_edits`.
//! `docs/GEOMETRY.md` tells them in order, with their proofs in short.
#![tactic(auto)]

ghost use Rattle.hole_laws.specs.Commuting.{StaysSolid, ChangesReached, EditsCommute};
ghost use Rattle.hole_laws.specs.Laws.{StaysWithoutConflict, GoesInConflict, SomeMate, MatesJudge, SomeRim, CellsAfter};
ghost use Rattle.hole_laws.specs.Laws.{FreshHavePoint, OldLackPoint, OneGoneEach, OneFreshEach, RegionConnected};
ghost use Rattle.hole_laws.specs.Laws.{FoundFromHeld, FreshAreNear, JoinedAreReached, MadeByInsertion, CellsOfRest};
ghost use Rattle.hole_laws.specs.Laws.{MadeByRemoval, RefilledFromLink, ComingAreNear, SolidNear, FlatRestJoined};
ghost use Rattle.hole_laws.specs.Stars.{StarConnected};

/// A cell of the set is one of the set with a new point `p` exactly where it is not in conflict with `p`.
///
/// Of an Open cell this does not depend on the mate, which may be any point of the set off the cell's plane. Every cell
/// has one, and for each mate the predicates can judge.
pub fn conflict_law()
    ensures stays { StaysWithoutConflict }
    ensures goes { GoesInConflict }
    ensures mate { SomeMate }
    ensures judged { MatesJudge }
{}

/// The complex of the set with a new point `p` has the cells that stay, and the cells of `p` and a rim facet.
///
/// A facet is a rim facet where one of its two cells goes and the other stays. Facets of two points and the infinite
/// vertex are among them, so that `p` may lie outside the hull.
pub fn insertion_law()
    ensures after { CellsAfter }
    ensures fresh { FreshHavePoint }
    ensures old { OldLackPoint }
    ensures rim { SomeRim }
{}

/// A search over the facets of the cells that go meets each rim facet once, and so each new cell once.
pub fn new_cells_are_met_once()
    ensures gone { OneGoneEach }
    ensures fresh { OneFreshEach }
{}

/// The cells that a new point takes away are one region, connected across facets, the pair facets among them.
///
/// So a search over facets that begins in the region finds all of it. It needs to know only the cells that have a point
/// in some set of held points, if all points of the cells that it finds are held.
pub fn conflict_region_is_connected()
    ensures connected { RegionConnected }
    ensures held { FoundFromHeld }
{}

/// An insertion changes only cells whose points are the new one and points of the cells that go; and these are the
/// points that the new one is joined to.
pub fn insertion_is_local()
    ensures near { FreshAreNear }
    ensures joined { JoinedAreReached }
{}

/// The sorted list of the complex after an edit, from the one before, the list of the cells that go and that of the new
/// cells.
pub fn complex_after_edit()
    ensures insertion { MadeByInsertion }
    ensures removal { MadeByRemoval }
{}

/// The complex of a set without one of its points `v` has the cells that do not have `v`, and those that come.
///
/// The cells that come are those in conflict with `v` in the complex of any solid set between the link of `v`, the
/// points that some cell joins to it, and the rest. All their points are in the link.
pub fn removal_law()
    ensures rest { CellsOfRest }
    ensures refilled { RefilledFromLink }
    ensures near { ComingAreNear }
{}

/// Whether the rest of a set is solid shows in the link and in the points across from it. A flat link does not mean
/// that the rest is flat; a flat rest is all in the link.
pub fn flat_rest_shows()
    ensures solid { SolidNear }
    ensures flat { FlatRestJoined }
{}

/// An edit changes only cells all of whose points it reaches: its own, and the points of the cells that an added point
/// takes away, or of the cells at a taken one; of both, one after the other, where a point is moved. A solid set stays
/// solid.
pub fn edit_is_local()
    ensures solid { StaysSolid }
    ensures near { ChangesReached }
{}

/// Two edits commute where the first, and the second after it, reach no point in common: in the other order they leave
/// the same set, answer the same and reach the same points.
pub fn edits_commute()
    ensures { EditsCommute }
{}

/// The cells at a point of a set are one star, connected across the facets that have the point.
///
/// So a search over these facets that begins with one of the cells finds all of them.
pub fn star_is_connected()
    ensures { StarConnected }
{}

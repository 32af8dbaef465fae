//! The laws of perturbed Delaunay complexes of points with whole coordinates.
//!
//! A cell is four vertices in any order: four points of the set whose sphere has no point inside (a Full cell), or
//! three points of the hull and the infinite vertex (an Open cell). Each function here does nothing, and its contract
//! is a law. The definitions are in `specs/`, and `proofs/Cited` passes on the lemmas that crates above cite.
//! `docs/GEOMETRY.md` tells the laws in order.
//!
//! Most laws are for any heights that have no ties and are convex, as far as they need these facts. `perturbed_heights`
//! says that the heights of the complex are such.
#![tactic(auto)]

ghost use Rattle.del_laws.specs.Laws.{SwapFirst, SwapMiddle, SwapLast, FacetLaw, NoFlatTriple, AnyMate, AcrossFull};
ghost use Rattle.del_laws.specs.Laws.{AcrossOpen, OneFullOnASide, OneOpenOnASide, SmallerSet, BetweenSets, FullStays};
ghost use Rattle.del_laws.specs.Laws.{OpenStays, KeysHaveNoTies, KeysAreConvex, TestOfCells};
ghost use Rattle.del_laws.specs.Walks.{CloserAcross, FartherAcross, AwayFromAPoint, SolidHasCells, EveryPoint};
ghost use Rattle.del_laws.specs.Walks.{SomeFacetBehind, CrossingTowards, FewerAreNearer};
ghost use Rattle.del_laws.specs.Parts.{StarLaw, ClosedPart, CellsAtAVertex, EmptyCells};
ghost use Rattle.del_laws.specs.Kept.{FullIsKept, OpenIsKept};
ghost use Rattle.del_laws.specs.EmptySpheres.{CellsAreEmpty, EdgeByCells, TriangleByCells};
ghost use Rattle.del_laws.specs.Nearness.{NearerAcross, NearerInside, SomeTripleTowards};
ghost use Rattle.del_laws.specs.Nearest.{NearestByCells};
ghost use Rattle.del_laws.specs.Listed.{DefinitionIsCell, ListedIsCell, CellIsListed, TestIsListed, ComplexIsSorted};
ghost use Rattle.del_laws.specs.Listed.{ListedFacets, SameCells};
ghost use Rattle.del_laws.specs.ListedParts.{ListedStar, ListedPart, ListedAtAPoint, ListedEveryPoint, ListedMate};
ghost use Rattle.del_laws.specs.ListedParts.{ClosedListIsComplex, ComplexIsClosedList};
ghost use Rattle.del_laws.specs.PointSets.{PointSet, solid, cell, vertices, minus, has_as_point, set_with};
ghost use Rattle.del_laws.specs.Base.{Base};

/// The vertices of a cell may stand in any order.
pub fn cells_are_symmetric()
    ensures first { SwapFirst }
    ensures middle { SwapMiddle }
    ensures last { SwapLast }
{}

/// Every facet of every cell of a complex lies in exactly two cells: the complex has no border.
pub fn facet_law()
    ensures { FacetLaw }
{}

/// What lies on the two sides of a triple of points: one cell on each, and of
/// an Open cell the inner side has a Full one.
pub fn across_a_triple()
    ensures full { AcrossFull }
    ensures open { AcrossOpen }
    ensures one_full { OneFullOnASide }
    ensures one_open { OneOpenOnASide }
{}

/// Planes of three points: a solid set is not in one, and in it the circle through the
/// three does not depend on the fourth point.
pub fn plane_of_a_triple()
    ensures off { NoFlatTriple }
    ensures any_mate { AnyMate }
{}

/// Cells of a smaller set, and of a set between two sets and their union.
pub fn cells_of_other_sets()
    ensures smaller { SmallerSet }
    ensures between { BetweenSets }
{}

/// A point that is added leaves a cell in the complex exactly where it is not in conflict with it.
pub fn cells_that_stay()
    ensures full { FullStays }
    ensures open { OpenStays }
{}

/// Crossing a facet towards a point leads to a cell that is closer to it, and away from it to one that is farther.
pub fn crossing_a_facet()
    ensures closer { CloserAcross }
    ensures farther { FartherAcross }
{}

/// From every point, in the set or not, some cell of the hull looks away.
pub fn away_from_a_point()
    ensures { AwayFromAPoint }
{}

/// A solid set has cells.
pub fn solid_has_cells()
    ensures { SolidHasCells }
{}

/// Every point of a solid set is a vertex of a Full cell.
pub fn every_point()
    ensures { EveryPoint }
{}

/// From a Full cell not in conflict with a point some facet leads towards it: to a closer
/// Full cell, or to an Open cell in conflict.
pub fn walk_towards_a_point()
    ensures behind { SomeFacetBehind }
    ensures crossing { CrossingTowards }
{}

/// A walk over cells of one list that comes nearer at each step ends.
pub fn fewer_are_nearer<T>()
    ensures { FewerAreNearer T }
{}

/// Cells around some points, closed across the triples that have these points, are all cells around them.
pub fn star_law()
    ensures { StarLaw }
{}

/// A part of a complex that is not empty and is closed across triples is the whole.
pub fn closed_part()
    ensures { ClosedPart }
{}

/// Cells at a vertex, closed across the triples that have the vertex, are all cells at it.
pub fn cells_at_a_vertex()
    ensures { CellsAtAVertex }
{}

/// Empty cells, not none, of which each facet lies in a second one, are all cells of the complex.
pub fn empty_cells()
    ensures { EmptyCells }
{}

/// The perturbed heights of points with whole coordinates have no ties and are convex.
pub fn perturbed_heights()
    ensures no_ties { KeysHaveNoTies }
    ensures convex { KeysAreConvex }
{}

/// The test of four vertices says whether they are a cell at the perturbed heights.
pub fn test_of_four_vertices()
    ensures { TestOfCells }
{}

/// The few facts of geometry from which all laws of insertion and removal follow.
pub fn base_of_edits()
    ensures { Base PointSet has_as_point solid cell vertices set_with minus }
{}

/// The complex of a set, as its list, has exactly the cells of the set, each with its points in order.
pub fn listed_cells()
    ensures definition { DefinitionIsCell }
    ensures listed { ListedIsCell }
    ensures cell { CellIsListed }
    ensures of_vertices { TestIsListed }
{}

/// The list of a complex is in the order of cells, and lists in this order are told by their members.
pub fn order_of_cells()
    ensures sorted { ComplexIsSorted }
    ensures same_members { SameCells }
{}

/// Every facet of every listed cell lies in exactly two listed cells.
pub fn listed_facets()
    ensures { ListedFacets }
{}

/// A listed Open cell has a mate: the fourth point of the Full cell on its triple.
pub fn listed_mates()
    ensures { ListedMate }
{}

/// Every point of a solid set is in a listed Full cell.
pub fn listed_points()
    ensures { ListedEveryPoint }
{}

/// Listed cells that are closed across triples: around some points, of the whole list, and at one point.
pub fn listed_parts()
    ensures star { ListedStar }
    ensures part { ListedPart }
    ensures at_a_point { ListedAtAPoint }
{}

/// A sorted list of empty cells, not none, in which every facet of a member lies in a second member, is
/// the complex of the set, and the set is solid. The complex of a solid set is such a list; so each single
/// flaw shows that a list is not the complex.
pub fn closed_lists()
    ensures complex { ClosedListIsComplex }
    ensures closed { ComplexIsClosedList }
{}

/// A cell of a set is a cell of the set with one more point exactly where the test of
/// conflict says that it is not in conflict.
pub fn kept_cells()
    ensures full { FullIsKept }
    ensures open { OpenIsKept }
{}

/// The steps of a walk towards a point that is not in the set, over cells of the complex: each leads to a nearer cell,
/// and a Full cell that the point is outside of has a triple to cross. `fewer_are_nearer` says that such a walk ends.
pub fn steps_of_a_walk()
    ensures across { NearerAcross }
    ensures inside { NearerInside }
    ensures towards { SomeTripleTowards }
{}

/// Smallest circumscribing spheres, the plain ones and not the perturbed: that of a Full cell has no point
/// strictly inside, and whether that of an edge or a triangle of a Full cell has one shows in the Full
/// cells that have the edge or the triangle.
pub fn smallest_spheres()
    ensures cell { CellsAreEmpty }
    ensures edge { EdgeByCells }
    ensures triangle { TriangleByCells }
{}

/// The cells at a point show whether it is the nearest point of the set to a place, with ties by the lesser key.
pub fn nearest_by_cells()
    ensures { NearestByCells }
{}

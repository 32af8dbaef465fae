//! What a step of a walk comes to. Each function here does nothing, and its contract is a law.

ghost use Rattle.cell_walk.specs.Laws.{NearerTowards, SomeFacetTowards, FewerAcross, StartIsWalk, WalkStays};
ghost use Rattle.cell_walk.specs.Laws.{NoCellTwice};

/// A cell that stays has a facet towards the new point, and the cell across it is nearer: of the cells of the
/// buckets in hand fewer are nearer than it.
pub fn moves_come_nearer()
    ensures nearer { NearerTowards }
    ensures some { SomeFacetTowards }
    ensures fewer { FewerAcross }
{}

/// A walk visits no cell twice, also where buckets come to the hold between its steps.
pub fn no_cell_twice()
    ensures { NoCellTwice }
{}

/// What starts is a walk to the new point, and it is one with more buckets in hand.
pub fn walks_go_on()
    ensures start { StartIsWalk }
    ensures more { WalkStays }
{}

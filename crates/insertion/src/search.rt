//! The search for a first cell that a new point takes away.

ghost use Rattle.std.specs.Prelude.{List, ℕ};
ghost use Rattle.hole_laws.specs.Edits.{IsNew, GoesFrom};
ghost use Rattle.cell_store.specs.Meshes.{AllInHand};
ghost use Rattle.cell_store.specs.Shares.{Shows};
ghost use Rattle.cell_walk.specs.Paths.{ShowsWalk};
ghost use Rattle.cell_conflict.specs.Searching.{ShowsNew};
ghost use Rattle.insertion.specs.declared.search.Search.TheVariants.{Near as IsNear, On as IsOn, InTurn as IsInTurn};
ghost use Rattle.insertion.specs.Searches.{StartsSearch, ShowsSearch, SearchAnswers};

use cell_conflict::conflict_among;
use cell_store::Hold;
use cell_walk::{Walk, WalkTurn};
use point_order::{Cell, Point};

// After how many steps a walk is given up, and the buckets are looked through in turn. No cell is met twice, so it ends
// before on every mesh that memory can hold.
const STEPS: u64 = 1 << 40;

/// The search for a first cell that a new point takes away: where it stands.
#[derive(Debug, Drop)]
pub enum Search {
    /// So many buckets, from that of the point on and round, have no point from which a walk begins.
    Near(u32),
    /// A walk to the point.
    On(Walk),
    /// The point takes no cell of the buckets below this number away.
    InTurn(u32),
}

/// What a turn of a search comes to.
#[derive(Debug, Drop)]
pub enum SearchTurn {
    /// The new point takes this cell away.
    Here(Cell),
    /// The bucket with this number is not in hand; with it the search goes on.
    Need(u32, Search),
}

impl Search {
    /// The search that begins with a walk from a point that lies near.
    pub fn begin() -> Search
        ensures { StartsSearch result }
    {
        Search::Near(0)
    }

    /// Looks on over the buckets in hand for a cell that the new point takes away. Between two turns buckets may come.
    ///
    /// A walk finds it, from a cell at a point that lies near. Where there is none the buckets are looked through in
    /// turn. The answer is right for each set that the hold shows. It takes no memory.
    pub fn advance(self, hold: &Hold, p: Point) -> SearchTurn
        requires { ShowsSearch hold.now p self }
        ensures { SearchAnswers hold.now p self result }
    {
        match self {
            Search::Near(steps) => near_from(hold, p, steps),
            Search::On(walk) => walk_on(hold, p, walk),
            Search::InTurn(b) => turn_from(hold, p, b),
        }
    }
}

// The walk from a point that lies near: of the first bucket that has any, from that of p on and round, after so many.
fn near_from(hold: &Hold, p: Point, from: u32) -> SearchTurn
    requires { ShowsNew hold.now p }
    ensures { SearchAnswers hold.now p (IsNear from) result }
{
    let grid = hold.grid();
    let count = grid.count();
    let first = grid.bucket_of(p);
    for steps in from..count {
        let b = (first + steps) % count;
        if !hold.has(b) {
            return SearchTurn::Need(b, Search::Near(steps));
        }
        if let Some(walk) = Walk::near(hold, b, p) {
            return walk_on(hold, p, walk);
        }
    }
    turn_from(hold, p, 0)
}

// Goes on with a walk to its end, or until it is given up.
fn walk_on(hold: &Hold, p: Point, start: Walk) -> SearchTurn
    requires { ShowsSearch hold.now p (IsOn start) }
    ensures { SearchAnswers hold.now p (IsOn start) result }
{
    let _ = hold.grid();
    let mut walk = start;
    for _ in 0..STEPS {
        match walk.step(hold) {
            WalkTurn::Here(cell) => return SearchTurn::Here(cell),
            WalkTurn::Moved => {}
            WalkTurn::Need(b) => return SearchTurn::Need(b, Search::On(walk)),
        }
    }
    turn_from(hold, p, 0)
}

// Looks through the buckets in turn, from a number on.
fn turn_from(hold: &Hold, p: Point, from: u32) -> SearchTurn
    requires { ShowsSearch hold.now p (IsInTurn from) }
    ensures { SearchAnswers hold.now p (IsInTurn from) result }
{
    for b in from..hold.grid().count() {
        if !hold.has(b) {
            return SearchTurn::Need(b, Search::InTurn(b));
        }
        if let Some(cell) = conflict_among(hold, b, p) {
            return SearchTurn::Here(cell);
        }
    }
    unreachable!()
}

/// A cell that the new point takes away. Every bucket is to be in hand, and the hold to show a set for which the point
/// is new.
pub fn cell_in_conflict(hold: &Hold, p: Point) -> Cell
    requires all { AllInHand hold.now }
    requires shown { ShowsNew hold.now p }
    ensures { (s : List ℕ) → Shows hold.now s → IsNew s p → GoesFrom s p result }
{
    match Search::begin().advance(hold, p) {
        SearchTurn::Here(cell) => cell,
        SearchTurn::Need(_, _) => unreachable!(),
    }
}

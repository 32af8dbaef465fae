//! Planners, and the plans that they come to.

ghost use Rattle.edit_plans.specs.Leaving.{IsQuiet};

use cavity::Fresh;
use edit_history::{Edit, Reply};
use insertion::Arrival;
use point_order::{Cell, Point};
use std::alloc::Global;

/// What an edit changes: its reply, the cells that go, and those that come.
#[derive(Debug, Drop)]
pub struct Plan {
    pub reply: Reply,
    pub gone: Vec<Cell>,
    pub fresh: Vec<Cell>,
}

/// The new place of a point that moves, found to be free, with what it changes: the cells that go when it comes, and
/// those that come.
#[derive(Debug, Drop)]
pub struct Landed {
    pub from: Point,
    pub to: Point,
    pub came: Fresh,
}

/// The search for what an edit changes: where it stands.
#[derive(Debug, Drop)]
pub enum Planner {
    /// Before the bucket of the edit's point, which comes first; of a move, before those of both places.
    Home(Edit),
    /// The point is new, and comes.
    Comes(Point, Arrival),
    /// The point is there, and goes.
    Goes(Point),
    /// The point is there and moves to a free place: what the new place changes is looked for.
    Lands(Point, Point, Arrival),
    /// That is known, and the point leaves its place: the rest is looked for while the new place is there.
    Leaves(Landed),
}

/// What a turn of a planner comes to.
#[derive(Debug, Drop)]
pub enum PlanTurn {
    /// What the edit changes. Every bucket that it touches is in hand.
    Done(Plan),
    /// The bucket with this number is not in hand; with it the planner goes on.
    Need(u32, Planner),
}

// What a look over the buckets in hand, as they are, comes to.
pub(crate) enum Look {
    Turn(PlanTurn),
    // The rest is to be found while the new place is there.
    Beside(Landed),
}

// The plan of an edit that changes no cell.
pub(crate) fn no_change(alloc: Global, reply: Reply) -> Plan
    ensures { IsQuiet result reply }
{
    Plan {
        reply,
        gone: Vec::new(alloc),
        fresh: Vec::new(alloc),
    }
}

//! Moves: both places, and what the new one changes.

ghost use Rattle.std.specs.Prelude.{IfOk};
ghost use Rattle.edit_history.specs.declared.history.Edit.TheVariants.{Move};
ghost use Rattle.cell_store.specs.Shares.{ShowsSome};
ghost use Rattle.edit_plans.specs.declared.plan.Planner.TheVariants.{Home as IsHome, Lands as IsLanding};
ghost use Rattle.edit_plans.specs.Plans.{HoldsHome, ShowsPlanner, LookAnswers};

use crate::plan::{Landed, Look, PlanTurn, Planner, no_change};
use cell_store::Hold;
use edit_history::{Edit, Reply};
use insertion::{Arrival, ArrivalTurn};
use point_order::Point;
use std::alloc::{AllocError, Global};

// The move of a point whose bucket is in hand: it is missing, else its new place is occupied, else it lands there.
pub(crate) fn move_home(alloc: Global, hold: &Hold, a: Point, b: Point) -> Result<Look, AllocError>
    requires shown { ShowsSome hold.now }
    requires home { HoldsHome hold.now a }
    ensures { IfOk result (LookAnswers hold.now (IsHome (Move a b))) }
{
    let _ = (a.key(), b.key());
    let goal = hold.grid().bucket_of(b);
    if !hold.has(goal) {
        let next = Planner::Home(Edit::Move(a, b));
        return Ok(Look::Turn(PlanTurn::Need(goal, next)));
    }
    if !hold.holds_point(a) {
        return Ok(Look::Turn(PlanTurn::Done(no_change(alloc, Reply::Missing))));
    }
    if hold.holds_point(b) {
        return Ok(Look::Turn(PlanTurn::Done(no_change(alloc, Reply::Occupied))));
    }
    land_on(alloc, hold, a, b, Arrival::begin())
}

// Goes on with the new place of a point that moves.
pub(crate) fn land_on(
    alloc: Global,
    hold: &Hold,
    a: Point,
    b: Point,
    arrival: Arrival,
) -> Result<Look, AllocError>
    requires { ShowsPlanner hold.now (IsLanding a b arrival) }
    ensures { IfOk result (LookAnswers hold.now (IsLanding a b arrival)) }
{
    match arrival.advance(alloc, hold, b)? {
        ArrivalTurn::Done(came) => Ok(Look::Beside(Landed {
            from: a,
            to: b,
            came,
        })),
        ArrivalTurn::Need(x, next) => {
            Ok(Look::Turn(PlanTurn::Need(x, Planner::Lands(a, b, next))))
        }
    }
}

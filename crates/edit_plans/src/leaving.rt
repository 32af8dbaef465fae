//! Moves: what leaving the old place changes, looked for while the new one is there.

ghost use Rattle.std.specs.Prelude.{◌≡◌, IfOk};
ghost use Rattle.cell_store.specs.Between.{HasWay};
ghost use Rattle.edit_plans.specs.declared.plan.Planner.TheVariants.{Leaves as IsLeaving};
ghost use Rattle.edit_plans.specs.Leaving.{AnswersBeside, AreBoth, CanLeave, IsMovedBy, RefillAnswers};
ghost use Rattle.edit_plans.specs.Plans.{ShowsPlanner, PlanAnswers};

use crate::plan::{Landed, Plan, PlanTurn, Planner, no_change};
use cavity::{Fresh, composed};
use cell_store::Hold;
use edit_history::{Edit, Reply};
use point_order::Point;
use std::alloc::{AllocError, Global};
use vertex_removal::{Refill, RefillTurn};

// A turn of the refill of a point.
pub(crate) fn refill_at(alloc: Global, hold: &Hold, v: Point) -> Result<RefillTurn, AllocError>
    requires { CanLeave hold.now v }
    ensures { IfOk result (RefillAnswers hold.now v) }
{
    let mut refill = Refill::start(alloc, v)?;
    refill.advance(alloc, hold)
}

// The plan of a move that is made: what its new place changes, and then what leaving the old one changes.
fn both(alloc: Global, came: &Fresh, left: &Fresh) -> Result<Plan, AllocError>
    ensures { IfOk result (AreBoth came.now left.now) }
{
    let Fresh { gone, fresh } = composed(alloc, came, left)?;
    Ok(Plan {
        reply: Reply::Moved,
        gone,
        fresh,
    })
}

// What the move comes to by a turn of the refill of its old place.
pub(crate) fn moved_by(
    alloc: Global,
    landed: Landed,
    found: RefillTurn,
) -> Result<PlanTurn, AllocError>
    ensures { IfOk result (IsMovedBy landed found) }
{
    match found {
        RefillTurn::Done(left) => Ok(PlanTurn::Done(both(alloc, &landed.came, &left)?)),
        RefillTurn::Flat => Ok(PlanTurn::Done(no_change(alloc, Reply::Flat))),
        RefillTurn::Need(x) => Ok(PlanTurn::Need(x, Planner::Leaves(landed))),
    }
}

// A turn of the refill of the old place while the new one is there, which is then taken out again.
fn look_beside(alloc: Global, hold: &mut Hold, landed: &Landed) -> Result<RefillTurn, AllocError>
    requires way { HasWay hold.old landed.now.came.gone.items landed.now.came.fresh.items landed.now.to }
    requires shown { ShowsPlanner hold.old (IsLeaving landed.now) }
    ensures same { hold.new ≡ hold.old }
    ensures found { IfOk result (AnswersBeside hold.old landed.now) }
{
    hold.enter(&landed.came.gone, &landed.came.fresh, landed.to);
    let found = refill_at(alloc, hold, landed.from);
    hold.leave(&landed.came.gone, &landed.came.fresh, landed.to);
    found
}

// Goes on with a point that leaves its place.
pub(crate) fn leave_on(
    alloc: Global,
    hold: &mut Hold,
    landed: Landed,
) -> Result<PlanTurn, AllocError>
    requires { ShowsPlanner hold.old (IsLeaving landed) }
    ensures same { hold.new ≡ record hold.old { room = hold.new.room } }
    ensures answers { IfOk result (PlanAnswers hold.old (IsLeaving landed)) }
{
    let edit = Edit::Add(landed.to);
    hold.reserve_both_found(alloc, &landed.came.gone, &landed.came.fresh, &edit)?;
    let found = look_beside(alloc, hold, &landed)?;
    moved_by(alloc, landed, found)
}

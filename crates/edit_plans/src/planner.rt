//! Planners look over the buckets in hand.

ghost use Rattle.std.specs.Prelude.{◌≡◌, IfOk};
ghost use Rattle.edit_history.specs.declared.history.Edit.TheVariants.{Add, Take};
ghost use Rattle.cell_store.specs.Shares.{ShowsSome};
ghost use Rattle.edit_plans.specs.declared.plan.Planner.TheVariants.{Home as IsHome, Comes as IsComing};
ghost use Rattle.edit_plans.specs.declared.plan.Planner.TheVariants.{Goes as IsGoing};
ghost use Rattle.edit_plans.specs.Plans.{HoldsHome, ShowsPlanner, PlanAnswers, LookAnswers};

use crate::leaving::leave_on;
use crate::moving::{land_on, move_home};
use crate::plan::{Look, Plan, PlanTurn, Planner, no_change};
use cavity::Fresh;
use cell_store::Hold;
use edit_history::{Edit, Reply};
use insertion::{Arrival, ArrivalTurn};
use point_order::Point;
use std::alloc::{AllocError, Global};
use vertex_removal::{Refill, RefillTurn};

impl Planner {
    /// The planner for an edit.
    pub fn begin(edit: Edit) -> Planner
        ensures { result ≡ IsHome edit }
    {
        Planner::Home(edit)
    }

    // Looks over the buckets in hand, as they are.
    pub(crate) fn look(self, alloc: Global, hold: &Hold) -> Result<Look, AllocError>
        requires { ShowsPlanner hold.now self }
        ensures { IfOk result (LookAnswers hold.now self) }
    {
        match self {
            Planner::Home(edit) => at_home(alloc, hold, edit),
            Planner::Comes(p, arrival) => Ok(Look::Turn(come_on(alloc, hold, p, arrival)?)),
            Planner::Goes(p) => Ok(Look::Turn(go_on(alloc, hold, p)?)),
            Planner::Lands(a, b, arrival) => land_on(alloc, hold, a, b, arrival),
            Planner::Leaves(landed) => Ok(Look::Beside(landed)),
        }
    }

    /// Looks on over the buckets in hand for what the edit changes. Between two turns buckets may come to the hold. The
    /// answer is right for each set that the hold shows. The hold is then as before, but for its room: the new place of
    /// a move is put in while it is looked beside it, and is taken out at once.
    ///
    /// # Errors
    /// Want of memory.
    pub fn advance(self, alloc: Global, hold: &mut Hold) -> Result<PlanTurn, AllocError>
        requires { ShowsPlanner hold.old self }
        ensures same { hold.new ≡ record hold.old { room = hold.new.room } }
        ensures answers { IfOk result (PlanAnswers hold.old self) }
    {
        match self.look(alloc, hold)? {
            Look::Turn(turn) => Ok(turn),
            Look::Beside(landed) => leave_on(alloc, hold, landed),
        }
    }
}

// Looks for the bucket of the edit's point, and whether the point is there.
fn at_home(alloc: Global, hold: &Hold, edit: Edit) -> Result<Look, AllocError>
    requires { ShowsPlanner hold.now (IsHome edit) }
    ensures { IfOk result (LookAnswers hold.now (IsHome edit)) }
{
    let home = hold.grid().bucket_of(edit.point());
    if !hold.has(home) {
        return Ok(Look::Turn(PlanTurn::Need(home, Planner::Home(edit))));
    }
    match edit {
        Edit::Add(p) => Ok(Look::Turn(add_home(alloc, hold, p)?)),
        Edit::Take(p) => Ok(Look::Turn(take_home(alloc, hold, p)?)),
        Edit::Move(a, b) => move_home(alloc, hold, a, b),
    }
}

// The addition of a point whose bucket is in hand.
fn add_home(alloc: Global, hold: &Hold, p: Point) -> Result<PlanTurn, AllocError>
    requires shown { ShowsSome hold.now }
    requires home { HoldsHome hold.now p }
    ensures { IfOk result (PlanAnswers hold.now (IsHome (Add p))) }
{
    let _ = p.key();
    if hold.holds_point(p) {
        return Ok(PlanTurn::Done(no_change(alloc, Reply::Duplicate)));
    }
    come_on(alloc, hold, p, Arrival::begin())
}

// The removal of one.
fn take_home(alloc: Global, hold: &Hold, p: Point) -> Result<PlanTurn, AllocError>
    requires shown { ShowsSome hold.now }
    requires home { HoldsHome hold.now p }
    ensures { IfOk result (PlanAnswers hold.now (IsHome (Take p))) }
{
    let _ = p.key();
    if hold.holds_point(p) {
        return go_on(alloc, hold, p);
    }
    Ok(PlanTurn::Done(no_change(alloc, Reply::Missing)))
}

// Goes on with a point that comes.
fn come_on(alloc: Global, hold: &Hold, p: Point, arrival: Arrival) -> Result<PlanTurn, AllocError>
    requires { ShowsPlanner hold.now (IsComing p arrival) }
    ensures { IfOk result (PlanAnswers hold.now (IsComing p arrival)) }
{
    match arrival.advance(alloc, hold, p)? {
        ArrivalTurn::Done(Fresh { gone, fresh }) => Ok(PlanTurn::Done(Plan {
            reply: Reply::Inserted,
            gone,
            fresh,
        })),
        ArrivalTurn::Need(b, next) => Ok(PlanTurn::Need(b, Planner::Comes(p, next))),
    }
}

// Goes on with a point that goes.
fn go_on(alloc: Global, hold: &Hold, p: Point) -> Result<PlanTurn, AllocError>
    requires { ShowsPlanner hold.now (IsGoing p) }
    ensures { IfOk result (PlanAnswers hold.now (IsGoing p)) }
{
    let mut refill = Refill::start(alloc, p)?;
    match refill.advance(alloc, hold)? {
        RefillTurn::Done(Fresh { gone, fresh }) => Ok(PlanTurn::Done(Plan {
            reply: Reply::Removed,
            gone,
            fresh,
        })),
        RefillTurn::Flat => Ok(PlanTurn::Done(no_change(alloc, Reply::Flat))),
        RefillTurn::Need(b) => Ok(PlanTurn::Need(b, Planner::Goes(p))),
    }
}

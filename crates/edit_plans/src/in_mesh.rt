//! What an edit changes in a mesh, all of whose buckets are in hand.

ghost use Rattle.std.specs.Prelude.{◌≡◌, IfOk};
ghost use Rattle.edit_history.specs.declared.history.Edit.TheVariants.{Move};
ghost use Rattle.edit_history.specs.Histories.{replay};
ghost use Rattle.edit_plans.specs.Plans.{IsLandedFor, IsPlanFor};

use crate::leaving::{moved_by, refill_at};
use crate::plan::{Landed, Look, Plan, PlanTurn, Planner};
use cell_store::Mesh;
use edit_history::Edit;
use std::alloc::{AllocError, Global};

// What a move to a free place changes in a mesh.
fn leave_in(alloc: Global, mesh: &mut Mesh, landed: Landed) -> Result<Plan, AllocError>
    requires { IsLandedFor (replay mesh.old.history) landed }
    ensures same { mesh.new ≡ mesh.old }
    ensures plan { IfOk result (IsPlanFor (replay mesh.old.history) (Move landed.from landed.to)) }
{
    let (from, to) = (landed.from, landed.to);
    let found = mesh.with_point(alloc, &landed.came.gone, &landed.came.fresh, to, |hold| {
        refill_at(alloc, hold, from)
    })?;
    match moved_by(alloc, landed, found?)? {
        PlanTurn::Done(plan) => Ok(plan),
        PlanTurn::Need(_, _) => unreachable!(),
    }
}

/// What an edit changes in a mesh, which is then as before.
///
/// # Errors
/// Want of memory.
pub fn plan_of(alloc: Global, mesh: &mut Mesh, edit: Edit) -> Result<Plan, AllocError>
    ensures same { mesh.new ≡ mesh.old }
    ensures plan { IfOk result (IsPlanFor (replay mesh.old.history) edit) }
{
    match Planner::begin(edit).look(alloc, mesh.hold())? {
        Look::Turn(turn) => match turn {
            PlanTurn::Done(plan) => Ok(plan),
            PlanTurn::Need(_, _) => unreachable!(),
        },
        Look::Beside(landed) => leave_in(alloc, mesh, landed),
    }
}

//! The claims of a try.

ghost use Rattle.std.specs.Prelude.{◌≡◌, ◌<◌, ◌++◌, ◌∷◌, [], None, length, OnOk, IfOk, IfErr};
ghost use Rattle.cell_store.specs.Buckets.{bucket_at};
ghost use Rattle.cell_store.specs.Meshes.{StandsForSome};
ghost use Rattle.claim_table.specs.Faces.{buckets_of};
ghost use Rattle.claim_table.specs.Hands.{AreHands, HasClaimed, HasClaimedMore};
ghost use Rattle.grid_claims.specs.Claiming.{HasStopped, IsReadyPlan, HasRoomFor};

use crate::refused::Refused;
use claim_table::{Board, Hands, take_in};
use edit_history::Edit;
use edit_plans::{Plan, PlanTurn, Planner};
use std::alloc::Global;

// Claims one more bucket.
pub(crate) fn ask(board: &Board, hands: &mut Hands, b: u32) -> Result<(), Refused>
    requires hands { AreHands board.now.shared.table_id (buckets_of board.now.shared.key) hands.old }
    requires below { b < length hands.old.hold.places }
    requires absent { bucket_at hands.old.hold.places b ≡ None }
    ensures hands { AreHands board.now.shared.table_id (buckets_of board.now.shared.key) hands.new }
    ensures order { OnOk result (hands.new.order.items ≡ hands.old.order.items ++ b ∷ []) }
    ensures more { OnOk result
        (HasClaimedMore board.now.shared.table_id (buckets_of board.now.shared.key) hands.old hands.new) }
    ensures stands { OnOk result (StandsForSome hands.new.hold) }
    ensures stopped { IfErr result (λ why. HasStopped hands.old hands.new why) }
{
    match take_in(
        board,
        &mut hands.place,
        &mut hands.hold,
        &mut hands.order,
        hands.first,
        b,
    ) {
        Ok(()) => Ok(()),
        Err(word) => Err(Refused::Busy { bucket: b, word }),
    }
}

// What an edit changes. Every bucket that its planner needs is claimed.
fn plan_for(board: &Board, hands: &mut Hands, alloc: Global, edit: Edit) -> Result<Plan, Refused>
    requires hands { AreHands board.now.shared.table_id (buckets_of board.now.shared.key) hands.old }
    requires none { hands.old.order.items ≡ [] }
    ensures hands { AreHands board.now.shared.table_id (buckets_of board.now.shared.key) hands.new }
    ensures more { OnOk result
        (HasClaimedMore board.now.shared.table_id (buckets_of board.now.shared.key) hands.old hands.new) }
    ensures plan { IfOk result (λ plan. IsReadyPlan hands.new.place.me.0 hands.new.hold edit plan) }
    ensures stopped { IfErr result (λ why. HasStopped hands.old hands.new why) }
{
    let mut planner = Planner::begin(edit);
    loop {
        match planner.advance(alloc, &mut hands.hold)? {
            PlanTurn::Done(plan) => return Ok(plan),
            PlanTurn::Need(b, next) => {
                ask(board, hands, b)?;
                planner = next;
            }
        }
    }
}

// What an edit changes, with every bucket in hand that it needs, and room for the change.
pub(crate) fn prepare(
    board: &Board,
    hands: &mut Hands,
    alloc: Global,
    edit: Edit,
) -> Result<Plan, Refused>
    requires hands { AreHands board.now.shared.table_id (buckets_of board.now.shared.key) hands.old }
    requires none { hands.old.order.items ≡ [] }
    ensures hands { AreHands board.now.shared.table_id (buckets_of board.now.shared.key) hands.new }
    ensures claimed { OnOk result (HasClaimed hands.old hands.new []) }
    ensures plan { IfOk result (λ plan. IsReadyPlan hands.new.place.me.0 hands.new.hold edit plan) }
    ensures room { IfOk result (λ plan. HasRoomFor hands.new.hold edit plan) }
    ensures stopped { IfErr result (λ why. HasStopped hands.old hands.new why) }
{
    let plan = plan_for(board, hands, alloc, edit)?;
    hands
        .hold
        .reserve_found(alloc, &plan.gone, &plan.fresh, &edit)?;
    Ok(plan)
}

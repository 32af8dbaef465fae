//! Snapshots.

ghost use Rattle.std.specs.Prelude.{◌≡◌, [], OnOk, IfOk, IfErr};
ghost use Rattle.cell_store.specs.Meshes.{AllInHand, StandsForSome};
ghost use Rattle.claim_table.specs.Faces.{buckets_of};
ghost use Rattle.claim_table.specs.Hands.{AreHands, HasClaimed};
ghost use Rattle.grid_claims.specs.Claiming.{HasStopped};
ghost use Rattle.claim_table.specs.Showing.{HasClaimedAll, AreListsOf};

use crate::claiming::ask;
use crate::refused::Refused;
use cell_store::Hold;
use claim_table::{Board, Hands};
use edit_history::Entry;
use point_order::Cell;
use std::alloc::{AllocError, Global};

/// The history so far, and its complex.
#[derive(Debug, Drop)]
pub struct Snapshot {
    /// The entries, in order.
    pub history: Vec<Entry>,
    /// The cells of the complex of the points that they leave, in order.
    pub complex: Vec<Cell>,
}

// Claims every bucket, in turn.
fn claim_all(board: &Board, hands: &mut Hands) -> Result<(), Refused>
    requires hands { AreHands board.now.shared.table_id (buckets_of board.now.shared.key) hands.old }
    requires none { hands.old.order.items ≡ [] }
    ensures hands { AreHands board.now.shared.table_id (buckets_of board.now.shared.key) hands.new }
    ensures all { OnOk result (HasClaimedAll hands.old hands.new) }
    ensures stopped { IfErr result (λ why. HasStopped hands.old hands.new why) }
{
    for b in 0..hands.hold.grid().count() {
        ask(board, hands, b)?;
    }
    Ok(())
}

// The history of a hold that has every bucket, and its complex.
fn lists_of(hold: &Hold, alloc: Global) -> Result<Snapshot, AllocError>
    requires all { AllInHand hold.now }
    requires stands { StandsForSome hold.now }
    ensures { IfOk result (λ s. AreListsOf hold.now s.history.items s.complex.items) }
{
    let history = hold.history(alloc)?;
    let complex = hold.complex(alloc)?;
    Ok(Snapshot { history, complex })
}

// The history and its complex, with every bucket in hand.
pub(crate) fn copy_all(board: &Board, hands: &mut Hands, alloc: Global) -> Result<Snapshot, Refused>
    requires hands { AreHands board.now.shared.table_id (buckets_of board.now.shared.key) hands.old }
    requires none { hands.old.order.items ≡ [] }
    ensures hands { AreHands board.now.shared.table_id (buckets_of board.now.shared.key) hands.new }
    ensures all { OnOk result (HasClaimedAll hands.old hands.new) }
    ensures lists { IfOk result (λ s. AreListsOf hands.new.hold s.history.items s.complex.items) }
    ensures stopped { IfErr result (λ why. HasStopped hands.old hands.new why) }
{
    claim_all(board, hands)?;
    Ok(lists_of(&hands.hold, alloc)?)
}

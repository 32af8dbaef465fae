//! What a pass has in its hands: its seat's slots, its hold, and the order of its claims.

ghost use Rattle.std.specs.Prelude.{◌≡◌, ℕ, ◌+◌, ◌<◌, ◌++◌, ◌∷◌, [], None, List, length, OnOk, OnErr, IfErr};
ghost use Rattle.std.specs.Prelude.{vec_capacity};
ghost use Rattle.edit_history.specs.declared.history.Entry.{Entry};
ghost use Rattle.cell_store.specs.Buckets.{BucketContent, bucket_at};
ghost use Rattle.claim_table.specs.Faces.{buckets_of};
ghost use Rattle.claim_table.specs.Hands.{AreHands, Carries, HasGivenBack, releases_of};
ghost use Rattle.claim_table.specs.Showing.{HasLooked};
ghost use Rattle.claim_table.specs.Plays.{claims, fails, releases, HandStands, IsLiveIn, IsOthers};

use crate::slot::Slot;
use crate::steps::{claim_at, release_at, show_at};
use crate::view::{Board, Place};
use cell_store::Hold;

/// The hands of a pass: its seat, the buckets that it holds, their numbers in the order of its claims, and its first
/// part.
#[derive(Drop)]
pub struct Hands {
    pub place: Place,
    pub hold: Hold,
    pub order: Vec<u32>,
    pub first: u32,
}

/// Claims a bucket and takes it in hand. The seat is to be a live one of the board, and the bucket not in hand.
///
/// # Errors
/// Another pass has the bucket: the word that was found. Nothing else has changed but the trail.
pub fn take_in(
    board: &Board,
    place: &mut Place,
    hold: &mut Hold,
    order: &mut Vec<u32>,
    first: u32,
    b: u32,
) -> Result<(), u64>
    requires live { IsLiveIn board.now.shared.table_id place.old.table_id place.old.me }
    requires words { (board.now.shared.table_id.words ≡ buckets_of board.now.shared.key + 1)
        × (b < buckets_of board.now.shared.key) }
    requires first { first ≡ place.old.me.0.first }
    requires carries { Carries place.old.me hold.old.places order.old.items }
    requires grid { hold.old.grid ≡ place.old.me.0.grid }
    requires below { b < length hold.old.places }
    requires absent { bucket_at hold.old.places b ≡ None }
    requires room { length order.old.items < vec_capacity order.old }
    ensures seat { (place.new.table_id ≡ place.old.table_id) × (place.new.id ≡ place.old.id) }
    ensures view { OnOk result ((c : BucketContent) × (place.new.me.0 ≡ claims place.old.me.0 b c)) }
    ensures stands { OnOk result ((h : List Entry) × HandStands place.new.me.0 h) }
    ensures order { OnOk result (order.new.items ≡ order.old.items ++ b ∷ []) }
    ensures carries { OnOk result (Carries place.new.me hold.new.places order.new.items) }
    ensures missed { IfErr result (λ word. (place.new.me ≡ (fails place.old.me.0 b word, place.old.me.1))
        × IsOthers place.old.me.0 word) }
    ensures hands { OnErr result ((hold.new ≡ hold.old) × (order.new.items ≡ order.old.items)) }
    ensures grid { hold.new.grid ≡ hold.old.grid }
    ensures capacity { vec_capacity order.new ≡ vec_capacity order.old }
{
    let found = claim_at(board, place, b, first);
    if found != 0 {
        return Err(found);
    }
    match board.shared.exchange(place, b as usize, None) {
        Some(slot) => {
            hold.put(b, slot.into_bucket());
            order.push_reserved(b);
            Ok(())
        }
        None => unreachable!(),
    }
}

// Gives the bucket back that was claimed last.
pub(crate) fn give_back(board: &Board, place: &mut Place, hold: &mut Hold, order: &mut Vec<u32>)
    requires live { IsLiveIn board.now.shared.table_id place.old.table_id place.old.me }
    requires words { length hold.old.places + 1 ≡ board.now.shared.table_id.words }
    requires carries { Carries place.old.me hold.old.places order.old.items }
    requires some { 0 < length order.old.items }
    ensures seat { (place.new.table_id ≡ place.old.table_id) × (place.new.id ≡ place.old.id) }
    ensures released { (b : ℕ) × (order.old.items ≡ order.new.items ++ b ∷ [])
        × (place.new.me.0 ≡ releases place.old.me.0 b) }
    ensures carries { Carries place.new.me hold.new.places order.new.items }
    ensures grid { (hold.new.grid ≡ hold.old.grid) × (length hold.new.places ≡ length hold.old.places) }
    ensures capacity { vec_capacity order.new ≡ vec_capacity order.old }
{
    let b = order.pop().unwrap();
    let bucket = hold.take(b);
    board
        .shared
        .exchange(place, b as usize, Some(Slot::of(bucket)));
    release_at(board, place, b);
}

// Gives all buckets back, the last one first.
fn release_all(board: &Board, place: &mut Place, hold: &mut Hold, order: &mut Vec<u32>)
    requires live { IsLiveIn board.now.shared.table_id place.old.table_id place.old.me }
    requires words { length hold.old.places + 1 ≡ board.now.shared.table_id.words }
    requires carries { Carries place.old.me hold.old.places order.old.items }
    ensures seat { (place.new.table_id ≡ place.old.table_id) × (place.new.id ≡ place.old.id) }
    ensures view { place.new.me.0
        ≡ record place.old.me.0 {
          held = hold.new.places;
          trail = place.old.me.0.trail ++ releases_of order.old.items;
        } }
    ensures carries { Carries place.new.me hold.new.places [] }
    ensures order { order.new.items ≡ [] }
    ensures grid { (hold.new.grid ≡ hold.old.grid) × (length hold.new.places ≡ length hold.old.places) }
    ensures capacity { vec_capacity order.new ≡ vec_capacity order.old }
{
    while !order.is_empty() {
        give_back(board, place, hold, order);
    }
}

/// Gives all buckets back. The hands are to be those of a live pass of the board.
pub fn let_go(board: &Board, hands: &mut Hands)
    requires hands { AreHands board.now.shared.table_id (buckets_of board.now.shared.key) hands.old }
    ensures hands { AreHands board.now.shared.table_id (buckets_of board.now.shared.key) hands.new }
    ensures none { hands.new.order.items ≡ [] }
    ensures back { HasGivenBack hands.old hands.new }
{
    release_all(board, &mut hands.place, &mut hands.hold, &mut hands.order);
}

/// Looks at the ticket with every bucket in hand, and gives them back. The hands are to be those of a live pass of the
/// board.
pub fn look_and_let_go(board: &Board, hands: &mut Hands) -> u64
    requires hands { AreHands board.now.shared.table_id (buckets_of board.now.shared.key) hands.old }
    ensures hands { AreHands board.now.shared.table_id (buckets_of board.now.shared.key) hands.new }
    ensures none { hands.new.order.items ≡ [] }
    ensures looked { HasLooked result hands.old hands.new }
{
    let found = show_at(board, &mut hands.place);
    let_go(board, hands);
    found
}

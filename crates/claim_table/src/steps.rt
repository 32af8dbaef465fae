//! Single steps of a pass, each with what it tells. The seat of each is to be a live one of the board.

ghost use Rattle.std.specs.Prelude.{◌≡◌, ◌+◌, ◌^◌, ◌<◌, ◌≤◌, ℕ, Some, [], ◌∷◌};
ghost use mathlib.Core.Option.{none};
ghost use Rattle.atomic_table.specs.Table.{step, rest};
ghost use Rattle.cell_store.specs.Buckets.{BucketContent, bucket_at};
ghost use Rattle.claim_table.specs.Faces.{buckets_of};
ghost use Rattle.claim_table.specs.Plays.{Claimed, Committed, IsReady, Looked, Shown, releases, splits, without_child};
ghost use Rattle.claim_table.specs.Plays.{IsLiveIn, child_of};
ghost use Rattle.edit_history.specs.Edits.{HasKeys};

use crate::plays::{Claim, Commit, Intent, Look, Part, Portion, Release, Seated, Show};
use crate::view::{Board, Place};
use edit_history::{Edit, Reply};
use std::marker::Brand;

/// Looks at the ticket.
pub fn look_at(board: &Board, place: &mut Place) -> u64
    requires live { IsLiveIn board.now.shared.table_id place.old.table_id place.old.me }
    requires words { 0 < board.now.shared.table_id.words }
    ensures seat { (place.new.table_id ≡ place.old.table_id) × (place.new.id ≡ place.old.id) }
    ensures looked { Looked (step board.now.shared.table_id.slots 0 0 0 none) place.old.me result place.new.me }
{
    board.shared.load::<Look>(place, 0)
}

// Looks at the ticket, with buckets in hand.
pub(crate) fn show_at(board: &Board, place: &mut Place) -> u64
    requires live { IsLiveIn board.now.shared.table_id place.old.table_id place.old.me }
    requires words { 0 < board.now.shared.table_id.words }
    ensures seat { (place.new.table_id ≡ place.old.table_id) × (place.new.id ≡ place.old.id) }
    ensures shown { Shown place.old.me result place.new.me }
{
    board.shared.load::<Show>(place, 0)
}

// Claims a bucket, and gives the word that was found.
pub(crate) fn claim_at(board: &Board, place: &mut Place, b: u32, first: u32) -> u64
    requires live { IsLiveIn board.now.shared.table_id place.old.table_id place.old.me }
    requires words { (board.now.shared.table_id.words ≡ buckets_of board.now.shared.key + 1)
        × (b < buckets_of board.now.shared.key) }
    requires absent { bucket_at place.old.me.0.held b ≡ None }
    requires first { first ≡ place.old.me.0.first }
    ensures seat { (place.new.table_id ≡ place.old.table_id) × (place.new.id ≡ place.old.id) }
    ensures claimed { Claimed
        (step board.now.shared.table_id.slots (b + 1) 0 (first + 1) none) place.old.me result place.new.me }
{
    let word = b as usize + 1;
    board
        .shared
        .compare_exchange::<Claim>(place, word, 0, first as u64 + 1)
}

// Gives parts and allowance away. The load is the split; then the new pass moves into a seat of its own.
fn part_off<J: Portion>(board: &Board, place: &mut Place, parts: u32, left: u64) -> (u64, Place)
    requires live { IsLiveIn board.now.shared.table_id place.old.table_id place.old.me }
    requires words { 0 < board.now.shared.table_id.words }
    requires portion { (J.parts ≡ parts) × (J.left ≡ left) }
    requires nothing { (b : ℕ) → bucket_at place.old.me.0.held b ≡ None }
    requires some { (0 < parts) × (parts < place.old.me.0.parts) × (left ≤ place.old.me.0.left) }
    ensures seat { (place.new.table_id ≡ place.old.table_id) × (place.new.id ≡ place.old.id)
        × (result.1.table_id ≡ place.old.table_id) }
    ensures old { place.new.me ≡ (without_child (splits place.old.me.0 parts left result.0), place.old.me.1) }
    ensures new { result.1.me ≡ (child_of (splits place.old.me.0 parts left result.0), []) }
    ensures found { (place.old.me.0.seen ≤ result.0) × (place.old.me.0.left ≤ 2 ^ 32)
        × (place.old.me.0.first + place.old.me.0.parts ≤ 64) }
{
    let found = board.shared.load::<Part<J>>(place, 0);
    let other = board.shared.split_seat::<Seated>(place);
    (found, other)
}

/// Gives parts and allowance away, to a new pass in a seat of its own; with it comes the ticket that was found. No
/// bucket is to be in hand, and a part is to be kept.
pub fn part(board: &Board, place: &mut Place, parts: u32, left: u64) -> (u64, Place)
    requires live { IsLiveIn board.now.shared.table_id place.old.table_id place.old.me }
    requires words { 0 < board.now.shared.table_id.words }
    requires nothing { (b : ℕ) → bucket_at place.old.me.0.held b ≡ None }
    requires some { (0 < parts) × (parts < place.old.me.0.parts) × (left ≤ place.old.me.0.left) }
    ensures seat { (place.new.table_id ≡ place.old.table_id) × (place.new.id ≡ place.old.id)
        × (result.1.table_id ≡ place.old.table_id) }
    ensures old { place.new.me ≡ (without_child (splits place.old.me.0 parts left result.0), place.old.me.1) }
    ensures new { result.1.me ≡ (child_of (splits place.old.me.0 parts left result.0), []) }
    ensures found { (place.old.me.0.seen ≤ result.0) × (place.old.me.0.left ≤ 2 ^ 32)
        × (place.old.me.0.first + place.old.me.0.parts ≤ 64) }
{
    part_off::<Brand>(board, place, parts, left)
}

// Commits an edit with its reply: the ticket step.
fn commit_of<J: Intent>(board: &Board, place: &mut Place, tag: u32, edit: Edit, reply: Reply) -> u64
    requires live { IsLiveIn board.now.shared.table_id place.old.table_id place.old.me }
    requires words { 0 < board.now.shared.table_id.words }
    requires intent { (J.tag ≡ tag) × (J.edit ≡ edit) × (J.reply ≡ reply) }
    requires left { 0 < place.old.me.0.left }
    requires key { HasKeys edit }
    requires ready { IsReady place.old.me.0 edit reply }
    ensures seat { (place.new.table_id ≡ place.old.table_id) × (place.new.id ≡ place.old.id) }
    ensures committed { Committed J.tag J.edit J.reply place.old.me result place.new.me }
{
    board.shared.fetch_add::<Commit<J>>(place, 0, 1)
}

/// Commits an edit with its reply: the ticket step. The pass is to have some allowance, and all in hand that the edit
/// needs.
pub fn commit_at(board: &Board, place: &mut Place, tag: u32, edit: Edit, reply: Reply) -> u64
    requires live { IsLiveIn board.now.shared.table_id place.old.table_id place.old.me }
    requires words { 0 < board.now.shared.table_id.words }
    requires left { 0 < place.old.me.0.left }
    requires key { HasKeys edit }
    requires ready { IsReady place.old.me.0 edit reply }
    ensures seat { (place.new.table_id ≡ place.old.table_id) × (place.new.id ≡ place.old.id) }
    ensures committed { Committed tag edit reply place.old.me result place.new.me }
{
    commit_of::<Brand>(board, place, tag, edit, reply)
}

// Releases a bucket, which lies in the slot that was taken last as the view has it.
pub(crate) fn release_at(board: &Board, place: &mut Place, b: u32)
    requires live { IsLiveIn board.now.shared.table_id place.old.table_id place.old.me }
    requires words { b + 1 < board.now.shared.table_id.words }
    requires slot { (u : BucketContent) × (bucket_at place.old.me.0.held b ≡ Some u)
        × (place.old.me.1 ≡ (b, Some u) ∷ rest place.old.me.1) }
    ensures seat { (place.new.table_id ≡ place.old.table_id) × (place.new.id ≡ place.old.id) }
    ensures released { place.new.me ≡ (releases place.old.me.0 b, rest place.old.me.1) }
{
    board.shared.store::<Release>(place, b as usize + 1, 0);
}

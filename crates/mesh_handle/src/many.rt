//! Many edits and many looks, one after another.

ghost use Rattle.std.specs.Prelude.{◌≡◌, ◌<◌, ◌≤◌, drop, length, take, HoldsAt, IfErr, IfOk, IfNone, IfSome, OnErr};
ghost use Rattle.std.specs.Prelude.{OnSome};
ghost use Rattle.std.specs.List.{AllZip};
ghost use Rattle.mesh_handle.specs.Handles.{LiesAt, NearestIs};
ghost use Rattle.mesh_handle.specs.Many.{IsEditStop, IsLookStop, WasMade, WereMade, told_of};

use crate::edits::{add, shift, take};
use crate::handle::MeshHandle;
use crate::looks::{Located, find, nearest_to};
use crate::refusal::Refusal;
use crate::replies::number_of;
use edit_history::Reply;
use mesh_rows::Place;
use std::alloc::Global;

/// An edit by places.
#[repr(C)]
#[derive(Clone, Copy)]
pub struct EditRow {
    /// 0: the point at `place` is added. 1: it is taken away. 2: it is moved to `to`. No other number is a kind.
    pub kind: u32,
    pub place: Place,
    /// Of kind 2 alone.
    pub to: Place,
}

/// How far a call for many came.
#[derive(Clone, Copy, Debug)]
pub struct Progress {
    /// How many were done, from the first on.
    pub done: usize,
    /// Why the next one was not; none where all were.
    pub refusal: Option<Refusal>,
}

// The number of an answer's reply.
fn told(answer: Result<Reply, Refusal>) -> Result<u8, Refusal>
    ensures { result ≡ told_of answer }
{
    match answer {
        Ok(reply) => Ok(number_of(reply)),
        Err(refusal) => Err(refusal),
    }
}

// Makes the edit of a row.
fn make(alloc: Global, handle: &mut MeshHandle, edit: &EditRow) -> Result<u8, Refusal>
    ensures made { IfOk result (λ number. WasMade handle.old.mesh edit.now handle.new.mesh number) }
    ensures refused { OnErr result (handle.new.mesh ≡ handle.old.mesh) }
    ensures stop { IfErr result (λ r. IsEditStop handle.old.mesh edit.now r) }
{
    match edit.kind {
        0 => told(add(alloc, handle, &edit.place)),
        1 => told(take(alloc, handle, &edit.place)),
        2 => told(shift(alloc, handle, &edit.place, &edit.to)),
        _ => Err(Refusal::Unknown),
    }
}

/// Makes edits one after another, as `add`, `take` and `shift` do, up to the first that is refused, and puts the number
/// of each reply into its place of the room. Those before stand; the others are not begun, and the room behind is as
/// before. The mesh is that which the edits leave.
pub fn edit_many(
    alloc: Global,
    handle: &mut MeshHandle,
    edits: &[EditRow],
    replies: &mut [u8],
) -> Progress
    requires { length edits.now ≤ length replies.old }
    ensures made { WereMade handle.old.mesh (take result.done edits.now) handle.new.mesh
        (take result.done replies.new) }
    ensures all { IfNone result.refusal (result.done ≡ length edits.now) }
    ensures some { OnSome result.refusal (result.done < length edits.now) }
    ensures stop { IfSome result.refusal (λ r. HoldsAt (λ e. IsEditStop handle.new.mesh e r) edits.now result.done) }
    ensures behind { drop result.done replies.new ≡ drop result.done replies.old }
{
    for done in 0..edits.len() {
        match make(alloc, handle, &edits[done]) {
            Ok(number) => replies[done] = number,
            Err(refusal) => {
                return Progress {
                    done,
                    refusal: Some(refusal),
                };
            }
        }
    }
    Progress {
        done: edits.len(),
        refusal: None,
    }
}

/// Where places lie, one after another, as `find` tells it, up to the first that is refused; the room behind is as
/// before. It takes no memory.
pub fn find_many(
    alloc: Global,
    handle: &mut MeshHandle,
    places: &[Place],
    located: &mut [Located],
) -> Progress
    requires { length places.now ≤ length located.old }
    ensures found { AllZip (LiesAt handle.old.mesh) (take result.done places.now) (take result.done located.new) }
    ensures all { IfNone result.refusal (result.done ≡ length places.now) }
    ensures some { OnSome result.refusal (result.done < length places.now) }
    ensures stop { IfSome result.refusal (λ r. HoldsAt (λ p. IsLookStop handle.old.mesh p r) places.now result.done) }
    ensures behind { drop result.done located.new ≡ drop result.done located.old }
    ensures same { handle.new.mesh ≡ handle.old.mesh }
{
    for done in 0..places.len() {
        match find(alloc, handle, &places[done]) {
            Ok(row) => located[done] = row,
            Err(refusal) => {
                return Progress {
                    done,
                    refusal: Some(refusal),
                };
            }
        }
    }
    Progress {
        done: places.len(),
        refusal: None,
    }
}

/// Where the nearest points to places lie, one after another, as `nearest_to` tells it, up to the first that is
/// refused; the room behind is as before. It takes no memory.
pub fn nearest_to_many(
    alloc: Global,
    handle: &mut MeshHandle,
    places: &[Place],
    nearest: &mut [Place],
) -> Progress
    requires { length places.now ≤ length nearest.old }
    ensures found { AllZip (NearestIs handle.old.mesh) (take result.done places.now) (take result.done nearest.new) }
    ensures all { IfNone result.refusal (result.done ≡ length places.now) }
    ensures some { OnSome result.refusal (result.done < length places.now) }
    ensures stop { IfSome result.refusal (λ r. HoldsAt (λ p. IsLookStop handle.old.mesh p r) places.now result.done) }
    ensures behind { drop result.done nearest.new ≡ drop result.done nearest.old }
    ensures same { handle.new.mesh ≡ handle.old.mesh }
{
    for done in 0..places.len() {
        match nearest_to(alloc, handle, &places[done]) {
            Ok(near) => nearest[done] = near,
            Err(refusal) => {
                return Progress {
                    done,
                    refusal: Some(refusal),
                };
            }
        }
    }
    Progress {
        done: places.len(),
        refusal: None,
    }
}

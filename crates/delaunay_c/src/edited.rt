//! A mesh that the caller holds, and its edits one by one.

ghost use Rattle.std.specs.Prelude.{◌≡◌, ◌<◌, ◌≤◌, ◌⊎◌, ◌∷◌, [], None};
ghost use Rattle.mesh_rows.specs.Meshes.{AreFlat, AreMany, HasOutside};
ghost use Rattle.mesh_handle.specs.Handles.{HoldsPoints, IsFull, WasAdded, WasMoved, WasTaken};
ghost use Rattle.mesh_handle.specs.Replies.{TellsReply};

use crate::codes::status_of;
use mesh_handle::{MeshHandle, add, close, number_of, open, shift, take};
use mesh_rows::{Place, Stop};
use std::alloc::Global;

/// Puts the mesh of the points at the given places, in any order, of which some may be equal, into the handle. A mesh
/// that was there is freed.
///
/// Answers 0 where this is done; else 1: want of memory, 2: a coordinate is not 0 to 16383, which is told first, 3: no
/// four of the points are independent, 6: 32 bits do not number the points. Then the handle is as before.
#[unsafe(no_mangle)]
pub extern "C" fn delaunay_c_open(alloc: Global, handle: &mut MeshHandle, given: &[Place]) -> u8
    ensures done { result ≡ 0 → HoldsPoints given.now handle.new.mesh }
    ensures refused { 0 < result → handle.new.mesh ≡ handle.old.mesh }
    ensures outside { result ≡ 2 → HasOutside given.now }
    ensures first { HasOutside given.now → result ≡ 2 }
    ensures flat { result ≡ 3 → AreFlat given.now }
    ensures many { result ≡ 6 → AreMany given.now }
    ensures statuses { (result ≤ 3) ⊎ (result ≡ 6) }
{
    match open(alloc, handle, given) {
        Ok(()) => 0,
        Err(Stop::Memory) => 1,
        Err(Stop::Outside) => 2,
        Err(Stop::Flat) => 3,
        Err(Stop::Full) => 6,
    }
}

/// Frees the mesh of the handle, if there is one, and leaves the handle with none.
#[unsafe(no_mangle)]
pub extern "C" fn delaunay_c_close(alloc: Global, handle: &mut MeshHandle)
    ensures { handle.new.mesh ≡ None }
{
    close(alloc, handle);
}

/// Adds the point at a place to the mesh of the handle. The reply is 0: inserted, or 1: duplicate.
///
/// Answers 0 where this is done; else 1: want of memory, 2: a coordinate is not 0 to 16383, which is told first, 5: the
/// handle has no mesh, 6: its history has 2^32 entries, those of the points that it was opened with among them. Then
/// the mesh and the reply are as before.
#[unsafe(no_mangle)]
pub extern "C" fn delaunay_c_add(
    alloc: Global,
    handle: &mut MeshHandle,
    place: &Place,
    reply: &mut u8,
) -> u8
    ensures done { result ≡ 0 → TellsReply reply.new (WasAdded handle.old.mesh place.now handle.new.mesh) }
    ensures refused { 0 < result → handle.new.mesh ≡ handle.old.mesh }
    ensures untold { 0 < result → reply.new ≡ reply.old }
    ensures outside { result ≡ 2 → HasOutside (place.now ∷ []) }
    ensures first { HasOutside (place.now ∷ []) → result ≡ 2 }
    ensures empty { result ≡ 5 → handle.old.mesh ≡ None }
    ensures full { result ≡ 6 → IsFull handle.old.mesh }
    ensures statuses { (result ≤ 2) ⊎ (result ≡ 5) ⊎ (result ≡ 6) }
{
    match add(alloc, handle, place) {
        Ok(told) => {
            *reply = number_of(told);
            0
        }
        Err(refusal) => status_of(refusal),
    }
}

/// Takes the point at a place away from the mesh of the handle. The reply is 2: removed, 3: missing, or 4: flat, where
/// the rest would lie in one plane.
///
/// Answers as `delaunay_c_add` does.
#[unsafe(no_mangle)]
pub extern "C" fn delaunay_c_take(
    alloc: Global,
    handle: &mut MeshHandle,
    place: &Place,
    reply: &mut u8,
) -> u8
    ensures done { result ≡ 0 → TellsReply reply.new (WasTaken handle.old.mesh place.now handle.new.mesh) }
    ensures refused { 0 < result → handle.new.mesh ≡ handle.old.mesh }
    ensures untold { 0 < result → reply.new ≡ reply.old }
    ensures outside { result ≡ 2 → HasOutside (place.now ∷ []) }
    ensures first { HasOutside (place.now ∷ []) → result ≡ 2 }
    ensures empty { result ≡ 5 → handle.old.mesh ≡ None }
    ensures full { result ≡ 6 → IsFull handle.old.mesh }
    ensures statuses { (result ≤ 2) ⊎ (result ≡ 5) ⊎ (result ≡ 6) }
{
    match take(alloc, handle, place) {
        Ok(told) => {
            *reply = number_of(told);
            0
        }
        Err(refusal) => status_of(refusal),
    }
}

/// Moves the point at a place to another place. The reply is 5: moved, 3: missing, where no point stands there, 6:
/// occupied, where one stands at the new place, or 4: flat, where what the move leaves would lie in one plane.
///
/// Answers as `delaunay_c_add` does.
#[unsafe(no_mangle)]
pub extern "C" fn delaunay_c_move(
    alloc: Global,
    handle: &mut MeshHandle,
    from: &Place,
    to: &Place,
    reply: &mut u8,
) -> u8
    ensures done { result ≡ 0 → TellsReply reply.new (WasMoved handle.old.mesh from.now to.now handle.new.mesh) }
    ensures refused { 0 < result → handle.new.mesh ≡ handle.old.mesh }
    ensures untold { 0 < result → reply.new ≡ reply.old }
    ensures outside { result ≡ 2 → HasOutside (from.now ∷ to.now ∷ []) }
    ensures first { HasOutside (from.now ∷ to.now ∷ []) → result ≡ 2 }
    ensures empty { result ≡ 5 → handle.old.mesh ≡ None }
    ensures full { result ≡ 6 → IsFull handle.old.mesh }
    ensures statuses { (result ≤ 2) ⊎ (result ≡ 5) ⊎ (result ≡ 6) }
{
    match shift(alloc, handle, from, to) {
        Ok(told) => {
            *reply = number_of(told);
            0
        }
        Err(refusal) => status_of(refusal),
    }
}

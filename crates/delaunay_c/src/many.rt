//! Many edits of the mesh of a handle and many looks at it, one after another.

ghost use Rattle.std.specs.Prelude.{◌≡◌, ◌≢◌, ◌<◌, ◌≤◌, ◌⊎◌, None, drop, length, take, HoldsAt};
ghost use Rattle.std.specs.List.{AllZip};
ghost use Rattle.mesh_rows.specs.Rows.{LiesOutside};
ghost use Rattle.mesh_handle.specs.Handles.{IsFull, LiesAt, NearestIs};
ghost use Rattle.mesh_handle.specs.Many.{NamesOutside, WereMade};

use crate::codes::status_of_many;
use mesh_handle::{EditRow, Located, MeshHandle, edit_many, find_many, nearest_to_many};
use mesh_rows::Place;
use std::alloc::Global;

/// Makes edits of the mesh of the handle one after another, as `delaunay_c_add`, `_take` and `_move` do, each with its
/// reply, up to the first that is refused. The count tells how many were made. Those stand, the others were not begun.
///
/// Answers 0 where all were made; else the status of the one that was refused, 7: it has no kind; or 4: the room has
/// fewer rows than there are edits, and the count tells how many are wanted. Then nothing was begun. What is behind the
/// replies in the room is as before.
#[unsafe(no_mangle)]
pub extern "C" fn delaunay_c_edit_many(
    alloc: Global,
    handle: &mut MeshHandle,
    edits: &[EditRow],
    replies: &mut [u8],
    count: &mut u64,
) -> u8
    ensures made { result ≢ 4 → WereMade handle.old.mesh (take count.new edits.now) handle.new.mesh
        (take count.new replies.new) }
    ensures behind { result ≢ 4 → drop count.new replies.new ≡ drop count.new replies.old }
    ensures all { result ≡ 0 → count.new ≡ length edits.now }
    ensures some { 0 < result → result ≢ 4 → count.new < length edits.now }
    ensures outside { result ≡ 2 → HoldsAt NamesOutside edits.now count.new }
    ensures first { 0 < result → result ≢ 2 → result ≢ 4 →
        HoldsAt (λ e. ¬ (NamesOutside e)) edits.now count.new }
    ensures empty { result ≡ 5 → handle.new.mesh ≡ None }
    ensures full { result ≡ 6 → IsFull handle.new.mesh }
    ensures unknown { result ≡ 7 → HoldsAt (λ e. 2 < e.kind) edits.now count.new }
    ensures wanted { result ≡ 4 → count.new ≡ length edits.now }
    ensures lacks { result ≡ 4 → length replies.old < length edits.now }
    ensures room { result ≡ 4 → replies.new ≡ replies.old }
    ensures refused { result ≡ 4 → handle.new.mesh ≡ handle.old.mesh }
    ensures statuses { (result ≤ 2) ⊎ ((4 ≤ result) × (result ≤ 7)) }
{
    if replies.len() < edits.len() {
        *count = edits.len() as u64;
        return 4;
    }
    let progress = edit_many(alloc, handle, edits, replies);
    *count = progress.done as u64;
    status_of_many(progress.refusal)
}

/// Where places lie in the mesh of the handle, one after another, as `delaunay_c_locate` tells it, up to the first that
/// is refused. The count tells how many were located. It takes no memory.
///
/// Answers 0 where all were; else 2: the next place has a coordinate that is not 0 to 16383, which is told first, 5:
/// the handle has no mesh; or 4: the room has fewer rows than there are places, and the count tells how many are
/// wanted. What is behind the rows in the room is as before.
#[unsafe(no_mangle)]
pub extern "C" fn delaunay_c_locate_many(
    alloc: Global,
    handle: &mut MeshHandle,
    places: &[Place],
    located: &mut [Located],
    count: &mut u64,
) -> u8
    ensures done { result ≢ 4 → AllZip (LiesAt handle.old.mesh) (take count.new places.now)
        (take count.new located.new) }
    ensures behind { result ≢ 4 → drop count.new located.new ≡ drop count.new located.old }
    ensures same { handle.new.mesh ≡ handle.old.mesh }
    ensures all { result ≡ 0 → count.new ≡ length places.now }
    ensures some { 0 < result → result ≢ 4 → count.new < length places.now }
    ensures outside { result ≡ 2 → HoldsAt LiesOutside places.now count.new }
    ensures first { result ≡ 5 → HoldsAt (λ p. ¬ (LiesOutside p)) places.now count.new }
    ensures empty { result ≡ 5 → handle.old.mesh ≡ None }
    ensures wanted { result ≡ 4 → count.new ≡ length places.now }
    ensures lacks { result ≡ 4 → length located.old < length places.now }
    ensures room { result ≡ 4 → located.new ≡ located.old }
    ensures statuses { (result ≡ 0) ⊎ (result ≡ 2) ⊎ (result ≡ 4) ⊎ (result ≡ 5) }
{
    if located.len() < places.len() {
        *count = places.len() as u64;
        return 4;
    }
    let progress = find_many(alloc, handle, places, located);
    *count = progress.done as u64;
    status_of_many(progress.refusal)
}

/// The points of the mesh of the handle that are nearest to places, one after another, as `delaunay_c_nearest` tells
/// them, up to the first that is refused. The count tells how many were told. It takes no memory.
///
/// Answers as `delaunay_c_locate_many` does.
#[unsafe(no_mangle)]
pub extern "C" fn delaunay_c_nearest_many(
    alloc: Global,
    handle: &mut MeshHandle,
    places: &[Place],
    nearest: &mut [Place],
    count: &mut u64,
) -> u8
    ensures done { result ≢ 4 → AllZip (NearestIs handle.old.mesh) (take count.new places.now)
        (take count.new nearest.new) }
    ensures behind { result ≢ 4 → drop count.new nearest.new ≡ drop count.new nearest.old }
    ensures same { handle.new.mesh ≡ handle.old.mesh }
    ensures all { result ≡ 0 → count.new ≡ length places.now }
    ensures some { 0 < result → result ≢ 4 → count.new < length places.now }
    ensures outside { result ≡ 2 → HoldsAt LiesOutside places.now count.new }
    ensures first { result ≡ 5 → HoldsAt (λ p. ¬ (LiesOutside p)) places.now count.new }
    ensures empty { result ≡ 5 → handle.old.mesh ≡ None }
    ensures wanted { result ≡ 4 → count.new ≡ length places.now }
    ensures lacks { result ≡ 4 → length nearest.old < length places.now }
    ensures room { result ≡ 4 → nearest.new ≡ nearest.old }
    ensures statuses { (result ≡ 0) ⊎ (result ≡ 2) ⊎ (result ≡ 4) ⊎ (result ≡ 5) }
{
    if nearest.len() < places.len() {
        *count = places.len() as u64;
        return 4;
    }
    let progress = nearest_to_many(alloc, handle, places, nearest);
    *count = progress.done as u64;
    status_of_many(progress.refusal)
}

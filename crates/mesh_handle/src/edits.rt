//! Edits of the mesh of a handle, by places.

ghost use Rattle.std.specs.Prelude.{◌≡◌, ◌<◌, ◌^◌, ◌∷◌, [], Some, length, IfErr, IfOk, IsErrOf, OnErr, OnOk};
ghost use Rattle.edit_history.specs.declared.history.Edit.TheVariants.{Add, Take, Move};
ghost use Rattle.edit_history.specs.Edits.{reply_to};
ghost use Rattle.edit_history.specs.Histories.{replay};
ghost use Rattle.mesh_rows.specs.Meshes.{HasOutside};
ghost use Rattle.mesh_rows.specs.Rows.{LiesOutside};
ghost use Rattle.linked_mesh.specs.Applied.{edited};
ghost use Rattle.mesh_handle.specs.Handles.{IsRefusalCause, WasAdded, WasEdited, WasMoved, WasTaken, IsPointAt};
ghost use Rattle.mesh_handle.specs.declared.refusal.Refusal.TheVariants.{Outside};

use crate::handle::MeshHandle;
use crate::refusal::Refusal;
use edit_history::{Edit, Reply};
use linked_mesh::{LinkedMesh, apply, count};
use mesh_rows::{Place, point_at};
use point_order::Point;
use std::alloc::Global;

// The point at a place.
pub(crate) fn point_of(place: &Place) -> Result<Point, Refusal>
    ensures point { IfOk result (λ p. IsPointAt place.now p) }
    ensures inside { OnOk result (LiesOutside place.now → ⊥) }
    ensures refused { IfErr result (λ r. (r ≡ Outside) × LiesOutside place.now) }
{
    match point_at(place) {
        Ok(p) => Ok(p),
        Err(_) => Err(Refusal::Outside),
    }
}

// Makes an edit of a mesh.
fn edit_mesh(alloc: Global, mesh: &mut LinkedMesh, edit: Edit) -> Result<Reply, Refusal>
    ensures applied { OnOk result (mesh.new ≡ edited mesh.old 0 edit) }
    ensures reply { IfOk result (λ reply. reply ≡ reply_to (replay mesh.old) edit) }
    ensures few { OnOk result (length mesh.old < 2 ^ 32) }
    ensures refused { OnErr result (mesh.new ≡ mesh.old) }
    ensures cause { IfErr result (λ r. IsRefusalCause (Some mesh.old) [] r) }
{
    if count(mesh) >= 1 << 32 {
        return Err(Refusal::Full);
    }
    match apply(alloc, mesh, 0, edit) {
        Ok(receipt) => Ok(receipt.reply),
        Err(_) => Err(Refusal::Memory),
    }
}

// Makes an edit of the mesh of a handle.
fn edit(alloc: Global, handle: &mut MeshHandle, edit: Edit) -> Result<Reply, Refusal>
    ensures done { IfOk result (λ reply. WasEdited handle.old.mesh edit handle.new.mesh reply) }
    ensures refused { OnErr result (handle.new.mesh ≡ handle.old.mesh) }
    ensures cause { IfErr result (λ r. IsRefusalCause handle.old.mesh [] r) }
{
    match handle.take(alloc) {
        Some(mut mesh) => {
            let answered = edit_mesh(alloc, &mut mesh, edit);
            handle.put(alloc, mesh);
            answered
        }
        None => Err(Refusal::Empty),
    }
}

/// Adds the point at a place.
///
/// # Errors
/// Each `Refusal` but `Unknown`; `Outside` before all else. The mesh is then as before.
pub fn add(alloc: Global, handle: &mut MeshHandle, place: &Place) -> Result<Reply, Refusal>
    ensures done { IfOk result (λ reply. WasAdded handle.old.mesh place.now handle.new.mesh reply) }
    ensures refused { OnErr result (handle.new.mesh ≡ handle.old.mesh) }
    ensures cause { IfErr result (λ r. IsRefusalCause handle.old.mesh (place.now ∷ []) r) }
    ensures first { HasOutside (place.now ∷ []) → IsErrOf result Outside }
{
    let p = point_of(place)?;
    edit(alloc, handle, Edit::Add(p))
}

/// Takes the point at a place away.
///
/// # Errors
/// Each `Refusal` but `Unknown`; `Outside` before all else. The mesh is then as before.
pub fn take(alloc: Global, handle: &mut MeshHandle, place: &Place) -> Result<Reply, Refusal>
    ensures done { IfOk result (λ reply. WasTaken handle.old.mesh place.now handle.new.mesh reply) }
    ensures refused { OnErr result (handle.new.mesh ≡ handle.old.mesh) }
    ensures cause { IfErr result (λ r. IsRefusalCause handle.old.mesh (place.now ∷ []) r) }
    ensures first { HasOutside (place.now ∷ []) → IsErrOf result Outside }
{
    let p = point_of(place)?;
    edit(alloc, handle, Edit::Take(p))
}

/// Moves the point at a place to another place.
///
/// # Errors
/// Each `Refusal` but `Unknown`; `Outside` before all else. The mesh is then as before.
pub fn shift(
    alloc: Global,
    handle: &mut MeshHandle,
    from: &Place,
    to: &Place,
) -> Result<Reply, Refusal>
    ensures done { IfOk result (λ reply. WasMoved handle.old.mesh from.now to.now handle.new.mesh reply) }
    ensures refused { OnErr result (handle.new.mesh ≡ handle.old.mesh) }
    ensures cause { IfErr result (λ r. IsRefusalCause handle.old.mesh (from.now ∷ to.now ∷ []) r) }
    ensures first { HasOutside (from.now ∷ to.now ∷ []) → IsErrOf result Outside }
{
    let a = point_of(from)?;
    let b = point_of(to)?;
    edit(alloc, handle, Edit::Move(a, b))
}

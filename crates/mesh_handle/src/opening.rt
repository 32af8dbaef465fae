//! The mesh of places, in a handle, and its end.

ghost use Rattle.std.specs.Prelude.{◌≡◌, IfErr, IfOk, IsErrOf, None, OnErr, OnOk};
ghost use Rattle.edit_history.specs.Histories.{replay};
ghost use Rattle.mesh_rows.specs.Meshes.{HasOutside, IsStopCause, IsSetOf};
ghost use Rattle.mesh_rows.specs.declared.stop.Stop.TheVariants.{Outside};
ghost use Rattle.mesh_handle.specs.Handles.{HoldsPoints};

use crate::handle::{MeshHandle, free};
use edit_history::laws::one_thread_is_legal;
use linked_mesh::{LinkedMesh, begin_cloud, find_four};
use mesh_rows::{Place, Stop, set_of};
use std::alloc::Global;

// The mesh of the points at some places.
fn mesh_at(alloc: Global, given: &[Place]) -> Result<LinkedMesh, Stop>
    ensures points { IfOk result (λ mesh. IsSetOf given.now (replay mesh)) }
    ensures refused { IfErr result (λ stop. IsStopCause given.now stop) }
    ensures first { HasOutside given.now → IsErrOf result Outside }
{
    one_thread_is_legal();
    let points = set_of(alloc, given)?;
    let Ok(four) = find_four(&points) else {
        return Err(Stop::Flat);
    };
    if points.len() > u32::MAX as usize {
        return Err(Stop::Full);
    }
    let mesh = begin_cloud(alloc, &points, four)?;
    Ok(mesh)
}

/// Puts the mesh of the points at some places into a handle. A mesh that was there is freed.
///
/// # Errors
/// Each `Stop`. The handle is then as before.
pub fn open(alloc: Global, handle: &mut MeshHandle, given: &[Place]) -> Result<(), Stop>
    ensures done { OnOk result (HoldsPoints given.now handle.new.mesh) }
    ensures refused { OnErr result (handle.new.mesh ≡ handle.old.mesh) }
    ensures cause { IfErr result (λ stop. IsStopCause given.now stop) }
    ensures first { HasOutside given.now → IsErrOf result Outside }
{
    let mesh = mesh_at(alloc, given)?;
    match Box::new(alloc, mesh) {
        Ok(boxed) => {
            handle.put(alloc, boxed);
            Ok(())
        }
        Err(_) => Err(Stop::Memory),
    }
}

/// Frees the mesh of a handle, if there is one, and leaves the handle with none.
pub fn close(alloc: Global, handle: &mut MeshHandle)
    ensures { handle.new.mesh ≡ None }
{
    drop(handle.take(alloc));
}

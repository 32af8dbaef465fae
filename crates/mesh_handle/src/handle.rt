//! What a caller holds.

ghost use Rattle.std.specs.Prelude.{◌≡◌, None, Option, Some, MatchOption};
ghost use Rattle.std.specs.Coded.{coded_option};
ghost use Rattle.mesh_handle.specs.Held.{MeshView, mesh_row};

use crate::loose::Loose;
use linked_mesh::LinkedMesh;
use std::alloc::Global;
use std::marker::Model;
use std::mem::replace;
use std::ptr::null_mut;

/// A pointer that is null, or that of a mesh on the heap, which it owns. Contracts see the mesh, if there is one.
///
/// It is not dropped: `close` frees its mesh.
#[repr(C)]
pub struct MeshHandle {
    at: *mut u8,
    pub ghost mesh: { Option MeshView } by { coded_option mesh_row.coded },
}

impl Model for MeshHandle {
    ghost use Rattle.mesh_handle.specs.Held.{keeps};

    ghost also_owns = { λ h. keeps h.at h.mesh };
}

// What it owns, a block of the heap with a mesh, may go from one thread to another: `proofs` shows it.
unsafe impl Send for MeshHandle {}

impl MeshHandle {
    /// The handle with no mesh.
    pub fn empty() -> MeshHandle
        ensures { result.mesh ≡ None }
    {
        MeshHandle { at: null_mut() }
    }

    // That of a box.
    fn of_loose(loose: Loose<LinkedMesh, Global>) -> MeshHandle
        ensures { result.mesh ≡ Some loose.value }
    {
        let Loose { at, alloc: _ } = loose;
        MeshHandle { at: at as *mut u8 }
    }

    // The box, if there is one.
    fn into_loose(self, alloc: Global) -> Option<Loose<LinkedMesh, Global>>
        ensures { MatchOption result (self.mesh ≡ None) (λ l. self.mesh ≡ Some l.value) }
    {
        let MeshHandle { at } = self;
        if at.is_null() {
            None
        } else {
            Some(Loose {
                at: at as *mut LinkedMesh,
                alloc,
            })
        }
    }

    /// Takes the mesh out, if there is one.
    pub(crate) fn take(&mut self, alloc: Global) -> Option<Box<LinkedMesh>>
        ensures left { self.new.mesh ≡ None }
        ensures taken { MatchOption result (self.old.mesh ≡ None) (λ b. self.old.mesh ≡ Some b.value) }
    {
        let before = replace(self, MeshHandle::empty());
        match before.into_loose(alloc) {
            Some(loose) => Some(loose.into_box()),
            None => None,
        }
    }

    /// Puts a mesh in. One that was there is freed.
    pub(crate) fn put(&mut self, alloc: Global, mesh: Box<LinkedMesh>)
        ensures { self.new.mesh ≡ Some mesh.value }
    {
        let before = replace(self, MeshHandle::of_loose(Loose::of(mesh)));
        free(alloc, before);
    }
}

/// Lets a handle go, and frees its mesh, if there is one.
pub fn free(alloc: Global, handle: MeshHandle) {
    if let Some(loose) = handle.into_loose(alloc) {
        drop(loose.into_box());
    }
}

//! One worker, whose mesh no other thread edits.

ghost use Rattle.std.specs.Prelude.{◌≡◌, ◌+◌, ◌^◌, ◌<◌, ◌≤◌, IfOk, OnOk, length};
ghost use Rattle.linked_mesh.specs.Applied.{edited};
ghost use Rattle.edit_workers.specs.Alone.{with_edits};

use edit_gates::{Gate, Moment};
use edit_history::{Edit, Receipt};
use linked_mesh::{LinkedMesh, apply};
use std::alloc::{AllocError, Global};

// The number by which the gate knows the worker.
const WORKER: u32 = 0;

// Tells the gate of the moments of an edit behind its start. Of one that is refused it is told the end alone.
fn tell<G: Gate>(gate: &G, is_made: bool) {
    if is_made {
        gate.pass(WORKER, Moment::Ready);
        gate.pass(WORKER, Moment::Committed);
    }
    gate.pass(WORKER, Moment::Done);
}

// Makes an edit of a mesh, and tells the gate.
fn make<G: Gate>(
    alloc: Global,
    mesh: &mut LinkedMesh,
    tag: u32,
    edit: Edit,
    gate: &G,
) -> Result<Receipt, AllocError>
    requires { length mesh.old < 2 ^ 32 }
    ensures { OnOk result (mesh.new ≡ edited mesh.old tag edit) }
{
    gate.pass(WORKER, Moment::Start);
    let made = apply(alloc, mesh, tag, edit);
    tell(gate, made.is_ok());
    made
}

/// Makes edits of a mesh that no other thread edits, one after another in their order, with tags from `first` on. The
/// gate is told of each as of an edit by pass 0, though nothing is claimed.
///
/// There are to be at most 2^32 entries with all that come, and the tags are to be below 2^32 - 1.
///
/// # Errors
/// Want of memory. The mesh is then dropped.
pub fn run_in_order<G: Gate>(
    alloc: Global,
    mesh: LinkedMesh,
    first: u32,
    edits: &[Edit],
    gate: &G,
) -> Result<LinkedMesh, AllocError>
    requires room { length mesh + length edits.now ≤ 2 ^ 32 }
    requires tags { first + length edits.now < 2 ^ 32 }
    ensures { IfOk result (λ m. m ≡ with_edits mesh first edits.now) }
{
    let mut mesh = mesh;
    let mut tag = first;
    for edit in edits {
        make(alloc, &mut mesh, tag, *edit, gate)?;
        tag += 1;
    }
    Ok(mesh)
}

//! The text of the nearest points of a mesh to queries.

ghost use Rattle.std.specs.Prelude.{IfOk};
ghost use Rattle.edit_history.specs.Histories.{replay};
ghost use Rattle.command_ends.specs.Queried.{IsQueried};

use byte_ends::Failed;
use linked_mesh::{LinkedMesh, nearest_to_each, points};
use near_texts::put_near;
use point_order::Point;
use std::alloc::{AllocError, Global};
use text_sheets::WholeText;

/// The text of the nearest points of a mesh to queries.
///
/// # Errors
///
/// Want of memory.
pub fn near_text(alloc: Global, mesh: &LinkedMesh, queries: &[Point]) -> Result<Vec<u8>, AllocError>
    ensures { IfOk result (λ text. IsQueried (replay mesh.now) queries.now text.items) }
{
    let points = points(alloc, mesh)?;
    let nears = nearest_to_each(alloc, mesh, queries)?;
    let mut text = WholeText::new(alloc);
    match put_near(&mut text, &points, &nears) {
        Ok(()) => Ok(text.into_bytes()),
        Err(Failed) => Err(AllocError),
    }
}

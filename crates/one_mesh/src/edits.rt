//! Edits of a mesh, one by one.

ghost use Rattle.std.specs.Prelude.{◌≡◌, ◌<◌, ◌^◌, length, IfOk, OnOk, OnErr};
ghost use Rattle.edit_history.specs.Edits.{reply_to};
ghost use Rattle.edit_history.specs.Histories.{replay};
ghost use Rattle.opening_entries.specs.Opening.{opening_history, AreFourIndependent};
ghost use Rattle.one_mesh.specs.Applied.{edited};

use bucket_grid::Grid;
use cell_store::Mesh;
use edit_history::{Edit, Receipt};
use edit_plans::plan_of;
use insertion::open_mesh;
use point_order::Point;
use std::alloc::{AllocError, Global};

/// The mesh of four independent points, each with a tag. Its history has them as entries
/// 0 to 3 by 0, in this order, all inserted.
///
/// # Errors
/// Want of memory.
pub fn begin(alloc: Global, grid: Grid, four: [(u32, Point); 4]) -> Result<Mesh, AllocError>
    requires { AreFourIndependent four }
    ensures { IfOk result (λ mesh. mesh ≡ record { grid = grid; history = opening_history four }) }
{
    open_mesh(alloc, grid, four)
}

/// Makes an edit of a mesh, as the next entry by 0, and answers its number and its reply: an add is a duplicate where
/// its point is there, a take is missing where it is not, and flat where the rest would lie in one plane. A move is
/// missing where its point is not there, else occupied where its new place is taken, else flat where what it leaves
/// would lie in one plane.
///
/// The mesh is to have less than 2^32 entries.
///
/// # Errors
/// Want of memory. The mesh is then as before.
pub fn apply(alloc: Global, mesh: &mut Mesh, tag: u32, edit: Edit) -> Result<Receipt, AllocError>
    requires { length mesh.old.history < 2 ^ 32 }
    ensures applied { OnOk result (mesh.new ≡ edited mesh.old tag edit) }
    ensures number { IfOk result (λ r. r.number ≡ length mesh.old.history) }
    ensures reply { IfOk result (λ r. r.reply ≡ reply_to (replay mesh.old.history) edit) }
    ensures refused { OnErr result (mesh.new ≡ mesh.old) }
{
    let number = mesh.count();
    let again = edit;
    let plan = plan_of(alloc, mesh, again)?;
    let reply = plan.reply;
    let receipt = Receipt { number, reply };
    let entry = receipt.entry(0, tag, edit);
    mesh.change(alloc, &plan.gone, &plan.fresh, entry)?;
    Ok(receipt)
}

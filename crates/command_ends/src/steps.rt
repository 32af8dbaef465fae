//! The text of the least alphas of the faces of a set.

ghost use Rattle.std.specs.Prelude.{◌≡◌, true, IfOk};
ghost use Rattle.point_order.specs.Complex.{complex};
ghost use Rattle.point_order.specs.Sets.{IsAscending};
ghost use Rattle.point_order.specs.Solid.{is_solid};
ghost use Rattle.del_laws.specs.Keys.{AreKeys};
ghost use Rattle.command_ends.specs.Stepped.{IsStepped};

use alpha_steps::{put_steps, text_room, thresholds};
use byte_ends::Failed;
use face_list::faces;
use point_order::{Cell, Point};
use std::alloc::{AllocError, Global};
use std::thread::Threads;
use text_sheets::WholeText;

/// The text of the least alphas of the faces of a set, whose complex these cells are.
///
/// # Errors
///
/// Want of memory.
pub fn steps_text<R: Threads + Sync>(
    rt: &R,
    alloc: Global,
    points: &[Point],
    cells: &[Cell],
) -> Result<Vec<u8>, AllocError>
    requires ascending { IsAscending points.now }
    requires keys { AreKeys points.now }
    requires solid { is_solid points.now ≡ true }
    requires cells { cells.now ≡ complex points.now }
    ensures { IfOk result (λ text. IsStepped points.now text.items) }
{
    let faces = faces(rt, alloc, cells)?;
    let list = thresholds(rt, alloc, &faces)?;
    let mut text = WholeText::with_room(alloc, text_room(&list))?;
    match put_steps(&mut text, &list) {
        Ok(()) => Ok(text.into_bytes()),
        Err(Failed) => Err(AllocError),
    }
}

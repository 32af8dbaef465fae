//! The commands `mesh` and `shape`: from the bytes of a source to the report of their mesh.

ghost use Rattle.std.specs.Prelude.{◌≡◌, ◌≤◌, None, IfSome, IfOk, IfErr, IsOk};
ghost use Rattle.std.specs.Io.KnownBytes.{IsAtEnd};
ghost use Rattle.byte_ends.specs.Ends.{Rose};
ghost use Rattle.command_pages.specs.Files.{HasNoMesh};
ghost use Rattle.command_pages.specs.Page.{IsFitToWrite, text_of_page};
ghost use Rattle.command_ends.specs.Meshed.{IsReported};
ghost use Rattle.command_pages.specs.Run.{ReadsTo, input_limit};
ghost use Rattle.command_words.specs.Stops.{status_of_made};

use crate::mesh_of_source::mesh_of_source;
use byte_ends::Source;
use command_pages::{Form, Made, Page};
use command_words::{Asked, Making, Stop};
use edit_gates::Gate;
use std::alloc::Global;
use std::thread::Threads;

/// Reads a file from the source, and makes the report of its mesh.
///
/// # Errors
///
/// `ReadFault`, `TooLong`, `BadLine`, `Flat` and `Memory`.
#[inline(never)]
pub fn report<R: Threads + Sync, S: Source, G: Gate + Sync>(
    rt: &R,
    alloc: Global,
    making: Making,
    asked: Asked,
    src: &mut S,
    gate: &G,
) -> Result<Made, Stop>
    ensures made { IfOk result (λ made.
        IfSome (S.left src.old) (IsReported making.workers asked.shape asked.order made.kept.items
        (text_of_page made.page))) }
    ensures plain_end { IfOk result (λ made. made.after ≡ None) }
    ensures sound { IfOk result IsFitToWrite }
    ensures stop { IfErr result (HasNoMesh (S.left src.old) (Rose (S.faults src.old) (S.faults src.new))) }
    ensures reads { ReadsTo input_limit (S.left src.old) (S.left src.new) (status_of_made result) }
    ensures to_its_end { IsOk result → IsAtEnd (S.left src.new) }
    ensures later { S.faults src.old ≤ S.faults src.new }
{
    let (kept, parts) = mesh_of_source(rt, alloc, making, asked, src, gate)?;
    let page = Page::Report(Form::Whole, parts);
    let after = None;
    Ok(Made { kept, page, after })
}

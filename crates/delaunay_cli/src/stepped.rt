//! The command `steps`: from the bytes of a source to the least alphas of the faces of their mesh.

ghost use Rattle.std.specs.Prelude.{◌≡◌, ◌≤◌, None, IfSome, IfOk, IfErr, IsOk};
ghost use Rattle.std.specs.Io.KnownBytes.{IsAtEnd};
ghost use Rattle.byte_ends.specs.Ends.{Rose};
ghost use Rattle.command_pages.specs.Files.{HasNoMesh};
ghost use Rattle.command_pages.specs.Page.{IsFitToWrite, text_of_page};
ghost use Rattle.command_pages.specs.Run.{ReadsTo, input_limit};
ghost use Rattle.command_ends.specs.Meshed.{IsSteppedFile};
ghost use Rattle.command_words.specs.Stops.{status_of_made};

use crate::mesh_of_source::mesh_of_source;
use byte_ends::Source;
use command_ends::steps_text;
use command_pages::{Made, Page};
use command_words::{Asked, Making, Stop};
use edit_gates::Gate;
use std::alloc::Global;
use std::thread::Threads;

/// Reads a file from the source, and makes the text of the least alphas of the faces of its mesh.
///
/// # Errors
///
/// `ReadFault`, `TooLong`, `BadLine`, `Flat` and `Memory`.
#[inline(never)]
pub fn step<R: Threads + Sync, S: Source, G: Gate + Sync>(
    rt: &R,
    alloc: Global,
    making: Making,
    src: &mut S,
    gate: &G,
) -> Result<Made, Stop>
    ensures made { IfOk result (λ made.
        IfSome (S.left src.old) (IsSteppedFile making.workers made.kept.items (text_of_page made.page))) }
    ensures plain_end { IfOk result (λ made. made.after ≡ None) }
    ensures sound { IfOk result IsFitToWrite }
    ensures stop { IfErr result (HasNoMesh (S.left src.old) (Rose (S.faults src.old) (S.faults src.new))) }
    ensures reads { ReadsTo input_limit (S.left src.old) (S.left src.new) (status_of_made result) }
    ensures to_its_end { IsOk result → IsAtEnd (S.left src.new) }
    ensures later { S.faults src.old ≤ S.faults src.new }
{
    let asked = Asked {
        shape: false,
        order: false,
    };
    let (kept, parts) = mesh_of_source(rt, alloc, making, asked, src, gate)?;
    let page = Page::Text(steps_text(rt, alloc, &parts.points, &parts.cells)?);
    let after = None;
    Ok(Made { kept, page, after })
}

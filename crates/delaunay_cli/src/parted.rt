//! The command `parts`: from the bytes of a source to the solid parts of their mesh, or to the boundary of one.

ghost use Rattle.std.specs.Prelude.{◌≤◌, IfSome, IfOk, IfErr, IsOk};
ghost use Rattle.std.specs.Io.KnownBytes.{IsAtEnd};
ghost use Rattle.byte_ends.specs.Ends.{Rose};
ghost use Rattle.command_pages.specs.Files.{HasNoMesh};
ghost use Rattle.command_pages.specs.Page.{IsFitToWrite, text_of_page};
ghost use Rattle.command_ends.specs.Parted.{HasParts, IsPartedFile, TellsParts};
ghost use Rattle.command_pages.specs.Run.{ReadsTo, input_limit};
ghost use Rattle.command_words.specs.Stops.{status_of_end, status_of_made};

use crate::mesh_of_source::mesh_of_source;
use byte_ends::Source;
use command_ends::{Told, parted};
use command_pages::{Made, Page};
use command_words::{Asked, Making, Stop, Wanted};
use edit_gates::Gate;
use std::alloc::Global;
use std::thread::Threads;

/// Reads a file from the source, and tells of the solid parts of its mesh. Where there is no alpha with so few parts,
/// or no part of the index, the text is empty and the run ends with that.
///
/// # Errors
///
/// `ReadFault`, `TooLong`, `BadLine`, `Flat` and `Memory`.
#[inline(never)]
pub fn part<R: Threads + Sync, S: Source, G: Gate + Sync>(
    rt: &R,
    alloc: Global,
    making: Making,
    wanted: Wanted,
    src: &mut S,
    gate: &G,
) -> Result<Made, Stop>
    ensures made { IfOk result (λ made.
        IfSome (S.left src.old) (IsPartedFile making.workers wanted.alpha wanted.most wanted.off
        (status_of_end made.after) made.kept.items (text_of_page made.page))) }
    ensures told { IfOk result (λ made. TellsParts (status_of_end made.after) (text_of_page made.page)) }
    ensures sound { IfOk result IsFitToWrite }
    ensures stop { IfErr result (HasNoMesh (S.left src.old) (Rose (S.faults src.old) (S.faults src.new))) }
    ensures reads { ReadsTo input_limit (S.left src.old) (S.left src.new) (status_of_made result) }
    ensures to_its_end { IsOk result → IsAtEnd (S.left src.new) }
    ensures later { S.faults src.old ≤ S.faults src.new }
{
    let asked = Asked {
        shape: false,
        order: false,
    };
    let (kept, of_mesh) = mesh_of_source(rt, alloc, making, asked, src, gate)?;
    let Told { text, after } = parted(rt, alloc, &of_mesh.points, &of_mesh.cells, wanted)?;
    let page = Page::Text(text);
    Ok(Made { kept, page, after })
}

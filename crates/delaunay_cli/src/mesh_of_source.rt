//! From the bytes of a source to the mesh of their lines.

ghost use Rattle.std.specs.Prelude.{◌≡◌, ◌≤◌, IfSome, IfOk, IfErr, IsOk};
ghost use Rattle.std.specs.Io.KnownBytes.{IsAtEnd};
ghost use Rattle.byte_ends.specs.Ends.{Rose};
ghost use Rattle.edit_history.specs.Histories.{IsLegal};
ghost use Rattle.command_pages.specs.Files.{HasNoMesh};
ghost use Rattle.command_pages.specs.Page.{AreReportParts, report_of_parts};
ghost use Rattle.command_ends.specs.Meshed.{IsReportOf};
ghost use Rattle.command_pages.specs.Run.{ReadsTo, input_limit};
ghost use Rattle.command_words.specs.Stops.{status_of_made};

use crate::mesh::history_and_parts;
use byte_ends::Source;
use command_pages::{Parts, file_of_source};
use command_words::{Asked, Making, Stop};
use edit_gates::Gate;
use edit_history::Entry;
use std::alloc::Global;
use std::thread::Threads;

/// Reads a file from the source, and makes its mesh: the history and the parts of the report of what that leaves.
///
/// # Errors
///
/// `ReadFault`, `TooLong`, `BadLine`, `Flat` and `Memory`.
pub fn mesh_of_source<R: Threads + Sync, S: Source, G: Gate + Sync>(
    rt: &R,
    alloc: Global,
    making: Making,
    asked: Asked,
    src: &mut S,
    gate: &G,
) -> Result<(Vec<Entry>, Parts), Stop>
    ensures made { IfOk result (λ made. IfSome (S.left src.old) (IsReportOf making.workers asked.shape asked.order
        made.0.items (report_of_parts made.1))) }
    ensures legal { IfOk result (λ made. IsLegal made.0.items) }
    ensures ready { IfOk result (λ made. AreReportParts made.1) }
    ensures stop { IfErr result (HasNoMesh (S.left src.old) (Rose (S.faults src.old) (S.faults src.new))) }
    ensures reads { ReadsTo input_limit (S.left src.old) (S.left src.new) (status_of_made result) }
    ensures to_its_end { IsOk result → IsAtEnd (S.left src.new) }
    ensures later { S.faults src.old ≤ S.faults src.new }
{
    let file = file_of_source(alloc, src)?;
    history_and_parts(rt, alloc, &file, making, asked, gate)
}

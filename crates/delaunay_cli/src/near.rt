//! The command `near`: from the bytes of a source to the nearest points to their queries.

ghost use Rattle.std.specs.Prelude.{◌≡◌, ◌<◌, ◌≤◌, ◌+◌, ◌^◌, ℕ, None, length, IfSome, IfOk, IfErr, IsOk};
ghost use Rattle.std.specs.Io.KnownBytes.{IsAtEnd};
ghost use Rattle.byte_ends.specs.Ends.{Rose};
ghost use Rattle.edit_files.specs.Held.{content};
ghost use Rattle.command_pages.specs.Files.{HasNoMesh};
ghost use Rattle.command_pages.specs.Page.{IsFitToWrite, text_of_page};
ghost use Rattle.command_ends.specs.Meshed.{IsAnswered, IsQueriedFile, IsUnmeshed};
ghost use Rattle.command_pages.specs.Run.{ReadsTo, input_limit};
ghost use Rattle.command_words.specs.Stops.{status_of_made};

use crate::mesh_of_lines::mesh_by_one;
use byte_ends::Source;
use command_ends::near_text;
use command_pages::{Made, Page, file_of_source};
use command_words::Stop;
use edit_files::File;
use edit_gates::Gate;
use edit_history::Entry;
use linked_mesh::{find_four, history};
use std::alloc::Global;

// The history of the mesh of a file's lines, and the text of its queries. One worker makes the mesh: that takes less
// than a mesh by buckets, and the history keeps the file for every number of workers.
fn answered<G: Gate>(alloc: Global, file: &File, gate: &G) -> Result<(Vec<Entry>, Vec<u8>), Stop>
    requires { length file.now.points.items + length file.now.edits.items + 4 < 2 ^ 32 }
    ensures made { IfOk result (λ made. (workers : ℕ) → 0 < workers →
        IsAnswered workers (content file.now) made.0.items made.1.items) }
    ensures stop { IfErr result (IsUnmeshed (content file.now)) }
{
    let Ok(four) = find_four(&file.points) else {
        return Err(Stop::Flat);
    };
    let mesh = mesh_by_one(alloc, file, four, gate)?;
    let text = near_text(alloc, &mesh, &file.queries)?;
    let kept = history(alloc, &mesh)?;
    Ok((kept, text))
}

/// Reads a file from the source, and makes the text of the nearest points of its mesh to its queries.
///
/// # Errors
///
/// `ReadFault`, `TooLong`, `BadLine`, `Flat` and `Memory`.
#[inline(never)]
pub fn query<S: Source, G: Gate>(alloc: Global, src: &mut S, gate: &G) -> Result<Made, Stop>
    ensures made { IfOk result (λ made. (workers : ℕ) → 0 < workers →
        IfSome (S.left src.old) (IsQueriedFile workers made.kept.items (text_of_page made.page))) }
    ensures plain_end { IfOk result (λ made. made.after ≡ None) }
    ensures sound { IfOk result IsFitToWrite }
    ensures stop { IfErr result (HasNoMesh (S.left src.old) (Rose (S.faults src.old) (S.faults src.new))) }
    ensures reads { ReadsTo input_limit (S.left src.old) (S.left src.new) (status_of_made result) }
    ensures to_its_end { IsOk result → IsAtEnd (S.left src.new) }
    ensures later { S.faults src.old ≤ S.faults src.new }
{
    let file = file_of_source(alloc, src)?;
    let (kept, text) = answered(alloc, &file, gate)?;
    let page = Page::Text(text);
    let after = None;
    Ok(Made { kept, page, after })
}

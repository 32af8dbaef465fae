//! From the bytes of a source to the file that they are.

ghost use Rattle.std.specs.Prelude.{◌≡◌, ◌≤◌, length, Some, IfOk, IfErr, IsOk};
ghost use Rattle.std.specs.Io.KnownBytes.{IsAtEnd};
ghost use Rattle.byte_ends.specs.Ends.{Rose};
ghost use Rattle.edit_files.specs.Held.{content};
ghost use Rattle.command_pages.specs.Files.{HasNoMesh};
ghost use Rattle.command_pages.specs.Reading.{IsFileOf};
ghost use Rattle.command_pages.specs.Run.{ReadsTo, input_limit};
ghost use Rattle.command_words.specs.Stops.{status_of_made};

use crate::telling::fault_line;
use byte_ends::{Reached, Source, read_to_limit};
use command_words::Stop;
use edit_files::{File, ReadRefused, read_file};
use std::alloc::Global;

// One more byte than an input may have.
const TOO_MANY: usize = 16_777_217;

// Judges the bytes of a file.
fn judge(alloc: Global, bytes: &[u8]) -> Result<File, Stop>
    requires { length bytes.now ≤ input_limit }
    ensures file { IfOk result (λ file. IsFileOf (Some bytes.now) (content file)) }
    ensures stop { IfErr result (HasNoMesh (Some bytes.now) ⊥) }
{
    match read_file(alloc, bytes) {
        Ok(file) => Ok(file),
        Err(ReadRefused::Memory) => Err(Stop::Memory),
        Err(ReadRefused::Bad(fault)) => Err(Stop::BadLine(fault_line(alloc, fault)?)),
    }
}

/// Reads a file from the source.
///
/// # Errors
///
/// `ReadFault`, `TooLong`, `BadLine` and `Memory`.
pub fn file_of_source<S: Source>(alloc: Global, src: &mut S) -> Result<File, Stop>
    ensures file { IfOk result (λ file. IsFileOf (S.left src.old) (content file)) }
    ensures stop { IfErr result (HasNoMesh (S.left src.old) (Rose (S.faults src.old) (S.faults src.new))) }
    ensures reads { ReadsTo input_limit (S.left src.old) (S.left src.new) (status_of_made result) }
    ensures to_its_end { IsOk result → IsAtEnd (S.left src.new) }
    ensures later { S.faults src.old ≤ S.faults src.new }
{
    let mut bytes = Vec::new(alloc);
    match read_to_limit(src, TOO_MANY, &mut bytes)? {
        Reached::End => judge(alloc, &bytes),
        Reached::Limit => Err(Stop::TooLong),
    }
}

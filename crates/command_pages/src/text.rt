//! Bytes are written.

ghost use Rattle.std.specs.Prelude.{◌≤◌, IfErr, OnOk};
ghost use Rattle.std.specs.Io.KnownBytes.{Appends};
ghost use Rattle.byte_ends.specs.Ends.{Rose};
ghost use Rattle.command_pages.specs.Puts.{IsUnput};

use byte_ends::{Failed, Sink, write_all};
use command_words::Stop;

/// Writes bytes.
///
/// # Errors
/// `WriteFault` where the output failed: then it has taken a front of them.
pub fn put_text<O: Sink>(text: &[u8], out: &mut O) -> Result<(), Stop>
    ensures whole { OnOk result (Appends (O.holds out.old) (O.holds out.new) text.now) }
    ensures stop { IfErr result (IsUnput (Rose (O.faults out.old) (O.faults out.new)) (O.holds out.old)
        (O.holds out.new) text.now) }
    ensures later { O.faults out.old ≤ O.faults out.new }
{
    match write_all(out, text) {
        Ok(()) => Ok(()),
        Err(Failed) => Err(Stop::WriteFault),
    }
}

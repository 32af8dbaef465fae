//! Pages are written.

ghost use Rattle.std.specs.Prelude.{◌≤◌, IfErr, OnOk};
ghost use Rattle.std.specs.Io.KnownBytes.{Appends};
ghost use Rattle.byte_ends.specs.Ends.{Rose};
ghost use Rattle.command_pages.specs.Puts.{IsUnput};
ghost use Rattle.command_pages.specs.Page.{IsWritable, text_of_page};

use crate::made::Page;
use crate::shapes::put_parts;
use crate::text::put_text;
use byte_ends::Sink;
use command_words::Stop;
use std::alloc::Global;
use std::thread::Threads;

/// Writes a page. The shapes of a report are made before anything of it is written.
///
/// # Errors
/// `Memory` where there is none for the shapes: then nothing is written. `WriteFault` where the output failed: then
/// it has taken a front of the text.
pub fn put_page<R: Threads + Sync, O: Sink>(
    rt: &R,
    alloc: Global,
    page: Page,
    out: &mut O,
) -> Result<(), Stop>
    requires { IsWritable page }
    ensures whole { OnOk result (Appends (O.holds out.old) (O.holds out.new) (text_of_page page)) }
    ensures stop { IfErr result (IsUnput (Rose (O.faults out.old) (O.faults out.new)) (O.holds out.old)
        (O.holds out.new) (text_of_page page)) }
    ensures later { O.faults out.old ≤ O.faults out.new }
{
    match page {
        Page::Text(text) => put_text(&text, out),
        Page::Report(form, parts) => put_parts(rt, alloc, form, parts, out),
    }
}

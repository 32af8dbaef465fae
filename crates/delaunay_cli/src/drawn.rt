//! The command `gen`: from two numbers to the text of a drawn file, or to the parts of the summary of its mesh.

ghost use Rattle.std.specs.Prelude.{◌≡◌, None, IfOk, IfErr};
ghost use Rattle.edit_files.specs.Generator.{generated};
ghost use Rattle.command_words.specs.declared.stop.Stop.TheVariants.{Memory};
ghost use Rattle.command_ends.specs.Drawn.{IsDrawn};
ghost use Rattle.command_pages.specs.Page.{IsFitToWrite, text_of_page};

use crate::mesh::history_and_parts;
use command_pages::{Form, Made, Page};
use command_words::{Asked, Drawn, Making, Stop};
use edit_files::{file_text, generate};
use edit_gates::Gate;
use std::alloc::Global;
use std::thread::Threads;

/// Draws a file, and makes its text, or the parts of the summary of its mesh with a shape for each radius.
///
/// # Errors
///
/// `Memory` alone.
#[inline(never)]
pub fn draw<R: Threads + Sync, G: Gate + Sync>(
    rt: &R,
    alloc: Global,
    making: Making,
    drawn: Drawn,
    gate: &G,
) -> Result<Made, Stop>
    ensures made { IfOk result (λ made.
        IsDrawn drawn.text making.workers (generated drawn.count drawn.start) made.kept.items
        (text_of_page made.page)) }
    ensures plain_end { IfOk result (λ made. made.after ≡ None) }
    ensures sound { IfOk result IsFitToWrite }
    ensures stop { IfErr result (λ stop. stop ≡ Memory) }
{
    let file = generate(alloc, drawn.count, drawn.start)?;
    if drawn.text {
        let page = Page::Text(file_text(alloc, &file)?);
        let kept = Vec::new(alloc);
        let after = None;
        return Ok(Made { kept, page, after });
    }
    let asked = Asked {
        shape: true,
        order: false,
    };
    let (kept, parts) = history_and_parts(rt, alloc, &file, making, asked, gate)?;
    let page = Page::Report(Form::Summary, parts);
    let after = None;
    Ok(Made { kept, page, after })
}

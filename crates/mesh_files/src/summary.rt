//! The summary of a report: what it has, counted.

ghost use Rattle.std.specs.Prelude.{◌≡◌, map, IfOk, OnOk, OnErr};
ghost use Rattle.std.specs.List.{concat};
ghost use Rattle.std.specs.Io.KnownBytes.{Appends};
ghost use Rattle.byte_ends.specs.Ends.{HasCause};
ghost use Rattle.alpha_complex.specs.Slots.{shape_seen};
ghost use Rattle.text_sheets.specs.Sheets.{Puts};
ghost use Rattle.mesh_files.specs.Report.{parts_of, shapes_seen};
ghost use Rattle.mesh_files.specs.Summary.{replies_with as count_of_word, reply_count_line, mesh_counts, shape_line};
ghost use Rattle.mesh_files.specs.Summary.{summary_text as summary_text_of};

use crate::report::{Report, full_count, hull_count, word_of};
use alpha_complex::Shape;
use byte_ends::{Failed, Sink};
use edit_history::Reply;
use std::alloc::{AllocError, Global};
use text_sheets::{Sheet, WholeText, put_four, put_title};

const ALL_REPLIES: [Reply; 5] = [
    Reply::Inserted,
    Reply::Duplicate,
    Reply::Removed,
    Reply::Missing,
    Reply::Flat,
];

// How many of the replies have this word.
fn count_of(replies: &[Reply], word: &str) -> usize
    ensures { result ≡ count_of_word replies.now word.now }
{
    let mut count: usize = 0;
    for reply in replies {
        if word_of(*reply) == word {
            count += 1;
        }
    }
    count
}

// Puts the word of a reply, and how many of the replies have it.
fn put_reply_count<O: Sink>(sheet: &mut Sheet<O>, replies: &[Reply], reply: Reply)
    ensures { Puts O.holds O.faults sheet.old sheet.new (reply_count_line replies.now reply) }
{
    let word = word_of(reply);
    put_title(sheet, word.as_bytes(), count_of(replies, word));
}

// Puts a line for each of some kinds of reply.
fn put_reply_counts<O: Sink>(sheet: &mut Sheet<O>, replies: &[Reply], kinds: &[Reply])
    ensures { Puts O.holds O.faults sheet.old sheet.new (concat (map (reply_count_line replies.now) kinds.now)) }
{
    for kind in kinds {
        put_reply_count(sheet, replies, *kind);
    }
}

// Puts how many points, Full cells and Open cells there are.
fn put_mesh_counts<O: Sink>(sheet: &mut Sheet<O>, report: &Report)
    ensures { Puts O.holds O.faults sheet.old sheet.new (mesh_counts (parts_of report.now)) }
{
    put_title(sheet, b"points", report.points.len());
    put_title(sheet, b"cells", full_count(report.cells));
    put_title(sheet, b"hull", hull_count(report.cells));
}

// Puts a radius, and how many edges, triangles and cells its shape has.
fn put_shape_line<O: Sink>(sheet: &mut Sheet<O>, radius: u64, shape: &Shape)
    ensures { Puts O.holds O.faults sheet.old sheet.new (shape_line (radius, shape_seen shape.now)) }
{
    sheet.put(b"shape ");
    put_four(
        sheet,
        radius,
        shape.pair_count() as u64,
        shape.triple_count() as u64,
        shape.cell_count() as u64,
    );
}

// Puts a line for each radius.
fn put_shape_lines<O: Sink>(sheet: &mut Sheet<O>, shapes: &[(u64, Shape)])
    ensures { Puts O.holds O.faults sheet.old sheet.new (concat (map shape_line (shapes_seen shapes.now))) }
{
    for (radius, shape) in shapes {
        put_shape_line(sheet, *radius, shape);
    }
}

// Puts the summary of a report.
fn put_summary<O: Sink>(sheet: &mut Sheet<O>, report: &Report)
    ensures { Puts O.holds O.faults sheet.old sheet.new (summary_text_of (parts_of report.now)) }
{
    put_title(sheet, b"lines", report.replies.len());
    put_reply_counts(sheet, &report.replies, &ALL_REPLIES);
    put_mesh_counts(sheet, report);
    put_shape_lines(sheet, &report.shapes);
}

// Writes the summary of a report.
fn put_whole<O: Sink>(out: &mut O, report: &Report) -> Result<(), Failed>
    ensures { OnOk result (Appends (O.holds out.old) (O.holds out.new) (summary_text_of (parts_of report.now))) }
{
    let mut sheet = Sheet::new(out);
    put_summary(&mut sheet, report);
    sheet.close()
}

/// The summary of a report, a line for each count: its lines, the replies of each word, its points, cells and hull,
/// and for each radius the edges, triangles and cells of its shape.
///
/// # Errors
///
/// `AllocError` where there is no memory for the text.
pub fn summary_text(alloc: Global, report: &Report) -> Result<Vec<u8>, AllocError>
    ensures { IfOk result (λ text. text.items ≡ summary_text_of (parts_of report.now)) }
{
    let mut text = WholeText::new(alloc);
    match put_whole(&mut text, report) {
        Ok(()) => Ok(text.into_bytes()),
        Err(Failed) => Err(AllocError),
    }
}

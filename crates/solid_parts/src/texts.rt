//! The text of parts.

ghost use Rattle.std.specs.Prelude.{◌≡◌, codes, map, IsOk, OnOk, OnErr};
ghost use Rattle.std.specs.Io.KnownBytes.{Appends};
ghost use Rattle.byte_ends.specs.Ends.{AppendsFront, HasCause, Rose};
ghost use Rattle.text_sheets.specs.Lines.{block};
ghost use Rattle.text_sheets.specs.Sheets.{Puts};
ghost use Rattle.solid_parts.specs.Text.{size_line, sizes_text};

use crate::part::PartSize;
use byte_ends::{Failed, Sink};
use text_sheets::{Sheet, put_number, put_title};

// Puts the line of a part.
fn put_size<O: Sink>(sheet: &mut Sheet<O>, size: PartSize)
    ensures { Puts O.holds O.faults sheet.old sheet.new (size_line size) }
{
    sheet.put(b"part ");
    put_number(sheet, size.cells);
    sheet.put(b" ");
    put_number(sheet, size.triangles);
    sheet.put(b"\n");
}

// Puts the block of the parts.
fn put_sizes<O: Sink>(sheet: &mut Sheet<O>, sizes: &[PartSize])
    ensures { Puts O.holds O.faults sheet.old sheet.new (block (codes "parts") (map size_line sizes.now)) }
{
    put_title(sheet, b"parts", sizes.len());
    for size in sizes {
        put_size(sheet, *size);
    }
}

// Puts the whole text.
fn put_all<O: Sink>(sheet: &mut Sheet<O>, alpha: u64, sizes: &[PartSize])
    ensures { Puts O.holds O.faults sheet.old sheet.new (sizes_text alpha sizes.now) }
{
    sheet.put(b"mesh3-parts 1\n");
    sheet.put(b"alpha ");
    put_number(sheet, alpha);
    sheet.put(b"\n");
    put_sizes(sheet, sizes);
    sheet.put(b"end\n");
}

/// Writes the text of the parts at an alpha, by their sizes. It takes no memory.
///
/// # Errors
///
/// `Failed` where the sink failed. Then it has taken a front of the text.
pub fn put_parts<O: Sink>(out: &mut O, alpha: u64, sizes: &[PartSize]) -> Result<(), Failed>
    ensures whole { OnOk result (Appends (O.holds out.old) (O.holds out.new) (sizes_text alpha sizes.now)) }
    ensures front { AppendsFront (O.holds out.old) (O.holds out.new) (sizes_text alpha sizes.now) }
    ensures cause { HasCause (O.faults out.old) (O.faults out.new) result }
    ensures done { (Rose (O.faults out.old) (O.faults out.new) → ⊥) → IsOk result }
{
    let mut sheet = Sheet::new(out);
    put_all(&mut sheet, alpha, sizes);
    sheet.close()
}

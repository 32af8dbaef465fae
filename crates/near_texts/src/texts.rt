//! The text of the answers to queries.

ghost use Rattle.std.specs.Prelude.{◌≡◌, codes, map, IsOk, OnOk, OnErr};
ghost use Rattle.std.specs.Io.KnownBytes.{Appends};
ghost use Rattle.byte_ends.specs.Ends.{AppendsFront, HasCause, Rose};
ghost use Rattle.point_order.specs.Sets.{IsAscending};
ghost use Rattle.text_sheets.specs.Lines.{block};
ghost use Rattle.text_sheets.specs.Sheets.{Puts};
ghost use Rattle.near_texts.specs.Text.{near_line, near_text};

use byte_ends::{Failed, Sink};
use nearest_points::Near;
use point_order::Point;
use text_sheets::{Indices, Sheet, put_number, put_number_and, put_title};

// Puts the line of an answer.
fn put_near_line<O: Sink>(sheet: &mut Sheet<O>, indices: &Indices, near: Near)
    ensures { Puts O.holds O.faults sheet.old sheet.new (near_line indices.now near) }
{
    put_number_and(sheet, indices.index(near.point), b" ");
    put_number(sheet, near.square);
    sheet.put(b"\n");
}

// Puts the block of the answers.
fn put_nears<O: Sink>(sheet: &mut Sheet<O>, indices: &Indices, nears: &[Near])
    ensures { Puts O.holds O.faults sheet.old sheet.new
        (block (codes "queries") (map (near_line indices.now) nears.now)) }
{
    put_title(sheet, b"queries", nears.len());
    for near in nears {
        put_near_line(sheet, indices, *near);
    }
}

// Puts the whole text.
fn put_all<O: Sink>(sheet: &mut Sheet<O>, points: &[Point], nears: &[Near])
    requires { IsAscending points.now }
    ensures { Puts O.holds O.faults sheet.old sheet.new (near_text points.now nears.now) }
{
    sheet.put(b"mesh3-near 1\n");
    put_nears(sheet, &Indices::new(points), nears);
    sheet.put(b"end\n");
}

/// Writes the text of the answers to queries: for each the index of the nearest point in the list, and the square of
/// its distance. The list is to ascend. It takes no memory.
///
/// # Errors
///
/// `Failed` where the sink failed. Then it has taken a front of the text.
pub fn put_near<O: Sink>(out: &mut O, points: &[Point], nears: &[Near]) -> Result<(), Failed>
    requires { IsAscending points.now }
    ensures whole { OnOk result (Appends (O.holds out.old) (O.holds out.new) (near_text points.now nears.now)) }
    ensures front { AppendsFront (O.holds out.old) (O.holds out.new) (near_text points.now nears.now) }
    ensures cause { HasCause (O.faults out.old) (O.faults out.new) result }
    ensures done { (Rose (O.faults out.old) (O.faults out.new) → ⊥) → IsOk result }
{
    let mut sheet = Sheet::new(out);
    put_all(&mut sheet, points, nears);
    sheet.close()
}

//! Writing an edit file.

ghost use Rattle.std.specs.Prelude.{◌≡◌, List, ℕ, [], ◌∷◌, ◌++◌, codes, decimal, map, IfOk, OnOk};
ghost use Rattle.edit_files.specs.Held.{content};
ghost use Rattle.text_readings.specs.Readings.{text_of};
ghost use Rattle.edit_files.specs.Writing.{edit_text, file_text};
ghost use Rattle.text_readings.specs.PointLines.{line_of_point};

use crate::file::File;
use edit_history::Edit;
use itoa::Buffer;
use point_order::Point;
use std::alloc::{AllocError, Global};

// Puts a number in decimal behind the text, and a byte behind that.
fn put_number(text: &mut Vec<u8>, number: u64, end: u8) -> Result<(), AllocError>
    ensures { OnOk result (text.new.items ≡ text.old.items ++ (decimal number ++ end ∷ [])) }
{
    let mut buffer = Buffer::new();
    text.extend_from_slice(buffer.format(number).as_bytes())?;
    text.push(end)?;
    Ok(())
}

// Puts the coordinates of a point behind the text, and a byte behind them.
fn put_place(text: &mut Vec<u8>, point: Point, end: u8) -> Result<(), AllocError>
    ensures { OnOk result (text.new.items ≡ text.old.items ++ (line_of_point point ++ end ∷ [])) }
{
    put_number(text, point.x() as u64, b' ')?;
    put_number(text, point.y() as u64, b' ')?;
    put_number(text, point.z() as u64, end)
}

// Puts a point behind the text, as a point line.
fn put_point(text: &mut Vec<u8>, point: Point) -> Result<(), AllocError>
    ensures { OnOk result (text.new.items ≡ text.old.items ++ text_of (line_of_point point ∷ [])) }
{
    put_place(text, point, b'\n')
}

// Puts an edit behind the text, as an edit line.
fn put_edit(text: &mut Vec<u8>, edit: Edit) -> Result<(), AllocError>
    ensures { OnOk result (text.new.items ≡ text.old.items ++ text_of (edit_text edit ∷ [])) }
{
    match edit {
        Edit::Add(point) => {
            text.extend_from_slice(b"+ ")?;
            put_point(text, point)
        }
        Edit::Take(point) => {
            text.extend_from_slice(b"- ")?;
            put_point(text, point)
        }
        Edit::Move(from, to) => {
            text.extend_from_slice(b"= ")?;
            put_place(text, from, b' ')?;
            put_point(text, to)
        }
    }
}

fn put_points(text: &mut Vec<u8>, points: &[Point]) -> Result<(), AllocError>
    ensures { OnOk result (text.new.items ≡ text.old.items ++ text_of (map line_of_point points.now)) }
{
    for point in points {
        put_point(text, *point)?;
    }
    Ok(())
}

fn put_edits(text: &mut Vec<u8>, edits: &[Edit]) -> Result<(), AllocError>
    ensures { OnOk result (text.new.items ≡ text.old.items ++ text_of (map edit_text edits.now)) }
{
    for edit in edits {
        put_edit(text, *edit)?;
    }
    Ok(())
}

fn put_radii(text: &mut Vec<u8>, radii: &[u64]) -> Result<(), AllocError>
    ensures { OnOk result (text.new.items ≡ text.old.items ++ text_of (map decimal radii.now)) }
{
    for radius in radii {
        put_number(text, *radius, b'\n')?;
    }
    Ok(())
}

/// The text of a file: numbers with no leading zeros, and each line with its line feed.
///
/// `read_file` reads it again as this file, where the file is within what a text may hold.
///
/// # Errors
/// Where there is no memory for the text.
pub fn file_text(alloc: Global, file: &File) -> Result<Vec<u8>, AllocError>
    ensures { IfOk result (λ text. text.items ≡ file_text (content file.now)) }
{
    let row = file.version.row();
    let mut text = Vec::from_slice(alloc, row.title)?;
    text.extend_from_slice(b"\npoints\n")?;
    put_points(&mut text, &file.points)?;
    text.extend_from_slice(b"edits\n")?;
    put_edits(&mut text, &file.edits)?;
    text.extend_from_slice(b"radii\n")?;
    put_radii(&mut text, &file.radii)?;
    if row.queries {
        text.extend_from_slice(b"queries\n")?;
        put_points(&mut text, &file.queries)?;
    }
    text.extend_from_slice(b"end\n")?;
    Ok(text)
}

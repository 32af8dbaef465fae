//! OFF: points, and triangles by the indices of their points.

ghost use Rattle.std.specs.Prelude.{◌≡◌, map, IfOk, IsOk, OnOk, OnErr};
ghost use Rattle.std.specs.Io.KnownBytes.{Appends};
ghost use Rattle.std.specs.List.{concat};
ghost use Rattle.byte_ends.specs.Ends.{AppendsFront, HasCause, Rose};
ghost use Rattle.point_order.specs.Sets.{IsAscending};
ghost use Rattle.text_sheets.specs.Sheets.{Puts};
ghost use Rattle.mesh_files.specs.Off.{off_line, off_text as off_text_of};
ghost use Rattle.mesh_files.specs.Text.{point_line};

use crate::report::put_point;
use byte_ends::{Failed, Sink};
use point_order::Point;
use std::alloc::{AllocError, Global};
use text_sheets::{Indices, Sheet, WholeText, put_three};

// Puts the lines of the points.
fn put_vertices<O: Sink>(sheet: &mut Sheet<O>, points: &[Point])
    ensures { Puts O.holds O.faults sheet.old sheet.new (concat (map point_line points.now)) }
{
    for point in points {
        put_point(sheet, *point);
    }
}

// Puts the line of a triangle.
fn put_face<O: Sink>(sheet: &mut Sheet<O>, indices: &Indices, face: &[Point; 3])
    ensures { Puts O.holds O.faults sheet.old sheet.new (off_line indices.now face.now) }
{
    let [a, b, c] = *face;
    sheet.put(b"3 ");
    put_three(sheet, indices.index(a), indices.index(b), indices.index(c));
}

// Puts the lines of the triangles.
fn put_faces<O: Sink>(sheet: &mut Sheet<O>, indices: &Indices, faces: &[[Point; 3]])
    ensures { Puts O.holds O.faults sheet.old sheet.new (concat (map (off_line indices.now) faces.now)) }
{
    for face in faces {
        put_face(sheet, indices, face);
    }
}

// Puts the whole text.
fn put_all<O: Sink>(sheet: &mut Sheet<O>, points: &[Point], faces: &[[Point; 3]])
    requires { IsAscending points.now }
    ensures { Puts O.holds O.faults sheet.old sheet.new (off_text_of points.now faces.now) }
{
    sheet.put(b"OFF\n");
    put_three(sheet, points.len() as u64, faces.len() as u64, 0);
    put_vertices(sheet, points);
    put_faces(sheet, &Indices::new(points), faces);
}

/// Writes points and triangles as OFF: how many there are, each point by its coordinates, and each triangle by the
/// indices of its points, counted from 0 in the list of points, in its own turn. It takes no memory.
///
/// # Errors
///
/// `Failed` where the sink failed. Then it has taken a front of the text.
pub fn put_off<O: Sink>(out: &mut O, points: &[Point], faces: &[[Point; 3]]) -> Result<(), Failed>
    requires { IsAscending points.now }
    ensures whole { OnOk result (Appends (O.holds out.old) (O.holds out.new) (off_text_of points.now faces.now)) }
    ensures front { AppendsFront (O.holds out.old) (O.holds out.new) (off_text_of points.now faces.now) }
    ensures cause { HasCause (O.faults out.old) (O.faults out.new) result }
    ensures done { (Rose (O.faults out.old) (O.faults out.new) → ⊥) → IsOk result }
{
    let mut sheet = Sheet::new(out);
    put_all(&mut sheet, points, faces);
    sheet.close()
}

/// The text that `put_off` writes of points and triangles.
///
/// # Errors
///
/// `AllocError` where there is no memory for the text.
pub fn off_text(
    alloc: Global,
    points: &[Point],
    faces: &[[Point; 3]],
) -> Result<Vec<u8>, AllocError>
    requires { IsAscending points.now }
    ensures { IfOk result (λ text. text.items ≡ off_text_of points.now faces.now) }
{
    let mut text = WholeText::new(alloc);
    match put_off(&mut text, points, faces) {
        Ok(()) => Ok(text.into_bytes()),
        Err(Failed) => Err(AllocError),
    }
}

//! Texts of meshes, and whether their lists are the complex of their points. In a case a bar stands for a line feed,
//! and a tilde for a carriage return.

ghost use Rattle.mesh_reader.specs.Packed.{file_parts};
ghost use Rattle.mesh_reader.specs.Order.{IsInOrder};

use crate::files::put_part;
use crate::telling::{Answer, put_places, put_point};
use edit_files::ReadRefused;
use mesh_check::{Flaw, Verdict, check};
use mesh_reader::{MeshFile, MeshReader, PackedMesh, read_mesh};
use point_order::Point;
use std::alloc::{AllocError, Global};

// What is wrong, with the places of the points among all.
fn put_flaw(answer: &mut Answer, points: &[Point], flaw: &Flaw) {
    match flaw {
        Flaw::Empty => answer.put(" bad empty"),
        Flaw::FlatCell(cell) => {
            answer.put(" bad flat");
            put_places(answer, points, cell.points());
        }
        Flaw::Sides { tri, e, f } => {
            answer.put(" bad sides");
            put_places(answer, points, tri.points());
            put_places(answer, points, &[*e, *f]);
        }
        Flaw::Inside { cell, point } => {
            answer.put(" bad inside");
            put_places(answer, points, cell.points());
            put_places(answer, points, &[*point]);
        }
        Flaw::OpenFacet(facet) => {
            answer.put(" bad facet");
            put_places(answer, points, facet.points());
        }
    }
}

// What a check of the lists comes to.
fn judged(alloc: Global, mesh: &MeshFile) -> Result<Verdict, AllocError>
    requires { IsInOrder (file_parts mesh.now) }
{
    check(alloc, &mesh.points, &mesh.cells, &mesh.hull)
}

// The same, put down.
fn put_judged(alloc: Global, answer: &mut Answer, mesh: &MeshFile)
    requires { IsInOrder (file_parts mesh.now) }
{
    match judged(alloc, mesh) {
        Ok(Verdict::Good) => answer.put(" good"),
        Ok(Verdict::Bad(flaw)) => put_flaw(answer, &mesh.points, &flaw),
        Err(_) => answer.fail(),
    }
}

// The lists of a mesh, and what a check of them comes to.
fn put_mesh(alloc: Global, answer: &mut Answer, mesh: &MeshFile)
    requires { IsInOrder (file_parts mesh.now) }
{
    for reply in &mesh.replies {
        write!(answer, " {reply:?}");
    }
    answer.put("; points");
    for p in &mesh.points {
        put_point(answer, *p);
    }
    answer.put("; cells");
    for quad in &mesh.cells {
        put_places(answer, &mesh.points, quad.points());
    }
    answer.put("; hull");
    for tri in &mesh.hull {
        put_places(answer, &mesh.points, tri.points());
    }
    answer.put(";");
    put_judged(alloc, answer, mesh);
}

// The same text, read in two pieces, cut in its middle.
fn read_in_two(alloc: Global, bytes: &[u8]) -> Result<MeshFile, ReadRefused> {
    let (front, back) = bytes.split_at(bytes.len() / 2);
    let Ok(reader) = MeshReader::new(alloc).take(front) else {
        return Err(ReadRefused::Memory);
    };
    match reader.take(back) {
        Ok(reader) => unpacked(alloc, reader.finish()),
        Err(_) => Err(ReadRefused::Memory),
    }
}

// A mesh that was read in pieces, with its cells as they are.
fn unpacked(alloc: Global, read: Result<PackedMesh, ReadRefused>) -> Result<MeshFile, ReadRefused> {
    match read?.unpacked(alloc) {
        Ok(file) => Ok(file),
        Err(_) => Err(ReadRefused::Memory),
    }
}

// Whether two readings came to the same.
fn are_same(one: &Result<MeshFile, ReadRefused>, other: &Result<MeshFile, ReadRefused>) -> bool {
    match (one, other) {
        (Ok(one), Ok(other)) => {
            one.replies == other.replies
                && one.points == other.points
                && one.cells == other.cells
                && one.hull == other.hull
        }
        (Err(one), Err(other)) => one == other,
        _ => false,
    }
}

/// Answers a case of a mesh's text: its lists and the verdict on them, or the text's fault; and whether a reading in
/// two pieces comes to another.
pub(crate) fn judge(alloc: Global, answer: &mut Answer, lists: &str) -> Option<()> {
    let mut text = Answer::new(alloc);
    put_part(&mut text, lists, 0);
    let text = answer.got(text.whole())?;
    let whole = read_mesh(alloc, text.as_bytes());
    let in_two = read_in_two(alloc, text.as_bytes());
    if !are_same(&whole, &in_two) {
        answer.put(" another in two pieces: ");
    }
    match whole {
        Ok(mesh) => put_mesh(alloc, answer, &mesh),
        Err(ReadRefused::Bad(fault)) => write!(answer, "line {}: {:?}", fault.line, fault.why),
        Err(ReadRefused::Memory) => answer.fail(),
    }
    Some(())
}

//! The faces of a complex.

ghost use Rattle.std.specs.Prelude.{◌<◌, All, length};

use crate::meshes::mesh_of;
use crate::telling::{Answer, put_places};
use face_list::{Faces, faces};
use one_mesh::complex;
use point_order::{Cell, Point};
use std::alloc::Global;
use std::thread::Threads;

// A face with the cells that contain it, told by their numbers.
fn put_face(answer: &mut Answer, faces: &Faces, corners: &[Point], around: &[u32])
    requires { All (λ n. n < length faces.now.cells) around.now }
{
    put_places(answer, faces.points(), corners);
    answer.put(" in");
    for number in around {
        put_places(
            answer,
            faces.points(),
            faces.cells()[*number as usize].points(),
        );
    }
    answer.put(';');
}

// Each face with the cells that contain it, and the Full cells.
fn put_faces(answer: &mut Answer, faces: &Faces) {
    for index in 0..faces.points().len() {
        let (point, around) = faces.point(index);
        put_face(answer, faces, &[point], around);
    }
    for index in 0..faces.pairs().len() {
        let (pair, around) = faces.pair(index);
        put_face(answer, faces, pair.points(), around);
    }
    for index in 0..faces.triples().len() {
        let (tri, around) = faces.triple(index);
        put_face(answer, faces, tri.points(), around);
    }
    for cell in faces.cells() {
        if let Cell::Full(quad) = cell {
            put_places(answer, faces.points(), quad.points());
        }
    }
}

// The complex of a case's mesh.
fn cells_of(alloc: Global, answer: &mut Answer, lists: &str) -> Option<Vec<Cell>> {
    let mesh = mesh_of(alloc, answer, lists)?;
    answer.got(complex(alloc, &mesh))
}

/// Answers a case of faces.
pub(crate) fn put<R: Threads + Sync>(
    rt: &R,
    alloc: Global,
    answer: &mut Answer,
    lists: &str,
) -> Option<()> {
    let cells = cells_of(alloc, answer, lists)?;
    let faces = answer.got(faces(rt, alloc, &cells))?;
    put_faces(answer, &faces);
    Some(())
}

//! Meshes behind handles, and rows of numbers.

use crate::meshes::letter;
use crate::reading::{Word, coordinates_of, list_at};
use crate::telling::Answer;
use edit_history::{Edit, Reply};
use mesh_handle::{
    MeshHandle, Refusal, add, close, find, free, nearest_to, open, rows, shift, take,
};
use mesh_rows::{CellRow, Levels, Made, Place, Stop, TriangleRow, levels_of, place_at};
use std::alloc::Global;

// A place is written `x,y,z`, also where no point can be.
impl Word for Place {
    fn of(word: &str) -> Option<Place> {
        let (x, y, z) = coordinates_of(word, ',')?;
        Some(Place { x, y, z })
    }
}

// Why there is no mesh.
fn put_stop(answer: &mut Answer, stop: Stop) {
    match stop {
        Stop::Memory => answer.fail(),
        Stop::Outside => answer.put("outside"),
        Stop::Flat => answer.put("flat"),
        Stop::Full => answer.put("full"),
    }
}

// Why a call on a handle did nothing.
fn put_refusal(answer: &mut Answer, refusal: Refusal) {
    match refusal {
        Refusal::Memory => answer.fail(),
        Refusal::Outside => answer.put(" outside"),
        Refusal::Empty => answer.put(" empty"),
        Refusal::Full => answer.put(" full"),
        Refusal::Unknown => answer.put(" unknown"),
    }
}

// What an edit of the mesh of a handle answers.
fn edited(alloc: Global, handle: &mut MeshHandle, edit: &Edit) -> Result<Reply, Refusal> {
    match edit {
        Edit::Add(p) => add(alloc, handle, &place_at(*p)),
        Edit::Take(p) => take(alloc, handle, &place_at(*p)),
        Edit::Move(a, b) => shift(alloc, handle, &place_at(*a), &place_at(*b)),
    }
}

// The replies of edits.
fn put_edits(alloc: Global, answer: &mut Answer, handle: &mut MeshHandle, edits: &[Edit]) {
    answer.put("replies ");
    for edit in edits {
        match edited(alloc, handle, edit) {
            Ok(reply) => answer.put(letter(reply)),
            Err(refusal) => put_refusal(answer, refusal),
        }
    }
}

fn put_place(answer: &mut Answer, place: &Place) {
    write!(answer, " {},{},{}", place.x, place.y, place.z);
}

// A number, or a dot where there is none.
fn put_number(answer: &mut Answer, mark: char, number: u32) {
    answer.put(mark);
    if number == u32::MAX {
        answer.put('.');
    } else {
        answer.put(number);
    }
}

fn put_cell(answer: &mut Answer, row: &CellRow) {
    put_number(answer, ' ', row.a);
    put_number(answer, '-', row.b);
    put_number(answer, '-', row.c);
    put_number(answer, '-', row.d);
}

fn put_triangle(answer: &mut Answer, row: &TriangleRow) {
    put_number(answer, ' ', row.a);
    put_number(answer, '-', row.b);
    put_number(answer, '-', row.c);
}

// The rows of a mesh.
fn put_made(answer: &mut Answer, made: &Made) {
    answer.put("; points");
    for place in &made.points {
        put_place(answer, place);
    }
    answer.put("; cells");
    for row in &made.cells {
        put_cell(answer, row);
    }
    answer.put("; across");
    for row in &made.neighbours {
        put_cell(answer, row);
    }
    answer.put("; hull");
    for row in &made.hull {
        put_triangle(answer, row);
    }
}

// The rows of the mesh of a handle.
fn put_rows(alloc: Global, answer: &mut Answer, handle: &mut MeshHandle) {
    match rows(alloc, handle) {
        Ok(made) => put_made(answer, &made),
        Err(refusal) => put_refusal(answer, refusal),
    }
}

// Whether a point stands at a place, and where the nearest one does.
fn put_look(alloc: Global, answer: &mut Answer, handle: &mut MeshHandle, place: &Place) {
    match find(alloc, handle, place) {
        Ok(located) if located.kind == 0 => answer.put(" at"),
        Ok(_) => answer.put(" off"),
        Err(refusal) => put_refusal(answer, refusal),
    }
    match nearest_to(alloc, handle, place) {
        Ok(near) => put_place(answer, &near),
        Err(refusal) => put_refusal(answer, refusal),
    }
}

// What becomes of the mesh of a handle.
fn put_held(alloc: Global, answer: &mut Answer, handle: &mut MeshHandle, lists: &str) {
    let places: Vec<Place> = answer.all(list_at(lists, 0));
    let edits: Vec<Edit> = answer.all(list_at(lists, 1));
    let looks: Vec<Place> = answer.all(list_at(lists, 2));
    if let Err(stop) = open(alloc, handle, &places) {
        put_stop(answer, stop);
        return;
    }
    put_edits(alloc, answer, handle, &edits);
    put_rows(alloc, answer, handle);
    answer.put("; looks");
    for place in &looks {
        put_look(alloc, answer, handle, place);
    }
    close(alloc, handle);
    put_rows(alloc, answer, handle);
}

/// Answers a case of a handle.
pub(crate) fn put(alloc: Global, answer: &mut Answer, lists: &str) -> Option<()> {
    let mut handle = MeshHandle::empty();
    put_held(alloc, answer, &mut handle, lists);
    free(alloc, handle);
    Some(())
}

// The edges and triangles with their least alphas, and the numbers of the cells.
fn put_faces(answer: &mut Answer, levels: &Levels) {
    answer.put("edges");
    for (row, alphas) in levels.edges.iter().zip(&levels.edge_alphas) {
        write!(answer, " {}-{}:{}", row.a, row.b, alphas.admitted);
    }
    answer.put("; triangles");
    for (row, alphas) in levels.triangles.iter().zip(&levels.triangle_alphas) {
        put_triangle(answer, row);
        write!(answer, ":{}", alphas.admitted);
    }
    answer.put("; cells");
    for least in &levels.cell_alphas {
        write!(answer, " {least}");
    }
}

/// Answers a case of levels.
pub(crate) fn put_levels(alloc: Global, answer: &mut Answer, lists: &str) -> Option<()> {
    let places: Vec<Place> = answer.all(lists);
    match levels_of(alloc, &places) {
        Ok(levels) => put_faces(answer, &levels),
        Err(stop) => put_stop(answer, stop),
    }
    Some(())
}

//! The faces of a complex: its points, pairs, triples and Full cells, each with the cells that contain it.
//!
//! The definitions stand in `specs/Faces.antt`: the points, pairs and triples inside Full cells, each once and in
//! order, and the cells that have all points of a face.
//!
//! ```
//! let cells = complex(alloc, &mesh)?;      // sorted, Full cells first
//! let faces = faces(rt, alloc, &cells)?;   // borrows the cells
//! for index in 0..faces.triples().len() {
//!     let (triple, around) = faces.triple(index);  // and the numbers of its cells, Open ones too
//!     for number in around {
//!         println!(rt; "{triple} is in {}", faces.cells()[*number as usize])?;
//!     }
//! }
//! ```
#![tactic(auto)]

ghost use Rattle.std.specs.Prelude.{◌≡◌, IfOk};
ghost use Rattle.face_list.specs.Faces.{points_in, parts_in, points_with_cells, with_cells_around};

mod alone;
mod around;
mod beside;
mod counts;
pub mod face;
mod gather;
pub mod laws;
mod lists;
mod parts;
mod table;

pub use alone::few_faces;
pub use counts::number_of;
pub use face::Faces;
use point_order::Cell;
use std::alloc::{AllocError, Global};
use std::thread::Threads;
pub use table::Table;

/// The faces of the cells: the points, pairs and triples inside Full cells, each with the cells
/// that contain it, and the cells themselves.
///
/// A face is a part of a Full cell, and Open cells count among those that contain it. The list of cells may
/// be any; for the sorted cells of a complex the Full cells come sorted too. `laws` says what the
/// definitions come to: the lists of faces are strictly sorted and have exactly the parts of Full cells, and
/// the points of a complex are all points of its set.
///
/// The cells are gathered under their points by sorting, and under their pairs and triples point by point, each by as
/// many threads as there are processors; the faces are those that one thread would give.
///
/// # Errors
/// Want of memory. Where 32 bits do not count the cells around all faces, there is none.
pub fn faces<'a, R: Threads + Sync>(
    rt: &R,
    alloc: Global,
    cells: &'a [Cell],
) -> Result<Faces<'a>, AllocError>
    ensures points { IfOk result (λ f. f.points ≡ points_with_cells (points_in cells.now) cells.now) }
    ensures pairs { IfOk result (λ f. f.pairs ≡ with_cells_around (parts_in 2 cells.now) cells.now) }
    ensures triples { IfOk result (λ f. f.triples ≡ with_cells_around (parts_in 3 cells.now) cells.now) }
    ensures cells { IfOk result (λ f. f.cells ≡ cells.now) }
{
    number_of(cells.len())?;
    let points = lists::point_table(rt, alloc, cells)?;
    let (pairs, triples) = lists::pair_and_triple_tables(rt, alloc, cells, &points)?;
    Ok(Faces {
        cells,
        points,
        pairs,
        triples,
    })
}

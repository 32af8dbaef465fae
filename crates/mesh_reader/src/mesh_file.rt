//! What the text of a mesh says.

ghost use Rattle.std.specs.Prelude.{◌≡◌, IfOk};
ghost use Rattle.mesh_reader.specs.Packed.{file_parts, parts};

use cell_lists::QuadList;
use edit_history::Reply;
use point_order::{Point, Quad, Tri};
use std::alloc::{AllocError, Global};

/// The replies, points, cells and triples that a text names.
#[derive(Debug, Drop)]
pub struct MeshFile {
    /// The replies, in the order of their lines. They are not judged.
    pub replies: Vec<Reply>,
    /// The points, ascending.
    pub points: Vec<Point>,
    /// The cells of four points, in lexicographic order, each once; their points are among those above.
    pub cells: Vec<Quad>,
    /// The triples of the hull, in the same way.
    pub hull: Vec<Tri>,
}

/// What a text names, with its cells by the numbers of their points: half of the memory.
#[derive(Debug, Drop)]
pub struct PackedMesh {
    /// The replies, in the order of their lines. They are not judged.
    pub replies: Vec<Reply>,
    /// The points, ascending.
    pub points: Vec<Point>,
    /// The cells of four points, in lexicographic order, each once; their points are among those above.
    pub cells: QuadList,
    /// The triples of the hull, in the same way.
    pub hull: Vec<Tri>,
}

impl PackedMesh {
    /// The same with its cells as they are.
    ///
    /// # Errors
    /// Want of memory.
    pub fn unpacked(self, alloc: Global) -> Result<MeshFile, AllocError>
        ensures { IfOk result (λ file. file_parts file ≡ parts self) }
    {
        let cells = self.cells.to_vec(alloc)?;
        Ok(MeshFile {
            replies: self.replies,
            points: self.points,
            cells,
            hull: self.hull,
        })
    }
}

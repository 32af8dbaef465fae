//! The solid parts of the complex of a cloud of places.

ghost use Rattle.std.specs.Prelude.{◌≡◌, ◌≢◌, ◌<◌, ◌≤◌, ◌-◌, ◌^◌, ◌⊎◌, Some, None, drop, take, length, min};
ghost use Rattle.mesh_rows.specs.Meshes.{AreFlat, AreMany, HasOutside};
ghost use Rattle.mesh_rows.specs.Parts.{AreParts, AreSizesOfParts, IsLeastAlphaOf, LacksPartRoom};

use mesh_rows::{
    CellRow, PartSizes, Place, Stop, lacks_part_room, least_alpha_of, part_sizes, parts_of,
    put_parts,
};
use std::alloc::Global;

// From this number on there is no alpha.
const BEYOND: u64 = 1 << 34;

/// The least alpha, a squared radius in sixteenths, at which every point is in an admitted tetrahedron of the complex
/// of the points at the given places and these have at most so many solid parts; 2^34 where there is none.
///
/// Answers 0 where it is told; else 1: want of memory, 2: a coordinate is not 0 to 16383, which is told first, 3: no
/// four of the points are independent, 6: 32 bits do not number the points, or the tetrahedra and hull triangles
/// together. Then what it would write is as before.
#[unsafe(no_mangle)]
pub extern "C" fn delaunay_c_least_alpha(
    alloc: Global,
    given: &[Place],
    parts: u32,
    least: &mut u64,
) -> u8
    ensures done { result ≡ 0 → least.new < 2 ^ 34 → IsLeastAlphaOf given.now parts (Some least.new) }
    ensures none { result ≡ 0 → 2 ^ 34 ≤ least.new → IsLeastAlphaOf given.now parts None }
    ensures told { result ≡ 0 → least.new ≤ 2 ^ 34 }
    ensures outside { result ≡ 2 → HasOutside given.now }
    ensures first { HasOutside given.now → result ≡ 2 }
    ensures flat { result ≡ 3 → AreFlat given.now }
    ensures many { result ≡ 6 → AreMany given.now }
    ensures statuses { (result ≤ 3) ⊎ (result ≡ 6) }
    ensures untold { 0 < result → least.new ≡ least.old }
{
    match least_alpha_of(alloc, given, parts) {
        Ok(Some(alpha)) => {
            *least = alpha;
            0
        }
        Ok(None) => {
            *least = BEYOND;
            0
        }
        Err(Stop::Memory) => 1,
        Err(Stop::Outside) => 2,
        Err(Stop::Flat) => 3,
        Err(Stop::Full) => 6,
    }
}

/// The solid parts of the alpha complex of the points at the given places, in the order of their least tetrahedra: the
/// tetrahedra of one part after another, by the numbers of their points as those of `delaunay_c_mesh`, and how many
/// each part has. An alpha from 2^34 on counts as the one before.
///
/// Answers as `delaunay_c_mesh` does.
#[unsafe(no_mangle)]
pub extern "C" fn delaunay_c_solid_parts(
    alloc: Global,
    given: &[Place],
    alpha: u64,
    cells: &mut [CellRow],
    counts: &mut [u64],
    sizes: &mut PartSizes,
) -> u8
    ensures done { result ≡ 0 → AreParts given.now (min alpha (2 ^ 34 - 1)) (take sizes.new.cells cells.new)
        (take sizes.new.parts counts.new) }
    ensures sized { result ≡ 0 → AreSizesOfParts given.now (min alpha (2 ^ 34 - 1)) sizes.new }
    ensures outside { result ≡ 2 → HasOutside given.now }
    ensures first { HasOutside given.now → result ≡ 2 }
    ensures flat { result ≡ 3 → AreFlat given.now }
    ensures many { result ≡ 6 → AreMany given.now }
    ensures wanted { result ≡ 4 → AreSizesOfParts given.now (min alpha (2 ^ 34 - 1)) sizes.new }
    ensures lacks { result ≡ 4 → LacksPartRoom sizes.new (length cells.old) (length counts.old) }
    ensures statuses { (result ≤ 4) ⊎ (result ≡ 6) }
    ensures sizes { 0 < result → result ≢ 4 → sizes.new ≡ sizes.old }
    ensures cells { 0 < result → cells.new ≡ cells.old }
    ensures counts { 0 < result → counts.new ≡ counts.old }
    ensures cells_behind { result ≡ 0 → drop sizes.new.cells cells.new ≡ drop sizes.new.cells cells.old }
    ensures counts_behind { result ≡ 0 → drop sizes.new.parts counts.new ≡ drop sizes.new.parts counts.old }
{
    match parts_of(alloc, given, alpha.min(BEYOND - 1)) {
        Ok(made) => {
            *sizes = part_sizes(&made);
            if lacks_part_room(sizes, cells, counts) {
                return 4;
            }
            put_parts(&made, cells, counts);
            0
        }
        Err(Stop::Memory) => 1,
        Err(Stop::Outside) => 2,
        Err(Stop::Flat) => 3,
        Err(Stop::Full) => 6,
    }
}

//! The file that is made of two numbers.

ghost use Rattle.std.specs.Prelude.{◌≡◌, ◌<◌, ◌≤◌, map, IfOk};
ghost use Rattle.std.specs.List.{range_with_len};
ghost use Rattle.edit_files.specs.Held.{content};
ghost use Rattle.text_readings.specs.PointLines.{coordinate_count, key_of};
ghost use Rattle.edit_files.specs.Generator.{state_count, next_state, draw_of, point_behind, back_to as back_to_of};
ghost use Rattle.edit_files.specs.Generator.{corners as corners_of, edit_line, most_edits, generated};

use crate::file::File;
use crate::version::Version;
use edit_history::Edit;
use point_order::Point;
use std::alloc::{AllocError, Global};

/// The radii of a generated file, squared.
const RADII: [u64; 3] = [16_384, 262_144, 4_194_304];

// A state of the draws, below 2^31.
#[derive(Drop)]
struct Draws {
    state: u64,
    ghost small: { state < state_count },
}

impl Draws {
    // The next draw, 0 to 16383.
    fn draw(&mut self) -> u64
        ensures state { self.new.state ≡ next_state self.old.state }
        ensures drawn { result ≡ draw_of (next_state self.old.state) }
        ensures small { result < coordinate_count }
    {
        self.state = (self.state * 1_103_515_245 + 12_345) % 2_147_483_648;
        self.state / 131_072
    }

    // The point of the next three draws: x, then y, then z.
    fn point(&mut self) -> Point
        ensures state { self.new.state ≡ next_state (next_state (next_state self.old.state)) }
        ensures point { result ≡ point_behind self.old.state }
    {
        let x = self.draw();
        let y = self.draw();
        let z = self.draw();
        point_at(x, y, z)
    }
}

// The point with these coordinates.
fn point_at(x: u64, y: u64, z: u64) -> Point
    requires x { x < coordinate_count }
    requires y { y < coordinate_count }
    requires z { z < coordinate_count }
    ensures { result ≡ key_of x y z }
{
    match Point::new(x as i64, y as i64, z as i64) {
        Ok(point) => point,
        Err(_) => unreachable!(),
    }
}

// The points of a generated file: the corner at the origin, and the far ends of the three axes.
fn corners() -> [Point; 4]
    ensures { result ≡ corners_of }
{
    [
        point_at(0, 0, 0),
        point_at(16383, 0, 0),
        point_at(0, 16383, 0),
        point_at(0, 0, 16383),
    ]
}

// The edit that goes back to a drawn point: it takes it, but where it is a corner it adds it again.
fn back_to(point: Point) -> Edit
    ensures { result ≡ back_to_of point }
{
    if corners().contains(&point) {
        Edit::Add(point)
    } else {
        Edit::Take(point)
    }
}

// The edit lines: every fourth goes back to the point of the line before the last, and all others add a drawn point.
fn edits(alloc: Global, count: u32, start: u32) -> Result<Vec<Edit>, AllocError>
    requires { start < state_count }
    ensures { IfOk result (λ edits. edits.items ≡ map (edit_line start) (range_with_len 1 count)) }
{
    let mut draws = Draws {
        state: u64::from(start),
    };
    let mut edits: Vec<Edit> = Vec::new(alloc);
    for before in 0..count as usize {
        let edit = if before % 4 == 3 {
            back_to(edits[before - 2].point())
        } else {
            Edit::Add(draws.point())
        };
        edits.push(edit)?;
    }
    Ok(edits)
}

/// The file of a count and a start, of version 1: four points, so many edits, and the radii 16384, 262144 and 4194304.
///
/// Every fourth edit takes the point that the edit before the last added, or adds it again where it is one of the four
/// points. All others add a point that is drawn, from the state `start` on. `count` is
/// at most 262,140 and `start` is below 2^31.
///
/// # Errors
///
/// Where there is no memory for the file.
pub fn generate(alloc: Global, count: u32, start: u32) -> Result<File, AllocError>
    requires count { count ≤ most_edits }
    requires start { start < state_count }
    ensures { IfOk result (λ file. content file ≡ generated count start) }
{
    Ok(File {
        version: Version::One,
        points: Vec::from_slice(alloc, &corners())?,
        edits: edits(alloc, count, start)?,
        radii: Vec::from_slice(alloc, &RADII)?,
        queries: Vec::new(alloc),
    })
}

//! What is told of the solid parts of a set: their text, the boundary of one, or nothing and why.

ghost use Rattle.std.specs.Prelude.{◌≡◌, ◌<◌, ◌^◌, true, IfSome, IfOk};
ghost use Rattle.point_order.specs.Complex.{complex};
ghost use Rattle.point_order.specs.Sets.{IsAscending};
ghost use Rattle.point_order.specs.Solid.{is_solid};
ghost use Rattle.del_laws.specs.Keys.{AreKeys};
ghost use Rattle.alpha_complex.specs.Condition.{AreFacesOf};
ghost use Rattle.solid_parts.specs.Seen.{parts_seen};
ghost use Rattle.solid_parts.specs.Text.{parts_text};
ghost use Rattle.command_ends.specs.Parted.{HasParts, IsAskedAlpha, IsParted, TellsOf};
ghost use Rattle.command_words.specs.Stops.{IsLate, status_of_end};

use byte_ends::Failed;
use command_words::{Stop, Wanted};
use face_list::{Faces, faces};
use mesh_files::off_text;
use point_order::{Cell, Point};
use solid_parts::{Part, boundary, least_alpha, parts, put_parts, sizes};
use std::alloc::{AllocError, Global};
use std::thread::Threads;
use text_sheets::WholeText;

/// What is told of parts: a text, or none and why.
#[derive(Drop)]
pub struct Told {
    /// The text, empty where there is nothing to tell.
    pub text: Vec<u8>,
    /// Why there is nothing to tell, if so: no alpha with so few parts, or no part of the index.
    pub after: Option<Stop>,
}

// The alpha at which the parts of the set with these faces are taken, if there is one.
fn alpha_of<R: Threads + Sync>(
    rt: &R,
    alloc: Global,
    points: &[Point],
    faces: &Faces,
    wanted: Wanted,
) -> Result<Option<u64>, AllocError>
    requires faces { AreFacesOf points.now faces.now }
    ensures asked { IfOk result (IsAskedAlpha points.now wanted.alpha wanted.most) }
    ensures small { IfOk result (λ at. IfSome at (λ alpha. alpha < 2 ^ 34)) }
{
    if wanted.most == 0 {
        return Ok(Some(wanted.alpha));
    }
    least_alpha(rt, alloc, faces, wanted.most)
}

// The text of the parts at an alpha.
fn text_of_all(alloc: Global, alpha: u64, parts: &[Part]) -> Result<Vec<u8>, AllocError>
    ensures { IfOk result (λ text. text.items ≡ parts_text alpha (parts_seen parts.now)) }
{
    let sizes = sizes(alloc, parts)?;
    let mut text = WholeText::new(alloc);
    match put_parts(&mut text, alpha, &sizes) {
        Ok(()) => Ok(text.into_bytes()),
        Err(Failed) => Err(AllocError),
    }
}

// What is told of the parts at an alpha: of all, or the boundary of the one with the index.
fn told_of(
    alloc: Global,
    points: &[Point],
    alpha: u64,
    parts: &[Part],
    index: Option<u32>,
) -> Result<Told, AllocError>
    requires { IsAscending points.now }
    ensures told { IfOk result (λ told. TellsOf points.now alpha (parts_seen parts.now) index
        (status_of_end told.after) told.text.items) }
    ensures late { IfOk result (λ told. IsLate told.after) }
{
    let Some(index) = index else {
        let text = text_of_all(alloc, alpha, parts)?;
        let after = None;
        return Ok(Told { text, after });
    };
    if index as usize >= parts.len() {
        let text = Vec::new(alloc);
        let after = Some(Stop::NoPart);
        return Ok(Told { text, after });
    }
    let outside = boundary(alloc, &parts[index as usize])?;
    let text = off_text(alloc, points, &outside)?;
    let after = None;
    Ok(Told { text, after })
}

/// What is told of the solid parts of a set, whose complex these cells are.
///
/// # Errors
///
/// Want of memory.
pub fn parted<R: Threads + Sync>(
    rt: &R,
    alloc: Global,
    points: &[Point],
    cells: &[Cell],
    wanted: Wanted,
) -> Result<Told, AllocError>
    requires ascending { IsAscending points.now }
    requires keys { AreKeys points.now }
    requires solid { is_solid points.now ≡ true }
    requires cells { cells.now ≡ complex points.now }
    ensures told { IfOk result (λ told. IsParted points.now wanted.alpha wanted.most wanted.off
        (status_of_end told.after) told.text.items) }
    ensures late { IfOk result (λ told. IsLate told.after) }
{
    let faces = faces(rt, alloc, cells)?;
    let Some(alpha) = alpha_of(rt, alloc, points, &faces, wanted)? else {
        let text = Vec::new(alloc);
        let after = Some(Stop::NoAlpha);
        return Ok(Told { text, after });
    };
    let parts = parts(alloc, &faces, alpha)?;
    told_of(alloc, points, alpha, &parts, wanted.off)
}

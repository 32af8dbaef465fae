//! Edit lines and radius lines.

ghost use Rattle.std.specs.Prelude.{◌≡◌, MatchOption, None, Some};
ghost use Rattle.edit_files.specs.Judging.{halves, move_of, edit, radius};

use crate::version::Version;
use edit_history::Edit;
use text_readings::{Why, first_field, number_of, point_of};

// The first three fields of a line, with the spaces between them, and what follows the space behind them.
fn halves(line: &[u8]) -> Option<(&[u8], &[u8])>
    ensures { MatchOption result (halves line.now ≡ None) (λ h. halves line.now ≡ Some (h.0.now, h.1.now)) }
{
    let (_, behind_x) = first_field(line);
    let (_, behind_y) = first_field(behind_x?);
    let (_, behind_z) = first_field(behind_y?);
    let to = behind_z?;
    Some((&line[..line.len() - to.len() - 1], to))
}

// The move of two points with one space between them: a place that is not of its form comes before one that is out of
// range.
fn move_of(line: &[u8]) -> Result<Edit, Why>
    ensures { result ≡ move_of (halves line.now) }
{
    let Some((from, to)) = halves(line) else {
        return Err(Why::Field);
    };
    let to = point_of(to);
    match point_of(from) {
        Ok(from) => to.map(|to| Edit::Move(from, to)),
        Err(why) => match to {
            Err(Why::Field) => Err(Why::Field),
            _ => Err(why),
        },
    }
}

// The edit of an edit line of a file of this version.
pub fn edit_of(line: &[u8], version: Version) -> Result<Edit, Why>
    ensures { result ≡ edit version line.now }
{
    if line.len() < 2 || line[1] != b' ' {
        return Err(Why::Field);
    }
    let rest = &line[2..];
    match line[0] {
        b'+' => point_of(rest).map(Edit::Add),
        b'-' => point_of(rest).map(Edit::Take),
        b'=' if version.row().moves => move_of(rest),
        _ => Err(Why::Field),
    }
}

// The radius of a radius line of a file of this version.
pub fn radius_of(line: &[u8], version: Version) -> Result<u64, Why>
    ensures { result ≡ radius version line.now }
{
    match number_of(line) {
        None => Err(Why::Field),
        Some(radius) if radius < version.row().radius_end => Ok(radius),
        Some(_) => Err(Why::Range),
    }
}

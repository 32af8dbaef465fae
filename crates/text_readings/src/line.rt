//! Point lines.

ghost use Rattle.std.specs.Prelude.{◌≡◌, ◌≤◌, MatchOption, IfSome, Err};
ghost use Rattle.text_readings.specs.Scanning.{far, point, point_at};
ghost use Rattle.text_readings.specs.declared.fault.Why.TheVariants.{Field};

use crate::fault::Why;
use crate::scan::{first_field, number_of};
use point_order::Point;

// Three numbers with one space between them.
fn three_of(line: &[u8]) -> Option<(u64, u64, u64)>
    ensures value { MatchOption result (point line.now ≡ Err Field) (λ t. point line.now ≡ point_at t.0 t.1 t.2) }
    ensures bound { IfSome result (λ t. (t.0 ≤ far) × (t.1 ≤ far) × (t.2 ≤ far)) }
{
    let (x, behind_x) = first_field(line);
    let (y, behind_y) = first_field(behind_x?);
    let (z, behind_z) = first_field(behind_y?);
    if behind_z.is_some() {
        return None;
    }
    let x = number_of(x)?;
    let y = number_of(y)?;
    let z = number_of(z)?;
    Some((x, y, z))
}

/// The point of a point line: three numbers with one space between them, each 0 to 16383.
///
/// # Errors
/// `Field` where it is not of that form, else `Range` where a number is out of its range.
pub fn point_of(line: &[u8]) -> Result<Point, Why>
    ensures { result ≡ point line.now }
{
    let Some((x, y, z)) = three_of(line) else {
        return Err(Why::Field);
    };
    match Point::new(x as i64, y as i64, z as i64) {
        Ok(point) => Ok(point),
        Err(_) => Err(Why::Range),
    }
}

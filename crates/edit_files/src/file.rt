//! What an edit file says.

ghost use Rattle.std.specs.Prelude.{◌≡◌};

use crate::version::Version;
use edit_history::Edit;
use point_order::Point;

/// The points, edits, radii and queries that a text names.
#[derive(Debug, Drop)]
pub struct File {
    /// The version of its form: in the first no edit moves a point.
    pub version: Version,
    /// The points of the point lines, in their order.
    pub points: Vec<Point>,
    /// The edits of the edit lines, in their order.
    pub edits: Vec<Edit>,
    /// The radii, squared, of the radius lines, in their order: in versions 1 and 2 each is 0 to 1073741823, and from
    /// version 3 on each counts sixteenths, 0 to 17179869183.
    pub radii: Vec<u64>,
    /// The points of the query lines, in their order; none before version 4.
    pub queries: Vec<Point>,
}

/// The point lines of a file as adds, then its edit lines.
#[derive(Clone, Debug, Drop)]
pub struct Lines<'a> {
    points: &'a [Point],
    edits: &'a [Edit],
}

impl File {
    ghost use Rattle.edit_files.specs.Held.{content, lines_in_order};
    ghost use Rattle.edit_files.specs.LinesLeft.{lines_left};

    /// The point lines as adds, then the edit lines. A line's place here, from 0, is its tag.
    pub fn lines(&self) -> Lines<'_>
        ensures { lines_left result ≡ lines_in_order self.now.points.items self.now.edits.items }
    {
        Lines {
            points: &self.points,
            edits: &self.edits,
        }
    }
}

impl<'a> Iterator for Lines<'a> {
    type Item = Edit;

    ghost use Rattle.std.specs.Iterator.{YieldsFirst, item_count};
    ghost use Rattle.edit_files.specs.LinesLeft.{lines_left};

    ghost next_gives = { YieldsFirst lines_left };

    ghost remaining = { item_count lines_left };

    fn next(&mut self) -> Option<Edit> {
        if let Some((first, others)) = self.points.split_first() {
            self.points = others;
            return Some(Edit::Add(*first));
        }
        let (first, others) = self.edits.split_first()?;
        self.edits = others;
        Some(*first)
    }
}

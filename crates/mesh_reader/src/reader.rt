//! Reading the text of a mesh, line by line.

ghost use Rattle.std.specs.Prelude.{◌≡◌, IfSome, Err, nat_lt, if◌then◌else◌};
ghost use Rattle.std.specs.Str.{bytes_eq};
ghost use Rattle.text_readings.specs.Judging.{Gives, Steps, judged_end};
ghost use Rattle.text_readings.specs.declared.fault.Why.TheVariants.{Section};
ghost use Rattle.mesh_reader.specs.declared.place.Part.TheVariants as lists;
ghost use Rattle.mesh_reader.specs.Grammar.{at_title};
ghost use Rattle.mesh_reader.specs.Packed.{parts};
ghost use Rattle.mesh_reader.specs.Judging.{announced as announced_by, headed, is_after_last, is_less, mesh_judge};
ghost use Rattle.mesh_reader.specs.Judging.{now_due, reached, taken, transition, whole};
ghost use Rattle.mesh_reader.specs.LinesLeft.{HasAllPoints};

use crate::line::{announced, quad_of, reply_of, tri_of};
use crate::mesh_file::PackedMesh;
use crate::place::{Due, Part, limit_of, lines_due};
use cell_lists::QuadList;
use point_order::{Cell, Point, Quad, Tri};
use std::alloc::Global;
use std::cmp::Ordering;
use text_readings::{Fault, LineRefused, ReadRefused, Why, point_of, reads};

// A reader: what is due, and what it took so far.
#[derive(Drop)]
pub(crate) struct Reader {
    pub(crate) due: Due,
    file: PackedMesh,
}

// Whether the last of the points is before p.
fn is_after_points(points: &[Point], p: Point) -> bool
    ensures { result ≡ is_after_last nat_lt points.now p }
{
    match points.split_last() {
        Some((last, _)) => *last < p,
        None => true,
    }
}

// Whether the last of the cells is before this one.
fn is_after_cells(cells: &QuadList, quad: Quad) -> bool
    ensures { result ≡ is_after_last is_less cells.now quad }
{
    match cells.last() {
        Some(last) => match Cell::Full(last).compare(&Cell::Full(quad)) {
            Ordering::Less => true,
            _ => false,
        },
        None => true,
    }
}

// Whether the last of the triples is before this one.
fn is_after_triples(triples: &[Tri], tri: Tri) -> bool
    ensures { result ≡ is_after_last is_less triples.now tri }
{
    match triples.split_last() {
        Some((last, _)) => match Cell::Open(*last).compare(&Cell::Open(tri)) {
            Ordering::Less => true,
            _ => false,
        },
        None => true,
    }
}

impl PackedMesh {
    // Takes a reply.
    fn take_reply(&mut self, line: &[u8]) -> Result<(), LineRefused>
        ensures { Steps result (parts self.new) (taken lists.Replies (parts self.old) line.now) }
    {
        self.replies.push(reply_of(line)?)?;
        Ok(())
    }

    // Takes a point.
    fn take_point(&mut self, line: &[u8]) -> Result<(), LineRefused>
        ensures { Steps result (parts self.new) (taken lists.Points (parts self.old) line.now) }
    {
        let point = point_of(line)?;
        if !is_after_points(&self.points, point) {
            return Err(LineRefused::Bad(Why::Range));
        }
        self.cells.know(point)?;
        self.points.push(point)?;
        Ok(())
    }

    // Takes a cell.
    fn take_cell(&mut self, line: &[u8]) -> Result<(), LineRefused>
        ensures { Steps result (parts self.new) (taken lists.Cells (parts self.old) line.now) }
    {
        let placed = quad_of(&self.points, line)?;
        if !is_after_cells(&self.cells, placed.quad()) {
            return Err(LineRefused::Bad(Why::Range));
        }
        self.cells.push(placed.quad(), placed.places())?;
        Ok(())
    }

    // Takes a triple.
    fn take_triple(&mut self, line: &[u8]) -> Result<(), LineRefused>
        ensures { Steps result (parts self.new) (taken lists.Hull (parts self.old) line.now) }
    {
        let tri = tri_of(&self.points, line)?;
        if !is_after_triples(&self.hull, tri) {
            return Err(LineRefused::Bad(Why::Range));
        }
        self.hull.push(tri)?;
        Ok(())
    }

    // Takes a line of a list.
    fn take(&mut self, part: Part, line: &[u8]) -> Result<(), LineRefused>
        ensures { Steps result (parts self.new) (taken part (parts self.old) line.now) }
    {
        match part {
            Part::Replies => self.take_reply(line),
            Part::Points => self.take_point(line),
            Part::Cells => self.take_cell(line),
            Part::Hull => self.take_triple(line),
        }
    }
}

impl Reader {
    pub(crate) fn new(alloc: Global) -> Reader
        ensures { reached result ≡ at_title }
    {
        let file = PackedMesh {
            replies: Vec::new(alloc),
            points: Vec::new(alloc),
            cells: QuadList::new(alloc),
            hull: Vec::new(alloc),
        };
        Reader {
            due: Due::Title,
            file,
        }
    }

    // The points, where no more are due.
    pub(crate) fn points(&self) -> Option<&[Point]>
        ensures { IfSome result (λ points. (points.now ≡ self.now.file.points.items) × HasAllPoints self.now.due) }
    {
        match self.due {
            Due::Head(Part::Cells) | Due::Head(Part::Hull) => Some(&self.file.points),
            Due::Body(Part::Cells, _) | Due::Body(Part::Hull, _) => Some(&self.file.points),
            _ => None,
        }
    }

    // Takes the line that follows.
    pub(crate) fn take_line(&mut self, line: &[u8]) -> Result<(), LineRefused>
        ensures { Steps result (reached self.new) (transition (reached self.old) line.now) }
    {
        match self.due {
            Due::Title => self.take_word(line, b"mesh3-out 1", Due::Head(Part::Replies)),
            Due::Head(part) => self.take_head(part, line),
            Due::Body(part, more) => {
                self.file.take(part, line)?;
                self.due = lines_due(part, more);
                Ok(())
            }
            Due::Last => self.take_word(line, b"end", Due::Nothing),
            Due::Nothing => Err(LineRefused::Bad(Why::Section)),
        }
    }

    // Takes a line that is to be this word, and goes on to what is due then.
    fn take_word(&mut self, line: &[u8], word: &[u8], next: Due) -> Result<(), LineRefused>
        ensures { Steps result (reached self.new)
            (if bytes_eq line.now word.now then now_due next (parts self.old.file) else Err Section) }
    {
        if !reads(line, word) {
            return Err(LineRefused::Bad(Why::Section));
        }
        self.due = next;
        Ok(())
    }

    // Takes the head of a list.
    fn take_head(&mut self, part: Part, line: &[u8]) -> Result<(), LineRefused>
        ensures { Steps result (reached self.new)
            (headed part (parts self.old.file) (announced_by part line.now)) }
    {
        let Some(count) = announced(part, line) else {
            return Err(LineRefused::Bad(Why::Section));
        };
        if count > limit_of(part) {
            return Err(LineRefused::Bad(Why::TooMany));
        }
        self.due = lines_due(part, count);
        Ok(())
    }

    // The mesh, where its end was read; `line` is the number of the line that would follow.
    pub(crate) fn finish(self, line: u64) -> Result<PackedMesh, ReadRefused>
        ensures { Gives whole result (judged_end mesh_judge line (reached self)) }
    {
        match self.due {
            Due::Nothing => Ok(self.file),
            _ => Err(ReadRefused::Bad(Fault {
                line,
                why: Why::Truncated,
            })),
        }
    }
}

//! Answers as they are put together.

ghost use Rattle.std.specs.Prelude.{◌≡◌, IfSome, Ok};

use crate::reading::Word;
use point_order::{Cell, Point};
use std::alloc::{AllocError, Global};
use std::fmt::Display;

/// An answer as it grows. Once memory is wanting nothing more is put, and the answer fails in the end.
#[derive(Drop)]
pub(crate) struct Answer {
    alloc: Global,
    text: String,
    grown: Result<(), AllocError>,
}

impl Answer {
    pub(crate) fn new(alloc: Global) -> Answer {
        Answer {
            alloc,
            text: String::new(alloc),
            grown: Ok(()),
        }
    }

    // What `write!` calls.
    pub(crate) fn write_fmt<D: Display + Drop>(&mut self, words: D) {
        if self.grown.is_ok() {
            self.grown = self.text.write_fmt(words);
        }
    }

    pub(crate) fn put<D: Display + Drop>(&mut self, word: D) {
        self.write_fmt(word);
    }

    // Puts what was put elsewhere.
    pub(crate) fn put_answer(&mut self, other: Answer) {
        match other.whole() {
            Ok(text) => self.put(text),
            Err(_) => self.fail(),
        }
    }

    // Memory was wanting.
    pub(crate) fn fail(&mut self) {
        self.grown = Err(AllocError);
    }

    // The things that a list of words tells of; what is none is left out.
    pub(crate) fn all<T: Word + Drop>(&mut self, words: &str) -> Vec<T> {
        self.all_between(words, ' ')
    }

    // The same where this character stands between them.
    pub(crate) fn all_between<T: Word + Drop>(&mut self, words: &str, mark: char) -> Vec<T> {
        let mut all = Vec::new(self.alloc);
        for word in words.split(mark) {
            if let Some(thing) = T::of(word)
                && all.push(thing).is_err()
            {
                self.fail();
            }
        }
        all
    }

    // What was made; nothing where memory was wanting.
    pub(crate) fn got<T: Drop>(&mut self, made: Result<T, AllocError>) -> Option<T>
        ensures { IfSome result (λ value. made ≡ Ok value) }
    {
        match made {
            Ok(value) => Some(value),
            Err(_) => {
                self.fail();
                None
            }
        }
    }

    // Nothing was put.
    pub(crate) fn is_empty(&self) -> bool {
        self.text.is_empty()
    }

    // The text, if there was memory for all of it.
    pub(crate) fn whole(self) -> Result<String, AllocError> {
        let Answer { text, grown, .. } = self;
        match grown {
            Ok(()) => Ok(text),
            Err(wanting) => Err(wanting),
        }
    }
}

// Bytes, with a bar for each line feed.
pub(crate) fn put_bytes(answer: &mut Answer, bytes: &[u8]) {
    for byte in bytes {
        answer.put(match byte {
            b'\n' => '|',
            other => char::from(*other),
        });
    }
}

// Bytes that were made; the answer fails where memory was wanting.
pub(crate) fn put_made(answer: &mut Answer, made: Result<Vec<u8>, AllocError>) {
    match made {
        Ok(bytes) => put_bytes(answer, &bytes),
        Err(_) => answer.fail(),
    }
}

// A point, behind a space.
pub(crate) fn put_point(answer: &mut Answer, p: Point) {
    write!(answer, " {},{},{}", p.x(), p.y(), p.z());
}

// A cell by its points.
pub(crate) fn put_cell(answer: &mut Answer, cell: &Cell) {
    answer.put(match cell {
        Cell::Full(_) => " Full",
        Cell::Open(_) => " Open",
    });
    for p in cell.points() {
        put_point(answer, *p);
    }
}

// The places of the corners among the points, joined by dashes.
pub(crate) fn put_places(answer: &mut Answer, points: &[Point], corners: &[Point]) {
    let mut mark = ' ';
    for corner in corners {
        match points.iter().position(|p| p == corner) {
            Some(i) => write!(answer, "{mark}{i}"),
            None => write!(answer, "{mark}?"),
        }
        mark = '-';
    }
}

// Cells by the places of their points.
pub(crate) fn put_cells(answer: &mut Answer, points: &[Point], cells: &[Cell]) {
    for cell in cells {
        put_places(answer, points, cell.points());
    }
}

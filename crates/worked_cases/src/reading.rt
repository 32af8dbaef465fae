//! Points, cells, edits and numbers in the lines of cases.

ghost use Rattle.std.specs.Prelude.{IsTrue};
ghost use Rattle.point_order.specs.Sets.{AreFour};

use edit_history::{Edit, Reply};
use point_order::{Cell, Point};

/// What a word can tell of.
pub(crate) trait Word: Sized {
    fn of(word: &str) -> Option<Self>;
}

impl Word for u32 {
    fn of(word: &str) -> Option<u32> {
        word.parse::<u32>().ok()
    }
}

impl Word for u64 {
    fn of(word: &str) -> Option<u64> {
        word.parse::<u64>().ok()
    }
}

// A point is written `x,y,z`.
impl Word for Point {
    fn of(word: &str) -> Option<Point> {
        let (x, y, z) = coordinates_of(word, ',')?;
        Point::new(x, y, z).ok()
    }
}

// The sign of an edit, what stands before it, its tag or nothing, and what stands behind it.
fn parts_of(word: &str) -> Option<(&str, char, &str)> {
    let sign = word.chars().find(|c| matches!(c, '+' | '-' | '='))?;
    let (tag, places) = word.split_once(sign)?;
    Some((tag, sign, places))
}

// What stands behind the sign of an edit: a point, or behind `=` a place and, behind `>`, where its point moves.
fn edit_behind(sign: char, places: &str) -> Option<Edit> {
    match sign {
        '+' => Point::of(places).map(Edit::Add),
        '-' => Point::of(places).map(Edit::Take),
        _ => {
            let (from, to) = places.split_once('>')?;
            Some(Edit::Move(Point::of(from)?, Point::of(to)?))
        }
    }
}

// An edit, with a tag before it or without.
impl Word for Edit {
    fn of(word: &str) -> Option<Edit> {
        let (_, sign, places) = parts_of(word)?;
        edit_behind(sign, places)
    }
}

// An edit and its tag.
impl Word for (u32, Edit) {
    fn of(word: &str) -> Option<(u32, Edit)> {
        let (tag, sign, places) = parts_of(word)?;
        let edit = edit_behind(sign, places)?;
        Some((tag.parse::<u32>().ok()?, edit))
    }
}

impl Word for Reply {
    fn of(word: &str) -> Option<Reply> {
        match word {
            "Inserted" => Some(Reply::Inserted),
            "Duplicate" => Some(Reply::Duplicate),
            "Removed" => Some(Reply::Removed),
            "Missing" => Some(Reply::Missing),
            "Flat" => Some(Reply::Flat),
            "Moved" => Some(Reply::Moved),
            "Occupied" => Some(Reply::Occupied),
            _ => None,
        }
    }
}

// A cell is its points: a Full one where there are four.
impl Word for Cell {
    fn of(words: &str) -> Option<Cell> {
        let a = at(words, 0)?;
        let b = at(words, 1)?;
        let c = at(words, 2)?;
        match at(words, 3) {
            Some(d) if are_four(a, b, c, d) => Some(Cell::full(a, b, c, d)),
            None if a != b && a != c && b != c => Some(Cell::hull(a, b, c)),
            _ => None,
        }
    }
}

// Whether four points are distinct.
pub(crate) fn are_four(a: Point, b: Point, c: Point, d: Point) -> bool
    ensures { IsTrue result → AreFour a b c d }
{
    a != b && a != c && a != d && b != c && b != d && c != d
}

// A number at a place of a list with this mark between its words.
fn coordinate_at(words: &str, mark: char, place: usize) -> Option<i64> {
    words.split(mark).nth(place)?.parse::<i64>().ok()
}

// The first three numbers of a list with this mark between its words.
pub(crate) fn coordinates_of(words: &str, mark: char) -> Option<(i64, i64, i64)> {
    Some((
        coordinate_at(words, mark, 0)?,
        coordinate_at(words, mark, 1)?,
        coordinate_at(words, mark, 2)?,
    ))
}

// The list at a place of lists behind semicolons, without the blanks at its ends; an empty one where there are fewer.
pub(crate) fn list_at(lists: &str, place: usize) -> &str {
    lists.split(';').nth(place).unwrap_or("").trim()
}

// The number at a place of a list of words; 0 where there is none.
pub(crate) fn number_at(words: &str, place: usize) -> u32 {
    at(words, place).unwrap_or(0)
}

// The two numbers of the list at a place of lists.
pub(crate) fn numbers_at(lists: &str, place: usize) -> (u32, u32) {
    let words = list_at(lists, place);
    (number_at(words, 0), number_at(words, 1))
}

// What the word at a place of a list tells of.
pub(crate) fn at<T: Word>(words: &str, place: usize) -> Option<T> {
    T::of(words.split_whitespace().nth(place)?)
}

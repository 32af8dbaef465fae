//! What a command makes, before anything is written.

ghost use Rattle.std.specs.Prelude.{◌≡◌, ◌↔◌, [], IsTrue};
ghost use Rattle.command_pages.specs.Page.{text_of_page};

use command_words::Stop;
use edit_files::Version;
use edit_history::{Entry, Reply};
use point_order::{Cell, Point};

/// What the report of a mesh is made of. Its shapes are made only when it is written, since they stand on these cells.
#[derive(Drop)]
pub struct Parts {
    /// The reply to each line.
    pub replies: Vec<Reply>,
    /// The points of the mesh, ascending.
    pub points: Vec<Point>,
    /// Its cells, in their order.
    pub cells: Vec<Cell>,
    /// The version of the file, by which its radii count.
    pub version: Version,
    /// The radii of the shapes that are asked for, each in the range of the version.
    pub radii: Vec<u64>,
    /// The tags of the history, where they are asked for.
    pub order: Option<Vec<u32>>,
    /// Whether its lines are made by threads; it has the same bytes if not.
    pub by_threads: bool,
}

/// What of a report is to be written.
#[derive(Clone, Copy)]
pub enum Form {
    /// All of it.
    Whole,
    /// Its summary.
    Summary,
}

/// What is to be written.
#[derive(Drop)]
pub enum Page {
    /// These bytes.
    Text(Vec<u8>),
    /// The report that these are the parts of, in this form.
    Report(Form, Parts),
}

impl Page {
    /// Whether it has no bytes.
    pub fn is_empty(&self) -> bool
        ensures { IsTrue result ↔ (text_of_page self.now ≡ []) }
    {
        match self {
            Page::Text(text) => text.is_empty(),
            Page::Report(..) => false,
        }
    }
}

/// What a command makes.
#[derive(Drop)]
pub struct Made {
    /// The history of the mesh, empty where none is made.
    pub kept: Vec<Entry>,
    /// What is to be written.
    pub page: Page,
    /// What is told of it: the run ends so where the page is written whole.
    pub after: Option<Stop>,
}

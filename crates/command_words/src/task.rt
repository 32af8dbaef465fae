//! What a run is asked to do.

ghost use Rattle.std.specs.Prelude.{◌<◌, ◌≤◌, ◌^◌};
ghost use Rattle.edit_files.specs.Generator.{most_edits, state_count};

use bucket_grid::Grid;

/// How a mesh is made.
#[derive(Clone, Copy)]
pub struct Making {
    /// How many workers make it, 1 to 64.
    pub workers: u32,
    /// The grid by which its buckets divide space.
    pub grid: Grid,
    pub ghost some: { 0 < workers },
    pub ghost few: { workers ≤ 64 },
}

/// What a report is to have.
#[derive(Clone, Copy)]
pub struct Asked {
    /// Whether the report is to have a shape for each radius.
    pub shape: bool,
    /// Whether the report is to tell the tags of the history, in its order.
    pub order: bool,
}

/// What file is to be drawn, and what is to be written of it.
#[derive(Clone, Copy)]
pub struct Drawn {
    /// How many edits it has, at most 262,140.
    pub count: u32,
    /// Where its draws start, below 2^31.
    pub start: u32,
    /// Whether its text is to be written, and not the summary of its mesh.
    pub text: bool,
    pub ghost few: { count ≤ most_edits },
    pub ghost small: { start < state_count },
}

/// What parts of a mesh are wanted.
#[derive(Clone, Copy)]
pub struct Wanted {
    /// The alpha at which they are taken, a squared radius in sixteenths, below 2^34.
    pub alpha: u64,
    /// Where it is above 0, they are taken at the least alpha at which there are at most so many.
    pub most: u32,
    /// The index of the part whose boundary alone is to be written.
    pub off: Option<u32>,
    pub ghost small: { alpha < 2 ^ 34 },
}

/// What the words of a run ask for.
#[derive(Clone, Copy)]
pub enum Task {
    /// The report of a file that is read.
    Report(Making, Asked),
    /// The least alphas of a file that is read.
    Step(Making),
    /// The solid parts of a file that is read.
    Part(Making, Wanted),
    /// The nearest points to the queries of a file that is read.
    Query(Making),
    /// The verdict on a mesh that is read.
    Check,
    /// A file that is drawn.
    Draw(Making, Drawn),
}

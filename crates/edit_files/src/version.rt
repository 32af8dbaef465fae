//! The versions of the form of edit files.

ghost use Rattle.std.specs.Prelude.{◌≡◌, ◌<◌, ◌^◌};
ghost use Rattle.edit_files.specs.Content.{alpha_of, row};
ghost use Rattle.edit_files.specs.Judging.{titled};

/// A version of the form, which the first line of a file tells. Each has all lines of those before it, but that from
/// the third on a radius counts another unit.
#[derive(Clone, Copy, Debug, PartialEq, Eq)]
pub enum Version {
    One,
    /// Edit lines may move points.
    Two,
    /// Radius lines count sixteenths.
    Three,
    /// There is a section of queries.
    Four,
}

/// What a version says of its files: its row of the table.
#[derive(Clone, Copy)]
pub struct Row {
    /// The number of the version.
    pub number: u64,
    /// The first line.
    pub title: &'static [u8],
    /// Whether edit lines may move points.
    pub moves: bool,
    /// The number that radii are below.
    pub radius_end: u64,
    /// How many sixteenths of a squared radius the number of a radius line counts.
    pub sixteenths: u64,
    /// Whether there is a section of queries.
    pub queries: bool,
}

impl Version {
    // Its row of the table.
    pub(crate) fn row(self) -> Row
        ensures number { result.number ≡ (row self).number }
        ensures title { result.title.now ≡ (row self).title }
        ensures moves { result.moves ≡ (row self).moves }
        ensures radius_end { result.radius_end ≡ (row self).radius_end }
        ensures sixteenths { result.sixteenths ≡ (row self).sixteenths }
        ensures queries { result.queries ≡ (row self).queries }
    {
        match self {
            Version::One => Row {
                number: 1,
                title: b"mesh3 1",
                moves: false,
                radius_end: 1 << 30,
                sixteenths: 16,
                queries: false,
            },
            Version::Two => Row {
                number: 2,
                title: b"mesh3 2",
                moves: true,
                radius_end: 1 << 30,
                sixteenths: 16,
                queries: false,
            },
            Version::Three => Row {
                number: 3,
                title: b"mesh3 3",
                moves: true,
                radius_end: 1 << 34,
                sixteenths: 1,
                queries: false,
            },
            Version::Four => Row {
                number: 4,
                title: b"mesh3 4",
                moves: true,
                radius_end: 1 << 34,
                sixteenths: 1,
                queries: true,
            },
        }
    }

    // The version that a first line tells.
    pub(crate) fn of_title(line: &[u8]) -> Option<Version>
        ensures { result ≡ titled line.now }
    {
        if line == Version::One.row().title {
            return Some(Version::One);
        }
        if line == Version::Two.row().title {
            return Some(Version::Two);
        }
        if line == Version::Three.row().title {
            return Some(Version::Three);
        }
        if line == Version::Four.row().title {
            return Some(Version::Four);
        }
        None
    }

    /// The alpha, a squared radius in sixteenths, that a radius of a file of this version means: 16 times the radius
    /// in the first two versions, and the radius itself from the third on. The radius is to be in the version's range.
    pub fn alpha(self, radius: u64) -> u64
        requires { radius < (row self).radius_end }
        ensures alpha { result ≡ alpha_of self radius }
        ensures bound { result < 2 ^ 34 }
    {
        self.row().sixteenths * radius
    }
}

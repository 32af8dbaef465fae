//! Reading an edit file, line by line.

ghost use Rattle.std.specs.Prelude.{◌≡◌, IfOk, MatchResult, Err, Result, if◌then◌else◌};
ghost use Rattle.std.specs.Str.{bytes_eq};
ghost use Rattle.text_readings.specs.Judging.{Gives, Steps, judge, judged_end};
ghost use Rattle.text_readings.specs.Readings.{lines_of};
ghost use Rattle.text_readings.specs.declared.fault.Fault.{Fault};
ghost use Rattle.text_readings.specs.declared.fault.ReadRefused.TheVariants.{Bad};
ghost use Rattle.text_readings.specs.declared.fault.Why.{Why};
ghost use Rattle.text_readings.specs.declared.fault.Why.TheVariants.{Section};
ghost use Rattle.edit_files.specs.declared.place.Due.TheVariants as places;
ghost use Rattle.edit_files.specs.declared.version.Version.{Version};
ghost use Rattle.edit_files.specs.declared.version.Version.TheVariants.{Four};
ghost use Rattle.edit_files.specs.Held.{content};
ghost use Rattle.edit_files.specs.Faults.{IsFault, is_word};
ghost use Rattle.edit_files.specs.Grammar.{IsFile, Reached, at_title, up_to};
ghost use Rattle.edit_files.specs.Judging.{after_line, file_judge, is_list_full, list_line, now_due, reached, step_at};
ghost use Rattle.edit_files.specs.Judging.{taken, whole, with_title, titled};

use crate::file::File;
use crate::line::{edit_of, radius_of};
use crate::place::{Due, Part, behind};
use crate::version::Version;
use std::alloc::Global;
use text_readings::{Fault, LineRefused, ReadRefused, Why, first_line, point_of, reads};

/// How many point and edit lines a file may have together.
pub const LINE_LIMIT: u64 = 262_144;

/// How many radius lines a file may have.
pub const RADIUS_LIMIT: u64 = 16;

/// How many query lines a file may have.
pub const QUERY_LIMIT: u64 = 65_536;

// A reader: what is due, and what it took so far.
#[derive(Drop)]
struct Reader {
    due: Due,
    file: File,
}

// Is the line one of the section words of this version?
fn is_section_word(line: &[u8], version: Version) -> bool
    ensures { result ≡ is_word version line.now }
{
    reads(line, b"points")
        || reads(line, b"edits")
        || reads(line, b"radii")
        || reads(line, b"end")
        || (version.row().queries && reads(line, b"queries"))
}

// A line of a list may be no section word, and the list may not be full.
fn admit(line: &[u8], version: Version, is_full: bool) -> Result<(), Why>
    ensures { (r : Result Reached Why) →
        MatchResult result (λ _. list_line version line.now is_full r ≡ r)
        (λ why. list_line version line.now is_full r ≡ Err why) }
{
    if is_section_word(line, version) {
        return Err(Why::Section);
    }
    if is_full {
        return Err(Why::TooMany);
    }
    Ok(())
}

impl File {
    // Are there as many lines in a list as there may be?
    fn is_full(&self, part: Part) -> bool
        ensures { (newest : Version) → result ≡ is_list_full (up_to newest) part (content self.now) }
    {
        match part {
            Part::Points | Part::Edits => LINE_LIMIT
                <= self.points.len() as u64 + self.edits.len() as u64,
            Part::Radii => RADIUS_LIMIT <= self.radii.len() as u64,
            Part::Queries => QUERY_LIMIT <= self.queries.len() as u64,
        }
    }

    // Takes a point.
    fn take_point(&mut self, line: &[u8]) -> Result<(), LineRefused>
        ensures { Steps result (content self.new) (taken Part.Points (content self.old) line.now) }
    {
        self.points.push(point_of(line)?)?;
        Ok(())
    }

    // Takes an edit.
    fn take_edit(&mut self, line: &[u8]) -> Result<(), LineRefused>
        ensures { Steps result (content self.new) (taken Part.Edits (content self.old) line.now) }
    {
        self.edits.push(edit_of(line, self.version)?)?;
        Ok(())
    }

    // Takes a radius.
    fn take_radius(&mut self, line: &[u8]) -> Result<(), LineRefused>
        ensures { Steps result (content self.new) (taken Part.Radii (content self.old) line.now) }
    {
        self.radii.push(radius_of(line, self.version)?)?;
        Ok(())
    }

    // Takes a query.
    fn take_query(&mut self, line: &[u8]) -> Result<(), LineRefused>
        ensures { Steps result (content self.new) (taken Part.Queries (content self.old) line.now) }
    {
        self.queries.push(point_of(line)?)?;
        Ok(())
    }

    // Takes a line of a list.
    fn take(&mut self, part: Part, line: &[u8]) -> Result<(), LineRefused>
        ensures { Steps result (content self.new) (taken part (content self.old) line.now) }
    {
        match part {
            Part::Points => self.take_point(line),
            Part::Edits => self.take_edit(line),
            Part::Radii => self.take_radius(line),
            Part::Queries => self.take_query(line),
        }
    }
}

impl Reader {
    fn new(alloc: Global) -> Reader
        ensures { reached result ≡ at_title }
    {
        let file = File {
            version: Version::One,
            points: Vec::new(alloc),
            edits: Vec::new(alloc),
            radii: Vec::new(alloc),
            queries: Vec::new(alloc),
        };
        Reader {
            due: Due::Title,
            file,
        }
    }

    // Takes the line that follows.
    fn take_line(&mut self, line: &[u8], newest: Version) -> Result<(), LineRefused>
        ensures { Steps result (reached self.new) (after_line (up_to newest) (reached self.old) line.now) }
    {
        match self.due {
            Due::Title => self.take_title(line, newest),
            Due::Heading => self.take_word(line, b"points", Due::Body(Part::Points)),
            Due::Body(part) => self.take_in_list(part, line),
            Due::Nothing => Err(LineRefused::Bad(Why::Section)),
        }
    }

    // Takes the first line, which tells the version.
    fn take_title(&mut self, line: &[u8], newest: Version) -> Result<(), LineRefused>
        ensures { Steps result (reached self.new) (with_title newest (content self.old.file) (titled line.now)) }
    {
        let Some(version) = Version::of_title(line) else {
            return Err(LineRefused::Bad(Why::Section));
        };
        if newest.row().number < version.row().number {
            return Err(LineRefused::Bad(Why::Section));
        }
        self.file.version = version;
        self.due = Due::Heading;
        Ok(())
    }

    // Takes a line that is to be this word, and goes on to what is due then.
    fn take_word(&mut self, line: &[u8], word: &[u8], next: Due) -> Result<(), LineRefused>
        ensures { Steps result (reached self.new)
            (if bytes_eq line.now word.now then now_due next (content self.old.file) else Err Section) }
    {
        if !reads(line, word) {
            return Err(LineRefused::Bad(Why::Section));
        }
        self.due = next;
        Ok(())
    }

    // Takes a line in a list: the word behind it, or a line of its own.
    fn take_in_list(&mut self, part: Part, line: &[u8]) -> Result<(), LineRefused>
        requires { self.old.due ≡ places.Body part }
        ensures { (newest : Version) → Steps result (reached self.new)
            (step_at (up_to newest) (places.Body part) (content self.old.file) line.now) }
    {
        let version = self.file.version;
        let (word, next) = behind(version, part);
        if reads(line, word) {
            self.due = next;
            return Ok(());
        }
        admit(line, version, self.file.is_full(part))?;
        self.file.take(part, line)
    }

    // The file, where its end was read; `line` is the number of the line that would follow.
    fn finish(self, line: u64) -> Result<File, ReadRefused>
        ensures { (newest : Version) → Gives whole result (judged_end (file_judge (up_to newest)) line (reached self)) }
    {
        match self.due {
            Due::Nothing => Ok(self.file),
            _ => Err(ReadRefused::Bad(Fault {
                line,
                why: Why::Truncated,
            })),
        }
    }
}

// Judges a text line by line.
fn judge(alloc: Global, bytes: &[u8], newest: Version) -> Result<File, ReadRefused>
    ensures { Gives whole result (judge (file_judge (up_to newest)) 1 at_title (lines_of bytes.now)) }
{
    let mut reader = Reader::new(alloc);
    let mut number = 1;
    let mut rest = bytes;
    while let Some((line, after)) = first_line(rest) {
        match reader.take_line(line, newest) {
            Ok(()) => {}
            Err(refused) => return Err(refused.of_line(number)),
        }
        number += 1;
        rest = after;
    }
    reader.finish(number)
}

/// The file that a text is, where its version is none after the newest that is to be taken: the first line of a later
/// version is bad, as one of no version is.
///
/// # Errors
/// Where it is none, its one fault; and where there is no memory for what it names, that.
pub fn read_file_up_to(alloc: Global, bytes: &[u8], newest: Version) -> Result<File, ReadRefused>
    ensures accepted { IfOk result (λ f. IsFile (up_to newest) bytes.now (content f)) }
    ensures fault { (fault : Fault) → result ≡ Err (Bad fault) → IsFault (up_to newest) bytes.now fault }
{
    judge(alloc, bytes, newest)
}

/// The file that a text is, of whatever version.
///
/// # Errors
/// Where it is none, its one fault; and where there is no memory for what it names, that.
pub fn read_file(alloc: Global, bytes: &[u8]) -> Result<File, ReadRefused>
    ensures accepted { IfOk result (λ f. IsFile (up_to Four) bytes.now (content f)) }
    ensures fault { (fault : Fault) → result ≡ Err (Bad fault) → IsFault (up_to Four) bytes.now fault }
{
    read_file_up_to(alloc, bytes, Version::Four)
}

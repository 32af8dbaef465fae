//! Laws of the histories that many workers make of a file. Each function does nothing, and its contract is a law.
//!
//! The definitions stand in `specs/`: the replies and the set that an anchored file has whatever the order, and the
//! lines that are dealt to workers.
#![tactic(auto)]

ghost use Rattle.plain_laws.specs.Laws.{AnchoredIsPlain, SomeFileIsAnchored, ThereByLast};
ghost use Rattle.plain_laws.specs.Running.{OneSegment, RunAlone, RunBehindAlone, RunBehindKeeps, RunKeeps};
ghost use Rattle.plain_laws.specs.Running.{SegmentsApart, SegmentsKeepLines};

/// Where no edit takes one of the opening four, or moves it, every legal history that keeps the file has the same
/// replies, line by line, and leaves the same points: those that the lines tell by themselves. Without moves these are
/// the points whose last line adds them.
pub fn anchored_is_plain()
    ensures plain { AnchoredIsPlain }
    ensures met { SomeFileIsAnchored }
    ensures last { ThereByLast }
{}

/// A line begins a new segment where it shares a point with an earlier line of the present one and either of the two
/// moves. The segments have all lines, in their order. In a segment a line that moves shares no point with another, and
/// no point stands in the lists of two workers. Lines that move no point are one segment.
pub fn lines_are_cut()
    ensures keeps { SegmentsKeepLines }
    ensures apart { SegmentsApart }
    ensures one { OneSegment }
{}

/// The opening four and what workers make of the lines dealt to them, segment after segment, keep the file; with one
/// worker they are the history of one thread.
pub fn run_keeps_file()
    ensures keeps { RunKeeps }
    ensures alone { RunAlone }
{}

/// The history of one thread of a file's points, and what workers make of the edit lines dealt to them, segment after
/// segment, keep the file; with one worker they are the history of one thread.
pub fn run_behind_points()
    ensures keeps { RunBehindKeeps }
    ensures alone { RunBehindAlone }
{}

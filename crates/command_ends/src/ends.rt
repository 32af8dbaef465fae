//! From what was made to the end of a run.

ghost use Rattle.std.specs.Prelude.{◌≡◌, ◌≤◌, [], Some, IfOk, IfErr};
ghost use Rattle.std.specs.Result.{ForOk};
ghost use Rattle.std.specs.Io.KnownBytes.{Appends, Keeps};
ghost use Rattle.byte_ends.specs.Ends.{AppendsFront, Rose};
ghost use Rattle.command_ends.specs.PutOut.{IsPutOut};
ghost use Rattle.command_pages.specs.Page.{IsFitToWrite, text_of_page};
ghost use Rattle.command_words.specs.Stops.{line_of_end, status_of_end};

use crate::outcome::Run;
use byte_ends::{Sink, write_all};
use command_pages::{Made, put_page};
use command_words::Stop;
use edit_history::Entry;
use std::alloc::Global;
use std::thread::Threads;

/// How a run ended.
#[derive(Drop)]
pub struct Ended {
    /// What it gives back.
    pub run: Run,
    /// Why its status is not 0, if it is not.
    pub stop: Option<Stop>,
}

// The end of a run by what stopped it, if anything did, and the history that it hands back.
fn close(stop: Option<Stop>, kept: Vec<Entry>) -> Ended
    ensures status { result.run.status ≡ status_of_end stop }
    ensures stop { result.stop ≡ stop }
    ensures kept { result.run.kept.items ≡ kept.items }
{
    let status = match &stop {
        Some(stop) => stop.told().0,
        None => 0,
    };
    Ended {
        run: Run { status, kept },
        stop,
    }
}

/// Writes what was made, and ends the run. Of a page without bytes nothing is written, so that no write can fail.
pub fn end<R: Threads + Sync, O: Sink>(
    rt: &R,
    alloc: Global,
    made: Result<Made, Stop>,
    out: &mut O,
) -> Ended
    requires { ForOk made IsFitToWrite }
    ensures status { result.run.status ≡ status_of_end result.stop }
    ensures made { IfOk made (λ made. IsPutOut (Rose (O.faults out.old) (O.faults out.new)) (O.holds out.old)
        (O.holds out.new)
        (text_of_page made.page) made.after made.kept.items result.stop result.run.kept.items) }
    ensures stop { IfErr made (λ stop. (result.stop ≡ Some stop) × (result.run.kept.items ≡ [])
        × Keeps (O.holds out.old) (O.holds out.new)) }
    ensures later { O.faults out.old ≤ O.faults out.new }
{
    match made {
        Ok(Made { kept, page, after }) => {
            if page.is_empty() {
                return close(after, kept);
            }
            match put_page(rt, alloc, page, out) {
                Ok(()) => close(after, kept),
                Err(Stop::WriteFault) => close(Some(Stop::WriteFault), kept),
                Err(stop) => close(Some(stop), Vec::new(alloc)),
            }
        }
        Err(stop) => close(Some(stop), Vec::new(alloc)),
    }
}

/// Writes the line of the end. A failed write changes nothing else.
pub fn tell<E: Sink>(err: &mut E, stop: &Option<Stop>)
    ensures front { AppendsFront (E.holds err.old) (E.holds err.new) (line_of_end stop.now) }
    ensures whole { (Rose (E.faults err.old) (E.faults err.new) → ⊥)
        → Appends (E.holds err.old) (E.holds err.new) (line_of_end stop.now) }
    ensures later { E.faults err.old ≤ E.faults err.new }
{
    let line = match stop {
        Some(stop) => stop.told().1,
        None => b"",
    };
    let _ = write_all(err, line);
}

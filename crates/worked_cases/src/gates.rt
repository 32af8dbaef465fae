//! Gates by which threads wait for each other.

use crate::telling::Answer;
use edit_gates::{Gate, Moment};
use std::sync::atomic::{AtomicBool, AtomicU64, Ordering};

// How often a flag is loaded before a thread gives up.
const LOADS: u64 = 400_000_000;

// Loads a flag until it is set, and answers whether it was.
pub(crate) fn awaits(flag: &AtomicBool) -> bool {
    for _ in 0..LOADS {
        if flag.load(Ordering::SeqCst) {
            return true;
        }
    }
    false
}

// Loads a number until it is at least so much, and answers whether it was.
pub(crate) fn reaches(number: &AtomicU64, wanted: u64) -> bool {
    for _ in 0..LOADS {
        if number.load(Ordering::SeqCst) >= wanted {
            return true;
        }
    }
    false
}

/// What two threads tell each other.
#[derive(Drop)]
pub(crate) struct Flags {
    pub(crate) here: AtomicBool,
    pub(crate) go: AtomicBool,
    pub(crate) seen: AtomicBool,
}

impl Flags {
    pub(crate) fn none() -> Flags {
        Flags {
            here: AtomicBool::new(false),
            go: AtomicBool::new(false),
            seen: AtomicBool::new(false),
        }
    }
}

/// Keeps a pass at a moment until it may go on.
#[derive(Clone, Copy)]
pub(crate) struct Keeper<'a> {
    pub(crate) flags: &'a Flags,
    pub(crate) moment: Moment,
}

impl<'a> Gate for Keeper<'a> {
    fn pass(&self, _who: u32, moment: Moment) {
        if moment == self.moment {
            self.flags.here.store(true, Ordering::SeqCst);
            if awaits(&self.flags.go) {
                self.flags.seen.store(true, Ordering::SeqCst);
            }
        }
    }
}

/// A gate at which two workers are to see each other at Ready. Each sets its own flag, and loads the other's.
#[derive(Drop)]
pub(crate) struct Meeting {
    zero: AtomicBool,
    one: AtomicBool,
    zero_saw: AtomicBool,
    one_saw: AtomicBool,
}

impl Meeting {
    pub(crate) fn new() -> Meeting {
        Meeting {
            zero: AtomicBool::new(false),
            one: AtomicBool::new(false),
            zero_saw: AtomicBool::new(false),
            one_saw: AtomicBool::new(false),
        }
    }

    // Which of the two workers saw the other.
    pub(crate) fn who_saw(&self) -> (bool, bool) {
        (
            self.zero_saw.load(Ordering::SeqCst),
            self.one_saw.load(Ordering::SeqCst),
        )
    }
}

impl Gate for Meeting {
    fn pass(&self, who: u32, moment: Moment) {
        if moment == Moment::Ready {
            let (mine, other, saw) = if who == 0 {
                (&self.zero, &self.one, &self.zero_saw)
            } else {
                (&self.one, &self.zero, &self.one_saw)
            };
            mine.store(true, Ordering::SeqCst);
            if awaits(other) {
                saw.store(true, Ordering::SeqCst);
            }
        }
    }
}

/// Lets writers make no more than four edits for each snapshot that was taken, and counts their edits. They wait before
/// they claim anything.
#[derive(Drop)]
pub(crate) struct Pace {
    pub(crate) made: AtomicU64,
    pub(crate) taken: AtomicU64,
}

// How many edits there may be for each snapshot.
const STEP: u64 = 4;

impl Pace {
    pub(crate) fn new() -> Pace {
        Pace {
            made: AtomicU64::new(0),
            taken: AtomicU64::new(0),
        }
    }
}

impl Gate for Pace {
    fn pass(&self, _who: u32, moment: Moment) {
        match moment {
            Moment::Start => {
                let made = self.made.load(Ordering::SeqCst);
                let _ = reaches(&self.taken, made / STEP);
            }
            Moment::Committed => {
                self.made.fetch_add(1, Ordering::SeqCst);
            }
            Moment::Ready | Moment::Done => {}
        }
    }
}

/// Notes the moments that it is told of: those of pass 0, and those of another one.
#[derive(Drop)]
pub(crate) struct Watcher {
    zero: AtomicU64,
    other: AtomicU64,
}

// A note has three bits a moment, the last one lowest, and this many bits at most.
const NOTED: u32 = 60;

impl Watcher {
    pub(crate) fn new() -> Watcher {
        Watcher {
            zero: AtomicU64::new(0),
            other: AtomicU64::new(0),
        }
    }

    // Puts down the moments of pass 0.
    pub(crate) fn put_zero(&self, told: &mut Answer) {
        put_moments(told, self.zero.load(Ordering::SeqCst));
    }

    // Puts down those of another pass.
    pub(crate) fn put_other(&self, told: &mut Answer) {
        put_moments(told, self.other.load(Ordering::SeqCst));
    }
}

impl Gate for Watcher {
    fn pass(&self, who: u32, moment: Moment) {
        let note = if who == 0 { &self.zero } else { &self.other };
        let code = match moment {
            Moment::Start => 1,
            Moment::Ready => 2,
            Moment::Committed => 3,
            Moment::Done => 4,
        };
        let noted = note.load(Ordering::SeqCst) % (1 << (NOTED - 3));
        note.store(noted * 8 + code, Ordering::SeqCst);
    }
}

// Puts down the moments of a note, the first one first.
fn put_moments(told: &mut Answer, noted: u64) {
    for place in (0..NOTED / 3).rev() {
        match (noted >> (3 * place)) % 8 {
            1 => told.put(" Start"),
            2 => told.put(" Ready"),
            3 => told.put(" Committed"),
            4 => told.put(" Done"),
            _ => {}
        }
    }
}

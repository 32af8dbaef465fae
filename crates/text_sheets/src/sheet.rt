//! A page on its way into a sink, which remembers whether the sink failed.

ghost use Rattle.text_sheets.specs.Sheets.{Closes, IsBlank, Puts};

use crate::page::Page;
use byte_ends::{Failed, Sink};

/// A sink, a page that waits for it, and whether it failed. From then on nothing is put, so that what puts a text piece
/// by piece need not ask after each.
#[derive(Drop)]
pub struct Sheet<'a, O> {
    out: &'a mut O,
    page: Page,
    failed: bool,
}

impl<'a, O: Sink> Sheet<'a, O> {
    /// A sheet on its way into a sink, on which nothing waits.
    pub fn new(out: &'a mut O) -> Sheet<'a, O>
        ensures { IsBlank out.entry result }
    {
        Sheet {
            out,
            page: Page::new(),
            failed: false,
        }
    }

    /// Puts a piece behind what waits, unless the sink failed before.
    pub fn put(&mut self, piece: &[u8])
        ensures { Puts O.holds O.faults self.old self.new piece.now }
    {
        if self.failed {
            return;
        }
        self.failed = self.page.put(self.out, piece).is_err();
    }

    /// Writes what waits, unless the sink failed before.
    ///
    /// # Errors
    ///
    /// `Failed` where the sink failed, now or before.
    pub fn close(&mut self) -> Result<(), Failed>
        ensures { Closes O.holds O.faults self.old self.new result }
    {
        if self.failed {
            return Err(Failed);
        }
        self.page.flush(self.out)
    }
}

//! A page of text on its way into a sink.

ghost use Rattle.std.specs.Prelude.{◌≡◌, ◌++◌, ◌+◌, ◌≤◌, [], length, OnOk, OnErr, IsTrue, ◌↔◌};
ghost use Rattle.std.specs.Io.KnownBytes.{Appends};
ghost use Rattle.byte_ends.specs.Ends.{AppendsFront, HasCause};
ghost use Rattle.text_sheets.specs.Pages.{Flows, FlowsInPart};

use byte_ends::{Failed, Sink, write_all};
use std::marker::Model;

/// How many bytes a page has.
const SIZE: usize = 4096;

/// Bytes that wait for a sink, at most 4,096. Contracts see them as a list.
#[derive(Drop)]
pub struct Page {
    bytes: [u8; 4096],
    used: usize,
}

impl Model for Page {
    ghost use Rattle.std.specs.Prelude.{List, ℕ, take, ◌≤◌};

    ghost Value = { List ℕ };

    ghost view = { λ p. take p.used p.bytes };

    ghost invariant = { λ p. p.used ≤ 4096 };
}

impl Page {
    /// A page on which nothing waits.
    pub fn new() -> Page
        ensures { result ≡ [] }
    {
        Page {
            bytes: [0; 4096],
            used: 0,
        }
    }

    // Whether a piece has room behind what waits.
    fn has_room(&self, piece: &[u8]) -> bool
        ensures { IsTrue result ↔ (length self.now + length piece.now ≤ 4096) }
    {
        piece.len() <= SIZE - self.used
    }

    // Puts a piece behind what waits.
    fn add(&mut self, piece: &[u8])
        requires { length self.old + length piece.now ≤ 4096 }
        ensures { self.new ≡ self.old ++ piece.now }
    {
        let end = self.used + piece.len();
        self.bytes[self.used..end].copy_from_slice(piece);
        self.used = end;
    }

    /// Writes what waits.
    ///
    /// # Errors
    ///
    /// `Failed` where the sink failed. Then it has taken a front of what waited.
    pub fn flush<O: Sink>(&mut self, out: &mut O) -> Result<(), Failed>
        ensures whole { OnOk result (Appends (O.holds out.old) (O.holds out.new) self.old) }
        ensures empty { OnOk result (self.new ≡ []) }
        ensures front { AppendsFront (O.holds out.old) (O.holds out.new) self.old }
        ensures cause { HasCause (O.faults out.old) (O.faults out.new) result }
    {
        write_all(out, &self.bytes[..self.used])?;
        self.used = 0;
        Ok(())
    }

    /// Puts a piece behind what waits. Where it has no room there, what waits is written first.
    ///
    /// # Errors
    ///
    /// `Failed` where the sink failed. Then it has taken a front of what waited and the piece.
    pub fn put<O: Sink>(&mut self, out: &mut O, piece: &[u8]) -> Result<(), Failed>
        ensures flows { OnOk result (Flows (O.holds out.old) (O.holds out.new) self.old self.new piece.now) }
        ensures front { OnErr result (FlowsInPart (O.holds out.old) (O.holds out.new) self.old piece.now) }
        ensures cause { HasCause (O.faults out.old) (O.faults out.new) result }
    {
        if self.has_room(piece) {
            self.add(piece);
            return Ok(());
        }
        self.flush(out)?;
        if self.has_room(piece) {
            self.add(piece);
            return Ok(());
        }
        write_all(out, piece)
    }
}

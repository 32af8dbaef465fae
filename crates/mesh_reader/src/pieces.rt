//! Reading the text of a mesh that comes in pieces.

ghost use Rattle.std.specs.Prelude.{◌≡◌, ◌++◌, ◌∷◌, [], List, ℕ, MatchOption, IfSome, IfOk, Err, true};
ghost use Rattle.text_readings.specs.declared.fault.Fault.{Fault as FaultParts};
ghost use Rattle.text_readings.specs.declared.fault.ReadRefused.TheVariants.{Bad};
ghost use Rattle.text_readings.specs.Readings.{lines_of};
ghost use Rattle.list_laws.specs.Lists.{IsAscending};
ghost use Rattle.mesh_reader.specs.Faults.{IsMeshFault};
ghost use Rattle.mesh_reader.specs.Grammar.{IsMeshText, MeshParts};
ghost use Rattle.mesh_reader.specs.Packed.{file_parts, parts};
ghost use Rattle.text_readings.specs.Judging.{Gives};
ghost use Rattle.mesh_reader.specs.Judging.{whole};
ghost use Rattle.mesh_reader.specs.Order.{IsInOrder};
ghost use Rattle.mesh_reader.specs.Pieces.{HasNoFeed, LeavesOf, comes_to};

use crate::counted::Counted;
use crate::mesh_file::{MeshFile, PackedMesh};
use crate::taken_bytes::TakenBytes;
use point_order::Point;
use std::alloc::{AllocError, Global};
use std::marker::Model;
use text_readings::{Fault, ReadRefused};

// The bytes up to the first line feed, and those behind it, where there is one.
fn whole_line(bytes: &[u8]) -> Option<(&[u8], &[u8])>
    ensures parts { MatchOption result (HasNoFeed bytes.now)
        (λ x. (bytes.now ≡ x.0.now ++ 10 ∷ x.1.now) × HasNoFeed x.0.now) }
{
    for (i, b) in bytes.iter().enumerate() {
        if *b == b'\n' {
            return Some((&bytes[..i], &bytes[i + 1..]));
        }
    }
    None
}

// What the lines came to so far.
#[derive(Drop)]
enum State {
    // They were right.
    Right(Counted),
    // One was wrong, and those behind it are not looked at.
    Wrong(Fault),
}

impl State {
    // Whether a line was wrong, so that what follows changes nothing.
    fn is_wrong(&self) -> bool
        ensures { result ≡ true → (lines others : List (List ℕ)) → comes_to self.now lines ≡ comes_to self.now others }
    {
        match self {
            State::Right(_) => false,
            State::Wrong(_) => true,
        }
    }

    // Takes the next line.
    fn take_line(self, line: &[u8]) -> Result<State, AllocError>
        ensures { IfOk result (λ next. (lines : List (List ℕ)) →
            comes_to next lines ≡ comes_to self (line.now ∷ lines)) }
    {
        match self {
            State::Right(counted) => match counted.take_line(line) {
                Ok(next) => Ok(State::Right(next)),
                Err(ReadRefused::Bad(fault)) => Ok(State::Wrong(fault)),
                Err(ReadRefused::Memory) => Err(AllocError),
            },
            State::Wrong(fault) => Ok(State::Wrong(fault)),
        }
    }

    // Takes each line that the bytes have whole, and gives back what is behind the last of them.
    fn take_lines(self, bytes: &[u8]) -> Result<(State, &[u8]), AllocError>
        ensures begun { IfOk result (λ next. HasNoFeed next.1.now) }
        ensures same { IfOk result (λ next. LeavesOf self bytes.now next.0 next.1.now) }
    {
        let mut state = self;
        let mut rest = bytes;
        while let Some((line, behind)) = whole_line(rest) {
            state = state.take_line(line)?;
            rest = behind;
        }
        Ok((state, rest))
    }

    // The mesh, where its end was read.
    fn finish(self) -> Result<PackedMesh, ReadRefused>
        ensures { Gives whole result (comes_to self []) }
    {
        match self {
            State::Right(counted) => counted.finish(),
            State::Wrong(fault) => Err(ReadRefused::Bad(fault)),
        }
    }
}

/// Reads the text of a mesh that comes in pieces, however it is cut. Contracts see the bytes that it has taken.
///
/// It keeps what the text names and the line that is begun, so that it takes memory in proportion to these and not to
/// the text; behind a wrong line it keeps nothing more.
#[derive(Drop)]
pub struct MeshReader {
    state: State,
    // The bytes behind the last line feed.
    begun: Vec<u8>,
    taken: TakenBytes,
}

impl Model for MeshReader {
    ghost use Rattle.std.specs.Prelude.{List, ℕ};

    ghost Value = { List ℕ };

    ghost use Rattle.mesh_reader.specs.Pieces.{HasTaken};

    ghost view = { λ r. r.taken.bytes };

    ghost invariant = { λ r. HasTaken r.state r.begun.items r.taken.bytes };
}

impl MeshReader {
    /// A reader that has taken nothing.
    pub fn new(alloc: Global) -> MeshReader
        ensures { result ≡ [] }
    {
        MeshReader {
            state: State::Right(Counted::new(alloc)),
            begun: Vec::new(alloc),
            taken: TakenBytes::nothing(),
        }
    }

    /// The points, once they are read and cells are due: those of each mesh whose text begins with the bytes that were
    /// taken (`those`). That they are given as soon as they are known, no clause says.
    pub fn points(&self) -> Option<&[Point]>
        ensures ascending { IfSome result (λ points. IsAscending points.now) }
        ensures those { IfSome result (λ points. (more : List ℕ) (mesh : MeshParts) →
            IsMeshText (self.now ++ more) mesh → mesh.points ≡ points.now) }
    {
        match &self.state {
            State::Right(counted) => counted.reader.points(),
            State::Wrong(_) => None,
        }
    }

    /// Takes the piece that follows. Behind a wrong line the pieces are taken and not looked at.
    ///
    /// # Errors
    /// `AllocError` where there is no memory for what it names.
    pub fn take(self, piece: &[u8]) -> Result<MeshReader, AllocError>
        ensures { IfOk result (λ reader. reader ≡ self ++ piece.now) }
    {
        let MeshReader {
            state,
            mut begun,
            taken,
        } = self;
        let taken = taken.and(piece);
        if state.is_wrong() {
            begun.clear();
            return Ok(MeshReader {
                state,
                begun,
                taken,
            });
        }
        let Some((line, behind)) = whole_line(piece) else {
            begun.extend_from_slice(piece)?;
            return Ok(MeshReader {
                state,
                begun,
                taken,
            });
        };
        begun.extend_from_slice(line)?;
        let (state, rest) = state.take_line(&begun)?.take_lines(behind)?;
        begun.clear();
        begun.extend_from_slice(rest)?;
        Ok(MeshReader {
            state,
            begun,
            taken,
        })
    }

    /// The mesh that the bytes are of, as `read_mesh` tells it.
    ///
    /// # Errors
    /// Where they are of none, their one fault; and want of memory.
    pub fn finish(self) -> Result<PackedMesh, ReadRefused>
        ensures accepted { IfOk result (λ mesh. IsMeshText self (parts mesh)) }
        ensures order { IfOk result (λ mesh. IsInOrder (parts mesh)) }
        ensures fault { (fault : FaultParts) → result ≡ Err (Bad fault) → IsMeshFault self fault }
    {
        let MeshReader {
            state,
            begun,
            taken: _,
        } = self;
        if begun.is_empty() {
            return state.finish();
        }
        match state.take_line(&begun) {
            Ok(ended) => ended.finish(),
            Err(_) => Err(ReadRefused::Memory),
        }
    }
}

/// The mesh that a text is of: that of a report without shapes and without an order block. Its points ascend, and its
/// cells and triples stand in order, each once, with points of these (`order`), as the check of a mesh asks for.
///
/// It takes memory in proportion to what the text names.
///
/// # Errors
/// Where it is of none, its one fault; and where there is no memory for what it names, that.
pub fn read_mesh(alloc: Global, bytes: &[u8]) -> Result<MeshFile, ReadRefused>
    ensures accepted { IfOk result (λ mesh. IsMeshText bytes.now (file_parts mesh)) }
    ensures order { IfOk result (λ mesh. IsInOrder (file_parts mesh)) }
    ensures fault { (fault : FaultParts) → result ≡ Err (Bad fault) → IsMeshFault bytes.now fault }
{
    let Ok(reader) = MeshReader::new(alloc).take(bytes) else {
        return Err(ReadRefused::Memory);
    };
    let mesh = match reader.finish() {
        Ok(mesh) => mesh,
        Err(why) => return Err(why),
    };
    match mesh.unpacked(alloc) {
        Ok(file) => Ok(file),
        Err(_) => Err(ReadRefused::Memory),
    }
}

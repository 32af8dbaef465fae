//! The command `check`: from the bytes of a source to the verdict on the mesh that they are of.

ghost use Rattle.std.specs.Prelude.{◌≡◌, ◌≤◌, ◌++◌, [], List, ℕ, IfSome, IfOk, IfErr, Err, IsOk, if◌then◌else◌};
ghost use Rattle.std.specs.Io.KnownBytes.{IsAtEnd};
ghost use Rattle.byte_ends.specs.Ends.{Rose};
ghost use Rattle.text_readings.specs.declared.fault.Fault.{Fault as FaultParts};
ghost use Rattle.text_readings.specs.declared.fault.ReadRefused.TheVariants.{Bad};
ghost use Rattle.mesh_reader.specs.Faults.{IsMeshFault};
ghost use Rattle.mesh_reader.specs.Grammar.{IsMeshText};
ghost use Rattle.mesh_reader.specs.Packed.{parts};
ghost use Rattle.mesh_reader.specs.Order.{IsInOrder};
ghost use Rattle.command_pages.specs.Checked.{IsChecked, IsJudged, IsUnchecked, TellsVerdict};
ghost use Rattle.command_pages.specs.Reading.{HasTakenAll, IsMeshOf};
ghost use Rattle.command_pages.specs.Page.{IsFitToWrite, text_of_page};
ghost use Rattle.command_pages.specs.Run.{ReadsTo, mesh_limit};
ghost use Rattle.command_words.specs.Stops.{IsLate, status_of_end, status_of_made};

use crate::made::{Made, Page};
use crate::telling::fault_line;
use byte_ends::{Reached, Source, read_to_limit};
use command_words::Stop;
use mesh_check::{Made as Complex, made_of, tell};
use mesh_reader::{MeshReader, PackedMesh};
use std::alloc::{AllocError, Global};
use std::marker::Model;
use text_readings::ReadRefused;

// One more byte than the text of a mesh may have.
const TOO_MANY: usize = 1_073_741_825;

// How many bytes are read at once.
const PIECE: usize = 65_536;

// The complex of the points that a text names.
#[derive(Drop)]
enum Early {
    // The points are not read.
    Due,
    // It was made, where it can be.
    Made(Option<Complex>),
}

// A reader, and the complex of the points that it has read: the net in which it is made is gone before the cells come.
// Contracts see it as the reader, by the bytes that it has taken.
#[derive(Drop)]
struct Watched {
    reader: MeshReader,
    early: Early,
}

impl Model for Watched {
    ghost use Rattle.std.specs.Prelude.{List, ℕ};

    ghost Value = { List ℕ };

    ghost view = { λ w. w.reader };
}

// A mesh, and the complex that was made of its points. Contracts see it as the mesh.
#[derive(Drop)]
struct Read {
    mesh: PackedMesh,
    made: Option<Complex>,
}

impl Model for Read {
    ghost use Rattle.mesh_reader.specs.declared.mesh_file.PackedMesh.{PackedMesh};

    ghost Value = { PackedMesh };

    ghost view = { λ r. r.mesh };
}

// The complex, once the points are read.
fn early_of(alloc: Global, early: Early, reader: &MeshReader) -> Result<Early, AllocError> {
    match early {
        Early::Due => match reader.points() {
            Some(points) => Ok(Early::Made(made_of(alloc, points)?)),
            None => Ok(Early::Due),
        },
        Early::Made(made) => Ok(Early::Made(made)),
    }
}

// The complex, where it was made.
fn complex_in(early: Early) -> Option<Complex> {
    match early {
        Early::Due => None,
        Early::Made(made) => made,
    }
}

impl Watched {
    // A reader that has taken nothing.
    fn new(alloc: Global) -> Watched
        ensures { result ≡ [] }
    {
        Watched {
            reader: MeshReader::new(alloc),
            early: Early::Due,
        }
    }

    // Takes the piece that follows.
    fn take(self, alloc: Global, piece: &[u8]) -> Result<Watched, AllocError>
        ensures { IfOk result (λ reader. reader ≡ self ++ piece.now) }
    {
        let Watched { reader, early } = self;
        let reader = reader.take(piece)?;
        let early = early_of(alloc, early, &reader)?;
        Ok(Watched { reader, early })
    }

    // The mesh that the bytes are of, as a reader tells it.
    fn finish(self) -> Result<Read, ReadRefused>
        ensures accepted { IfOk result (λ read. IsMeshText self (parts read)) }
        ensures order { IfOk result (λ read. IsInOrder (parts read)) }
        ensures fault { (fault : FaultParts) → result ≡ Err (Bad fault) → IsMeshFault self fault }
    {
        let Watched { reader, early } = self;
        let mesh = reader.finish()?;
        let made = complex_in(early);
        Ok(Read { mesh, made })
    }
}

// Reads the text of a mesh to its end, piece by piece.
fn read_pieces<S: Source>(alloc: Global, src: &mut S) -> Result<Watched, Stop>
    ensures taken { IfOk result (HasTakenAll (S.left src.old)) }
    ensures stop { IfErr result (IsUnchecked (S.left src.old) (Rose (S.faults src.old) (S.faults src.new))) }
    ensures reads { ReadsTo mesh_limit (S.left src.old) (S.left src.new) (status_of_made result) }
    ensures to_its_end { IsOk result → IsAtEnd (S.left src.new) }
    ensures later { S.faults src.old ≤ S.faults src.new }
{
    let mut reader = Watched::new(alloc);
    let mut piece = Vec::new(alloc);
    let mut room = TOO_MANY;
    while room > 0 {
        let most = room.min(PIECE);
        piece.clear();
        let reached = read_to_limit(src, most, &mut piece)?;
        reader = reader.take(alloc, &piece)?;
        match reached {
            Reached::End => return Ok(reader),
            Reached::Limit => room -= most,
        }
    }
    Err(Stop::TooLong)
}

// Reads a mesh from the source.
fn mesh_of_text<S: Source>(alloc: Global, src: &mut S) -> Result<Read, Stop>
    ensures mesh { IfOk result (λ mesh. IsMeshOf (S.left src.old) (parts mesh)) }
    ensures stop { IfErr result (IsUnchecked (S.left src.old) (Rose (S.faults src.old) (S.faults src.new))) }
    ensures reads { ReadsTo mesh_limit (S.left src.old) (S.left src.new) (status_of_made result) }
    ensures to_its_end { IsOk result → IsAtEnd (S.left src.new) }
    ensures later { S.faults src.old ≤ S.faults src.new }
{
    let reader = read_pieces(alloc, src)?;
    match reader.finish() {
        Ok(mesh) => Ok(mesh),
        Err(ReadRefused::Memory) => Err(Stop::Memory),
        Err(ReadRefused::Bad(fault)) => Err(Stop::BadLine(fault_line(alloc, fault)?)),
    }
}

// How a run ends that has told of a mesh.
fn end_of(good: bool) -> Option<Stop>
    ensures status { status_of_end result ≡ (if good then 0 else 10) }
    ensures late { IsLate result }
{
    if good { None } else { Some(Stop::BadMesh) }
}

// The verdict on a mesh, as it is told.
fn judge(alloc: Global, complex: Option<Complex>, mesh: &PackedMesh) -> Result<Made, AllocError>
    requires { IsInOrder (parts mesh.now) }
    ensures judged { IfOk result (λ made. IsJudged (parts mesh.now) (status_of_end made.after)
        (text_of_page made.page)) }
    ensures no_history { IfOk result (λ made. made.kept.items ≡ []) }
    ensures sound { IfOk result IsFitToWrite }
{
    let found = tell(alloc, complex, &mesh.points, &mesh.cells, &mesh.hull)?;
    let after = end_of(found.good);
    Ok(Made {
        kept: Vec::new(alloc),
        page: Page::Text(found.text),
        after,
    })
}

// The same of one that was read with the complex of its points.
fn judge_read(alloc: Global, read: Read) -> Result<Made, AllocError>
    requires { IsInOrder (parts read) }
    ensures judged { IfOk result (λ made. IsJudged (parts read) (status_of_end made.after)
        (text_of_page made.page)) }
    ensures no_history { IfOk result (λ made. made.kept.items ≡ []) }
    ensures sound { IfOk result IsFitToWrite }
{
    let Read { mesh, made } = read;
    judge(alloc, made, &mesh)
}

/// Reads the text of a mesh from the source, and judges whether it is the complex of its points. Where it is not, the
/// run ends with that.
///
/// # Errors
///
/// `ReadFault`, `TooLong`, `BadLine` and `Memory`.
#[inline(never)]
pub fn check_source<S: Source>(alloc: Global, src: &mut S) -> Result<Made, Stop>
    ensures made { IfOk result (λ made.
        IfSome (S.left src.old) (IsChecked (status_of_end made.after) (text_of_page made.page))) }
    ensures told { IfOk result (λ made. TellsVerdict (status_of_end made.after)) }
    ensures no_history { IfOk result (λ made. made.kept.items ≡ []) }
    ensures sound { IfOk result IsFitToWrite }
    ensures stop { IfErr result (IsUnchecked (S.left src.old) (Rose (S.faults src.old) (S.faults src.new))) }
    ensures reads { ReadsTo mesh_limit (S.left src.old) (S.left src.new) (status_of_made result) }
    ensures to_its_end { IsOk result → IsAtEnd (S.left src.new) }
    ensures later { S.faults src.old ≤ S.faults src.new }
{
    let mesh = mesh_of_text(alloc, src)?;
    Ok(judge_read(alloc, mesh)?)
}

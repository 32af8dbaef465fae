//! A reader that counts its lines.

ghost use Rattle.std.specs.Prelude.{◌≡◌, ◌+◌, ◌≤◌, ◌∷◌, [], List, ℕ, IfOk, Err, true};
ghost use Rattle.text_readings.specs.declared.fault.Fault.{Fault as FaultParts};
ghost use Rattle.text_readings.specs.declared.fault.ReadRefused.TheVariants.{Bad};
ghost use Rattle.mesh_reader.specs.Grammar.{at_title};
ghost use Rattle.text_readings.specs.Judging.{Gives, judge};
ghost use Rattle.mesh_reader.specs.Judging.{ascends, mesh_judge, reached, whole};
ghost use Rattle.mesh_reader.specs.LinesLeft.{line_bound, most_left};

use crate::mesh_file::PackedMesh;
use crate::reader::Reader;
use std::alloc::Global;
use text_readings::ReadRefused;

/// A reader whose lines were right so far.
#[derive(Drop)]
pub(crate) struct Counted {
    pub(crate) reader: Reader,
    /// The number of the line that is due, from 1.
    pub(crate) number: u64,
    ghost few: { number + most_left reader.due ≤ line_bound },
    ghost ascending: { ascends (reached reader).taken.points ≡ true },
}

impl Counted {
    pub(crate) fn new(alloc: Global) -> Counted
        ensures number { result.number ≡ 1 }
        ensures reader { reached result.reader ≡ at_title }
    {
        Counted {
            reader: Reader::new(alloc),
            number: 1,
        }
    }

    // Takes the line that is due.
    pub(crate) fn take_line(self, line: &[u8]) -> Result<Counted, ReadRefused>
        ensures right { IfOk result (λ next. (lines : List (List ℕ)) →
            judge mesh_judge next.number (reached next.reader) lines
            ≡ judge mesh_judge self.number (reached self.reader) (line.now ∷ lines)) }
        ensures wrong { (fault : FaultParts) → result ≡ Err (Bad fault) → (lines : List (List ℕ)) →
            judge mesh_judge self.number (reached self.reader) (line.now ∷ lines) ≡ Err fault }
    {
        let Counted { mut reader, number } = self;
        match reader.take_line(line) {
            Ok(()) => Ok(Counted {
                reader,
                number: number + 1,
            }),
            Err(refused) => Err(refused.of_line(number)),
        }
    }

    // The mesh, where its end was read.
    pub(crate) fn finish(self) -> Result<PackedMesh, ReadRefused>
        ensures { Gives whole result (judge mesh_judge self.number (reached self.reader) []) }
    {
        let Counted { reader, number } = self;
        reader.finish(number)
    }
}

//! The least alphas of the faces above the pairs, of which those of the pairs are made.

use face_list::Faces;

/// The least alphas at which the cells of a complex are Full and within alpha, and at which its triples are admitted.
#[derive(Clone, Copy)]
pub struct HigherAlphas<'a, 'b> {
    pub faces: &'a Faces<'b>,
    pub cells: &'a [u64],
    pub triples: &'a [u64],
    /// Where the facets of each cell may stand among the triples.
    pub places: &'a [[u32; 4]],
}

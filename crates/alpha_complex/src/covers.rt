//! The least alphas at which the triples around a pair are admitted.

ghost use Rattle.std.specs.Prelude.{◌≡◌, ◌<◌, All, IsTrue, length, slice_index_or};
ghost use Rattle.std.specs.List.{list_any};
ghost use Rattle.std.specs.Ordering.{nat_cmp};
ghost use Rattle.std.specs.Cmp.Lexicographic.{slice_cmp};
ghost use Rattle.std.specs.declared.cmp.Ordering.TheVariants.{Equal};
ghost use Rattle.face_list.specs.Tables.{cell_at, cells_numbered};
ghost use Rattle.alpha_complex.specs.Admitted.{contains as contains_all};
ghost use Rattle.alpha_complex.specs.Judged.{covers, is_listed, is_listed_around, admitted_triples};
ghost use Rattle.alpha_complex.specs.Leasts.{AreHigher, IsLeastOf};

use crate::higher::HigherAlphas;
use crate::owns::{BEYOND, is_one_of, number_at};
use crate::places::places_at;
use point_order::{Facet, Pair, Tri};
use std::cmp::Ordering;

// Whether the triple has both points of the pair.
fn contains(tri: &Tri, pair: &Pair) -> bool
    ensures { result ≡ contains_all tri.now pair.now }
{
    let (a, b) = pair.corners();
    is_one_of(tri.points(), a) && is_one_of(tri.points(), b)
}

// Whether the triple stands at a place.
fn is_at(triples: &[Tri], place: usize, tri: &Tri) -> bool
    ensures inside { IsTrue result → place < length triples.now }
    ensures tie { IsTrue result → slice_cmp nat_cmp (slice_index_or triples.now place tri.now) tri.now ≡ Equal }
{
    place < triples.len() && matches!(triples[place].cmp(tri), Ordering::Equal)
}

// The least alpha at which a triple that is listed is admitted, by a search.
fn searched_least(higher: &HigherAlphas, tri: &Tri) -> u64
    requires higher { AreHigher higher.now }
    ensures { IsLeastOf (λ alpha. is_listed (admitted_triples alpha higher.now.faces.now.triples) tri.now) result }
{
    match higher.faces.triples().binary_search(tri) {
        Ok(index) => number_at(higher.triples, index),
        Err(_) => BEYOND,
    }
}

// The same, by a look at the place where the triple may stand.
fn listed_least(higher: &HigherAlphas, tri: &Tri, place: usize) -> u64
    requires higher { AreHigher higher.now }
    ensures { IsLeastOf (λ alpha. is_listed (admitted_triples alpha higher.now.faces.now.triples) tri.now) result }
{
    if is_at(higher.faces.triples(), place, tri) {
        number_at(higher.triples, place)
    } else {
        searched_least(higher, tri)
    }
}

// That of a facet, where it contains the pair. It may stand at the place.
fn facet_least(higher: &HigherAlphas, pair: &Pair, facet: &Facet, place: u32) -> u64
    requires higher { AreHigher higher.now }
    ensures { IsLeastOf (λ alpha. is_listed_around (admitted_triples alpha higher.now.faces.now.triples) pair.now
        facet.now) result }
{
    match facet {
        Facet::Three(tri) => {
            if contains(tri, pair) {
                listed_least(higher, tri, place as usize)
            } else {
                BEYOND
            }
        }
        Facet::Two(_) => BEYOND,
    }
}

// The least of those of the facets of the cell of a number.
fn cell_cover_least(higher: &HigherAlphas, pair: &Pair, number: u32) -> u64
    requires higher { AreHigher higher.now }
    requires number { number < length higher.now.faces.now.cells }
    ensures { IsLeastOf (λ alpha. covers (admitted_triples alpha higher.now.faces.now.triples) pair.now
        (cell_at higher.now.faces.now.cells number)) result }
{
    let facets = higher.faces.cells()[number as usize].facets();
    let [a, b, c, d] = places_at(higher.places, number as usize);
    let first = facet_least(higher, pair, &facets[0], a);
    let second = facet_least(higher, pair, &facets[1], b);
    let third = facet_least(higher, pair, &facets[2], c);
    let fourth = facet_least(higher, pair, &facets[3], d);
    first.min(second.min(third.min(fourth)))
}

/// The least alpha at which some triple that contains the pair and is a facet of one of the cells of some numbers is
/// admitted.
pub(crate) fn cover_least(higher: &HigherAlphas, pair: &Pair, around: &[u32]) -> u64
    requires higher { AreHigher higher.now }
    requires numbers { All (λ n. n < length higher.now.faces.now.cells) around.now }
    ensures { IsLeastOf (λ alpha. list_any (covers (admitted_triples alpha higher.now.faces.now.triples) pair.now)
        (cells_numbered higher.now.faces.now.cells around.now)) result }
{
    let mut least = BEYOND;
    for number in around {
        least = least.min(cell_cover_least(higher, pair, *number));
    }
    least
}

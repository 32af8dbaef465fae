//! The links between cells that share a triple, in the order of the alphas at which both are admitted.

ghost use Rattle.std.specs.Prelude.{◌≡◌, ◌∷◌, ◌<◌, [], All, length, IfOk, OnOk};
ghost use Rattle.solid_parts.specs.Groups.{label_at};
ghost use Rattle.solid_parts.specs.Links.{AreLinksBelow, AreLinked, HasLinks, KeepsLinks, Rise, link_between};

use crate::labels::around;
use crate::least::greater;
use face_list::Faces;
use std::alloc::{AllocError, Global};

/// Two cells that share a triple.
#[derive(Clone, Copy)]
pub struct Link {
    /// The least alpha at which both are admitted.
    pub alpha: u64,
    /// The lesser of their numbers.
    pub one: u32,
    /// The greater.
    pub other: u32,
}

// The least alpha at which the cell of a number is admitted.
fn least_at(leasts: &[u64], number: u32) -> u64
    requires { number < length leasts.now }
    ensures { result ≡ label_at leasts.now number }
{
    leasts[number as usize]
}

// The link between two cells.
fn between(leasts: &[u64], one: u32, other: u32) -> Link
    requires one { one < length leasts.now }
    requires other { other < length leasts.now }
    ensures { result ≡ link_between leasts.now one other }
{
    let alpha = greater(least_at(leasts, one), least_at(leasts, other));
    Link { alpha, one, other }
}

// Puts the links between a cell and those of greater numbers.
fn put_links_of(
    links: &mut Vec<Link>,
    leasts: &[u64],
    one: u32,
    others: &[u32],
) -> Result<(), AllocError>
    requires one { one < length leasts.now }
    requires others { All (λ n. n < length leasts.now) others.now }
    requires below { AreLinksBelow (length leasts.now) links.old.items }
    ensures keeps { OnOk result (KeepsLinks links.old.items links.new.items) }
    ensures has { OnOk result (HasLinks leasts.now (one ∷ []) others.now links.new.items) }
    ensures below { OnOk result (AreLinksBelow (length leasts.now) links.new.items) }
{
    for other in others {
        if one < *other {
            links.push(between(leasts, one, *other))?;
        }
    }
    Ok(())
}

// Puts the links between the cells around a triple.
fn put_links_around(links: &mut Vec<Link>, leasts: &[u64], around: &[u32]) -> Result<(), AllocError>
    requires around { All (λ n. n < length leasts.now) around.now }
    requires below { AreLinksBelow (length leasts.now) links.old.items }
    ensures keeps { OnOk result (KeepsLinks links.old.items links.new.items) }
    ensures has { OnOk result (HasLinks leasts.now around.now around.now links.new.items) }
    ensures below { OnOk result (AreLinksBelow (length leasts.now) links.new.items) }
{
    for one in around {
        put_links_of(links, leasts, *one, around)?;
    }
    Ok(())
}

// The links between the cells around all triples.
fn all_links(alloc: Global, faces: &Faces, leasts: &[u64]) -> Result<Vec<Link>, AllocError>
    requires { length leasts.now ≡ length faces.now.cells }
    ensures linked { IfOk result (λ links. AreLinked faces.now leasts.now (length faces.now.triples) links.items) }
    ensures below { IfOk result (λ links. AreLinksBelow (length leasts.now) links.items) }
{
    let mut links = Vec::new(alloc);
    for index in 0..faces.triples().len() {
        put_links_around(&mut links, leasts, around(faces, index))?;
    }
    Ok(links)
}

/// The links between the cells around all triples, in the order of their alphas.
///
/// # Errors
/// Want of memory.
pub fn ordered_links(alloc: Global, faces: &Faces, leasts: &[u64]) -> Result<Vec<Link>, AllocError>
    requires { length leasts.now ≡ length faces.now.cells }
    ensures linked { IfOk result (λ links. AreLinked faces.now leasts.now (length faces.now.triples) links.items) }
    ensures below { IfOk result (λ links. AreLinksBelow (length leasts.now) links.items) }
    ensures rise { IfOk result (λ links. Rise links.items) }
{
    let mut links = all_links(alloc, faces, leasts)?;
    links.sort_unstable_by_key(|link| link.alpha);
    Ok(links)
}

//! Cells joined link by link, up to an alpha.

ghost use Rattle.std.specs.Prelude.{◌≡◌, ◌≤◌, ℕ, List, length};
ghost use Rattle.std.specs.List.Sorted.{IsNonDecreasingBy};
ghost use Rattle.solid_parts.specs.Groups.{LeadDown, LeadTo};
ghost use Rattle.solid_parts.specs.Links.{AreLinksBelow, ClimbsTo, IsClimbed, IsExhausted, IsBounded, Rise};
ghost use Rattle.solid_parts.specs.Links.{count_to as count_of};

use crate::groups::merge;
use crate::links::Link;

/// How far links were taken.
#[derive(Clone, Copy)]
pub struct Climb {
    /// The index of the first link that is left.
    pub next: usize,
    /// How many of those that were taken made one group of two.
    pub merges: usize,
}

/// Joins the cells of the links that are left whose alpha is at most a number.
pub fn climb_to(leads: &mut [u32], links: &[Link], climb: Climb, alpha: u64) -> Climb
    requires within { IsBounded links.now climb }
    requires below { AreLinksBelow (length leads.old) links.now }
    requires rise { Rise links.now }
    requires down { LeadDown leads.old }
    ensures within { IsBounded links.now result }
    ensures down { LeadDown leads.new }
    ensures climbs { (labels : List ℕ) → LeadTo leads.old labels → IsClimbed links.now climb labels →
        ClimbsTo links.now result leads.new }
    ensures past { IsExhausted links.now result alpha }
{
    let mut now = climb;
    while now.next < links.len() && links[now.next].alpha <= alpha {
        let link = links[now.next];
        if merge(leads, link.one, link.other) {
            now.merges += 1;
        }
        now.next += 1;
    }
    now
}

/// How many of some numbers, in order, are at most one.
pub fn count_to(numbers: &[u64], alpha: u64) -> usize
    requires { IsNonDecreasingBy (λ n. n) numbers.now }
    ensures { result ≡ count_of numbers.now alpha }
{
    numbers.partition_point(|n| *n <= alpha)
}

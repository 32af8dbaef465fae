//! Numbers in groups, which are joined one after another.
//!
//! Each number leads to itself or to a lesser one of its group, so that each way down ends at the least, the label of
//! the group (Tarjan's union by find). Ways are made shorter as they are gone.

ghost use Rattle.std.specs.Prelude.{◌≡◌, ◌<◌, ℕ, All, List, false, length, slice_index_or, slice_set};
ghost use Rattle.solid_parts.specs.Groups.{AreAllJoined, IsMerged, LeadDown, LeadTo, label_at, twice};

// The number to which one leads.
fn next_of(leads: &[u32], number: u32) -> u32
    requires { number < length leads.now }
    ensures { result ≡ label_at leads.now number }
{
    leads[number as usize]
}

// Lets the number of a place lead as far as that to which it leads. Where it leads now.
fn shorten(leads: &mut [u32], place: usize) -> u32
    requires place { place < length leads.old }
    requires down { LeadDown leads.old }
    ensures result { result ≡ twice leads.old place }
    ensures leads { leads.new ≡ slice_set leads.old place (twice leads.old place) }
{
    let further = next_of(leads, leads[place]);
    leads[place] = further;
    further
}

// The label of a number.
fn find(leads: &mut [u32], number: u32) -> u32
    requires number { number < length leads.old }
    requires down { LeadDown leads.old }
    ensures down { LeadDown leads.new }
    ensures within { result < length leads.new }
    ensures kept { (labels : List ℕ) → LeadTo leads.old labels → LeadTo leads.new labels }
    ensures label { (labels : List ℕ) → LeadTo leads.old labels → result ≡ label_at labels number }
    ensures least { (labels : List ℕ) → LeadTo leads.old labels → label_at labels result ≡ result }
{
    let mut at = number;
    let mut next = shorten(leads, at as usize);
    while next != at {
        at = next;
        next = shorten(leads, at as usize);
    }
    at
}

/// Makes the groups of two numbers one. Whether they were apart.
pub fn merge(leads: &mut [u32], i: u32, j: u32) -> bool
    requires i { i < length leads.old }
    requires j { j < length leads.old }
    requires down { LeadDown leads.old }
    ensures down { LeadDown leads.new }
    ensures merged { (labels : List ℕ) → LeadTo leads.old labels → IsMerged i j labels result leads.new }
{
    let a = find(leads, i);
    let b = find(leads, j);
    if a < b {
        leads[b as usize] = a;
    } else {
        leads[a as usize] = b;
    }
    a != b
}

/// Whether a number is marked.
pub fn is_marked(marks: &[bool], number: u32) -> bool
    requires { number < length marks.now }
    ensures { result ≡ slice_index_or marks.now number false }
{
    marks[number as usize]
}

/// Makes the groups of the marked numbers of a list one.
pub fn join_all(leads: &mut [u32], marks: &[bool], numbers: &[u32])
    requires marks { length marks.now ≡ length leads.old }
    requires numbers { All (λ n. n < length leads.old) numbers.now }
    requires down { LeadDown leads.old }
    ensures down { LeadDown leads.new }
    ensures joined { (labels : List ℕ) → LeadTo leads.old labels →
        AreAllJoined marks.now numbers.now labels leads.new }
{
    let mut first = None;
    for number in numbers {
        if is_marked(marks, *number) {
            match first {
                Some(other) => {
                    let _apart = merge(leads, other, *number);
                }
                None => first = Some(*number),
            }
        }
    }
}

/// Writes to the place of each number its label.
pub fn flatten(leads: &mut [u32])
    requires { LeadDown leads.old }
    ensures { (labels : List ℕ) → LeadTo leads.old labels → leads.new ≡ labels }
{
    for place in 0..leads.len() {
        let _further = shorten(leads, place);
    }
}

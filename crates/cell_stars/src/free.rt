//! Numbers of places, or of stars, that are likely to be free. No contract speaks of them: whoever takes one looks
//! first whether it is free.

use crate::around::Around;
use crate::stock::{Stock, list_of};
use std::alloc::{AllocError, Global};

/// Numbers that are likely to be free, and the first number from which on all are.
#[derive(Drop)]
pub(crate) struct Free {
    numbers: Vec<u32>,
    behind: u32,
}

impl Free {
    // The numbers from this one on.
    pub(crate) fn from_on(alloc: Global, behind: u32) -> Free {
        Free {
            numbers: Vec::new(alloc),
            behind,
        }
    }

    // The numbers that are likely to be free before those that are all free.
    pub(crate) fn numbers(&self) -> &[u32] {
        &self.numbers
    }

    // The list of those, which is not needed any more.
    pub(crate) fn into_numbers(self) -> Vec<u32> {
        self.numbers
    }

    // The first number from which on all are.
    pub(crate) fn behind(&self) -> u32 {
        self.behind
    }

    // A copy.
    pub(crate) fn copied(&self, alloc: Global) -> Result<Free, AllocError> {
        Ok(Free {
            numbers: Vec::from_slice(alloc, &self.numbers)?,
            behind: self.behind,
        })
    }

    // The first number from which on all are, where those before the end are taken.
    fn behind_end(&self, end: usize) -> u32 {
        self.behind.max(u32::try_from(end).unwrap_or(u32::MAX))
    }

    // What is left of places once some are freed, and then so many are taken, all before the end: the freed ones first,
    // and then these in their order.
    pub(crate) fn after_puts(
        &self,
        alloc: Global,
        stock: &mut Stock,
        freed: &[u32],
        taken: usize,
        end: usize,
    ) -> Result<Free, AllocError> {
        let open = behind_first(&self.numbers, taken.saturating_sub(freed.len()));
        let left = behind_first(freed, taken);
        let count = open.len().saturating_add(left.len());
        let mut numbers = list_of(&mut stock.numbers, alloc, count)?;
        numbers.extend_from_slice(open)?;
        numbers.extend_from_slice(left)?;
        Ok(Free {
            numbers,
            behind: self.behind_end(end),
        })
    }

    // What is left of stars once some are written, all before the end: those that were free and are not written, and
    // those that are written without a place.
    pub(crate) fn after_writes(
        &self,
        alloc: Global,
        stock: &mut Stock,
        writes: &[(u32, Around)],
        end: usize,
    ) -> Result<Free, AllocError> {
        let behind = self.behind_end(end);
        let mut numbers = list_of(&mut stock.numbers, alloc, self.numbers.len())?;
        if !self.numbers.is_empty() || self.behind < behind {
            self.add_unwritten(&mut numbers, writes, behind)?;
        }
        for (n, around) in writes {
            if !around.has_places() {
                numbers.push(*n)?;
            }
        }
        Ok(Free { numbers, behind })
    }

    // Adds those before the end that are not written.
    fn add_unwritten(
        &self,
        list: &mut Vec<u32>,
        writes: &[(u32, Around)],
        end: u32,
    ) -> Result<(), AllocError> {
        let marks = marks_of_written(writes);
        for n in &self.numbers {
            if !is_written(writes, &marks, *n) {
                list.push(*n)?;
            }
        }
        for n in self.behind..end {
            if !is_written(writes, &marks, n) {
                list.push(n)?;
            }
        }
        Ok(())
    }
}

// The numbers behind the first so many.
#[inline]
fn behind_first(list: &[u32], count: usize) -> &[u32] {
    &list[count.min(list.len())..]
}

// The marks of the numbers of these stars.
fn marks_of_written(writes: &[(u32, Around)]) -> [bool; 512] {
    let mut marks = [false; 512];
    for (n, _) in writes {
        marks[(*n % 512) as usize] = true;
    }
    marks
}

// Whether the star with the number is one of these, which have these marks.
fn is_written(writes: &[(u32, Around)], marks: &[bool; 512], n: u32) -> bool {
    if !marks[(n % 512) as usize] {
        return false;
    }
    for (m, _) in writes {
        if *m == n {
            return true;
        }
    }
    false
}

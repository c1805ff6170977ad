ghost use Rattle.std.specs.Prelude.{◌↔◌, ℕ, Contains, OnOk};
ghost use Rattle.std.specs.Bool.{OnTrue};
ghost use Rattle.std.specs.List.Sorted.{IsStrictlyIncreasing};

use crate::marks::{highest_of, mark_once};
use grid_plane::NoMemory;
use std::alloc::Global;

/// So many numbers, or more, are marked if they lie close.
const MANY: usize = 64;

/// Numbers lie close if the highest of them is below so many times their count.
const SPREAD: usize = 8;

// Whether each number is above the one before it.
fn is_rising(found: &[u32]) -> bool
    ensures { OnTrue result (IsStrictlyIncreasing found.now) }
{
    for i in 1..found.len() {
        if found[i] <= found[i - 1] {
            return false;
        }
    }
    true
}

// Leaves each number once, ascending: by comparing them.
fn sort_once(found: &mut Vec<u32>)
    ensures ascending { IsStrictlyIncreasing found.new.items }
    ensures same { (a : ℕ) → Contains found.new.items a ↔ Contains found.old.items a }
{
    found.sort_unstable();
    found.dedup();
}

// Whether the numbers lie close.
fn are_close(found: &[u32]) -> bool {
    highest_of(found) as usize / SPREAD < found.len()
}

/// Leaves each number once, ascending. Many numbers that lie close are marked in place of being compared.
pub fn once_each(alloc: Global, found: &mut Vec<u32>) -> Result<(), NoMemory>
    ensures ascending { OnOk result (IsStrictlyIncreasing found.new.items) }
    ensures same { OnOk result ((a : ℕ) → Contains found.new.items a ↔ Contains found.old.items a) }
{
    if found.len() < 2 {
        return Ok(());
    }
    if found.len() < MANY {
        sort_once(found);
        return Ok(());
    }
    if is_rising(found) {
        return Ok(());
    }
    if are_close(found) {
        return mark_once(alloc, found);
    }
    sort_once(found);
    Ok(())
}

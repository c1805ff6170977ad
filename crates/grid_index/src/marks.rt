ghost use Rattle.std.specs.Prelude.{◌≡◌, ◌<◌, ◌≤◌, ◌+◌, ◌^◌, ◌↔◌, ℕ, true, false, get_or, length, All, Contains, IfOk, OnOk};
ghost use Rattle.std.specs.List.Sorted.{IsStrictlyIncreasing};

use grid_plane::NoMemory;
use std::alloc::Global;

/// The highest of the numbers; 0 of none.
pub(crate) fn highest_of(found: &[u32]) -> u32
    ensures { All (λ h. h < result + 1) found.now }
{
    let mut highest = 0;
    for h in found {
        highest = highest.max(*h);
    }
    highest
}

// So many marks, of which those at the numbers are set.
fn marks_at(alloc: Global, found: &[u32], count: usize) -> Result<Vec<bool>, NoMemory>
    requires { All (λ h. h < count) found.now }
    ensures len { IfOk result (λ marks. length marks.items ≡ count) }
    ensures marked { IfOk result (λ marks. (a : ℕ) → get_or marks.items a false ≡ true ↔ Contains found.now a) }
{
    let mut marks = Vec::from_elem(alloc, false, count)?;
    for h in found {
        marks[*h as usize] = true;
    }
    Ok(marks)
}

// The numbers at which a mark is set, ascending, in place of those of the list.
fn put_marked(marks: &[bool], found: &mut Vec<u32>) -> Result<(), NoMemory>
    requires { length marks.now ≤ 2 ^ 32 }
    ensures ascending { OnOk result (IsStrictlyIncreasing found.new.items) }
    ensures same { OnOk result ((a : ℕ) → Contains found.new.items a ↔ get_or marks.now a false ≡ true) }
{
    found.clear();
    for i in 0..marks.len() {
        if marks[i] {
            found.push(i as u32)?;
        }
    }
    Ok(())
}

/// Leaves each number once, ascending: by a mark for each number up to the highest.
pub(crate) fn mark_once(alloc: Global, found: &mut Vec<u32>) -> Result<(), NoMemory>
    ensures ascending { OnOk result (IsStrictlyIncreasing found.new.items) }
    ensures same { OnOk result ((a : ℕ) → Contains found.new.items a ↔ Contains found.old.items a) }
{
    let count = highest_of(found) as usize + 1;
    let marks = marks_at(alloc, found, count)?;
    put_marked(&marks, found)?;
    Ok(())
}

// An index of rectangles, against a list that is gone through.
ghost use Rattle.std.specs.Prelude.{◌^◌, ◌<◌, ◌≤ℤ◌, ◌<ℤ◌, pos};

use crate::given::rect;
use grid_index::{Index, Meter, Placed};
use grid_plane::{NoMemory, Rect};
use std::alloc::Global;
use std::test::Fail;
use step_count::Count;

// A row of squares of side 50, a hundred apart: the handle k begins at 100 k.
fn row(alloc: Global) -> Result<Index<Count>, Fail> {
    let mut index = Index::new(alloc);
    for handle in 1..=1000u32 {
        let x = 100 * i64::from(handle);
        let square = rect(x, 0, x + 50, 50)?;
        index.put(Placed {
            rect: square,
            handle,
        })?;
    }
    Ok(index)
}

#[test]
fn one_of_a_row_is_near(rt: HostRuntime) -> Result<(), Fail> {
    let alloc = rt.alloc();
    let near = row(alloc)?.query(alloc, &rect(0, 0, 120, 20)?, &mut Count::new())?;
    assert_eq!(rt; near.len(), 1);
    assert!(rt; near[0] == 1);
    Ok(())
}

// A question looks at few of a thousand.
#[test]
fn few_of_a_row_are_looked_at(rt: HostRuntime) -> Result<(), Fail> {
    let alloc = rt.alloc();
    let mut steps = Count::new();
    let near = row(alloc)?.query(alloc, &rect(0, 0, 200, 0)?, &mut steps)?;
    assert_eq!(rt; near.len(), 2);
    let taken = steps.count();
    assert!(rt; taken >= 2);
    assert!(rt; taken <= 100);
    Ok(())
}

// Numbers that look random and are the same in each run.
#[derive(Drop)]
struct Dice(u64);

impl Dice {
    // A number from 0 up to, and without, n.
    fn below(&mut self, n: u64) -> i64
        requires some { 0 < n }
        requires few { n < 2 ^ 32 }
        ensures low { pos 0 ≤ℤ result }
        ensures high { result <ℤ pos n }
    {
        self.0 = self
            .0
            .wrapping_mul(6_364_136_223_846_793_005)
            .wrapping_add(1_442_695_040_888_963_407);
        ((self.0 >> 24) % n) as i64
    }
}

// A rectangle of one of several sizes, in a part of the grid.
fn some_rect(dice: &mut Dice) -> Result<Rect, Fail> {
    let x = dice.below(6000) - 3000;
    let y = dice.below(6000) - 3000;
    let side = match dice.below(4) {
        0 => 1,
        1 => 20,
        2 => 300,
        _ => 2500,
    };
    rect(x, y, x + dice.below(side), y + dice.below(side))
}

// The handles of those that meet the rectangle, by a look at each.
fn scan(alloc: Global, all: &[Placed], r: &Rect) -> Result<Vec<u32>, NoMemory> {
    let mut met = Vec::new(alloc);
    for placed in all {
        if r.meets(&placed.rect) {
            met.push(placed.handle)?;
        }
    }
    Ok(met)
}

// Of 600 rectangles every third is taken out again.
#[test]
fn as_a_scan_says(rt: HostRuntime) -> Result<(), Fail> {
    let alloc = rt.alloc();
    let mut dice = Dice(1);
    let mut index = Index::new(alloc);
    let mut left = Vec::new(alloc);
    for handle in 1..=600u32 {
        let placed = Placed {
            rect: some_rect(&mut dice)?,
            handle,
        };
        index.put(placed)?;
        if handle % 3 == 0 {
            index.take(&placed);
        } else {
            left.push(placed)?;
        }
    }
    for _ in 0..300 {
        let r = some_rect(&mut dice)?;
        assert!(rt; index.query(alloc, &r, &mut Count::new())? == scan(alloc, &left, &r)?);
    }
    Ok(())
}

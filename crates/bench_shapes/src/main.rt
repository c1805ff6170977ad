// Makes the polygon of one ring over and over, for bench/: how long `Shape::polygon` takes.
//
// The word is how often it is made. Each line of standard input is a vertex, `X Y`, in grid units. What is written is how many
// vertices were given, and what came of them.
#![tactic(auto)]

ghost use Rattle.std.specs.Prelude.{◌≡◌, ◌≤◌, ◌∷◌, [], length, IfOk};
ghost use Rattle.shape.specs.Given.{polygons_in};

use grid_plane::{GridPoint, NoMemory};
use shape::{Shape, ShapeFault};
use std::alloc::Global;
use std::io::{BufRead, BufReader};
use std::{env, io};

/// The most vertices that are read.
const MOST: usize = 1_000_000;

fn place_of(line: &str) -> Option<GridPoint> {
    let mut words = line.split_whitespace();
    let x = words.next()?.parse::<i64>().ok()?;
    GridPoint::at(x, words.next()?.parse::<i64>().ok()?)
}

fn parts_of(alloc: Global, ring: &[GridPoint]) -> Result<Vec<Vec<Vec<GridPoint>>>, NoMemory>
    ensures { IfOk result (λ v. polygons_in v.items ≡ (ring.now ∷ []) ∷ []) }
{
    let mut rings = Vec::new(alloc);
    rings.push(Vec::from_slice(alloc, ring)?)?;
    let mut parts = Vec::new(alloc);
    parts.push(rings)?;
    Ok(parts)
}

fn seg_count(alloc: Global, ring: &[GridPoint]) -> Result<usize, ShapeFault>
    requires { length ring.now ≤ 1000000 }
{
    let parts = parts_of(alloc, ring)?;
    Ok(Shape::polygon(alloc, parts)?.seg_count())
}

fn times(rt: &HostRuntime) -> io::Result<u32> {
    for word in env::args(rt)?.skip(1) {
        if let Ok(n) = word.parse::<u32>() {
            return Ok(n);
        }
    }
    Ok(1)
}

fn main(rt: HostRuntime) -> io::Result<()> {
    let alloc = rt.alloc();
    let mut ring = Vec::new(alloc);
    for line in BufReader::new(alloc, rt.stdin())?.lines(alloc) {
        if let Some(place) = place_of(line?.as_str()) {
            ring.push(place)?;
        }
    }
    let given = ring.len();
    if given > MOST {
        return println!(rt; "{given} vertices, which are not tried");
    }
    let mut made = Ok(0);
    for _ in 0..times(&rt)? {
        made = seg_count(alloc, &ring);
    }
    match made {
        Ok(count) => println!(rt; "{given} vertices, {count} segments"),
        Err(fault) => println!(rt; "{given} vertices, {fault:?}"),
    }
}

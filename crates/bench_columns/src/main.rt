// Cuts a list of segments into columns over and over, for bench/: how long the cells inside and those outside take.
//
// The first word is how often they are made, the second which: `inside` or `outside` of all segments, or `carved`, the inside of
// the first four carved by the outside of the others. Each line of standard input is a segment, its ends as `X Y U V`, in grid
// units. What is written is how many segments there are, and how many cells were made.
#![tactic(auto)]

use column_cut::{inside, outside};
use convex_cell::Cells;
use grid_plane::{GridPoint, NoMemory, Seg};
use std::alloc::Global;
use std::io::{BufRead, BufReader};
use std::{env, io};

// Which cells are made.
#[derive(Drop)]
enum Wanted {
    Inside,
    Outside,
    Carved,
}

// What the words ask for.
#[derive(Drop)]
struct Task {
    times: u32,
    wanted: Wanted,
}

fn place_of(x: &str, y: &str) -> Option<GridPoint> {
    GridPoint::at(x.parse::<i64>().ok()?, y.parse::<i64>().ok()?)
}

fn segment_of(line: &str) -> Option<Seg> {
    let mut words = line.split_whitespace();
    let from = place_of(words.next()?, words.next()?)?;
    let to = place_of(words.next()?, words.next()?)?;
    Seg::of(from, to)
}

fn carved(alloc: Global, segments: &[Seg]) -> Result<Cells, NoMemory> {
    let (first, others) = segments.split_at(segments.len().min(4));
    inside(alloc, first)?.carve(alloc, &outside(alloc, others)?)
}

fn cells_of(alloc: Global, wanted: &Wanted, segments: &[Seg]) -> Result<Cells, NoMemory> {
    match wanted {
        Wanted::Inside => Ok(inside(alloc, segments)?.into_cells()),
        Wanted::Outside => Ok(outside(alloc, segments)?.into_cells()),
        Wanted::Carved => carved(alloc, segments),
    }
}

fn task_of(rt: &HostRuntime) -> io::Result<Task> {
    let mut task = Task {
        times: 1,
        wanted: Wanted::Inside,
    };
    for word in env::args(rt)?.skip(1) {
        match word.as_str() {
            "inside" => task.wanted = Wanted::Inside,
            "outside" => task.wanted = Wanted::Outside,
            "carved" => task.wanted = Wanted::Carved,
            number => task.times = number.parse::<u32>().unwrap_or(1),
        }
    }
    Ok(task)
}

fn main(rt: HostRuntime) -> io::Result<()> {
    let alloc = rt.alloc();
    let task = task_of(&rt)?;
    let mut segments = Vec::new(alloc);
    for line in BufReader::new(alloc, rt.stdin())?.lines(alloc) {
        if let Some(segment) = segment_of(line?.as_str()) {
            segments.push(segment)?;
        }
    }
    let mut made = None;
    for _ in 0..task.times {
        made = cells_of(alloc, &task.wanted, &segments).ok();
    }
    let all = segments.len();
    match made {
        Some(cells) => {
            let count = cells.len();
            println!(rt; "{all} segments, {count} cells")
        }
        None => println!(rt; "{all} segments, and no cells"),
    }
}

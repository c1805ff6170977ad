// Decides cells over and over, for bench/: how long `Cell::is_empty` takes.
//
// The word is how often each cell is decided. Each line of standard input is a cell, its half-planes as `A B C OP`, OP being
// 0, 1 or 2 for above 0, at least 0 and equal to 0. What is written is how many cells there are and how many are empty.
#![tactic(auto)]

use convex_cell::Cell;
use grid_plane::{Half, Op};
use std::alloc::Global;
use std::io::{BufRead, BufReader};
use std::{env, io};

fn op_of(word: &str) -> Option<Op> {
    match word {
        "0" => Some(Op::Over),
        "1" => Some(Op::AtLeast),
        "2" => Some(Op::Zero),
        _ => None,
    }
}

fn half_of(a: &str, b: &str, c: &str, op: &str) -> Option<Half> {
    let a = a.parse::<i64>().ok()?;
    let b = b.parse::<i64>().ok()?;
    let c = c.parse::<i64>().ok()?;
    Half::of(a, b, c, op_of(op)?)
}

// The cell of a line; what is no half-plane ends it.
fn cell_of(alloc: Global, line: &str) -> io::Result<Option<Cell>> {
    let mut halves = Vec::new(alloc);
    let mut words = line.split_whitespace();
    while let (Some(a), Some(b), Some(c), Some(op)) = (
        words.next(),
        words.next(),
        words.next(),
        words.next(),
    ) {
        let Some(half) = half_of(a, b, c, op) else {
            break;
        };
        halves.push(half)?;
    }
    Ok(Cell::of(alloc, &halves).ok())
}

fn count_empty(cells: &[Cell]) -> usize {
    cells.iter().filter(|cell| cell.is_empty()).count()
}

fn times(rt: &HostRuntime) -> io::Result<u32> {
    for word in env::args(rt)?.skip(1) {
        if let Ok(n) = word.parse::<u32>() {
            return Ok(n);
        }
    }
    Ok(1)
}

fn main(rt: HostRuntime) -> io::Result<()> {
    let alloc = rt.alloc();
    let mut cells = Vec::new(alloc);
    for line in BufReader::new(alloc, rt.stdin())?.lines(alloc) {
        if let Some(cell) = cell_of(alloc, line?.as_str())? {
            cells.push(cell)?;
        }
    }
    let mut empty = 0;
    for _ in 0..times(&rt)? {
        empty = count_empty(&cells);
    }
    let all = cells.len();
    println!(rt; "{all} cells, {empty} empty")
}

ghost use Rattle.std.specs.Prelude.{◌↔◌, IsTrue, IfOk};
ghost use Rattle.std.specs.Bool.{OnTrue};
ghost use Rattle.plane_terms.specs.Lists.{Every};
ghost use Rattle.plane_terms.specs.Point.{Point};
ghost use Rattle.plane_terms.specs.Cell.{InCells};
ghost use Rattle.plane_terms.specs.Dirt.{Covers};
ghost use Rattle.topology_terms.specs.Entry.{HasWhole, IsFramed, IsAscending};
ghost use Rattle.sound_check.specs.Pairs.{LiesIn, IsFramedOrWhole, IsEntrySound};

use crate::frames::{frame_stands, is_least_frame};
use crate::within::{have_points, is_within};
use convex_cell::Cells;
use dirty_area::Dirt;
use error_store::{Entry, Key, find_in};
use grid_plane::{NoMemory, Rect};
use std::alloc::Global;

/// Whether there is a whole entry of the rule and the subject.
pub fn has_whole(entries: &[Entry], rule: u16, subject: u32) -> bool
    requires { IsAscending entries.now }
    ensures { IsTrue result ↔ HasWhole entries.now rule subject }
{
    let key = Key {
        rule,
        subject,
        other: None,
    };
    match find_in(entries, key) {
        Some(e) => e.whole(),
        None => false,
    }
}

fn lies_in(alloc: Global, e: &Entry, others: &[Entry], dirt: &Dirt) -> Result<bool, NoMemory>
    requires { IsAscending others.now }
    ensures { IfOk result (λ yes. IsTrue yes ↔ LiesIn dirt.now others.now e.now) }
{
    match find_in(others, e.key()) {
        Some(other) => is_within(alloc, e.cells(), Some(e.frame()), other.cells(), dirt),
        None => is_within(alloc, e.cells(), Some(e.frame()), &Cells::new(alloc), dirt),
    }
}

fn is_framed(alloc: Global, e: &Entry) -> Result<bool, NoMemory>
    ensures { IfOk result (λ yes. IsTrue yes ↔ IsFramed e.now) }
{
    if e.cells().len() == 0 {
        return Ok(false);
    }
    if !have_points(e.cells()) {
        return Ok(false);
    }
    is_least_frame(alloc, &e.frame(), e.cells())
}

fn is_framed_or_whole(alloc: Global, e: &Entry) -> Result<bool, NoMemory>
    ensures { IfOk result (λ yes. IsTrue yes ↔ IsFramedOrWhole e.now) }
{
    if e.whole() {
        return Ok(true);
    }
    is_framed(alloc, e)
}

// Whether a dirty rectangle is seen to hold all of an entry that is not whole, by its frame.
fn is_all_dirty(e: &Entry, dirt: &Dirt) -> bool
    requires { IsFramedOrWhole e.now }
    ensures { OnTrue result ((p : Point) → InCells e.now.cells p → Covers dirt.now p) }
{
    if !e.whole() {
        return dirt.holds(&e.frame());
    }
    false
}

fn is_entry_sound(
    alloc: Global,
    e: &Entry,
    envelope: Option<Rect>,
    fresh: &[Entry],
    dirt: &Dirt,
) -> Result<bool, NoMemory>
    requires { IsAscending fresh.now }
    ensures { IfOk result (λ yes. IsTrue yes ↔ IsEntrySound dirt.now envelope fresh.now e.now) }
{
    if !frame_stands(&e.frame(), envelope, dirt) {
        return Ok(false);
    }
    if !is_framed_or_whole(alloc, e)? {
        return Ok(false);
    }
    if is_all_dirty(e, dirt) {
        return Ok(true);
    }
    lies_in(alloc, e, fresh, dirt)
}

/// Whether each stored entry has only points of its fresh one off the dirt, a frame that stands, and the least one unless it is
/// whole.
pub fn are_entries_sound(
    alloc: Global,
    stored: &[Entry],
    envelope: Option<Rect>,
    fresh: &[Entry],
    dirt: &Dirt,
) -> Result<bool, NoMemory>
    requires { IsAscending fresh.now }
    ensures { IfOk result (λ yes. IsTrue yes ↔ Every (IsEntrySound dirt.now envelope fresh.now) stored.now) }
{
    for i in 0..stored.len() {
        if !is_entry_sound(alloc, &stored[i], envelope, fresh, dirt)? {
            return Ok(false);
        }
    }
    Ok(true)
}

/// Whether off the dirt each point of each entry is in the entry of its key among the others.
pub fn all_lie_in(
    alloc: Global,
    entries: &[Entry],
    others: &[Entry],
    dirt: &Dirt,
) -> Result<bool, NoMemory>
    requires { IsAscending others.now }
    ensures { IfOk result (λ yes. IsTrue yes ↔ Every (LiesIn dirt.now others.now) entries.now) }
{
    for i in 0..entries.len() {
        if !lies_in(alloc, &entries[i], others, dirt)? {
            return Ok(false);
        }
    }
    Ok(true)
}

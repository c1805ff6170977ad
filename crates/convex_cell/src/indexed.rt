// A cell of many half-planes, each of which is found at once.
ghost use Rattle.std.specs.Prelude.{◌≡◌, ℕ, [], ◌∷◌, ◌++◌, ◌<◌, ◌-◌, length, take, slice_index, IfOk, OnOk, OnErr};
ghost use Rattle.std.specs.List.{list_any};
ghost use Rattle.plane_terms.specs.Cell.{same_half, meet_of};
ghost use Rattle.convex_cell.specs.Indexed.{slot_of, slots_of, IsLastOf, IsIndexed};

use crate::borrowed::BorrowedCell;
use crate::cell::{is_among, is_same, push_new};
use grid_plane::{Half, NoMemory};
use std::alloc::Global;
use std::marker::Model;

/// So many half-planes are few: each is looked at.
const FEW: usize = 32;

/// Others are parted by their numbers into so many slots: a prime.
const SLOTS: usize = 1_021;

/// A cell that others narrow in turn, and that becomes as wide again. Where many half-planes are expected, whether it has one
/// already is looked up among those of the same slot alone.
#[derive(Drop)]
pub struct IndexedCell {
    halves: Vec<Half>,
    // For each half-plane: one more than the place of the last one of its slot before it, or 0.
    before: Vec<usize>,
    // For each slot: one more than the place of its last half-plane, or 0. There are none where few half-planes are expected.
    last: Vec<usize>,
}

impl Model for IndexedCell {
    ghost use Rattle.plane_terms.specs.Cell as terms;
    ghost use Rattle.convex_cell.specs.Indexed.{IsIndexed};

    ghost Value = { terms.Cell };

    ghost view = { λ c. c.halves.items };

    ghost invariant = { λ c. IsIndexed c.halves.items c.before.items c.last.items };
}

/// The slot of the half-plane: those that are the same have the same.
fn slot_of(half: &Half) -> usize
    ensures value { result ≡ slot_of half.now }
    ensures fits { result < 1021 }
{
    let sum = half.a().unsigned_abs() + 31 * half.b().unsigned_abs() + half.c().unsigned_abs();
    (sum % SLOTS as u64) as usize
}

/// Whether the half-plane is among these, of which the last one of its slot stands right before this place.
fn is_in_chain(half: &Half, halves: &[Half], before: &[usize], from: usize) -> bool
    requires long { length before.now ≡ length halves.now }
    requires before { (i : ℕ) → i < length halves.now → IsLastOf (slice_index (slots_of halves.now) i) (slots_of halves.now) i (slice_index before.now i) }
    requires last { IsLastOf (slot_of half.now) (slots_of halves.now) (length halves.now) from }
    ensures { result ≡ list_any (same_half half.now) halves.now }
{
    let mut next = from;
    while next > 0 {
        let i = next - 1;
        if is_same(half, &halves[i]) {
            return true;
        }
        next = before[i];
    }
    false
}

/// No half-plane in any slot yet; no slot where few half-planes are expected.
fn empty_slots(alloc: Global, count: usize) -> Result<Vec<usize>, NoMemory>
    ensures { IfOk result (λ last. IsIndexed [] [] last.items) }
{
    if count < FEW {
        return Ok(Vec::new(alloc));
    }
    Ok(Vec::from_elem(alloc, 0, SLOTS)?)
}

impl IndexedCell {
    /// The whole plane.
    fn new(alloc: Global, count: usize) -> Result<IndexedCell, NoMemory>
        ensures { IfOk result (λ cell. cell ≡ []) }
    {
        Ok(IndexedCell {
            halves: Vec::new(alloc),
            before: Vec::new(alloc),
            last: empty_slots(alloc, count)?,
        })
    }

    /// The same cell, which is to have roughly so many half-planes. No answer rests on that number, only how long an answer takes.
    pub fn of(alloc: Global, cell: &BorrowedCell<'_>, count: usize) -> Result<IndexedCell, NoMemory>
        ensures { IfOk result (λ indexed. indexed ≡ cell.now) }
    {
        let mut indexed = IndexedCell::new(alloc, count)?;
        for half in cell.halves() {
            indexed.push(half)?;
        }
        Ok(indexed)
    }

    /// Its half-planes, in their order.
    pub fn halves(&self) -> &[Half]
        ensures { result.now ≡ self.now }
    {
        &self.halves
    }

    /// The number of its half-planes.
    pub fn len(&self) -> usize
        ensures { result ≡ length self.now }
    {
        self.halves.len()
    }

    fn has(&self, half: &Half) -> bool
        ensures { result ≡ list_any (same_half half.now) self.now }
    {
        if self.last.is_empty() {
            return is_among(half, &self.halves);
        }
        let from = self.last[slot_of(half)];
        is_in_chain(half, &self.halves, &self.before, from)
    }

    /// Puts the half-plane last.
    fn push(&mut self, half: &Half) -> Result<(), NoMemory>
        ensures ok { OnOk result (self.new ≡ self.old ++ half.now ∷ []) }
        ensures err { OnErr result (self.new ≡ self.old) }
    {
        if self.last.is_empty() {
            self.halves.push(*half)?;
            return Ok(());
        }
        let slot = slot_of(half);
        self.before.push(self.last[slot])?;
        if let Err(full) = self.halves.push(*half) {
            self.before.pop();
            return Err(full.into());
        }
        self.last[slot] = self.halves.len();
        Ok(())
    }

    fn push_if_new(&mut self, half: &Half) -> Result<(), NoMemory>
        ensures met { OnOk result (self.new ≡ meet_of self.old (half.now ∷ [])) }
        ensures begins { take (length self.old) self.new ≡ self.old }
    {
        if self.has(half) {
            return Ok(());
        }
        self.push(half)
    }

    fn push_new(&mut self, more: &[Half]) -> Result<(), NoMemory>
        ensures met { OnOk result (self.new ≡ meet_of self.old more.now) }
        ensures begins { take (length self.old) self.new ≡ self.old }
    {
        if self.last.is_empty() {
            return push_new(&mut self.halves, 0, more);
        }
        for half in more {
            self.push_if_new(half)?;
        }
        Ok(())
    }

    /// Makes it what `Cell::meet` makes of it and the other. It stays where memory runs out.
    pub fn narrow(&mut self, other: &BorrowedCell<'_>) -> Result<(), NoMemory>
        ensures ok { OnOk result (self.new ≡ meet_of self.old other.now) }
        ensures begins { take (length self.old) self.new ≡ self.old }
        ensures err { OnErr result (self.new ≡ self.old) }
    {
        let len = self.len();
        if let Err(full) = self.push_new(other.halves()) {
            self.truncate(len);
            return Err(full);
        }
        Ok(())
    }

    /// Takes out the last half-plane.
    fn pop(&mut self)
        requires { 0 < length self.old }
        ensures { self.new ≡ take (length self.old - 1) self.old }
    {
        let i = self.halves.len() - 1;
        if self.last.is_empty() {
            self.halves.truncate(i);
            return;
        }
        let slot = slot_of(&self.halves[i]);
        self.last[slot] = self.before[i];
        self.before.truncate(i);
        self.halves.truncate(i);
    }

    /// Leaves the first of its half-planes, so many.
    pub fn truncate(&mut self, len: usize)
        ensures { self.new ≡ take len self.old }
    {
        if self.last.is_empty() {
            self.halves.truncate(len);
            return;
        }
        while self.halves.len() > len {
            self.pop();
        }
    }
}

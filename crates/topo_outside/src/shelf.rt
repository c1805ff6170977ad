ghost use Rattle.std.specs.Prelude.{◌≡◌, ◌↔◌, ◌≤◌, Some, option_map, IfOk, OnOk, OnErr, IsErrOf, IsTrue, true, false};
ghost use Rattle.outside_terms.specs.Faults.{Rose};
ghost use Rattle.outside_terms.specs.Shelves.{Gives, KeepsHeld, KeepsOthers, SetsHeld};
ghost use Rattle.topo_outside.specs.Shelves.{ShelfCause};
ghost use Rattle.topo_outside.specs.Memory.{counted, is_failing, held_in};

use crate::counts::{counted, is_failing};
use crate::{Shelf, ShelfFault};
use std::alloc::Global;
use std::collections::BTreeMap;

/// A shelf in memory that does not fail.
#[derive(Drop)]
pub struct SureShelf {
    held: BTreeMap<String, Vec<u8>>,
}

impl SureShelf {
    /// The shelf that holds these.
    pub fn new(held: BTreeMap<String, Vec<u8>>) -> Self
        ensures { result.held ≡ held }
    {
        SureShelf { held }
    }

    /// What it holds.
    pub fn held(&self) -> &BTreeMap<String, Vec<u8>>
        ensures { result.now ≡ self.now.held }
    {
        &self.held
    }
}

impl Shelf for SureShelf {
    ghost held = { λ s. Some (held_in s.held) };

    ghost faults = { λ s. 0 };

    fn get(&mut self, alloc: Global, name: &str) -> Result<Option<Vec<u8>>, ShelfFault> {
        match self.held.get(name) {
            None => Ok(None),
            Some(bytes) => match bytes.to_vec(alloc) {
                Ok(bytes) => Ok(Some(bytes)),
                Err(_) => Err(ShelfFault::NoMemory),
            },
        }
    }

    fn put(&mut self, alloc: Global, name: &str, bytes: &[u8]) -> Result<(), ShelfFault> {
        let Ok(name) = name.to_string(alloc) else {
            return Err(ShelfFault::NoMemory);
        };
        let Ok(bytes) = bytes.to_vec(alloc) else {
            return Err(ShelfFault::NoMemory);
        };
        match self.held.insert(name, bytes) {
            Ok(_) => Ok(()),
            Err(_) => Err(ShelfFault::NoMemory),
        }
    }
}

/// A shelf in memory, whose calls fail by a list of their numbers.
#[derive(Drop)]
pub struct MemShelf {
    shelf: SureShelf,
    failing: Vec<u64>,
    calls: u64,
    faults: u64,
}

impl MemShelf {
    /// The shelf that holds these; the calls of the numbers in `failing`, from 1, fail.
    pub fn new(held: BTreeMap<String, Vec<u8>>, failing: Vec<u64>) -> Self
        ensures held { result.shelf.held ≡ held }
        ensures calls { result.calls ≡ 0 }
        ensures faults { result.faults ≡ 0 }
        ensures as_given { result.failing ≡ failing }
    {
        MemShelf {
            shelf: SureShelf::new(held),
            failing,
            calls: 0,
            faults: 0,
        }
    }

    /// What it holds.
    pub fn held(&self) -> &BTreeMap<String, Vec<u8>>
        ensures { result.now ≡ self.now.shelf.held }
    {
        self.shelf.held()
    }

    // Counts a call, and tells whether it fails; its fault is counted then.
    fn call_fails(&mut self) -> bool
        ensures fails { result ≡ is_failing self.old.calls self.old.failing.items }
        ensures calls { self.new.calls ≡ counted self.old.calls }
        ensures later { self.old.faults ≤ self.new.faults }
        ensures rose { result ≡ true → Rose self.old.faults self.new.faults }
        ensures quiet { result ≡ false → self.new.faults ≡ self.old.faults }
        ensures as_given { (self.new.shelf ≡ self.old.shelf) × (self.new.failing ≡ self.old.failing) }
    {
        let fails = is_failing(self.calls, &self.failing);
        self.calls = counted(self.calls);
        if fails {
            self.faults = counted(self.faults);
        }
        fails
    }
}

impl Shelf for MemShelf {
    ghost held = { λ s. Some (held_in s.shelf.held) };

    ghost faults = { λ s. s.faults };

    fn get(&mut self, alloc: Global, name: &str) -> Result<Option<Vec<u8>>, ShelfFault>
        ensures value { IfOk result (λ found. Gives (Some (held_in self.old.shelf.held)) name.now (option_map (λ v. v.items) found)) }
        ensures kept { KeepsHeld (Some (held_in self.old.shelf.held)) (Some (held_in self.new.shelf.held)) }
        ensures cause { ShelfCause self.old.faults self.new.faults result }
        ensures fails { IsErrOf result ShelfFault.Failed ↔ IsTrue (is_failing self.old.calls self.old.failing.items) }
        ensures calls { self.new.calls ≡ counted self.old.calls }
        ensures as_given { self.new.failing ≡ self.old.failing }
    {
        if self.call_fails() {
            return Err(ShelfFault::Failed);
        }
        self.shelf.get(alloc, name)
    }

    fn put(&mut self, alloc: Global, name: &str, bytes: &[u8]) -> Result<(), ShelfFault>
        ensures stored { OnOk result (SetsHeld (Some (held_in self.old.shelf.held)) (Some (held_in self.new.shelf.held)) name.now bytes.now) }
        ensures others { KeepsOthers (Some (held_in self.old.shelf.held)) (Some (held_in self.new.shelf.held)) name.now }
        ensures refused { OnErr result (KeepsHeld (Some (held_in self.old.shelf.held)) (Some (held_in self.new.shelf.held))) }
        ensures no_memory { IsErrOf result ShelfFault.NoMemory → KeepsHeld (Some (held_in self.old.shelf.held)) (Some (held_in self.new.shelf.held)) }
        ensures cause { ShelfCause self.old.faults self.new.faults result }
        ensures fails { IsErrOf result ShelfFault.Failed ↔ IsTrue (is_failing self.old.calls self.old.failing.items) }
        ensures calls { self.new.calls ≡ counted self.old.calls }
        ensures as_given { self.new.failing ≡ self.old.failing }
    {
        if self.call_fails() {
            return Err(ShelfFault::Failed);
        }
        self.shelf.put(alloc, name, bytes)
    }
}

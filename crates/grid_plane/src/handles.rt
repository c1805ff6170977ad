ghost use Rattle.std.specs.Prelude.{◌≡◌, ◌↔◌, [], ◌∷◌, ◌++◌, ◌<◌, length, slice_index, Contains, IsTrue, OnOk, OnErr, All};
ghost use Rattle.std.specs.List.Sorted.{IsStrictlyIncreasing};

use crate::memory::NoMemory;
use std::alloc::Global;
use std::marker::Model;

/// An ascending list of handles.
#[derive(Drop)]
pub struct Handles {
    items: Vec<u32>,
}

impl Model for Handles {
    ghost use Rattle.std.specs.Prelude.{List, ℕ};
    ghost use Rattle.std.specs.List.Sorted.{IsStrictlyIncreasing};

    ghost Value = { List ℕ };

    ghost view = { λ h. h.items.items };

    ghost invariant = { λ h. IsStrictlyIncreasing h.items.items };
}

fn is_found(items: &[u32], handle: u32) -> bool
    requires { IsStrictlyIncreasing items.now }
    ensures { IsTrue result ↔ Contains items.now handle }
{
    items.binary_search(&handle).is_ok()
}

impl Handles {
    pub fn new(alloc: Global) -> Handles
        ensures { result ≡ [] }
    {
        Handles {
            items: Vec::new(alloc),
        }
    }

    /// These handles, which ascend.
    pub fn of(items: Vec<u32>) -> Handles
        requires { IsStrictlyIncreasing items.items }
        ensures { result ≡ items.items }
    {
        Handles { items }
    }

    /// The handles as a list.
    pub fn items(&self) -> &[u32]
        ensures value { result.now ≡ self.now }
        ensures ascending { IsStrictlyIncreasing self.now }
    {
        &self.items
    }

    pub fn len(&self) -> usize
        ensures value { result ≡ length self.now }
        ensures ascending { IsStrictlyIncreasing self.now }
    {
        self.items.len()
    }

    pub fn at(&self, i: usize) -> u32
        requires { i < length self.now }
        ensures { result ≡ slice_index self.now i }
    {
        self.items[i]
    }

    pub fn has(&self, handle: u32) -> bool
        ensures { IsTrue result ↔ Contains self.now handle }
    {
        is_found(&self.items, handle)
    }

    /// Puts a handle above all others at the end; where memory runs out the list stays as it was.
    pub fn push(&mut self, handle: u32) -> Result<(), NoMemory>
        requires { All (λ h. h < handle) self.old }
        ensures ok { OnOk result (self.new ≡ self.old ++ handle ∷ []) }
        ensures err { OnErr result (self.new ≡ self.old) }
    {
        self.items.push(handle)?;
        Ok(())
    }
}

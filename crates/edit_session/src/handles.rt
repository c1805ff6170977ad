ghost use Rattle.std.specs.Prelude.{◌≡◌, ◌==◌, ◌≤◌, ◌<◌, ◌+◌, ◌^◌, ℕ, Some, List, ◌∷◌, ◌++◌, [], length, slice_index, is_some, true, nat_eq, nat_lt, not, cond, MatchOption, IfNone, OnOk, OnErr, vec_len, vec_capacity};
ghost use Rattle.std.specs.Bool.{OnTrue};
ghost use Rattle.std.specs.List.{list_any};
ghost use Rattle.std.specs.List.Sorted.{IsStrictlyIncreasing};
ghost use Rattle.std.specs.HashMap.{get, spare};
ghost use Rattle.std.specs.Map.{count_at};
ghost use Rattle.edit_session.specs.HandleLists.{AreKept, floor_of, one_less};

use grid_plane::NoMemory;
use std::alloc::Global;
use std::collections::HashMap;
use std::marker::Model;

/// Room is made for so many handles at once.
const AHEAD: usize = 16;

/// A list of handles that tells in little time whether one is in it. Handles that rise, as those of added features do, take no more
/// than their number again.
#[derive(Drop)]
pub(crate) struct HandleList {
    items: Vec<u32>,
    // each handle that was greater than all before it
    rising: Vec<u32>,
    // of each other one how often it was put
    others: HashMap<u32, usize>,
    // for how many more there is room in all three
    room: usize,
}

impl Model for HandleList {
    ghost use Rattle.std.specs.Prelude.{◌+◌, ◌≤◌, vec_len, vec_capacity};
    ghost use Rattle.std.specs.HashMap.{spare};
    ghost use Rattle.edit_session.specs.HandleLists.{HandleItems, AreKept};

    ghost Value = { HandleItems };

    ghost view = { λ s. record { items = s.items.items; room = s.room } };

    ghost invariant = { λ s. AreKept s.rising.items s.others s.items.items × (vec_len s.items + s.room ≤ vec_capacity s.items) × (vec_len s.rising + s.room ≤ vec_capacity s.rising) × (s.room ≤ spare s.others) };
}

// Whether a handle is greater than all of these, which rise.
fn is_above(rising: &[u32], handle: u32) -> bool
    ensures { result ≡ not (nat_lt handle (floor_of 0 rising.now)) }
{
    match rising.last() {
        Some(last) => *last < handle,
        None => true,
    }
}

// Whether a handle stands as far behind the first of these as it is greater, as each does where none is left out.
fn is_at_its_distance(rising: &[u32], handle: u32) -> bool
    ensures { OnTrue result (list_any (λ (h : ℕ). h == handle) rising.now ≡ true) }
{
    let Some(first) = rising.first() else {
        return false;
    };
    let Some(distance) = handle.checked_sub(*first) else {
        return false;
    };
    match rising.get(distance as usize) {
        Some(held) => *held == handle,
        None => false,
    }
}

// Whether a handle is one of these, which rise.
fn is_found(rising: &[u32], handle: u32) -> bool
    requires { IsStrictlyIncreasing rising.now }
    ensures { result ≡ list_any (λ (h : ℕ). h == handle) rising.now }
{
    rising.binary_search(&handle).is_ok()
}

// Counts a handle once more. Takes no memory: there is room.
fn count_up(others: &mut HashMap<u32, usize>, handle: u32)
    requires room { 1 ≤ spare others.old }
    requires few { count_at (get nat_eq others.old) handle + 1 < 2 ^ 64 }
    ensures counts { (h : ℕ) → get nat_eq others.new h ≡ cond (nat_eq handle h) (Some (count_at (get nat_eq others.old) handle + 1)) (get nat_eq others.old h) }
    ensures room { spare others.old ≤ spare others.new + 1 }
{
    let count = match others.get(&handle) {
        Some(count) => *count,
        None => 0,
    };
    let put: Result<_, _> = others.insert(handle, count + 1);
    put.unwrap();
}

// Counts a handle once less, and says whether it was counted.
fn count_down(others: &mut HashMap<u32, usize>, handle: u32) -> bool
    ensures found { result ≡ is_some (get nat_eq others.old handle) }
    ensures counts { (h : ℕ) → get nat_eq others.new h ≡ cond (nat_eq handle h) (one_less (get nat_eq others.old handle)) (get nat_eq others.old h) }
    ensures room { spare others.old ≤ spare others.new }
{
    let Some(count) = others.get_mut(&handle) else {
        return false;
    };
    if *count > 1 {
        *count -= 1;
    } else {
        others.remove(&handle);
    }
    true
}

// Takes in a handle that is put last: among the rising ones if it is greater than all before it, else it is counted. Takes no memory:
// there is room.
fn take_in(rising: &mut Vec<u32>, others: &mut HashMap<u32, usize>, handle: u32)
    requires rising_room { vec_len rising.old < vec_capacity rising.old }
    requires others_room { 1 ≤ spare others.old }
    requires few { count_at (get nat_eq others.old) handle + 1 < 2 ^ 64 }
    ensures kept { (hs : List ℕ) → AreKept rising.old.items others.old hs → AreKept rising.new.items others.new (hs ++ handle ∷ []) }
    ensures len { vec_len rising.new ≤ vec_len rising.old + 1 }
    ensures capacity { vec_capacity rising.new ≡ vec_capacity rising.old }
    ensures others_room { spare others.old ≤ spare others.new + 1 }
{
    if is_above(rising, handle) {
        rising.push_reserved(handle);
    } else {
        count_up(others, handle);
    }
}

// Takes out the handle that stood last.
fn take_out(rising: &mut Vec<u32>, others: &mut HashMap<u32, usize>, handle: u32)
    ensures kept { (hs : List ℕ) → AreKept rising.old.items others.old (hs ++ handle ∷ []) → AreKept rising.new.items others.new hs }
    ensures len { vec_len rising.new ≤ vec_len rising.old }
    ensures capacity { vec_capacity rising.new ≡ vec_capacity rising.old }
    ensures others_room { spare others.old ≤ spare others.new }
{
    if !count_down(others, handle) {
        rising.pop();
    }
}

impl HandleList {
    /// No handle. Takes no memory.
    pub(crate) fn new(alloc: Global) -> HandleList
        ensures items { result.items ≡ [] }
        ensures room { result.room ≡ 0 }
    {
        HandleList {
            items: Vec::new(alloc),
            rising: Vec::new(alloc),
            others: HashMap::new(alloc),
            room: 0,
        }
    }

    pub(crate) fn len(&self) -> usize
        ensures { result ≡ length self.now.items }
    {
        self.items.len()
    }

    /// The handle at this index.
    pub(crate) fn at(&self, index: usize) -> u32
        requires { index < length self.now.items }
        ensures value { result ≡ slice_index self.now.items index }
        ensures few { length self.now.items < 2 ^ 64 }
    {
        self.items[index]
    }

    /// Whether this handle is in the list. Where it would stand if no handle is left out is looked at first.
    pub(crate) fn has(&self, handle: u32) -> bool
        ensures { result ≡ list_any (λ (h : ℕ). h == handle) self.now.items }
    {
        if is_at_its_distance(&self.rising, handle) {
            return true;
        }
        self.others.contains_key(&handle) || is_found(&self.rising, handle)
    }

    /// Makes room for a handle more, and for some that may follow it.
    pub(crate) fn make_room(&mut self) -> Result<(), NoMemory>
        ensures room { OnOk result (1 ≤ self.new.room) }
        ensures items { self.new.items ≡ self.old.items }
        ensures kept { OnErr result (self.new ≡ self.old) }
    {
        if self.room == 0 {
            self.items.reserve(AHEAD)?;
            self.rising.reserve(AHEAD)?;
            self.others.reserve(AHEAD)?;
            self.room = AHEAD;
        }
        Ok(())
    }

    /// Puts a handle last. Takes no memory: there is room.
    pub(crate) fn push(&mut self, handle: u32)
        requires room { 1 ≤ self.old.room }
        ensures items { self.new.items ≡ self.old.items ++ handle ∷ [] }
        ensures room { self.new.room + 1 ≡ self.old.room }
        ensures few { length self.new.items < 2 ^ 64 }
    {
        take_in(&mut self.rising, &mut self.others, handle);
        self.items.push_reserved(handle);
        self.room -= 1;
    }

    /// Takes the last handle off.
    pub(crate) fn pop(&mut self) -> Option<u32>
        ensures last { MatchOption result (self.old.items ≡ []) (λ h. self.old.items ≡ self.new.items ++ h ∷ []) }
        ensures none { IfNone result (self.new ≡ self.old) }
        ensures room { self.new.room ≡ self.old.room }
    {
        let handle = self.items.pop()?;
        take_out(&mut self.rising, &mut self.others, handle);
        Some(handle)
    }
}

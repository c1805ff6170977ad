ghost use Rattle.std.specs.Prelude.{◌≡◌, ◌<◌, ◌≤◌, ◌+◌, ◌-◌, ◌^◌, ◌++◌, ◌∷◌, [], ℕ, List, true, false, length, take, drop, slice_get, Some, None, MatchOption, IfSome, IfOk, vec_len, vec_capacity};
ghost use Rattle.std.specs.Option.{option_map, option_to_list};
ghost use Rattle.plane_terms.specs.Lists.{Every};
ghost use Rattle.topology_terms.specs.Feature.{Class, feature_at, IsSetAt};
ghost use Rattle.feature_store.specs.declared.slot.Slot.{Slot};
ghost use Rattle.feature_store.specs.declared.slot.Slot.TheVariants as slot;
ghost use Rattle.feature_store.specs.Slots.{handle_in, feature_in, slot_of, filled};
ghost use Rattle.feature_store.specs.Keeps.{HasSimpleSides, IsGiven, IsOfClass};
ghost use Rattle.feature_store.specs.Places.{AreSlots, IsPlace, IsHere, IsGap, IsFound};

use crate::slot::Slot;
use grid_plane::NoMemory;
use shape::Feature;
use std::alloc::Global;
use std::mem;

// Whether the slot of this handle stands at this place.
fn is_at(slots: &[Slot], place: usize, handle: u32) -> bool
    requires { AreSlots slots.now }
    ensures here { result ≡ true → IsHere handle slots.now place }
    ensures gap { result ≡ false → IsPlace handle slots.now place → IsGap handle slots.now place }
{
    place < slots.len() && slots[place].handle() == handle
}

// How many of the slots have handles below this one; they come first.
fn place_of(slots: &[Slot], handle: u32) -> usize
    requires { AreSlots slots.now }
    ensures { IsPlace handle slots.now result }
{
    slots.partition_point(|s| s.handle() < handle)
}

/// The place of the slot of this handle; where there is none, the place at which it would stand. Takes one step where no slot
/// before it is gone, else steps for the logarithm of their number.
pub fn find(slots: &[Slot], handle: u32) -> Result<usize, usize>
    requires { AreSlots slots.now }
    ensures { IsFound handle slots.now result }
{
    let near = handle.saturating_sub(1) as usize;
    if is_at(slots, near, handle) {
        return Ok(near);
    }
    let place = place_of(slots, handle);
    if is_at(slots, place, handle) {
        return Ok(place);
    }
    Err(place)
}

/// The feature of this handle.
pub fn feature_of(slots: &[Slot], handle: u32) -> Option<&Feature>
    requires { AreSlots slots.now }
    ensures { MatchOption result (feature_at (filled slots.now) handle ≡ None) (λ f. feature_at (filled slots.now) handle ≡ Some f.now) }
{
    match find(slots, handle) {
        Ok(place) => slots[place].feature(),
        Err(_) => None,
    }
}

/// The feature in the last of the slots that are filled.
pub fn last_of(slots: &[Slot]) -> Option<&Feature>
    ensures { MatchOption result (filled slots.now ≡ []) (λ f. slice_get (filled slots.now) (length (filled slots.now) - 1) ≡ Some f.now) }
{
    let mut left = slots.len();
    while left > 0 {
        left -= 1;
        if let Some(feature) = slots[left].feature() {
            return Some(feature);
        }
    }
    None
}

// Puts the kept feature, or its absence, into the slot that stands there, of this handle; what stood in it is then kept.
fn swap_at(slots: &mut Vec<Slot>, place: usize, handle: u32, kept: &mut Option<Feature>)
    requires { place < vec_len slots.old }
    ensures list { slots.new.items ≡ take place slots.old.items ++ (slot_of handle kept.old ∷ drop (place + 1) slots.old.items) }
    ensures kept { option_map feature_in (slice_get slots.old.items place) ≡ Some kept.new }
{
    let comes = Slot::of(handle, kept.take());
    *kept = mem::replace(&mut slots[place], comes).into_feature();
}

// Puts a slot of the kept feature, where there is one, before the slot that stands there.
fn put_at(slots: &mut Vec<Slot>, place: usize, kept: &mut Option<Feature>)
    requires room { vec_len slots.old < vec_capacity slots.old }
    requires within { place ≤ vec_len slots.old }
    ensures list { slots.new.items ≡ take place slots.old.items ++ (option_to_list (option_map (λ f. slot.Filled f) kept.old) ++ drop place slots.old.items) }
    ensures kept { kept.new ≡ None }
{
    if let Some(feature) = kept.take() {
        slots.insert(place, Slot::Filled(feature)).unwrap();
    }
}

/// Puts the kept feature, or its absence, in place of the one of this handle, or of its absence, which is then kept. Where
/// there is a slot of this handle, no other slot is touched.
pub fn exchange(slots: &mut Vec<Slot>, handle: u32, kept: &mut Option<Feature>)
    requires ascending { AreSlots slots.old.items }
    requires own { IfSome kept.old (λ f. f.handle ≡ handle) }
    requires room { vec_len slots.old < vec_capacity slots.old }
    ensures set { IsSetAt handle kept.old (filled slots.old.items) (filled slots.new.items) }
    ensures stood { kept.new ≡ feature_at (filled slots.old.items) handle }
    ensures ascending { AreSlots slots.new.items }
    ensures below { (n : ℕ) → handle < n → Every (λ (s : Slot). handle_in s < n) slots.old.items → Every (λ (s : Slot). handle_in s < n) slots.new.items }
    ensures live { length (filled slots.new.items) + length (option_to_list kept.new) ≡ length (filled slots.old.items) + length (option_to_list kept.old) }
    ensures given { (n : ℕ) → Every (IsGiven n) (filled slots.old.items) → IfSome kept.old (IsGiven n) → Every (IsGiven n) (filled slots.new.items) }
    ensures kinds { (cs : List Class) → Every (IsOfClass cs) (filled slots.old.items) → IfSome kept.old (IsOfClass cs) → Every (IsOfClass cs) (filled slots.new.items) }
    ensures simple { Every HasSimpleSides (filled slots.old.items) → IfSome kept.old HasSimpleSides → Every HasSimpleSides (filled slots.new.items) }
{
    match find(slots, handle) {
        Ok(place) => swap_at(slots, place, handle, kept),
        Err(place) => put_at(slots, place, kept),
    }
}

/// The law that where there is room for a slot more, the slots and one more can be counted.
pub fn count_law(slots: &Vec<Slot>)
    requires { vec_len slots.now < vec_capacity slots.now }
    ensures { vec_len slots.now + 1 < 2 ^ 64 }
{
    slots.capacity();
}

/// How many features are kept: one or none.
pub fn kept_count(kept: &Option<Feature>) -> usize
    ensures count { result ≡ length (option_to_list kept.now) }
    ensures few { result ≤ 1 }
{
    if kept.is_some() { 1 } else { 0 }
}

/// The law that the segments of a kept feature are proper, and of a polygon meet at ends alone and are some.
pub fn kept_law(kept: &Option<Feature>)
    ensures { IfSome kept.now HasSimpleSides }
{
    if let Some(feature) = kept {
        feature.shape().simple_law();
    }
}

/// The same slots once more.
pub fn copy_slots(alloc: Global, slots: &[Slot]) -> Result<Vec<Slot>, NoMemory>
    ensures { IfOk result (λ v. v.items ≡ slots.now) }
{
    let mut copy = Vec::new(alloc);
    for slot in slots {
        copy.push(slot.try_copy(alloc)?)?;
    }
    Ok(copy)
}

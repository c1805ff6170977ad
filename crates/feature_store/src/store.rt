ghost use Rattle.std.specs.Prelude.{◌≡◌, ◌≤◌, ◌<◌, ◌+◌, ◌++◌, ◌∷◌, ℕ, [], length, slice_get, Some, None, Option, MatchOption, IfSome, IfOk, IfErr, OnOk, OnErr};
ghost use Rattle.std.specs.Option.{option_map};
ghost use Rattle.topology_terms.specs.Feature.{feature_at, IsSetAt};
ghost use Rattle.topology_terms.specs.Feature as terms;
ghost use Rattle.topology_terms.specs.Lookups.{class_at, number_from, kind_of_class};
ghost use Rattle.topology_terms.specs.Causes.{Tells, class_cause, add_cause};
ghost use Rattle.feature_store.specs.Stored.{IsSame};
ghost use Rattle.feature_store.specs.Keeps.{IsOfClass, IsStore};
ghost use Rattle.feature_store.specs.Faults.{store_cause};

use crate::class::{Class, class_number, copy_classes};
use crate::fault::StoreFault;
use crate::features::Features;
use crate::slot::Slot;
use crate::slots::{copy_slots, count_law, exchange, feature_of, kept_count, kept_law};
use grid_plane::{Name, NoMemory};
use shape::{Feature, Kind, Shape};
use std::alloc::Global;
use std::marker::Model;

// The most classes there may be.
const CLASS_LIMIT: usize = 64;

/// The classes, numbered from 1, and the live features under their handles: a finite map. Handles are given once, from 1
/// upwards. A feature that goes leaves its slot empty, so that no other moves.
#[derive(Drop)]
pub struct Store {
    classes: Vec<Class>,
    slots: Vec<Slot>,
    live: usize,
    next: u32,
}

impl Model for Store {
    ghost use Rattle.std.specs.Prelude.{◌-◌, vec_len, vec_capacity};
    ghost use Rattle.feature_store.specs.Stored.{Stored};
    ghost use Rattle.feature_store.specs.Keeps.{IsStore};
    ghost use Rattle.feature_store.specs.Slots.{filled, IsSlotted};

    ghost Value = { Stored };

    ghost view = { λ s. record { classes = s.classes.items; features = filled s.slots.items; next = s.next; room = vec_capacity s.slots - vec_len s.slots } };

    ghost invariant = { λ s. IsStore s.classes.items (filled s.slots.items) s.next × IsSlotted s.slots.items s.next s.live };
}

impl Store {
    /// No class and no feature; the next handle is 1.
    pub fn new(alloc: Global) -> Store
        ensures classes { result.classes ≡ [] }
        ensures features { result.features ≡ [] }
        ensures next { result.next ≡ 1 }
    {
        Store {
            classes: Vec::new(alloc),
            slots: Vec::new(alloc),
            live: 0,
            next: 1,
        }
    }

    /// Adds a class of this name and kind and answers its number, from 1 up. Refused where the name is taken, then where
    /// there are 64 classes; after a refusal nothing has changed.
    pub fn add_class(&mut self, name: Name, kind: Kind) -> Result<u16, StoreFault>
        ensures number { IfOk result (λ n. n ≡ length self.old.classes + 1) }
        ensures added { OnOk result (self.new.classes ≡ self.old.classes ++ record { name = name; kind = kind } ∷ []) }
        ensures may { OnOk result (class_cause self.old.classes name ≡ None) }
        ensures refused { IfErr result (λ e. Tells (store_cause e) (class_cause self.old.classes name)) }
        ensures features { self.new.features ≡ self.old.features }
        ensures next { self.new.next ≡ self.old.next }
        ensures err { OnErr result (self.new.classes ≡ self.old.classes) }
    {
        if class_number(&self.classes, &name).is_some() {
            return Err(StoreFault::ClassTaken);
        }
        if self.classes.len() == CLASS_LIMIT {
            return Err(StoreFault::ClassesFull);
        }
        self.classes.push(Class::new(name, kind))?;
        Ok(self.classes.len() as u16)
    }

    /// The number of the class of this name.
    pub fn class_by_name(&self, name: &Name) -> Option<u16>
        ensures { result ≡ number_from 1 self.now.classes name.now }
    {
        class_number(&self.classes, name)
    }

    /// How many classes there are; they have the numbers from 1 to this.
    pub fn class_count(&self) -> u16
        ensures count { result ≡ length self.now.classes }
        ensures few { result ≤ 64 }
    {
        self.classes.len() as u16
    }

    // The class of this number.
    fn class(&self, class: u16) -> Option<&Class>
        ensures { MatchOption result (class_at self.now.classes class ≡ None) (λ c. class_at self.now.classes class ≡ Some c.now) }
    {
        if class == 0 {
            return None;
        }
        self.classes.get(usize::from(class) - 1)
    }

    /// The name of the class of this number, where there is one.
    pub fn class_name(&self, class: u16) -> Option<&Name>
        ensures { MatchOption result (class_at self.now.classes class ≡ None) (λ n. option_map (λ (c : terms.Class). c.name) (class_at self.now.classes class) ≡ Some n.now) }
    {
        Some(self.class(class)?.name())
    }

    /// The kind of the shapes of the class of this number, where there is one.
    pub fn class_kind(&self, class: u16) -> Option<Kind>
        ensures { result ≡ kind_of_class self.now.classes class }
    {
        Some(self.class(class)?.kind())
    }

    /// Whether a feature of this class and shape may be added. Refused where there is no such class, then where the kinds
    /// differ, then where the next handle is 4,294,967,295.
    pub fn check_add(&self, class: u16, shape: &Shape) -> Result<(), StoreFault>
        ensures may { OnOk result (add_cause self.now.classes self.now.next class shape.now.kind ≡ None) }
        ensures refused { IfErr result (λ e. Tells (store_cause e) (add_cause self.now.classes self.now.next class shape.now.kind)) }
    {
        let Some(kind) = self.class_kind(class) else {
            return Err(StoreFault::NoClass);
        };
        if shape.kind() != kind {
            return Err(StoreFault::WrongKind);
        }
        if self.next == u32::MAX {
            return Err(StoreFault::HandlesSpent);
        }
        Ok(())
    }

    /// Adds a feature of the class of this number and of the subtype, and answers its handle, the next one, which then rises by one.
    /// Takes no memory: there is room.
    pub fn add_typed_in(&mut self, class: u16, subtype: u8, shape: Shape) -> u32
        requires may { add_cause self.old.classes self.old.next class shape.kind ≡ None }
        requires room { 1 ≤ self.old.room }
        ensures number { result ≡ self.old.next }
        ensures classes { self.new.classes ≡ self.old.classes }
        ensures features { self.new.features ≡ self.old.features ++ terms.feature_of result class subtype shape ∷ [] }
        ensures next { self.new.next ≡ self.old.next + 1 }
    {
        shape.simple_law();
        let handle = self.next;
        count_law(&self.slots);
        let feature = Feature::typed(handle, class, subtype, shape);
        self.slots.push_reserved(Slot::Filled(feature));
        self.live += 1;
        self.next = handle + 1;
        handle
    }

    /// Adds a feature of the class of this number and of the subtype, and answers its handle, the next one, which then rises by one.
    /// Refused where there is no such class, then where the kinds differ, then where the next handle is 4,294,967,295; after a refusal
    /// nothing has changed.
    pub fn add_typed(&mut self, class: u16, subtype: u8, shape: Shape) -> Result<u32, StoreFault>
        ensures number { IfOk result (λ h. h ≡ self.old.next) }
        ensures added { IfOk result (λ h. self.new.features ≡ self.old.features ++ terms.feature_of h class subtype shape ∷ []) }
        ensures next { OnOk result (self.new.next ≡ self.old.next + 1) }
        ensures may { OnOk result (add_cause self.old.classes self.old.next class shape.kind ≡ None) }
        ensures refused { IfErr result (λ e. Tells (store_cause e) (add_cause self.old.classes self.old.next class shape.kind)) }
        ensures classes { self.new.classes ≡ self.old.classes }
        ensures err { OnErr result (IsSame self.old self.new) }
    {
        self.check_add(class, &shape)?;
        self.room()?;
        Ok(self.add_typed_in(class, subtype, shape))
    }

    /// Adds a feature of the subtype 0, as `add_typed` does.
    pub fn add(&mut self, class: u16, shape: Shape) -> Result<u32, StoreFault>
        ensures number { IfOk result (λ h. h ≡ self.old.next) }
        ensures added { IfOk result (λ h. self.new.features ≡ self.old.features ++ terms.feature_of h class 0 shape ∷ []) }
        ensures next { OnOk result (self.new.next ≡ self.old.next + 1) }
        ensures may { OnOk result (add_cause self.old.classes self.old.next class shape.kind ≡ None) }
        ensures refused { IfErr result (λ e. Tells (store_cause e) (add_cause self.old.classes self.old.next class shape.kind)) }
        ensures classes { self.new.classes ≡ self.old.classes }
        ensures err { OnErr result (IsSame self.old self.new) }
    {
        self.add_typed(class, 0, shape)
    }

    /// The live feature of this handle. Takes steps for the logarithm of the number of slots.
    pub fn get(&self, handle: u32) -> Option<&Feature>
        ensures { MatchOption result (feature_at self.now.features handle ≡ None) (λ f. feature_at self.now.features handle ≡ Some f.now) }
    {
        feature_of(&self.slots, handle)
    }

    /// How many live features there are.
    pub fn len(&self) -> usize
        ensures { result ≡ length self.now.features }
    {
        self.live
    }

    /// The live features in order of handles.
    pub fn features(&self) -> Features<'_>
        ensures value { result ≡ self.now.features }
        ensures keeps { IsStore self.now.classes self.now.features self.now.next }
    {
        Features::of(&self.slots)
    }

    /// The handle that comes next.
    pub fn next_handle(&self) -> u32
        ensures next { result ≡ self.now.next }
        ensures from_1 { 1 ≤ result }
    {
        self.next
    }

    /// Raises the next handle.
    pub fn set_next(&mut self, next: u32)
        requires { self.old.next ≤ next }
        ensures classes { self.new.classes ≡ self.old.classes }
        ensures features { self.new.features ≡ self.old.features }
        ensures next { self.new.next ≡ next }
        ensures room { self.new.room ≡ self.old.room }
    {
        self.next = next;
    }

    /// Makes room for a feature more, so that the next addition or exchange wants no memory.
    pub fn room(&mut self) -> Result<(), NoMemory>
        ensures room { OnOk result (1 ≤ self.new.room) }
        ensures same { IsSame self.old self.new }
    {
        self.slots.reserve(1)?;
        Ok(())
    }

    /// Exchanges the live feature of this handle, or its absence, with the kept one. Takes no memory: there is room.
    pub fn swap_in(&mut self, handle: u32, kept: &mut Option<Feature>)
        requires from_1 { 1 ≤ handle }
        requires given { handle < self.old.next }
        requires own { IfSome kept.old (λ f. f.handle ≡ handle) }
        requires fits { IfSome kept.old (IsOfClass self.old.classes) }
        requires room { 1 ≤ self.old.room }
        ensures stood { kept.new ≡ feature_at self.old.features handle }
        ensures set { IsSetAt handle kept.old self.old.features self.new.features }
        ensures classes { self.new.classes ≡ self.old.classes }
        ensures next { self.new.next ≡ self.old.next }
        ensures own { IfSome kept.new (λ f. f.handle ≡ handle) }
        ensures fits { IfSome kept.new (IsOfClass self.new.classes) }
    {
        kept_law(kept);
        count_law(&self.slots);
        let comes = kept_count(kept);
        exchange(&mut self.slots, handle, kept);
        self.live = self.live + comes - kept_count(kept);
    }

    /// Exchanges the live feature of this handle, or its absence, with the kept one. After a refusal, out of memory,
    /// nothing has changed.
    pub fn swap(&mut self, handle: u32, kept: &mut Option<Feature>) -> Result<(), NoMemory>
        requires from_1 { 1 ≤ handle }
        requires given { handle < self.old.next }
        requires own { IfSome kept.old (λ f. f.handle ≡ handle) }
        requires fits { IfSome kept.old (IsOfClass self.old.classes) }
        ensures stood { OnOk result (kept.new ≡ feature_at self.old.features handle) }
        ensures set { OnOk result (IsSetAt handle kept.old self.old.features self.new.features) }
        ensures classes { self.new.classes ≡ self.old.classes }
        ensures next { self.new.next ≡ self.old.next }
        ensures own { IfSome kept.new (λ f. f.handle ≡ handle) }
        ensures fits { IfSome kept.new (IsOfClass self.new.classes) }
        ensures err { OnErr result (IsSame self.old self.new) }
        ensures same { OnErr result (kept.new ≡ kept.old) }
    {
        self.room()?;
        self.swap_in(handle, kept);
        Ok(())
    }

    /// An equal store.
    pub fn try_copy(&self, alloc: Global) -> Result<Store, NoMemory>
        ensures { IfOk result (λ s. IsSame self.now s) }
    {
        Ok(Store {
            classes: copy_classes(alloc, &self.classes)?,
            slots: copy_slots(alloc, &self.slots)?,
            live: self.live,
            next: self.next,
        })
    }
}

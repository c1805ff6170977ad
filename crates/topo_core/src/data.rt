ghost use Rattle.std.specs.Prelude.{◌≡◌, ◌⊎◌, Contains, IfOk, IfSome, OnOk};
ghost use Rattle.std.specs.Option.{option_to_list};
ghost use Rattle.plane_terms.specs.Lists.{Every, SomeOf};
ghost use Rattle.plane_terms.specs.Cell as cell_terms;
ghost use Rattle.plane_terms.specs.HalfPlane.{IsHalfPlane};
ghost use Rattle.plane_terms.specs.Rectangle.{IsRectangle};
ghost use Rattle.topology_terms.specs.Feature as terms;
ghost use Rattle.topology_terms.specs.Feature.{env};
ghost use Rattle.topology_terms.specs.Lookups.{class_at};
ghost use Rattle.project_terms.specs.Records.{IsRecord, HasSmallSides};
ghost use Rattle.project_terms.specs.Written.{project_text};
ghost use Rattle.feature_store.specs.Slots.{feature_in, filled};
ghost use Rattle.grid_index.specs.declared.placed.Placed as seats;
ghost use Rattle.validation.specs.Placed.{placed_of};
ghost use Rattle.topo_core.specs.Topologies.{IsNamed, IsFormed, IsDrawn};

use crate::growth::store_law;
use crate::places::place_of;
use crate::topology::Topology;
use convex_cell::{BorrowedCell, Cells};
use error_store::{Entry, Errors};
use feature_store::{Slot, Store};
use grid_index::Index;
use grid_plane::NoMemory;
use project_text::{ProjectData, write_parts};
use rule_core::{InForce, KindRules};
use std::alloc::Global;
use step_count::Count;

// Puts the place of the feature in the slot, where it is filled, into the index; its envelope is a rectangle of the grid.
fn put_slot(index: &mut Index<Count>, slot: &Slot) -> Result<(), NoMemory>
    ensures there { OnOk result (Every (λ (f : terms.Feature). Contains index.new (placed_of f)) (option_to_list (feature_in slot.now))) }
    ensures kept { OnOk result ((q : seats.Placed) → Contains index.old q → Contains index.new q) }
    ensures only { OnOk result ((q : seats.Placed) → Contains index.new q → Contains index.old q ⊎ SomeOf (λ (f : terms.Feature). q ≡ placed_of f) (option_to_list (feature_in slot.now))) }
    ensures on_grid { OnOk result (Every (λ (f : terms.Feature). IsRectangle (env f)) (option_to_list (feature_in slot.now))) }
{
    match slot.feature() {
        Some(feature) => {
            feature.shape().env().corner_law();
            index.put(place_of(feature))
        }
        None => Ok(()),
    }
}

// An index in which each of the features stands, and nothing else; the envelope of each is a rectangle of the grid.
fn index_of(alloc: Global, slots: &[Slot]) -> Result<Index<Count>, NoMemory>
    ensures there { IfOk result (λ index. Every (λ (f : terms.Feature). Contains index (placed_of f)) (filled slots.now)) }
    ensures only { IfOk result (λ index. (q : seats.Placed) → Contains index q → SomeOf (λ (f : terms.Feature). q ≡ placed_of f) (filled slots.now)) }
    ensures on_grid { IfOk result (λ _. Every (λ (f : terms.Feature). IsRectangle (env f)) (filled slots.now)) }
{
    let mut index = Index::new(alloc);
    for slot in slots {
        put_slot(&mut index, slot)?;
    }
    Ok(index)
}

// The law that the class of this number, where there is one, has a name.
fn name_law(store: &Store, class: u16)
    ensures { IfSome (class_at store.now.classes class) IsNamed }
{
    if let Some(name) = store.class_name(class) {
        name.bytes();
    }
}

// The law that each class has a name.
fn names_law(store: &Store)
    ensures { Every IsNamed store.now.classes }
{
    for before in 0..store.class_count() {
        name_law(store, before + 1);
    }
}

// The law that the feature in a slot, where it is filled, has a valid shape and a small subtype.
fn slot_law(slot: &Slot)
    ensures { Every IsFormed (option_to_list (feature_in slot.now)) }
{
    match slot.feature() {
        Some(feature) => {
            feature.subtype();
            feature.shape().kind();
        }
        None => {}
    }
}

// The law that each feature has a valid shape and a small subtype.
fn slots_law(slots: &[Slot])
    ensures { Every IsFormed (filled slots.now) }
{
    for slot in slots {
        slot_law(slot);
    }
}

// The law that the sides of a rule bind small subtypes, where they bind any.
fn rule_law(rule: &InForce)
    ensures { HasSmallSides rule.now }
{
    let row = &rule.row;
    row.origin.subtype();
    row.dest_side().subtype();
}

// The law that the sides of each rule do.
fn rules_law(rules: &[InForce])
    ensures { Every HasSmallSides rules.now }
{
    for rule in rules {
        rule_law(rule);
    }
}

// The law that each half-plane of a cell keeps its limits.
fn cell_law(cell: &BorrowedCell<'_>)
    ensures { Every IsHalfPlane cell.now }
{
    for i in 0..cell.len() {
        cell.half(i).a();
    }
}

// The law of each cell of the list.
fn cells_law(cells: &Cells)
    ensures { Every (λ (c : cell_terms.Cell). Every IsHalfPlane c) cells.now }
{
    for i in 0..cells.len() {
        cell_law(&cells.cell(i));
    }
}

// The law of the frame and the cells of each error of a run.
fn run_law(entries: &[Entry])
    ensures { Every IsDrawn entries.now }
{
    for entry in entries {
        entry.frame().corner_law();
        cells_law(entry.cells());
    }
}

// The law of the frame and the cells of each error.
fn errors_law(errors: &Errors)
    ensures { Every IsDrawn errors.now }
{
    for run in errors.by_pair().values() {
        run_law(run);
    }
}

impl<R: KindRules> Topology<R> {
    /// The topology of what was saved, judged by these rules.
    pub fn from_data(alloc: Global, judging: R, saved: ProjectData) -> Result<Topology<R>, NoMemory>
    where
        R: Drop,
        requires { IsRecord saved }
        ensures { IfOk result (λ t. t ≡ saved) }
    {
        store_law(&saved.store);
        let index = index_of(alloc, saved.store.features().slots())?;
        Ok(Topology {
            alloc,
            judging,
            store: saved.store,
            index,
            rules: saved.rules,
            dirt: saved.dirt,
            entries: saved.errors,
        })
    }

    /// The law that a text can say what is saved of the topology.
    pub fn record_law(&self)
        ensures { IsRecord self.now }
    {
        self.store.next_handle();
        names_law(&self.store);
        slots_law(self.store.features().slots());
        rules_law(&self.rules);
        self.dirt.loose_law();
        errors_law(&self.entries);
    }

    /// The text of what is saved of the topology.
    pub fn to_text(&self) -> Result<Vec<u8>, NoMemory>
        ensures { IfOk result (λ text. text.items ≡ project_text self.now) }
    {
        write_parts(
            self.alloc,
            &self.store,
            &self.rules,
            &self.dirt,
            &self.entries,
        )
    }

    /// What is saved of the topology: a copy, which a later change of the topology leaves as it is.
    pub fn to_data(&self) -> Result<ProjectData, NoMemory>
        ensures same { IfOk result (λ d. d ≡ self.now) }
        ensures valid { IfOk result (λ d. IsRecord d) }
    {
        self.record_law();
        Ok(ProjectData {
            store: self.store.try_copy(self.alloc)?,
            rules: Vec::from_slice(self.alloc, &self.rules)?,
            dirt: self.dirt.try_copy(self.alloc)?,
            errors: self.entries.try_copy(self.alloc)?,
        })
    }

    /// An equal topology, judged by the same rules. An `Err` means out of memory.
    pub fn try_copy(&self) -> Result<Topology<R>, NoMemory>
    where
        R: Copy + Drop,
        ensures { IfOk result (λ t. t ≡ self.now) }
    {
        let saved = self.to_data()?;
        Topology::from_data(self.alloc, self.judging, saved)
    }
}

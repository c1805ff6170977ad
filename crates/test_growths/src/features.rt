use crate::call::{Call, Made};
use error_store::Key;
use feature_store::{Kind, Name, Shape, Store, StoreFault};
use grid_plane::{NoMemory, Rect};
use rule_core::{RuleRow, Side, Work};
use rule_words::RuleKind;
use rules::PosterRules;
use std::alloc::Global;
use topo_core::{ChangeFault, RuleFault, Topology};
use wkt_text::read_wkt;

// A square lot of side 10 that begins at this abscissa.
fn lot(alloc: Global, x: i32) -> Result<Shape, NoMemory> {
    let (left, right) = (i64::from(x), i64::from(x) + 10);
    let text = format!(in alloc;
        "POLYGON (({left} 0, {right} 0, {right} 10, {left} 10, {left} 0))"
    )?;
    if text.len() > 1000 {
        return Err(NoMemory);
    }
    read_wkt(alloc, text.as_bytes()).map_err(|_| NoMemory)
}

/// A call of a store.
pub enum StoreCall {
    /// A class of polygons is added.
    AddClass,
    /// A lot that begins at this abscissa is added to the first class.
    Add(i32),
    /// The feature of this handle is exchanged with none.
    Swap(u32),
}

/// Calls of an empty store.
pub const STORE: [StoreCall; 6] = [
    StoreCall::AddClass,
    StoreCall::Add(0),
    StoreCall::Add(5),
    StoreCall::Add(10),
    StoreCall::Add(15),
    StoreCall::Swap(2),
];

fn added<T: Drop>(ended: Result<T, StoreFault>) -> Made {
    match ended {
        Err(StoreFault::NoMemory) => Made::NoMemory,
        _ => Made::Done,
    }
}

fn swap_in_store(store: &mut Store, handle: u32) -> Made {
    if handle == 0 || handle >= store.next_handle() {
        return Made::Done;
    }
    let mut kept = None;
    match store.swap(handle, &mut kept) {
        Ok(()) => Made::Done,
        Err(_) => Made::NoMemory,
    }
}

impl Call<Store> for StoreCall {
    fn name(&self) -> &str {
        match self {
            StoreCall::AddClass => "add_class",
            StoreCall::Add(_) => "add",
            StoreCall::Swap(_) => "swap",
        }
    }

    fn make(&self, alloc: Global, store: &mut Store) -> Result<Made, NoMemory> {
        match self {
            StoreCall::AddClass => {
                let name = Name::of(b"lots").ok_or(NoMemory)?;
                Ok(added(store.add_class(name, Kind::Polygon)))
            }
            StoreCall::Add(x) => Ok(added(store.add(1, lot(alloc, *x)?))),
            StoreCall::Swap(handle) => Ok(swap_in_store(store, *handle)),
        }
    }
}

/// A call of a topology.
pub enum TopologyCall {
    /// A class of polygons is added.
    AddClass,
    /// Must Not Overlap is put in force for it.
    AddRule,
    /// A lot that begins at this abscissa is added.
    Add(i32),
    /// The lot of this handle is moved to this abscissa.
    Change(u32, i32),
    /// The lot of this handle is taken away.
    Delete(u32),
    /// The lot of this handle is exchanged with none.
    Swap(u32),
    /// All is validated.
    Validate,
    /// The error of these two lots becomes an exception.
    Mark(u32, u32),
}

/// Calls of an empty topology. So many lots stand before a change, a deletion and an exchange that each needs room for one more.
pub const TOPOLOGY: [TopologyCall; 26] = [
    TopologyCall::AddClass,
    TopologyCall::AddRule,
    TopologyCall::Add(0),
    TopologyCall::Add(5),
    TopologyCall::Add(10),
    TopologyCall::Add(15),
    TopologyCall::Change(4, 12),
    TopologyCall::Validate,
    TopologyCall::Mark(1, 2),
    TopologyCall::Add(30),
    TopologyCall::Add(35),
    TopologyCall::Add(40),
    TopologyCall::Add(45),
    TopologyCall::Delete(3),
    TopologyCall::Validate,
    TopologyCall::Add(60),
    TopologyCall::Add(65),
    TopologyCall::Add(70),
    TopologyCall::Add(75),
    TopologyCall::Add(80),
    TopologyCall::Add(85),
    TopologyCall::Add(90),
    TopologyCall::Add(95),
    TopologyCall::Add(100),
    TopologyCall::Swap(5),
    TopologyCall::Validate,
];

fn changed<T: Drop>(ended: Result<T, ChangeFault>) -> Made {
    match ended {
        Err(ChangeFault::NoMemory) => Made::NoMemory,
        _ => Made::Done,
    }
}

fn add_class(town: &mut Topology<PosterRules>) -> Result<Made, NoMemory> {
    let name = Name::of(b"lots").ok_or(NoMemory)?;
    match town.add_class(name, Kind::Polygon) {
        Err(StoreFault::NoMemory) => Ok(Made::NoMemory),
        _ => Ok(Made::Done),
    }
}

fn add_rule(town: &mut Topology<PosterRules>) -> Made {
    let row = RuleRow {
        kind: RuleKind::PolygonMustNotOverlap,
        origin: Side {
            class: 1,
            subtype: None,
        },
        dest: None,
    };
    match town.add_rule(row) {
        Err(RuleFault::NoMemory) => Made::NoMemory,
        _ => Made::Done,
    }
}

fn swap(town: &mut Topology<PosterRules>, handle: u32) -> Made {
    if handle == 0 || handle >= town.store().next_handle() {
        return Made::Done;
    }
    let mut kept = None;
    match town.swap(handle, &mut kept) {
        Ok(()) => Made::Done,
        Err(_) => Made::NoMemory,
    }
}

fn validate(town: &mut Topology<PosterRules>) -> Made {
    let mut work = Work::new();
    match town.validate(Rect::whole(), &mut work) {
        Ok(_) => Made::Done,
        Err(_) => Made::NoMemory,
    }
}

impl Call<Topology<PosterRules>> for TopologyCall {
    fn name(&self) -> &str {
        match self {
            TopologyCall::AddClass => "add_class",
            TopologyCall::AddRule => "add_rule",
            TopologyCall::Add(_) => "add",
            TopologyCall::Change(_, _) => "change",
            TopologyCall::Delete(_) => "delete",
            TopologyCall::Swap(_) => "swap",
            TopologyCall::Validate => "validate",
            TopologyCall::Mark(_, _) => "mark",
        }
    }

    fn make(&self, alloc: Global, town: &mut Topology<PosterRules>) -> Result<Made, NoMemory> {
        match self {
            TopologyCall::AddClass => add_class(town),
            TopologyCall::AddRule => Ok(add_rule(town)),
            TopologyCall::Add(x) => Ok(changed(town.add(1, lot(alloc, *x)?))),
            TopologyCall::Change(handle, x) => Ok(changed(town.change(*handle, lot(alloc, *x)?))),
            TopologyCall::Delete(handle) => Ok(changed(town.delete(*handle))),
            TopologyCall::Swap(handle) => Ok(swap(town, *handle)),
            TopologyCall::Validate => Ok(validate(town)),
            TopologyCall::Mark(subject, other) => {
                let _ = town.mark(Key::of_numbers(1, *subject, *other), true);
                Ok(Made::Done)
            }
        }
    }
}

ghost use Rattle.std.specs.Prelude.{◌≡◌, ◌≢◌, ◌↔◌, ◌<◌, ◌≤◌, [], ◌++◌, List, ℕ, length, take, cond, is_some, Some, IfOk, IfSome, OnOk, OnErr, IsTrue};
ghost use Rattle.plane_terms.specs.declared.kind.Kind.TheVariants as kind;
ghost use Rattle.topology_terms.specs.Counts.{raised};
ghost use Rattle.rule_core.specs.Junctions.{after_put, handles_at};
ghost use Rattle.rule_core.specs.Kept.{IsPut, KeepsMost, cells_of, kept_at, looked, made_of, most_features, most_halves, size_of, total};
ghost use Rattle.rule_core.specs.Work.{after_look, asked_at, entries_of, kept_for, kept_of, places_of, unused};

use crate::junctions::Junctions;
use crate::keeping::Keeping;
use crate::region::Region;
use convex_cell::BoundedCells;
use grid_plane::{GridPoint, NoMemory};
use shape::Feature;
use std::alloc::Global;
use std::marker::Model;
use std::rc::Rc;

/// How often a rule was tried on a subject: a count that stops at its greatest number. It also keeps cells of polygons, and counts
/// how often kept ones were found; and handles of features at places where many meet, for the next judgements, and a list for the
/// handles near the next subject. What is kept changes no answer of a rule.
#[derive(Drop)]
pub struct Work {
    judged: u64,
    hits: u64,
    insides: Option<Keeping>,
    outsides: Option<Keeping>,
    junctions: Option<Junctions>,
    handles: Option<Vec<u32>>,
}

impl Model for Work {
    ghost use Rattle.rule_core.specs.Work as terms;

    ghost Value = { terms.Work };

    ghost use Rattle.std.specs.Prelude.{◌≡◌, IfSome};
    ghost use Rattle.rule_core.specs.declared.region.Region.TheVariants as region;

    ghost view = { λ w. record { judged = w.judged; hits = w.hits; insides = terms.entries_of w.insides; outsides = terms.entries_of w.outsides; junctions = terms.places_of w.junctions } };

    ghost invariant = { λ w. IfSome w.insides (λ k. k.region ≡ region.Inside) × IfSome w.outsides (λ k. k.region ≡ region.Outside) };
}

fn look_in(
    keeping: &mut Option<Keeping>,
    hits: &mut u64,
    region: Region,
    f: &Feature,
) -> Result<Option<Rc<BoundedCells>>, NoMemory>
    requires { IfSome keeping.old (λ k. k.region ≡ region) }
    ensures cells { IfOk result (λ found. IfSome found (λ cells. cells.value ≡ cells_of region f.now.shape)) }
    ensures found { IfOk result (λ found. IsTrue (is_some found) ↔ (kept_at (entries_of keeping.old) f.now.handle ≡ Some (made_of region f.now.shape))) }
    ensures after { IfOk result (λ found. entries_of keeping.new ≡ looked (is_some found) (entries_of keeping.old) f.now.handle) }
    ensures hits { IfOk result (λ found. hits.new ≡ cond (is_some found) (raised hits.old 1) hits.old) }
    ensures region { IfSome keeping.new (λ k. k.region ≡ region) }
    ensures err { OnErr result ((entries_of keeping.new ≡ entries_of keeping.old) × (hits.new ≡ hits.old)) }
{
    let Some(keeping) = keeping else {
        return Ok(None);
    };
    let found = keeping.look(f)?;
    if found.is_some() {
        *hits = hits.saturating_add(1);
    }
    Ok(found)
}

fn count_in(keeping: &Option<Keeping>, region: Region) -> usize
    requires { IfSome keeping.now (λ k. k.region ≡ region) }
    ensures value { result ≡ length (entries_of keeping.now) }
    ensures bound { result ≤ most_features region }
{
    match keeping {
        Some(keeping) => keeping.features(),
        None => 0,
    }
}

fn halves_in(keeping: &Option<Keeping>, region: Region) -> usize
    requires { IfSome keeping.now (λ k. k.region ≡ region) }
    ensures value { result ≡ total (entries_of keeping.now) }
    ensures bound { result ≤ most_halves region }
{
    match keeping {
        Some(keeping) => keeping.halves(),
        None => 0,
    }
}

// Where nothing was ever kept of the region, there is a place for it then.
fn begin(keeping: &mut Option<Keeping>, alloc: Global, region: Region) -> Result<(), NoMemory>
    requires { IfSome keeping.old (λ k. k.region ≡ region) }
    ensures begun { OnOk result (IsTrue (is_some keeping.new)) }
    ensures same { entries_of keeping.new ≡ entries_of keeping.old }
    ensures region { IfSome keeping.new (λ k. k.region ≡ region) }
{
    if keeping.is_some() {
        return Ok(());
    }
    *keeping = Some(Keeping::new(alloc, region)?);
    Ok(())
}

fn keep_in(
    keeping: &mut Option<Keeping>,
    alloc: Global,
    region: Region,
    f: &Feature,
    cells: &Rc<BoundedCells>,
) -> Result<(), NoMemory>
    requires cells { cells.now.value ≡ cells_of region f.now.shape }
    requires region { IfSome keeping.old (λ k. k.region ≡ region) }
    ensures kept { OnOk result (f.now.shape.kind ≡ kind.Polygon → size_of (made_of region f.now.shape) ≤ most_halves region → kept_at (entries_of keeping.new) f.now.handle ≡ Some (made_of region f.now.shape)) }
    ensures recent { OnOk result (f.now.shape.kind ≡ kind.Polygon → size_of (made_of region f.now.shape) ≤ most_halves region → IsPut region (entries_of keeping.old) f.now.handle (made_of region f.now.shape) (entries_of keeping.new)) }
    ensures line { OnOk result (f.now.shape.kind ≢ kind.Polygon → entries_of keeping.new ≡ entries_of keeping.old) }
    ensures many { OnOk result (most_halves region < size_of (made_of region f.now.shape) → entries_of keeping.new ≡ entries_of keeping.old) }
    ensures fewer { OnErr result (KeepsMost region (size_of (made_of region f.now.shape)) (entries_of keeping.old) (entries_of keeping.new)) }
    ensures region { IfSome keeping.new (λ k. k.region ≡ region) }
{
    begin(keeping, alloc, region)?;
    let Some(keeping) = keeping else {
        return Ok(());
    };
    keeping.keep(alloc, f, cells)
}

fn keep_at(
    junctions: &mut Option<Junctions>,
    alloc: Global,
    place: GridPoint,
    handles: Vec<u32>,
) -> Result<(), NoMemory>
    ensures kept { OnOk result (places_of junctions.new ≡ after_put (places_of junctions.old) place handles) }
    ensures err { OnErr result (places_of junctions.new ≡ places_of junctions.old) }
{
    if let Some(junctions) = junctions {
        return junctions.keep(place, handles);
    }
    let mut first = Junctions::new(alloc)?;
    first.keep(place, handles)?;
    *junctions = Some(first);
    Ok(())
}

impl Work {
    /// Nothing was judged yet, and nothing is kept.
    pub fn new() -> Work
        ensures { result ≡ unused }
    {
        Work {
            judged: 0,
            hits: 0,
            insides: None,
            outsides: None,
            junctions: None,
            handles: None,
        }
    }

    /// The count of judgements.
    pub fn judged(&self) -> u64
        ensures { result ≡ self.now.judged }
    {
        self.judged
    }

    /// How often a look found cells: a count that stops at its greatest number.
    pub fn hits(&self) -> u64
        ensures { result ≡ self.now.hits }
    {
        self.hits
    }

    /// One judgement more.
    pub(crate) fn raise(&mut self)
        ensures judged { self.new.judged ≡ raised self.old.judged 1 }
        ensures hits { self.new.hits ≡ self.old.hits }
        ensures kept { (r : Region) → kept_of r self.new ≡ kept_of r self.old }
        ensures junctions { self.new.junctions ≡ self.old.junctions }
    {
        self.judged = self.judged.saturating_add(1);
    }

    /// The number of polygons whose cells of this region are kept: at most 4,096 of those inside, 8,192 of those outside.
    pub fn kept_count(&self, region: Region) -> usize
        ensures value { result ≡ length (kept_of region self.now) }
        ensures bound { result ≤ most_features region }
    {
        match region {
            Region::Inside => count_in(&self.insides, region),
            Region::Outside => count_in(&self.outsides, region),
        }
    }

    /// The number of half-planes that the kept cells of this region have in all: at most 1,048,576 inside, 655,360 outside.
    pub fn half_count(&self, region: Region) -> usize
        ensures value { result ≡ total (kept_of region self.now) }
        ensures bound { result ≤ most_halves region }
    {
        match region {
            Region::Inside => halves_in(&self.insides, region),
            Region::Outside => halves_in(&self.outsides, region),
        }
    }

    /// The cells of this region of the polygon, where they are kept for its handle and were made of an equal polygon. It is then
    /// counted, and what was found is the most recently used. After an `Err`, out of memory, nothing has changed.
    pub fn look(
        &mut self,
        region: Region,
        f: &Feature,
    ) -> Result<Option<Rc<BoundedCells>>, NoMemory>
        ensures cells { IfOk result (λ found. IfSome found (λ cells. cells.value ≡ cells_of region f.now.shape)) }
        ensures found { IfOk result (λ found. IsTrue (is_some found) ↔ (kept_at (kept_of region self.old) f.now.handle ≡ Some (made_of region f.now.shape))) }
        ensures after { IfOk result (λ found. self.new ≡ after_look region (is_some found) self.old f.now.handle) }
        ensures uncounted { self.new.judged ≡ self.old.judged }
        ensures err { OnErr result (self.new ≡ self.old) }
    {
        match region {
            Region::Inside => look_in(&mut self.insides, &mut self.hits, region, f),
            Region::Outside => look_in(&mut self.outsides, &mut self.hits, region, f),
        }
    }

    /// Keeps the cells of this region of the polygon, for the next `look`: they are then the most recently used, and what was used
    /// least recently goes, as much as must go for one polygon more. Those of a point or a line, and cells of too many half-planes, are
    /// not kept. After an `Err`, out of memory, they are not kept, and what was used least recently may be gone.
    pub fn keep(
        &mut self,
        alloc: Global,
        region: Region,
        f: &Feature,
        cells: &Rc<BoundedCells>,
    ) -> Result<(), NoMemory>
        requires { cells.now.value ≡ cells_of region f.now.shape }
        ensures kept { OnOk result (f.now.shape.kind ≡ kind.Polygon → size_of (made_of region f.now.shape) ≤ most_halves region → kept_at (kept_of region self.new) f.now.handle ≡ Some (made_of region f.now.shape)) }
        ensures recent { OnOk result (f.now.shape.kind ≡ kind.Polygon → size_of (made_of region f.now.shape) ≤ most_halves region → IsPut region (kept_of region self.old) f.now.handle (made_of region f.now.shape) (kept_of region self.new)) }
        ensures line { OnOk result (f.now.shape.kind ≢ kind.Polygon → self.new ≡ self.old) }
        ensures many { OnOk result (most_halves region < size_of (made_of region f.now.shape) → self.new ≡ self.old) }
        ensures other { (r : Region) → r ≢ region → kept_of r self.new ≡ kept_of r self.old }
        ensures uncounted { self.new.judged ≡ self.old.judged }
        ensures hits { self.new.hits ≡ self.old.hits }
        ensures junctions { self.new.junctions ≡ self.old.junctions }
        ensures fewer { OnErr result (KeepsMost region (size_of (made_of region f.now.shape)) (kept_of region self.old) (kept_of region self.new)) }
    {
        match region {
            Region::Inside => keep_in(&mut self.insides, alloc, region, f, cells),
            Region::Outside => keep_in(&mut self.outsides, alloc, region, f, cells),
        }
    }

    /// A list with no handle: that which was given back, with its room, or else a new one.
    pub fn take_handles(&mut self, alloc: Global) -> Vec<u32>
        ensures none { result.items ≡ [] }
        ensures unchanged { self.new ≡ self.old }
    {
        match self.handles.take() {
            Some(mut handles) => {
                handles.clear();
                handles
            }
            None => Vec::new(alloc),
        }
    }

    /// Gives a list back, so that the next subject needs no new one.
    pub fn give_handles(&mut self, handles: Vec<u32>)
        ensures unchanged { self.new ≡ self.old }
    {
        self.handles = Some(handles);
    }

    /// Puts the handles last that are kept for the place, if any are; it is then the place used most recently. Whether the features still
    /// are there no clause says: whoever uses them looks. After an `Err`, out of memory, nothing has changed.
    pub fn push_junction(
        &mut self,
        place: GridPoint,
        handles: &mut Vec<u32>,
    ) -> Result<(), NoMemory>
        ensures last { OnOk result (handles.new.items ≡ handles.old.items ++ handles_at self.old.junctions place) }
        ensures after { OnOk result (self.new ≡ asked_at place self.old) }
        ensures uncounted { self.new.judged ≡ self.old.judged }
        ensures err { OnErr result ((self.new ≡ self.old) × (handles.new.items ≡ handles.old.items)) }
    {
        match &mut self.junctions {
            Some(junctions) => junctions.push_kept(place, handles),
            None => Ok(()),
        }
    }

    /// Keeps handles of features at the place, for the next `push_junction`: it is then the place used most recently. Where 1,024 other
    /// places have handles, those of the one used least recently go. After an `Err`, out of memory, nothing has changed.
    pub fn keep_junction(
        &mut self,
        alloc: Global,
        place: GridPoint,
        handles: Vec<u32>,
    ) -> Result<(), NoMemory>
        ensures kept { OnOk result (self.new ≡ kept_for place handles self.old) }
        ensures uncounted { self.new.judged ≡ self.old.judged }
        ensures err { OnErr result (self.new ≡ self.old) }
    {
        keep_at(&mut self.junctions, alloc, place, handles)
    }
}

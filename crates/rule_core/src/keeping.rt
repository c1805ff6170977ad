ghost use Rattle.std.specs.Prelude.{◌≡◌, ◌≢◌, ◌<◌, ◌≤◌, ◌+◌, ℕ, [], length, take, is_some, nat_eq, Some, IfOk, IfSome, OnOk, OnErr, MatchOption};
ghost use Rattle.std.specs.Map.{lookup};
ghost use Rattle.lru.specs.LruCache.{put_entries};
ghost use Rattle.plane_terms.specs.declared.kind.Kind.TheVariants as kind;
ghost use Rattle.rule_core.specs.Kept.{cells_of, halves_in, made_of, size_of, kept_at, looked, total, most_features, most_halves, IsPut, KeepsMost, LeavesRoom};

use crate::kept::Kept;
use crate::limits::{most_features, most_halves};
use crate::region::Region;
use convex_cell::{BoundedCells, Cells};
use grid_plane::NoMemory;
use lru::LruCache;
use plane_terms::Kind;
use shape::{Feature, copy_of_parts};
use std::alloc::Global;
use std::marker::Model;
use std::rc::Rc;

/// Cells of one region of polygons by handle, each beside its polygon. What was least recently used goes first where there is too
/// much.
#[derive(Drop)]
pub(crate) struct Keeping {
    region: Region,
    cache: LruCache<u32, Kept>,
    halves: usize,
}

impl Model for Keeping {
    ghost use Rattle.rule_core.specs.Kept as terms;

    ghost Value = { terms.Keeping };

    ghost view = { λ k. record { region = k.region; entries = k.cache.entries } };

    ghost invariant = { λ k. terms.IsWithin k.region k.cache.cap k.cache.entries k.halves };
}

/// The number of half-planes in the cells, if it is no more than that.
fn count_halves(cells: &Cells, most: usize) -> Option<usize>
    ensures { MatchOption result (most < halves_in cells.now) (λ n. (n ≡ halves_in cells.now) × (n ≤ most)) }
{
    let halves = cells.half_count();
    if halves > most {
        return None;
    }
    Some(halves)
}

/// Takes out what was least recently used, until there is room for one pair more of so many half-planes. Answers how many
/// half-planes are left.
fn make_room(cache: &mut LruCache<u32, Kept>, region: Region, halves: usize, more: usize) -> usize
    requires total { total cache.old.entries ≡ halves }
    requires more { more ≤ most_halves region }
    ensures total { total cache.new.entries ≡ result }
    ensures room { LeavesRoom region more cache.new.entries }
    ensures most { KeepsMost region more cache.old.entries cache.new.entries }
    ensures cap { cache.new.cap ≡ cache.old.cap }
{
    let features = most_features(region).get();
    let room = most_halves(region) - more;
    let mut halves = halves;
    while cache.len() >= features || halves > room {
        let Some((_, last)) = cache.pop_lru() else {
            return halves;
        };
        halves -= last.halves();
    }
    halves
}

/// Puts the cells first, and answers how many half-planes are kept then.
fn put(
    cache: &mut LruCache<u32, Kept>,
    halves: usize,
    handle: u32,
    kept: Kept,
) -> Result<usize, NoMemory>
    requires total { total cache.old.entries ≡ halves }
    requires fits { halves + size_of kept ≤ most_halves kept.region }
    requires fewer { length cache.old.entries < cache.old.cap }
    ensures total { IfOk result (λ n. total cache.new.entries ≡ n) }
    ensures bound { IfOk result (λ n. n ≤ halves + size_of kept) }
    ensures entries { OnOk result (cache.new.entries ≡ put_entries nat_eq cache.old handle kept) }
    ensures cap { cache.new.cap ≡ cache.old.cap }
    ensures err { OnErr result (cache.new ≡ cache.old) }
{
    let more = kept.halves();
    match cache.put(handle, kept)? {
        Some(old) => Ok(halves + more - old.halves()),
        None => Ok(halves + more),
    }
}

fn found_in(
    cache: &LruCache<u32, Kept>,
    region: Region,
    f: &Feature,
) -> Result<Option<Rc<BoundedCells>>, NoMemory>
    ensures { IfOk result (λ found. MatchOption found (lookup (nat_eq f.now.handle) cache.now.entries ≢ Some (made_of region f.now.shape)) (λ cells. (lookup (nat_eq f.now.handle) cache.now.entries ≡ Some (made_of region f.now.shape)) × (cells.value ≡ cells_of region f.now.shape))) }
{
    match cache.peek(&f.handle()) {
        Some(kept) => kept.cells(region, f.shape()),
        None => Ok(None),
    }
}

impl Keeping {
    /// Nothing of this region is kept yet.
    pub(crate) fn new(alloc: Global, region: Region) -> Result<Keeping, NoMemory>
        ensures { IfOk result (λ k. k ≡ record { region = region; entries = [] }) }
    {
        Ok(Keeping {
            region,
            cache: LruCache::sparse(alloc, most_features(region))?,
            halves: 0,
        })
    }

    /// The number of features whose cells are kept.
    pub(crate) fn features(&self) -> usize
        ensures value { result ≡ length self.now.entries }
        ensures bound { result ≤ most_features self.now.region }
    {
        self.cache.len()
    }

    /// The number of half-planes that the kept cells have in all.
    pub(crate) fn halves(&self) -> usize
        ensures value { result ≡ total self.now.entries }
        ensures bound { result ≤ most_halves self.now.region }
    {
        self.halves
    }

    /// The cells of the feature, where they are kept for its handle and were made of an equal polygon.
    pub(crate) fn look(&mut self, f: &Feature) -> Result<Option<Rc<BoundedCells>>, NoMemory>
        ensures found { IfOk result (λ found. MatchOption found (kept_at self.old.entries f.now.handle ≢ Some (made_of self.old.region f.now.shape)) (λ cells. (kept_at self.old.entries f.now.handle ≡ Some (made_of self.old.region f.now.shape)) × (cells.value ≡ cells_of self.old.region f.now.shape))) }
        ensures after { IfOk result (λ found. self.new.entries ≡ looked (is_some found) self.old.entries f.now.handle) }
        ensures region { self.new.region ≡ self.old.region }
        ensures err { OnErr result (self.new ≡ self.old) }
    {
        let found = found_in(&self.cache, self.region, f)?;
        if found.is_some() {
            self.cache.promote(&f.handle());
        }
        Ok(found)
    }

    /// Keeps the cells of a polygon, which then are the most recently used. Those of another feature, and cells of too many
    /// half-planes, are not kept.
    pub(crate) fn keep(
        &mut self,
        alloc: Global,
        f: &Feature,
        cells: &Rc<BoundedCells>,
    ) -> Result<(), NoMemory>
        requires { cells.now.value ≡ cells_of self.old.region f.now.shape }
        ensures kept { OnOk result (f.now.shape.kind ≡ kind.Polygon → size_of (made_of self.old.region f.now.shape) ≤ most_halves self.old.region → kept_at self.new.entries f.now.handle ≡ Some (made_of self.old.region f.now.shape)) }
        ensures recent { OnOk result (f.now.shape.kind ≡ kind.Polygon → size_of (made_of self.old.region f.now.shape) ≤ most_halves self.old.region → IsPut self.old.region self.old.entries f.now.handle (made_of self.old.region f.now.shape) self.new.entries) }
        ensures line { OnOk result (f.now.shape.kind ≢ kind.Polygon → self.new ≡ self.old) }
        ensures many { OnOk result (most_halves self.old.region < size_of (made_of self.old.region f.now.shape) → self.new ≡ self.old) }
        ensures fewer { OnErr result (KeepsMost self.old.region (size_of (made_of self.old.region f.now.shape)) self.old.entries self.new.entries) }
        ensures region { self.new.region ≡ self.old.region }
    {
        let Some(halves) = count_halves(cells.cells(), most_halves(self.region)) else {
            return Ok(());
        };
        let Kind::Polygon = f.shape().kind() else {
            return Ok(());
        };
        let parts = copy_of_parts(alloc, f.shape().polygons())?;
        let kept = Kept::of(self.region, parts, cells.clone()?, halves);
        self.halves = make_room(&mut self.cache, self.region, self.halves, halves);
        self.halves = put(&mut self.cache, self.halves, f.handle(), kept)?;
        Ok(())
    }
}

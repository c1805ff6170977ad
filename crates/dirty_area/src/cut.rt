ghost use Rattle.std.specs.Prelude.{◌≡◌, ◌↔◌, ◌<◌, ◌≤◌, ◌+◌, ◌-◌, ◌^◌, ℕ, true, false, [], ◌∷◌, ◌++◌, length, get_or, set, map, min, sum, drop, filter, Contains, IfSome, IfOk, OnOk};
ghost use Rattle.std.specs.List.Sorted.{IsStrictlyIncreasing};
ghost use Rattle.std.specs.Option.{option_to_list};
ghost use Rattle.plane_terms.specs.Lists.{Every};
ghost use Rattle.plane_terms.specs.Rectangle.{IsRectangle, is_within, rects_meet};
ghost use Rattle.plane_terms.specs.Dirt.{AreLoose, add_dirt, add_all, cut_dirt, pieces};
ghost use Rattle.dirty_area.specs.declared.left.Change as changes_of;
ghost use Rattle.dirty_area.specs.Blocks.{IsNumber, runs, joined, all_rects};
ghost use Rattle.dirty_area.specs.Cuts.{front, patched};
ghost use Rattle.dirty_area.specs.Indexed.{IsIndexed, MeetsAt};
ghost use Rattle.dirty_area.specs.Parts.{IsDirt, IsCommon, IsSplit, IsApart, IsPartway};

use crate::block::Block;
use crate::dirt::Dirt;
use crate::finder::Finder;
use crate::left::{Change, Left};
use crate::list::{changed, drop_empty};
use crate::pieces::{above, below, left, right};
use grid_index::Relation;
use grid_plane::{NoMemory, Rect};
use std::alloc::Global;
use std::marker::Model;

/// Dirt that a window is cut out of: what it was, what is left of it, and the rectangles of it that met the window.
#[derive(Drop)]
pub struct Cut {
    pub(crate) alloc: Global,
    pub(crate) blocks: Vec<Block>,
    pub(crate) finder: Finder,
    // How many rectangles the dirt had.
    pub(crate) number: Option<usize>,
    pub(crate) changes: Vec<Change>,
    pub(crate) met: Vec<Rect>,
}

impl Model for Cut {
    ghost use Rattle.std.specs.Prelude.{◌<◌, ◌≤◌, length, IfSome};
    ghost use Rattle.plane_terms.specs.Lists.{Every};
    ghost use Rattle.dirty_area.specs.declared.left.Change.{Change};
    ghost use Rattle.dirty_area.specs.Blocks.{IsNumber, runs, joined, all_rects};
    ghost use Rattle.dirty_area.specs.Cuts as terms;
    ghost use Rattle.dirty_area.specs.Cuts.{patched};
    ghost use Rattle.dirty_area.specs.Indexed.{IsIndexed};
    ghost use Rattle.dirty_area.specs.Parts.{IsDirt};

    ghost Value = { terms.Cut };

    ghost view = { λ c. record { whole = all_rects c.blocks.items; left = joined (patched (runs c.blocks.items) c.changes.items); met = c.met.items } };

    ghost invariant = { λ c. IsDirt (all_rects c.blocks.items) × IsDirt (joined (patched (runs c.blocks.items) c.changes.items)) × (length c.blocks.items ≤ 4294967295) × Every (λ (h : Change). h.place < length c.blocks.items) c.changes.items × IfSome c.finder (λ ps. IsIndexed (runs c.blocks.items) ps) × IsNumber c.blocks.items c.number };
}

// Puts a change in place of its block.
fn put_change(
    blocks: &mut Vec<Block>,
    finder: &mut Finder,
    number: &mut Option<usize>,
    change: Change,
)
    requires place { change.place < length blocks.old.items }
    requires few { length blocks.old.items ≤ 4294967295 }
    requires indexed { IfSome finder.old (λ ps. IsIndexed (runs blocks.old.items) ps) }
    requires number { IsNumber blocks.old.items number.old }
    ensures put { runs blocks.new.items ≡ set (runs blocks.old.items) change.place change.block.items }
    ensures len { length blocks.new.items ≡ length blocks.old.items }
    ensures indexed { IfSome finder.new (λ ps. IsIndexed (runs blocks.new.items) ps) }
    ensures number { IsNumber blocks.new.items number.new }
{
    let place = change.place;
    finder.trade(place, blocks[place].rects(), change.block.rects());
    *number = changed(*number, blocks[place].len(), change.block.len());
    blocks[place] = change.block;
}

// Puts changes in place of their blocks.
fn put_changes(
    blocks: &mut Vec<Block>,
    finder: &mut Finder,
    number: &mut Option<usize>,
    changes: Vec<Change>,
)
    requires places { Every (λ (c : changes_of.Change). c.place < length blocks.old.items) changes.items }
    requires few { length blocks.old.items ≤ 4294967295 }
    requires indexed { IfSome finder.old (λ ps. IsIndexed (runs blocks.old.items) ps) }
    requires number { IsNumber blocks.old.items number.old }
    ensures put { runs blocks.new.items ≡ patched (runs blocks.old.items) changes.items }
    ensures len { length blocks.new.items ≡ length blocks.old.items }
    ensures indexed { IfSome finder.new (λ ps. IsIndexed (runs blocks.new.items) ps) }
    ensures number { IsNumber blocks.new.items number.new }
{
    for change in changes {
        put_change(blocks, finder, number, change);
    }
}

// The same. Where most blocks change, to make a new index is quicker than to trade them one by one.
fn put_all(
    blocks: &mut Vec<Block>,
    finder: &mut Finder,
    number: &mut Option<usize>,
    changes: Vec<Change>,
)
    requires places { Every (λ (c : changes_of.Change). c.place < length blocks.old.items) changes.items }
    requires few { length blocks.old.items ≤ 4294967295 }
    requires indexed { IfSome finder.old (λ ps. IsIndexed (runs blocks.old.items) ps) }
    requires number { IsNumber blocks.old.items number.old }
    ensures put { runs blocks.new.items ≡ patched (runs blocks.old.items) changes.items }
    ensures len { length blocks.new.items ≡ length blocks.old.items }
    ensures indexed { IfSome finder.new (λ ps. IsIndexed (runs blocks.new.items) ps) }
    ensures number { IsNumber blocks.new.items number.new }
{
    if !finder.has_index() || changes.len() <= blocks.len() / 2 {
        put_changes(blocks, finder, number, changes);
        return;
    }
    finder.forget();
    put_changes(blocks, finder, number, changes);
    finder.prepare(blocks);
}

impl Cut {
    /// The rectangles of the dirt that met the window, in their order.
    pub fn met(&self) -> &[Rect]
        ensures { result.now ≡ self.now.met }
    {
        &self.met
    }

    /// What is left. Blocks at the end of which nothing is left go.
    pub fn into_left(self) -> Dirt
        ensures { result ≡ self.left }
    {
        let mut blocks = self.blocks;
        let mut finder = self.finder;
        let mut number = self.number;
        put_all(&mut blocks, &mut finder, &mut number, self.changes);
        drop_empty(&mut blocks);
        Dirt::of(self.alloc, blocks, finder, number)
    }

    /// The dirt as it was.
    pub fn into_whole(self) -> Dirt
        ensures { result ≡ self.whole }
    {
        Dirt::of(self.alloc, self.blocks, self.finder, self.number)
    }
}

/// What a window took of dirt and what comes in place of blocks of it.
#[derive(Drop)]
pub(crate) struct Taken {
    pub(crate) changes: Vec<Change>,
    pub(crate) met: Vec<Rect>,
}

// Adds a piece that nothing left so far has to do with but the pieces before it.
fn add_one(dirt: &mut Left<'_>, round: &mut Dirt, r: Rect) -> Result<(), NoMemory>
    requires split { IsSplit dirt.old.left round.old (λ s. AreLoose r s) }
    requires kept { IsDirt dirt.old.left }
    requires front { Every (λ s. is_within s r ≡ false) (front dirt.old) }
    ensures dirt { OnOk result (dirt.new.left ≡ add_dirt dirt.old.left r) }
    ensures round { OnOk result (round.new ≡ add_dirt round.old r) }
    ensures kept { OnOk result (IsDirt dirt.new.left) }
    ensures runs { dirt.new.runs ≡ dirt.old.runs }
    ensures next { dirt.new.next ≡ dirt.old.next }
{
    r.corner_law();
    if !round.look(&r, Relation::IsNested) {
        round.add_loose(r)?;
        return dirt.push(r, 1);
    }
    if round.look(&r, Relation::Holds) {
        return Ok(());
    }
    round.add(r)?;
    dirt.drop_held(&r);
    dirt.push(r, 1)
}

// Adds a piece, where it is there.
fn add_piece(dirt: &mut Left<'_>, round: &mut Dirt, piece: Option<Rect>) -> Result<(), NoMemory>
    requires split { IfSome piece (λ r. IsSplit dirt.old.left round.old (λ s. AreLoose r s)) }
    requires kept { IsDirt dirt.old.left }
    requires front { IfSome piece (λ r. Every (λ s. is_within s r ≡ false) (front dirt.old)) }
    ensures dirt { OnOk result (dirt.new.left ≡ add_all dirt.old.left (option_to_list piece)) }
    ensures round { OnOk result (round.new ≡ add_all round.old (option_to_list piece)) }
    ensures kept { OnOk result (IsDirt dirt.new.left) }
    ensures runs { dirt.new.runs ≡ dirt.old.runs }
    ensures next { dirt.new.next ≡ dirt.old.next }
{
    match piece {
        Some(r) => add_one(dirt, round, r),
        None => Ok(()),
    }
}

// Adds the pieces round a window that meets the rectangle.
fn add_round(
    dirt: &mut Left<'_>,
    round: &mut Dirt,
    r: &Rect,
    w: &Rect,
    common: &Rect,
) -> Result<(), NoMemory>
    requires common { IsCommon common.now r.now w.now }
    requires split { IsSplit dirt.old.left round.old (IsApart r.now w.now) }
    requires kept { IsDirt dirt.old.left }
    requires front { Every (AreLoose r.now) (front dirt.old) }
    ensures dirt { OnOk result (dirt.new.left ≡ add_all dirt.old.left (pieces r.now w.now)) }
    ensures round { OnOk result (round.new ≡ add_all round.old (pieces r.now w.now)) }
    ensures kept { OnOk result (IsDirt dirt.new.left) }
    ensures runs { dirt.new.runs ≡ dirt.old.runs }
    ensures next { dirt.new.next ≡ dirt.old.next }
{
    w.corner_law();
    add_piece(dirt, round, left(r, w))?;
    add_piece(dirt, round, right(r, w))?;
    add_piece(dirt, round, below(r, w, common))?;
    add_piece(dirt, round, above(r, w, common))
}

// Adds the pieces round the window of a rectangle that meets it.
fn add_pieces(dirt: &mut Left<'_>, round: &mut Dirt, r: &Rect, w: &Rect) -> Result<(), NoMemory>
    requires met { rects_meet r.now w.now ≡ true }
    requires split { IsSplit dirt.old.left round.old (IsApart r.now w.now) }
    requires kept { IsDirt dirt.old.left }
    requires front { Every (AreLoose r.now) (front dirt.old) }
    ensures dirt { OnOk result (dirt.new.left ≡ add_all dirt.old.left (pieces r.now w.now)) }
    ensures round { OnOk result (round.new ≡ add_all round.old (pieces r.now w.now)) }
    ensures kept { OnOk result (IsDirt dirt.new.left) }
    ensures runs { dirt.new.runs ≡ dirt.old.runs }
    ensures next { dirt.new.next ≡ dirt.old.next }
{
    r.corner_law();
    w.corner_law();
    match r.part(w) {
        Some(common) => add_round(dirt, round, r, w, &common),
        None => Ok(()),
    }
}

// Adds what the window leaves of a rectangle, the first of so many that are to come of its block: all of it where it lies beside the
// window, and else the pieces round the window.
fn cut_rect(
    dirt: &mut Left<'_>,
    round: &mut Dirt,
    met: &mut Vec<Rect>,
    r: &Rect,
    w: &Rect,
    coming: usize,
) -> Result<(), NoMemory>
    requires split { rects_meet r.now w.now ≡ true → IsSplit dirt.old.left round.old (IsApart r.now w.now) }
    requires kept { IsDirt dirt.old.left }
    requires front { Every (AreLoose r.now) (front dirt.old) }
    ensures beside { OnOk result (rects_meet r.now w.now ≡ false → (dirt.new.left ≡ dirt.old.left ++ r.now ∷ []) × (round.new ≡ round.old) × (met.new.items ≡ met.old.items)) }
    ensures met { OnOk result (rects_meet r.now w.now ≡ true → (dirt.new.left ≡ add_all dirt.old.left (pieces r.now w.now)) × (round.new ≡ add_all round.old (pieces r.now w.now)) × (met.new.items ≡ met.old.items ++ r.now ∷ []) × IsDirt dirt.new.left) }
    ensures runs { dirt.new.runs ≡ dirt.old.runs }
    ensures next { dirt.new.next ≡ dirt.old.next }
{
    if !r.meets(w) {
        return dirt.push(*r, coming);
    }
    add_pieces(dirt, round, r, w)?;
    met.push(*r)?;
    Ok(())
}

// Adds what the window leaves of the next block.
fn cut_block(
    dirt: &mut Left<'_>,
    round: &mut Dirt,
    met: &mut Vec<Rect>,
    rects: &[Rect],
    w: &Rect,
) -> Result<(), NoMemory>
    requires short { dirt.old.next < length dirt.old.runs }
    requires window { IsRectangle w.now }
    requires rects { rects.now ≡ get_or dirt.old.runs dirt.old.next [] }
    requires dirt { IsDirt (joined dirt.old.runs) }
    requires partway { IsPartway (joined dirt.old.runs) (joined (drop dirt.old.next dirt.old.runs)) w.now dirt.old.left met.old.items round.old }
    requires begun { dirt.old.begun ≡ [] }
    ensures partway { OnOk result (IsPartway (joined dirt.old.runs) (joined (drop (dirt.old.next + 1) dirt.old.runs)) w.now dirt.new.left met.new.items round.new) }
    ensures runs { dirt.new.runs ≡ dirt.old.runs }
    ensures next { OnOk result (dirt.new.next ≡ dirt.old.next + 1) }
    ensures begun { OnOk result (dirt.new.begun ≡ []) }
{
    for i in 0..rects.len() {
        cut_rect(dirt, round, met, &rects[i], w, rects.len() - i)?;
    }
    dirt.close()
}

// How many rectangles the blocks at these places have; the greatest number where that is too large for one.
fn count_at(blocks: &[Block], places: &[u32]) -> usize
    requires { Every (λ k. k < length blocks.now) places.now }
    ensures { result ≡ min (sum (map (λ k. length (get_or (runs blocks.now) k [])) places.now)) (2 ^ 64 - 1) }
{
    let mut count: usize = 0;
    for place in places {
        count = count.saturating_add(blocks[*place as usize].len());
    }
    count
}

/// What the window takes of these blocks. Only those at these places meet it.
pub(crate) fn taken_of(
    alloc: Global,
    blocks: &[Block],
    places: &[u32],
    w: &Rect,
) -> Result<Taken, NoMemory>
    requires dirt { IsDirt (all_rects blocks.now) }
    requires window { IsRectangle w.now }
    requires rising { IsStrictlyIncreasing places.now }
    requires meet { (k : ℕ) → Contains places.now k ↔ MeetsAt (runs blocks.now) w.now k }
    ensures left { IfOk result (λ t. joined (patched (runs blocks.now) t.changes.items) ≡ cut_dirt (all_rects blocks.now) w.now) }
    ensures met { IfOk result (λ t. t.met.items ≡ filter (λ s. rects_meet s w.now) (all_rects blocks.now)) }
    ensures places { IfOk result (λ t. Every (λ (c : changes_of.Change). c.place < length blocks.now) t.changes.items) }
    ensures kept { IfOk result (λ t. IsDirt (joined (patched (runs blocks.now) t.changes.items))) }
{
    let mut dirt = Left::new(alloc, blocks);
    dirt.make_room(places.len())?;
    let mut round = Dirt::new(alloc);
    let mut met = Vec::with_capacity(alloc, count_at(blocks, places))?;
    for place in places {
        let place = *place as usize;
        dirt.go_to(place);
        cut_block(&mut dirt, &mut round, &mut met, blocks[place].rects(), w)?;
    }
    dirt.go_to(blocks.len());
    Ok(Taken {
        changes: dirt.into_changes(),
        met,
    })
}

ghost use Rattle.std.specs.Prelude.{◌≡◌, ◌<◌, ◌≤◌, ◌+◌, ◌-◌, ◌^◌, ◌↔◌, ℕ, is_some, true, false, [], ◌∷◌, ◌++◌, List, Contains, length, get_or, set, not, filter, IfSome, IfOk, OnOk, OnErr};
ghost use Rattle.std.specs.Option.{option_to_list};
ghost use Rattle.plane_terms.specs.Lists.{Every};
ghost use Rattle.plane_terms.specs.Rectangle.{IsRectangle, is_within};
ghost use Rattle.plane_terms.specs.Dirt.{add_dirt, add_all};
ghost use Rattle.grid_index.specs.declared.placed.Placed.{Placed};
ghost use Rattle.dirty_area.specs.Blocks.{IsNumber, LastHasRoom, runs, all_rects};
ghost use Rattle.dirty_area.specs.Indexed.{IsIndexed, MeetsAt};

use crate::block::Block;
use crate::finder::Finder;
use grid_index::Relation;
use grid_plane::{NoMemory, Rect};
use std::alloc::Global;

/// A list has no more blocks, so that an index can tell them apart.
const MOST: usize = 4294967295;

// Whether there is no block, or the last one gets none more.
fn needs_block(blocks: &[Block]) -> bool
    ensures { result ≡ false → 0 < length blocks.now }
{
    match blocks.last() {
        Some(last) => last.is_full(),
        None => true,
    }
}

// Puts a block last that has no rectangle, and room for so many.
fn add_block(alloc: Global, blocks: &mut Vec<Block>, more: usize) -> Result<(), NoMemory>
    requires { more ≤ 4294967295 }
    ensures ok { OnOk result (runs blocks.new.items ≡ runs blocks.old.items ++ [] ∷ []) }
    ensures room { OnOk result (LastHasRoom blocks.new.items more) }
    ensures few { length blocks.old.items ≤ 4294967295 → length blocks.new.items ≤ 4294967295 }
    ensures err { OnErr result (runs blocks.new.items ≡ runs blocks.old.items) }
{
    if blocks.len() >= MOST {
        return Err(NoMemory);
    }
    let mut block = Block::new(alloc)?;
    block.reserve(more)?;
    blocks.push(block)?;
    Ok(())
}

/// Makes room for so many rectangles more, in the last block.
pub(crate) fn make_room(alloc: Global, blocks: &mut Vec<Block>, more: usize) -> Result<(), NoMemory>
    requires few { length blocks.old.items ≤ 4294967295 }
    requires more { more ≤ 4294967295 }
    ensures same { all_rects blocks.new.items ≡ all_rects blocks.old.items }
    ensures indexed { (ps : List Placed) → IsIndexed (runs blocks.old.items) ps → IsIndexed (runs blocks.new.items) ps }
    ensures room { OnOk result (LastHasRoom blocks.new.items more) }
    ensures few { length blocks.new.items ≤ 4294967295 }
{
    if needs_block(blocks) {
        return add_block(alloc, blocks, more);
    }
    let last = blocks.len() - 1;
    blocks[last].reserve(more)
}

/// The number after so many went and so many came; none where that is too large for a number.
pub(crate) fn changed(number: Option<usize>, gone: usize, come: usize) -> Option<usize>
    requires { IfSome number (λ n. gone ≤ n) }
    ensures sum { (k : ℕ) → IfSome number (λ n. n ≡ k) → IfSome result (λ m. m + gone ≡ k + come) }
    ensures some { IfSome number (λ n. n - gone + come < 2 ^ 64 → is_some result ≡ true) }
{
    let n = number?;
    (n - gone).checked_add(come)
}

/// Puts the rectangle last. There is room.
pub(crate) fn put_last(
    blocks: &mut Vec<Block>,
    finder: &mut Finder,
    number: &mut Option<usize>,
    r: Rect,
)
    requires room { LastHasRoom blocks.old.items 1 }
    requires few { length blocks.old.items ≤ 4294967295 }
    requires indexed { IfSome finder.old (λ ps. IsIndexed (runs blocks.old.items) ps) }
    requires number { IsNumber blocks.old.items number.old }
    ensures put { all_rects blocks.new.items ≡ all_rects blocks.old.items ++ r ∷ [] }
    ensures number { IsNumber blocks.new.items number.new }
    ensures room { (n : ℕ) → LastHasRoom blocks.old.items (n + 1) → LastHasRoom blocks.new.items n }
    ensures len { length blocks.new.items ≡ length blocks.old.items }
    ensures indexed { IfSome finder.new (λ ps. IsIndexed (runs blocks.new.items) ps) }
{
    let last = blocks.len() - 1;
    finder.put(last, &r);
    blocks[last].put(r);
    *number = changed(*number, 0, 1);
}

// Takes the rectangles that this one holds out of a block.
fn trim(
    blocks: &mut Vec<Block>,
    finder: &mut Finder,
    number: &mut Option<usize>,
    place: usize,
    r: &Rect,
)
    requires place { place < length blocks.old.items }
    requires few { length blocks.old.items ≤ 4294967295 }
    requires indexed { IfSome finder.old (λ ps. IsIndexed (runs blocks.old.items) ps) }
    requires number { IsNumber blocks.old.items number.old }
    ensures trimmed { runs blocks.new.items ≡ set (runs blocks.old.items) place (filter (λ s. not (is_within s r.now)) (get_or (runs blocks.old.items) place [])) }
    ensures room { (n : ℕ) → LastHasRoom blocks.old.items n → LastHasRoom blocks.new.items n }
    ensures len { length blocks.new.items ≡ length blocks.old.items }
    ensures indexed { IfSome finder.new (λ ps. IsIndexed (runs blocks.new.items) ps) }
    ensures number { IsNumber blocks.new.items number.new }
{
    let before = blocks[place].len();
    finder.drop_held(place, blocks[place].rects(), r);
    blocks[place].drop_held(r);
    *number = changed(*number, before, blocks[place].len());
}

// Takes the rectangles that this one holds out of every block.
fn trim_each(blocks: &mut Vec<Block>, finder: &mut Finder, number: &mut Option<usize>, r: &Rect)
    requires few { length blocks.old.items ≤ 4294967295 }
    requires indexed { IfSome finder.old (λ ps. IsIndexed (runs blocks.old.items) ps) }
    requires number { IsNumber blocks.old.items number.old }
    ensures held { all_rects blocks.new.items ≡ filter (λ s. not (is_within s r.now)) (all_rects blocks.old.items) }
    ensures room { (n : ℕ) → LastHasRoom blocks.old.items n → LastHasRoom blocks.new.items n }
    ensures len { length blocks.new.items ≡ length blocks.old.items }
    ensures indexed { IfSome finder.new (λ ps. IsIndexed (runs blocks.new.items) ps) }
    ensures number { IsNumber blocks.new.items number.new }
{
    for place in 0..blocks.len() {
        trim(blocks, finder, number, place, r);
    }
}

// Takes the rectangles that this one holds out of the blocks at these places: of each that has one which meets it.
fn trim_near(
    blocks: &mut Vec<Block>,
    finder: &mut Finder,
    number: &mut Option<usize>,
    places: &[u32],
    r: &Rect,
)
    requires places { (k : ℕ) → Contains places.now k ↔ MeetsAt (runs blocks.old.items) r.now k }
    requires rects { Every IsRectangle (all_rects blocks.old.items) }
    requires few { length blocks.old.items ≤ 4294967295 }
    requires indexed { IfSome finder.old (λ ps. IsIndexed (runs blocks.old.items) ps) }
    requires number { IsNumber blocks.old.items number.old }
    ensures held { all_rects blocks.new.items ≡ filter (λ s. not (is_within s r.now)) (all_rects blocks.old.items) }
    ensures room { (n : ℕ) → LastHasRoom blocks.old.items n → LastHasRoom blocks.new.items n }
    ensures len { length blocks.new.items ≡ length blocks.old.items }
    ensures indexed { IfSome finder.new (λ ps. IsIndexed (runs blocks.new.items) ps) }
    ensures number { IsNumber blocks.new.items number.new }
{
    for place in places {
        trim(blocks, finder, number, *place as usize, r);
    }
}

// Takes out the rectangles that this one holds. Where there is memory for the places of the blocks near it, it looks at no others.
fn drop_held(blocks: &mut Vec<Block>, finder: &mut Finder, number: &mut Option<usize>, r: &Rect)
    requires rects { Every IsRectangle (all_rects blocks.old.items) }
    requires few { length blocks.old.items ≤ 4294967295 }
    requires indexed { IfSome finder.old (λ ps. IsIndexed (runs blocks.old.items) ps) }
    requires number { IsNumber blocks.old.items number.old }
    ensures held { all_rects blocks.new.items ≡ filter (λ s. not (is_within s r.now)) (all_rects blocks.old.items) }
    ensures room { (n : ℕ) → LastHasRoom blocks.old.items n → LastHasRoom blocks.new.items n }
    ensures len { length blocks.new.items ≡ length blocks.old.items }
    ensures indexed { IfSome finder.new (λ ps. IsIndexed (runs blocks.new.items) ps) }
    ensures number { IsNumber blocks.new.items number.new }
{
    match finder.known_places(blocks, r) {
        Some(places) => {
            finder.let_go(blocks, &places, r);
            trim_near(blocks, finder, number, &places, r);
        }
        None => trim_each(blocks, finder, number, r),
    }
}

// Puts the rectangle last, in place of those that it holds. There is room. A long list has an index then, where there is memory.
fn put_round(blocks: &mut Vec<Block>, finder: &mut Finder, number: &mut Option<usize>, r: Rect)
    requires room { LastHasRoom blocks.old.items 1 }
    requires rects { Every IsRectangle (all_rects blocks.old.items) }
    requires few { length blocks.old.items ≤ 4294967295 }
    requires indexed { IfSome finder.old (λ ps. IsIndexed (runs blocks.old.items) ps) }
    requires number { IsNumber blocks.old.items number.old }
    ensures put { all_rects blocks.new.items ≡ filter (λ s. not (is_within s r)) (all_rects blocks.old.items) ++ r ∷ [] }
    ensures number { IsNumber blocks.new.items number.new }
    ensures room { (n : ℕ) → LastHasRoom blocks.old.items (n + 1) → LastHasRoom blocks.new.items n }
    ensures len { length blocks.new.items ≡ length blocks.old.items }
    ensures indexed { IfSome finder.new (λ ps. IsIndexed (runs blocks.new.items) ps) }
{
    drop_held(blocks, finder, number, &r);
    finder.prepare(blocks);
    put_last(blocks, finder, number, r);
}

/// Adds the rectangle to a list of dirt that has room for it.
pub(crate) fn add_in(
    blocks: &mut Vec<Block>,
    finder: &mut Finder,
    number: &mut Option<usize>,
    r: Rect,
)
    requires room { LastHasRoom blocks.old.items 1 }
    requires few { length blocks.old.items ≤ 4294967295 }
    requires rects { Every IsRectangle (all_rects blocks.old.items) }
    requires rect { IsRectangle r }
    requires indexed { IfSome finder.old (λ ps. IsIndexed (runs blocks.old.items) ps) }
    requires number { IsNumber blocks.old.items number.old }
    ensures added { all_rects blocks.new.items ≡ add_dirt (all_rects blocks.old.items) r }
    ensures number { IsNumber blocks.new.items number.new }
    ensures room { (n : ℕ) → LastHasRoom blocks.old.items (n + 1) → LastHasRoom blocks.new.items n }
    ensures len { length blocks.new.items ≡ length blocks.old.items }
    ensures indexed { IfSome finder.new (λ ps. IsIndexed (runs blocks.new.items) ps) }
{
    finder.count_look(blocks);
    if !finder.has(blocks, &r, Relation::IsNested) {
        put_last(blocks, finder, number, r);
        return;
    }
    if !finder.has(blocks, &r, Relation::Holds) {
        put_round(blocks, finder, number, r);
    }
}

/// Adds the rectangle, where it is there, to a list of dirt that has room for it.
pub(crate) fn add_some(
    blocks: &mut Vec<Block>,
    finder: &mut Finder,
    number: &mut Option<usize>,
    some: Option<Rect>,
)
    requires room { LastHasRoom blocks.old.items 1 }
    requires few { length blocks.old.items ≤ 4294967295 }
    requires rects { Every IsRectangle (all_rects blocks.old.items) }
    requires some { IfSome some IsRectangle }
    requires indexed { IfSome finder.old (λ ps. IsIndexed (runs blocks.old.items) ps) }
    requires number { IsNumber blocks.old.items number.old }
    ensures added { all_rects blocks.new.items ≡ add_all (all_rects blocks.old.items) (option_to_list some) }
    ensures number { IsNumber blocks.new.items number.new }
    ensures room { (n : ℕ) → LastHasRoom blocks.old.items (n + 1) → LastHasRoom blocks.new.items n }
    ensures len { length blocks.new.items ≡ length blocks.old.items }
    ensures indexed { IfSome finder.new (λ ps. IsIndexed (runs blocks.new.items) ps) }
{
    match some {
        Some(r) => add_in(blocks, finder, number, r),
        None => {}
    }
}

// Whether there is a last block and it has no rectangle.
fn ends_empty(blocks: &[Block]) -> bool
    ensures some { result ≡ true → 0 < length blocks.now }
    ensures empty { result ≡ true → get_or (runs blocks.now) (length blocks.now - 1) [] ≡ [] }
{
    match blocks.last() {
        Some(last) => last.rects().is_empty(),
        None => false,
    }
}

/// Lets the blocks at the end go that have no rectangle.
pub(crate) fn drop_empty(blocks: &mut Vec<Block>)
    ensures same { all_rects blocks.new.items ≡ all_rects blocks.old.items }
    ensures fewer { length blocks.new.items ≤ length blocks.old.items }
    ensures indexed { (ps : List Placed) → IsIndexed (runs blocks.old.items) ps → IsIndexed (runs blocks.new.items) ps }
{
    while ends_empty(blocks) {
        blocks.pop();
    }
}

/// How many rectangles the blocks have.
pub(crate) fn count(blocks: &[Block]) -> usize
    requires { length blocks.now ≤ 4294967295 }
    ensures { result ≡ length (all_rects blocks.now) }
{
    let mut n = 0;
    for block in blocks {
        n += block.len();
    }
    n
}

/// The rectangles of the blocks, one after another, in a list that begins with room for so many.
pub(crate) fn list_of(alloc: Global, blocks: &[Block], room: usize) -> Result<Vec<Rect>, NoMemory>
    ensures { IfOk result (λ v. v.items ≡ all_rects blocks.now) }
{
    let mut rects = Vec::with_capacity(alloc, room)?;
    for block in blocks {
        rects.extend_from_slice(block.rects())?;
    }
    Ok(rects)
}

/// Equal blocks.
pub(crate) fn copy_of(alloc: Global, blocks: &[Block]) -> Result<Vec<Block>, NoMemory>
    ensures { IfOk result (λ v. runs v.items ≡ runs blocks.now) }
{
    let mut copy = Vec::with_capacity(alloc, blocks.len())?;
    for block in blocks {
        copy.push(block.try_copy(alloc)?)?;
    }
    Ok(copy)
}

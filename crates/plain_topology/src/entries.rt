ghost use Rattle.std.specs.Prelude.{◌≡◌, ◌↔◌, IsTrue};
ghost use Rattle.std.specs.Option.{option_map};
ghost use Rattle.plane_terms.specs.Lists.{Every};
ghost use Rattle.plane_terms.specs.Point.{Point, IsAt};
ghost use Rattle.topology_terms.specs.Entry.{entry_at, HasCellsAt, IsKeyBelow, IsAscending};
ghost use Rattle.plain_topology.specs.Plain.{entry_of, entries_of};

use crate::points::is_same_place;
use grid_plane::GridPoint;

/// An error of rule 1, whose one cell is a place.
#[derive(Clone, Copy)]
pub struct PlainEntry {
    pub subject: u32,
    pub other: u32,
    pub place: GridPoint,
}

// The first error of this subject and this partner.
fn entry_of_key(entries: &[PlainEntry], subject: u32, other: u32) -> Option<PlainEntry>
    ensures { option_map entry_of result ≡ entry_at (entries_of entries.now) 1 subject other }
{
    entries
        .iter()
        .find(|e| e.subject == subject && e.other == other)
        .copied()
}

/// Whether the place is in a cell of the error of rule 1, of the subject `a` and the partner `b`.
pub fn has_cells_at(entries: &[PlainEntry], a: u32, b: u32, place: GridPoint) -> bool
    ensures { (p : Point) → IsAt place p →
        (IsTrue result ↔ HasCellsAt (entries_of entries.now) 1 a b p) }
{
    match entry_of_key(entries, a, b) {
        Some(entry) => is_same_place(entry.place, place),
        None => false,
    }
}

fn is_key_below(e: &PlainEntry, f: &PlainEntry) -> bool
    ensures { IsTrue result ↔ IsKeyBelow (entry_of e.now) (entry_of f.now) }
{
    e.subject < f.subject || e.subject == f.subject && e.other < f.other
}

// Whether the key is below those of all these errors.
fn is_below_all(e: &PlainEntry, others: &[PlainEntry]) -> bool
    ensures { IsTrue result ↔ Every (IsKeyBelow (entry_of e.now)) (entries_of others.now) }
{
    others.iter().all(|f| is_key_below(e, f))
}

// Whether each error has a lesser key than all later ones.
pub(crate) fn do_ascend(entries: &[PlainEntry]) -> bool
    ensures { IsTrue result ↔ IsAscending (entries_of entries.now) }
{
    match entries {
        [] => true,
        [first, rest @ ..] => is_below_all(first, rest) && do_ascend(rest),
    }
}

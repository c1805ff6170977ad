ghost use Rattle.std.specs.Prelude.{◌≡◌, ◌++◌, IfOk, OnOk};
ghost use Rattle.std.specs.List.{list_any};
ghost use Rattle.plane_terms.specs.Share.{MeetOnce};
ghost use Rattle.topology_terms.specs.Cells as terms;
ghost use Rattle.rule_loops.specs.Apart.{off_apart};

use crate::ends::{ends_of_both, ends_of_one, has_end_on, has_shared_end_on, shared_ends};
use crate::pairs::Crossing;
use crate::shared::{off_places, push_common, segment_law};
use convex_cell::Cells;
use grid_plane::{GridPoint, NoMemory, Seg, Share};
use shape::Shape;
use std::alloc::Global;
use std::marker::Model;

/// Which ends of two lines do not count as points in common.
#[derive(Clone, Copy)]
pub(crate) enum Spared {
    OfFirst,
    OfEither,
    /// Places that are ends of both.
    OfBoth,
}

// What two segments have in common, but for ends of lines.
#[derive(Drop)]
pub(crate) struct OffEnds<'a> {
    pub(crate) first: &'a Shape,
    pub(crate) second: &'a Shape,
    pub(crate) spared: Spared,
}

impl<'a> Model for OffEnds<'a> {
    ghost use Rattle.std.specs.Prelude.{List};
    ghost use Rattle.plane_terms.specs.Point.{Place};
    ghost use Rattle.rule_loops.specs.Ends.{ends_by};

    ghost Value = { List Place };

    ghost view = { λ o. ends_by o.spared o.first.now o.second.now };
}

impl<'a> OffEnds<'a> {
    fn places(&self, alloc: Global) -> Result<Vec<GridPoint>, NoMemory>
        ensures { IfOk result (λ places. places.items ≡ self.now) }
    {
        match self.spared {
            Spared::OfFirst => ends_of_one(alloc, self.first),
            Spared::OfEither => ends_of_both(alloc, self.first, self.second),
            Spared::OfBoth => shared_ends(alloc, self.first, self.second),
        }
    }

    fn has_place_on(&self, first: &Seg, second: &Seg) -> bool
        ensures { result ≡ list_any (terms.on_both first.now second.now) self.now }
    {
        match self.spared {
            Spared::OfFirst => has_end_on(self.first, first, second),
            Spared::OfEither => {
                has_end_on(self.first, first, second) || has_end_on(self.second, first, second)
            }
            Spared::OfBoth => has_shared_end_on(self.first, self.second, first, second),
        }
    }

    // Of two segments with one point in common: that point, where none of the places is on both.
    fn push_point(
        &self,
        alloc: Global,
        cells: &mut Cells,
        first: &Seg,
        second: &Seg,
    ) -> Result<(), NoMemory>
        requires { MeetOnce first.now second.now }
        ensures { OnOk result (cells.new ≡ cells.old ++ terms.off_places self.now first.now second.now) }
    {
        segment_law(first);
        segment_law(second);
        if self.has_place_on(first, second) {
            return Ok(());
        }
        push_common(alloc, cells, first, second)
    }
}

impl<'a> Crossing for OffEnds<'a> {
    ghost crossing = { λ es s t. terms.off_places es s t };

    fn push_cells(
        &self,
        alloc: Global,
        cells: &mut Cells,
        first: &Seg,
        second: &Seg,
    ) -> Result<(), NoMemory> {
        segment_law(first);
        segment_law(second);
        match first.shares(second) {
            Share::Nothing => Ok(()),
            Share::Along => {
                cells.append(off_places(alloc, &self.places(alloc)?, first, second)?)
            }
            Share::Cross => self.push_point(alloc, cells, first, second),
            Share::Touch => self.push_point(alloc, cells, first, second),
        }
    }

    ghost apart = { λ es s t g h e. off_apart es s t g h e };
}

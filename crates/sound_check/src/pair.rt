ghost use Rattle.std.specs.Prelude.{◌↔◌, IsTrue, IfOk};
ghost use Rattle.plane_terms.specs.Lists.{Every};
ghost use Rattle.topology_terms.specs.Entry.{IsAscending};
ghost use Rattle.error_store.specs.Pairs.{IsOf};
ghost use Rattle.sound_check.specs.Pairs.{WholesAgree, IsSoundPair};

use crate::entries::{all_lie_in, are_entries_sound, has_whole};
use dirty_area::Dirt;
use error_store::Entry;
use grid_plane::{NoMemory, Rect};
use std::alloc::Global;

fn do_wholes_agree(
    rule: u16,
    subject: u32,
    envelope: Option<Rect>,
    fresh: &[Entry],
    stored: &[Entry],
    dirt: &Dirt,
) -> bool
    requires fresh { IsAscending fresh.now }
    requires stored { IsAscending stored.now }
    ensures { IsTrue result ↔ WholesAgree dirt.now envelope fresh.now stored.now rule subject }
{
    if has_whole(stored, rule, subject) == has_whole(fresh, rule, subject) {
        return true;
    }
    match envelope {
        Some(envelope) => dirt.meets(&envelope),
        None => true,
    }
}

/// Whether the stored entries of a rule and a subject are sound beside those that are found afresh: off the dirt both have the
/// same points, entry by entry; a subject clear of the dirt has a whole entry in both or in neither; each stored entry has cells
/// with points and the least frame of them, unless it is whole; each frame meets the dirt or lies in the envelope, which is
/// there where the subject is live. Both lists have only entries of the rule and the subject. An `Err` means out of memory.
pub fn is_sound_pair(
    alloc: Global,
    rule: u16,
    subject: u32,
    envelope: Option<Rect>,
    fresh: &[Entry],
    stored: &[Entry],
    dirt: &Dirt,
) -> Result<bool, NoMemory>
    requires fresh_ascending { IsAscending fresh.now }
    requires fresh_own { Every (IsOf rule subject) fresh.now }
    requires stored_ascending { IsAscending stored.now }
    requires stored_own { Every (IsOf rule subject) stored.now }
    ensures { IfOk result (λ yes. IsTrue yes ↔ IsSoundPair dirt.now envelope fresh.now stored.now rule subject) }
{
    if !do_wholes_agree(rule, subject, envelope, fresh, stored, dirt) {
        return Ok(false);
    }
    if !all_lie_in(alloc, fresh, stored, dirt)? {
        return Ok(false);
    }
    are_entries_sound(alloc, stored, envelope, fresh, dirt)
}

ghost use Rattle.std.specs.Prelude.{◌≡◌, ◌++◌, OnOk};
ghost use Rattle.script_terms.specs.Reply.{Number, Parts, Moved, Judged, Refused, reply_text};
ghost use Rattle.reply_text.specs.Replies.{refusal_of, said_of};

use crate::corners::push_corner_list;
use crate::listings::{
    push_cell_list, push_dirty_list, push_error_list, push_feature_list, push_rule_list,
};
use crate::refusal::{Refusal, push_refusal};
use crate::versions::{push_merged, push_posted};
use corner_terms::CellCorner;
use grid_plane::{Handles, NoMemory};
use text_out::{push_digits, push_end, push_text};
use topo_core::{KindRules, Summary, Topology};

/// What a line is answered. A listing lists the topology that it is said of, or corners that it holds.
#[derive(Drop)]
pub enum Reply {
    /// The line is skipped.
    Nothing,
    /// The command is done.
    Done,
    /// The command is done, and this is the number or the handle that it gave.
    Number(u32),
    /// A line is taken apart into so many parts.
    Parts(usize),
    /// So many features are moved.
    Moved(usize),
    /// A validation is done.
    Judged(Summary),
    /// The line is refused.
    Refused(Refusal),
    /// The dirty areas.
    DirtyList,
    /// The errors, without their cells.
    ErrorList,
    /// The errors, each with its cells.
    CellList,
    /// The live features.
    FeatureList,
    /// The rules in force.
    RuleList,
    /// These corners of the cells of an error.
    CornerList(Vec<CellCorner>),
    /// A version is reconciled: the handles at which there are conflicts, and at how many it changed.
    Merged(Handles, usize),
    /// A version is posted: at how many handles `default` changed.
    Posted(usize),
}

pub fn push_given(out: &mut Vec<u8>, number: u32) -> Result<(), NoMemory>
    ensures { OnOk result (out.new.items ≡ out.old.items ++ reply_text (Number number)) }
{
    push_text(out, b"ok ")?;
    push_digits(out, number)?;
    push_end(out)
}

pub fn push_parts(out: &mut Vec<u8>, count: usize) -> Result<(), NoMemory>
    ensures { OnOk result (out.new.items ≡ out.old.items ++ reply_text (Parts count)) }
{
    push_text(out, b"ok parts ")?;
    push_digits(out, count)?;
    push_end(out)
}

pub fn push_moved(out: &mut Vec<u8>, count: usize) -> Result<(), NoMemory>
    ensures { OnOk result (out.new.items ≡ out.old.items ++ reply_text (Moved count)) }
{
    push_text(out, b"ok moved ")?;
    push_digits(out, count)?;
    push_end(out)
}

pub fn push_judged(out: &mut Vec<u8>, summary: Summary) -> Result<(), NoMemory>
    ensures { OnOk result (out.new.items ≡ out.old.items ++ reply_text (Judged summary.judged summary.errors summary.dirty)) }
{
    push_text(out, b"ok judged ")?;
    push_digits(out, summary.judged)?;
    push_text(out, b" errors ")?;
    push_digits(out, summary.errors)?;
    push_text(out, b" dirty ")?;
    push_digits(out, summary.dirty)?;
    push_end(out)
}

pub fn push_refused(out: &mut Vec<u8>, refusal: &Refusal) -> Result<(), NoMemory>
    ensures { OnOk result (out.new.items ≡ out.old.items ++ reply_text (Refused (refusal_of refusal.now))) }
{
    push_text(out, b"refused ")?;
    push_refusal(out, refusal)?;
    push_end(out)
}

/// Appends the text of a reply, each line with one LF at its end; a listing of a topology lists this one. `NoMemory` comes where memory
/// runs out.
pub fn push_reply<R: KindRules>(
    out: &mut Vec<u8>,
    topology: &Topology<R>,
    reply: &Reply,
) -> Result<(), NoMemory>
    ensures { OnOk result (out.new.items ≡ out.old.items ++ reply_text (said_of topology.now reply.now)) }
{
    match reply {
        Reply::Nothing => Ok(()),
        Reply::Done => push_text(out, b"ok\n"),
        Reply::Number(number) => push_given(out, *number),
        Reply::Parts(count) => push_parts(out, *count),
        Reply::Moved(count) => push_moved(out, *count),
        Reply::Judged(summary) => push_judged(out, *summary),
        Reply::Refused(refusal) => push_refused(out, refusal),
        Reply::DirtyList => push_dirty_list(out, topology.dirt()),
        Reply::ErrorList => push_error_list(out, topology.errors()),
        Reply::CellList => push_cell_list(out, topology.errors()),
        Reply::FeatureList => push_feature_list(out, topology.store()),
        Reply::RuleList => push_rule_list(out, topology.store(), topology.rules()),
        Reply::CornerList(corners) => push_corner_list(out, corners),
        Reply::Merged(conflicts, taken) => push_merged(out, conflicts, *taken),
        Reply::Posted(number) => push_posted(out, *number),
    }
}

ghost use Rattle.std.specs.Prelude.{◌≡◌, ◌≤◌, ◌||◌, true, [], IfOk, sum};
ghost use Rattle.text_terms.specs.Lines.{lines_of};
ghost use Rattle.topology_terms.specs.Counts.{raised};
ghost use Rattle.topology_terms.specs.Project.{Project};
ghost use Rattle.script_terms.specs.Run as run;
ghost use Rattle.script_terms.specs.State.{empty_state};
ghost use Rattle.town_terms.specs.Ends.{EndsAsTown, IsTownRun, listings};
ghost use Rattle.town_terms.specs.Summary.{summary_text};
ghost use Rattle.town_maker.specs.Counted.{counts_of};
ghost use Rattle.reply_text.specs.Replies.{said_of};
ghost use Rattle.topo_run.specs.Told.{IsTold, judged_in};

use crate::answer::{is_refusal, reply_to};
use crate::lines::split_line;
use crate::write::write_all;
use command_answers::{Reply, World};
use grid_plane::NoMemory;
use outside_terms::Status;
use reply_text::push_reply;
use std::alloc::Global;
use std::mem;
use topo_outside::{Sink, SinkFault};
use town_maker::{TownCounts, TownRequest, byte_sum, push_summary, town_script};

/// What the replies to lines told: how many pairs of a rule and a feature were judged, a count that stops at its greatest number,
/// and whether a line was refused.
#[derive(Clone, Copy)]
struct Told {
    judged: u64,
    refused: bool,
}

/// What is summed up of a town's run.
#[derive(Clone, Copy)]
pub struct Summed {
    pub counts: TownCounts,
    pub refused: bool,
}

fn judged_in(reply: &Reply) -> u64
    ensures { result ≡ judged_in reply.now }
{
    match reply {
        Reply::Judged(summary) => summary.judged,
        _ => 0,
    }
}

impl Told {
    // With what one reply more tells.
    fn with(self, reply: &Reply) -> Told
        ensures judged { result.judged ≡ raised self.judged (judged_in reply.now) }
        ensures refused { (p : Project) → result.refused ≡ (self.refused || run.is_refusal (said_of p reply.now)) }
    {
        Told {
            judged: self.judged.saturating_add(judged_in(reply)),
            refused: self.refused || is_refusal(reply),
        }
    }
}

// Answers the lines of a script from the empty state. Its replies are not made.
fn answer_all(alloc: Global, script: &[u8], world: &mut World) -> Result<Told, NoMemory>
    requires { world.old ≡ empty_state }
    ensures { IfOk result (λ told. IsTold empty_state (lines_of true script.now) [] world.new told.judged told.refused) }
{
    world.headline_law();
    let mut told = Told {
        judged: 0,
        refused: false,
    };
    let mut rest = script;
    while let Some((line, after)) = split_line(rest, true) {
        let reply = reply_to(alloc, world, line)?;
        told = told.with(&reply);
        rest = after;
    }
    Ok(told)
}

// The sum of the bytes of the listings of cells and of features.
fn sum_of_listings(alloc: Global, world: &World) -> Result<u128, NoMemory>
    ensures { IfOk result (λ n. n ≡ sum (listings world.now.project)) }
{
    let mut text = Vec::new(alloc);
    push_reply(&mut text, world.topology(), &Reply::CellList)?;
    push_reply(&mut text, world.topology(), &Reply::FeatureList)?;
    Ok(byte_sum(&text))
}

// Runs the script of the made town from the empty state.
fn run_town(alloc: Global, request: TownRequest) -> Result<Summed, NoMemory>
    requires some { 1 ≤ request.rows }
    requires few { request.rows ≤ 60 }
    ensures { IfOk result (λ s. IsTownRun request.seed request.rows (counts_of s.counts) s.refused) }
{
    let script = town_script(alloc, request.seed, request.rows)?;
    let mut world = World::new(alloc);
    let told = answer_all(alloc, &script, &mut world)?;
    let topology = world.topology();
    let counts = TownCounts {
        features: topology.store().len() as u64,
        judged: told.judged,
        errors: topology.errors().len() as u64,
        dirty: topology.dirt().len() as u64,
        text: sum_of_listings(alloc, &world)?,
    };
    mem::forget(world);
    Ok(Summed {
        counts,
        refused: told.refused,
    })
}

fn summary_of(alloc: Global, counts: &TownCounts) -> Result<Vec<u8>, NoMemory>
    ensures { IfOk result (λ text. text.items ≡ summary_text (counts_of counts.now)) }
{
    let mut text = Vec::new(alloc);
    push_summary(&mut text, counts)?;
    Ok(text)
}

/// Runs the script of the made town, and writes the five lines of its summary.
#[tactic(auto, using(crate::proofs::Towns::summaries))]
pub fn town<K: Sink>(alloc: Global, request: TownRequest, sink: &mut K) -> Status
    requires some { 1 ≤ request.rows }
    requires few { request.rows ≤ 60 }
    ensures ends { EndsAsTown request.seed request.rows (record { old = K.written sink.old; new = K.written sink.new; before = K.faults sink.old; now = K.faults sink.new }) result }
    ensures later { K.faults sink.old ≤ K.faults sink.new }
{
    let Ok(summed) = run_town(alloc, request) else {
        return Status::NoMemory;
    };
    let Ok(text) = summary_of(alloc, &summed.counts) else {
        return Status::NoMemory;
    };
    match write_all(sink, &text) {
        Ok(()) if summed.refused => Status::Refused,
        Ok(()) => Status::Done,
        Err(SinkFault::Failed) => Status::WriteFault,
        Err(SinkFault::NoMemory) => Status::NoMemory,
    }
}

// Replays a script of ten lines, and the run that saves a project of two lots, where calls to the outside fail, one after another,
// and counts the runs that end otherwise than they are to. What is expected comes from the replies that stand beside the lines in
// script.rt.
#![tactic(auto)]

mod kinds;
mod script;
mod statuses;
mod streams;
mod tally;

use kinds::{
    AbsentProjects, EarlyWrites, EmptyWrites, EndlessReads, FailingReads, FailingReadsAndWrites,
    FailingShelves, FailingUsage, FailingWrites, Kind, LateWrites, OtherWords, PlainRuns,
    RunsInPieces, SavedProjects, SavingOverFaults, SavingReads, SavingRuns, SavingWrites,
    UnsavedProjects, WrongTexts,
};
use std::io;

// Makes the runs of a kind and prints a line of them.
fn make(rt: &HostRuntime, kind: &impl Kind) -> io::Result<()> {
    let name = kind.name();
    let tally = kind.runs(rt.alloc())?;
    let runs = tally.runs();
    let differ = tally.differ();
    println!(rt; "{name}: {runs} runs, {differ} differ")
}

fn main(rt: HostRuntime) -> io::Result<()> {
    make(&rt, &PlainRuns)?;
    make(&rt, &RunsInPieces)?;
    make(&rt, &FailingReads)?;
    make(&rt, &FailingWrites)?;
    make(&rt, &EmptyWrites)?;
    make(&rt, &FailingReadsAndWrites)?;
    make(&rt, &LateWrites)?;
    make(&rt, &EarlyWrites)?;
    make(&rt, &OtherWords)?;
    make(&rt, &FailingUsage)?;
    make(&rt, &AbsentProjects)?;
    make(&rt, &FailingShelves)?;
    make(&rt, &WrongTexts)?;
    make(&rt, &SavedProjects)?;
    make(&rt, &UnsavedProjects)?;
    make(&rt, &SavingRuns)?;
    make(&rt, &SavingReads)?;
    make(&rt, &SavingWrites)?;
    make(&rt, &SavingOverFaults)?;
    make(&rt, &EndlessReads)
}

ghost use Rattle.std.specs.Prelude.{◌≡◌, ◌↔◌, IsTrue, IfOk};
ghost use Rattle.topology_terms.specs.Entry.{IsAscending};
ghost use Rattle.project_terms.specs.Drafts.{start, rank, may_follow, takes_cell, wants_cell, is_open, is_cell_open};

use crate::data::ProjectData;
use crate::indexed::IndexedDirt;
use error_store::{Entry, Errors};
use feature_store::Store;
use grid_plane::NoMemory;
use project_terms::Stage;
use rule_core::InForce;
use std::alloc::Global;
use std::marker::Model;

/// The stage that a text has come to, whether its format has subtypes, and what its lines have said so far.
#[derive(Drop)]
pub struct Draft {
    pub stage: Stage,
    pub typed: bool,
    pub store: Store,
    pub rules: Vec<InForce>,
    pub dirt: IndexedDirt,
    pub entries: Vec<Entry>,
}

impl Model for Draft {
    ghost use Rattle.project_terms.specs.Drafts as terms;

    ghost Value = { terms.Draft };

    ghost view = { λ d. record { stage = d.stage; typed = d.typed; project = record { classes = d.store.classes; rules = d.rules.items; features = d.store.features; next = d.store.next; dirt = d.dirt; entries = d.entries.items } } };
}

fn rank(stage: Stage) -> u8
    ensures { result ≡ rank stage }
{
    match stage {
        Stage::Start => 0,
        Stage::Title => 1,
        Stage::Next => 2,
        Stage::Classes => 3,
        Stage::Rules => 4,
        Stage::Features => 5,
        Stage::Dirt => 6,
        Stage::Errors => 7,
        Stage::End => 8,
    }
}

fn may_follow(before: Stage, stage: Stage) -> bool
    ensures { result ≡ may_follow before stage }
{
    match before {
        Stage::Start => rank(stage) == 1,
        Stage::Title => rank(stage) == 2,
        Stage::End => false,
        _ => rank(stage) >= 3 && rank(before) <= rank(stage),
    }
}

// Whether the last error is of cells.
fn takes_cell(entries: &[Entry]) -> bool
    ensures { result ≡ takes_cell entries.now }
{
    match entries.last() {
        Some(entry) => !entry.whole(),
        None => false,
    }
}

// Whether the last error is of cells and has none yet.
fn wants_cell(entries: &[Entry]) -> bool
    ensures { result ≡ wants_cell entries.now }
{
    match entries.last() {
        Some(entry) => !entry.whole() && entry.cells().len() == 0,
        None => false,
    }
}

impl Draft {
    /// Before the first line.
    pub fn new(alloc: Global) -> Draft
        ensures { result ≡ start }
    {
        Draft {
            stage: Stage::Start,
            typed: false,
            store: Store::new(alloc),
            rules: Vec::new(alloc),
            dirt: IndexedDirt::new(alloc),
            entries: Vec::new(alloc),
        }
    }

    /// Whether a line of this stage may come next.
    pub fn is_open(&self, stage: Stage) -> bool
        ensures { result ≡ is_open stage self.now }
    {
        may_follow(self.stage, stage) && !wants_cell(&self.entries)
    }

    /// Whether a cell may come next.
    pub fn is_cell_open(&self) -> bool
        ensures { result ≡ is_cell_open self.now }
    {
        may_follow(self.stage, Stage::Errors) && takes_cell(&self.entries)
    }

    /// Whether the last line is read.
    pub fn is_over(&self) -> bool
        ensures { IsTrue result ↔ (self.now.stage ≡ Stage.End) }
    {
        self.stage == Stage::End
    }

    /// What the lines have said, once all are read.
    pub fn into_project(self, alloc: Global) -> Result<ProjectData, NoMemory>
        requires { IsAscending self.project.entries }
        ensures { IfOk result (λ p. p ≡ self.project) }
    {
        let errors = Errors::of(alloc, self.entries)?;
        Ok(ProjectData {
            store: self.store,
            rules: self.rules,
            dirt: self.dirt.into_dirt(),
            errors,
        })
    }
}

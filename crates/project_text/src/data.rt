use dirty_area::Dirt;
use error_store::Errors;
use feature_store::Store;
use rule_core::InForce;
use std::marker::Model;

/// What is saved of a topology: classes and features, rules in force by their numbers, what is dirty, and errors. Sessions are no part of it.
#[derive(Drop)]
pub struct ProjectData {
    pub store: Store,
    pub rules: Vec<InForce>,
    pub dirt: Dirt,
    pub errors: Errors,
}

impl Model for ProjectData {
    ghost use Rattle.topology_terms.specs.Project.{Project};

    ghost Value = { Project };

    ghost view = { λ d. record { classes = d.store.classes; rules = d.rules.items; features = d.store.features; next = d.store.next; dirt = d.dirt; entries = d.errors } };
}

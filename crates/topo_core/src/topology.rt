ghost use Rattle.std.specs.Prelude.{◌≡◌, ◌≤◌, ◌<◌, ◌+◌, ◌-◌, length, Some, None, IfSome, IfOk, IfErr, OnOk, OnErr};
ghost use Rattle.topology_terms.specs.Feature.{feature_at};
ghost use Rattle.topology_terms.specs.Project.{empty_project, IsOrdered};
ghost use Rattle.topology_terms.specs.Sound.{IsSoundUnder};
ghost use Rattle.topology_terms.specs.Settled.{IsSettledUnder, IsValidatedBy};
ghost use Rattle.topology_terms.specs.Causes.{Tells, class_cause, add_cause, change_cause, delete_cause, rule_cause, drop_cause, mark_cause};
ghost use Rattle.topology_terms.specs.declared.cause.Cause.TheVariants as cause;
ghost use Rattle.topology_terms.specs.Changes.{IsClassAdded, IsFeatureAdded, IsFeatureSet, IsRuleAdded, IsRuleDropped, IsMarked, reshaped, retyped};
ghost use Rattle.error_store.specs.Marking.{fault_cause};
ghost use Rattle.feature_store.specs.Keeps.{IsOfClass};
ghost use Rattle.feature_store.specs.Faults.{store_cause};
ghost use Rattle.project_check.specs.Checked.{IsChecked};
ghost use Rattle.topo_core.specs.Faults.{edit_cause, row_cause, IsThereAt};
ghost use Rattle.topo_core.specs.Topologies.{IsTopology};
ghost use Rattle.topo_core.specs.Steps.{IsCounted, IsCountWithin, IsAskedBy};

use crate::fault::ChangeFault;
use crate::fitting::fit;
use crate::growth::{dirty_both, dirty_next, envelope_law, has_other_kind, store_law};
use crate::no_rule::NoRule;
use crate::places::{kept_place, live_place, take_place};
use crate::rule_fault::RuleFault;
use crate::rules::{drop_from, free_number, has_number, number_of_row, put_rule};
use dirty_area::Dirt;
use error_store::{Errors, Key, MarkFault};
use feature_store::{Store, StoreFault};
use grid_index::Index;
use grid_plane::{Name, NoMemory, Rect};
use project_check::{Unsound, check_project};
use rule_core::{InForce, KindRules, RuleRow, Work};
use shape::{Feature, Kind, Shape};
use std::alloc::Global;
use std::marker::Model;
use step_count::Count;
use validation::{RuledFeatures, validate_counted};

// The most rules there may be.
const RULE_LIMIT: usize = 256;

/// What a validation did: how often a rule was tried on a subject, how many errors and how many dirty rectangles there are now.
#[derive(Clone, Copy)]
pub struct Summary {
    pub judged: u64,
    pub errors: u64,
    pub dirty: u64,
}

/// A topology: classes and features, rules in force, what is dirty, and the errors that were found. It keeps an index of where
/// its features lie, which nothing shows.
///
/// A call that answers an error leaves everything as it was. `NoMemory` may come of any call that may answer it.
#[derive(Drop)]
pub struct Topology<R> {
    pub(crate) alloc: Global,
    pub(crate) judging: R,
    pub(crate) store: Store,
    pub(crate) index: Index<Count>,
    pub(crate) rules: Vec<InForce>,
    pub(crate) dirt: Dirt,
    pub(crate) entries: Errors,
}

impl<R> Model for Topology<R> {
    ghost use Rattle.topology_terms.specs.Project.{Project};
    ghost use Rattle.topo_core.specs.Topologies.{project_of, IsIndexed};

    ghost Value = { Project };

    ghost view = { λ t. project_of t.store t.rules.items t.dirt t.entries };

    ghost invariant = { λ t. IsIndexed (project_of t.store t.rules.items t.dirt t.entries) t.index };
}

impl<R: KindRules> Topology<R> {
    /// Nothing, judged by these rules; the next handle is 1.
    pub fn new(alloc: Global, judging: R) -> Topology<R>
        ensures empty { result ≡ empty_project }
        ensures sound { IsSoundUnder R.meaning result }
        ensures settled { IsSettledUnder R.meaning result }
    {
        Topology {
            alloc,
            judging,
            store: Store::new(alloc),
            index: Index::new(alloc),
            rules: Vec::new(alloc),
            dirt: Dirt::new(alloc),
            entries: Errors::new(alloc),
        }
    }

    /// The law that rules, features and entries stand in the order of their keys, below the next handle.
    pub fn order_law(&self)
        ensures { IsOrdered self.now }
    {
        let _ = &self.store;
    }

    /// The law of what every topology keeps: classes and features as a store keeps them, rules by number and at most 256,
    /// errors by key, each of a rule in force.
    pub fn topology_law(&self)
        ensures { IsTopology self.now }
    {
        let _ = &self.store;
    }

    /// Adds a class of this name and kind and answers its number, from 1 up. Refused where the name is taken, then where
    /// there are 64 classes.
    pub fn add_class(&mut self, name: Name, kind: Kind) -> Result<u16, StoreFault>
        ensures ok { OnOk result (IsClassAdded name kind self.old self.new) }
        ensures number { IfOk result (λ n. n ≡ length self.old.classes + 1) }
        ensures may { OnOk result (class_cause self.old.classes name ≡ None) }
        ensures refused { IfErr result (λ e. Tells (store_cause e) (class_cause self.old.classes name)) }
        ensures sound { IsSoundUnder R.meaning self.old → IsSoundUnder R.meaning self.new }
        ensures settled { IsSettledUnder R.meaning self.old → IsSettledUnder R.meaning self.new }
        ensures ordered { IsOrdered self.new }
        ensures err { OnErr result (self.new ≡ self.old) }
    {
        let number = self.store.add_class(name, kind)?;
        store_law(&self.store);
        Ok(number)
    }

    /// Adds a feature of the class of this number and of the subtype under the next handle, and answers the handle; its envelope is
    /// dirty then. Refused where there is no such class, then where the kinds differ, then where the next handle is 4,294,967,295.
    pub fn add_typed(&mut self, class: u16, subtype: u8, shape: Shape) -> Result<u32, ChangeFault>
        ensures ok { IfOk result (λ h. IsFeatureAdded class subtype shape h self.old self.new) }
        ensures may { OnOk result (add_cause self.old.classes self.old.next class shape.kind ≡ None) }
        ensures refused { IfErr result (λ e. Tells (edit_cause e) (add_cause self.old.classes self.old.next class shape.kind)) }
        ensures sound { IsSoundUnder R.meaning self.old → IsSoundUnder R.meaning self.new }
        ensures settled { IsSettledUnder R.meaning self.old → IsSettledUnder R.meaning self.new }
        ensures ordered { IsOrdered self.new }
        ensures err { OnErr result (self.new ≡ self.old) }
    {
        let env = shape.env();
        env.corner_law();
        self.store.check_add(class, &shape)?;
        self.store.room()?;
        dirty_next(&mut self.dirt, &mut self.index, &self.store, env)?;
        let handle = self.store.add_typed_in(class, subtype, shape);
        store_law(&self.store);
        Ok(handle)
    }

    /// Adds a feature of the subtype 0, as `add_typed` does.
    pub fn add(&mut self, class: u16, shape: Shape) -> Result<u32, ChangeFault>
        ensures ok { IfOk result (λ h. IsFeatureAdded class 0 shape h self.old self.new) }
        ensures may { OnOk result (add_cause self.old.classes self.old.next class shape.kind ≡ None) }
        ensures refused { IfErr result (λ e. Tells (edit_cause e) (add_cause self.old.classes self.old.next class shape.kind)) }
        ensures sound { IsSoundUnder R.meaning self.old → IsSoundUnder R.meaning self.new }
        ensures settled { IsSettledUnder R.meaning self.old → IsSettledUnder R.meaning self.new }
        ensures ordered { IsOrdered self.new }
        ensures err { OnErr result (self.new ≡ self.old) }
    {
        self.add_typed(class, 0, shape)
    }

    /// Puts a rule in force under the least number from 1 that is free, and answers the number; the whole grid is dirty then.
    /// Refused where a class is missing, then where the sides do not fit the rule, then where an equal rule is in force, then
    /// where there are 256 rules.
    pub fn add_rule(&mut self, row: RuleRow) -> Result<u16, RuleFault>
        ensures ok { IfOk result (λ n. IsRuleAdded n row self.old self.new) }
        ensures may { OnOk result (rule_cause self.old row ≡ None) }
        ensures refused { IfErr result (λ e. Tells (row_cause e) (rule_cause self.old row)) }
        ensures there { IfErr result (IsThereAt self.old.rules row) }
        ensures sound { IsSoundUnder R.meaning self.old → IsSoundUnder R.meaning self.new }
        ensures settled { IsSettledUnder R.meaning self.old → IsSettledUnder R.meaning self.new }
        ensures ordered { IsOrdered self.new }
        ensures err { OnErr result (self.new ≡ self.old) }
    {
        fit(&self.store, &row)?;
        if let Some(number) = number_of_row(&self.rules, &row) {
            return Err(RuleFault::There { number });
        }
        if self.rules.len() >= RULE_LIMIT {
            return Err(RuleFault::Full);
        }
        let number = free_number(&self.rules);
        self.rules.reserve(1)?;
        self.dirt.add(Rect::whole())?;
        put_rule(&mut self.rules, InForce { number, row });
        Ok(number)
    }

    /// Puts the rule of this number out of force. It goes with its errors, and nothing becomes dirty. Refused where no rule in
    /// force has this number. Needs no memory.
    pub fn drop_rule(&mut self, number: u16) -> Result<(), NoRule>
        ensures ok { OnOk result (IsRuleDropped number self.old self.new) }
        ensures may { OnOk result (drop_cause self.old.rules number ≡ None) }
        ensures refused { OnErr result (drop_cause self.old.rules number ≡ Some cause.NoRule) }
        ensures sound { IsSoundUnder R.meaning self.old → IsSoundUnder R.meaning self.new }
        ensures settled { IsSettledUnder R.meaning self.old → IsSettledUnder R.meaning self.new }
        ensures ordered { IsOrdered self.new }
        ensures err { OnErr result (self.new ≡ self.old) }
    {
        if !has_number(&self.rules, number) {
            return Err(NoRule);
        }
        drop_from(&mut self.rules, number);
        self.entries.drop_rule(number);
        Ok(())
    }

    /// Marks the error of this key as an exception, or takes its mark away; all else stays. Refused where no error has this
    /// key, then where its mark is so already. Takes no memory.
    pub fn mark(&mut self, key: Key, on: bool) -> Result<(), MarkFault>
        ensures ok { OnOk result (IsMarked key.rule key.subject key.other on self.old self.new) }
        ensures may { OnOk result (mark_cause self.old.entries key.rule key.subject key.other on ≡ None) }
        ensures refused { IfErr result (λ e. mark_cause self.old.entries key.rule key.subject key.other on ≡ Some (fault_cause e)) }
        ensures sound { IsSoundUnder R.meaning self.old → IsSoundUnder R.meaning self.new }
        ensures settled { IsSettledUnder R.meaning self.old → IsSettledUnder R.meaning self.new }
        ensures ordered { IsOrdered self.new }
        ensures err { OnErr result (self.new ≡ self.old) }
    {
        self.entries.set_mark(key, on)?;
        Ok(())
    }

    /// Exchanges the live feature of this handle, or its absence, with the kept one. The envelope of what stood there is dirty
    /// then, and that of what stands there. After a refusal, out of memory, nothing has changed.
    pub fn swap(&mut self, handle: u32, kept: &mut Option<Feature>) -> Result<(), NoMemory>
        requires from_1 { 1 ≤ handle }
        requires given { handle < self.old.next }
        requires own { IfSome kept.old (λ f. f.handle ≡ handle) }
        requires fits { IfSome kept.old (IsOfClass self.old.classes) }
        ensures ok { OnOk result (IsFeatureSet handle kept.old self.old self.new) }
        ensures stood { OnOk result (kept.new ≡ feature_at self.old.features handle) }
        ensures own { IfSome kept.new (λ f. f.handle ≡ handle) }
        ensures fits { IfSome kept.new (IsOfClass self.new.classes) }
        ensures sound { IsSoundUnder R.meaning self.old → IsSoundUnder R.meaning self.new }
        ensures settled { IsSettledUnder R.meaning self.old → IsSettledUnder R.meaning self.new }
        ensures ordered { IsOrdered self.new }
        ensures err { OnErr result (self.new ≡ self.old) }
        ensures same { OnErr result (kept.new ≡ kept.old) }
    {
        envelope_law(kept);
        let stood = live_place(&self.store, handle);
        let comes = kept_place(kept);
        self.store.room()?;
        dirty_both(&mut self.dirt, &mut self.index, &self.store, handle, kept)?;
        self.store.swap_in(handle, kept);
        take_place(&mut self.index, &stood, &comes);
        store_law(&self.store);
        Ok(())
    }

    /// Gives the live feature of this handle another shape, and answers the feature as it was; its subtype stays. Both envelopes are
    /// dirty then.
    /// Refused where there is no such feature, then where the kinds differ.
    pub fn change(&mut self, handle: u32, shape: Shape) -> Result<Feature, ChangeFault>
        ensures ok { OnOk result (IsFeatureSet handle (reshaped (feature_at self.old.features handle) shape) self.old self.new) }
        ensures was { IfOk result (λ f. feature_at self.old.features handle ≡ Some f) }
        ensures may { OnOk result (change_cause self.old.features handle shape.kind ≡ None) }
        ensures refused { IfErr result (λ e. Tells (edit_cause e) (change_cause self.old.features handle shape.kind)) }
        ensures sound { IsSoundUnder R.meaning self.old → IsSoundUnder R.meaning self.new }
        ensures settled { IsSettledUnder R.meaning self.old → IsSettledUnder R.meaning self.new }
        ensures ordered { IsOrdered self.new }
        ensures err { OnErr result (self.new ≡ self.old) }
    {
        let Some(feature) = self.store.get(handle) else {
            return Err(ChangeFault::NoFeature);
        };
        if has_other_kind(&shape, feature) {
            return Err(ChangeFault::WrongKind);
        }
        let (class, subtype) = (feature.class(), feature.subtype());
        let mut kept = Some(Feature::typed(handle, class, subtype, shape));
        self.swap(handle, &mut kept)?;
        kept.ok_or(ChangeFault::NoFeature)
    }

    /// Gives the live feature of this handle another subtype, and answers the feature as it was. Its envelope is dirty then. Refused
    /// where there is no such feature.
    pub fn retype(&mut self, handle: u32, subtype: u8) -> Result<Feature, ChangeFault>
        ensures ok { OnOk result (IsFeatureSet handle (retyped (feature_at self.old.features handle) subtype) self.old self.new) }
        ensures was { IfOk result (λ f. feature_at self.old.features handle ≡ Some f) }
        ensures may { OnOk result (delete_cause self.old.features handle ≡ None) }
        ensures refused { IfErr result (λ e. Tells (edit_cause e) (delete_cause self.old.features handle)) }
        ensures sound { IsSoundUnder R.meaning self.old → IsSoundUnder R.meaning self.new }
        ensures settled { IsSettledUnder R.meaning self.old → IsSettledUnder R.meaning self.new }
        ensures ordered { IsOrdered self.new }
        ensures err { OnErr result (self.new ≡ self.old) }
    {
        let Some(feature) = self.store.get(handle) else {
            return Err(ChangeFault::NoFeature);
        };
        let copy = feature.try_copy(self.alloc)?;
        let mut typed = Some(copy.with_subtype(subtype));
        self.swap(handle, &mut typed)?;
        typed.ok_or(ChangeFault::NoFeature)
    }

    /// Takes the live feature of this handle away, and answers it. Its envelope is dirty then. Refused where there is no such
    /// feature.
    pub fn delete(&mut self, handle: u32) -> Result<Feature, ChangeFault>
        ensures ok { OnOk result (IsFeatureSet handle None self.old self.new) }
        ensures was { IfOk result (λ f. feature_at self.old.features handle ≡ Some f) }
        ensures may { OnOk result (delete_cause self.old.features handle ≡ None) }
        ensures refused { IfErr result (λ e. Tells (edit_cause e) (delete_cause self.old.features handle)) }
        ensures sound { IsSoundUnder R.meaning self.old → IsSoundUnder R.meaning self.new }
        ensures settled { IsSettledUnder R.meaning self.old → IsSettledUnder R.meaning self.new }
        ensures ordered { IsOrdered self.new }
        ensures err { OnErr result (self.new ≡ self.old) }
    {
        if self.store.get(handle).is_none() {
            return Err(ChangeFault::NoFeature);
        }
        let mut kept = None;
        self.swap(handle, &mut kept)?;
        kept.ok_or(ChangeFault::NoFeature)
    }

    /// Raises the next handle to one that is no lower; all else stays. Takes no memory.
    pub fn raise_next(&mut self, next: u32)
        requires { self.old.next ≤ next }
        ensures raised { self.new ≡ record self.old { next = next } }
        ensures sound { IsSoundUnder R.meaning self.old → IsSoundUnder R.meaning self.new }
        ensures settled { IsSettledUnder R.meaning self.old → IsSettledUnder R.meaning self.new }
        ensures ordered { IsOrdered self.new }
    {
        self.store.set_next(next);
        store_law(&self.store);
    }

    /// Validates the window: every rule in force judges each live feature of its subjects that the window and the dirt select,
    /// the errors of the selected subjects give way to what is found, and the window is cut out of the dirt.
    pub fn validate(&mut self, window: Rect, work: &mut Work) -> Result<Summary, NoMemory>
        ensures ok { OnOk result (IsValidatedBy R.meaning window self.old self.new) }
        ensures judged { OnOk result (IsCounted window self.old work.old.judged work.new.judged) }
        ensures stopped { OnErr result (IsCountWithin window self.old work.old.judged work.new.judged) }
        ensures summary { IfOk result (λ s. (s.judged ≡ work.new.judged - work.old.judged) × (s.errors ≡ length self.new.entries) × (s.dirty ≡ length self.new.dirt)) }
        ensures sound { IsSoundUnder R.meaning self.old → IsSoundUnder R.meaning self.new }
        ensures settled { IsSettledUnder R.meaning self.old → IsSettledUnder R.meaning self.new }
        ensures ordered { IsOrdered self.new }
        ensures err { OnErr result (self.new ≡ self.old) }
    {
        self.validate_counted(window, work, &mut Count::new(), &mut Count::new())
    }

    /// What `validate` does, and the steps of its questions to the indexes: the first meter counts those in the index of where
    /// features lie, which has the live ones and no other, and the second those in that of the errors' frames. The first rises by no
    /// more than questions about what is dirty of the window, and about what is near each feature that is judged, allow.
    pub fn validate_counted(
        &mut self,
        window: Rect,
        work: &mut Work,
        feature_meter: &mut Count,
        error_meter: &mut Count,
    ) -> Result<Summary, NoMemory>
        ensures ok { OnOk result (IsValidatedBy R.meaning window self.old self.new) }
        ensures judged { OnOk result (IsCounted window self.old work.old.judged work.new.judged) }
        ensures stopped { OnErr result (IsCountWithin window self.old work.old.judged work.new.judged) }
        ensures summary { IfOk result (λ s. (s.judged ≡ work.new.judged - work.old.judged) × (s.errors ≡ length self.new.entries) × (s.dirty ≡ length self.new.dirt)) }
        ensures sound { IsSoundUnder R.meaning self.old → IsSoundUnder R.meaning self.new }
        ensures settled { IsSettledUnder R.meaning self.old → IsSettledUnder R.meaning self.new }
        ensures ordered { IsOrdered self.new }
        ensures err { OnErr result (self.new ≡ self.old) }
        ensures asked { IsAskedBy window self.old feature_meter.old feature_meter.new }
        ensures rises { feature_meter.old ≤ feature_meter.new }
        ensures error_rises { error_meter.old ≤ error_meter.new }
    {
        let before = work.judged();
        let features = self.store.features();
        let ruled = RuledFeatures::of(
            self.alloc,
            &self.judging,
            &self.rules,
            &features,
            &self.index,
        );
        validate_counted(
            &ruled,
            &mut self.entries,
            &mut self.dirt,
            &window,
            work,
            feature_meter,
            error_meter,
        )?;
        Ok(Summary {
            judged: work.judged().saturating_sub(before),
            errors: self.entries.len() as u64,
            dirty: self.dirt.len() as u64,
        })
    }

    /// `None` where the topology is sound: off the dirt its errors say exactly what is broken. Else the first rule in force and
    /// subject at which it is not, in order of rules, then of subjects; a subject is live, or has an error. Judges each live
    /// feature by each rule anew, and changes nothing. An `Err` means out of memory.
    pub fn check(&self) -> Result<Option<Unsound>, NoMemory>
        ensures { IfOk result (IsChecked R.meaning self.now) }
    {
        check_project(
            &self.judging,
            self.alloc,
            &self.rules,
            &self.store.features(),
            &self.index,
            &self.entries,
            &self.dirt,
        )
    }

    /// The classes and the live features.
    pub fn store(&self) -> &Store
        ensures classes { result.now.classes ≡ self.now.classes }
        ensures features { result.now.features ≡ self.now.features }
        ensures next { result.now.next ≡ self.now.next }
    {
        &self.store
    }

    /// The rules in force, in the order of their numbers.
    pub fn rules(&self) -> &[InForce]
        ensures { result.now ≡ self.now.rules }
    {
        &self.rules
    }

    /// The dirty areas.
    pub fn dirt(&self) -> &Dirt
        ensures { result.now ≡ self.now.dirt }
    {
        &self.dirt
    }

    /// The errors.
    pub fn errors(&self) -> &Errors
        ensures { result.now ≡ self.now.entries }
    {
        &self.entries
    }
}

ghost use Rattle.std.specs.Prelude.{◌≡◌, ◌≤◌, ◌<◌, ◌+◌, ◌-◌, length, [], Some, None, IfSome, IfOk, IfErr, OnOk, OnErr};
ghost use Rattle.topology_terms.specs.Feature.{feature_at};
ghost use Rattle.topology_terms.specs.Project.{IsOrdered};
ghost use Rattle.topology_terms.specs.Sound.{IsSoundUnder};
ghost use Rattle.topology_terms.specs.Settled.{IsSettledUnder, IsValidatedBy};
ghost use Rattle.topology_terms.specs.Causes.{Tells, class_cause, add_cause, change_cause, delete_cause, rule_cause, drop_cause, mark_cause};
ghost use Rattle.topology_terms.specs.declared.cause.Cause.TheVariants as cause;
ghost use Rattle.topology_terms.specs.Changes.{IsClassAdded, IsFeatureAdded, IsFeatureSet, IsRuleAdded, IsRuleDropped, IsMarked, reshaped, retyped};
ghost use Rattle.error_store.specs.Marking.{fault_cause};
ghost use Rattle.feature_store.specs.Keeps.{IsOfClass};
ghost use Rattle.feature_store.specs.Faults.{store_cause};
ghost use Rattle.topo_core.specs.Faults.{edit_cause, row_cause, IsThereAt};
ghost use Rattle.topo_core.specs.Steps.{IsCounted, IsCountWithin};
ghost use Rattle.topo_core.specs.Topologies.{IsTopology};
ghost use Rattle.version_terms.specs.VersionChanges.{IsAside};

use crate::tree::Tree;
use grid_plane::{Name, NoMemory, Rect};
use rule_core::{RuleRow, Work};
use shape::{Feature, Kind, Shape};
use topo_core::{ChangeFault, Key, KindRules, MarkFault, NoRule, RuleFault, StoreFault, Summary};

// The calls of the current version: each is that of its topology, and what stands beside it stays. After an error nothing has
// changed.
impl<R: KindRules> Tree<R> {
    /// The law of what the current version keeps.
    pub fn current_law(&self)
        ensures topology { IsTopology self.now.current.project }
        ensures ordered { IsOrdered self.now.current.project }
    {
        self.current().topology_law();
        self.current().order_law();
    }

    /// Adds a class to the one version, as `Topology::add_class` does.
    pub fn add_class(&mut self, name: Name, kind: Kind) -> Result<u16, StoreFault>
        requires alone { length self.old.others ≡ 0 }
        ensures ok { OnOk result (IsClassAdded name kind self.old.current.project self.new.current.project) }
        ensures number { IfOk result (λ n. n ≡ length self.old.current.project.classes + 1) }
        ensures may { OnOk result (class_cause self.old.current.project.classes name ≡ None) }
        ensures refused { IfErr result (λ e. Tells (store_cause e) (class_cause self.old.current.project.classes name)) }
        ensures sound { IsSoundUnder R.meaning self.old.current.project → IsSoundUnder R.meaning self.new.current.project }
        ensures settled { IsSettledUnder R.meaning self.old.current.project → IsSettledUnder R.meaning self.new.current.project }
        ensures aside { IsAside self.old self.new }
        ensures err { OnErr result (self.new ≡ self.old) }
    {
        self.current.topology.add_class(name, kind)
    }

    /// Puts a rule in force in the one version, as `Topology::add_rule` does.
    pub fn add_rule(&mut self, row: RuleRow) -> Result<u16, RuleFault>
        requires alone { length self.old.others ≡ 0 }
        ensures ok { IfOk result (λ n. IsRuleAdded n row self.old.current.project self.new.current.project) }
        ensures may { OnOk result (rule_cause self.old.current.project row ≡ None) }
        ensures refused { IfErr result (λ e. Tells (row_cause e) (rule_cause self.old.current.project row)) }
        ensures there { IfErr result (IsThereAt self.old.current.project.rules row) }
        ensures sound { IsSoundUnder R.meaning self.old.current.project → IsSoundUnder R.meaning self.new.current.project }
        ensures settled { IsSettledUnder R.meaning self.old.current.project → IsSettledUnder R.meaning self.new.current.project }
        ensures aside { IsAside self.old self.new }
        ensures err { OnErr result (self.new ≡ self.old) }
    {
        self.current.topology.add_rule(row)
    }

    /// Puts a rule of the one version out of force, as `Topology::drop_rule` does.
    pub fn drop_rule(&mut self, number: u16) -> Result<(), NoRule>
        requires alone { length self.old.others ≡ 0 }
        ensures ok { OnOk result (IsRuleDropped number self.old.current.project self.new.current.project) }
        ensures may { OnOk result (drop_cause self.old.current.project.rules number ≡ None) }
        ensures refused { OnErr result (drop_cause self.old.current.project.rules number ≡ Some cause.NoRule) }
        ensures sound { IsSoundUnder R.meaning self.old.current.project → IsSoundUnder R.meaning self.new.current.project }
        ensures settled { IsSettledUnder R.meaning self.old.current.project → IsSettledUnder R.meaning self.new.current.project }
        ensures aside { IsAside self.old self.new }
        ensures err { OnErr result (self.new ≡ self.old) }
    {
        self.current.topology.drop_rule(number)
    }

    /// Adds a feature to the current version, as `Topology::add_typed` does.
    pub fn add_typed(&mut self, class: u16, subtype: u8, shape: Shape) -> Result<u32, ChangeFault>
        ensures ok { IfOk result (λ h. IsFeatureAdded class subtype shape h self.old.current.project self.new.current.project) }
        ensures may { OnOk result (add_cause self.old.current.project.classes self.old.current.project.next class shape.kind ≡ None) }
        ensures refused { IfErr result (λ e. Tells (edit_cause e) (add_cause self.old.current.project.classes self.old.current.project.next class shape.kind)) }
        ensures sound { IsSoundUnder R.meaning self.old.current.project → IsSoundUnder R.meaning self.new.current.project }
        ensures settled { IsSettledUnder R.meaning self.old.current.project → IsSettledUnder R.meaning self.new.current.project }
        ensures aside { IsAside self.old self.new }
        ensures err { OnErr result (self.new ≡ self.old) }
    {
        self.current.topology.add_typed(class, subtype, shape)
    }

    /// Gives a feature of the current version another shape, as `Topology::change` does.
    pub fn change(&mut self, handle: u32, shape: Shape) -> Result<Feature, ChangeFault>
        ensures ok { OnOk result (IsFeatureSet handle (reshaped (feature_at self.old.current.project.features handle) shape) self.old.current.project self.new.current.project) }
        ensures was { IfOk result (λ f. feature_at self.old.current.project.features handle ≡ Some f) }
        ensures may { OnOk result (change_cause self.old.current.project.features handle shape.kind ≡ None) }
        ensures refused { IfErr result (λ e. Tells (edit_cause e) (change_cause self.old.current.project.features handle shape.kind)) }
        ensures sound { IsSoundUnder R.meaning self.old.current.project → IsSoundUnder R.meaning self.new.current.project }
        ensures settled { IsSettledUnder R.meaning self.old.current.project → IsSettledUnder R.meaning self.new.current.project }
        ensures aside { IsAside self.old self.new }
        ensures err { OnErr result (self.new ≡ self.old) }
    {
        self.current.topology.change(handle, shape)
    }

    /// Gives a feature of the current version another subtype, as `Topology::retype` does.
    pub fn retype(&mut self, handle: u32, subtype: u8) -> Result<Feature, ChangeFault>
        ensures ok { OnOk result (IsFeatureSet handle (retyped (feature_at self.old.current.project.features handle) subtype) self.old.current.project self.new.current.project) }
        ensures was { IfOk result (λ f. feature_at self.old.current.project.features handle ≡ Some f) }
        ensures may { OnOk result (delete_cause self.old.current.project.features handle ≡ None) }
        ensures refused { IfErr result (λ e. Tells (edit_cause e) (delete_cause self.old.current.project.features handle)) }
        ensures sound { IsSoundUnder R.meaning self.old.current.project → IsSoundUnder R.meaning self.new.current.project }
        ensures settled { IsSettledUnder R.meaning self.old.current.project → IsSettledUnder R.meaning self.new.current.project }
        ensures aside { IsAside self.old self.new }
        ensures err { OnErr result (self.new ≡ self.old) }
    {
        self.current.topology.retype(handle, subtype)
    }

    /// Takes a feature of the current version away, as `Topology::delete` does.
    pub fn delete(&mut self, handle: u32) -> Result<Feature, ChangeFault>
        ensures ok { OnOk result (IsFeatureSet handle None self.old.current.project self.new.current.project) }
        ensures was { IfOk result (λ f. feature_at self.old.current.project.features handle ≡ Some f) }
        ensures may { OnOk result (delete_cause self.old.current.project.features handle ≡ None) }
        ensures refused { IfErr result (λ e. Tells (edit_cause e) (delete_cause self.old.current.project.features handle)) }
        ensures sound { IsSoundUnder R.meaning self.old.current.project → IsSoundUnder R.meaning self.new.current.project }
        ensures settled { IsSettledUnder R.meaning self.old.current.project → IsSettledUnder R.meaning self.new.current.project }
        ensures aside { IsAside self.old self.new }
        ensures err { OnErr result (self.new ≡ self.old) }
    {
        self.current.topology.delete(handle)
    }

    /// Exchanges a feature of the current version, or its absence, with the kept one, as `Topology::swap` does.
    pub fn swap(&mut self, handle: u32, kept: &mut Option<Feature>) -> Result<(), NoMemory>
        requires from_1 { 1 ≤ handle }
        requires given { handle < self.old.current.project.next }
        requires own { IfSome kept.old (λ f. f.handle ≡ handle) }
        requires fits { IfSome kept.old (IsOfClass self.old.current.project.classes) }
        ensures ok { OnOk result (IsFeatureSet handle kept.old self.old.current.project self.new.current.project) }
        ensures stood { OnOk result (kept.new ≡ feature_at self.old.current.project.features handle) }
        ensures own { IfSome kept.new (λ f. f.handle ≡ handle) }
        ensures fits { IfSome kept.new (IsOfClass self.new.current.project.classes) }
        ensures sound { IsSoundUnder R.meaning self.old.current.project → IsSoundUnder R.meaning self.new.current.project }
        ensures settled { IsSettledUnder R.meaning self.old.current.project → IsSettledUnder R.meaning self.new.current.project }
        ensures aside { IsAside self.old self.new }
        ensures err { OnErr result (self.new ≡ self.old) }
        ensures same { OnErr result (kept.new ≡ kept.old) }
    {
        self.current.topology.swap(handle, kept)
    }

    /// Marks an error of the current version, or takes its mark away, as `Topology::mark` does.
    pub fn mark(&mut self, key: Key, on: bool) -> Result<(), MarkFault>
        ensures ok { OnOk result (IsMarked key.rule key.subject key.other on self.old.current.project self.new.current.project) }
        ensures may { OnOk result (mark_cause self.old.current.project.entries key.rule key.subject key.other on ≡ None) }
        ensures refused { IfErr result (λ e. mark_cause self.old.current.project.entries key.rule key.subject key.other on ≡ Some (fault_cause e)) }
        ensures sound { IsSoundUnder R.meaning self.old.current.project → IsSoundUnder R.meaning self.new.current.project }
        ensures settled { IsSettledUnder R.meaning self.old.current.project → IsSettledUnder R.meaning self.new.current.project }
        ensures aside { IsAside self.old self.new }
        ensures err { OnErr result (self.new ≡ self.old) }
    {
        self.current.topology.mark(key, on)
    }

    /// Validates the window of the current version, as `Topology::validate` does.
    pub fn validate(&mut self, window: Rect, work: &mut Work) -> Result<Summary, NoMemory>
        ensures ok { OnOk result (IsValidatedBy R.meaning window self.old.current.project self.new.current.project) }
        ensures judged { OnOk result (IsCounted window self.old.current.project work.old.judged work.new.judged) }
        ensures stopped { OnErr result (IsCountWithin window self.old.current.project work.old.judged work.new.judged) }
        ensures summary { IfOk result (λ s. (s.judged ≡ work.new.judged - work.old.judged) × (s.errors ≡ length self.new.current.project.entries) × (s.dirty ≡ length self.new.current.project.dirt)) }
        ensures sound { IsSoundUnder R.meaning self.old.current.project → IsSoundUnder R.meaning self.new.current.project }
        ensures settled { IsSettledUnder R.meaning self.old.current.project → IsSettledUnder R.meaning self.new.current.project }
        ensures aside { IsAside self.old self.new }
        ensures err { OnErr result (self.new ≡ self.old) }
    {
        self.current.topology.validate(window, work)
    }
}

ghost use Rattle.std.specs.Prelude.{◌≡◌, [], ◌==◌, Some, None, length, ◌≤◌, IfSome, IfOk, IfErr, OnOk, OnErr, MatchResult};
ghost use Rattle.version_terms.specs.declared.place.Place.{Place};
ghost use Rattle.version_terms.specs.Versions as terms;
ghost use Rattle.version_terms.specs.Versions.{default_name, all_of, place_of, version_at, IsAlike, IsAt, root_of};
ghost use Rattle.topology_terms.specs.Settled.{IsSettledUnder};
ghost use Rattle.topology_terms.specs.Sound.{IsSoundUnder};
ghost use Rattle.version_terms.specs.VersionChanges.{IsCreated, IsGone, IsReconciled, IsPosted, based, BecomesAt, raised_version};
ghost use Rattle.version_tree.specs.Lists.{Keeps};
ghost use Rattle.version_tree.specs.Merges.{Merging, Posting, Stopping, HasFreshBase, IsUnfit};
ghost use Rattle.version_tree.specs.Trees.{AreLawful, AreSound, AreSettled, IsCreateFault, IsGoFault, IsReconcileFault, IsPostFault};

use crate::apart::first_apart;
use crate::fault::TreeFault;
use crate::places::{
    become_in, go_in, index_in, law_of_each, raise_in, reconcile_in, root_name, set_base_in,
};
use crate::version::{Merged, Version};
use feature_store::Store;
use grid_plane::{Name, NoMemory};
use std::alloc::Global;
use std::marker::Model;
use topo_core::{KindRules, Topology};
use version_terms::Place;

// The most versions there may be beside `default`.
const VERSION_LIMIT: usize = 8;

/// The versions of a topology: the current one, and the others. All have the same classes and rules.
#[derive(Drop)]
pub struct Tree<R> {
    alloc: Global,
    pub(crate) current: Version<R>,
    others: Vec<Version<R>>,
}

impl<R> Model for Tree<R> {
    ghost use Rattle.version_terms.specs.Versions.{IsTree};
    ghost use Rattle.version_terms.specs.Versions as terms;

    ghost Value = { terms.Tree };

    ghost view = { λ t. record { current = t.current; others = t.others.items } };

    ghost invariant = { λ t. IsTree (record { current = t.current; others = t.others.items }) };
}

impl<R: KindRules> Tree<R> {
    /// The topology as `default`, which is current, and no other version.
    pub fn new(alloc: Global, root: Topology<R>) -> Tree<R>
        ensures { result ≡ record { current = record { name = default_name; project = root; base = None }; others = [] } }
    {
        Tree {
            alloc,
            current: Version::new(root_name(), root, None),
            others: Vec::new(alloc),
        }
    }

    /// The topology of the current version.
    pub fn current(&self) -> &Topology<R>
        ensures { result.now ≡ self.now.current.project }
    {
        self.current.topology()
    }

    /// Whether no version is there beside `default`.
    pub fn alone(&self) -> bool
        ensures { result ≡ (length self.now.others == 0) }
    {
        self.others.is_empty()
    }

    // The place of the version of this name.
    fn place_of(&self, name: &Name) -> Option<Place>
        ensures place { result ≡ place_of self.now name.now }
        ensures at { IfSome result (IsAt self.now) }
        ensures tree { terms.IsTree self.now }
    {
        if self.current.is_named(name) {
            return Some(Place::Current);
        }
        Some(Place::Other(index_in(&self.others, name)?))
    }

    // The place of `default`.
    fn root_place(&self) -> Place
        ensures place { place_of self.now default_name ≡ Some result }
        ensures at { IsAt self.now result }
    {
        let _ = &self.alloc;
        match self.place_of(&root_name()) {
            Some(place) => place,
            None => Place::Current,
        }
    }

    // The law of what every tree keeps.
    fn tree_law(&self)
        ensures { terms.IsTree self.now }
    {
        let _ = &self.alloc;
    }

    /// The law of what the topology of each version keeps.
    pub fn topologies_law(&self)
        ensures { AreLawful (all_of self.now) }
    {
        self.current.topology_law();
        law_of_each(&self.others);
    }

    // The version at this place.
    fn version(&self, place: Place) -> &Version<R>
        requires { IsAt self.now place }
        ensures { version_at self.now place ≡ Some result.now }
    {
        match place {
            Place::Current => &self.current,
            Place::Other(index) => &self.others[index],
        }
    }

    /// The topology of the version `default`.
    pub fn root(&self) -> &Topology<R>
        ensures value { result.now ≡ root_of self.now }
        ensures tree { terms.IsTree self.now }
        ensures alike { IsAlike self.now.current.project (record { name = []; project = result.now; base = None }) }
        ensures sound { AreSound R.meaning self.now → IsSoundUnder R.meaning result.now }
        ensures settled { AreSettled R.meaning self.now → IsSettledUnder R.meaning result.now }
    {
        let _ = &self.alloc;
        self.version(self.root_place()).topology()
    }

    /// Makes a version of this name: a copy of `default`, whose features are its base. Refused where the name is taken, then
    /// where there are 8 beside `default`; after a refusal nothing has changed.
    pub fn create(&mut self, name: Name) -> Result<(), TreeFault>
    where
        R: Copy + Drop,
        ensures ok { OnOk result (IsCreated name self.old self.new) }
        ensures refused { IfErr result (IsCreateFault name self.old) }
        ensures sound { AreSound R.meaning self.old → AreSound R.meaning self.new }
        ensures settled { AreSettled R.meaning self.old → AreSettled R.meaning self.new }
        ensures err { OnErr result (self.new ≡ self.old) }
    {
        if self.place_of(&name).is_some() {
            return Err(TreeFault::Taken);
        }
        if self.others.len() == VERSION_LIMIT {
            return Err(TreeFault::Full);
        }
        let topology = self.root().try_copy()?;
        let base = self.root().store().try_copy(self.alloc)?;
        self.others.push(Version::new(name, topology, Some(base)))?;
        Ok(())
    }

    /// Makes the version of this name the current one. Its next handle becomes the greatest of all, which that of the current one
    /// is. Refused where there is no such version. Takes no memory.
    pub fn go(&mut self, name: &Name) -> Result<(), TreeFault>
        ensures ok { OnOk result (IsGone name.now self.old self.new) }
        ensures refused { IfErr result (IsGoFault name.now self.old) }
        ensures sound { AreSound R.meaning self.old → AreSound R.meaning self.new }
        ensures settled { AreSettled R.meaning self.old → AreSettled R.meaning self.new }
        ensures err { OnErr result (self.new ≡ self.old) }
    {
        let Some(place) = self.place_of(name) else {
            return Err(TreeFault::NoVersion);
        };
        if let Place::Other(index) = place {
            let next = self.current.topology().store().next_handle();
            go_in(&mut self.current, &mut self.others, index, next);
        }
        Ok(())
    }

    // Raises the next handle of the version at this place to that of the current one, the greatest of all.
    fn raise_at(&mut self, place: Place)
        requires { IsAt self.old place }
        ensures { BecomesAt place (λ v w. (w ≡ raised_version self.old.current.project.next v) × Keeps R.meaning v w) self.old self.new }
    {
        match place {
            Place::Current => {}
            Place::Other(index) => {
                let next = self.current.topology().store().next_handle();
                raise_in(&mut self.others, index, next);
            }
        }
    }

    // Reconciles the version at this place with `default`, whose features these are.
    fn reconcile_at(&mut self, place: Place, root: Store) -> Result<Option<Merged>, NoMemory>
        requires at { IsAt self.old place }
        requires classes { (v : terms.Version) → version_at self.old place ≡ Some v → root.classes ≡ v.project.classes }
        requires given { (v : terms.Version) → version_at self.old place ≡ Some v → root.next ≤ v.project.next }
        ensures { MatchResult result
            (λ o. BecomesAt place (Merging R.meaning root.features o) self.old self.new)
            (λ e. BecomesAt place (Stopping R.meaning root.features) self.old self.new) }
    {
        match place {
            Place::Current => self.current.reconcile(self.alloc, root),
            Place::Other(index) => reconcile_in(&mut self.others, index, self.alloc, root),
        }
    }

    /// Merges the version of this name with `default`: at each handle at which it is as its base is, it becomes what `default`
    /// has; its base is `default` then. Refused where there is no such version beside `default`. If memory runs out, its next
    /// handle is the greatest of all, and it may have become so at the first handles.
    pub fn reconcile(&mut self, name: &Name) -> Result<Merged, TreeFault>
        ensures ok { IfOk result (λ m. IsReconciled name.now m.taken m.conflicts self.old self.new) }
        ensures refused { IfErr result (IsReconcileFault name.now self.old self.new) }
        ensures sound { AreSound R.meaning self.old → AreSound R.meaning self.new }
        ensures settled { AreSettled R.meaning self.old → AreSettled R.meaning self.new }
    {
        let Some(place) = self.place_of(name) else {
            return Err(TreeFault::NoVersion);
        };
        if self.version(place).base().is_none() {
            return Err(TreeFault::NoVersion);
        }
        self.raise_at(place);
        let root = self.root().store().try_copy(self.alloc)?;
        match self.reconcile_at(place, root)? {
            Some(merged) => Ok(merged),
            None => Err(TreeFault::NoVersion),
        }
    }

    // Gives the version at this place the features of the store.
    fn become_at(&mut self, place: Place, from: &Store) -> Result<usize, NoMemory>
        requires at { IsAt self.old place }
        requires classes { (v : terms.Version) → version_at self.old place ≡ Some v → from.now.classes ≡ v.project.classes }
        requires given { (v : terms.Version) → version_at self.old place ≡ Some v → from.now.next ≤ v.project.next }
        ensures { MatchResult result
            (λ n. BecomesAt place (Posting R.meaning from.now.features n) self.old self.new)
            (λ e. BecomesAt place (Stopping R.meaning from.now.features) self.old self.new) }
    {
        match place {
            Place::Current => self.current.become_like(self.alloc, from),
            Place::Other(index) => become_in(&mut self.others, index, self.alloc, from),
        }
    }

    // Sets the base of the version at this place.
    fn set_base_at(&mut self, place: Place, base: Store)
        requires { IsAt self.old place }
        ensures { BecomesAt place (λ v w. w ≡ based base.features v) self.old self.new }
    {
        match place {
            Place::Current => self.current.set_base(base),
            Place::Other(index) => set_base_in(&mut self.others, index, base),
        }
    }

    // Whether the base of the version at this place is what `default` has; else the first handle at which they differ.
    fn check_fresh(&self, place: Place) -> Result<(), TreeFault>
        requires { IsAt self.now place }
        ensures ok { OnOk result (HasFreshBase place self.now) }
        ensures refused { IfErr result (IsUnfit place self.now) }
    {
        let Some(base) = self.version(place).base() else {
            return Err(TreeFault::NoVersion);
        };
        match first_apart(base, self.root().store()) {
            Some(handle) => Err(TreeFault::Stale { handle }),
            None => Ok(()),
        }
    }

    /// Gives `default` the features of the version of this name, handle by handle, and answers at how many it changed; they are the
    /// base of the version then. Refused where there is no such version beside `default`, then where `default` has changed since the
    /// version was made, reconciled or posted last. If memory runs out, the next handle of `default` is the greatest of all, and it may
    /// have become so at the first handles.
    pub fn post(&mut self, name: &Name) -> Result<usize, TreeFault>
        ensures ok { IfOk result (λ n. IsPosted name.now n self.old self.new) }
        ensures refused { IfErr result (IsPostFault name.now self.old self.new) }
        ensures sound { AreSound R.meaning self.old → AreSound R.meaning self.new }
        ensures settled { AreSettled R.meaning self.old → AreSettled R.meaning self.new }
    {
        let Some(place) = self.place_of(name) else {
            return Err(TreeFault::NoVersion);
        };
        self.check_fresh(place)?;
        let root = self.root_place();
        self.raise_at(root);
        self.tree_law();
        let features = self.version(place).topology().store().try_copy(self.alloc)?;
        let posted = self.become_at(root, &features)?;
        self.set_base_at(place, features);
        Ok(posted)
    }
}

ghost use Rattle.std.specs.Prelude.{◌≡◌, ◌<◌, ◌≤◌, Some, length, slice_get, MatchResult};
ghost use Rattle.plane_terms.specs.Lists.{Every};
ghost use Rattle.version_terms.specs.Versions as terms;
ghost use Rattle.version_terms.specs.VersionChanges.{raised_version, based};
ghost use Rattle.version_tree.specs.Merges.{Merging, Posting, Stopping};
ghost use Rattle.version_tree.specs.Lists.{ChangesAt, GoesAt, Keeps};
ghost use Rattle.version_tree.specs.Trees.{AreLawful};
ghost use Rattle.version_terms.specs.Versions.{index_from, default_name};

use crate::version::{Merged, Version};
use feature_store::Store;
use grid_plane::{Name, NoMemory};
use std::alloc::Global;
use std::mem;
use topo_core::KindRules;

/// The index of the first version of this name, counted from 0.
pub fn index_in<R: KindRules>(versions: &[Version<R>], name: &Name) -> Option<usize>
    ensures { result ≡ index_from 0 versions.now name.now }
{
    for index in 0..versions.len() {
        if versions[index].is_named(name) {
            return Some(index);
        }
    }
    None
}

/// The law of what the topology of each version keeps.
pub fn law_of_each<R: KindRules>(versions: &[Version<R>])
    ensures { AreLawful versions.now }
{
    for version in versions {
        version.topology_law();
    }
}

/// Raises the next handle of the version at this index.
pub fn raise_in<R: KindRules>(versions: &mut Vec<Version<R>>, index: usize, next: u32)
    requires within { index < length versions.old.items }
    requires low { Every (λ (v : terms.Version). v.project.next ≤ next) versions.old.items }
    ensures { ChangesAt index (λ v w. (w ≡ raised_version next v) × Keeps R.meaning v w) versions.old.items versions.new.items }
{
    versions[index].raise_next(next);
}

/// The version at this index, with its next handle raised, and the current one change places.
pub fn go_in<R: KindRules>(
    current: &mut Version<R>,
    versions: &mut Vec<Version<R>>,
    index: usize,
    next: u32,
)
    requires within { index < length versions.old.items }
    requires low { Every (λ (v : terms.Version). v.project.next ≤ next) versions.old.items }
    ensures { GoesAt R.meaning index next current.old versions.old.items current.new versions.new.items }
{
    let other = &mut versions[index];
    other.raise_next(next);
    mem::swap(current, other);
}

/// The name of the version that the others are made from.
pub fn root_name() -> Name
    ensures { result ≡ default_name }
{
    Name::of(b"default").unwrap()
}

/// Reconciles the version at this index with `default`, whose features these are.
pub fn reconcile_in<R: KindRules>(
    versions: &mut Vec<Version<R>>,
    index: usize,
    alloc: Global,
    root: Store,
) -> Result<Option<Merged>, NoMemory>
    requires within { index < length versions.old.items }
    requires classes { (v : terms.Version) → slice_get versions.old.items index ≡ Some v → root.classes ≡ v.project.classes }
    requires given { (v : terms.Version) → slice_get versions.old.items index ≡ Some v → root.next ≤ v.project.next }
    ensures { MatchResult result
        (λ o. ChangesAt index (Merging R.meaning root.features o) versions.old.items versions.new.items)
        (λ e. ChangesAt index (Stopping R.meaning root.features) versions.old.items versions.new.items) }
{
    versions[index].reconcile(alloc, root)
}

/// Gives the version at this index the features of the store.
pub fn become_in<R: KindRules>(
    versions: &mut Vec<Version<R>>,
    index: usize,
    alloc: Global,
    from: &Store,
) -> Result<usize, NoMemory>
    requires within { index < length versions.old.items }
    requires classes { (v : terms.Version) → slice_get versions.old.items index ≡ Some v → from.now.classes ≡ v.project.classes }
    requires given { (v : terms.Version) → slice_get versions.old.items index ≡ Some v → from.now.next ≤ v.project.next }
    ensures { MatchResult result
        (λ n. ChangesAt index (Posting R.meaning from.now.features n) versions.old.items versions.new.items)
        (λ e. ChangesAt index (Stopping R.meaning from.now.features) versions.old.items versions.new.items) }
{
    versions[index].become_like(alloc, from)
}

/// Sets the base of the version at this index.
pub fn set_base_in<R: KindRules>(versions: &mut Vec<Version<R>>, index: usize, base: Store)
    requires within { index < length versions.old.items }
    ensures { ChangesAt index (λ v w. w ≡ based base.features v) versions.old.items versions.new.items }
{
    versions[index].set_base(base);
}

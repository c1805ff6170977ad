ghost use Rattle.std.specs.Prelude.{◌≡◌};
ghost use Rattle.topology_terms.specs.Project.{IsOrdered};
ghost use Rattle.topology_terms.specs.Settled.{IsSettled};
ghost use Rattle.topology_terms.specs.Sound.{IsSound};
ghost use Rattle.version_terms.specs.Versions.{root_of};
ghost use Rattle.script_terms.specs.State.{OfAll, desk_of, tree_of, empty_state, started};
ghost use Rattle.script_terms.specs.Keeping.{IsKeeping};
ghost use Rattle.script_terms.specs.Headline.{Invariant, SoundHeadline};

use edit_session::Sessions;
use rule_core::Work;
use rules::{PosterRules, poster_law};
use std::alloc::Global;
use std::marker::Model;
use topo_core::Topology;
use version_tree::Tree;

/// The state of a run: the versions of a topology, and the open sessions, which are of the current one. No handle has steps in two
/// sessions, and each step can be undone. A version that is sound stays so, whatever is answered: its errors are exactly what is
/// broken off its dirty areas. So does one that is settled: they are cut as the rules cut them. The cells that a validation keeps
/// serve the next one.
#[derive(Drop)]
pub struct World {
    pub(crate) tree: Tree<PosterRules>,
    pub(crate) sessions: Sessions,
    pub(crate) work: Work,
    pub(crate) alloc: Global,
}

impl Model for World {
    ghost use Rattle.script_terms.specs.State.{State};
    ghost use Rattle.command_answers.specs.Worlds.{state_of, IsWorld};

    ghost Value = { State };

    ghost view = { λ w. state_of w.tree w.sessions };

    ghost invariant = { λ w. IsWorld w.tree.current.project w.sessions };
}

impl World {
    /// The empty project, no other version, and no session.
    pub fn new(alloc: Global) -> World
        ensures empty { result ≡ empty_state }
        ensures sound { OfAll IsSound result }
        ensures settled { OfAll IsSettled result }
    {
        World::of(alloc, Topology::new(alloc, PosterRules))
    }

    /// This topology as `default`, no other version, and no session.
    pub fn of(alloc: Global, topology: Topology<PosterRules>) -> World
        ensures { result ≡ started topology }
    {
        World {
            tree: Tree::new(alloc, topology),
            sessions: Sessions::new(alloc),
            work: Work::new(),
            alloc,
        }
    }

    /// The law of every state: of each version, where it is sound, the headline holds, and with no dirt the errors say exactly what is
    /// broken at every point and for every feature, and each is of a live feature; where it is settled too, and has no dirt, the
    /// errors, marks aside, are those of one full validation from scratch; its lists stand in order. And the sessions' steps fit one
    /// another and what stands in the current version.
    pub fn headline_law(&self)
        ensures sound { OfAll IsSound self.now → OfAll SoundHeadline self.now }
        ensures invariant { OfAll IsSound self.now → OfAll IsSettled self.now → OfAll Invariant self.now }
        ensures ordered { OfAll IsOrdered self.now }
        ensures keeping { IsKeeping (desk_of self.now) }
    {
        poster_law();
        self.tree.topologies_law();
    }

    /// The topology of the current version.
    pub fn topology(&self) -> &Topology<PosterRules>
        ensures { result.now ≡ self.now.project }
    {
        self.tree.current()
    }

    /// The topology of the version `default`.
    pub fn root(&self) -> &Topology<PosterRules>
        ensures { result.now ≡ root_of (tree_of self.now) }
    {
        self.tree.root()
    }
}

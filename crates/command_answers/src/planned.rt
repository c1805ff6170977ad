ghost use Rattle.std.specs.Prelude.{◌≡◌, ◌≤◌, [], ◌∷◌, length, None, OnOk};
ghost use Rattle.topology_terms.specs.Project.{IsOrdered};
ghost use Rattle.topology_terms.specs.Settled.{IsSettled};
ghost use Rattle.topology_terms.specs.Sound.{IsSound};
ghost use Rattle.topo_core.specs.Faults.{edit_cause};
ghost use Rattle.fix_terms.specs.declared.edit.Edit.TheVariants.{Put, Add};
ghost use Rattle.version_terms.specs.VersionChanges.{IsAside};
ghost use Rattle.script_terms.specs.Answer.{AreNoted};
ghost use Rattle.command_answers.specs.Worlds.{IsWorld, seen_desk};
ghost use Rattle.command_answers.specs.Planned.{IsEditNoted, IsReady, IsStepped};

use crate::noted::{add_noted, change_noted};
use edit_session::Sessions;
use fix_tools::{Edit, Plan};
use grid_plane::{Name, NoMemory};
use rules::PosterRules;
use shape::Shape;
use topo_core::ChangeFault;
use version_tree::Tree;

// An edit that can be done is refused for want of memory alone.
fn want_of_memory(fault: ChangeFault) -> NoMemory
    requires { edit_cause fault ≡ None }
{
    let _ = fault;
    NoMemory
}

// Puts a shape in place of that of a feature, as a step of the session.
#[tactic(auto, using(crate::proofs::Planning::no_cause, crate::proofs::Planning::put_done, crate::proofs::Planning::put_world, crate::proofs::Planning::room_world_of))]
fn put_noted(
    tree: &mut Tree<PosterRules>,
    sessions: &mut Sessions,
    editor: &Name,
    handle: u32,
    shape: Shape,
) -> Result<(), NoMemory>
    requires { IsReady editor.now (Put handle shape ∷ []) tree.old.current.project sessions.old }
    ensures noted { OnOk result (IsEditNoted editor.now (Put handle shape) (seen_desk tree.old.current.project sessions.old) (seen_desk tree.new.current.project sessions.new)) }
    ensures world { IsWorld tree.new.current.project sessions.new }
    ensures sound { IsSound tree.old.current.project → IsSound tree.new.current.project }
    ensures settled { IsSettled tree.old.current.project → IsSettled tree.new.current.project }
    ensures aside { IsAside tree.old tree.new }
{
    tree.current_law();
    match change_noted(tree, sessions, editor, handle, shape) {
        Ok(()) => Ok(()),
        Err(fault) => Err(want_of_memory(fault)),
    }
}

// Adds a feature under the next handle, as a step of the session.
#[tactic(auto, using(crate::proofs::Planning::no_cause, crate::proofs::Planning::new_done, crate::proofs::Planning::new_world, crate::proofs::Planning::room_world_of))]
fn new_noted(
    tree: &mut Tree<PosterRules>,
    sessions: &mut Sessions,
    editor: &Name,
    class: u16,
    subtype: u8,
    shape: Shape,
) -> Result<(), NoMemory>
    requires { IsReady editor.now (Add class subtype shape ∷ []) tree.old.current.project sessions.old }
    ensures noted { OnOk result (IsEditNoted editor.now (Add class subtype shape) (seen_desk tree.old.current.project sessions.old) (seen_desk tree.new.current.project sessions.new)) }
    ensures world { IsWorld tree.new.current.project sessions.new }
    ensures sound { IsSound tree.old.current.project → IsSound tree.new.current.project }
    ensures settled { IsSettled tree.old.current.project → IsSettled tree.new.current.project }
    ensures aside { IsAside tree.old tree.new }
{
    tree.current_law();
    match add_noted(tree, sessions, editor, class, subtype, shape) {
        Ok(_) => Ok(()),
        Err(fault) => Err(want_of_memory(fault)),
    }
}

// Does an edit of a plan, as a step of the session.
fn do_edit(
    tree: &mut Tree<PosterRules>,
    sessions: &mut Sessions,
    editor: &Name,
    edit: Edit<Shape>,
) -> Result<(), NoMemory>
    requires { IsReady editor.now (edit ∷ []) tree.old.current.project sessions.old }
    ensures noted { OnOk result (IsEditNoted editor.now edit (seen_desk tree.old.current.project sessions.old) (seen_desk tree.new.current.project sessions.new)) }
    ensures world { IsWorld tree.new.current.project sessions.new }
    ensures sound { IsSound tree.old.current.project → IsSound tree.new.current.project }
    ensures settled { IsSettled tree.old.current.project → IsSettled tree.new.current.project }
    ensures aside { IsAside tree.old tree.new }
{
    match edit {
        Edit::Put { handle, shape } => put_noted(tree, sessions, editor, handle, shape),
        Edit::Add {
            class,
            subtype,
            shape,
        } => new_noted(tree, sessions, editor, class, subtype, shape),
    }
}

// Does the first edit of a plan, and takes it out.
#[tactic(auto, using(crate::proofs::Planning::first_ready, crate::proofs::Planning::rest_ready, crate::proofs::Planning::stepped, crate::proofs::Planning::is_some, crate::proofs::Trees::aside_self))]
fn do_first(
    tree: &mut Tree<PosterRules>,
    sessions: &mut Sessions,
    editor: &Name,
    plan: &mut Plan,
) -> Result<(), NoMemory>
    requires some { 1 ≤ length plan.old }
    requires ready { IsReady editor.now plan.old tree.old.current.project sessions.old }
    ensures stepped { OnOk result (IsStepped editor.now plan.old plan.new (seen_desk tree.old.current.project sessions.old) (seen_desk tree.new.current.project sessions.new)) }
    ensures world { IsWorld tree.new.current.project sessions.new }
    ensures sound { IsSound tree.old.current.project → IsSound tree.new.current.project }
    ensures settled { IsSettled tree.old.current.project → IsSettled tree.new.current.project }
    ensures aside { IsAside tree.old tree.new }
{
    match plan.take_first() {
        Some(edit) => do_edit(tree, sessions, editor, edit),
        None => Ok(()),
    }
}

/// Does the edits of a plan in their order, each as a step of the session, until none is left. If memory runs out, the first ones may be
/// done.
#[tactic(auto, using(crate::proofs::Planning::begins, crate::proofs::Planning::goes_on, crate::proofs::Planning::shorter, crate::proofs::Planning::ends, crate::proofs::Trees::aside_more))]
pub fn do_plan(
    tree: &mut Tree<PosterRules>,
    sessions: &mut Sessions,
    editor: &Name,
    plan: &mut Plan,
) -> Result<(), NoMemory>
    requires { IsReady editor.now plan.old tree.old.current.project sessions.old }
    ensures noted { OnOk result (AreNoted editor.now plan.old (seen_desk tree.old.current.project sessions.old) (seen_desk tree.new.current.project sessions.new)) }
    ensures world { IsWorld tree.new.current.project sessions.new }
    ensures ordered { OnOk result (IsOrdered tree.new.current.project) }
    ensures sound { IsSound tree.old.current.project → IsSound tree.new.current.project }
    ensures settled { IsSettled tree.old.current.project → IsSettled tree.new.current.project }
    ensures aside { IsAside tree.old tree.new }
{
    tree.current_law();
    while plan.len() > 0 {
        do_first(tree, sessions, editor, plan)?;
        tree.current_law();
    }
    Ok(())
}

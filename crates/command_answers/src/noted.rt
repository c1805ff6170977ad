ghost use Rattle.std.specs.Prelude.{◌≡◌, Some, None, IfOk, IfErr, OnOk, OnErr};
ghost use Rattle.topology_terms.specs.Causes.{Tells, add_cause, change_cause, delete_cause};
ghost use Rattle.topology_terms.specs.Changes.{IsFeatureAdded, IsFeatureSet, reshaped, retyped};
ghost use Rattle.topology_terms.specs.Feature as terms;
ghost use Rattle.topology_terms.specs.Feature.{feature_at};
ghost use Rattle.topology_terms.specs.Settled.{IsSettled};
ghost use Rattle.topology_terms.specs.Sound.{IsSound};
ghost use Rattle.topo_core.specs.Faults.{edit_cause};
ghost use Rattle.edit_session.specs.Faults.{HasRoom};
ghost use Rattle.edit_session.specs.SessionsCalls.{IsRoomMade, IsNoted};
ghost use Rattle.version_terms.specs.VersionChanges.{IsAside};
ghost use Rattle.command_answers.specs.Worlds.{IsRoomAlone};

use edit_session::{Sessions, Step};
use grid_plane::{Name, NoMemory};
use rules::PosterRules;
use shape::Shape;
use topo_core::ChangeFault;
use version_tree::Tree;

// Makes room for a step of the open session of this editor.
fn make_room(sessions: &mut Sessions, editor: &Name) -> Result<(), NoMemory>
    ensures room { OnOk result (HasRoom sessions.new editor.now) }
    ensures made { OnOk result (IsRoomMade editor.now sessions.old sessions.new) }
    ensures kept { OnErr result (sessions.new ≡ sessions.old) }
{
    match sessions.room(editor) {
        Ok(()) => Ok(()),
        Err(_) => Err(NoMemory),
    }
}

/// Changes a feature, and notes the step. There is room for the step before the change.
#[tactic(auto, using(crate::proofs::Noting::room_noted))]
pub fn change_noted(
    tree: &mut Tree<PosterRules>,
    sessions: &mut Sessions,
    editor: &Name,
    handle: u32,
    shape: Shape,
) -> Result<(), ChangeFault>
    ensures ok { OnOk result (IsFeatureSet handle (reshaped (feature_at tree.old.current.project.features handle) shape) tree.old.current.project tree.new.current.project) }
    ensures noted { OnOk result (IsNoted editor.now (record { handle = handle; kept = feature_at tree.old.current.project.features handle }) sessions.old sessions.new) }
    ensures live { OnOk result ((f : terms.Feature) × (feature_at tree.old.current.project.features handle ≡ Some f)) }
    ensures may { OnOk result (change_cause tree.old.current.project.features handle shape.kind ≡ None) }
    ensures refused { IfErr result (λ e. Tells (edit_cause e) (change_cause tree.old.current.project.features handle shape.kind)) }
    ensures sound { IsSound tree.old.current.project → IsSound tree.new.current.project }
    ensures settled { IsSettled tree.old.current.project → IsSettled tree.new.current.project }
    ensures aside { IsAside tree.old tree.new }
    ensures err { OnErr result (tree.new ≡ tree.old) }
    ensures room { OnErr result (IsRoomAlone editor.now sessions.old sessions.new) }
{
    make_room(sessions, editor)?;
    let was = tree.change(handle, shape)?;
    sessions.note_in(editor, Step::new(handle, Some(was)));
    Ok(())
}

/// Sets the subtype of a feature, and notes the step. There is room for the step before the change.
#[tactic(auto, using(crate::proofs::Noting::room_noted))]
pub fn retype_noted(
    tree: &mut Tree<PosterRules>,
    sessions: &mut Sessions,
    editor: &Name,
    handle: u32,
    subtype: u8,
) -> Result<(), ChangeFault>
    ensures ok { OnOk result (IsFeatureSet handle (retyped (feature_at tree.old.current.project.features handle) subtype) tree.old.current.project tree.new.current.project) }
    ensures noted { OnOk result (IsNoted editor.now (record { handle = handle; kept = feature_at tree.old.current.project.features handle }) sessions.old sessions.new) }
    ensures live { OnOk result ((f : terms.Feature) × (feature_at tree.old.current.project.features handle ≡ Some f)) }
    ensures refused { IfErr result (λ e. Tells (edit_cause e) (delete_cause tree.old.current.project.features handle)) }
    ensures sound { IsSound tree.old.current.project → IsSound tree.new.current.project }
    ensures settled { IsSettled tree.old.current.project → IsSettled tree.new.current.project }
    ensures aside { IsAside tree.old tree.new }
    ensures err { OnErr result (tree.new ≡ tree.old) }
    ensures room { OnErr result (IsRoomAlone editor.now sessions.old sessions.new) }
{
    make_room(sessions, editor)?;
    let was = tree.retype(handle, subtype)?;
    sessions.note_in(editor, Step::new(handle, Some(was)));
    Ok(())
}

/// Takes a feature away, and notes the step. There is room for the step before the change.
#[tactic(auto, using(crate::proofs::Noting::room_noted))]
pub fn delete_noted(
    tree: &mut Tree<PosterRules>,
    sessions: &mut Sessions,
    editor: &Name,
    handle: u32,
) -> Result<(), ChangeFault>
    ensures ok { OnOk result (IsFeatureSet handle None tree.old.current.project tree.new.current.project) }
    ensures noted { OnOk result (IsNoted editor.now (record { handle = handle; kept = feature_at tree.old.current.project.features handle }) sessions.old sessions.new) }
    ensures live { OnOk result ((f : terms.Feature) × (feature_at tree.old.current.project.features handle ≡ Some f)) }
    ensures refused { IfErr result (λ e. Tells (edit_cause e) (delete_cause tree.old.current.project.features handle)) }
    ensures sound { IsSound tree.old.current.project → IsSound tree.new.current.project }
    ensures settled { IsSettled tree.old.current.project → IsSettled tree.new.current.project }
    ensures aside { IsAside tree.old tree.new }
    ensures err { OnErr result (tree.new ≡ tree.old) }
    ensures room { OnErr result (IsRoomAlone editor.now sessions.old sessions.new) }
{
    make_room(sessions, editor)?;
    let was = tree.delete(handle)?;
    sessions.note_in(editor, Step::new(handle, Some(was)));
    Ok(())
}

/// Adds a feature, and notes the step. There is room for the step before the change.
#[tactic(auto, using(crate::proofs::Noting::room_noted))]
pub fn add_noted(
    tree: &mut Tree<PosterRules>,
    sessions: &mut Sessions,
    editor: &Name,
    class: u16,
    subtype: u8,
    shape: Shape,
) -> Result<u32, ChangeFault>
    ensures ok { IfOk result (λ h. IsFeatureAdded class subtype shape h tree.old.current.project tree.new.current.project) }
    ensures noted { IfOk result (λ h. IsNoted editor.now (record { handle = h; kept = None }) sessions.old sessions.new) }
    ensures may { OnOk result (add_cause tree.old.current.project.classes tree.old.current.project.next class shape.kind ≡ None) }
    ensures refused { IfErr result (λ e. Tells (edit_cause e) (add_cause tree.old.current.project.classes tree.old.current.project.next class shape.kind)) }
    ensures sound { IsSound tree.old.current.project → IsSound tree.new.current.project }
    ensures settled { IsSettled tree.old.current.project → IsSettled tree.new.current.project }
    ensures aside { IsAside tree.old tree.new }
    ensures err { OnErr result (tree.new ≡ tree.old) }
    ensures room { OnErr result (IsRoomAlone editor.now sessions.old sessions.new) }
{
    make_room(sessions, editor)?;
    let handle = tree.add_typed(class, subtype, shape)?;
    sessions.note_in(editor, Step::new(handle, None));
    Ok(handle)
}

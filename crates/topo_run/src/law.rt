ghost use Rattle.std.specs.Prelude.{◌≡◌, ℕ, List, Some, true, false};
ghost use Rattle.plane_terms.specs.Point.{Place, Point};
ghost use Rattle.topology_terms.specs.Broken.{Row, BrokenAt, BrokenWhole};
ghost use Rattle.topology_terms.specs.Feature as terms;
ghost use Rattle.topology_terms.specs.Feature.{feature_at};
ghost use Rattle.topology_terms.specs.Project.{rule_at};
ghost use Rattle.fix_terms.specs.Explode.{exploded, HasExploded};
ghost use Rattle.fix_terms.specs.Snap.{HasSnapped};
ghost use Rattle.fix_terms.specs.Create.{HasCreated};
ghost use Rattle.fix_terms.specs.Move.{HasMoved};
ghost use Rattle.version_terms.specs.VersionChanges.{IsCreated, IsGone};
ghost use Rattle.version_tree.specs.ByName.{IsMergedByName, IsPostedByName};
ghost use Rattle.line_terms.specs.Commands.{Command, Undo, Discard, Explode, Snap, Create, Move, Delete, Version, In, Reconcile, Post};
ghost use Rattle.line_terms.specs.Lines.{IsCommandLine};
ghost use Rattle.script_terms.specs.Keeping.{IsKeeping};
ghost use Rattle.script_terms.specs.Restored.{IsRestored, IsAllRestored};
ghost use Rattle.script_terms.specs.Run.{Outcome, Run, Step, last_state};
ghost use Rattle.script_terms.specs.Reply.{Merged, Posted, reply_text};
ghost use Rattle.script_terms.specs.State.{State, empty_state, desk_of, tree_of};
ghost use Rattle.script_terms.specs.Versions.{is_of_one};

use rules::poster_law;

/// The law of runs: two runs over the same lines from the same state have the same outcomes, line by line: the texts, the states
/// and what was refused. So what `run` writes with status 0, 1, 3, 8 or 10 follows from the bytes that it read, from the start and
/// from the status.
#[tactic(auto, using(crate::proofs::OneRun::one_run))]
pub fn one_run_law()
    ensures { (s : State) (lines : List (List ℕ)) (os ps : List Outcome) → Run s lines os → Run s lines ps → os ≡ ps }
{
    poster_law();
}

/// The law of undos: whatever the editors have done before, a line that undoes and is not refused puts back at one handle what
/// stood there before the editor's last done step, and no other feature changes; a discard puts back at each handle of the
/// session's done steps what stood there before the first of them. The clauses `undo` and `discard` say so of each run from the
/// empty state, the other two of any state in which sessions keep apart, as they do in each state of a run (`EachKeeping`).
pub fn exact_undo_law()
    ensures undo { (lines : List (List ℕ)) (os : List Outcome) (line editor : List ℕ) (o : Outcome) → Run empty_state lines os → Step (last_state empty_state os) line o
        → IsCommandLine line (Undo editor) → o.refused ≡ false → IsRestored editor (desk_of (last_state empty_state os)) (desk_of o.after) }
    ensures discard { (lines : List (List ℕ)) (os : List Outcome) (line editor : List ℕ) (o : Outcome) → Run empty_state lines os → Step (last_state empty_state os) line o
        → IsCommandLine line (Discard editor) → o.refused ≡ false → IsAllRestored editor (desk_of (last_state empty_state os)) (desk_of o.after) }
    ensures undo_there { (s : State) (line editor : List ℕ) (o : Outcome) → IsKeeping (desk_of s) → Step s line o → IsCommandLine line (Undo editor)
        → o.refused ≡ false → IsRestored editor (desk_of s) (desk_of o.after) }
    ensures discard_there { (s : State) (line editor : List ℕ) (o : Outcome) → Step s line o → IsCommandLine line (Discard editor)
        → o.refused ≡ false → IsAllRestored editor (desk_of s) (desk_of o.after) }
{}

/// The law of fixes: a line that is not refused does what it is for, whatever the state. After `explode` no feature of the plan has
/// several parts, and their segments in order are the old ones. After `snap` the rule is broken neither at the end's old place nor where
/// the end is now. After `create` the feature that asked for a point has it. After `move` no live feature has a vertex at the place. In
/// each case no other feature changes. After `delete` no rule is broken by the feature, at a point or as a whole.
pub fn fix_law()
    ensures explode { (s : State) (line editor : List ℕ) (h : ℕ) (o : Outcome) → Step s line o → IsCommandLine line (Explode editor h) → o.refused ≡ false
        → (f : terms.Feature) × (feature_at s.project.features h ≡ Some f) × HasExploded s.project.features s.project.next h (exploded f) o.after.project.features }
    ensures snap { (s : State) (line editor : List ℕ) (r h i : ℕ) (to : Place) (o : Outcome) → Step s line o → IsCommandLine line (Snap editor r h i to) → o.refused ≡ false
        → (row : Row) × (f : terms.Feature) × (rule_at s.project.rules r ≡ Some row) × (feature_at s.project.features h ≡ Some f)
        × HasSnapped row f i to s.project.features o.after.project.features }
    ensures create { (s : State) (line editor : List ℕ) (r h : ℕ) (at : Place) (o : Outcome) → Step s line o → IsCommandLine line (Create editor r h at) → o.refused ≡ false
        → (row : Row) × (f : terms.Feature) × (rule_at s.project.rules r ≡ Some row) × (feature_at s.project.features h ≡ Some f)
        × HasCreated row f at s.project.features s.project.next o.after.project.features }
    ensures moved { (s : State) (line editor : List ℕ) (from to : Place) (o : Outcome) → Step s line o → IsCommandLine line (Move editor from to) → o.refused ≡ false
        → HasMoved from to s.project.features o.after.project.features }
    ensures delete_at { (s : State) (line editor : List ℕ) (h : ℕ) (o : Outcome) → Step s line o → IsCommandLine line (Delete editor h) → o.refused ≡ false
        → (row : Row) (b : ℕ) (p : Point) → BrokenAt row o.after.project.features h b p → ⊥ }
    ensures delete_whole { (s : State) (line editor : List ℕ) (h : ℕ) (o : Outcome) → Step s line o → IsCommandLine line (Delete editor h) → o.refused ≡ false
        → (row : Row) → BrokenWhole row o.after.project.features h → ⊥ }
{}

/// The law of versions: a line of versions that is not refused does what it is for, whatever the state, and each other line leaves what
/// stands aside: the other versions, and the name and the base of the current one. After `reconcile` the features of the version are the
/// merge of its own with those of `default` over its base, the printed handles are exactly those of the conflicts, and no other version
/// has changed. After `post` the features of `default` are those of the version, whose base was what `default` had; no other version has
/// changed. `version` makes a copy of `default`, and after `in` the version is current.
pub fn versions_law()
    ensures made { (s : State) (line name : List ℕ) (o : Outcome) → Step s line o → IsCommandLine line (Version name) → o.refused ≡ false
        → IsCreated name (tree_of s) (tree_of o.after) }
    ensures gone { (s : State) (line name : List ℕ) (o : Outcome) → Step s line o → IsCommandLine line (In name) → o.refused ≡ false
        → IsGone name (tree_of s) (tree_of o.after) }
    ensures merged { (s : State) (line name : List ℕ) (o : Outcome) → Step s line o → IsCommandLine line (Reconcile name) → o.refused ≡ false
        → (n : ℕ) × (hs : List ℕ) × IsMergedByName name n hs (tree_of s) (tree_of o.after) × (o.text ≡ reply_text (Merged hs n)) }
    ensures posted { (s : State) (line name : List ℕ) (o : Outcome) → Step s line o → IsCommandLine line (Post name) → o.refused ≡ false
        → (n : ℕ) × IsPostedByName name n (tree_of s) (tree_of o.after) × (o.text ≡ reply_text (Posted n)) }
    ensures others { (s : State) (line : List ℕ) (o : Outcome) → Step s line o → ((c : Command) → IsCommandLine line c → is_of_one c ≡ true)
        → o.after.aside ≡ s.aside }
{}

ghost use Rattle.std.specs.Prelude.{◌≡◌, ℕ, List, None};
ghost use Rattle.plane_terms.specs.Point.{Point};
ghost use Rattle.topology_terms.specs.Project.{Project, IsOrdered};
ghost use Rattle.topology_terms.specs.Feature as terms;
ghost use Rattle.topology_terms.specs.Feature.{feature_at};
ghost use Rattle.topology_terms.specs.Broken.{Row, BrokenAt, BrokenWhole};
ghost use Rattle.fix_terms.specs.Plans.{IsAfter, AreDone};
ghost use Rattle.fix_terms.specs.Plans.{Edit};

/// The law of plans: edits that are done one after another, as changes of a topology, leave the features that the plan says.
pub fn done_law()
    ensures { (es : List Edit) (p q : Project) → IsOrdered q → AreDone es p q → IsAfter es p.features p.next q.features }
{}

/// The law of deletions: a feature that is gone breaks no rule, at a point or as a whole.
pub fn deletion_law()
    ensures at { (row : Row) (G : List terms.Feature) (h b : ℕ) (p : Point) → feature_at G h ≡ None → ¬ (BrokenAt row G h b p) }
    ensures whole { (row : Row) (G : List terms.Feature) (h : ℕ) → feature_at G h ≡ None → ¬ (BrokenWhole row G h) }
{}

ghost use Rattle.std.specs.Prelude.{◌≡◌, ◌↔◌, ◌⊎◌, ◌<◌, ◌≤◌, ◌^◌, ℕ, ℤ, List, Some, unsigned_abs};
ghost use Rattle.std.specs.Fmt.{signed_decimal};
ghost use Rattle.topology_terms.specs.Project.{Project};
ghost use Rattle.project_terms.specs.declared.project_cause.ProjectCause as terms;
ghost use Rattle.project_terms.specs.Lines.{number};
ghost use Rattle.project_terms.specs.Records.{IsRecord, IsPlain};
ghost use Rattle.project_terms.specs.Written.{project_text, text_of};
ghost use Rattle.project_terms.specs.Texts.{IsProjectText, IsRead, IsFault};

/// The law of texts: a text says one project at most; where it says one, no line of it is wrong; and at most one line is the first
/// that is wrong, with one cause.
pub fn one_text_law()
    ensures project { (t : List ℕ) (p q : Project) → IsRead t p → IsRead t q → p ≡ q }
    ensures either { (t : List ℕ) (p : Project) (n : ℕ) (c : terms.ProjectCause) → IsRead t p → ¬ (IsFault t n c) }
    ensures fault { (t : List ℕ) (m n : ℕ) (b c : terms.ProjectCause) → IsFault t m b → IsFault t n c → (m ≡ n) × (b ≡ c) }
{}

/// The law of the grammar: a text is read as a project exactly where it is the text of it in one of the two formats, and a text can say
/// the project. So what was written is read as the same project, and no other project has that text. The project has one text in format
/// 2, and it has one in format 1 exactly where it has no subtype.
pub fn project_text_law()
    ensures read { (t : List ℕ) (p : Project) → IsRead t p ↔ IsProjectText t p }
    ensures project { (t : List ℕ) (p q : Project) → IsProjectText t p → IsProjectText t q → p ≡ q }
    ensures text { (t : List ℕ) (p : Project) → IsProjectText t p → (t ≡ project_text p) ⊎ (t ≡ text_of 1 p) }
    ensures newer { (p : Project) → IsProjectText (project_text p) p ↔ IsRecord p }
    ensures older { (p : Project) → IsProjectText (text_of 1 p) p ↔ (IsRecord p × IsPlain p) }
{}

/// The law of numbers: what is written of a number within the limits of a project is read as it, and nothing else is.
pub fn one_number_law()
    ensures again { (z : ℤ) → unsigned_abs z ≤ 2 ^ 50 → number (signed_decimal z) ≡ Some z }
    ensures only { (f : List ℕ) (z : ℤ) → number f ≡ Some z → unsigned_abs z < 2 ^ 50 → signed_decimal z ≡ f }
{}

ghost use Rattle.topology_terms.specs.Meaning.{Laws, CutsRight};
ghost use Rattle.topology_terms.specs.Poster.{poster};
ghost use Rattle.validation_laws.specs.Views.{ViewLaws};

/// The law of the rules that are built. Whether a rule is broken at a point depends on the features whose envelope holds it;
/// whether a subject breaks it as a whole, and into which findings that is cut, depends on those whose envelope meets the
/// subject's, and of a rule that asks only what is at the ends of a line, on those whose envelope holds one. What is cut says exactly
/// what is broken, and is one list; a subject that a row does not judge has no findings.
pub fn poster_law()
    ensures laws { Laws poster }
    ensures right { CutsRight poster }
    ensures views { ViewLaws poster }
{}

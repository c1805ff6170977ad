ghost use Rattle.std.specs.Prelude.{◌≡◌, ◌↔◌, IsTrue, IfSome, Some, is_some, bytes_eq};
ghost use Rattle.rule_words.specs.Table.{word_of, origin_of, dest_of, judges_either, first_of_word};

use plane_terms::Kind;

/// The rules, in the order of their numbers on the topology rules poster. Each speaks of the features of one class, its
/// origin, and some speak of a second class too, its destination.
#[derive(Clone, Copy, PartialEq, Eq, Debug)]
pub enum RuleKind {
    /// No two polygons of the class have an inside point in common.
    PolygonMustNotOverlap,
    /// No polygon of the class has an inside point in common with one of the second class.
    PolygonMustNotOverlapWith,
    /// The polygons of the class leave no open ground at their boundaries.
    PolygonMustNotHaveGaps,
    /// The polygons of the second class cover each polygon together.
    PolygonMustBeCoveredByFeatureClassOf,
    /// The polygons of both classes cover the same ground.
    PolygonMustCoverEachOther,
    /// The lines of the second class cover each polygon's boundary.
    PolygonBoundaryMustBeCoveredBy,
    /// The boundaries of the second class cover each polygon's boundary.
    PolygonAreaBoundaryMustBeCoveredByBoundaryOf,
    /// One polygon of the second class covers each polygon.
    PolygonMustBeCoveredBy,
    /// A point of the second class is inside each polygon.
    PolygonContainsPoint,
    /// No two lines of the class run along each other.
    LineMustNotOverlap,
    /// No line of the class runs along one of the second class.
    LineMustNotOverlapWith,
    /// No two lines of the class have an inner point in common.
    LineMustNotIntersect,
    /// Two lines of the class meet at ends of both alone.
    LineMustNotIntersectOrTouchInterior,
    /// No end of a line stands free.
    LineMustNotHaveDangles,
    /// No place is the end of just two lines.
    LineMustNotHavePseudoNodes,
    /// The lines of the second class cover each line together.
    LineMustBeCoveredByFeatureClassOf,
    /// The boundaries of the second class cover each line.
    LineMustBeCoveredByBoundaryOf,
    /// A point of the second class stands at each end of a line.
    LineEndpointMustBeCoveredBy,
    /// No line runs along itself.
    LineMustNotSelfOverlap,
    /// No line meets itself but at its ends.
    LineMustNotSelfIntersect,
    /// Each line has one part.
    LineMustBeSinglePart,
    /// No two points of the class are at one place.
    PointMustBeDisjoint,
    /// A point of the second class is at the place of each point.
    PointMustCoincideWith,
    /// Each point is inside a polygon of the second class.
    PointMustBeProperlyInside,
    /// Each point is on a boundary of the second class.
    PointMustBeCoveredByBoundaryOf,
    /// Each point is on a line of the second class.
    PointMustBeCoveredByLine,
    /// Each point is at an end of a line of the second class.
    PointMustBeCoveredByEndpointOf,
}

// All rules, once each.
const RULES: [RuleKind; 27] = [
    RuleKind::PolygonMustNotOverlap,
    RuleKind::PolygonMustNotOverlapWith,
    RuleKind::PolygonMustNotHaveGaps,
    RuleKind::PolygonMustBeCoveredByFeatureClassOf,
    RuleKind::PolygonMustCoverEachOther,
    RuleKind::PolygonBoundaryMustBeCoveredBy,
    RuleKind::PolygonAreaBoundaryMustBeCoveredByBoundaryOf,
    RuleKind::PolygonMustBeCoveredBy,
    RuleKind::PolygonContainsPoint,
    RuleKind::LineMustNotOverlap,
    RuleKind::LineMustNotOverlapWith,
    RuleKind::LineMustNotIntersect,
    RuleKind::LineMustNotIntersectOrTouchInterior,
    RuleKind::LineMustNotHaveDangles,
    RuleKind::LineMustNotHavePseudoNodes,
    RuleKind::LineMustBeCoveredByFeatureClassOf,
    RuleKind::LineMustBeCoveredByBoundaryOf,
    RuleKind::LineEndpointMustBeCoveredBy,
    RuleKind::LineMustNotSelfOverlap,
    RuleKind::LineMustNotSelfIntersect,
    RuleKind::LineMustBeSinglePart,
    RuleKind::PointMustBeDisjoint,
    RuleKind::PointMustCoincideWith,
    RuleKind::PointMustBeProperlyInside,
    RuleKind::PointMustBeCoveredByBoundaryOf,
    RuleKind::PointMustBeCoveredByLine,
    RuleKind::PointMustBeCoveredByEndpointOf,
];

fn is_word_of(rule: RuleKind, word: &[u8]) -> bool
    ensures { result ≡ bytes_eq (word_of rule) word.now }
{
    rule.word().as_bytes() == word
}

// The first of these rules whose word this is.
fn first_of_word(rules: &[RuleKind], word: &[u8]) -> Option<RuleKind>
    ensures { result ≡ first_of_word word.now rules.now }
{
    for rule in rules {
        if is_word_of(*rule, word) {
            return Some(*rule);
        }
    }
    None
}

impl RuleKind {
    /// The word by which lines, listings and saved projects name the rule: its name on the poster in lower case, with `_`
    /// between its words.
    pub fn word(self) -> &'static str
        ensures { result.now ≡ word_of self }
    {
        match self {
            RuleKind::PolygonMustNotOverlap => "polygon_must_not_overlap",
            RuleKind::PolygonMustNotOverlapWith => "polygon_must_not_overlap_with",
            RuleKind::PolygonMustNotHaveGaps => "polygon_must_not_have_gaps",
            RuleKind::PolygonMustBeCoveredByFeatureClassOf =>
                "polygon_must_be_covered_by_feature_class_of",
            RuleKind::PolygonMustCoverEachOther => "polygon_must_cover_each_other",
            RuleKind::PolygonBoundaryMustBeCoveredBy => "polygon_boundary_must_be_covered_by",
            RuleKind::PolygonAreaBoundaryMustBeCoveredByBoundaryOf =>
                "polygon_area_boundary_must_be_covered_by_boundary_of",
            RuleKind::PolygonMustBeCoveredBy => "polygon_must_be_covered_by",
            RuleKind::PolygonContainsPoint => "polygon_contains_point",
            RuleKind::LineMustNotOverlap => "line_must_not_overlap",
            RuleKind::LineMustNotOverlapWith => "line_must_not_overlap_with",
            RuleKind::LineMustNotIntersect => "line_must_not_intersect",
            RuleKind::LineMustNotIntersectOrTouchInterior =>
                "line_must_not_intersect_or_touch_interior",
            RuleKind::LineMustNotHaveDangles => "line_must_not_have_dangles",
            RuleKind::LineMustNotHavePseudoNodes => "line_must_not_have_pseudo_nodes",
            RuleKind::LineMustBeCoveredByFeatureClassOf =>
                "line_must_be_covered_by_feature_class_of",
            RuleKind::LineMustBeCoveredByBoundaryOf => "line_must_be_covered_by_boundary_of",
            RuleKind::LineEndpointMustBeCoveredBy => "line_endpoint_must_be_covered_by",
            RuleKind::LineMustNotSelfOverlap => "line_must_not_self_overlap",
            RuleKind::LineMustNotSelfIntersect => "line_must_not_self_intersect",
            RuleKind::LineMustBeSinglePart => "line_must_be_single_part",
            RuleKind::PointMustBeDisjoint => "point_must_be_disjoint",
            RuleKind::PointMustCoincideWith => "point_must_coincide_with",
            RuleKind::PointMustBeProperlyInside => "point_must_be_properly_inside",
            RuleKind::PointMustBeCoveredByBoundaryOf => "point_must_be_covered_by_boundary_of",
            RuleKind::PointMustBeCoveredByLine => "point_must_be_covered_by_line",
            RuleKind::PointMustBeCoveredByEndpointOf => "point_must_be_covered_by_endpoint_of",
        }
    }

    /// The rule that these bytes are the word of; `None` exactly where they are the word of none. Case counts.
    #[tactic(auto, using(crate::proofs::OneWord::has_word, crate::proofs::OneWord::is_rule))]
    pub fn of_word(bytes: &[u8]) -> Option<RuleKind>
        ensures found { IfSome result (λ k. word_of k ≡ bytes.now) }
        ensures only { (k : RuleKind) → word_of k ≡ bytes.now → result ≡ Some k }
    {
        first_of_word(&RULES, bytes)
    }

    /// The kind of shape that the class of its subjects has.
    pub fn origin(self) -> Kind
        ensures { result ≡ origin_of self }
    {
        match self {
            RuleKind::PolygonMustNotOverlap
            | RuleKind::PolygonMustNotOverlapWith
            | RuleKind::PolygonMustNotHaveGaps
            | RuleKind::PolygonMustBeCoveredByFeatureClassOf
            | RuleKind::PolygonMustCoverEachOther
            | RuleKind::PolygonBoundaryMustBeCoveredBy
            | RuleKind::PolygonAreaBoundaryMustBeCoveredByBoundaryOf
            | RuleKind::PolygonMustBeCoveredBy
            | RuleKind::PolygonContainsPoint => Kind::Polygon,
            RuleKind::LineMustNotOverlap
            | RuleKind::LineMustNotOverlapWith
            | RuleKind::LineMustNotIntersect
            | RuleKind::LineMustNotIntersectOrTouchInterior
            | RuleKind::LineMustNotHaveDangles
            | RuleKind::LineMustNotHavePseudoNodes
            | RuleKind::LineMustBeCoveredByFeatureClassOf
            | RuleKind::LineMustBeCoveredByBoundaryOf
            | RuleKind::LineEndpointMustBeCoveredBy
            | RuleKind::LineMustNotSelfOverlap
            | RuleKind::LineMustNotSelfIntersect
            | RuleKind::LineMustBeSinglePart => Kind::Line,
            RuleKind::PointMustBeDisjoint
            | RuleKind::PointMustCoincideWith
            | RuleKind::PointMustBeProperlyInside
            | RuleKind::PointMustBeCoveredByBoundaryOf
            | RuleKind::PointMustBeCoveredByLine
            | RuleKind::PointMustBeCoveredByEndpointOf => Kind::Point,
        }
    }

    /// The kind of shape that its second class has; `None` exactly where it takes no second class.
    pub fn dest(self) -> Option<Kind>
        ensures { result ≡ dest_of self }
    {
        match self {
            RuleKind::PolygonMustNotOverlap
            | RuleKind::PolygonMustNotHaveGaps
            | RuleKind::LineMustNotOverlap
            | RuleKind::LineMustNotIntersect
            | RuleKind::LineMustNotIntersectOrTouchInterior
            | RuleKind::LineMustNotHaveDangles
            | RuleKind::LineMustNotHavePseudoNodes
            | RuleKind::LineMustNotSelfOverlap
            | RuleKind::LineMustNotSelfIntersect
            | RuleKind::LineMustBeSinglePart
            | RuleKind::PointMustBeDisjoint => None,
            RuleKind::PolygonMustNotOverlapWith
            | RuleKind::PolygonMustBeCoveredByFeatureClassOf
            | RuleKind::PolygonMustCoverEachOther
            | RuleKind::PolygonAreaBoundaryMustBeCoveredByBoundaryOf
            | RuleKind::PolygonMustBeCoveredBy
            | RuleKind::LineMustBeCoveredByBoundaryOf
            | RuleKind::PointMustBeProperlyInside
            | RuleKind::PointMustBeCoveredByBoundaryOf => Some(Kind::Polygon),
            RuleKind::PolygonBoundaryMustBeCoveredBy
            | RuleKind::LineMustNotOverlapWith
            | RuleKind::LineMustBeCoveredByFeatureClassOf
            | RuleKind::PointMustBeCoveredByLine
            | RuleKind::PointMustBeCoveredByEndpointOf => Some(Kind::Line),
            RuleKind::PolygonContainsPoint
            | RuleKind::LineEndpointMustBeCoveredBy
            | RuleKind::PointMustCoincideWith => Some(Kind::Point),
        }
    }

    /// Whether the rule takes a second class.
    pub fn takes_dest(self) -> bool
        ensures { result ≡ is_some (dest_of self) }
    {
        self.dest().is_some()
    }

    /// Whether the features of both classes are subjects of the rule, and not those of the first alone.
    pub fn judges_either(self) -> bool
        ensures { result ≡ judges_either self }
    {
        matches!(self, RuleKind::PolygonMustCoverEachOther)
    }

    /// Whether the rule can be put in force for classes of these kinds, the second where one is named.
    pub fn fits(self, origin: Kind, dest: Option<Kind>) -> bool
        ensures { IsTrue result ↔ ((origin ≡ origin_of self) × (dest ≡ dest_of self)) }
    {
        origin == self.origin() && dest == self.dest()
    }
}

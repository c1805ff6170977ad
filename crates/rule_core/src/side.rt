ghost use Rattle.std.specs.Prelude.{◌≡◌, ◌≤◌, true, IfSome};
ghost use Rattle.topology_terms.specs.Feature as terms;
ghost use Rattle.topology_terms.specs.Causes.{are_apart, other_subtype, same_side, same_subtype};

use shape::Feature;
use std::marker::Model;

/// What a rule speaks of on one side: the class of this number, from 1, or one subtype of it. Nothing is on a side of the class 0.
#[derive(Clone, Copy)]
pub struct Side {
    pub class: u16,
    pub subtype: Option<u8>,
}

impl Model for Side {
    ghost use Rattle.topology_terms.specs.Feature as terms;

    ghost Value = { terms.Side };

    ghost view = { λ s. record { class = s.class; subtype = s.subtype } };

    ghost inverse = { λ v. record { class = v.class; subtype = v.subtype } };
}

// Whether a side that binds this, or no subtype, has features of the other.
fn binds(bound: Option<u8>, subtype: u8) -> bool
    ensures { result ≡ terms.binds bound subtype }
{
    match bound {
        None => true,
        Some(own) => subtype == own,
    }
}

fn same_subtype(a: Option<u8>, b: Option<u8>) -> bool
    ensures { result ≡ same_subtype a b }
{
    match (a, b) {
        (None, None) => true,
        (Some(a), Some(b)) => a == b,
        _ => false,
    }
}

// Whether two subtypes are bound, and differ.
fn other_subtype(a: Option<u8>, b: Option<u8>) -> bool
    ensures { result ≡ other_subtype a b }
{
    match (a, b) {
        (Some(a), Some(b)) => a != b,
        _ => false,
    }
}

// The law of every subtype.
fn subtype_law(subtype: u8)
    ensures { subtype ≤ 255 }
{}

impl Side {
    /// The subtype that the side binds, where it binds one.
    pub fn subtype(&self) -> Option<u8>
        ensures value { result ≡ self.now.subtype }
        ensures small { IfSome result (λ s. s ≤ 255) }
    {
        match self.subtype {
            Some(subtype) => {
                subtype_law(subtype);
                Some(subtype)
            }
            None => None,
        }
    }

    /// Whether features of this class and subtype are on the side.
    pub fn has(&self, class: u16, subtype: u8) -> bool
        ensures { (f : terms.Feature) → f.class ≡ class → f.subtype ≡ subtype → result ≡ terms.is_on_side self.now f }
    {
        class == self.class && binds(self.subtype, subtype)
    }

    /// Whether the feature is on the side.
    pub fn holds(&self, f: &Feature) -> bool
        ensures { result ≡ terms.is_on_side self.now f.now }
    {
        f.class() == self.class && binds(self.subtype, f.subtype())
    }

    /// Whether the sides are equal: of one class, and one subtype where they bind one.
    #[tactic(auto, using(crate::proofs::Sides::equal_sides))]
    pub fn same(&self, other: &Side) -> bool
        ensures test { result ≡ same_side self.now other.now }
        ensures equal { result ≡ true → self.now ≡ other.now }
    {
        self.class == other.class && same_subtype(self.subtype, other.subtype)
    }

    /// Whether no feature can be on both sides: they are of two classes, or of two subtypes.
    pub fn is_apart(&self, other: &Side) -> bool
        ensures { result ≡ are_apart self.now other.now }
    {
        self.class != other.class || other_subtype(self.subtype, other.subtype)
    }
}

ghost use Rattle.std.specs.Prelude.{◌≡◌, map, bytes_eq, Some, None, if◌then◌else◌, IfOk};
ghost use Rattle.topology_terms.specs.Causes.{same_kind};
ghost use Rattle.topology_terms.specs.Counts.{raised};
ghost use Rattle.topology_terms.specs.Feature as terms;
ghost use Rattle.outside_rule_terms.specs.Outside.{by_first};
ghost use Rattle.outside_rule_terms.specs.Asked.{place_of, is_place, one_if, AreRaised};

use crate::outside_rule::OutsideRule;
use grid_plane::{Name, NoMemory};
use plane_terms::Kind;
use rule_core::View;
use shape::Feature;

/// Asks the rule whether the subject breaks it among these features, which are those near it. Its count rises by one, also where memory
/// runs out.
pub fn ask(
    object: &mut Box<dyn OutsideRule>,
    view: &View<'_>,
    subject: u32,
) -> Result<bool, NoMemory>
    ensures breaks { IfOk result (λ b. b ≡ (seen object.old).breaks view.now subject) }
    ensures same { seen object.new ≡ seen object.old }
    ensures asked { count object.new ≡ raised (count object.old) 1 }
{
    object.judge(view, subject)
}

// Whether this is the rule's word.
fn has_word(object: &Box<dyn OutsideRule>, word: &Name) -> bool
    ensures { result ≡ bytes_eq (seen object.now).word word.now }
{
    object.word().bytes() == word.bytes()
}

fn is_kind(a: Kind, b: Kind) -> bool
    ensures { result ≡ same_kind a b }
{
    match (a, b) {
        (Kind::Point, Kind::Point) => true,
        (Kind::Line, Kind::Line) => true,
        (Kind::Polygon, Kind::Polygon) => true,
        _ => false,
    }
}

// This place, if the rule takes features of the kind.
fn place_if(object: &Box<dyn OutsideRule>, kind: Kind, place: usize) -> Option<usize>
    ensures { result ≡ (if same_kind kind (seen object.now).kind then Some place else None) }
{
    if is_kind(kind, object.takes()) {
        Some(place)
    } else {
        None
    }
}

// The place of the first rule that has the word, if it takes features of the kind.
fn place_of(objects: &[Box<dyn OutsideRule>], word: &Name, kind: Kind) -> Option<usize>
    ensures { result ≡ place_of (map (λ o. seen o) objects.now) word.now kind }
{
    for i in 0..objects.len() {
        if has_word(&objects[i], word) {
            return place_if(&objects[i], kind, i);
        }
    }
    None
}

/// Asks the first rule that has the word, if it takes features of the subject's kind; otherwise nothing breaks it. The count of that one
/// rises by one, also where memory runs out, and no other does.
pub fn ask_first(
    objects: &mut Vec<Box<dyn OutsideRule>>,
    word: &Name,
    view: &View<'_>,
    f: &Feature,
) -> Result<bool, NoMemory>
    ensures breaks { IfOk result (λ b. b ≡ by_first (map (λ o. seen o) objects.old.items) word.now view.now f.now.handle f.now) }
    ensures same { map (λ o. seen o) objects.new.items ≡ map (λ o. seen o) objects.old.items }
    ensures asked { AreRaised (λ i. one_if (is_place (place_of (map (λ o. seen o) objects.old.items) word.now f.now.shape.kind) i)) (map (λ o. count o) objects.old.items) (map (λ o. count o) objects.new.items) }
{
    match place_of(objects, word, f.shape().kind()) {
        Some(i) => ask(&mut objects[i], view, f.handle()),
        None => Ok(false),
    }
}

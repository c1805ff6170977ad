ghost use Rattle.std.specs.Prelude.{◌≡◌, ◌<◌, length, MatchOption};
ghost use Rattle.std.specs.Option.{option_map};
ghost use Rattle.topology_terms.specs.Extents.{is_whole};
ghost use Rattle.project_terms.specs.Verdicts.{title_of, number_of, kind_of_word, class_of, side_form, own_form, is_0, second_of, rule_of, feature_of, rect_of, extent_of, error_of, op_of};
ghost use Rattle.project_text.specs.Reading.{left, plain_side, bound_side, rule_said, feature_said, rect_said, error_said, IsNoHalf, IsHalfForm};

use crate::fields::{is_over, is_word, last_field, next_field, rest_of};
use crate::numbers::read_number;
use grid_plane::{Name, Op};
use rule_words::RuleKind;
use shape::Kind;
use std::marker::Model;
use text_fields::split_colon;
use topology_terms::Extent;

/// Four numbers, as a line spells them.
#[derive(Clone, Copy)]
pub struct RectForm {
    pub x0: i64,
    pub y0: i64,
    pub x1: i64,
    pub y1: i64,
}

/// A class, and the number of a subtype where one is given, as a field spells them.
#[derive(Drop)]
pub struct SideForm {
    pub name: Name,
    pub subtype: Option<i64>,
}

impl Model for SideForm {
    ghost use Rattle.project_terms.specs.Verdicts as terms;

    ghost Value = { terms.SideForm };

    ghost view = { λ a. record { name = a.name; subtype = a.subtype } };
}

/// What the line of a rule says.
#[derive(Drop)]
pub struct RuleForm {
    pub number: i64,
    pub kind: RuleKind,
    pub origin: SideForm,
    pub dest: Option<SideForm>,
}

/// What the line of a feature says; the text of its shape is unread.
#[derive(Drop)]
pub struct FeatureForm<'a> {
    pub handle: i64,
    pub own: SideForm,
    pub wkt: &'a [u8],
}

/// What the line of an error says.
#[derive(Drop)]
pub struct ErrorForm {
    pub rule: i64,
    pub subject: i64,
    pub other: i64,
    pub extent: Extent,
    pub frame: RectForm,
}

/// A half-plane as a line spells it, whether more follow, and what follows it.
#[derive(Drop)]
pub struct HalfForm<'a> {
    pub a: i64,
    pub b: i64,
    pub c: i64,
    pub op: Op,
    pub more: bool,
    pub rest: &'a [u8],
}

/// Whether the format that is all that is left has subtypes.
#[tactic(auto, using(crate::proofs::FieldForms::no_title))]
pub fn title_form(rest: &[u8]) -> Option<bool>
    ensures { result ≡ title_of (left rest.now) }
{
    let format = last_field(rest)?;
    if is_word(format, b"1") {
        return Some(false);
    }
    if is_word(format, b"2") {
        return Some(true);
    }
    None
}

/// The number that is all that is left.
pub fn number_form(rest: &[u8]) -> Option<i64>
    ensures { result ≡ number_of (left rest.now) }
{
    read_number(last_field(rest)?)
}

fn kind_of(word: &[u8]) -> Option<Kind>
    ensures { result ≡ kind_of_word word.now }
{
    if is_word(word, b"point") {
        return Some(Kind::Point);
    }
    if is_word(word, b"line") {
        return Some(Kind::Line);
    }
    if is_word(word, b"polygon") {
        return Some(Kind::Polygon);
    }
    None
}

/// The name and the kind of a class.
pub fn class_form(rest: &[u8]) -> Option<(Name, Kind)>
    ensures { MatchOption result (class_of (left rest.now) ≡ None) (λ c. class_of (left rest.now) ≡ Some (record { name = c.0; kind = c.1 })) }
{
    let (name, rest) = next_field(rest)?;
    let word = last_field(rest)?;
    Some((Name::of(name)?, kind_of(word)?))
}

// The class of this name.
fn plain_side(name: &[u8]) -> Option<SideForm>
    ensures { result ≡ plain_side name.now }
{
    Some(SideForm {
        name: Name::of(name)?,
        subtype: None,
    })
}

// The subtype of this number of the class of this name.
fn bound_side(name: &[u8], digits: &[u8]) -> Option<SideForm>
    ensures { result ≡ bound_side name.now digits.now }
{
    let name = Name::of(name)?;
    let number = read_number(digits)?;
    Some(SideForm {
        name,
        subtype: Some(number),
    })
}

// The class that a field names, in a format that has subtypes perhaps with a number behind a colon.
fn side_form(typed: bool, field: &[u8]) -> Option<SideForm>
    ensures { result ≡ side_form typed field.now }
{
    match split_colon(field) {
        None => plain_side(field),
        Some((front, digits)) => {
            if typed {
                bound_side(front, digits)
            } else {
                None
            }
        }
    }
}

// The same of a feature, whose subtype is not written where it is 0.
fn own_form(typed: bool, field: &[u8]) -> Option<SideForm>
    ensures { result ≡ own_form typed field.now }
{
    let own = side_form(typed, field)?;
    match own.subtype {
        Some(0) => None,
        _ => Some(own),
    }
}

// The second side of a rule, where there is one.
fn second_side(typed: bool, rest: &[u8]) -> Option<Option<SideForm>>
    ensures { result ≡ second_of typed (left rest.now) }
{
    if is_over(rest) {
        return Some(None);
    }
    let side = side_form(typed, last_field(rest)?)?;
    Some(Some(side))
}

/// The number, the word and the sides of a rule, in a format that has subtypes or has none.
pub fn rule_form(typed: bool, rest: &[u8]) -> Option<RuleForm>
    ensures { MatchOption result (rule_of typed (left rest.now) ≡ None) (λ q. rule_of typed (left rest.now) ≡ Some (rule_said q)) }
{
    let (number, rest) = next_field(rest)?;
    let (word, rest) = next_field(rest)?;
    let (origin, rest) = next_field(rest)?;
    Some(RuleForm {
        number: read_number(number)?,
        kind: RuleKind::of_word(word)?,
        dest: second_side(typed, rest)?,
        origin: side_form(typed, origin)?,
    })
}

/// The handle and the class of a feature, in a format that has subtypes perhaps with one, and the text of its shape.
pub fn feature_form(typed: bool, rest: &[u8]) -> Option<FeatureForm<'_>>
    ensures { MatchOption result (feature_of typed (left rest.entry.now) ≡ None) (λ f. feature_of typed (left rest.entry.now) ≡ Some (feature_said f)) }
{
    let (handle, rest) = next_field(rest)?;
    let (class, rest) = next_field(rest)?;
    let wkt = rest_of(rest)?;
    Some(FeatureForm {
        handle: read_number(handle)?,
        own: own_form(typed, class)?,
        wkt,
    })
}

/// The four numbers of a rectangle.
pub fn rect_form(rest: &[u8]) -> Option<RectForm>
    ensures { MatchOption result (rect_of (left rest.now) ≡ None) (λ r. rect_of (left rest.now) ≡ Some (rect_said r)) }
{
    let (x0, rest) = next_field(rest)?;
    let (y0, rest) = next_field(rest)?;
    let (x1, rest) = next_field(rest)?;
    let y1 = last_field(rest)?;
    Some(RectForm {
        x0: read_number(x0)?,
        y0: read_number(y0)?,
        x1: read_number(x1)?,
        y1: read_number(y1)?,
    })
}

fn extent_of(word: &[u8]) -> Option<Extent>
    ensures { option_map is_whole result ≡ extent_of word.now }
{
    if is_word(word, b"cells") {
        return Some(Extent::Cells);
    }
    if is_word(word, b"whole") {
        return Some(Extent::Whole);
    }
    None
}

/// The key, the extent and the frame of an error.
pub fn error_form(rest: &[u8]) -> Option<ErrorForm>
    ensures { MatchOption result (error_of (left rest.now) ≡ None) (λ e. error_of (left rest.now) ≡ Some (error_said e)) }
{
    let (rule, rest) = next_field(rest)?;
    let (subject, rest) = next_field(rest)?;
    let (other, rest) = next_field(rest)?;
    let (extent, rest) = next_field(rest)?;
    Some(ErrorForm {
        rule: read_number(rule)?,
        subject: read_number(subject)?,
        other: read_number(other)?,
        extent: extent_of(extent)?,
        frame: rect_form(rest)?,
    })
}

fn op_of(word: &[u8]) -> Option<(Op, bool)>
    ensures { result ≡ op_of word.now }
{
    if is_word(word, b">") {
        return Some((Op::Over, false));
    }
    if is_word(word, b">=") {
        return Some((Op::AtLeast, false));
    }
    if is_word(word, b"=") {
        return Some((Op::Zero, false));
    }
    if is_word(word, b">,") {
        return Some((Op::Over, true));
    }
    if is_word(word, b">=,") {
        return Some((Op::AtLeast, true));
    }
    if is_word(word, b"=,") {
        return Some((Op::Zero, true));
    }
    None
}

/// The half-plane that comes next.
pub fn half_form(rest: &[u8]) -> Option<HalfForm<'_>>
    ensures said { MatchOption result (IsNoHalf (left rest.entry.now)) (IsHalfForm (left rest.entry.now)) }
    ensures shorter { MatchOption result (Unit {0}) (λ h. length h.rest.now < length rest.entry.now) }
{
    let (a, rest) = next_field(rest)?;
    let (b, rest) = next_field(rest)?;
    let (c, rest) = next_field(rest)?;
    let (sign, rest) = next_field(rest)?;
    let (op, more) = op_of(sign)?;
    Some(HalfForm {
        a: read_number(a)?,
        b: read_number(b)?,
        c: read_number(c)?,
        op,
        more,
        rest,
    })
}

ghost use Rattle.std.specs.Prelude.{◌∷◌, [], IsTrue, IfSome};
ghost use Rattle.wkt_terms.specs.Grammar.{APoint, IsWkt};
ghost use Rattle.wkt_terms.specs.Tokens as tokens;
ghost use Rattle.wkt_terms.specs.Tokens.{StartsWith};
ghost use Rattle.wkt_laws.specs.Steps as steps;
ghost use Rattle.wkt_laws.specs.Steps.{Passes};
ghost use Rattle.wkt_text.specs.States.{state_of};

use crate::positions::next_position;
use crate::state::{Group, Owner, State};
use grid_plane::GridPoint;
use std::alloc::Global;
use text_fields::skip_blanks;

// What follows `POINT (`, where a text begins with just these bytes.
#[inline(always)]
fn behind_point(text: &[u8]) -> Option<&[u8]>
    ensures { IfSome result (λ rest. StartsWith text.now (tokens.Named tokens.Point ∷ tokens.Open ∷ []) rest.now) }
{
    let [b'P', b'O', b'I', b'N', b'T', b' ', b'(', rest @ ..] = text else {
        return None;
    };
    Some(rest)
}

// Whether nothing but the closing bracket is left.
#[inline(always)]
fn is_closed(text: &[u8]) -> bool
    ensures { IsTrue result → StartsWith text.now (tokens.Close ∷ tokens.End ∷ []) [] }
{
    let [b')', rest @ ..] = skip_blanks(text) else {
        return false;
    };
    skip_blanks(rest).is_empty()
}

/// The place of a text that writes a point as `POINT (x y)` does. Any other text is for the table of states.
pub fn read_point(text: &[u8]) -> Option<GridPoint>
    ensures { IfSome result (λ p. IsWkt text.now (APoint p)) }
{
    let rest = behind_point(text)?;
    let Some((place, behind)) = next_position(rest) else {
        return None;
    };
    if is_closed(behind) { Some(place) } else { None }
}

// What follows `LINESTRING (`, where a text begins with just these bytes.
#[inline(always)]
fn behind_line(text: &[u8]) -> Option<&[u8]>
    ensures { IfSome result (λ rest. StartsWith text.now (tokens.Named tokens.LineString ∷ tokens.Open ∷ []) rest.now) }
{
    let [
        b'L',
        b'I',
        b'N',
        b'E',
        b'S',
        b'T',
        b'R',
        b'I',
        b'N',
        b'G',
        b' ',
        b'(',
        rest @ ..,
    ] = text
    else {
        return None;
    };
    Some(rest)
}

// What follows `POLYGON ((`, where a text begins with just these bytes.
#[inline(always)]
fn behind_polygon(text: &[u8]) -> Option<&[u8]>
    ensures { IfSome result (λ rest. StartsWith text.now (tokens.Named tokens.Polygon ∷ tokens.Open ∷ tokens.Open ∷ []) rest.now) }
{
    let [
        b'P',
        b'O',
        b'L',
        b'Y',
        b'G',
        b'O',
        b'N',
        b' ',
        b'(',
        b'(',
        rest @ ..,
    ] = text
    else {
        return None;
    };
    Some(rest)
}

/// The state behind `LINESTRING (` or `POLYGON ((`, where a text begins with just these bytes, and what follows them.
/// Any other text is at its start.
pub fn read_head(alloc: Global, text: &[u8]) -> (State, &[u8])
    ensures { Passes steps.Start text.now (state_of result.0) result.1.now }
{
    if let Some(rest) = behind_line(text) {
        return (State::BeforeX(Owner::Line, Vec::new(alloc)), rest);
    }
    if let Some(rest) = behind_polygon(text) {
        let owner = Owner::OneOf(Group::Polygon, Vec::new(alloc));
        return (State::BeforeX(owner, Vec::new(alloc)), rest);
    }
    (State::Start, text)
}

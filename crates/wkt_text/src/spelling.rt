ghost use Rattle.std.specs.Prelude.{◌≡◌, ◌≤◌, ◌-◌, length, Ok, MatchResult};
ghost use Rattle.wkt_terms.specs.Grammar as grammar;
ghost use Rattle.wkt_terms.specs.Grammar.{IsWkt};
ghost use Rattle.wkt_terms.specs.Tokens as tokens;
ghost use Rattle.wkt_terms.specs.Tokens.{token_at, behind_token};
ghost use Rattle.wkt_terms.specs.declared.wkt_fault.WktFault.TheVariants.{NoMemory};
ghost use Rattle.wkt_laws.specs.Steps as steps;
ghost use Rattle.wkt_laws.specs.Steps.{step, Passes};
ghost use Rattle.wkt_text.specs.States.{geometry_of, state_of};
ghost use Rattle.wkt_text.specs.Stops.{Refuses, HasStopped};

use crate::direct::{read_head, read_point};
use crate::geometry::Geometry;
use crate::positions::read_positions;
use crate::state::{State, step};
use crate::stop::{Cause, Stop};
use crate::token::{Token, next_token};
use std::alloc::Global;
use text_fields::skip_blanks;
use wkt_terms::WktFault;

// Takes the token at the front of what is left, which is not empty.
#[inline(always)]
fn advance<'a>(
    alloc: Global,
    text: &[u8],
    rest: &'a [u8],
    state: State,
) -> Result<(State, &'a [u8]), WktFault>
    requires part { length rest.now ≤ length text.now }
    requires limit { length text.now ≤ 1048576 }
    ensures { MatchResult result
        (λ x. (step (state_of state) (token_at rest.now) ≡ Ok (state_of x.0)) × (x.1.now ≡ behind_token rest.now))
        (λ e. HasStopped (step (state_of state) (token_at rest.now)) (length text.now - length rest.now) e) }
{
    let (token, behind) = next_token(rest);
    match step(alloc, state, token) {
        Ok(next) => Ok((next, behind)),
        Err(stop) => Err(stop.at((text.len() - rest.len()) as u32)),
    }
}

// Reads positions at once, where they are expected.
#[inline(always)]
fn go_on(state: State, text: &[u8]) -> Result<(State, &[u8]), WktFault>
    ensures { MatchResult result (λ x. Passes (state_of state) text.now (state_of x.0) x.1.now) (λ e. e ≡ NoMemory) }
{
    let State::BeforeX(owner, positions) = state else {
        return Ok((state, text));
    };
    match read_positions(owner, positions, text) {
        Ok(found) => Ok(found),
        Err(_) => Err(WktFault::NoMemory),
    }
}

// The end is reached.
fn finish(alloc: Global, text: &[u8], state: State) -> Result<Geometry, WktFault>
    requires limit { length text.now ≤ 1048576 }
    ensures { MatchResult result
        (λ g. step (state_of state) tokens.End ≡ Ok (steps.Over (geometry_of g)))
        (λ e. HasStopped (step (state_of state) tokens.End) (length text.now) e) }
{
    let at = text.len() as u32;
    match step(alloc, state, Token::End) {
        Ok(State::Over(geometry)) => Ok(geometry),
        Ok(_) => Err(Stop::Refused(Cause::Syntax).at(at)),
        Err(stop) => Err(stop.at(at)),
    }
}

fn read_all(alloc: Global, text: &[u8]) -> Result<Geometry, WktFault>
    requires { length text.now ≤ 1048576 }
    ensures { MatchResult result (λ g. IsWkt text.now (geometry_of g)) (λ e. Refuses text.now e) }
{
    if let Some(place) = read_point(text) {
        return Ok(Geometry::Point(place));
    }
    let (head, behind) = read_head(alloc, text);
    let (mut state, left) = go_on(head, behind)?;
    let mut rest = skip_blanks(left);
    while !rest.is_empty() {
        let (middle, behind) = advance(alloc, text, rest, state)?;
        let (next, left) = go_on(middle, behind)?;
        state = next;
        rest = skip_blanks(left);
    }
    finish(alloc, text, state)
}

/// The geometry that a text of at most 1,048,576 bytes spells, or the fault of its first token that does not fit.
///
/// The grammar is taken from the well-known text of OGC 06-103r4.
pub fn read_geometry(alloc: Global, text: &[u8]) -> Result<Geometry, WktFault>
    requires { length text.now ≤ 1048576 }
    ensures found { MatchResult result (λ g. IsWkt text.now (geometry_of g)) (λ e. Refuses text.now e) }
    ensures only { (g : grammar.Geometry) → IsWkt text.now g → MatchResult result (λ h. geometry_of h ≡ g) (λ e. e ≡ NoMemory) }
{
    read_all(alloc, text)
}

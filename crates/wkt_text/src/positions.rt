ghost use Rattle.std.specs.Prelude.{◌≡◌, ◌∷◌, [], IfSome, MatchResult};
ghost use Rattle.wkt_terms.specs.Grammar.{position, commas};
ghost use Rattle.wkt_terms.specs.Tokens as tokens;
ghost use Rattle.wkt_terms.specs.Tokens.{StartsWith};
ghost use Rattle.wkt_laws.specs.Steps as steps;
ghost use Rattle.wkt_laws.specs.Steps.{More, Passes};
ghost use Rattle.wkt_text.specs.States.{owner_of, state_of};

use crate::state::{Owner, State, place};
use crate::stop::Stop;
use grid_plane::GridPoint;
use text_fields::{Number, next_number, skip_blanks};

// For so many positions there is room from the start; what is left of it is given back behind the last.
const ROOM: usize = 16;

/// The position that comes next, and what follows it.
#[inline(always)]
pub(crate) fn next_position(text: &[u8]) -> Option<(GridPoint, &[u8])>
    ensures { IfSome result (λ x. StartsWith text.now (position x.0) x.1.now) }
{
    let (first, behind) = next_number(skip_blanks(text));
    let Number::Whole(x) = first else {
        return None;
    };
    let (second, rest) = next_number(skip_blanks(behind));
    let Number::Whole(y) = second else {
        return None;
    };
    match place(x, y) {
        Ok(place) => Some((place, rest)),
        Err(_) => None,
    }
}

// What follows a comma, where one comes next.
#[inline(always)]
fn behind_comma(text: &[u8]) -> Option<&[u8]>
    ensures { IfSome result (λ rest. StartsWith text.now (tokens.Comma ∷ []) rest.now) }
{
    let [first, rest @ ..] = skip_blanks(text) else {
        return None;
    };
    if *first == b',' { Some(rest) } else { None }
}

// The position that comes next behind a comma, and what follows it.
#[inline(always)]
fn next_other(text: &[u8]) -> Option<(GridPoint, &[u8])>
    ensures { IfSome result (λ x. StartsWith text.now (commas position (x.0 ∷ [])) x.1.now) }
{
    let rest = behind_comma(text)?;
    next_position(rest)
}

// Puts the positions that come next behind commas last, and gives what follows them.
fn read_others<'a>(positions: &mut Vec<GridPoint>, text: &'a [u8]) -> Result<&'a [u8], Stop>
    ensures { MatchResult result (λ rest. More positions.old.items positions.new.items text.now rest.now) (λ stop. stop ≡ Stop.NoMemory) }
{
    let mut rest = text;
    while let Some(next) = next_other(rest) {
        positions.push(next.0)?;
        rest = next.1;
    }
    Ok(rest)
}

// The same, where the owner may have more positions than one.
fn read_more<'a>(
    owner: &Owner,
    positions: &mut Vec<GridPoint>,
    text: &'a [u8],
) -> Result<&'a [u8], Stop>
    ensures { MatchResult result
        (λ rest. Passes (steps.AfterPosition (owner_of owner.now) positions.old.items) text.now (steps.AfterPosition (owner_of owner.now) positions.new.items) rest.now)
        (λ stop. stop ≡ Stop.NoMemory) }
{
    match owner {
        Owner::Line => read_others(positions, text),
        Owner::OneOf(..) => read_others(positions, text),
        Owner::Point => Ok(text),
    }
}

/// Reads positions at once, as far as each is whole. What comes behind them is for the table of states.
pub fn read_positions<'a>(
    owner: Owner,
    mut positions: Vec<GridPoint>,
    text: &'a [u8],
) -> Result<(State, &'a [u8]), Stop>
    ensures { MatchResult result
        (λ x. Passes (steps.BeforeX (owner_of owner) positions.items) text.now (state_of x.0) x.1.now)
        (λ stop. stop ≡ Stop.NoMemory) }
{
    let Some(first) = next_position(text) else {
        return Ok((State::BeforeX(owner, positions), text));
    };
    positions.reserve(ROOM)?;
    positions.push(first.0)?;
    let left = read_more(&owner, &mut positions, first.1)?;
    Ok((State::AfterPosition(owner, positions), left))
}

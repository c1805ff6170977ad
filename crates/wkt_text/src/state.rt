ghost use Rattle.std.specs.Prelude.{◌≡◌, ◌++◌, ◌∷◌, [], Ok, Err, MatchResult};
ghost use Rattle.wkt_laws.specs.Steps.{at_open, closed, ended, after_comma, step};
ghost use Rattle.text_fields.specs.Numbers.{meant};
ghost use Rattle.wkt_terms.specs.Tokens as tokens;
ghost use Rattle.wkt_laws.specs.Steps as steps;
ghost use Rattle.wkt_text.specs.Meanings.{token_meant};
ghost use Rattle.shape.specs.Given.{rings_in as lists_of, polygons_in as parts_of};
ghost use Rattle.wkt_text.specs.States.{Gives, IsNumberAt, group_of, owner_of, state_of};

use crate::geometry::Geometry;
use crate::stop::{Cause, Stop};
use crate::token::{Token, Word};
use grid_plane::GridPoint;
use std::alloc::Global;
use text_fields::{Coordinate, Number};

/// Whose lists are read.
#[derive(Drop)]
pub enum Group {
    /// The parts of a line.
    Lines,
    /// The rings of a polygon.
    Polygon,
    /// The rings of a part of a polygon, behind these parts.
    Part(Vec<Vec<Vec<GridPoint>>>),
}

/// Whose positions are read.
#[derive(Drop)]
pub enum Owner {
    Point,
    Line,
    /// A list of a group, behind these lists.
    OneOf(Group, Vec<Vec<GridPoint>>),
}

/// What was read, and what is expected next.
#[derive(Drop)]
pub enum State {
    Start,
    BeforeParts,
    BeforeLists(Group),
    BeforeList(Owner),
    BeforeX(Owner, Vec<GridPoint>),
    BeforeY(Owner, Vec<GridPoint>, Coordinate),
    AfterPosition(Owner, Vec<GridPoint>),
    AfterList(Group, Vec<Vec<GridPoint>>),
    AfterPart(Vec<Vec<Vec<GridPoint>>>),
    Complete(Geometry),
    Over(Geometry),
}

fn refused(cause: Cause) -> Result<State, Stop>
    ensures { result ≡ Err (Stop.Refused cause) }
{
    Err(Stop::Refused(cause))
}

#[inline(always)]
fn at_word(token: Token) -> Result<State, Stop>
    ensures { Gives state_of result (step steps.Start (token_meant token)) }
{
    match token {
        Token::Named(Word::Point) => Ok(State::BeforeList(Owner::Point)),
        Token::Named(Word::LineString) => Ok(State::BeforeList(Owner::Line)),
        Token::Named(Word::MultiLineString) => Ok(State::BeforeLists(Group::Lines)),
        Token::Named(Word::Polygon) => Ok(State::BeforeLists(Group::Polygon)),
        Token::Named(Word::MultiPolygon) => Ok(State::BeforeParts),
        Token::Named(_) => refused(Cause::Unsupported),
        _ => refused(Cause::Syntax),
    }
}

// An opening bracket is expected.
#[inline(always)]
fn at_open(then: State, token: Token) -> Result<State, Stop>
    ensures { Gives state_of result (at_open (state_of then) (token_meant token)) }
{
    match token {
        Token::Open => Ok(then),
        Token::Named(Word::Modifier) => refused(Cause::Unsupported),
        _ => refused(Cause::Syntax),
    }
}

fn coordinate(number: Number) -> Result<Coordinate, Cause>
    ensures { IsNumberAt result (tokens.Numeral (meant number)) }
{
    match number {
        Number::Whole(z) => Ok(z),
        Number::OffGrid => Err(Cause::OffGrid),
        Number::OutOfReach => Err(Cause::OutOfReach),
        Number::NoNumber => Err(Cause::Syntax),
    }
}

// A number is expected.
fn number(token: Token) -> Result<Coordinate, Cause>
    ensures { IsNumberAt result (token_meant token) }
{
    match token {
        Token::Numeral(number) => coordinate(number),
        _ => Err(Cause::Syntax),
    }
}

#[inline(always)]
fn at_x(owner: Owner, positions: Vec<GridPoint>, token: Token) -> Result<State, Stop>
    ensures { Gives state_of result (step (steps.BeforeX (owner_of owner) positions.items) (token_meant token)) }
{
    match number(token) {
        Ok(x) => Ok(State::BeforeY(owner, positions, x)),
        Err(cause) => refused(cause),
    }
}

/// The place with these coordinates; it is always within the reach.
pub fn place(x: Coordinate, y: Coordinate) -> Result<GridPoint, Stop>
    ensures { result ≡ Ok (steps.place x y) }
{
    match GridPoint::at(i64::from(x.get()), i64::from(y.get())) {
        Some(place) => Ok(place),
        None => Err(Stop::Refused(Cause::OutOfReach)),
    }
}

#[inline(always)]
fn at_y(
    owner: Owner,
    mut positions: Vec<GridPoint>,
    x: Coordinate,
    token: Token,
) -> Result<State, Stop>
    ensures { Gives state_of result (step (steps.BeforeY (owner_of owner) positions.items x) (token_meant token)) }
{
    match number(token) {
        Ok(y) => {
            positions.push(place(x, y)?)?;
            Ok(State::AfterPosition(owner, positions))
        }
        Err(cause) => refused(cause),
    }
}

// Puts the positions last. Most often no others come: the first take room for themselves alone.
fn push_positions(lists: &mut Vec<Vec<GridPoint>>, positions: Vec<GridPoint>) -> Result<(), Stop>
    ensures { MatchResult result (λ _. lists_of lists.new.items ≡ lists_of lists.old.items ++ positions.items ∷ []) (λ stop. stop ≡ Stop.NoMemory) }
{
    if lists.is_empty() {
        lists.reserve_exact(1)?;
    }
    lists.push(positions)?;
    Ok(())
}

// Puts the lists last, in the same way.
fn push_lists(parts: &mut Vec<Vec<Vec<GridPoint>>>, lists: Vec<Vec<GridPoint>>) -> Result<(), Stop>
    ensures { MatchResult result (λ _. parts_of parts.new.items ≡ parts_of parts.old.items ++ lists_of lists.items ∷ []) (λ stop. stop ≡ Stop.NoMemory) }
{
    if parts.is_empty() {
        parts.reserve_exact(1)?;
    }
    parts.push(lists)?;
    Ok(())
}

// The bracket that closes positions.
#[inline(always)]
fn closed(owner: Owner, mut positions: Vec<GridPoint>) -> Result<State, Stop>
    ensures { Gives state_of result (Ok (closed (owner_of owner) positions.items)) }
{
    positions.shrink_to_fit();
    match owner {
        Owner::Point => match positions.first() {
            Some(p) => Ok(State::Complete(Geometry::Point(*p))),
            None => Ok(State::Complete(Geometry::Line(positions))),
        },
        Owner::Line => Ok(State::Complete(Geometry::Line(positions))),
        Owner::OneOf(group, mut lists) => {
            push_positions(&mut lists, positions)?;
            Ok(State::AfterList(group, lists))
        }
    }
}

// The bracket that closes lists.
#[inline(always)]
fn ended(group: Group, lists: Vec<Vec<GridPoint>>) -> Result<State, Stop>
    ensures { Gives state_of result (Ok (ended (group_of group) (lists_of lists.items))) }
{
    match group {
        Group::Lines => Ok(State::Complete(Geometry::Lines(lists))),
        Group::Polygon => Ok(State::Complete(Geometry::Polygon(lists))),
        Group::Part(mut parts) => {
            push_lists(&mut parts, lists)?;
            Ok(State::AfterPart(parts))
        }
    }
}

fn after_comma(owner: Owner, positions: Vec<GridPoint>) -> Result<State, Stop>
    ensures { Gives state_of result (after_comma (owner_of owner) positions.items) }
{
    match owner {
        Owner::Point => refused(Cause::Syntax),
        Owner::Line => Ok(State::BeforeX(Owner::Line, positions)),
        Owner::OneOf(group, lists) => Ok(State::BeforeX(Owner::OneOf(group, lists), positions)),
    }
}

#[inline(always)]
fn after_position(owner: Owner, positions: Vec<GridPoint>, token: Token) -> Result<State, Stop>
    ensures { Gives state_of result (step (steps.AfterPosition (owner_of owner) positions.items) (token_meant token)) }
{
    match token {
        Token::Comma => after_comma(owner, positions),
        Token::Close => closed(owner, positions),
        Token::Numeral(_) => refused(Cause::Unsupported),
        _ => refused(Cause::Syntax),
    }
}

#[inline(always)]
fn after_list(group: Group, lists: Vec<Vec<GridPoint>>, token: Token) -> Result<State, Stop>
    ensures { Gives state_of result (step (steps.AfterList (group_of group) (lists_of lists.items)) (token_meant token)) }
{
    match token {
        Token::Comma => Ok(State::BeforeList(Owner::OneOf(group, lists))),
        Token::Close => ended(group, lists),
        _ => refused(Cause::Syntax),
    }
}

fn after_part(parts: Vec<Vec<Vec<GridPoint>>>, token: Token) -> Result<State, Stop>
    ensures { Gives state_of result (step (steps.AfterPart (parts_of parts.items)) (token_meant token)) }
{
    match token {
        Token::Comma => Ok(State::BeforeLists(Group::Part(parts))),
        Token::Close => Ok(State::Complete(Geometry::Polygons(parts))),
        _ => refused(Cause::Syntax),
    }
}

// The end is expected.
#[inline(always)]
fn at_end(geometry: Geometry, token: Token) -> Result<State, Stop>
    ensures { Gives state_of result (step (state_of (State.Complete geometry)) (token_meant token)) }
{
    match token {
        Token::End => Ok(State::Over(geometry)),
        _ => refused(Cause::Syntax),
    }
}

/// What comes of a token.
#[inline(always)]
pub fn step(alloc: Global, state: State, token: Token) -> Result<State, Stop>
    ensures { Gives state_of result (step (state_of state) (token_meant token)) }
{
    match state {
        State::Start => at_word(token),
        State::BeforeParts => at_open(State::BeforeLists(Group::Part(Vec::new(alloc))), token),
        State::BeforeLists(group) => at_open(
            State::BeforeList(Owner::OneOf(group, Vec::new(alloc))),
            token,
        ),
        State::BeforeList(owner) => at_open(State::BeforeX(owner, Vec::new(alloc)), token),
        State::BeforeX(owner, positions) => at_x(owner, positions, token),
        State::BeforeY(owner, positions, x) => at_y(owner, positions, x, token),
        State::AfterPosition(owner, positions) => after_position(owner, positions, token),
        State::AfterList(group, lists) => after_list(group, lists, token),
        State::AfterPart(parts) => after_part(parts, token),
        State::Complete(geometry) => at_end(geometry, token),
        State::Over(_) => refused(Cause::Syntax),
    }
}

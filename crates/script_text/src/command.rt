use grid_plane::{GridPoint, Name, Rect};
use rule_words::{Kind, RuleKind};
use shape::Shape;
use std::marker::Model;
use std::num::NonZeroU32;

/// What a line speaks of by a name: a class, or one subtype of it.
#[derive(Drop)]
pub struct Sided {
    pub name: Name,
    pub subtype: Option<u8>,
}

impl Model for Sided {
    ghost use Rattle.line_terms.specs.Commands as commands;

    ghost Value = { commands.Sided };

    ghost view = { λ a. record { name = a.name; subtype = a.subtype } };
}

/// What a line asks for: one variant a command, with the values of the line's fields in their order.
#[derive(Drop)]
pub enum Command {
    /// Nothing: the line is skipped.
    Blank,
    /// `class NAME KIND`
    Class(Name, Kind),
    /// `rule WORD ORIGIN [DEST]`
    Rule(RuleKind, Sided, Option<Sided>),
    /// `droprule R`
    DropRule(u16),
    /// `begin EDITOR`
    Begin(Name),
    /// `end EDITOR`
    End(Name),
    /// `discard EDITOR`
    Discard(Name),
    /// `by EDITOR add CLASS SHAPE`
    Add(Name, Sided, Shape),
    /// `by EDITOR change H SHAPE`
    Change(Name, u32, Shape),
    /// `by EDITOR delete H`
    Delete(Name, u32),
    /// `by EDITOR retype H SUBTYPE`
    Retype(Name, u32, u8),
    /// `by EDITOR undo`
    Undo(Name),
    /// `by EDITOR redo`
    Redo(Name),
    /// `by EDITOR explode H`
    Explode(Name, u32),
    /// `by EDITOR snap R H END X Y`; ends are counted from 0.
    Snap(Name, u16, u32, u32, GridPoint),
    /// `by EDITOR create R H X Y`
    Create(Name, u16, u32, GridPoint),
    /// `by EDITOR move X Y X2 Y2`
    Move(Name, GridPoint, GridPoint),
    /// `validate X0 Y0 X1 Y1`, or `validate all`, which is the whole grid.
    Validate(Rect),
    /// `mark R H H2`; where H2 is 0, there is no partner.
    Mark(u16, u32, Option<NonZeroU32>),
    /// `unmark R H H2`; where H2 is 0, there is no partner.
    Unmark(u16, u32, Option<NonZeroU32>),
    /// `dirty`
    Dirty,
    /// `errors`
    Errors,
    /// `cells`
    Cells,
    /// `features`
    Features,
    /// `rules`
    Rules,
    /// `corners R H H2`; where H2 is 0, there is no partner.
    Corners(u16, u32, Option<NonZeroU32>),
    /// `version NAME`
    Version(Name),
    /// `in NAME`
    In(Name),
    /// `reconcile NAME`
    Reconcile(Name),
    /// `post NAME`
    Post(Name),
}

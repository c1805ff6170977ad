ghost use Rattle.std.specs.Prelude.{◌≡◌, ◌++◌, OnOk};
ghost use Rattle.script_terms.specs.Refusal.{HeldBy, refusal_text, cause_code, line_refusal_text, shape_fault_text, with_number, with_pair};
ghost use Rattle.line_terms.specs.declared.line_refusal.LineRefusal.TheVariants.{Invalid};
ghost use Rattle.reply_text.specs.Replies.{refusal_of};

use grid_plane::{Name, NoMemory};
use line_terms::LineRefusal;
use plane_terms::ShapeFault;
use text_out::{push_number, push_text};
use topology_terms::Cause;

/// Why a line is refused.
#[derive(Drop)]
pub enum Refusal {
    /// The line is no command's.
    Line(LineRefusal),
    /// The editor's session is open already.
    SessionOpen,
    /// 16 sessions are open.
    SessionsFull,
    /// The editor has no open session.
    NoSession,
    /// The feature is held by the session of this editor.
    HeldBy(Name),
    /// No step of the editor's session is done.
    NothingToUndo,
    /// No step of the editor's session is undone.
    NothingToRedo,
    /// There is nothing to fix so.
    NothingToFix,
    /// A shape that the fix would make has this fault.
    BadShape(ShapeFault),
    /// A session is open, and the line is one of versions.
    SessionsOpen,
    /// There is a version of this name.
    VersionTaken,
    /// There are 8 versions beside `default`.
    VersionsFull,
    /// There is no such version, or it is `default`, which is neither reconciled nor posted.
    NoVersion,
    /// `default` has changed since the version was made, reconciled or posted last, at this handle first.
    Stale(u32),
    /// The line changes all versions, and there are some beside `default`.
    VersionsThere,
    /// The topology is not changed, for this cause.
    Change(Cause),
}

fn push_with_number(out: &mut Vec<u8>, word: &[u8], number: u32) -> Result<(), NoMemory>
    ensures { OnOk result (out.new.items ≡ out.old.items ++ with_number word.now number) }
{
    push_text(out, word)?;
    push_number(out, number)
}

fn push_with_pair(out: &mut Vec<u8>, word: &[u8], i: u32, j: u32) -> Result<(), NoMemory>
    ensures { OnOk result (out.new.items ≡ out.old.items ++ with_pair word.now i j) }
{
    push_text(out, word)?;
    push_number(out, i)?;
    push_number(out, j)
}

// What is wrong with a shape; out of memory is no line's fault.
fn push_shape_fault(out: &mut Vec<u8>, fault: ShapeFault) -> Result<(), NoMemory>
    ensures { OnOk result (out.new.items ≡ out.old.items ++ shape_fault_text fault) }
{
    match fault {
        ShapeFault::TooFew { part } => push_with_number(out, b"few", part),
        ShapeFault::TooMany { count } => push_with_number(out, b"many", count),
        ShapeFault::Cross { i, j } => push_with_pair(out, b"cross", i, j),
        ShapeFault::Along { i, j } => push_with_pair(out, b"along", i, j),
        ShapeFault::NoMemory => Ok(()),
    }
}

fn push_invalid(out: &mut Vec<u8>, fault: ShapeFault) -> Result<(), NoMemory>
    ensures { OnOk result (out.new.items ≡ out.old.items ++ line_refusal_text (Invalid fault)) }
{
    push_text(out, b"E18 ")?;
    push_shape_fault(out, fault)
}

fn push_line_refusal(out: &mut Vec<u8>, refusal: LineRefusal) -> Result<(), NoMemory>
    ensures { OnOk result (out.new.items ≡ out.old.items ++ line_refusal_text refusal) }
{
    match refusal {
        LineRefusal::NotALine => push_text(out, b"E01"),
        LineRefusal::TooLong => push_text(out, b"E02"),
        LineRefusal::OffGrid { at } => push_with_number(out, b"E14", at),
        LineRefusal::OutOfReach { at } => push_with_number(out, b"E15", at),
        LineRefusal::Unsupported { at } => push_with_number(out, b"E16", at),
        LineRefusal::NotClosed { ring } => push_with_number(out, b"E17", ring),
        LineRefusal::Invalid(fault) => push_invalid(out, fault),
        LineRefusal::Reversed => push_text(out, b"E24"),
    }
}

fn push_cause(out: &mut Vec<u8>, cause: Cause) -> Result<(), NoMemory>
    ensures { OnOk result (out.new.items ≡ out.old.items ++ cause_code cause) }
{
    match cause {
        Cause::ClassTaken => push_text(out, b"E03"),
        Cause::ClassesFull => push_text(out, b"E04"),
        Cause::NoClass => push_text(out, b"E05"),
        Cause::Unfit => push_text(out, b"E06"),
        Cause::RuleThere => push_text(out, b"E07"),
        Cause::RulesFull => push_text(out, b"E08"),
        Cause::NoRule => push_text(out, b"E09"),
        Cause::WrongKind => push_text(out, b"E13"),
        Cause::NoFeature => push_text(out, b"E19"),
        Cause::HandlesSpent => push_text(out, b"E21"),
        Cause::NoError => push_text(out, b"E25"),
        Cause::AlreadySo => push_text(out, b"E26"),
    }
}

fn push_held_by(out: &mut Vec<u8>, name: &Name) -> Result<(), NoMemory>
    ensures { OnOk result (out.new.items ≡ out.old.items ++ refusal_text (HeldBy name.now)) }
{
    push_text(out, b"E20 ")?;
    push_text(out, name.bytes())
}

/// Appends the code of the refusal and what stands behind it: the place of a number, the parts of a shape, the name of an editor.
pub fn push_refusal(out: &mut Vec<u8>, refusal: &Refusal) -> Result<(), NoMemory>
    ensures { OnOk result (out.new.items ≡ out.old.items ++ refusal_text (refusal_of refusal.now)) }
{
    match refusal {
        Refusal::Line(refusal) => push_line_refusal(out, *refusal),
        Refusal::SessionOpen => push_text(out, b"E10"),
        Refusal::SessionsFull => push_text(out, b"E11"),
        Refusal::NoSession => push_text(out, b"E12"),
        Refusal::HeldBy(name) => push_held_by(out, name),
        Refusal::NothingToUndo => push_text(out, b"E22"),
        Refusal::NothingToRedo => push_text(out, b"E23"),
        Refusal::VersionTaken => push_text(out, b"E27"),
        Refusal::VersionsFull => push_text(out, b"E28"),
        Refusal::NoVersion => push_text(out, b"E29"),
        Refusal::SessionsOpen => push_text(out, b"E30"),
        Refusal::Stale(handle) => push_with_number(out, b"E31", *handle),
        Refusal::VersionsThere => push_text(out, b"E32"),
        Refusal::NothingToFix => push_text(out, b"E34"),
        Refusal::BadShape(fault) => push_invalid(out, *fault),
        Refusal::Change(cause) => push_cause(out, *cause),
    }
}

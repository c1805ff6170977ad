ghost use Rattle.std.specs.Prelude.{◌≡◌, MatchOption, MatchResult};
ghost use Rattle.plane_terms.specs.Rectangle.{Rectangle, IsProper, IsRectangle, rect_of};
ghost use Rattle.line_terms.specs.Commands.{Numbers};
ghost use Rattle.line_terms.specs.Forms.{IsLine, written};
ghost use Rattle.line_terms.specs.declared.line_refusal.LineRefusal.TheVariants.{OutOfReach, Reversed};
ghost use Rattle.script_text.specs.Faults.{IsRead};
ghost use Rattle.script_text.specs.Groups.{NoneOf, Validations};
ghost use Rattle.script_text.specs.Wholes.{AreFor};
ghost use Rattle.script_text.specs.Seen.{command_of};
ghost use Rattle.script_text.specs.Windows.{IsValidateOf, IsNoWindow};
ghost use Rattle.script_text.specs.declared.fault.LineFault.TheVariants.{Refused};
ghost use Rattle.script_text.specs.declared.whole.Whole.TheVariants.{Within, Beyond};

use crate::command::Command;
use crate::fault::LineFault;
use crate::whole::{Whole, read_whole};
use grid_plane::Rect;
use line_terms::LineRefusal;
use text_fields::{Coordinate, behind_word, is_only, is_over, next_field};

/// The four numbers that are all that is left.
pub(crate) fn read_numbers(text: &[u8]) -> Option<(Whole, Whole, Whole, Whole)>
    ensures { MatchOption result ((r : Rectangle) → IsLine text.now (written (Numbers r)) → ⊥)
        (λ x. (r : Rectangle) × IsLine text.now (written (Numbers r)) × AreFor x.0 x.1 x.2 x.3 r) }
{
    let (x0, rest) = next_field(text);
    let (y0, rest) = next_field(rest);
    let (x1, rest) = next_field(rest);
    let (y1, rest) = next_field(rest);
    if !is_over(rest) {
        return None;
    }
    let x0 = read_whole(x0)?;
    let y0 = read_whole(y0)?;
    let x1 = read_whole(x1)?;
    let y1 = read_whole(y1)?;
    Some((x0, y0, x1, y1))
}

/// The number at this place of those of a line, from 0, if it lies within the reach: the one place that tests it.
pub(crate) fn coordinate(at: u32, whole: Whole) -> Result<Coordinate, LineFault>
    ensures { MatchResult result (λ n. whole ≡ Within n) (λ e. (whole ≡ Beyond) × (e ≡ Refused (OutOfReach at))) }
{
    match whole {
        Whole::Within(n) => Ok(n),
        Whole::Beyond => Err(LineFault::Refused(LineRefusal::OutOfReach { at })),
    }
}

// The window of these sides, if no greatest coordinate is below its least one.
fn window_of(
    x0: Coordinate,
    y0: Coordinate,
    x1: Coordinate,
    y1: Coordinate,
) -> Result<Rect, LineFault>
    ensures { MatchResult result (λ w. (w ≡ rect_of x0 y0 x1 y1) × IsRectangle w) (λ e. (IsProper (rect_of x0 y0 x1 y1) → ⊥) × (e ≡ Refused Reversed)) }
{
    let (x0, y0, x1, y1) = (x0.get(), y0.get(), x1.get(), y1.get());
    if x0 > x1 || y0 > y1 {
        return Err(LineFault::Refused(LineRefusal::Reversed));
    }
    Ok(Rect::of_sides(x0, y0, x1, y1))
}

// The command that validates the window of the numbers that these stand for.
fn validate_of(x0: Whole, y0: Whole, x1: Whole, y1: Whole) -> Result<Command, LineFault>
    ensures { (r : Rectangle) → AreFor x0 y0 x1 y1 r → MatchResult result (λ c. IsValidateOf r (command_of c)) (λ e. IsNoWindow r e) }
{
    let x0 = coordinate(0, x0)?;
    let y0 = coordinate(1, y0)?;
    let x1 = coordinate(2, x1)?;
    let y1 = coordinate(3, y1)?;
    let window = window_of(x0, y0, x1, y1)?;
    Ok(Command::Validate(window))
}

/// The command of a line that validates, or why its window is none.
pub fn read_validations(line: &[u8]) -> Option<Result<Command, LineFault>>
    ensures { MatchOption result (NoneOf Validations line.now) (λ r. IsRead line.now r) }
{
    let rest = behind_word(line, b"validate")?;
    if is_only(rest, b"all") {
        return Some(Ok(Command::Validate(Rect::whole())));
    }
    let (x0, y0, x1, y1) = read_numbers(rest)?;
    Some(validate_of(x0, y0, x1, y1))
}

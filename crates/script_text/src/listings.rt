ghost use Rattle.std.specs.Prelude.{◌≡◌, MatchOption};
ghost use Rattle.line_terms.specs.Forms.{HasForm};
ghost use Rattle.script_text.specs.Groups.{NoneOf, IsBare, Listings};
ghost use Rattle.script_text.specs.Seen.{command_of};

use crate::command::Command;
use crate::marks::key_behind;
use text_fields::is_only;

/// The command of a line that lists.
#[tactic(auto, using(crate::proofs::Groups::no_listing))]
pub fn read_listings(line: &[u8]) -> Option<Command>
    ensures { MatchOption result (NoneOf Listings line.now) (λ c. IsBare line.now (command_of c)) }
{
    if is_only(line, b"dirty") {
        return Some(Command::Dirty);
    }
    if is_only(line, b"errors") {
        return Some(Command::Errors);
    }
    if is_only(line, b"cells") {
        return Some(Command::Cells);
    }
    if is_only(line, b"features") {
        return Some(Command::Features);
    }
    if is_only(line, b"rules") {
        return Some(Command::Rules);
    }
    if let Some((rule, subject, other)) = key_behind(line, b"corners") {
        return Some(Command::Corners(rule, subject, other));
    }
    None
}

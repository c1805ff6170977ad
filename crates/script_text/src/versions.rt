ghost use Rattle.std.specs.Prelude.{MatchOption};
ghost use Rattle.script_text.specs.Groups.{NoneOf, IsBare, Versions};
ghost use Rattle.script_text.specs.Seen.{command_of};

use crate::command::Command;
use crate::sessions::name_behind;

/// The command of a line that makes a version, goes into one, reconciles one or posts one.
#[tactic(auto, using(crate::proofs::Groups::no_version))]
pub fn read_versions(line: &[u8]) -> Option<Command>
    ensures { MatchOption result (NoneOf Versions line.now) (λ c. IsBare line.now (command_of c)) }
{
    if let Some(name) = name_behind(line, b"version") {
        return Some(Command::Version(name));
    }
    if let Some(name) = name_behind(line, b"in") {
        return Some(Command::In(name));
    }
    if let Some(name) = name_behind(line, b"reconcile") {
        return Some(Command::Reconcile(name));
    }
    if let Some(name) = name_behind(line, b"post") {
        return Some(Command::Post(name));
    }
    None
}

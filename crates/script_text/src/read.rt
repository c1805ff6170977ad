ghost use Rattle.std.specs.Prelude.{◌≡◌, ◌≢◌, ◌≤◌, length, MatchOption, MatchResult, IfOk, IfErr};
ghost use Rattle.text_terms.specs.Fields.{is_skipped};
ghost use Rattle.line_terms.specs.Commands as commands;
ghost use Rattle.line_terms.specs.Commands.{Form};
ghost use Rattle.line_terms.specs.Forms.{HasForm};
ghost use Rattle.line_terms.specs.Lines.{IsCommandLine, IsLineFault};
ghost use Rattle.line_terms.specs.declared.line_refusal.LineRefusal as line_refusal;
ghost use Rattle.script_text.specs.Faults.{IsFault, IsRead};
ghost use Rattle.script_text.specs.Groups.{group_of, IsBare, NoneOf, Skipped, Classes, Sessions, Marks, Listings, Versions};
ghost use Rattle.script_text.specs.Seen.{command_of};
ghost use Rattle.script_text.specs.declared.fault.LineFault.TheVariants as line_fault;

use crate::classes::read_classes;
use crate::command::Command;
use crate::edits::read_edits;
use crate::fault::LineFault;
use crate::fields::is_skipped;
use crate::fixes::read_fixes;
use crate::listings::read_listings;
use crate::marks::read_marks;
use crate::sessions::read_sessions;
use crate::validations::read_validations;
use crate::versions::read_versions;
use line_terms::LineRefusal;
use std::alloc::Global;

/// The greatest number of bytes of a line, without its end.
pub const LINE_LIMIT: usize = 1_048_576;

// The command of a line that has no shape and no window.
fn read_plain(line: &[u8]) -> Option<Command>
    ensures none { MatchOption result (NoneOf Listings line.now × NoneOf Classes line.now × NoneOf Sessions line.now × NoneOf Versions line.now × NoneOf Marks line.now)
        (λ c. IsBare line.now (command_of c)) }
{
    if let Some(command) = read_listings(line) {
        return Some(command);
    }
    if let Some(command) = read_classes(line) {
        return Some(command);
    }
    if let Some(command) = read_sessions(line) {
        return Some(command);
    }
    if let Some(command) = read_versions(line) {
        return Some(command);
    }
    read_marks(line)
}

// What is found in a line that is not skipped.
#[tactic(auto, using(crate::proofs::Groups::no_words, crate::proofs::Groups::bare))]
fn read_words(alloc: Global, line: &[u8]) -> Option<Result<Command, LineFault>>
    requires { length line.now ≤ 1048576 }
    ensures { MatchOption result ((f : Form) → group_of f ≢ Skipped → HasForm line.now f → ⊥) (λ r. IsRead line.now r) }
{
    if let Some(found) = read_edits(alloc, line) {
        return Some(found);
    }
    if let Some(found) = read_fixes(line) {
        return Some(found);
    }
    if let Some(found) = read_validations(line) {
        return Some(found);
    }
    match read_plain(line) {
        Some(command) => Some(Ok(command)),
        None => None,
    }
}

// What is found in a line of any length.
fn read_any(alloc: Global, line: &[u8]) -> Result<Command, LineFault>
    ensures found { IfOk result (λ c. IsCommandLine line.now (command_of c)) }
    ensures refused { IfErr result (IsFault line.now) }
{
    if line.len() > LINE_LIMIT {
        return Err(LineFault::Refused(LineRefusal::TooLong));
    }
    if is_skipped(line) {
        return Ok(Command::Blank);
    }
    match read_words(alloc, line) {
        Some(found) => found,
        None => Err(LineFault::Refused(LineRefusal::NotALine)),
    }
}

/// The command of a line, without its end. A line that is skipped is `Blank`. The length is tested before all else; then the
/// form of the whole line; then its shape's text is read; of a window the reach is tested, and then the order of its corners.
pub fn read_line(alloc: Global, line: &[u8]) -> Result<Command, LineFault>
    ensures found { IfOk result (λ c. IsCommandLine line.now (command_of c)) }
    ensures refused { IfErr result (IsFault line.now) }
    ensures only { (c : commands.Command) → IsCommandLine line.now c → MatchResult result (λ d. command_of d ≡ c) (λ e. e ≡ line_fault.NoMemory) }
{
    read_any(alloc, line)
}

/// The law of commands: a line has one command at most.
#[tactic(auto, using(crate::proofs::OneCommand::one_command))]
pub fn one_command_law(line: &[u8])
    ensures { (c d : commands.Command) → IsCommandLine line.now c → IsCommandLine line.now d → c ≡ d }
{
    let _ = line;
}

/// The law of faults: a line has one fault at most.
pub fn one_fault_law(line: &[u8])
    ensures { (r q : line_refusal.LineRefusal) → IsLineFault line.now r → IsLineFault line.now q → r ≡ q }
{
    let _ = line;
}

ghost use Rattle.std.specs.Prelude.{◌≡◌, ◌++◌, flat_map, length, OnOk};
ghost use Rattle.script_terms.specs.Reply.{Merged, Posted, conflict_line, taken_line, reply_text};

use grid_plane::{Handles, NoMemory};
use text_out::{push_digits, push_end, push_text};

fn push_conflict(out: &mut Vec<u8>, handle: u32) -> Result<(), NoMemory>
    ensures { OnOk result (out.new.items ≡ out.old.items ++ conflict_line handle) }
{
    push_text(out, b"conflict ")?;
    push_digits(out, handle)?;
    push_end(out)
}

fn push_conflicts(out: &mut Vec<u8>, handles: &[u32]) -> Result<(), NoMemory>
    ensures { OnOk result (out.new.items ≡ out.old.items ++ flat_map conflict_line handles.now) }
{
    for handle in handles {
        push_conflict(out, *handle)?;
    }
    Ok(())
}

fn push_taken(out: &mut Vec<u8>, taken: usize, conflicts: usize) -> Result<(), NoMemory>
    ensures { OnOk result (out.new.items ≡ out.old.items ++ taken_line taken conflicts) }
{
    push_text(out, b"ok taken ")?;
    push_digits(out, taken)?;
    push_text(out, b" conflicts ")?;
    push_digits(out, conflicts)?;
    push_end(out)
}

/// Appends a line for each conflict, at how many handles the version changed, and how many conflicts there are.
pub fn push_merged(out: &mut Vec<u8>, conflicts: &Handles, taken: usize) -> Result<(), NoMemory>
    ensures { OnOk result (out.new.items ≡ out.old.items ++ reply_text (Merged conflicts.now taken)) }
{
    push_conflicts(out, conflicts.items())?;
    push_taken(out, taken, conflicts.len())
}

/// Appends at how many handles `default` changed.
pub fn push_posted(out: &mut Vec<u8>, number: usize) -> Result<(), NoMemory>
    ensures { OnOk result (out.new.items ≡ out.old.items ++ reply_text (Posted number)) }
{
    push_text(out, b"ok posted ")?;
    push_digits(out, number)?;
    push_end(out)
}

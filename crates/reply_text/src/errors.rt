ghost use Rattle.std.specs.Prelude.{◌≡◌, ◌++◌, flat_map, OnOk};
ghost use Rattle.project_text.specs.Pushed.{error_text};

use error_store::{Entry, Errors};
use grid_plane::NoMemory;
use project_text::push_error_line;

// The lines of the errors of a run.
fn push_run_lines(out: &mut Vec<u8>, entries: &[Entry]) -> Result<(), NoMemory>
    ensures { OnOk result (out.new.items ≡ out.old.items ++ flat_map error_text entries.now) }
{
    for entry in entries {
        push_error_line(out, entry)?;
    }
    Ok(())
}

/// Appends a line for each error, in the order of their keys, without those of its cells.
pub fn push_entry_lines(out: &mut Vec<u8>, errors: &Errors) -> Result<(), NoMemory>
    ensures { OnOk result (out.new.items ≡ out.old.items ++ flat_map error_text errors.now) }
{
    for run in errors.by_pair().values() {
        push_run_lines(out, run)?;
    }
    Ok(())
}

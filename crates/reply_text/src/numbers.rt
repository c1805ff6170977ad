ghost use Rattle.std.specs.Prelude.{◌≡◌, ◌++◌, OnOk};
ghost use Rattle.script_terms.specs.Reply.{total_line};

use grid_plane::NoMemory;
use text_out::{push_digits, push_end, push_text};

/// Appends the last line of a listing.
pub fn push_total(out: &mut Vec<u8>, total: usize) -> Result<(), NoMemory>
    ensures { OnOk result (out.new.items ≡ out.old.items ++ total_line total) }
{
    push_text(out, b"total ")?;
    push_digits(out, total)?;
    push_end(out)
}

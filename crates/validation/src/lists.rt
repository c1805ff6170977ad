ghost use Rattle.std.specs.Prelude.{◌≡◌, ◌++◌, OnOk};

use grid_plane::NoMemory;

/// Puts the second list behind the first. Where the first has nothing, nothing is moved.
pub(crate) fn put_behind<T: Drop>(out: &mut Vec<T>, mut more: Vec<T>) -> Result<(), NoMemory>
    ensures { OnOk result (out.new.items ≡ out.old.items ++ more.items) }
{
    if out.is_empty() {
        *out = more;
        return Ok(());
    }
    out.append(&mut more)?;
    Ok(())
}

ghost use Rattle.std.specs.Prelude.{◌≡◌, ◌++◌, OnOk};
ghost use Rattle.wkt_terms.specs.Grammar.{APoint};
ghost use Rattle.wkt_terms.specs.Written.{place_text, written};

use grid_plane::{GridPoint, NoMemory};
use text_out::{push_byte, push_pair, push_text};

/// Appends the two coordinates with a space between them.
pub fn push_place(out: &mut Vec<u8>, place: &GridPoint) -> Result<(), NoMemory>
    ensures { OnOk result (out.new.items ≡ out.old.items ++ place_text place.now) }
{
    push_pair(out, place.x(), place.y())
}

/// Appends the written form of a point.
pub fn push_point(out: &mut Vec<u8>, place: &GridPoint) -> Result<(), NoMemory>
    ensures { OnOk result (out.new.items ≡ out.old.items ++ written (APoint place.now)) }
{
    push_text(out, b"POINT (")?;
    push_place(out, place)?;
    push_byte(out, b')')
}

ghost use Rattle.std.specs.Prelude.{◌≡◌, ◌≤◌, ◌++◌, codes, OnOk};
ghost use Rattle.plane_terms.specs.Shape.{point_shape};
ghost use Rattle.wkt_terms.specs.Shapes.{shape_text};
ghost use Rattle.wkt_terms.specs.Written.{place_text};
ghost use Rattle.town_terms.specs.Town.{place, parcel, address, road, added, parcel_line};

use grid_plane::NoMemory;
use text_out::{push_byte, push_comma, push_end, push_pair, push_text};

// The two coordinates, with a space between them.
fn push_place(out: &mut Vec<u8>, x: u64, y: u64) -> Result<(), NoMemory>
    ensures { OnOk result (out.new.items ≡ out.old.items ++ place_text (place x y)) }
{
    push_pair(out, x, y)
}

// A place behind a comma.
fn push_next_place(out: &mut Vec<u8>, x: u64, y: u64) -> Result<(), NoMemory>
    ensures { OnOk result (out.new.items ≡ out.old.items ++ (codes ", " ++ place_text (place x y))) }
{
    push_comma(out)?;
    push_place(out, x, y)
}

// The square of this row and column, in its written form.
fn push_square(out: &mut Vec<u8>, row: u64, column: u64) -> Result<(), NoMemory>
    requires row { row ≤ 60 }
    requires column { column ≤ 60 }
    ensures { OnOk result (out.new.items ≡ out.old.items ++ shape_text (parcel row column)) }
{
    let x = 100 * column;
    let y = 100 * row;
    push_text(out, b"POLYGON ((")?;
    push_place(out, x, y)?;
    push_next_place(out, x + 100, y)?;
    push_next_place(out, x + 100, y + 100)?;
    push_next_place(out, x, y + 100)?;
    push_next_place(out, x, y)?;
    push_text(out, b"))")
}

// The written form of a point.
fn push_point(out: &mut Vec<u8>, x: u64, y: u64) -> Result<(), NoMemory>
    ensures { OnOk result (out.new.items ≡ out.old.items ++ shape_text (point_shape (place x y))) }
{
    push_text(out, b"POINT (")?;
    push_place(out, x, y)?;
    push_byte(out, b')')
}

// The written form of the line along the foot of this row.
fn push_street(out: &mut Vec<u8>, columns: u64, w: u64, row: u64) -> Result<(), NoMemory>
    requires some { 1 ≤ columns }
    requires few { columns ≤ 60 }
    requires row { row ≤ 60 }
    ensures { OnOk result (out.new.items ≡ out.old.items ++ shape_text (road columns w row)) }
{
    let y = 100 * row;
    push_text(out, b"LINESTRING (")?;
    push_place(out, 0, y)?;
    push_next_place(out, 1 + w % (100 * columns - 1), y)?;
    push_next_place(out, 100 * columns, y)?;
    push_byte(out, b')')
}

/// Appends the line that adds the parcel of this row and column.
pub fn push_parcel(out: &mut Vec<u8>, row: u64, column: u64) -> Result<(), NoMemory>
    requires row { row ≤ 60 }
    requires column { column ≤ 60 }
    ensures { OnOk result (out.new.items ≡ out.old.items ++ parcel_line row column) }
{
    push_text(out, b"by maker add parcels ")?;
    push_square(out, row, column)?;
    push_end(out)
}

/// Appends the line that adds an address inside the parcel of this row and column, by two words.
pub fn push_address(
    out: &mut Vec<u8>,
    u: u64,
    v: u64,
    row: u64,
    column: u64,
) -> Result<(), NoMemory>
    requires row { row ≤ 60 }
    requires column { column ≤ 60 }
    ensures { OnOk result (out.new.items ≡ out.old.items ++ added (codes "addresses") (address u v row column)) }
{
    push_text(out, b"by maker add addresses ")?;
    push_point(out, 100 * column + 1 + u % 99, 100 * row + 1 + v % 99)?;
    push_end(out)
}

/// Appends the line that adds the road along the foot of this row, of so many columns, by a word.
pub fn push_road(out: &mut Vec<u8>, columns: u64, w: u64, row: u64) -> Result<(), NoMemory>
    requires some { 1 ≤ columns }
    requires few { columns ≤ 60 }
    requires row { row ≤ 60 }
    ensures { OnOk result (out.new.items ≡ out.old.items ++ added (codes "roads") (road columns w row)) }
{
    push_text(out, b"by maker add roads ")?;
    push_street(out, columns, w, row)?;
    push_end(out)
}

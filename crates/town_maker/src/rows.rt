ghost use Rattle.std.specs.Prelude.{◌≡◌, ◌≤◌, ◌<◌, ◌+◌, ◌*◌, ◌++◌, codes, OnOk};
ghost use Rattle.town_terms.specs.Town.{each_below, parcel_line, address_by, address_line, road_line, row_text, late_line};

use crate::lines::{push_address, push_parcel, push_road};
use crate::town::Town;
use grid_plane::NoMemory;

// The address of this row and column, by two words of a row, the first of which is the word `at`.
fn push_address_by(
    out: &mut Vec<u8>,
    town: &Town,
    from: u64,
    at: u64,
    row: u64,
    column: u64,
) -> Result<(), NoMemory>
    requires from { from ≤ town.now.rows }
    requires at { at + 1 < 2 * town.now.rows }
    requires row { row ≤ 60 }
    requires column { column ≤ 60 }
    ensures { OnOk result (out.new.items ≡ out.old.items ++ address_by town.now.seed town.now.rows from at row column) }
{
    let u = town.word(from, at);
    let v = town.word(from, at + 1);
    push_address(out, u, v, row, column)
}

// The address of this row and column; nothing where it comes late.
fn push_address_at(out: &mut Vec<u8>, town: &Town, row: u64, column: u64) -> Result<(), NoMemory>
    requires row { row < town.now.rows }
    requires column { column < town.now.rows }
    ensures { OnOk result (out.new.items ≡ out.old.items ++ address_line town.now.seed town.now.rows row column) }
{
    let late = town.late_column(row);
    if column == late {
        return Ok(());
    }
    let before = if late < column { column - 1 } else { column };
    push_address_by(out, town, row, 1 + 2 * before, row, column)
}

fn push_parcels(out: &mut Vec<u8>, town: &Town, row: u64) -> Result<(), NoMemory>
    requires { row < town.now.rows }
    ensures { OnOk result (out.new.items ≡ out.old.items ++ each_below town.now.rows (parcel_line row)) }
{
    for column in 0..town.rows {
        push_parcel(out, row, column)?;
    }
    Ok(())
}

fn push_addresses(out: &mut Vec<u8>, town: &Town, row: u64) -> Result<(), NoMemory>
    requires { row < town.now.rows }
    ensures { OnOk result (out.new.items ≡ out.old.items ++ each_below town.now.rows (address_line town.now.seed town.now.rows row)) }
{
    for column in 0..town.rows {
        push_address_at(out, town, row, column)?;
    }
    Ok(())
}

// The road of this row, by the last word of the row.
fn push_road_of(out: &mut Vec<u8>, town: &Town, row: u64) -> Result<(), NoMemory>
    requires { row < town.now.rows }
    ensures { OnOk result (out.new.items ≡ out.old.items ++ road_line town.now.seed town.now.rows row) }
{
    push_road(out, town.rows, town.word(row, 2 * town.rows - 1), row)
}

// The lines of a row: its parcels, its addresses, its road.
fn push_row(out: &mut Vec<u8>, town: &Town, row: u64) -> Result<(), NoMemory>
    requires { row < town.now.rows }
    ensures { OnOk result (out.new.items ≡ out.old.items ++ row_text town.now.seed town.now.rows row) }
{
    push_parcels(out, town, row)?;
    push_addresses(out, town, row)?;
    push_road_of(out, town, row)
}

/// Appends the lines of all rows.
pub fn push_rows(out: &mut Vec<u8>, town: &Town) -> Result<(), NoMemory>
    ensures { OnOk result (out.new.items ≡ out.old.items ++ each_below town.now.rows (row_text town.now.seed town.now.rows)) }
{
    for row in 0..town.rows {
        push_row(out, town, row)?;
    }
    Ok(())
}

// The address of this row that comes late.
fn push_late_address(out: &mut Vec<u8>, town: &Town, row: u64) -> Result<(), NoMemory>
    requires { row < town.now.rows }
    ensures { OnOk result (out.new.items ≡ out.old.items ++ late_line town.now.seed town.now.rows row) }
{
    push_address_by(out, town, town.rows, 2 * row, row, town.late_column(row))
}

/// Appends the addresses that come late, one a row.
pub fn push_late_addresses(out: &mut Vec<u8>, town: &Town) -> Result<(), NoMemory>
    ensures { OnOk result (out.new.items ≡ out.old.items ++ each_below town.now.rows (late_line town.now.seed town.now.rows)) }
{
    for row in 0..town.rows {
        push_late_address(out, town, row)?;
    }
    Ok(())
}

ghost use Rattle.std.specs.Prelude.{◌≡◌, ◌++◌, flat_map, length, OnOk};
ghost use Rattle.script_terms.specs.Reply.{quotient_text, fraction_text, corner_line, total_line};

use crate::numbers::push_total;
use corner_terms::{CellCorner, Fraction};
use grid_plane::NoMemory;
use text_out::{push_byte, push_digits, push_end, push_text};

// A numerator, and the denominator behind it.
fn push_quotient(out: &mut Vec<u8>, n: i128, d: u128) -> Result<(), NoMemory>
    ensures { OnOk result (out.new.items ≡ out.old.items ++ quotient_text (record { n = n; d = d })) }
{
    push_digits(out, n)?;
    push_byte(out, b'/')?;
    push_digits(out, d)
}

// A whole number, or a numerator and a denominator.
fn push_fraction(out: &mut Vec<u8>, f: Fraction) -> Result<(), NoMemory>
    ensures { OnOk result (out.new.items ≡ out.old.items ++ fraction_text f) }
{
    if f.d == 1 {
        return push_digits(out, f.n);
    }
    push_quotient(out, f.n, f.d)
}

fn push_corner_line(out: &mut Vec<u8>, corner: &CellCorner) -> Result<(), NoMemory>
    ensures { OnOk result (out.new.items ≡ out.old.items ++ corner_line corner.now) }
{
    push_text(out, b"corner ")?;
    push_digits(out, corner.cell)?;
    push_byte(out, b' ')?;
    push_fraction(out, corner.x)?;
    push_byte(out, b' ')?;
    push_fraction(out, corner.y)?;
    push_end(out)
}

fn push_corner_lines(out: &mut Vec<u8>, corners: &[CellCorner]) -> Result<(), NoMemory>
    ensures { OnOk result (out.new.items ≡ out.old.items ++ flat_map corner_line corners.now) }
{
    for corner in corners {
        push_corner_line(out, corner)?;
    }
    Ok(())
}

/// Appends a line for each corner, and their number.
pub fn push_corner_list(out: &mut Vec<u8>, corners: &[CellCorner]) -> Result<(), NoMemory>
    ensures { OnOk result (out.new.items ≡ out.old.items ++ (flat_map corner_line corners.now ++ total_line (length corners.now))) }
{
    push_corner_lines(out, corners)?;
    push_total(out, corners.len())
}

ghost use Rattle.std.specs.Prelude.{◌≡◌, ◌++◌, map, codes, OnOk};
ghost use Rattle.text_terms.specs.Wkt.{listed};
ghost use Rattle.wkt_terms.specs.Shapes.{of_lines};
ghost use Rattle.wkt_terms.specs.Written.{place_text, list_text, lists_text, written};
ghost use Rattle.wkt_laws.specs.Commas.{comma_texts};
ghost use Rattle.shape.specs.Given.{rings_in as lists_of};

use crate::place::push_place;
use grid_plane::{GridPoint, NoMemory};
use text_out::{push_byte, push_comma, push_text};

/// Appends the places, each behind a comma.
pub fn push_more_places(out: &mut Vec<u8>, places: &[GridPoint]) -> Result<(), NoMemory>
    ensures { OnOk result (out.new.items ≡ out.old.items ++ comma_texts place_text places.now) }
{
    for place in places {
        push_comma(out)?;
        push_place(out, place)?;
    }
    Ok(())
}

// The places with commas between them.
fn push_places(out: &mut Vec<u8>, places: &[GridPoint]) -> Result<(), NoMemory>
    ensures { OnOk result (out.new.items ≡ out.old.items ++ listed (map place_text places.now)) }
{
    match places {
        [] => Ok(()),
        [first, more @ ..] => {
            push_place(out, first)?;
            push_more_places(out, more)
        }
    }
}

fn push_list(out: &mut Vec<u8>, places: &[GridPoint]) -> Result<(), NoMemory>
    ensures { OnOk result (out.new.items ≡ out.old.items ++ list_text places.now) }
{
    push_byte(out, b'(')?;
    push_places(out, places)?;
    push_byte(out, b')')
}

// The lists, each behind a comma.
fn push_more_lists(out: &mut Vec<u8>, lists: &[Vec<GridPoint>]) -> Result<(), NoMemory>
    ensures { OnOk result (out.new.items ≡ out.old.items ++ comma_texts list_text (lists_of lists.now)) }
{
    for list in lists {
        push_comma(out)?;
        push_list(out, list)?;
    }
    Ok(())
}

// The lists with commas between them.
fn push_list_items(out: &mut Vec<u8>, lists: &[Vec<GridPoint>]) -> Result<(), NoMemory>
    ensures { OnOk result (out.new.items ≡ out.old.items ++ listed (map list_text (lists_of lists.now))) }
{
    match lists {
        [] => Ok(()),
        [first, more @ ..] => {
            push_list(out, first)?;
            push_more_lists(out, more)
        }
    }
}

fn push_lists(out: &mut Vec<u8>, lists: &[Vec<GridPoint>]) -> Result<(), NoMemory>
    ensures { OnOk result (out.new.items ≡ out.old.items ++ lists_text (lists_of lists.now)) }
{
    push_byte(out, b'(')?;
    push_list_items(out, lists)?;
    push_byte(out, b')')
}

// A line of one part.
fn push_one_line(out: &mut Vec<u8>, part: &[GridPoint]) -> Result<(), NoMemory>
    ensures { OnOk result (out.new.items ≡ out.old.items ++ (codes "LINESTRING " ++ list_text part.now)) }
{
    push_text(out, b"LINESTRING ")?;
    push_list(out, part)
}

// A line of any number of parts but one.
fn push_more_lines(out: &mut Vec<u8>, parts: &[Vec<GridPoint>]) -> Result<(), NoMemory>
    ensures { OnOk result (out.new.items ≡ out.old.items ++ (codes "MULTILINESTRING " ++ lists_text (lists_of parts.now))) }
{
    push_text(out, b"MULTILINESTRING ")?;
    push_lists(out, parts)
}

/// Appends the written form of a line of these parts.
pub fn push_line(out: &mut Vec<u8>, parts: &[Vec<GridPoint>]) -> Result<(), NoMemory>
    ensures { OnOk result (out.new.items ≡ out.old.items ++ written (of_lines (lists_of parts.now))) }
{
    if parts.len() == 1 {
        push_one_line(out, &parts[0])
    } else {
        push_more_lines(out, parts)
    }
}

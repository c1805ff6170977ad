ghost use Rattle.std.specs.Prelude.{◌≡◌, ◌++◌, map, codes, OnOk};
ghost use Rattle.text_terms.specs.Wkt.{listed};
ghost use Rattle.wkt_terms.specs.Shapes.{closed, of_polygons};
ghost use Rattle.wkt_terms.specs.Written.{place_text, bracketed, list_text, lists_text, written};
ghost use Rattle.wkt_laws.specs.Commas.{comma_texts};
ghost use Rattle.shape.specs.Given.{rings_in as lists_of, polygons_in as parts_of};
ghost use Rattle.wkt_text.specs.Closed.{ring_text, rings_text};

use crate::lists::push_more_places;
use crate::place::push_place;
use grid_plane::{GridPoint, NoMemory};
use text_out::{push_byte, push_comma, push_text};

// The first place of a ring again, behind a comma.
fn push_closing(out: &mut Vec<u8>, first: &GridPoint) -> Result<(), NoMemory>
    ensures { OnOk result (out.new.items ≡ out.old.items ++ (codes ", " ++ place_text first.now)) }
{
    push_comma(out)?;
    push_place(out, first)
}

// The places of a ring and its first again, with commas between them.
fn push_ring_places(out: &mut Vec<u8>, ring: &[GridPoint]) -> Result<(), NoMemory>
    ensures { OnOk result (out.new.items ≡ out.old.items ++ listed (map place_text (closed ring.now))) }
{
    match ring {
        [] => Ok(()),
        [first, more @ ..] => {
            push_place(out, first)?;
            push_more_places(out, more)?;
            push_closing(out, first)
        }
    }
}

fn push_ring(out: &mut Vec<u8>, ring: &[GridPoint]) -> Result<(), NoMemory>
    ensures { OnOk result (out.new.items ≡ out.old.items ++ ring_text ring.now) }
{
    push_byte(out, b'(')?;
    push_ring_places(out, ring)?;
    push_byte(out, b')')
}

// The rings, each behind a comma.
fn push_more_rings(out: &mut Vec<u8>, rings: &[Vec<GridPoint>]) -> Result<(), NoMemory>
    ensures { OnOk result (out.new.items ≡ out.old.items ++ comma_texts ring_text (lists_of rings.now)) }
{
    for ring in rings {
        push_comma(out)?;
        push_ring(out, ring)?;
    }
    Ok(())
}

// The rings with commas between them.
fn push_ring_items(out: &mut Vec<u8>, rings: &[Vec<GridPoint>]) -> Result<(), NoMemory>
    ensures { OnOk result (out.new.items ≡ out.old.items ++ listed (map ring_text (lists_of rings.now))) }
{
    match rings {
        [] => Ok(()),
        [first, more @ ..] => {
            push_ring(out, first)?;
            push_more_rings(out, more)
        }
    }
}

fn push_rings(out: &mut Vec<u8>, rings: &[Vec<GridPoint>]) -> Result<(), NoMemory>
    ensures { OnOk result (out.new.items ≡ out.old.items ++ rings_text (lists_of rings.now)) }
{
    push_byte(out, b'(')?;
    push_ring_items(out, rings)?;
    push_byte(out, b')')
}

// The parts, each behind a comma.
fn push_more_parts(out: &mut Vec<u8>, parts: &[Vec<Vec<GridPoint>>]) -> Result<(), NoMemory>
    ensures { OnOk result (out.new.items ≡ out.old.items ++ comma_texts rings_text (parts_of parts.now)) }
{
    for part in parts {
        push_comma(out)?;
        push_rings(out, part)?;
    }
    Ok(())
}

// The parts with commas between them.
fn push_part_items(out: &mut Vec<u8>, parts: &[Vec<Vec<GridPoint>>]) -> Result<(), NoMemory>
    ensures { OnOk result (out.new.items ≡ out.old.items ++ listed (map rings_text (parts_of parts.now))) }
{
    match parts {
        [] => Ok(()),
        [first, more @ ..] => {
            push_rings(out, first)?;
            push_more_parts(out, more)
        }
    }
}

fn push_parts(out: &mut Vec<u8>, parts: &[Vec<Vec<GridPoint>>]) -> Result<(), NoMemory>
    ensures { OnOk result (out.new.items ≡ out.old.items ++ bracketed (listed (map rings_text (parts_of parts.now)))) }
{
    push_byte(out, b'(')?;
    push_part_items(out, parts)?;
    push_byte(out, b')')
}

// A polygon of one part.
fn push_one_polygon(out: &mut Vec<u8>, rings: &[Vec<GridPoint>]) -> Result<(), NoMemory>
    ensures { OnOk result (out.new.items ≡ out.old.items ++ (codes "POLYGON " ++ rings_text (lists_of rings.now))) }
{
    push_text(out, b"POLYGON ")?;
    push_rings(out, rings)
}

// A polygon of any number of parts but one.
fn push_more_polygons(out: &mut Vec<u8>, parts: &[Vec<Vec<GridPoint>>]) -> Result<(), NoMemory>
    ensures { OnOk result (out.new.items ≡ out.old.items ++ (codes "MULTIPOLYGON " ++ bracketed (listed (map rings_text (parts_of parts.now))))) }
{
    push_text(out, b"MULTIPOLYGON ")?;
    push_parts(out, parts)
}

/// Appends the written form of a polygon of these parts, each ring closed by its first vertex.
pub fn push_polygon(out: &mut Vec<u8>, parts: &[Vec<Vec<GridPoint>>]) -> Result<(), NoMemory>
    ensures { OnOk result (out.new.items ≡ out.old.items ++ written (of_polygons (parts_of parts.now))) }
{
    if parts.len() == 1 {
        push_one_polygon(out, &parts[0])
    } else {
        push_more_polygons(out, parts)
    }
}

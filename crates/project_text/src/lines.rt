ghost use Rattle.std.specs.Prelude.{◌≡◌, ◌++◌, Some, OnOk};
ghost use Rattle.line_terms.specs.Forms.{kind_word};
ghost use Rattle.topology_terms.specs.Lookups.{class_at};
ghost use Rattle.project_terms.specs.Written.{written_subtype};
ghost use Rattle.project_text.specs.Pushed.{side_text, half_text, halves_text, class_text, rule_text, feature_text, dirty_text, error_text, cell_text};

use convex_cell::BorrowedCell;
use error_store::Entry;
use feature_store::Store;
use grid_plane::{Half, NoMemory, Rect};
use rule_core::{InForce, Side};
use shape::{Feature, Kind};
use text_out::{
    extent_word, mark_word, push_byte, push_end, push_field, push_half, push_key, push_number,
    push_rect, push_sided, push_text,
};
use wkt_text::write_wkt;

fn kind_bytes(kind: Kind) -> &'static [u8]
    ensures { result.now ≡ kind_word kind }
{
    match kind {
        Kind::Point => b"point",
        Kind::Line => b"line",
        Kind::Polygon => b"polygon",
    }
}

// A space and the name of the class of this number, and behind a colon the subtype, where there is one; nothing where there is no such
// class.
fn push_class(
    out: &mut Vec<u8>,
    store: &Store,
    class: u16,
    subtype: Option<u8>,
) -> Result<(), NoMemory>
    ensures { OnOk result (out.new.items ≡ out.old.items ++ side_text (class_at store.now.classes class) subtype) }
{
    match store.class_name(class) {
        Some(name) => push_sided(out, name.bytes(), subtype),
        None => Ok(()),
    }
}

fn push_side(out: &mut Vec<u8>, store: &Store, side: &Side) -> Result<(), NoMemory>
    ensures { OnOk result (out.new.items ≡ out.old.items ++ side_text (class_at store.now.classes side.now.class) side.now.subtype) }
{
    push_class(out, store, side.class, side.subtype)
}

// The subtype of a feature as it is written: none where it is 0.
fn written_subtype(subtype: u8) -> Option<u8>
    ensures { result ≡ written_subtype subtype }
{
    if subtype == 0 { None } else { Some(subtype) }
}

fn push_named_class(out: &mut Vec<u8>, name: &[u8], kind: Kind) -> Result<(), NoMemory>
    ensures { OnOk result (out.new.items ≡ out.old.items ++ class_text (Some (record { name = name.now; kind = kind }))) }
{
    push_text(out, b"class")?;
    push_field(out, name)?;
    push_field(out, kind_bytes(kind))?;
    push_end(out)
}

/// Appends the line of the class of this number; nothing where there is none.
pub fn push_class_line(out: &mut Vec<u8>, store: &Store, class: u16) -> Result<(), NoMemory>
    ensures { OnOk result (out.new.items ≡ out.old.items ++ class_text (class_at store.now.classes class)) }
{
    match (store.class_name(class), store.class_kind(class)) {
        (Some(name), Some(kind)) => push_named_class(out, name.bytes(), kind),
        _ => Ok(()),
    }
}

/// Appends the line of a rule in force.
pub fn push_rule_line(out: &mut Vec<u8>, store: &Store, rule: &InForce) -> Result<(), NoMemory>
    ensures { OnOk result (out.new.items ≡ out.old.items ++ rule_text store.now.classes rule.now) }
{
    push_text(out, b"rule")?;
    push_number(out, rule.number)?;
    push_field(out, rule.row.kind.word().as_bytes())?;
    push_side(out, store, &rule.row.origin)?;
    push_side(out, store, &rule.row.dest_side())?;
    push_end(out)
}

/// Appends the line of a feature.
pub fn push_feature_line(
    out: &mut Vec<u8>,
    store: &Store,
    feature: &Feature,
) -> Result<(), NoMemory>
    ensures { OnOk result (out.new.items ≡ out.old.items ++ feature_text store.now.classes feature.now) }
{
    push_text(out, b"feature")?;
    push_number(out, feature.handle())?;
    let subtype = written_subtype(feature.subtype());
    push_class(out, store, feature.class(), subtype)?;
    push_text(out, b" ")?;
    write_wkt(feature.shape(), out)?;
    push_end(out)
}

/// Appends the line of a dirty rectangle.
pub fn push_dirty_line(out: &mut Vec<u8>, r: &Rect) -> Result<(), NoMemory>
    ensures { OnOk result (out.new.items ≡ out.old.items ++ dirty_text r.now) }
{
    push_text(out, b"dirty")?;
    push_rect(out, r)?;
    push_end(out)
}

/// Appends the line of an error, without those of its cells.
pub fn push_error_line(out: &mut Vec<u8>, entry: &Entry) -> Result<(), NoMemory>
    ensures { OnOk result (out.new.items ≡ out.old.items ++ error_text entry.now) }
{
    let key = entry.key();
    push_text(out, mark_word(entry.marked()))?;
    push_key(out, key.rule, key.subject, key.partner_number())?;
    push_field(out, extent_word(entry.extent()))?;
    push_rect(out, &entry.frame())?;
    push_end(out)
}

// The half-plane, with a comma behind it if more follow.
fn push_next_half(out: &mut Vec<u8>, half: &Half, more: bool) -> Result<(), NoMemory>
    ensures { OnOk result (out.new.items ≡ out.old.items ++ half_text half.now more) }
{
    push_half(out, half)?;
    if more { push_byte(out, b',') } else { Ok(()) }
}

fn push_halves(out: &mut Vec<u8>, cell: &BorrowedCell<'_>) -> Result<(), NoMemory>
    ensures { OnOk result (out.new.items ≡ out.old.items ++ halves_text cell.now) }
{
    for i in 0..cell.len() {
        push_next_half(out, &cell.half(i), i + 1 < cell.len())?;
    }
    Ok(())
}

/// Appends the line of a cell.
pub fn push_cell_line(out: &mut Vec<u8>, cell: &BorrowedCell<'_>) -> Result<(), NoMemory>
    ensures { OnOk result (out.new.items ≡ out.old.items ++ cell_text cell.now) }
{
    push_text(out, b"cell")?;
    push_halves(out, cell)?;
    push_end(out)
}

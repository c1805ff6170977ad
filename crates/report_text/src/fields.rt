ghost use Rattle.std.specs.Prelude.{◌≡◌, ◌++◌, ◌∷◌, [], OnOk};
ghost use Rattle.script_terms.specs.Report.{rule_word, report_fields};
ghost use Rattle.csv.specs.Records.{fields_of, partial_of};
ghost use Rattle.report_text.specs.Tables.{key_fields, frame_fields};

use csv::ByteRecord;
use error_store::Entry;
use grid_plane::{NoMemory, Rect};
use itoa::{Buffer, Integer};
use rule_core::InForce;
use text_out::{extent_word, mark_word};

fn push_field(row: &mut ByteRecord, field: &[u8]) -> Result<(), NoMemory>
    requires { partial_of row.old ≡ [] }
    ensures fields { OnOk result (fields_of row.new ≡ fields_of row.old ++ field.now ∷ []) }
    ensures whole { OnOk result (partial_of row.new ≡ []) }
{
    row.push_field(field)?;
    Ok(())
}

fn push_number<N: Integer>(row: &mut ByteRecord, number: N) -> Result<(), NoMemory>
    requires { partial_of row.old ≡ [] }
    ensures fields { OnOk result (fields_of row.new ≡ fields_of row.old ++ N.text number ∷ []) }
    ensures whole { OnOk result (partial_of row.new ≡ []) }
{
    let mut buffer = Buffer::new();
    push_field(row, buffer.format(number).as_bytes())
}

// The word of the rule of this number; nothing where there is none.
#[tactic(auto, unfolding(topology_terms::specs::Project::rule_at))]
fn word_of_rule(rules: &[InForce], number: u16) -> &'static str
    ensures { result.now ≡ rule_word rules.now number }
{
    for rule in rules {
        if rule.number == number {
            return rule.row.kind.word();
        }
    }
    ""
}

// Rule, word, subject and partner.
fn push_key(row: &mut ByteRecord, rules: &[InForce], entry: &Entry) -> Result<(), NoMemory>
    requires { partial_of row.old ≡ [] }
    ensures fields { OnOk result (fields_of row.new ≡ fields_of row.old ++ key_fields rules.now entry.now) }
    ensures whole { OnOk result (partial_of row.new ≡ []) }
{
    let key = entry.key();
    push_number(row, key.rule)?;
    push_field(row, word_of_rule(rules, key.rule).as_bytes())?;
    push_number(row, key.subject)?;
    push_number(row, key.partner_number())
}

// Least corner, then greatest corner, in grid units.
fn push_frame(row: &mut ByteRecord, frame: &Rect) -> Result<(), NoMemory>
    requires { partial_of row.old ≡ [] }
    ensures fields { OnOk result (fields_of row.new ≡ fields_of row.old ++ frame_fields frame.now) }
    ensures whole { OnOk result (partial_of row.new ≡ []) }
{
    push_number(row, frame.x0())?;
    push_number(row, frame.y0())?;
    push_number(row, frame.x1())?;
    push_number(row, frame.y1())
}

/// Puts the ten fields of the error into the record, in place of what it had.
pub fn set_entry(row: &mut ByteRecord, rules: &[InForce], entry: &Entry) -> Result<(), NoMemory>
    ensures { OnOk result (fields_of row.new ≡ report_fields rules.now entry.now) }
{
    row.clear();
    push_key(row, rules, entry)?;
    push_field(row, extent_word(entry.extent()))?;
    push_field(row, mark_word(entry.marked()))?;
    push_frame(row, &entry.frame())
}

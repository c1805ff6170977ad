ghost use Rattle.std.specs.Prelude.{◌≡◌, ◌++◌, IfOk, OnOk, OnErr};
ghost use Rattle.script_terms.specs.Report.{report_of};

use crate::rows::write_report;
use csv::{Terminator, WriterBuilder};
use error_store::Errors;
use grid_plane::NoMemory;
use rule_core::InForce;
use std::alloc::Global;

fn report_bytes(alloc: Global, rules: &[InForce], errors: &Errors) -> Result<Vec<u8>, NoMemory>
    ensures { IfOk result (λ text. text.items ≡ report_of rules.now errors.now) }
{
    let mut writer = WriterBuilder::new()
        .terminator(Terminator::Any(b'\n'))
        .from_writer(Vec::new(alloc));
    write_report(&mut writer, alloc, rules, errors)?;
    match writer.into_inner() {
        Ok(text) => Ok(text),
        Err(_) => Err(NoMemory),
    }
}

/// Appends the report of the errors: the header, and one record an error in the order of their keys, each with one LF at its
/// end. The rules give each error the word of its rule. If memory runs out, nothing is appended.
pub fn push_report(
    alloc: Global,
    out: &mut Vec<u8>,
    rules: &[InForce],
    errors: &Errors,
) -> Result<(), NoMemory>
    ensures text { OnOk result (out.new.items ≡ out.old.items ++ report_of rules.now errors.now) }
    ensures err { OnErr result (out.new.items ≡ out.old.items) }
{
    let text = report_bytes(alloc, rules, errors)?;
    out.extend_from_slice(&text)?;
    Ok(())
}

ghost use Rattle.std.specs.Prelude.{◌≡◌, ◌++◌, flat_map, IfOk, OnOk};
ghost use Rattle.std.specs.Io.KnownBytes.{Appends};
ghost use Rattle.csv.specs.Records.{fields_of};
ghost use Rattle.csv.specs.Writing.{text_written};
ghost use Rattle.script_terms.specs.Report.{report_header, report_line, report_of};
ghost use Rattle.report_text.specs.Tables.{IsReady, IsPlainRow, line_of, header_fields};

use crate::fields::set_entry;
use csv::{ByteRecord, Writer};
use error_store::{Entry, Errors};
use grid_plane::NoMemory;
use rule_core::InForce;
use std::alloc::Global;
use std::io::Write;

// A record of fields that need no quotes. The one refusal that a writer into memory has left is out of memory.
fn write_row<W: Write + Drop>(writer: &mut Writer<W>, row: &ByteRecord) -> Result<(), NoMemory>
    requires ready { IsReady writer.old }
    requires plain { IsPlainRow (fields_of row.now) }
    ensures ready { OnOk result (IsReady writer.new) }
    ensures text { OnOk result (Appends (text_written W.contents writer.old) (text_written W.contents writer.new) (line_of (fields_of row.now))) }
{
    match writer.write_byte_record(row) {
        Ok(()) => Ok(()),
        Err(_) => Err(NoMemory),
    }
}

// The names of the fields.
fn header(alloc: Global) -> Result<ByteRecord, NoMemory>
    ensures { IfOk result (λ row. fields_of row ≡ header_fields) }
{
    let names = [
        "rule".as_bytes(),
        "kind".as_bytes(),
        "subject".as_bytes(),
        "other".as_bytes(),
        "extent".as_bytes(),
        "mark".as_bytes(),
        "x0".as_bytes(),
        "y0".as_bytes(),
        "x1".as_bytes(),
        "y1".as_bytes(),
    ];
    Ok(ByteRecord::from_fields(alloc, &names)?)
}

fn write_header<W: Write + Drop>(writer: &mut Writer<W>, alloc: Global) -> Result<(), NoMemory>
    requires { IsReady writer.old }
    ensures ready { OnOk result (IsReady writer.new) }
    ensures text { OnOk result (Appends (text_written W.contents writer.old) (text_written W.contents writer.new) report_header) }
{
    let names = header(alloc)?;
    write_row(writer, &names)?;
    Ok(())
}

// A record for each error of a run. What the record had before is lost.
fn write_run<W: Write + Drop>(
    writer: &mut Writer<W>,
    row: &mut ByteRecord,
    rules: &[InForce],
    entries: &[Entry],
) -> Result<(), NoMemory>
    requires { IsReady writer.old }
    ensures ready { OnOk result (IsReady writer.new) }
    ensures text { OnOk result (Appends (text_written W.contents writer.old) (text_written W.contents writer.new) (flat_map (report_line rules.now) entries.now)) }
{
    for entry in entries {
        set_entry(row, rules, entry)?;
        write_row(writer, row)?;
    }
    Ok(())
}

// A record for each error.
fn write_entries<W: Write + Drop>(
    writer: &mut Writer<W>,
    alloc: Global,
    rules: &[InForce],
    errors: &Errors,
) -> Result<(), NoMemory>
    requires { IsReady writer.old }
    ensures { OnOk result (Appends (text_written W.contents writer.old) (text_written W.contents writer.new) (flat_map (report_line rules.now) errors.now)) }
{
    let mut row = ByteRecord::new(alloc);
    for run in errors.by_pair().values() {
        write_run(writer, &mut row, rules, run)?;
    }
    Ok(())
}

/// Writes the header, and a record for each error.
pub fn write_report<W: Write + Drop>(
    writer: &mut Writer<W>,
    alloc: Global,
    rules: &[InForce],
    errors: &Errors,
) -> Result<(), NoMemory>
    requires { IsReady writer.old }
    ensures { OnOk result (Appends (text_written W.contents writer.old) (text_written W.contents writer.new) (report_of rules.now errors.now)) }
{
    write_header(writer, alloc)?;
    write_entries(writer, alloc, rules, errors)?;
    Ok(())
}

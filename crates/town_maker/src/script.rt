ghost use Rattle.std.specs.Prelude.{◌≡◌, ◌≤◌, ◌++◌, IfOk, OnOk};
ghost use Rattle.text_terms.specs.Wkt.{◌⧺◌};
ghost use Rattle.town_terms.specs.Town.{each_below, head_text, validate_all, late_line, window_line, town_text};

use crate::rows::{push_late_addresses, push_rows};
use crate::town::Town;
use grid_plane::NoMemory;
use std::alloc::Global;
use text_out::{push_end, push_pair, push_text};

const CLASSES: &[u8] = b"\
class parcels polygon
class addresses point
class roads line
";

const RULES: &[u8] = b"\
rule polygon_must_not_overlap parcels
rule polygon_must_not_have_gaps parcels
rule polygon_contains_point parcels addresses
rule point_must_be_disjoint addresses
rule line_must_not_have_dangles roads
";

// Three classes, five rules, and the session.
fn push_head(out: &mut Vec<u8>) -> Result<(), NoMemory>
    ensures { OnOk result (out.new.items ≡ out.old.items ++ head_text) }
{
    push_text(out, CLASSES)?;
    push_text(out, RULES)?;
    push_text(out, b"begin maker\n")
}

// Validates the lower half of the rows.
fn push_window(out: &mut Vec<u8>, rows: u64) -> Result<(), NoMemory>
    requires { rows ≤ 60 }
    ensures { OnOk result (out.new.items ≡ out.old.items ++ window_line rows) }
{
    push_text(out, b"validate 0 0 ")?;
    push_pair(out, 100 * rows, 100 * (rows / 2))?;
    push_end(out)
}

// The first validation, the addresses that come late, the second validation.
fn push_validations(out: &mut Vec<u8>, town: &Town) -> Result<(), NoMemory>
    ensures { OnOk result (out.new.items ≡ out.old.items ++ (validate_all ⧺ each_below town.now.rows (late_line town.now.seed town.now.rows) ⧺ window_line town.now.rows)) }
{
    push_text(out, b"validate all\n")?;
    push_late_addresses(out, town)?;
    push_window(out, town.rows)
}

fn push_script(out: &mut Vec<u8>, town: &Town) -> Result<(), NoMemory>
    ensures { OnOk result (out.new.items ≡ out.old.items ++ town_text town.now.seed town.now.rows) }
{
    push_head(out)?;
    push_rows(out, town)?;
    push_validations(out, town)
}

/// The script of the made town of this seed: `n` rows of `n` parcels with their addresses and roads, all validated; then the addresses
/// that come late, and the lower half validated. The same seed gives the same script.
pub fn town_script(alloc: Global, seed: u64, n: u32) -> Result<Vec<u8>, NoMemory>
    requires some { 1 ≤ n }
    requires few { n ≤ 60 }
    ensures { IfOk result (λ script. script.items ≡ town_text seed n) }
{
    let town = Town::new(alloc, seed, n)?;
    let mut script = Vec::new(alloc);
    push_script(&mut script, &town)?;
    Ok(script)
}

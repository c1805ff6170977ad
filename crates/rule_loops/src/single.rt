ghost use Rattle.std.specs.Prelude.{◌≡◌, ◌<◌, [], ◌++◌, IfOk, OnOk, if◌then◌else◌};
ghost use Rattle.std.specs.Option.{option_map_or};
ghost use Rattle.std.specs.NonZero.{non_zero_u32_get};
ghost use Rattle.plane_terms.specs.Lists.{Every};
ghost use Rattle.topology_terms.specs.Meaning as terms;
ghost use Rattle.topology_terms.specs.Plans as plans;

use convex_cell::Cells;
use grid_plane::NoMemory;
use rule_core::{Finding, Findings};
use std::alloc::Global;
use std::num::NonZeroU32;
use topology_terms::Extent;

// Puts a finding of these cells last, where there are any.
fn push_finding(
    findings: &mut Findings,
    other: Option<NonZeroU32>,
    cells: Cells,
) -> Result<(), NoMemory>
    requires { Every (λ (x : terms.Finding). x.other < option_map_or non_zero_u32_get other 0) findings.old }
    ensures { OnOk result (findings.new ≡ findings.old ++ plans.finding_of (option_map_or non_zero_u32_get other 0) cells) }
{
    if cells.len() == 0 {
        return Ok(());
    }
    findings.push(Finding {
        other,
        extent: Extent::Cells,
        cells,
    })
}

/// Puts a finding of these cells last, where there are any. The partner's handle is above those of the findings before.
pub fn push_cells(findings: &mut Findings, handle: u32, cells: Cells) -> Result<(), NoMemory>
    requires { Every (λ (x : terms.Finding). x.other < handle) findings.old }
    ensures { OnOk result (findings.new ≡ findings.old ++ plans.finding_of handle cells) }
{
    push_finding(findings, NonZeroU32::new(handle), cells)
}

/// One finding without a partner, of these cells; none where there are none.
pub fn found(alloc: Global, cells: Cells) -> Result<Findings, NoMemory>
    ensures { IfOk result (λ xs. xs ≡ plans.finding_of 0 cells) }
{
    let mut findings = Findings::new(alloc);
    push_finding(&mut findings, None, cells)?;
    Ok(findings)
}

/// One finding of the whole subject, without a partner, where the rule is broken; none where it is not.
pub fn whole_finding(alloc: Global, broken: bool) -> Result<Findings, NoMemory>
    ensures { IfOk result (λ xs. xs ≡ if broken then plans.whole_finding else []) }
{
    let mut findings = Findings::new(alloc);
    if broken {
        findings.push(Finding {
            other: None,
            extent: Extent::Whole,
            cells: Cells::new(alloc),
        })?;
    }
    Ok(findings)
}

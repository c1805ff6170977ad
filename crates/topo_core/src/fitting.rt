ghost use Rattle.std.specs.Prelude.{◌≡◌, None, true, false, IfOk, IfErr, OnOk, OnErr};
ghost use Rattle.rule_words.specs.Table.{dest_of};
ghost use Rattle.topology_terms.specs.Causes.{fit_cause, lacks_dest, fits_dest};
ghost use Rattle.topo_core.specs.Faults.{IsFitFault};
ghost use Rattle.topo_core.specs.declared.rule_fault.RuleFault.TheVariants as fault;

use crate::rule_fault::RuleFault;
use feature_store::Store;
use rule_core::RuleRow;

// Whether the second side serves the rule; or, where the rule takes none, whether none is given.
fn does_dest_fit(store: &Store, row: &RuleRow) -> Result<bool, RuleFault>
    ensures fit { IfOk result (λ b. b ≡ fits_dest store.now.classes row.now (dest_of row.now.kind)) }
    ensures there { OnOk result (lacks_dest store.now.classes row.now (dest_of row.now.kind) ≡ false) }
    ensures missing { OnErr result (lacks_dest store.now.classes row.now (dest_of row.now.kind) ≡ true) }
    ensures err { IfErr result (λ e. e ≡ fault.NoClass) }
{
    let Some(kind) = row.kind.dest() else {
        return Ok(!row.has_dest());
    };
    let side = row.dest_side();
    let dest = store.class_kind(side.class).ok_or(RuleFault::NoClass)?;
    Ok(dest == kind && side.is_apart(&row.origin))
}

/// Whether the classes are there and the sides fit the rule.
pub fn fit(store: &Store, row: &RuleRow) -> Result<(), RuleFault>
    ensures ok { OnOk result (fit_cause store.now.classes row.now ≡ None) }
    ensures err { IfErr result (IsFitFault store.now.classes row.now) }
{
    let origin = store
        .class_kind(row.origin.class)
        .ok_or(RuleFault::NoClass)?;
    let apart = does_dest_fit(store, row)?;
    if origin != row.kind.origin() || !apart {
        return Err(RuleFault::Unfit);
    }
    Ok(())
}

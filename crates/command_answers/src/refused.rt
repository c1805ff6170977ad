ghost use Rattle.std.specs.Prelude.{◌≡◌, None, Err, IfOk, OnErr, MatchResult};
ghost use Rattle.topology_terms.specs.Project.{Project};
ghost use Rattle.script_terms.specs.Refusal.{Change};
ghost use Rattle.script_terms.specs.Reply as replies;
ghost use Rattle.script_terms.specs.Reply.{Done, Number, Posted, Refused};
ghost use Rattle.version_tree.specs.declared.fault.TreeFault.{TreeFault};
ghost use Rattle.error_store.specs.Marking.{fault_cause};
ghost use Rattle.feature_store.specs.Faults.{store_cause};
ghost use Rattle.topo_core.specs.Faults.{edit_cause, row_cause};
ghost use Rattle.topo_core.specs.declared.fault.ChangeFault.{ChangeFault};
ghost use Rattle.reply_text.specs.Replies.{said_of};
ghost use Rattle.edit_session.specs.declared.fault.SessionFault.{SessionFault};
ghost use Rattle.command_answers.specs.Refusals.{SaysCause, SaysRefusal, session_refusal, tree_refusal};

use edit_session::SessionFault;
use feature_store::StoreFault;
use grid_plane::NoMemory;
use reply_text::{Refusal, Reply};
use topo_core::{ChangeFault, MarkFault, RuleFault};
use topology_terms::Cause;
use version_tree::{Merged, TreeFault};

// What is answered where the topology was not changed: its cause; and out of memory where a call told none.
fn refused(cause: Option<Cause>) -> Result<Reply, NoMemory>
    ensures { IfOk result (SaysCause cause) }
{
    match cause {
        Some(cause) => Ok(Reply::Refused(Refusal::Change(cause))),
        None => Err(NoMemory),
    }
}

// What is answered where no class was added.
fn refused_class(fault: StoreFault) -> Result<Reply, NoMemory>
    ensures { IfOk result (SaysCause (store_cause fault)) }
{
    refused(fault.cause())
}

// What is answered where no feature was added, changed or deleted.
fn refused_change(fault: ChangeFault) -> Result<Reply, NoMemory>
    ensures { IfOk result (SaysCause (edit_cause fault)) }
{
    refused(fault.cause())
}

// What is answered where no rule was put in force.
fn refused_rule(fault: RuleFault) -> Result<Reply, NoMemory>
    ensures { IfOk result (SaysCause (row_cause fault)) }
{
    refused(fault.cause())
}

/// What is answered to a class that was added, or to why none was.
pub fn reply_to_class(added: Result<u16, StoreFault>) -> Result<Reply, NoMemory>
    ensures spent { OnErr result ((e : StoreFault) × (added ≡ Err e)) }
    ensures said { IfOk result (λ r. MatchResult added (λ n. (p : Project) → said_of p r ≡ Number n) (λ e. SaysCause (store_cause e) r)) }
{
    match added {
        Ok(number) => Ok(Reply::Number(u32::from(number))),
        Err(fault) => refused_class(fault),
    }
}

/// What is answered to a feature that was added, or to why none was.
pub fn reply_to_add(added: Result<u32, ChangeFault>) -> Result<Reply, NoMemory>
    ensures spent { OnErr result ((e : ChangeFault) × (added ≡ Err e)) }
    ensures said { IfOk result (λ r. MatchResult added (λ h. (p : Project) → said_of p r ≡ Number h) (λ e. SaysCause (edit_cause e) r)) }
{
    match added {
        Ok(handle) => Ok(Reply::Number(handle)),
        Err(fault) => refused_change(fault),
    }
}

/// What is answered to a feature that was changed or deleted, or to why none was.
pub fn reply_to_change(changed: Result<(), ChangeFault>) -> Result<Reply, NoMemory>
    ensures spent { OnErr result ((e : ChangeFault) × (changed ≡ Err e)) }
    ensures said { IfOk result (λ r. MatchResult changed (λ f. (p : Project) → said_of p r ≡ Done) (λ e. SaysCause (edit_cause e) r)) }
{
    match changed {
        Ok(_) => Ok(Reply::Done),
        Err(fault) => refused_change(fault),
    }
}

/// What is answered to a rule that was put in force, or to why none was.
pub fn reply_to_rule(added: Result<u16, RuleFault>) -> Result<Reply, NoMemory>
    ensures spent { OnErr result ((e : RuleFault) × (added ≡ Err e)) }
    ensures said { IfOk result (λ r. MatchResult added (λ n. (p : Project) → said_of p r ≡ Number n) (λ e. SaysCause (row_cause e) r)) }
{
    match added {
        Ok(number) => Ok(Reply::Number(u32::from(number))),
        Err(fault) => refused_rule(fault),
    }
}

/// What is answered to a mark that was set or taken away, or to why it was not.
pub fn reply_to_mark(marked: Result<(), MarkFault>) -> Reply
    ensures { MatchResult marked (λ u. (p : Project) → said_of p result ≡ Done) (λ e. (p : Project) → said_of p result ≡ Refused (Change (fault_cause e))) }
{
    match marked {
        Ok(()) => Reply::Done,
        Err(fault) => Reply::Refused(Refusal::Change(fault.cause())),
    }
}

/// What is answered where a session has begun, has ended or has taken a step, or why not.
pub fn reply_to_session(done: Result<(), SessionFault>) -> Result<Reply, NoMemory>
    ensures spent { OnErr result ((e : SessionFault) × (done ≡ Err e)) }
    ensures said { IfOk result (λ r. MatchResult done (λ u. (p : Project) → said_of p r ≡ Done) (λ e. SaysRefusal (session_refusal e) r)) }
{
    match done {
        Ok(()) => Ok(Reply::Done),
        Err(fault) => refused_session(fault),
    }
}

// What is answered where no session has begun or ended, and no step was undone or done again.
fn refused_session(fault: SessionFault) -> Result<Reply, NoMemory>
    ensures { IfOk result (SaysRefusal (session_refusal fault)) }
{
    match fault {
        SessionFault::OpenAlready => Ok(Reply::Refused(Refusal::SessionOpen)),
        SessionFault::SessionsFull => Ok(Reply::Refused(Refusal::SessionsFull)),
        SessionFault::NoSession => Ok(Reply::Refused(Refusal::NoSession)),
        SessionFault::NothingToUndo => Ok(Reply::Refused(Refusal::NothingToUndo)),
        SessionFault::NothingToRedo => Ok(Reply::Refused(Refusal::NothingToRedo)),
        SessionFault::NoMemory => Err(NoMemory),
    }
}

// What is answered where no version was made, chosen, reconciled or posted.
fn refused_version(fault: TreeFault) -> Result<Reply, NoMemory>
    ensures { IfOk result (SaysRefusal (tree_refusal fault)) }
{
    match fault {
        TreeFault::Taken => Ok(Reply::Refused(Refusal::VersionTaken)),
        TreeFault::Full => Ok(Reply::Refused(Refusal::VersionsFull)),
        TreeFault::NoVersion => Ok(Reply::Refused(Refusal::NoVersion)),
        TreeFault::Stale { handle } => Ok(Reply::Refused(Refusal::Stale(handle))),
        TreeFault::NoMemory => Err(NoMemory),
    }
}

/// What is answered where a version was made or gone into, or why not.
pub fn reply_to_version(done: Result<(), TreeFault>) -> Result<Reply, NoMemory>
    ensures spent { OnErr result ((e : TreeFault) × (done ≡ Err e)) }
    ensures said { IfOk result (λ r. MatchResult done (λ u. (p : Project) → said_of p r ≡ Done) (λ e. SaysRefusal (tree_refusal e) r)) }
{
    match done {
        Ok(()) => Ok(Reply::Done),
        Err(fault) => refused_version(fault),
    }
}

/// What is answered where a version was reconciled, or why not.
pub fn reply_to_merge(done: Result<Merged, TreeFault>) -> Result<Reply, NoMemory>
    ensures { IfOk result (λ r. MatchResult done (λ m. (p : Project) → said_of p r ≡ replies.Merged m.conflicts m.taken) (λ e. SaysRefusal (tree_refusal e) r)) }
{
    match done {
        Ok(merged) => Ok(Reply::Merged(merged.conflicts, merged.taken)),
        Err(fault) => refused_version(fault),
    }
}

/// What is answered where a version was posted, or why not.
pub fn reply_to_post(done: Result<usize, TreeFault>) -> Result<Reply, NoMemory>
    ensures { IfOk result (λ r. MatchResult done (λ n. (p : Project) → said_of p r ≡ Posted n) (λ e. SaysRefusal (tree_refusal e) r)) }
{
    match done {
        Ok(number) => Ok(Reply::Posted(number)),
        Err(fault) => refused_version(fault),
    }
}

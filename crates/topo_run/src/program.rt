ghost use Rattle.std.specs.Prelude.{◌≡◌, ◌≢◌, ◌≤◌, ◌⊎◌, ℕ, List, codes};
ghost use Rattle.outside_terms.specs.Shelves.{KeepsHeld};
ghost use Rattle.script_terms.specs.Ends.{EndsAs, EndsAsUsage, IsComplete, IsReplay};
ghost use Rattle.town_terms.specs.Ends.{EndsAsTown, IsTownComplete};
ghost use Rattle.town_terms.specs.Request.{IsTownRequest};
ghost use Rattle.opening_terms.specs.Words.{IsReplayOf, IsReplayTo, IsCheckOf, IsReportOf};
ghost use Rattle.opening_terms.specs.Opening.{IsOpeningComplete};
ghost use Rattle.opening_terms.specs.Checking.{EndsAsCheck, IsCheckComplete};
ghost use Rattle.opening_terms.specs.Reporting.{EndsAsReport, IsReportComplete};
ghost use Rattle.opening_terms.specs.Replaying.{EndsAsReplayOf, IsReplayOfComplete};
ghost use Rattle.opening_terms.specs.Saving.{EndsAsReplayTo, IsReplayToComplete};
ghost use Rattle.topo_run.specs.Asked.{IsFit, EndsAsAsked, UnlessReplay, UnlessNamed, UnlessSaved};
ghost use Rattle.opening_terms.specs.Passed.{bytes_of, passed, visited, HasStatus, IfNoTarget, IfNoReplayed, IfNoProject};
ghost use Rattle.topo_run.specs.Unopened.{IfUnopened};

use crate::check::check;
use crate::replay::{replay, replay_of};
use crate::report::report;
use crate::save::replay_to;
use crate::status::code_of;
use crate::town::town;
use crate::words::{Words, words_of};
use crate::write::say;
use outside_terms::Status;
use std::alloc::Global;
use topo_outside::{Shelf, Sink, Source};

/// The line that is written where the words are none that the program knows.
pub const USAGE: &str =
    "usage: topo replay [PROJECT [TARGET]] | check PROJECT | report PROJECT | town SEED N\n";

fn say_usage<K: Sink>(sink: &mut K) -> Status
    ensures usage { EndsAsUsage (passed K.written K.faults sink.old sink.new) result }
    ensures later { K.faults sink.old ≤ K.faults sink.new }
{
    say(sink, USAGE.as_bytes(), Status::Usage)
}

// Does what is asked for.
#[tactic(auto, using(crate::proofs::Shelved::stays))]
fn act<S: Source, K: Sink, H: Shelf>(
    alloc: Global,
    words: Words<'_>,
    source: &mut S,
    sink: &mut K,
    shelf: &mut H,
) -> Status
    requires { IsFit words }
    ensures ends { EndsAsAsked words.entry
        (passed S.left S.faults source.old source.new)
        (visited H.held H.faults shelf.old shelf.new)
        (passed K.written K.faults sink.old sink.new)
        result }
    ensures unread { UnlessReplay words.entry (source.new ≡ source.old) }
    ensures untouched { UnlessNamed words.entry (shelf.new ≡ shelf.old) }
    ensures kept { UnlessSaved words.entry (KeepsHeld (H.held shelf.old) (H.held shelf.new)) }
    ensures unopened { IfUnopened result (source.new ≡ source.old) }
    ensures counts { (S.faults source.old ≤ S.faults source.new) × (K.faults sink.old ≤ K.faults sink.new) × (H.faults shelf.old ≤ H.faults shelf.new) }
{
    match words {
        Words::Replay => replay(alloc, source, sink),
        Words::ReplayOf(project) => replay_of(alloc, project, source, sink, shelf),
        Words::ReplayTo(project, target) => {
            replay_to(alloc, project, target, source, sink, shelf)
        }
        Words::Check(project) => check(alloc, project, sink, shelf),
        Words::Report(project) => report(alloc, project, sink, shelf),
        Words::Town(request) => town(alloc, request, sink),
        Words::Unknown => say_usage(sink),
    }
}

/// Does all that the program does, and gives its exit status.
///
/// `words` are those after the program's name. `replay` reads the script of `source` in pieces, answers each of its lines from
/// the empty topology and writes the replies to `sink`, those to a piece before it reads the next; `replay PROJECT` does so from
/// the project that the shelf holds under this name, or from the empty one where it is `-`, and `replay PROJECT TARGET` then puts
/// the project at the end under the name TARGET. `check PROJECT` writes whether the project is sound, and `report PROJECT` its
/// errors as a table. `town SEED N` runs the script of the made town and writes its summary; other words have the usage line
/// written.
///
/// The clause `replay` says of each status what was read and written: the replies of a run over the lines read, in every state of
/// which the topology is sound and settled, the headline holds, and with no dirt the errors are those of a validation from
/// scratch. The clauses `replay_of` and `replay_to` say the same of a run from a project: the headline holds in its states where
/// the project is sound, and the rest where it is settled too; and what is saved is the text of the last state, sound and settled
/// where the start was. Where no project was opened, they say why and what was written, as `check` and `report` do. The clauses
/// with `complete` and `opening` say that with no fault counted, a source and a shelf that tell what they have, and a script within
/// its limit, nothing but running out of memory stands between what was asked for and its answer. The clauses `town` and
/// `town_complete` say this of the made town's script and its summary. The shelf holds what it held unless a TARGET is named
/// (`kept`), and is left as it was unless a project is named (`shelf`). What it held when it returns is left to the system: go on
/// after a replay with `Replayer`.
pub fn run<S: Source, K: Sink, H: Shelf>(
    alloc: Global,
    words: &Vec<String>,
    source: &mut S,
    sink: &mut K,
    shelf: &mut H,
) -> u8
    ensures replay { IsReplay words.now.items
        → HasStatus result (EndsAs (passed S.left S.faults source.old source.new) (passed K.written K.faults sink.old sink.new)) }
    ensures complete { IsReplay words.now.items
        → IsComplete (passed S.left S.faults source.old source.new) (passed K.written K.faults sink.old sink.new) result }
    ensures town { (seed n : ℕ) → IsTownRequest (bytes_of words.now.items) seed n
        → HasStatus result (EndsAsTown seed n (passed K.written K.faults sink.old sink.new)) }
    ensures town_complete { (seed n : ℕ) → IsTownRequest (bytes_of words.now.items) seed n
        → IsTownComplete seed n (passed K.written K.faults sink.old sink.new) result }
    ensures replay_of { (project : List ℕ) → IsReplayOf (bytes_of words.now.items) project
        → HasStatus result (EndsAsReplayOf project (passed S.left S.faults source.old source.new)
        (visited H.held H.faults shelf.old shelf.new) (passed K.written K.faults sink.old sink.new)) }
    ensures replay_of_complete { (project : List ℕ) → IsReplayOf (bytes_of words.now.items) project
        → IsReplayOfComplete project (passed S.left S.faults source.old source.new)
        (visited H.held H.faults shelf.old shelf.new) (passed K.written K.faults sink.old sink.new) result }
    ensures replay_of_opening { (project : List ℕ) → IsReplayOf (bytes_of words.now.items) project → project ≢ codes "-"
        → IsOpeningComplete project (visited H.held H.faults shelf.old shelf.new) (passed K.written K.faults sink.old sink.new) result }
    ensures replay_to { (project target : List ℕ) → IsReplayTo (bytes_of words.now.items) project target
        → HasStatus result (EndsAsReplayTo project target (passed S.left S.faults source.old source.new)
        (visited H.held H.faults shelf.old shelf.new) (passed K.written K.faults sink.old sink.new)) }
    ensures replay_to_complete { (project target : List ℕ) → IsReplayTo (bytes_of words.now.items) project target
        → IsReplayToComplete project target (passed S.left S.faults source.old source.new)
        (visited H.held H.faults shelf.old shelf.new) (passed K.written K.faults sink.old sink.new) result }
    ensures replay_to_opening { (project target : List ℕ) → IsReplayTo (bytes_of words.now.items) project target → project ≢ codes "-"
        → IsOpeningComplete project (visited H.held H.faults shelf.old shelf.new) (passed K.written K.faults sink.old sink.new) result }
    ensures check { (project : List ℕ) → IsCheckOf (bytes_of words.now.items) project
        → HasStatus result (EndsAsCheck project (visited H.held H.faults shelf.old shelf.new) (passed K.written K.faults sink.old sink.new)) }
    ensures check_complete { (project : List ℕ) → IsCheckOf (bytes_of words.now.items) project
        → IsCheckComplete project (visited H.held H.faults shelf.old shelf.new) (passed K.written K.faults sink.old sink.new) result }
    ensures check_opening { (project : List ℕ) → IsCheckOf (bytes_of words.now.items) project
        → IsOpeningComplete project (visited H.held H.faults shelf.old shelf.new) (passed K.written K.faults sink.old sink.new) result }
    ensures report { (project : List ℕ) → IsReportOf (bytes_of words.now.items) project
        → HasStatus result (EndsAsReport project (visited H.held H.faults shelf.old shelf.new) (passed K.written K.faults sink.old sink.new)) }
    ensures report_complete { (project : List ℕ) → IsReportOf (bytes_of words.now.items) project
        → IsReportComplete project (visited H.held H.faults shelf.old shelf.new) (passed K.written K.faults sink.old sink.new) result }
    ensures report_opening { (project : List ℕ) → IsReportOf (bytes_of words.now.items) project
        → IsOpeningComplete project (visited H.held H.faults shelf.old shelf.new) (passed K.written K.faults sink.old sink.new) result }
    ensures usage { ¬ (IsReplay words.now.items)
        → ((project : List ℕ) → ¬ (IsReplayOf (bytes_of words.now.items) project))
        → ((project target : List ℕ) → ¬ (IsReplayTo (bytes_of words.now.items) project target))
        → ((project : List ℕ) → ¬ (IsCheckOf (bytes_of words.now.items) project))
        → ((project : List ℕ) → ¬ (IsReportOf (bytes_of words.now.items) project))
        → ((seed n : ℕ) → ¬ (IsTownRequest (bytes_of words.now.items) seed n))
        → HasStatus result (EndsAsUsage (passed K.written K.faults sink.old sink.new)) }
    ensures unread { ¬ (IsReplay words.now.items) → IfNoReplayed (bytes_of words.now.items) (source.new ≡ source.old) }
    ensures unopened { (result ≡ 6) ⊎ ((result ≡ 7) ⊎ (result ≡ 11)) → source.new ≡ source.old }
    ensures counts { (S.faults source.old ≤ S.faults source.new) × (K.faults sink.old ≤ K.faults sink.new) }
    ensures shelf_count { H.faults shelf.old ≤ H.faults shelf.new }
    ensures shelf { IfNoProject (bytes_of words.now.items) (shelf.new ≡ shelf.old) }
    ensures kept { IfNoTarget (bytes_of words.now.items) (KeepsHeld (H.held shelf.old) (H.held shelf.new)) }
{
    code_of(act(alloc, words_of(words), source, sink, shelf))
}

ghost use Rattle.std.specs.Prelude.{◌≡◌, ◌++◌, List, ℕ, IfOk};
ghost use Rattle.topology_terms.specs.Project.{Project};
ghost use Rattle.script_terms.specs.Run.{Step};
ghost use Rattle.script_terms.specs.Run as run;
ghost use Rattle.reply_text.specs.Replies.{said_of};
ghost use Rattle.topo_run.specs.Told.{Keeps, IsReplyTo};

use command_answers::{Refusal, Reply, World};
use grid_plane::NoMemory;
use reply_text::push_reply;
use script_text::{LineFault, read_line};
use std::alloc::Global;

/// Whether the reply is a refusal.
pub fn is_refusal(reply: &Reply) -> bool
    ensures { (p : Project) → result ≡ run.is_refusal (said_of p reply.now) }
{
    matches!(reply, Reply::Refused(_))
}

/// Answers a line: the reply, said of the state after it. A blank line and one that begins with `#` are answered nothing.
pub fn reply_to(alloc: Global, world: &mut World, line: &[u8]) -> Result<Reply, NoMemory>
    ensures { IfOk result (λ reply. IsReplyTo world.old line.now reply world.new) }
{
    world.headline_law();
    match read_line(alloc, line) {
        Ok(command) => {
            let reply = world.answer(command)?;
            world.headline_law();
            Ok(reply)
        }
        Err(LineFault::Refused(refusal)) => Ok(Reply::Refused(Refusal::Line(refusal))),
        Err(LineFault::NoMemory) => Err(NoMemory),
    }
}

/// Answers a line: its reply goes to the end of `out`, and the result says whether the line was refused.
pub fn answer_line(
    alloc: Global,
    world: &mut World,
    line: &[u8],
    out: &mut Vec<u8>,
) -> Result<bool, NoMemory>
    ensures { IfOk result (λ refused. (text : List ℕ) × (out.new.items ≡ out.old.items ++ text)
        × Step world.old line.now (record { text = text; after = world.new; refused = refused }) × Keeps world.old world.new) }
{
    let reply = reply_to(alloc, world, line)?;
    push_reply(out, world.topology(), &reply)?;
    Ok(is_refusal(&reply))
}

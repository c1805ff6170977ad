ghost use Rattle.std.specs.Prelude.{◌≡◌, IfOk};
ghost use Rattle.line_terms.specs.Commands.{Corners};
ghost use Rattle.script_terms.specs.Answer.{Answers};
ghost use Rattle.script_terms.specs.State.{desk_of};
ghost use Rattle.reply_text.specs.Replies.{said_of};

use crate::world::World;
use cell_corners::corners_of_cells;
use grid_plane::NoMemory;
use reply_text::{Refusal, Reply};
use topo_core::Key;
use topology_terms::Cause;

impl World {
    /// `corners R H H2`
    #[tactic(auto, using(crate::proofs::ErrorCorners::corners_listed, crate::proofs::ErrorCorners::corners_refused))]
    pub(crate) fn answer_corners(&self, key: Key) -> Result<Reply, NoMemory>
        ensures { IfOk result (λ r. Answers (desk_of self.now) (Corners key.rule key.subject key.other) (said_of self.now.project r) (desk_of self.now)) }
    {
        let Some(entry) = self.tree.current().errors().find(key) else {
            return Ok(Reply::Refused(Refusal::Change(Cause::NoError)));
        };
        let corners = corners_of_cells(self.alloc, entry.cells())?;
        Ok(Reply::CornerList(corners))
    }
}
